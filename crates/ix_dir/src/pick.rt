//! How a crash chooses.

/// Which of the values that a crash may leave a name takes, in order of time.
#[derive(Clone, Copy, Debug, Drop, PartialEq, Eq)]
pub enum Pick {
    /// The first: what stood there at the last sync.
    Oldest,
    /// The last: what stands there now.
    Newest,
    /// For the i-th name in rising order, i from 0, the value of number n + i, counted from 0 and round again.
    Nth(u64),
}
