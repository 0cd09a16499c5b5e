//! What a lane is at.

/// How far the task under way is.
#[derive(Clone, Copy, Debug, PartialEq, Eq)]
pub enum Doing {
    /// No call of it ended yet.
    Begun,
    /// A build has its lease, and so many files of its records are put.
    Putting { files: u64 },
    /// A build has staged its unit.
    Staged,
    /// A poll has its scan, of this mark, and so many of its records are loaded.
    Importing { mark: u64, records: u64 },
}

/// Of which kind the task under way is.
#[derive(Clone, Copy, Debug, PartialEq, Eq)]
pub enum Kind {
    /// No task is left.
    Ended,
    Build,
    Remove,
    Poll,
    Refresh,
    Ask,
    Release,
    Collect,
}
