//! The open import.

/// The lane that opened the import that is open, and the mark of what it sees.
#[derive(Clone, Copy, Debug, PartialEq, Eq)]
pub struct Import {
    pub lane: u32,
    pub mark: u64,
}
