//! The two areas of a directory.

/// One of the two areas, each of which has files by name.
#[derive(Clone, Copy, Debug, PartialEq, Eq)]
pub enum Area {
    /// The unit files.
    Units,
    /// The record files.
    Records,
}
