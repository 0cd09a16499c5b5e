//! A record file with its name.
use ix_types::{FileName, Seq};

/// A record file: its name, and its bytes.
#[derive(Debug, Drop, PartialEq, Eq)]
pub struct Body {
    pub name: FileName,
    pub bytes: Seq<u8>,
}
