//! What a unit file holds.
use ix_types::{FileName, Seq, Text};

/// `IXU1`, the four bytes that a unit file begins with, as a number.
pub const MAGIC: u32 = 0x4958_5531;

/// A source file with its record. The fields stand in the order in which such files are sorted.
#[derive(Debug, Drop, PartialEq, Eq, PartialOrd, Ord)]
pub struct RecordDep {
    pub path: Text,
    pub system: bool,
    pub name: FileName,
}

/// A source file that has no record. The fields stand in the order in which such files are sorted.
#[derive(Debug, Drop, PartialEq, Eq, PartialOrd, Ord)]
pub struct FileDep {
    pub path: Text,
    pub system: bool,
}

/// An include at a line, counted from 1. The fields stand in the order in which includes are sorted.
#[derive(Debug, Drop, PartialEq, Eq, PartialOrd, Ord)]
pub struct Include {
    pub from: Text,
    pub line: u32,
    pub to: Text,
}

/// What one compilation wrote and depends on.
#[derive(Debug, Drop, PartialEq, Eq)]
pub struct UnitValue {
    pub output: Text,
    pub main_file: Text,
    pub module_name: Text,
    pub system: bool,
    pub units: Seq<Text>,
    pub records: Seq<RecordDep>,
    pub files: Seq<FileDep>,
    pub includes: Seq<Include>,
}
