//! The dependencies of a unit as they stand in its file: in one list, by kind.
use crate::value::{FileDep, RecordDep};
use ix_types::{Seq, Text};

/// The numbers of the kinds.
pub const UNIT: u32 = 1;

pub const RECORD: u32 = 2;

pub const FILE: u32 = 3;

/// A dependency of any kind. The kinds stand in the order in which dependencies are sorted.
#[derive(Debug, Drop, PartialEq, Eq, PartialOrd, Ord)]
pub enum Dependency {
    /// The unit that wrote this output.
    Unit(Text),
    Record(RecordDep),
    File(FileDep),
}

/// The dependencies of each kind, in their order.
#[derive(Debug, Drop, PartialEq, Eq)]
pub struct ByKind {
    pub units: Seq<Text>,
    pub records: Seq<RecordDep>,
    pub files: Seq<FileDep>,
}
