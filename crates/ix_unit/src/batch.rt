//! What a scan of the units brings.
use crate::value::UnitValue;
use ix_types::{FileName, Seq};
use std::sync::Arc;

/// A unit that was put, with its file's name.
#[derive(Debug, Drop, PartialEq, Eq)]
pub struct UnitPut {
    pub name: FileName,
    pub unit: Arc<UnitValue>,
}

/// What leads from one map of units to a later one.
#[derive(Debug, Drop, PartialEq, Eq)]
pub struct Batch {
    pub puts: Seq<UnitPut>,
    pub gone: Seq<FileName>,
}

/// The units up to `mark`, the number of publications: the batch that leads there, and the names of the records that
/// the units need since.
#[derive(Debug, Drop, PartialEq, Eq)]
pub struct Scan {
    pub mark: u64,
    pub batch: Batch,
    pub fresh: Seq<FileName>,
}
