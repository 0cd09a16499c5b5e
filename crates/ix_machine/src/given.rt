//! What a call of the machine is given.
use crate::event::Purpose;
use ix_record::Body;
use ix_types::{FileName, Seq, Text};
use ix_unit::UnitValue;
use std::sync::Arc;

/// A call, with what it is given.
#[derive(Clone, Copy, Debug)]
pub enum Given<'a> {
    Lease(&'a Seq<FileName>),
    Put(&'a Body),
    Stage(&'a Arc<UnitValue>),
    Publish,
    Remove(&'a Text),
    Scan,
    Load(FileName, Purpose),
    Install,
    Adopt,
    Release,
    Collect,
}
