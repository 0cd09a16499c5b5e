//! What a lane does next.
use ix_record::Body;
use ix_types::{FileName, Query, Seq, Text};
use ix_unit::UnitValue;
use std::sync::Arc;

/// What a lane does next: a call with what it is given, the open import, or the open ask.
#[derive(Clone, Copy, Debug)]
pub enum Turn<'a> {
    Lease(&'a Seq<FileName>),
    Put(&'a Body),
    Stage(&'a Arc<UnitValue>),
    Publish,
    Remove(&'a Text),
    Scan,
    /// The load of the next fresh record, or the install where none is left.
    Import,
    Adopt,
    Release,
    Collect,
    /// The load of the next needed record, or the answer where none is lacking.
    Ask(&'a Query),
}
