//! What a run shows.
use ix_lanes::Answered;
use ix_machine::{Event, Refused};
use ix_types::Seq;

/// The unit files that opening refused, the events in order, and for each lane the results of its asks in order.
#[derive(Debug, Drop, PartialEq, Eq)]
pub struct Transcript {
    pub refused: Seq<Refused>,
    pub events: Seq<Event>,
    pub answers: Seq<Seq<Answered>>,
}
