//! What a lane's call gave it.
use ix_machine::Outcome;
use ix_record::RecordValue;
use ix_tables::Version;
use ix_types::FileName;
use std::sync::Arc;

/// How a lane's call ended, with what it gave the lane.
#[derive(Drop)]
pub enum Made {
    /// It ended so.
    Ended(Outcome),
    /// A record was loaded for the ask under way.
    Loaded(FileName, Arc<RecordValue>),
    /// The lane holds this version from now on.
    TakenUp(Outcome, Arc<Version>),
    /// The lane holds nothing from now on.
    LetGo(Outcome),
}
