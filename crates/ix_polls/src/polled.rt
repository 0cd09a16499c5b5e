//! How a turn ended.
use ix_machine::Outcome;
use ix_tables::Version;
use std::sync::Arc;

/// How a turn ended, and the version that the lane holds from now on, where it took one up.
#[derive(Drop)]
pub struct Polled {
    pub outcome: Outcome,
    pub version: Option<Arc<Version>>,
}
