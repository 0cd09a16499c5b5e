//! How asks end.
use ix_types::{Row, Seq};

/// How an ask ended.
#[derive(Debug, Drop, PartialEq, Eq)]
pub enum AskResult {
    /// The rows of the answer.
    Rows(Seq<Row>),
    /// The lane held no version.
    NoneHeld,
    /// The directory failed in a load.
    Fault,
    /// A record that a load asked for wasn't there.
    Lost,
    /// A record that a load asked for isn't what its name says.
    Damaged,
}

/// An ask's result. The mark is that of the version that was held, and None exactly with `NoneHeld`.
#[derive(Debug, Drop, PartialEq, Eq)]
pub struct Answered {
    pub mark: Option<u64>,
    pub result: AskResult,
}
