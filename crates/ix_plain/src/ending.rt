//! How a replay may end, and the exit status of each ending.
ghost use Rattle.std.specs.Prelude.{◌≡◌, true, false};
ghost use Rattle.std.specs.List.{list_any};
ghost use Rattle.ix_plain.specs.Ending.{MayRun, after_events, is_whole, is_write_fault, status_of};
ghost use Rattle.ix_turns.specs.Ended.{is_missed};
ghost use Rattle.ix_counts.specs.Counting.{is_failure};

use ix_machine::{Event, Outcome};
use ix_plan::ScriptRefusal;

/// How a replay ended.
#[derive(Debug, Drop, PartialEq, Eq)]
pub enum Ending {
    /// The text was written whole, and no event says that something failed.
    Done,
    /// The script is refused.
    BadScript(ScriptRefusal),
    /// The text was written whole. An event says fault or unsynced, and none lost or damaged.
    DirFault,
    /// A write to the sink failed.
    WriteFault,
    /// Memory was wanting.
    Memory,
    /// There are more bytes than a script has.
    TooLarge,
    /// The directory failed while the store was opened.
    OpenFault,
    /// The text was written whole, and an event says lost or damaged.
    StoreDamaged,
}

impl Ending {
    /// The exit status: 0, 2, 3, 5, 6, 7, 8 and 9, as the variants stand.
    pub fn status(&self) -> u8
        ensures { result ≡ status_of self.now }
    {
        match self {
            Ending::Done => 0,
            Ending::BadScript(_) => 2,
            Ending::DirFault => 3,
            Ending::WriteFault => 5,
            Ending::Memory => 6,
            Ending::TooLarge => 7,
            Ending::OpenFault => 8,
            Ending::StoreDamaged => 9,
        }
    }
}

/// How a replay of these events ends whose text was written whole: lost and damaged come before fault and unsynced.
pub(crate) fn after_events(events: &[Event]) -> Ending
    ensures told { result ≡ after_events events.now }
    ensures whole { is_whole result ≡ true }
    ensures ran { MayRun result true }
    ensures written { is_write_fault result ≡ false }
{
    if some_missed(events) {
        return Ending::StoreDamaged;
    }
    if some_failed(events) {
        return Ending::DirFault;
    }
    Ending::Done
}

/// Whether an event says lost or damaged.
fn some_missed(events: &[Event]) -> bool
    ensures { result ≡ list_any (λ event. is_missed event.outcome) events.now }
{
    events.iter().any(|event| is_missed(event.outcome))
}

/// Whether an event says fault or unsynced.
fn some_failed(events: &[Event]) -> bool
    ensures { result ≡ list_any (λ event. is_failure event.outcome) events.now }
{
    events.iter().any(|event| is_failure(event.outcome))
}

/// Whether the outcome says lost or damaged.
fn is_missed(outcome: Outcome) -> bool
    ensures { result ≡ is_missed outcome }
{
    match outcome {
        Outcome::Lost { .. } | Outcome::Damaged { .. } => true,
        Outcome::Done
        | Outcome::Written
        | Outcome::Shared
        | Outcome::Clash
        | Outcome::Synced
        | Outcome::Unsynced
        | Outcome::NoUnit
        | Outcome::At { .. }
        | Outcome::Removed { .. }
        | Outcome::Nothing
        | Outcome::Fault => false,
    }
}

/// Whether the outcome says fault or unsynced.
fn is_failure(outcome: Outcome) -> bool
    ensures { result ≡ is_failure outcome }
{
    match outcome {
        Outcome::Fault | Outcome::Unsynced => true,
        Outcome::Done
        | Outcome::Written
        | Outcome::Shared
        | Outcome::Clash
        | Outcome::Synced
        | Outcome::NoUnit
        | Outcome::At { .. }
        | Outcome::Removed { .. }
        | Outcome::Nothing
        | Outcome::Lost { .. }
        | Outcome::Damaged { .. } => false,
    }
}
