//! What happened: one event for each step of the machine.
use ix_types::FileName;

/// A step, with the names that its line shows.
#[derive(Clone, Copy, Debug, PartialEq, Eq)]
pub enum Call {
    /// Makes a unit visible.
    Publish { unit: FileName },
    /// Opens an import of the units that are visible.
    Scan,
    /// Makes the open import the current version, which the lane then holds.
    Install,
    /// The lane takes up the current version.
    Adopt,
}

/// How a step ended. A mark is a number of publications.
#[derive(Clone, Copy, Debug, PartialEq, Eq)]
pub enum Outcome {
    /// The change is made and lasts.
    Synced,
    /// A visible unit of that name has another output path.
    Clash,
    /// The step ended at the version of this mark.
    At { mark: u64 },
}

/// A step of a lane, and how it ended.
#[derive(Clone, Copy, Debug, PartialEq, Eq)]
pub struct Event {
    pub lane: u32,
    pub call: Call,
    pub outcome: Outcome,
}
