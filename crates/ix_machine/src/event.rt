//! What happened: one event for each step of the machine.
use ix_types::{FileName, Seq};

/// A step, with the names that its line shows.
#[derive(Debug, Drop, PartialEq, Eq)]
pub enum Call {
    /// Keeps records of these names from the collector.
    Lease { names: Seq<FileName> },
    /// Writes a record file.
    Put { name: FileName },
    /// Makes a unit file ready.
    Stage { unit: FileName },
    /// Makes the staged unit visible.
    Publish { unit: FileName },
    /// Takes a unit away.
    Remove { unit: FileName },
    /// Opens an import of the units that are visible.
    Scan,
    /// Reads a record.
    Load { name: FileName },
    /// Makes the open import the current version, which the lane then holds.
    Install,
    /// The lane takes up the current version.
    Adopt,
    /// The lane holds no version any more.
    Release,
    /// Removes a record file that nothing needs.
    Collect,
}

/// How a step ended. A mark is a number of publications.
#[derive(Clone, Copy, Debug, PartialEq, Eq)]
pub enum Outcome {
    /// The step is made.
    Done,
    /// The record was written.
    Written,
    /// The record stood there before.
    Shared,
    /// A record or a unit of that name, but another one, stands in the way.
    Clash,
    /// The change is made and lasts.
    Synced,
    /// The change is made, and a crash may undo it.
    Unsynced,
    /// No visible unit has that output path.
    NoUnit,
    /// The step ended at the version of this mark.
    At { mark: u64 },
    /// The record file of this name was removed.
    Removed { name: FileName },
    /// Each record file is needed.
    Nothing,
    /// The directory failed.
    Fault,
    /// The file of this name wasn't there.
    Lost { name: FileName },
    /// The file of this name isn't what its name says.
    Damaged { name: FileName },
}

/// A step of a lane, and how it ended.
#[derive(Debug, Drop, PartialEq, Eq)]
pub struct Event {
    pub lane: u32,
    pub call: Call,
    pub outcome: Outcome,
}

/// What a record is loaded for.
#[derive(Clone, Copy, Debug, PartialEq, Eq)]
pub enum Purpose {
    /// For the open import.
    Import,
    /// For an ask of the lane.
    Ask,
}
