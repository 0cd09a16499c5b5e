//! Why a step changed nothing, and how a collect ended.
ghost use Rattle.std.specs.Prelude.{◌≡◌};
ghost use Rattle.ix_library.specs.declared.fault.PublishError.TheVariants as publish;
ghost use Rattle.ix_library.specs.declared.fault.RemoveError.TheVariants as remove;
ghost use Rattle.ix_library.specs.declared.fault.CollectError.TheVariants as collect;

use ix_types::{FileName, Memory};
use thiserror::Error;

/// Why a unit wasn't published.
#[derive(Clone, Copy, Debug, Drop, PartialEq, Eq, Error)]
pub enum PublishError {
    /// The directory failed.
    #[error("the directory failed")]
    Fault,
    /// A visible unit of the name has another output path.
    #[error("the name {name:?} is that of another output path")]
    Clash { name: FileName },
    /// Memory was wanting.
    #[error("memory")]
    Memory,
}

impl From<Memory> for PublishError {
    ghost from_gives = { λ _ e. e ≡ publish.Memory };

    fn from(_wanting: Memory) -> PublishError {
        PublishError::Memory
    }
}

/// Why a unit wasn't removed.
#[derive(Clone, Copy, Debug, Drop, PartialEq, Eq, Error)]
pub enum RemoveError {
    /// The directory failed.
    #[error("the directory failed")]
    Fault,
    /// No visible unit has the output path.
    #[error("no unit {name:?}")]
    NoUnit { name: FileName },
    /// Memory was wanting.
    #[error("memory")]
    Memory,
}

impl From<Memory> for RemoveError {
    ghost from_gives = { λ _ e. e ≡ remove.Memory };

    fn from(_wanting: Memory) -> RemoveError {
        RemoveError::Memory
    }
}

/// How a collect ended.
#[derive(Clone, Copy, Debug, PartialEq, Eq)]
pub enum Collected {
    /// No record file is loose.
    Nothing,
    /// The least loose record file was removed.
    Removed { name: FileName },
}

/// Why a collect removed nothing.
#[derive(Clone, Copy, Debug, Drop, PartialEq, Eq, Error)]
pub enum CollectError {
    /// The directory failed.
    #[error("the directory failed")]
    Fault,
    /// Memory was wanting.
    #[error("memory")]
    Memory,
}

impl From<Memory> for CollectError {
    ghost from_gives = { λ _ e. e ≡ collect.Memory };

    fn from(_wanting: Memory) -> CollectError {
        CollectError::Memory
    }
}
