//! Why a unit file wasn't made ready, and why a scan gave nothing.
ghost use Rattle.std.specs.Prelude.{◌≡◌};
ghost use Rattle.ix_dir.specs.declared.dir.DirError.{DirError};
ghost use Rattle.ix_cabinet.specs.declared.fault.StageError.TheVariants as stage;
ghost use Rattle.ix_cabinet.specs.declared.fault.ScanError.TheVariants as scan;
ghost use Rattle.ix_cabinet.specs.Fault.{stage_error, scan_error};

use ix_dir::DirError;
use ix_types::{FileName, Memory};
use std::alloc::{AllocError, AllocFailed};
use thiserror::Error;

/// Why a unit file wasn't made ready.
#[derive(Clone, Copy, Debug, Drop, PartialEq, Eq, Error)]
pub enum StageError {
    /// The directory failed.
    #[error("the directory failed")]
    Fault,
    /// Memory was wanting.
    #[error("memory")]
    Memory,
}

impl From<DirError> for StageError {
    ghost from_gives = { λ e stage. stage ≡ stage_error e };

    fn from(e: DirError) -> StageError {
        match e {
            DirError::Failed => StageError::Fault,
            DirError::Memory => StageError::Memory,
        }
    }
}

impl From<Memory> for StageError {
    ghost from_gives = { λ _ e. e ≡ stage.Memory };

    fn from(_wanting: Memory) -> StageError {
        StageError::Memory
    }
}

/// Why a scan gave nothing.
#[derive(Clone, Copy, Debug, Drop, PartialEq, Eq, Error)]
pub enum ScanError {
    /// The directory failed.
    #[error("the directory failed")]
    Fault,
    /// A listed file gave nothing. Never over a directory that tells its moves.
    #[error("no unit file {name:?}, which was listed")]
    Lost { name: FileName },
    /// A file is none of a unit of this name. Never over a directory that tells its moves.
    #[error("the file {name:?} isn't that of a unit of this name")]
    Damaged { name: FileName },
    /// Memory was wanting.
    #[error("memory")]
    Memory,
}

impl From<DirError> for ScanError {
    ghost from_gives = { λ e scan. scan ≡ scan_error e };

    fn from(e: DirError) -> ScanError {
        match e {
            DirError::Failed => ScanError::Fault,
            DirError::Memory => ScanError::Memory,
        }
    }
}

impl From<AllocError> for ScanError {
    ghost from_gives = { λ _ e. e ≡ scan.Memory };

    fn from(_wanting: AllocError) -> ScanError {
        ScanError::Memory
    }
}

impl<T: Drop> From<AllocFailed<T>> for ScanError {
    ghost from_gives = { λ _ e. e ≡ scan.Memory };

    fn from(_wanting: AllocFailed<T>) -> ScanError {
        ScanError::Memory
    }
}
