//! Why opening gave nothing.
ghost use Rattle.std.specs.Prelude.{◌≡◌};
ghost use Rattle.ix_dir.specs.declared.dir.DirError.{DirError};
ghost use Rattle.ix_opening.specs.declared.fault.OpenError.TheVariants as failure;
ghost use Rattle.ix_opening.specs.Fault.{open_error};

use ix_dir::DirError;
use ix_types::{Failed, Memory};
use std::alloc::{AllocError, AllocFailed};
use thiserror::Error;

/// Why opening gave nothing.
#[derive(Clone, Copy, Debug, Drop, PartialEq, Eq, Error)]
pub enum OpenError {
    /// The directory failed.
    #[error("the directory failed")]
    Fault,
    /// Memory was wanting.
    #[error("memory")]
    Memory,
}

impl From<DirError> for OpenError {
    ghost from_gives = { λ e failed. failed ≡ open_error e };

    fn from(e: DirError) -> OpenError {
        match e {
            DirError::Failed => OpenError::Fault,
            DirError::Memory => OpenError::Memory,
        }
    }
}

impl From<Failed> for OpenError {
    ghost from_gives = { λ _ e. e ≡ failure.Fault };

    fn from(_failed: Failed) -> OpenError {
        OpenError::Fault
    }
}

impl From<Memory> for OpenError {
    ghost from_gives = { λ _ e. e ≡ failure.Memory };

    fn from(_wanting: Memory) -> OpenError {
        OpenError::Memory
    }
}

impl From<AllocError> for OpenError {
    ghost from_gives = { λ _ e. e ≡ failure.Memory };

    fn from(_wanting: AllocError) -> OpenError {
        OpenError::Memory
    }
}

impl<T: Drop> From<AllocFailed<T>> for OpenError {
    ghost from_gives = { λ _ e. e ≡ failure.Memory };

    fn from(_wanting: AllocFailed<T>) -> OpenError {
        OpenError::Memory
    }
}
