//! Why a record file wasn't put, and why it wasn't read.
ghost use Rattle.std.specs.Prelude.{◌≡◌};
ghost use Rattle.ix_dir.specs.declared.dir.DirError.{DirError};
ghost use Rattle.ix_shelf.specs.declared.fault.PutError.TheVariants as put;
ghost use Rattle.ix_shelf.specs.declared.fault.LoadError.TheVariants as load;
ghost use Rattle.ix_shelf.specs.Fault.{put_error, load_error};

use ix_dir::DirError;
use ix_types::{Failed, FileName};
use std::alloc::{AllocError, AllocFailed};
use thiserror::Error;

/// Why a record file wasn't put.
#[derive(Clone, Copy, Debug, Drop, PartialEq, Eq, Error)]
pub enum PutError {
    /// The directory failed.
    #[error("the directory failed")]
    Fault,
    /// Other bytes stand under the name, which is protected.
    #[error("other bytes stand under the protected name {name:?}")]
    Clash { name: FileName },
    /// Memory was wanting.
    #[error("memory")]
    Memory,
}

impl From<DirError> for PutError {
    ghost from_gives = { λ e put. put ≡ put_error e };

    fn from(e: DirError) -> PutError {
        match e {
            DirError::Failed => PutError::Fault,
            DirError::Memory => PutError::Memory,
        }
    }
}

impl From<Failed> for PutError {
    ghost from_gives = { λ _ e. e ≡ put.Fault };

    fn from(_failed: Failed) -> PutError {
        PutError::Fault
    }
}

/// Why a record file wasn't read.
#[derive(Clone, Copy, Debug, Drop, PartialEq, Eq, Error)]
pub enum LoadError {
    /// The directory failed.
    #[error("the directory failed")]
    Fault,
    /// There is no such file. Never over a directory that tells its moves.
    #[error("no record file {name:?}")]
    Lost { name: FileName },
    /// The file isn't what its name says. Never over a directory that tells its moves.
    #[error("the record file {name:?} isn't what its name says")]
    Damaged { name: FileName },
    /// Memory was wanting.
    #[error("memory")]
    Memory,
}

impl From<DirError> for LoadError {
    ghost from_gives = { λ e load. load ≡ load_error e };

    fn from(e: DirError) -> LoadError {
        match e {
            DirError::Failed => LoadError::Fault,
            DirError::Memory => LoadError::Memory,
        }
    }
}

impl From<AllocError> for LoadError {
    ghost from_gives = { λ _ e. e ≡ load.Memory };

    fn from(_wanting: AllocError) -> LoadError {
        LoadError::Memory
    }
}

impl<T: Drop> From<AllocFailed<T>> for LoadError {
    ghost from_gives = { λ _ e. e ≡ load.Memory };

    fn from(_wanting: AllocFailed<T>) -> LoadError {
        LoadError::Memory
    }
}
