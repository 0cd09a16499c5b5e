//! Why bytes are no unit file.
ghost use Rattle.std.specs.Prelude.{◌≡◌};
ghost use Rattle.ix_unit.specs.declared.fault.UnitError.TheVariants.{Memory};
ghost use Rattle.ix_unit.specs.Fault.{unit_error};

use ix_wire::WireError;
use std::alloc::{AllocError, AllocFailed};
use thiserror::Error;

/// The first fault of the bytes, from the left. A place is the number of bytes before it.
#[derive(Clone, Copy, Debug, PartialEq, Eq, Error)]
pub enum UnitError {
    /// The first four bytes are other than those of a unit file.
    #[error("not a unit file")]
    BadMagic,
    /// Fewer bytes are left than a field needs.
    #[error("bytes are missing")]
    Short,
    /// The field at `at` has a value that isn't allowed.
    #[error("bad field at byte {at}")]
    BadField { at: u64 },
    /// The dependency or include at `at` isn't greater than the one before.
    #[error("out of order at byte {at}")]
    OutOfOrder { at: u64 },
    /// Bytes are left from `at` on.
    #[error("bytes are left from byte {at} on")]
    Trailing { at: u64 },
    /// The 32 bytes behind the includes aren't the SHA-256 of the bytes before them.
    #[error("wrong digest")]
    BadDigest,
    /// Memory was wanting.
    #[error("memory")]
    Memory,
}

impl From<WireError> for UnitError {
    ghost from_gives = { λ fault e. e ≡ unit_error fault };

    fn from(fault: WireError) -> UnitError {
        match fault {
            WireError::Short { at: _ } => UnitError::Short,
            WireError::BadText { at } | WireError::TooLong { at } => UnitError::BadField { at },
            WireError::Trailing { at } => UnitError::Trailing { at },
            WireError::Memory => UnitError::Memory,
        }
    }
}

impl From<AllocError> for UnitError {
    ghost from_gives = { λ _ e. e ≡ Memory };

    fn from(_wanting: AllocError) -> UnitError {
        UnitError::Memory
    }
}

impl<T: Drop> From<AllocFailed<T>> for UnitError {
    ghost from_gives = { λ _ e. e ≡ Memory };

    fn from(_wanting: AllocFailed<T>) -> UnitError {
        UnitError::Memory
    }
}
