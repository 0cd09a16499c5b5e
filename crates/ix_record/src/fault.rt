//! Why bytes are no record file.
ghost use Rattle.std.specs.Prelude.{◌≡◌};
ghost use Rattle.ix_record.specs.declared.fault.RecordError.TheVariants.{Memory};
ghost use Rattle.ix_record.specs.Fault.{record_error};

use ix_wire::WireError;
use std::alloc::{AllocError, AllocFailed};
use thiserror::Error;

/// The first fault of the bytes, from the left. A place is the number of bytes before it.
#[derive(Clone, Copy, Debug, PartialEq, Eq, Error)]
pub enum RecordError {
    /// The first four bytes are other than those of a record file.
    #[error("not a record file")]
    BadMagic,
    /// Fewer bytes are left than a field needs.
    #[error("bytes are missing")]
    Short,
    /// The field at `at` has a value that isn't allowed.
    #[error("bad field at byte {at}")]
    BadField { at: u64 },
    /// The symbol, relation or occurrence at `at` isn't greater than the one before.
    #[error("out of order at byte {at}")]
    OutOfOrder { at: u64 },
    /// The index at `at` is of no symbol.
    #[error("bad index at byte {at}")]
    BadIndex { at: u64 },
    /// The roles at `at` lack one of a relation.
    #[error("roles missing at byte {at}")]
    RolesMissing { at: u64 },
    /// Bytes are left from `at` on.
    #[error("bytes are left from byte {at} on")]
    Trailing { at: u64 },
    /// Memory was wanting.
    #[error("memory")]
    Memory,
}

impl From<WireError> for RecordError {
    ghost from_gives = { λ fault e. e ≡ record_error fault };

    fn from(fault: WireError) -> RecordError {
        match fault {
            WireError::Short { at: _ } => RecordError::Short,
            WireError::BadText { at } | WireError::TooLong { at } => RecordError::BadField { at },
            WireError::Trailing { at } => RecordError::Trailing { at },
            WireError::Memory => RecordError::Memory,
        }
    }
}

impl From<AllocError> for RecordError {
    ghost from_gives = { λ _ e. e ≡ Memory };

    fn from(_wanting: AllocError) -> RecordError {
        RecordError::Memory
    }
}

impl<T: Drop> From<AllocFailed<T>> for RecordError {
    ghost from_gives = { λ _ e. e ≡ Memory };

    fn from(_wanting: AllocFailed<T>) -> RecordError {
        RecordError::Memory
    }
}
