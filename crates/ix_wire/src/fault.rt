//! Why a field could not be read.
use thiserror::Error;

/// What is wrong with a field. A place is the number of bytes before the field.
#[derive(Clone, Copy, Debug, PartialEq, Eq, Error)]
pub enum WireError {
    /// Fewer bytes are left than the field needs.
    #[error("bytes are missing at byte {at}")]
    Short { at: u64 },
    /// The bytes of the field are no text.
    #[error("no text at byte {at}")]
    BadText { at: u64 },
    /// The length of the text is above 4,096.
    #[error("a text at byte {at} is too long")]
    TooLong { at: u64 },
    /// Bytes are left.
    #[error("bytes are left from byte {at} on")]
    Trailing { at: u64 },
    /// Memory was wanting.
    #[error("memory")]
    Memory,
}
