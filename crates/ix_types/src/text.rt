//! Texts: UTF-8 without control characters, of at most 4,096 bytes.
ghost use Rattle.std.specs.Prelude.{◌≡◌, ◌⊎◌, None, Some, IfOk, OnOk, IfErr};
ghost use Rattle.std.specs.Prelude.{nat_eq, refl};
ghost use Rattle.std.specs.Ordering.{nat_cmp};
ghost use Rattle.std.specs.Cmp.Lexicographic.{pointwise, slice_cmp, nat_list_eq_equiv, nat_list_cmp_total, texts_ties, texts_po};
ghost use Rattle.std.specs.Cmp.{partial_equiv_from_equiv};
ghost use Rattle.std.specs.Prelude.{position};
ghost use Rattle.ix_types.specs.Text.{is_control, refusal_or_empty};

use std::alloc::{AllocError, Global};
use std::cmp::Ordering;
use std::error::Error;
use std::fmt;
use std::marker::Model;

/// Why bytes are no text. A place is a number of bytes.
#[derive(Clone, Copy, Debug, Drop, PartialEq, Eq)]
pub enum TextError {
    /// There is no byte.
    Empty,
    /// There are more than 4,096 bytes.
    TooLong,
    /// The longest front that is UTF-8 has `at` bytes.
    NotUtf8 { at: u64 },
    /// The first byte from 0 to 31, or that is 127, stands at `at`.
    Control { at: u64 },
    /// Memory was wanting.
    Memory,
}

impl fmt::Display for TextError {
    fn fmt<W: fmt::Write>(&self, f: &mut fmt::Formatter<W>) -> fmt::Result {
        match self {
            TextError::Empty => write!(f, "no bytes"),
            TextError::TooLong => write!(f, "more than 4096 bytes"),
            TextError::NotUtf8 { at } => write!(f, "not UTF-8 at byte {at}"),
            TextError::Control { at } => write!(f, "a control character at byte {at}"),
            TextError::Memory => write!(f, "memory"),
        }
    }
}

impl Error for TextError {}

/// A text, seen as its bytes.
#[derive(Drop)]
pub struct Text {
    bytes: Vec<u8>,
}

impl Model for Text {
    ghost use Rattle.std.specs.Prelude.{List, ℕ};
    ghost use Rattle.ix_types.specs.Text.{IsTextOrEmpty};

    ghost Value = { List ℕ };

    ghost view = { λ t. t.bytes.items };

    ghost invariant = { λ t. IsTextOrEmpty t.bytes.items };
}

impl Text {
    ghost use Rattle.ix_types.specs.Text.{refusal, IsTextOrEmpty};

    /// The most bytes that a text has.
    pub const MAX_LEN: usize = 4096;

    /// The text that the bytes are, of at least one byte.
    pub fn read(alloc: Global, bytes: &[u8]) -> Result<Text, TextError>
        ensures text { IfOk result (λ t. t ≡ bytes.now) }
        ensures accepted { OnOk result (refusal bytes.now ≡ None) }
        ensures refused { IfErr result (λ e. (e ≡ TextError.Memory) ⊎ (refusal bytes.now ≡ Some e)) }
    {
        if bytes.is_empty() {
            return Err(TextError::Empty);
        }
        Text::read_or_empty(alloc, bytes)
    }

    /// The text that the bytes are, which may be empty.
    pub fn read_or_empty(alloc: Global, bytes: &[u8]) -> Result<Text, TextError>
        ensures text { IfOk result (λ t. t ≡ bytes.now) }
        ensures accepted { OnOk result (refusal_or_empty bytes.now ≡ None) }
        ensures refused { IfErr result (λ e. (e ≡ TextError.Memory) ⊎ (refusal_or_empty bytes.now ≡ Some e)) }
    {
        if let Some(fault) = fault_of(bytes) {
            return Err(fault);
        }
        match Vec::from_slice(alloc, bytes) {
            Ok(bytes) => Ok(Text { bytes }),
            Err(_) => Err(TextError::Memory),
        }
    }

    /// The bytes, which are UTF-8.
    pub fn bytes(&self) -> &[u8]
        ensures value { result.now ≡ self.now }
        ensures text { IsTextOrEmpty self.now }
    {
        self.bytes.as_slice()
    }
}

/// Why bytes are no text that may be empty.
fn fault_of(bytes: &[u8]) -> Option<TextError>
    ensures { result ≡ refusal_or_empty bytes.now }
{
    if bytes.len() > Text::MAX_LEN {
        return Some(TextError::TooLong);
    }
    match str::from_utf8(bytes) {
        Err(fault) => Some(TextError::NotUtf8 {
            at: fault.valid_up_to() as u64,
        }),
        Ok(_) => match control_at(bytes) {
            Some(at) => Some(TextError::Control { at: at as u64 }),
            None => None,
        },
    }
}

/// Where the first control byte stands.
fn control_at(bytes: &[u8]) -> Option<usize>
    ensures { result ≡ position is_control bytes.now }
{
    bytes.iter().position(|byte| *byte < 32 || *byte == 127)
}

/// As a `str`.
impl fmt::Debug for Text {
    fn fmt<W: fmt::Write>(&self, f: &mut fmt::Formatter<W>) -> fmt::Result {
        match str::from_utf8(self.bytes()) {
            Ok(text) => write!(f, "{text:?}"),
            Err(_) => Err(fmt::Error),
        }
    }
}

impl Clone for Text {
    ghost is_clone = { λ text copy. copy ≡ text };

    fn clone(&self) -> Result<Text, AllocError> {
        let bytes = Vec::from_slice(*self.bytes.allocator(), self.bytes.as_slice())?;
        Ok(Text { bytes })
    }
}

impl PartialEq for Text {
    ghost eq = { pointwise nat_eq };

    ghost laws = { partial_equiv_from_equiv nat_list_eq_equiv };

    fn eq(&self, other: &Text) -> bool {
        self.bytes() == other.bytes()
    }
}

impl Eq for Text {
    ghost laws = { nat_list_eq_equiv };
}

impl PartialOrd for Text {
    ghost partial_cmp = { λ x y. Some (slice_cmp nat_cmp x y) };

    ghost laws = { texts_po };

    fn partial_cmp(&self, other: &Text) -> Option<Ordering> {
        Some(self.cmp(other))
    }
}

impl Ord for Text {
    ghost cmp = { slice_cmp nat_cmp };

    ghost total = { nat_list_cmp_total };

    ghost matches_partial_cmp = { λ x y. refl };

    ghost matches_eq = { texts_ties };

    fn cmp(&self, other: &Text) -> Ordering {
        self.bytes().cmp(other.bytes())
    }
}
