//! Reads fields from the left.
ghost use Rattle.std.specs.Prelude.{◌≡◌, ◌↔◌, ◌⊎◌, [], IsOk, IfOk, IfErr, OnErr, OnOk, Ok, Err, false, IsTrue};
ghost use Rattle.ix_wire.specs.Reading.{u32_at, u64_at, text_at, text_of, is_text};

use crate::fault::WireError;
use ix_types::{Text, TextError};
use std::alloc::Global;
use std::marker::Model;

/// Bytes that are still to be read, and how many were read before them.
#[derive(Debug, Drop)]
pub struct Cursor<'a> {
    rest: &'a [u8],
    at: u64,
}

impl<'a> Model for Cursor<'a> {
    ghost use Rattle.std.specs.Prelude.{◌+◌, ◌^◌, ◌<◌, length};
    ghost use Rattle.ix_wire.specs.Input.{Input};

    ghost Value = { Input };

    ghost view = { λ c. record { at = c.at; rest = c.rest.now } };

    ghost invariant = { λ c. c.at + length c.rest.now < 2 ^ 64 };
}

impl<'a> Cursor<'a> {
    /// Stands before the first of the bytes.
    pub fn new(bytes: &'a [u8]) -> Cursor<'a>
        ensures { result ≡ record { at = 0; rest = bytes.now } }
    {
        Cursor { rest: bytes, at: 0 }
    }

    /// How many bytes were read.
    pub fn at(&self) -> u64
        ensures { result ≡ self.now.at }
    {
        self.at
    }

    /// Reads a number of four bytes, the most significant first.
    #[tactic(auto, unfolding(crate::specs::Reading::u32_at))]
    pub fn u32(&mut self) -> Result<u32, WireError>
        ensures read { IfOk result (λ n. u32_at self.old ≡ Ok (n, self.new)) }
        ensures refused { IfErr result (λ e. u32_at self.old ≡ Err e) }
        ensures stays { OnErr result (self.new ≡ self.old) }
    {
        if self.rest.len() < 4 {
            return Err(WireError::Short { at: self.at });
        }
        let (front, rest) = self.rest.split_at(4);
        let number = u32::from_be_bytes([front[0], front[1], front[2], front[3]]);
        self.rest = rest;
        self.at += 4;
        Ok(number)
    }

    /// Reads a number of eight bytes, the most significant first.
    #[tactic(auto, unfolding(crate::specs::Reading::u64_at))]
    pub fn u64(&mut self) -> Result<u64, WireError>
        ensures read { IfOk result (λ n. u64_at self.old ≡ Ok (n, self.new)) }
        ensures refused { IfErr result (λ e. u64_at self.old ≡ Err e) }
        ensures stays { OnErr result (self.new ≡ self.old) }
    {
        if self.rest.len() < 8 {
            return Err(WireError::Short { at: self.at });
        }
        let (front, rest) = self.rest.split_at(8);
        let number = u64::from_be_bytes([
            front[0], front[1], front[2], front[3], front[4], front[5], front[6], front[7],
        ]);
        self.rest = rest;
        self.at += 8;
        Ok(number)
    }

    /// Reads a text: its length in bytes as a number of four bytes, and the bytes. A length above 4,096 is
    /// refused before the bytes are looked for.
    #[tactic(auto, unfolding(crate::specs::Reading::text_at))]
    pub fn text(&mut self, alloc: Global, may_be_empty: bool) -> Result<Text, WireError>
        ensures read { IfOk result (λ t. text_at may_be_empty self.old ≡ Ok (t, self.new)) }
        ensures refused { IfErr result (λ e. (e ≡ WireError.Memory) ⊎ (text_at may_be_empty self.old ≡ Err e)) }
        ensures stays { OnErr result (self.new ≡ self.old) }
    {
        let mut ahead = Cursor {
            rest: self.rest,
            at: self.at,
        };
        let len = ahead.u32()?;
        let text = ahead.text_of(alloc, may_be_empty, self.at, len)?;
        *self = ahead;
        Ok(text)
    }

    /// Reads the bytes of a text of that length, in a field that begins at `start`.
    #[tactic(auto, unfolding(crate::specs::Reading::text_of))]
    fn text_of(
        &mut self,
        alloc: Global,
        may_be_empty: bool,
        start: u64,
        len: u32,
    ) -> Result<Text, WireError>
        ensures read { IfOk result (λ t. text_of may_be_empty start len self.old ≡ Ok (t, self.new)) }
        ensures refused { IfErr result (λ e. (e ≡ WireError.Memory) ⊎ (text_of may_be_empty start len self.old ≡ Err e)) }
    {
        if len as usize > Text::MAX_LEN {
            return Err(WireError::TooLong { at: start });
        }
        if self.rest.len() < len as usize {
            return Err(WireError::Short { at: start });
        }
        let (bytes, rest) = self.rest.split_at(len as usize);
        let text = checked(alloc, may_be_empty, start, bytes)?;
        self.rest = rest;
        self.at += u64::from(len);
        Ok(text)
    }

    /// Wants that no byte is left.
    pub fn end(&self) -> Result<(), WireError>
        ensures read { IsOk result ↔ (self.now.rest ≡ []) }
        ensures refused { IfErr result (λ e. e ≡ WireError.Trailing self.now.at) }
    {
        if self.rest.is_empty() {
            Ok(())
        } else {
            Err(WireError::Trailing { at: self.at })
        }
    }
}

/// The text that the bytes are, in a field that begins at `start`.
#[tactic(auto, unfolding(crate::specs::Reading::is_text))]
fn checked(alloc: Global, may_be_empty: bool, start: u64, bytes: &[u8]) -> Result<Text, WireError>
    ensures text { IfOk result (λ t. t ≡ bytes.now) }
    ensures accepted { OnOk result (IsTrue (is_text may_be_empty bytes.now)) }
    ensures refused { IfErr result (λ e. (e ≡ WireError.Memory) ⊎ ((e ≡ WireError.BadText start) × (is_text may_be_empty bytes.now ≡ false))) }
{
    let read = if may_be_empty {
        Text::read_or_empty(alloc, bytes)
    } else {
        Text::read(alloc, bytes)
    };
    match read {
        Ok(text) => Ok(text),
        Err(TextError::Memory) => Err(WireError::Memory),
        Err(_) => Err(WireError::BadText { at: start }),
    }
}
