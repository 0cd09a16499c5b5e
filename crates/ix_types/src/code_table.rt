//! Tables of codes and names.
ghost use Rattle.std.specs.Prelude.{◌≡◌, ◌==◌, ◌||◌, ◌↔◌, [], ◌∷◌, ◌++◌, length, IsTrue, IsNone, IfSome, OnOk, OnErr, find, take, vec_len, if◌then◌else◌};
ghost use Rattle.std.specs.Option.{option_copied};
ghost use Rattle.ix_types.specs.Codes.{IsCodeTable, has_code, has_name, name_of_code, code_of_name, words_of};
ghost use Rattle.ix_types.specs.CodeRows.{seen};
ghost use Rattle.std.specs.Int.{bit_at};
ghost use Rattle.std.specs.Str.{bytes_eq};

use crate::failures::Memory;
use arrayvec::ArrayVec;
use std::marker::Model;

/// A row of a table.
#[derive(Clone, Copy, Debug, Default)]
pub(crate) struct CodeRow {
    pub(crate) code: u32,
    pub(crate) name: &'static str,
}

/// At most `N` rows of a code and a name. No two rows have the same code, and no two the same name.
#[derive(Drop, Debug)]
pub struct CodeTable<const N: usize> {
    rows: ArrayVec<CodeRow, N>,
}

impl<const N: usize> Model for CodeTable<N> {
    ghost use Rattle.std.specs.Prelude.{List, ℕ};
    ghost use Rattle.ix_types.specs.Codes.{IsCodeTable};
    ghost use Rattle.ix_types.specs.CodeRows.{seen};

    ghost Value = { List (ℕ × List ℕ) };

    ghost view = { λ t. seen t.rows.items };

    ghost invariant = { λ t. IsCodeTable N (seen t.rows.items) };
}

impl<const N: usize> CodeTable<N> {
    /// The table of no rows.
    pub fn new() -> CodeTable<N>
        ensures { result ≡ [] }
    {
        CodeTable {
            rows: ArrayVec::new(),
        }
    }

    /// The table with one row more at its end; None where it is full, or a row has the code or the name.
    pub fn with(mut self, code: u32, name: &'static str) -> Option<CodeTable<N>>
        ensures refused { IsNone result
            ↔ IsTrue ((length self == N || has_code self code) || has_name self name.now) }
        ensures added { IfSome result (λ table. table ≡ self ++ (code, name.now) ∷ []) }
    {
        if self.rows.is_full() || self.has_code(code) || self.has_name(name) {
            return None;
        }
        self.rows.push(CodeRow { code, name });
        Some(self)
    }

    /// Whether a row has the code.
    fn has_code(&self, code: u32) -> bool
        ensures { result ≡ has_code self.now code }
    {
        row_of_code(self.rows.as_slice(), code).is_some()
    }

    /// Whether a row has the name.
    fn has_name(&self, name: &str) -> bool
        ensures { result ≡ has_name self.now name.now }
    {
        row_of_name(self.rows.as_slice(), name.as_bytes()).is_some()
    }

    /// The name of the code's row; None where no row has the code.
    pub fn name_of(&self, code: u32) -> Option<&str>
        ensures value { option_copied result ≡ name_of_code self.now code }
        ensures table { IsCodeTable N self.now }
    {
        name_among(self.rows.as_slice(), code)
    }

    /// The code of the name's row; None where no row has the name.
    pub fn code_of(&self, text: &[u8]) -> Option<u32>
        ensures value { result ≡ code_of_name self.now text.now }
        ensures table { IsCodeTable N self.now }
    {
        match row_of_name(self.rows.as_slice(), text) {
            Some(row) => Some(row.code),
            None => None,
        }
    }
}

/// The name of the code's row among some rows; None where no row has the code.
pub(crate) fn name_among(rows: &[CodeRow], code: u32) -> Option<&'static str>
    ensures { option_copied result ≡ name_of_code (seen rows.now) code }
{
    match row_of_code(rows, code) {
        Some(row) => Some(row.name),
        None => None,
    }
}

/// The first row with the code.
fn row_of_code(rows: &[CodeRow], code: u32) -> Option<CodeRow>
    ensures { result ≡ find (λ row. row.code == code) rows.now }
{
    rows.iter().find(|row| row.code == code).copied()
}

/// The first row with the name.
fn row_of_name(rows: &[CodeRow], name: &[u8]) -> Option<CodeRow>
    ensures { result ≡ find (λ row. bytes_eq row.name.now name.now) rows.now }
{
    rows.iter().find(|row| row.name.as_bytes() == name).copied()
}

/// Appends the names of the rows whose codes are bits that are set, in the table's order, with `+`
/// between each two; nothing where no bit is a row's. After want of memory `out` is as before.
pub fn push_words<const N: usize>(
    out: &mut Vec<u8>,
    table: &CodeTable<N>,
    bits: u32,
) -> Result<(), Memory>
    ensures words { OnOk result (out.new.items ≡ out.old.items ++ words_of table.now bits) }
    ensures kept { OnErr result (out.new.items ≡ out.old.items) }
{
    push_names_of(out, table.rows.as_slice(), bits)
}

/// The same over rows that lie in no table.
pub(crate) fn push_names_of(out: &mut Vec<u8>, rows: &[CodeRow], bits: u32) -> Result<(), Memory>
    ensures words { OnOk result (out.new.items ≡ out.old.items ++ words_of (seen rows.now) bits) }
    ensures kept { OnErr result (out.new.items ≡ out.old.items) }
{
    let len = out.len();
    match push_names(out, rows, bits) {
        Ok(()) => Ok(()),
        Err(_) => {
            out.truncate(len);
            Err(Memory)
        }
    }
}

fn push_names(out: &mut Vec<u8>, rows: &[CodeRow], bits: u32) -> Result<(), Memory>
    ensures words { OnOk result (out.new.items ≡ out.old.items ++ words_of (seen rows.now) bits) }
    ensures front { OnErr result (take (vec_len out.old) out.new.items ≡ out.old.items) }
{
    let mut first = true;
    for row in rows {
        if has_bit(bits, row.code) {
            push_name(out, first, row.name)?;
            first = false;
        }
    }
    Ok(())
}

/// Appends a name, behind a `+` unless it is the first.
fn push_name(out: &mut Vec<u8>, first: bool, name: &str) -> Result<(), Memory>
    ensures name { OnOk result (out.new.items ≡ out.old.items ++ (if first then name.now else 43 ∷ name.now)) }
    ensures front { OnErr result (take (vec_len out.old) out.new.items ≡ out.old.items) }
{
    if !first {
        out.push(b'+')?;
    }
    out.extend_from_slice(name.as_bytes())?;
    Ok(())
}

fn has_bit(bits: u32, bit: u32) -> bool
    ensures { result ≡ (bit_at bits bit == 1) }
{
    bit < 32 && bits >> bit & 1 == 1
}
