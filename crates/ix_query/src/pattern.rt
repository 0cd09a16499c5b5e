//! Which names match a pattern, with no copy of a name where letters count as they are.
ghost use Rattle.std.specs.Prelude.{◌≡◌, [], map, IfOk, OnOk};
ghost use Rattle.std.specs.Str.{IsUtf8};
ghost use Rattle.ix_answers.specs.Pattern.{folded_byte, folded, stands_in, stands_at};

use ix_types::{Memory, Text};
use std::alloc::Global;

/// The text as it is compared.
pub(crate) fn folded(alloc: Global, fold: bool, text: &Text) -> Result<Vec<u8>, Memory>
    ensures value { IfOk result (λ v. v.items ≡ folded fold text.now) }
    ensures text { IfOk result (λ v. IsUtf8 v.items) }
{
    if fold {
        let mut bytes = Vec::new(alloc);
        fold_into(&mut bytes, text.bytes())?;
        Ok(bytes)
    } else {
        Ok(Vec::from_slice(alloc, text.bytes())?)
    }
}

/// Whether the name has the text, which is as it is compared. The buffer is room for a name.
pub(crate) fn has_text(
    buffer: &mut Vec<u8>,
    start: bool,
    end: bool,
    fold: bool,
    text: &[u8],
    name: &Text,
) -> Result<bool, Memory>
    requires { IsUtf8 text.now }
    ensures { IfOk result (λ is_match. is_match ≡ stands_at start end text.now (folded fold name.now)) }
{
    if fold {
        fold_into(buffer, name.bytes())?;
        Ok(stands_at(start, end, text, buffer))
    } else {
        Ok(stands_at(start, end, text, name.bytes()))
    }
}

/// Fills the buffer with the text, A to Z as a to z.
fn fold_into(buffer: &mut Vec<u8>, text: &[u8]) -> Result<(), Memory>
    ensures { OnOk result (buffer.new.items ≡ map folded_byte text.now) }
{
    buffer.clear();
    buffer.extend_from_slice(text)?;
    fold_bytes(buffer);
    Ok(())
}

/// Folds each byte where it stands.
fn fold_bytes(bytes: &mut [u8])
    ensures { bytes.new ≡ map folded_byte bytes.old }
{
    for byte in bytes.iter_mut() {
        *byte = folded_byte(*byte);
    }
}

/// A to Z as a to z, every other byte as it is.
fn folded_byte(byte: u8) -> u8
    ensures { result ≡ folded_byte byte }
{
    if byte >= b'A' && byte <= b'Z' {
        byte + 32
    } else {
        byte
    }
}

/// Whether the text stands in the name: at its start, at its end, with both as all of it.
fn stands_at(start: bool, end: bool, text: &[u8], name: &[u8]) -> bool
    requires text { IsUtf8 text.now }
    requires name { IsUtf8 name.now }
    ensures { result ≡ stands_at start end text.now name.now }
{
    if start {
        if end {
            name == text
        } else {
            name.starts_with(text)
        }
    } else if end {
        name.ends_with(text)
    } else {
        stands_in(text, name)
    }
}

/// Whether the text stands somewhere in the name.
fn stands_in(text: &[u8], name: &[u8]) -> bool
    requires text { IsUtf8 text.now }
    requires name { IsUtf8 name.now }
    ensures { result ≡ stands_in text.now name.now }
{
    let text = unsafe { str::from_utf8_unchecked(text) };
    let name = unsafe { str::from_utf8_unchecked(name) };
    name.contains(text)
}
