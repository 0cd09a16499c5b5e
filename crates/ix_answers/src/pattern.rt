//! Which symbol names a pattern matches.
ghost use Rattle.std.specs.Prelude.{◌≡◌, map, IfOk};
ghost use Rattle.ix_answers.specs.Pattern.{folded_byte, folded, stands_in, stands_at, matches};

use ix_types::{Memory, Text};
use std::alloc::Global;

/// Whether a name matches a pattern: it has the text, at its start and at its end where that is asked for; with both it is
/// the text. Where letters are folded, A to Z count as a to z on both sides.
pub fn matches(
    alloc: Global,
    text: &Text,
    start: bool,
    end: bool,
    fold: bool,
    name: &Text,
) -> Result<bool, Memory>
    ensures { IfOk result (λ is_match. is_match ≡ matches text.now start end fold name.now) }
{
    let text = folded(alloc, fold, text.bytes())?;
    let name = folded(alloc, fold, name.bytes())?;
    Ok(stands_at(start, end, &text, &name))
}

/// The text as it is compared.
fn folded(alloc: Global, fold: bool, text: &[u8]) -> Result<Vec<u8>, Memory>
    ensures { IfOk result (λ v. v.items ≡ folded fold text.now) }
{
    if fold {
        Ok(text.iter().map(|byte| folded_byte(*byte)).collect(alloc)?)
    } else {
        Ok(Vec::from_slice(alloc, text)?)
    }
}

/// A to Z as a to z, every other byte as it is.
fn folded_byte(byte: u8) -> u8
    ensures { result ≡ folded_byte byte }
{
    if byte >= b'A' && byte <= b'Z' {
        byte + 32
    } else {
        byte
    }
}

/// Whether the text stands in the name: at its start, at its end, with both as all of it.
fn stands_at(start: bool, end: bool, text: &[u8], name: &[u8]) -> bool
    ensures { result ≡ stands_at start end text.now name.now }
{
    if start {
        if end {
            name == text
        } else {
            name.starts_with(text)
        }
    } else if end {
        name.ends_with(text)
    } else {
        stands_in(text, name)
    }
}

/// Whether the text stands somewhere in the name.
fn stands_in(text: &[u8], name: &[u8]) -> bool
    ensures { result ≡ stands_in text.now name.now }
{
    for at in 0..name.len() {
        let rest = &name[at..];
        if rest.starts_with(text) {
            return true;
        }
    }
    name[name.len()..].starts_with(text)
}
