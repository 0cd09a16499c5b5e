//! The line of a refused unit file.
ghost use Rattle.std.specs.Prelude.{◌≡◌, ◌++◌, OnOk};
ghost use Rattle.std.specs.Fmt.{decimal};
ghost use Rattle.ix_replays.specs.Text.{cause_words, refused_line};

use crate::append::{append, append_number};
use ix_machine::{Refused, UnitFault};
use ix_types::Memory;

/// Appends the line of a refused unit file.
pub(crate) fn append_refused(out: &mut Vec<u8>, refused: &Refused) -> Result<(), Memory>
    ensures { OnOk result (out.new.items ≡ out.old.items ++ refused_line refused.now) }
{
    append(out, b"refused ")?;
    append(out, refused.name.bytes())?;
    append(out, b" ")?;
    append_cause(out, &refused.cause)?;
    append(out, b"\n")
}

/// Appends why a unit file was refused.
fn append_cause(out: &mut Vec<u8>, cause: &UnitFault) -> Result<(), Memory>
    ensures { OnOk result (out.new.items ≡ out.old.items ++ cause_words cause.now) }
{
    match cause {
        UnitFault::Magic => append(out, b"magic"),
        UnitFault::Short => append(out, b"short"),
        UnitFault::Field { at } => append_place(out, b"field ", *at),
        UnitFault::Order { at } => append_place(out, b"order ", *at),
        UnitFault::Trailing { at } => append_place(out, b"trailing ", *at),
        UnitFault::Digest => append(out, b"digest"),
        UnitFault::WrongName => append(out, b"name"),
        UnitFault::RecordMissing { name } => append_word(out, b"record-missing ", name.bytes()),
        UnitFault::RecordDamaged { name } => append_word(out, b"record-damaged ", name.bytes()),
    }
}

/// Appends a word and a place.
fn append_place(out: &mut Vec<u8>, word: &[u8], at: u64) -> Result<(), Memory>
    ensures { OnOk result (out.new.items ≡ out.old.items ++ (word.now ++ decimal at)) }
{
    append(out, word)?;
    append_number(out, at)
}

/// Appends a word and a name.
fn append_word(out: &mut Vec<u8>, word: &[u8], name: &[u8]) -> Result<(), Memory>
    ensures { OnOk result (out.new.items ≡ out.old.items ++ (word.now ++ name.now)) }
{
    append(out, word)?;
    append(out, name)
}
