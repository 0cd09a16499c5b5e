//! The lines of a check.
ghost use Rattle.std.specs.Prelude.{◌≡◌, ◌++◌, length, map, IfOk, OnOk};
ghost use Rattle.std.specs.List.{flat_map};
ghost use Rattle.std.specs.Fmt.{decimal};
ghost use Rattle.ix_opening.specs.Found.{put_row};
ghost use Rattle.ix_replays.specs.Text.{cause_words, refused_line};
ghost use Rattle.ix_check.specs.Texts.{checked_line, text_over, unit_line};

use crate::append::{append, append_number};
use ix_machine::{Refused, UnitFault};
use ix_opening::Found;
use ix_types::Memory;
use ix_unit::UnitPut;
use std::alloc::Global;

/// The text of what was found.
pub(crate) fn text_of(alloc: Global, found: &Found) -> Result<Vec<u8>, Memory>
    ensures { IfOk result (λ text. text.items ≡ text_over (map put_row found.now.units) found.now.refused) }
{
    let mut out = Vec::new(alloc);
    append_units(&mut out, found.units.as_slice())?;
    append_all_refused(&mut out, found.refused.as_slice())?;
    append_checked(
        &mut out,
        found.units.as_slice().len() as u64,
        found.refused.as_slice().len() as u64,
    )?;
    Ok(out)
}

/// Appends a line for each sound unit.
fn append_units(out: &mut Vec<u8>, units: &[UnitPut]) -> Result<(), Memory>
    ensures { OnOk result (out.new.items ≡ out.old.items ++ flat_map (λ put. unit_line (put_row put)) units.now) }
{
    for put in units {
        append_unit(out, put)?;
    }
    Ok(())
}

/// Appends the line of a sound unit.
fn append_unit(out: &mut Vec<u8>, put: &UnitPut) -> Result<(), Memory>
    ensures { OnOk result (out.new.items ≡ out.old.items ++ unit_line (put_row put.now)) }
{
    append(out, b"unit ")?;
    append(out, put.name.bytes())?;
    append(out, b" ")?;
    append_number(out, put.unit.records.as_slice().len() as u64)?;
    append(out, b"\n")
}

/// Appends a line for each refused unit file.
fn append_all_refused(out: &mut Vec<u8>, refused: &[Refused]) -> Result<(), Memory>
    ensures { OnOk result (out.new.items ≡ out.old.items ++ flat_map refused_line refused.now) }
{
    for one in refused {
        append_refused(out, one)?;
    }
    Ok(())
}

/// Appends the line of a refused unit file.
fn append_refused(out: &mut Vec<u8>, refused: &Refused) -> Result<(), Memory>
    ensures { OnOk result (out.new.items ≡ out.old.items ++ refused_line refused.now) }
{
    append(out, b"refused ")?;
    append(out, refused.name.bytes())?;
    append(out, b" ")?;
    append_cause(out, &refused.cause)?;
    append(out, b"\n")
}

/// Appends why a unit file was refused.
fn append_cause(out: &mut Vec<u8>, cause: &UnitFault) -> Result<(), Memory>
    ensures { OnOk result (out.new.items ≡ out.old.items ++ cause_words cause.now) }
{
    match cause {
        UnitFault::Magic => append(out, b"magic"),
        UnitFault::Short => append(out, b"short"),
        UnitFault::Field { at } => append_place(out, b"field ", *at),
        UnitFault::Order { at } => append_place(out, b"order ", *at),
        UnitFault::Trailing { at } => append_place(out, b"trailing ", *at),
        UnitFault::Digest => append(out, b"digest"),
        UnitFault::WrongName => append(out, b"name"),
        UnitFault::RecordMissing { name } => append_word(out, b"record-missing ", name.bytes()),
        UnitFault::RecordDamaged { name } => append_word(out, b"record-damaged ", name.bytes()),
    }
}

/// Appends a word and a place.
fn append_place(out: &mut Vec<u8>, word: &[u8], at: u64) -> Result<(), Memory>
    ensures { OnOk result (out.new.items ≡ out.old.items ++ (word.now ++ decimal at)) }
{
    append(out, word)?;
    append_number(out, at)
}

/// Appends a word and a name.
fn append_word(out: &mut Vec<u8>, word: &[u8], name: &[u8]) -> Result<(), Memory>
    ensures { OnOk result (out.new.items ≡ out.old.items ++ (word.now ++ name.now)) }
{
    append(out, word)?;
    append(out, name)
}

/// Appends the last line, with the numbers of sound units and of refused files.
fn append_checked(out: &mut Vec<u8>, units: u64, refused: u64) -> Result<(), Memory>
    ensures { OnOk result (out.new.items ≡ out.old.items ++ checked_line units refused) }
{
    append(out, b"checked ")?;
    append_number(out, units)?;
    append(out, b" ")?;
    append_number(out, refused)?;
    append(out, b"\n")
}
