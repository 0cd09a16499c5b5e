//! The line of an event.
ghost use Rattle.std.specs.Prelude.{◌≡◌, ◌++◌, codes, length, OnOk};
ghost use Rattle.std.specs.Fmt.{decimal};
ghost use Rattle.ix_replays.specs.Text.{space, outcome_word, scan_words, event_words, event_line};

use crate::append::{append, append_number};
use ix_machine::{Call, Event, Outcome};
use ix_types::{FileName, Memory};

/// Appends the line of an event.
pub(crate) fn append_event(out: &mut Vec<u8>, event: &Event) -> Result<(), Memory>
    ensures { OnOk result (out.new.items ≡ out.old.items ++ event_line event.now) }
{
    append_number(out, u64::from(event.lane))?;
    append(out, b" ")?;
    append_call(out, &event.call, &event.outcome)?;
    append(out, b"\n")
}

/// Appends the words of a call, and of how it ended.
fn append_call(out: &mut Vec<u8>, call: &Call, ended: &Outcome) -> Result<(), Memory>
    ensures { OnOk result (out.new.items ≡ out.old.items ++ event_words call.now ended.now) }
{
    match call {
        Call::Lease { names } => append_leased(out, names.as_slice().len() as u64),
        Call::Put { name } => append_named(out, b"put ", name, ended),
        Call::Stage { unit } => append_named(out, b"stage ", unit, ended),
        Call::Publish { unit } => append_named(out, b"publish ", unit, ended),
        Call::Remove { unit } => append_named(out, b"remove ", unit, ended),
        Call::Scan => append_scan(out, ended),
        Call::Load { name } => append_named(out, b"load ", name, ended),
        Call::Install => append_ended(out, b"install ", ended),
        Call::Adopt => append_ended(out, b"adopt ", ended),
        Call::Release => append(out, b"release"),
        Call::Collect => append_ended(out, b"collect ", ended),
    }
}

/// Appends how many names a lease has.
fn append_leased(out: &mut Vec<u8>, names: u64) -> Result<(), Memory>
    ensures { OnOk result (out.new.items ≡ out.old.items ++ (codes "lease " ++ decimal names)) }
{
    append(out, b"lease ")?;
    append_number(out, names)
}

/// Appends a word, a name, and how the call ended.
fn append_named(
    out: &mut Vec<u8>,
    word: &[u8],
    name: &FileName,
    ended: &Outcome,
) -> Result<(), Memory>
    ensures { OnOk result (out.new.items ≡ out.old.items ++ (word.now ++ name.now ++ space ++ outcome_word ended.now)) }
{
    append(out, word)?;
    append(out, name.bytes())?;
    append(out, b" ")?;
    append_outcome(out, ended)
}

/// Appends a word, and how the call ended.
fn append_ended(out: &mut Vec<u8>, word: &[u8], ended: &Outcome) -> Result<(), Memory>
    ensures { OnOk result (out.new.items ≡ out.old.items ++ (word.now ++ outcome_word ended.now)) }
{
    append(out, word)?;
    append_outcome(out, ended)
}

/// Appends an outcome as a word of its own.
fn append_outcome(out: &mut Vec<u8>, ended: &Outcome) -> Result<(), Memory>
    ensures { OnOk result (out.new.items ≡ out.old.items ++ outcome_word ended.now) }
{
    match ended {
        Outcome::Done => append(out, b"ok"),
        Outcome::Written => append(out, b"written"),
        Outcome::Shared => append(out, b"shared"),
        Outcome::Clash => append(out, b"clash"),
        Outcome::Synced => append(out, b"synced"),
        Outcome::Unsynced => append(out, b"unsynced"),
        Outcome::NoUnit => append(out, b"none"),
        Outcome::At { mark } => append_number(out, *mark),
        Outcome::Removed { name } => append_two(out, b"removed ", name.bytes()),
        Outcome::Nothing => append(out, b"nothing"),
        Outcome::Fault => append(out, b"fault"),
        Outcome::Lost { .. } => append(out, b"lost"),
        Outcome::Damaged { .. } => append(out, b"damaged"),
    }
}

/// Appends how a scan ended.
fn append_scan(out: &mut Vec<u8>, ended: &Outcome) -> Result<(), Memory>
    ensures { OnOk result (out.new.items ≡ out.old.items ++ (codes "scan " ++ scan_words ended.now)) }
{
    append(out, b"scan ")?;
    append_scanned(out, ended)
}

/// Appends that a scan succeeded and its mark, or why it didn't.
fn append_scanned(out: &mut Vec<u8>, ended: &Outcome) -> Result<(), Memory>
    ensures { OnOk result (out.new.items ≡ out.old.items ++ scan_words ended.now) }
{
    match ended {
        Outcome::At { mark } => append_at(out, *mark),
        Outcome::Lost { name } => append_two(out, b"lost ", name.bytes()),
        Outcome::Damaged { name } => append_two(out, b"damaged ", name.bytes()),
        Outcome::Done
        | Outcome::Written
        | Outcome::Shared
        | Outcome::Clash
        | Outcome::Synced
        | Outcome::Unsynced
        | Outcome::NoUnit
        | Outcome::Removed { .. }
        | Outcome::Nothing
        | Outcome::Fault => append_outcome(out, ended),
    }
}

/// Appends the mark of a scan.
fn append_at(out: &mut Vec<u8>, mark: u64) -> Result<(), Memory>
    ensures { OnOk result (out.new.items ≡ out.old.items ++ (codes "ok " ++ decimal mark)) }
{
    append(out, b"ok ")?;
    append_number(out, mark)
}

/// Appends two pieces.
fn append_two(out: &mut Vec<u8>, first: &[u8], second: &[u8]) -> Result<(), Memory>
    ensures { OnOk result (out.new.items ≡ out.old.items ++ (first.now ++ second.now)) }
{
    append(out, first)?;
    append(out, second)
}
