//! The line of an ask.
ghost use Rattle.std.specs.Prelude.{◌≡◌, ◌++◌, length, codes, OnOk};
ghost use Rattle.std.specs.Fmt.{decimal};
ghost use Rattle.ix_replays.specs.Text.{newline, mark_words};
ghost use Rattle.ix_transcripts.specs.Lines.{ask_line, result_words};

use crate::append::{append, append_number};
use ix_lanes::{Answered, AskResult};
use ix_types::Memory;

/// Appends the line of the ask of this number of this lane, without its rows.
pub(crate) fn append_ask(
    out: &mut Vec<u8>,
    lane: u64,
    ask: u64,
    answered: &Answered,
) -> Result<(), Memory>
    ensures { OnOk result (out.new.items ≡ out.old.items ++ ask_line lane ask answered.now) }
{
    append(out, b"ask ")?;
    append_number(out, lane)?;
    append(out, b" ")?;
    append_number(out, ask)?;
    append(out, b" ")?;
    append_mark(out, answered.mark)?;
    append_result(out, &answered.result)
}

/// Appends the mark of the version that was asked.
fn append_mark(out: &mut Vec<u8>, mark: Option<u64>) -> Result<(), Memory>
    ensures { OnOk result (out.new.items ≡ out.old.items ++ mark_words mark) }
{
    if let Some(mark) = mark {
        append(out, b"at ")?;
        append_number(out, mark)?;
        append(out, b" ")?;
    }
    Ok(())
}

/// Appends how an ask ended.
fn append_result(out: &mut Vec<u8>, ended: &AskResult) -> Result<(), Memory>
    ensures { OnOk result (out.new.items ≡ out.old.items ++ result_words ended.now) }
{
    match ended {
        AskResult::NoneHeld => append(out, b"none\n"),
        AskResult::Rows(rows) => append_count(out, rows.as_slice().len() as u64),
        AskResult::Fault => append(out, b"fault\n"),
        AskResult::Lost => append(out, b"lost\n"),
        AskResult::Damaged => append(out, b"damaged\n"),
    }
}

/// Appends the number of rows.
fn append_count(out: &mut Vec<u8>, rows: u64) -> Result<(), Memory>
    ensures { OnOk result (out.new.items ≡ out.old.items ++ codes "rows " ++ decimal rows ++ newline) }
{
    append(out, b"rows ")?;
    append_number(out, rows)?;
    append(out, b"\n")
}
