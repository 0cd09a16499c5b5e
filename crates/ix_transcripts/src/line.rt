//! The lines of a transcript.
ghost use Rattle.std.specs.Prelude.{◌≡◌, ◌++◌, OnOk};
ghost use Rattle.ix_transcripts.specs.Lines.{line_text};

use crate::append::{append, append_number};
use crate::ask_text::append_ask;
use crate::event_text::append_event;
use crate::refused_text::append_refused;
use crate::row_text::append_row;
use ix_lanes::Answered;
use ix_machine::{Event, Refused};
use ix_types::{Memory, Row};

/// A line, by what it shows.
#[derive(Clone, Copy, Debug)]
pub enum Line<'t> {
    /// A unit file that opening refused.
    Refused(&'t Refused),
    /// An event.
    Event(&'t Event),
    /// How the ask of this number of this lane ended; the rows have lines of their own.
    Ask(u64, u64, &'t Answered),
    /// A row of an answer.
    Row(&'t Row),
    /// The number of events.
    End(u64),
}

/// Appends a line.
pub(crate) fn append_line(out: &mut Vec<u8>, line: Line<'_>) -> Result<(), Memory>
    ensures { OnOk result (out.new.items ≡ out.old.items ++ line_text line.entry) }
{
    match line {
        Line::Refused(refused) => append_refused(out, refused),
        Line::Event(event) => append_event(out, event),
        Line::Ask(lane, ask, answered) => append_ask(out, lane, ask, answered),
        Line::Row(row) => append_row(out, row),
        Line::End(events) => append_end(out, events),
    }
}

/// Appends the last line, with the number of events.
fn append_end(out: &mut Vec<u8>, events: u64) -> Result<(), Memory>
    ensures { OnOk result (out.new.items ≡ out.old.items ++ line_text (Line.End events)) }
{
    append(out, b"end ")?;
    append_number(out, events)?;
    append(out, b"\n")
}
