//! Writing a transcript, piece by piece.
ghost use Rattle.std.specs.Prelude.{◌≡◌, ◌++◌, [], List, ℕ, length, OnOk, OnErr};
ghost use Rattle.std.specs.Io.KnownBytes.{Appends};
ghost use Rattle.std.specs.List.{flat_map, enumerate_from};
ghost use Rattle.ix_types.specs.Count.{CountsWhere};
ghost use Rattle.ix_replays.specs.Text.{answer_text, event_line, lane_text, refused_line, row_line, transcript_text};
ghost use Rattle.ix_transcripts.specs.Lines.{line_text, rows_text};
ghost use Rattle.ix_transcripts.specs.Sending.{Sends, Stops, WritesFront, write_failed};

use crate::line::{Line, append_line};
use ix_io::transfer::write_all;
use ix_io::{Sink, SinkError};
use ix_lanes::{Answered, AskResult};
use ix_machine::{Event, Refused};
use ix_replays::Transcript;
use ix_types::{Row, Seq};
use std::alloc::Global;
use thiserror::Error;

/// So many bytes go out together, and a line more at most.
const PIECE: usize = 65_536;

/// Why a text wasn't written whole.
#[derive(Clone, Copy, Debug, PartialEq, Eq, Error)]
pub enum WriteError {
    /// The sink failed.
    #[error("the sink failed")]
    Fault,
    /// Memory was wanting.
    #[error("memory")]
    Memory,
}

/// Writes the text of a transcript line by line. It keeps a piece of the text and one line at most. With an error a front of the text was written.
pub fn write_transcript<K: Sink>(
    alloc: Global,
    transcript: &Transcript,
    sink: &mut K,
) -> Result<(), WriteError>
    ensures written { OnOk result (Appends (K.contents sink.old) (K.contents sink.new) (transcript_text transcript.now)) }
    ensures front { OnErr result (WritesFront (K.contents sink.old) (K.contents sink.new) (transcript_text transcript.now)) }
    ensures cause { CountsWhere (write_failed result) (K.faults sink.old) (K.faults sink.new) }
{
    let mut waiting = Vec::new(alloc);
    send_all(&mut waiting, transcript, sink)?;
    flush(&mut waiting, sink)
}

/// Sends the lines of a transcript.
fn send_all<K: Sink>(
    waiting: &mut Vec<u8>,
    transcript: &Transcript,
    sink: &mut K,
) -> Result<(), WriteError>
    ensures sent { OnOk result (Sends (K.contents sink.old) waiting.old.items (K.contents sink.new) waiting.new.items (transcript_text transcript.now)) }
    ensures stopped { OnErr result (Stops (K.contents sink.old) waiting.old.items (K.contents sink.new) (transcript_text transcript.now)) }
    ensures cause { CountsWhere (write_failed result) (K.faults sink.old) (K.faults sink.new) }
{
    send_refused(waiting, transcript.refused.as_slice(), sink)?;
    send_events(waiting, transcript.events.as_slice(), sink)?;
    send_lanes(waiting, transcript.answers.as_slice(), sink)?;
    send(
        waiting,
        Line::End(transcript.events.as_slice().len() as u64),
        sink,
    )
}

/// Sends a line for each refused unit file.
fn send_refused<K: Sink>(
    waiting: &mut Vec<u8>,
    refused: &[Refused],
    sink: &mut K,
) -> Result<(), WriteError>
    ensures sent { OnOk result (Sends (K.contents sink.old) waiting.old.items (K.contents sink.new) waiting.new.items (flat_map refused_line refused.now)) }
    ensures stopped { OnErr result (Stops (K.contents sink.old) waiting.old.items (K.contents sink.new) (flat_map refused_line refused.now)) }
    ensures cause { CountsWhere (write_failed result) (K.faults sink.old) (K.faults sink.new) }
{
    for one in refused {
        send(waiting, Line::Refused(one), sink)?;
    }
    Ok(())
}

/// Sends a line for each event.
fn send_events<K: Sink>(
    waiting: &mut Vec<u8>,
    events: &[Event],
    sink: &mut K,
) -> Result<(), WriteError>
    ensures sent { OnOk result (Sends (K.contents sink.old) waiting.old.items (K.contents sink.new) waiting.new.items (flat_map event_line events.now)) }
    ensures stopped { OnErr result (Stops (K.contents sink.old) waiting.old.items (K.contents sink.new) (flat_map event_line events.now)) }
    ensures cause { CountsWhere (write_failed result) (K.faults sink.old) (K.faults sink.new) }
{
    for event in events {
        send(waiting, Line::Event(event), sink)?;
    }
    Ok(())
}

/// Sends the answers of each lane.
fn send_lanes<K: Sink>(
    waiting: &mut Vec<u8>,
    lanes: &[Seq<Answered>],
    sink: &mut K,
) -> Result<(), WriteError>
    ensures sent { OnOk result (Sends (K.contents sink.old) waiting.old.items (K.contents sink.new) waiting.new.items (flat_map (λ lane. lane_text lane.0 lane.1) (enumerate_from 0 lanes.now))) }
    ensures stopped { OnErr result (Stops (K.contents sink.old) waiting.old.items (K.contents sink.new) (flat_map (λ lane. lane_text lane.0 lane.1) (enumerate_from 0 lanes.now))) }
    ensures cause { CountsWhere (write_failed result) (K.faults sink.old) (K.faults sink.new) }
{
    for (lane, answers) in lanes.iter().enumerate() {
        send_lane(waiting, lane, answers.as_slice(), sink)?;
    }
    Ok(())
}

/// Sends the answers of a lane.
fn send_lane<K: Sink>(
    waiting: &mut Vec<u8>,
    lane: usize,
    answers: &[Answered],
    sink: &mut K,
) -> Result<(), WriteError>
    ensures sent { OnOk result (Sends (K.contents sink.old) waiting.old.items (K.contents sink.new) waiting.new.items (lane_text lane answers.now)) }
    ensures stopped { OnErr result (Stops (K.contents sink.old) waiting.old.items (K.contents sink.new) (lane_text lane answers.now)) }
    ensures cause { CountsWhere (write_failed result) (K.faults sink.old) (K.faults sink.new) }
{
    for (ask, answered) in answers.iter().enumerate() {
        send_answer(waiting, lane, ask, answered, sink)?;
    }
    Ok(())
}

/// Sends the answer to the ask of this number of this lane.
fn send_answer<K: Sink>(
    waiting: &mut Vec<u8>,
    lane: usize,
    ask: usize,
    answered: &Answered,
    sink: &mut K,
) -> Result<(), WriteError>
    ensures sent { OnOk result (Sends (K.contents sink.old) waiting.old.items (K.contents sink.new) waiting.new.items (answer_text lane ask answered.now)) }
    ensures stopped { OnErr result (Stops (K.contents sink.old) waiting.old.items (K.contents sink.new) (answer_text lane ask answered.now)) }
    ensures cause { CountsWhere (write_failed result) (K.faults sink.old) (K.faults sink.new) }
{
    send(waiting, Line::Ask(lane as u64, ask as u64, answered), sink)?;
    send_result(waiting, &answered.result, sink)
}

/// Sends the rows of an answer, if there are any.
fn send_result<K: Sink>(
    waiting: &mut Vec<u8>,
    ended: &AskResult,
    sink: &mut K,
) -> Result<(), WriteError>
    ensures sent { OnOk result (Sends (K.contents sink.old) waiting.old.items (K.contents sink.new) waiting.new.items (rows_text ended.now)) }
    ensures stopped { OnErr result (Stops (K.contents sink.old) waiting.old.items (K.contents sink.new) (rows_text ended.now)) }
    ensures cause { CountsWhere (write_failed result) (K.faults sink.old) (K.faults sink.new) }
{
    match ended {
        AskResult::Rows(rows) => send_rows(waiting, rows.as_slice(), sink),
        AskResult::NoneHeld | AskResult::Fault | AskResult::Lost | AskResult::Damaged => Ok(()),
    }
}

/// Sends a line for each row.
fn send_rows<K: Sink>(waiting: &mut Vec<u8>, rows: &[Row], sink: &mut K) -> Result<(), WriteError>
    ensures sent { OnOk result (Sends (K.contents sink.old) waiting.old.items (K.contents sink.new) waiting.new.items (flat_map row_line rows.now)) }
    ensures stopped { OnErr result (Stops (K.contents sink.old) waiting.old.items (K.contents sink.new) (flat_map row_line rows.now)) }
    ensures cause { CountsWhere (write_failed result) (K.faults sink.old) (K.faults sink.new) }
{
    for row in rows {
        send(waiting, Line::Row(row), sink)?;
    }
    Ok(())
}

/// Sends a line: it waits, and all that waits goes out once it is a piece.
fn send<K: Sink>(waiting: &mut Vec<u8>, line: Line<'_>, sink: &mut K) -> Result<(), WriteError>
    ensures sent { OnOk result (Sends (K.contents sink.old) waiting.old.items (K.contents sink.new) waiting.new.items (line_text line.entry)) }
    ensures stopped { OnErr result (Stops (K.contents sink.old) waiting.old.items (K.contents sink.new) (line_text line.entry)) }
    ensures cause { CountsWhere (write_failed result) (K.faults sink.old) (K.faults sink.new) }
{
    if append_line(waiting, line).is_err() {
        return Err(WriteError::Memory);
    }
    if waiting.len() < PIECE {
        return Ok(());
    }
    flush(waiting, sink)
}

/// Writes all that waits.
fn flush<K: Sink>(waiting: &mut Vec<u8>, sink: &mut K) -> Result<(), WriteError>
    ensures sent { OnOk result (Appends (K.contents sink.old) (K.contents sink.new) waiting.old.items) }
    ensures empty { OnOk result (waiting.new.items ≡ []) }
    ensures stopped { OnErr result (WritesFront (K.contents sink.old) (K.contents sink.new) waiting.old.items) }
    ensures cause { CountsWhere (write_failed result) (K.faults sink.old) (K.faults sink.new) }
{
    match write_all(sink, waiting) {
        Ok(()) => {
            waiting.clear();
            Ok(())
        }
        Err(SinkError::Failed) => Err(WriteError::Fault),
        Err(SinkError::Memory) => Err(WriteError::Memory),
    }
}
