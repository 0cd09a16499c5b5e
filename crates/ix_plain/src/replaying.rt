//! The replay of a script's bytes: bytes come in, a text goes out, and a status says how it ended.
ghost use Rattle.std.specs.Prelude.{◌≡◌, ◌≢◌, ◌⊎◌, ◌<◌, ◌≤◌, ◌+◌, ℕ, List, true, false, is_some, length, Some, None, Ok, Err, IfOk, IfSome};
ghost use Rattle.std.specs.Io.KnownBytes.{Appends};
ghost use Rattle.ix_types.specs.Count.{CountsWhere, counted};
ghost use Rattle.ix_types.specs.Name.{sha_name};
ghost use Rattle.ix_dir.specs.declared.moves.Move.{Move};
ghost use Rattle.ix_dir.specs.Crash.{standing};
ghost use Rattle.ix_opening.specs.Found.{opening_of};
ghost use Rattle.ix_plan.specs.Keeps.{IsAccepted};
ghost use Rattle.ix_plan.specs.Reading.{script_of};
ghost use Rattle.ix_replay.specs.Left.{IsLeft, StopsInOpening, StopsInRun};
ghost use Rattle.ix_replays.specs.declared.transcript.Transcript.{Transcript as Shown};
ghost use Rattle.ix_replays.specs.Run.{IsReplay};
ghost use Rattle.ix_replays.specs.Text.{transcript_text};
ghost use Rattle.ix_transcripts.specs.Sending.{WritesFront};
ghost use Rattle.ix_counts.specs.Counting.{RoseBy, failures, loads, scans};
ghost use Rattle.ix_plain.specs.Ending.{MayEnd, MayRun, Stayed, after_events, ending_for, is_refused, is_whole, is_write_fault, max_input, status_of};
ghost use Rattle.ix_plain.specs.Output.{IsReplayOf, Leaves, LeavesOf, StopsFor, StopsOf};

use crate::ending::{Ending, after_events};
use ix_dir::Dir;
use ix_io::Sink;
use ix_plan::{Script, ScriptError};
use ix_replay::{ReplayError, Replayed, replay};
use ix_replays::Transcript;
use ix_transcripts::{WriteError, write_transcript};
use ix_types::Sha;
use std::alloc::Global;

/// The most bytes that a script has.
pub const MAX_INPUT: usize = 16_777_216;

/// How a replay ended, the directory behind it, and what the run showed, where one ended.
#[derive(Drop)]
pub struct Ended<D: Dir> {
    pub status: u8,
    pub ending: Ending,
    pub dir: D,
    pub transcript: Option<Transcript>,
}

/// Reads the script that the bytes spell, replays it over the directory, and writes the transcript's text.
///
/// The order is the size, the script, opening, the run, writing, and then what the events say; memory may be wanting at any place.
pub fn replay_bytes<K: Sink, D: Dir>(alloc: Global, bytes: &[u8], sink: &mut K, dir: D) -> Ended<D>
    ensures status { result.status ≡ status_of result.ending }

    // What was written is the text of the transcript.
    ensures written { is_whole result.ending ≡ true → IfSome result.transcript (λ transcript. Appends (K.contents sink.old) (K.contents sink.new) (transcript_text transcript)) }
    ensures front { is_whole result.ending ≡ false → IfSome result.transcript (λ transcript. WritesFront (K.contents sink.old) (K.contents sink.new) (transcript_text transcript)) }
    ensures nothing { result.transcript ≡ None → K.contents sink.new ≡ K.contents sink.old }

    // Over a directory that tells its moves the transcript is that of a replay, which leaves the moves of its run, and misses no file.
    ensures replayed { IfSome (D.state dir).moves (λ moves. IfSome result.transcript (IsReplayOf bytes.now moves)) }
    ensures left { IfSome (D.state dir).moves (λ before. IfSome result.transcript (λ transcript. Leaves bytes.now before transcript (D.state result.dir).moves)) }
    ensures sound { IfSome (D.state dir).moves (λ moves. result.ending ≢ Ending.StoreDamaged) }

    // The bytes decide whether there is a script, and the events of a text that was written whole the rest.
    ensures exact { MayEnd (ending_for bytes.now) result.ending }
    ensures ran { MayRun result.ending (is_some result.transcript) }
    ensures told { is_whole result.ending ≡ true → IfSome result.transcript (λ transcript. result.ending ≡ after_events transcript.events) }

    // Each fault is counted where it comes from.
    ensures open_fault { result.ending ≡ Ending.OpenFault → (D.state result.dir).faults ≡ counted (D.state dir).faults }
    ensures write_fault { CountsWhere (is_write_fault result.ending) (K.faults sink.old) (K.faults sink.new) }
    ensures failures { IfSome result.transcript (λ transcript. RoseBy (failures transcript.events) (D.state dir).faults (D.state result.dir).faults) }
    ensures finds { IfSome result.transcript (λ transcript. RoseBy (loads transcript.events) (D.state dir).finds (D.state result.dir).finds) }
    ensures listings { IfSome result.transcript (λ transcript. RoseBy (1 + scans transcript.events) (D.state dir).listings (D.state result.dir).listings) }

    // A script over a directory in which no count rose ends in Done or for want of memory; one that doesn't tell its moves may miss a file besides.
    ensures complete { IfSome (D.state dir).moves (λ moves. ending_for bytes.now ≡ Ending.Done → Stayed (D.state dir).faults (D.state result.dir).faults → Stayed (K.faults sink.old) (K.faults sink.new)
        → (result.ending ≡ Ending.Done) ⊎ (result.ending ≡ Ending.Memory)) }
    ensures untold { ending_for bytes.now ≡ Ending.Done → Stayed (D.state dir).faults (D.state result.dir).faults → Stayed (K.faults sink.old) (K.faults sink.new)
        → (result.ending ≡ Ending.Done) ⊎ (result.ending ≡ Ending.Memory) ⊎ (result.ending ≡ Ending.StoreDamaged) }

    // What a replay without a run leaves in the directory.
    ensures unread { is_refused result.ending ≡ true → D.state result.dir ≡ D.state dir }
    ensures opening { result.ending ≡ Ending.OpenFault → IfSome (D.state dir).moves (λ before. StopsFor bytes.now before (D.state result.dir).moves) }
    ensures wanting { result.ending ≡ Ending.Memory → result.transcript ≡ None → (D.state result.dir ≡ D.state dir) ⊎ IfSome (D.state dir).moves (λ before. StopsFor bytes.now before (D.state result.dir).moves) }
{
    if bytes.len() > MAX_INPUT {
        return without_run(Ending::TooLarge, dir);
    }
    match Script::read(alloc, bytes) {
        Ok(script) => replay_script(alloc, &script, sink, dir),
        Err(ScriptError::Refused(refusal)) => without_run(Ending::BadScript(refusal), dir),
        Err(ScriptError::Memory) => without_run(Ending::Memory, dir),
    }
}

/// Replays a script over the directory, and writes the transcript's text.
///
/// The order is opening, the run, writing, and then what the events say; memory may be wanting at any place.
pub fn replay_script<K: Sink, D: Dir>(
    alloc: Global,
    script: &Script,
    sink: &mut K,
    dir: D,
) -> Ended<D>
    requires { IsAccepted script.now }
    ensures status { result.status ≡ status_of result.ending }

    // What was written is the text of the transcript.
    ensures written { is_whole result.ending ≡ true → IfSome result.transcript (λ transcript. Appends (K.contents sink.old) (K.contents sink.new) (transcript_text transcript)) }
    ensures front { is_whole result.ending ≡ false → IfSome result.transcript (λ transcript. WritesFront (K.contents sink.old) (K.contents sink.new) (transcript_text transcript)) }
    ensures nothing { result.transcript ≡ None → K.contents sink.new ≡ K.contents sink.old }

    // Over a directory that tells its moves the transcript is that of a replay, which leaves the moves of its run, and misses no file.
    ensures replayed { IfSome (D.state dir).moves (λ moves. IfSome result.transcript (IsReplay sha_name script.now (opening_of sha_name (standing moves)))) }
    ensures left { IfSome (D.state dir).moves (λ before. IfSome result.transcript (λ transcript. LeavesOf script.now before transcript (D.state result.dir).moves)) }
    ensures sound { IfSome (D.state dir).moves (λ moves. result.ending ≢ Ending.StoreDamaged) }

    // The script isn't refused, and the events of a text that was written whole say how the replay ended.
    ensures exact { MayEnd Ending.Done result.ending }
    ensures read { is_refused result.ending ≡ false }
    ensures ran { MayRun result.ending (is_some result.transcript) }
    ensures told { is_whole result.ending ≡ true → IfSome result.transcript (λ transcript. result.ending ≡ after_events transcript.events) }

    // Each fault is counted where it comes from.
    ensures open_fault { result.ending ≡ Ending.OpenFault → (D.state result.dir).faults ≡ counted (D.state dir).faults }
    ensures write_fault { CountsWhere (is_write_fault result.ending) (K.faults sink.old) (K.faults sink.new) }
    ensures failures { IfSome result.transcript (λ transcript. RoseBy (failures transcript.events) (D.state dir).faults (D.state result.dir).faults) }
    ensures finds { IfSome result.transcript (λ transcript. RoseBy (loads transcript.events) (D.state dir).finds (D.state result.dir).finds) }
    ensures listings { IfSome result.transcript (λ transcript. RoseBy (1 + scans transcript.events) (D.state dir).listings (D.state result.dir).listings) }

    // Where no count rose it ends in Done or for want of memory; over a directory that doesn't tell its moves it may miss a file besides.
    ensures untold { Stayed (D.state dir).faults (D.state result.dir).faults → Stayed (K.faults sink.old) (K.faults sink.new)
        → (result.ending ≡ Ending.Done) ⊎ (result.ending ≡ Ending.Memory) ⊎ (result.ending ≡ Ending.StoreDamaged) }

    // What a replay without a run leaves in the directory.
    ensures stopped { result.transcript ≡ None → IfSome (D.state dir).moves (λ before. StopsOf script.now before (D.state result.dir).moves) }
{
    ix_replay::laws::names_of_digests_are_file_names();
    let Replayed { dir, result } = replay(alloc, dir, Sha, script);
    match result {
        Ok(transcript) => answered(alloc, transcript, sink, dir),
        Err(ReplayError::OpenFault) => without_run(Ending::OpenFault, dir),
        Err(ReplayError::Memory) => without_run(Ending::Memory, dir),
    }
}

/// Writes the transcript's text; how it ended is said by the events, where the text was written whole.
fn answered<K: Sink, D: Dir>(
    alloc: Global,
    transcript: Transcript,
    sink: &mut K,
    dir: D,
) -> Ended<D>
    ensures status { result.status ≡ status_of result.ending }
    ensures dir { result.dir ≡ dir }
    ensures transcript { result.transcript ≡ Some transcript }
    ensures written { is_whole result.ending ≡ true → Appends (K.contents sink.old) (K.contents sink.new) (transcript_text transcript) }
    ensures front { is_whole result.ending ≡ false → WritesFront (K.contents sink.old) (K.contents sink.new) (transcript_text transcript) }
    ensures told { is_whole result.ending ≡ true → result.ending ≡ after_events transcript.events }
    ensures ran { MayRun result.ending true }
    ensures write_fault { CountsWhere (is_write_fault result.ending) (K.faults sink.old) (K.faults sink.new) }
{
    let ending = match write_transcript(alloc, &transcript, sink) {
        Ok(()) => after_events(transcript.events.as_slice()),
        Err(WriteError::Fault) => Ending::WriteFault,
        Err(WriteError::Memory) => Ending::Memory,
    };
    Ended {
        status: ending.status(),
        ending,
        dir,
        transcript: Some(transcript),
    }
}

/// An ending without a transcript.
fn without_run<D: Dir>(ending: Ending, dir: D) -> Ended<D>
    ensures status { result.status ≡ status_of result.ending }
    ensures ending { result.ending ≡ ending }
    ensures dir { result.dir ≡ dir }
    ensures none { result.transcript ≡ None }
{
    Ended {
        status: ending.status(),
        ending,
        dir,
        transcript: None,
    }
}
