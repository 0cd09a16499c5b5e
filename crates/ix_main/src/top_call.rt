//! The top call without threads: words and bytes come in, bytes and a status go out.
ghost use Rattle.std.specs.Prelude.{◌≡◌, ◌≢◌, ◌⊎◌, ◌+◌, ◌<◌, ◌≤◌, ℕ, List, true, false, drop, is_some, length, Some, None, IfOk, IfSome, Ok, Err};
ghost use Rattle.std.specs.Io.KnownBytes.{Appends};
ghost use Rattle.ix_types.specs.Count.{CountsWhere, counted};
ghost use Rattle.ix_types.specs.Name.{sha_name};
ghost use Rattle.ix_check.specs.Texts.{check_text};
ghost use Rattle.ix_dir.specs.Crash.{standing};
ghost use Rattle.ix_dir.specs.State.{counted_where};
ghost use Rattle.ix_io.specs.Transfer.{AppendsPart, TakesAtMost, intake_of};
ghost use Rattle.ix_machine.specs.Opening.{opening};
ghost use Rattle.ix_machine.specs.State.{Files};
ghost use Rattle.ix_opening.specs.Found.{opening_of};
ghost use Rattle.ix_plain.specs.declared.ending.Ending.TheVariants as decided;
ghost use Rattle.ix_plain.specs.Ending.{Stayed, after_events, ending_for, max_input};
ghost use Rattle.ix_plain.specs.Output.{IsReplayOf, Leaves, StopsFor};
ghost use Rattle.ix_replays.specs.Text.{transcript_text};
ghost use Rattle.ix_transcripts.specs.Sending.{WritesFront};
ghost use Rattle.ix_counts.specs.Counting.{RoseBy, failures};
ghost use Rattle.ix_main.specs.Ending.{MayCheck, MayEnd, MayRun, is_open_fault, is_read_fault, is_read_whole, is_refused, is_silent, is_whole, is_write_fault, of_replay, status_of};
ghost use Rattle.ix_main.specs.Input.{OfInput};
ghost use Rattle.ix_main.specs.Words.{HaveForm, check_words, replay_words};

use crate::ending::{Ending, of_check, of_replay};
use crate::words::{Form, form_of};
use ix_check::check;
use ix_dir::Dir;
use ix_io::transfer::{Intake, ReadError, read_all};
use ix_io::{Sink, Source};
use ix_plain::{MAX_INPUT, replay_bytes};
use ix_replays::Transcript;
use ix_types::Seq;
use std::alloc::Global;

/// How a call ended, the directory behind it, and what the lanes showed, where they ran to their end.
#[derive(Drop)]
pub struct Ended<D: Dir> {
    pub status: u8,
    pub ending: Ending,
    pub dir: D,
    pub transcript: Option<Transcript>,
}

/// Does what the words say. `replay` reads a script from the source to its end, replays it over the directory, and writes the
/// transcript; `check` writes what opening the store would find.
///
/// The order is the words, reading, the size, the script, opening, the run, writing, and then what the events say; memory may be
/// wanting at any place.
pub fn plain<S: Source, K: Sink, D: Dir>(
    alloc: Global,
    words: &Seq<Seq<u8>>,
    source: &mut S,
    sink: &mut K,
    dir: D,
) -> Ended<D>
    ensures status { result.status ≡ status_of result.ending }

    // Status 1 comes exactly where the words are none that the call knows.
    ensures bad_words { result.ending ≡ Ending.BadWords → ¬ HaveForm words.now }
    ensures form { (result.ending ≡ Ending.BadWords) ⊎ HaveForm words.now }

    // A replay alone reads: to the end or one byte past the limit, and no further. A failed read is counted, and only there status 4 comes.
    ensures unread { words.now ≢ replay_words → source.new ≡ source.old }
    ensures read { TakesAtMost (S.remaining source.old) (S.remaining source.new) (max_input + 1) }
    ensures rest { words.now ≡ replay_words → is_read_whole result.ending ≡ true → IfSome (S.remaining source.old) (λ bytes. S.remaining source.new ≡ Some (drop (max_input + 1) bytes)) }
    ensures read_fault { CountsWhere (is_read_fault result.ending) (S.faults source.old) (S.faults source.new) }

    // The bytes decide between a script, its refusal and too many of them: status 2 with its refusal and 7 come exactly there, where no read failed and memory wasn't wanting.
    ensures exact { words.now ≡ replay_words → IfSome (S.remaining source.old) (λ bytes. MayEnd (ending_for bytes) result.ending) }

    // With status 0, 3 and 9 a replay wrote the text of its transcript, with 5 and 6 a front of it; without a transcript it wrote nothing.
    ensures written { words.now ≡ replay_words → is_whole result.ending ≡ true → IfSome result.transcript (λ transcript. Appends (K.contents sink.old) (K.contents sink.new) (transcript_text transcript)) }
    ensures front { words.now ≡ replay_words → is_whole result.ending ≡ false → IfSome result.transcript (λ transcript. WritesFront (K.contents sink.old) (K.contents sink.new) (transcript_text transcript)) }
    ensures nothing { words.now ≢ check_words → result.transcript ≡ None → K.contents sink.new ≡ K.contents sink.old }
    ensures silent { is_silent result.ending ≡ true → K.contents sink.new ≡ K.contents sink.old }
    ensures write_fault { CountsWhere (is_write_fault result.ending) (K.faults sink.old) (K.faults sink.new) }

    // Over a directory that tells its moves, the transcript is that of a replay of the script that the source held, over what opening finds there.
    ensures replayed { IfSome (D.state dir).moves (λ moves. IfSome result.transcript (λ transcript. OfInput (S.remaining source.old) (λ bytes. IsReplayOf bytes moves transcript))) }
    // That replay leaves its moves: so whatever a stop leaves at a moment of the call is the units after some of its publications, as `IsLeft` says.
    ensures left { IfSome (D.state dir).moves (λ before. IfSome result.transcript (λ transcript. OfInput (S.remaining source.old) (λ bytes. Leaves bytes before transcript (D.state result.dir).moves))) }
    ensures sound { IfSome (D.state dir).moves (λ moves. result.ending ≢ Ending.StoreDamaged) }

    // There is a transcript exactly where lanes ran to their end. The events of one that was written whole decide between status 0, 3 and 9.
    ensures ran { words.now ≡ replay_words → MayRun result.ending (is_some result.transcript) }
    ensures no_lanes { words.now ≢ replay_words → result.transcript ≡ None }
    ensures told { words.now ≡ replay_words → is_whole result.ending ≡ true → IfSome result.transcript (λ transcript. result.ending ≡ of_replay (after_events transcript.events)) }
    ensures failures { IfSome result.transcript (λ transcript. RoseBy (failures transcript.events) (D.state dir).faults (D.state result.dir).faults) }

    // Status 8 comes only where the directory counted one more fault.
    ensures open_fault { result.ending ≡ Ending.OpenFault → (D.state result.dir).faults ≡ counted (D.state dir).faults }

    // A check ends with status 0, 5, 6 or 8. It writes the text of what opening would find, whole with status 0, and a front of it with 5; with 6 that or nothing.
    ensures check_ends { words.now ≡ check_words → MayCheck result.ending }
    ensures checked { words.now ≡ check_words → result.ending ≡ Ending.Done → IfSome (D.state dir).moves (λ moves. Appends (K.contents sink.old) (K.contents sink.new) (check_text (opening_of sha_name (standing moves)))) }
    ensures check_untold { words.now ≡ check_words → result.ending ≡ Ending.Done → (units : Files) × (records : Files) × Appends (K.contents sink.old) (K.contents sink.new) (check_text (opening sha_name units records)) }
    ensures check_part { words.now ≡ check_words → result.ending ≡ Ending.WriteFault → IfSome (D.state dir).moves (λ moves. AppendsPart (K.contents sink.old) (K.contents sink.new) (check_text (opening_of sha_name (standing moves)))) }
    ensures check_wanting { words.now ≡ check_words → result.ending ≡ Ending.Memory → IfSome (D.state dir).moves (λ moves. (K.contents sink.new ≡ K.contents sink.old) ⊎ AppendsPart (K.contents sink.old) (K.contents sink.new) (check_text (opening_of sha_name (standing moves)))) }

    // It leaves the directory's moves as they were, whatever the status, and no more than three counts changed.
    ensures check_moves { words.now ≡ check_words → (D.state result.dir).moves ≡ (D.state dir).moves }
    ensures check_state { words.now ≡ check_words → D.state result.dir ≡ record (D.state dir) { faults = counted_where (is_open_fault result.ending) (D.state dir).faults; listings = (D.state result.dir).listings; finds = (D.state result.dir).finds } }

    // A script over a directory in which no count rose ends with status 0 or 6; over one that doesn't tell its moves with 9 besides. So does a check, with 0 or 6.
    ensures complete { words.now ≡ replay_words → IfSome (D.state dir).moves (λ moves. IfSome (S.remaining source.old) (λ bytes. ending_for bytes ≡ decided.Done
        → Stayed (S.faults source.old) (S.faults source.new) → Stayed (D.state dir).faults (D.state result.dir).faults → Stayed (K.faults sink.old) (K.faults sink.new)
        → (result.ending ≡ Ending.Done) ⊎ (result.ending ≡ Ending.Memory))) }
    ensures untold { words.now ≡ replay_words → IfSome (S.remaining source.old) (λ bytes. ending_for bytes ≡ decided.Done
        → Stayed (S.faults source.old) (S.faults source.new) → Stayed (D.state dir).faults (D.state result.dir).faults → Stayed (K.faults sink.old) (K.faults sink.new)
        → (result.ending ≡ Ending.Done) ⊎ (result.ending ≡ Ending.Memory) ⊎ (result.ending ≡ Ending.StoreDamaged)) }
    ensures check_complete { words.now ≡ check_words → Stayed (D.state dir).faults (D.state result.dir).faults → Stayed (K.faults sink.old) (K.faults sink.new) → (result.ending ≡ Ending.Done) ⊎ (result.ending ≡ Ending.Memory) }

    // With status 1, 2, 4 and 7 the directory comes back as it was. With 8 and 6 and no transcript its moves are those of an opening, or a run, that stopped, or it is as it was.
    ensures kept { is_refused result.ending ≡ true → D.state result.dir ≡ D.state dir }
    ensures opening { words.now ≡ replay_words → result.ending ≡ Ending.OpenFault → IfSome (D.state dir).moves (λ before. OfInput (S.remaining source.old) (λ bytes. StopsFor bytes before (D.state result.dir).moves)) }
    ensures wanting { words.now ≡ replay_words → result.ending ≡ Ending.Memory → result.transcript ≡ None → (D.state result.dir ≡ D.state dir) ⊎ IfSome (D.state dir).moves (λ before. OfInput (S.remaining source.old) (λ bytes. StopsFor bytes before (D.state result.dir).moves)) }
{
    match form_of(words) {
        Some(Form::Replay) => replay(alloc, source, sink, dir),
        Some(Form::Check) => checked(alloc, sink, dir),
        None => without_run(Ending::BadWords, dir),
    }
}

/// Reads a script from the source to its end, replays it over the directory, and writes the transcript.
fn replay<S: Source, K: Sink, D: Dir>(
    alloc: Global,
    source: &mut S,
    sink: &mut K,
    dir: D,
) -> Ended<D>
    ensures status { result.status ≡ status_of result.ending }
    ensures known { result.ending ≢ Ending.BadWords }
    ensures read { TakesAtMost (S.remaining source.old) (S.remaining source.new) (max_input + 1) }
    ensures rest { is_read_whole result.ending ≡ true → IfSome (S.remaining source.old) (λ bytes. S.remaining source.new ≡ Some (drop (max_input + 1) bytes)) }
    ensures read_fault { CountsWhere (is_read_fault result.ending) (S.faults source.old) (S.faults source.new) }
    ensures exact { IfSome (S.remaining source.old) (λ bytes. MayEnd (ending_for bytes) result.ending) }
    ensures written { is_whole result.ending ≡ true → IfSome result.transcript (λ transcript. Appends (K.contents sink.old) (K.contents sink.new) (transcript_text transcript)) }
    ensures front { is_whole result.ending ≡ false → IfSome result.transcript (λ transcript. WritesFront (K.contents sink.old) (K.contents sink.new) (transcript_text transcript)) }
    ensures nothing { result.transcript ≡ None → K.contents sink.new ≡ K.contents sink.old }
    ensures silent { is_silent result.ending ≡ true → K.contents sink.new ≡ K.contents sink.old }
    ensures write_fault { CountsWhere (is_write_fault result.ending) (K.faults sink.old) (K.faults sink.new) }
    ensures replayed { IfSome (D.state dir).moves (λ moves. IfSome result.transcript (λ transcript. OfInput (S.remaining source.old) (λ bytes. IsReplayOf bytes moves transcript))) }
    ensures left { IfSome (D.state dir).moves (λ before. IfSome result.transcript (λ transcript. OfInput (S.remaining source.old) (λ bytes. Leaves bytes before transcript (D.state result.dir).moves))) }
    ensures sound { IfSome (D.state dir).moves (λ moves. result.ending ≢ Ending.StoreDamaged) }
    ensures ran { MayRun result.ending (is_some result.transcript) }
    ensures told { is_whole result.ending ≡ true → IfSome result.transcript (λ transcript. result.ending ≡ of_replay (after_events transcript.events)) }
    ensures failures { IfSome result.transcript (λ transcript. RoseBy (failures transcript.events) (D.state dir).faults (D.state result.dir).faults) }
    ensures open_fault { result.ending ≡ Ending.OpenFault → (D.state result.dir).faults ≡ counted (D.state dir).faults }
    ensures complete { IfSome (D.state dir).moves (λ moves. IfSome (S.remaining source.old) (λ bytes. ending_for bytes ≡ decided.Done
        → Stayed (S.faults source.old) (S.faults source.new) → Stayed (D.state dir).faults (D.state result.dir).faults → Stayed (K.faults sink.old) (K.faults sink.new)
        → (result.ending ≡ Ending.Done) ⊎ (result.ending ≡ Ending.Memory))) }
    ensures untold { IfSome (S.remaining source.old) (λ bytes. ending_for bytes ≡ decided.Done
        → Stayed (S.faults source.old) (S.faults source.new) → Stayed (D.state dir).faults (D.state result.dir).faults → Stayed (K.faults sink.old) (K.faults sink.new)
        → (result.ending ≡ Ending.Done) ⊎ (result.ending ≡ Ending.Memory) ⊎ (result.ending ≡ Ending.StoreDamaged)) }
    ensures kept { is_refused result.ending ≡ true → D.state result.dir ≡ D.state dir }
    ensures opening { result.ending ≡ Ending.OpenFault → IfSome (D.state dir).moves (λ before. OfInput (S.remaining source.old) (λ bytes. StopsFor bytes before (D.state result.dir).moves)) }
    ensures wanting { result.ending ≡ Ending.Memory → result.transcript ≡ None → (D.state result.dir ≡ D.state dir) ⊎ IfSome (D.state dir).moves (λ before. OfInput (S.remaining source.old) (λ bytes. StopsFor bytes before (D.state result.dir).moves)) }
{
    match read_all(alloc, source, MAX_INPUT) {
        Ok(Intake::All(bytes)) => replay_read(alloc, bytes.as_slice(), sink, dir),
        Ok(Intake::TooLarge) => without_run(Ending::TooLarge, dir),
        Err(ReadError::Failed) => without_run(Ending::ReadFault, dir),
        Err(ReadError::Memory) => without_run(Ending::Memory, dir),
    }
}

/// Replays the script of these bytes over the directory, and writes the transcript.
fn replay_read<K: Sink, D: Dir>(alloc: Global, bytes: &[u8], sink: &mut K, dir: D) -> Ended<D>
    ensures status { result.status ≡ status_of result.ending }
    ensures known { result.ending ≢ Ending.BadWords }
    ensures read_fault { is_read_fault result.ending ≡ false }
    ensures exact { MayEnd (ending_for bytes.now) result.ending }
    ensures written { is_whole result.ending ≡ true → IfSome result.transcript (λ transcript. Appends (K.contents sink.old) (K.contents sink.new) (transcript_text transcript)) }
    ensures front { is_whole result.ending ≡ false → IfSome result.transcript (λ transcript. WritesFront (K.contents sink.old) (K.contents sink.new) (transcript_text transcript)) }
    ensures nothing { result.transcript ≡ None → K.contents sink.new ≡ K.contents sink.old }
    ensures silent { is_silent result.ending ≡ true → K.contents sink.new ≡ K.contents sink.old }
    ensures write_fault { CountsWhere (is_write_fault result.ending) (K.faults sink.old) (K.faults sink.new) }
    ensures replayed { IfSome (D.state dir).moves (λ moves. IfSome result.transcript (IsReplayOf bytes.now moves)) }
    ensures left { IfSome (D.state dir).moves (λ before. IfSome result.transcript (λ transcript. Leaves bytes.now before transcript (D.state result.dir).moves)) }
    ensures sound { IfSome (D.state dir).moves (λ moves. result.ending ≢ Ending.StoreDamaged) }
    ensures ran { MayRun result.ending (is_some result.transcript) }
    ensures told { is_whole result.ending ≡ true → IfSome result.transcript (λ transcript. result.ending ≡ of_replay (after_events transcript.events)) }
    ensures failures { IfSome result.transcript (λ transcript. RoseBy (failures transcript.events) (D.state dir).faults (D.state result.dir).faults) }
    ensures open_fault { result.ending ≡ Ending.OpenFault → (D.state result.dir).faults ≡ counted (D.state dir).faults }
    ensures complete { IfSome (D.state dir).moves (λ moves. ending_for bytes.now ≡ decided.Done → Stayed (D.state dir).faults (D.state result.dir).faults → Stayed (K.faults sink.old) (K.faults sink.new)
        → (result.ending ≡ Ending.Done) ⊎ (result.ending ≡ Ending.Memory)) }
    ensures untold { ending_for bytes.now ≡ decided.Done → Stayed (D.state dir).faults (D.state result.dir).faults → Stayed (K.faults sink.old) (K.faults sink.new)
        → (result.ending ≡ Ending.Done) ⊎ (result.ending ≡ Ending.Memory) ⊎ (result.ending ≡ Ending.StoreDamaged) }
    ensures kept { is_refused result.ending ≡ true → D.state result.dir ≡ D.state dir }
    ensures opening { result.ending ≡ Ending.OpenFault → IfSome (D.state dir).moves (λ before. StopsFor bytes.now before (D.state result.dir).moves) }
    ensures wanting { result.ending ≡ Ending.Memory → result.transcript ≡ None → (D.state result.dir ≡ D.state dir) ⊎ IfSome (D.state dir).moves (λ before. StopsFor bytes.now before (D.state result.dir).moves) }
{
    let ix_plain::Ended {
        status: _,
        ending,
        dir,
        transcript,
    } = replay_bytes(alloc, bytes, sink, dir);
    with_status(of_replay(ending), dir, transcript)
}

/// Writes what opening the store would find.
fn checked<K: Sink, D: Dir>(alloc: Global, sink: &mut K, mut dir: D) -> Ended<D>
    ensures status { result.status ≡ status_of result.ending }
    ensures ends { MayCheck result.ending }
    ensures none { result.transcript ≡ None }
    ensures done { result.ending ≡ Ending.Done → IfSome (D.state dir).moves (λ moves. Appends (K.contents sink.old) (K.contents sink.new) (check_text (opening_of sha_name (standing moves)))) }
    ensures untold { result.ending ≡ Ending.Done → (units : Files) × (records : Files) × Appends (K.contents sink.old) (K.contents sink.new) (check_text (opening sha_name units records)) }
    ensures part { result.ending ≡ Ending.WriteFault → IfSome (D.state dir).moves (λ moves. AppendsPart (K.contents sink.old) (K.contents sink.new) (check_text (opening_of sha_name (standing moves)))) }
    ensures wanting { result.ending ≡ Ending.Memory → IfSome (D.state dir).moves (λ moves. (K.contents sink.new ≡ K.contents sink.old) ⊎ AppendsPart (K.contents sink.old) (K.contents sink.new) (check_text (opening_of sha_name (standing moves)))) }
    ensures silent { is_silent result.ending ≡ true → K.contents sink.new ≡ K.contents sink.old }
    ensures moves { (D.state result.dir).moves ≡ (D.state dir).moves }
    ensures state { D.state result.dir ≡ record (D.state dir) { faults = counted_where (is_open_fault result.ending) (D.state dir).faults; listings = (D.state result.dir).listings; finds = (D.state result.dir).finds } }
    ensures write_fault { CountsWhere (is_write_fault result.ending) (K.faults sink.old) (K.faults sink.new) }
    ensures complete { Stayed (D.state dir).faults (D.state result.dir).faults → Stayed (K.faults sink.old) (K.faults sink.new) → (result.ending ≡ Ending.Done) ⊎ (result.ending ≡ Ending.Memory) }
{
    let ending = check(alloc, &mut dir, sink);
    with_status(of_check(ending), dir, None)
}

/// An ending without a run of lanes.
fn without_run<D: Dir>(ending: Ending, dir: D) -> Ended<D>
    ensures status { result.status ≡ status_of result.ending }
    ensures ending { result.ending ≡ ending }
    ensures dir { result.dir ≡ dir }
    ensures none { result.transcript ≡ None }
{
    with_status(ending, dir, None)
}

/// An ending with its status.
fn with_status<D: Dir>(ending: Ending, dir: D, transcript: Option<Transcript>) -> Ended<D>
    ensures status { result.status ≡ status_of result.ending }
    ensures ending { result.ending ≡ ending }
    ensures dir { result.dir ≡ dir }
    ensures transcript { result.transcript ≡ transcript }
{
    Ended {
        status: ending.status(),
        ending,
        dir,
        transcript,
    }
}
