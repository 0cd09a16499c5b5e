//! The replay of a script.
ghost use Rattle.std.specs.Prelude.{◌≡◌, ◌⊎◌, ◌<◌, ◌+◌, ◌^◌, ℕ, List, false, Some, Err, IfOk, IfErr, IfSome, map, length};
ghost use Rattle.std.specs.List.{AllByRecursion};
ghost use Rattle.ix_types.specs.Count.{counted};
ghost use Rattle.ix_types.specs.Name.{IsFileName};
ghost use Rattle.ix_dir.specs.declared.moves.Move.{Move};
ghost use Rattle.ix_dir.specs.Crash.{standing};
ghost use Rattle.ix_lanes.specs.Progress.{begun, settled};
ghost use Rattle.ix_lanes.specs.Rules.{IsReady};
ghost use Rattle.ix_machine.specs.Run.{Opening};
ghost use Rattle.ix_model.specs.Units.{Units};
ghost use Rattle.ix_opening.specs.Found.{opening_of};
ghost use Rattle.ix_plan.specs.Keeps.{IsAccepted};
ghost use Rattle.ix_replay.specs.Left.{HoldsState, IsLeft, LeavesBehind, StopsInOpening, StopsInRun};
ghost use Rattle.ix_replay.specs.Runs.{CanStep, IsRun};
ghost use Rattle.ix_replays.specs.Run.{IsReplay, fresh, lanes_of};
ghost use Rattle.ix_seats.specs.Seated.{Seated};
ghost use Rattle.ix_seats.specs.Seats.{IsSeat};
ghost use Rattle.ix_counts.specs.Counting.{AreCounted, RoseBy, counts_of, failures, loads, scans};
ghost use Rattle.ix_turn_order.specs.Order.{IsWanting};
ghost use Rattle.ix_turns.specs.Ended.{is_missed};

use crate::runner::Runner;
use ix_dir::Dir;
use ix_lanes::{Answered, Lane};
use ix_library::open_store;
use ix_machine::{Event, Refused};
use ix_opening::OpenError;
use ix_plan::Script;
use ix_replays::Transcript;
use ix_seats::Seat;
use ix_turn_order::run_script;
use ix_types::{Memory, Naming, Seq};
use std::alloc::Global;
use thiserror::Error;

/// The directory behind a replay, and what the run showed.
#[derive(Drop)]
pub struct Replayed<D: Dir> {
    pub dir: D,
    pub result: Result<Transcript, ReplayError>,
}

/// Why a run wasn't ended.
#[derive(Clone, Copy, Debug, Drop, PartialEq, Eq, Error)]
pub enum ReplayError {
    /// The directory failed while the store was opened.
    #[error("the store could not be opened")]
    OpenFault,
    /// Memory was wanting.
    #[error("memory")]
    Memory,
}

/// Opens the store, and steps the lanes by the script's order, without the lanes that have ended, and then lane after lane.
pub fn replay<D: Dir, N: Naming + Drop>(
    alloc: Global,
    dir: D,
    naming: N,
    script: &Script,
) -> Replayed<D>
    requires script { IsAccepted script.now }
    requires naming { (bytes : List ℕ) → IsFileName (N.name_of bytes) }
    ensures replayed { IfSome (D.state dir).moves (λ moves. IfOk result.result (λ transcript. IsReplay N.name_of script.now (opening_of N.name_of (standing moves)) transcript)) }
    ensures left { IfSome (D.state dir).moves (λ before. IfOk result.result (λ transcript. (replay : IsReplay N.name_of script.now (opening_of N.name_of (standing before)) transcript) × (now : List Move) × ((D.state result.dir).moves ≡ Some now) × IsLeft N.name_of before replay.run now)) }
    ensures whole { IfSome (D.state dir).moves (λ before. IfOk result.result (λ transcript. AllByRecursion (λ event. is_missed event.outcome ≡ false) transcript.events)) }
    // Over each directory: as often as an event says fault or unsynced the directory failed, for each load that says ok it found a record file, and it made one list to open the store and one for each scan that says ok.
    ensures failures { IfOk result.result (λ transcript. RoseBy (failures transcript.events) (D.state dir).faults (D.state result.dir).faults) }
    ensures finds { IfOk result.result (λ transcript. RoseBy (loads transcript.events) (D.state dir).finds (D.state result.dir).finds) }
    ensures listings { IfOk result.result (λ transcript. RoseBy (1 + scans transcript.events) (D.state dir).listings (D.state result.dir).listings) }
    ensures cause { result.result ≡ Err ReplayError.OpenFault → (D.state result.dir).faults ≡ counted (D.state dir).faults }
    // A store that couldn't be opened is as the opening left it; one that lacked memory, so or as it stands for some run to which the replay comes.
    ensures opening { IfSome (D.state dir).moves (λ before. result.result ≡ Err ReplayError.OpenFault → (now : List Move) × ((D.state result.dir).moves ≡ Some now) × StopsInOpening N.name_of before now) }
    ensures state { result.result ≡ Err ReplayError.OpenFault → D.state result.dir ≡ record (D.state dir) { moves = (D.state result.dir).moves; spare = (D.state result.dir).spare; faults = counted (D.state dir).faults; listings = (D.state result.dir).listings; finds = (D.state result.dir).finds } }
    ensures wanting { IfSome (D.state dir).moves (λ before. result.result ≡ Err ReplayError.Memory → (now : List Move) × ((D.state result.dir).moves ≡ Some now) × (StopsInOpening N.name_of before now ⊎ StopsInRun N.name_of before script.now now)) }
{
    ix_allowed::laws::accepted_scripts_are_ready();
    ix_calls::laws::tasks_stay_sound();
    ix_lanes::laws::steps_are_ready();
    ix_stops::laws::a_crash_leaves_a_prefix();
    let lanes = match lanes_of(alloc, script, &naming) {
        Ok(lanes) => lanes,
        Err(_wanting) => return failed(dir, ReplayError::Memory),
    };
    let started = match open_store(alloc, dir, naming, lanes.len() as u32) {
        Ok(started) => started,
        Err((OpenError::Fault, dir)) => return failed(dir, ReplayError::OpenFault),
        Err((OpenError::Memory, dir)) => return failed(dir, ReplayError::Memory),
    };
    match Runner::new(alloc, started.library, lanes) {
        Ok(runner) => run(alloc, runner, script, started.refused),
        Err((_wanting, library)) => failed(library.into_dir(), ReplayError::Memory),
    }
}

/// The directory alone.
fn failed<D: Dir>(dir: D, error: ReplayError) -> Replayed<D>
    ensures dir { result.dir ≡ dir }
    ensures error { result.result ≡ Err error }
{
    Replayed {
        dir,
        result: Err(error),
    }
}

/// The lanes of a script.
fn lanes_of<N: Naming>(alloc: Global, script: &Script, naming: &N) -> Result<Vec<Lane>, Memory>
    requires { AllByRecursion (AllByRecursion IsReady) script.now.lanes }
    ensures { IfOk result (λ lanes. map (λ lane. lane.progress) lanes.items ≡ map begun (lanes_of N.name_of script.now)) }
{
    let mut lanes = Vec::new(alloc);
    for steps in script.lanes.as_slice() {
        lanes.push(Lane::new(alloc, steps, naming)?)?;
    }
    Ok(lanes)
}

/// Runs the lanes to their ends, and gives what the run showed.
fn run<D: Dir, N: Naming + Drop>(
    alloc: Global,
    runner: Runner<D, N>,
    script: &Script,
    refused: Seq<Refused>,
) -> Replayed<D>
    requires lanes { length script.now.lanes < 2 ^ 32 }
    requires can { CanStep N.name_of runner.library.ledger runner.library.shelf runner.library.known (D.state runner.library.dir) runner.importer runner.seats.items }
    ensures replayed { (opening : Opening) → refused ≡ opening.refused
        → IsRun N.name_of (lanes_of N.name_of script.now) (fresh N.name_of script.now opening) runner.library.ledger runner.library.shelf runner.library.known (D.state runner.library.dir) runner.importer runner.seats.items
        → IfOk result.result (λ transcript. IsReplay N.name_of script.now opening transcript) }
    ensures left { (opening : Opening) → refused ≡ opening.refused
        → IsRun N.name_of (lanes_of N.name_of script.now) (fresh N.name_of script.now opening) runner.library.ledger runner.library.shelf runner.library.known (D.state runner.library.dir) runner.importer runner.seats.items
        → IfOk result.result (λ transcript. (replay : IsReplay N.name_of script.now opening transcript) × HoldsState N.name_of replay.run.state (D.state result.dir).moves
        × LeavesBehind N.name_of (fresh N.name_of script.now opening) replay.run (D.state runner.library.dir).moves (D.state result.dir).moves) }
    ensures wanting { (opening : Opening)
        → IsRun N.name_of (lanes_of N.name_of script.now) (fresh N.name_of script.now opening) runner.library.ledger runner.library.shelf runner.library.known (D.state runner.library.dir) runner.importer runner.seats.items
        → IfErr result.result (λ e. IsWanting N.name_of (lanes_of N.name_of script.now) (λ run. HoldsState N.name_of run.state (D.state result.dir).moves) (fresh N.name_of script.now opening) script.now.order) }
    ensures counted { IfOk result.result (λ transcript. AreCounted runner.library.ledger.events (counts_of (D.state runner.library.dir)) transcript.events (counts_of (D.state result.dir))) }
    ensures memory { IfErr result.result (λ e. e ≡ ReplayError.Memory) }
{
    ix_stops::laws::syncs_change_nothing();
    let mut runner = runner;
    let ran = run_script(
        &mut runner,
        script.order.as_slice(),
        script.lanes.as_slice().len() as u32,
    );
    let (library, seats) = runner.end();
    let (dir, events) = library.into_parts();
    if ran.is_err() {
        return failed(dir, ReplayError::Memory);
    }
    match answers_of(alloc, seats) {
        Ok(answers) => Replayed {
            dir,
            result: Ok(Transcript {
                refused,
                events,
                answers,
            }),
        },
        Err(_wanting) => failed(dir, ReplayError::Memory),
    }
}

/// The answers of each lane, once those asks that lack nothing are answered.
fn answers_of(alloc: Global, seats: Vec<Seat>) -> Result<Seq<Seq<Answered>>, Memory>
    ensures { (seen : ℕ → Units) → AllByRecursion (IsSeat seen) seats.items → IfOk result (λ answers. answers ≡ map (λ (seat : Seated). (settled seen seat.lane.progress).answers) seats.items) }
{
    let mut answers = Vec::new(alloc);
    for seat in seats {
        let own = answers_in(alloc, seat)?;
        answers.push(own)?;
    }
    Ok(Seq::of(answers))
}

/// The answers of a lane, once those asks that lack nothing are answered.
fn answers_in(alloc: Global, seat: Seat) -> Result<Seq<Answered>, Memory>
    ensures { (seen : ℕ → Units) → IsSeat seen seat → IfOk result (λ answers. answers ≡ (settled seen seat.lane.progress).answers) }
{
    let mut seat = seat;
    let _lacking = seat.settle(alloc)?;
    Ok(seat.into_answers())
}
