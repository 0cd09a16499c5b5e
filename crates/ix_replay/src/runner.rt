//! Lanes that take turns over one library.
ghost use Rattle.std.specs.Prelude.{◌≡◌, ◌<◌, ℕ, List, [], None, length, map, IfOk, IfErr, OnErr, OnOk};
ghost use Rattle.std.specs.List.{AllByRecursion};
ghost use Rattle.ix_allowed.specs.Agree.{AreTasksOf};
ghost use Rattle.ix_lanes.specs.Progress.{begun};
ghost use Rattle.ix_lanes.specs.Tasks.{Task};
ghost use Rattle.ix_lanes.specs.Views.{Under};
ghost use Rattle.ix_library.specs.StandsFor.{StandsFor};
ghost use Rattle.ix_machine.specs.Run as machine;
ghost use Rattle.ix_machine.specs.Run.{Opening};
ghost use Rattle.ix_model.specs.Units.{Units};
ghost use Rattle.ix_plan.specs.declared.plan.Script.{Script};
ghost use Rattle.ix_replays.specs.Run.{Run, fresh, lanes_of};
ghost use Rattle.ix_replay.specs.Given.{StepLaws};
ghost use Rattle.ix_replay.specs.Left.{LeavesBehind};
ghost use Rattle.ix_replay.specs.Runs.{CanStep, IsRun};
ghost use Rattle.ix_seats.specs.Seats.{IsSeat};
ghost use Rattle.ix_counts.specs.Counting.{AreCounted, counts_of};
ghost use Rattle.ix_turn_order.specs.Order.{GoesOn};

use ix_calls::make;
use ix_dir::Dir;
use ix_import::Importer;
use ix_lanes::Lane;
use ix_library::Library;
use ix_seats::Seat;
use ix_turn_order::Stepper;
use ix_types::{Memory, Naming};
use std::alloc::Global;

/// A library, the importer of its current version, and lanes with the versions that they hold.
#[derive(Drop)]
pub struct Runner<D: Dir, N: Naming> {
    alloc: Global,
    library: Library<D, N>,
    importer: Importer,
    seats: Vec<Seat>,
}

impl<D: Dir, N: Naming + Drop> Runner<D, N> {
    /// Lanes before their first calls, over a library that was just opened.
    pub fn new(
        alloc: Global,
        library: Library<D, N>,
        lanes: Vec<Lane>,
    ) -> Result<Runner<D, N>, (Memory, Library<D, N>)>
        ensures library { IfOk result (λ runner. runner.library ≡ library) }
        ensures seats { IfOk result (λ runner. map (λ seat. seat.lane) runner.seats.items ≡ lanes.items) }
        ensures stands { (script : Script) (opening : Opening) (poller : ℕ) → AreTasksOf N.name_of poller (lanes_of N.name_of script) → map (λ lane. lane.progress) lanes.items ≡ map begun (lanes_of N.name_of script)
            → StandsFor N.name_of (machine.begun opening (length script.lanes)) library.ledger.kept library.shelf library.known (D.state library.dir) → library.ledger.events ≡ []
            → IfOk result (λ runner. IsRun N.name_of (lanes_of N.name_of script) (fresh N.name_of script opening) runner.library.ledger runner.library.shelf runner.library.known (D.state runner.library.dir) runner.importer runner.seats.items) }
        ensures back { IfErr result (λ e. e.1 ≡ library) }
    {
        ix_allowed::laws::lanes_agree_with_the_state();
        ix_polls::laws::an_importer_begins_with_the_machine();
        let importer = match Importer::new(alloc) {
            Ok(importer) => importer,
            Err(wanting) => return Err((wanting, library)),
        };
        match seats_of(alloc, lanes) {
            Ok(seats) => Ok(Runner {
                alloc,
                library,
                importer,
                seats,
            }),
            Err(wanting) => Err((wanting, library)),
        }
    }

    /// Answers the lane's asks that need no load, and makes its next call. Answers false exactly where the lane has no call left. After want of memory
    /// the library stands for the run as it was, and only `end` may follow.
    pub fn step(&mut self, lane: u32) -> Result<bool, Memory>
        requires lane { lane < length self.old.seats.items }
        requires can { CanStep N.name_of self.old.library.ledger self.old.library.shelf self.old.library.known (D.state self.old.library.dir) self.old.importer self.old.seats.items }
        ensures can { OnOk result (CanStep N.name_of self.new.library.ledger self.new.library.shelf self.new.library.known (D.state self.new.library.dir) self.new.importer self.new.seats.items) }
        ensures step { (lanes : List (List Task)) (run : Run) → IsRun N.name_of lanes run self.old.library.ledger self.old.library.shelf self.old.library.known (D.state self.old.library.dir) self.old.importer self.old.seats.items
            → IfOk result (λ made. (next : Run) × GoesOn N.name_of lanes run lane made next × IsRun N.name_of lanes next self.new.library.ledger self.new.library.shelf self.new.library.known (D.state self.new.library.dir) self.new.importer self.new.seats.items
            × LeavesBehind N.name_of run next (D.state self.old.library.dir).moves (D.state self.new.library.dir).moves) }
        ensures wanting { (lanes : List (List Task)) (run : Run) → IsRun N.name_of lanes run self.old.library.ledger self.old.library.shelf self.old.library.known (D.state self.old.library.dir) self.old.importer self.old.seats.items
            → OnErr result (StandsFor N.name_of run.state self.new.library.ledger.kept self.new.library.shelf self.new.library.known (D.state self.new.library.dir)) }
        ensures counted { IfOk result (λ made. AreCounted self.old.library.ledger.events (counts_of (D.state self.old.library.dir)) self.new.library.ledger.events (counts_of (D.state self.new.library.dir))) }
        ensures count { length self.new.seats.items ≡ length self.old.seats.items }
    {
        given();
        ix_calls::laws::tasks_stay_sound();
        let seat = &mut self.seats[lane as usize];
        let lacking = seat.settle(self.alloc)?;
        seat.reserve()?;
        let made = make(
            self.alloc,
            &mut self.library,
            &mut self.importer,
            lane,
            seat.lane(),
            lacking,
        )?;
        match made {
            None => Ok(false),
            Some(made) => {
                seat.tell(made);
                Ok(true)
            }
        }
    }

    /// The library, and the seats of the lanes.
    pub fn end(self) -> (Library<D, N>, Vec<Seat>)
        ensures library { result.0 ≡ self.library }
        ensures seats { result.1 ≡ self.seats }
    {
        let Runner {
            alloc: _,
            library,
            importer: _,
            seats,
        } = self;
        (library, seats)
    }
}

impl<D: Dir, N: Naming + Drop> Stepper for Runner<D, N> {
    ghost name_of = { N.name_of };

    ghost stands = { λ r lanes run. IsRun N.name_of lanes run r.library.ledger r.library.shelf r.library.known (D.state r.library.dir) r.importer r.seats.items };

    ghost leaves = { λ first start r run. LeavesBehind N.name_of start run (D.state first.library.dir).moves (D.state r.library.dir).moves };

    ghost wants = { λ r run. StandsFor N.name_of run.state r.library.ledger.kept r.library.shelf r.library.known (D.state r.library.dir) };

    ghost can_step = { λ r. CanStep N.name_of r.library.ledger r.library.shelf r.library.known (D.state r.library.dir) r.importer r.seats.items };

    ghost events = { λ r. r.library.ledger.events };

    ghost counts = { λ r. counts_of (D.state r.library.dir) };

    fn step(&mut self, lane: u32) -> Result<bool, Memory> {
        ix_library::laws::steps_join();
        ix_turn_order::laws::calls_are_steps();
        ix_counts::laws::counts_add_up();
        if (lane as usize) < self.seats.len() {
            self.step(lane)
        } else {
            Ok(false)
        }
    }
}

/// What the proof of a step takes from the crates below.
fn given()
    ensures { StepLaws }
{
    ix_seats::laws::seats_see_the_mark_held();
    ix_seats::laws::lacking_records_are_loaded_next();
    ix_allowed::laws::lanes_agree_with_the_state();
    ix_allowed::laws::each_call_may_be_made();
    ix_polls::laws::other_steps_leave_the_import();
    ix_replays::laws::an_event_takes_its_own_lane_on();
    ix_turn_order::laws::calls_are_steps();
    ix_turn_order::laws::earlier_marks_stay();
    ix_library::laws::steps_join();
    ix_stops::laws::syncs_change_nothing();
}

/// Each lane in a seat of its own.
fn seats_of(alloc: Global, lanes: Vec<Lane>) -> Result<Vec<Seat>, Memory>
    ensures lanes { IfOk result (λ seats. map (λ seat. seat.lane) seats.items ≡ lanes.items) }
    ensures sit { (seen : ℕ → Units) → AllByRecursion (λ (lane : Under). lane.progress.held ≡ None) lanes.items → IfOk result (λ seats. AllByRecursion (IsSeat seen) seats.items) }
{
    let mut seats = Vec::new(alloc);
    for lane in lanes {
        seats.push(Seat::of(lane))?;
    }
    Ok(seats)
}
