//! What follows of a lane's tasks, and of flags. A caller's proof gets a law by calling its function, which does nothing.
ghost use Rattle.std.specs.Prelude.{◌≡◌, ℕ, List, drop};
ghost use Rattle.std.specs.List.{AllByRecursion};
ghost use Rattle.ix_types.specs.Name.{IsFileName};
ghost use Rattle.ix_model.specs.Units.{Units};
ghost use Rattle.ix_machine.specs.declared.event.Outcome.{Outcome};
ghost use Rattle.ix_lanes.specs.Progress.{Progress, settled};
ghost use Rattle.ix_lanes.specs.Rules.{IsReady};
ghost use Rattle.ix_lanes.specs.Tasks.{Task, tasks_of};
ghost use Rattle.ix_library.specs.Endings.{flag_for};
ghost use Rattle.ix_replays.specs.Run.{flag_of};
ghost use Rattle.ix_seats.specs.Made.{after};
ghost use Rattle.ix_calls.specs.Sound.{AreSound};

use ix_plan::Step;
use ix_seats::Made;

/// The flag with which a library takes a call that ended so is the one that its outcome shows in a run.
pub fn flags_are_those_that_runs_show()
    ensures { (outcome : Outcome) → flag_for outcome ≡ flag_of outcome }
{}

/// The tasks of steps that keep their rules are sound, and stay so as a lane goes on.
pub fn tasks_stay_sound()
    ensures begun { (name_of : List ℕ → List ℕ) (steps : List Step) → ((bytes : List ℕ) → IsFileName (name_of bytes)) → AllByRecursion IsReady steps → AreSound name_of (tasks_of name_of steps) }
    ensures told { (name_of : List ℕ → List ℕ) (p : Progress) (made : Made) → AreSound name_of p.tasks → AreSound name_of (after made p).tasks }
    ensures settled { (name_of : List ℕ → List ℕ) (p : Progress) (seen : ℕ → Units) → AreSound name_of p.tasks → AreSound name_of (settled seen p).tasks }
    ensures left { (name_of : List ℕ → List ℕ) (tasks : List Task) (gone : ℕ) → AreSound name_of tasks → AreSound name_of (drop gone tasks) }
{
    ix_jobs::laws::jobs_are_valid();
}
