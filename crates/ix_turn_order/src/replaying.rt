//! The turns of a script: its own order, and then lane after lane.
ghost use Rattle.std.specs.Prelude.{◌≡◌, ◌⊎◌, ◌<◌, ◌+◌, ℕ, List, [], length, OnErr, OnOk};
ghost use Rattle.ix_lanes.specs.Tasks.{Task};
ghost use Rattle.ix_machine.specs.Run.{Opening};
ghost use Rattle.ix_plan.specs.declared.plan.Script.{Script};
ghost use Rattle.ix_replays.specs.Run.{IsReplay, Run, fresh, lanes_of, transcript_of};
ghost use Rattle.ix_counts.specs.Counting.{AreCounted};
ghost use Rattle.ix_turn_order.specs.Order.{ComesTo, IsReplaying, IsWanting};

use crate::laws;
use crate::stepper::Stepper;
use ix_types::Memory;

/// Steps the lanes by the script's order, without those that have ended, and then lane after lane to its end.
pub fn run_script<S: Stepper>(stepper: &mut S, order: &[u32], lanes: u32) -> Result<(), Memory>
    requires { S.can_step stepper.old }
    ensures can { OnOk result (S.can_step stepper.new) }
    ensures replayed { (script : Script) (opening : Opening) → order.now ≡ script.order → lanes ≡ length script.lanes
        → S.stands stepper.old (lanes_of S.name_of script) (fresh S.name_of script opening) → S.leaves stepper.old (fresh S.name_of script opening) stepper.old (fresh S.name_of script opening)
        → OnOk result ((run : Run) × S.stands stepper.new (lanes_of S.name_of script) run × S.leaves stepper.old (fresh S.name_of script opening) stepper.new run
        × ComesTo S.name_of (lanes_of S.name_of script) (fresh S.name_of script opening) script.order run [] × (replay : IsReplay S.name_of script opening (transcript_of S.name_of script opening run)) × (replay.run ≡ run)) }
    ensures wanting { (script : Script) (opening : Opening) → order.now ≡ script.order → lanes ≡ length script.lanes
        → S.stands stepper.old (lanes_of S.name_of script) (fresh S.name_of script opening) → S.leaves stepper.old (fresh S.name_of script opening) stepper.old (fresh S.name_of script opening)
        → OnErr result (IsWanting S.name_of (lanes_of S.name_of script) (λ run. S.stands stepper.new (lanes_of S.name_of script) run ⊎ S.wants stepper.new run) (fresh S.name_of script opening) script.order) }
    ensures counted { OnOk result (AreCounted (S.events stepper.old) (S.counts stepper.old) (S.events stepper.new) (S.counts stepper.new)) }
{
    ix_replays::laws::runs_keep_their_marks();
    laws::steps_are_turns();
    laws::replays_end();
    ix_counts::laws::counts_add_up();
    run_order(stepper, order)?;
    run_rest(stepper, lanes)?;
    Ok(())
}

/// Steps the lanes in this order.
fn run_order<S: Stepper>(stepper: &mut S, order: &[u32]) -> Result<(), Memory>
    requires { S.can_step stepper.old }
    ensures can { OnOk result (S.can_step stepper.new) }
    ensures turns { (first : S) (tasks : List (List Task)) (start : Run) (whole : List ℕ) → IsReplaying S.name_of tasks (λ run. S.stands stepper.old tasks run × S.leaves first start stepper.old run) start whole order.now 0
        → OnOk result (IsReplaying S.name_of tasks (λ run. S.stands stepper.new tasks run × S.leaves first start stepper.new run) start whole [] 0) }
    ensures wanting { (first : S) (tasks : List (List Task)) (start : Run) (whole : List ℕ) → IsReplaying S.name_of tasks (λ run. S.stands stepper.old tasks run × S.leaves first start stepper.old run) start whole order.now 0
        → OnErr result (IsWanting S.name_of tasks (λ run. S.stands stepper.new tasks run ⊎ S.wants stepper.new run) start whole) }
    ensures counted { OnOk result (AreCounted (S.events stepper.old) (S.counts stepper.old) (S.events stepper.new) (S.counts stepper.new)) }
{
    laws::steps_are_turns();
    ix_counts::laws::counts_add_up();
    for lane in order {
        let _made = stepper.step(*lane)?;
    }
    Ok(())
}

/// Steps each lane to its end, lane after lane.
fn run_rest<S: Stepper>(stepper: &mut S, lanes: u32) -> Result<(), Memory>
    requires { S.can_step stepper.old }
    ensures can { OnOk result (S.can_step stepper.new) }
    ensures turns { (first : S) (tasks : List (List Task)) (start : Run) (whole : List ℕ) → lanes ≡ length tasks
        → IsReplaying S.name_of tasks (λ run. S.stands stepper.old tasks run × S.leaves first start stepper.old run) start whole [] 0 → OnOk result (IsReplaying S.name_of tasks (λ run. S.stands stepper.new tasks run × S.leaves first start stepper.new run) start whole [] lanes) }
    ensures wanting { (first : S) (tasks : List (List Task)) (start : Run) (whole : List ℕ) → lanes ≡ length tasks
        → IsReplaying S.name_of tasks (λ run. S.stands stepper.old tasks run × S.leaves first start stepper.old run) start whole [] 0 → OnErr result (IsWanting S.name_of tasks (λ run. S.stands stepper.new tasks run ⊎ S.wants stepper.new run) start whole) }
    ensures counted { OnOk result (AreCounted (S.events stepper.old) (S.counts stepper.old) (S.events stepper.new) (S.counts stepper.new)) }
{
    ix_counts::laws::counts_add_up();
    for lane in 0..lanes {
        run_lane(stepper, lane)?;
    }
    Ok(())
}

/// Steps a lane to its end. No run has more events than a u64 counts.
fn run_lane<S: Stepper>(stepper: &mut S, lane: u32) -> Result<(), Memory>
    requires { S.can_step stepper.old }
    ensures can { OnOk result (S.can_step stepper.new) }
    ensures turns { (first : S) (tasks : List (List Task)) (start : Run) (whole : List ℕ) → lane < length tasks
        → IsReplaying S.name_of tasks (λ run. S.stands stepper.old tasks run × S.leaves first start stepper.old run) start whole [] lane → OnOk result (IsReplaying S.name_of tasks (λ run. S.stands stepper.new tasks run × S.leaves first start stepper.new run) start whole [] (lane + 1)) }
    ensures wanting { (first : S) (tasks : List (List Task)) (start : Run) (whole : List ℕ) → lane < length tasks
        → IsReplaying S.name_of tasks (λ run. S.stands stepper.old tasks run × S.leaves first start stepper.old run) start whole [] lane → OnErr result (IsWanting S.name_of tasks (λ run. S.stands stepper.new tasks run ⊎ S.wants stepper.new run) start whole) }
    ensures counted { OnOk result (AreCounted (S.events stepper.old) (S.counts stepper.old) (S.events stepper.new) (S.counts stepper.new)) }
{
    laws::steps_are_turns();
    laws::ended_lanes_stay_ended();
    ix_counts::laws::counts_add_up();
    for _event in 0..u64::MAX {
        let made = stepper.step(lane)?;
        if !made {
            return Ok(());
        }
    }
    Err(Memory)
}
