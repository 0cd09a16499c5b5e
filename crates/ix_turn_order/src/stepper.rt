//! Lanes that are stepped, one call at a time.
ghost use Rattle.std.specs.Prelude.{◌≡◌, ℕ, List, IfOk, OnErr, OnOk};
ghost use Rattle.ix_lanes.specs.Tasks.{Task};
ghost use Rattle.ix_machine.specs.declared.event.Event.{Event};
ghost use Rattle.ix_replays.specs.Run.{Run};
ghost use Rattle.ix_counts.specs.Counting.{AreCounted, Counts};
ghost use Rattle.ix_turn_order.specs.Order.{GoesOn};

use ix_types::Memory;

/// Lanes that are stepped, one call at a time. It stands for a run of these lanes, and counts what its directory did.
pub trait Stepper {
    /// The names of units by their output paths.
    ghost name_of: { List ℕ → List ℕ };

    /// Whether it stands for this run of these lanes.
    ghost stands: { Self → List (List Task) → Run → Type 0 };

    /// Whether this is so of what was left behind, from a first one that stood for one run to a second one that stands for another.
    ghost leaves: { Self → Run → Self → Run → Type 0 };

    /// What stands where memory was wanting in a step behind this run.
    ghost wants: { Self → Run → Type 0 };

    /// What it needs for a step, and has after each one. Memory may be wanting for good.
    ghost can_step: { Self → Type 0 };

    /// The events so far.
    ghost events: { Self → List Event };

    /// How often the directory failed, found a record file and made a list.
    ghost counts: { Self → Counts };

    /// Makes the lane's next call. Answers false exactly where it has none left.
    fn step(&mut self, lane: u32) -> Result<bool, Memory>
        requires { can_step self.old }
        ensures can { OnOk result (can_step self.new) }
        ensures step { (first : Self) (start : Run) (lanes : List (List Task)) (run : Run) → stands self.old lanes run → leaves first start self.old run
            → IfOk result (λ made. (next : Run) × GoesOn name_of lanes run lane made next × stands self.new lanes next × leaves first start self.new next) }
        ensures wanting { (lanes : List (List Task)) (run : Run) → stands self.old lanes run → OnErr result (wants self.new run) }
        ensures counted { IfOk result (λ made. AreCounted (events self.old) (counts self.old) (events self.new) (counts self.new)) };
}
