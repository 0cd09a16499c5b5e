//! Laws of the definitions, each the contract of a function that does nothing.
ghost use Rattle.std.specs.Prelude.{◌≡◌, ℕ, List, Option};
ghost use Rattle.ix_dir.specs.State.{DirState, counted_where};
ghost use Rattle.ix_counts.specs.Counting.{AreCounted, RoseWhere, counts_of, says_loaded, says_scanned};
ghost use Rattle.ix_machine.specs.declared.event.Call.{Call};
ghost use Rattle.ix_machine.specs.declared.event.Event.{Event};
ghost use Rattle.ix_machine.specs.declared.event.Outcome.{Outcome};
ghost use Rattle.ix_library.specs.Endings.{with_event};
ghost use Rattle.ix_turns.specs.Ended.{call_failed};

/// A call whose counts rose as its ending asks is counted, with its event where it has one.
pub fn calls_are_counted()
    ensures { (earlier events : List Event) (lane : ℕ) (call : Call) (how : Option Outcome) (before after : DirState) → events ≡ with_event earlier lane call how
        → after.faults ≡ counted_where (call_failed how) before.faults → RoseWhere (says_loaded call how) before.finds after.finds → RoseWhere (says_scanned call how) before.listings after.listings
        → AreCounted earlier (counts_of before) events (counts_of after) }
{
    ix_counts::laws::events_are_counted();
}
