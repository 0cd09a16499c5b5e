//! Laws of the definitions, each the contract of a function that does nothing.
ghost use Rattle.std.specs.Prelude.{◌≡◌, ◌↔◌, ◌≤◌, ◌<◌, ◌+◌, ◌-◌, ◌^◌, ◌++◌, ◌∷◌, ℕ, filter, true, false, List, []};
ghost use Rattle.ix_dir.specs.State.{counted_where};
ghost use Rattle.ix_machine.specs.declared.event.Call.{Call};
ghost use Rattle.ix_machine.specs.declared.event.Call.TheVariants.{Load, Scan};
ghost use Rattle.ix_machine.specs.declared.event.Event.{Event};
ghost use Rattle.ix_machine.specs.declared.event.Outcome.{Outcome};
ghost use Rattle.ix_machine.specs.declared.event.Outcome.TheVariants.{Done, Written, Shared, Clash, Synced, Unsynced, NoUnit, At, Removed, Nothing, Fault, Lost, Damaged};
ghost use Rattle.ix_counts.specs.Counting.{AreCounted, Counts, RoseBy, RoseWhere, failures, is_failure, is_loaded, is_scanned, loads, scans};

/// Which outcomes say that the directory failed, and which events are loads and scans that say ok.
pub fn what_is_counted()
    ensures which { (mark : ℕ) (removed lost damaged : List ℕ) → filter is_failure (Done ∷ Written ∷ Shared ∷ Clash ∷ Synced ∷ Unsynced ∷ NoUnit ∷ At mark ∷ Removed removed ∷ Nothing ∷ Fault ∷ Lost lost ∷ Damaged damaged ∷ []) ≡ Unsynced ∷ Fault ∷ [] }
    ensures loaded { (call : Call) (outcome : Outcome) → (is_loaded call outcome ≡ true) ↔ (((name : List ℕ) × (call ≡ Load name)) × (outcome ≡ Done)) }
    ensures scanned { (call : Call) (outcome : Outcome) → (is_scanned call outcome ≡ true) ↔ ((call ≡ Scan) × ((mark : ℕ) × (outcome ≡ At mark))) }
{}

/// What events say adds up, and so does by how much the counts rose.
pub fn counts_add_up()
    ensures none { (events : List Event) (counts : Counts) → AreCounted events counts events counts }
    ensures joined { (first second third : List Event) (before between after : Counts) → AreCounted first before second between → AreCounted second between third after
        → AreCounted first before third after }
    ensures at_least { (earlier events : List Event) (before after : Counts) (counted : AreCounted earlier before events after) → after.faults < 2 ^ 64 - 1 → before.faults + failures counted.more ≤ after.faults }
    ensures found { (earlier events : List Event) (before after : Counts) (counted : AreCounted earlier before events after) → after.finds < 2 ^ 64 - 1 → before.finds + loads counted.more ≤ after.finds }
    ensures listed { (earlier events : List Event) (before after : Counts) (counted : AreCounted earlier before events after) → after.listings < 2 ^ 64 - 1 → before.listings + scans counted.more ≤ after.listings }
    ensures both { (first second : List Event) → failures (first ++ second) ≡ failures first + failures second }
    ensures both_loads { (first second : List Event) → loads (first ++ second) ≡ loads first + loads second }
    ensures both_scans { (first second : List Event) → scans (first ++ second) ≡ scans first + scans second }
{}

/// An event is counted where each count rose by one at least as often as it asks, and none is where the counts didn't fall.
pub fn events_are_counted()
    ensures one { (earlier : List Event) (event : Event) (before after : Counts) → after.faults ≡ counted_where (is_failure event.outcome) before.faults
        → RoseWhere (is_loaded event.call event.outcome) before.finds after.finds → RoseWhere (is_scanned event.call event.outcome) before.listings after.listings
        → AreCounted earlier before (earlier ++ event ∷ []) after }
    ensures none { (events : List Event) (before after : Counts) → after.faults ≡ before.faults → RoseWhere false before.finds after.finds → RoseWhere false before.listings after.listings
        → AreCounted events before events after }
{}

/// Of a run with no event before it the counts rose by at least as many as its events say so.
pub fn a_run_is_counted()
    ensures faults { (events : List Event) (before after : Counts) → AreCounted [] before events after → RoseBy (failures events) before.faults after.faults }
    ensures finds { (events : List Event) (before after : Counts) → AreCounted [] before events after → RoseBy (loads events) before.finds after.finds }
    ensures listings { (events : List Event) (before after : Counts) → AreCounted [] before events after → RoseBy (scans events) before.listings after.listings }
{}
