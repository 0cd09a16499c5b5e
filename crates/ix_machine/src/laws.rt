//! Laws of the machine, each the contract of a function that does nothing.
ghost use Rattle.std.specs.Prelude.{◌≡◌, ◌≢◌, ◌+◌, ◌≤◌, ◌∷◌, ◌++◌, ◌↔◌, List, ℕ, map, Option, Some, Ok, Err, true, false, drop, length, [], IfSome, IsSome, None, count_by};
ghost use Rattle.std.specs.List.{AllByRecursion};
ghost use Rattle.std.specs.List.Sorted.{IsStrictlySortedBy};
ghost use Rattle.std.specs.Map.{keys_of, lookup};
ghost use Rattle.std.specs.BTreeMap.{is_at};
ghost use Rattle.ix_types.specs.Row.{text_cmp};
ghost use Rattle.ix_record.specs.Whole.{IsWhole};
ghost use Rattle.ix_record.specs.declared.body.Body.{Body};
ghost use Rattle.ix_record.specs.declared.value.RecordValue.{RecordValue};
ghost use Rattle.ix_unit.specs.declared.fault.UnitError.TheVariants as errors;
ghost use Rattle.ix_unit.specs.declared.value.UnitValue.{UnitValue};
ghost use Rattle.ix_unit.specs.Value.{IsValidUnit};
ghost use Rattle.ix_wire.specs.Spelling.{IsBytes};
ghost use Rattle.ix_model.specs.Units.{NamesRise, KeepsOtherNames, unit_named};
ghost use Rattle.ix_model.specs.declared.publication.Publication.{Publication};
ghost use Rattle.ix_model.specs.declared.publication.Publication.TheVariants as model;
ghost use Rattle.ix_model.specs.declared.publication.StoredUnit.{StoredUnit};
ghost use Rattle.ix_machine.specs.declared.event.Outcome.{Outcome};
ghost use Rattle.ix_machine.specs.declared.event.Outcome.TheVariants.{Done, Clash, Unsynced, NoUnit, Removed, Nothing, Fault, Lost, Damaged};
ghost use Rattle.ix_machine.specs.declared.opened.Refused.{Refused};
ghost use Rattle.ix_machine.specs.declared.opened.UnitFault.{UnitFault};
ghost use Rattle.ix_machine.specs.declared.opened.UnitFault.TheVariants as causes;
ghost use Rattle.ix_machine.specs.declared.event.Purpose.{Purpose};
ghost use Rattle.ix_machine.specs.declared.event.Purpose.TheVariants as For;
ghost use Rattle.ix_machine.specs.Given.{Given, Lease, Put, Stage, Publish, Remove, Scan, Load, Install, Adopt, Release, Collect};
ghost use Rattle.ix_machine.specs.Listed.{Lists};
ghost use Rattle.ix_machine.specs.Needs.{has_name, is_needed, loose, settled, units_need, visible, seen_at};
ghost use Rattle.ix_machine.specs.State as state;
ghost use Rattle.ix_machine.specs.State.{Files, Import, State, lease_of, held_by};
ghost use Rattle.ix_machine.specs.Step.{Stepped, step};
ghost use Rattle.ix_machine.specs.Run.{Opening, IsSoundOpening, MayCall, begun, Turn, Leads};
ghost use Rattle.ix_machine.specs.Counts.{UnitsMove, Changed, Synced, changes_after, mark_with, is_change, made, acknowledged};
ghost use Rattle.ix_machine.specs.Opening.{AreFiles, IsFirstCause, IsSoundUnit, ListsAll, cause, judged, opening};
ghost use Rattle.ix_machine.specs.Sound.{IsSound, MarksInOrder, NeededStand, StandsWhole, ValuesStand, IsLeaseSound};
ghost use Rattle.ix_machine.specs.Laws.{IsLoose, RemovesLeast, after_collects, IsRefusal, after_refusal, IsFlagOf, ChangesUnits, IsPendingChange, KeepsLane, NeverFalls, IsWithout, AreNamed, IsOnlyPath};

/// From a sound opening a run comes to sound states alone, and a sound state leads to sound states alone.
pub fn every_state_is_sound()
    ensures begins { (name_of : List ℕ → List ℕ) (opening : Opening) (lanes : ℕ) → IsSoundOpening name_of opening → IsSound name_of (begun opening lanes) }
    ensures goes_on { (name_of : List ℕ → List ℕ) (turns : List Turn) (s end : State) → IsSound name_of s → Leads name_of s turns end → IsSound name_of end }
{}

/// A run begins with what opening finds: its units are visible, the record files stand, and nothing pends, is leased, imported or held.
pub fn a_run_begins_with_what_is_found()
    ensures pending { (opening : Opening) (lanes : ℕ) → (begun opening lanes).pending ≡ None }
    ensures imported { (opening : Opening) (lanes : ℕ) → (begun opening lanes).import ≡ None }
    ensures current { (opening : Opening) (lanes : ℕ) → (begun opening lanes).current ≡ 0 }
    ensures leased { (opening : Opening) (lanes lane : ℕ) → lease_of (begun opening lanes) lane ≡ None }
    ensures held { (opening : Opening) (lanes lane : ℕ) → held_by (begun opening lanes) lane ≡ None }
    ensures lanes { (opening : Opening) (lanes : ℕ) → (length (begun opening lanes).leases ≡ lanes) × (length (begun opening lanes).held ≡ lanes) }
    ensures units { (opening : Opening) (lanes : ℕ) → NamesRise opening.units → visible (begun opening lanes) ≡ opening.units }
    ensures records { (name_of : List ℕ → List ℕ) (units records : Files) (lanes : ℕ) → (begun (opening name_of units records) lanes).records ≡ records }
    ensures publications { (opening : Opening) (lanes : ℕ) → (begun opening lanes).publications ≡ map (λ entry. model.Put entry.0 entry.1) opening.units }
{}

/// Where a call may be made: a publish and an install where they have a step, a removal, a scan, an adopt, a release and a collect always.
pub fn calls_may_be_made()
    ensures lease { (name_of : List ℕ → List ℕ) (s : State) (lane : ℕ) (names : List (List ℕ))
        → MayCall name_of s lane (Lease names) ↔ (lease_of s lane ≡ None) }
    ensures put { (name_of : List ℕ → List ℕ) (s : State) (lane : ℕ) (body : Body) → MayCall name_of s lane (Put body)
        ↔ ((lease : state.Lease) × (lease_of s lane ≡ Some lease) × (lease.staged ≡ None) × (has_name body.name lease.names ≡ true) × IsWhole name_of body) }
    ensures stage { (name_of : List ℕ → List ℕ) (s : State) (lane : ℕ) (unit : UnitValue) → MayCall name_of s lane (Stage unit)
        ↔ ((lease : state.Lease) × (lease_of s lane ≡ Some lease) × (lease.staged ≡ None) × IsValidUnit unit
        × AllByRecursion (λ dep. has_name dep.name lease.put ≡ true) unit.records) }
    ensures publish { (name_of : List ℕ → List ℕ) (s : State) (lane : ℕ) → MayCall name_of s lane Publish ↔ IsSome (step name_of s lane Publish Done) }
    ensures install { (name_of : List ℕ → List ℕ) (s : State) (lane : ℕ) → MayCall name_of s lane Install ↔ IsSome (step name_of s lane Install Done) }
    ensures load_for_import { (name_of : List ℕ → List ℕ) (s : State) (lane : ℕ) (name : List ℕ) → MayCall name_of s lane (Load name For.Import)
        ↔ ((open_import : Import) × (s.import ≡ Some open_import) × (units_need name (seen_at s open_import.mark) ≡ true)
        × (units_need name (seen_at s s.current) ≡ false)) }
    ensures load_for_ask { (name_of : List ℕ → List ℕ) (s : State) (lane : ℕ) (name : List ℕ) → MayCall name_of s lane (Load name For.Ask)
        ↔ ((mark : ℕ) × (held_by s lane ≡ Some mark) × (units_need name (seen_at s mark) ≡ true)) }
    ensures always { (name_of : List ℕ → List ℕ) (s : State) (lane : ℕ) (output : List ℕ)
        → MayCall name_of s lane (Remove output) × MayCall name_of s lane Scan × MayCall name_of s lane Adopt × MayCall name_of s lane Release
        × MayCall name_of s lane Collect }
{}

/// In every state of a run the current mark is at most that of the open import, each held mark at most the current one, and all
/// at most the number of publications. In the further run neither the current mark nor a lane's held mark falls.
pub fn marks_stay_in_order()
    ensures order { (name_of : List ℕ → List ℕ) (opening : Opening) (lanes : ℕ) (turns : List Turn) (s : State)
        → IsSoundOpening name_of opening → Leads name_of (begun opening lanes) turns s → MarksInOrder s }
    ensures held { (name_of : List ℕ → List ℕ) (opening : Opening) (lanes : ℕ) (turns : List Turn) (s : State) (lane mark : ℕ)
        → IsSoundOpening name_of opening → Leads name_of (begun opening lanes) turns s → held_by s lane ≡ Some mark
        → (mark ≤ s.current) × (s.current ≤ length s.publications) }
    ensures imported { (name_of : List ℕ → List ℕ) (opening : Opening) (lanes : ℕ) (turns : List Turn) (s : State) (open_import : Import)
        → IsSoundOpening name_of opening → Leads name_of (begun opening lanes) turns s → s.import ≡ Some open_import
        → (s.current ≤ open_import.mark) × (open_import.mark ≤ length s.publications) }
    ensures held_rises { (name_of : List ℕ → List ℕ) (opening : Opening) (lanes : ℕ) (turns : List Turn) (s : State) (further : List Turn) (later : State) (lane earlier mark : ℕ)
        → IsSoundOpening name_of opening → Leads name_of (begun opening lanes) turns s → Leads name_of s further later → held_by s lane ≡ Some earlier
        → held_by later lane ≡ Some mark → earlier ≤ mark }
    ensures current_rises { (name_of : List ℕ → List ℕ) (opening : Opening) (lanes : ℕ) (turns : List Turn) (s : State) (further : List Turn) (later : State)
        → IsSoundOpening name_of opening → Leads name_of (begun opening lanes) turns s → Leads name_of s further later → s.current ≤ later.current }
    ensures rise { (name_of : List ℕ → List ℕ) (opening : Opening) (lanes : ℕ) (turns : List Turn) (s : State) (further : List Turn) (later : State) (lane : ℕ)
        → IsSoundOpening name_of opening → Leads name_of (begun opening lanes) turns s → Leads name_of s further later → NeverFalls s later lane }
{}

/// In every state of a run each value that something needs is spelled by the bytes under its name, and that record is whole; so no
/// record that is needed is ever missing. The same holds of each record that was put under a lease.
pub fn needed_records_stand()
    ensures values { (name_of : List ℕ → List ℕ) (opening : Opening) (lanes : ℕ) (turns : List Turn) (s : State)
        → IsSoundOpening name_of opening → Leads name_of (begun opening lanes) turns s → NeededStand name_of s }
    ensures none_missing { (name_of : List ℕ → List ℕ) (opening : Opening) (lanes : ℕ) (turns : List Turn) (s : State) (name : List ℕ)
        → IsSoundOpening name_of opening → Leads name_of (begun opening lanes) turns s → is_needed s name ≡ true → StandsWhole name_of s.records name }
    // A record stands whole where a file stands under its name that is whole.
    ensures whole { (name_of : List ℕ → List ℕ) (records : Files) (name : List ℕ)
        → StandsWhole name_of records name
        ↔ ((bytes : List ℕ) × (lookup (is_at (text_cmp name)) records ≡ Some bytes) × IsWhole name_of (record { name = name; bytes = bytes })) }
    ensures visible_values { (name_of : List ℕ → List ℕ) (opening : Opening) (lanes : ℕ) (turns : List Turn) (s : State) (name : List ℕ) (stored : StoredUnit)
        → IsSoundOpening name_of opening → Leads name_of (begun opening lanes) turns s → unit_named name (visible s) ≡ Some stored
        → ValuesStand name_of s.records stored.unit.records stored.values }
    ensures held_values { (name_of : List ℕ → List ℕ) (opening : Opening) (lanes : ℕ) (turns : List Turn) (s : State) (lane mark : ℕ) (name : List ℕ) (stored : StoredUnit)
        → IsSoundOpening name_of opening → Leads name_of (begun opening lanes) turns s → held_by s lane ≡ Some mark
        → unit_named name (seen_at s mark) ≡ Some stored → ValuesStand name_of s.records stored.unit.records stored.values }
    ensures put_whole { (name_of : List ℕ → List ℕ) (opening : Opening) (lanes : ℕ) (turns : List Turn) (s : State) (lane : ℕ) (lease : state.Lease) (name : List ℕ)
        → IsSoundOpening name_of opening → Leads name_of (begun opening lanes) turns s → lease_of s lane ≡ Some lease → has_name name lease.put ≡ true
        → StandsWhole name_of s.records name }
    ensures put { (name_of : List ℕ → List ℕ) (opening : Opening) (lanes : ℕ) (turns : List Turn) (s : State) (lane : ℕ)
        → IsSoundOpening name_of opening → Leads name_of (begun opening lanes) turns s → IfSome (lease_of s lane) (IsLeaseSound name_of s.records) }
{}

/// A collect that doesn't fail takes the least loose record away, and answers Nothing exactly where none is loose. Each of many in a
/// row takes the next one, until nothing is loose.
pub fn collects_take_loose_records()
    ensures removed { (name_of : List ℕ → List ℕ) (s : State) (lane : ℕ) (stepped : Stepped) (name : List ℕ)
        → IsSound name_of s → step name_of s lane Collect Done ≡ Some stepped → stepped.outcome ≡ Removed name → RemovesLeast s name stepped.state }
    ensures nothing { (name_of : List ℕ → List ℕ) (s : State) (lane : ℕ) (stepped : Stepped) (name : List ℕ)
        → step name_of s lane Collect Done ≡ Some stepped → stepped.outcome ≡ Nothing → (stepped.state ≡ settled s) × (IsLoose s name → ⊥) }
    ensures removes { (name_of : List ℕ → List ℕ) (s : State) (lane : ℕ) (name : List ℕ)
        → IsLoose s name → (least : List ℕ) × (after : State) × (step name_of s lane Collect Done ≡ Some (record { outcome = Removed least; state = after })) }
    ensures one_by_one { (s : State) (n : ℕ) → loose (after_collects n s) ≡ drop n (loose s) }
    ensures all { (s : State) → loose (after_collects (length (loose s)) s) ≡ [] }
{}

/// A call that is refused, or fails, leaves all as before but what it names: a lease that is dropped, an import that is closed. A
/// units change that isn't synced is made like one that is, and pends.
pub fn refusals_change_nothing_else()
    ensures refused { (name_of : List ℕ → List ℕ) (s : State) (lane : ℕ) (given : Given) (flag : Outcome) (stepped : Stepped)
        → step name_of s lane given flag ≡ Some stepped → IsRefusal stepped.outcome → stepped.state ≡ after_refusal s lane given }
    ensures failed { (name_of : List ℕ → List ℕ) (s : State) (lane : ℕ) (given : Given) (stepped : Stepped)
        → step name_of s lane given Fault ≡ Some stepped → stepped.state ≡ after_refusal s lane given }
    ensures lost { (name_of : List ℕ → List ℕ) (s : State) (lane : ℕ) (given : Given) (name : List ℕ) (stepped : Stepped)
        → step name_of s lane given (Lost name) ≡ Some stepped → stepped.state ≡ after_refusal s lane given }
    ensures damaged { (name_of : List ℕ → List ℕ) (s : State) (lane : ℕ) (given : Given) (name : List ℕ) (stepped : Stepped)
        → step name_of s lane given (Damaged name) ≡ Some stepped → stepped.state ≡ after_refusal s lane given }
    ensures unsynced { (name_of : List ℕ → List ℕ) (s : State) (lane : ℕ) (given : Given) (stepped : Stepped)
        → step name_of s lane given Unsynced ≡ Some stepped
        → (synced : Stepped) × (step name_of s lane given Done ≡ Some synced) × IsPendingChange s synced stepped.state }
{}

/// A call has a step with a flag of its own alone, and with a flag the outcome is the flag. Where the call isn't refused without a flag, it
/// has a step with each of its flags; a publish and a removal that are refused have none.
pub fn a_flag_is_the_outcome()
    ensures only { (name_of : List ℕ → List ℕ) (s : State) (lane : ℕ) (given : Given) (flag : Outcome) (stepped : Stepped)
        → step name_of s lane given flag ≡ Some stepped → IsFlagOf given flag }
    ensures outcome { (name_of : List ℕ → List ℕ) (s : State) (lane : ℕ) (given : Given) (flag : Outcome) (stepped : Stepped)
        → step name_of s lane given flag ≡ Some stepped → flag ≢ Done → stepped.outcome ≡ flag }
    ensures each { (name_of : List ℕ → List ℕ) (s : State) (lane : ℕ) (given : Given) (flag : Outcome) (plain : Stepped)
        → step name_of s lane given Done ≡ Some plain → (IsRefusal plain.outcome → ⊥) → IsFlagOf given flag → IsSome (step name_of s lane given flag) }
    ensures none { (name_of : List ℕ → List ℕ) (s : State) (lane : ℕ) (given : Given) (flag : Outcome) (plain : Stepped)
        → step name_of s lane given Done ≡ Some plain → IsRefusal plain.outcome → ChangesUnits given → flag ≢ Done → step name_of s lane given flag ≡ None }
{}

/// A lane's call leaves every other lane's lease and held mark.
pub fn other_lanes_stay()
    ensures keeps { (name_of : List ℕ → List ℕ) (s : State) (lane : ℕ) (given : Given) (flag : Outcome) (stepped : Stepped) (other : ℕ)
        → step name_of s lane given flag ≡ Some stepped → other ≢ lane → KeepsLane s stepped.state other }
    ensures lease { (name_of : List ℕ → List ℕ) (s : State) (lane : ℕ) (given : Given) (flag : Outcome) (stepped : Stepped) (other : ℕ)
        → step name_of s lane given flag ≡ Some stepped → other ≢ lane → lease_of stepped.state other ≡ lease_of s other }
    ensures hold { (name_of : List ℕ → List ℕ) (s : State) (lane : ℕ) (given : Given) (flag : Outcome) (stepped : Stepped) (other : ℕ)
        → step name_of s lane given flag ≡ Some stepped → other ≢ lane → held_by stepped.state other ≡ held_by s other }
{}

/// Opening takes a unit file for sound exactly where its bytes spell a unit of its name whose records stand whole, with their values.
/// What it finds of two areas that rise by name is where a run may begin, and its units rise by name.
pub fn opening_finds_sound_units()
    ensures sound { (name_of : List ℕ → List ℕ) (records : Files) (name bytes : List ℕ) (found : StoredUnit)
        → AreFiles records → IsBytes bytes → judged name_of records name bytes ≡ Ok found → IsSoundUnit name_of records name bytes found }
    ensures found { (name_of : List ℕ → List ℕ) (records : Files) (name bytes : List ℕ) (found : StoredUnit)
        → IsSoundUnit name_of records name bytes found → judged name_of records name bytes ≡ Ok found }
    // Else it says the first cause.
    ensures refused { (name_of : List ℕ → List ℕ) (records : Files) (name bytes : List ℕ) (fault : UnitFault)
        → AreFiles records → IsBytes bytes → judged name_of records name bytes ≡ Err fault → IsFirstCause name_of records name bytes fault }
    ensures begins { (name_of : List ℕ → List ℕ) (units records : Files) → AreFiles units → AreFiles records
        → IsSoundOpening name_of (opening name_of units records) }
    ensures all { (name_of : List ℕ → List ℕ) (units records : Files) → ListsAll name_of units records }
    ensures rises { (name_of : List ℕ → List ℕ) (units records : Files) → AreFiles units → NamesRise (opening name_of units records).units }
{}

/// The units changes that are made are all of them; those that are acknowledged are the ones before the last sync. Each publication is
/// one.
pub fn acknowledged_changes_are_synced()
    ensures made { (opened : ℕ) (moves : List UnitsMove) → (changes_after opened moves).made ≡ opened + count_by is_change moves }
    ensures unsynced { (opened : ℕ) (moves : List UnitsMove) → AllByRecursion (λ move. move ≡ Changed) moves
        → (changes_after opened moves).acknowledged ≡ opened }
    ensures synced { (opened : ℕ) (earlier later : List UnitsMove)
        → AllByRecursion (λ move. move ≡ Changed) later
        → (changes_after opened (earlier ++ Synced ∷ later)).acknowledged ≡ opened + count_by is_change earlier }
    ensures made_of { (publications : List Publication) (opened : ℕ) (moves : List UnitsMove)
        → opened + count_by is_change moves ≤ length publications → made publications opened moves ≡ opened + count_by is_change moves }
    ensures none_acknowledged { (publications : List Publication) (opened : ℕ) (moves : List UnitsMove)
        → AllByRecursion (λ move. move ≡ Changed) moves → opened ≤ length publications → acknowledged publications opened moves ≡ opened }
    ensures acknowledged_of { (publications : List Publication) (opened : ℕ) (earlier later : List UnitsMove)
        → AllByRecursion (λ move. move ≡ Changed) later → opened + count_by is_change earlier ≤ length publications
        → acknowledged publications opened (earlier ++ Synced ∷ later) ≡ opened + count_by is_change earlier }
    ensures marks { (changes : ℕ) (publications : List Publication) → changes ≤ length publications → mark_with changes publications ≡ changes }
{}

/// A removal answers NoUnit exactly where no visible unit has the output path. In every state of a run from what opening finds, each
/// unit that is seen at a mark stands under the name of its output path; so where no other path has that name, none stands under it
/// then. Else the removal takes the unit of the path away, and no other one.
pub fn removals_find_the_unit()
    ensures no_unit { (name_of : List ℕ → List ℕ) (s : State) (lane : ℕ) (output : List ℕ) (stepped : Stepped)
        → step name_of s lane (Remove output) Done ≡ Some stepped → (stepped.outcome ≡ NoUnit) ↔ IsWithout output (visible s) }
    ensures named { (name_of : List ℕ → List ℕ) (units records : Files) (lanes : ℕ) (turns : List Turn) (s : State) (mark : ℕ) → AreFiles units
        → AreFiles records
        → Leads name_of (begun (opening name_of units records) lanes) turns s → AreNamed name_of (seen_at s mark) }
    ensures free { (name_of : List ℕ → List ℕ) (units records : Files) (lanes : ℕ) (turns : List Turn) (s : State) (output : List ℕ) → AreFiles units
        → AreFiles records
        → Leads name_of (begun (opening name_of units records) lanes) turns s → IsOnlyPath name_of output → IsWithout output (visible s)
        → unit_named (name_of output) (visible s) ≡ None }
    ensures gone { (name_of : List ℕ → List ℕ) (units records : Files) (lanes : ℕ) (turns : List Turn) (s : State) (lane : ℕ) (output : List ℕ) (stepped : Stepped) → AreFiles units → AreFiles records
        → Leads name_of (begun (opening name_of units records) lanes) turns s → step name_of s lane (Remove output) Done ≡ Some stepped
        → stepped.outcome ≢ NoUnit
        → IsWithout output (visible stepped.state) }
    ensures others { (name_of : List ℕ → List ℕ) (units records : Files) (lanes : ℕ) (turns : List Turn) (s : State) (lane : ℕ) (output : List ℕ) (stepped : Stepped) → AreFiles units → AreFiles records
        → Leads name_of (begun (opening name_of units records) lanes) turns s → step name_of s lane (Remove output) Done ≡ Some stepped
        → stepped.outcome ≢ NoUnit
        → KeepsOtherNames (name_of output) (visible s) (visible stepped.state) }
{}

/// What a call may change, whatever its flag: all else stays. A load that doesn't fail changes nothing.
pub fn calls_change_what_they_name()
    ensures lease { (name_of : List ℕ → List ℕ) (s : State) (lane : ℕ) (names : List (List ℕ)) (flag : Outcome) (stepped : Stepped)
        → step name_of s lane (Lease names) flag ≡ Some stepped → stepped.state ≡ record s { leases = stepped.state.leases } }
    ensures put { (name_of : List ℕ → List ℕ) (s : State) (lane : ℕ) (body : Body) (flag : Outcome) (stepped : Stepped)
        → step name_of s lane (Put body) flag ≡ Some stepped
        → stepped.state ≡ record s { records = stepped.state.records; leases = stepped.state.leases } }
    ensures stage { (name_of : List ℕ → List ℕ) (s : State) (lane : ℕ) (unit : UnitValue) (flag : Outcome) (stepped : Stepped)
        → step name_of s lane (Stage unit) flag ≡ Some stepped → stepped.state ≡ record s { leases = stepped.state.leases } }
    ensures publish { (name_of : List ℕ → List ℕ) (s : State) (lane : ℕ) (flag : Outcome) (stepped : Stepped)
        → step name_of s lane Publish flag ≡ Some stepped
        → stepped.state ≡ record s { publications = stepped.state.publications; pending = stepped.state.pending; leases = stepped.state.leases } }
    ensures remove { (name_of : List ℕ → List ℕ) (s : State) (lane : ℕ) (output : List ℕ) (flag : Outcome) (stepped : Stepped)
        → step name_of s lane (Remove output) flag ≡ Some stepped
        → stepped.state ≡ record s { publications = stepped.state.publications; pending = stepped.state.pending } }
    ensures scan { (name_of : List ℕ → List ℕ) (s : State) (lane : ℕ) (flag : Outcome) (stepped : Stepped)
        → step name_of s lane Scan flag ≡ Some stepped → stepped.state ≡ record s { import = stepped.state.import } }
    ensures load { (name_of : List ℕ → List ℕ) (s : State) (lane : ℕ) (name : List ℕ) (purpose : Purpose) (stepped : Stepped)
        → step name_of s lane (Load name purpose) Done ≡ Some stepped → stepped.state ≡ s }
    ensures install { (name_of : List ℕ → List ℕ) (s : State) (lane : ℕ) (flag : Outcome) (stepped : Stepped)
        → step name_of s lane Install flag ≡ Some stepped
        → stepped.state ≡ record s { import = stepped.state.import; current = stepped.state.current; held = stepped.state.held } }
    ensures adopt { (name_of : List ℕ → List ℕ) (s : State) (lane : ℕ) (flag : Outcome) (stepped : Stepped)
        → step name_of s lane Adopt flag ≡ Some stepped → stepped.state ≡ record s { held = stepped.state.held } }
    ensures release { (name_of : List ℕ → List ℕ) (s : State) (lane : ℕ) (flag : Outcome) (stepped : Stepped)
        → step name_of s lane Release flag ≡ Some stepped → stepped.state ≡ record s { held = stepped.state.held } }
    ensures collect { (name_of : List ℕ → List ℕ) (s : State) (lane : ℕ) (flag : Outcome) (stepped : Stepped)
        → step name_of s lane Collect flag ≡ Some stepped
        → stepped.state ≡ record s { records = stepped.state.records; pending = stepped.state.pending } }
    // Behind a put that isn't refused its bytes stand under its name; no put touches the file of another name.
    ensures put_stands { (name_of : List ℕ → List ℕ) (s : State) (lane : ℕ) (body : Body) (stepped : Stepped)
        → step name_of s lane (Put body) Done ≡ Some stepped → stepped.outcome ≢ Clash
        → lookup (is_at (text_cmp body.name)) stepped.state.records ≡ Some body.bytes }
    ensures put_others { (name_of : List ℕ → List ℕ) (s : State) (lane : ℕ) (body : Body) (flag : Outcome) (stepped : Stepped) (other : List ℕ)
        → step name_of s lane (Put body) flag ≡ Some stepped → body.name ≢ other
        → lookup (is_at (text_cmp other)) stepped.state.records ≡ lookup (is_at (text_cmp other)) s.records }
    // A run takes no publication back.
    ensures publications { (name_of : List ℕ → List ℕ) (s : State) (turns : List Turn) (later : State)
        → Leads name_of s turns later → (more : List Publication) × (later.publications ≡ s.publications ++ more) }
{}

/// What opening finds is what it judges of each file: the sound units with their values, and each refused name with its cause. Where the
/// files rise by name, both do.
pub fn opening_lists_what_is_judged()
    ensures units { (name_of : List ℕ → List ℕ) (units records : Files) (found : List ℕ × StoredUnit)
        → Lists (opening name_of units records).units found
        ↔ ((bytes : List ℕ) × Lists units (found.0, bytes) × (judged name_of records found.0 bytes ≡ Ok found.1)) }
    ensures refused { (name_of : List ℕ → List ℕ) (units records : Files) (refused : Refused)
        → Lists (opening name_of units records).refused refused
        ↔ ((bytes : List ℕ) × Lists units (refused.name, bytes) × (judged name_of records refused.name bytes ≡ Err refused.cause)) }
    ensures units_rise { (name_of : List ℕ → List ℕ) (units records : Files) → IsStrictlySortedBy text_cmp (keys_of units)
        → NamesRise (opening name_of units records).units }
    ensures refused_rise { (name_of : List ℕ → List ℕ) (units records : Files) → IsStrictlySortedBy text_cmp (keys_of units)
        → IsStrictlySortedBy text_cmp (map (λ refused. refused.name) (opening name_of units records).refused) }
{}

/// A publish that is made adds one publication: the staged unit under the name of its output path, with the values that the files of its
/// records spell. Its lane has no lease then.
pub fn a_publish_adds_what_is_staged()
    ensures added { (name_of : List ℕ → List ℕ) (s : State) (lane : ℕ) (lease : state.Lease) (unit : UnitValue) (stepped : Stepped)
        → IsSound name_of s → lease_of s lane ≡ Some lease → lease.staged ≡ Some unit
        → step name_of s lane Publish Done ≡ Some stepped → stepped.outcome ≢ Clash
        → (values : List RecordValue) × (stepped.state.publications ≡ s.publications ++ model.Put (name_of unit.output) (record { unit = unit; values = values }) ∷ [])
        × ValuesStand name_of s.records unit.records values }
    ensures drops { (name_of : List ℕ → List ℕ) (s : State) (lane : ℕ) (flag : Outcome) (stepped : Stepped)
        → step name_of s lane Publish flag ≡ Some stepped → lease_of stepped.state lane ≡ None }
{}

/// A put and a stage may always fail, a put also where it would be refused.
pub fn puts_and_stages_may_fail()
    ensures put { (name_of : List ℕ → List ℕ) (s : State) (lane : ℕ) (body : Body)
        → step name_of s lane (Put body) Fault ≡ Some (record { outcome = Fault; state = after_refusal s lane (Put body) }) }
    ensures stage { (name_of : List ℕ → List ℕ) (s : State) (lane : ℕ) (unit : UnitValue)
        → step name_of s lane (Stage unit) Fault ≡ Some (record { outcome = Fault; state = after_refusal s lane (Stage unit) }) }
{}

/// Each fault of a unit's bytes is a cause of its own; want of memory is none, and reading never gives it.
pub fn each_fault_is_its_own_cause()
    ensures magic { cause errors.BadMagic ≡ causes.Magic }
    ensures short { cause errors.Short ≡ causes.Short }
    ensures field { (at : ℕ) → cause (errors.BadField at) ≡ causes.Field at }
    ensures order { (at : ℕ) → cause (errors.OutOfOrder at) ≡ causes.Order at }
    ensures trailing { (at : ℕ) → cause (errors.Trailing at) ≡ causes.Trailing at }
    ensures digest { cause errors.BadDigest ≡ causes.Digest }
{}

/// What is said of units and their output paths holds of a run from any units that stand under the names of their output paths, as those
/// that opening finds do, whatever the files hold.
pub fn units_keep_their_names()
    ensures found { (name_of : List ℕ → List ℕ) (units records : Files) → AreNamed name_of (opening name_of units records).units }
    ensures named { (name_of : List ℕ → List ℕ) (found : Opening) (lanes : ℕ) (turns : List Turn) (s : State) (mark : ℕ)
        → AreNamed name_of found.units → Leads name_of (begun found lanes) turns s → AreNamed name_of (seen_at s mark) }
    ensures free { (name_of : List ℕ → List ℕ) (found : Opening) (lanes : ℕ) (turns : List Turn) (s : State) (output : List ℕ)
        → AreNamed name_of found.units → Leads name_of (begun found lanes) turns s → IsOnlyPath name_of output → IsWithout output (visible s)
        → unit_named (name_of output) (visible s) ≡ None }
    ensures gone { (name_of : List ℕ → List ℕ) (found : Opening) (lanes : ℕ) (turns : List Turn) (s : State) (lane : ℕ) (output : List ℕ) (stepped : Stepped)
        → AreNamed name_of found.units → Leads name_of (begun found lanes) turns s → step name_of s lane (Remove output) Done ≡ Some stepped
        → stepped.outcome ≢ NoUnit → IsWithout output (visible stepped.state) }
    ensures others { (name_of : List ℕ → List ℕ) (found : Opening) (lanes : ℕ) (turns : List Turn) (s : State) (lane : ℕ) (output : List ℕ) (stepped : Stepped)
        → AreNamed name_of found.units → Leads name_of (begun found lanes) turns s → step name_of s lane (Remove output) Done ≡ Some stepped
        → stepped.outcome ≢ NoUnit → KeepsOtherNames (name_of output) (visible s) (visible stepped.state) }
{}
