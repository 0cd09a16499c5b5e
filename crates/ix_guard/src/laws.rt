//! Laws of need lists and of the guard. Each is the contract of a function that does nothing.
ghost use Rattle.std.specs.Prelude.{◌≡◌, ◌≢◌, ◌↔◌, ◌⊎◌, ℕ, List, Option, Some, None, true, false, length, option_map, Contains, slice_get, slice_set};
ghost use Rattle.std.specs.List.Sorted.{IsStrictlySortedBy};
ghost use Rattle.std.specs.Map.{keys_of};
ghost use Rattle.std.specs.declared.cmp.Ordering.TheVariants.{Greater};
ghost use Rattle.ix_types.specs.Row.{text_cmp};
ghost use Rattle.ix_unit.specs.declared.value.UnitValue.{UnitValue};
ghost use Rattle.ix_model.specs.declared.publication.Publication.{Publication};
ghost use Rattle.ix_model.specs.Units.{Units, changed, needs, units_after};
ghost use Rattle.ix_machine.specs.Needs.{is_needed as machine_needs, is_protected as machine_protects, is_guarded as machine_guards};
ghost use Rattle.ix_machine.specs.Needs.{settled, loose, visible, option_any, has_name};
ghost use Rattle.ix_machine.specs.Run.{Opening, begun};
ghost use Rattle.ix_machine.specs.Sound.{IsSound, MarksInOrder};
ghost use Rattle.ix_machine.specs.State.{State, Import, lease_of as leased_by};
ghost use Rattle.ix_machine.specs.Step.{lease, noted, dropped, stage, publishing, scan, unopened, install_mark, adopt, release};
ghost use Rattle.ix_guard.specs.Counts.{Counts, names_of};
ghost use Rattle.ix_guard.specs.Guarding.{Guarding, guarding_nothing, lease_of, lease_of_names, with_put};
ghost use Rattle.ix_guard.specs.Listing.{need_list_of, IsNeedListOf};
ghost use Rattle.ix_guard.specs.OfMachine.{guarding_of};
ghost use Rattle.ix_guard.specs.Protection.{is_needed, is_protected, is_guarded, IsFirstLoose};
ghost use Rattle.ix_guard.specs.Reasons.{IsNeededBy, IsLeasedBySome, IsLeasedByAnother, IsPutBy};

use ix_model::laws;

/// The need list of some units has the names that the units need, rising, and no others. It is the only list that has for each
/// name the number of the units' record dependencies that have it.
pub fn need_lists_are_exact()
    ensures names { (units : Units) → names_of (need_list_of units) ≡ needs units }
    ensures counts { (counts : Counts) (units : Units) → IsNeedListOf counts units ↔ counts ≡ need_list_of units }
{
    laws::answers_are_sorted_sets();
    laws::the_sorted_set_is_one();
}

/// A record is guarded from a lane exactly where a need list has it, another lane's lease has it, or the lane has put it under its
/// own. It is protected from the collector exactly where a need list or some lane's lease has it.
pub fn what_stays_has_a_reason()
    ensures guarded { (guard : Guarding) (lane : ℕ) (name : List ℕ)
        → is_guarded guard lane name ≡ true ↔ (IsNeededBy guard name ⊎ (IsLeasedByAnother guard lane name ⊎ IsPutBy guard lane name)) }
    ensures protected { (guard : Guarding) (name : List ℕ) → is_protected guard name ≡ true ↔ (IsNeededBy guard name ⊎ IsLeasedBySome guard name) }
{}

/// The first loose name of some is one of them that isn't protected, and no lesser one of them is unprotected. There is none exactly
/// where all of them are protected.
pub fn the_first_loose_name_is_the_least()
    ensures some { (guard : Guarding) (names : List (List ℕ)) (name : List ℕ) → IsFirstLoose guard names (Some name)
        ↔ (Contains names name × ((is_protected guard name ≡ false) × ((other : List ℕ) → Contains names other → is_protected guard other ≡ false → text_cmp name other ≢ Greater))) }
    ensures none { (guard : Guarding) (names : List (List ℕ))
        → IsFirstLoose guard names None ↔ ((name : List ℕ) → Contains names name → is_protected guard name ≡ true) }
{}

/// The guard of a state of the machine needs, protects and guards what the machine does, and its first loose name is the machine's.
pub fn the_guard_agrees_with_the_machine()
    ensures needed { (state : State) (name : List ℕ) → is_needed (guarding_of state) name ≡ machine_needs state name }
    ensures protected { (state : State) (name : List ℕ) → is_protected (guarding_of state) name ≡ machine_protects state name }
    ensures guarded { (name_of : List ℕ → List ℕ) (state : State) (lane : ℕ) (name : List ℕ) → IsSound name_of state
        → is_guarded (guarding_of state) lane name ≡ machine_guards state lane name }
    ensures first { (state : State) (first : Option (List ℕ)) → IsStrictlySortedBy text_cmp (keys_of state.records)
        → IsFirstLoose (guarding_of (settled state)) (keys_of state.records) first → first ≡ slice_get (loose state) 0 }
{
    laws::answers_are_sorted_sets();
}

/// What a step of the machine that may be made in a sound state changes of leases, units and marks, calls of the guard change of the guard of the state: a
/// publish is two of them, a load none.
pub fn the_guard_follows_the_machine()
    ensures begins { (opening : Opening) (lanes : ℕ) → guarding_of (begun opening lanes)
        ≡ record (guarding_nothing lanes) { visible = need_list_of (units_after (begun opening lanes).publications) } }
    ensures leases { (state : State) (lane : ℕ) (names : List (List ℕ)) → guarding_of (lease state lane names).plain.state
        ≡ record (guarding_of state) { leases = slice_set (guarding_of state).leases lane (Some (lease_of_names names)) } }
    ensures notes { (state : State) (lane : ℕ) (name : List ℕ) → option_any (λ lease. has_name name lease.names) (leased_by state lane) ≡ true
        → guarding_of (noted state lane name)
        ≡ record (guarding_of state) { leases = slice_set (guarding_of state).leases lane (option_map (with_put name) (lease_of (guarding_of state) lane)) } }
    ensures drops { (state : State) (lane : ℕ) → guarding_of (dropped state lane)
        ≡ record (guarding_of state) { leases = slice_set (guarding_of state).leases lane None } }
    ensures stages { (state : State) (lane : ℕ) (unit : UnitValue) → guarding_of (stage state lane unit).plain.state ≡ guarding_of state }
    ensures changes { (state : State) (publication : Publication) → MarksInOrder state
        → guarding_of (publishing state publication None)
        ≡ record (guarding_of state) { visible = need_list_of (changed (visible state) publication); unsynced = None } }
    ensures pends { (state : State) (publication : Publication) → MarksInOrder state
        → guarding_of (publishing state publication (Some (length state.publications)))
        ≡ record (guarding_of state) { visible = need_list_of (changed (visible state) publication); unsynced = Some (guarding_of state).visible } }
    ensures settles { (state : State) → guarding_of (settled state) ≡ record (guarding_of state) { unsynced = None } }
    ensures scans { (state : State) (lane : ℕ) → guarding_of (scan state lane).plain.state
        ≡ record (guarding_of state) { import = Some (guarding_of state).visible } }
    ensures closes { (state : State) → guarding_of (unopened state) ≡ record (guarding_of state) { import = None } }
    ensures installs { (state : State) (lane : ℕ) (import : Import) (needs : Counts) → state.import ≡ Some import → (guarding_of state).import ≡ Some needs
        → guarding_of (install_mark state lane import.mark).plain.state
        ≡ record (guarding_of state) { import = None; current = needs; held = slice_set (guarding_of state).held lane (Some needs) } }
    ensures adopts { (state : State) (lane : ℕ) → guarding_of (adopt state lane).plain.state
        ≡ record (guarding_of state) { held = slice_set (guarding_of state).held lane (Some (guarding_of state).current) } }
    ensures releases { (state : State) (lane : ℕ) → guarding_of (release state lane).plain.state
        ≡ record (guarding_of state) { held = slice_set (guarding_of state).held lane None } }
{
    laws::answers_are_sorted_sets();
}
