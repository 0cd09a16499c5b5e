//! Laws of the ledger, each the contract of a function that does nothing.
ghost use Rattle.std.specs.Prelude.{◌≡◌, ◌⊎◌, ℕ, List, true, false, not, length, filter, Option, Some, None, IsSome, Contains, slice_get};
ghost use Rattle.std.specs.List.{AllByRecursion};
ghost use Rattle.std.specs.Map.{keys_of, remove_entry};
ghost use Rattle.std.specs.BTreeMap.{is_at};
ghost use Rattle.ix_types.specs.Row.{text_cmp};
ghost use Rattle.ix_guard.specs.Protection.{IsFirstLoose, leases_name, has_put};
ghost use Rattle.ix_guard.specs.Guarding.{Lease, lease_of as guarded_lease};
ghost use Rattle.ix_guard.specs.Listing.{need_list_of};
ghost use Rattle.ix_record.specs.Whole.{IsWhole};
ghost use Rattle.ix_record.specs.declared.body.Body.{Body};
ghost use Rattle.ix_unit.specs.declared.batch.UnitPut.{UnitPut};
ghost use Rattle.ix_unit.specs.declared.value.UnitValue.{UnitValue};
ghost use Rattle.ix_unit.specs.Value.{IsValidUnit};
ghost use Rattle.ix_model.specs.Units.{Units, NamesRise, needs as record_names};
ghost use Rattle.ix_model.specs.declared.publication.Publication.{Publication};
ghost use Rattle.ix_model.specs.declared.publication.Publication.TheVariants as model;
ghost use Rattle.ix_machine.specs.declared.event.Outcome.{Outcome};
ghost use Rattle.ix_machine.specs.declared.event.Outcome.TheVariants as outcome;
ghost use Rattle.ix_machine.specs.declared.event.Purpose.{Purpose};
ghost use Rattle.ix_machine.specs.Given as given;
ghost use Rattle.ix_machine.specs.Needs.{has_name, option_any, loose};
ghost use Rattle.ix_machine.specs.Needs as needs;
ghost use Rattle.ix_machine.specs.Laws.{AreNamed};
ghost use Rattle.ix_machine.specs.Run.{Opening, IsSoundOpening, MayCall, begun};
ghost use Rattle.ix_machine.specs.Sound.{MarksInOrder};
ghost use Rattle.ix_machine.specs.State.{State, Import, lease_of};
ghost use Rattle.ix_machine.specs.State as state;
ghost use Rattle.ix_machine.specs.Step.{ended, step, stored_unit};
ghost use Rattle.ix_machine.specs.Step as calls;
ghost use Rattle.ix_ledger.specs.Effects.{change_for, publish_change, remove_change, IsFailure, IsFailureOf};
ghost use Rattle.ix_ledger.specs.Effects as effect;
ghost use Rattle.ix_ledger.specs.Kept.{Kept, staged_in};
ghost use Rattle.ix_ledger.specs.OfState.{named_of, kept_of, Keeps, Makes};
ghost use Rattle.ix_ledger.specs.Fresh.{names_put, fresh_of};
ghost use Rattle.ix_ledger.specs.Registered.{has_opened};

use ix_guard::laws;

/// What is kept of the state after a step is what the step's call of the ledger leaves of what was kept before.
pub fn the_ledger_follows_the_machine()
    ensures begins { (opening : Opening) (lanes : ℕ) → NamesRise opening.units
        → kept_of (begun opening lanes) ≡ effect.kept_at_first (named_of opening.units) (length opening.units) lanes }
    ensures leases { (s : State) (lane : ℕ) (names : List (List ℕ)) → kept_of (calls.lease s lane names).plain.state ≡ effect.leased (kept_of s) lane names }
    ensures notes { (s : State) (lane : ℕ) (name : List ℕ) → option_any (λ lease. has_name name lease.names) (lease_of s lane) ≡ true
        → kept_of (calls.noted s lane name) ≡ effect.noted (kept_of s) lane name }
    ensures drops { (s : State) (lane : ℕ) → kept_of (calls.dropped s lane) ≡ effect.dropped (kept_of s) lane }
    ensures stages { (s : State) (lane : ℕ) (unit : UnitValue) (lease : state.Lease) → lease_of s lane ≡ Some lease
        → kept_of (calls.stage s lane unit).plain.state ≡ effect.staging (kept_of s) lane unit }
    ensures changes { (s : State) (publication : Publication) → MarksInOrder s
        → kept_of (calls.publishing s publication None) ≡ effect.changed (kept_of s) (change_for (kept_of s) publication) false }
    ensures pends { (s : State) (publication : Publication) → MarksInOrder s
        → kept_of (calls.publishing s publication (Some (length s.publications))) ≡ effect.changed (kept_of s) (change_for (kept_of s) publication) true }
    ensures settles { (s : State) → kept_of (needs.settled s) ≡ effect.settled (kept_of s) }
    ensures scans { (s : State) (lane : ℕ) → kept_of (calls.scan s lane).plain.state ≡ effect.opened (kept_of s) lane }
    ensures closes { (s : State) → kept_of (calls.unopened s) ≡ effect.closed (kept_of s) }
    ensures installs { (s : State) (lane : ℕ) (open_import : Import) → s.import ≡ Some open_import
        → kept_of (calls.install_mark s lane open_import.mark).plain.state ≡ effect.installed (kept_of s) lane }
    ensures adopts { (s : State) (lane : ℕ) → kept_of (calls.adopt s lane).plain.state ≡ effect.adopted (kept_of s) lane }
    ensures releases { (s : State) (lane : ℕ) → kept_of (calls.release s lane).plain.state ≡ effect.released (kept_of s) lane }
{
    laws::the_guard_follows_the_machine();
    ix_machine::laws::a_run_begins_with_what_is_found();
}

/// Where the ledger stands for a sound state of the machine, each of its calls that ends a step is the machine's step, and it stands for the
/// state after. A call may be made where the machine's may.
pub fn each_step_is_the_machines()
    ensures opens { (name_of : List ℕ → List ℕ) (opening : Opening) (lanes : ℕ) → IsSoundOpening name_of opening → NamesRise opening.units → AreNamed name_of opening.units
        → Keeps name_of (effect.kept_at_first (named_of opening.units) (length opening.units) lanes) (begun opening lanes) }
    ensures leases { (name_of : List ℕ → List ℕ) (s : State) (lane : ℕ) (kept : Kept) (names : List (List ℕ)) → Keeps name_of kept s → lease_of s lane ≡ None
        → Makes name_of s lane (given.Lease names) outcome.Done outcome.Done (effect.leased kept lane names) (calls.lease s lane names).plain.state }
    // A put that doesn't fail ends as the bytes say that stand under its name.
    ensures put_written { (name_of : List ℕ → List ℕ) (s next : State) (lane : ℕ) (kept : Kept) (body : Body) → Keeps name_of kept s → MayCall name_of s lane (given.Put body)
        → step name_of s lane (given.Put body) outcome.Done ≡ Some (ended outcome.Written next)
        → Makes name_of s lane (given.Put body) outcome.Done outcome.Written (effect.noted kept lane body.name) next }
    ensures put_shared { (name_of : List ℕ → List ℕ) (s next : State) (lane : ℕ) (kept : Kept) (body : Body) → Keeps name_of kept s → MayCall name_of s lane (given.Put body)
        → step name_of s lane (given.Put body) outcome.Done ≡ Some (ended outcome.Shared next)
        → Makes name_of s lane (given.Put body) outcome.Done outcome.Shared (effect.noted kept lane body.name) next }
    ensures put_clashed { (name_of : List ℕ → List ℕ) (s next : State) (lane : ℕ) (kept : Kept) (body : Body) → Keeps name_of kept s → MayCall name_of s lane (given.Put body)
        → step name_of s lane (given.Put body) outcome.Done ≡ Some (ended outcome.Clash next)
        → Makes name_of s lane (given.Put body) outcome.Done outcome.Clash (effect.dropped kept lane) next }
    ensures put_failed { (name_of : List ℕ → List ℕ) (s : State) (lane : ℕ) (kept : Kept) (body : Body) → Keeps name_of kept s → MayCall name_of s lane (given.Put body)
        → Makes name_of s lane (given.Put body) outcome.Fault outcome.Fault (effect.dropped kept lane) (calls.dropped s lane) }
    ensures stage_made { (name_of : List ℕ → List ℕ) (s : State) (lane : ℕ) (kept : Kept) (unit : UnitValue) → Keeps name_of kept s → MayCall name_of s lane (given.Stage unit)
        → Makes name_of s lane (given.Stage unit) outcome.Done outcome.Done (effect.staging kept lane unit) (calls.stage s lane unit).plain.state }
    ensures stage_failed { (name_of : List ℕ → List ℕ) (s : State) (lane : ℕ) (kept : Kept) (unit : UnitValue) → Keeps name_of kept s → MayCall name_of s lane (given.Stage unit)
        → Makes name_of s lane (given.Stage unit) outcome.Fault outcome.Fault (effect.dropped kept lane) (calls.dropped s lane) }
    // A publish, where the lane has staged a unit, whose name is that of its output path.
    ensures publish_made { (name_of : List ℕ → List ℕ) (s : State) (lane : ℕ) (kept : Kept) (unit : UnitValue) (change : effect.Changed) → Keeps name_of kept s
        → staged_in kept lane ≡ Some unit → publish_change kept lane (name_of unit.output) ≡ Some change
        → Makes name_of s lane given.Publish outcome.Done outcome.Synced (effect.changed (effect.dropped kept lane) change false)
        (calls.publishing (calls.dropped s lane) (model.Put (name_of unit.output) (stored_unit s unit)) None) }
    ensures publish_unsynced { (name_of : List ℕ → List ℕ) (s : State) (lane : ℕ) (kept : Kept) (unit : UnitValue) (change : effect.Changed) → Keeps name_of kept s
        → staged_in kept lane ≡ Some unit → publish_change kept lane (name_of unit.output) ≡ Some change
        → Makes name_of s lane given.Publish outcome.Unsynced outcome.Unsynced (effect.changed (effect.dropped kept lane) change true)
        (calls.publishing (calls.dropped s lane) (model.Put (name_of unit.output) (stored_unit s unit)) (Some (length s.publications))) }
    ensures publish_failed { (name_of : List ℕ → List ℕ) (s : State) (lane : ℕ) (kept : Kept) (unit : UnitValue) (change : effect.Changed) → Keeps name_of kept s
        → staged_in kept lane ≡ Some unit → publish_change kept lane (name_of unit.output) ≡ Some change
        → Makes name_of s lane given.Publish outcome.Fault outcome.Fault (effect.dropped kept lane) (calls.dropped s lane) }
    ensures publish_clashed { (name_of : List ℕ → List ℕ) (s : State) (lane : ℕ) (kept : Kept) (unit : UnitValue) → Keeps name_of kept s
        → staged_in kept lane ≡ Some unit → publish_change kept lane (name_of unit.output) ≡ None
        → Makes name_of s lane given.Publish outcome.Done outcome.Clash (effect.dropped kept lane) (calls.dropped s lane) }
    // A removal of an output path, looked up by its name.
    ensures remove_made { (name_of : List ℕ → List ℕ) (s : State) (lane : ℕ) (kept : Kept) (output : List ℕ) (change : effect.Changed) → Keeps name_of kept s
        → remove_change kept (name_of output) output ≡ Some change
        → Makes name_of s lane (given.Remove output) outcome.Done outcome.Synced (effect.changed kept change false) (calls.publishing s (model.Gone (name_of output)) None) }
    ensures remove_unsynced { (name_of : List ℕ → List ℕ) (s : State) (lane : ℕ) (kept : Kept) (output : List ℕ) (change : effect.Changed) → Keeps name_of kept s
        → remove_change kept (name_of output) output ≡ Some change
        → Makes name_of s lane (given.Remove output) outcome.Unsynced outcome.Unsynced (effect.changed kept change true)
        (calls.publishing s (model.Gone (name_of output)) (Some (length s.publications))) }
    ensures remove_failed { (name_of : List ℕ → List ℕ) (s : State) (lane : ℕ) (kept : Kept) (output : List ℕ) (change : effect.Changed) → Keeps name_of kept s
        → remove_change kept (name_of output) output ≡ Some change
        → Makes name_of s lane (given.Remove output) outcome.Fault outcome.Fault kept s }
    ensures remove_refused { (name_of : List ℕ → List ℕ) (s : State) (lane : ℕ) (kept : Kept) (output : List ℕ) → Keeps name_of kept s
        → remove_change kept (name_of output) output ≡ None → Makes name_of s lane (given.Remove output) outcome.Done outcome.NoUnit kept s }
    ensures scan_made { (name_of : List ℕ → List ℕ) (s : State) (lane : ℕ) (kept : Kept) → Keeps name_of kept s
        → Makes name_of s lane given.Scan outcome.Done (outcome.At kept.published) (effect.opened kept lane) (calls.scan s lane).plain.state }
    ensures scan_failed { (name_of : List ℕ → List ℕ) (s : State) (lane : ℕ) (kept : Kept) (flag : Outcome) → Keeps name_of kept s → IsFailure flag
        → Makes name_of s lane given.Scan flag flag (effect.closed kept) (calls.unopened s) }
    ensures load_made { (name_of : List ℕ → List ℕ) (s : State) (lane : ℕ) (kept : Kept) (name : List ℕ) (purpose : Purpose) → Keeps name_of kept s
        → MayCall name_of s lane (given.Load name purpose) → Makes name_of s lane (given.Load name purpose) outcome.Done outcome.Done kept s }
    ensures load_failed { (name_of : List ℕ → List ℕ) (s : State) (lane : ℕ) (kept : Kept) (name : List ℕ) (purpose : Purpose) (flag : Outcome) → Keeps name_of kept s
        → MayCall name_of s lane (given.Load name purpose) → IsFailureOf name flag
        → Makes name_of s lane (given.Load name purpose) flag flag (effect.load_failed kept purpose) (calls.load_failed s purpose) }
    ensures installs { (name_of : List ℕ → List ℕ) (s : State) (lane : ℕ) (kept : Kept) (open_import : Import) → Keeps name_of kept s
        → kept.import ≡ Some open_import → open_import.lane ≡ lane
        → Makes name_of s lane given.Install outcome.Done (outcome.At open_import.mark) (effect.installed kept lane) (calls.install_mark s lane open_import.mark).plain.state }
    ensures adopts { (name_of : List ℕ → List ℕ) (s : State) (lane : ℕ) (kept : Kept) → Keeps name_of kept s
        → Makes name_of s lane given.Adopt outcome.Done (outcome.At kept.current) (effect.adopted kept lane) (calls.adopt s lane).plain.state }
    ensures releases { (name_of : List ℕ → List ℕ) (s : State) (lane : ℕ) (kept : Kept) → Keeps name_of kept s
        → Makes name_of s lane given.Release outcome.Done outcome.Done (effect.released kept lane) (calls.release s lane).plain.state }
    // A collect, by the first loose one of the record files.
    ensures first_loose { (name_of : List ℕ → List ℕ) (s : State) (kept : Kept) (first : Option (List ℕ)) → Keeps name_of kept s
        → IsFirstLoose (record kept.guard { unsynced = None }) (keys_of s.records) first → first ≡ slice_get (loose s) 0 }
    ensures collect_nothing { (name_of : List ℕ → List ℕ) (s : State) (lane : ℕ) (kept : Kept) → Keeps name_of kept s → slice_get (loose s) 0 ≡ None
        → Makes name_of s lane given.Collect outcome.Done outcome.Nothing (effect.settled kept) (needs.settled s) }
    ensures collect_removed { (name_of : List ℕ → List ℕ) (s : State) (lane : ℕ) (kept : Kept) (name : List ℕ) → Keeps name_of kept s → slice_get (loose s) 0 ≡ Some name
        → Makes name_of s lane given.Collect outcome.Done (outcome.Removed name) (effect.settled kept)
        (record (needs.settled s) { records = remove_entry (is_at (text_cmp name)) s.records }) }
    ensures collect_failed { (name_of : List ℕ → List ℕ) (s : State) (lane : ℕ) (kept : Kept) → Keeps name_of kept s
        → Makes name_of s lane given.Collect outcome.Fault outcome.Fault kept s }
{
    the_ledger_follows_the_machine();
    laws::the_guard_agrees_with_the_machine();
    ix_machine::laws::every_state_is_sound();
    ix_machine::laws::a_run_begins_with_what_is_found();
    ix_machine::laws::puts_and_stages_may_fail();
    ix_model::laws::the_latest_publication_stands();
}

/// Where the ledger stands for a sound state, what it keeps says which calls of a lane may be made.
pub fn calls_may_be_made()
    ensures lease { (name_of : List ℕ → List ℕ) (s : State) (lane : ℕ) (kept : Kept) → Keeps name_of kept s → guarded_lease kept.guard lane ≡ None
        → lease_of s lane ≡ None }
    ensures put { (name_of : List ℕ → List ℕ) (s : State) (lane : ℕ) (kept : Kept) (body : Body) → Keeps name_of kept s → staged_in kept lane ≡ None
        → option_any (leases_name body.name) (guarded_lease kept.guard lane) ≡ true → IsWhole name_of body → MayCall name_of s lane (given.Put body) }
    ensures stage { (name_of : List ℕ → List ℕ) (s : State) (lane : ℕ) (kept : Kept) (unit : UnitValue) (lease : Lease) → Keeps name_of kept s
        → guarded_lease kept.guard lane ≡ Some lease → staged_in kept lane ≡ None → IsValidUnit unit
        → AllByRecursion (λ dep. has_put dep.name lease ≡ true) unit.records → MayCall name_of s lane (given.Stage unit) }
    ensures publish { (name_of : List ℕ → List ℕ) (s : State) (lane : ℕ) (kept : Kept) → Keeps name_of kept s → IsSome (staged_in kept lane)
        → MayCall name_of s lane given.Publish }
    ensures install { (name_of : List ℕ → List ℕ) (s : State) (lane : ℕ) (kept : Kept) → Keeps name_of kept s → has_opened kept lane ≡ true
        → MayCall name_of s lane given.Install }
{
    laws::the_guard_agrees_with_the_machine();
}

/// Where some units lead to later ones, whose records are all theirs or those of the units that were put, the fresh names are those that
/// the later units need and the earlier ones don't.
pub fn fresh_names_are_those()
    ensures { (current later : Units) (puts : List UnitPut) → ((name : List ℕ) → Contains (names_put puts) name → Contains (record_names later) name)
        → ((name : List ℕ) → Contains (record_names later) name → Contains (record_names current) name ⊎ Contains (names_put puts) name)
        → fresh_of (need_list_of current) puts ≡ filter (λ name. not (has_name name (record_names current))) (record_names later) }
{
    laws::need_lists_are_exact();
    ix_model::laws::answers_are_sorted_sets();
    ix_model::laws::the_sorted_set_is_one();
}
