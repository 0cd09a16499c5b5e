//! The calls of a build before its unit is published.
ghost use Rattle.std.specs.Prelude.{◌≡◌, ◌<◌, length, true, false, None, Some, IfOk, IfSome, IsSome, OnErr};
ghost use Rattle.ix_dir.specs.State.{counted_where};
ghost use Rattle.ix_record.specs.Whole.{IsWhole};
ghost use Rattle.ix_unit.specs.Value.{IsValidUnit};
ghost use Rattle.ix_machine.specs.declared.event.Call.TheVariants as call;
ghost use Rattle.ix_machine.specs.Given as given;
ghost use Rattle.ix_machine.specs.Needs.{option_any};
ghost use Rattle.ix_machine.specs.State.{State, lease_of};
ghost use Rattle.ix_guard.specs.Guarding.{lease_of as guarded_lease};
ghost use Rattle.ix_guard.specs.Protection.{leases_name};
ghost use Rattle.ix_ledger.specs.Kept.{staged_in};
ghost use Rattle.ix_ledger.specs.Registered.{has_opened};
ghost use Rattle.ix_library.specs.Conditions.{has_put_each};
ghost use Rattle.ix_library.specs.Endings.{flag_for, with_event, publish_name};
ghost use Rattle.ix_library.specs.StandsFor.{HasSlots, StandsFor, Takes};
ghost use Rattle.ix_counts.specs.Counting.{RoseWhere, says_loaded, says_scanned};
ghost use Rattle.ix_turns.specs.Ended.{call_failed, ending, is_missed};

use ix_cabinet::StageError;
use ix_dir::Dir;
use ix_library::Library;
use ix_machine::Outcome;
use ix_record::Body;
use ix_shelf::{Put, PutError};
use ix_types::{FileName, Memory, Naming, Seq};
use ix_unit::UnitValue;
use std::alloc::Global;
use std::sync::Arc;

/// Leases the names for the lane.
pub fn lease<D: Dir, N: Naming>(
    alloc: Global,
    library: &mut Library<D, N>,
    lane: u32,
    names: &Seq<FileName>,
) -> Result<Outcome, Memory>
    requires lane { lane < length library.old.ledger.kept.guard.leases }
    requires free { guarded_lease library.old.ledger.kept.guard lane ≡ None }
    ensures step { (s : State) → StandsFor N.name_of s library.old.ledger.kept library.old.shelf library.old.known (D.state library.old.dir) → lease_of s lane ≡ None → IfOk result (λ how. Takes N.name_of s lane (given.Lease names.now) (flag_for how) how (D.state library.old.dir) library.new.ledger.kept library.new.shelf library.new.known (D.state library.new.dir)) }
    ensures event { library.new.ledger.events ≡ with_event library.old.ledger.events lane (call.Lease names.now) (ending result) }
    ensures cause { (D.state library.new.dir).faults ≡ counted_where (call_failed (ending result)) (D.state library.old.dir).faults }
    ensures finds { RoseWhere (says_loaded (call.Lease names.now) (ending result)) (D.state library.old.dir).finds (D.state library.new.dir).finds }
    ensures listings { RoseWhere (says_scanned (call.Lease names.now) (ending result)) (D.state library.old.dir).listings (D.state library.new.dir).listings }
    ensures again { (s : State) → StandsFor N.name_of s library.old.ledger.kept library.old.shelf library.old.known (D.state library.old.dir) → OnErr result (StandsFor N.name_of s library.new.ledger.kept library.new.shelf library.new.known (D.state library.new.dir)) }
    ensures ready { HasSlots library.old.ledger.kept (D.state library.old.dir) → HasSlots library.new.ledger.kept (D.state library.new.dir) }
    ensures told { (D.state library.old.dir).moves ≡ None → (D.state library.new.dir).moves ≡ None }
    ensures missed { IfOk result (λ how. is_missed how ≡ false) }
{
    match library.lease(alloc, lane, names) {
        Ok(()) => Ok(Outcome::Done),
        Err(wanting) => Err(wanting),
    }
}

/// Puts a record file.
pub fn put<D: Dir, N: Naming>(
    alloc: Global,
    library: &mut Library<D, N>,
    lane: u32,
    body: &Body,
) -> Result<Outcome, Memory>
    requires lane { lane < length library.old.ledger.kept.guard.leases }
    requires unstaged { staged_in library.old.ledger.kept lane ≡ None }
    requires leased { option_any (leases_name body.now.name) (guarded_lease library.old.ledger.kept.guard lane) ≡ true }
    requires whole { IsWhole N.name_of body.now }
    ensures step { (s : State) → StandsFor N.name_of s library.old.ledger.kept library.old.shelf library.old.known (D.state library.old.dir) → IfOk result (λ how. Takes N.name_of s lane (given.Put body.now) (flag_for how) how (D.state library.old.dir) library.new.ledger.kept library.new.shelf library.new.known (D.state library.new.dir)) }
    ensures event { library.new.ledger.events ≡ with_event library.old.ledger.events lane (call.Put body.now.name) (ending result) }
    ensures cause { (D.state library.new.dir).faults ≡ counted_where (call_failed (ending result)) (D.state library.old.dir).faults }
    ensures finds { RoseWhere (says_loaded (call.Put body.now.name) (ending result)) (D.state library.old.dir).finds (D.state library.new.dir).finds }
    ensures listings { RoseWhere (says_scanned (call.Put body.now.name) (ending result)) (D.state library.old.dir).listings (D.state library.new.dir).listings }
    ensures again { (s : State) → StandsFor N.name_of s library.old.ledger.kept library.old.shelf library.old.known (D.state library.old.dir) → OnErr result (StandsFor N.name_of s library.new.ledger.kept library.new.shelf library.new.known (D.state library.new.dir)) }
    ensures ready { HasSlots library.old.ledger.kept (D.state library.old.dir) → HasSlots library.new.ledger.kept (D.state library.new.dir) }
    ensures told { (D.state library.old.dir).moves ≡ None → (D.state library.new.dir).moves ≡ None }
    ensures missed { IfOk result (λ how. is_missed how ≡ false) }
{
    match library.put(alloc, lane, body) {
        Ok(Put::Written) => Ok(Outcome::Written),
        Ok(Put::Shared) => Ok(Outcome::Shared),
        Err(PutError::Clash { .. }) => Ok(Outcome::Clash),
        Err(PutError::Fault) => Ok(Outcome::Fault),
        Err(PutError::Memory) => Err(Memory),
    }
}

/// Stages a unit.
pub fn stage<D: Dir, N: Naming>(
    alloc: Global,
    library: &mut Library<D, N>,
    lane: u32,
    unit: Arc<UnitValue>,
) -> Result<Outcome, Memory>
    requires lane { lane < length library.old.ledger.kept.guard.leases }
    requires unstaged { staged_in library.old.ledger.kept lane ≡ None }
    requires put { has_put_each unit.value.records (guarded_lease library.old.ledger.kept.guard lane) ≡ true }
    requires valid { IsValidUnit unit.value }
    ensures step { (s : State) → StandsFor N.name_of s library.old.ledger.kept library.old.shelf library.old.known (D.state library.old.dir) → IfOk result (λ how. Takes N.name_of s lane (given.Stage unit.value) (flag_for how) how (D.state library.old.dir) library.new.ledger.kept library.new.shelf library.new.known (D.state library.new.dir)) }
    ensures event { library.new.ledger.events ≡ with_event library.old.ledger.events lane (call.Stage (N.name_of unit.value.output)) (ending result) }
    ensures cause { (D.state library.new.dir).faults ≡ counted_where (call_failed (ending result)) (D.state library.old.dir).faults }
    ensures finds { RoseWhere (says_loaded (call.Stage (N.name_of unit.value.output)) (ending result)) (D.state library.old.dir).finds (D.state library.new.dir).finds }
    ensures listings { RoseWhere (says_scanned (call.Stage (N.name_of unit.value.output)) (ending result)) (D.state library.old.dir).listings (D.state library.new.dir).listings }
    ensures again { (s : State) → StandsFor N.name_of s library.old.ledger.kept library.old.shelf library.old.known (D.state library.old.dir) → OnErr result (StandsFor N.name_of s library.new.ledger.kept library.new.shelf library.new.known (D.state library.new.dir)) }
    ensures ready { HasSlots library.old.ledger.kept (D.state library.old.dir) → HasSlots library.new.ledger.kept (D.state library.new.dir) }
    ensures told { (D.state library.old.dir).moves ≡ None → (D.state library.new.dir).moves ≡ None }
    ensures missed { IfOk result (λ how. is_missed how ≡ false) }
{
    match library.stage(alloc, lane, unit) {
        Ok(()) => Ok(Outcome::Done),
        Err(StageError::Fault) => Ok(Outcome::Fault),
        Err(StageError::Memory) => Err(Memory),
    }
}
