//! What lanes hold.
ghost use Rattle.std.specs.Prelude.{◌≡◌, ◌<◌, length, true, false, None, Some, IfOk, IfSome, IsSome, OnErr};
ghost use Rattle.ix_dir.specs.State.{counted_where};
ghost use Rattle.ix_record.specs.Whole.{IsWhole};
ghost use Rattle.ix_unit.specs.Value.{IsValidUnit};
ghost use Rattle.ix_machine.specs.declared.event.Call.TheVariants as call;
ghost use Rattle.ix_machine.specs.Given as given;
ghost use Rattle.ix_machine.specs.Needs.{option_any};
ghost use Rattle.ix_machine.specs.State.{State, lease_of};
ghost use Rattle.ix_guard.specs.Guarding.{lease_of as guarded_lease};
ghost use Rattle.ix_guard.specs.Protection.{leases_name};
ghost use Rattle.ix_ledger.specs.Kept.{staged_in};
ghost use Rattle.ix_ledger.specs.Registered.{has_opened};
ghost use Rattle.ix_library.specs.Conditions.{has_put_each};
ghost use Rattle.ix_library.specs.Endings.{flag_for, with_event, publish_name};
ghost use Rattle.ix_library.specs.StandsFor.{HasSlots, StandsFor, Takes};
ghost use Rattle.ix_counts.specs.Counting.{RoseWhere, says_loaded, says_scanned};
ghost use Rattle.ix_turns.specs.Ended.{call_failed, ending, is_missed};

use ix_dir::Dir;
use ix_library::Library;
use ix_machine::Outcome;
use ix_types::{Memory, Naming};

/// Makes the lane's import the current version, which the lane then holds.
pub fn install<D: Dir, N: Naming>(library: &mut Library<D, N>, lane: u32) -> Result<Outcome, Memory>
    requires lane { lane < length library.old.ledger.kept.guard.leases }
    requires own { has_opened library.old.ledger.kept lane ≡ true }
    ensures step { (s : State) → StandsFor N.name_of s library.old.ledger.kept library.old.shelf library.old.known (D.state library.old.dir) → IfOk result (λ how. Takes N.name_of s lane given.Install (flag_for how) how (D.state library.old.dir) library.new.ledger.kept library.new.shelf library.new.known (D.state library.new.dir)) }
    ensures event { library.new.ledger.events ≡ with_event library.old.ledger.events lane call.Install (ending result) }
    ensures cause { (D.state library.new.dir).faults ≡ counted_where (call_failed (ending result)) (D.state library.old.dir).faults }
    ensures finds { RoseWhere (says_loaded call.Install (ending result)) (D.state library.old.dir).finds (D.state library.new.dir).finds }
    ensures listings { RoseWhere (says_scanned call.Install (ending result)) (D.state library.old.dir).listings (D.state library.new.dir).listings }
    ensures again { (s : State) → StandsFor N.name_of s library.old.ledger.kept library.old.shelf library.old.known (D.state library.old.dir) → OnErr result (StandsFor N.name_of s library.new.ledger.kept library.new.shelf library.new.known (D.state library.new.dir)) }
    ensures ready { HasSlots library.old.ledger.kept (D.state library.old.dir) → HasSlots library.new.ledger.kept (D.state library.new.dir) }
    ensures told { (D.state library.old.dir).moves ≡ None → (D.state library.new.dir).moves ≡ None }
    ensures missed { IfOk result (λ how. is_missed how ≡ false) }
{
    match library.install(lane) {
        Ok(mark) => Ok(Outcome::At { mark }),
        Err(wanting) => Err(wanting),
    }
}

/// The lane takes up the current version.
pub fn adopt<D: Dir, N: Naming>(library: &mut Library<D, N>, lane: u32) -> Result<Outcome, Memory>
    requires lane { lane < length library.old.ledger.kept.guard.leases }
    ensures step { (s : State) → StandsFor N.name_of s library.old.ledger.kept library.old.shelf library.old.known (D.state library.old.dir) → IfOk result (λ how. Takes N.name_of s lane given.Adopt (flag_for how) how (D.state library.old.dir) library.new.ledger.kept library.new.shelf library.new.known (D.state library.new.dir)) }
    ensures event { library.new.ledger.events ≡ with_event library.old.ledger.events lane call.Adopt (ending result) }
    ensures cause { (D.state library.new.dir).faults ≡ counted_where (call_failed (ending result)) (D.state library.old.dir).faults }
    ensures finds { RoseWhere (says_loaded call.Adopt (ending result)) (D.state library.old.dir).finds (D.state library.new.dir).finds }
    ensures listings { RoseWhere (says_scanned call.Adopt (ending result)) (D.state library.old.dir).listings (D.state library.new.dir).listings }
    ensures again { (s : State) → StandsFor N.name_of s library.old.ledger.kept library.old.shelf library.old.known (D.state library.old.dir) → OnErr result (StandsFor N.name_of s library.new.ledger.kept library.new.shelf library.new.known (D.state library.new.dir)) }
    ensures ready { HasSlots library.old.ledger.kept (D.state library.old.dir) → HasSlots library.new.ledger.kept (D.state library.new.dir) }
    ensures told { (D.state library.old.dir).moves ≡ None → (D.state library.new.dir).moves ≡ None }
    ensures missed { IfOk result (λ how. is_missed how ≡ false) }
{
    match library.adopt(lane) {
        Ok(mark) => Ok(Outcome::At { mark }),
        Err(wanting) => Err(wanting),
    }
}

/// The lane lets go what it holds.
pub fn release<D: Dir, N: Naming>(library: &mut Library<D, N>, lane: u32) -> Result<Outcome, Memory>
    requires lane { lane < length library.old.ledger.kept.guard.leases }
    ensures step { (s : State) → StandsFor N.name_of s library.old.ledger.kept library.old.shelf library.old.known (D.state library.old.dir) → IfOk result (λ how. Takes N.name_of s lane given.Release (flag_for how) how (D.state library.old.dir) library.new.ledger.kept library.new.shelf library.new.known (D.state library.new.dir)) }
    ensures event { library.new.ledger.events ≡ with_event library.old.ledger.events lane call.Release (ending result) }
    ensures cause { (D.state library.new.dir).faults ≡ counted_where (call_failed (ending result)) (D.state library.old.dir).faults }
    ensures finds { RoseWhere (says_loaded call.Release (ending result)) (D.state library.old.dir).finds (D.state library.new.dir).finds }
    ensures listings { RoseWhere (says_scanned call.Release (ending result)) (D.state library.old.dir).listings (D.state library.new.dir).listings }
    ensures again { (s : State) → StandsFor N.name_of s library.old.ledger.kept library.old.shelf library.old.known (D.state library.old.dir) → OnErr result (StandsFor N.name_of s library.new.ledger.kept library.new.shelf library.new.known (D.state library.new.dir)) }
    ensures ready { HasSlots library.old.ledger.kept (D.state library.old.dir) → HasSlots library.new.ledger.kept (D.state library.new.dir) }
    ensures told { (D.state library.old.dir).moves ≡ None → (D.state library.new.dir).moves ≡ None }
    ensures missed { IfOk result (λ how. is_missed how ≡ false) }
{
    match library.release(lane) {
        Ok(()) => Ok(Outcome::Done),
        Err(wanting) => Err(wanting),
    }
}
