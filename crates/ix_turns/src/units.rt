//! Changes of the units, and the collector.
ghost use Rattle.std.specs.Prelude.{◌≡◌, ◌<◌, length, true, false, Ok, None, Some, IfOk, IfSome, IsSome, OnErr};
ghost use Rattle.ix_dir.specs.State.{counted_where};
ghost use Rattle.ix_record.specs.Whole.{IsWhole};
ghost use Rattle.ix_unit.specs.Value.{IsValidUnit};
ghost use Rattle.ix_machine.specs.declared.event.Call.TheVariants as call;
ghost use Rattle.ix_machine.specs.Given as given;
ghost use Rattle.ix_machine.specs.Needs.{option_any};
ghost use Rattle.ix_machine.specs.State.{State, lease_of};
ghost use Rattle.ix_guard.specs.Guarding.{lease_of as guarded_lease};
ghost use Rattle.ix_guard.specs.Protection.{leases_name};
ghost use Rattle.ix_ledger.specs.Kept.{staged_in};
ghost use Rattle.ix_ledger.specs.Registered.{has_opened};
ghost use Rattle.ix_library.specs.Conditions.{has_put_each};
ghost use Rattle.ix_library.specs.Endings.{collect_ending, flag_for, with_event, publish_name};
ghost use Rattle.ix_library.specs.StandsFor.{HasSlots, StandsFor, Takes};
ghost use Rattle.ix_counts.specs.Counting.{RoseWhere, is_failure, says_loaded, says_scanned};
ghost use Rattle.ix_machine.specs.declared.event.Outcome.TheVariants.{Done};
ghost use Rattle.ix_turns.specs.Ended.{call_failed, ending, is_missed};

use ix_cabinet::Settled;
use ix_dir::Dir;
use ix_library::{CollectError, Collected, Library, PublishError, RemoveError};
use ix_machine::Outcome;
use ix_types::{Memory, Naming, Text};
use std::alloc::Global;

/// Publishes what the lane has staged.
pub fn publish<D: Dir, N: Naming>(
    alloc: Global,
    library: &mut Library<D, N>,
    lane: u32,
) -> Result<Outcome, Memory>
    requires lane { lane < length library.old.ledger.kept.guard.leases }
    requires staged { IsSome (staged_in library.old.ledger.kept lane) }
    requires ready { HasSlots library.old.ledger.kept (D.state library.old.dir) }
    ensures step { (s : State) → StandsFor N.name_of s library.old.ledger.kept library.old.shelf library.old.known (D.state library.old.dir) → IfOk result (λ how. Takes N.name_of s lane given.Publish (flag_for how) how (D.state library.old.dir) library.new.ledger.kept library.new.shelf library.new.known (D.state library.new.dir)) }
    ensures event { library.new.ledger.events ≡ with_event library.old.ledger.events lane (call.Publish (publish_name N.name_of library.old.ledger.kept lane)) (ending result) }
    ensures cause { (D.state library.new.dir).faults ≡ counted_where (call_failed (ending result)) (D.state library.old.dir).faults }
    ensures finds { RoseWhere (says_loaded (call.Publish (publish_name N.name_of library.old.ledger.kept lane)) (ending result)) (D.state library.old.dir).finds (D.state library.new.dir).finds }
    ensures listings { RoseWhere (says_scanned (call.Publish (publish_name N.name_of library.old.ledger.kept lane)) (ending result)) (D.state library.old.dir).listings (D.state library.new.dir).listings }
    ensures again { (s : State) → StandsFor N.name_of s library.old.ledger.kept library.old.shelf library.old.known (D.state library.old.dir) → OnErr result (StandsFor N.name_of s library.new.ledger.kept library.new.shelf library.new.known (D.state library.new.dir)) }
    ensures ready { HasSlots library.new.ledger.kept (D.state library.new.dir) }
    ensures told { (D.state library.old.dir).moves ≡ None → (D.state library.new.dir).moves ≡ None }
    ensures missed { IfOk result (λ how. is_missed how ≡ false) }
{
    match library.publish(alloc, lane) {
        Ok(Settled::Synced) => Ok(Outcome::Synced),
        Ok(Settled::Unsynced) => Ok(Outcome::Unsynced),
        Err(PublishError::Clash { .. }) => Ok(Outcome::Clash),
        Err(PublishError::Fault) => Ok(Outcome::Fault),
        Err(PublishError::Memory) => Err(Memory),
    }
}

/// Removes the unit of an output path.
pub fn remove<D: Dir, N: Naming>(
    alloc: Global,
    library: &mut Library<D, N>,
    lane: u32,
    output: &Text,
) -> Result<Outcome, Memory>
    ensures step { (s : State) → StandsFor N.name_of s library.old.ledger.kept library.old.shelf library.old.known (D.state library.old.dir) → IfOk result (λ how. Takes N.name_of s lane (given.Remove output.now) (flag_for how) how (D.state library.old.dir) library.new.ledger.kept library.new.shelf library.new.known (D.state library.new.dir)) }
    ensures event { library.new.ledger.events ≡ with_event library.old.ledger.events lane (call.Remove (N.name_of output.now)) (ending result) }
    ensures cause { (D.state library.new.dir).faults ≡ counted_where (call_failed (ending result)) (D.state library.old.dir).faults }
    ensures finds { RoseWhere (says_loaded (call.Remove (N.name_of output.now)) (ending result)) (D.state library.old.dir).finds (D.state library.new.dir).finds }
    ensures listings { RoseWhere (says_scanned (call.Remove (N.name_of output.now)) (ending result)) (D.state library.old.dir).listings (D.state library.new.dir).listings }
    ensures again { (s : State) → StandsFor N.name_of s library.old.ledger.kept library.old.shelf library.old.known (D.state library.old.dir) → OnErr result (StandsFor N.name_of s library.new.ledger.kept library.new.shelf library.new.known (D.state library.new.dir)) }
    ensures ready { HasSlots library.old.ledger.kept (D.state library.old.dir) → HasSlots library.new.ledger.kept (D.state library.new.dir) }
    ensures told { (D.state library.old.dir).moves ≡ None → (D.state library.new.dir).moves ≡ None }
    ensures missed { IfOk result (λ how. is_missed how ≡ false) }
{
    match library.remove(alloc, lane, output) {
        Ok(Settled::Synced) => Ok(Outcome::Synced),
        Ok(Settled::Unsynced) => Ok(Outcome::Unsynced),
        Err(RemoveError::NoUnit { .. }) => Ok(Outcome::NoUnit),
        Err(RemoveError::Fault) => Ok(Outcome::Fault),
        Err(RemoveError::Memory) => Err(Memory),
    }
}

/// Removes the least record file that nothing needs.
pub fn collect<D: Dir, N: Naming>(
    alloc: Global,
    library: &mut Library<D, N>,
    lane: u32,
) -> Result<Outcome, Memory>
    ensures step { (s : State) → StandsFor N.name_of s library.old.ledger.kept library.old.shelf library.old.known (D.state library.old.dir) → IfOk result (λ how. Takes N.name_of s lane given.Collect (flag_for how) how (D.state library.old.dir) library.new.ledger.kept library.new.shelf library.new.known (D.state library.new.dir)) }
    ensures event { library.new.ledger.events ≡ with_event library.old.ledger.events lane call.Collect (ending result) }
    ensures cause { (D.state library.new.dir).faults ≡ counted_where (call_failed (ending result)) (D.state library.old.dir).faults }
    ensures finds { RoseWhere (says_loaded call.Collect (ending result)) (D.state library.old.dir).finds (D.state library.new.dir).finds }
    ensures listings { RoseWhere (says_scanned call.Collect (ending result)) (D.state library.old.dir).listings (D.state library.new.dir).listings }
    ensures again { (s : State) → StandsFor N.name_of s library.old.ledger.kept library.old.shelf library.old.known (D.state library.old.dir) → OnErr result (StandsFor N.name_of s library.new.ledger.kept library.new.shelf library.new.known (D.state library.new.dir)) }
    ensures ready { HasSlots library.old.ledger.kept (D.state library.old.dir) → HasSlots library.new.ledger.kept (D.state library.new.dir) }
    ensures told { (D.state library.old.dir).moves ≡ None → (D.state library.new.dir).moves ≡ None }
    ensures missed { IfOk result (λ how. is_missed how ≡ false) }
{
    match library.collect(alloc, lane) {
        Ok(collected) => Ok(collected_as(&collected)),
        Err(CollectError::Fault) => Ok(Outcome::Fault),
        Err(CollectError::Memory) => Err(Memory),
    }
}

/// How a collect ended that didn't fail.
fn collected_as(collected: &Collected) -> Outcome
    ensures ending { Some result ≡ collect_ending (Ok collected.now) }
    ensures done { flag_for result ≡ Done }
    ensures failed { is_failure result ≡ false }
    ensures missed { is_missed result ≡ false }
{
    match collected {
        Collected::Nothing => Outcome::Nothing,
        Collected::Removed { name } => Outcome::Removed { name: *name },
    }
}
