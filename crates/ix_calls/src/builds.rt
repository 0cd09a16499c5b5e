//! The turns of a build, each with its test.
ghost use Rattle.std.specs.Prelude.{◌≡◌, ℕ, List, true, Some, IfOk, OnErr, OnOk, None};
ghost use Rattle.ix_dir.specs.State.{counted_where};
ghost use Rattle.ix_counts.specs.Counting.{AreCounted, counts_of};
ghost use Rattle.ix_record.specs.Whole.{IsWhole};
ghost use Rattle.ix_unit.specs.Value.{IsValidUnit};
ghost use Rattle.ix_machine.specs.State.{State};
ghost use Rattle.ix_lanes.specs.Calls as turn;
ghost use Rattle.ix_lanes.specs.Calls.{next_turn};
ghost use Rattle.ix_lanes.specs.Progress.{Progress};
ghost use Rattle.ix_library.specs.StandsFor.{HasSlots, StandsFor};
ghost use Rattle.ix_turns.specs.Ended.{is_missed};
ghost use Rattle.ix_calls.specs.Calling.{IsMadeBeside, IsNoted, outcome_of, turn_failed};

use crate::endings::ended;
use crate::tested::{has_staged, is_free, may_put, may_stage};
use ix_dir::Dir;
use ix_library::Library;
use ix_record::Body;
use ix_seats::Made;
use ix_types::{FileName, Memory, Naming, Seq};
use ix_unit::UnitValue;
use std::alloc::Global;
use std::sync::Arc;

/// Leases the names of a build's records, where the lane has no lease.
pub(crate) fn lease<D: Dir, N: Naming>(
    alloc: Global,
    library: &mut Library<D, N>,
    number: u32,
    names: &Seq<FileName>,
) -> Result<Made, Memory>
    ensures call { (s : State) (p : Progress) → StandsFor N.name_of s library.old.ledger.kept library.old.shelf library.old.known (D.state library.old.dir) → next_turn p ≡ Some (turn.Lease names.now) → IfOk result (λ made. IsMadeBeside N.name_of s number p library.old.ledger.events (D.state library.old.dir) made library.new.ledger.events library.new.ledger.kept library.new.shelf library.new.known (D.state library.new.dir)) }
    ensures event { IfOk result (λ made. IsNoted library.old.ledger.events number (Some made) library.new.ledger.events) }
    ensures cause { (D.state library.new.dir).faults ≡ counted_where (turn_failed result) (D.state library.old.dir).faults }
    ensures counted { OnOk result (AreCounted library.old.ledger.events (counts_of (D.state library.old.dir)) library.new.ledger.events (counts_of (D.state library.new.dir))) }
    ensures again { (s : State) → StandsFor N.name_of s library.old.ledger.kept library.old.shelf library.old.known (D.state library.old.dir) → OnErr result (StandsFor N.name_of s library.new.ledger.kept library.new.shelf library.new.known (D.state library.new.dir)) }
    ensures ready { HasSlots library.old.ledger.kept (D.state library.old.dir) → HasSlots library.new.ledger.kept (D.state library.new.dir) }
    ensures told { (D.state library.old.dir).moves ≡ None → (D.state library.new.dir).moves ≡ None }
    ensures missed { IfOk result (λ made. is_missed (outcome_of made) ≡ true → (D.state library.old.dir).moves ≡ None) }
{
    ix_turns::laws::calls_are_counted();
    if !is_free(library, number) {
        return Err(Memory);
    }
    ended(ix_turns::lease(alloc, library, number, names))
}

/// Puts a file of a build, where its name is leased and nothing is staged.
pub(crate) fn put<D: Dir, N: Naming>(
    alloc: Global,
    library: &mut Library<D, N>,
    number: u32,
    body: &Body,
) -> Result<Made, Memory>
    requires { IsWhole N.name_of body.now }
    ensures call { (s : State) (p : Progress) → StandsFor N.name_of s library.old.ledger.kept library.old.shelf library.old.known (D.state library.old.dir) → next_turn p ≡ Some (turn.Put body.now) → IfOk result (λ made. IsMadeBeside N.name_of s number p library.old.ledger.events (D.state library.old.dir) made library.new.ledger.events library.new.ledger.kept library.new.shelf library.new.known (D.state library.new.dir)) }
    ensures event { IfOk result (λ made. IsNoted library.old.ledger.events number (Some made) library.new.ledger.events) }
    ensures cause { (D.state library.new.dir).faults ≡ counted_where (turn_failed result) (D.state library.old.dir).faults }
    ensures counted { OnOk result (AreCounted library.old.ledger.events (counts_of (D.state library.old.dir)) library.new.ledger.events (counts_of (D.state library.new.dir))) }
    ensures again { (s : State) → StandsFor N.name_of s library.old.ledger.kept library.old.shelf library.old.known (D.state library.old.dir) → OnErr result (StandsFor N.name_of s library.new.ledger.kept library.new.shelf library.new.known (D.state library.new.dir)) }
    ensures ready { HasSlots library.old.ledger.kept (D.state library.old.dir) → HasSlots library.new.ledger.kept (D.state library.new.dir) }
    ensures told { (D.state library.old.dir).moves ≡ None → (D.state library.new.dir).moves ≡ None }
    ensures missed { IfOk result (λ made. is_missed (outcome_of made) ≡ true → (D.state library.old.dir).moves ≡ None) }
{
    ix_turns::laws::calls_are_counted();
    if !may_put(library, number, body.name) {
        return Err(Memory);
    }
    ended(ix_turns::put(alloc, library, number, body))
}

/// Stages the unit of a build, where its records are put and nothing is staged.
pub(crate) fn stage<D: Dir, N: Naming>(
    alloc: Global,
    library: &mut Library<D, N>,
    number: u32,
    unit: &Arc<UnitValue>,
) -> Result<Made, Memory>
    requires { IsValidUnit unit.now.value }
    ensures call { (s : State) (p : Progress) → StandsFor N.name_of s library.old.ledger.kept library.old.shelf library.old.known (D.state library.old.dir) → next_turn p ≡ Some (turn.Stage unit.now.value) → IfOk result (λ made. IsMadeBeside N.name_of s number p library.old.ledger.events (D.state library.old.dir) made library.new.ledger.events library.new.ledger.kept library.new.shelf library.new.known (D.state library.new.dir)) }
    ensures event { IfOk result (λ made. IsNoted library.old.ledger.events number (Some made) library.new.ledger.events) }
    ensures cause { (D.state library.new.dir).faults ≡ counted_where (turn_failed result) (D.state library.old.dir).faults }
    ensures counted { OnOk result (AreCounted library.old.ledger.events (counts_of (D.state library.old.dir)) library.new.ledger.events (counts_of (D.state library.new.dir))) }
    ensures again { (s : State) → StandsFor N.name_of s library.old.ledger.kept library.old.shelf library.old.known (D.state library.old.dir) → OnErr result (StandsFor N.name_of s library.new.ledger.kept library.new.shelf library.new.known (D.state library.new.dir)) }
    ensures ready { HasSlots library.old.ledger.kept (D.state library.old.dir) → HasSlots library.new.ledger.kept (D.state library.new.dir) }
    ensures told { (D.state library.old.dir).moves ≡ None → (D.state library.new.dir).moves ≡ None }
    ensures missed { IfOk result (λ made. is_missed (outcome_of made) ≡ true → (D.state library.old.dir).moves ≡ None) }
{
    ix_turns::laws::calls_are_counted();
    if !may_stage(library, number, unit) {
        return Err(Memory);
    }
    let handle = Arc::try_clone(unit)?;
    ended(ix_turns::stage(alloc, library, number, handle))
}

/// Publishes the unit of a build, where one is staged.
pub(crate) fn publish<D: Dir, N: Naming>(
    alloc: Global,
    library: &mut Library<D, N>,
    number: u32,
) -> Result<Made, Memory>
    requires { HasSlots library.old.ledger.kept (D.state library.old.dir) }
    ensures call { (s : State) (p : Progress) → StandsFor N.name_of s library.old.ledger.kept library.old.shelf library.old.known (D.state library.old.dir) → next_turn p ≡ Some turn.Publish → IfOk result (λ made. IsMadeBeside N.name_of s number p library.old.ledger.events (D.state library.old.dir) made library.new.ledger.events library.new.ledger.kept library.new.shelf library.new.known (D.state library.new.dir)) }
    ensures event { IfOk result (λ made. IsNoted library.old.ledger.events number (Some made) library.new.ledger.events) }
    ensures cause { (D.state library.new.dir).faults ≡ counted_where (turn_failed result) (D.state library.old.dir).faults }
    ensures counted { OnOk result (AreCounted library.old.ledger.events (counts_of (D.state library.old.dir)) library.new.ledger.events (counts_of (D.state library.new.dir))) }
    ensures again { (s : State) → StandsFor N.name_of s library.old.ledger.kept library.old.shelf library.old.known (D.state library.old.dir) → OnErr result (StandsFor N.name_of s library.new.ledger.kept library.new.shelf library.new.known (D.state library.new.dir)) }
    ensures ready { HasSlots library.new.ledger.kept (D.state library.new.dir) }
    ensures told { (D.state library.old.dir).moves ≡ None → (D.state library.new.dir).moves ≡ None }
    ensures missed { IfOk result (λ made. is_missed (outcome_of made) ≡ true → (D.state library.old.dir).moves ≡ None) }
{
    ix_turns::laws::calls_are_counted();
    if !has_staged(library, number) {
        return Err(Memory);
    }
    ended(ix_turns::publish(alloc, library, number))
}
