//! Turns that want no test but that there is the lane, and loads for asks.
ghost use Rattle.std.specs.Prelude.{◌≡◌, ℕ, List, true, Some, IfOk, OnErr, OnOk, None};
ghost use Rattle.ix_dir.specs.State.{counted_where};
ghost use Rattle.ix_counts.specs.Counting.{AreCounted, counts_of};
ghost use Rattle.ix_types.specs.declared.row.Query.{Query};
ghost use Rattle.ix_machine.specs.State.{State};
ghost use Rattle.ix_lanes.specs.Calls as turn;
ghost use Rattle.ix_lanes.specs.Calls.{next_turn};
ghost use Rattle.ix_lanes.specs.Progress.{Progress};
ghost use Rattle.ix_library.specs.Looks.{MayLoadThere};
ghost use Rattle.ix_library.specs.StandsFor.{HasSlots, StandsFor};
ghost use Rattle.ix_import.specs.Importing.{Importing};
ghost use Rattle.ix_turns.specs.Ended.{is_missed};
ghost use Rattle.ix_calls.specs.Calling.{IsMadeBeside, IsNoted, outcome_of, turn_failed};
ghost use Rattle.ix_calls.specs.Turns.{IsAtTurn};

use crate::endings::{ended, let_go};
use ix_dir::Dir;
use ix_library::Library;
use ix_machine::Purpose;
use ix_seats::Made;
use ix_turns::Loaded;
use ix_types::{FileName, Memory, Naming, Text};
use std::alloc::Global;

/// Removes the unit of an output path.
pub(crate) fn remove<D: Dir, N: Naming>(
    alloc: Global,
    library: &mut Library<D, N>,
    number: u32,
    output: &Text,
) -> Result<Made, Memory>
    ensures call { (s : State) (p : Progress) → StandsFor N.name_of s library.old.ledger.kept library.old.shelf library.old.known (D.state library.old.dir) → next_turn p ≡ Some (turn.Remove output.now) → IfOk result (λ made. IsMadeBeside N.name_of s number p library.old.ledger.events (D.state library.old.dir) made library.new.ledger.events library.new.ledger.kept library.new.shelf library.new.known (D.state library.new.dir)) }
    ensures event { IfOk result (λ made. IsNoted library.old.ledger.events number (Some made) library.new.ledger.events) }
    ensures cause { (D.state library.new.dir).faults ≡ counted_where (turn_failed result) (D.state library.old.dir).faults }
    ensures counted { OnOk result (AreCounted library.old.ledger.events (counts_of (D.state library.old.dir)) library.new.ledger.events (counts_of (D.state library.new.dir))) }
    ensures again { (s : State) → StandsFor N.name_of s library.old.ledger.kept library.old.shelf library.old.known (D.state library.old.dir) → OnErr result (StandsFor N.name_of s library.new.ledger.kept library.new.shelf library.new.known (D.state library.new.dir)) }
    ensures ready { HasSlots library.old.ledger.kept (D.state library.old.dir) → HasSlots library.new.ledger.kept (D.state library.new.dir) }
    ensures told { (D.state library.old.dir).moves ≡ None → (D.state library.new.dir).moves ≡ None }
    ensures missed { IfOk result (λ made. is_missed (outcome_of made) ≡ true → (D.state library.old.dir).moves ≡ None) }
{
    ix_turns::laws::calls_are_counted();
    ended(ix_turns::remove(alloc, library, number, output))
}

/// Removes the least record file that nothing needs.
pub(crate) fn collect<D: Dir, N: Naming>(
    alloc: Global,
    library: &mut Library<D, N>,
    number: u32,
) -> Result<Made, Memory>
    ensures call { (s : State) (p : Progress) → StandsFor N.name_of s library.old.ledger.kept library.old.shelf library.old.known (D.state library.old.dir) → next_turn p ≡ Some turn.Collect → IfOk result (λ made. IsMadeBeside N.name_of s number p library.old.ledger.events (D.state library.old.dir) made library.new.ledger.events library.new.ledger.kept library.new.shelf library.new.known (D.state library.new.dir)) }
    ensures event { IfOk result (λ made. IsNoted library.old.ledger.events number (Some made) library.new.ledger.events) }
    ensures cause { (D.state library.new.dir).faults ≡ counted_where (turn_failed result) (D.state library.old.dir).faults }
    ensures counted { OnOk result (AreCounted library.old.ledger.events (counts_of (D.state library.old.dir)) library.new.ledger.events (counts_of (D.state library.new.dir))) }
    ensures again { (s : State) → StandsFor N.name_of s library.old.ledger.kept library.old.shelf library.old.known (D.state library.old.dir) → OnErr result (StandsFor N.name_of s library.new.ledger.kept library.new.shelf library.new.known (D.state library.new.dir)) }
    ensures ready { HasSlots library.old.ledger.kept (D.state library.old.dir) → HasSlots library.new.ledger.kept (D.state library.new.dir) }
    ensures told { (D.state library.old.dir).moves ≡ None → (D.state library.new.dir).moves ≡ None }
    ensures missed { IfOk result (λ made. is_missed (outcome_of made) ≡ true → (D.state library.old.dir).moves ≡ None) }
{
    ix_turns::laws::calls_are_counted();
    ended(ix_turns::collect(alloc, library, number))
}

/// The lane lets go what it holds.
pub(crate) fn release<D: Dir, N: Naming>(
    library: &mut Library<D, N>,
    number: u32,
) -> Result<Made, Memory>
    ensures call { (s : State) (p : Progress) → StandsFor N.name_of s library.old.ledger.kept library.old.shelf library.old.known (D.state library.old.dir) → next_turn p ≡ Some turn.Release → IfOk result (λ made. IsMadeBeside N.name_of s number p library.old.ledger.events (D.state library.old.dir) made library.new.ledger.events library.new.ledger.kept library.new.shelf library.new.known (D.state library.new.dir)) }
    ensures event { IfOk result (λ made. IsNoted library.old.ledger.events number (Some made) library.new.ledger.events) }
    ensures cause { (D.state library.new.dir).faults ≡ counted_where (turn_failed result) (D.state library.old.dir).faults }
    ensures counted { OnOk result (AreCounted library.old.ledger.events (counts_of (D.state library.old.dir)) library.new.ledger.events (counts_of (D.state library.new.dir))) }
    ensures again { (s : State) → StandsFor N.name_of s library.old.ledger.kept library.old.shelf library.old.known (D.state library.old.dir) → OnErr result (StandsFor N.name_of s library.new.ledger.kept library.new.shelf library.new.known (D.state library.new.dir)) }
    ensures ready { HasSlots library.old.ledger.kept (D.state library.old.dir) → HasSlots library.new.ledger.kept (D.state library.new.dir) }
    ensures told { (D.state library.old.dir).moves ≡ None → (D.state library.new.dir).moves ≡ None }
    ensures missed { IfOk result (λ made. is_missed (outcome_of made) ≡ true → (D.state library.old.dir).moves ≡ None) }
{
    ix_turns::laws::calls_are_counted();
    if !library.has_lane(number) {
        return Err(Memory);
    }
    let_go(ix_turns::release(library, number))
}

/// Loads a record that the lane's ask lacks.
pub(crate) fn load<D: Dir, N: Naming>(
    alloc: Global,
    library: &mut Library<D, N>,
    number: u32,
    name: FileName,
) -> Result<Made, Memory>
    requires { MayLoadThere N.name_of library.old.ledger.kept library.old.shelf library.old.known (D.state library.old.dir) number name Purpose.Ask }
    ensures call { (s : State) (p : Progress) (query : Query) (importing : Importing) → StandsFor N.name_of s library.old.ledger.kept library.old.shelf library.old.known (D.state library.old.dir) → next_turn p ≡ Some (turn.Ask query) → IsAtTurn s number p importing (Some name) → IfOk result (λ made. IsMadeBeside N.name_of s number p library.old.ledger.events (D.state library.old.dir) made library.new.ledger.events library.new.ledger.kept library.new.shelf library.new.known (D.state library.new.dir)) }
    ensures event { IfOk result (λ made. IsNoted library.old.ledger.events number (Some made) library.new.ledger.events) }
    ensures cause { (D.state library.new.dir).faults ≡ counted_where (turn_failed result) (D.state library.old.dir).faults }
    ensures counted { OnOk result (AreCounted library.old.ledger.events (counts_of (D.state library.old.dir)) library.new.ledger.events (counts_of (D.state library.new.dir))) }
    ensures again { (s : State) → StandsFor N.name_of s library.old.ledger.kept library.old.shelf library.old.known (D.state library.old.dir) → OnErr result (StandsFor N.name_of s library.new.ledger.kept library.new.shelf library.new.known (D.state library.new.dir)) }
    ensures ready { HasSlots library.old.ledger.kept (D.state library.old.dir) → HasSlots library.new.ledger.kept (D.state library.new.dir) }
    ensures told { (D.state library.old.dir).moves ≡ None → (D.state library.new.dir).moves ≡ None }
    ensures missed { IfOk result (λ made. is_missed (outcome_of made) ≡ true → (D.state library.old.dir).moves ≡ None) }
{
    ix_turns::laws::calls_are_counted();
    ix_looks::laws::records_that_stand_have_one_value();
    let made = ix_turns::load(alloc, library, number, name, Purpose::Ask)?;
    let Loaded { outcome, body } = made;
    match body {
        Some(body) => Ok(Made::Loaded(name, body)),
        None => Ok(Made::Ended(outcome)),
    }
}
