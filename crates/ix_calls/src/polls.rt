//! The turns of a poll and a refresh, as a lane's calls.
ghost use Rattle.std.specs.Prelude.{◌≡◌, ℕ, List, Option, true, Some, IfOk, OnErr, OnOk, None};
ghost use Rattle.ix_dir.specs.State.{counted_where};
ghost use Rattle.ix_counts.specs.Counting.{AreCounted, counts_of};
ghost use Rattle.ix_machine.specs.State.{State};
ghost use Rattle.ix_lanes.specs.Calls as turn;
ghost use Rattle.ix_lanes.specs.Calls.{next_turn};
ghost use Rattle.ix_lanes.specs.Progress.{Progress};
ghost use Rattle.ix_library.specs.Looks.{StandsThere};
ghost use Rattle.ix_library.specs.StandsFor.{HasSlots, StandsFor};
ghost use Rattle.ix_turns.specs.Ended.{is_missed};
ghost use Rattle.ix_polls.specs.Polling.{FollowsThere};
ghost use Rattle.ix_calls.specs.Calling.{IsNoted, outcome_of, polled_as, turn_failed};
ghost use Rattle.ix_calls.specs.Turns.{IsAtTurn, IsCall};

use ix_dir::Dir;
use ix_import::Importer;
use ix_library::Library;
use ix_polls::Polled;
use ix_seats::Made;
use ix_types::{Memory, Naming};
use std::alloc::Global;

/// Scans the units for a poll.
pub(crate) fn scan<D: Dir, N: Naming>(
    alloc: Global,
    library: &mut Library<D, N>,
    importer: &mut Importer,
    number: u32,
) -> Result<Made, Memory>
    requires { StandsThere N.name_of library.old.ledger.kept library.old.shelf library.old.known (D.state library.old.dir) }
    ensures call { (s : State) (p : Progress) (wanted : Option (List ℕ)) → StandsFor N.name_of s library.old.ledger.kept library.old.shelf library.old.known (D.state library.old.dir) → next_turn p ≡ Some turn.Scan → IsAtTurn s number p importer.old wanted → IfOk result (λ made. IsCall N.name_of s number p library.old.ledger.events (D.state library.old.dir) made library.new.ledger.events library.new.ledger.kept library.new.shelf library.new.known (D.state library.new.dir) importer.old importer.new) }
    ensures event { IfOk result (λ made. IsNoted library.old.ledger.events number (Some made) library.new.ledger.events) }
    ensures cause { (D.state library.new.dir).faults ≡ counted_where (turn_failed result) (D.state library.old.dir).faults }
    ensures counted { OnOk result (AreCounted library.old.ledger.events (counts_of (D.state library.old.dir)) library.new.ledger.events (counts_of (D.state library.new.dir))) }
    ensures again { (s : State) → StandsFor N.name_of s library.old.ledger.kept library.old.shelf library.old.known (D.state library.old.dir) → OnErr result (StandsFor N.name_of s library.new.ledger.kept library.new.shelf library.new.known (D.state library.new.dir)) }
    ensures ready { HasSlots library.old.ledger.kept (D.state library.old.dir) → HasSlots library.new.ledger.kept (D.state library.new.dir) }
    ensures told { (D.state library.old.dir).moves ≡ None → (D.state library.new.dir).moves ≡ None }
    ensures missed { IfOk result (λ made. is_missed (outcome_of made) ≡ true → (D.state library.old.dir).moves ≡ None) }
{
    ix_model::laws::the_latest_publication_stands();
    let polled = ix_polls::scan(alloc, library, importer, number)?;
    Ok(made_of(polled))
}

/// Goes on with a poll's import.
pub(crate) fn import<D: Dir, N: Naming>(
    alloc: Global,
    library: &mut Library<D, N>,
    importer: &mut Importer,
    number: u32,
) -> Result<Made, Memory>
    requires { FollowsThere N.name_of library.old.ledger.kept library.old.shelf library.old.known (D.state library.old.dir) importer.old }
    ensures call { (s : State) (p : Progress) (wanted : Option (List ℕ)) → StandsFor N.name_of s library.old.ledger.kept library.old.shelf library.old.known (D.state library.old.dir) → next_turn p ≡ Some turn.Import → IsAtTurn s number p importer.old wanted → IfOk result (λ made. IsCall N.name_of s number p library.old.ledger.events (D.state library.old.dir) made library.new.ledger.events library.new.ledger.kept library.new.shelf library.new.known (D.state library.new.dir) importer.old importer.new) }
    ensures event { IfOk result (λ made. IsNoted library.old.ledger.events number (Some made) library.new.ledger.events) }
    ensures cause { (D.state library.new.dir).faults ≡ counted_where (turn_failed result) (D.state library.old.dir).faults }
    ensures counted { OnOk result (AreCounted library.old.ledger.events (counts_of (D.state library.old.dir)) library.new.ledger.events (counts_of (D.state library.new.dir))) }
    ensures again { (s : State) → StandsFor N.name_of s library.old.ledger.kept library.old.shelf library.old.known (D.state library.old.dir) → OnErr result (StandsFor N.name_of s library.new.ledger.kept library.new.shelf library.new.known (D.state library.new.dir)) }
    ensures ready { HasSlots library.old.ledger.kept (D.state library.old.dir) → HasSlots library.new.ledger.kept (D.state library.new.dir) }
    ensures told { (D.state library.old.dir).moves ≡ None → (D.state library.new.dir).moves ≡ None }
    ensures missed { IfOk result (λ made. is_missed (outcome_of made) ≡ true → (D.state library.old.dir).moves ≡ None) }
{
    ix_model::laws::the_latest_publication_stands();
    let polled = ix_polls::import(alloc, library, importer, number)?;
    Ok(made_of(polled))
}

/// Takes up the current version for a refresh.
pub(crate) fn adopt<D: Dir, N: Naming>(
    library: &mut Library<D, N>,
    importer: &Importer,
    number: u32,
) -> Result<Made, Memory>
    ensures call { (s : State) (p : Progress) (wanted : Option (List ℕ)) → StandsFor N.name_of s library.old.ledger.kept library.old.shelf library.old.known (D.state library.old.dir) → next_turn p ≡ Some turn.Adopt → IsAtTurn s number p importer.now wanted → IfOk result (λ made. IsCall N.name_of s number p library.old.ledger.events (D.state library.old.dir) made library.new.ledger.events library.new.ledger.kept library.new.shelf library.new.known (D.state library.new.dir) importer.now importer.now) }
    ensures event { IfOk result (λ made. IsNoted library.old.ledger.events number (Some made) library.new.ledger.events) }
    ensures cause { (D.state library.new.dir).faults ≡ counted_where (turn_failed result) (D.state library.old.dir).faults }
    ensures counted { OnOk result (AreCounted library.old.ledger.events (counts_of (D.state library.old.dir)) library.new.ledger.events (counts_of (D.state library.new.dir))) }
    ensures again { (s : State) → StandsFor N.name_of s library.old.ledger.kept library.old.shelf library.old.known (D.state library.old.dir) → OnErr result (StandsFor N.name_of s library.new.ledger.kept library.new.shelf library.new.known (D.state library.new.dir)) }
    ensures ready { HasSlots library.old.ledger.kept (D.state library.old.dir) → HasSlots library.new.ledger.kept (D.state library.new.dir) }
    ensures told { (D.state library.old.dir).moves ≡ None → (D.state library.new.dir).moves ≡ None }
    ensures missed { IfOk result (λ made. is_missed (outcome_of made) ≡ true → (D.state library.old.dir).moves ≡ None) }
{
    ix_model::laws::the_latest_publication_stands();
    let polled = ix_polls::adopt(library, importer, number)?;
    Ok(made_of(polled))
}

/// What the turn gave the lane.
fn made_of(polled: Polled) -> Made
    ensures is { result ≡ polled_as polled }
    ensures outcome { outcome_of result ≡ polled.outcome }
{
    let Polled { outcome, version } = polled;
    match version {
        Some(version) => Made::TakenUp(outcome, version),
        None => Made::Ended(outcome),
    }
}
