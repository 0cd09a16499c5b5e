//! A lane's next call.
ghost use Rattle.std.specs.Prelude.{◌≡◌, ℕ, true, None, Some, IfOk, IfSome, OnErr, OnOk, is_some};
ghost use Rattle.ix_dir.specs.State.{counted_where};
ghost use Rattle.ix_counts.specs.Counting.{AreCounted, counts_of};
ghost use Rattle.ix_machine.specs.State.{State};
ghost use Rattle.ix_lanes.specs.Calls.{next_turn};
ghost use Rattle.ix_lanes.specs.Progress.{Progress, is_asking};
ghost use Rattle.ix_lanes.specs.TurnView.{turn_of};
ghost use Rattle.ix_library.specs.StandsFor.{HasSlots, StandsFor};
ghost use Rattle.ix_turns.specs.Ended.{is_missed};
ghost use Rattle.ix_calls.specs.Calling.{IsNoted, made_failed, outcome_of, turn_failed};
ghost use Rattle.ix_calls.specs.Sound.{AreSound, IsSoundTurn};
ghost use Rattle.ix_calls.specs.Turns.{IsAtTurn, IsAtTurnThere, IsCall, IsTurnThere, is_asked};

use crate::builds::{lease, publish, put, stage};
use crate::others::{collect, load, release, remove};
use crate::polls::{adopt, import, scan};
use ix_dir::Dir;
use ix_import::Importer;
use ix_lanes::{Lane, Turn};
use ix_library::Library;
use ix_seats::Made;
use ix_types::{FileName, Memory, Naming};
use std::alloc::Global;

/// Makes the lane's next call, on the library and the importer; None where no step is left. The ask under way lacks that record. Answers Memory where memory is wanting, or
/// where the library isn't as the call wants it.
pub fn make<D: Dir, N: Naming>(
    alloc: Global,
    library: &mut Library<D, N>,
    importer: &mut Importer,
    number: u32,
    lane: &Lane,
    lacking: Option<FileName>,
) -> Result<Option<Made>, Memory>
    requires tasks { AreSound N.name_of lane.now.progress.tasks }
    requires ready { HasSlots library.old.ledger.kept (D.state library.old.dir) }
    requires asking { is_some lacking ≡ is_asking lane.now.progress }
    requires there { IsAtTurnThere N.name_of library.old.ledger.kept library.old.shelf library.old.known (D.state library.old.dir) number lane.now.progress importer.old lacking }
    ensures none { IfOk result (λ made. is_some made ≡ is_some (next_turn lane.now.progress)) }
    ensures same { IfOk result (λ made. made ≡ None → (library.new ≡ library.old) × (importer.new ≡ importer.old)) }
    ensures call { (s : State) → StandsFor N.name_of s library.old.ledger.kept library.old.shelf library.old.known (D.state library.old.dir) → IsAtTurn s number lane.now.progress importer.old lacking → IfOk result (λ made. IfSome made (λ m. IsCall N.name_of s number lane.now.progress library.old.ledger.events (D.state library.old.dir) m library.new.ledger.events library.new.ledger.kept library.new.shelf library.new.known (D.state library.new.dir) importer.old importer.new)) }
    ensures event { IfOk result (λ made. IsNoted library.old.ledger.events number made library.new.ledger.events) }
    ensures cause { (D.state library.new.dir).faults ≡ counted_where (made_failed result) (D.state library.old.dir).faults }
    ensures counted { OnOk result (AreCounted library.old.ledger.events (counts_of (D.state library.old.dir)) library.new.ledger.events (counts_of (D.state library.new.dir))) }
    ensures again { (s : State) → StandsFor N.name_of s library.old.ledger.kept library.old.shelf library.old.known (D.state library.old.dir) → OnErr result (StandsFor N.name_of s library.new.ledger.kept library.new.shelf library.new.known (D.state library.new.dir)) }
    ensures ready { HasSlots library.new.ledger.kept (D.state library.new.dir) }
    ensures told { (D.state library.old.dir).moves ≡ None → (D.state library.new.dir).moves ≡ None }
    ensures missed { IfOk result (λ made. IfSome made (λ m. is_missed (outcome_of m) ≡ true → (D.state library.old.dir).moves ≡ None)) }
{
    ix_counts::laws::counts_add_up();
    match lane.next() {
        None => Ok(None),
        Some(turn) => {
            let made = make_turn(alloc, library, importer, number, turn, lacking)?;
            Ok(Some(made))
        }
    }
}

/// Makes the call of a turn.
fn make_turn<D: Dir, N: Naming>(
    alloc: Global,
    library: &mut Library<D, N>,
    importer: &mut Importer,
    number: u32,
    turn: Turn<'_>,
    lacking: Option<FileName>,
) -> Result<Made, Memory>
    requires sound { IsSoundTurn N.name_of (turn_of turn) }
    requires ready { HasSlots library.old.ledger.kept (D.state library.old.dir) }
    requires asking { is_some lacking ≡ is_asked (turn_of turn) }
    requires there { IsTurnThere N.name_of library.old.ledger.kept library.old.shelf library.old.known (D.state library.old.dir) number (turn_of turn) importer.old lacking }
    ensures call { (s : State) (p : Progress) → StandsFor N.name_of s library.old.ledger.kept library.old.shelf library.old.known (D.state library.old.dir) → next_turn p ≡ Some (turn_of turn.entry) → IsAtTurn s number p importer.old lacking → IfOk result (λ made. IsCall N.name_of s number p library.old.ledger.events (D.state library.old.dir) made library.new.ledger.events library.new.ledger.kept library.new.shelf library.new.known (D.state library.new.dir) importer.old importer.new) }
    ensures event { IfOk result (λ made. IsNoted library.old.ledger.events number (Some made) library.new.ledger.events) }
    ensures cause { (D.state library.new.dir).faults ≡ counted_where (turn_failed result) (D.state library.old.dir).faults }
    ensures counted { OnOk result (AreCounted library.old.ledger.events (counts_of (D.state library.old.dir)) library.new.ledger.events (counts_of (D.state library.new.dir))) }
    ensures again { (s : State) → StandsFor N.name_of s library.old.ledger.kept library.old.shelf library.old.known (D.state library.old.dir) → OnErr result (StandsFor N.name_of s library.new.ledger.kept library.new.shelf library.new.known (D.state library.new.dir)) }
    ensures ready { HasSlots library.new.ledger.kept (D.state library.new.dir) }
    ensures told { (D.state library.old.dir).moves ≡ None → (D.state library.new.dir).moves ≡ None }
    ensures missed { IfOk result (λ made. is_missed (outcome_of made) ≡ true → (D.state library.old.dir).moves ≡ None) }
{
    ix_polls::laws::other_steps_leave_the_import();
    match turn {
        Turn::Lease(names) => lease(alloc, library, number, names),
        Turn::Put(body) => put(alloc, library, number, body),
        Turn::Stage(unit) => stage(alloc, library, number, unit),
        Turn::Publish => publish(alloc, library, number),
        Turn::Remove(output) => remove(alloc, library, number, output),
        Turn::Scan => scan(alloc, library, importer, number),
        Turn::Import => import(alloc, library, importer, number),
        Turn::Adopt => adopt(library, importer, number),
        Turn::Release => release(library, number),
        Turn::Collect => collect(alloc, library, number),
        Turn::Ask(_query) => match lacking {
            Some(name) => load(alloc, library, number, name),
            None => unreachable!(),
        },
    }
}
