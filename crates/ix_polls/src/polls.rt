//! The turns of a poll, and refreshes.
ghost use Rattle.std.specs.Prelude.{◌≡◌, ◌<◌, ℕ, length, true, None, Some, IfOk, IsSome, OnOk, OnErr, is_some, option_map};
ghost use Rattle.ix_dir.specs.State.{counted_where};
ghost use Rattle.ix_counts.specs.Counting.{AreCounted, counts_of};
ghost use Rattle.ix_machine.specs.declared.event.Call.TheVariants as call;
ghost use Rattle.ix_machine.specs.Given as calls;
ghost use Rattle.ix_machine.specs.State.{State};
ghost use Rattle.ix_ledger.specs.Registered.{has_opened};
ghost use Rattle.ix_library.specs.Endings.{with_event};
ghost use Rattle.ix_library.specs.Looks.{MayLoadThere, StandsThere};
ghost use Rattle.ix_library.specs.StandsFor.{HasSlots, StandsFor};
ghost use Rattle.ix_import.specs.Importing.{next_of};
ghost use Rattle.ix_lanes.specs.Calls as turn;
ghost use Rattle.ix_lanes.specs.Calls.{load_or_install, next_turn};
ghost use Rattle.ix_lanes.specs.Progress.{Progress};
ghost use Rattle.ix_turns.specs.Ended.{call_failed, is_missed};
ghost use Rattle.ix_polls.specs.Following.{IsImporting, IsUnderWay};
ghost use Rattle.ix_polls.specs.Polling.{FollowsThere, Polls, followed, import_shows, loaded_into, poll_ends, version_of};

use crate::laws::given;
use crate::polled::Polled;
use ix_dir::Dir;
use ix_import::Importer;
use ix_library::Library;
use ix_machine::Purpose;
use ix_record::RecordValue;
use ix_turns::{Loaded, Scanned};
use ix_types::{FileName, Memory, Naming};
use ix_unit::Scan;
use std::alloc::Global;
use std::sync::Arc;

/// Scans the units, and opens an import of them; where the scan fails none is open.
pub fn scan<D: Dir, N: Naming>(
    alloc: Global,
    library: &mut Library<D, N>,
    importer: &mut Importer,
    lane: u32,
) -> Result<Polled, Memory>
    requires { StandsThere N.name_of library.old.ledger.kept library.old.shelf library.old.known (D.state library.old.dir) }
    ensures step { (s : State) (p : Progress) → StandsFor N.name_of s library.old.ledger.kept library.old.shelf library.old.known (D.state library.old.dir) → IsImporting s importer.old → next_turn p ≡ Some turn.Scan
        → IfOk result (λ made. Polls N.name_of s lane p calls.Scan made.outcome (version_of made) (D.state library.old.dir) library.new.ledger.kept library.new.shelf library.new.known (D.state library.new.dir) importer.new) }
    ensures event { IfOk result (λ made. library.new.ledger.events ≡ with_event library.old.ledger.events lane call.Scan (Some made.outcome)) }
    ensures cause { (D.state library.new.dir).faults ≡ counted_where (call_failed (poll_ends result)) (D.state library.old.dir).faults }
    ensures counted { OnOk result (AreCounted library.old.ledger.events (counts_of (D.state library.old.dir)) library.new.ledger.events (counts_of (D.state library.new.dir))) }
    ensures again { (s : State) → StandsFor N.name_of s library.old.ledger.kept library.old.shelf library.old.known (D.state library.old.dir) → OnErr result (StandsFor N.name_of s library.new.ledger.kept library.new.shelf library.new.known (D.state library.new.dir)) }
    ensures ready { HasSlots library.old.ledger.kept (D.state library.old.dir) → HasSlots library.new.ledger.kept (D.state library.new.dir) }
    ensures told { (D.state library.old.dir).moves ≡ None → (D.state library.new.dir).moves ≡ None }
    ensures missed { IfOk result (λ made. is_missed made.outcome ≡ true → (D.state library.old.dir).moves ≡ None) }
{
    given();
    ix_turns::laws::calls_are_counted();
    let made = ix_turns::scan(alloc, library, lane)?;
    let Scanned { outcome, scan } = made;
    follow(importer, scan);
    Ok(Polled {
        outcome,
        version: None,
    })
}

/// An import of the scan is open; where there is none, no import is.
fn follow(importer: &mut Importer, scan: Option<Scan>)
    ensures { importer.new ≡ followed scan importer.old }
{
    match scan {
        Some(scan) => importer.begin(scan),
        None => importer.abandon(),
    }
}

/// Loads the next new record of the open import, or installs it where none is left.
pub fn import<D: Dir, N: Naming>(
    alloc: Global,
    library: &mut Library<D, N>,
    importer: &mut Importer,
    lane: u32,
) -> Result<Polled, Memory>
    requires { FollowsThere N.name_of library.old.ledger.kept library.old.shelf library.old.known (D.state library.old.dir) importer.old }
    ensures step { (s : State) (p : Progress) → StandsFor N.name_of s library.old.ledger.kept library.old.shelf library.old.known (D.state library.old.dir) → IsImporting s importer.old → IsUnderWay s lane p.doing importer.old → next_turn p ≡ Some turn.Import
        → IfOk result (λ made. Polls N.name_of s lane p (load_or_install (next_of importer.old)) made.outcome (version_of made) (D.state library.old.dir) library.new.ledger.kept library.new.shelf library.new.known (D.state library.new.dir) importer.new) }
    ensures event { IfOk result (λ made. library.new.ledger.events ≡ with_event library.old.ledger.events lane (import_shows (next_of importer.old)) (Some made.outcome)) }
    ensures cause { (D.state library.new.dir).faults ≡ counted_where (call_failed (poll_ends result)) (D.state library.old.dir).faults }
    ensures counted { OnOk result (AreCounted library.old.ledger.events (counts_of (D.state library.old.dir)) library.new.ledger.events (counts_of (D.state library.new.dir))) }
    ensures again { (s : State) → StandsFor N.name_of s library.old.ledger.kept library.old.shelf library.old.known (D.state library.old.dir) → OnErr result (StandsFor N.name_of s library.new.ledger.kept library.new.shelf library.new.known (D.state library.new.dir)) }
    ensures ready { HasSlots library.old.ledger.kept (D.state library.old.dir) → HasSlots library.new.ledger.kept (D.state library.new.dir) }
    ensures told { (D.state library.old.dir).moves ≡ None → (D.state library.new.dir).moves ≡ None }
    ensures missed { IfOk result (λ made. is_missed made.outcome ≡ true → (D.state library.old.dir).moves ≡ None) }
{
    given();
    match importer.next_new() {
        Some(name) => load_new(alloc, library, importer, lane, name),
        None => install(alloc, library, importer, lane),
    }
}

/// Loads a new record of the open import, and takes it; where the load fails none is open.
fn load_new<D: Dir, N: Naming>(
    alloc: Global,
    library: &mut Library<D, N>,
    importer: &mut Importer,
    lane: u32,
    name: FileName,
) -> Result<Polled, Memory>
    requires may { MayLoadThere N.name_of library.old.ledger.kept library.old.shelf library.old.known (D.state library.old.dir) lane name Purpose.Import }
    requires next { next_of importer.old ≡ Some name }
    ensures step { (s : State) (p : Progress) → StandsFor N.name_of s library.old.ledger.kept library.old.shelf library.old.known (D.state library.old.dir) → IsImporting s importer.old → IsUnderWay s lane p.doing importer.old → next_turn p ≡ Some turn.Import
        → IfOk result (λ made. Polls N.name_of s lane p (calls.Load name Purpose.Import) made.outcome (version_of made) (D.state library.old.dir) library.new.ledger.kept library.new.shelf library.new.known (D.state library.new.dir) importer.new) }
    ensures event { IfOk result (λ made. library.new.ledger.events ≡ with_event library.old.ledger.events lane (call.Load name) (Some made.outcome)) }
    ensures cause { (D.state library.new.dir).faults ≡ counted_where (call_failed (poll_ends result)) (D.state library.old.dir).faults }
    ensures counted { OnOk result (AreCounted library.old.ledger.events (counts_of (D.state library.old.dir)) library.new.ledger.events (counts_of (D.state library.new.dir))) }
    ensures again { (s : State) → StandsFor N.name_of s library.old.ledger.kept library.old.shelf library.old.known (D.state library.old.dir) → OnErr result (StandsFor N.name_of s library.new.ledger.kept library.new.shelf library.new.known (D.state library.new.dir)) }
    ensures ready { HasSlots library.old.ledger.kept (D.state library.old.dir) → HasSlots library.new.ledger.kept (D.state library.new.dir) }
    ensures told { (D.state library.old.dir).moves ≡ None → (D.state library.new.dir).moves ≡ None }
    ensures missed { IfOk result (λ made. is_missed made.outcome ≡ true → (D.state library.old.dir).moves ≡ None) }
{
    given();
    ix_turns::laws::calls_are_counted();
    let made = ix_turns::load(alloc, library, lane, name, Purpose::Import)?;
    let Loaded { outcome, body } = made;
    match take_or_close(alloc, importer, name, body) {
        Ok(_taken) => Ok(Polled {
            outcome,
            version: None,
        }),
        Err(wanting) => Err(wanting),
    }
}

/// The loaded record is taken; where there is none, no import is open.
fn take_or_close(
    alloc: Global,
    importer: &mut Importer,
    name: FileName,
    body: Option<Arc<RecordValue>>,
) -> Result<(), Memory>
    requires { next_of importer.old ≡ Some name }
    ensures ok { OnOk result (importer.new ≡ loaded_into name (option_map (λ b. b.value) body) importer.old) }
    ensures err { OnErr result (is_some body ≡ true) }
{
    match body {
        Some(body) => importer.take(alloc, name, &body),
        None => {
            importer.abandon();
            Ok(())
        }
    }
}

/// Makes the open import, all of whose new records were taken, the current version, which the lane then holds.
fn install<D: Dir, N: Naming>(
    alloc: Global,
    library: &mut Library<D, N>,
    importer: &mut Importer,
    lane: u32,
) -> Result<Polled, Memory>
    requires { next_of importer.old ≡ None }
    ensures step { (s : State) (p : Progress) → StandsFor N.name_of s library.old.ledger.kept library.old.shelf library.old.known (D.state library.old.dir) → IsImporting s importer.old → IsUnderWay s lane p.doing importer.old → next_turn p ≡ Some turn.Import
        → IfOk result (λ made. Polls N.name_of s lane p calls.Install made.outcome (version_of made) (D.state library.old.dir) library.new.ledger.kept library.new.shelf library.new.known (D.state library.new.dir) importer.new) }
    ensures event { IfOk result (λ made. library.new.ledger.events ≡ with_event library.old.ledger.events lane call.Install (Some made.outcome)) }
    ensures cause { (D.state library.new.dir).faults ≡ counted_where (call_failed (poll_ends result)) (D.state library.old.dir).faults }
    ensures counted { OnOk result (AreCounted library.old.ledger.events (counts_of (D.state library.old.dir)) library.new.ledger.events (counts_of (D.state library.new.dir))) }
    ensures again { (s : State) → StandsFor N.name_of s library.old.ledger.kept library.old.shelf library.old.known (D.state library.old.dir) → OnErr result (StandsFor N.name_of s library.new.ledger.kept library.new.shelf library.new.known (D.state library.new.dir)) }
    ensures ready { HasSlots library.old.ledger.kept (D.state library.old.dir) → HasSlots library.new.ledger.kept (D.state library.new.dir) }
    ensures told { (D.state library.old.dir).moves ≡ None → (D.state library.new.dir).moves ≡ None }
    ensures missed { IfOk result (λ made. is_missed made.outcome ≡ true → (D.state library.old.dir).moves ≡ None) }
{
    given();
    ix_turns::laws::calls_are_counted();
    if !can_install(library, importer, lane) {
        return Err(Memory);
    }
    let version = importer.finish(alloc)?;
    let outcome = ix_turns::install(library, lane)?;
    Ok(Polled {
        outcome,
        version: Some(version),
    })
}

/// Whether an import is open, in the importer and in the library, and there is such a lane, which opened it.
fn can_install<D: Dir, N: Naming>(library: &Library<D, N>, importer: &Importer, lane: u32) -> bool
    ensures open { result ≡ true → IsSome importer.now.import }
    ensures lane { result ≡ true → lane < length library.now.ledger.kept.guard.leases }
    ensures own { result ≡ true → has_opened library.now.ledger.kept lane ≡ true }
{
    importer.is_open() && library.has_lane(lane) && library.has_import(lane)
}

/// The lane takes up the current version.
pub fn adopt<D: Dir, N: Naming>(
    library: &mut Library<D, N>,
    importer: &Importer,
    lane: u32,
) -> Result<Polled, Memory>
    ensures step { (s : State) (p : Progress) → StandsFor N.name_of s library.old.ledger.kept library.old.shelf library.old.known (D.state library.old.dir) → IsImporting s importer.now → next_turn p ≡ Some turn.Adopt
        → IfOk result (λ made. Polls N.name_of s lane p calls.Adopt made.outcome (version_of made) (D.state library.old.dir) library.new.ledger.kept library.new.shelf library.new.known (D.state library.new.dir) importer.now) }
    ensures event { IfOk result (λ made. library.new.ledger.events ≡ with_event library.old.ledger.events lane call.Adopt (Some made.outcome)) }
    ensures cause { (D.state library.new.dir).faults ≡ counted_where (call_failed (poll_ends result)) (D.state library.old.dir).faults }
    ensures counted { OnOk result (AreCounted library.old.ledger.events (counts_of (D.state library.old.dir)) library.new.ledger.events (counts_of (D.state library.new.dir))) }
    ensures again { (s : State) → StandsFor N.name_of s library.old.ledger.kept library.old.shelf library.old.known (D.state library.old.dir) → OnErr result (StandsFor N.name_of s library.new.ledger.kept library.new.shelf library.new.known (D.state library.new.dir)) }
    ensures ready { HasSlots library.old.ledger.kept (D.state library.old.dir) → HasSlots library.new.ledger.kept (D.state library.new.dir) }
    ensures told { (D.state library.old.dir).moves ≡ None → (D.state library.new.dir).moves ≡ None }
    ensures missed { IfOk result (λ made. is_missed made.outcome ≡ true → (D.state library.old.dir).moves ≡ None) }
{
    given();
    ix_turns::laws::calls_are_counted();
    if !library.has_lane(lane) {
        return Err(Memory);
    }
    let current = Arc::try_clone(importer.version())?;
    let outcome = ix_turns::adopt(library, lane)?;
    Ok(Polled {
        outcome,
        version: Some(current),
    })
}
