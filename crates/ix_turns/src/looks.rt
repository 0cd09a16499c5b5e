//! Scans and loads.
ghost use Rattle.std.specs.Prelude.{◌≡◌, ℕ, List, filter, not, true, false, None, Some, IfOk, IfSome, OnErr, is_some};
ghost use Rattle.ix_dir.specs.State.{counted_where};
ghost use Rattle.ix_model.specs.Units.{needs};
ghost use Rattle.ix_answers.specs.Batches.{LeadsTo, HaveOneValue};
ghost use Rattle.ix_shelf.specs.declared.fault.LoadError.TheVariants as load_error;
ghost use Rattle.ix_cabinet.specs.declared.fault.ScanError.TheVariants as scan_error;
ghost use Rattle.ix_machine.specs.declared.event.Call.TheVariants as call;
ghost use Rattle.ix_machine.specs.declared.event.Outcome.TheVariants as outcome;
ghost use Rattle.ix_machine.specs.Given as given;
ghost use Rattle.ix_machine.specs.Needs.{has_name, seen_at};
ghost use Rattle.ix_machine.specs.Run.{MayLoad};
ghost use Rattle.ix_machine.specs.State.{State, Import, held_by};
ghost use Rattle.ix_looks.specs.Values.{HasValue};
ghost use Rattle.ix_library.specs.Endings.{flag_for, with_event};
ghost use Rattle.ix_library.specs.LookEndings.{load_flag, scan_flag};
ghost use Rattle.ix_library.specs.Looks.{MayLoadThere, StandsThere};
ghost use Rattle.ix_library.specs.StandsFor.{HasSlots, StandsFor, Takes};
ghost use Rattle.ix_counts.specs.Counting.{RoseWhere, says_loaded, says_scanned};
ghost use Rattle.ix_turns.specs.Ended.{call_failed, ending, is_missed};
ghost use Rattle.ix_turns.specs.Looks.{load_ends, look_failed, scan_ends};

use ix_cabinet::ScanError;
use ix_dir::Dir;
use ix_library::Library;
use ix_machine::{Outcome, Purpose};
use ix_record::RecordValue;
use ix_shelf::LoadError;
use ix_types::{FileName, Memory, Naming};
use ix_unit::Scan;
use std::alloc::Global;
use std::sync::Arc;

/// How a scan ended, and what it found where it didn't fail.
#[derive(Drop)]
pub struct Scanned {
    pub outcome: Outcome,
    pub scan: Option<Scan>,
}

/// How a load ended, and the record where it didn't fail.
#[derive(Drop)]
pub struct Loaded {
    pub outcome: Outcome,
    pub body: Option<Arc<RecordValue>>,
}

/// Looks through the unit files, and opens an import for the lane.
pub fn scan<D: Dir, N: Naming>(
    alloc: Global,
    library: &mut Library<D, N>,
    lane: u32,
) -> Result<Scanned, Memory>
    requires { StandsThere N.name_of library.old.ledger.kept library.old.shelf library.old.known (D.state library.old.dir) }
    ensures step { (s : State) → StandsFor N.name_of s library.old.ledger.kept library.old.shelf library.old.known (D.state library.old.dir) → IfOk result (λ made. Takes N.name_of s lane given.Scan (flag_for made.outcome) made.outcome (D.state library.old.dir) library.new.ledger.kept library.new.shelf library.new.known (D.state library.new.dir)) }
    ensures leads { (s : State) → StandsFor N.name_of s library.old.ledger.kept library.old.shelf library.old.known (D.state library.old.dir) → IfOk result (λ made. IfSome made.scan (λ scan. LeadsTo scan.batch.puts scan.batch.gone (seen_at s s.current) (seen_at s scan.mark))) }
    ensures fresh { (s : State) → StandsFor N.name_of s library.old.ledger.kept library.old.shelf library.old.known (D.state library.old.dir) → IfOk result (λ made. IfSome made.scan (λ scan. scan.fresh ≡ filter (λ name. not (has_name name (needs (seen_at s s.current)))) (needs (seen_at s scan.mark)))) }
    ensures values { (s : State) → StandsFor N.name_of s library.old.ledger.kept library.old.shelf library.old.known (D.state library.old.dir) → IfOk result (λ made. IfSome made.scan (λ scan. HaveOneValue (seen_at s s.current) (seen_at s scan.mark))) }
    ensures mark { IfOk result (λ made. IfSome made.scan (λ scan. made.outcome ≡ outcome.At scan.mark)) }
    ensures found { IfOk result (λ made. is_some made.scan ≡ not (look_failed made.outcome)) }
    ensures event { library.new.ledger.events ≡ with_event library.old.ledger.events lane call.Scan (scan_ends result) }
    ensures cause { (D.state library.new.dir).faults ≡ counted_where (call_failed (scan_ends result)) (D.state library.old.dir).faults }
    ensures finds { RoseWhere (says_loaded call.Scan (scan_ends result)) (D.state library.old.dir).finds (D.state library.new.dir).finds }
    ensures listings { RoseWhere (says_scanned call.Scan (scan_ends result)) (D.state library.old.dir).listings (D.state library.new.dir).listings }
    ensures again { (s : State) → StandsFor N.name_of s library.old.ledger.kept library.old.shelf library.old.known (D.state library.old.dir) → OnErr result (StandsFor N.name_of s library.new.ledger.kept library.new.shelf library.new.known (D.state library.new.dir)) }
    ensures ready { HasSlots library.old.ledger.kept (D.state library.old.dir) → HasSlots library.new.ledger.kept (D.state library.new.dir) }
    ensures told { (D.state library.old.dir).moves ≡ None → (D.state library.new.dir).moves ≡ None }
    ensures missed { IfOk result (λ made. is_missed made.outcome ≡ true → (D.state library.old.dir).moves ≡ None) }
{
    match library.scan(alloc, lane) {
        Ok(scan) => Ok(Scanned {
            outcome: Outcome::At { mark: scan.mark },
            scan: Some(scan),
        }),
        Err(error) => {
            let outcome = scan_failed_as(&error)?;
            Ok(Scanned {
                outcome,
                scan: None,
            })
        }
    }
}

/// How a scan ended that failed.
fn scan_failed_as(error: &ScanError) -> Result<Outcome, Memory>
    ensures ending { ending result ≡ scan_flag error.now }
    ensures failed { IfOk result (λ how. look_failed how ≡ true) }
    ensures memory { OnErr result (error.now ≡ scan_error.Memory) }
    ensures listings { (before after : ℕ) → RoseWhere false before after → RoseWhere (says_scanned call.Scan (ending result)) before after }
{
    match error {
        ScanError::Fault => Ok(Outcome::Fault),
        ScanError::Lost { name } => Ok(Outcome::Lost { name: *name }),
        ScanError::Damaged { name } => Ok(Outcome::Damaged { name: *name }),
        ScanError::Memory => Err(Memory),
    }
}

/// Reads a record anew.
pub fn load<D: Dir, N: Naming>(
    alloc: Global,
    library: &mut Library<D, N>,
    lane: u32,
    name: FileName,
    purpose: Purpose,
) -> Result<Loaded, Memory>
    requires { MayLoadThere N.name_of library.old.ledger.kept library.old.shelf library.old.known (D.state library.old.dir) lane name purpose }
    ensures imported { (s : State) (open_import : Import) → StandsFor N.name_of s library.old.ledger.kept library.old.shelf library.old.known (D.state library.old.dir) → MayLoad s lane name purpose → purpose ≡ Purpose.Import → s.import ≡ Some open_import → IfOk result (λ made. IfSome made.body (λ body. HasValue (seen_at s open_import.mark) name body.value)) }
    ensures asked { (s : State) (mark : ℕ) → StandsFor N.name_of s library.old.ledger.kept library.old.shelf library.old.known (D.state library.old.dir) → MayLoad s lane name purpose → purpose ≡ Purpose.Ask → held_by s lane ≡ Some mark → IfOk result (λ made. IfSome made.body (λ body. HasValue (seen_at s mark) name body.value)) }
    ensures step { (s : State) → StandsFor N.name_of s library.old.ledger.kept library.old.shelf library.old.known (D.state library.old.dir) → MayLoad s lane name purpose → IfOk result (λ made. Takes N.name_of s lane (given.Load name purpose) (flag_for made.outcome) made.outcome (D.state library.old.dir) library.new.ledger.kept library.new.shelf library.new.known (D.state library.new.dir)) }
    ensures done { IfOk result (λ made. IfSome made.body (λ body. made.outcome ≡ outcome.Done)) }
    ensures found { IfOk result (λ made. is_some made.body ≡ not (look_failed made.outcome)) }
    ensures stays { (s : State) → StandsFor N.name_of s library.old.ledger.kept library.old.shelf library.old.known (D.state library.old.dir) → IfOk result (λ made. IfSome made.body (λ body. StandsFor N.name_of s library.new.ledger.kept library.new.shelf library.new.known (D.state library.new.dir))) }
    ensures event { library.new.ledger.events ≡ with_event library.old.ledger.events lane (call.Load name) (load_ends result) }
    ensures cause { (D.state library.new.dir).faults ≡ counted_where (call_failed (load_ends result)) (D.state library.old.dir).faults }
    ensures finds { RoseWhere (says_loaded (call.Load name) (load_ends result)) (D.state library.old.dir).finds (D.state library.new.dir).finds }
    ensures listings { RoseWhere (says_scanned (call.Load name) (load_ends result)) (D.state library.old.dir).listings (D.state library.new.dir).listings }
    ensures again { (s : State) → StandsFor N.name_of s library.old.ledger.kept library.old.shelf library.old.known (D.state library.old.dir) → OnErr result (StandsFor N.name_of s library.new.ledger.kept library.new.shelf library.new.known (D.state library.new.dir)) }
    ensures ready { HasSlots library.old.ledger.kept (D.state library.old.dir) → HasSlots library.new.ledger.kept (D.state library.new.dir) }
    ensures told { (D.state library.old.dir).moves ≡ None → (D.state library.new.dir).moves ≡ None }
    ensures missed { IfOk result (λ made. is_missed made.outcome ≡ true → (D.state library.old.dir).moves ≡ None) }
{
    match library.load(alloc, lane, name, purpose) {
        Ok(body) => Ok(Loaded {
            outcome: Outcome::Done,
            body: Some(body),
        }),
        Err(error) => {
            let outcome = load_failed_as(&error)?;
            Ok(Loaded {
                outcome,
                body: None,
            })
        }
    }
}

/// How a load ended that failed.
fn load_failed_as(error: &LoadError) -> Result<Outcome, Memory>
    ensures ending { ending result ≡ load_flag error.now }
    ensures failed { IfOk result (λ how. look_failed how ≡ true) }
    ensures memory { OnErr result (error.now ≡ load_error.Memory) }
    ensures finds { (name : List ℕ) (before after : ℕ) → RoseWhere false before after → RoseWhere (says_loaded (call.Load name) (ending result)) before after }
{
    match error {
        LoadError::Fault => Ok(Outcome::Fault),
        LoadError::Lost { name } => Ok(Outcome::Lost { name: *name }),
        LoadError::Damaged { name } => Ok(Outcome::Damaged { name: *name }),
        LoadError::Memory => Err(Memory),
    }
}
