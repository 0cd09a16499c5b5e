//! A scan of the units and a load of a record, over a directory that holds a state of the machine and over any other.
ghost use Rattle.std.specs.Prelude.{◌≡◌, ◌⊎◌, ℕ, List, map, true, All, IfOk, IfSome, OnOk, Err, None};
ghost use Rattle.std.specs.List.Sorted.{IsStrictlySortedBy};
ghost use Rattle.ix_types.specs.Count.{counted};
ghost use Rattle.ix_types.specs.Row.{text_cmp};
ghost use Rattle.ix_dir.specs.State.{counted_where};
ghost use Rattle.ix_shelf.specs.Answers.{load_failed, StandsWhole, IsRecordOf};
ghost use Rattle.ix_shelf.specs.Shelf.{OnShelf};
ghost use Rattle.ix_cabinet.specs.Scan.{changed, gone, scan_failed, IsNamedUnit, HoldsUnits};
ghost use Rattle.ix_model.specs.Units.{Units};
ghost use Rattle.ix_answers.specs.Batches.{LeadsTo};
ghost use Rattle.ix_machine.specs.Needs.{units_need, visible};
ghost use Rattle.ix_machine.specs.Sound.{RecordsStand};
ghost use Rattle.ix_machine.specs.State.{State};
ghost use Rattle.ix_changes.specs.Holds.{Holds};
ghost use Rattle.ix_changes.specs.Stamps.{AreStampsOf};
ghost use Rattle.ix_looks.specs.Values.{HasValue};

use crate::laws;
use ix_cabinet::{ScanError, Scanned, Stamps};
use ix_dir::Dir;
use ix_record::RecordValue;
use ix_shelf::{LoadError, Shelf};
use ix_types::{FileName, Naming};
use std::alloc::Global;
use std::sync::Arc;

/// Looks through the unit files for what changed since the stamps were known. Where the directory holds a state, and the stamps are those of some
/// units, the batch leads from these to the visible ones. Only changed files are read.
pub fn scan<D: Dir, N: Naming>(
    alloc: Global,
    dir: &mut D,
    naming: &N,
    known: &Stamps,
) -> Result<Scanned, ScanError>
    requires { IfSome (D.state dir.old).moves (HoldsUnits N.name_of) }
    // Over a directory that holds a state.
    ensures leads { (s : State) (shelf : OnShelf) (before : Units) → Holds N.name_of s shelf (D.state dir.old).moves → IfSome (D.state dir.old).moves (AreStampsOf N.name_of before known.now) → IfOk result (λ scanned. LeadsTo scanned.batch.puts scanned.batch.gone before (visible s)) }
    ensures stamps { (s : State) (shelf : OnShelf) → Holds N.name_of s shelf (D.state dir.old).moves → IfOk result (λ scanned. IfSome (D.state dir.new).moves (AreStampsOf N.name_of (visible s) scanned.stamps)) }

    // Over each directory: the names of the units are those whose stamp isn't the known one, and the names gone are known and have none any more.
    ensures changed { IfOk result (λ scanned. map (λ p. p.name) scanned.batch.puts ≡ changed known.now scanned.stamps) }
    ensures gone { IfOk result (λ scanned. scanned.batch.gone ≡ gone known.now scanned.stamps) }
    ensures puts_rise { IfOk result (λ scanned. IsStrictlySortedBy text_cmp (map (λ p. p.name) scanned.batch.puts)) }
    ensures gone_rise { IfOk result (λ scanned. IsStrictlySortedBy text_cmp scanned.batch.gone) }
    ensures units { IfOk result (λ scanned. All (IsNamedUnit N.name_of) scanned.batch.puts) }

    // Two counts alone change. An answer, and a file that is missing or isn't its unit's, come from a list that was made.
    ensures state { D.state dir.new ≡ record (D.state dir.old) { faults = counted_where (scan_failed result) (D.state dir.old).faults; listings = (D.state dir.new).listings } }
    ensures listed { OnOk result ((D.state dir.new).listings ≡ counted (D.state dir.old).listings) }
    ensures lost { (n : List ℕ) → result ≡ Err (ScanError.Lost n) → ((D.state dir.old).moves ≡ None) × ((D.state dir.new).listings ≡ counted (D.state dir.old).listings) }
    ensures damaged { (n : List ℕ) → result ≡ Err (ScanError.Damaged n) → ((D.state dir.old).moves ≡ None) × ((D.state dir.new).listings ≡ counted (D.state dir.old).listings) }
    ensures once { ((D.state dir.new).listings ≡ (D.state dir.old).listings) ⊎ ((D.state dir.new).listings ≡ counted (D.state dir.old).listings) }
{
    laws::given();
    ix_cabinet::scan(alloc, dir, naming, known)
}

/// Reads the record of a name anew. Where the directory holds a state, and the records of some units that need it stand, it has the value that these
/// have for the name.
pub fn load<D: Dir, N: Naming>(
    alloc: Global,
    dir: &mut D,
    shelf: &Shelf,
    naming: &N,
    name: FileName,
) -> Result<Arc<RecordValue>, LoadError>
    requires { IfSome (D.state dir.old).moves (StandsWhole N.name_of name) }
    // Over a directory that holds a state.
    ensures needed { (s : State) (on_shelf : OnShelf) (units : Units) → Holds N.name_of s on_shelf (D.state dir.old).moves → RecordsStand N.name_of s.records units → units_need name units ≡ true → IfOk result (λ value. HasValue units name value.value) }

    // Over each directory: the value is spelled by bytes of this name, which stand there where the moves are told.
    ensures value { IfOk result (λ value. IsRecordOf N.name_of name (D.state dir.old).moves value.value) }

    // Two counts alone change. An answer comes from a file that was found; nothing was found under a name that is lost.
    ensures state { D.state dir.new ≡ record (D.state dir.old) { faults = counted_where (load_failed result) (D.state dir.old).faults; finds = (D.state dir.new).finds } }
    ensures read { OnOk result ((D.state dir.new).finds ≡ counted (D.state dir.old).finds) }
    ensures lost { (n : List ℕ) → result ≡ Err (LoadError.Lost n) → (n ≡ name) × ((D.state dir.old).moves ≡ None) × ((D.state dir.new).finds ≡ (D.state dir.old).finds) }
    ensures damaged { (n : List ℕ) → result ≡ Err (LoadError.Damaged n) → (n ≡ name) × ((D.state dir.old).moves ≡ None) × ((D.state dir.new).finds ≡ counted (D.state dir.old).finds) }
    ensures once { ((D.state dir.new).finds ≡ (D.state dir.old).finds) ⊎ ((D.state dir.new).finds ≡ counted (D.state dir.old).finds) }
{
    laws::given();
    shelf.load(alloc, dir, naming, name)
}
