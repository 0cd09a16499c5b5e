//! A look through the unit files for what changed.
ghost use Rattle.std.specs.Prelude.{◌≡◌, ◌⊎◌, ℕ, List, [], ◌∷◌, ◌++◌, map, All, Contains, IsSome, IfOk, IfErr, IfSome, OnOk, Err, None};
ghost use Rattle.std.specs.FinMap.{from_sorted};
ghost use Rattle.std.specs.List.Sorted.{IsStrictlySortedBy};
ghost use Rattle.ix_types.specs.Count.{counted};
ghost use Rattle.ix_types.specs.Row.{text_cmp};
ghost use Rattle.ix_dir.specs.declared.area.Area.TheVariants.{Units};
ghost use Rattle.ix_dir.specs.Files.{bytes_at, rows_of, IsRising};
ghost use Rattle.ix_dir.specs.Moves.{area_after};
ghost use Rattle.ix_dir.specs.Stamps.{HasFreshStamps};
ghost use Rattle.ix_dir.specs.State.{counted_where};
ghost use Rattle.ix_cabinet.specs.Scan.{stamps_in, unknown, changed, gone, scan_failed, StandsAt, IsUnitAt, IsNamedUnit, IsUnitFile, HoldsUnits};
ghost use Rattle.ix_unit.specs.Spelling.{UnitSpelling};

use crate::fault::ScanError;
use crate::stamps::Stamps;
use ix_dir::{Area, Dir, Listed};
use ix_types::{FileName, Naming, Seq};
use ix_unit::{Batch, UnitError, UnitPut, UnitValue, decode};
use std::alloc::Global;
use std::sync::Arc;

/// What changed among the unit files, and their stamps now.
#[derive(Debug, Drop)]
pub struct Scanned {
    pub batch: Batch,
    pub stamps: Stamps,
}

/// The units whose file changed since the stamps were known, and the names whose file is gone, both in rising order.
/// Only changed files are read. Over a directory that tells its moves, each file of the units area is that of a unit of its name.
pub fn scan<D: Dir, N: Naming>(
    alloc: Global,
    dir: &mut D,
    naming: &N,
    known: &Stamps,
) -> Result<Scanned, ScanError>
    requires { IfSome (D.state dir.old).moves (HoldsUnits N.name_of) }
    // The names of the units, and the names gone, by the stamps that are known and those that there are now.
    ensures changed { IfOk result (λ scanned. map (λ p. p.name) scanned.batch.puts ≡ changed known.now scanned.stamps) }
    ensures gone { IfOk result (λ scanned. scanned.batch.gone ≡ gone known.now scanned.stamps) }
    ensures puts_rise { IfOk result (λ scanned. IsStrictlySortedBy text_cmp (map (λ p. p.name) scanned.batch.puts)) }
    ensures gone_rise { IfOk result (λ scanned. IsStrictlySortedBy text_cmp scanned.batch.gone) }
    ensures units { IfOk result (λ scanned. All (IsNamedUnit N.name_of) scanned.batch.puts) }

    // What is said of the files, where the directory tells its moves.
    ensures stamps { IfOk result (λ scanned. IfSome (D.state dir.old).moves (λ m. scanned.stamps ≡ stamps_in (area_after m Units))) }
    ensures fresh { OnOk result (IfSome (D.state dir.old).moves HasFreshStamps) }
    ensures at { IfOk result (λ scanned. IfSome (D.state dir.old).moves (λ m. All (IsUnitAt (area_after m Units)) scanned.batch.puts)) }

    // Of the directory two counts alone change. An answer, and a file that is missing or isn't its unit's, come from a list that was made.
    ensures state { D.state dir.new ≡ record (D.state dir.old) { faults = counted_where (scan_failed result) (D.state dir.old).faults; listings = (D.state dir.new).listings } }
    ensures listed { OnOk result ((D.state dir.new).listings ≡ counted (D.state dir.old).listings) }
    ensures lost { (n : List ℕ) → result ≡ Err (ScanError.Lost n) → ((D.state dir.old).moves ≡ None) × ((D.state dir.new).listings ≡ counted (D.state dir.old).listings) }
    ensures damaged { (n : List ℕ) → result ≡ Err (ScanError.Damaged n) → ((D.state dir.old).moves ≡ None) × ((D.state dir.new).listings ≡ counted (D.state dir.old).listings) }
    ensures once { ((D.state dir.new).listings ≡ (D.state dir.old).listings) ⊎ ((D.state dir.new).listings ≡ counted (D.state dir.old).listings) }
{
    let listed = dir.list(alloc, Area::Units)?;
    scan_listed(alloc, dir, naming, known, listed.as_slice())
}

/// The same, by a list of the units area that was made. A file that is lost or damaged is a listed one.
pub fn scan_listed<D: Dir, N: Naming>(
    alloc: Global,
    dir: &mut D,
    naming: &N,
    known: &Stamps,
    listed: &[Listed],
) -> Result<Scanned, ScanError>
    requires rising { IsRising listed.now }
    requires units { IfSome (D.state dir.old).moves (HoldsUnits N.name_of) }
    requires stands { IfSome (D.state dir.old).moves (λ m. All (StandsAt (area_after m Units)) listed.now) }
    ensures stamps { IfOk result (λ scanned. scanned.stamps ≡ from_sorted (rows_of listed.now)) }
    ensures changed { IfOk result (λ scanned. map (λ p. p.name) scanned.batch.puts ≡ changed known.now scanned.stamps) }
    ensures gone { IfOk result (λ scanned. scanned.batch.gone ≡ gone known.now scanned.stamps) }
    ensures puts_rise { IfOk result (λ scanned. IsStrictlySortedBy text_cmp (map (λ p. p.name) scanned.batch.puts)) }
    ensures gone_rise { IfOk result (λ scanned. IsStrictlySortedBy text_cmp scanned.batch.gone) }
    ensures units { IfOk result (λ scanned. All (IsNamedUnit N.name_of) scanned.batch.puts) }
    ensures at { IfOk result (λ scanned. IfSome (D.state dir.old).moves (λ m. All (IsUnitAt (area_after m Units)) scanned.batch.puts)) }

    ensures lost { (n : List ℕ) → result ≡ Err (ScanError.Lost n) → ((D.state dir.old).moves ≡ None) × Contains (map (λ l. l.name) listed.now) n }
    ensures damaged { (n : List ℕ) → result ≡ Err (ScanError.Damaged n) → ((D.state dir.old).moves ≡ None) × Contains (map (λ l. l.name) listed.now) n }
    ensures state { D.state dir.new ≡ record (D.state dir.old) { faults = counted_where (scan_failed result) (D.state dir.old).faults } }
{
    let puts = changed_units(alloc, dir, naming, known, listed)?;
    let stamps = Stamps::of(alloc, listed)?;
    let gone = known.lacking_in(alloc, &stamps)?;
    Ok(Scanned {
        batch: Batch {
            puts: Seq::of(puts),
            gone: Seq::of(gone),
        },
        stamps,
    })
}

/// The units of the listed files whose stamp isn't the known one, in their order.
fn changed_units<D: Dir, N: Naming>(
    alloc: Global,
    dir: &mut D,
    naming: &N,
    known: &Stamps,
    listed: &[Listed],
) -> Result<Vec<UnitPut>, ScanError>
    requires units { IfSome (D.state dir.old).moves (HoldsUnits N.name_of) }
    requires listed { IfSome (D.state dir.old).moves (λ m. All (StandsAt (area_after m Units)) listed.now) }
    ensures names { IfOk result (λ puts. map (λ p. p.name) puts.items ≡ map (λ l. l.name) (unknown known.now listed.now)) }
    ensures at { IfOk result (λ puts. IfSome (D.state dir.old).moves (λ m. All (IsUnitAt (area_after m Units)) puts.items)) }
    ensures units { IfOk result (λ puts. All (IsNamedUnit N.name_of) puts.items) }
    ensures lost { (n : List ℕ) → result ≡ Err (ScanError.Lost n) → ((D.state dir.old).moves ≡ None) × Contains (map (λ l. l.name) listed.now) n }
    ensures damaged { (n : List ℕ) → result ≡ Err (ScanError.Damaged n) → ((D.state dir.old).moves ≡ None) × Contains (map (λ l. l.name) listed.now) n }
    ensures state { D.state dir.new ≡ record (D.state dir.old) { faults = counted_where (scan_failed result) (D.state dir.old).faults } }
{
    let mut puts = Vec::new(alloc);
    for one in listed {
        note_changed(alloc, dir, naming, known, one, &mut puts)?;
    }
    Ok(puts)
}

/// Adds the unit of a listed file, where its stamp isn't the known one.
fn note_changed<D: Dir, N: Naming>(
    alloc: Global,
    dir: &mut D,
    naming: &N,
    known: &Stamps,
    one: &Listed,
    puts: &mut Vec<UnitPut>,
) -> Result<(), ScanError>
    requires units { IfSome ((D.state dir.old).moves) (HoldsUnits N.name_of) }
    requires listed { IfSome ((D.state dir.old).moves) (λ m. StandsAt (area_after m Units) one.now) }
    ensures names { OnOk result (map (λ p. p.name) puts.new.items ≡ map (λ p. p.name) puts.old.items ++ map (λ l. l.name) (unknown known.now (one.now ∷ []))) }
    ensures at { OnOk result (IfSome ((D.state dir.old).moves) (λ m. All (IsUnitAt (area_after m Units)) puts.old.items → All (IsUnitAt (area_after m Units)) puts.new.items)) }
    ensures units { OnOk result (All (IsNamedUnit N.name_of) puts.old.items → All (IsNamedUnit N.name_of) puts.new.items) }
    ensures lost { (n : List ℕ) → result ≡ Err (ScanError.Lost n) → (n ≡ one.now.name) × ((D.state dir.old).moves ≡ None) }
    ensures damaged { (n : List ℕ) → result ≡ Err (ScanError.Damaged n) → (n ≡ one.now.name) × ((D.state dir.old).moves ≡ None) }
    ensures state { D.state dir.new ≡ record (D.state dir.old) { faults = counted_where (scan_failed result) (D.state dir.old).faults } }
{
    if known.knows(one) {
        return Ok(());
    }
    let unit = unit_of(alloc, dir, naming, one.name)?;
    puts.push(UnitPut {
        name: one.name,
        unit,
    })?;
    Ok(())
}

/// The unit of a listed file.
fn unit_of<D: Dir, N: Naming>(
    alloc: Global,
    dir: &mut D,
    naming: &N,
    name: FileName,
) -> Result<Arc<UnitValue>, ScanError>
    requires units { IfSome ((D.state dir.old).moves) (HoldsUnits N.name_of) }
    requires listed { IfSome ((D.state dir.old).moves) (λ m. IsSome (bytes_at (area_after m Units) name)) }
    ensures at { IfOk result (λ unit. IfSome ((D.state dir.old).moves) (λ m. IsUnitAt (area_after m Units) (record { name = name; unit = unit }))) }
    ensures unit { IfOk result (λ unit. IsNamedUnit N.name_of (record { name = name; unit = unit })) }
    ensures lost { (n : List ℕ) → result ≡ Err (ScanError.Lost n) → (n ≡ name) × ((D.state dir.old).moves ≡ None) }
    ensures damaged { (n : List ℕ) → result ≡ Err (ScanError.Damaged n) → (n ≡ name) × ((D.state dir.old).moves ≡ None) }
    ensures state { D.state dir.new ≡ record (D.state dir.old) { faults = counted_where (scan_failed result) (D.state dir.old).faults } }
{
    match dir.read(alloc, Area::Units, name)? {
        Some(bytes) => unit_in(alloc, naming, name, bytes.as_slice()),
        None => Err(ScanError::Lost { name }),
    }
}

/// The unit of a file, which is to have this name.
fn unit_in<N: Naming>(
    alloc: Global,
    naming: &N,
    name: FileName,
    bytes: &[u8],
) -> Result<Arc<UnitValue>, ScanError>
    ensures spelled { IfOk result (λ unit. UnitSpelling bytes.now unit.value) }
    ensures named { IfOk result (λ unit. name ≡ N.name_of unit.value.output) }
    ensures damaged { IfErr result (λ e. (e ≡ ScanError.Memory) ⊎ ((e ≡ ScanError.Damaged name) × (IsUnitFile N.name_of name bytes.now → ⊥))) }
{
    let unit = match decode(alloc, bytes) {
        Ok(unit) => unit,
        Err(UnitError::Memory) => return Err(ScanError::Memory),
        Err(_) => return Err(ScanError::Damaged { name }),
    };
    if naming.name(unit.output.bytes()) != name {
        return Err(ScanError::Damaged { name });
    }
    Ok(Arc::new(alloc, unit)?)
}
