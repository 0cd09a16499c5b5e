//! A look through the unit files: the sound ones, and the refused ones with their causes.
ghost use Rattle.std.specs.Prelude.{◌≡◌, ◌⊎◌, ◌++◌, map, All, IfOk, IfErr, OnOk, OnErr, IfSome};
ghost use Rattle.std.specs.List.Sorted.{IsStrictlySortedBy};
ghost use Rattle.ix_types.specs.Count.{counted};
ghost use Rattle.ix_types.specs.Row.{text_cmp};
ghost use Rattle.ix_dir.specs.declared.area.Area.TheVariants.{Units};
ghost use Rattle.ix_dir.specs.Crash.{standing};
ghost use Rattle.ix_dir.specs.Moves.{area_after};
ghost use Rattle.ix_dir.specs.State.{counted_where};
ghost use Rattle.ix_cabinet.specs.Scan.{IsNamedUnit, IsUnitAt};
ghost use Rattle.ix_machine.specs.Run.{IsSoundOpening};
ghost use Rattle.ix_opening.specs.Fault.{open_failed, HasNotFallen};
ghost use Rattle.ix_opening.specs.Found.{IsFound, Tells, opening_of};
ghost use Rattle.ix_opening.specs.Known.{AreRead, Keeps};
ghost use Rattle.ix_opening.specs.Steps.{NotesFile, puts_of, refusals_of};

use crate::fault::OpenError;
use crate::records::{RecordState, read_file};
use crate::units::{Judged, judge};
use indexmap::IndexMap;
use ix_dir::{Area, Dir};
use ix_machine::Refused;
use ix_types::{FileName, Naming, Seq};
use ix_unit::UnitPut;
use std::alloc::Global;

/// The sound units and the refused unit files, both in rising order of name.
#[derive(Debug, Drop)]
pub struct Found {
    pub units: Seq<UnitPut>,
    pub refused: Seq<Refused>,
}

/// What was found so far, and what is known of the record files.
#[derive(Drop)]
struct Progress {
    units: Vec<UnitPut>,
    refused: Vec<Refused>,
    known: IndexMap<FileName, RecordState>,
}

/// What opening a store finds, by reading alone: the units whose files are sound, and the refused files with their causes.
/// A file is read once. A listed unit whose read gives nothing, which never happens over a directory that tells its moves,
/// counts as not listed.
pub fn look<D: Dir, N: Naming>(alloc: Global, dir: &mut D, naming: &N) -> Result<Found, OpenError>
    // Where the directory tells its moves, what was found is what opening finds of the files that stand.
    ensures opening { IfOk result (λ found. IfSome (D.state dir.old).moves (λ m. Tells found (opening_of N.name_of (standing m)))) }
    ensures begins { OnOk result (IfSome (D.state dir.old).moves (λ m. IsSoundOpening N.name_of (opening_of N.name_of (standing m)))) }
    ensures at { IfOk result (λ found. IfSome (D.state dir.old).moves (λ m. All (IsUnitAt (area_after m Units)) found.units)) }

    // Over any directory it is what opening finds of the files that were read.
    ensures found { IfOk result (IsFound N.name_of (D.state dir.old).moves) }
    ensures units { IfOk result (λ found. All (IsNamedUnit N.name_of) found.units) }
    ensures units_rise { IfOk result (λ found. IsStrictlySortedBy text_cmp (map (λ p. p.name) found.units)) }
    ensures refused_rise { IfOk result (λ found. IsStrictlySortedBy text_cmp (map (λ r. r.name) found.refused)) }

    // Of the directory three counts alone change. An answer comes from a list that was made.
    ensures state { D.state dir.new ≡ record (D.state dir.old) { faults = counted_where (open_failed result) (D.state dir.old).faults; listings = (D.state dir.new).listings; finds = (D.state dir.new).finds } }
    ensures listed { OnOk result ((D.state dir.new).listings ≡ counted (D.state dir.old).listings) }
    ensures once { ((D.state dir.new).listings ≡ (D.state dir.old).listings) ⊎ ((D.state dir.new).listings ≡ counted (D.state dir.old).listings) }
    ensures finds { HasNotFallen (D.state dir.old).finds (D.state dir.new).finds }
{
    let listed = dir.list(alloc, Area::Units)?;
    let mut look = Progress {
        units: Vec::new(alloc),
        refused: Vec::new(alloc),
        known: IndexMap::new(alloc),
    };
    for one in listed.as_slice() {
        look_at(alloc, dir, naming, one.name, &mut look)?;
    }
    Ok(Found {
        units: Seq::of(look.units),
        refused: Seq::of(look.refused),
    })
}

/// Adds what the unit file of a listed name is taken for.
fn look_at<D: Dir, N: Naming>(
    alloc: Global,
    dir: &mut D,
    naming: &N,
    name: FileName,
    look: &mut Progress,
) -> Result<(), OpenError>
    ensures noted { OnOk result (NotesFile N.name_of (D.state dir.old).moves name look.old look.new) }
    ensures at { OnOk result (IfSome (D.state dir.old).moves (λ m. All (IsUnitAt (area_after m Units)) look.old.units.items → All (IsUnitAt (area_after m Units)) look.new.units.items)) }
    ensures units { OnOk result (All (IsNamedUnit N.name_of) look.old.units.items → All (IsNamedUnit N.name_of) look.new.units.items) }
    ensures kept { OnOk result (Keeps look.old.known.entries look.new.known.entries) }
    ensures read { OnOk result (AreRead N.name_of (D.state dir.old).moves look.old.known.entries → AreRead N.name_of (D.state dir.old).moves look.new.known.entries) }
    ensures state { D.state dir.new ≡ record (D.state dir.old) { faults = counted_where (open_failed result) (D.state dir.old).faults; finds = (D.state dir.new).finds } }
    ensures finds { HasNotFallen (D.state dir.old).finds (D.state dir.new).finds }
{
    let Some(bytes) = read_file(alloc, dir, Area::Units, name)? else {
        return Ok(());
    };
    let judged = judge(alloc, dir, naming, name, bytes.as_slice(), &mut look.known)?;
    note(look, name, judged)?;
    Ok(())
}

/// Adds a sound unit, or a refused one.
fn note(look: &mut Progress, name: FileName, judged: Judged) -> Result<(), OpenError>
    ensures units { OnOk result (look.new.units.items ≡ look.old.units.items ++ puts_of name judged) }
    ensures refused { OnOk result (look.new.refused.items ≡ look.old.refused.items ++ refusals_of name judged) }
    ensures known { look.new.known ≡ look.old.known }
    ensures wanting { IfErr result (λ e. e ≡ OpenError.Memory) }
{
    match judged {
        Judged::Sound(unit) => look.units.push(UnitPut { name, unit })?,
        Judged::Refused(cause) => look.refused.push(Refused { name, cause })?,
    }
    Ok(())
}
