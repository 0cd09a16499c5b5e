//! Opening: both areas are synced, looked through, and cleaned of refused unit files.
ghost use Rattle.std.specs.Prelude.{◌≡◌, ◌⊎◌, ◌+◌, ◌<◌, ◌≤◌, ◌++◌, ℕ, List, [], length, map, take, All, is_err, IfOk, IfSome, OnOk, OnErr, Err};
ghost use Rattle.std.specs.FinMap.{entries};
ghost use Rattle.std.specs.List.Sorted.{IsStrictlySortedBy};
ghost use Rattle.std.specs.Option.{option_map};
ghost use Rattle.ix_types.specs.Count.{counted};
ghost use Rattle.ix_types.specs.Row.{text_cmp};
ghost use Rattle.ix_dir.specs.declared.area.Area.{Area};
ghost use Rattle.ix_dir.specs.declared.area.Area.TheVariants.{Units, Records};
ghost use Rattle.ix_dir.specs.declared.moves.Move.TheVariants.{Synced};
ghost use Rattle.ix_dir.specs.Calls.{with_move};
ghost use Rattle.ix_dir.specs.Crash.{standing, IsSettled};
ghost use Rattle.ix_dir.specs.Files.{bytes_at};
ghost use Rattle.ix_dir.specs.Images.{Image, IsImage};
ghost use Rattle.ix_dir.specs.Moves.{area_after};
ghost use Rattle.ix_dir.specs.State.{counted_where};
ghost use Rattle.ix_dir.specs.WhatAChangeLeaves.{AddsTo, IfTold};
ghost use Rattle.ix_cabinet.specs.Scan.{HoldsUnits, IsNamedUnit, IsUnitAt};
ghost use Rattle.ix_machine.specs.Run.{IsSoundOpening};
ghost use Rattle.ix_opening.specs.AfterOpening.{names_of, without, cleaned, IsCleanedInPart, MakesFront, opening_moves, sound_bytes};
ghost use Rattle.ix_opening.specs.Fault.{open_failed, HasNotFallen};
ghost use Rattle.ix_opening.specs.Found.{IsFound, Tells, opening_of};

use crate::fault::OpenError;
use crate::laws;
use crate::looking::{Found, look};
use ix_dir::{Area, Dir};
use ix_machine::Refused;
use ix_types::{Failed, Naming};
use std::alloc::Global;

/// Opens a store: syncs both areas, looks through the unit files, and removes the refused ones, in rising order, with a sync
/// behind them where there were any. After an error the sound units are as before, and some of the refused files may be gone.
pub fn open<D: Dir, N: Naming>(alloc: Global, dir: &mut D, naming: &N) -> Result<Found, OpenError>
    // What is found is what opening finds of the files that stand, or that were read.
    ensures opening { IfOk result (λ found. IfSome (D.state dir.old).moves (λ m. Tells found (opening_of N.name_of (standing m)))) }
    ensures begins { OnOk result (IfSome (D.state dir.old).moves (λ m. IsSoundOpening N.name_of (opening_of N.name_of (standing m)))) }
    ensures found { IfOk result (IsFound N.name_of (D.state dir.old).moves) }
    ensures units { IfOk result (λ found. All (IsNamedUnit N.name_of) found.units) }
    ensures units_rise { IfOk result (λ found. IsStrictlySortedBy text_cmp (map (λ p. p.name) found.units)) }
    ensures refused_rise { IfOk result (λ found. IsStrictlySortedBy text_cmp (map (λ r. r.name) found.refused)) }
    ensures at { IfOk result (λ found. IfSome (D.state dir.old).moves (λ m. All (IsUnitAt (area_after m Units)) found.units)) }

    // The moves, and how far they came where it failed.
    ensures moves { OnOk result (IfTold (D.state dir.old).moves (D.state dir.new).moves (λ before now. now ≡ before ++ opening_moves N.name_of before)) }
    ensures front { MakesFront N.name_of (D.state dir.old).moves (D.state dir.new).moves }
    ensures added { AddsTo (D.state dir.old).moves (D.state dir.new).moves }

    // What is left, wherever it stopped: the records, and the sound units; and at the end the sound unit files alone.
    ensures records { IfTold (D.state dir.old).moves (D.state dir.new).moves (λ before now. standing now Records ≡ standing before Records) }
    ensures kept { IfTold (D.state dir.old).moves (D.state dir.new).moves (λ before now. (opening_of N.name_of (standing now)).units ≡ (opening_of N.name_of (standing before)).units) }
    ensures left { OnOk result (IfTold (D.state dir.old).moves (D.state dir.new).moves (λ before now. (name : List ℕ) → bytes_at (area_after now Units) name ≡ sound_bytes N.name_of (entries (standing before Records)) name (bytes_at (area_after before Units) name))) }
    ensures holds { OnOk result (IfTold (D.state dir.old).moves (D.state dir.new).moves (λ before now. HoldsUnits N.name_of now)) }
    ensures settled { OnOk result (IfTold (D.state dir.old).moves (D.state dir.new).moves (λ before now. IsSettled now)) }
    ensures wanting { result ≡ Err OpenError.Memory → IfTold (D.state dir.old).moves (D.state dir.new).moves (λ before now. (area : Area) → area_after now area ≡ area_after before area) }
    ensures again { OnOk result (IfTold (D.state dir.old).moves (D.state dir.new).moves (λ before now. (opening_of N.name_of (standing now)).refused ≡ [])) }

    // At each moment from the second sync on, a crash leaves the sound units.
    ensures images { IfTold (D.state dir.old).moves (D.state dir.new).moves (λ before now. (moment : ℕ) (image : Image) → length before + 2 ≤ moment → moment ≤ length now → IsImage (take moment now) image → (opening_of N.name_of image).units ≡ (opening_of N.name_of (standing before)).units) }

    // Up to the second sync a crash leaves what the directory handed in could have left, and at the end no refused file.
    ensures early { IfTold (D.state dir.old).moves (D.state dir.new).moves (λ before now. (moment : ℕ) (image : Image) → length before ≤ moment → moment ≤ length before + 2 → IsImage (take moment now) image → IsImage before image) }
    ensures end_units { OnOk result (IfTold (D.state dir.old).moves (D.state dir.new).moves (λ before now. (image : Image) → IsImage now image → (opening_of N.name_of image).units ≡ (opening_of N.name_of (standing before)).units)) }
    ensures end_refused { OnOk result (IfTold (D.state dir.old).moves (D.state dir.new).moves (λ before now. (image : Image) → IsImage now image → (opening_of N.name_of image).refused ≡ [])) }

    ensures state { D.state dir.new ≡ record (D.state dir.old) { moves = (D.state dir.new).moves; spare = (D.state dir.new).spare; faults = counted_where (open_failed result) (D.state dir.old).faults; listings = (D.state dir.new).listings; finds = (D.state dir.new).finds } }
    ensures listed { OnOk result ((D.state dir.new).listings ≡ counted (D.state dir.old).listings) }
    ensures once { ((D.state dir.new).listings ≡ (D.state dir.old).listings) ⊎ ((D.state dir.new).listings ≡ counted (D.state dir.old).listings) }
    // It looks behind both syncs.
    ensures behind { ((D.state dir.new).listings ≡ (D.state dir.old).listings) ⊎ IfTold (D.state dir.old).moves (D.state dir.new).moves (λ before now. length before + 2 ≤ length now) }
    ensures finds { HasNotFallen (D.state dir.old).finds (D.state dir.new).finds }
{
    laws::opening_leaves_sound_files();
    laws::a_second_opening_finds_the_same();
    laws::a_stop_keeps_sound_units();
    laws::early_images_are_those_handed_in();
    laws::a_crash_after_the_end_leaves_sound_units();
    ix_dir::laws::sync_leaves();
    sync_and_clean(alloc, dir, naming)
}

/// The steps of an opening.
fn sync_and_clean<D: Dir, N: Naming>(
    alloc: Global,
    dir: &mut D,
    naming: &N,
) -> Result<Found, OpenError>
    ensures found { IfOk result (IsFound N.name_of (D.state dir.old).moves) }
    ensures units { IfOk result (λ found. All (IsNamedUnit N.name_of) found.units) }
    ensures units_rise { IfOk result (λ found. IsStrictlySortedBy text_cmp (map (λ p. p.name) found.units)) }
    ensures refused_rise { IfOk result (λ found. IsStrictlySortedBy text_cmp (map (λ r. r.name) found.refused)) }
    ensures at { IfOk result (λ found. IfSome (D.state dir.old).moves (λ m. All (IsUnitAt (area_after m Units)) found.units)) }
    ensures moves { OnOk result (IfTold (D.state dir.old).moves (D.state dir.new).moves (λ before now. now ≡ before ++ opening_moves N.name_of before)) }
    ensures front { MakesFront N.name_of (D.state dir.old).moves (D.state dir.new).moves }
    ensures wanting { result ≡ Err OpenError.Memory → (((D.state dir.new).moves ≡ (D.state dir.old).moves) ⊎ ((D.state dir.new).moves ≡ with_move (with_move (D.state dir.old).moves (Synced Records)) (Synced Units))) }
    ensures state { D.state dir.new ≡ record (D.state dir.old) { moves = (D.state dir.new).moves; spare = (D.state dir.new).spare; faults = counted_where (open_failed result) (D.state dir.old).faults; listings = (D.state dir.new).listings; finds = (D.state dir.new).finds } }
    ensures listed { OnOk result ((D.state dir.new).listings ≡ counted (D.state dir.old).listings) }
    ensures once { ((D.state dir.new).listings ≡ (D.state dir.old).listings) ⊎ ((D.state dir.new).listings ≡ counted (D.state dir.old).listings) }
    ensures behind { ((D.state dir.new).listings ≡ (D.state dir.old).listings) ⊎ IfTold (D.state dir.old).moves (D.state dir.new).moves (λ before now. length before + 2 ≤ length now) }
    ensures finds { HasNotFallen (D.state dir.old).finds (D.state dir.new).finds }
{
    ix_dir::laws::area_takes_a_step();
    ix_dir::laws::values_take_a_step();
    ix_dir::laws::last_value_stands();
    ix_dir::laws::standing_is_image();
    sync_both(alloc, dir)?;
    let found = look(alloc, dir, naming)?;
    clean(alloc, dir, found.refused.as_slice())?;
    Ok(found)
}

/// Syncs the records, and then the units.
fn sync_both<D: Dir>(alloc: Global, dir: &mut D) -> Result<(), OpenError>
    ensures synced { OnOk result ((D.state dir.new).moves ≡ with_move (with_move (D.state dir.old).moves (Synced Records)) (Synced Units)) }
    ensures part { OnErr result (((D.state dir.new).moves ≡ (D.state dir.old).moves) ⊎ ((D.state dir.new).moves ≡ with_move (D.state dir.old).moves (Synced Records))) }
    ensures wanting { result ≡ Err OpenError.Memory → (D.state dir.new).moves ≡ (D.state dir.old).moves }
    ensures state { D.state dir.new ≡ record (D.state dir.old) { moves = (D.state dir.new).moves; spare = (D.state dir.new).spare; faults = counted_where (open_failed result) (D.state dir.old).faults } }
{
    dir.reserve(alloc, 2)?;
    dir.sync(Area::Records)?;
    dir.sync(Area::Units)?;
    Ok(())
}

/// Removes these unit files, and syncs behind that where there are any. After want of memory all stands as before.
fn clean<D: Dir>(alloc: Global, dir: &mut D, refused: &[Refused]) -> Result<(), OpenError>
    ensures cleaned { OnOk result ((D.state dir.new).moves ≡ option_map (cleaned (names_of refused.now)) (D.state dir.old).moves) }
    ensures part { OnErr result (IsCleanedInPart refused.now (D.state dir.old).moves (D.state dir.new).moves) }
    ensures wanting { result ≡ Err OpenError.Memory → (D.state dir.new).moves ≡ (D.state dir.old).moves }
    ensures state { D.state dir.new ≡ record (D.state dir.old) { moves = (D.state dir.new).moves; spare = (D.state dir.new).spare; faults = counted_where (open_failed result) (D.state dir.old).faults } }
{
    if refused.is_empty() {
        return Ok(());
    }
    if refused.len() >= u32::MAX as usize {
        return Err(OpenError::Memory);
    }
    dir.reserve(alloc, refused.len() as u32 + 1)?;
    remove_all(dir, refused)?;
    dir.sync(Area::Units)?;
    Ok(())
}

/// Removes these unit files.
fn remove_all<D: Dir>(dir: &mut D, refused: &[Refused]) -> Result<(), Failed>
    requires { length refused.now < (D.state dir.old).spare }
    ensures removed { OnOk result ((D.state dir.new).moves ≡ option_map (without (names_of refused.now)) (D.state dir.old).moves) }
    ensures part { OnErr result (IsCleanedInPart refused.now (D.state dir.old).moves (D.state dir.new).moves) }
    ensures room { OnOk result (0 < (D.state dir.new).spare) }
    ensures state { D.state dir.new ≡ record (D.state dir.old) { moves = (D.state dir.new).moves; spare = (D.state dir.new).spare; faults = counted_where (is_err result) (D.state dir.old).faults } }
{
    for one in refused {
        dir.remove(Area::Units, one.name)?;
    }
    Ok(())
}
