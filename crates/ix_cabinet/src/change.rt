//! Changes of the unit files of a directory.
ghost use Rattle.std.specs.Prelude.{◌≡◌, ◌⊎◌, ◌<◌, ◌≤◌, true, IsSome, IsTrue, IfOk, IfSome, OnOk, OnErr, Ok, Err, Some, None};
ghost use Rattle.ix_dir.specs.declared.area.Area.TheVariants.{Units};
ghost use Rattle.ix_dir.specs.Calls.{removed, after_rename};
ghost use Rattle.ix_dir.specs.Crash.{IsSettledIn};
ghost use Rattle.ix_dir.specs.WhatAChangeLeaves.{LeavesAt, AddsTo, IfTold};
ghost use Rattle.ix_dir.specs.State.{is_staged, staged_bytes, with_slot, spent, failed, counted_where};
ghost use Rattle.ix_unit.specs.Spelling.{UnitSpelling};
ghost use Rattle.ix_unit.specs.Value.{IsValidUnit};
ghost use Rattle.ix_cabinet.specs.Changes.{Publishes, settled_by, is_unsynced, stage_failed};

use crate::fault::StageError;
use ix_dir::{Area, Dir, laws};
use ix_types::{Failed, FileName};
use ix_unit::{UnitValue, encode};
use std::alloc::Global;

/// Whether a change of the unit files was synced.
#[derive(Clone, Copy, Debug, PartialEq, Eq)]
pub enum Settled {
    /// A crash leaves the change.
    Synced,
    /// The change is visible, and the sync failed: a crash may leave it or not.
    Unsynced,
}

/// Makes a slot whole with the file of a unit. After want of memory the slot has what it had or isn't staged.
pub fn stage_unit<D: Dir>(
    alloc: Global,
    dir: &mut D,
    slot: u32,
    unit: &UnitValue,
) -> Result<(), StageError>
    requires { IsValidUnit unit.now }
    ensures staged { OnOk result (is_staged (D.state dir.new) slot ≡ true) }
    ensures bytes { OnOk result (IsSome (D.state dir.old).moves → UnitSpelling (staged_bytes (D.state dir.new) slot) unit.now) }
    ensures failed { result ≡ Err StageError.Fault → (D.state dir.new).slots slot ≡ None }
    ensures unstaged { OnErr result (((D.state dir.new).slots slot ≡ None) ⊎ ((D.state dir.new).slots slot ≡ (D.state dir.old).slots slot)) }

    // Of the directory this slot and the count of faults alone change.
    ensures state { D.state dir.new ≡ record (D.state dir.old) { slots = with_slot (D.state dir.old).slots slot ((D.state dir.new).slots slot); faults = counted_where (stage_failed result) (D.state dir.old).faults } }
{
    let bytes = encode(alloc, unit)?;
    dir.stage(alloc, slot, bytes.as_slice())?;
    Ok(())
}

/// Puts a staged unit file at its name in one visible step, in place of what was there, and then syncs the units area.
/// Where the rename fails, nothing changed. Takes no memory.
pub fn publish_unit<D: Dir>(dir: &mut D, slot: u32, name: FileName) -> Result<Settled, Failed>
    requires staged { IsTrue (is_staged (D.state dir.old) slot) }
    requires room { 2 ≤ (D.state dir.old).spare }
    ensures published { IfOk result (λ settled. Publishes settled name (staged_bytes (D.state dir.old) slot) (D.state dir.old).moves (D.state dir.new).moves) }

    // The directory after it: the slot was emptied by the rename, and of the room the rename and the sync took one each.
    ensures state { IfOk result (λ settled. D.state dir.new ≡ record (spent (after_rename slot (D.state dir.new).moves (D.state dir.old))) { faults = counted_where (is_unsynced settled) (D.state dir.old).faults }) }
    ensures failed { OnErr result (D.state dir.new ≡ failed (spent (D.state dir.old))) }

    // What follows for the moves.
    ensures added { AddsTo (D.state dir.old).moves (D.state dir.new).moves }
    ensures left { OnOk result (IfTold (D.state dir.old).moves (D.state dir.new).moves (LeavesAt Units name (Some (staged_bytes (D.state dir.old) slot)))) }
    ensures settled { result ≡ Ok Settled.Synced → IfSome (D.state dir.new).moves (IsSettledIn Units) }
{
    laws::rename_leaves();
    laws::sync_leaves();
    laws::calls_add_moves();
    dir.rename(slot, Area::Units, name)?;
    Ok(sync_units(dir))
}

/// Takes a unit file away in one visible step, and then syncs the units area. Where it isn't there, only the sync is made.
/// Where the removal fails, nothing changed. Takes no memory.
pub fn remove_unit<D: Dir>(dir: &mut D, name: FileName) -> Result<Settled, Failed>
    requires { 2 ≤ (D.state dir.old).spare }
    // The directory after it: a removal, and a sync behind it where that succeeded; of the room the two took one each.
    ensures removed { IfOk result (λ settled. D.state dir.new ≡ record (spent (spent (D.state dir.old))) { moves = settled_by settled (removed (D.state dir.old).moves Units name); faults = counted_where (is_unsynced settled) (D.state dir.old).faults }) }
    ensures failed { OnErr result (D.state dir.new ≡ failed (spent (D.state dir.old))) }

    // What follows for the moves.
    ensures added { AddsTo (D.state dir.old).moves (D.state dir.new).moves }
    ensures left { OnOk result (IfTold (D.state dir.old).moves (D.state dir.new).moves (LeavesAt Units name None)) }
    ensures settled { result ≡ Ok Settled.Synced → IfSome (D.state dir.new).moves (IsSettledIn Units) }
{
    laws::removal_leaves();
    laws::sync_leaves();
    laws::calls_add_moves();
    dir.remove(Area::Units, name)?;
    Ok(sync_units(dir))
}

/// Syncs the units area.
fn sync_units<D: Dir>(dir: &mut D) -> Settled
    requires { 0 < (D.state dir.old).spare }
    ensures { D.state dir.new ≡ record (spent (D.state dir.old)) { moves = settled_by result (D.state dir.old).moves; faults = counted_where (is_unsynced result) (D.state dir.old).faults } }
{
    match dir.sync(Area::Units) {
        Ok(()) => Settled::Synced,
        Err(Failed) => Settled::Unsynced,
    }
}
