//! The directory that a crash leaves.
ghost use Rattle.std.specs.Prelude.{◌≡◌, ◌<◌, ◌^◌, false, ℕ, List, length, map, OnOk, OnErr, None};
ghost use Rattle.std.specs.Option.{option_copied};
ghost use Rattle.ix_dir.specs.Crash.{names_since, number_for, value_for, LeavesOf, IsSettled};
ghost use Rattle.ix_dir.specs.Files.{bytes_at};
ghost use Rattle.ix_dir.specs.Images.{values_of};
ghost use Rattle.ix_dir.specs.Moves.{same_area, area_after};
ghost use Rattle.ix_dir.specs.NotedInOneWalk.{IsPending};
ghost use Rattle.ix_dir.specs.ValuesByNumber.{value_at, left_with};

use crate::area::Area;
use crate::memory::MemoryDir;
use crate::moves::{Move, bytes_put};
use crate::pick::Pick;
use crate::values_by_name::ValuesByName;
use ix_types::{FileName, Memory};
use std::alloc::Global;

/// Puts into `left` what a crash after the moves leaves in an area.
pub fn leave(
    alloc: Global,
    moves: &[Move],
    pick: Pick,
    area: Area,
    left: &mut MemoryDir,
) -> Result<(), Memory>
    requires { (name : List ℕ) → bytes_at (area_after left.old.moves area) name ≡ None }
    ensures leaves { OnOk result (LeavesOf pick moves.now area (names_since moves.now area) (area_after left.new.moves area)) }
    ensures others { OnOk result ((a : _) → same_area a area ≡ false → area_after left.new.moves a ≡ area_after left.old.moves a) }
    ensures settled { OnOk result (IsSettled left.old.moves → IsSettled left.new.moves) }
    ensures state { OnOk result (left.new ≡ record left.old { moves = left.new.moves }) }
{
    let pending = ValuesByName::of(alloc, moves, area)?;
    let names = pending.names(alloc, moves)?;
    for (i, name) in names.iter().enumerate() {
        let value = value_left(moves, &pending, pick, i, name);
        leave_name(alloc, area, name, value, left)?;
    }
    Ok(())
}

/// Puts into `left` what a crash leaves of a name.
fn leave_name(
    alloc: Global,
    area: Area,
    name: &FileName,
    value: Option<&[u8]>,
    left: &mut MemoryDir,
) -> Result<(), Memory>
    ensures ok { OnOk result (left.new ≡ left_with left.old area name.now (option_copied value.entry)) }
    ensures wanting { OnErr result (left.new ≡ left.old) }
{
    match value {
        Some(bytes) => left.place(alloc, area, *name, bytes),
        None => Ok(()),
    }
}

/// What a crash leaves of the name of number i.
fn value_left<'a>(
    moves: &'a [Move],
    pending: &ValuesByName,
    pick: Pick,
    i: usize,
    name: &FileName,
) -> Option<&'a [u8]>
    requires { i < 2 ^ 63 }
    ensures { (area : _) → IsPending moves.now area pending.now → option_copied result ≡ value_for pick i (values_of moves.now area name.now) }
{
    let values = pending.values(name)?;
    chosen(moves, values, pick, i)
}

/// The bytes that the pick chooses for the name of number i, of values by their numbers.
fn chosen<'a>(moves: &'a [Move], values: &[Option<u64>], pick: Pick, i: usize) -> Option<&'a [u8]>
    requires some { 0 < length values.now }
    requires small { i < 2 ^ 63 }
    ensures { option_copied result ≡ value_for pick i (map (value_at moves.now) values.now) }
{
    match values[number_of(pick, i, values.len())] {
        Some(number) => bytes_put(moves, number),
        None => None,
    }
}

/// The number of the value that the pick chooses for the name of number i.
fn number_of(pick: Pick, i: usize, count: usize) -> usize
    requires some { 0 < count }
    requires small { i < 2 ^ 63 }
    requires few { count < 2 ^ 63 }
    ensures number { result ≡ number_for pick i count }
    ensures within { result < count }
{
    match pick {
        Pick::Oldest => 0,
        Pick::Newest => count - 1,
        Pick::Nth(n) => (n as usize % count + i) % count,
    }
}
