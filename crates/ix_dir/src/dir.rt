//! A directory, as the store sees it.
ghost use Rattle.std.specs.Prelude.{◌≡◌, ◌<◌, ◌≤◌, Some, is_ok, IsSome, IsTrue, IfOk, IfSome, OnOk, OnErr};
ghost use Rattle.ix_dir.specs.declared.dir.DirError.TheVariants.{Memory as NoMemory};
ghost use Rattle.ix_dir.specs.Calls.{with_move, Renames, removed, after_list, after_read, after_stage, after_rename};
ghost use Rattle.ix_dir.specs.Files.{bytes_at, listed_of, IsRising};
ghost use Rattle.ix_dir.specs.Moves.{Synced, area_after};
ghost use Rattle.ix_dir.specs.Stamps.{HasFreshStamps};
ghost use Rattle.ix_dir.specs.State.{DirState, is_staged, staged_bytes, spent, failed};

use crate::area::Area;
use ix_types::{Failed, FileName, Memory, Seq};
use std::alloc::{AllocError, AllocFailed, Global};
use thiserror::Error;

/// A name of an area, with its file's stamp.
#[derive(Clone, Copy, Debug, PartialEq, Eq, PartialOrd, Ord)]
pub struct Listed {
    pub name: FileName,
    pub stamp: u64,
}

/// Why a call of a directory gave nothing.
#[derive(Clone, Copy, Debug, Drop, PartialEq, Eq, Error)]
pub enum DirError {
    /// The outside failed.
    #[error("failed")]
    Failed,
    /// Memory was wanting.
    #[error("memory")]
    Memory,
}

impl From<AllocError> for DirError {
    ghost from_gives = { λ _ e. e ≡ NoMemory };

    fn from(_wanting: AllocError) -> DirError {
        DirError::Memory
    }
}

impl<T: Drop> From<AllocFailed<T>> for DirError {
    ghost from_gives = { λ _ e. e ≡ NoMemory };

    fn from(_wanting: AllocFailed<T>) -> DirError {
        DirError::Memory
    }
}

/// A directory of two areas of files by name, and of numbered slots, in which bytes are made ready before they become a file.
///
/// A directory may tell its moves. Where it does, they say what stands in each area, and what a crash at any moment may leave:
/// a call's moves are those before it with at most one more behind them, and what a crash leaves is a function of the first of
/// them up to its moment. Nothing is said of what a crash leaves in a slot.
/// A call that fails, or that lacks memory, leaves the moves as they were.
pub trait Dir {
    /// What contracts see of it.
    ghost state: { Self → DirState };

    /// Makes room for so many renames, removals and syncs, which take no memory then.
    fn reserve(&mut self, alloc: Global, calls: u32) -> Result<(), Memory>
        ensures room { OnOk result (calls ≤ (state self.new).spare) }
        ensures more { (state self.old).spare ≤ (state self.new).spare }
        ensures others { state self.new ≡ record (state self.old) { spare = (state self.new).spare } }
        ensures wanting { OnErr result (state self.new ≡ state self.old) };

    /// The names of an area in rising order, with their stamps. No two files that a name had have one stamp.
    fn list(&mut self, alloc: Global, area: Area) -> Result<Seq<Listed>, DirError>
        ensures listed { IfOk result (λ listed. IfSome (state self.old).moves (λ moves. listed ≡ listed_of (area_after moves area))) }
        ensures rising { IfOk result IsRising }
        ensures fresh { OnOk result (IfSome (state self.old).moves HasFreshStamps) }
        ensures state { state self.new ≡ after_list result (state self.old) };

    /// The bytes under a name, None where there is no such file.
    fn read(
        &mut self,
        alloc: Global,
        area: Area,
        name: FileName,
    ) -> Result<Option<Seq<u8>>, DirError>
        ensures bytes { IfOk result (λ found. IfSome (state self.old).moves (λ moves. found ≡ bytes_at (area_after moves area) name)) }
        ensures state { state self.new ≡ after_read area result (state self.old) };

    /// Makes a slot whole with these bytes. After an error the slot has any bytes, and isn't staged.
    fn stage(&mut self, alloc: Global, slot: u32, bytes: &[u8]) -> Result<(), DirError>
        ensures staged { is_staged (state self.new) slot ≡ is_ok result }
        ensures bytes { OnOk result (IsSome (state self.old).moves → (state self.new).slots slot ≡ Some bytes.now) }
        ensures state { state self.new ≡ after_stage slot ((state self.new).slots slot) result (state self.old) };

    /// Puts a staged slot's bytes at a name in one visible step, in place of what was there, and empties the slot.
    /// The file gets a stamp that no earlier file of the name had.
    fn rename(&mut self, slot: u32, area: Area, name: FileName) -> Result<(), Failed>
        requires staged { IsTrue (is_staged (state self.old) slot) }
        requires room { 0 < (state self.old).spare }
        ensures renamed { OnOk result (Renames (state self.old).moves (state self.new).moves area name (staged_bytes (state self.old) slot)) }
        ensures state { OnOk result (state self.new ≡ after_rename slot (state self.new).moves (state self.old)) }
        ensures failed { OnErr result (state self.new ≡ failed (spent (state self.old))) };

    /// Takes a name away in one visible step; where it isn't there, nothing changes.
    fn remove(&mut self, area: Area, name: FileName) -> Result<(), Failed>
        requires { 0 < (state self.old).spare }
        ensures removed { OnOk result (state self.new ≡ record (spent (state self.old)) { moves = removed (state self.old).moves area name }) }
        ensures failed { OnErr result (state self.new ≡ failed (spent (state self.old))) };

    /// After it, a crash leaves in the area what stands there.
    fn sync(&mut self, area: Area) -> Result<(), Failed>
        requires { 0 < (state self.old).spare }
        ensures synced { OnOk result (state self.new ≡ record (spent (state self.old)) { moves = with_move (state self.old).moves (Synced area) }) }
        ensures failed { OnErr result (state self.new ≡ failed (spent (state self.old))) };
}
