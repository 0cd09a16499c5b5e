//! A directory in memory, which keeps its moves.
ghost use Rattle.std.specs.Prelude.{◌≡◌, ◌≢◌, ◌↔◌, ◌+◌, ◌-◌, ◌<◌, ◌≤◌, ℕ, [], ◌∷◌, ◌++◌, List, Option, None, Some, false, is_ok, is_err, is_some, if◌then◌else◌, IsErr, IsErrOf, IsSome, IsTrue, IfOk, IfSome, OnOk, OnErr, length, vec_capacity};
ghost use Rattle.std.specs.Option.{option_copied, option_map};
ghost use Rattle.std.specs.FinMap.{get};
ghost use Rattle.ix_dir.specs.Calls.{Renames, moves_removed, is_failed, is_find};
ghost use Rattle.ix_dir.specs.Crash.{IsPicked, IsSettled, standing};
ghost use Rattle.ix_dir.specs.Images.{IsImage};
ghost use Rattle.ix_dir.specs.Files.{bytes_at, listed_of, IsRising};
ghost use Rattle.ix_dir.specs.InMemory.{InMemory, new_one, next_fails, begun, moved, placed, slot_at, state_of};
ghost use Rattle.ix_dir.specs.IndexInvariant.{IsKept};
ghost use Rattle.ix_dir.specs.Stamps.{IsFresh, HasFreshStamps};
ghost use Rattle.ix_dir.specs.Moves.{Move, Renamed, Removed, Synced, Placed, area_after};
ghost use Rattle.ix_dir.specs.State.{staged_bytes, is_staged, with_slot, counted_where};

use crate::area::Area;
use crate::crash::leave;
use crate::dir::{Dir, DirError, Listed};
use crate::file_index::FileIndex;
use crate::moves::{Move, bytes_put};
use crate::pick::Pick;
use indexmap::IndexMap;
use ix_types::{Failed, FileName, Memory, Seq, count_up};
use std::alloc::{AllocError, Global};
use std::marker::Model;

/// A directory in memory. It tells its moves. Calls fail by their number alone.
#[derive(Debug, Drop)]
pub struct MemoryDir {
    moves: Vec<Move>,
    index: FileIndex,
    slots: IndexMap<u32, Seq<u8>>,
    spare: u32,
    fails: Seq<u64>,
    calls: u64,
    faults: u64,
    listings: u64,
    finds: u64,
}

impl Model for MemoryDir {
    ghost use Rattle.ix_dir.specs.InMemory.{InMemory};
    ghost use Rattle.ix_dir.specs.IndexInvariant.{IsKept};

    ghost Value = { InMemory };

    ghost view = { λ d. record { moves = d.moves.items; slots = d.slots.entries; spare = d.spare; fails = d.fails; calls = d.calls; faults = d.faults; listings = d.listings; finds = d.finds } };

    ghost invariant = { λ d. IsKept d.moves d.index d.spare };
}

impl MemoryDir {
    /// An empty directory with nothing pending, of which no call fails. Takes no memory.
    pub fn new(alloc: Global) -> MemoryDir
        ensures { result ≡ new_one [] }
    {
        MemoryDir::failing(alloc, Seq::of(Vec::new(alloc)))
    }

    /// An empty directory whose calls of these numbers fail, and no others. The calls of `list`, `read`, `stage`, `rename`,
    /// `remove` and `sync` are counted from 1. Takes no memory.
    pub fn failing(alloc: Global, calls: Seq<u64>) -> MemoryDir
        ensures { result ≡ new_one calls }
    {
        MemoryDir {
            moves: Vec::new(alloc),
            index: FileIndex::new(alloc),
            slots: IndexMap::new(alloc),
            spare: 0,
            fails: calls,
            calls: 0,
            faults: 0,
            listings: 0,
            finds: 0,
        }
    }

    /// The directory that a crash now leaves, by this pick. Nothing of it is pending, and no call of it fails.
    pub fn stopped(&self, alloc: Global, pick: Pick) -> Result<MemoryDir, Memory>
        ensures picked { IfOk result (λ d. IsPicked pick self.now.moves d.moves) }
        ensures possible { IfOk result (λ d. IsImage self.now.moves (standing d.moves)) }
        ensures settled { IfOk result (λ d. IsSettled d.moves) }
        ensures fresh { IfOk result (λ d. d ≡ record (new_one []) { moves = d.moves }) }
    {
        let mut left = MemoryDir::new(alloc);
        leave(alloc, &self.moves, pick, Area::Units, &mut left)?;
        leave(alloc, &self.moves, pick, Area::Records, &mut left)?;
        Ok(left)
    }

    /// Counts the call that begins, and says whether it fails.
    fn begin(&mut self) -> bool
        ensures fails { result ≡ next_fails self.old }
        ensures state { self.new ≡ begun self.old }
    {
        self.calls = count_up(self.calls);
        let fails = self.fails.as_slice().contains(&self.calls);
        if fails {
            self.faults = count_up(self.faults);
        }
        fails
    }

    /// Takes one from the room.
    fn use_room(&mut self)
        requires { 0 < self.old.spare }
        ensures { self.new ≡ record self.old { spare = self.old.spare - 1 } }
    {
        let left = self.spare - 1;
        self.spare = left;
    }

    /// Puts the bytes at the name, in number of what was there.
    fn put(&mut self, area: Area, name: FileName, bytes: Seq<u8>)
        requires { 0 < self.old.spare }
        ensures fresh { IsFresh self.old.moves name (length self.old.moves) }
        ensures state { self.new ≡ record self.old { moves = self.old.moves ++ Renamed area name bytes (length self.old.moves) ∷ []; spare = self.old.spare - 1 } }
    {
        let stamp = self.moves.len() as u64;
        self.spare -= 1;
        self.index.set(area, name, stamp);
        keep(
            &mut self.moves,
            Move::Renamed {
                area,
                name,
                bytes,
                stamp,
            },
        );
    }

    /// Puts a file there that is synced at once, with a new stamp. It is no call that may fail by its number.
    pub fn place(
        &mut self,
        alloc: Global,
        area: Area,
        name: FileName,
        bytes: &[u8],
    ) -> Result<(), Memory>
        ensures placed { OnOk result (self.new ≡ placed self.old area name bytes.now) }
        ensures fresh { OnOk result (IsFresh self.old.moves name (length self.old.moves)) }
        ensures wanting { OnErr result (self.new ≡ self.old) }
    {
        let bytes = Seq::of(Vec::from_slice(alloc, bytes)?);
        widen(&mut self.moves, &mut self.index, self.spare as usize + 1)?;
        let number = self.moves.len() as u64;
        self.index.set(area, name, number);
        keep(
            &mut self.moves,
            Move::Placed {
                area,
                name,
                bytes,
                stamp: number,
            },
        );
        Ok(())
    }

    /// Takes the name away, if it is there.
    fn take_away(&mut self, area: Area, name: FileName)
        requires { 0 < self.old.spare }
        ensures { self.new ≡ record self.old { moves = moves_removed area name self.old.moves; spare = self.old.spare - 1 } }
    {
        self.spare -= 1;
        if self.index.remove(area, &name) {
            keep(&mut self.moves, Move::Removed { area, name });
        }
    }

    /// Notes that the area was synced.
    fn note_sync(&mut self, area: Area)
        requires { 0 < self.old.spare }
        ensures { self.new ≡ record self.old { moves = self.old.moves ++ Synced area ∷ []; spare = self.old.spare - 1 } }
    {
        self.spare -= 1;
        keep(&mut self.moves, Move::Synced { area });
    }

    /// The bytes under a name.
    fn bytes_of(&self, area: Area, name: &FileName) -> Option<&[u8]>
        ensures { option_copied result ≡ bytes_at (area_after self.now.moves area) name.now }
    {
        let number = self.index.get(area, name)?;
        bytes_put(&self.moves, number)
    }

    /// The names of an area in rising order, with their stamps.
    fn names_of(&mut self, alloc: Global, area: Area) -> Result<Vec<Listed>, AllocError>
        ensures listed { IfOk result (λ listed. listed.items ≡ listed_of (area_after self.old.moves area)) }
        ensures rising { IfOk result (λ listed. IsRising listed.items) }
        ensures fresh { HasFreshStamps self.old.moves }
        ensures state { self.new ≡ self.old }
    {
        self.index.list(alloc, area)
    }
}

impl Dir for MemoryDir {
    ghost state = { state_of };

    fn reserve(&mut self, _alloc: Global, calls: u32) -> Result<(), Memory>
        ensures room { OnOk result (calls ≤ self.new.spare) }
        ensures more { self.old.spare ≤ self.new.spare }
        ensures others { self.new ≡ record self.old { spare = self.new.spare } }
        ensures wanting { OnErr result (self.new ≡ self.old) }
    {
        if calls <= self.spare {
            return Ok(());
        }
        widen(&mut self.moves, &mut self.index, calls as usize)?;
        self.spare = calls;
        Ok(())
    }

    fn list(&mut self, alloc: Global, area: Area) -> Result<Seq<Listed>, DirError>
        ensures listed { IfOk result (λ listed. listed ≡ listed_of (area_after self.old.moves area)) }
        ensures rising { IfOk result IsRising }
        ensures fresh { OnOk result (HasFreshStamps self.old.moves) }
        ensures fails { is_failed result ≡ next_fails self.old }
        ensures state { self.new ≡ record (begun self.old) { listings = counted_where (is_ok result) self.old.listings } }
    {
        if self.begin() {
            return Err(DirError::Failed);
        }
        let listed = self.names_of(alloc, area)?;
        self.listings = count_up(self.listings);
        Ok(Seq::of(listed))
    }

    fn read(
        &mut self,
        alloc: Global,
        area: Area,
        name: FileName,
    ) -> Result<Option<Seq<u8>>, DirError>
        ensures bytes { IfOk result (λ found. found ≡ bytes_at (area_after self.old.moves area) name) }
        ensures fails { is_failed result ≡ next_fails self.old }
        ensures state { self.new ≡ record (begun self.old) { finds = counted_where (is_find area result) self.old.finds } }
    {
        if self.begin() {
            return Err(DirError::Failed);
        }
        let bytes = match self.bytes_of(area, &name) {
            Some(bytes) => Vec::from_slice(alloc, bytes)?,
            None => return Ok(None),
        };
        if area == Area::Records {
            self.finds = count_up(self.finds);
        }
        Ok(Some(Seq::of(bytes)))
    }

    fn stage(&mut self, alloc: Global, slot: u32, bytes: &[u8]) -> Result<(), DirError>
        ensures staged { (other : ℕ) → slot_at self.new other ≡ with_slot (slot_at self.old) slot (if is_ok result then Some bytes.now else None) other }
        ensures fails { is_failed result ≡ next_fails self.old }
        ensures state { self.new ≡ record (begun self.old) { slots = self.new.slots } }
    {
        let fails = self.begin();
        let _before = self.slots.swap_remove(&slot);
        if fails {
            return Err(DirError::Failed);
        }
        let bytes = Vec::from_slice(alloc, bytes)?;
        self.slots.insert(slot, Seq::of(bytes))?;
        Ok(())
    }

    fn rename(&mut self, slot: u32, area: Area, name: FileName) -> Result<(), Failed>
        requires staged { IsTrue (is_staged (state_of self.old) slot) }
        requires room { 0 < self.old.spare }
        ensures renamed { OnOk result (Renames (Some self.old.moves) (Some self.new.moves) area name (staged_bytes (state_of self.old) slot)) }
        ensures emptied { OnOk result ((other : ℕ) → slot_at self.new other ≡ with_slot (slot_at self.old) slot None other) }
        ensures kept { OnErr result (self.new.slots ≡ self.old.slots) }
        ensures fails { is_err result ≡ next_fails self.old }
        ensures state { self.new ≡ record (moved (self.old.moves ++ Renamed area name (staged_bytes (state_of self.old) slot) (length self.old.moves) ∷ []) self.old) { slots = self.new.slots } }
    {
        if self.begin() {
            self.use_room();
            return Err(Failed);
        }
        match self.slots.swap_remove(&slot) {
            Some(bytes) => self.put(area, name, bytes),
            None => unreachable!(),
        }
        Ok(())
    }

    fn remove(&mut self, area: Area, name: FileName) -> Result<(), Failed>
        requires { 0 < self.old.spare }
        ensures fails { is_err result ≡ next_fails self.old }
        ensures state { self.new ≡ moved (moves_removed area name self.old.moves) self.old }
    {
        if self.begin() {
            self.use_room();
            return Err(Failed);
        }
        self.take_away(area, name);
        Ok(())
    }

    fn sync(&mut self, area: Area) -> Result<(), Failed>
        requires { 0 < self.old.spare }
        ensures fails { is_err result ≡ next_fails self.old }
        ensures state { self.new ≡ moved (self.old.moves ++ Synced area ∷ []) self.old }
    {
        if self.begin() {
            self.use_room();
            return Err(Failed);
        }
        self.note_sync(area);
        Ok(())
    }
}

/// Adds a move, for which there is room.
fn keep(moves: &mut Vec<Move>, one: Move)
    requires { length moves.old.items < vec_capacity moves.old }
    ensures items { moves.new.items ≡ moves.old.items ++ one ∷ [] }
    ensures capacity { vec_capacity moves.old ≤ vec_capacity moves.new }
{
    match moves.push(one) {
        Ok(()) => {}
        Err(_) => unreachable!(),
    }
}

/// Makes room for so many more moves, each of which may bring a name.
fn widen(moves: &mut Vec<Move>, index: &mut FileIndex, room: usize) -> Result<(), AllocError>
    ensures same { moves.new.items ≡ moves.old.items }
    ensures kept { (spare : ℕ) → IsKept moves.old index.old spare → IsKept moves.new index.new spare }
    ensures room { OnOk result ((spare : ℕ) → IsKept moves.old index.old spare → IsKept moves.new index.new room) }
{
    moves.reserve(room)?;
    index.reserve(room)
}
