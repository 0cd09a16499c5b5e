//! Which move put the file of a name.
ghost use Rattle.std.specs.Prelude.{◌≡◌, ◌+◌, ◌<◌, ◌≤◌, ℕ, List, map, is_some, IsTrue, IfOk, OnOk, OnErr, None, Some, IsSorted, if◌then◌else◌};
ghost use Rattle.std.specs.HashMap.{get, spare, keys, IsUnique};
ghost use Rattle.std.specs.Cmp.Lexicographic.{slice_cmp};
ghost use Rattle.std.specs.Ordering.{nat_cmp};
ghost use Rattle.ix_dir.specs.Files.{listed_at};
ghost use Rattle.ix_dir.specs.Moves.{same_name};
ghost use Rattle.ix_dir.specs.NumberByName.{number_at, room_of, Sets, SameNumbers, Lists};

use crate::area::Area;
use crate::dir::Listed;
use indexmap::IndexMap;
use ix_types::FileName;
use std::alloc::{AllocError, Global};

/// For each area the number of the move that put a file, by the file's name.
#[derive(Debug, Drop)]
pub struct FileIndex {
    units: IndexMap<FileName, u64>,
    records: IndexMap<FileName, u64>,
}

impl FileIndex {
    /// No file. Takes no memory.
    pub fn new(alloc: Global) -> FileIndex
        ensures { (area : _) (name : List ℕ) → number_at result area name ≡ None }
    {
        FileIndex {
            units: IndexMap::new(alloc),
            records: IndexMap::new(alloc),
        }
    }

    /// Makes room for so many more names in each area.
    pub fn reserve(&mut self, names: usize) -> Result<(), AllocError>
        ensures numbers { SameNumbers self.old self.new }
        ensures room { OnOk result (names ≤ room_of self.new) }
        ensures kept { room_of self.old ≤ room_of self.new }
    {
        self.units.reserve(names)?;
        self.records.reserve(names)
    }

    /// The number of a name.
    pub fn get(&self, area: Area, name: &FileName) -> Option<u64>
        ensures { result ≡ number_at self.now area name.now }
    {
        match area {
            Area::Units => self.units.get(name).copied(),
            Area::Records => self.records.get(name).copied(),
        }
    }

    /// Gives a name a number.
    pub fn set(&mut self, area: Area, name: FileName, number: u64)
        requires { 0 < room_of self.old }
        ensures numbers { Sets self.old self.new area name (Some number) }
        ensures room { room_of self.old ≤ room_of self.new + 1 }
    {
        match area {
            Area::Units => put(&mut self.units, name, number),
            Area::Records => put(&mut self.records, name, number),
        }
    }

    /// Takes a name away, and says whether it was there.
    pub fn remove(&mut self, area: Area, name: &FileName) -> bool
        ensures was { result ≡ is_some (number_at self.old area name.now) }
        ensures numbers { Sets self.old self.new area name.now None }
        ensures room { room_of self.old ≤ room_of self.new }
    {
        match area {
            Area::Units => self.units.swap_remove(name).is_some(),
            Area::Records => self.records.swap_remove(name).is_some(),
        }
    }

    /// The names of an area in rising order, each with its number.
    pub fn list(&mut self, alloc: Global, area: Area) -> Result<Vec<Listed>, AllocError>
        ensures numbers { SameNumbers self.old self.new }
        ensures room { room_of self.old ≤ room_of self.new }
        ensures listed { IfOk result (λ listed. Lists self.old area listed.items) }
    {
        match area {
            Area::Units => sorted_list(alloc, &mut self.units),
            Area::Records => sorted_list(alloc, &mut self.records),
        }
    }
}

/// Gives a name a number, for which there is room.
fn put(index: &mut IndexMap<FileName, u64>, name: FileName, number: u64)
    requires { 0 < spare index.old }
    ensures numbers { (q : List ℕ) → get same_name index.new q ≡ (if same_name name q then Some number else get same_name index.old q) }
    ensures room { spare index.old ≤ spare index.new + 1 }
{
    match index.insert(name, number) {
        Ok(_) => {}
        Err(_) => unreachable!(),
    }
}

/// Sorts the names, and lists them with their index.
fn sorted_list(
    alloc: Global,
    index: &mut IndexMap<FileName, u64>,
) -> Result<Vec<Listed>, AllocError>
    ensures numbers { (q : List ℕ) → get same_name index.new q ≡ get same_name index.old q }
    ensures room { spare index.old ≤ spare index.new }
    ensures rows { IfOk result (λ listed. listed.items ≡ map listed_at index.new.entries) }
    ensures sorted { OnOk result (IsSorted (slice_cmp nat_cmp) (keys index.new)) }
    ensures unique { IsUnique same_name index.new }
{
    index.sort_keys()?;
    rows_of(alloc, index)
}

/// The names in the index's order, with their index.
fn rows_of(alloc: Global, index: &IndexMap<FileName, u64>) -> Result<Vec<Listed>, AllocError>
    ensures { IfOk result (λ listed. listed.items ≡ map listed_at index.now.entries) }
{
    index
        .iter()
        .map(|(name, number)| Listed {
            name: *name,
            stamp: *number,
        })
        .collect(alloc)
}
