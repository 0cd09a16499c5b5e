//! A directory in memory that never fails.
ghost use Rattle.std.specs.Prelude.{◌≡◌, [], IfOk, OnOk, OnErr, length};
ghost use Rattle.ix_dir.specs.Crash.{IsPicked, IsSettled, standing};
ghost use Rattle.ix_dir.specs.Images.{IsImage};
ghost use Rattle.ix_dir.specs.InMemory.{new_one, placed, state_of};
ghost use Rattle.ix_dir.specs.Stamps.{IsFresh};

use crate::area::Area;
use crate::dir::{Dir, DirError, Listed};
use crate::memory::MemoryDir;
use crate::pick::Pick;
use ix_types::{Failed, FileName, Memory, Seq};
use std::alloc::Global;
use std::marker::Model;

/// A directory in memory of which no call fails, seen as a `MemoryDir` is. It tells its moves.
#[derive(Debug, Drop)]
pub struct SteadyDir {
    inner: MemoryDir,
}

impl Model for SteadyDir {
    ghost use Rattle.std.specs.Prelude.{◌≡◌, []};
    ghost use Rattle.ix_dir.specs.InMemory.{InMemory};

    ghost Value = { InMemory };

    ghost view = { λ d. d.inner };

    ghost invariant = { λ d. d.inner.fails ≡ [] };
}

impl SteadyDir {
    /// An empty directory with nothing pending. Takes no memory.
    pub fn new(alloc: Global) -> SteadyDir
        ensures { result ≡ new_one [] }
    {
        SteadyDir {
            inner: MemoryDir::new(alloc),
        }
    }

    /// Puts a file there that is synced at once, with a new stamp.
    pub fn place(
        &mut self,
        alloc: Global,
        area: Area,
        name: FileName,
        bytes: &[u8],
    ) -> Result<(), Memory>
        ensures placed { OnOk result (self.new ≡ placed self.old area name bytes.now) }
        ensures fresh { OnOk result (IsFresh self.old.moves name (length self.old.moves)) }
        ensures wanting { OnErr result (self.new ≡ self.old) }
    {
        self.inner.place(alloc, area, name, bytes)
    }

    /// The directory that a crash now leaves, by this pick. Nothing of it is pending.
    pub fn stopped(&self, alloc: Global, pick: Pick) -> Result<SteadyDir, Memory>
        ensures picked { IfOk result (λ d. IsPicked pick self.now.moves d.moves) }
        ensures possible { IfOk result (λ d. IsImage self.now.moves (standing d.moves)) }
        ensures settled { IfOk result (λ d. IsSettled d.moves) }
        ensures fresh { IfOk result (λ d. d ≡ record (new_one []) { moves = d.moves }) }
    {
        let inner = self.inner.stopped(alloc, pick)?;
        Ok(SteadyDir { inner })
    }
}

impl Dir for SteadyDir {
    ghost state = { λ d. record (state_of d) { faults = 0 } };

    fn reserve(&mut self, alloc: Global, calls: u32) -> Result<(), Memory> {
        self.inner.reserve(alloc, calls)
    }

    fn list(&mut self, alloc: Global, area: Area) -> Result<Seq<Listed>, DirError> {
        self.inner.list(alloc, area)
    }

    fn read(
        &mut self,
        alloc: Global,
        area: Area,
        name: FileName,
    ) -> Result<Option<Seq<u8>>, DirError> {
        self.inner.read(alloc, area, name)
    }

    fn stage(&mut self, alloc: Global, slot: u32, bytes: &[u8]) -> Result<(), DirError> {
        self.inner.stage(alloc, slot, bytes)
    }

    fn rename(&mut self, slot: u32, area: Area, name: FileName) -> Result<(), Failed> {
        self.inner.rename(slot, area, name)
    }

    fn remove(&mut self, area: Area, name: FileName) -> Result<(), Failed> {
        self.inner.remove(area, name)
    }

    fn sync(&mut self, area: Area) -> Result<(), Failed> {
        self.inner.sync(area)
    }
}
