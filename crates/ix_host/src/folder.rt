//! A directory over a real folder.
ghost use Rattle.std.specs.Prelude.{◌≡◌, ◌-◌, ◌<◌, ◌≤◌, ℕ, [], None, Some, is_ok, is_err, if◌then◌else◌, IsTrue, IfOk, OnOk, OnErr};
ghost use Rattle.ix_dir.specs.Calls.{is_failed, is_find};
ghost use Rattle.ix_dir.specs.Files.{IsRising};
ghost use Rattle.ix_dir.specs.State.{is_staged, with_slot, counted_where};
ghost use Rattle.ix_host.specs.OnHost.{slot_on, state_on, is_fault};

use crate::place::Place;
use indexmap::IndexMap;
use ix_dir::{Area, Dir, DirError, Listed};
use ix_types::{Failed, FileName, Memory, Seq, count_up};
use std::alloc::{AllocGlobal, Global};
use std::marker::Model;
use std::rt::Files;

/// A directory over a real folder. It tells no moves: contracts see its counts, its room, and which slots are staged.
///
/// The unit files are `units/NAME`, the record files `records/NAME`, and the slots `slots/NUMBER`. The folder and these three are
/// made at the first call where they are missing. What isn't a plain file with a file name is passed over. A file that is renamed
/// gets the number of the rename as its stamp, and one that was there before has the stamp 0.
#[derive(Drop)]
pub struct Folder<R: Files> {
    place: Place<R>,
    staged: IndexMap<u32, ()>,
    spare: u32,
    faults: u64,
    listings: u64,
    finds: u64,
}

impl<R: Files> Model for Folder<R> {
    ghost use Rattle.ix_host.specs.OnHost.{OnHost};

    ghost Value = { OnHost };

    ghost view = { λ f. record { staged = f.staged.entries; spare = f.spare; faults = f.faults; listings = f.listings; finds = f.finds } };
}

impl<R: Files + AllocGlobal + Drop> Folder<R> {
    /// A directory over the folder at the path. The folder isn't looked at before the first call.
    pub fn new(rt: R, path: &str) -> Result<Folder<R>, Memory>
        ensures { IfOk result (λ folder. folder ≡ record { staged = []; spare = 0; faults = 0; listings = 0; finds = 0 }) }
    {
        let alloc = rt.alloc();
        Ok(Folder {
            place: Place::new(alloc, rt, path)?,
            staged: IndexMap::new(alloc),
            spare: 0,
            faults: 0,
            listings: 0,
            finds: 0,
        })
    }
}

impl<R: Files> Folder<R> {
    /// Counts a failure of the outside. Want of memory isn't counted.
    fn count_fault(&mut self, error: DirError)
        ensures { self.new ≡ record self.old { faults = counted_where (is_fault error) self.old.faults } }
    {
        if error == DirError::Failed {
            self.faults = count_up(self.faults);
        }
    }

    /// Counts a rename, removal or sync, and its failure, where it failed.
    fn count_change(&mut self, answer: Result<(), DirError>) -> Result<(), Failed>
        requires { 0 < self.old.spare }
        ensures answer { is_ok result ≡ is_ok answer }
        ensures state { self.new ≡ record self.old { spare = self.old.spare - 1; faults = counted_where (is_err answer) self.old.faults } }
    {
        self.spare -= 1;
        match answer {
            Ok(()) => Ok(()),
            Err(_) => {
                self.faults = count_up(self.faults);
                Err(Failed)
            }
        }
    }
}

impl<R: Files> Dir for Folder<R> {
    ghost state = { state_on };

    fn reserve(&mut self, _alloc: Global, calls: u32) -> Result<(), Memory>
        ensures room { OnOk result (calls ≤ self.new.spare) }
        ensures more { self.old.spare ≤ self.new.spare }
        ensures others { self.new ≡ record self.old { spare = self.new.spare } }
        ensures wanting { OnErr result (self.new ≡ self.old) }
    {
        if calls <= self.spare {
            return Ok(());
        }
        self.place.reserve(calls)?;
        self.spare = calls;
        Ok(())
    }

    fn list(&mut self, alloc: Global, area: Area) -> Result<Seq<Listed>, DirError>
        ensures rising { IfOk result IsRising }
        ensures state { self.new ≡ record self.old { faults = counted_where (is_failed result) self.old.faults; listings = counted_where (is_ok result) self.old.listings } }
    {
        match self.place.list(alloc, area) {
            Ok(listed) => {
                self.listings = count_up(self.listings);
                Ok(Seq::of(listed))
            }
            Err(error) => {
                self.count_fault(error);
                Err(error)
            }
        }
    }

    fn read(
        &mut self,
        alloc: Global,
        area: Area,
        name: FileName,
    ) -> Result<Option<Seq<u8>>, DirError>
        ensures state { self.new ≡ record self.old { faults = counted_where (is_failed result) self.old.faults; finds = counted_where (is_find area result) self.old.finds } }
    {
        match self.place.read(alloc, area, &name) {
            Ok(found) => {
                if area == Area::Records && found.is_some() {
                    self.finds = count_up(self.finds);
                }
                Ok(found)
            }
            Err(error) => {
                self.count_fault(error);
                Err(error)
            }
        }
    }

    fn stage(&mut self, _alloc: Global, slot: u32, bytes: &[u8]) -> Result<(), DirError>
        ensures staged { (other : ℕ) → slot_on self.new other ≡ with_slot (slot_on self.old) slot (if is_ok result then Some [] else None) other }
        ensures state { self.new ≡ record self.old { staged = self.new.staged; faults = counted_where (is_failed result) self.old.faults } }
    {
        let _before = self.staged.swap_remove(&slot);
        match self.place.stage(slot, bytes) {
            Ok(()) => {
                self.staged.insert(slot, ())?;
                Ok(())
            }
            Err(error) => {
                self.count_fault(error);
                Err(error)
            }
        }
    }

    fn rename(&mut self, slot: u32, area: Area, name: FileName) -> Result<(), Failed>
        requires staged { IsTrue (is_staged (state_on self.old) slot) }
        requires room { 0 < self.old.spare }
        ensures emptied { OnOk result ((other : ℕ) → slot_on self.new other ≡ with_slot (slot_on self.old) slot None other) }
        ensures kept { OnErr result (self.new.staged ≡ self.old.staged) }
        ensures state { self.new ≡ record self.old { staged = self.new.staged; spare = self.old.spare - 1; faults = counted_where (is_err result) self.old.faults } }
    {
        let renamed = self.place.rename(slot, area, &name);
        self.count_change(renamed)?;
        let _renamed = self.staged.swap_remove(&slot);
        Ok(())
    }

    fn remove(&mut self, area: Area, name: FileName) -> Result<(), Failed>
        requires { 0 < self.old.spare }
        ensures state { self.new ≡ record self.old { spare = self.old.spare - 1; faults = counted_where (is_err result) self.old.faults } }
    {
        let removed = self.place.remove(area, &name);
        self.count_change(removed)
    }

    fn sync(&mut self, area: Area) -> Result<(), Failed>
        requires { 0 < self.old.spare }
        ensures state { self.new ≡ record self.old { spare = self.old.spare - 1; faults = counted_where (is_err result) self.old.faults } }
    {
        let synced = self.place.sync(area);
        self.count_change(synced)
    }
}
