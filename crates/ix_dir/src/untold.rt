//! A directory in memory that doesn't tell its moves.
ghost use Rattle.std.specs.Prelude.{◌≡◌, ◌-◌, ◌<◌, ◌≤◌, ℕ, [], ◌∷◌, ◌++◌, length, take, None, Some, is_ok, is_err, if◌then◌else◌, IfOk, IsTrue, OnOk, OnErr, option_and_then};
ghost use Rattle.ix_dir.specs.Calls.{moves_removed, is_failed, is_find};
ghost use Rattle.ix_dir.specs.Files.{bytes_at, listed_of, IsRising};
ghost use Rattle.ix_dir.specs.InMemory.{next_fails, begun, moved, slot_at, state_of};
ghost use Rattle.ix_dir.specs.Moves.{Renamed, Synced, area_after};
ghost use Rattle.ix_dir.specs.State.{staged_bytes, is_staged, with_slot, counted_where};
ghost use Rattle.ix_dir.specs.Untold.{answer_of, next_reads, reads_at, state_untold};
ghost use Rattle.ix_types.specs.Count.{counted};

use crate::area::Area;
use crate::dir::{Dir, DirError, Listed};
use crate::memory::MemoryDir;
use ix_types::{Failed, FileName, Memory, Seq, count_up};
use std::alloc::Global;
use std::marker::Model;

/// What an `UntoldDir` answers to a read of a file that is there.
#[derive(Clone, Copy, Debug, Drop, PartialEq, Eq)]
pub enum Reads {
    /// Its bytes.
    Whole,
    /// Nothing, as if there were no such file.
    Nothing,
    /// Its bytes but the last.
    ByteLess,
}

/// From the read of this number on, reads are answered in this way. Reads are counted from 1, those that fail too.
#[derive(Clone, Copy, Debug, Drop, PartialEq, Eq)]
pub struct ReadsFrom {
    pub read: u64,
    pub reads: Reads,
}

/// A directory in memory that doesn't tell its moves, and that may answer reads wrongly. For tests of code over any directory.
#[derive(Debug, Drop)]
pub struct UntoldDir {
    inner: MemoryDir,
    reads: Reads,
    changes: Option<Seq<ReadsFrom>>,
    made: u64,
    finds: u64,
}

impl Model for UntoldDir {
    ghost use Rattle.std.specs.Prelude.{[], unwrap_or};
    ghost use Rattle.ix_dir.specs.Untold.{Untold};

    ghost Value = { Untold };

    ghost view = { λ d. record { inner = d.inner; reads = d.reads; changes = unwrap_or d.changes []; made = d.made; finds = d.finds } };
}

impl UntoldDir {
    /// This directory, with its moves untold and its reads answered in this way. Takes no memory.
    pub fn new(inner: MemoryDir, reads: Reads) -> UntoldDir
        ensures { result ≡ record { inner = inner; reads = reads; changes = []; made = 0; finds = 0 } }
    {
        UntoldDir {
            inner,
            reads,
            changes: None,
            made: 0,
            finds: 0,
        }
    }

    /// Answers reads in this way from now on.
    pub fn set_reads(&mut self, reads: Reads)
        ensures { self.new ≡ record self.old { reads = reads; changes = [] } }
    {
        self.reads = reads;
        self.changes = None;
    }

    /// Changes how reads are answered at these reads, in place of earlier such changes. Where several are made from one read or
    /// an earlier one, the last of them holds.
    pub fn set_changes(&mut self, changes: Seq<ReadsFrom>)
        ensures { self.new ≡ record self.old { changes = changes } }
    {
        self.changes = Some(changes);
    }

    /// How a read is answered that is made now.
    fn reads_now(&self) -> Reads
        ensures { result ≡ reads_at self.now.reads self.now.changes self.now.made }
    {
        match &self.changes {
            Some(changes) => reads_of(self.reads, changes.as_slice(), self.made),
            None => self.reads,
        }
    }
}

impl Dir for UntoldDir {
    ghost state = { state_untold };

    fn reserve(&mut self, alloc: Global, calls: u32) -> Result<(), Memory>
        ensures room { OnOk result (calls ≤ self.new.inner.spare) }
        ensures more { self.old.inner.spare ≤ self.new.inner.spare }
        ensures others { self.new ≡ record self.old { inner = record self.old.inner { spare = self.new.inner.spare } } }
        ensures wanting { OnErr result (self.new ≡ self.old) }
    {
        self.inner.reserve(alloc, calls)
    }

    fn list(&mut self, alloc: Global, area: Area) -> Result<Seq<Listed>, DirError>
        ensures listed { IfOk result (λ listed. listed ≡ listed_of (area_after self.old.inner.moves area)) }
        ensures rising { IfOk result IsRising }
        ensures fails { is_failed result ≡ next_fails self.old.inner }
        ensures state { self.new ≡ record self.old { inner = record (begun self.old.inner) { listings = counted_where (is_ok result) self.old.inner.listings } } }
    {
        self.inner.list(alloc, area)
    }

    fn read(
        &mut self,
        alloc: Global,
        area: Area,
        name: FileName,
    ) -> Result<Option<Seq<u8>>, DirError>
        ensures answer { IfOk result (λ answer. answer ≡ option_and_then (answer_of (next_reads self.old)) (bytes_at (area_after self.old.inner.moves area) name)) }
        ensures fails { is_failed result ≡ next_fails self.old.inner }
        ensures state { self.new ≡ record self.old { inner = record (begun self.old.inner) { finds = self.new.inner.finds }; made = counted self.old.made; finds = counted_where (is_find area result) self.old.finds } }
    {
        self.made = count_up(self.made);
        let found = self.inner.read(alloc, area, name)?;
        let Some(bytes) = answered(self.reads_now(), found) else {
            return Ok(None);
        };
        if area == Area::Records {
            self.finds = count_up(self.finds);
        }
        Ok(Some(bytes))
    }

    fn stage(&mut self, alloc: Global, slot: u32, bytes: &[u8]) -> Result<(), DirError>
        ensures staged { (other : ℕ) → slot_at self.new.inner other ≡ with_slot (slot_at self.old.inner) slot (if is_ok result then Some bytes.now else None) other }
        ensures fails { is_failed result ≡ next_fails self.old.inner }
        ensures state { self.new ≡ record self.old { inner = record (begun self.old.inner) { slots = self.new.inner.slots } } }
    {
        self.inner.stage(alloc, slot, bytes)
    }

    fn rename(&mut self, slot: u32, area: Area, name: FileName) -> Result<(), Failed>
        requires staged { IsTrue (is_staged (state_of self.old.inner) slot) }
        requires room { 0 < self.old.inner.spare }
        ensures emptied { OnOk result ((other : ℕ) → slot_at self.new.inner other ≡ with_slot (slot_at self.old.inner) slot None other) }
        ensures kept { OnErr result (self.new.inner.slots ≡ self.old.inner.slots) }
        ensures fails { is_err result ≡ next_fails self.old.inner }
        ensures state { self.new ≡ record self.old { inner = record (moved (self.old.inner.moves ++ Renamed area name (staged_bytes (state_of self.old.inner) slot) (length self.old.inner.moves) ∷ []) self.old.inner) { slots = self.new.inner.slots } } }
    {
        self.inner.rename(slot, area, name)
    }

    fn remove(&mut self, area: Area, name: FileName) -> Result<(), Failed>
        requires { 0 < self.old.inner.spare }
        ensures fails { is_err result ≡ next_fails self.old.inner }
        ensures state { self.new ≡ record self.old { inner = moved (moves_removed area name self.old.inner.moves) self.old.inner } }
    {
        self.inner.remove(area, name)
    }

    fn sync(&mut self, area: Area) -> Result<(), Failed>
        requires { 0 < self.old.inner.spare }
        ensures fails { is_err result ≡ next_fails self.old.inner }
        ensures state { self.new ≡ record self.old { inner = moved (self.old.inner.moves ++ Synced area ∷ []) self.old.inner } }
    {
        self.inner.sync(area)
    }
}

/// How the read of a number is answered.
fn reads_of(before: Reads, changes: &[ReadsFrom], number: u64) -> Reads
    ensures { result ≡ reads_at before changes.now number }
{
    changes.iter().fold(before, |so_far, change| {
        if change.read <= number {
            change.reads
        } else {
            so_far
        }
    })
}

/// What is answered where this was found.
fn answered(reads: Reads, found: Option<Seq<u8>>) -> Option<Seq<u8>>
    ensures { result ≡ option_and_then (answer_of reads) found }
{
    let bytes = found?;
    match reads {
        Reads::Whole => Some(bytes),
        Reads::Nothing => None,
        Reads::ByteLess => Some(without_last(bytes)),
    }
}

/// The bytes but the last.
fn without_last(bytes: Seq<u8>) -> Seq<u8>
    ensures { result ≡ take (length bytes - 1) bytes }
{
    let mut bytes = bytes.into_vec();
    let _last = bytes.pop();
    Seq::of(bytes)
}
