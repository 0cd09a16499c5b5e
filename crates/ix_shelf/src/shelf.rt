//! Record files on a directory.
ghost use Rattle.std.specs.Prelude.{◌≡◌, ◌≢◌, ◌⊎◌, ◌+◌, ◌<◌, ℕ, List, true, false, if◌then◌else◌, IfOk, IfSome, OnOk, OnErr, Ok, Err, Some, None};
ghost use Rattle.ix_types.specs.Count.{counted};
ghost use Rattle.ix_dir.specs.declared.area.Area.{Area};
ghost use Rattle.ix_dir.specs.declared.area.Area.TheVariants.{Records};
ghost use Rattle.ix_dir.specs.Calls.{with_move, Renames, removed, after_rename};
ghost use Rattle.ix_dir.specs.State.{spent, failed, with_slot, counted_where};
ghost use Rattle.ix_dir.specs.WhatAChangeLeaves.{LeavesAt, AddsTo, IfTold};
ghost use Rattle.ix_dir.specs.declared.moves.Move.TheVariants.{Synced};
ghost use Rattle.ix_dir.specs.Moves.{area_after};
ghost use Rattle.ix_shelf.specs.Answers.{record_at, put_answer, Answers, put_failed, load_failed, StandsWhole, IsRecordOf};
ghost use Rattle.ix_shelf.specs.Shelf.{Knows};

use crate::fault::{LoadError, PutError};
use ix_dir::{Area, Dir, laws};
use ix_record::{Body, RecordError, RecordValue, decode};
use ix_types::{Failed, FileName, Naming, Seq};
use std::alloc::Global;
use std::marker::Model;
use std::sync::Arc;

/// How a record file came to stand under its name.
#[derive(Clone, Copy, Debug, PartialEq, Eq)]
pub enum Put {
    /// It was written there.
    Written,
    /// It stood there before.
    Shared,
}

/// The record files of a directory. A shelf knows whether a change of them may wait for a sync.
#[derive(Debug, Drop)]
pub struct Shelf {
    unsynced: bool,
}

impl Model for Shelf {
    ghost use Rattle.ix_shelf.specs.Shelf.{OnShelf};

    ghost Value = { OnShelf };

    ghost view = { λ s. record { unsynced = s.unsynced } };
}

impl Shelf {
    /// A shelf for a directory of which no change of the records area waits for a sync. Takes no memory.
    pub fn new() -> Shelf
        ensures { result.unsynced ≡ false }
    {
        Shelf { unsynced: false }
    }

    /// Makes a record file stand under its name. Where these bytes stand there, it is shared. Where other bytes do and the name
    /// is protected, nothing is written. Else the file is made ready in the slot and renamed, in place of what was there.
    ///
    /// After want of memory both areas are as before, and the slot has what it had or isn't staged.
    pub fn put<D: Dir>(
        &mut self,
        alloc: Global,
        dir: &mut D,
        slot: u32,
        body: &Body,
        protected: bool,
    ) -> Result<Put, PutError>
        requires { 0 < (D.state dir.old).spare }
        ensures answer { IfSome (D.state dir.old).moves (λ m. Answers result (put_answer protected body.now (record_at m body.now.name))) }
        ensures clash { (name : List ℕ) → result ≡ Err (PutError.Clash name) → (name ≡ body.now.name) × (protected ≡ true) }
        ensures stands { OnOk result (IfSome (D.state dir.new).moves (λ m. record_at m body.now.name ≡ Some body.now.bytes)) }

        // The directory after it, by what was answered: one rename where the file was written, and no move else. A file that stays was read.
        ensures written { result ≡ Ok Put.Written → D.state dir.new ≡ after_rename slot (D.state dir.new).moves (record (D.state dir.old) { finds = (D.state dir.new).finds }) }
        ensures renamed { result ≡ Ok Put.Written → Renames (D.state dir.old).moves (D.state dir.new).moves Records body.now.name body.now.bytes }
        ensures shared { result ≡ Ok Put.Shared → D.state dir.new ≡ record (D.state dir.old) { finds = counted (D.state dir.old).finds } }
        ensures stayed { (name : List ℕ) → result ≡ Err (PutError.Clash name) → D.state dir.new ≡ record (D.state dir.old) { finds = counted (D.state dir.old).finds } }
        ensures failed { result ≡ Err PutError.Fault → D.state dir.new ≡ record (failed (D.state dir.old)) { slots = with_slot (D.state dir.old).slots slot ((D.state dir.new).slots slot); spare = (D.state dir.new).spare; finds = (D.state dir.new).finds } }
        ensures wanting { result ≡ Err PutError.Memory → D.state dir.new ≡ record (D.state dir.old) { slots = with_slot (D.state dir.old).slots slot ((D.state dir.new).slots slot); finds = (D.state dir.new).finds } }
        ensures tried { result ≡ Err PutError.Fault → ((D.state dir.new).spare ≡ (D.state dir.old).spare) ⊎ ((D.state dir.new).spare + 1 ≡ (D.state dir.old).spare) }
        ensures unstaged { result ≡ Err PutError.Memory → ((D.state dir.new).slots slot ≡ None) ⊎ ((D.state dir.new).slots slot ≡ (D.state dir.old).slots slot) }
        ensures found { ((D.state dir.new).finds ≡ (D.state dir.old).finds) ⊎ ((D.state dir.new).finds ≡ counted (D.state dir.old).finds) }
        ensures cause { (D.state dir.new).faults ≡ counted_where (put_failed result) (D.state dir.old).faults }

        // What follows for the moves, and what the shelf knows of them.
        ensures kept { result ≢ Ok Put.Written → (D.state dir.new).moves ≡ (D.state dir.old).moves }
        ensures added { AddsTo (D.state dir.old).moves (D.state dir.new).moves }
        ensures left { result ≡ Ok Put.Written → IfTold (D.state dir.old).moves (D.state dir.new).moves (LeavesAt Records body.now.name (Some body.now.bytes)) }
        ensures unsynced { result ≡ Ok Put.Written → self.new.unsynced ≡ true }
        ensures same { result ≢ Ok Put.Written → self.new ≡ self.old }
        ensures known { Knows self.old (D.state dir.old).moves → Knows self.new (D.state dir.new).moves }
    {
        laws::rename_leaves();
        laws::calls_add_moves();
        match look(alloc, dir, body, protected)? {
            Put::Shared => Ok(Put::Shared),
            Put::Written => {
                write(alloc, dir, slot, body)?;
                self.unsynced = true;
                Ok(Put::Written)
            }
        }
    }

    /// The record of a name, whose file is read anew. Over a directory that tells its moves, the record stands there whole.
    pub fn load<D: Dir, N: Naming>(
        &self,
        alloc: Global,
        dir: &mut D,
        naming: &N,
        name: FileName,
    ) -> Result<Arc<RecordValue>, LoadError>
        requires { IfSome (D.state dir.old).moves (StandsWhole N.name_of name) }
        ensures value { IfOk result (λ value. IsRecordOf N.name_of name (D.state dir.old).moves value.value) }
        // An answer comes from a file that was read.
        ensures read { OnOk result ((D.state dir.new).finds ≡ counted (D.state dir.old).finds) }
        // Nothing was found under the name.
        ensures lost { (n : List ℕ) → result ≡ Err (LoadError.Lost n) → (n ≡ name) × ((D.state dir.old).moves ≡ None) × ((D.state dir.new).finds ≡ (D.state dir.old).finds) }
        // What was found there isn't whole.
        ensures damaged { (n : List ℕ) → result ≡ Err (LoadError.Damaged n) → (n ≡ name) × ((D.state dir.old).moves ≡ None) × ((D.state dir.new).finds ≡ counted (D.state dir.old).finds) }
        // Of the directory two counts alone change.
        ensures state { D.state dir.new ≡ record (D.state dir.old) { faults = counted_where (load_failed result) (D.state dir.old).faults; finds = (D.state dir.new).finds } }
        ensures found { ((D.state dir.new).finds ≡ (D.state dir.old).finds) ⊎ ((D.state dir.new).finds ≡ counted (D.state dir.old).finds) }
    {
        let Some(bytes) = dir.read(alloc, Area::Records, name)? else {
            return Err(LoadError::Lost { name });
        };
        if naming.name(bytes.as_slice()) != name {
            return Err(LoadError::Damaged { name });
        }
        match decode(alloc, bytes.as_slice()) {
            Ok(value) => Ok(Arc::new(alloc, value)?),
            Err(RecordError::Memory) => Err(LoadError::Memory),
            Err(_) => Err(LoadError::Damaged { name }),
        }
    }

    /// Makes all changes of the records area stay after a crash, by a sync where one waits for it. Takes no memory.
    pub fn settle<D: Dir>(&mut self, dir: &mut D) -> Result<(), Failed>
        requires { 0 < (D.state dir.old).spare }
        // One sync where a change waits, and else no call.
        ensures synced { OnOk result (D.state dir.new ≡ (if self.old.unsynced then record (spent (D.state dir.old)) { moves = with_move (D.state dir.old).moves (Synced Records) } else D.state dir.old)) }
        ensures failed { OnErr result (D.state dir.new ≡ failed (spent (D.state dir.old))) }
        ensures waits { OnErr result (self.old.unsynced ≡ true) }
        ensures done { OnOk result (self.new.unsynced ≡ false) }
        ensures same { OnErr result (self.new ≡ self.old) }

        // What follows for the moves.
        ensures added { AddsTo (D.state dir.old).moves (D.state dir.new).moves }
        ensures areas { IfTold (D.state dir.old).moves (D.state dir.new).moves (λ before now. (area : Area) → area_after now area ≡ area_after before area) }
        ensures known { Knows self.old (D.state dir.old).moves → Knows self.new (D.state dir.new).moves }
    {
        laws::sync_leaves();
        laws::calls_add_moves();
        if !self.unsynced {
            return Ok(());
        }
        dir.sync(Area::Records)?;
        self.unsynced = false;
        Ok(())
    }

    /// Takes a record file away; where it isn't there, nothing changes. Takes no memory.
    pub fn remove<D: Dir>(&mut self, dir: &mut D, name: FileName) -> Result<(), Failed>
        requires { 0 < (D.state dir.old).spare }
        ensures removed { OnOk result (D.state dir.new ≡ record (spent (D.state dir.old)) { moves = removed (D.state dir.old).moves Records name }) }
        ensures failed { OnErr result (D.state dir.new ≡ failed (spent (D.state dir.old))) }
        ensures unsynced { OnOk result (self.new.unsynced ≡ true) }
        ensures same { OnErr result (self.new ≡ self.old) }

        // What follows for the moves.
        ensures added { AddsTo (D.state dir.old).moves (D.state dir.new).moves }
        ensures left { OnOk result (IfTold (D.state dir.old).moves (D.state dir.new).moves (LeavesAt Records name None)) }
        ensures known { Knows self.old (D.state dir.old).moves → Knows self.new (D.state dir.new).moves }
    {
        laws::removal_leaves();
        laws::calls_add_moves();
        dir.remove(Area::Records, name)?;
        self.unsynced = true;
        Ok(())
    }
}

/// What a put answers where nothing fails, by what stands under the name.
fn look<D: Dir>(alloc: Global, dir: &mut D, body: &Body, protected: bool) -> Result<Put, PutError>
    ensures answer { IfSome (D.state dir.old).moves (λ m. Answers result (put_answer protected body.now (record_at m body.now.name))) }
    ensures clash { (name : List ℕ) → result ≡ Err (PutError.Clash name) → (name ≡ body.now.name) × (protected ≡ true) }
    ensures state { D.state dir.new ≡ record (D.state dir.old) { faults = counted_where (put_failed result) (D.state dir.old).faults; finds = (D.state dir.new).finds } }
    ensures shared { result ≡ Ok Put.Shared → (D.state dir.new).finds ≡ counted (D.state dir.old).finds }
    ensures stayed { (name : List ℕ) → result ≡ Err (PutError.Clash name) → (D.state dir.new).finds ≡ counted (D.state dir.old).finds }
    ensures found { ((D.state dir.new).finds ≡ (D.state dir.old).finds) ⊎ ((D.state dir.new).finds ≡ counted (D.state dir.old).finds) }
{
    let Some(found) = dir.read(alloc, Area::Records, body.name)? else {
        return Ok(Put::Written);
    };
    if found == body.bytes {
        return Ok(Put::Shared);
    }
    if protected {
        return Err(PutError::Clash { name: body.name });
    }
    Ok(Put::Written)
}

/// Makes the file ready in the slot, and renames it to its name.
fn write<D: Dir>(alloc: Global, dir: &mut D, slot: u32, body: &Body) -> Result<(), PutError>
    requires { 0 < (D.state dir.old).spare }
    ensures written { OnOk result (D.state dir.new ≡ after_rename slot (D.state dir.new).moves (D.state dir.old)) }
    ensures renamed { OnOk result (Renames (D.state dir.old).moves (D.state dir.new).moves Records body.now.name body.now.bytes) }
    ensures clash { (name : List ℕ) → result ≢ Err (PutError.Clash name) }
    ensures failed { result ≡ Err PutError.Fault → D.state dir.new ≡ record (failed (D.state dir.old)) { slots = with_slot (D.state dir.old).slots slot ((D.state dir.new).slots slot); spare = (D.state dir.new).spare } }
    ensures tried { result ≡ Err PutError.Fault → ((D.state dir.new).spare ≡ (D.state dir.old).spare) ⊎ ((D.state dir.new).spare + 1 ≡ (D.state dir.old).spare) }
    ensures wanting { result ≡ Err PutError.Memory → D.state dir.new ≡ record (D.state dir.old) { slots = with_slot (D.state dir.old).slots slot ((D.state dir.new).slots slot) } }
    ensures unstaged { result ≡ Err PutError.Memory → (D.state dir.new).slots slot ≡ None }
{
    dir.stage(alloc, slot, body.bytes.as_slice())?;
    dir.rename(slot, Area::Records, body.name)?;
    Ok(())
}
