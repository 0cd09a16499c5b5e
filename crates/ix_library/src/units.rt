//! Changes of the visible units.
ghost use Rattle.std.specs.Prelude.{◌≡◌, ◌⊎◌, ◌<◌, ℕ, List, length, true, false, is_some, nat_eq, Ok, Err, Some, None, IfOk, IfSome, IsSome, OnOk};
ghost use Rattle.ix_dir.specs.declared.area.Area.TheVariants.{Units};
ghost use Rattle.ix_dir.specs.Calls.{removed};
ghost use Rattle.ix_dir.specs.State.{counted_where, staged_bytes};
ghost use Rattle.ix_cabinet.specs.Changes.{Publishes, settled_by};
ghost use Rattle.ix_machine.specs.declared.event.Call.TheVariants as call;
ghost use Rattle.ix_machine.specs.Given as given;
ghost use Rattle.ix_machine.specs.State.{State};
ghost use Rattle.ix_ledger.specs.Effects.{publish_change, remove_change};
ghost use Rattle.ix_ledger.specs.Kept.{staged_in};
ghost use Rattle.ix_changes.specs.Syncs.{with_sync, with_syncs, IsStoppedIn};
ghost use Rattle.ix_library.specs.Endings.{flag_for, with_event, ended_with, publish_name, publish_answer, publish_ending, publish_leaves, publish_failed, IsPublishAnswer, remove_answer, remove_ending, remove_leaves, remove_failed, IsRemoveAnswer};
ghost use Rattle.ix_library.specs.StandsFor.{HasSlots, StandsFor, Takes};

use crate::fault::{PublishError, RemoveError};
use crate::given::given;
use crate::library::Library;
use crate::room::make_room;
use ix_cabinet::Settled;
use ix_dir::Dir;
use ix_ledger::{Change, Ledger, laws};
use ix_types::{Failed, FileName, Naming, Text};
use std::alloc::Global;

impl<D: Dir, N: Naming> Library<D, N> {
    /// Publishes what the lane has staged, under the name of its output path. It clashes where the visible unit of the name has another output path, and then the
    /// directory isn't called. Else the records are synced where one waits for it, then the units where a change of them does; then the unit file comes to its
    /// name, and the units are synced. The lease is dropped, but after want of memory all is as before.
    pub fn publish(&mut self, alloc: Global, lane: u32) -> Result<Settled, PublishError>
        requires lane { lane < length self.old.ledger.kept.guard.leases }
        requires staged { IsSome (staged_in self.old.ledger.kept lane) }
        requires ready { HasSlots self.old.ledger.kept (D.state self.old.dir) }
        ensures step { (s : State) → StandsFor N.name_of s self.old.ledger.kept self.old.shelf self.old.known (D.state self.old.dir) → IfSome (publish_ending result) (λ how. Takes N.name_of s lane given.Publish (flag_for how) how (D.state self.old.dir) self.new.ledger.kept self.new.shelf self.new.known (D.state self.new.dir)) }
        ensures event { self.new.ledger.events ≡ with_event self.old.ledger.events lane (call.Publish (publish_name N.name_of self.old.ledger.kept lane)) (publish_ending result) }
        ensures kept { self.new.ledger.kept ≡ publish_leaves result self.old.ledger.kept lane (publish_change self.old.ledger.kept lane (publish_name N.name_of self.old.ledger.kept lane)) }
        ensures answer { IsPublishAnswer result (publish_name N.name_of self.old.ledger.kept lane) (publish_change self.old.ledger.kept lane (publish_name N.name_of self.old.ledger.kept lane)) }
        // Where it clashes, and after want of memory, the directory was asked for room alone.
        ensures uncalled { (name : List ℕ) → result ≡ Err (PublishError.Clash name) → D.state self.new.dir ≡ record (D.state self.old.dir) { spare = (D.state self.new.dir).spare } }
        ensures wanting { result ≡ Err PublishError.Memory → D.state self.new.dir ≡ record (D.state self.old.dir) { spare = (D.state self.new.dir).spare } }
        ensures shelf { result ≡ Err PublishError.Memory → self.new.shelf ≡ self.old.shelf }
        ensures again { (s : State) → StandsFor N.name_of s self.old.ledger.kept self.old.shelf self.old.known (D.state self.old.dir) → result ≡ Err PublishError.Memory → StandsFor N.name_of s self.new.ledger.kept self.new.shelf self.new.known (D.state self.new.dir) }
        // The moves, exactly, and how far they came where it failed.
        ensures published { IfOk result (λ settled. Publishes settled (publish_name N.name_of self.old.ledger.kept lane) (staged_bytes (D.state self.old.dir) lane) (with_syncs self.old.shelf.unsynced (is_some self.old.ledger.kept.pending) (D.state self.old.dir).moves) (D.state self.new.dir).moves) }
        ensures part { result ≡ Err PublishError.Fault → IsStoppedIn (is_some self.old.ledger.kept.pending) self.old.shelf self.new.shelf (D.state self.old.dir).moves (D.state self.new.dir).moves }
        ensures synced { OnOk result (self.new.shelf.unsynced ≡ false) }
        // Nothing is listed or looked for, and the slots of other lanes stay.
        ensures listings { (D.state self.new.dir).listings ≡ (D.state self.old.dir).listings }
        ensures finds { (D.state self.new.dir).finds ≡ (D.state self.old.dir).finds }
        ensures slots { (other : ℕ) → nat_eq lane other ≡ false → (D.state self.new.dir).slots other ≡ (D.state self.old.dir).slots other }
        ensures known { self.new.known ≡ self.old.known }
        ensures cause { (D.state self.new.dir).faults ≡ counted_where (publish_failed result) (D.state self.old.dir).faults }
        ensures ready { HasSlots self.new.ledger.kept (D.state self.new.dir) }
    {
        given();
        laws::each_step_is_the_machines();
        let name = self.publish_name(lane);
        if make_room(alloc, &mut self.dir, &mut self.ledger).is_err() {
            return Err(PublishError::Memory);
        }
        match self.ledger.publishing(alloc, lane, name)? {
            None => {
                self.ledger.publish_clashed(lane, name);
                Err(PublishError::Clash { name })
            }
            Some(change) => {
                let waits = self.ledger.pending().is_some();
                let answer = ix_changes::publish(&mut self.dir, &mut self.shelf, lane, name, waits);
                end_publish(&mut self.ledger, lane, name, change, answer)
            }
        }
    }

    /// Removes the unit of an output path. There is none where no visible unit has the path, and then the directory isn't called. Else the units are synced where a
    /// change of them waits for it; then the unit file goes, and the units are synced. After want of memory all is as before.
    pub fn remove(
        &mut self,
        alloc: Global,
        lane: u32,
        output: &Text,
    ) -> Result<Settled, RemoveError>
        ensures step { (s : State) → StandsFor N.name_of s self.old.ledger.kept self.old.shelf self.old.known (D.state self.old.dir) → IfSome (remove_ending result) (λ how. Takes N.name_of s lane (given.Remove output.now) (flag_for how) how (D.state self.old.dir) self.new.ledger.kept self.new.shelf self.new.known (D.state self.new.dir)) }
        ensures event { self.new.ledger.events ≡ with_event self.old.ledger.events lane (call.Remove (N.name_of output.now)) (remove_ending result) }
        ensures kept { self.new.ledger.kept ≡ remove_leaves result self.old.ledger.kept (remove_change self.old.ledger.kept (N.name_of output.now) output.now) }
        ensures answer { IsRemoveAnswer result (N.name_of output.now) (remove_change self.old.ledger.kept (N.name_of output.now) output.now) }
        // Where there is no unit, and after want of memory, the directory was asked for room alone.
        ensures uncalled { (name : List ℕ) → result ≡ Err (RemoveError.NoUnit name) → D.state self.new.dir ≡ record (D.state self.old.dir) { spare = (D.state self.new.dir).spare } }
        ensures wanting { result ≡ Err RemoveError.Memory → D.state self.new.dir ≡ record (D.state self.old.dir) { spare = (D.state self.new.dir).spare } }
        ensures shelf { self.new.shelf ≡ self.old.shelf }
        ensures again { (s : State) → StandsFor N.name_of s self.old.ledger.kept self.old.shelf self.old.known (D.state self.old.dir) → result ≡ Err RemoveError.Memory → StandsFor N.name_of s self.new.ledger.kept self.new.shelf self.new.known (D.state self.new.dir) }
        // The moves, exactly, and how far they came where it failed.
        ensures removed { IfOk result (λ settled. (D.state self.new.dir).moves ≡ settled_by settled (removed (with_sync (is_some self.old.ledger.kept.pending) Units (D.state self.old.dir).moves) Units (N.name_of output.now))) }
        ensures part { result ≡ Err RemoveError.Fault → ((D.state self.new.dir).moves ≡ (D.state self.old.dir).moves) ⊎ ((D.state self.new.dir).moves ≡ with_sync (is_some self.old.ledger.kept.pending) Units (D.state self.old.dir).moves) }
        // Nothing is listed or looked for, and the slots stay.
        ensures listings { (D.state self.new.dir).listings ≡ (D.state self.old.dir).listings }
        ensures finds { (D.state self.new.dir).finds ≡ (D.state self.old.dir).finds }
        ensures slots { (D.state self.new.dir).slots ≡ (D.state self.old.dir).slots }
        ensures known { self.new.known ≡ self.old.known }
        ensures cause { (D.state self.new.dir).faults ≡ counted_where (remove_failed result) (D.state self.old.dir).faults }
        ensures ready { HasSlots self.old.ledger.kept (D.state self.old.dir) → HasSlots self.new.ledger.kept (D.state self.new.dir) }
    {
        given();
        laws::each_step_is_the_machines();
        if make_room(alloc, &mut self.dir, &mut self.ledger).is_err() {
            return Err(RemoveError::Memory);
        }
        let name = self.naming.name(output.bytes());
        match self.ledger.removing(alloc, name, output)? {
            None => {
                self.ledger.remove_refused(lane, name);
                Err(RemoveError::NoUnit { name })
            }
            Some(change) => {
                let pending = self.ledger.pending().is_some();
                let answer = ix_changes::remove(&mut self.dir, &mut self.shelf, name, pending);
                end_remove(&mut self.ledger, lane, name, change, answer)
            }
        }
    }

    /// The name under which the lane publishes what it has staged.
    fn publish_name(&self, lane: u32) -> FileName
        requires lane { lane < length self.now.ledger.kept.guard.leases }
        requires staged { IsSome (staged_in self.now.ledger.kept lane) }
        ensures { result ≡ publish_name N.name_of self.now.ledger.kept lane }
    {
        match self.ledger.staged(lane) {
            Some(unit) => self.naming.name(unit.output.bytes()),
            None => unreachable!(),
        }
    }
}

/// Writes down how a publish ended whose change was to be made.
fn end_publish(
    ledger: &mut Ledger,
    lane: u32,
    name: FileName,
    change: Change,
    answer: Result<Settled, Failed>,
) -> Result<Settled, PublishError>
    requires lane { lane < length ledger.old.kept.guard.leases }
    requires change { publish_change ledger.old.kept lane name ≡ Some change }
    requires room { ledger.old.has_room ≡ true }
    ensures answer { result ≡ publish_answer answer }
    ensures ledger { ledger.new ≡ ended_with ledger.old (publish_leaves result ledger.old.kept lane (Some change)) lane (call.Publish name) (publish_ending result) }
{
    match answer {
        Ok(Settled::Synced) => {
            ledger.publish_made(lane, name, change, false);
            Ok(Settled::Synced)
        }
        Ok(Settled::Unsynced) => {
            ledger.publish_made(lane, name, change, true);
            Ok(Settled::Unsynced)
        }
        Err(Failed) => {
            ledger.publish_failed(lane, name);
            Err(PublishError::Fault)
        }
    }
}

/// Writes down how a removal ended whose change was to be made.
fn end_remove(
    ledger: &mut Ledger,
    lane: u32,
    name: FileName,
    change: Change,
    answer: Result<Settled, Failed>,
) -> Result<Settled, RemoveError>
    requires { ledger.old.has_room ≡ true }
    ensures answer { result ≡ remove_answer answer }
    ensures ledger { ledger.new ≡ ended_with ledger.old (remove_leaves result ledger.old.kept (Some change)) lane (call.Remove name) (remove_ending result) }
{
    match answer {
        Ok(Settled::Synced) => {
            ledger.remove_made(lane, name, change, false);
            Ok(Settled::Synced)
        }
        Ok(Settled::Unsynced) => {
            ledger.remove_made(lane, name, change, true);
            Ok(Settled::Unsynced)
        }
        Err(Failed) => {
            ledger.remove_failed(lane, name);
            Err(RemoveError::Fault)
        }
    }
}
