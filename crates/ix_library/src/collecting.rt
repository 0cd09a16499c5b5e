//! The collector of record files that nothing needs.
ghost use Rattle.std.specs.Prelude.{◌≡◌, ◌⊎◌, ℕ, List, true, false, is_some, Ok, Err, Some, None, IfOk, IfSome, OnOk, OnErr};
ghost use Rattle.ix_types.specs.Count.{counted};
ghost use Rattle.ix_dir.specs.declared.area.Area.TheVariants.{Units};
ghost use Rattle.ix_dir.specs.State.{counted_where};
ghost use Rattle.ix_machine.specs.declared.event.Call.TheVariants as call;
ghost use Rattle.ix_machine.specs.declared.event.Outcome.TheVariants as outcome;
ghost use Rattle.ix_machine.specs.Given as given;
ghost use Rattle.ix_machine.specs.State.{State};
ghost use Rattle.ix_guard.specs.Protection.{is_protected};
ghost use Rattle.ix_ledger.specs.Effects.{settled};
ghost use Rattle.ix_changes.specs.Syncs.{with_sync};
ghost use Rattle.ix_library.specs.Endings.{flag_for, with_event, ended_with, collect_answer, collect_ending, collect_leaves, collect_failed, collected_by};
ghost use Rattle.ix_library.specs.StandsFor.{HasSlots, StandsFor, Takes};

use crate::fault::{CollectError, Collected};
use crate::given::given;
use crate::library::Library;
use crate::room::make_room;
use ix_dir::{Area, Dir, DirError};
use ix_ledger::{Ledger, laws};
use ix_types::{Failed, FileName, Naming};
use std::alloc::Global;

impl<D: Dir, N: Naming> Library<D, N> {
    /// Removes the least record file that is neither needed nor leased, where there is one: the records are listed, the units are synced where a change of them waits
    /// for it, and then the file goes. After want of memory all is as before.
    pub fn collect(&mut self, alloc: Global, lane: u32) -> Result<Collected, CollectError>
        ensures step { (s : State) → StandsFor N.name_of s self.old.ledger.kept self.old.shelf self.old.known (D.state self.old.dir) → IfSome (collect_ending result) (λ how. Takes N.name_of s lane given.Collect (flag_for how) how (D.state self.old.dir) self.new.ledger.kept self.new.shelf self.new.known (D.state self.new.dir)) }
        ensures event { self.new.ledger.events ≡ with_event self.old.ledger.events lane call.Collect (collect_ending result) }
        ensures kept { self.new.ledger.kept ≡ collect_leaves result self.old.ledger.kept }
        ensures moves { result ≡ Err CollectError.Memory → (D.state self.new.dir).moves ≡ (D.state self.old.dir).moves }
        ensures shelf { result ≡ Err CollectError.Memory → self.new.shelf ≡ self.old.shelf }
        ensures again { (s : State) → StandsFor N.name_of s self.old.ledger.kept self.old.shelf self.old.known (D.state self.old.dir) → result ≡ Err CollectError.Memory → StandsFor N.name_of s self.new.ledger.kept self.new.shelf self.new.known (D.state self.new.dir) }
        // The moves, exactly, and how far they came where it failed. No record goes that is needed or leased.
        ensures made { IfOk result (λ collected. (D.state self.new.dir).moves ≡ collected_by collected (with_sync (is_some self.old.ledger.kept.pending) Units (D.state self.old.dir).moves)) }
        ensures part { result ≡ Err CollectError.Fault → ((D.state self.new.dir).moves ≡ (D.state self.old.dir).moves) ⊎ ((D.state self.new.dir).moves ≡ with_sync (is_some self.old.ledger.kept.pending) Units (D.state self.old.dir).moves) }
        ensures spared { (name : List ℕ) → result ≡ Ok (Collected.Removed name) → is_protected (settled self.old.ledger.kept).guard name ≡ false }
        ensures unsynced { (name : List ℕ) → result ≡ Ok (Collected.Removed name) → self.new.shelf.unsynced ≡ true }
        ensures same { result ≡ Ok Collected.Nothing → self.new.shelf ≡ self.old.shelf }
        ensures after { OnErr result (self.new.shelf ≡ self.old.shelf) }
        // A collect that is made comes from one list. Nothing is looked for, and the slots stay.
        ensures listed { OnOk result ((D.state self.new.dir).listings ≡ counted (D.state self.old.dir).listings) }
        ensures once { ((D.state self.new.dir).listings ≡ (D.state self.old.dir).listings) ⊎ ((D.state self.new.dir).listings ≡ counted (D.state self.old.dir).listings) }
        ensures finds { (D.state self.new.dir).finds ≡ (D.state self.old.dir).finds }
        ensures slots { (D.state self.new.dir).slots ≡ (D.state self.old.dir).slots }
        ensures known { self.new.known ≡ self.old.known }
        ensures cause { (D.state self.new.dir).faults ≡ counted_where (collect_failed result) (D.state self.old.dir).faults }
        ensures ready { HasSlots self.old.ledger.kept (D.state self.old.dir) → HasSlots self.new.ledger.kept (D.state self.new.dir) }
    {
        given();
        laws::each_step_is_the_machines();
        ix_guard::laws::the_first_loose_name_is_the_least();
        if make_room(alloc, &mut self.dir, &mut self.ledger).is_err() {
            return Err(CollectError::Memory);
        }
        let records = match self.dir.list(alloc, Area::Records) {
            Ok(records) => records,
            Err(DirError::Failed) => {
                self.ledger.collect_failed(lane);
                return Err(CollectError::Fault);
            }
            Err(DirError::Memory) => return Err(CollectError::Memory),
        };
        let pending = self.ledger.pending().is_some();
        match self.ledger.first_loose(&records) {
            None => {
                let answer = ix_changes::collect(&mut self.dir, &mut self.shelf, None, pending);
                end_collect(&mut self.ledger, lane, Collected::Nothing, answer)
            }
            Some(name) => {
                let answer = ix_changes::collect(
                    &mut self.dir,
                    &mut self.shelf,
                    Some(name),
                    pending,
                );
                end_collect(&mut self.ledger, lane, Collected::Removed { name }, answer)
            }
        }
    }
}

/// Writes down how a collect ended that was to end so.
fn end_collect(
    ledger: &mut Ledger,
    lane: u32,
    wanted: Collected,
    answer: Result<(), Failed>,
) -> Result<Collected, CollectError>
    requires { ledger.old.has_room ≡ true }
    ensures answer { result ≡ collect_answer wanted answer }
    ensures ledger { ledger.new ≡ ended_with ledger.old (collect_leaves result ledger.old.kept) lane call.Collect (collect_ending result) }
{
    match answer {
        Err(Failed) => {
            ledger.collect_failed(lane);
            Err(CollectError::Fault)
        }
        Ok(()) => match wanted {
            Collected::Nothing => {
                ledger.collect_nothing(lane);
                Ok(Collected::Nothing)
            }
            Collected::Removed { name } => {
                ledger.collect_removed(lane, name);
                Ok(Collected::Removed { name })
            }
        },
    }
}
