//! What a build makes ready: record files, and then the unit that needs them.
ghost use Rattle.std.specs.Prelude.{◌≡◌, ◌≢◌, ◌⊎◌, ◌<◌, ℕ, List, length, true, false, nat_eq, Ok, Err, Some, None, IfSome};
ghost use Rattle.ix_types.specs.Count.{counted};
ghost use Rattle.ix_dir.specs.declared.area.Area.TheVariants.{Records};
ghost use Rattle.ix_dir.specs.Calls.{Renames};
ghost use Rattle.ix_dir.specs.State.{counted_where};
ghost use Rattle.ix_record.specs.Whole.{IsWhole};
ghost use Rattle.ix_unit.specs.Value.{IsValidUnit};
ghost use Rattle.ix_shelf.specs.Answers.{put_failed};
ghost use Rattle.ix_cabinet.specs.Changes.{stage_failed};
ghost use Rattle.ix_machine.specs.declared.event.Call.TheVariants as call;
ghost use Rattle.ix_machine.specs.Given as given;
ghost use Rattle.ix_machine.specs.Needs.{option_any};
ghost use Rattle.ix_machine.specs.State.{State};
ghost use Rattle.ix_guard.specs.Guarding.{lease_of};
ghost use Rattle.ix_guard.specs.Protection.{is_guarded, leases_name};
ghost use Rattle.ix_ledger.specs.Kept.{staged_in};
ghost use Rattle.ix_library.specs.Conditions.{has_put_each};
ghost use Rattle.ix_library.specs.Endings.{flag_for, with_event, ended_with, put_ending, put_leaves, stage_ending, stage_leaves};
ghost use Rattle.ix_library.specs.StandsFor.{HasSlots, StandsFor, Takes};

use crate::given::given;
use crate::library::Library;
use crate::room::make_room;
use ix_cabinet::{StageError, stage_unit};
use ix_dir::Dir;
use ix_ledger::{Ledger, laws};
use ix_record::Body;
use ix_shelf::{Put, PutError};
use ix_types::{FileName, Naming};
use ix_unit::UnitValue;
use std::alloc::Global;
use std::sync::Arc;

impl<D: Dir, N: Naming> Library<D, N> {
    /// Makes a record file stand under its name, which the lane has leased. It is shared where its bytes stand there, and it clashes where other bytes do that
    /// must stay. Where it was made its name is noted as put; where it clashes or the directory fails the lease is dropped. After want of memory all is as before.
    pub fn put(&mut self, alloc: Global, lane: u32, body: &Body) -> Result<Put, PutError>
        requires lane { lane < length self.old.ledger.kept.guard.leases }
        requires unstaged { staged_in self.old.ledger.kept lane ≡ None }
        requires leased { option_any (leases_name body.now.name) (lease_of self.old.ledger.kept.guard lane) ≡ true }
        requires whole { IsWhole N.name_of body.now }
        ensures step { (s : State) → StandsFor N.name_of s self.old.ledger.kept self.old.shelf self.old.known (D.state self.old.dir) → IfSome (put_ending result) (λ how. Takes N.name_of s lane (given.Put body.now) (flag_for how) how (D.state self.old.dir) self.new.ledger.kept self.new.shelf self.new.known (D.state self.new.dir)) }
        ensures event { self.new.ledger.events ≡ with_event self.old.ledger.events lane (call.Put body.now.name) (put_ending result) }
        ensures kept { self.new.ledger.kept ≡ put_leaves result self.old.ledger.kept lane body.now.name }
        ensures name { (name : List ℕ) → result ≡ Err (PutError.Clash name) → name ≡ body.now.name }
        ensures guarded { (name : List ℕ) → result ≡ Err (PutError.Clash name) → is_guarded self.old.ledger.kept.guard lane body.now.name ≡ true }
        ensures moves { result ≡ Err PutError.Memory → (D.state self.new.dir).moves ≡ (D.state self.old.dir).moves }
        // The moves, exactly: a rename where it was written, and else none.
        ensures renamed { result ≡ Ok Put.Written → Renames (D.state self.old.dir).moves (D.state self.new.dir).moves Records body.now.name body.now.bytes }
        ensures unmoved { result ≢ Ok Put.Written → (D.state self.new.dir).moves ≡ (D.state self.old.dir).moves }
        ensures unsynced { result ≡ Ok Put.Written → self.new.shelf.unsynced ≡ true }
        ensures same { result ≢ Ok Put.Written → self.new.shelf ≡ self.old.shelf }
        // At most one record was looked for, and the slots of other lanes stay.
        ensures found { ((D.state self.new.dir).finds ≡ (D.state self.old.dir).finds) ⊎ ((D.state self.new.dir).finds ≡ counted (D.state self.old.dir).finds) }
        ensures listings { (D.state self.new.dir).listings ≡ (D.state self.old.dir).listings }
        ensures slots { (other : ℕ) → nat_eq lane other ≡ false → (D.state self.new.dir).slots other ≡ (D.state self.old.dir).slots other }
        ensures shelf { result ≡ Err PutError.Memory → self.new.shelf ≡ self.old.shelf }
        ensures again { (s : State) → StandsFor N.name_of s self.old.ledger.kept self.old.shelf self.old.known (D.state self.old.dir) → result ≡ Err PutError.Memory → StandsFor N.name_of s self.new.ledger.kept self.new.shelf self.new.known (D.state self.new.dir) }
        ensures known { self.new.known ≡ self.old.known }
        ensures cause { (D.state self.new.dir).faults ≡ counted_where (put_failed result) (D.state self.old.dir).faults }
        ensures ready { HasSlots self.old.ledger.kept (D.state self.old.dir) → HasSlots self.new.ledger.kept (D.state self.new.dir) }
    {
        given();
        laws::calls_may_be_made();
        laws::each_step_is_the_machines();
        ix_guard::laws::the_guard_agrees_with_the_machine();
        if make_room(alloc, &mut self.dir, &mut self.ledger).is_err() {
            return Err(PutError::Memory);
        }
        let protected = self.ledger.protects(lane, body.name);
        let answer = ix_changes::put(alloc, &mut self.dir, &mut self.shelf, lane, body, protected);
        end_put(&mut self.ledger, lane, body.name, &answer);
        answer
    }

    /// Makes the file of a unit ready in the lane's slot. Each of its records was put under the lane's lease. Where the directory fails the lease is dropped. After
    /// want of memory all is as before.
    pub fn stage(
        &mut self,
        alloc: Global,
        lane: u32,
        unit: Arc<UnitValue>,
    ) -> Result<(), StageError>
        requires lane { lane < length self.old.ledger.kept.guard.leases }
        requires unstaged { staged_in self.old.ledger.kept lane ≡ None }
        requires put { has_put_each unit.value.records (lease_of self.old.ledger.kept.guard lane) ≡ true }
        requires valid { IsValidUnit unit.value }
        ensures step { (s : State) → StandsFor N.name_of s self.old.ledger.kept self.old.shelf self.old.known (D.state self.old.dir) → IfSome (stage_ending result) (λ how. Takes N.name_of s lane (given.Stage unit.value) (flag_for how) how (D.state self.old.dir) self.new.ledger.kept self.new.shelf self.new.known (D.state self.new.dir)) }
        ensures event { self.new.ledger.events ≡ with_event self.old.ledger.events lane (call.Stage (N.name_of unit.value.output)) (stage_ending result) }
        ensures kept { self.new.ledger.kept ≡ stage_leaves result self.old.ledger.kept lane unit.value }
        ensures moves { (D.state self.new.dir).moves ≡ (D.state self.old.dir).moves }
        ensures listings { (D.state self.new.dir).listings ≡ (D.state self.old.dir).listings }
        ensures finds { (D.state self.new.dir).finds ≡ (D.state self.old.dir).finds }
        ensures slots { (other : ℕ) → nat_eq lane other ≡ false → (D.state self.new.dir).slots other ≡ (D.state self.old.dir).slots other }
        ensures shelf { self.new.shelf ≡ self.old.shelf }
        ensures again { (s : State) → StandsFor N.name_of s self.old.ledger.kept self.old.shelf self.old.known (D.state self.old.dir) → result ≡ Err StageError.Memory → StandsFor N.name_of s self.new.ledger.kept self.new.shelf self.new.known (D.state self.new.dir) }
        ensures known { self.new.known ≡ self.old.known }
        ensures cause { (D.state self.new.dir).faults ≡ counted_where (stage_failed result) (D.state self.old.dir).faults }
        ensures ready { HasSlots self.old.ledger.kept (D.state self.old.dir) → HasSlots self.new.ledger.kept (D.state self.new.dir) }
    {
        given();
        laws::calls_may_be_made();
        laws::each_step_is_the_machines();
        if make_room(alloc, &mut self.dir, &mut self.ledger).is_err() {
            return Err(StageError::Memory);
        }
        let name = self.naming.name(unit.output.bytes());
        let answer = stage_unit(alloc, &mut self.dir, lane, &unit);
        end_stage(&mut self.ledger, lane, name, unit, &answer);
        answer
    }
}

/// Writes down how a put ended.
fn end_put(ledger: &mut Ledger, lane: u32, name: FileName, answer: &Result<Put, PutError>)
    requires lane { lane < length ledger.old.kept.guard.leases }
    requires leased { option_any (leases_name name) (lease_of ledger.old.kept.guard lane) ≡ true }
    requires room { ledger.old.has_room ≡ true }
    ensures { ledger.new ≡ ended_with ledger.old (put_leaves answer.now ledger.old.kept lane name) lane (call.Put name) (put_ending answer.now) }
{
    match answer {
        Ok(Put::Written) => ledger.put_written(lane, name),
        Ok(Put::Shared) => ledger.put_shared(lane, name),
        Err(PutError::Fault) => ledger.put_failed(lane, name),
        Err(PutError::Clash { .. }) => ledger.put_clashed(lane, name),
        Err(PutError::Memory) => {}
    }
}

/// Writes down how a stage ended.
fn end_stage(
    ledger: &mut Ledger,
    lane: u32,
    name: FileName,
    unit: Arc<UnitValue>,
    answer: &Result<(), StageError>,
)
    requires lane { lane < length ledger.old.kept.guard.leases }
    requires room { ledger.old.has_room ≡ true }
    ensures { ledger.new ≡ ended_with ledger.old (stage_leaves answer.now ledger.old.kept lane unit.value) lane (call.Stage name) (stage_ending answer.now) }
{
    match answer {
        Ok(()) => ledger.stage_made(lane, name, unit),
        Err(StageError::Fault) => ledger.stage_failed(lane, name),
        Err(StageError::Memory) => {}
    }
}
