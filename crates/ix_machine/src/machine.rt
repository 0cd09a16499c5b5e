//! The machine as plain, slow code whose contract is the definition.
ghost use Rattle.std.specs.Prelude.{◌≡◌, ◌++◌, ◌∷◌, [], IfOk, OnOk, OnErr, map, replicate, None, option_map};
ghost use Rattle.ix_machine.specs.Given.{given_of};
ghost use Rattle.ix_machine.specs.Plain.{publication_of};
ghost use Rattle.ix_machine.specs.PlainOpened.{found_unit, opening_of, files_of, with_file};
ghost use Rattle.ix_machine.specs.PlainRows.{planned_seen};
ghost use Rattle.ix_machine.specs.PlainState.{state_of, answered};
ghost use Rattle.ix_machine.specs.Run.{begun};
ghost use Rattle.ix_machine.specs.Step.{step};
ghost use Rattle.ix_model.specs.declared.publication.Publication.TheVariants as model;

use crate::effects::Planned;
use crate::event::Outcome;
use crate::given::Given;
use crate::may_do::bytes_of;
use crate::opened::{Opened, StoredUnit};
use crate::parts::{Lease, Parts};
use crate::units::Change;
use ix_record::{Body, RecordValue};
use ix_types::{FileName, Memory, Naming, Seq};
use std::alloc::{AllocError, Global};
use std::collections::BTreeMap;
use std::marker::Model;
use std::sync::Arc;

/// The machine of the whole store. Contracts see its state.
#[derive(Debug, Drop)]
pub struct Machine {
    alloc: Global,
    parts: Parts,
}

impl Model for Machine {
    ghost use Rattle.ix_machine.specs.State.{State};
    ghost use Rattle.ix_machine.specs.PlainState.{state_of};

    ghost Value = { State };

    ghost view = { λ m. state_of m.parts };
}

/// More owners of the values.
fn copied_values(
    alloc: Global,
    values: &[Arc<RecordValue>],
) -> Result<Vec<Arc<RecordValue>>, Memory>
    ensures { IfOk result (λ copy. map (λ v. v.value) copy.items ≡ map (λ v. v.value) values.now) }
{
    let mut copy = Vec::new(alloc);
    for value in values {
        push_copy(&mut copy, value)?;
    }
    Ok(copy)
}

/// Appends one more owner of the value.
fn push_copy(copy: &mut Vec<Arc<RecordValue>>, value: &Arc<RecordValue>) -> Result<(), Memory>
    ensures { OnOk result (map (λ v. v.value) copy.new.items ≡ map (λ v. v.value) copy.old.items ++ value.now.value ∷ []) }
{
    let value = value.clone()?;
    if copy.push(value).is_err() {
        return Err(Memory);
    }
    Ok(())
}

/// The unit that was found comes.
fn found(alloc: Global, stored: &StoredUnit) -> Result<Change, Memory>
    ensures { IfOk result (λ change. publication_of change ≡ model.Put stored.now.name (found_unit stored.now)) }
{
    Ok(Change::Put {
        name: stored.name,
        unit: stored.unit.clone()?,
        values: Seq::of(copied_values(alloc, stored.values.as_slice())?),
    })
}

/// The units that were found come, one after the other.
fn changes_of(alloc: Global, units: &[StoredUnit]) -> Result<Vec<Change>, Memory>
    ensures { IfOk result (λ changes. map publication_of changes.items ≡ map (λ u. model.Put u.name (found_unit u)) units.now) }
{
    let mut changes = Vec::new(alloc);
    for stored in units {
        push_found(alloc, &mut changes, stored)?;
    }
    Ok(changes)
}

/// One more unit that was found comes.
fn push_found(alloc: Global, changes: &mut Vec<Change>, stored: &StoredUnit) -> Result<(), Memory>
    ensures { OnOk result (map publication_of changes.new.items ≡ map publication_of changes.old.items ++ model.Put stored.now.name (found_unit stored.now) ∷ []) }
{
    let change = found(alloc, stored)?;
    if changes.push(change).is_err() {
        return Err(Memory);
    }
    Ok(())
}

/// One record file more.
fn put_file(
    alloc: Global,
    files: &mut BTreeMap<FileName, Seq<u8>>,
    body: &Body,
) -> Result<(), Memory>
    ensures { OnOk result (files.new.entries ≡ with_file files.old.entries body.now) }
{
    let bytes = Seq::of(bytes_of(alloc, &body.bytes)?);
    match files.insert(body.name, bytes) {
        Ok(_) => Ok(()),
        Err(_) => Err(Memory),
    }
}

/// The record files by name.
fn files_of(alloc: Global, bodies: &[Body]) -> Result<BTreeMap<FileName, Seq<u8>>, Memory>
    ensures { IfOk result (λ files. files.entries ≡ files_of bodies.now) }
{
    let mut files = BTreeMap::new(alloc);
    for body in bodies {
        put_file(alloc, &mut files, body)?;
    }
    Ok(files)
}

/// Nothing, for each lane.
fn no_leases(alloc: Global, lanes: u32) -> Result<Vec<Option<Lease>>, Memory>
    ensures { IfOk result (λ all. all.items ≡ replicate lanes None) }
{
    let mut all = Vec::new(alloc);
    for lane in 0..lanes {
        if all.push(None).is_err() {
            return Err(Memory);
        }
    }
    Ok(all)
}

/// Nothing, for each lane.
fn no_holds(alloc: Global, lanes: u32) -> Result<Vec<Option<u64>>, Memory>
    ensures { IfOk result (λ all. all.items ≡ replicate lanes None) }
{
    let mut all = Vec::new(alloc);
    for lane in 0..lanes {
        if all.push(None).is_err() {
            return Err(Memory);
        }
    }
    Ok(all)
}

impl Machine {
    /// The machine after opening, with so many lanes.
    pub fn new(alloc: Global, opened: &Opened, lanes: u32) -> Result<Machine, Memory>
        ensures begun { IfOk result (λ machine. machine ≡ begun (opening_of opened.now) lanes) }
    {
        let parts = Parts {
            changes: changes_of(alloc, opened.units.as_slice())?,
            pending: None,
            records: files_of(alloc, opened.records.as_slice())?,
            leases: no_leases(alloc, lanes)?,
            import: None,
            current: 0,
            held: no_holds(alloc, lanes)?,
        };
        Ok(Machine { alloc, parts })
    }

    /// One call of a lane, with its flag: Done where nothing fails, else the outcome of what failed. None where the call doesn't allow
    /// the flag, and then all is as before, as it is where memory runs out.
    pub fn step<N: Naming>(
        &mut self,
        naming: &N,
        lane: u32,
        given: Given<'_>,
        flag: &Outcome,
    ) -> Result<Option<Outcome>, Memory>
        ensures stepped { IfOk result (λ outcome. (outcome, self.new) ≡ answered self.old (step N.name_of self.old lane (given_of given.entry) flag.now)) }
        ensures memory { OnErr result (self.new ≡ self.old) }
    {
        // Made anew in each arm: a value with a file name and references has to be handed on behind a reference.
        match given {
            Given::Lease(names) => self.take(naming, lane, &Given::Lease(names), flag),
            Given::Put(body) => self.take(naming, lane, &Given::Put(body), flag),
            Given::Stage(unit) => self.take(naming, lane, &Given::Stage(unit), flag),
            Given::Publish => self.take(naming, lane, &Given::Publish, flag),
            Given::Remove(output) => self.take(naming, lane, &Given::Remove(output), flag),
            Given::Scan => self.take(naming, lane, &Given::Scan, flag),
            Given::Load(name, purpose) => {
                self.take(naming, lane, &Given::Load(name, purpose), flag)
            }
            Given::Install => self.take(naming, lane, &Given::Install, flag),
            Given::Adopt => self.take(naming, lane, &Given::Adopt, flag),
            Given::Release => self.take(naming, lane, &Given::Release, flag),
            Given::Collect => self.take(naming, lane, &Given::Collect, flag),
        }
    }

    /// The same, for a call behind a reference.
    fn take<N: Naming>(
        &mut self,
        naming: &N,
        lane: u32,
        given: &Given<'_>,
        flag: &Outcome,
    ) -> Result<Option<Outcome>, Memory>
        ensures stepped { IfOk result (λ outcome. (outcome, self.new) ≡ answered self.old (step N.name_of self.old lane (given_of given.now) flag.now)) }
        ensures memory { OnErr result (self.new ≡ self.old) }
    {
        let planned = self
            .parts
            .planned_for(self.alloc, naming, lane, given, *flag)?;
        self.make(planned)
    }

    /// Makes the step that is planned, if there is one. Where memory runs out, all is as before.
    fn make(&mut self, planned: Option<Planned>) -> Result<Option<Outcome>, Memory>
        ensures made { IfOk result (λ outcome. (outcome, self.new) ≡ answered self.old (option_map (planned_seen self.old) planned)) }
        ensures memory { OnErr result (self.new ≡ self.old) }
    {
        match planned {
            Some(Planned { outcome, effect }) => {
                self.parts.apply(effect)?;
                Ok(Some(outcome))
            }
            None => Ok(None),
        }
    }
}
