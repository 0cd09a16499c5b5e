//! What is kept beside the machine, so that its units can be read.
ghost use Rattle.std.specs.Prelude.{◌≡◌, ◌≢◌, IfOk, OnOk, None, if◌then◌else◌, replicate, option_and_then, map};
ghost use Rattle.std.specs.Map.{lookup};
ghost use Rattle.std.specs.BTreeMap.{is_at};
ghost use Rattle.std.specs.Option.{option_copied};
ghost use Rattle.ix_types.specs.Row.{text_cmp};
ghost use Rattle.ix_machine.specs.Given.{given_of, Publish};
ghost use Rattle.ix_machine.specs.PlainOpened.{found_unit, opening_of, files_of, with_file};
ghost use Rattle.ix_machine.specs.Run.{begun};
ghost use Rattle.ix_machine.specs.Step.{value_of, values_of, name_with_output};
ghost use Rattle.ix_model.specs.declared.publication.Publication.TheVariants as model;
ghost use Rattle.ix_model.specs.Units.{units_after};
ghost use Rattle.ix_model_run.specs.Kept.{call_in, is_made, is_staged, is_written, kept_after, mark_in, or_named, publishing, removed_in, removing, staged_in, with_record, with_unit, with_current, without_record};
ghost use Rattle.ix_record.specs.declared.fault.RecordError.TheVariants as RecordError;

use crate::copies::Copied;
use crate::seen::visible;
use ix_machine::{Call, Given, Opened, Outcome};
use ix_model::{Publication, StoredUnit, append_some};
use ix_record::{Body, RecordError, RecordValue, decode};
use ix_types::{FileName, Memory, Naming, Seq, Text};
use ix_unit::{RecordDep, UnitValue};
use std::alloc::Global;
use std::collections::BTreeMap;
use std::marker::Model;
use std::sync::Arc;

/// The publications, the record files and the current mark, and for each lane the unit that it staged last.
#[derive(Debug, Drop)]
pub(crate) struct Known {
    pub publications: Vec<Publication>,
    records: BTreeMap<FileName, Seq<u8>>,
    pub current: u64,
    staged: Vec<Option<UnitValue>>,
}

impl Model for Known {
    ghost use Rattle.ix_model_run.specs.Kept.{Kept};

    ghost Value = { Kept };

    ghost view = { λ k. record { publications = k.publications.items; records = k.records.entries; current = k.current; staged = k.staged.items } };
}

/// A copy of the bytes.
fn bytes_of(alloc: Global, bytes: &Seq<u8>) -> Result<Seq<u8>, Memory>
    ensures { IfOk result (λ copy. copy ≡ bytes.now) }
{
    let copy = Vec::from_slice(alloc, bytes.as_slice())?;
    Ok(Seq::of(copy))
}

/// One record file more.
fn put_file(
    alloc: Global,
    files: &mut BTreeMap<FileName, Seq<u8>>,
    body: &Body,
) -> Result<(), Memory>
    ensures { OnOk result (files.new.entries ≡ with_file files.old.entries body.now) }
{
    let bytes = bytes_of(alloc, &body.bytes)?;
    match files.insert(body.name, bytes) {
        Ok(_) => Ok(()),
        Err(_) => Err(Memory),
    }
}

/// The record files by name.
fn files_of(alloc: Global, bodies: &[Body]) -> Result<BTreeMap<FileName, Seq<u8>>, Memory>
    ensures { IfOk result (λ files. files.entries ≡ files_of bodies.now) }
{
    let mut files = BTreeMap::new(alloc);
    for body in bodies {
        put_file(alloc, &mut files, body)?;
    }
    Ok(files)
}

/// The values once more.
fn values_found(alloc: Global, values: &[Arc<RecordValue>]) -> Result<Vec<RecordValue>, Memory>
    ensures { IfOk result (λ copy. copy.items ≡ map (λ v. v.value) values.now) }
{
    let mut copy = Vec::new(alloc);
    for value in values {
        copy.push(value.copied(alloc)?)?;
    }
    Ok(copy)
}

/// The unit that was found comes.
fn found(alloc: Global, stored: &ix_machine::StoredUnit) -> Result<Publication, Memory>
    ensures { IfOk result (λ publication. publication ≡ model.Put stored.now.name (found_unit stored.now)) }
{
    Ok(Publication::Put {
        name: stored.name,
        unit: StoredUnit {
            unit: stored.unit.copied(alloc)?,
            values: Seq::of(values_found(alloc, stored.values.as_slice())?),
        },
    })
}

/// The units that were found come, one after the other.
fn publications_of(
    alloc: Global,
    units: &[ix_machine::StoredUnit],
) -> Result<Vec<Publication>, Memory>
    ensures { IfOk result (λ publications. publications.items ≡ map (λ u. model.Put u.name (found_unit u)) units.now) }
{
    let mut publications = Vec::new(alloc);
    for stored in units {
        publications.push(found(alloc, stored)?)?;
    }
    Ok(publications)
}

/// Nothing, for each lane.
fn none_staged(alloc: Global, lanes: u32) -> Result<Vec<Option<UnitValue>>, Memory>
    ensures { IfOk result (λ all. all.items ≡ replicate lanes None) }
{
    let mut all = Vec::new(alloc);
    for lane in 0..lanes {
        if all.push(None).is_err() {
            return Err(Memory);
        }
    }
    Ok(all)
}

/// The value that the bytes of a record file spell.
fn value_of(alloc: Global, bytes: &[u8]) -> Result<Option<RecordValue>, Memory>
    ensures { IfOk result (λ value. value ≡ value_of bytes.now) }
{
    match decode(alloc, bytes) {
        Ok(value) => Ok(Some(value)),
        Err(error) => none_where(error),
    }
}

/// No value, unless memory was wanting.
fn none_where(error: RecordError) -> Result<Option<RecordValue>, Memory>
    ensures { IfOk result (λ value. (value ≡ None) × (error ≢ RecordError.Memory)) }
{
    match error {
        RecordError::Memory => Err(Memory),
        _ => Ok(None),
    }
}

/// The name of the first unit that has the output path.
fn name_with_output(units: &BTreeMap<FileName, StoredUnit>, output: &Text) -> Option<FileName>
    ensures { result ≡ name_with_output output.now units.now.entries }
{
    let mut found = None;
    for (name, stored) in units {
        found = or_named(found, name, stored, output);
    }
    found
}

/// What was found, or the name of the unit where it has the output path.
fn or_named(
    found: Option<FileName>,
    name: &FileName,
    stored: &StoredUnit,
    output: &Text,
) -> Option<FileName>
    ensures { result ≡ or_named output.now found (name.now, stored.now) }
{
    match found {
        Some(name) => Some(name),
        None => {
            if stored.unit.output == *output {
                Some(*name)
            } else {
                None
            }
        }
    }
}

/// The mark at which a call ended.
fn mark_in(outcome: Outcome) -> Option<u64>
    ensures { result ≡ mark_in outcome }
{
    match outcome {
        Outcome::At { mark } => Some(mark),
        _ => None,
    }
}

/// The record that a call removed.
fn removed_in(outcome: Outcome) -> Option<FileName>
    ensures { result ≡ removed_in outcome }
{
    match outcome {
        Outcome::Removed { name } => Some(name),
        _ => None,
    }
}

/// Whether the call made a units change.
fn is_made(outcome: Outcome) -> bool
    ensures { result ≡ is_made outcome }
{
    matches!(outcome, Outcome::Synced | Outcome::Unsynced)
}

impl Known {
    /// What opening found, for so many lanes.
    pub(crate) fn new(alloc: Global, opened: &Opened, lanes: u32) -> Result<Known, Memory>
        ensures { IfOk result (λ known. known ≡ record {
          publications = (begun (opening_of opened.now) lanes).publications;
          records = (opening_of opened.now).records;
          current = 0;
          staged = replicate lanes None;
        }) }
    {
        Ok(Known {
            publications: publications_of(alloc, opened.units.as_slice())?,
            records: files_of(alloc, opened.records.as_slice())?,
            current: 0,
            staged: none_staged(alloc, lanes)?,
        })
    }

    /// The unit that the lane staged last.
    fn staged_by(&self, lane: u32) -> Option<&UnitValue>
        ensures { option_copied result ≡ staged_in self.now lane }
    {
        match self.staged.get(lane as usize) {
            Some(staged) => staged.as_ref(),
            None => None,
        }
    }

    /// The call that an event shows; None where a lane publishes that staged nothing.
    pub(crate) fn call_in<N: Naming>(
        &self,
        alloc: Global,
        naming: &N,
        lane: u32,
        given: &Given<'_>,
    ) -> Result<Option<Call>, Memory>
        ensures { IfOk result (λ call. call ≡ call_in N.name_of self.now lane (given_of given.now)) }
    {
        match given {
            Given::Lease(names) => Ok(Some(Call::Lease {
                names: names_of(alloc, names)?,
            })),
            Given::Put(body) => Ok(Some(Call::Put { name: body.name })),
            Given::Stage(unit) => Ok(Some(Call::Stage {
                unit: naming.name(unit.output.bytes()),
            })),
            Given::Publish => Ok(self.publish_call(naming, lane)),
            Given::Remove(output) => Ok(Some(Call::Remove {
                unit: naming.name(output.bytes()),
            })),
            Given::Scan => Ok(Some(Call::Scan)),
            Given::Load(name, _) => Ok(Some(Call::Load { name: *name })),
            Given::Install => Ok(Some(Call::Install)),
            Given::Adopt => Ok(Some(Call::Adopt)),
            Given::Release => Ok(Some(Call::Release)),
            Given::Collect => Ok(Some(Call::Collect)),
        }
    }

    /// The call of a publish; None where the lane staged nothing.
    fn publish_call<N: Naming>(&self, naming: &N, lane: u32) -> Option<Call>
        ensures { result ≡ call_in N.name_of self.now lane Publish }
    {
        match self.staged_by(lane) {
            Some(unit) => Some(Call::Publish {
                unit: naming.name(unit.output.bytes()),
            }),
            None => None,
        }
    }

    /// A lane's call ended so.
    pub(crate) fn follow<N: Naming>(
        &mut self,
        alloc: Global,
        naming: &N,
        lane: u32,
        given: &Given<'_>,
        outcome: &Outcome,
    ) -> Result<(), Memory>
        ensures { OnOk result (self.new ≡ kept_after N.name_of lane (given_of given.now) outcome.now self.old) }
    {
        match given {
            Given::Put(body) => self.put(alloc, body, *outcome),
            Given::Stage(unit) => self.stage(alloc, lane, unit, *outcome),
            Given::Publish => self.publish(alloc, naming, lane, *outcome),
            Given::Remove(output) => self.remove(alloc, output, *outcome),
            Given::Install => {
                self.install(mark_in(*outcome));
                Ok(())
            }
            Given::Collect => {
                self.collect(removed_in(*outcome));
                Ok(())
            }
            Given::Lease(_) => Ok(()),
            Given::Scan => Ok(()),
            Given::Load(_, _) => Ok(()),
            Given::Adopt => Ok(()),
            Given::Release => Ok(()),
        }
    }

    /// A put ended so.
    fn put(&mut self, alloc: Global, body: &Body, outcome: Outcome) -> Result<(), Memory>
        ensures { OnOk result (self.new ≡ (if is_written outcome then with_record body.now self.old else self.old)) }
    {
        match outcome {
            Outcome::Written => put_file(alloc, &mut self.records, body),
            _ => Ok(()),
        }
    }

    /// A stage ended so.
    fn stage(
        &mut self,
        alloc: Global,
        lane: u32,
        unit: &UnitValue,
        outcome: Outcome,
    ) -> Result<(), Memory>
        ensures { OnOk result (self.new ≡ (if is_staged outcome then with_unit lane unit.now self.old else self.old)) }
    {
        match outcome {
            Outcome::Done => self.keep(alloc, lane, unit),
            _ => Ok(()),
        }
    }

    /// The lane staged the unit.
    fn keep(&mut self, alloc: Global, lane: u32, unit: &UnitValue) -> Result<(), Memory>
        ensures { OnOk result (self.new ≡ with_unit lane unit.now self.old) }
    {
        let unit = unit.copied(alloc)?;
        if (lane as usize) < self.staged.len() {
            self.staged[lane as usize] = Some(unit);
        }
        Ok(())
    }

    /// A publish ended so.
    fn publish<N: Naming>(
        &mut self,
        alloc: Global,
        naming: &N,
        lane: u32,
        outcome: Outcome,
    ) -> Result<(), Memory>
        ensures { OnOk result (self.new ≡ (if is_made outcome then publishing N.name_of (staged_in self.old lane) self.old else self.old)) }
    {
        if is_made(outcome) {
            self.publish_staged(alloc, naming, lane)
        } else {
            Ok(())
        }
    }

    /// The unit that the lane staged last comes.
    fn publish_staged<N: Naming>(
        &mut self,
        alloc: Global,
        naming: &N,
        lane: u32,
    ) -> Result<(), Memory>
        ensures { OnOk result (self.new ≡ publishing N.name_of (staged_in self.old lane) self.old) }
    {
        let publication = match self.staged_by(lane) {
            Some(unit) => Publication::Put {
                name: naming.name(unit.output.bytes()),
                unit: self.stored(alloc, unit)?,
            },
            None => return Ok(()),
        };
        self.publications.push(publication)?;
        Ok(())
    }

    /// The unit, with the values that the files of its records spell.
    fn stored(&self, alloc: Global, unit: &UnitValue) -> Result<StoredUnit, Memory>
        ensures { IfOk result (λ stored. stored ≡ record { unit = unit.now; values = values_of self.now.records unit.now.records }) }
    {
        Ok(StoredUnit {
            unit: unit.copied(alloc)?,
            values: Seq::of(self.values_of(alloc, unit.records.as_slice())?),
        })
    }

    /// The value of the record that stands under the name.
    fn value_under(&self, alloc: Global, name: &FileName) -> Result<Option<RecordValue>, Memory>
        ensures { IfOk result (λ value. value ≡ option_and_then value_of (lookup (is_at (text_cmp name.now)) self.now.records)) }
    {
        match self.records.get(name) {
            Some(bytes) => value_of(alloc, bytes.as_slice()),
            None => Ok(None),
        }
    }

    /// The values of records, by the files that stand under their names.
    fn values_of(&self, alloc: Global, deps: &[RecordDep]) -> Result<Vec<RecordValue>, Memory>
        ensures { IfOk result (λ values. values.items ≡ values_of self.now.records deps.now) }
    {
        let mut values = Vec::new(alloc);
        for dep in deps {
            append_some(&mut values, self.value_under(alloc, &dep.name)?)?;
        }
        Ok(values)
    }

    /// A removal ended so.
    fn remove(&mut self, alloc: Global, output: &Text, outcome: Outcome) -> Result<(), Memory>
        ensures { OnOk result (self.new ≡ (if is_made outcome then removing (name_with_output output.now (units_after self.old.publications)) self.old else self.old)) }
    {
        if is_made(outcome) {
            self.take_away(alloc, output)
        } else {
            Ok(())
        }
    }

    /// The visible unit of the output path goes.
    fn take_away(&mut self, alloc: Global, output: &Text) -> Result<(), Memory>
        ensures { OnOk result (self.new ≡ removing (name_with_output output.now (units_after self.old.publications)) self.old) }
    {
        let units = visible(alloc, &self.publications)?;
        match name_with_output(&units, output) {
            Some(name) => {
                self.publications.push(Publication::Gone { name })?;
                Ok(())
            }
            None => Ok(()),
        }
    }

    /// The mark becomes the current one, where there is one.
    fn install(&mut self, mark: Option<u64>)
        ensures { self.new ≡ with_current mark self.old }
    {
        if let Some(mark) = mark {
            self.current = mark;
        }
    }

    /// The record goes, where there is one.
    fn collect(&mut self, name: Option<FileName>)
        ensures { self.new ≡ without_record name self.old }
    {
        if let Some(name) = name {
            self.records.remove(&name);
        }
    }
}

/// A copy of the names.
fn names_of(alloc: Global, names: &Seq<FileName>) -> Result<Seq<FileName>, Memory>
    ensures { IfOk result (λ copy. copy ≡ names.now) }
{
    let copy = Vec::from_slice(alloc, names.as_slice())?;
    Ok(Seq::of(copy))
}
