//! What each call may do in a state.
ghost use Rattle.std.specs.Prelude.{◌≡◌, ◌≢◌, ◌∷◌, [], slice_get, IfOk, OnOk, not, map, take, drop, ◌+◌, ◌++◌, Some, None, option_map, option_and_then};
ghost use Rattle.std.specs.List.{position};
ghost use Rattle.std.specs.Map.{lookup};
ghost use Rattle.std.specs.BTreeMap.{is_at, keys};
ghost use Rattle.std.specs.Option.{option_copied};
ghost use Rattle.std.specs.Str.{bytes_eq};
ghost use Rattle.ix_types.specs.Row.{text_cmp};
ghost use Rattle.ix_model.specs.declared.publication.Publication.TheVariants as model;
ghost use Rattle.ix_model.specs.Units.{unit_named};
ghost use Rattle.ix_machine.specs.Needs.{option_any, is_guarded, is_leased, visible, was_put};
ghost use Rattle.ix_machine.specs.Plain.{publication_of, unit_map};
ghost use Rattle.ix_record.specs.declared.fault.RecordError.TheVariants as RecordError;
ghost use Rattle.ix_machine.specs.PlainMap.{shown};
ghost use Rattle.ix_machine.specs.PlainState.{import_seen, lease_seen, leases_seen, state_of};
ghost use Rattle.ix_machine.specs.PlainRows.{applied, planned_seen, row_seen};
ghost use Rattle.ix_machine.specs.declared.effects.Effect.TheVariants as Effect;
ghost use Rattle.ix_machine.specs.declared.event.Outcome.TheVariants.{Shared};
ghost use Rattle.ix_machine.specs.Given.{given_of};
ghost use Rattle.ix_machine.specs.State.{State, lease_of, with_put, with_staged};
ghost use Rattle.ix_machine.specs.Step.{lease, write, put, put_over, stage, scan, load, install, install_import, adopt, release, collect, remove, remove_named, publish, publish_unit, stored_unit, value_of, values_of, name_with_output, load_failed, may_fault, noted, dropped, row, step};

use crate::effects::{Effect, Misses, Planned, Row, flagged, may_fault, sure};
use crate::event::{Outcome, Purpose};
use crate::given::Given;
use crate::parts::{Import, Lease, Parts, any_leases, either, has};
use crate::units::{Change, UnitsByName, units_after, values_of};
use ix_model::append_some;
use ix_record::{Body, RecordError, RecordValue, decode};
use ix_types::{FileName, Memory, Naming, Seq, Text};
use ix_unit::{RecordDep, UnitValue};
use std::alloc::{AllocError, Global};
use std::sync::Arc;

/// A copy of the names.
pub(crate) fn names_of(alloc: Global, names: &Seq<FileName>) -> Result<Vec<FileName>, AllocError>
    ensures { IfOk result (λ copy. copy.items ≡ names.now) }
{
    names.as_slice().iter().copied().collect(alloc)
}

/// A copy of the bytes.
pub(crate) fn bytes_of(alloc: Global, bytes: &Seq<u8>) -> Result<Vec<u8>, AllocError>
    ensures { IfOk result (λ copy. copy.items ≡ bytes.now) }
{
    bytes.as_slice().iter().copied().collect(alloc)
}

/// The lease, with one more record put.
fn lease_with_put(alloc: Global, lease: &Lease, name: FileName) -> Result<Lease, Memory>
    ensures { IfOk result (λ l. lease_seen l ≡ with_put name (lease_seen lease.now)) }
{
    let mut put = names_of(alloc, &lease.put)?;
    if put.push(name).is_err() {
        return Err(Memory);
    }
    Ok(Lease {
        names: Seq::of(names_of(alloc, &lease.names)?),
        put: Seq::of(put),
        staged: copied_unit(&lease.staged)?,
    })
}

/// One more owner of the unit, where there is one.
fn copied_unit(unit: &Option<Arc<UnitValue>>) -> Result<Option<Arc<UnitValue>>, AllocError>
    ensures { IfOk result (λ copy. option_map (λ u. u.value) copy ≡ option_map (λ u. u.value) unit.now) }
{
    match unit {
        Some(unit) => Ok(Some(unit.clone()?)),
        None => Ok(None),
    }
}

/// The lease, with the unit made ready.
fn lease_with_staged(alloc: Global, lease: &Lease, unit: &Arc<UnitValue>) -> Result<Lease, Memory>
    ensures { IfOk result (λ l. lease_seen l ≡ with_staged unit.now.value (lease_seen lease.now)) }
{
    Ok(Lease {
        names: Seq::of(names_of(alloc, &lease.names)?),
        put: Seq::of(names_of(alloc, &lease.put)?),
        staged: Some(unit.clone()?),
    })
}

/// A lane's lease is dropped.
fn drop_of(lane: u32) -> Effect
    ensures { result ≡ Effect.Leases lane None }
{
    Effect::Leases { lane, lease: None }
}

/// The value that the bytes of a record file spell.
fn value_of(alloc: Global, bytes: &[u8]) -> Result<Option<RecordValue>, Memory>
    ensures { IfOk result (λ value. value ≡ value_of bytes.now) }
{
    match decode(alloc, bytes) {
        Ok(value) => Ok(Some(value)),
        Err(error) => none_where(error),
    }
}

/// No value, unless memory ran out.
fn none_where(error: RecordError) -> Result<Option<RecordValue>, Memory>
    ensures { IfOk result (λ value. (value ≡ None) × (error ≢ RecordError.Memory)) }
{
    match error {
        RecordError::Memory => Err(Memory),
        _ => Ok(None),
    }
}

/// The values, each behind an `Arc`.
fn shared(alloc: Global, values: Vec<RecordValue>) -> Result<Vec<Arc<RecordValue>>, Memory>
    ensures { IfOk result (λ all. map (λ v. v.value) all.items ≡ values.items) }
{
    let mut all = Vec::new(alloc);
    for value in values {
        push_shared(alloc, &mut all, value)?;
    }
    Ok(all)
}

/// Appends a value behind an `Arc`.
fn push_shared(
    alloc: Global,
    all: &mut Vec<Arc<RecordValue>>,
    value: RecordValue,
) -> Result<(), Memory>
    ensures { OnOk result (map (λ v. v.value) all.new.items ≡ map (λ v. v.value) all.old.items ++ value ∷ []) }
{
    let value = Arc::new(alloc, value)?;
    if all.push(value).is_err() {
        return Err(Memory);
    }
    Ok(())
}

/// What a load that fails leaves.
fn load_failed(purpose: Purpose) -> Effect
    ensures { (s : State) → applied result s ≡ load_failed s purpose }
{
    match purpose {
        Purpose::Import => Effect::Imports { import: None },
        Purpose::Ask => Effect::Stays,
    }
}

/// Whether another lane's lease has the name.
fn others_lease(leases: &[Option<Lease>], lane: u32, name: &FileName) -> bool
    ensures { result ≡ is_leased name.now (take lane (leases_seen leases.now) ++ drop (lane + 1) (leases_seen leases.now)) }
{
    either(
        any_leases(leases_before(leases, lane), name),
        any_leases(leases_behind(leases, lane), name),
    )
}

/// The leases of the lanes before a lane.
fn leases_before(leases: &[Option<Lease>], lane: u32) -> &[Option<Lease>]
    ensures { result.now ≡ take lane leases.now }
{
    if (lane as usize) < leases.len() {
        &leases[..lane as usize]
    } else {
        leases
    }
}

/// The leases of the lanes behind a lane.
fn leases_behind(leases: &[Option<Lease>], lane: u32) -> &[Option<Lease>]
    ensures { result.now ≡ drop (lane + 1) leases.now }
{
    if (lane as usize) < leases.len() {
        &leases[lane as usize + 1..]
    } else {
        &leases[leases.len()..]
    }
}

impl Parts {
    /// The lane's lease.
    fn lease_of(&self, lane: u32) -> Option<&Lease>
        ensures { option_map lease_seen (option_copied result) ≡ lease_of (state_of self.now) lane }
    {
        if (lane as usize) < self.leases.len() {
            match &self.leases[lane as usize] {
                Some(lease) => Some(lease),
                None => None,
            }
        } else {
            None
        }
    }

    /// The lane's lease, with one more record put.
    fn noted(&self, alloc: Global, lane: u32, name: FileName) -> Result<Option<Lease>, Memory>
        ensures { IfOk result (λ l. option_map lease_seen l ≡ option_map (with_put name) (lease_of (state_of self.now) lane)) }
    {
        match self.lease_of(lane) {
            Some(lease) => Ok(Some(lease_with_put(alloc, lease, name)?)),
            None => Ok(None),
        }
    }

    /// The lane's lease, with the unit made ready.
    fn staged(
        &self,
        alloc: Global,
        lane: u32,
        unit: &Arc<UnitValue>,
    ) -> Result<Option<Lease>, Memory>
        ensures { IfOk result (λ l. option_map lease_seen l ≡ option_map (with_staged unit.now.value) (lease_of (state_of self.now) lane)) }
    {
        match self.lease_of(lane) {
            Some(lease) => Ok(Some(lease_with_staged(alloc, lease, unit)?)),
            None => Ok(None),
        }
    }

    /// Whether the record was put under the lane's lease.
    fn was_put(&self, lane: u32, name: &FileName) -> bool
        ensures { result ≡ was_put (state_of self.now) lane name.now }
    {
        match self.lease_of(lane) {
            Some(lease) => has(&lease.put, name),
            None => false,
        }
    }

    /// Whether a put of the lane must not write over the record.
    fn is_guarded(&self, alloc: Global, lane: u32, name: &FileName) -> Result<bool, Memory>
        ensures { IfOk result (λ guarded. guarded ≡ is_guarded (state_of self.now) lane name.now) }
    {
        let needed = self.is_needed(alloc, self.pending, name)?;
        let leased = others_lease(&self.leases, lane, name);
        let own = self.was_put(lane, name);
        Ok(either(either(needed, leased), own))
    }

    /// The value of the record that stands under the name.
    fn value_under(&self, alloc: Global, name: &FileName) -> Result<Option<RecordValue>, Memory>
        ensures { IfOk result (λ value. value ≡ option_and_then value_of (lookup (is_at (text_cmp name.now)) self.now.records.entries)) }
    {
        match self.records.get(name) {
            Some(bytes) => value_of(alloc, bytes.as_slice()),
            None => Ok(None),
        }
    }

    /// The values of records, by the files that stand under their names.
    fn values_of(&self, alloc: Global, deps: &[RecordDep]) -> Result<Vec<RecordValue>, Memory>
        ensures { IfOk result (λ values. values.items ≡ values_of self.now.records.entries deps.now) }
    {
        let mut values = Vec::new(alloc);
        for dep in deps {
            append_some(&mut values, self.value_under(alloc, &dep.name)?)?;
        }
        Ok(values)
    }

    /// The unit comes, with the values that stand under its records' names.
    fn put_change(
        &self,
        alloc: Global,
        name: FileName,
        unit: &Arc<UnitValue>,
    ) -> Result<Change, Memory>
        ensures { IfOk result (λ change. publication_of change ≡ model.Put name (stored_unit (state_of self.now) unit.now.value)) }
    {
        let values = self.values_of(alloc, unit.records.as_slice())?;
        Ok(Change::Put {
            name,
            unit: unit.clone()?,
            values: Seq::of(shared(alloc, values)?),
        })
    }

    /// Whether the visible unit of the name has another output path.
    fn clashes(&self, alloc: Global, name: &FileName, output: &Text) -> Result<bool, Memory>
        ensures { IfOk result (λ clash. clash ≡ option_any (λ other. not (bytes_eq other.unit.output output.now)) (unit_named name.now (visible (state_of self.now)))) }
    {
        let units = self.visible(alloc)?;
        Ok(has_other_output(&units, name, output))
    }

    /// The visible units by name.
    fn visible(&self, alloc: Global) -> Result<UnitsByName<'_>, Memory>
        ensures { IfOk result (λ units. shown units.entries ≡ unit_map (visible (state_of self.now))) }
    {
        let units = units_after(alloc, &self.changes, self.changes.len() as u64)?;
        Ok(units)
    }

    /// The name of the visible unit that has the output path.
    fn name_with_output(&self, alloc: Global, output: &Text) -> Result<Option<FileName>, Memory>
        ensures { IfOk result (λ name. name ≡ name_with_output output.now (visible (state_of self.now))) }
    {
        let units = self.visible(alloc)?;
        let names = unit_names(alloc, &units)?;
        let all = values_of(alloc, &units)?;
        let place = place_with_output(&all, output);
        Ok(name_at(&names, place))
    }

    fn lease_row(&self, alloc: Global, lane: u32, names: &Seq<FileName>) -> Result<Row, Memory>
        ensures { IfOk result (λ r. row_seen (state_of self.now) r ≡ lease (state_of self.now) lane names.now) }
    {
        let lease = Lease {
            names: Seq::of(names_of(alloc, names)?),
            put: Seq::of(Vec::new(alloc)),
            staged: None,
        };
        Ok(sure(
            Outcome::Done,
            Effect::Leases {
                lane,
                lease: Some(lease),
            },
        ))
    }

    fn write_row(&self, alloc: Global, lane: u32, body: &Body) -> Result<Row, Memory>
        ensures { IfOk result (λ r. row_seen (state_of self.now) r ≡ write (state_of self.now) lane body.now) }
    {
        let lease = self.noted(alloc, lane, body.name)?;
        let written = Effect::Writes {
            lane,
            lease,
            name: body.name,
            bytes: Seq::of(bytes_of(alloc, &body.bytes)?),
        };
        Ok(may_fault(Outcome::Written, written, drop_of(lane)))
    }

    fn shared_row(&self, alloc: Global, lane: u32, name: FileName) -> Result<Row, Memory>
        ensures { IfOk result (λ r. row_seen (state_of self.now) r ≡ may_fault Shared (noted (state_of self.now) lane name) (dropped (state_of self.now) lane)) }
    {
        let lease = self.noted(alloc, lane, name)?;
        Ok(may_fault(
            Outcome::Shared,
            Effect::Leases { lane, lease },
            drop_of(lane),
        ))
    }

    fn put_over_row(
        &self,
        alloc: Global,
        lane: u32,
        body: &Body,
        bytes: &Seq<u8>,
    ) -> Result<Row, Memory>
        ensures { IfOk result (λ r. row_seen (state_of self.now) r ≡ put_over (state_of self.now) lane body.now (Some bytes.now)) }
    {
        if *bytes == body.bytes {
            return self.shared_row(alloc, lane, body.name);
        }
        if self.is_guarded(alloc, lane, &body.name)? {
            return Ok(may_fault(Outcome::Clash, drop_of(lane), drop_of(lane)));
        }
        self.write_row(alloc, lane, body)
    }

    fn put_row(&self, alloc: Global, lane: u32, body: &Body) -> Result<Row, Memory>
        ensures { IfOk result (λ r. row_seen (state_of self.now) r ≡ put (state_of self.now) lane body.now) }
    {
        match self.records.get(&body.name) {
            Some(bytes) => self.put_over_row(alloc, lane, body, bytes),
            None => self.write_row(alloc, lane, body),
        }
    }

    fn stage_row(&self, alloc: Global, lane: u32, unit: &Arc<UnitValue>) -> Result<Row, Memory>
        ensures { IfOk result (λ r. row_seen (state_of self.now) r ≡ stage (state_of self.now) lane unit.now.value) }
    {
        let lease = self.staged(alloc, lane, unit)?;
        Ok(may_fault(Outcome::Done, Effect::Leases { lane, lease }, drop_of(lane)))
    }

    fn publish_unit_row(
        &self,
        alloc: Global,
        lane: u32,
        name: FileName,
        unit: &Arc<UnitValue>,
    ) -> Result<Row, Memory>
        ensures { IfOk result (λ r. row_seen (state_of self.now) r ≡ publish_unit (state_of self.now) lane name unit.now.value) }
    {
        if self.clashes(alloc, &name, &unit.output)? {
            return Ok(sure(Outcome::Clash, drop_of(lane)));
        }
        Ok(Row {
            outcome: Outcome::Synced,
            plain: Effect::Publishes {
                lane,
                change: self.put_change(alloc, name, unit)?,
                pending: None,
            },
            faulted: Some(drop_of(lane)),
            unsynced: Some(Effect::Publishes {
                lane,
                change: self.put_change(alloc, name, unit)?,
                pending: Some(self.changes.len() as u64),
            }),
            misses: Misses::No,
        })
    }

    fn publish_row<N: Naming>(
        &self,
        alloc: Global,
        naming: &N,
        lane: u32,
    ) -> Result<Option<Row>, Memory>
        ensures { IfOk result (λ r. option_map (row_seen (state_of self.now)) r ≡ publish N.name_of (state_of self.now) lane) }
    {
        match self.lease_of(lane) {
            Some(lease) => self.publish_lease_row(alloc, naming, lane, &lease.staged),
            None => Ok(None),
        }
    }

    fn publish_lease_row<N: Naming>(
        &self,
        alloc: Global,
        naming: &N,
        lane: u32,
        staged: &Option<Arc<UnitValue>>,
    ) -> Result<Option<Row>, Memory>
        ensures { IfOk result (λ r. option_map (row_seen (state_of self.now)) r ≡ option_map (λ unit. publish_unit (state_of self.now) lane (N.name_of unit.output) unit) (option_map (λ u. u.value) staged.now)) }
    {
        match staged {
            Some(unit) => {
                let name = naming.name(unit.output.bytes());
                Ok(Some(self.publish_unit_row(alloc, lane, name, unit)?))
            }
            None => Ok(None),
        }
    }

    fn remove_named_row(&self, name: Option<FileName>) -> Row
        ensures { row_seen (state_of self.now) result ≡ remove_named (state_of self.now) name }
    {
        let before = self.changes.len() as u64;
        match name {
            Some(name) => Row {
                outcome: Outcome::Synced,
                plain: Effect::Changes {
                    change: Change::Gone { name },
                    pending: None,
                },
                faulted: Some(Effect::Stays),
                unsynced: Some(Effect::Changes {
                    change: Change::Gone { name },
                    pending: Some(before),
                }),
                misses: Misses::No,
            },
            None => sure(Outcome::NoUnit, Effect::Stays),
        }
    }

    fn remove_row(&self, alloc: Global, output: &Text) -> Result<Row, Memory>
        ensures { IfOk result (λ r. row_seen (state_of self.now) r ≡ remove (state_of self.now) output.now) }
    {
        let name = self.name_with_output(alloc, output)?;
        Ok(self.remove_named_row(name))
    }

    fn scan_row(&self, lane: u32) -> Row
        ensures { row_seen (state_of self.now) result ≡ scan (state_of self.now) lane }
    {
        let mark = self.changes.len() as u64;
        Row {
            outcome: Outcome::At { mark },
            plain: Effect::Imports {
                import: Some(Import { lane, mark }),
            },
            faulted: Some(Effect::Imports { import: None }),
            unsynced: None,
            misses: Misses::Each,
        }
    }

    fn load_row(&self, name: FileName, purpose: Purpose) -> Row
        ensures { row_seen (state_of self.now) result ≡ load (state_of self.now) name purpose }
    {
        Row {
            outcome: Outcome::Done,
            plain: Effect::Stays,
            faulted: Some(load_failed(purpose)),
            unsynced: None,
            misses: Misses::One { name },
        }
    }

    fn install_row(&self, lane: u32) -> Option<Row>
        ensures { option_map (row_seen (state_of self.now)) result ≡ install (state_of self.now) lane }
    {
        match self.import {
            Some(import) => install_of(import, lane),
            None => None,
        }
    }

    fn adopt_row(&self, lane: u32) -> Row
        ensures { row_seen (state_of self.now) result ≡ adopt (state_of self.now) lane }
    {
        let mark = self.current;
        sure(
            Outcome::At { mark },
            Effect::Holds {
                lane,
                mark: Some(mark),
            },
        )
    }

    fn release_row(&self, lane: u32) -> Row
        ensures { row_seen (state_of self.now) result ≡ release (state_of self.now) lane }
    {
        sure(Outcome::Done, Effect::Holds { lane, mark: None })
    }

    fn collect_row(&self, alloc: Global) -> Result<Row, Memory>
        ensures { IfOk result (λ r. row_seen (state_of self.now) r ≡ collect (state_of self.now)) }
    {
        match self.first_loose(alloc)? {
            Some(name) => Ok(may_fault(
                Outcome::Removed { name },
                Effect::Collects { name },
                Effect::Stays,
            )),
            None => Ok(may_fault(Outcome::Nothing, Effect::Settles, Effect::Stays)),
        }
    }

    /// All that a lane's call may do. None where a lane publishes with nothing staged, or installs with no import of its own.
    pub(crate) fn row_of<N: Naming>(
        &self,
        alloc: Global,
        naming: &N,
        lane: u32,
        given: &Given<'_>,
    ) -> Result<Option<Row>, Memory>
        ensures { IfOk result (λ r. option_map (row_seen (state_of self.now)) r ≡ row N.name_of (state_of self.now) lane (given_of given.now)) }
    {
        match given {
            Given::Lease(names) => Ok(Some(self.lease_row(alloc, lane, names)?)),
            Given::Put(body) => Ok(Some(self.put_row(alloc, lane, body)?)),
            Given::Stage(unit) => Ok(Some(self.stage_row(alloc, lane, unit)?)),
            Given::Publish => self.publish_row(alloc, naming, lane),
            Given::Remove(output) => Ok(Some(self.remove_row(alloc, output)?)),
            Given::Scan => Ok(Some(self.scan_row(lane))),
            Given::Load(name, purpose) => Ok(Some(self.load_row(*name, *purpose))),
            Given::Install => Ok(self.install_row(lane)),
            Given::Adopt => Ok(Some(self.adopt_row(lane))),
            Given::Release => Ok(Some(self.release_row(lane))),
            Given::Collect => Ok(Some(self.collect_row(alloc)?)),
        }
    }

    /// One step: how the call ends with the flag, and what it changes.
    pub(crate) fn planned_for<N: Naming>(
        &self,
        alloc: Global,
        naming: &N,
        lane: u32,
        given: &Given<'_>,
        flag: Outcome,
    ) -> Result<Option<Planned>, Memory>
        ensures { IfOk result (λ p. option_map (planned_seen (state_of self.now)) p ≡ step N.name_of (state_of self.now) lane (given_of given.now) flag) }
    {
        match self.row_of(alloc, naming, lane, given)? {
            Some(call) => Ok(flagged(call, flag)),
            None => Ok(None),
        }
    }
}

/// What the lane's install of an import may do.
fn install_of(import: Import, lane: u32) -> Option<Row>
    ensures { (s : State) → option_map (row_seen s) result ≡ install_import s lane (Some (import_seen import)) }
{
    if import.lane != lane {
        return None;
    }
    let mark = import.mark;
    Some(sure(Outcome::At { mark }, Effect::Installs { lane, mark }))
}

/// Whether a unit stands under the name that has another output path.
fn has_other_output(units: &UnitsByName<'_>, name: &FileName, output: &Text) -> bool
    ensures { result ≡ option_any (λ b. not (bytes_eq b.now.value.output output.now)) (lookup (is_at (text_cmp name.now)) units.now.entries) }
{
    match units.get(name) {
        Some(other) => !has_output(other, output),
        None => false,
    }
}

/// Whether the unit has the output path.
fn has_output(unit: &Arc<UnitValue>, output: &Text) -> bool
    ensures { result ≡ bytes_eq unit.now.value.output output.now }
{
    unit.output == *output
}

/// The names of the units.
fn unit_names(alloc: Global, units: &UnitsByName<'_>) -> Result<Vec<FileName>, AllocError>
    ensures { IfOk result (λ names. names.items ≡ keys units.now) }
{
    units.keys().copied().collect(alloc)
}

/// The place of the first unit that has the output path.
fn place_with_output(units: &[&Arc<UnitValue>], output: &Text) -> Option<usize>
    ensures { result ≡ position (λ unit. bytes_eq unit.now.value.output output.now) units.now }
{
    units.iter().position(|unit| has_output(unit, output))
}

/// The name at a place, if there is one.
fn name_at(names: &[FileName], place: Option<usize>) -> Option<FileName>
    ensures { result ≡ option_and_then (slice_get names.now) place }
{
    match place {
        Some(place) => names.get(place).copied(),
        None => None,
    }
}
