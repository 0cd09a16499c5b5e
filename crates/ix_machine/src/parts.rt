//! The plain state of the machine, and what it asks of it.
ghost use Rattle.std.specs.Prelude.{◌≡◌, ◌||◌, IfOk, map, filter, not, option_map};
ghost use Rattle.std.specs.BTreeMap.{keys};
ghost use Rattle.std.specs.List.{list_any};
ghost use Rattle.ix_model.specs.Units.{units_at};
ghost use Rattle.ix_machine.specs.Needs.{option_any, has_name, units_need, is_needed, is_protected, settled, loose};
ghost use Rattle.ix_machine.specs.Plain.{publication_of};
ghost use Rattle.ix_machine.specs.PlainState.{lease_seen, state_of, with_pending, first_of};

use crate::units::{Change, needs_at};
use ix_types::{FileName, Memory, Seq};
use ix_unit::UnitValue;
use std::alloc::{AllocError, Global};
use std::collections::BTreeMap;
use std::sync::Arc;

/// What a lane has leased.
#[derive(Debug, Drop)]
pub struct Lease {
    pub names: Seq<FileName>,
    pub put: Seq<FileName>,
    pub staged: Option<Arc<UnitValue>>,
}

/// The open import.
#[derive(Clone, Copy, Debug)]
pub struct Import {
    pub lane: u32,
    pub mark: u64,
}

/// The fields of the machine.
#[derive(Debug, Drop)]
pub struct Parts {
    pub changes: Vec<Change>,
    pub pending: Option<u64>,
    pub records: BTreeMap<FileName, Seq<u8>>,
    pub leases: Vec<Option<Lease>>,
    pub import: Option<Import>,
    pub current: u64,
    pub held: Vec<Option<u64>>,
}

/// Whether the name is among the names.
pub(crate) fn has(names: &Seq<FileName>, name: &FileName) -> bool
    ensures { result ≡ has_name name.now names.now }
{
    names.as_slice().iter().any(|other| *other == *name)
}

/// Whether the lease has the name.
fn leases_name(lease: &Option<Lease>, name: &FileName) -> bool
    ensures { result ≡ option_any (λ l. has_name name.now l.names) (option_map lease_seen lease.now) }
{
    match lease {
        Some(lease) => has(&lease.names, name),
        None => false,
    }
}

/// Whether one of the leases has the name.
pub(crate) fn any_leases(leases: &[Option<Lease>], name: &FileName) -> bool
    ensures { result ≡ list_any (λ lease. option_any (λ l. has_name name.now l.names) (option_map lease_seen lease)) leases.now }
{
    leases.iter().any(|lease| leases_name(lease, name))
}

/// Whether the units at a mark need the record, where there is a mark.
fn needs_if(
    alloc: Global,
    changes: &[Change],
    mark: Option<u64>,
    name: &FileName,
) -> Result<bool, Memory>
    ensures { IfOk result (λ needs. needs ≡ option_any (λ m. units_need name.now (units_at (map publication_of changes.now) m)) mark) }
{
    match mark {
        Some(mark) => needs_at(alloc, changes, mark, name),
        None => Ok(false),
    }
}

/// Whether the units at one of the marks need the record.
fn needs_any(
    alloc: Global,
    changes: &[Change],
    marks: &[Option<u64>],
    name: &FileName,
) -> Result<bool, Memory>
    ensures { IfOk result (λ needs. needs ≡ list_any (option_any (λ m. units_need name.now (units_at (map publication_of changes.now) m))) marks.now) }
{
    let mut needed = false;
    for mark in marks {
        let needs = needs_if(alloc, changes, *mark, name)?;
        needed = either(needed, needs);
    }
    Ok(needed)
}

/// Whether one of the two holds.
pub(crate) fn either(a: bool, b: bool) -> bool
    ensures { result ≡ (a || b) }
{
    a || b
}

/// The mark of an import.
fn mark_of(import: Option<Import>) -> Option<u64>
    ensures { result ≡ option_map (λ i. i.mark) import }
{
    match import {
        Some(import) => Some(import.mark),
        None => None,
    }
}

impl Parts {
    /// Whether something needs the record, with this change pending, or none.
    pub(crate) fn is_needed(
        &self,
        alloc: Global,
        pending: Option<u64>,
        name: &FileName,
    ) -> Result<bool, Memory>
        ensures { IfOk result (λ needed. needed ≡ is_needed (with_pending pending (state_of self.now)) name.now) }
    {
        let by_visible = needs_at(alloc, &self.changes, self.changes.len() as u64, name)?;
        let by_pending = needs_if(alloc, &self.changes, pending, name)?;
        let by_import = needs_if(alloc, &self.changes, mark_of(self.import), name)?;
        let by_current = needs_at(alloc, &self.changes, self.current, name)?;
        let by_held = needs_any(alloc, &self.changes, &self.held, name)?;
        Ok(either(
            either(
                either(either(by_visible, by_pending), by_import),
                by_current,
            ),
            by_held,
        ))
    }

    /// Whether the collector must spare the record once no change is pending.
    pub(crate) fn is_spared(&self, alloc: Global, name: &FileName) -> Result<bool, Memory>
        ensures { IfOk result (λ spared. spared ≡ is_protected (settled (state_of self.now)) name.now) }
    {
        let needed = self.is_needed(alloc, None, name)?;
        Ok(either(needed, any_leases(&self.leases, name)))
    }

    /// The names of the record files.
    fn record_names(&self, alloc: Global) -> Result<Vec<FileName>, AllocError>
        ensures { IfOk result (λ names. names.items ≡ keys self.now.records) }
    {
        self.records.keys().copied().collect(alloc)
    }

    /// The first of the names that isn't spared.
    fn first_free(&self, alloc: Global, names: &[FileName]) -> Result<Option<FileName>, Memory>
        ensures { IfOk result (λ first. first ≡ first_of (filter (λ name. not (is_protected (settled (state_of self.now)) name)) names.now)) }
    {
        for name in names {
            if !self.is_spared(alloc, name)? {
                return Ok(Some(*name));
            }
        }
        Ok(None)
    }

    /// The least loose record.
    pub(crate) fn first_loose(&self, alloc: Global) -> Result<Option<FileName>, Memory>
        ensures { IfOk result (λ first. first ≡ first_of (loose (state_of self.now))) }
    {
        let names = self.record_names(alloc)?;
        self.first_free(alloc, &names)
    }
}
