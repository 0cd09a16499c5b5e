//! What is kept of a state of the machine.
ghost use Rattle.std.specs.Prelude.{◌≡◌, ◌<◌, ◌↔◌, length, map, replicate, slice_set, IsSome, Some, None, true, option_map, option_copied, is_some, IfOk, OnOk, OnErr};
ghost use Rattle.ix_machine.specs.Needs.{option_any};
ghost use Rattle.ix_guard.specs.Guarding.{lease_of};
ghost use Rattle.ix_guard.specs.Protection.{leases_name, is_guarded, was_put, IsFirstLoose};
ghost use Rattle.ix_ledger.specs.Effects.{kept_at_first, publish_over, publish_change, remove_change, leased, noted, dropped, staging, changed, settled, opened, closed, installed, adopted, released};
ghost use Rattle.ix_ledger.specs.Kept.{unit_at, staged_in, held_in};
ghost use Rattle.ix_ledger.specs.Registered.{import_seen, IsFirstListed};

use crate::change::Change;
use crate::import::Import;
use crate::unit_map::UnitMap;
use ix_dir::Listed;
use ix_guard::{Guard, NeedList};
use ix_types::{FileName, Memory, Seq, Text};
use ix_unit::UnitValue;
use std::alloc::Global;
use std::marker::Model;
use std::sync::Arc;

/// The guard, the visible units, and the marks.
#[derive(Drop)]
pub(crate) struct Register {
    guard: Guard,
    units: UnitMap,
    published: u64,
    pending: Option<u64>,
    import: Option<Import>,
    current: u64,
    held: Vec<Option<u64>>,
    staged: Vec<Option<Arc<UnitValue>>>,
}

impl Model for Register {
    ghost use Rattle.std.specs.Prelude.{map, option_map};
    ghost use Rattle.ix_ledger.specs.Kept.{Kept};
    ghost use Rattle.ix_ledger.specs.Registered.{import_seen, IsRegister};

    ghost Value = { Kept };

    ghost view = { λ r. record {
      guard = r.guard;
      units = r.units;
      published = r.published;
      pending = r.pending;
      import = option_map import_seen r.import;
      current = r.current;
      held = r.held.items;
      staged = map (option_map (λ unit. unit.value)) r.staged.items;
    } };

    ghost invariant = { λ r. IsRegister (record {
      guard = r.guard;
      units = r.units;
      published = r.published;
      pending = r.pending;
      import = option_map import_seen r.import;
      current = r.current;
      held = r.held.items;
      staged = map (option_map (λ unit. unit.value)) r.staged.items;
    }) };
}

/// No mark, for each lane.
fn no_holds(alloc: Global, lanes: u32) -> Result<Vec<Option<u64>>, Memory>
    ensures { IfOk result (λ all. all.items ≡ replicate lanes None) }
{
    let mut all = Vec::new(alloc);
    for _lane in 0..lanes {
        all.push(None)?;
    }
    Ok(all)
}

/// No unit, for each lane.
fn no_units(alloc: Global, lanes: u32) -> Result<Vec<Option<Arc<UnitValue>>>, Memory>
    ensures { IfOk result (λ all. all.items ≡ replicate lanes None) }
{
    let mut all = Vec::new(alloc);
    for _lane in 0..lanes {
        all.push(None)?;
    }
    Ok(all)
}

/// The lane has staged this unit, or none.
fn set_staged(staged: &mut Vec<Option<Arc<UnitValue>>>, lane: u32, unit: Option<Arc<UnitValue>>)
    requires { lane < length staged.old.items }
    ensures { map (option_map (λ unit. unit.value)) staged.new.items ≡ slice_set (map (option_map (λ unit. unit.value)) staged.old.items) lane (option_map (λ unit. unit.value) unit) }
{
    staged[lane as usize] = unit;
}

impl Register {
    /// The start: the units of the change are visible, and nothing is leased, imported or held.
    pub(crate) fn open(alloc: Global, change: Change, lanes: u32) -> Result<Register, Memory>
        ensures { IfOk result (λ register. register ≡ kept_at_first change.units change.published lanes) }
    {
        let (units, needs, published) = change.into_parts();
        let mut guard = Guard::new(alloc, lanes)?;
        guard.set_units(needs, false);
        let held = no_holds(alloc, lanes)?;
        let staged = no_units(alloc, lanes)?;
        Ok(Register {
            guard,
            units,
            published,
            pending: None,
            import: None,
            current: 0,
            held,
            staged,
        })
    }

    /// The lane leases the names, none of them put, and has staged nothing.
    pub(crate) fn lease(
        &mut self,
        alloc: Global,
        lane: u32,
        names: &Seq<FileName>,
    ) -> Result<(), Memory>
        requires { lane < length self.old.guard.leases }
        ensures leased { OnOk result (self.new ≡ leased self.old lane names.now) }
        ensures same { OnErr result (self.new ≡ self.old) }
    {
        self.guard.lease(alloc, lane, names)?;
        set_staged(&mut self.staged, lane, None);
        Ok(())
    }

    /// Notes a leased name as put.
    pub(crate) fn note_put(&mut self, lane: u32, name: FileName)
        requires lane { lane < length self.old.guard.leases }
        requires leased { option_any (leases_name name) (lease_of self.old.guard lane) ≡ true }
        ensures { self.new ≡ noted self.old lane name }
    {
        self.guard.note_put(lane, name);
    }

    /// The lane has no lease any more, and nothing staged.
    pub(crate) fn drop_lease(&mut self, lane: u32)
        requires { lane < length self.old.guard.leases }
        ensures { self.new ≡ dropped self.old lane }
    {
        self.guard.drop_lease(lane);
        set_staged(&mut self.staged, lane, None);
    }

    /// The lane has staged the unit.
    pub(crate) fn stage(&mut self, lane: u32, unit: Arc<UnitValue>)
        requires { lane < length self.old.guard.leases }
        ensures { self.new ≡ staging self.old lane unit.value }
    {
        set_staged(&mut self.staged, lane, Some(unit));
    }

    /// The units are those of the change. Where that is unsynced it pends.
    pub(crate) fn change(&mut self, change: Change, unsynced: bool)
        ensures { self.new ≡ changed self.old change unsynced }
    {
        let (units, needs, published) = change.into_parts();
        self.guard.set_units(needs, unsynced);
        self.pending = if unsynced { Some(self.published) } else { None };
        self.units = units;
        self.published = published;
    }

    /// No change of the units pends any more.
    pub(crate) fn settle(&mut self)
        ensures { self.new ≡ settled self.old }
    {
        let _before = self.guard.settled();
        self.pending = None;
    }

    /// An import of the visible units is open, by this lane. What they need is handed in.
    pub(crate) fn open_import(&mut self, lane: u32, needs: NeedList)
        requires { needs ≡ self.old.guard.visible }
        ensures { self.new ≡ opened self.old lane }
    {
        self.guard.open_import(needs);
        self.import = Some(Import {
            lane,
            mark: self.published,
        });
    }

    /// No import is open any more.
    pub(crate) fn close_import(&mut self)
        ensures { self.new ≡ closed self.old }
    {
        self.guard.close_import();
        self.import = None;
    }

    /// The open import is the current version, which the lane holds. What it needs is handed in.
    pub(crate) fn install(&mut self, lane: u32, needs: NeedList)
        requires lane { lane < length self.old.guard.leases }
        requires open { self.old.guard.import ≡ Some needs }
        ensures { self.new ≡ installed self.old lane }
    {
        match self.import {
            Some(open_import) => {
                self.guard.install(lane, needs);
                self.held[lane as usize] = Some(open_import.mark);
                self.current = open_import.mark;
                self.import = None;
            }
            None => unreachable!(),
        }
    }

    /// The lane holds the current version. What that needs is handed in.
    pub(crate) fn adopt(&mut self, lane: u32, needs: NeedList)
        requires lane { lane < length self.old.guard.leases }
        requires current { needs ≡ self.old.guard.current }
        ensures { self.new ≡ adopted self.old lane }
    {
        self.guard.hold(lane, needs);
        self.held[lane as usize] = Some(self.current);
    }

    /// The lane holds nothing any more.
    pub(crate) fn release(&mut self, lane: u32)
        requires { lane < length self.old.guard.leases }
        ensures { self.new ≡ released self.old lane }
    {
        self.guard.release(lane);
        self.held[lane as usize] = None;
    }

    /// Whether the lane must not write over the record of a name.
    pub(crate) fn protects(&self, lane: u32, name: FileName) -> bool
        requires { lane < length self.now.guard.leases }
        ensures { result ≡ is_guarded self.now.guard lane name }
    {
        self.guard.protects(lane, name)
    }

    /// Whether the lane has a lease.
    pub(crate) fn has_lease(&self, lane: u32) -> bool
        requires { lane < length self.now.guard.leases }
        ensures { result ≡ is_some (lease_of self.now.guard lane) }
    {
        self.guard.has_lease(lane)
    }

    /// Whether the record was put under the lane's lease.
    pub(crate) fn has_put(&self, lane: u32, name: FileName) -> bool
        requires { lane < length self.now.guard.leases }
        ensures { result ≡ was_put self.now.guard lane name }
    {
        self.guard.was_put(lane, name)
    }

    /// Whether the lane's lease has the name.
    pub(crate) fn has_leased(&self, lane: u32, name: FileName) -> bool
        requires { lane < length self.now.guard.leases }
        ensures { result ≡ option_any (leases_name name) (lease_of self.now.guard lane) }
    {
        self.guard.has_leased(lane, name)
    }

    /// The unit that the lane has staged.
    pub(crate) fn staged(&self, lane: u32) -> Option<&Arc<UnitValue>>
        requires { lane < length self.now.guard.leases }
        ensures { option_map (λ unit. unit.value) (option_copied result) ≡ staged_in self.now lane }
    {
        self.staged[lane as usize].as_ref()
    }

    /// The visible unit of a name.
    pub(crate) fn unit(&self, name: FileName) -> Option<&Arc<UnitValue>>
        ensures { option_map (λ unit. unit.value) (option_copied result) ≡ unit_at name self.now.units }
    {
        self.units.get(&name)
    }

    /// The change that a publish of the lane's staged unit under its name makes; None exactly where a visible unit of the name has
    /// another output path.
    pub(crate) fn publishing(
        &self,
        alloc: Global,
        lane: u32,
        name: FileName,
    ) -> Result<Option<Change>, Memory>
        requires { lane < length self.now.guard.leases }
        ensures { IfOk result (λ change. change ≡ publish_change self.now lane name) }
    {
        match self.staged(lane) {
            None => Ok(None),
            Some(unit) => self.publishing_over(alloc, name, unit, self.units.get(&name)),
        }
    }

    /// The same, by the visible unit of the name.
    fn publishing_over(
        &self,
        alloc: Global,
        name: FileName,
        unit: &Arc<UnitValue>,
        old: Option<&Arc<UnitValue>>,
    ) -> Result<Option<Change>, Memory>
        requires { option_map (λ unit. unit.value) (option_copied old) ≡ unit_at name self.now.units }
        ensures { IfOk result (λ change. change ≡ publish_over self.now name unit.now.value (unit_at name self.now.units)) }
    {
        match old {
            None => {
                let change = Change::with_new(
                    alloc,
                    &self.units,
                    self.guard.visible(),
                    self.published,
                    name,
                    unit,
                )?;
                Ok(Some(change))
            }
            Some(old) => {
                if old.output != unit.output {
                    return Ok(None);
                }
                let change = Change::with_replaced(
                    alloc,
                    &self.units,
                    self.guard.visible(),
                    self.published,
                    name,
                    old,
                    unit,
                )?;
                Ok(Some(change))
            }
        }
    }

    /// The change that a removal of the output path makes, by the path's name; None exactly where no visible unit of the name has the path.
    pub(crate) fn removing(
        &self,
        alloc: Global,
        name: FileName,
        output: &Text,
    ) -> Result<Option<Change>, Memory>
        ensures { IfOk result (λ change. change ≡ remove_change self.now name output.now) }
    {
        match self.units.get(&name) {
            None => Ok(None),
            Some(old) => {
                if old.output != *output {
                    return Ok(None);
                }
                let change = Change::without(
                    alloc,
                    &self.units,
                    self.guard.visible(),
                    self.published,
                    name,
                    old,
                )?;
                Ok(Some(change))
            }
        }
    }

    /// What the visible units need, once more.
    pub(crate) fn visible_needs(&self) -> Result<NeedList, Memory>
        ensures { IfOk result (λ needs. needs ≡ self.now.guard.visible) }
    {
        self.guard.visible().share()
    }

    /// What the units of the current version need.
    pub(crate) fn current_needs(&self) -> &NeedList
        ensures { result.now ≡ self.now.guard.current }
    {
        self.guard.current()
    }

    /// What the units of the open import need, once more.
    pub(crate) fn import_needs(&self) -> Result<NeedList, Memory>
        requires { IsSome self.now.import }
        ensures { IfOk result (λ needs. self.now.guard.import ≡ Some needs) }
    {
        let _import = &self.import;
        match self.guard.import() {
            Some(needs) => needs.share(),
            None => unreachable!(),
        }
    }

    /// The open import.
    pub(crate) fn import(&self) -> Option<Import>
        ensures { option_map import_seen result ≡ self.now.import }
    {
        self.import
    }

    /// The number of publications.
    pub(crate) fn published(&self) -> u64
        ensures { result ≡ self.now.published }
    {
        self.published
    }

    /// The mark before a change that pends.
    pub(crate) fn pending(&self) -> Option<u64>
        ensures { result ≡ self.now.pending }
    {
        self.pending
    }

    /// The mark of the current version.
    pub(crate) fn current(&self) -> u64
        ensures { result ≡ self.now.current }
    {
        self.current
    }

    /// The mark that the lane holds.
    pub(crate) fn held(&self, lane: u32) -> Option<u64>
        requires { lane < length self.now.guard.leases }
        ensures { result ≡ held_in self.now lane }
    {
        self.held[lane as usize]
    }

    /// Whether there is such a lane.
    pub(crate) fn has_lane(&self, lane: u32) -> bool
        ensures { (result ≡ true) ↔ (lane < length self.now.guard.leases) }
    {
        (lane as usize) < self.held.len()
    }

    /// The first loose one of the listed records, as if no change pended.
    pub(crate) fn first_loose(&mut self, records: &Seq<Listed>) -> Option<FileName>
        ensures same { self.new ≡ self.old }
        ensures first { IsFirstListed self.old records.now result }
    {
        let before = self.guard.settled();
        let first = self.guard.first_loose(records);
        self.guard.unsettled(before);
        first
    }
}
