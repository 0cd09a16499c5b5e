//! The ledger: what is kept, and what happened.
ghost use Rattle.std.specs.Prelude.{◌≡◌, ◌<◌, ◌↔◌, [], length, Some, None, true, false, map, option_map, option_copied, is_some, IfOk, OnOk, OnErr, IsSome};
ghost use Rattle.std.specs.List.Sorted.{IsStrictlySortedBy};
ghost use Rattle.ix_types.specs.Row.{text_cmp};
ghost use Rattle.ix_machine.specs.Needs.{option_any};
ghost use Rattle.ix_machine.specs.declared.event.Call.TheVariants as call;
ghost use Rattle.ix_machine.specs.declared.event.Outcome.TheVariants as outcome;
ghost use Rattle.ix_guard.specs.Guarding.{lease_of};
ghost use Rattle.ix_guard.specs.Protection.{leases_name, is_guarded, was_put};
ghost use Rattle.ix_ledger.specs.Books.{event, logged, settled_as};
ghost use Rattle.ix_ledger.specs.Effects.{kept_at_first, leased, noted, dropped, staging, publish_change, remove_change, changed};
ghost use Rattle.ix_ledger.specs.Handles.{named_puts};
ghost use Rattle.ix_ledger.specs.Kept.{unit_at, staged_in};

use crate::change::Change;
use crate::log::Log;
use crate::register::Register;
use ix_machine::{Call, Event, Outcome};
use ix_types::{FileName, Memory, Seq, Text};
use ix_unit::{UnitPut, UnitValue};
use std::alloc::Global;
use std::marker::Model;
use std::sync::Arc;

/// What a library keeps in memory of a state of the machine, and what happened.
#[derive(Drop)]
pub struct Ledger {
    pub(crate) register: Register,
    pub(crate) log: Log,
}

impl Model for Ledger {
    ghost use Rattle.ix_ledger.specs.Books.{Books};

    ghost Value = { Books };

    ghost view = { λ l. record { kept = l.register; events = l.log.events; has_room = l.log.has_room } };
}

impl Ledger {
    /// The start of a library that found these units, with so many lanes: the units are visible, each published once, and nothing is
    /// leased, imported or held.
    pub fn open(alloc: Global, found: &[UnitPut], lanes: u32) -> Result<Ledger, Memory>
        requires { IsStrictlySortedBy text_cmp (map (λ put. put.name) found.now) }
        ensures { IfOk result (λ ledger. ledger ≡ record { kept = kept_at_first (named_puts found.now) (length found.now) lanes; events = []; has_room = false }) }
    {
        let change = Change::of_found(alloc, found)?;
        let register = Register::open(alloc, change, lanes)?;
        Ok(Ledger {
            register,
            log: Log::new(alloc),
        })
    }

    /// Whether there is such a lane.
    pub fn has_lane(&self, lane: u32) -> bool
        ensures { (result ≡ true) ↔ (lane < length self.now.kept.guard.leases) }
    {
        self.register.has_lane(lane)
    }

    /// Makes room for the event of a step. Where memory is wanting all stays.
    pub fn reserve(&mut self) -> Result<(), Memory>
        ensures room { OnOk result (self.new ≡ record self.old { has_room = true }) }
        ensures same { OnErr result (self.new ≡ self.old) }
    {
        self.log.reserve()
    }

    /// What happened, the first event first.
    pub fn events(&self) -> &[Event]
        ensures { result.now ≡ self.now.events }
    {
        self.log.events()
    }

    /// What happened, the first event first. Takes no memory.
    pub fn into_events(self) -> Seq<Event>
        ensures { result ≡ self.events }
    {
        let Ledger { register: _, log } = self;
        log.into_events()
    }

    /// The step is made: writes it down.
    pub(crate) fn end(&mut self, lane: u32, call: Call, outcome: Outcome)
        requires { self.old.has_room ≡ true }
        ensures { self.new ≡ logged self.old self.old.kept (event lane call outcome) }
    {
        self.log.append(Event {
            lane,
            call,
            outcome,
        });
    }

    // ---- leases and puts

    /// The lane leases the names, none of them put. Where memory is wanting all stays.
    pub fn lease(&mut self, alloc: Global, lane: u32, names: &Seq<FileName>) -> Result<(), Memory>
        requires { lane < length self.old.kept.guard.leases }
        ensures leased { OnOk result (self.new ≡ logged self.old (leased self.old.kept lane names.now) (event lane (call.Lease names.now) outcome.Done)) }
        ensures same { OnErr result (self.new ≡ record self.old { has_room = self.new.has_room }) }
    {
        let listed = Seq::of(Vec::from_slice(alloc, names.as_slice())?);
        self.log.reserve()?;
        self.register.lease(alloc, lane, names)?;
        self.end(lane, Call::Lease { names: listed }, Outcome::Done);
        Ok(())
    }

    /// Whether the lane must not write over the record of a name. Takes no memory.
    pub fn protects(&self, lane: u32, name: FileName) -> bool
        requires { lane < length self.now.kept.guard.leases }
        ensures { result ≡ is_guarded self.now.kept.guard lane name }
    {
        self.register.protects(lane, name)
    }

    /// Whether the lane has a lease. Takes no memory.
    pub fn has_lease(&self, lane: u32) -> bool
        requires { lane < length self.now.kept.guard.leases }
        ensures { result ≡ is_some (lease_of self.now.kept.guard lane) }
    {
        self.register.has_lease(lane)
    }

    /// Whether the record was put under the lane's lease. Takes no memory.
    pub fn has_put(&self, lane: u32, name: FileName) -> bool
        requires { lane < length self.now.kept.guard.leases }
        ensures { result ≡ was_put self.now.kept.guard lane name }
    {
        self.register.has_put(lane, name)
    }

    /// Whether the lane's lease has the name. Takes no memory.
    pub fn has_leased(&self, lane: u32, name: FileName) -> bool
        requires { lane < length self.now.kept.guard.leases }
        ensures { result ≡ option_any (leases_name name) (lease_of self.now.kept.guard lane) }
    {
        self.register.has_leased(lane, name)
    }

    /// A record was written: its name is noted as put. Takes no memory.
    pub fn put_written(&mut self, lane: u32, name: FileName)
        requires lane { lane < length self.old.kept.guard.leases }
        requires leased { option_any (leases_name name) (lease_of self.old.kept.guard lane) ≡ true }
        requires room { self.old.has_room ≡ true }
        ensures { self.new ≡ logged self.old (noted self.old.kept lane name) (event lane (call.Put name) outcome.Written) }
    {
        self.register.note_put(lane, name);
        self.end(lane, Call::Put { name }, Outcome::Written);
    }

    /// A record stood there already: its name is noted as put. Takes no memory.
    pub fn put_shared(&mut self, lane: u32, name: FileName)
        requires lane { lane < length self.old.kept.guard.leases }
        requires leased { option_any (leases_name name) (lease_of self.old.kept.guard lane) ≡ true }
        requires room { self.old.has_room ≡ true }
        ensures { self.new ≡ logged self.old (noted self.old.kept lane name) (event lane (call.Put name) outcome.Shared) }
    {
        self.register.note_put(lane, name);
        self.end(lane, Call::Put { name }, Outcome::Shared);
    }

    /// Another record stands there: the lane's lease is dropped. Takes no memory.
    pub fn put_clashed(&mut self, lane: u32, name: FileName)
        requires lane { lane < length self.old.kept.guard.leases }
        requires room { self.old.has_room ≡ true }
        ensures { self.new ≡ logged self.old (dropped self.old.kept lane) (event lane (call.Put name) outcome.Clash) }
    {
        self.register.drop_lease(lane);
        self.end(lane, Call::Put { name }, Outcome::Clash);
    }

    /// A put failed: the lane's lease is dropped. Takes no memory.
    pub fn put_failed(&mut self, lane: u32, name: FileName)
        requires lane { lane < length self.old.kept.guard.leases }
        requires room { self.old.has_room ≡ true }
        ensures { self.new ≡ logged self.old (dropped self.old.kept lane) (event lane (call.Put name) outcome.Fault) }
    {
        self.register.drop_lease(lane);
        self.end(lane, Call::Put { name }, Outcome::Fault);
    }

    // ---- units

    /// The unit that the lane has staged. Takes no memory.
    pub fn staged(&self, lane: u32) -> Option<&Arc<UnitValue>>
        requires { lane < length self.now.kept.guard.leases }
        ensures { option_map (λ unit. unit.value) (option_copied result) ≡ staged_in self.now.kept lane }
    {
        self.register.staged(lane)
    }

    /// The visible unit of a name: one look-up. Takes no memory.
    pub fn unit(&self, name: FileName) -> Option<&Arc<UnitValue>>
        ensures { option_map (λ unit. unit.value) (option_copied result) ≡ unit_at name self.now.kept.units }
    {
        self.register.unit(name)
    }

    /// The lane's slot has the file of the unit. Takes no memory.
    pub fn stage_made(&mut self, lane: u32, name: FileName, unit: Arc<UnitValue>)
        requires lane { lane < length self.old.kept.guard.leases }
        requires room { self.old.has_room ≡ true }
        ensures { self.new ≡ logged self.old (staging self.old.kept lane unit.value) (event lane (call.Stage name) outcome.Done) }
    {
        self.register.stage(lane, unit);
        self.end(lane, Call::Stage { unit: name }, Outcome::Done);
    }

    /// A stage failed: the lane's lease is dropped. Takes no memory.
    pub fn stage_failed(&mut self, lane: u32, name: FileName)
        requires lane { lane < length self.old.kept.guard.leases }
        requires room { self.old.has_room ≡ true }
        ensures { self.new ≡ logged self.old (dropped self.old.kept lane) (event lane (call.Stage name) outcome.Fault) }
    {
        self.register.drop_lease(lane);
        self.end(lane, Call::Stage { unit: name }, Outcome::Fault);
    }

    /// The change that a publish of the lane's staged unit under its name makes; None exactly where a visible unit of the name has
    /// another output path.
    pub fn publishing(
        &self,
        alloc: Global,
        lane: u32,
        name: FileName,
    ) -> Result<Option<Change>, Memory>
        requires lane { lane < length self.now.kept.guard.leases }
        requires staged { IsSome (staged_in self.now.kept lane) }
        ensures { IfOk result (λ change. change ≡ publish_change self.now.kept lane name) }
    {
        self.register.publishing(alloc, lane, name)
    }

    /// The staged unit is published: its change is made, and the lane's lease is dropped. An unsynced change pends. Takes no memory.
    pub fn publish_made(&mut self, lane: u32, name: FileName, change: Change, unsynced: bool)
        requires lane { lane < length self.old.kept.guard.leases }
        requires change { publish_change self.old.kept lane name ≡ Some change }
        requires room { self.old.has_room ≡ true }
        ensures { self.new ≡ logged self.old (changed (dropped self.old.kept lane) change unsynced) (event lane (call.Publish name) (settled_as unsynced)) }
    {
        self.register.drop_lease(lane);
        self.register.change(change, unsynced);
        self.end(lane, Call::Publish { unit: name }, settled_as(unsynced));
    }

    /// A visible unit of the name has another output path: the lane's lease is dropped. Takes no memory.
    pub fn publish_clashed(&mut self, lane: u32, name: FileName)
        requires lane { lane < length self.old.kept.guard.leases }
        requires clash { publish_change self.old.kept lane name ≡ None }
        requires room { self.old.has_room ≡ true }
        ensures { self.new ≡ logged self.old (dropped self.old.kept lane) (event lane (call.Publish name) outcome.Clash) }
    {
        self.register.drop_lease(lane);
        self.end(lane, Call::Publish { unit: name }, Outcome::Clash);
    }

    /// A publish failed: the lane's lease is dropped. Takes no memory.
    pub fn publish_failed(&mut self, lane: u32, name: FileName)
        requires lane { lane < length self.old.kept.guard.leases }
        requires change { IsSome (publish_change self.old.kept lane name) }
        requires room { self.old.has_room ≡ true }
        ensures { self.new ≡ logged self.old (dropped self.old.kept lane) (event lane (call.Publish name) outcome.Fault) }
    {
        self.register.drop_lease(lane);
        self.end(lane, Call::Publish { unit: name }, Outcome::Fault);
    }

    /// The change that a removal of the output path makes, by the path's name; None exactly where no visible unit of the name has the path.
    pub fn removing(
        &self,
        alloc: Global,
        name: FileName,
        output: &Text,
    ) -> Result<Option<Change>, Memory>
        ensures { IfOk result (λ change. change ≡ remove_change self.now.kept name output.now) }
    {
        self.register.removing(alloc, name, output)
    }

    /// The unit of an output path is removed: its change is made. An unsynced change pends. Takes no memory.
    pub fn remove_made(&mut self, lane: u32, name: FileName, change: Change, unsynced: bool)
        requires { self.old.has_room ≡ true }
        ensures { self.new ≡ logged self.old (changed self.old.kept change unsynced) (event lane (call.Remove name) (settled_as unsynced)) }
    {
        self.register.change(change, unsynced);
        self.end(lane, Call::Remove { unit: name }, settled_as(unsynced));
    }

    /// No visible unit has the output path of the name. Takes no memory.
    pub fn remove_refused(&mut self, lane: u32, name: FileName)
        requires { self.old.has_room ≡ true }
        ensures { self.new ≡ logged self.old self.old.kept (event lane (call.Remove name) outcome.NoUnit) }
    {
        self.end(lane, Call::Remove { unit: name }, Outcome::NoUnit);
    }

    /// A removal failed: all stays. Takes no memory.
    pub fn remove_failed(&mut self, lane: u32, name: FileName)
        requires { self.old.has_room ≡ true }
        ensures { self.new ≡ logged self.old self.old.kept (event lane (call.Remove name) outcome.Fault) }
    {
        self.end(lane, Call::Remove { unit: name }, Outcome::Fault);
    }
}

/// How a change of the units ended.
fn settled_as(unsynced: bool) -> Outcome
    ensures { result ≡ settled_as unsynced }
{
    if unsynced {
        Outcome::Unsynced
    } else {
        Outcome::Synced
    }
}
