//! The library, and its leases.
ghost use Rattle.std.specs.Prelude.{◌≡◌, ◌<◌, ◌↔◌, ◌++◌, ◌∷◌, [], length, true, None, option_map, option_copied, is_some, OnOk, OnErr};
ghost use Rattle.ix_machine.specs.declared.event.Call.TheVariants as call;
ghost use Rattle.ix_machine.specs.declared.event.Outcome.TheVariants as outcome;
ghost use Rattle.ix_machine.specs.Given as given;
ghost use Rattle.ix_machine.specs.Needs.{option_any};
ghost use Rattle.ix_machine.specs.State.{State, lease_of};
ghost use Rattle.ix_guard.specs.Guarding.{lease_of as guarded_lease};
ghost use Rattle.ix_guard.specs.Protection.{leases_name, was_put};
ghost use Rattle.ix_ledger.specs.Books.{event};
ghost use Rattle.ix_ledger.specs.Effects.{leased};
ghost use Rattle.ix_ledger.specs.Kept.{staged_in};
ghost use Rattle.ix_library.specs.StandsFor.{HasSlots, StandsFor, Takes};

use crate::given::given;
use crate::known::KnownStamps;
use ix_dir::Dir;
use ix_ledger::Ledger;
use ix_machine::Event;
use ix_shelf::Shelf;
use ix_types::{FileName, Memory, Naming, Seq};
use ix_unit::UnitValue;
use std::alloc::Global;
use std::sync::Arc;

/// A store over a directory. It keeps in memory what its steps need.
#[derive(Drop)]
pub struct Library<D: Dir, N: Naming> {
    pub(crate) dir: D,
    pub(crate) naming: N,
    pub(crate) shelf: Shelf,
    pub(crate) ledger: Ledger,
    pub(crate) known: KnownStamps,
}

impl<D: Dir, N: Naming> Library<D, N> {
    /// The lane, which has no lease, leases the names, none of them put. After want of memory all is as before.
    pub fn lease(&mut self, alloc: Global, lane: u32, names: &Seq<FileName>) -> Result<(), Memory>
        requires lane { lane < length self.old.ledger.kept.guard.leases }
        requires free { guarded_lease self.old.ledger.kept.guard lane ≡ None }
        ensures step { (s : State) → StandsFor N.name_of s self.old.ledger.kept self.old.shelf self.old.known (D.state self.old.dir) → lease_of s lane ≡ None → OnOk result (Takes N.name_of s lane (given.Lease names.now) outcome.Done outcome.Done (D.state self.old.dir) self.new.ledger.kept self.new.shelf self.new.known (D.state self.new.dir)) }
        ensures leased { OnOk result (self.new.ledger.kept ≡ leased self.old.ledger.kept lane names.now) }
        ensures event { OnOk result (self.new.ledger.events ≡ self.old.ledger.events ++ event lane (call.Lease names.now) outcome.Done ∷ []) }
        ensures kept { OnErr result (self.new.ledger.kept ≡ self.old.ledger.kept) }
        ensures events { OnErr result (self.new.ledger.events ≡ self.old.ledger.events) }
        ensures dir { D.state self.new.dir ≡ D.state self.old.dir }
        ensures shelf { self.new.shelf ≡ self.old.shelf }
        ensures known { self.new.known ≡ self.old.known }
        ensures again { (s : State) → StandsFor N.name_of s self.old.ledger.kept self.old.shelf self.old.known (D.state self.old.dir) → OnErr result (StandsFor N.name_of s self.new.ledger.kept self.new.shelf self.new.known (D.state self.new.dir)) }
        ensures ready { HasSlots self.old.ledger.kept (D.state self.old.dir) → HasSlots self.new.ledger.kept (D.state self.new.dir) }
    {
        ix_ledger::laws::each_step_is_the_machines();
        given();
        self.ledger.lease(alloc, lane, names)
    }

    /// Whether there is such a lane. Takes no memory.
    pub fn has_lane(&self, lane: u32) -> bool
        ensures { (result ≡ true) ↔ (lane < length self.now.ledger.kept.guard.leases) }
    {
        self.ledger.has_lane(lane)
    }

    /// Whether the lane has a lease. Takes no memory.
    pub fn has_lease(&self, lane: u32) -> bool
        requires { lane < length self.now.ledger.kept.guard.leases }
        ensures { result ≡ is_some (guarded_lease self.now.ledger.kept.guard lane) }
    {
        self.ledger.has_lease(lane)
    }

    /// Whether the record was put under the lane's lease. Takes no memory.
    pub fn has_put(&self, lane: u32, name: FileName) -> bool
        requires { lane < length self.now.ledger.kept.guard.leases }
        ensures { result ≡ was_put self.now.ledger.kept.guard lane name }
    {
        self.ledger.has_put(lane, name)
    }

    /// Whether the lane's lease has the name. Takes no memory.
    pub fn has_leased(&self, lane: u32, name: FileName) -> bool
        requires { lane < length self.now.ledger.kept.guard.leases }
        ensures { result ≡ option_any (leases_name name) (guarded_lease self.now.ledger.kept.guard lane) }
    {
        self.ledger.has_leased(lane, name)
    }

    /// The unit that the lane has staged. Takes no memory.
    pub fn staged(&self, lane: u32) -> Option<&Arc<UnitValue>>
        requires { lane < length self.now.ledger.kept.guard.leases }
        ensures { option_map (λ unit. unit.value) (option_copied result) ≡ staged_in self.now.ledger.kept lane }
    {
        self.ledger.staged(lane)
    }

    /// What happened since opening, the first event first. Takes no memory.
    pub fn events(&self) -> &[Event]
        ensures { result.now ≡ self.now.ledger.events }
    {
        self.ledger.events()
    }
}

impl<D: Dir, N: Naming + Drop> Library<D, N> {
    /// The directory. Takes no memory.
    pub fn into_dir(self) -> D
        ensures { result ≡ self.dir }
    {
        let Library {
            dir,
            naming: _,
            shelf: _,
            ledger: _,
            known: _,
        } = self;
        dir
    }

    /// The directory, and what happened since opening, the first event first. Takes no memory.
    pub fn into_parts(self) -> (D, Seq<Event>)
        ensures dir { result.0 ≡ self.dir }
        ensures events { result.1 ≡ self.ledger.events }
    {
        let Library {
            dir,
            naming: _,
            shelf: _,
            ledger,
            known: _,
        } = self;
        (dir, ledger.into_events())
    }
}
