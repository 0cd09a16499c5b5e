//! What happened, with room for one event more.
ghost use Rattle.std.specs.Prelude.{◌≡◌, ◌<◌, [], ◌∷◌, ◌++◌, true, false, OnOk, OnErr, length, vec_capacity};
ghost use Rattle.ix_ledger.specs.Logged.{Logged};

use ix_machine::Event;
use ix_types::{Memory, Seq};
use std::alloc::Global;
use std::marker::Model;

/// The events so far, and whether one more can be written down without memory.
#[derive(Drop)]
pub(crate) struct Log {
    events: Vec<Event>,
    has_room: bool,
}

impl Model for Log {
    ghost use Rattle.std.specs.Prelude.{◌≡◌, ◌<◌, true, length, vec_capacity};
    ghost use Rattle.ix_ledger.specs.Logged.{Logged};

    ghost Value = { Logged };

    ghost view = { λ l. record { events = l.events.items; has_room = l.has_room } };

    ghost invariant = { λ l. l.has_room ≡ true → length l.events.items < vec_capacity l.events };
}

impl Log {
    /// Nothing happened. Takes no memory.
    pub(crate) fn new(alloc: Global) -> Log
        ensures { result ≡ record { events = []; has_room = false } }
    {
        Log {
            events: Vec::new(alloc),
            has_room: false,
        }
    }

    /// The events, the first one first.
    pub(crate) fn events(&self) -> &[Event]
        ensures { result.now ≡ self.now.events }
    {
        &self.events
    }

    /// The events, the first one first. Takes no memory.
    pub(crate) fn into_events(self) -> Seq<Event>
        ensures { result ≡ self.events }
    {
        let Log {
            events,
            has_room: _,
        } = self;
        Seq::of(events)
    }

    /// Makes room for one event.
    pub(crate) fn reserve(&mut self) -> Result<(), Memory>
        ensures room { OnOk result (self.new ≡ record self.old { has_room = true }) }
        ensures same { OnErr result (self.new ≡ self.old) }
    {
        if self.has_room {
            return Ok(());
        }
        self.events.reserve(1)?;
        self.has_room = true;
        Ok(())
    }

    /// Writes an event down. Takes no memory.
    pub(crate) fn append(&mut self, event: Event)
        requires { self.old.has_room ≡ true }
        ensures { self.new ≡ record self.old { events = self.old.events ++ event ∷ []; has_room = false } }
    {
        self.has_room = false;
        keep(&mut self.events, event);
    }
}

/// Adds an event, for which there is room.
fn keep(events: &mut Vec<Event>, event: Event)
    requires { length events.old.items < vec_capacity events.old }
    ensures { events.new.items ≡ events.old.items ++ event ∷ [] }
{
    match events.push(event) {
        Ok(()) => {}
        Err(_) => unreachable!(),
    }
}
