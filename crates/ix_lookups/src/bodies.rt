//! The records that are loaded.
ghost use Rattle.std.specs.Prelude.{◌≡◌, ◌≢◌, ◌<◌, ◌≤◌, ◌+◌, ℕ, List, [], Some, OnOk, OnErr};
ghost use Rattle.std.specs.Option.{option_copied, option_map};
ghost use Rattle.ix_lookups.specs.Loaded.{body_named};

use indexmap::IndexMap;
use ix_record::RecordValue;
use ix_types::{FileName, Memory};
use std::alloc::Global;
use std::marker::Model;
use std::sync::Arc;

/// The records that are loaded, by name.
#[derive(Debug, Drop)]
pub struct Bodies {
    bodies: IndexMap<FileName, Arc<RecordValue>>,
}

impl Model for Bodies {
    ghost use Rattle.std.specs.Prelude.{map};
    ghost use Rattle.std.specs.HashMap.{spare};
    ghost use Rattle.ix_lookups.specs.Loaded.{Loaded};

    ghost Value = { Loaded };

    ghost view = { λ b. record { entries = map (λ entry. (entry.0, entry.1.value)) b.bodies.entries; room = spare b.bodies } };
}

impl Bodies {
    /// No bodies. Takes no memory.
    pub fn new(alloc: Global) -> Bodies
        ensures { result.entries ≡ [] }
    {
        Bodies {
            bodies: IndexMap::new(alloc),
        }
    }

    /// The body that is loaded under the name; None where there is none. Takes no memory.
    pub fn get(&self, name: &FileName) -> Option<&Arc<RecordValue>>
        ensures { option_map (λ body. body.value) (option_copied result) ≡ body_named name.now self.now }
    {
        self.bodies.get(name)
    }

    /// Makes room for one more body at least, and changes nothing else.
    pub fn reserve(&mut self) -> Result<(), Memory>
        ensures entries { self.new.entries ≡ self.old.entries }
        ensures ok { OnOk result (0 < self.new.room) }
        ensures room { self.old.room ≤ self.new.room }
    {
        self.bodies.reserve(1)?;
        Ok(())
    }

    /// Puts the body under the name, and changes no other. Takes no memory.
    pub fn add(&mut self, name: FileName, body: Arc<RecordValue>)
        requires { 0 < self.old.room }
        ensures added { body_named name self.new ≡ Some body.value }
        ensures others { (other : List ℕ) → other ≢ name → body_named other self.new ≡ body_named other self.old }
        ensures room { self.old.room ≤ self.new.room + 1 }
    {
        match self.bodies.insert(name, body) {
            Ok(_) => {}
            Err(_) => unreachable!(),
        }
    }
}
