//! A map by name on its way to another.
ghost use Rattle.std.specs.Prelude.{◌≡◌, ◌++◌, ◌∷◌, [], map, IfOk, OnOk};
ghost use Rattle.ix_outline.specs.Moving.{unmoved, standing, moved_in, moved_out};
ghost use Rattle.ix_tables.specs.Sharing.{shared_value};
ghost use Rattle.ix_tables.specs.Items.{item_of};

use crate::map::Map;
use ix_types::{FileName, Memory};
use std::alloc::Global;
use std::marker::Model;
use std::sync::Arc;

/// A value with its name.
#[derive(Drop)]
pub(crate) struct Item<T> {
    pub(crate) name: FileName,
    pub(crate) value: Arc<T>,
}

/// A map, and what came and what went since the start.
#[derive(Drop)]
pub(crate) struct Mover<T> {
    entries: Map<T>,
    gained: Vec<Item<T>>,
    lost: Vec<Item<T>>,
}

impl<T> Model for Mover<T> {
    ghost use Rattle.std.specs.Prelude.{map};
    ghost use Rattle.ix_outline.specs.Moving.{Moving};
    ghost use Rattle.ix_tables.specs.Items.{item_of};

    ghost Value = { Moving T };

    ghost view = { λ m. record { entries = m.entries; gained = map item_of m.gained.items; lost = map item_of m.lost.items } };
}

impl<T: Drop> Mover<T> {
    /// A map from which nothing moved yet.
    pub(crate) fn of(alloc: Global, start: &Map<T>) -> Result<Mover<T>, Memory>
        ensures { IfOk result (λ m. m ≡ unmoved start.now) }
    {
        let entries = start.share()?;
        Ok(Mover {
            entries,
            gained: Vec::new(alloc),
            lost: Vec::new(alloc),
        })
    }

    /// The map now.
    pub(crate) fn map(&self) -> &Map<T>
        ensures { result.now ≡ self.now.entries }
    {
        &self.entries
    }

    /// What came.
    pub(crate) fn gained(&self) -> &[Item<T>]
        ensures { map item_of result.now ≡ self.now.gained }
    {
        &self.gained
    }

    /// What went.
    pub(crate) fn lost(&self) -> &[Item<T>]
        ensures { map item_of result.now ≡ self.now.lost }
    {
        &self.lost
    }

    /// Notes that what stands under a name goes.
    fn lose(&mut self, name: FileName) -> Result<(), Memory>
        ensures { OnOk result (self.new ≡ record self.old { lost = self.old.lost ++ standing self.old.entries name }) }
    {
        match self.entries.get(&name) {
            None => Ok(()),
            Some(value) => {
                let value = Arc::try_clone(value)?;
                self.lost.push(Item { name, value })?;
                Ok(())
            }
        }
    }

    /// Notes that a value comes.
    fn gain(&mut self, name: FileName, value: &Arc<T>) -> Result<(), Memory>
        ensures { OnOk result (self.new ≡ record self.old { gained = self.old.gained ++ (name, shared_value value.now) ∷ [] }) }
    {
        let value = Arc::try_clone(value)?;
        self.gained.push(Item { name, value })?;
        Ok(())
    }

    /// A value comes under a name, and what stood there goes.
    pub(crate) fn put(
        &mut self,
        alloc: Global,
        name: FileName,
        value: &Arc<T>,
    ) -> Result<(), Memory>
        ensures { OnOk result (self.new ≡ moved_in self.old name (shared_value value.now)) }
    {
        self.lose(name)?;
        self.gain(name, value)?;
        self.entries = self.entries.with(alloc, name, Arc::try_clone(value)?)?;
        Ok(())
    }

    /// What stands under a name goes.
    pub(crate) fn take(&mut self, alloc: Global, name: FileName) -> Result<(), Memory>
        ensures { OnOk result (self.new ≡ moved_out self.old name) }
    {
        self.lose(name)?;
        self.entries = self.entries.without(alloc, &name)?;
        Ok(())
    }
}
