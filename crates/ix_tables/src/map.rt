//! A map by name whose values are shared.
ghost use Rattle.std.specs.Prelude.{◌≡◌, [], length, slice_get, option_copied, option_map, IfOk};
ghost use Rattle.ix_types.specs.Row.{text_cmp};
ghost use Rattle.ix_pages.specs.Pairs.{IsRising, look_up, with_pair, without_key};
ghost use Rattle.std.specs.Map.Iter.{deref_pair};
ghost use Rattle.ix_tables.specs.Sharing.{shared_value, shared_entry};

use ix_pages::{Pages, laws};
use ix_types::{FileName, Memory};
use std::alloc::Global;
use std::marker::Model;
use std::sync::Arc;

/// A sorted map by name, seen as the list of its pairs.
#[derive(Drop)]
pub(crate) struct Map<T> {
    pages: Pages<FileName, Arc<T>, 64>,
}

impl<T> Model for Map<T> {
    ghost use Rattle.std.specs.Prelude.{List, ℕ};
    ghost use Rattle.ix_tables.specs.Sharing.{opened};

    ghost Value = { List (List ℕ × T) };

    ghost view = { λ map. opened map.pages };
}

impl<T: Drop> Map<T> {
    /// The map with no pair. Takes no memory.
    pub(crate) fn empty() -> Map<T>
        ensures { result ≡ [] }
    {
        Map {
            pages: Pages::empty(),
        }
    }

    /// The number of pairs; and that their names rise.
    pub(crate) fn len(&self) -> u64
        ensures len { result ≡ length self.now }
        ensures rises { IsRising text_cmp self.now }
    {
        self.pages.len()
    }

    /// The same map once more.
    pub(crate) fn share(&self) -> Result<Map<T>, Memory>
        ensures { IfOk result (λ same. same ≡ self.now) }
    {
        let pages = self.pages.share()?;
        Ok(Map { pages })
    }

    /// What stands under a name.
    pub(crate) fn get(&self, name: &FileName) -> Option<&Arc<T>>
        ensures { option_map shared_value (option_copied result) ≡ look_up text_cmp self.now name.now }
    {
        self.pages.get(name)
    }

    /// The pair at a place, in the order of names.
    pub(crate) fn at(&self, place: u64) -> Option<(&FileName, &Arc<T>)>
        ensures { option_map (λ pair. shared_entry (deref_pair pair)) result ≡ slice_get self.now place }
    {
        self.pages.at(place)
    }

    /// The map with a value under a name.
    pub(crate) fn with(
        &self,
        alloc: Global,
        name: FileName,
        value: Arc<T>,
    ) -> Result<Map<T>, Memory>
        ensures { IfOk result (λ after. after ≡ with_pair text_cmp self.now (name, shared_value value)) }
    {
        laws::pages_are_the_pairs::<FileName, Arc<T>>();
        let _rising = self.pages.len();
        let pages = self.pages.with(alloc, name, value)?;
        Ok(Map { pages })
    }

    /// The map with nothing under a name.
    pub(crate) fn without(&self, alloc: Global, name: &FileName) -> Result<Map<T>, Memory>
        ensures { IfOk result (λ after. after ≡ without_key text_cmp self.now name.now) }
    {
        laws::pages_are_the_pairs::<FileName, Arc<T>>();
        let _rising = self.pages.len();
        let pages = self.pages.without(alloc, name)?;
        Ok(Map { pages })
    }
}
