//! The index.
ghost use Rattle.std.specs.Prelude.{◌≡◌, ◌+◌, ◌-◌, ◌≤◌, [], length, slice_get, option_copied, IfOk};
ghost use Rattle.std.specs.Map.{keys_of};
ghost use Rattle.ix_index.specs.Counted.{values_at, count_of, IsIndex};
ghost use Rattle.ix_index.specs.Recounting.{all_revised, gained_in, lost_in, AreRevisions};
ghost use Rattle.ix_index.specs.Stepping.{gains_of, losses_of};

use crate::item::Item;
use crate::making::change_all;
use crate::parts::parted;
use crate::postings::Postings;
use crate::revisions::{Revision, changes_of, part_at};
use crate::steps::Step;
use ix_pages::Pages;
use ix_types::Memory;
use std::alloc::Global;
use std::marker::Model;

/// For each key its values, and how often each of them is given. Keys and values rise.
#[derive(Drop)]
pub struct Index<K: Item, V: Item, const P: usize> {
    pages: Pages<K, Postings<V>, P>,
}

impl<K: Item, V: Item, const P: usize> Model for Index<K, V, P> {
    ghost use Rattle.std.specs.Prelude.{List, ℕ};
    ghost use Rattle.ix_pages.specs.Paging.{pairs_of};
    ghost use Rattle.ix_index.specs.Counted.{IsIndex};

    ghost Value = { List (K × List (V × ℕ)) };

    ghost view = { λ index. pairs_of index.pages };

    ghost invariant = { λ index. IsIndex K.cmp V.cmp (pairs_of index.pages) };
}

impl<K: Item, V: Item, const P: usize> Index<K, V, P> {
    /// The index of no key. Takes no memory.
    pub fn empty() -> Index<K, V, P>
        requires { 4 ≤ P }
        ensures { result ≡ [] }
    {
        Index {
            pages: Pages::empty(),
        }
    }

    /// The same index once more, at no cost that grows. Takes no memory: an error comes only where the
    /// index has 2^63 - 1 handles.
    pub fn share(&self) -> Result<Index<K, V, P>, Memory>
        ensures { IfOk result (λ same. same ≡ self.now) }
    {
        let pages = self.pages.share()?;
        Ok(Index { pages })
    }

    /// The number of keys.
    pub fn len(&self) -> u64
        ensures len { result ≡ length self.now }
        ensures index { IsIndex K.cmp V.cmp self.now }
    {
        self.pages.len()
    }

    /// The key of a number; None exactly at or past the number of keys. Takes no memory.
    pub fn key_at(&self, place: u64) -> Option<&K>
        ensures { option_copied result ≡ slice_get (keys_of self.now) place }
    {
        match self.pages.at(place) {
            None => None,
            Some((key, _)) => Some(key),
        }
    }

    /// The values of a key, rising; none where the key isn't there. Takes no memory.
    pub fn values(&self, key: &K) -> &[V]
        ensures { result.now ≡ values_at K.cmp self.now key.now }
    {
        match self.pages.get(key) {
            None => &[],
            Some(postings) => postings.values(),
        }
    }

    /// How often a pair is given; 0 where it isn't there. Takes no memory.
    pub fn count(&self, key: &K, value: &V) -> u64
        ensures { result ≡ count_of K.cmp V.cmp self.now key.now value.now }
    {
        part_at(&self.pages, key).count(value)
    }

    /// The index after revisions, in one go: of each key's values one copy is made. This one stays.
    pub fn with_all(
        &self,
        alloc: Global,
        revisions: Vec<Revision<K, V>>,
    ) -> Result<Index<K, V, P>, Memory>
        requires { AreRevisions K.cmp V.cmp revisions.items }
        ensures index { IfOk result (λ after. IsIndex K.cmp V.cmp after) }
        ensures revised { IfOk result (λ after. after ≡ all_revised K.cmp V.cmp self.now revisions.items) }
        ensures counts { IfOk result (λ after. (key : K) (value : V) → count_of K.cmp V.cmp after key value
            ≡ count_of K.cmp V.cmp self.now key value + gained_in K.cmp V.cmp revisions.items key value - lost_in K.cmp V.cmp revisions.items key value) }
    {
        let changes = changes_of(alloc, &self.pages, revisions)?;
        let pages = self.pages.with_all(alloc, changes)?;
        Ok(Index { pages })
    }

    /// The index after steps, in any order: each pair counts as often more as it gains, and then as often less as it loses, and
    /// is gone where that is not at all. This one stays.
    pub fn with_steps(
        &self,
        alloc: Global,
        steps: Vec<Step<K, V>>,
    ) -> Result<Index<K, V, P>, Memory>
        ensures index { IfOk result (λ after. IsIndex K.cmp V.cmp after) }
        ensures counts { IfOk result (λ after. (key : K) (value : V) → count_of K.cmp V.cmp after key value
            ≡ count_of K.cmp V.cmp self.now key value + gains_of K.cmp V.cmp steps.items key value - losses_of K.cmp V.cmp steps.items key value) }
    {
        let mut changes = Vec::with_capacity(alloc, steps.len())?;
        let parts = parted(alloc, steps)?;
        change_all(alloc, &self.pages, parts, &mut changes)?;
        let pages = self.pages.with_all(alloc, changes)?;
        Ok(Index { pages })
    }
}
