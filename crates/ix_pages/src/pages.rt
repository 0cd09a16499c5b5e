//! The map. A new version shares with the old one all that didn't change.
ghost use Rattle.std.specs.Prelude.{◌≡◌, ◌≤◌, [], ◌∷◌, length, map, slice_get, option_map, option_copied, IfOk};
ghost use Rattle.std.specs.Map.Iter.{deref_pair};
ghost use Rattle.ix_pages.specs.Pairs.{look_up, from_key};
ghost use Rattle.ix_pages.specs.Paging.{pairs_of, pages_with, pages_without, ArePages};
ghost use Rattle.ix_pages.specs.Changes.{pages_changed, AreRising};
ghost use Rattle.ix_pages.specs.Edits.{change_of};

use crate::bulk::Edit;
use crate::changes::{Change, edit_of};
use crate::key::Key;
use crate::laws;
use crate::page::{Entry, entry_at};
use crate::part::Start;
use crate::range::Range;
use crate::root::{Root, edited_none};
use ix_types::Memory;
use std::alloc::Global;
use std::marker::Model;
use std::sync::Arc;

/// A sorted map in pages of at most `P` pairs, seen as the list of its pages.
#[derive(Drop)]
pub struct Pages<K: Key, V, const P: usize> {
    root: Option<Root<K, V>>,
}

impl<K: Key, V, const P: usize> Model for Pages<K, V, P> {
    ghost use Rattle.std.specs.Prelude.{List};
    ghost use Rattle.ix_pages.specs.Roots.{pages_in, IsRoot};

    ghost Value = { List (List (K × V)) };

    ghost view = { λ pages. pages_in pages.root };

    ghost invariant = { λ pages. IsRoot K.head_of K.cmp P pages.root };
}

impl<K: Key + Drop, V: Drop, const P: usize> Pages<K, V, P> {
    ghost use Rattle.ix_pages.specs.Tree.{pair_of};

    /// The map with no pair. Takes no memory.
    pub fn empty() -> Pages<K, V, P>
        requires { 4 ≤ P }
        ensures { result ≡ [] }
    {
        Pages { root: None }
    }

    /// The number of pairs.
    pub fn len(&self) -> u64
        ensures len { result ≡ length (pairs_of self.now) }
        ensures pages { ArePages K.cmp P self.now }
    {
        match &self.root {
            None => 0,
            Some(root) => root.count().pairs,
        }
    }

    /// The number of pages.
    pub fn page_count(&self) -> u64
        ensures { result ≡ length self.now }
    {
        match &self.root {
            None => 0,
            Some(root) => root.count().pages,
        }
    }

    /// The value under a key; None exactly where there is none. Takes no memory.
    pub fn get(&self, key: &K) -> Option<&V>
        ensures { option_copied result ≡ look_up K.cmp (pairs_of self.now) key.now }
    {
        match &self.root {
            None => None,
            Some(root) => match entry_at(root.page_for(key), key) {
                Some(entry) => Some(&entry.value),
                None => None,
            },
        }
    }

    /// The map with the value under the key. This one stays.
    pub fn with(&self, alloc: Global, key: K, value: V) -> Result<Pages<K, V, P>, Memory>
        ensures { IfOk result (λ after. after ≡ pages_with K.cmp P self.now (key, value)) }
    {
        self.show();
        let edit = edit_of(alloc, Change::Put(key, value))?;
        let after = self.with_one(alloc, edit)?;
        Ok(after)
    }

    /// The map without the key: the same map once more where it hasn't the key. This one stays.
    pub fn without(&self, alloc: Global, key: &K) -> Result<Pages<K, V, P>, Memory>
        ensures { IfOk result (λ after. after ≡ pages_without K.cmp self.now key.now) }
    {
        if self.get(key).is_none() {
            laws::an_absent_key_changes_nothing::<K, V>();
            self.show();
            let same = self.share()?;
            return Ok(same);
        }
        self.show();
        let after = self.with_one(alloc, Edit::Without(key))?;
        Ok(after)
    }

    /// What holds of each map.
    fn show(&self)
        ensures room { 4 ≤ P }
        ensures pages { ArePages K.cmp P self.now }
    {
        let _root = &self.root;
    }

    /// The map after an edit. This one stays.
    fn with_one<'k>(&self, alloc: Global, edit: Edit<'k, K, V>) -> Result<Pages<K, V, P>, Memory>
        ensures { IfOk result (λ after. after ≡ pages_changed K.cmp P self.now (change_of edit.entry ∷ [])) }
    {
        let mut edits = Vec::with_capacity(alloc, 1)?;
        edits.push(edit)?;
        self.with_edits(alloc, &edits)
    }

    /// The map after edits. This one stays.
    pub(crate) fn with_edits(
        &self,
        alloc: Global,
        edits: &[Edit<'_, K, V>],
    ) -> Result<Pages<K, V, P>, Memory>
        requires { AreRising K.cmp (map change_of edits.now) }
        ensures { IfOk result (λ after. after ≡ pages_changed K.cmp P self.now (map change_of edits.now)) }
    {
        if edits.is_empty() {
            return self.share();
        }
        match &self.root {
            None => {
                let first = edited_none(alloc, P, edits)?;
                Ok(Pages { root: first })
            }
            Some(root) => {
                let rest = root.edited(alloc, P, edits)?;
                Ok(Pages { root: rest })
            }
        }
    }

    /// The same map once more, at no cost that grows. Takes no memory: an error comes only where the
    /// map has 2^63 - 1 handles.
    pub fn share(&self) -> Result<Pages<K, V, P>, Memory>
        ensures { IfOk result (λ same. same ≡ self.now) }
    {
        match &self.root {
            None => Ok(Pages { root: None }),
            Some(root) => {
                let root = root.share()?;
                Ok(Pages { root: Some(root) })
            }
        }
    }

    /// The page of a number; None exactly at or past the number of pages. Takes no memory.
    pub fn page_at(&self, place: u64) -> Option<&[Arc<Entry<K, V>>]>
        ensures { option_map (map pair_of) (option_copied result) ≡ slice_get self.now place }
    {
        match &self.root {
            None => None,
            Some(root) => root.page_at(place),
        }
    }

    /// The pair of a number; None exactly at or past the number of pairs. Takes no memory.
    pub fn at(&self, place: u64) -> Option<(&K, &V)>
        ensures { option_map deref_pair result ≡ slice_get (pairs_of self.now) place }
    {
        match &self.root {
            None => None,
            Some(root) => match root.entry_of(place) {
                Some(entry) => Some((&entry.key, &entry.value)),
                None => None,
            },
        }
    }

    /// The first pair; None exactly where there is none. Takes no memory.
    pub fn first(&self) -> Option<(&K, &V)>
        ensures { option_map deref_pair result ≡ slice_get (pairs_of self.now) 0 }
    {
        self.at(0)
    }

    /// The pairs, rising. Takes no memory.
    pub fn iter(&self) -> Range<'_, K, V, P>
        ensures { result ≡ pairs_of self.now }
    {
        match &self.root {
            None => Range::new(&[], 0, None),
            Some(root) => Range::new(&[], 0, Some(root)),
        }
    }

    /// The pairs whose key isn't less, rising. Takes no memory.
    pub fn from_key(&self, key: &K) -> Range<'_, K, V, P>
        ensures { result ≡ from_key K.cmp (pairs_of self.now) key.now }
    {
        match &self.root {
            None => Range::new(&[], 0, None),
            Some(root) => {
                let Start { page, behind } = root.start_at(key);
                Range::new(page, behind, Some(root))
            }
        }
    }
}
