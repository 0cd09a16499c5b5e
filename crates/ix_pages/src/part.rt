//! What a fork stands on: a page, or forks again.
ghost use Rattle.std.specs.Prelude.{◌≡◌, ◌++◌, ◌^◌, ◌<◌, ◌≤◌, ℕ, List, length, map, drop, slice_get, option_map, option_copied, IfOk, IfSome, OnOk};
ghost use Rattle.std.specs.List.{AllByRecursion};
ghost use Rattle.ix_pages.specs.Pairs.{IsRising, look_up, from_key};
ghost use Rattle.ix_pages.specs.Paging.{pairs_of, kept};
ghost use Rattle.ix_pages.specs.Changes.{pages_changed, AreRising};
ghost use Rattle.ix_pages.specs.Tree.{pair_of, leaf_pages, IsLeaf, pages_of, IsChild, AreChildren};
ghost use Rattle.ix_pages.specs.Edits.{change_of};

use crate::bulk::{Edit, edited_pairs};
use crate::key::Key;
use crate::page::{Entry, entries_from, entry_at};
use ix_types::Memory;
use std::alloc::Global;
use std::sync::Arc;

/// How many pages and pairs there are.
#[derive(Clone, Copy)]
pub(crate) struct Count {
    pub(crate) pages: u64,
    pub(crate) pairs: u64,
}

/// A place between two pairs.
pub(crate) struct Start<'a, K, V> {
    /// What is left of the page.
    pub(crate) page: &'a [Arc<Entry<K, V>>],
    /// The number of the next page.
    pub(crate) behind: u64,
}

/// A part of a fork, with what the fork knows of it.
#[derive(Drop)]
pub(crate) struct Child<K, V, T> {
    /// The head of the first pair's key, by the fork's base and skip.
    pub(crate) head: u64,
    /// The first pair of the part.
    pub(crate) least: Arc<Entry<K, V>>,
    pub(crate) part: Arc<T>,
    pub(crate) count: Count,
}

/// Pages from left to right, at least one.
pub(crate) trait Part<K: Key + Drop, V: Drop>: Drop {
    /// The pages, from left to right.
    ghost pages: { Self → List (List (K × V)) };

    /// What stands in the forks is as it should be, and each page has a pair.
    ghost whole: { Self → Type 0 };

    /// The page in which a key would be.
    fn page_for(&self, key: &K) -> &[Arc<Entry<K, V>>]
        requires whole { whole self.now }
        requires rising { IsRising K.cmp (pairs_of (pages self.now)) }
        ensures rising { IsRising K.cmp (map pair_of result.now) }
        ensures value { look_up K.cmp (map pair_of result.now) key.now ≡ look_up K.cmp (pairs_of (pages self.now)) key.now };

    /// The place in front of the first pair whose key isn't less.
    fn start_at(&self, key: &K) -> Start<'_, K, V>
        requires whole { whole self.now }
        requires fits { length (pages self.now) < 2 ^ 64 }
        requires rising { IsRising K.cmp (pairs_of (pages self.now)) }
        ensures within { result.behind ≤ length (pages self.now) }
        ensures rest { map pair_of result.page.now ++ pairs_of (drop result.behind (pages self.now)) ≡ from_key K.cmp (pairs_of (pages self.now)) key.now };

    /// The page of a number.
    fn page_at(&self, place: u64) -> Option<&[Arc<Entry<K, V>>]>
        requires { whole self.now }
        ensures page { option_map (map pair_of) (option_copied result) ≡ slice_get (pages self.now) place }
        ensures some { IfSome result (λ page. 0 < length page.now) };

    /// The pair of a number.
    fn entry_of(&self, place: u64) -> Option<&Arc<Entry<K, V>>>
        requires { whole self.now }
        ensures { option_map pair_of (option_copied result) ≡ slice_get (pairs_of (pages self.now)) place };

    /// What is left after edits: parts of the same kind, none where no page is left.
    fn edited(
        &self,
        alloc: Global,
        most: usize,
        edits: &[Edit<'_, K, V>],
    ) -> Result<Vec<Child<K, V, Self>>, Memory>
        requires some { 0 < length edits.now }
        requires most { 0 < most }
        requires whole { whole self.now }
        requires pairs { IsRising K.cmp (pairs_of (pages self.now)) }
        requires edits { AreRising K.cmp (map change_of edits.now) }
        ensures parts { IfOk result (λ parts. AreChildren pages whole parts.items) }
        ensures pages { IfOk result (λ parts. pages_of pages parts.items ≡ pages_changed K.cmp most (pages self.now) (map change_of edits.now)) };
}

/// A page.
#[derive(Drop)]
pub(crate) struct Leaf<K, V> {
    pub(crate) entries: Vec<Arc<Entry<K, V>>>,
}

/// A page as a part; none where it has no pair.
pub(crate) fn push_page<K: Drop, V: Drop>(
    alloc: Global,
    pages: &mut Vec<Child<K, V, Leaf<K, V>>>,
    entries: Vec<Arc<Entry<K, V>>>,
) -> Result<(), Memory>
    requires { AreChildren leaf_pages IsLeaf pages.old.items }
    ensures parts { OnOk result (AreChildren leaf_pages IsLeaf pages.new.items) }
    ensures pages { OnOk result (pages_of leaf_pages pages.new.items ≡ pages_of leaf_pages pages.old.items ++ kept (map pair_of entries.items)) }
{
    let (least, pairs) = match entries.first() {
        None => return Ok(()),
        Some(entry) => (Arc::try_clone(entry)?, entries.len() as u64),
    };
    let part = Arc::new(alloc, Leaf { entries })?;
    pages.push(Child {
        head: 0,
        least,
        part,
        count: Count { pages: 1, pairs },
    })?;
    Ok(())
}

impl<K: Key + Drop, V: Drop> Part<K, V> for Leaf<K, V> {
    ghost pages = { leaf_pages };

    ghost whole = { IsLeaf };

    fn page_for(&self, _key: &K) -> &[Arc<Entry<K, V>>] {
        &self.entries
    }

    fn start_at(&self, key: &K) -> Start<'_, K, V> {
        Start {
            page: entries_from(&self.entries, key),
            behind: 1,
        }
    }

    fn page_at(&self, place: u64) -> Option<&[Arc<Entry<K, V>>]> {
        if place == 0 {
            Some(&self.entries)
        } else {
            None
        }
    }

    fn entry_of(&self, place: u64) -> Option<&Arc<Entry<K, V>>> {
        self.entries.as_slice().get(place as usize)
    }

    fn edited(
        &self,
        alloc: Global,
        most: usize,
        edits: &[Edit<'_, K, V>],
    ) -> Result<Vec<Child<K, V, Leaf<K, V>>>, Memory> {
        edited_pairs(alloc, most, &self.entries, edits)
    }
}
