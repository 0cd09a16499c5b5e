//! What changes in an index, key by key.
ghost use Rattle.std.specs.Prelude.{◌≡◌, ◌++◌, map, IfOk, OnOk};
ghost use Rattle.std.specs.List.{AllByRecursion};
ghost use Rattle.ix_pages.specs.Paging.{pairs_of};
ghost use Rattle.ix_index.specs.Counted.{postings_at, IsIndex};
ghost use Rattle.ix_index.specs.Recounting.{change_made, AreRecounts};

use crate::item::Item;
use crate::postings::{Part, Postings, recounted};
use ix_pages::{Change, Pages};
use ix_types::{Memory, Seq};
use std::alloc::Global;

/// How often a value gains and loses.
#[derive(Debug, Drop)]
pub struct Recount<V> {
    /// The value.
    pub value: V,
    /// How often it is given once more.
    pub gained: u64,
    /// How often it is given once less.
    pub lost: u64,
}

/// All that changes under a key.
#[derive(Debug, Drop)]
pub struct Revision<K, V> {
    /// The key.
    pub key: K,
    /// The values that change, rising.
    pub recounts: Seq<Recount<V>>,
}

/// The values of a key.
pub(crate) fn part_at<'a, K: Item, V: Item, const P: usize>(
    pages: &'a Pages<K, Postings<V>, P>,
    key: &K,
) -> Part<'a, V>
    ensures { result ≡ postings_at K.cmp (pairs_of pages.now) key.now }
{
    Part::of(pages.get(key))
}

/// The change that a revision makes of the pages.
fn change_of<K: Item, V: Item, const P: usize>(
    alloc: Global,
    pages: &Pages<K, Postings<V>, P>,
    revision: Revision<K, V>,
) -> Result<Change<K, Postings<V>>, Memory>
    requires { IsIndex K.cmp V.cmp (pairs_of pages.now) }
    ensures { IfOk result (λ change. AreRecounts V.cmp revision.recounts → change ≡ change_made K.cmp V.cmp (pairs_of pages.now) revision) }
{
    let Revision { key, recounts } = revision;
    let after = recounted(alloc, part_at(pages, &key), recounts)?;
    if after.is_empty() {
        return Ok(Change::Take(key));
    }
    Ok(Change::Put(key, after))
}

/// Puts behind others the changes that revisions make of the pages.
pub(crate) fn add_changes<K: Item, V: Item, const P: usize>(
    alloc: Global,
    pages: &Pages<K, Postings<V>, P>,
    revisions: Vec<Revision<K, V>>,
    changes: &mut Vec<Change<K, Postings<V>>>,
) -> Result<(), Memory>
    requires { IsIndex K.cmp V.cmp (pairs_of pages.now) }
    ensures { OnOk result (AllByRecursion (λ revision. AreRecounts V.cmp revision.recounts) revisions.items
        → changes.new.items ≡ changes.old.items ++ map (change_made K.cmp V.cmp (pairs_of pages.now)) revisions.items) }
{
    for revision in revisions {
        let change = change_of(alloc, pages, revision)?;
        changes.push(change)?;
    }
    Ok(())
}

/// The changes that revisions make of the pages.
pub(crate) fn changes_of<K: Item, V: Item, const P: usize>(
    alloc: Global,
    pages: &Pages<K, Postings<V>, P>,
    revisions: Vec<Revision<K, V>>,
) -> Result<Vec<Change<K, Postings<V>>>, Memory>
    requires { IsIndex K.cmp V.cmp (pairs_of pages.now) }
    ensures { IfOk result (λ changes. AllByRecursion (λ revision. AreRecounts V.cmp revision.recounts) revisions.items
        → changes.items ≡ map (change_made K.cmp V.cmp (pairs_of pages.now)) revisions.items) }
{
    let mut changes = Vec::with_capacity(alloc, revisions.len())?;
    add_changes(alloc, pages, revisions, &mut changes)?;
    Ok(changes)
}
