//! Many changes of a tree in one go. A part into which none falls is shared.
ghost use Rattle.std.specs.Prelude.{◌≡◌, ◌++◌, ◌∷◌, ◌<◌, List, [], map, not, true, filter, IfOk, OnOk};
ghost use Rattle.std.specs.List.{AllByRecursion};
ghost use Rattle.std.specs.declared.cmp.Ordering.TheVariants.{Less};
ghost use Rattle.std.specs.Ordering.{is_lt};
ghost use Rattle.ix_pages.specs.declared.changes.Change.{Change};
ghost use Rattle.ix_pages.specs.Pairs.{IsRising};
ghost use Rattle.ix_pages.specs.Paging.{pairs_of};
ghost use Rattle.ix_pages.specs.Changes.{key_of_change, changed, cut_often, pages_changed, AreRising};
ghost use Rattle.ix_pages.specs.Tree.{pair_of, leaf_pages, IsLeaf, pages_of, AreChildren};
ghost use Rattle.ix_pages.specs.Edits.{change_of, key_of_edit};

use crate::page::{Entry, Parted, append, copy, fetch, part};
use crate::part::{Child, Leaf, push_page};
use ix_types::Memory;
use std::alloc::Global;
use std::cmp::Ordering;
use std::sync::Arc;

/// A change, with the pair of a put where pages can share it.
#[derive(Drop)]
pub(crate) enum Edit<'k, K, V> {
    Place(Arc<Entry<K, V>>),
    Remove(K),
    /// The same by a key that the caller has.
    Without(&'k K),
}

/// The key that an edit speaks of.
pub(crate) fn key_of<'a, K, V>(edit: &'a Edit<'_, K, V>) -> &'a K
    ensures { result.now ≡ key_of_edit edit.now }
{
    match edit {
        Edit::Place(entry) => &entry.key,
        Edit::Remove(key) => key,
        Edit::Without(key) => *key,
    }
}

/// Edits on both sides of a key.
pub(crate) struct Sides<'a, 'k, K, V> {
    /// Those of lesser keys.
    pub(crate) before: &'a [Edit<'k, K, V>],
    /// The others.
    pub(crate) behind: &'a [Edit<'k, K, V>],
}

/// Parts edits at a key.
pub(crate) fn split_edits<'a, 'k, K: Ord, V>(
    edits: &'a [Edit<'k, K, V>],
    key: &K,
) -> Sides<'a, 'k, K, V>
    requires { AreRising K.cmp (map change_of edits.now) }
    ensures before { map change_of result.before.now ≡ filter (λ change. is_lt (K.cmp (key_of_change change) key.now)) (map change_of edits.now) }
    ensures behind { map change_of result.behind.now ≡ filter (λ change. not (is_lt (K.cmp (key_of_change change) key.now))) (map change_of edits.now) }
    ensures rising_before { AreRising K.cmp (map change_of result.before.now) }
    ensures rising_behind { AreRising K.cmp (map change_of result.behind.now) }
{
    let compare = |edit: &Edit<'_, K, V>| -> Ordering
        ensures { result ≡ K.cmp (key_of_edit edit.now) key.entry.now }
    { key_of(edit).cmp(key) };
    match edits.binary_search_by(compare) {
        Ok(at) => {
            let (before, behind) = edits.split_at(at);
            Sides { before, behind }
        }
        Err(at) => {
            let (before, behind) = edits.split_at(at);
            Sides { before, behind }
        }
    }
}

/// Puts onto a page the pairs up to an edit, with the edit made, and gives those behind it.
fn merge_one<'a, K: Ord + Drop, V: Drop>(
    page: &mut Vec<Arc<Entry<K, V>>>,
    rest: &'a [Arc<Entry<K, V>>],
    edit: &Edit<'_, K, V>,
) -> Result<&'a [Arc<Entry<K, V>>], Memory>
    requires { IsRising K.cmp (map pair_of rest.now) }
    ensures rising { IfOk result (λ left. IsRising K.cmp (map pair_of left.now)) }
    ensures merged { IfOk result (λ left. (later : List (Change K V))
        → AllByRecursion (λ change. K.cmp (key_of_edit edit.now) (key_of_change change) ≡ Less) later
        → map pair_of page.new.items ++ changed K.cmp (map pair_of left.now) later
        ≡ map pair_of page.old.items ++ changed K.cmp (map pair_of rest.now) (change_of edit.now ∷ later)) }
{
    let Parted {
        lesser,
        same: _,
        greater,
        from: _,
    } = part(rest, key_of(edit));
    append(page, lesser)?;
    match edit {
        Edit::Place(entry) => {
            page.push(Arc::try_clone(entry)?)?;
            Ok(greater)
        }
        Edit::Remove(_) => Ok(greater),
        Edit::Without(_) => Ok(greater),
    }
}

/// The pairs of a page with its edits made.
fn merged<K: Ord + Drop, V: Drop>(
    alloc: Global,
    entries: &[Arc<Entry<K, V>>],
    edits: &[Edit<'_, K, V>],
) -> Result<Vec<Arc<Entry<K, V>>>, Memory>
    requires pairs { IsRising K.cmp (map pair_of entries.now) }
    requires edits { AreRising K.cmp (map change_of edits.now) }
    ensures { IfOk result (λ page. map pair_of page.items ≡ changed K.cmp (map pair_of entries.now) (map change_of edits.now)) }
{
    fetch(entries);
    let len = entries.len().saturating_add(edits.len());
    let mut page = Vec::with_capacity(alloc, len)?;
    let mut rest = entries;
    for edit in edits {
        rest = merge_one(&mut page, rest, edit)?;
    }
    append(&mut page, rest)?;
    Ok(page)
}

/// Puts at the end of a list the pages of pairs, cut as often as is needed.
fn built<K: Drop, V: Drop>(
    alloc: Global,
    most: usize,
    pages: &mut Vec<Child<K, V, Leaf<K, V>>>,
    entries: &[Arc<Entry<K, V>>],
) -> Result<(), Memory>
    requires most { 0 < most }
    requires pages { AreChildren leaf_pages IsLeaf pages.old.items }
    ensures parts { OnOk result (AreChildren leaf_pages IsLeaf pages.new.items) }
    ensures pages { OnOk result (pages_of leaf_pages pages.new.items ≡ pages_of leaf_pages pages.old.items ++ cut_often most (map pair_of entries.now)) }
{
    if entries.len() <= most {
        let page = copy(alloc, entries)?;
        return push_page(alloc, pages, page);
    }
    let (front, back) = entries.split_at(entries.len() / 2 + entries.len() % 2);
    built(alloc, most, pages, front)?;
    built(alloc, most, pages, back)
}

/// The pages of some pairs with edits made.
pub(crate) fn edited_pairs<K: Ord + Drop, V: Drop>(
    alloc: Global,
    most: usize,
    entries: &[Arc<Entry<K, V>>],
    edits: &[Edit<'_, K, V>],
) -> Result<Vec<Child<K, V, Leaf<K, V>>>, Memory>
    requires most { 0 < most }
    requires pairs { IsRising K.cmp (map pair_of entries.now) }
    requires edits { AreRising K.cmp (map change_of edits.now) }
    ensures parts { IfOk result (λ pages. AreChildren leaf_pages IsLeaf pages.items) }
    ensures pages { IfOk result (λ pages. pages_of leaf_pages pages.items ≡ cut_often most (changed K.cmp (map pair_of entries.now) (map change_of edits.now))) }
{
    let page = merged(alloc, entries, edits)?;
    let mut pages = Vec::new(alloc);
    if page.len() <= most {
        push_page(alloc, &mut pages, page)?;
    } else {
        built(alloc, most, &mut pages, &page)?;
    }
    Ok(pages)
}
