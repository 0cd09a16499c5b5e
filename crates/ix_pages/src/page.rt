//! A page: some pairs in a row, each behind an `Arc`.
ghost use Rattle.std.specs.Prelude.{◌≡◌, ◌++◌, map, OnOk, IfOk, option_map, option_copied};
ghost use Rattle.ix_pages.specs.Pairs.{IsRising, IsParted, look_up, from_key};
ghost use Rattle.std.specs.Option.{option_to_list};
ghost use Rattle.ix_pages.specs.Tree.{pair_of};

use ix_types::Memory;
use std::alloc::Global;
use std::cmp::Ordering;
use std::sync::Arc;

/// A pair of a map.
#[derive(Debug, Drop)]
pub struct Entry<K, V> {
    /// The key.
    pub key: K,
    /// What stands under it.
    pub value: V,
}

/// The pairs of a page around a key.
pub(crate) struct Parted<'a, K, V> {
    /// Those with lesser keys.
    pub(crate) lesser: &'a [Arc<Entry<K, V>>],
    /// The one with the key.
    pub(crate) same: Option<&'a Arc<Entry<K, V>>>,
    /// Those with greater keys.
    pub(crate) greater: &'a [Arc<Entry<K, V>>],
    /// Those whose keys aren't less.
    pub(crate) from: &'a [Arc<Entry<K, V>>],
}

/// Parts a page by a key.
pub(crate) fn part<'a, K: Ord, V>(entries: &'a [Arc<Entry<K, V>>], key: &K) -> Parted<'a, K, V>
    requires { IsRising K.cmp (map pair_of entries.now) }
    ensures from { map pair_of result.from.now ≡ option_to_list (option_map pair_of (option_copied result.same)) ++ map pair_of result.greater.now }
    ensures parted { IsParted K.cmp key.now (map pair_of entries.now) (map pair_of result.lesser.now) (option_map pair_of (option_copied result.same)) (map pair_of result.greater.now) }
{
    let compare = |entry: &Arc<Entry<K, V>>| -> Ordering
        ensures { result ≡ K.cmp entry.now.value.key key.entry.now }
    { entry.key.cmp(key) };
    match entries.binary_search_by(compare) {
        Ok(at) => {
            let (lesser, rest) = entries.split_at(at);
            match rest.split_first() {
                Some((same, greater)) => Parted {
                    lesser,
                    same: Some(same),
                    greater,
                    from: rest,
                },
                None => unreachable!(),
            }
        }
        Err(at) => {
            let (lesser, greater) = entries.split_at(at);
            Parted {
                lesser,
                same: None,
                greater,
                from: greater,
            }
        }
    }
}

/// Puts pairs at the end of a list.
pub(crate) fn append<K: Drop, V: Drop>(
    list: &mut Vec<Arc<Entry<K, V>>>,
    entries: &[Arc<Entry<K, V>>],
) -> Result<(), Memory>
    ensures { OnOk result (map pair_of list.new.items ≡ map pair_of list.old.items ++ map pair_of entries.now) }
{
    for entry in entries {
        list.push(Arc::try_clone(entry)?)?;
    }
    Ok(())
}

/// A page of the same pairs.
pub(crate) fn copy<K: Drop, V: Drop>(
    alloc: Global,
    entries: &[Arc<Entry<K, V>>],
) -> Result<Vec<Arc<Entry<K, V>>>, Memory>
    ensures { IfOk result (λ page. map pair_of page.items ≡ map pair_of entries.now) }
{
    let mut page = Vec::with_capacity(alloc, entries.len())?;
    append(&mut page, entries)?;
    Ok(page)
}

/// Reads the counts of some pairs in a row before each is needed. Reads overlap, and memory brings the pairs side by side.
pub(crate) fn fetch<K, V>(entries: &[Arc<Entry<K, V>>]) {
    for entry in entries {
        let _owners = Arc::strong_count(entry);
    }
}

/// Reads the count of the last pair of each block of eight.
fn fetch_blocks<K, V>(entries: &[Arc<Entry<K, V>>]) {
    for block in entries.chunks_exact(8) {
        if let Some(last) = block.last() {
            let _owners = Arc::strong_count(last);
        }
    }
}

/// The pairs of a page among which a key would be, eight at most. These comparisons don't wait for one another, as those of a
/// binary search do, so memory brings several pairs at once.
fn block_for<'a, K: Ord, V>(entries: &'a [Arc<Entry<K, V>>], key: &K) -> &'a [Arc<Entry<K, V>>]
    requires { IsRising K.cmp (map pair_of entries.now) }
    ensures rising { IsRising K.cmp (map pair_of result.now) }
    ensures value { look_up K.cmp (map pair_of result.now) key.now ≡ look_up K.cmp (map pair_of entries.now) key.now }
{
    if entries.len() <= 8 {
        return entries;
    }
    let (front, back) = entries.split_at(8);
    if key.cmp(&entries[7].key).is_gt() {
        return block_for(back, key);
    }
    front
}

/// The pair of a key among some in a row.
fn scan<'a, K: Ord, V>(entries: &'a [Arc<Entry<K, V>>], key: &K) -> Option<&'a Arc<Entry<K, V>>>
    requires { IsRising K.cmp (map pair_of entries.now) }
    ensures { option_map (λ entry. (pair_of entry).1) (option_copied result) ≡ look_up K.cmp (map pair_of entries.now) key.now }
{
    for entry in entries {
        let order = key.cmp(&entry.key);
        if order.is_eq() {
            return Some(entry);
        }
        if order.is_lt() {
            return None;
        }
    }
    None
}

/// The pair of a key in a page.
pub(crate) fn entry_at<'a, K: Ord, V>(
    entries: &'a [Arc<Entry<K, V>>],
    key: &K,
) -> Option<&'a Arc<Entry<K, V>>>
    requires { IsRising K.cmp (map pair_of entries.now) }
    ensures { option_map (λ entry. (pair_of entry).1) (option_copied result) ≡ look_up K.cmp (map pair_of entries.now) key.now }
{
    fetch_blocks(entries);
    let block = block_for(entries, key);
    fetch(block);
    scan(block, key)
}

/// The pairs of a page whose keys aren't less.
pub(crate) fn entries_from<'a, K: Ord, V>(
    entries: &'a [Arc<Entry<K, V>>],
    key: &K,
) -> &'a [Arc<Entry<K, V>>]
    requires { IsRising K.cmp (map pair_of entries.now) }
    ensures { map pair_of result.now ≡ from_key K.cmp (map pair_of entries.now) key.now }
{
    let Parted {
        lesser: _,
        same: _,
        greater: _,
        from,
    } = part(entries, key);
    from
}
