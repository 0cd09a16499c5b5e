//! Sorted lists without repeats, for any order.
ghost use Rattle.std.specs.Prelude.{◌≡◌, ◌≤◌, length, insert, take, IfSome, IfOk, OnOk};
ghost use Rattle.std.specs.Option.{option_map_or};
ghost use Rattle.ix_model.specs.SortedSet.{add_once, sorted_set};

use ix_types::Memory;
use std::alloc::Global;
use std::cmp::Ordering;

/// An order of items. Of items that tie, a sorted set has one.
pub trait Order<T> {
    ghost use Rattle.std.specs.declared.cmp.Ordering.{Ordering};

    /// How two items compare.
    ghost cmp: { T → T → Ordering };

    fn compare(&self, first: &T, second: &T) -> Ordering
        ensures { result ≡ cmp first.now second.now };
}

/// The order that a type has by itself.
#[derive(Clone, Copy, Debug)]
pub struct OwnOrder;

impl<T: Ord> Order<T> for OwnOrder {
    ghost cmp = { T.cmp };

    fn compare(&self, first: &T, second: &T) -> Ordering {
        first.cmp(second)
    }
}

/// The items, sorted, and of those that tie the first alone. Each is put at its place by a walk from the front.
pub fn sorted_set<T: Drop, O: Order<T>>(
    alloc: Global,
    items: Vec<T>,
    order: &O,
) -> Result<Vec<T>, Memory>
    ensures { IfOk result (λ set. set.items ≡ sorted_set O.cmp items.items) }
{
    let mut set = Vec::new(alloc);
    for item in items {
        add_once(&mut set, item, order)?;
    }
    Ok(set)
}

/// Puts an item at its place among sorted ones, unless one that ties is there.
pub fn add_once<T: Drop, O: Order<T>>(set: &mut Vec<T>, item: T, order: &O) -> Result<(), Memory>
    ensures { OnOk result (set.new.items ≡ add_once O.cmp item set.old.items) }
{
    if let Some(place) = place_of(set, &item, order) {
        if set.insert(place, item).is_err() {
            return Err(Memory);
        }
    }
    Ok(())
}

/// Where an item belongs among sorted ones; None where one that ties is there.
fn place_of<T, O: Order<T>>(set: &[T], item: &T, order: &O) -> Option<usize>
    ensures within { IfSome result (λ place. place ≤ length set.now) }
    ensures place { option_map_or (λ i. insert set.now i item.now) result set.now ≡ add_once O.cmp item.now set.now }
{
    for (i, other) in set.iter().enumerate() {
        match order.compare(item, other) {
            Ordering::Less => return Some(i),
            Ordering::Equal => return None,
            Ordering::Greater => {}
        }
    }
    Some(set.len())
}
