//! The values of a key, each with its count.
ghost use Rattle.std.specs.Prelude.{◌≡◌, ◌+◌, ◌-◌, ◌++◌, ◌∷◌, ◌≤◌, ◌==◌, ℕ, List, [], length, take, drop, unwrap_or, option_copied, IfOk, OnOk, MatchOption};
ghost use Rattle.std.specs.List.{AllByRecursion};
ghost use Rattle.std.specs.Map.{keys_of};
ghost use Rattle.std.specs.declared.cmp.Ordering.TheVariants.{Less};
ghost use Rattle.ix_pages.specs.Pairs.{IsRising};
ghost use Rattle.ix_index.specs.Counted.{count_in};
ghost use Rattle.ix_index.specs.Parting.{IsPartedAt};
ghost use Rattle.ix_index.specs.Recounting.{all_recounted, AreRecounts};

use crate::item::Item;
use crate::revisions::Recount;
use ix_types::{Memory, Seq};
use std::alloc::Global;
use std::cmp::Ordering;
use std::marker::Model;

/// The values of a key and their counts, seen as the list of both.
#[derive(Drop)]
pub(crate) struct Postings<V> {
    values: Vec<V>,
    /// How often each of the values is given.
    counts: Vec<u64>,
}

impl<V> Model for Postings<V> {
    ghost use Rattle.std.specs.Prelude.{◌≡◌, ℕ, List, length};
    ghost use Rattle.std.specs.List.{zip};

    ghost Value = { List (V × ℕ) };

    ghost view = { λ postings. zip postings.values.items postings.counts.items };

    ghost invariant = { λ postings. length postings.counts.items ≡ length postings.values.items };
}

/// Some neighbours among the values of a key, seen as the list of both.
#[derive(Drop)]
pub(crate) struct Part<'a, V> {
    values: &'a [V],
    counts: &'a [u64],
}

impl<'a, V> Model for Part<'a, V> {
    ghost use Rattle.std.specs.Prelude.{◌≡◌, ℕ, List, length};
    ghost use Rattle.std.specs.List.{zip};

    ghost Value = { List (V × ℕ) };

    ghost view = { λ part. zip part.values.now part.counts.now };

    ghost invariant = { λ part. length part.counts.now ≡ length part.values.now };
}

impl<V> Postings<V> {
    /// The values.
    pub(crate) fn values(&self) -> &[V]
        ensures { result.now ≡ keys_of self.now }
    {
        &self.values
    }

    /// Whether there is no value.
    pub(crate) fn is_empty(&self) -> bool
        ensures { result ≡ (length self.now == 0) }
    {
        self.values.as_slice().is_empty()
    }
}

impl<V: Drop> Postings<V> {
    /// Room for so many values, and none of them.
    fn with_capacity(alloc: Global, len: usize) -> Result<Postings<V>, Memory>
        ensures { IfOk result (λ postings. postings ≡ []) }
    {
        Ok(Postings {
            values: Vec::with_capacity(alloc, len)?,
            counts: Vec::with_capacity(alloc, len)?,
        })
    }

    /// Puts a value at the end.
    fn push(&mut self, value: V, count: u64) -> Result<(), Memory>
        ensures { OnOk result (self.new ≡ self.old ++ (value, count) ∷ []) }
    {
        self.values.push(value)?;
        match self.counts.push(count) {
            Ok(()) => Ok(()),
            Err(_) => {
                let _ = self.values.pop();
                Err(Memory)
            }
        }
    }
}

impl<V: Item> Postings<V> {
    /// Puts values at the end.
    fn append(&mut self, part: &Part<'_, V>) -> Result<(), Memory>
        ensures { OnOk result (self.new ≡ self.old ++ part.now) }
    {
        for at in 0..part.values.len() {
            self.push(part.values[at].copied()?, part.counts[at])?;
        }
        Ok(())
    }
}

/// The values around one.
#[derive(Drop)]
struct Parted<'a, V> {
    lesser: Part<'a, V>,
    /// The count of the value itself, if it is there.
    count: Option<u64>,
    greater: Part<'a, V>,
}

/// The first value, its count, and what is behind it.
#[derive(Drop)]
struct First<'a, V> {
    value: &'a V,
    count: u64,
    rest: Part<'a, V>,
}

impl<'a, V> Part<'a, V> {
    /// All values of a key; none where it isn't there.
    pub(crate) fn of(postings: Option<&'a Postings<V>>) -> Part<'a, V>
        ensures { result ≡ unwrap_or (option_copied postings.entry) [] }
    {
        match postings {
            None => Part {
                values: &[],
                counts: &[],
            },
            Some(postings) => Part {
                values: &postings.values,
                counts: &postings.counts,
            },
        }
    }

    /// How many.
    fn len(&self) -> usize
        ensures { result ≡ length self.now }
    {
        self.values.len()
    }

    /// Those in front of a place.
    fn front(&self, at: usize) -> Part<'a, V>
        requires { at ≤ length self.now }
        ensures { result ≡ take at self.now }
    {
        let (values, _) = self.values.split_at(at);
        let (counts, _) = self.counts.split_at(at);
        Part { values, counts }
    }

    /// Those from a place on.
    fn back(&self, at: usize) -> Part<'a, V>
        requires { at ≤ length self.now }
        ensures { result ≡ drop at self.now }
    {
        let (_, values) = self.values.split_at(at);
        let (_, counts) = self.counts.split_at(at);
        Part { values, counts }
    }

    /// The first; None where there is none.
    fn first(&self) -> Option<First<'a, V>>
        ensures { MatchOption result (self.now ≡ []) (λ first. self.now ≡ (first.value.now, first.count) ∷ first.rest) }
    {
        match self.values.split_first() {
            None => None,
            Some((value, values)) => match self.counts.split_first() {
                None => unreachable!(),
                Some((count, counts)) => Some(First {
                    value,
                    count: *count,
                    rest: Part { values, counts },
                }),
            },
        }
    }
}

impl<'a, V: Item> Part<'a, V> {
    /// Parts them at a value.
    fn parted(&self, value: &V) -> Parted<'a, V>
        requires { IsRising V.cmp self.now }
        ensures { IsPartedAt V.cmp value.now self.now result.lesser result.count result.greater }
    {
        let compare = |other: &V| -> Ordering
            ensures { result ≡ V.cmp other.now value.entry.now }
        { other.cmp(value) };
        match self.values.binary_search_by(compare) {
            Ok(at) => match self.back(at).first() {
                Some(
                    First {
                        value: _,
                        count,
                        rest,
                    },
                ) => Parted {
                    lesser: self.front(at),
                    count: Some(count),
                    greater: rest,
                },
                None => unreachable!(),
            },
            Err(at) => Parted {
                lesser: self.front(at),
                count: None,
                greater: self.back(at),
            },
        }
    }

    /// The count of a value; 0 where it isn't there.
    pub(crate) fn count(&self, value: &V) -> u64
        requires { IsRising V.cmp self.now }
        ensures { result ≡ count_in V.cmp self.now value.now }
    {
        match self.parted(value).count {
            Some(count) => count,
            None => 0,
        }
    }
}

/// A count after gains and losses. No store comes to the greatest u64: that is answered as want of memory.
fn new_count(count: u64, gained: u64, lost: u64) -> Result<u64, Memory>
    ensures { IfOk result (λ after. after ≡ count + gained - lost) }
{
    if gained < lost {
        return Ok(count.saturating_sub(lost - gained));
    }
    count.checked_add(gained - lost).ok_or(Memory)
}

/// Puts behind others the values up to that of a recount, with the recount made, and gives those that are left.
fn recount_one<'a, V: Item>(
    after: &mut Postings<V>,
    rest: &Part<'a, V>,
    recount: Recount<V>,
) -> Result<Part<'a, V>, Memory>
    requires { IsRising V.cmp rest.now }
    ensures rising { IfOk result (λ left. IsRising V.cmp left) }
    ensures recounted { IfOk result (λ left. (later : List (Recount V)) → AllByRecursion (λ next. V.cmp recount.value next.value ≡ Less) later
        → after.new ++ all_recounted V.cmp left later ≡ after.old ++ all_recounted V.cmp rest.now (recount ∷ later)) }
{
    let Recount {
        value,
        gained,
        lost,
    } = recount;
    let Parted {
        lesser,
        count,
        greater,
    } = rest.parted(&value);
    let count = new_count(count.unwrap_or(0), gained, lost)?;
    after.append(&lesser)?;
    if count == 0 {
        return Ok(greater);
    }
    after.push(value, count)?;
    Ok(greater)
}

/// The values with recounts made.
pub(crate) fn recounted<V: Item>(
    alloc: Global,
    before: Part<'_, V>,
    recounts: Seq<Recount<V>>,
) -> Result<Postings<V>, Memory>
    requires { IsRising V.cmp before }
    ensures { IfOk result (λ after. AreRecounts V.cmp recounts → after ≡ all_recounted V.cmp before.entry recounts) }
{
    let recounts = recounts.into_vec();
    let len = before.len().saturating_add(recounts.len());
    let mut after = Postings::with_capacity(alloc, len)?;
    let mut rest = before;
    for recount in recounts {
        rest = recount_one(&mut after, &rest, recount)?;
    }
    after.append(&rest)?;
    Ok(after)
}
