//! Single steps of an index, in any order.
ghost use Rattle.std.specs.Prelude.{◌≡◌, ℕ, ◌+◌, ◌-◌, ◌++◌, [], ◌∷◌, false, IfOk, OnOk, if◌then◌else◌};
ghost use Rattle.std.specs.List.{filter};
ghost use Rattle.std.specs.List.Sorted.{IsPermutation, IsSortedBy};
ghost use Rattle.std.specs.Ordering.{is_lt};
ghost use Rattle.ix_index.specs.Recounting.{gained_in, lost_in, AreRevisions};
ghost use Rattle.ix_index.specs.Stepping.{gains_of, losses_of};
ghost use Rattle.ix_index.specs.Dealing.{dealt_of, steps_of, AreApart, AreNetBehind};
ghost use Rattle.ix_index.specs.Gathering.{once, once_more, is_change, with_turn, first_of, settled, all_settled, step_cmp, with_step, gathered};

use crate::item::Item;
use crate::parts::{Parts, parted};
use crate::revisions::{Recount, Revision};
use ix_types::{Memory, Seq};
use std::alloc::Global;
use std::cmp::Ordering;

/// A pair is given once more or once less.
#[derive(Debug, Drop)]
pub struct Step<K, V> {
    /// The key.
    pub key: K,
    /// The value.
    pub value: V,
    /// Whether the pair is given once more.
    pub gains: bool,
}

/// The order of steps: by key, and then by value.
fn compare<K: Item, V: Item>(a: &Step<K, V>, b: &Step<K, V>) -> Ordering
    ensures { result ≡ step_cmp K.cmp V.cmp a.now b.now }
{
    match a.key.cmp(&b.key) {
        Ordering::Less => Ordering::Less,
        Ordering::Equal => a.value.cmp(&b.value),
        Ordering::Greater => Ordering::Greater,
    }
}

/// Sorts steps.
fn sort<K: Item, V: Item>(steps: &mut Vec<Step<K, V>>)
    ensures moved { IsPermutation steps.old.items steps.new.items }
    ensures sorted { IsSortedBy (λ a b. is_lt (step_cmp K.cmp V.cmp a b)) steps.new.items }
{
    steps.sort_unstable_by(
        |a: &Step<K, V>, b: &Step<K, V>| -> Ordering
            ensures { result ≡ step_cmp K.cmp V.cmp a.now b.now }
        { compare(a, b) },
    );
}

/// A count once more, if it is.
fn one_more(count: u64, more: bool) -> Result<u64, Memory>
    ensures { IfOk result (λ after. after ≡ count + (if more then 1 else 0)) }
{
    if more {
        return count.checked_add(1).ok_or(Memory);
    }
    Ok(count)
}

/// A value's first step.
fn first<V>(value: V, gains: bool) -> Recount<V>
    ensures { result ≡ once value gains }
{
    if gains {
        return Recount {
            value,
            gained: 1,
            lost: 0,
        };
    }
    Recount {
        value,
        gained: 0,
        lost: 1,
    }
}

/// One step more of a value.
fn next<V: Drop>(recount: Recount<V>, gains: bool) -> Result<Recount<V>, Memory>
    ensures { IfOk result (λ after. after ≡ once_more recount gains) }
{
    let Recount {
        value,
        gained,
        lost,
    } = recount;
    let gained = one_more(gained, gains)?;
    let lost = one_more(lost, !gains)?;
    Ok(Recount {
        value,
        gained,
        lost,
    })
}

/// Puts a step of a value behind others, or to those of the last value.
fn turn<V: Item>(recounts: &mut Vec<Recount<V>>, value: V, gains: bool) -> Result<(), Memory>
    ensures { OnOk result (recounts.new.items ≡ with_turn V.cmp recounts.old.items value gains) }
{
    match recounts.pop() {
        None => {
            recounts.push(first(value, gains))?;
            Ok(())
        }
        Some(last) => {
            if value.cmp(&last.value).is_eq() {
                let last = next(last, gains)?;
                recounts.push(last)?;
                return Ok(());
            }
            recounts.push(last)?;
            recounts.push(first(value, gains))?;
            Ok(())
        }
    }
}

/// The revision of one step.
fn begin<K: Drop, V: Drop>(alloc: Global, step: Step<K, V>) -> Result<Revision<K, V>, Memory>
    ensures { IfOk result (λ revision. revision ≡ first_of step) }
{
    let Step { key, value, gains } = step;
    let mut recounts = Vec::with_capacity(alloc, 1)?;
    recounts.push(first(value, gains))?;
    Ok(Revision {
        key,
        recounts: Seq::of(recounts),
    })
}

/// Puts a step behind revisions, or to those of the last key.
fn gather<K: Item, V: Item>(
    alloc: Global,
    revisions: &mut Vec<Revision<K, V>>,
    step: Step<K, V>,
) -> Result<(), Memory>
    ensures { OnOk result (revisions.new.items ≡ with_step K.cmp V.cmp revisions.old.items step) }
{
    match revisions.pop() {
        None => {
            let revision = begin(alloc, step)?;
            revisions.push(revision)?;
            Ok(())
        }
        Some(last) => {
            if step.key.cmp(&last.key).is_eq() {
                let Step {
                    key: _,
                    value,
                    gains,
                } = step;
                let Revision { key, recounts } = last;
                let mut recounts = recounts.into_vec();
                turn(&mut recounts, value, gains)?;
                revisions.push(Revision {
                    key,
                    recounts: Seq::of(recounts),
                })?;
                return Ok(());
            }
            revisions.push(last)?;
            let revision = begin(alloc, step)?;
            revisions.push(revision)?;
            Ok(())
        }
    }
}

/// Sorted steps, gathered.
fn gather_all<K: Item, V: Item>(
    alloc: Global,
    steps: Vec<Step<K, V>>,
) -> Result<Vec<Revision<K, V>>, Memory>
    ensures { IfOk result (λ revisions. revisions.items ≡ gathered K.cmp V.cmp [] steps.items) }
{
    let mut revisions = Vec::new(alloc);
    for step in steps {
        gather(alloc, &mut revisions, step)?;
    }
    Ok(revisions)
}

/// The recounts that change something.
fn changing<V: Drop>(recounts: Seq<Recount<V>>) -> Vec<Recount<V>>
    ensures { result.items ≡ filter is_change recounts }
{
    let mut recounts = recounts.into_vec();
    recounts.retain(
        |recount: &Recount<V>| -> bool
            ensures { result ≡ is_change recount.now }
        { recount.gained != recount.lost },
    );
    recounts
}

/// Puts a revision behind others, without what changes nothing.
fn settle<K: Drop, V: Drop>(
    revisions: &mut Vec<Revision<K, V>>,
    revision: Revision<K, V>,
) -> Result<(), Memory>
    ensures { OnOk result (revisions.new.items ≡ revisions.old.items ++ settled revision) }
{
    let Revision { key, recounts } = revision;
    let recounts = changing(recounts);
    if recounts.as_slice().is_empty() {
        return Ok(());
    }
    revisions.push(Revision {
        key,
        recounts: Seq::of(recounts),
    })?;
    Ok(())
}

/// Puts revisions behind others, without what changes nothing.
fn settle_all<K: Drop, V: Drop>(
    revisions: &mut Vec<Revision<K, V>>,
    gathered: Vec<Revision<K, V>>,
) -> Result<(), Memory>
    ensures { OnOk result (revisions.new.items ≡ revisions.old.items ++ all_settled gathered.items) }
{
    for revision in gathered {
        settle(revisions, revision)?;
    }
    Ok(())
}

/// Puts what some steps change behind revisions.
pub(crate) fn revise<K: Item, V: Item>(
    alloc: Global,
    revisions: &mut Vec<Revision<K, V>>,
    mut steps: Vec<Step<K, V>>,
) -> Result<(), Memory>
    ensures { OnOk result (AreNetBehind K.cmp V.cmp steps.items revisions.old.items revisions.new.items) }
{
    sort(&mut steps);
    let gathered = gather_all(alloc, steps)?;
    settle_all(revisions, gathered)
}

/// Puts what the steps of all parts change behind revisions, part by part.
fn revise_all<K: Item, V: Item>(
    alloc: Global,
    parts: Parts<K, V>,
    revisions: &mut Vec<Revision<K, V>>,
) -> Result<(), Memory>
    ensures { OnOk result (AreApart K.cmp (dealt_of parts)
        → AreNetBehind K.cmp V.cmp (steps_of (dealt_of parts)) revisions.old.items revisions.new.items) }
{
    match parts {
        Parts::Part(steps) => revise(alloc, revisions, steps),
        Parts::Cut(left, _, right) => {
            revise_all(alloc, Box::into_inner(left), revisions)?;
            revise_all(alloc, Box::into_inner(right), revisions)
        }
    }
}

/// What single steps, in any order, change key by key: sorted, and without what changes nothing.
#[tactic(auto, using(crate::proofs::Joined::all_rise, crate::proofs::Joined::all_net))]
pub fn revisions_of<K: Item, V: Item>(
    alloc: Global,
    steps: Vec<Step<K, V>>,
) -> Result<Vec<Revision<K, V>>, Memory>
    ensures rise { IfOk result (λ revisions. AreRevisions K.cmp V.cmp revisions.items) }
    ensures nets { IfOk result (λ revisions. (before : ℕ) (key : K) (value : V)
        → before + gained_in K.cmp V.cmp revisions.items key value - lost_in K.cmp V.cmp revisions.items key value
        ≡ before + gains_of K.cmp V.cmp steps.items key value - losses_of K.cmp V.cmp steps.items key value) }
{
    let parts = parted(alloc, steps)?;
    let mut revisions = Vec::new(alloc);
    revise_all(alloc, parts, &mut revisions)?;
    Ok(revisions)
}
