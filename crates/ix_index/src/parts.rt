//! Steps in parts, cut at keys: a part and what comes of it fit into the memory that is nearest to a processor.
ghost use Rattle.std.specs.Prelude.{◌≡◌, ℕ, IfOk, OnOk};
ghost use Rattle.std.specs.List.{fold, sum_by};
ghost use Rattle.ix_index.specs.Dealing.{dealt_of, steps_of, with_dealt, AreNone, AreApart};

use crate::item::Item;
use crate::steps::Step;
use ix_types::Memory;
use std::alloc::Global;

/// About how many steps a part has.
const PART_LEN: usize = 2048;

/// Of so many steps one gives its key to the sample.
const SAMPLE_STEP: usize = 256;

/// Of so many keys of the sample one is a cut.
const CUT_STEP: usize = 8;

/// Steps in parts.
#[derive(Drop)]
pub(crate) enum Parts<K, V> {
    Part(Vec<Step<K, V>>),
    /// Steps of lesser keys than this one, and the others.
    Cut(Box<Parts<K, V>>, K, Box<Parts<K, V>>),
}

/// The keys of some of the steps, rising.
fn sample<K: Item, V>(alloc: Global, steps: &[Step<K, V>]) -> Result<Vec<K>, Memory> {
    let mut keys = Vec::new(alloc);
    for some in steps.chunks_exact(SAMPLE_STEP) {
        if let Some(step) = some.first() {
            keys.push(step.key.copied()?)?;
        }
    }
    keys.sort_unstable();
    Ok(keys)
}

/// Some keys of a sample, as far from one another in it.
fn cuts<K: Item>(alloc: Global, keys: &[K]) -> Result<Vec<K>, Memory> {
    let mut cuts = Vec::new(alloc);
    for some in keys.chunks_exact(CUT_STEP) {
        if let Some(key) = some.last() {
            cuts.push(key.copied()?)?;
        }
    }
    Ok(cuts)
}

/// Empty parts around these keys.
fn none_around<K: Item, V: Drop>(alloc: Global, keys: &[K]) -> Result<Parts<K, V>, Memory>
    ensures { IfOk result (λ parts. AreNone (dealt_of parts)) }
{
    let (front, back) = keys.split_at(keys.len() / 2);
    match back.split_first() {
        None => {
            let steps = Vec::with_capacity(alloc, PART_LEN)?;
            Ok(Parts::Part(steps))
        }
        Some((key, behind)) => {
            let left = none_around(alloc, front)?;
            let right = none_around(alloc, behind)?;
            let left = Box::new(alloc, left)?;
            let right = Box::new(alloc, right)?;
            Ok(Parts::Cut(left, key.copied()?, right))
        }
    }
}

/// Puts a step into the part of its key.
fn deal<K: Item, V: Item>(parts: &mut Parts<K, V>, step: Step<K, V>) -> Result<(), Memory>
    ensures { OnOk result (dealt_of parts.new ≡ with_dealt K.cmp (dealt_of parts.old) step) }
{
    match parts {
        Parts::Part(steps) => {
            steps.push(step)?;
            Ok(())
        }
        Parts::Cut(left, key, right) => {
            if step.key.cmp(key).is_lt() {
                deal(left, step)
            } else {
                deal(right, step)
            }
        }
    }
}

/// Puts all steps into the parts of their keys.
fn deal_all<K: Item, V: Item>(parts: &mut Parts<K, V>, steps: Vec<Step<K, V>>) -> Result<(), Memory>
    ensures { OnOk result (dealt_of parts.new ≡ fold (with_dealt K.cmp) (dealt_of parts.old) steps.items) }
{
    for step in steps {
        deal(parts, step)?;
    }
    Ok(())
}

/// Steps in parts: in one where they are few.
pub(crate) fn parted<K: Item, V: Item>(
    alloc: Global,
    steps: Vec<Step<K, V>>,
) -> Result<Parts<K, V>, Memory>
    ensures apart { IfOk result (λ parts. AreApart K.cmp (dealt_of parts)) }
    ensures same { IfOk result (λ parts. (measure : Step K V → ℕ) → sum_by measure (steps_of (dealt_of parts)) ≡ sum_by measure steps.items) }
{
    if steps.len() < 2 * PART_LEN {
        return Ok(Parts::Part(steps));
    }
    let keys = sample(alloc, &steps)?;
    let keys = cuts(alloc, &keys)?;
    let mut parts = none_around(alloc, &keys)?;
    deal_all(&mut parts, steps)?;
    Ok(parts)
}
