//! Sets of USRs.
ghost use Rattle.std.specs.Prelude.{◌≡◌, ◌||◌, ◌∷◌, ℕ, true, List, [], IfOk, OnOk, OnErr};
ghost use Rattle.std.specs.Str.{bytes_eq};
ghost use Rattle.ix_types.specs.Row.{text_cmp};
ghost use Rattle.ix_model.specs.SortedSet.{add_once};
ghost use Rattle.ix_answers.specs.Lookups.{is_among};

use ix_types::{Memory, Text};
use std::alloc::Global;
use std::collections::BTreeSet;

/// Whether the USR is in the set.
pub(crate) fn is_in(set: &BTreeSet<Text>, usr: &Text) -> bool
    ensures { result ≡ is_among set.now.keys usr.now }
{
    set.contains(usr)
}

/// Whether the set has none.
pub(crate) fn is_empty(set: &BTreeSet<Text>) -> bool
    ensures { result ≡ true → set.now.keys ≡ [] }
{
    set.is_empty()
}

/// Puts a USR into a set.
pub(crate) fn insert(set: &mut BTreeSet<Text>, usr: Text) -> Result<(), Memory>
    ensures keys { OnOk result (set.new.keys ≡ add_once text_cmp usr set.old.keys) }
    ensures among { OnOk result ((other : List ℕ) → is_among set.new.keys other ≡ (bytes_eq usr other || is_among set.old.keys other)) }
    ensures err { OnErr result (set.new.keys ≡ set.old.keys) }
{
    match set.insert(usr) {
        Ok(_) => Ok(()),
        Err(_) => Err(Memory),
    }
}

/// The set of one USR.
pub(crate) fn set_of_one(alloc: Global, usr: &Text) -> Result<BTreeSet<Text>, Memory>
    ensures { IfOk result (λ set. set.keys ≡ usr.now ∷ []) }
{
    let mut set = BTreeSet::new(alloc);
    insert(&mut set, usr.clone()?)?;
    Ok(set)
}

/// Puts all USRs of a level into a set. Whatever happens, set and level have together what they had.
pub(crate) fn add_level(seen: &mut BTreeSet<Text>, level: &BTreeSet<Text>) -> Result<(), Memory>
    ensures all { OnOk result ((usr : List ℕ) → is_among seen.new.keys usr ≡ (is_among seen.old.keys usr || is_among level.now.keys usr)) }
    ensures met { (usr : List ℕ) → (is_among seen.new.keys usr || is_among level.now.keys usr) ≡ (is_among seen.old.keys usr || is_among level.now.keys usr) }
{
    for usr in level {
        insert(seen, usr.clone()?)?;
    }
    Ok(())
}
