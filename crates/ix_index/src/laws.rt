//! Laws of the index. Each is the contract of a function that does nothing.
ghost use Rattle.std.specs.Prelude.{◌≡◌, ◌↔◌, ℕ, ◌+◌, ◌<◌, List, [], ◌∷◌, ◌++◌, true, false, Contains};
ghost use Rattle.std.specs.List.Sorted.{IsStrictlySortedBy};
ghost use Rattle.std.specs.Map.{keys_of};
ghost use Rattle.ix_index.specs.Counted.{values_at, count_of, IsIndex};
ghost use Rattle.ix_index.specs.Stepping.{gains_of, losses_of};

use crate::item::Item;
use crate::steps::Step;

/// Two indexes in which each pair has the same count are the same.
pub fn equal_counts_are_equal_indexes<K: Item, V: Item>()
    ensures { (a b : List (K × List (V × ℕ))) → IsIndex K.cmp V.cmp a → IsIndex K.cmp V.cmp b
        → ((key : K) (value : V) → count_of K.cmp V.cmp a key value ≡ count_of K.cmp V.cmp b key value) → a ≡ b }
{}

/// The values of a key are those whose count isn't 0, rising and each once.
pub fn values_are_what_has_a_count<K: Item, V: Item>()
    ensures rise { (index : List (K × List (V × ℕ))) (key : K) → IsIndex K.cmp V.cmp index → IsStrictlySortedBy V.cmp (values_at K.cmp index key) }
    ensures each { (index : List (K × List (V × ℕ))) (key : K) (value : V) → IsIndex K.cmp V.cmp index
        → Contains (values_at K.cmp index key) value ↔ (0 < count_of K.cmp V.cmp index key value) }
{}

/// The keys are those under which some value has a count that isn't 0, rising and each once.
pub fn keys_are_what_has_a_value<K: Item, V: Item>()
    ensures rise { (index : List (K × List (V × ℕ))) → IsIndex K.cmp V.cmp index → IsStrictlySortedBy K.cmp (keys_of index) }
    ensures each { (index : List (K × List (V × ℕ))) (key : K) → IsIndex K.cmp V.cmp index
        → Contains (keys_of index) key ↔ ((value : V) × (0 < count_of K.cmp V.cmp index key value)) }
{}

/// A gain is one gain more of its pair and no loss, a loss one loss more and no gain; a step of another pair is neither.
pub fn a_step_is_of_one_pair<K: Item, V: Item>()
    ensures none { (key : K) (value : V) → (gains_of K.cmp V.cmp [] key value ≡ 0) × (losses_of K.cmp V.cmp [] key value ≡ 0) }
    ensures gain { (steps : List (Step K V)) (step : Step K V) → step.gains ≡ true
        → (gains_of K.cmp V.cmp (steps ++ step ∷ []) step.key step.value ≡ gains_of K.cmp V.cmp steps step.key step.value + 1)
        × (losses_of K.cmp V.cmp (steps ++ step ∷ []) step.key step.value ≡ losses_of K.cmp V.cmp steps step.key step.value) }
    ensures loss { (steps : List (Step K V)) (step : Step K V) → step.gains ≡ false
        → (gains_of K.cmp V.cmp (steps ++ step ∷ []) step.key step.value ≡ gains_of K.cmp V.cmp steps step.key step.value)
        × (losses_of K.cmp V.cmp (steps ++ step ∷ []) step.key step.value ≡ losses_of K.cmp V.cmp steps step.key step.value + 1) }
    ensures others { (steps : List (Step K V)) (step : Step K V) (key : K) (value : V) → (step.key ≡ key → step.value ≡ value → ⊥)
        → (gains_of K.cmp V.cmp (steps ++ step ∷ []) key value ≡ gains_of K.cmp V.cmp steps key value)
        × (losses_of K.cmp V.cmp (steps ++ step ∷ []) key value ≡ losses_of K.cmp V.cmp steps key value) }
{}
