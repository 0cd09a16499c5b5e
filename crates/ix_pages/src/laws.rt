//! Laws of the pages. Each is the contract of a function that does nothing.
ghost use Rattle.std.specs.Prelude.{◌≡◌, ◌≢◌, ◌⊎◌, ℕ, ◌+◌, ◌<◌, ◌≤◌, List, [], ◌∷◌, ◌++◌, length, Some, None};
ghost use Rattle.std.specs.List.{AllByRecursion};
ghost use Rattle.std.specs.declared.cmp.Ordering.TheVariants.{Less, Equal, Greater};
ghost use Rattle.ix_pages.specs.Pairs.{IsRising, look_up, with_pair, without_key, from_key};
ghost use Rattle.ix_pages.specs.Paging.{pairs_of, cut, kept, pages_with, pages_without, ArePages};
ghost use Rattle.ix_pages.specs.Changes.{key_of_change, cut_often, changed, pages_changed, AreRising};

use crate::changes::Change;

/// The pages after a put, one after the other, are the pairs after it, and so after a removal, and after rising changes in one go.
pub fn pages_are_the_pairs<K: Ord, V>()
    ensures with { (most : ℕ) (pages : List (List (K × V))) (new : K × V) → IsRising K.cmp (pairs_of pages)
        → pairs_of (pages_with K.cmp most pages new) ≡ with_pair K.cmp (pairs_of pages) new }
    ensures without { (pages : List (List (K × V))) (key : K) → IsRising K.cmp (pairs_of pages)
        → pairs_of (pages_without K.cmp pages key) ≡ without_key K.cmp (pairs_of pages) key }
    ensures all { (most : ℕ) (pages : List (List (K × V))) (changes : List (Change K V)) → IsRising K.cmp (pairs_of pages) → AreRising K.cmp changes
        → pairs_of (pages_changed K.cmp most pages changes) ≡ changed K.cmp (pairs_of pages) changes }
{}

/// A put, a removal, and changes in one go keep it that the keys rise and that each page has from 1 pair to the most.
pub fn pages_stay_pages<K: Ord, V>()
    ensures with { (most : ℕ) (pages : List (List (K × V))) (new : K × V) → 0 < most
        → ArePages K.cmp most pages → ArePages K.cmp most (pages_with K.cmp most pages new) }
    ensures without { (most : ℕ) (pages : List (List (K × V))) (key : K)
        → ArePages K.cmp most pages → ArePages K.cmp most (pages_without K.cmp pages key) }
    ensures all { (most : ℕ) (pages : List (List (K × V))) (changes : List (Change K V)) → 0 < most → AreRising K.cmp changes
        → ArePages K.cmp most pages → ArePages K.cmp most (pages_changed K.cmp most pages changes) }
{}

/// In the pages of a map each page has from 1 pair to the most, and each key is less than all keys behind it.
pub fn pages_are_sized_and_rise<K: Ord, V>()
    ensures sized { (most : ℕ) (front : List (List (K × V))) (page : List (K × V)) (back : List (List (K × V)))
        → ArePages K.cmp most (front ++ page ∷ back) → (0 < length page) × (length page ≤ most) }
    ensures rising { (most : ℕ) (pages : List (List (K × V))) (front : List (K × V)) (pair : K × V) (between : List (K × V)) (later : K × V) (back : List (K × V))
        → ArePages K.cmp most pages → pairs_of pages ≡ front ++ pair ∷ (between ++ later ∷ back) → K.cmp pair.0 later.0 ≡ Less }
{}

/// A look-up in rising pairs finds the value of the pair with an equal key, wherever it stands, and nothing where no key is equal.
pub fn a_look_up_finds_the_pair<K: Ord, V>()
    ensures found { (front : List (K × V)) (pair : K × V) (back : List (K × V)) (key : K) → IsRising K.cmp (front ++ pair ∷ back)
        → K.cmp key pair.0 ≡ Equal → look_up K.cmp (front ++ pair ∷ back) key ≡ Some pair.1 }
    ensures none { (pairs : List (K × V)) (key : K) → AllByRecursion (λ pair. K.cmp key pair.0 ≢ Equal) pairs
        → look_up K.cmp pairs key ≡ None }
{}

/// After a put the key has the new value, after a removal it has none, and all other keys have what they had.
pub fn a_change_changes_one_key<K: Ord, V>()
    ensures put { (pairs : List (K × V)) (new : K × V) (key : K) → K.cmp key new.0 ≡ Equal
        → look_up K.cmp (with_pair K.cmp pairs new) key ≡ Some new.1 }
    ensures not_put { (pairs : List (K × V)) (new : K × V) (key : K) → K.cmp key new.0 ≢ Equal
        → look_up K.cmp (with_pair K.cmp pairs new) key ≡ look_up K.cmp pairs key }
    ensures taken { (pairs : List (K × V)) (gone key : K) → IsRising K.cmp pairs → K.cmp key gone ≡ Equal
        → look_up K.cmp (without_key K.cmp pairs gone) key ≡ None }
    ensures not_taken { (pairs : List (K × V)) (gone key : K) → K.cmp key gone ≢ Equal
        → look_up K.cmp (without_key K.cmp pairs gone) key ≡ look_up K.cmp pairs key }
{}

/// The pages without a key that isn't there are the old ones.
pub fn an_absent_key_changes_nothing<K: Ord, V>()
    ensures { (most : ℕ) (pages : List (List (K × V))) (key : K) → ArePages K.cmp most pages
        → look_up K.cmp (pairs_of pages) key ≡ None → pages_without K.cmp pages key ≡ pages }
{}

/// The pairs from a key on: of pairs whose keys are less, and behind them pairs whose keys aren't, the latter.
pub fn a_range_begins_at_the_key<K: Ord, V>()
    ensures { (front back : List (K × V)) (key : K) → AllByRecursion (λ pair. K.cmp key pair.0 ≡ Greater) front
        → AllByRecursion (λ pair. K.cmp key pair.0 ≢ Greater) back → from_key K.cmp (front ++ back) key ≡ back }
{}

/// A page of more than the most pairs becomes two that have its pairs, the first with as many as the second or one more.
pub fn a_page_is_cut_in_half<K, V>()
    ensures small { (most : ℕ) (page : List (K × V)) → length page ≤ most → cut most page ≡ page ∷ [] }
    ensures large { (most : ℕ) (front back : List (K × V)) → most < length front + length back
        → (length front ≡ length back) ⊎ (length front ≡ length back + 1) → cut most (front ++ back) ≡ front ∷ back ∷ [] }
{}

/// A key belongs to the last page whose least key isn't greater, else to the first page. All other pages stay.
pub fn a_change_falls_into_one_page<K: Ord, V>()
    ensures with { (most : ℕ) (front : List (List (K × V))) (least : K × V) (pairs : List (K × V)) (back : List (List (K × V))) (new : K × V)
        → IsRising K.cmp (pairs_of (front ++ (least ∷ pairs) ∷ back)) → K.cmp new.0 least.0 ≢ Less → AllByRecursion (λ pair. K.cmp new.0 pair.0 ≡ Less) (pairs_of back)
        → pages_with K.cmp most (front ++ (least ∷ pairs) ∷ back) new ≡ front ++ (cut most (with_pair K.cmp (least ∷ pairs) new) ++ back) }
    ensures with_first { (most : ℕ) (page : List (K × V)) (back : List (List (K × V))) (new : K × V) → AllByRecursion (λ pair. K.cmp new.0 pair.0 ≡ Less) (pairs_of back)
        → pages_with K.cmp most (page ∷ back) new ≡ cut most (with_pair K.cmp page new) ++ back }
    ensures without { (front : List (List (K × V))) (least : K × V) (pairs : List (K × V)) (back : List (List (K × V))) (key : K)
        → IsRising K.cmp (pairs_of (front ++ (least ∷ pairs) ∷ back)) → K.cmp key least.0 ≢ Less → AllByRecursion (λ pair. K.cmp key pair.0 ≡ Less) (pairs_of back)
        → pages_without K.cmp (front ++ (least ∷ pairs) ∷ back) key ≡ front ++ (kept (without_key K.cmp (least ∷ pairs) key) ++ back) }
    ensures without_first { (page : List (K × V)) (back : List (List (K × V))) (key : K) → AllByRecursion (λ pair. K.cmp key pair.0 ≡ Less) (pairs_of back)
        → pages_without K.cmp (page ∷ back) key ≡ kept (without_key K.cmp page key) ++ back }
{}

/// Pairs are cut in halves, and these again, until no page has more than the most pairs. No pairs make no page.
pub fn pairs_are_cut_in_halves<K, V>()
    ensures none { (most : ℕ) → cut_often {K = K} {V = V} most [] ≡ [] }
    ensures small { (most : ℕ) (pair : K × V) (pairs : List (K × V)) → length (pair ∷ pairs) ≤ most → cut_often most (pair ∷ pairs) ≡ (pair ∷ pairs) ∷ [] }
    ensures large { (most : ℕ) (front back : List (K × V)) → 0 < most → most < length front + length back
        → (length front ≡ length back) ⊎ (length front ≡ length back + 1) → cut_often most (front ++ back) ≡ cut_often most front ++ cut_often most back }
{}

/// Of changes in one go those before the least key of a page change the pages in front, and the others that page and those behind it.
pub fn changes_fall_into_pages<K: Ord, V>()
    ensures empty { (most : ℕ) (changes : List (Change K V)) → pages_changed K.cmp most [] changes ≡ cut_often most (changed K.cmp [] changes) }
    ensures alone { (most : ℕ) (page : List (K × V)) (change : Change K V) (changes : List (Change K V))
        → pages_changed K.cmp most (page ∷ []) (change ∷ changes) ≡ cut_often most (changed K.cmp page (change ∷ changes)) }
    ensures parted { (most : ℕ) (page : List (K × V)) (front : List (List (K × V))) (least : K × V) (pairs : List (K × V)) (back : List (List (K × V)))
        (before behind : List (Change K V))
        → IsRising K.cmp (pairs_of ((page ∷ front) ++ (least ∷ pairs) ∷ back))
        → AllByRecursion (λ change. K.cmp (key_of_change change) least.0 ≡ Less) before → AllByRecursion (λ change. K.cmp (key_of_change change) least.0 ≢ Less) behind
        → pages_changed K.cmp most ((page ∷ front) ++ (least ∷ pairs) ∷ back) (before ++ behind)
        ≡ pages_changed K.cmp most (page ∷ front) before ++ pages_changed K.cmp most ((least ∷ pairs) ∷ back) behind }
{}

/// A page into which none of the changes falls is the old one, in its place.
pub fn a_page_without_changes_stays<K: Ord, V>()
    ensures all { (most : ℕ) (pages : List (List (K × V))) → pages_changed K.cmp most pages [] ≡ pages }
    ensures first { (most : ℕ) (page : List (K × V)) (next : K × V) (later : List (K × V)) (back : List (List (K × V))) (changes : List (Change K V))
        → AllByRecursion (λ change. K.cmp (key_of_change change) next.0 ≢ Less) changes
        → pages_changed K.cmp most (page ∷ (next ∷ later) ∷ back) changes ≡ page ∷ pages_changed K.cmp most ((next ∷ later) ∷ back) changes }
    ensures between { (most : ℕ) (page : List (K × V)) (front : List (List (K × V))) (least : K × V) (pairs : List (K × V))
        (next : K × V) (later : List (K × V)) (back : List (List (K × V)))
        (before behind : List (Change K V))
        → IsRising K.cmp (pairs_of ((page ∷ front) ++ (least ∷ pairs) ∷ (next ∷ later) ∷ back))
        → AllByRecursion (λ change. K.cmp (key_of_change change) least.0 ≡ Less) before → AllByRecursion (λ change. K.cmp (key_of_change change) next.0 ≢ Less) behind
        → pages_changed K.cmp most ((page ∷ front) ++ (least ∷ pairs) ∷ (next ∷ later) ∷ back) (before ++ behind)
        ≡ pages_changed K.cmp most (page ∷ front) before ++ (least ∷ pairs) ∷ pages_changed K.cmp most ((next ∷ later) ∷ back) behind }
    ensures last { (most : ℕ) (page : List (K × V)) (front : List (List (K × V))) (least : K × V) (pairs : List (K × V)) (changes : List (Change K V))
        → IsRising K.cmp (pairs_of ((page ∷ front) ++ (least ∷ pairs) ∷ [])) → AllByRecursion (λ change. K.cmp (key_of_change change) least.0 ≡ Less) changes
        → pages_changed K.cmp most ((page ∷ front) ++ (least ∷ pairs) ∷ []) changes ≡ pages_changed K.cmp most (page ∷ front) changes ++ (least ∷ pairs) ∷ [] }
{}
