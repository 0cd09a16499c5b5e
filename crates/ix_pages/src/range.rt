//! The pairs of a map from a place on.
ghost use Rattle.std.specs.Prelude.{◌≡◌, ◌++◌, [], ◌∷◌, MatchOption};
ghost use Rattle.std.specs.Map.Iter.{deref_pair};
ghost use Rattle.std.specs.Iterator.{YieldsFirstBy, item_count};

use crate::key::Key;
use crate::page::Entry;
use crate::root::Root;
use std::marker::Model;
use std::sync::Arc;

/// The pairs of a map from a place on, seen as their list.
#[derive(Drop)]
pub struct Range<'a, K: Key, V, const P: usize> {
    /// What is left of a page.
    page: &'a [Arc<Entry<K, V>>],
    /// The number of the next page.
    behind: u64,
    /// All pages.
    tree: Option<&'a Root<K, V>>,
}

impl<'a, K: Key, V, const P: usize> Model for Range<'a, K, V, P> {
    ghost use Rattle.std.specs.Prelude.{List, ◌++◌, map, drop, option_copied};
    ghost use Rattle.ix_pages.specs.Paging.{pairs_of};
    ghost use Rattle.ix_pages.specs.Tree.{pair_of};
    ghost use Rattle.ix_pages.specs.Roots.{pages_in, IsWholeIn};

    ghost Value = { List (K × V) };

    ghost view = { λ range. map pair_of range.page.now ++ pairs_of (drop range.behind (pages_in (option_copied range.tree))) };

    ghost invariant = { λ range. IsWholeIn K.head_of (option_copied range.tree) };
}

impl<'a, K: Key + Drop, V: Drop, const P: usize> Range<'a, K, V, P> {
    ghost use Rattle.std.specs.Prelude.{map, drop, option_copied};
    ghost use Rattle.ix_pages.specs.Paging.{pairs_of};
    ghost use Rattle.ix_pages.specs.Tree.{pair_of};
    ghost use Rattle.ix_pages.specs.Roots.{pages_in, IsWholeIn};

    /// What is left of a page, and the pages from a number on.
    pub(crate) fn new(
        page: &'a [Arc<Entry<K, V>>],
        behind: u64,
        tree: Option<&'a Root<K, V>>,
    ) -> Range<'a, K, V, P>
        requires { IsWholeIn K.head_of (option_copied tree) }
        ensures { result ≡ map pair_of page.entry.now ++ pairs_of (drop behind (pages_in (option_copied tree.entry))) }
    {
        Range { page, behind, tree }
    }

    /// The first pair; None exactly where there is none. The others stay.
    fn take_first(&mut self) -> Option<(&'a K, &'a V)>
        ensures { MatchOption result ((self.old ≡ []) × (self.new ≡ [])) (λ pair. self.old ≡ deref_pair pair ∷ self.new) }
    {
        if let Some((entry, rest)) = self.page.split_first() {
            self.page = rest;
            return Some((&entry.key, &entry.value));
        }
        match self.tree {
            None => None,
            Some(tree) => {
                if self.behind >= tree.count().pages {
                    return None;
                }
                match tree.page_at(self.behind) {
                    Some(page) => match page.split_first() {
                        Some((entry, rest)) => {
                            self.page = rest;
                            self.behind += 1;
                            Some((&entry.key, &entry.value))
                        }
                        None => unreachable!(),
                    },
                    None => unreachable!(),
                }
            }
        }
    }
}

impl<'a, K: Key + Drop, V: Drop, const P: usize> Iterator for Range<'a, K, V, P> {
    type Item = (&'a K, &'a V);

    ghost next_gives = { YieldsFirstBy deref_pair (λ range. range) };

    ghost remaining = { item_count (λ range. range) };

    fn next(&mut self) -> Option<(&'a K, &'a V)> {
        self.take_first()
    }
}
