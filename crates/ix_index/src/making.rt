//! The changes that steps make of the pages, part by part: the revisions of a part are gone before those of the next are made.
ghost use Rattle.std.specs.Prelude.{◌≡◌, map, IfOk, OnOk};
ghost use Rattle.std.specs.List.{sum_by};
ghost use Rattle.ix_pages.specs.Paging.{pairs_of};
ghost use Rattle.ix_index.specs.Counted.{IsIndex};
ghost use Rattle.ix_index.specs.Dealing.{dealt_of, steps_of, AreApart};
ghost use Rattle.ix_index.specs.Making.{AreMadeBehind};

use crate::item::Item;
use crate::parts::Parts;
use crate::postings::Postings;
use crate::revisions::add_changes;
use crate::steps::{Step, revise};
use ix_pages::{Change, Pages};
use ix_types::Memory;
use std::alloc::Global;

/// Puts behind others the changes that the steps of a part make.
fn change<K: Item, V: Item, const P: usize>(
    alloc: Global,
    pages: &Pages<K, Postings<V>, P>,
    steps: Vec<Step<K, V>>,
    changes: &mut Vec<Change<K, Postings<V>>>,
) -> Result<(), Memory>
    requires { IsIndex K.cmp V.cmp (pairs_of pages.now) }
    ensures { OnOk result (AreMadeBehind K.cmp V.cmp (pairs_of pages.now) steps.items changes.old.items changes.new.items) }
{
    let mut revisions = Vec::new(alloc);
    revise(alloc, &mut revisions, steps)?;
    add_changes(alloc, pages, revisions, changes)
}

/// Puts behind others the changes that the steps of all parts make, part by part.
pub(crate) fn change_all<K: Item, V: Item, const P: usize>(
    alloc: Global,
    pages: &Pages<K, Postings<V>, P>,
    parts: Parts<K, V>,
    changes: &mut Vec<Change<K, Postings<V>>>,
) -> Result<(), Memory>
    requires { IsIndex K.cmp V.cmp (pairs_of pages.now) }
    ensures { OnOk result (AreApart K.cmp (dealt_of parts)
        → AreMadeBehind K.cmp V.cmp (pairs_of pages.now) (steps_of (dealt_of parts)) changes.old.items changes.new.items) }
{
    match parts {
        Parts::Part(steps) => change(alloc, pages, steps, changes),
        Parts::Cut(left, _, right) => {
            change_all(alloc, pages, Box::into_inner(left), changes)?;
            change_all(alloc, pages, Box::into_inner(right), changes)
        }
    }
}
