//! The forks of a map, one to four above each page.
ghost use Rattle.std.specs.Prelude.{◌≡◌, ◌<◌, ◌≤◌, [], length, map, drop, ◌++◌, slice_get, option_map, option_copied, IfOk, IfSome};
ghost use Rattle.ix_pages.specs.Pairs.{IsRising, look_up, from_key};
ghost use Rattle.ix_pages.specs.Paging.{pairs_of};
ghost use Rattle.ix_pages.specs.Changes.{pages_changed, AreRising};
ghost use Rattle.ix_pages.specs.Tree.{pair_of, leaf_pages, IsLeaf, pages_of, AreChildren};
ghost use Rattle.ix_pages.specs.Roots.{first_pages, second_pages, third_pages, fourth_pages, IsFirstNode, IsSecondNode, IsThirdNode, IsFourthNode, IsWhole, IsRestOf, pages_under};
ghost use Rattle.ix_pages.specs.Edits.{change_of};

use crate::bulk::{Edit, edited_pairs};
use crate::key::Key;
use crate::node::{Node, copied, group, push_made};
use crate::page::Entry;
use crate::part::{Child, Count, Leaf, Part, Start};
use ix_types::Memory;
use std::alloc::Global;
use std::sync::Arc;

/// Forks of pages.
pub(crate) type First<K, V> = Node<K, V, Leaf<K, V>>;
/// Forks of these, and so on.
pub(crate) type Second<K, V> = Node<K, V, First<K, V>>;

pub(crate) type Third<K, V> = Node<K, V, Second<K, V>>;

pub(crate) type Fourth<K, V> = Node<K, V, Third<K, V>>;

/// All pages of a map, under the highest fork that is needed. The fourth may be wider than others.
#[derive(Drop)]
pub(crate) enum Root<K, V> {
    One(Child<K, V, First<K, V>>),
    Two(Child<K, V, Second<K, V>>),
    Three(Child<K, V, Third<K, V>>),
    Four(Child<K, V, Fourth<K, V>>),
}

/// The root of one fork at most.
#[tactic(auto, using(crate::proofs::Roots::first_rest, crate::proofs::Roots::none_rest))]
fn one_of<K: Key + Drop, V: Drop>(mut nodes: Vec<Child<K, V, First<K, V>>>) -> Option<Root<K, V>>
    requires few { length nodes.items ≤ 1 }
    requires are { AreChildren first_pages (IsFirstNode K.head_of) nodes.items }
    ensures { IsRestOf K.head_of result (pages_of first_pages nodes.items) }
{
    match nodes.pop() {
        Some(child) => Some(Root::One(child)),
        None => None,
    }
}

#[tactic(auto, using(crate::proofs::Roots::second_rest, crate::proofs::Roots::none_rest))]
fn two_of<K: Key + Drop, V: Drop>(mut nodes: Vec<Child<K, V, Second<K, V>>>) -> Option<Root<K, V>>
    requires few { length nodes.items ≤ 1 }
    requires are { AreChildren second_pages (IsSecondNode K.head_of) nodes.items }
    ensures { IsRestOf K.head_of result (pages_of second_pages nodes.items) }
{
    match nodes.pop() {
        Some(child) => Some(Root::Two(child)),
        None => None,
    }
}

#[tactic(auto, using(crate::proofs::Roots::third_rest, crate::proofs::Roots::none_rest))]
fn three_of<K: Key + Drop, V: Drop>(mut nodes: Vec<Child<K, V, Third<K, V>>>) -> Option<Root<K, V>>
    requires few { length nodes.items ≤ 1 }
    requires are { AreChildren third_pages (IsThirdNode K.head_of) nodes.items }
    ensures { IsRestOf K.head_of result (pages_of third_pages nodes.items) }
{
    match nodes.pop() {
        Some(child) => Some(Root::Three(child)),
        None => None,
    }
}

#[tactic(auto, using(crate::proofs::Roots::fourth_rest, crate::proofs::Roots::none_rest))]
fn four_of<K: Key + Drop, V: Drop>(mut nodes: Vec<Child<K, V, Fourth<K, V>>>) -> Option<Root<K, V>>
    requires few { length nodes.items ≤ 1 }
    requires are { AreChildren fourth_pages (IsFourthNode K.head_of) nodes.items }
    ensures { IsRestOf K.head_of result (pages_of fourth_pages nodes.items) }
{
    match nodes.pop() {
        Some(child) => Some(Root::Four(child)),
        None => None,
    }
}

/// What forks of pages make.
fn first_of<K: Key + Drop, V: Drop>(
    alloc: Global,
    nodes: Vec<Child<K, V, First<K, V>>>,
) -> Result<Option<Root<K, V>>, Memory>
    requires { AreChildren first_pages (IsFirstNode K.head_of) nodes.items }
    ensures { IfOk result (λ rest. IsRestOf K.head_of rest (pages_of first_pages nodes.items)) }
{
    if nodes.len() <= 1 {
        return Ok(one_of(nodes));
    }
    let mut higher = Vec::new(alloc);
    group(alloc, &mut higher, &nodes)?;
    second_of(alloc, higher)
}

fn second_of<K: Key + Drop, V: Drop>(
    alloc: Global,
    nodes: Vec<Child<K, V, Second<K, V>>>,
) -> Result<Option<Root<K, V>>, Memory>
    requires { AreChildren second_pages (IsSecondNode K.head_of) nodes.items }
    ensures { IfOk result (λ rest. IsRestOf K.head_of rest (pages_of second_pages nodes.items)) }
{
    if nodes.len() <= 1 {
        return Ok(two_of(nodes));
    }
    let mut higher = Vec::new(alloc);
    group(alloc, &mut higher, &nodes)?;
    third_of(alloc, higher)
}

fn third_of<K: Key + Drop, V: Drop>(
    alloc: Global,
    nodes: Vec<Child<K, V, Third<K, V>>>,
) -> Result<Option<Root<K, V>>, Memory>
    requires { AreChildren third_pages (IsThirdNode K.head_of) nodes.items }
    ensures { IfOk result (λ rest. IsRestOf K.head_of rest (pages_of third_pages nodes.items)) }
{
    if nodes.len() <= 1 {
        return Ok(three_of(nodes));
    }
    let mut higher = Vec::new(alloc);
    push_made(alloc, &mut higher, &nodes)?;
    Ok(four_of(higher))
}

/// The pages of some, none where there is none.
pub(crate) fn root_of<K: Key + Drop, V: Drop>(
    alloc: Global,
    pages: Vec<Child<K, V, Leaf<K, V>>>,
) -> Result<Option<Root<K, V>>, Memory>
    requires { AreChildren leaf_pages IsLeaf pages.items }
    ensures { IfOk result (λ rest. IsRestOf K.head_of rest (pages_of leaf_pages pages.items)) }
{
    let mut nodes = Vec::new(alloc);
    group(alloc, &mut nodes, &pages)?;
    first_of(alloc, nodes)
}

/// All pages of edits alone.
pub(crate) fn edited_none<K: Key + Drop, V: Drop>(
    alloc: Global,
    most: usize,
    edits: &[Edit<'_, K, V>],
) -> Result<Option<Root<K, V>>, Memory>
    requires most { 0 < most }
    requires edits { AreRising K.cmp (map change_of edits.now) }
    ensures { IfOk result (λ rest. IsRestOf K.head_of rest (pages_changed K.cmp most [] (map change_of edits.now))) }
{
    let none = Vec::new(alloc);
    let pages = edited_pairs(alloc, most, &none, edits)?;
    root_of(alloc, pages)
}

impl<K: Key + Drop, V: Drop> Root<K, V> {
    /// How many pages and pairs there are.
    pub(crate) fn count(&self) -> Count
        requires { IsWhole K.head_of self.now }
        ensures pages { result.pages ≡ length (pages_under self.now) }
        ensures pairs { result.pairs ≡ length (pairs_of (pages_under self.now)) }
    {
        match self {
            Root::One(child) => child.count,
            Root::Two(child) => child.count,
            Root::Three(child) => child.count,
            Root::Four(child) => child.count,
        }
    }

    /// The same pages once more.
    pub(crate) fn share(&self) -> Result<Root<K, V>, Memory>
        requires { IsWhole K.head_of self.now }
        ensures whole { IfOk result (λ same. IsWhole K.head_of same) }
        ensures pages { IfOk result (λ same. pages_under same ≡ pages_under self.now) }
    {
        match self {
            Root::One(child) => Ok(Root::One(copied(child)?)),
            Root::Two(child) => Ok(Root::Two(copied(child)?)),
            Root::Three(child) => Ok(Root::Three(copied(child)?)),
            Root::Four(child) => Ok(Root::Four(copied(child)?)),
        }
    }

    /// The page in which a key would be.
    pub(crate) fn page_for(&self, key: &K) -> &[Arc<Entry<K, V>>]
        requires whole { IsWhole K.head_of self.now }
        requires rising { IsRising K.cmp (pairs_of (pages_under self.now)) }
        ensures rising { IsRising K.cmp (map pair_of result.now) }
        ensures value { look_up K.cmp (map pair_of result.now) key.now ≡ look_up K.cmp (pairs_of (pages_under self.now)) key.now }
    {
        match self {
            Root::One(child) => child.part.page_for(key),
            Root::Two(child) => child.part.page_for(key),
            Root::Three(child) => child.part.page_for(key),
            Root::Four(child) => child.part.page_for(key),
        }
    }

    /// The place in front of the first pair whose key isn't less.
    pub(crate) fn start_at(&self, key: &K) -> Start<'_, K, V>
        requires whole { IsWhole K.head_of self.now }
        requires rising { IsRising K.cmp (pairs_of (pages_under self.now)) }
        ensures within { result.behind ≤ length (pages_under self.now) }
        ensures rest { map pair_of result.page.now ++ pairs_of (drop result.behind (pages_under self.now)) ≡ from_key K.cmp (pairs_of (pages_under self.now)) key.now }
    {
        match self {
            Root::One(child) => {
                let _pages = child.count.pages;
                child.part.start_at(key)
            }
            Root::Two(child) => {
                let _pages = child.count.pages;
                child.part.start_at(key)
            }
            Root::Three(child) => {
                let _pages = child.count.pages;
                child.part.start_at(key)
            }
            Root::Four(child) => {
                let _pages = child.count.pages;
                child.part.start_at(key)
            }
        }
    }

    /// The page of a number.
    pub(crate) fn page_at(&self, place: u64) -> Option<&[Arc<Entry<K, V>>]>
        requires { IsWhole K.head_of self.now }
        ensures page { option_map (map pair_of) (option_copied result) ≡ slice_get (pages_under self.now) place }
        ensures some { IfSome result (λ page. 0 < length page.now) }
    {
        match self {
            Root::One(child) => child.part.page_at(place),
            Root::Two(child) => child.part.page_at(place),
            Root::Three(child) => child.part.page_at(place),
            Root::Four(child) => child.part.page_at(place),
        }
    }

    /// The pair of a number.
    pub(crate) fn entry_of(&self, place: u64) -> Option<&Arc<Entry<K, V>>>
        requires { IsWhole K.head_of self.now }
        ensures { option_map pair_of (option_copied result) ≡ slice_get (pairs_of (pages_under self.now)) place }
    {
        match self {
            Root::One(child) => child.part.entry_of(place),
            Root::Two(child) => child.part.entry_of(place),
            Root::Three(child) => child.part.entry_of(place),
            Root::Four(child) => child.part.entry_of(place),
        }
    }

    /// What is left after edits.
    pub(crate) fn edited(
        &self,
        alloc: Global,
        most: usize,
        edits: &[Edit<'_, K, V>],
    ) -> Result<Option<Root<K, V>>, Memory>
        requires most { 0 < most }
        requires whole { IsWhole K.head_of self.now }
        requires pairs { IsRising K.cmp (pairs_of (pages_under self.now)) }
        requires edits { AreRising K.cmp (map change_of edits.now) }
        requires some { 0 < length edits.now }
        ensures { IfOk result (λ rest. IsRestOf K.head_of rest (pages_changed K.cmp most (pages_under self.now) (map change_of edits.now))) }
    {
        match self {
            Root::One(child) => {
                let nodes = child.part.edited(alloc, most, edits)?;
                first_of(alloc, nodes)
            }
            Root::Two(child) => {
                let nodes = child.part.edited(alloc, most, edits)?;
                second_of(alloc, nodes)
            }
            Root::Three(child) => {
                let nodes = child.part.edited(alloc, most, edits)?;
                third_of(alloc, nodes)
            }
            Root::Four(child) => {
                let nodes = child.part.edited_as_one(alloc, most, edits)?;
                Ok(four_of(nodes))
            }
        }
    }
}
