//! Forks: up to sixteen parts side by side, each with its first pair and the head of that pair's key.
ghost use Rattle.std.specs.Prelude.{◌≡◌, ◌⊎◌, ◌++◌, ◌∷◌, ◌+◌, ◌^◌, ◌<◌, ◌≤◌, ℕ, List, [], take, drop, length, map, true, false, slice_get, option_map, option_copied, IfOk, IfSome, OnOk};
ghost use Rattle.std.specs.List.{AllByRecursion};
ghost use Rattle.std.specs.Ordering.{is_lt};
ghost use Rattle.ix_pages.specs.Pairs.{is_before, IsRising};
ghost use Rattle.ix_pages.specs.Paging.{pairs_of};
ghost use Rattle.ix_pages.specs.Changes.{key_of_change, pages_changed, changes_before, changes_behind, AreRising};
ghost use Rattle.ix_pages.specs.Tree.{pair_of, leasts, HaveHeads, pages_of, node_pages, AreChildren, AreKept, IsNode, IsSameChild};
ghost use Rattle.ix_pages.specs.Edits.{change_of};

use crate::bulk::{Edit, Sides, key_of, split_edits};
use crate::key::Key;
use crate::page::Entry;
use crate::part::{Child, Count, Part, Start};
use ix_types::Memory;
use std::alloc::Global;
use std::sync::Arc;

/// The most parts of a fork, but for the highest one.
pub(crate) const WIDTH: usize = 16;

/// Parts from left to right, at least one.
#[derive(Drop)]
pub(crate) struct Node<K, V, T> {
    /// By this pair's key and the skip the heads of the parts are made.
    base: Arc<Entry<K, V>>,
    skip: usize,
    children: Vec<Child<K, V, T>>,
}

/// Whether a key is less than a part's first one: by their heads, and by the keys where these are the same.
fn is_less<K: Key, V, T>(key: &K, head: u64, child: &Child<K, V, T>) -> bool
    ensures { (base : K) (skip : ℕ) → head ≡ K.head_of key.now base skip → child.now.head ≡ K.head_of child.now.least.value.key base skip
        → result ≡ is_lt (K.cmp key.now child.now.least.value.key) }
{
    if head == child.head {
        return key.cmp(&child.least.key).is_lt();
    }
    head < child.head
}

/// How many of some parts stand in front of the first one that the key is before.
fn count_in_front<K: Key, V, T>(
    children: &[Child<K, V, T>],
    key: &K,
    base: &K,
    skip: usize,
) -> usize
    requires { HaveHeads K.head_of base.now skip children.now }
    ensures within { result ≤ length children.now }
    ensures rest { is_before K.cmp key.now (leasts (drop result children.now)) ≡ true }
    ensures front { AllByRecursion (λ pair. is_lt (K.cmp key.now pair.0) ≡ false) (leasts (take result children.now)) }
{
    let head = key.head(base, skip);
    let mut count = 0;
    for child in children {
        if is_less(key, head, child) {
            return count;
        }
        count += 1;
    }
    count
}

/// Some parts around the one in which a key would be.
struct Around<'a, K, V, T> {
    front: &'a [Child<K, V, T>],
    child: &'a Child<K, V, T>,
    rest: &'a [Child<K, V, T>],
}

/// Around the last part whose first key isn't greater, or the first one.
fn near<'a, K: Key, V, T>(
    children: &'a [Child<K, V, T>],
    key: &K,
    base: &K,
    skip: usize,
) -> Around<'a, K, V, T>
    requires some { 0 < length children.now }
    requires heads { HaveHeads K.head_of base.now skip children.now }
    ensures all { children.now ≡ result.front.now ++ result.child.now ∷ result.rest.now }
    ensures front { (result.front.now ≡ []) ⊎ (is_lt (K.cmp key.now result.child.now.least.value.key) ≡ false) }
    ensures rest { is_before K.cmp key.now (leasts result.rest.now) ≡ true }
{
    match children.split_first() {
        None => unreachable!(),
        Some((_, later)) => {
            let (front, back) = children.split_at(count_in_front(later, key, base, skip));
            match back.split_first() {
                None => unreachable!(),
                Some((child, rest)) => Around { front, child, rest },
            }
        }
    }
}

/// The same part once more.
pub(crate) fn copied<K: Drop, V: Drop, T: Drop>(
    child: &Child<K, V, T>,
) -> Result<Child<K, V, T>, Memory>
    ensures { IfOk result (λ copy. IsSameChild copy child.now) }
{
    let least = Arc::try_clone(&child.least)?;
    let part = Arc::try_clone(&child.part)?;
    Ok(Child {
        head: child.head,
        least,
        part,
        count: child.count,
    })
}

/// Reads the counts of parts and of their first pairs before each is raised. Reads overlap, and memory brings them side by side.
fn fetch<K, V, T>(children: &[Child<K, V, T>]) {
    for child in children {
        let _owners = Arc::strong_count(&child.least);
        let _owners = Arc::strong_count(&child.part);
    }
}

/// Puts parts as they are at the end of a list.
fn keep<K: Key + Drop, V: Drop, T: Part<K, V>>(
    made: &mut Vec<Child<K, V, T>>,
    children: &[Child<K, V, T>],
    base: &K,
    skip: usize,
) -> Result<(), Memory>
    requires made { AreKept T.pages T.whole K.head_of base.now skip made.old.items }
    requires children { AreKept T.pages T.whole K.head_of base.now skip children.now }
    ensures kept { OnOk result (AreKept T.pages T.whole K.head_of base.now skip made.new.items) }
    ensures pages { OnOk result (pages_of T.pages made.new.items ≡ pages_of T.pages made.old.items ++ pages_of T.pages children.now) }
{
    for child in children {
        made.push(copied(child)?)?;
    }
    Ok(())
}

/// Puts parts at the end of a list, each with its head by this base and skip.
fn add<K: Key + Drop, V: Drop, T: Part<K, V>>(
    made: &mut Vec<Child<K, V, T>>,
    children: &[Child<K, V, T>],
    base: &K,
    skip: usize,
) -> Result<(), Memory>
    requires made { AreKept T.pages T.whole K.head_of base.now skip made.old.items }
    requires children { AreChildren T.pages T.whole children.now }
    ensures kept { OnOk result (AreKept T.pages T.whole K.head_of base.now skip made.new.items) }
    ensures pages { OnOk result (pages_of T.pages made.new.items ≡ pages_of T.pages made.old.items ++ pages_of T.pages children.now) }
{
    for child in children {
        let mut child = copied(child)?;
        child.head = child.least.key.head(base, skip);
        made.push(child)?;
    }
    Ok(())
}

/// So many and so many more.
fn with_count(count: Count, more: Count) -> Result<Count, Memory>
    ensures pages { IfOk result (λ all. all.pages ≡ count.pages + more.pages) }
    ensures pairs { IfOk result (λ all. all.pairs ≡ count.pairs + more.pairs) }
{
    Ok(Count {
        pages: count.pages.checked_add(more.pages).ok_or(Memory)?,
        pairs: count.pairs.checked_add(more.pairs).ok_or(Memory)?,
    })
}

/// How many pages and pairs some parts have.
fn count_of<K: Key + Drop, V: Drop, T: Part<K, V>>(
    children: &[Child<K, V, T>],
) -> Result<Count, Memory>
    requires { AreChildren T.pages T.whole children.now }
    ensures pages { IfOk result (λ count. count.pages ≡ length (pages_of T.pages children.now)) }
    ensures pairs { IfOk result (λ count. count.pairs ≡ length (pairs_of (pages_of T.pages children.now))) }
{
    let mut count = Count { pages: 0, pairs: 0 };
    for child in children {
        count = with_count(count, child.count)?;
    }
    Ok(count)
}

/// Puts at the end of a list a fork of parts whose heads are made by this base and skip; nothing where there is no part.
fn push_node<K: Key + Drop, V: Drop, T: Part<K, V>>(
    alloc: Global,
    nodes: &mut Vec<Child<K, V, Node<K, V, T>>>,
    base: &Arc<Entry<K, V>>,
    skip: usize,
    children: Vec<Child<K, V, T>>,
) -> Result<(), Memory>
    requires children { AreKept T.pages T.whole K.head_of base.now.value.key skip children.items }
    requires nodes { AreChildren (node_pages T.pages) (IsNode T.pages K.head_of T.whole) nodes.old.items }
    ensures nodes { OnOk result (AreChildren (node_pages T.pages) (IsNode T.pages K.head_of T.whole) nodes.new.items) }
    ensures pages { OnOk result (pages_of (node_pages T.pages) nodes.new.items ≡ pages_of (node_pages T.pages) nodes.old.items ++ pages_of T.pages children.items) }
    ensures one { OnOk result (length nodes.new.items ≤ length nodes.old.items + 1) }
{
    let least = match children.first() {
        None => return Ok(()),
        Some(child) => Arc::try_clone(&child.least)?,
    };
    let count = count_of(&children)?;
    let base = Arc::try_clone(base)?;
    let node = Node {
        base,
        skip,
        children,
    };
    let part = Arc::new(alloc, node)?;
    let child = Child {
        head: 0,
        least,
        part,
        count,
    };
    nodes.push(child)?;
    Ok(())
}

/// The same with heads by a base and a skip that suit the parts.
pub(crate) fn push_made<K: Key + Drop, V: Drop, T: Part<K, V>>(
    alloc: Global,
    nodes: &mut Vec<Child<K, V, Node<K, V, T>>>,
    children: &[Child<K, V, T>],
) -> Result<(), Memory>
    requires children { AreChildren T.pages T.whole children.now }
    requires nodes { AreChildren (node_pages T.pages) (IsNode T.pages K.head_of T.whole) nodes.old.items }
    ensures nodes { OnOk result (AreChildren (node_pages T.pages) (IsNode T.pages K.head_of T.whole) nodes.new.items) }
    ensures pages { OnOk result (pages_of (node_pages T.pages) nodes.new.items ≡ pages_of (node_pages T.pages) nodes.old.items ++ pages_of T.pages children.now) }
    ensures one { OnOk result (length nodes.new.items ≤ length nodes.old.items + 1) }
{
    match children.last() {
        None => Ok(()),
        Some(last) => {
            let base = &last.least;
            let skip = match children.get(1) {
                None => 0,
                Some(child) => child.least.key.shared(&base.key),
            };
            let mut made = Vec::with_capacity(alloc, children.len())?;
            add(&mut made, children, &base.key, skip)?;
            push_node(alloc, nodes, base, skip, made)
        }
    }
}

/// Puts at the end of a list the forks of some parts, each half full at least where there is more than one.
pub(crate) fn group<K: Key + Drop, V: Drop, T: Part<K, V>>(
    alloc: Global,
    nodes: &mut Vec<Child<K, V, Node<K, V, T>>>,
    children: &[Child<K, V, T>],
) -> Result<(), Memory>
    requires children { AreChildren T.pages T.whole children.now }
    requires nodes { AreChildren (node_pages T.pages) (IsNode T.pages K.head_of T.whole) nodes.old.items }
    ensures nodes { OnOk result (AreChildren (node_pages T.pages) (IsNode T.pages K.head_of T.whole) nodes.new.items) }
    ensures pages { OnOk result (pages_of (node_pages T.pages) nodes.new.items ≡ pages_of (node_pages T.pages) nodes.old.items ++ pages_of T.pages children.now) }
{
    if children.len() <= WIDTH {
        return push_made(alloc, nodes, children);
    }
    let (front, back) = children.split_at(children.len() / 2);
    group(alloc, nodes, front)?;
    group(alloc, nodes, back)
}

/// All edits in front.
fn all_in_front<'a, 'k, K, V>(edits: &'a [Edit<'k, K, V>]) -> Sides<'a, 'k, K, V>
    ensures before { result.before.now ≡ edits.now }
    ensures behind { result.behind.now ≡ [] }
{
    let (before, behind) = edits.split_at(edits.len());
    Sides { before, behind }
}

/// The edits in front of some parts, and the others. The first one is in front.
fn edits_before<'a, 'k, K: Key, V, T>(
    edits: &'a [Edit<'k, K, V>],
    children: &[Child<K, V, T>],
) -> Sides<'a, 'k, K, V>
    requires rising { AreRising K.cmp (map change_of edits.now) }
    requires first { AllByRecursion (λ change. is_before K.cmp (key_of_change change) (leasts children.now) ≡ true) (take 1 (map change_of edits.now)) }
    ensures before { map change_of result.before.now ≡ changes_before K.cmp (leasts children.now) (map change_of edits.now) }
    ensures behind { map change_of result.behind.now ≡ changes_behind K.cmp (leasts children.now) (map change_of edits.now) }
    ensures rising_before { AreRising K.cmp (map change_of result.before.now) }
    ensures rising_behind { AreRising K.cmp (map change_of result.behind.now) }
{
    match children.first() {
        None => all_in_front(edits),
        Some(child) => {
            if edits.len() > 1 {
                split_edits(edits, &child.least.key)
            } else {
                all_in_front(edits)
            }
        }
    }
}

/// Puts at the end of a list what is left of some parts after edits.
fn edit<K: Key + Drop, V: Drop, T: Part<K, V>>(
    alloc: Global,
    most: usize,
    made: &mut Vec<Child<K, V, T>>,
    children: &[Child<K, V, T>],
    edits: &[Edit<'_, K, V>],
    base: &K,
    skip: usize,
) -> Result<(), Memory>
    requires most { 0 < most }
    requires made { AreKept T.pages T.whole K.head_of base.now skip made.old.items }
    requires children { AreKept T.pages T.whole K.head_of base.now skip children.now }
    requires pairs { IsRising K.cmp (pairs_of (pages_of T.pages children.now)) }
    requires edits { AreRising K.cmp (map change_of edits.now) }
    requires some { (length edits.now ≡ 0) ⊎ (0 < length children.now) }
    ensures kept { OnOk result (AreKept T.pages T.whole K.head_of base.now skip made.new.items) }
    ensures pages { OnOk result (pages_of T.pages made.new.items ≡ pages_of T.pages made.old.items ++ pages_changed K.cmp most (pages_of T.pages children.now) (map change_of edits.now)) }
{
    match edits.first() {
        None => keep(made, children, base, skip),
        Some(first) => {
            let Around { front, child, rest } = near(children, key_of(first), base, skip);
            keep(made, front, base, skip)?;
            let Sides { before, behind } = edits_before(edits, rest);
            let parts = child.part.edited(alloc, most, before)?;
            add(made, &parts, base, skip)?;
            edit(alloc, most, made, rest, behind, base, skip)
        }
    }
}

impl<K: Key + Drop, V: Drop, T: Part<K, V>> Node<K, V, T> {
    /// What is left of the parts after edits, with heads by this fork's base and skip.
    fn remade(
        &self,
        alloc: Global,
        most: usize,
        edits: &[Edit<'_, K, V>],
    ) -> Result<Vec<Child<K, V, T>>, Memory>
        requires most { 0 < most }
        requires whole { IsNode T.pages K.head_of T.whole self.now }
        requires pairs { IsRising K.cmp (pairs_of (node_pages T.pages self.now)) }
        requires edits { AreRising K.cmp (map change_of edits.now) }
        ensures kept { IfOk result (λ made. AreKept T.pages T.whole K.head_of self.now.base.value.key self.now.skip made.items) }
        ensures pages { IfOk result (λ made. pages_of T.pages made.items ≡ pages_changed K.cmp most (node_pages T.pages self.now) (map change_of edits.now)) }
    {
        fetch(&self.children);
        let mut made = Vec::with_capacity(alloc, self.children.len().saturating_add(1))?;
        let base = &self.base.key;
        edit(
            alloc,
            most,
            &mut made,
            &self.children,
            edits,
            base,
            self.skip,
        )?;
        Ok(made)
    }

    /// What is left after edits as one fork, however wide; none where no page is left.
    pub(crate) fn edited_as_one(
        &self,
        alloc: Global,
        most: usize,
        edits: &[Edit<'_, K, V>],
    ) -> Result<Vec<Child<K, V, Node<K, V, T>>>, Memory>
        requires most { 0 < most }
        requires whole { IsNode T.pages K.head_of T.whole self.now }
        requires pairs { IsRising K.cmp (pairs_of (node_pages T.pages self.now)) }
        requires edits { AreRising K.cmp (map change_of edits.now) }
        ensures one { IfOk result (λ parts. length parts.items ≤ 1) }
        ensures parts { IfOk result (λ parts. AreChildren (node_pages T.pages) (IsNode T.pages K.head_of T.whole) parts.items) }
        ensures pages { IfOk result (λ parts. pages_of (node_pages T.pages) parts.items ≡ pages_changed K.cmp most (node_pages T.pages self.now) (map change_of edits.now)) }
    {
        let made = self.remade(alloc, most, edits)?;
        let mut nodes = Vec::new(alloc);
        if made.len() == self.children.len() {
            push_node(alloc, &mut nodes, &self.base, self.skip, made)?;
            return Ok(nodes);
        }
        push_made(alloc, &mut nodes, &made)?;
        Ok(nodes)
    }
}

/// How many pages some parts have.
fn pages_in_all<K: Key + Drop, V: Drop, T: Part<K, V>>(children: &[Child<K, V, T>]) -> u64
    requires whole { AreChildren T.pages T.whole children.now }
    requires fits { length (pages_of T.pages children.now) < 2 ^ 64 }
    ensures { result ≡ length (pages_of T.pages children.now) }
{
    match children.split_first() {
        None => 0,
        Some((child, rest)) => child.count.pages + pages_in_all(rest),
    }
}

/// The page of a number.
fn page_in<K: Key + Drop, V: Drop, T: Part<K, V>>(
    children: &[Child<K, V, T>],
    place: u64,
) -> Option<&[Arc<Entry<K, V>>]>
    requires { AreChildren T.pages T.whole children.now }
    ensures page { option_map (map pair_of) (option_copied result) ≡ slice_get (pages_of T.pages children.now) place }
    ensures some { IfSome result (λ page. 0 < length page.now) }
{
    match children.split_first() {
        None => None,
        Some((child, rest)) => {
            if place < child.count.pages {
                child.part.page_at(place)
            } else {
                page_in(rest, place - child.count.pages)
            }
        }
    }
}

/// The pair of a number.
fn entry_in<K: Key + Drop, V: Drop, T: Part<K, V>>(
    children: &[Child<K, V, T>],
    place: u64,
) -> Option<&Arc<Entry<K, V>>>
    requires { AreChildren T.pages T.whole children.now }
    ensures { option_map pair_of (option_copied result) ≡ slice_get (pairs_of (pages_of T.pages children.now)) place }
{
    match children.split_first() {
        None => None,
        Some((child, rest)) => {
            if place < child.count.pairs {
                child.part.entry_of(place)
            } else {
                entry_in(rest, place - child.count.pairs)
            }
        }
    }
}

impl<K: Key + Drop, V: Drop, T: Part<K, V>> Part<K, V> for Node<K, V, T> {
    ghost pages = { node_pages T.pages };

    ghost whole = { IsNode T.pages K.head_of T.whole };

    fn page_for(&self, key: &K) -> &[Arc<Entry<K, V>>] {
        let Around {
            front: _,
            child,
            rest: _,
        } = near(&self.children, key, &self.base.key, self.skip);
        child.part.page_for(key)
    }

    fn start_at(&self, key: &K) -> Start<'_, K, V> {
        let Around {
            front,
            child,
            rest: _,
        } = near(&self.children, key, &self.base.key, self.skip);
        let Start { page, behind } = child.part.start_at(key);
        Start {
            page,
            behind: pages_in_all(front) + behind,
        }
    }

    fn page_at(&self, place: u64) -> Option<&[Arc<Entry<K, V>>]> {
        page_in(&self.children, place)
    }

    fn entry_of(&self, place: u64) -> Option<&Arc<Entry<K, V>>> {
        entry_in(&self.children, place)
    }

    fn edited(
        &self,
        alloc: Global,
        most: usize,
        edits: &[Edit<'_, K, V>],
    ) -> Result<Vec<Child<K, V, Node<K, V, T>>>, Memory> {
        let made = self.remade(alloc, most, edits)?;
        let mut nodes = Vec::new(alloc);
        if made.len() <= WIDTH {
            push_node(alloc, &mut nodes, &self.base, self.skip, made)?;
            return Ok(nodes);
        }
        group(alloc, &mut nodes, &made)?;
        Ok(nodes)
    }
}
