//! Worked pages, lists of changes, older versions, and each call once. A test ends where a call goes wrong.
use super::*;
use ix_types::{FileName, Text};
use std::alloc::Global;
use std::process::Abort;
use std::str::SplitWhitespace;
use std::sync::Arc;

/// A map whose pages have at most 4 pairs.
type Small = Pages<u64, u64, 4>;

fn number(rt: &impl Abort, word: &str) -> u64 {
    word.parse().expect(rt, "a number")
}

/// A key and its value, as `5=9`; `5` alone is both.
fn pair_in(rt: &impl Abort, word: &str) -> (u64, u64) {
    let (key, value) = word.split_once('=').unwrap_or((word, word));
    (number(rt, key), number(rt, value))
}

/// A change: a pair that is put, or `-` and a key that is taken away.
fn change_in(rt: &impl Abort, word: &str) -> Change<u64, u64> {
    if let Some(key) = word.strip_prefix('-') {
        return Change::Take(number(rt, key));
    }
    let (key, value) = pair_in(rt, word);
    Change::Put(key, value)
}

/// The map after one change.
fn step(alloc: Global, rt: &impl Abort, pages: &Small, word: &str) -> Small {
    let after = match change_in(rt, word) {
        Change::Put(key, value) => pages.with(alloc, key, value),
        Change::Take(key) => pages.without(alloc, &key),
    };
    after.expect(rt, "a map")
}

/// The map after each change in turn.
fn steps(alloc: Global, rt: &impl Abort, from: &Small, words: &str) -> Small {
    let mut pages = from.share().expect(rt, "a handle");
    for word in words.split_whitespace() {
        pages = step(alloc, rt, &pages, word);
    }
    pages
}

/// Checks that a page has the pairs of these words, and then a `|`.
fn check_page(rt: &impl Abort, page: &[Arc<Entry<u64, u64>>], words: &mut SplitWhitespace<'_>) {
    for entry in page {
        let word = words.next().expect(rt, "a pair that is wanted");
        assert!(rt; (entry.key, entry.value) == pair_in(rt, word), "{word}");
    }
    assert!(rt; words.next() == Some("|"));
}

/// Checks that the map has these pages, a `|` behind each, and no others.
fn check_pages(rt: &impl Abort, pages: &Small, want: &str) {
    let mut words = want.split_whitespace();
    for place in 0..pages.page_count() {
        let page = pages.page_at(place).expect(rt, "a page");
        check_page(rt, page, &mut words);
    }
    assert!(rt; words.next().is_none(), "{want}");
    assert!(rt; pages.page_at(pages.page_count()).is_none());
}

/// Checks that these pairs are left, in this order, and no others. Each `|` is passed over.
fn check_pairs(rt: &impl Abort, range: Range<'_, u64, u64, 4>, want: &str) {
    let mut words = want.split_whitespace().filter(|word| *word != "|");
    for (key, value) in range {
        let word = words.next().expect(rt, "a pair that is wanted");
        assert!(rt; (*key, *value) == pair_in(rt, word), "{word}");
    }
    assert!(rt; words.next().is_none(), "{want}");
}

/// Changes, and the pages after them.
const WORKED: &str = "\
1 2 3 4 5: 1 2 3 | 4 5 |
6 7: 1 2 3 | 4 5 6 7 |
0: 0 1 2 3 | 4 5 6 7 |
3=9 9: 0 1 2 3=9 | 4 5 6 | 7 9 |
-4 -8: 0 1 2 3=9 | 5 6 | 7 9 |
4: 0 1 2 | 3=9 4 | 5 6 | 7 9 |
-5 -6: 0 1 2 | 3=9 4 | 7 9 |
-0 -1 -2 -3 -4 -7 -9:
5: 5 |
4 3 2 1: 1 2 3 | 4 5 |
-4 -5: 1 2 3 |
-1 -2 -3 -9:
10 20 30 40 50 35: 10 20 30 35 | 40 50 |
-20 -25: 10 30 35 | 40 50 |
30=1 30=2: 10 30=2 35 | 40 50 |";

#[test]
fn pages_split_and_are_dropped(rt: HostRuntime) {
    let alloc = rt.alloc();
    let mut pages = Pages::empty();
    for line in WORKED.lines() {
        let (words, want) = line.split_once(':').expect(&rt, "changes and pages");
        pages = steps(alloc, &rt, &pages, words);
        check_pages(&rt, &pages, want);
    }
}

/// The keys of a map, changes that rise by key, and the pages that they make in one go.
const CHANGES: &str = "\
1 2 3 4 5; -4 -5 6; 1 2 3 | 6 |
1 2 3 4 5; 0 -2 -4 6=7; 0 1 3 | 5 6=7 |
1 2 3 4 5; ; 1 2 3 | 4 5 |
; 1 2=3 4 5 6; 1 2=3 4 | 5 6 |
; 1 2 3 4 5 6 7 8 9 10; 1 2 3 | 4 5 | 6 7 8 | 9 10 |
; -1;
1 2 3 4 5; 2=8 5=9; 1 2=8 3 | 4 5=9 |
1 2 3 4 5; -1 -2 -3 -4 -5;
1 2 3 4 5; -0 -6 -9; 1 2 3 | 4 5 |
10 20 30 40 50; 35 -36 37; 10 20 30 | 35 37 | 40 50 |
10 20 30 40 50; 1 2 3 4 5 6 7 8 9; 1 2 3 | 4 5 6 | 7 8 9 | 10 20 30 | 40 50 |
10 20 30 40 50; -30 31 32 -40; 10 20 31 32 | 50 |
10 20 30 40 50 60 70 80 90; 15 -50 55=5 95; 10 15 20 30 | 40 55=5 60 | 70 80 90 95 |
10 20 30 40 50 60 70 80 90; 5 -70 -80 -90; 5 10 20 30 | 40 50 60 |";

/// Checks that the changes in one go make the wanted pages, and that one after the other they leave the same pairs.
fn check_changes(alloc: Global, rt: &impl Abort, old: &Small, words: &str, want: &str) {
    let mut changes = Vec::new(alloc);
    for word in words.split_whitespace() {
        changes.push(change_in(rt, word)).expect(rt, "room");
    }
    assert!(rt; are_rising(&changes), "{words}");
    let at_once = old.with_all(alloc, changes).expect(rt, "a map");
    check_pages(rt, &at_once, want);
    check_pairs(rt, steps(alloc, rt, old, words).iter(), want);
}

#[test]
fn changes_go_in_one_go(rt: HostRuntime) {
    let alloc = rt.alloc();
    let empty = Pages::empty();
    for line in CHANGES.lines() {
        let (keys, rest) = line.split_once(';').expect(&rt, "keys");
        let (words, want) = rest.split_once(';').expect(&rt, "changes");
        let old = steps(alloc, &rt, &empty, keys);
        check_changes(alloc, &rt, &old, words, want);
        check_pairs(&rt, old.iter(), keys);
    }
    let twice = [Change::Put(2, 1), Change::Take(2)];
    assert!(rt; !are_rising::<u64, u64>(&twice));
    assert!(rt; *twice[1].key() == 2);
}

#[test]
fn an_older_version_stays(rt: HostRuntime) {
    let alloc = rt.alloc();
    let old = steps(alloc, &rt, &Pages::empty(), "10 20 30 40 50 60");
    let mut new = old.share().expect(&rt, "a handle");
    for key in 0..50u64 {
        new = new.with(alloc, key, 7).expect(&rt, "a map");
    }
    for key in 10..60u64 {
        new = new.without(alloc, &key).expect(&rt, "a map");
    }
    check_pairs(
        &rt,
        new.iter(),
        "0=7 1=7 2=7 3=7 4=7 5=7 6=7 7=7 8=7 9=7 60",
    );
    check_pages(&rt, &old, "10 20 30 | 40 50 60 |");
}

#[test]
fn pairs_are_found_by_key_and_number(rt: HostRuntime) {
    let alloc = rt.alloc();
    let three = steps(alloc, &rt, &Pages::empty(), "1=2 2=4 3=6");
    check_pairs(&rt, three.from_key(&2), "2=4 3=6");
    assert!(rt; three.len() == 3);
    assert!(rt; three.get(&9).is_none());
    assert!(rt; three.get(&2) == Some(&4));
    assert!(rt; three.first() == Some((&1, &2)));
    assert!(rt; three.at(2) == Some((&3, &6)));
    assert!(rt; three.at(3).is_none());
}

/// Takes what threads may share.
fn shared<T: Send + Sync>(_value: &T) {}

#[test]
fn texts_and_names_are_keys(rt: HostRuntime) {
    let alloc = rt.alloc();
    let text = Text::read(alloc, b"b").expect(&rt, "a text");
    let texts: Pages<Text, u64, 64> = Pages::empty();
    let texts = texts.with(alloc, text, 1).expect(&rt, "a map");
    let text = Text::read(alloc, b"b").expect(&rt, "a text");
    assert!(rt; texts.get(&text) == Some(&1));
    shared(&texts);
    let name = FileName::read(b"0a").expect(&rt, "a name");
    let names: Pages<FileName, u64, 64> = Pages::empty();
    let names = names.with(alloc, name, 2).expect(&rt, "a map");
    assert!(rt; names.get(&name) == Some(&2));
}
