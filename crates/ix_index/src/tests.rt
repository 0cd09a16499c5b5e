//! Worked indexes, older versions, texts and names, and each call once. A test ends where a call goes wrong.
use super::*;
use ix_types::{FileName, Text};
use std::alloc::Global;
use std::process::Abort;
use std::str::SplitWhitespace;

/// An index whose pages have at most 4 keys.
type Small = Index<u64, u64, 4>;

fn number(rt: &impl Abort, word: &str) -> u64 {
    word.parse().expect(rt, "a number")
}

/// A step, as `+1=5` or `-1=5`.
fn step_in(rt: &impl Abort, word: &str) -> Step<u64, u64> {
    let (pair, gains) = match word.strip_prefix('-') {
        Some(pair) => (pair, false),
        None => (word.strip_prefix('+').expect(rt, "a sign"), true),
    };
    let (key, value) = pair.split_once('=').expect(rt, "a pair");
    Step {
        key: number(rt, key),
        value: number(rt, value),
        gains,
    }
}

/// The index after steps.
fn after(alloc: Global, rt: &impl Abort, index: &Small, words: &str) -> Small {
    let mut steps = Vec::new(alloc);
    for word in words.split_whitespace() {
        steps.push(step_in(rt, word)).expect(rt, "memory");
    }
    index.with_steps(alloc, steps).expect(rt, "an index")
}

/// Checks that the key has the values of these words, up to a `|`; `5*2` is a value that counts twice.
fn check_values(rt: &impl Abort, index: &Small, key: u64, words: &mut SplitWhitespace<'_>) {
    for value in index.values(&key) {
        let word = words.next().expect(rt, "a value that is wanted");
        let (want, count) = word.split_once('*').unwrap_or((word, "1"));
        assert!(rt; *value == number(rt, want), "{word}");
        assert!(rt; index.count(&key, value) == number(rt, count), "{word}");
    }
    assert!(rt; words.next() == Some("|"));
}

/// Checks that the index has these keys, each with its values, and no others.
fn check(rt: &impl Abort, index: &Small, want: &str) {
    let mut words = want.split_whitespace();
    for place in 0..index.len() {
        let key = *index.key_at(place).expect(rt, "a key");
        let word = words.next().expect(rt, "a key that is wanted");
        assert!(rt; key == number(rt, word), "{word}");
        check_values(rt, index, key, &mut words);
    }
    assert!(rt; words.next().is_none(), "{want}");
    assert!(rt; index.key_at(index.len()).is_none());
}

/// An index, steps, and the index after them, from which the next line goes on.
const WORKED: &str = "\
; +2=7 +1=5 +2=3 +1=5; 1 5*2 | 2 3 7 |
1 5*2 | 2 3 7 |; -1=5; 1 5 | 2 3 7 |
1 5 | 2 3 7 |; +2=5 -2=3 +1=4; 1 4 5 | 2 5 7 |
1 4 5 | 2 5 7 |; +1=6 -1=6 -1=5 -1=4; 2 5 7 |
2 5 7 |; -9=9 -2=5 -2=5; 2 7 |
2 7 |; +2=7 -2=7 +3=1 +4=1 +5=1 +6=1 +7=1; 2 7 | 3 1 | 4 1 | 5 1 | 6 1 | 7 1 |
2 7 | 3 1 | 4 1 | 5 1 | 6 1 | 7 1 |; -2=7 -4=1 -6=1 +1=1 +9=9; 1 1 | 3 1 | 5 1 | 7 1 | 9 9 |
1 1 | 3 1 | 5 1 | 7 1 | 9 9 |; -2=7; 1 1 | 3 1 | 5 1 | 7 1 | 9 9 |
1 1 | 3 1 | 5 1 | 7 1 | 9 9 |; -1=1 -3=1 -5=1 -7=1 -9=9;";

/// The index after the steps of a line. Checks it, and that the older one is as it was.
fn check_line(alloc: Global, rt: &impl Abort, index: &Small, line: &str) -> Small {
    let (before, rest) = line.split_once(';').expect(rt, "an index");
    let (words, want) = rest.split_once(';').expect(rt, "steps and an index");
    let next = after(alloc, rt, index, words);
    check(rt, index, before);
    check(rt, &next, want);
    next.share().expect(rt, "a handle")
}

#[test]
fn steps_are_counted_and_older_versions_stay(rt: HostRuntime) {
    let alloc = rt.alloc();
    let mut index = Index::empty();
    for line in WORKED.lines() {
        index = check_line(alloc, &rt, &index, line);
    }
}

#[test]
fn revisions_are_gathered_and_made_in_one_go(rt: HostRuntime) {
    let alloc = rt.alloc();
    let mut steps = Vec::new(alloc);
    for word in "+1=5 -1=6 -1=5 +2=2 +1=6 +1=5".split_whitespace() {
        steps.push(step_in(&rt, word)).expect(&rt, "memory");
    }
    let revisions = revisions_of(alloc, steps).expect(&rt, "revisions");
    assert!(rt; revisions.len() == 2);
    let index: Small = Index::empty();
    let next = index.with_all(alloc, revisions).expect(&rt, "an index");
    check(&rt, &next, "1 5 | 2 2 |");
}

#[test]
fn texts_and_names_stand_in_an_index(rt: HostRuntime) {
    let alloc = rt.alloc();
    let usr = Text::read(alloc, b"s:1MA").expect(&rt, "a text");
    let key = usr.copied().expect(&rt, "memory");
    let record = FileName::read(b"0a").expect(&rt, "a name");
    let mut steps = Vec::new(alloc);
    steps
        .push(Step {
            key,
            value: record.copied().expect(&rt, "memory"),
            gains: true,
        })
        .expect(&rt, "memory");
    let index: Index<Text, FileName, 64> = Index::empty();
    let next = index.with_steps(alloc, steps).expect(&rt, "an index");
    assert!(rt; next.values(&usr).len() == 1);
    assert!(rt; next.count(&usr, &record) == 1);
}
