//! A guard of two lanes and need lists worked by hand, and each call once. A test ends where a call goes wrong.
use super::*;
use ix_dir::Listed;
use ix_types::{FileName, Seq, Text};
use ix_unit::{RecordDep, UnitValue};
use std::alloc::Global;
use std::process::Abort;

fn name_in(rt: &impl Abort, word: &str) -> FileName {
    FileName::read(word.as_bytes()).expect(rt, "a name")
}

fn text(alloc: Global, rt: &impl Abort, word: &str) -> Text {
    Text::read_or_empty(alloc, word.as_bytes()).expect(rt, "a text")
}

fn names(alloc: Global, rt: &impl Abort, words: &str) -> Seq<FileName> {
    let mut names = Vec::new(alloc);
    for word in words.split_whitespace() {
        names.push(name_in(rt, word)).expect(rt, "room");
    }
    Seq::of(names)
}

fn listing(alloc: Global, rt: &impl Abort, words: &str) -> Seq<Listed> {
    let mut records = Vec::new(alloc);
    for word in words.split_whitespace() {
        let name = name_in(rt, word);
        records.push(Listed { name, stamp: 1 }).expect(rt, "room");
    }
    Seq::of(records)
}

/// A record dependency, as `a.c=0a`: its path and its record's name.
fn dependency(alloc: Global, rt: &impl Abort, word: &str) -> RecordDep {
    let (path, name) = word.split_once('=').expect(rt, "a path and a name");
    RecordDep {
        path: text(alloc, rt, path),
        system: false,
        name: name_in(rt, name),
    }
}

fn unit(alloc: Global, rt: &impl Abort, words: &str) -> UnitValue {
    let mut records = Vec::new(alloc);
    for word in words.split_whitespace() {
        let record = dependency(alloc, rt, word);
        records.push(record).expect(rt, "room");
    }
    UnitValue {
        output: text(alloc, rt, "o"),
        main_file: text(alloc, rt, ""),
        module_name: text(alloc, rt, ""),
        system: false,
        units: Seq::of(Vec::new(alloc)),
        records: Seq::of(records),
        files: Seq::of(Vec::new(alloc)),
        includes: Seq::of(Vec::new(alloc)),
    }
}

#[test]
fn a_lease_guards_from_others_and_once_put_from_its_lane(rt: HostRuntime) {
    let alloc = rt.alloc();
    let name = name_in(&rt, "0a");
    let leased = names(alloc, &rt, "0a");
    let records = listing(alloc, &rt, "0a");
    let mut guard = Guard::new(alloc, 2).expect(&rt, "a guard");
    guard.lease(alloc, 0, &leased).expect(&rt, "a lease");
    assert!(rt; !guard.protects(0, name));
    assert!(rt; guard.protects(1, name));
    assert!(rt; guard.has_leased(0, name));
    guard.note_put(0, name);
    assert!(rt; guard.protects(0, name));
    assert!(rt; guard.first_loose(&records).is_none());
    guard.drop_lease(0);
    assert!(rt; guard.first_loose(&records) == Some(name));
}

/// Units that come (`+`), go (`-`) or take another's place (`>`), and the names that are needed then.
const UNITS: &str = "\
+ a.c=0a b.c=0a b.h=0b: 0a 0b
+ c.c=0b: 0a 0b
> a.c=0a b.c=0a b.h=0b > b.c=0a c.c=0c: 0a 0b 0c
- c.c=0b: 0a 0c
> b.c=0a c.c=0c > a.c=0a b.c=0a: 0a
+ b.c=0a: 0a
- a.c=0a b.c=0a: 0a
- b.c=0a:";

/// The need list after the change of a line.
fn step(alloc: Global, rt: &impl Abort, list: &NeedList, change: &str) -> NeedList {
    let (sign, words) = change.split_once(' ').expect(rt, "a sign");
    let (old, new) = words.split_once('>').unwrap_or((words, ""));
    let unit_of = unit(alloc, rt, old);
    let after = match sign {
        "+" => list.with_unit(alloc, &unit_of),
        "-" => list.without_unit(alloc, &unit_of),
        _ => list.with_unit_replaced(alloc, &unit_of, &unit(alloc, rt, new)),
    };
    after.expect(rt, "a need list")
}

#[test]
fn a_name_is_needed_until_nothing_lists_it(rt: HostRuntime) {
    let alloc = rt.alloc();
    let mut list = NeedList::empty();
    for line in UNITS.lines() {
        let (change, wanted) = line.split_once(':').expect(&rt, "a change and names");
        list = step(alloc, &rt, &list, change);
        for word in "0a 0b 0c".split_whitespace() {
            let is_wanted = wanted.split_whitespace().any(|other| other == word);
            assert!(rt; list.needs(name_in(&rt, word)) == is_wanted, "{line}");
        }
    }
}

/// Listed names, and the first that is loose where 0a is leased and 0b is needed.
const LISTINGS: &str = "\
0a 0b 0c 0d: 0c
0d 0c 0b 0a: 0c
0c: 0c
0b 0a:
:";

#[test]
fn the_first_loose_name_is_the_least(rt: HostRuntime) {
    let alloc = rt.alloc();
    let needs = NeedList::empty().with_unit(alloc, &unit(alloc, &rt, "b.c=0b"));
    let mut guard = Guard::new(alloc, 2).expect(&rt, "a guard");
    let leased = names(alloc, &rt, "0a");
    guard.lease(alloc, 1, &leased).expect(&rt, "a lease");
    guard.set_units(needs.expect(&rt, "a need list"), false);
    for line in LISTINGS.lines() {
        let (words, wanted) = line.split_once(':').expect(&rt, "names");
        let first = guard.first_loose(&listing(alloc, &rt, words));
        assert!(rt; first == FileName::read(wanted.trim().as_bytes()), "{line}");
    }
}

/// What was needed before an unsynced change stays until it is settled, and what an import needs until it is closed.
#[test]
fn a_change_and_an_import_keep_what_they_need(rt: HostRuntime) {
    let alloc = rt.alloc();
    let name = name_in(&rt, "0a");
    let needs = NeedList::empty().with_unit(alloc, &unit(alloc, &rt, "a.c=0a"));
    let needs = needs.expect(&rt, "a need list");
    let imported = needs.share().expect(&rt, "a handle");
    let mut guard = Guard::new(alloc, 2).expect(&rt, "a guard");
    guard.set_units(needs, false);
    assert!(rt; guard.visible().needs(name));
    guard.set_units(NeedList::empty(), true);
    assert!(rt; guard.protects(0, name));
    let before = guard.settled();
    assert!(rt; !guard.protects(0, name));
    guard.unsettled(before);
    assert!(rt; guard.protects(0, name));
    guard.set_units(NeedList::empty(), false);
    guard.open_import(imported);
    assert!(rt; guard.protects(1, name));
    guard.close_import();
    assert!(rt; !guard.protects(1, name));
}

/// What a lane holds stays when the current version goes on, until the lane releases it.
#[test]
fn a_hold_keeps_what_it_needs(rt: HostRuntime) {
    let alloc = rt.alloc();
    let name = name_in(&rt, "0a");
    let needs = NeedList::empty().with_unit(alloc, &unit(alloc, &rt, "a.c=0a"));
    let mut guard = Guard::new(alloc, 2).expect(&rt, "a guard");
    guard.open_import(needs.expect(&rt, "a need list"));
    let import = guard.import().expect(&rt, "an import").share();
    guard.install(0, import.expect(&rt, "a handle"));
    let current = guard.current().share().expect(&rt, "a handle");
    guard.hold(1, current);
    guard.open_import(NeedList::empty());
    guard.install(0, NeedList::empty());
    assert!(rt; guard.protects(0, name));
    guard.release(1);
    assert!(rt; !guard.protects(0, name));
}
