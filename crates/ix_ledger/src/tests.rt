//! A library's steps as calls of a ledger, each call once. A test ends where a call goes wrong.
use super::*;
use ix_dir::Listed;
use ix_machine::{Outcome, Purpose};
use ix_types::{FileName, Seq, Text};
use ix_unit::{RecordDep, UnitPut, UnitValue};
use std::alloc::Global;
use std::process::Abort;
use std::sync::Arc;

fn name_in(rt: &impl Abort, word: &str) -> FileName {
    FileName::read(word.as_bytes()).expect(rt, "a name")
}

fn text(alloc: Global, rt: &impl Abort, word: &str) -> Text {
    Text::read_or_empty(alloc, word.as_bytes()).expect(rt, "a text")
}

fn names(alloc: Global, rt: &impl Abort, words: &str) -> Seq<FileName> {
    let mut names = Vec::new(alloc);
    for word in words.split_whitespace() {
        names.push(name_in(rt, word)).expect(rt, "room");
    }
    Seq::of(names)
}

fn listing(alloc: Global, rt: &impl Abort, words: &str) -> Seq<Listed> {
    let mut records = Vec::new(alloc);
    for word in words.split_whitespace() {
        let name = name_in(rt, word);
        records.push(Listed { name, stamp: 1 }).expect(rt, "room");
    }
    Seq::of(records)
}

/// A unit with the output path that needs the records.
fn unit(alloc: Global, rt: &impl Abort, output: &str, words: &str) -> Arc<UnitValue> {
    let mut records = Vec::new(alloc);
    for word in words.split_whitespace() {
        let record = RecordDep {
            path: text(alloc, rt, "a.c"),
            system: false,
            name: name_in(rt, word),
        };
        records.push(record).expect(rt, "room");
    }
    let unit = UnitValue {
        output: text(alloc, rt, output),
        main_file: text(alloc, rt, ""),
        module_name: text(alloc, rt, ""),
        system: false,
        units: Seq::of(Vec::new(alloc)),
        records: Seq::of(records),
        files: Seq::of(Vec::new(alloc)),
        includes: Seq::of(Vec::new(alloc)),
    };
    Arc::new(alloc, unit).expect(rt, "room")
}

/// A ledger of two lanes whose library found one unit.
fn opened(alloc: Global, rt: &impl Abort) -> Ledger {
    let put = UnitPut {
        name: name_in(rt, "1a"),
        unit: unit(alloc, rt, "a.o", "0a"),
    };
    let found = [put];
    Ledger::open(alloc, &found, 2).expect(rt, "a ledger")
}

fn is_loose(alloc: Global, rt: &impl Abort, ledger: &mut Ledger, words: &str, first: &str) -> bool {
    ledger.first_loose(&listing(alloc, rt, words)) == Some(name_in(rt, first))
}

#[test]
fn a_found_unit_is_visible_and_no_version_has_it(rt: HostRuntime) {
    let alloc = rt.alloc();
    let mut ledger = opened(alloc, &rt);
    assert!(rt; ledger.events().is_empty());
    assert!(rt; ledger.has_lane(1));
    assert!(rt; ledger.published() == 1);
    assert!(rt; ledger.current() == 0);
    assert!(rt; ledger.unit(name_in(&rt, "1a")).is_some());
    assert!(rt; ledger.unit(name_in(&rt, "1b")).is_none());
    assert!(rt; is_loose(alloc, &rt, &mut ledger, "0a 0b", "0b"));
}

/// The lane leases a record, and a put of it ends so, or a stage fails.
fn end_put(
    alloc: Global,
    rt: &impl Abort,
    ledger: &mut Ledger,
    lane: u32,
    record: &str,
    end: &str,
) {
    let name = name_in(rt, record);
    assert!(rt; ledger.has_lane(lane));
    let leased = ledger.lease(alloc, lane, &names(alloc, rt, record));
    assert!(rt; leased.is_ok());
    assert!(rt; ledger.has_lane(lane) && ledger.has_leased(lane, name));
    ledger.reserve().expect(rt, "room");
    match end {
        "written" => ledger.put_written(lane, name),
        "shared" => ledger.put_shared(lane, name),
        "clash" => ledger.put_clashed(lane, name),
        "failed" => ledger.put_failed(lane, name),
        _ => ledger.stage_failed(lane, name),
    }
}

/// Whether the lane must not write over the record.
fn guards(rt: &impl Abort, ledger: &Ledger, lane: u32, record: &str) -> bool {
    ledger.has_lane(lane) && ledger.protects(lane, name_in(rt, record))
}

/// The lane stages a unit that needs the record.
fn stage(
    alloc: Global,
    rt: &impl Abort,
    ledger: &mut Ledger,
    lane: u32,
    name: &str,
    unit: Arc<UnitValue>,
) {
    assert!(rt; ledger.has_lane(lane));
    ledger.reserve().expect(rt, "room");
    ledger.stage_made(lane, name_in(rt, name), unit);
}

/// The lane publishes what it has staged. False where it clashes.
fn publish(
    alloc: Global,
    rt: &impl Abort,
    ledger: &mut Ledger,
    lane: u32,
    name: &str,
    unsynced: bool,
) -> bool {
    let name = name_in(rt, name);
    assert!(rt; ledger.has_lane(lane));
    assert!(rt; ledger.staged(lane).is_some());
    ledger.reserve().expect(rt, "room");
    match ledger.publishing(alloc, lane, name).expect(rt, "memory") {
        Some(change) => {
            ledger.publish_made(lane, name, change, unsynced);
            true
        }
        None => {
            ledger.publish_clashed(lane, name);
            false
        }
    }
}

/// A publish of what the lane has staged fails. False where it clashes.
fn fail_to_publish(
    alloc: Global,
    rt: &impl Abort,
    ledger: &mut Ledger,
    lane: u32,
    name: &str,
) -> bool {
    let name = name_in(rt, name);
    assert!(rt; ledger.has_lane(lane));
    assert!(rt; ledger.staged(lane).is_some());
    ledger.reserve().expect(rt, "room");
    match ledger.publishing(alloc, lane, name).expect(rt, "memory") {
        Some(_) => {
            ledger.publish_failed(lane, name);
            true
        }
        None => false,
    }
}

/// The unit of an output path goes. False where there is none.
fn remove(alloc: Global, rt: &impl Abort, ledger: &mut Ledger, name: &str, output: &str) -> bool {
    let name = name_in(rt, name);
    ledger.reserve().expect(rt, "room");
    match ledger
        .removing(alloc, name, &text(alloc, rt, output))
        .expect(rt, "memory")
    {
        Some(change) => {
            ledger.remove_made(0, name, change, false);
            true
        }
        None => {
            ledger.remove_refused(0, name);
            false
        }
    }
}

#[test]
fn a_publish_that_pends_keeps_what_was_needed_before(rt: HostRuntime) {
    let alloc = rt.alloc();
    let mut ledger = opened(alloc, &rt);
    end_put(alloc, &rt, &mut ledger, 0, "0b", "written");
    assert!(rt; guards(&rt, &ledger, 1, "0b"));
    stage(
        alloc,
        &rt,
        &mut ledger,
        0,
        "1a",
        unit(alloc, &rt, "a.o", "0b"),
    );
    assert!(rt; publish(alloc, &rt, &mut ledger, 0, "1a", true));
    assert!(rt; ledger.pending() == Some(1));
    assert!(rt; guards(&rt, &ledger, 1, "0a"));
    assert!(rt; is_loose(alloc, &rt, &mut ledger, "0a 0b", "0a"));
    ledger.reserve().expect(&rt, "room");
    ledger.collect_removed(1, name_in(&rt, "0a"));
    assert!(rt; ledger.pending() == None);
    assert!(rt; ledger.published() == 2);
    assert!(rt; ledger.events().len() == 5);
}

#[test]
fn a_unit_of_another_path_clashes_and_is_not_removed(rt: HostRuntime) {
    let alloc = rt.alloc();
    let mut ledger = opened(alloc, &rt);
    end_put(alloc, &rt, &mut ledger, 1, "0b", "written");
    stage(
        alloc,
        &rt,
        &mut ledger,
        1,
        "1a",
        unit(alloc, &rt, "b.o", "0b"),
    );
    assert!(rt; !publish(alloc, &rt, &mut ledger, 1, "1a", false));
    assert!(rt; is_loose(alloc, &rt, &mut ledger, "0a 0b", "0b"));
    end_put(alloc, &rt, &mut ledger, 1, "0b", "written");
    stage(
        alloc,
        &rt,
        &mut ledger,
        1,
        "1b",
        unit(alloc, &rt, "b.o", "0b"),
    );
    assert!(rt; fail_to_publish(alloc, &rt, &mut ledger, 1, "1b"));
    assert!(rt; !remove(alloc, &rt, &mut ledger, "1a", "b.o"));
    assert!(rt; remove(alloc, &rt, &mut ledger, "1a", "a.o"));
    assert!(rt; ledger.unit(name_in(&rt, "1a")).is_none());
    assert!(rt; ledger.published() == 2);
}

/// The lane scans.
fn scan(rt: &impl Abort, ledger: &mut Ledger, lane: u32) {
    ledger.reserve().expect(rt, "room");
    let needs = ledger.scanning().expect(rt, "a handle");
    ledger.scan_made(lane, needs);
}

/// How many records of the unit that was found are fresh.
fn count_fresh(alloc: Global, rt: &impl Abort, ledger: &Ledger) -> usize {
    let mut puts = Vec::new(alloc);
    let put = UnitPut {
        name: name_in(rt, "1a"),
        unit: unit(alloc, rt, "a.o", "0a 0a"),
    };
    puts.push(put).expect(rt, "room");
    let fresh = ledger.fresh(alloc, &Seq::of(puts)).expect(rt, "room");
    fresh.as_slice().len()
}

#[test]
fn an_import_becomes_the_version_that_lanes_hold(rt: HostRuntime) {
    let alloc = rt.alloc();
    let mut ledger = opened(alloc, &rt);
    assert!(rt; count_fresh(alloc, &rt, &ledger) == 1);
    scan(&rt, &mut ledger, 1);
    assert!(rt; ledger.import() == Some(Import { lane: 1, mark: 1 }));
    ledger.reserve().expect(&rt, "room");
    ledger.load_made(1, name_in(&rt, "0a"));
    assert!(rt; ledger.has_lane(1));
    assert!(rt; ledger.install(1).expect(&rt, "memory") == 1);
    assert!(rt; count_fresh(alloc, &rt, &ledger) == 0);
    assert!(rt; ledger.has_lane(0));
    assert!(rt; ledger.adopt(0).expect(&rt, "memory") == 1);
    assert!(rt; ledger.has_lane(0));
    assert!(rt; ledger.held(0) == Some(1));
    ledger.release(0).expect(&rt, "memory");
    assert!(rt; ledger.has_lane(0));
    assert!(rt; ledger.held(0) == None);
    assert!(rt; ledger.events().len() == 5);
}

#[test]
fn a_failure_drops_the_lease_or_closes_the_import(rt: HostRuntime) {
    let alloc = rt.alloc();
    let name = name_in(&rt, "0b");
    let mut ledger = opened(alloc, &rt);
    end_put(alloc, &rt, &mut ledger, 0, "0b", "failed");
    assert!(rt; !guards(&rt, &ledger, 1, "0b"));
    end_put(alloc, &rt, &mut ledger, 0, "0b", "clash");
    end_put(alloc, &rt, &mut ledger, 0, "0b", "no stage");
    assert!(rt; !guards(&rt, &ledger, 1, "0b"));
    end_put(alloc, &rt, &mut ledger, 0, "0b", "shared");
    assert!(rt; guards(&rt, &ledger, 0, "0b"));
    scan(&rt, &mut ledger, 1);
    ledger.reserve().expect(&rt, "room");
    ledger.load_failed(1, name, Purpose::Ask, Outcome::Fault);
    assert!(rt; ledger.import().is_some());
    ledger.reserve().expect(&rt, "room");
    ledger.load_failed(1, name, Purpose::Import, Outcome::Lost { name });
    assert!(rt; ledger.import().is_none());
    ledger.reserve().expect(&rt, "room");
    ledger.scan_failed(1, Outcome::Damaged { name });
    ledger.reserve().expect(&rt, "room");
    ledger.remove_failed(1, name);
    ledger.reserve().expect(&rt, "room");
    ledger.collect_failed(1);
    ledger.reserve().expect(&rt, "room");
    ledger.collect_nothing(1);
    assert!(rt; ledger.events().len() == 15);
}
