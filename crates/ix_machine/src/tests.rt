//! Runs of the machine, call after call, each with its flag and what it answers.
use super::*;
use ix_record::{Body, decode};
use ix_types::{FileName, Naming, Seq, Sha, Text};
use ix_unit::{RecordDep, UnitValue};
use std::alloc::Global;
use std::process::Abort;
use std::sync::Arc;

/// A record of one symbol with one occurrence, in line 1.
const RECORD: [u8; 58] = [
    73, 88, 82, 49, 0, 0, 0, 1, 0, 0, 0, 6, 0, 0, 0, 100, 0, 0, 0, 0, 0, 0, 0, 5, 115, 58, 49, 77,
    65, 0, 0, 0, 1, 65, 0, 0, 0, 1, 0, 0, 0, 1, 0, 0, 0, 8, 0, 0, 0, 0, 0, 0, 0, 2, 0, 0, 0, 0,
];

/// The records `n` and `m`, and the units of the output paths `abc` and `abd`.
const NAMES: &str = "\
n 9c498cadf2014879ffd80ce7f89feab86a2032e0b6b10d67628e078624a563f5
m 6293b642c0cc42567b0799ed1ad2451055030d137e450e6bb43eb17cbab89da8
abc ba7816bf8f01cfea414140de5dae2223b00361a396177a9cb410ff61f20015ad
abd a52d159f262b2c6ddb724a61840befc36eb30c88877a4030b65cbe86298449c9";

/// A run begins with `over` and the unit that opening found, or `-`. Then a line for each call: lane, call, what it is given, flag, and
/// what it answers. `abc/n,m` is a unit of the output path `abc` that lists the records `n` and `m`.
const RUNS: &str = "\
over - a leased record is spared
0 lease n - done
0 put n - written
1 collect - - nothing
0 stage abc/n - done
0 publish - - synced
over - what a lane holds is spared until it is released
0 lease n - done
0 put n - written
0 stage abc/n - done
0 publish - - synced
0 scan - - at/1
0 load n - done
0 install - - at/1
1 adopt - - at/1
0 lease m - done
0 put m - written
0 stage abc/m - done
0 publish - - synced
0 scan - - at/2
0 load m - done
0 install - - at/2
0 collect - - nothing
0 collect - - nothing
1 ask n - done
1 release - - done
0 collect - - removed/n
over - the open import is spared
0 lease n - done
0 put n - written
0 stage abc/n - done
0 publish - - synced
0 scan - - at/1
1 lease m - done
1 put m - written
1 stage abc/m - done
1 publish - - synced
1 collect - - nothing
0 load n - done
0 install - - at/1
over - a publish behind one that isn't synced
0 lease n - done
0 put n - written
0 stage abc/n - done
0 publish - unsynced unsynced
0 lease n - done
0 put n - shared
0 stage abd/n - done
0 publish - - synced
over - the units from before a change that pends are spared until a collect doesn't fail
0 lease n - done
0 put n - written
0 stage abc/n - done
0 publish - - synced
0 lease m - done
0 put m - written
0 stage abc/m - done
0 publish - unsynced unsynced
0 collect - fault fault
0 collect - - removed/n
over - nothing is loose before a build and behind it
0 collect - - nothing
0 lease n - done
0 put n - written
0 stage abc/n - done
0 publish - - synced
0 collect - - nothing
over - a removal finds the unit once
0 remove abc - no_unit
0 lease n - done
0 put n - written
0 stage abc/n - done
0 publish - - synced
0 remove abc - synced
0 remove abc - no_unit
over - a record that a unit lists twice
0 lease n - done
0 put n - written
0 stage abc/n,n - done
0 publish - - synced
1 collect - - nothing
0 remove abc unsynced unsynced
1 collect - - removed/n
1 collect - - nothing
over - the least of two loose records goes first
0 lease n,m - done
0 put n - written
0 put m - written
0 stage abc/n,m fault fault
1 collect - - removed/m
1 collect - - removed/n
1 collect - - nothing
over - a put that clashes or fails drops the lease
0 lease n - done
0 put n - written
1 lease n - done
1 put x - clash
1 collect - - nothing
0 put x - clash
1 lease n - done
1 put x - written
1 put n - clash
0 lease n - done
0 put n fault fault
1 collect - - removed/n
over - files that are lost and damaged
0 scan - lost/abc lost/abc
0 install - - no_step
0 scan - - at/0
0 load n damaged/n damaged/n
0 install - - no_step
0 ask n lost/m no_step
0 ask n lost/n lost/n
over - flags that no call allows
0 adopt - fault no_step
0 release - unsynced no_step
0 collect - unsynced no_step
0 publish - - no_step
0 remove abc fault no_step
0 lease n written no_step
over abc/n what was found isn't current
0 adopt - - at/0
0 collect - - nothing
0 scan - - at/1
1 remove abc - synced
1 collect - - nothing
0 install - - at/1
1 collect - - nothing
1 scan - - at/2
1 install - - at/2
1 collect - - nothing
0 release - - done
1 collect - - removed/n";

/// The record with its occurrence in this line.
fn record_in(alloc: Global, rt: &impl Abort, line: u8) -> Vec<u8> {
    let mut bytes = Vec::from_slice(alloc, &RECORD).expect(rt, "memory");
    if let Some(place) = bytes.get_mut(41) {
        *place = line;
    }
    bytes
}

/// A record's name, or else the name of a unit by its output path.
fn name(alloc: Global, rt: &impl Abort, word: &str) -> FileName {
    match word {
        "n" => Sha.name(&record_in(alloc, rt, 1)),
        "m" => Sha.name(&record_in(alloc, rt, 2)),
        output => Sha.name(output.as_bytes()),
    }
}

/// The record `n` or `m`. `x` has the name of `n` and the bytes of `m`.
fn body(alloc: Global, rt: &impl Abort, word: &str) -> Body {
    let line = if word == "n" { 1 } else { 2 };
    let own = if word == "x" { "n" } else { word };
    Body {
        name: name(alloc, rt, own),
        bytes: Seq::of(record_in(alloc, rt, line)),
    }
}

fn text(alloc: Global, rt: &impl Abort, word: &str) -> Text {
    Text::read(alloc, word.as_bytes()).expect(rt, "a text")
}

fn names(alloc: Global, rt: &impl Abort, words: &str) -> Seq<FileName> {
    let mut names = Vec::new(alloc);
    for word in words.split(',') {
        names.push(name(alloc, rt, word)).expect(rt, "room");
    }
    Seq::of(names)
}

/// The records, each under a path of its own.
fn deps(alloc: Global, rt: &impl Abort, words: &str) -> Seq<RecordDep> {
    let mut deps = Vec::new(alloc);
    for (word, path) in words.split(',').zip(["a.swift", "b.swift"]) {
        let dep = RecordDep {
            path: text(alloc, rt, path),
            system: false,
            name: name(alloc, rt, word),
        };
        deps.push(dep).expect(rt, "room");
    }
    Seq::of(deps)
}

/// A unit of an output path and of records, as `abc/n,m`.
fn unit(alloc: Global, rt: &impl Abort, words: &str) -> Arc<UnitValue> {
    let (output, records) = words.split_once('/').expect(rt, "a unit");
    let unit = UnitValue {
        output: text(alloc, rt, output),
        main_file: text(alloc, rt, "a.swift"),
        module_name: text(alloc, rt, "M"),
        system: false,
        units: Seq::of(Vec::new(alloc)),
        records: deps(alloc, rt, records),
        files: Seq::of(Vec::new(alloc)),
        includes: Seq::of(Vec::new(alloc)),
    };
    Arc::new(alloc, unit).expect(rt, "memory")
}

/// What opening finds: nothing, or the unit with the record `n`.
fn opened(alloc: Global, rt: &impl Abort, found: &str) -> Opened {
    let mut units = Vec::new(alloc);
    let mut records = Vec::new(alloc);
    if found != "-" {
        units.push(stored(alloc, rt, found)).expect(rt, "room");
        records.push(body(alloc, rt, "n")).expect(rt, "room");
    }
    Opened {
        units: Seq::of(units),
        refused: Seq::of(Vec::new(alloc)),
        records: Seq::of(records),
    }
}

/// The unit, with the value of the record `n`.
fn stored(alloc: Global, rt: &impl Abort, found: &str) -> StoredUnit {
    let value = decode(alloc, &RECORD).expect(rt, "a record");
    let mut values = Vec::new(alloc);
    values
        .push(Arc::new(alloc, value).expect(rt, "memory"))
        .expect(rt, "room");
    StoredUnit {
        name: name(alloc, rt, "abc"),
        unit: unit(alloc, rt, found),
        values: Seq::of(values),
    }
}

/// An outcome with what it carries, as `at/1` or `removed/n`.
fn carried(alloc: Global, rt: &impl Abort, word: &str) -> Outcome {
    let (word, given) = word.split_once('/').expect(rt, "an outcome");
    match word {
        "at" => Outcome::At {
            mark: given.parse().expect(rt, "a mark"),
        },
        "removed" => Outcome::Removed {
            name: name(alloc, rt, given),
        },
        "lost" => Outcome::Lost {
            name: name(alloc, rt, given),
        },
        _ => Outcome::Damaged {
            name: name(alloc, rt, given),
        },
    }
}

/// The outcome that a word names.
fn outcome(alloc: Global, rt: &impl Abort, word: &str) -> Outcome {
    match word {
        "-" | "done" => Outcome::Done,
        "written" => Outcome::Written,
        "shared" => Outcome::Shared,
        "clash" => Outcome::Clash,
        "synced" => Outcome::Synced,
        "unsynced" => Outcome::Unsynced,
        "no_unit" => Outcome::NoUnit,
        "nothing" => Outcome::Nothing,
        "fault" => Outcome::Fault,
        carrying => carried(alloc, rt, carrying),
    }
}

/// One call that is given something, with its flag.
fn step_with(
    alloc: Global,
    rt: &impl Abort,
    machine: &mut Machine,
    lane: u32,
    call: &str,
    given: &str,
    flag: &Outcome,
) -> Option<Outcome> {
    let answer = match call {
        "lease" => machine.step(&Sha, lane, Given::Lease(&names(alloc, rt, given)), flag),
        "put" => machine.step(&Sha, lane, Given::Put(&body(alloc, rt, given)), flag),
        "stage" => machine.step(&Sha, lane, Given::Stage(&unit(alloc, rt, given)), flag),
        "remove" => machine.step(&Sha, lane, Given::Remove(&text(alloc, rt, given)), flag),
        "load" => {
            let name = name(alloc, rt, given);
            machine.step(&Sha, lane, Given::Load(name, Purpose::Import), flag)
        }
        _ => {
            let name = name(alloc, rt, given);
            machine.step(&Sha, lane, Given::Load(name, Purpose::Ask), flag)
        }
    };
    answer.expect(rt, "memory")
}

/// One call that is given nothing, with its flag.
fn step(
    rt: &impl Abort,
    machine: &mut Machine,
    lane: u32,
    call: &str,
    flag: &Outcome,
) -> Option<Outcome> {
    let given = match call {
        "publish" => Given::Publish,
        "scan" => Given::Scan,
        "install" => Given::Install,
        "adopt" => Given::Adopt,
        "release" => Given::Release,
        _ => Given::Collect,
    };
    machine.step(&Sha, lane, given, flag).expect(rt, "memory")
}

/// Makes the call of a line, and checks what it answers.
fn check_line(alloc: Global, rt: &impl Abort, machine: &mut Machine, line: &str) {
    let mut words = line.split_whitespace();
    let lane = words
        .next()
        .expect(rt, "a lane")
        .parse()
        .expect(rt, "a lane");
    let call = words.next().expect(rt, "a call");
    let given = words.next().expect(rt, "what it is given");
    let flag = outcome(alloc, rt, words.next().expect(rt, "a flag"));
    let want = words.next().expect(rt, "an outcome");
    let answer = if given == "-" {
        step(rt, machine, lane, call, &flag)
    } else {
        step_with(alloc, rt, machine, lane, call, given, &flag)
    };
    if want == "no_step" {
        assert!(rt; answer.is_none(), "{line}");
    } else {
        assert!(rt; answer == Some(outcome(alloc, rt, want)), "{line}");
    }
}

#[test]
fn runs_answer_as_worked(rt: HostRuntime) {
    let alloc = rt.alloc();
    let mut machine = Machine::new(alloc, &opened(alloc, &rt, "-"), 2).expect(&rt, "memory");
    for line in RUNS.lines() {
        match line.strip_prefix("over ") {
            Some(rest) => {
                let found = rest.split_whitespace().next().expect(&rt, "what was found");
                machine = Machine::new(alloc, &opened(alloc, &rt, found), 2).expect(&rt, "memory");
            }
            None => check_line(alloc, &rt, &mut machine, line),
        }
    }
}

#[test]
fn names_are_those_of_the_worked_rows(rt: HostRuntime) {
    let alloc = rt.alloc();
    for line in NAMES.lines() {
        let (word, digits) = line.split_once(' ').expect(&rt, "a name");
        assert!(&rt;
            name(alloc, &rt, word).bytes() == digits.as_bytes(),
            "{line}"
        );
    }
}
