//! Lanes along the lines of worked runs, which another program made: each line is the call that the lane gives, and is told how it ended.
ghost use Rattle.std.specs.List.{AllByRecursion};
ghost use Rattle.ix_plan.specs.Keeps.{IsStep};

use super::*;
use ix_machine::Outcome;
use ix_plan::{Script, Step};
use ix_types::{Naming, Seq, Sha};
use std::alloc::Global;
use std::process::Abort;
use std::str::SplitWhitespace;

/// Scripts, each with the lines of its run: its events, and then how its asks ended.
const RUNS: &str =
    r#"{"format":1,"lanes":[[{"do":"build","unit":{"output":"abc","main":"a.swift","module":"M","records":[{"path":"a.swift","symbols":[{"usr":"s:1MA","name":"A","kind":"Struct"}],"occurrences":[{"usr":"s:1MA","line":1,"col":8,"roles":["Definition"]}]}]}},{"do":"poll"},{"do":"refresh"},{"do":"ask","query":"def","usr":"s:1MA"}]]}
0 lease 1
0 put 9c498cadf2014879ffd80ce7f89feab86a2032e0b6b10d67628e078624a563f5 written
0 stage ba7816bf8f01cfea414140de5dae2223b00361a396177a9cb410ff61f20015ad ok
0 publish ba7816bf8f01cfea414140de5dae2223b00361a396177a9cb410ff61f20015ad synced
0 scan ok 1
0 load 9c498cadf2014879ffd80ce7f89feab86a2032e0b6b10d67628e078624a563f5 ok
0 install 1
0 adopt 1
0 load 9c498cadf2014879ffd80ce7f89feab86a2032e0b6b10d67628e078624a563f5 ok
ask 0 0 at 1 rows 1
.
{"format":1,"lanes":[[{"do":"build","unit":{"output":"abc","main":"a.swift","module":"M","records":[{"path":"a.swift","symbols":[{"usr":"s:1MA","name":"A","kind":"Struct"}],"occurrences":[{"usr":"s:1MA","line":1,"col":8,"roles":["Definition"]}]}]}},{"do":"build","unit":{"output":"abd","main":"a.swift","module":"M","records":[{"path":"a.swift","symbols":[{"usr":"s:1MA","name":"A","kind":"Struct"}],"occurrences":[{"usr":"s:1MA","line":1,"col":8,"roles":["Definition"]}]}]}},{"do":"poll"},{"do":"ask","query":"def","usr":"s:1MA"}]]}
0 lease 1
0 put 9c498cadf2014879ffd80ce7f89feab86a2032e0b6b10d67628e078624a563f5 written
0 stage ba7816bf8f01cfea414140de5dae2223b00361a396177a9cb410ff61f20015ad ok
0 publish ba7816bf8f01cfea414140de5dae2223b00361a396177a9cb410ff61f20015ad synced
0 lease 1
0 put 9c498cadf2014879ffd80ce7f89feab86a2032e0b6b10d67628e078624a563f5 shared
0 stage a52d159f262b2c6ddb724a61840befc36eb30c88877a4030b65cbe86298449c9 ok
0 publish a52d159f262b2c6ddb724a61840befc36eb30c88877a4030b65cbe86298449c9 synced
0 scan ok 2
0 load 9c498cadf2014879ffd80ce7f89feab86a2032e0b6b10d67628e078624a563f5 ok
0 install 2
0 load 9c498cadf2014879ffd80ce7f89feab86a2032e0b6b10d67628e078624a563f5 ok
ask 0 0 at 2 rows 1
.
{"format":1,"lanes":[[{"do":"build","unit":{"output":"abc","main":"a.swift","module":"M","records":[{"path":"a.swift","symbols":[{"usr":"s:1MA","name":"A","kind":"Struct"}],"occurrences":[{"usr":"s:1MA","line":1,"col":8,"roles":["Definition"]}]}]}},{"do":"poll"},{"do":"build","unit":{"output":"abc","main":"a.swift","module":"M","records":[{"path":"a.swift","symbols":[{"usr":"s:1MA","name":"A","kind":"Struct"}],"occurrences":[{"usr":"s:1MA","line":2,"col":8,"roles":["Definition"]}]}]}},{"do":"poll"},{"do":"collect"},{"do":"collect"},{"do":"collect"}],[{"do":"refresh"},{"do":"ask","query":"def","usr":"s:1MA"},{"do":"release"}]],"order":[0,0,0,0,0,0,0,1,0,0,0,0,0,0,0,0,0,1,1,0]}
0 lease 1
0 put 9c498cadf2014879ffd80ce7f89feab86a2032e0b6b10d67628e078624a563f5 written
0 stage ba7816bf8f01cfea414140de5dae2223b00361a396177a9cb410ff61f20015ad ok
0 publish ba7816bf8f01cfea414140de5dae2223b00361a396177a9cb410ff61f20015ad synced
0 scan ok 1
0 load 9c498cadf2014879ffd80ce7f89feab86a2032e0b6b10d67628e078624a563f5 ok
0 install 1
1 adopt 1
0 lease 1
0 put 6293b642c0cc42567b0799ed1ad2451055030d137e450e6bb43eb17cbab89da8 written
0 stage ba7816bf8f01cfea414140de5dae2223b00361a396177a9cb410ff61f20015ad ok
0 publish ba7816bf8f01cfea414140de5dae2223b00361a396177a9cb410ff61f20015ad synced
0 scan ok 2
0 load 6293b642c0cc42567b0799ed1ad2451055030d137e450e6bb43eb17cbab89da8 ok
0 install 2
0 collect nothing
0 collect nothing
1 load 9c498cadf2014879ffd80ce7f89feab86a2032e0b6b10d67628e078624a563f5 ok
1 release
0 collect removed 9c498cadf2014879ffd80ce7f89feab86a2032e0b6b10d67628e078624a563f5
ask 1 0 at 1 rows 1
.
{"format":1,"lanes":[[{"do":"build","unit":{"output":"abc","main":"a.swift","module":"M","records":[{"path":"a.swift","symbols":[{"usr":"s:1MA","name":"A","kind":"Struct"}],"occurrences":[{"usr":"s:1MA","line":1,"col":8,"roles":["Definition"]}]}]}},{"do":"poll"}],[{"do":"build","unit":{"output":"abc","main":"a.swift","module":"M","records":[{"path":"a.swift","symbols":[{"usr":"s:1MA","name":"A","kind":"Struct"}],"occurrences":[{"usr":"s:1MA","line":2,"col":8,"roles":["Definition"]}]}]}},{"do":"collect"}]],"order":[0,0,0,0,0,1,1,1,1,1]}
0 lease 1
0 put 9c498cadf2014879ffd80ce7f89feab86a2032e0b6b10d67628e078624a563f5 written
0 stage ba7816bf8f01cfea414140de5dae2223b00361a396177a9cb410ff61f20015ad ok
0 publish ba7816bf8f01cfea414140de5dae2223b00361a396177a9cb410ff61f20015ad synced
0 scan ok 1
1 lease 1
1 put 6293b642c0cc42567b0799ed1ad2451055030d137e450e6bb43eb17cbab89da8 written
1 stage ba7816bf8f01cfea414140de5dae2223b00361a396177a9cb410ff61f20015ad ok
1 publish ba7816bf8f01cfea414140de5dae2223b00361a396177a9cb410ff61f20015ad synced
1 collect nothing
0 load 9c498cadf2014879ffd80ce7f89feab86a2032e0b6b10d67628e078624a563f5 ok
0 install 1
.
{"format":1,"lanes":[[{"do":"build","unit":{"output":"abc","main":"a.swift","module":"M","records":[{"path":"a.swift","symbols":[{"usr":"s:1MA","name":"A","kind":"Struct"}],"occurrences":[{"usr":"s:1MA","line":1,"col":8,"roles":["Definition"]}]}]}},{"do":"build","unit":{"output":"abd","main":"a.swift","module":"M","records":[{"path":"a.swift","symbols":[{"usr":"s:1MA","name":"A","kind":"Struct"}],"occurrences":[{"usr":"s:1MA","line":1,"col":8,"roles":["Definition"]}]}]}}]]}
0 lease 1
0 put 9c498cadf2014879ffd80ce7f89feab86a2032e0b6b10d67628e078624a563f5 written
0 stage ba7816bf8f01cfea414140de5dae2223b00361a396177a9cb410ff61f20015ad ok
0 publish ba7816bf8f01cfea414140de5dae2223b00361a396177a9cb410ff61f20015ad unsynced
0 lease 1
0 put 9c498cadf2014879ffd80ce7f89feab86a2032e0b6b10d67628e078624a563f5 shared
0 stage a52d159f262b2c6ddb724a61840befc36eb30c88877a4030b65cbe86298449c9 ok
0 publish a52d159f262b2c6ddb724a61840befc36eb30c88877a4030b65cbe86298449c9 synced
.
{"format":1,"lanes":[[{"do":"build","unit":{"output":"abc","main":"a.swift","module":"M","records":[{"path":"a.swift","symbols":[{"usr":"s:1MA","name":"A","kind":"Struct"}],"occurrences":[{"usr":"s:1MA","line":1,"col":8,"roles":["Definition"]}]}]}},{"do":"build","unit":{"output":"abc","main":"a.swift","module":"M","records":[{"path":"a.swift","symbols":[{"usr":"s:1MA","name":"A","kind":"Struct"}],"occurrences":[{"usr":"s:1MA","line":2,"col":8,"roles":["Definition"]}]}]}},{"do":"collect"},{"do":"collect"}]]}
0 lease 1
0 put 9c498cadf2014879ffd80ce7f89feab86a2032e0b6b10d67628e078624a563f5 written
0 stage ba7816bf8f01cfea414140de5dae2223b00361a396177a9cb410ff61f20015ad ok
0 publish ba7816bf8f01cfea414140de5dae2223b00361a396177a9cb410ff61f20015ad synced
0 lease 1
0 put 6293b642c0cc42567b0799ed1ad2451055030d137e450e6bb43eb17cbab89da8 written
0 stage ba7816bf8f01cfea414140de5dae2223b00361a396177a9cb410ff61f20015ad ok
0 publish ba7816bf8f01cfea414140de5dae2223b00361a396177a9cb410ff61f20015ad unsynced
0 collect fault
0 collect removed 9c498cadf2014879ffd80ce7f89feab86a2032e0b6b10d67628e078624a563f5
.
{"format":1,"lanes":[[{"do":"collect"},{"do":"build","unit":{"output":"abc","main":"a.swift","module":"M","records":[{"path":"a.swift","symbols":[{"usr":"s:1MA","name":"A","kind":"Struct"}],"occurrences":[{"usr":"s:1MA","line":1,"col":8,"roles":["Definition"]}]}]}},{"do":"collect"}]]}
0 collect nothing
0 lease 1
0 put 9c498cadf2014879ffd80ce7f89feab86a2032e0b6b10d67628e078624a563f5 written
0 stage ba7816bf8f01cfea414140de5dae2223b00361a396177a9cb410ff61f20015ad ok
0 publish ba7816bf8f01cfea414140de5dae2223b00361a396177a9cb410ff61f20015ad synced
0 collect nothing
.
{"format":1,"lanes":[[{"do":"remove","output":"abc"},{"do":"build","unit":{"output":"abc","main":"a.swift","module":"M","records":[{"path":"a.swift","symbols":[{"usr":"s:1MA","name":"A","kind":"Struct"}],"occurrences":[{"usr":"s:1MA","line":1,"col":8,"roles":["Definition"]}]}]}},{"do":"remove","output":"abc"},{"do":"remove","output":"abc"}]]}
0 remove ba7816bf8f01cfea414140de5dae2223b00361a396177a9cb410ff61f20015ad none
0 lease 1
0 put 9c498cadf2014879ffd80ce7f89feab86a2032e0b6b10d67628e078624a563f5 written
0 stage ba7816bf8f01cfea414140de5dae2223b00361a396177a9cb410ff61f20015ad ok
0 publish ba7816bf8f01cfea414140de5dae2223b00361a396177a9cb410ff61f20015ad synced
0 remove ba7816bf8f01cfea414140de5dae2223b00361a396177a9cb410ff61f20015ad synced
0 remove ba7816bf8f01cfea414140de5dae2223b00361a396177a9cb410ff61f20015ad none
.
{"format":1,"lanes":[[{"do":"build","unit":{"output":"/o/Shape.o","main":"Shape.swift","module":"App","records":[{"path":"Shape.swift","symbols":[{"usr":"s:3App5ShapeC","name":"Shape","kind":"Class"},{"usr":"s:3App5ShapeC4areaSiyF","name":"area()","kind":"InstanceMethod"}],"occurrences":[{"usr":"s:3App5ShapeC","line":1,"col":7,"roles":["Definition"]},{"usr":"s:3App5ShapeC4areaSiyF","line":2,"col":8,"roles":["Definition"],"relations":[{"usr":"s:3App5ShapeC","roles":["ChildOf"]}]}]}]}},{"do":"build","unit":{"output":"/o/Circle.o","main":"Circle.swift","module":"App","units":["/o/Shape.o"],"records":[{"path":"Circle.swift","symbols":[{"usr":"s:3App6CircleC","name":"Circle","kind":"Class"},{"usr":"s:3App6CircleC4areaSiyF","name":"area()","kind":"InstanceMethod"},{"usr":"s:3App5ShapeC","name":"Shape","kind":"Class"},{"usr":"s:3App5ShapeC4areaSiyF","name":"area()","kind":"InstanceMethod"},{"usr":"c:@F@clamp","name":"clamp","kind":"Function","lang":"C"}],"occurrences":[{"usr":"s:3App6CircleC","line":1,"col":7,"roles":["Definition"]},{"usr":"s:3App5ShapeC","line":1,"col":15,"roles":["Reference"],"relations":[{"usr":"s:3App6CircleC","roles":["BaseOf"]}]},{"usr":"s:3App6CircleC4areaSiyF","line":2,"col":17,"roles":["Definition"],"relations":[{"usr":"s:3App6CircleC","roles":["ChildOf"]},{"usr":"s:3App5ShapeC4areaSiyF","roles":["OverrideOf"]}]},{"usr":"c:@F@clamp","line":3,"col":12,"roles":["Reference","Call"],"relations":[{"usr":"s:3App6CircleC4areaSiyF","roles":["CalledBy","ContainedBy"]}]}]},{"path":"util.h","symbols":[{"usr":"c:@F@clamp","name":"clamp","kind":"Function","lang":"C"}],"occurrences":[{"usr":"c:@F@clamp","line":4,"col":5,"roles":["Declaration"]}]}]}},{"do":"build","unit":{"output":"/o/main.o","main":"main.swift","module":"App","units":["/o/Shape.o","/o/Circle.o"],"records":[{"path":"main.swift","symbols":[{"usr":"s:3App4mainyyF","name":"main()","kind":"Function"},{"usr":"s:3App6CircleC","name":"Circle","kind":"Class"},{"usr":"s:3App5ShapeC4areaSiyF","name":"area()","kind":"InstanceMethod"}],"occurrences":[{"usr":"s:3App4mainyyF","line":1,"col":6,"roles":["Definition"]},{"usr":"s:3App6CircleC","line":2,"col":13,"roles":["Reference"],"relations":[{"usr":"s:3App4mainyyF","roles":["ContainedBy"]}]},{"usr":"s:3App5ShapeC4areaSiyF","line":3,"col":9,"roles":["Reference","Call","Dynamic"],"relations":[{"usr":"s:3App4mainyyF","roles":["CalledBy","ContainedBy"]}]}]},{"path":"util.h","symbols":[{"usr":"c:@F@clamp","name":"clamp","kind":"Function","lang":"C"}],"occurrences":[{"usr":"c:@F@clamp","line":4,"col":5,"roles":["Declaration"]}]}]}},{"do":"poll"},{"do":"ask","query":"def","usr":"c:@F@clamp"},{"do":"ask","query":"refs","usr":"s:3App5ShapeC"},{"do":"ask","query":"overrides","usr":"s:3App5ShapeC4areaSiyF"},{"do":"ask","query":"callers","usr":"c:@F@clamp"},{"do":"ask","query":"supertypes","usr":"s:3App6CircleC","depth":2},{"do":"ask","query":"mains","path":"util.h"},{"do":"ask","query":"pattern","text":"area","start":true}]]}
0 lease 1
0 put 0c412e714c1fbf08572399e339ed2a8aade8cb278af01d2e1c5cc7edbdb59c23 written
0 stage a92ac48d182a00527673d478479363dca7305991e95af1c321379e041747f36e ok
0 publish a92ac48d182a00527673d478479363dca7305991e95af1c321379e041747f36e synced
0 lease 2
0 put a721c50737005466f43caae3b6ff03da9eb8eccba606d7aa9788d266499161aa written
0 put e47e00ec78d236682ad4fc22f280a883e4c2505f2e240856f241d33382e36fb0 written
0 stage c5f42e49feb077298f3631b383687ec35d78d9b3f8aba1ae6097b5a6803fee27 ok
0 publish c5f42e49feb077298f3631b383687ec35d78d9b3f8aba1ae6097b5a6803fee27 synced
0 lease 2
0 put 2a3b1dc9d0b2aeb7caa2b3fd199154dd9ea017849d646b3cba2f7aa43b532278 written
0 put a721c50737005466f43caae3b6ff03da9eb8eccba606d7aa9788d266499161aa shared
0 stage 3e7dc397fa49d0eda406c37d4165646da3dec450577282b3714d5f830a0d6591 ok
0 publish 3e7dc397fa49d0eda406c37d4165646da3dec450577282b3714d5f830a0d6591 synced
0 scan ok 3
0 load 0c412e714c1fbf08572399e339ed2a8aade8cb278af01d2e1c5cc7edbdb59c23 ok
0 load 2a3b1dc9d0b2aeb7caa2b3fd199154dd9ea017849d646b3cba2f7aa43b532278 ok
0 load a721c50737005466f43caae3b6ff03da9eb8eccba606d7aa9788d266499161aa ok
0 load e47e00ec78d236682ad4fc22f280a883e4c2505f2e240856f241d33382e36fb0 ok
0 install 3
0 load a721c50737005466f43caae3b6ff03da9eb8eccba606d7aa9788d266499161aa ok
0 load e47e00ec78d236682ad4fc22f280a883e4c2505f2e240856f241d33382e36fb0 ok
0 load 0c412e714c1fbf08572399e339ed2a8aade8cb278af01d2e1c5cc7edbdb59c23 ok
0 load 2a3b1dc9d0b2aeb7caa2b3fd199154dd9ea017849d646b3cba2f7aa43b532278 ok
ask 0 0 at 3 rows 1
ask 0 1 at 3 rows 1
ask 0 2 at 3 rows 1
ask 0 3 at 3 rows 1
ask 0 4 at 3 rows 1
ask 0 5 at 3 rows 2
ask 0 6 at 3 rows 2
.
{"format":1,"lanes":[[{"do":"build","unit":{"output":"abc","main":"a.swift","module":"M","records":[{"path":"a.swift","symbols":[{"usr":"s:1MA","name":"A","kind":"Struct"}],"occurrences":[{"usr":"s:1MA","line":1,"col":8,"roles":["Definition"]}]}]}},{"do":"poll"},{"do":"ask","query":"def","usr":"s:1MA"}]]}
0 lease 1
0 put 9c498cadf2014879ffd80ce7f89feab86a2032e0b6b10d67628e078624a563f5 written
0 stage ba7816bf8f01cfea414140de5dae2223b00361a396177a9cb410ff61f20015ad ok
0 publish ba7816bf8f01cfea414140de5dae2223b00361a396177a9cb410ff61f20015ad synced
0 scan ok 1
0 load 9c498cadf2014879ffd80ce7f89feab86a2032e0b6b10d67628e078624a563f5 ok
0 install 1
0 load 9c498cadf2014879ffd80ce7f89feab86a2032e0b6b10d67628e078624a563f5 ok
ask 0 0 at 1 rows 1
.
{"format":1,"lanes":[[{"do":"release"}],[{"do":"collect"}]],"order":[0,0,0,1]}
0 release
1 collect nothing
."#;

fn number(rt: &impl Abort, word: &str) -> u64 {
    word.parse().expect(rt, "a number")
}

fn word<'t>(rt: &impl Abort, words: &mut SplitWhitespace<'t>) -> &'t str {
    words.next().expect(rt, "a word")
}

/// How a call ended, by the last words of its line.
fn outcome(rt: &impl Abort, call: &str, last: &str) -> Outcome {
    match last {
        "written" => Outcome::Written,
        "shared" => Outcome::Shared,
        "clash" => Outcome::Clash,
        "synced" => Outcome::Synced,
        "unsynced" => Outcome::Unsynced,
        "none" => Outcome::NoUnit,
        "nothing" => Outcome::Nothing,
        "fault" => Outcome::Fault,
        "ok" => Outcome::Done,
        _ => if call == "scan" || call == "install" || call == "adopt" {
            Outcome::At {
                mark: number(rt, last),
            }
        } else {
            Outcome::Done
        },
    }
}

/// Whether a line is of the turn: the call's word, and what it is given.
fn is_of(rt: &impl Abort, turn: Turn<'_>, call: &str, given: &str) -> bool {
    match turn {
        Turn::Lease(names) => call == "lease" && number(rt, given) == names.as_slice().len() as u64,
        Turn::Put(body) => call == "put" && given.as_bytes() == body.name.bytes(),
        Turn::Stage(unit) => call == "stage"
            && given.as_bytes() == Sha.name(unit.output.bytes()).bytes(),
        Turn::Publish => call == "publish",
        Turn::Remove(output) => call == "remove"
            && given.as_bytes() == Sha.name(output.bytes()).bytes(),
        Turn::Scan => call == "scan",
        Turn::Import => call == "load" || call == "install",
        Turn::Adopt => call == "adopt",
        Turn::Release => call == "release",
        Turn::Collect => call == "collect",
        Turn::Ask(_) => call == "load",
    }
}

/// Answers the open ask; false where none is open.
fn answer(alloc: Global, lane: &mut Lane) -> bool {
    match lane.next() {
        Some(Turn::Ask(_)) => {}
        _ => return false,
    }
    if lane.held().is_none() {
        lane.answered(AskResult::NoneHeld);
    } else {
        lane.answered(AskResult::Rows(Seq::of(Vec::new(alloc))));
    }
    true
}

/// Answers the asks in front of a call that isn't of them.
fn answer_all(alloc: Global, lane: &mut Lane) {
    for _turn in 0..8 {
        if !answer(alloc, lane) {
            return;
        }
    }
}

/// A lane before its first call.
fn begin(alloc: Global, rt: &impl Abort, steps: &Seq<Step>) -> Lane
    requires { AllByRecursion IsStep steps.now }
{
    laws::steps_are_ready();
    Lane::new(alloc, steps, &Sha).expect(rt, "memory")
}

/// One line of a run: the call that its lane makes next.
fn follow(alloc: Global, rt: &impl Abort, lanes: &mut [Lane], line: &str) {
    let mut words = line.split_whitespace();
    let index = number(rt, word(rt, &mut words)) as usize;
    let call = word(rt, &mut words);
    let given = words.next().unwrap_or("");
    let last = words.last().unwrap_or(given);
    let lane = lanes.get_mut(index).expect(rt, "a lane");
    if call != "load" {
        answer_all(alloc, lane);
    }
    let turn = lane.next().expect(rt, "a call");
    assert!(rt; is_of(rt, turn, call, given));
    assert!(rt; lane.counts_on());
    lane.told(outcome(rt, call, last));
}

#[test]
fn lanes_make_the_calls_of_worked_runs(rt: HostRuntime) {
    let alloc = rt.alloc();
    let mut lanes = Vec::new(alloc);
    for line in RUNS.lines() {
        if line.starts_with("{") {
            let script = Script::read(alloc, line.as_bytes()).expect(&rt, "a script");
            for steps in script.lanes.as_slice() {
                lanes.push(begin(alloc, &rt, steps)).expect(&rt, "memory");
            }
        } else if line == "." {
            for lane in lanes.iter_mut() {
                answer_all(alloc, lane);
                assert!(rt; lane.next().is_none());
            }
            lanes.clear();
        } else if !line.starts_with("ask") {
            follow(alloc, &rt, &mut lanes, line);
        }
    }
}
