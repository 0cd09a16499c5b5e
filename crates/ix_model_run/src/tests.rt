//! Worked cases: the run in the order and with the flags that a row's transcript shows has that transcript, to the byte.
use super::*;
use ix_io::MemorySink;
use ix_machine::{Opened, Outcome, StoredUnit};
use ix_plan::Script;
use ix_record::Body;
use ix_replays::Transcript;
use ix_transcripts::write_transcript;
use ix_types::{FileName, Seq, Sha};
use std::alloc::Global;
use std::process::Abort;
use std::sync::Arc;

const SCRIPT_03: &str = r#"{"format":1,"lanes":[[{"do":"ask","query":"def","usr":"s:1MA"}]]}"#;

const TEXT_03: &str = "\
ask 0 0 none
end 0
";

const SCRIPT_06: &str =
    r#"{"format":1,"lanes":[[{"do":"build","unit":{"output":"abc","main":"a.swift","module":"M","records":[{"path":"a.swift","symbols":[{"usr":"s:1MA","name":"A","kind":"Struct"}],"occurrences":[{"usr":"s:1MA","line":1,"col":8,"roles":["Definition"]}]}]}}],[{"do":"collect"}]],"order":[0,0,1,0,0]}"#;

const TEXT_06: &str = "\
0 lease 1
0 put 9c498cadf2014879ffd80ce7f89feab86a2032e0b6b10d67628e078624a563f5 written
1 collect nothing
0 stage ba7816bf8f01cfea414140de5dae2223b00361a396177a9cb410ff61f20015ad ok
0 publish ba7816bf8f01cfea414140de5dae2223b00361a396177a9cb410ff61f20015ad synced
end 5
";

const SCRIPT_07: &str =
    r#"{"format":1,"lanes":[[{"do":"build","unit":{"output":"abc","main":"a.swift","module":"M","records":[{"path":"a.swift","symbols":[{"usr":"s:1MA","name":"A","kind":"Struct"}],"occurrences":[{"usr":"s:1MA","line":1,"col":8,"roles":["Definition"]}]}]}},{"do":"poll"},{"do":"build","unit":{"output":"abc","main":"a.swift","module":"M","records":[{"path":"a.swift","symbols":[{"usr":"s:1MA","name":"A","kind":"Struct"}],"occurrences":[{"usr":"s:1MA","line":2,"col":8,"roles":["Definition"]}]}]}},{"do":"poll"},{"do":"collect"},{"do":"collect"},{"do":"collect"}],[{"do":"refresh"},{"do":"ask","query":"def","usr":"s:1MA"},{"do":"release"}]],"order":[0,0,0,0,0,0,0,1,0,0,0,0,0,0,0,0,0,1,1,0]}"#;

const TEXT_07: &str = "\
0 lease 1
0 put 9c498cadf2014879ffd80ce7f89feab86a2032e0b6b10d67628e078624a563f5 written
0 stage ba7816bf8f01cfea414140de5dae2223b00361a396177a9cb410ff61f20015ad ok
0 publish ba7816bf8f01cfea414140de5dae2223b00361a396177a9cb410ff61f20015ad synced
0 scan ok 1
0 load 9c498cadf2014879ffd80ce7f89feab86a2032e0b6b10d67628e078624a563f5 ok
0 install 1
1 adopt 1
0 lease 1
0 put 6293b642c0cc42567b0799ed1ad2451055030d137e450e6bb43eb17cbab89da8 written
0 stage ba7816bf8f01cfea414140de5dae2223b00361a396177a9cb410ff61f20015ad ok
0 publish ba7816bf8f01cfea414140de5dae2223b00361a396177a9cb410ff61f20015ad synced
0 scan ok 2
0 load 6293b642c0cc42567b0799ed1ad2451055030d137e450e6bb43eb17cbab89da8 ok
0 install 2
0 collect nothing
0 collect nothing
1 load 9c498cadf2014879ffd80ce7f89feab86a2032e0b6b10d67628e078624a563f5 ok
1 release
0 collect removed 9c498cadf2014879ffd80ce7f89feab86a2032e0b6b10d67628e078624a563f5
ask 1 0 at 1 rows 1
row\ta.swift\t1\t8\tDefinition\tStruct\tSwift\t-\ts:1MA\tA
end 20
";

const SCRIPT_08: &str =
    r#"{"format":1,"lanes":[[{"do":"build","unit":{"output":"abc","main":"a.swift","module":"M","records":[{"path":"a.swift","symbols":[{"usr":"s:1MA","name":"A","kind":"Struct"}],"occurrences":[{"usr":"s:1MA","line":1,"col":8,"roles":["Definition"]}]}]}},{"do":"poll"}],[{"do":"build","unit":{"output":"abc","main":"a.swift","module":"M","records":[{"path":"a.swift","symbols":[{"usr":"s:1MA","name":"A","kind":"Struct"}],"occurrences":[{"usr":"s:1MA","line":2,"col":8,"roles":["Definition"]}]}]}},{"do":"collect"}]],"order":[0,0,0,0,0,1,1,1,1,1]}"#;

const TEXT_08: &str = "\
0 lease 1
0 put 9c498cadf2014879ffd80ce7f89feab86a2032e0b6b10d67628e078624a563f5 written
0 stage ba7816bf8f01cfea414140de5dae2223b00361a396177a9cb410ff61f20015ad ok
0 publish ba7816bf8f01cfea414140de5dae2223b00361a396177a9cb410ff61f20015ad synced
0 scan ok 1
1 lease 1
1 put 6293b642c0cc42567b0799ed1ad2451055030d137e450e6bb43eb17cbab89da8 written
1 stage ba7816bf8f01cfea414140de5dae2223b00361a396177a9cb410ff61f20015ad ok
1 publish ba7816bf8f01cfea414140de5dae2223b00361a396177a9cb410ff61f20015ad synced
1 collect nothing
0 load 9c498cadf2014879ffd80ce7f89feab86a2032e0b6b10d67628e078624a563f5 ok
0 install 1
end 12
";

const SCRIPT_09: &str =
    r#"{"format":1,"lanes":[[{"do":"build","unit":{"output":"abc","main":"a.swift","module":"M","records":[{"path":"a.swift","symbols":[{"usr":"s:1MA","name":"A","kind":"Struct"}],"occurrences":[{"usr":"s:1MA","line":1,"col":8,"roles":["Definition"]}]}]}},{"do":"build","unit":{"output":"abd","main":"a.swift","module":"M","records":[{"path":"a.swift","symbols":[{"usr":"s:1MA","name":"A","kind":"Struct"}],"occurrences":[{"usr":"s:1MA","line":1,"col":8,"roles":["Definition"]}]}]}}]]}"#;

const TEXT_09: &str = "\
0 lease 1
0 put 9c498cadf2014879ffd80ce7f89feab86a2032e0b6b10d67628e078624a563f5 written
0 stage ba7816bf8f01cfea414140de5dae2223b00361a396177a9cb410ff61f20015ad ok
0 publish ba7816bf8f01cfea414140de5dae2223b00361a396177a9cb410ff61f20015ad unsynced
0 lease 1
0 put 9c498cadf2014879ffd80ce7f89feab86a2032e0b6b10d67628e078624a563f5 shared
0 stage a52d159f262b2c6ddb724a61840befc36eb30c88877a4030b65cbe86298449c9 ok
0 publish a52d159f262b2c6ddb724a61840befc36eb30c88877a4030b65cbe86298449c9 synced
end 8
";

const SCRIPT_10: &str =
    r#"{"format":1,"lanes":[[{"do":"build","unit":{"output":"abc","main":"a.swift","module":"M","records":[{"path":"a.swift","symbols":[{"usr":"s:1MA","name":"A","kind":"Struct"}],"occurrences":[{"usr":"s:1MA","line":1,"col":8,"roles":["Definition"]}]}]}},{"do":"build","unit":{"output":"abc","main":"a.swift","module":"M","records":[{"path":"a.swift","symbols":[{"usr":"s:1MA","name":"A","kind":"Struct"}],"occurrences":[{"usr":"s:1MA","line":2,"col":8,"roles":["Definition"]}]}]}},{"do":"collect"},{"do":"collect"}]]}"#;

const TEXT_10: &str = "\
0 lease 1
0 put 9c498cadf2014879ffd80ce7f89feab86a2032e0b6b10d67628e078624a563f5 written
0 stage ba7816bf8f01cfea414140de5dae2223b00361a396177a9cb410ff61f20015ad ok
0 publish ba7816bf8f01cfea414140de5dae2223b00361a396177a9cb410ff61f20015ad synced
0 lease 1
0 put 6293b642c0cc42567b0799ed1ad2451055030d137e450e6bb43eb17cbab89da8 written
0 stage ba7816bf8f01cfea414140de5dae2223b00361a396177a9cb410ff61f20015ad ok
0 publish ba7816bf8f01cfea414140de5dae2223b00361a396177a9cb410ff61f20015ad unsynced
0 collect fault
0 collect removed 9c498cadf2014879ffd80ce7f89feab86a2032e0b6b10d67628e078624a563f5
end 10
";

const SCRIPT_13: &str =
    r#"{"format":1,"lanes":[[{"do":"remove","output":"abc"},{"do":"build","unit":{"output":"abc","main":"a.swift","module":"M","records":[{"path":"a.swift","symbols":[{"usr":"s:1MA","name":"A","kind":"Struct"}],"occurrences":[{"usr":"s:1MA","line":1,"col":8,"roles":["Definition"]}]}]}},{"do":"remove","output":"abc"},{"do":"remove","output":"abc"}]]}"#;

const TEXT_13: &str = "\
0 remove ba7816bf8f01cfea414140de5dae2223b00361a396177a9cb410ff61f20015ad none
0 lease 1
0 put 9c498cadf2014879ffd80ce7f89feab86a2032e0b6b10d67628e078624a563f5 written
0 stage ba7816bf8f01cfea414140de5dae2223b00361a396177a9cb410ff61f20015ad ok
0 publish ba7816bf8f01cfea414140de5dae2223b00361a396177a9cb410ff61f20015ad synced
0 remove ba7816bf8f01cfea414140de5dae2223b00361a396177a9cb410ff61f20015ad synced
0 remove ba7816bf8f01cfea414140de5dae2223b00361a396177a9cb410ff61f20015ad none
end 7
";

const SCRIPT_19: &str =
    r#"{"format":1,"lanes":[[{"do":"build","unit":{"output":"x","records":[{"path":"r.swift","symbols":[{"usr":"s:f","kind":"Function"},{"usr":"s:g","kind":"Function"}],"occurrences":[{"usr":"s:f","line":1,"col":6,"roles":["Definition"]},{"usr":"s:g","line":2,"col":3,"roles":["Reference","Call"],"relations":[{"usr":"s:f","roles":["CalledBy"]}]},{"usr":"s:f","line":3,"col":3,"roles":["Reference","Call"],"relations":[{"usr":"s:f","roles":["CalledBy"]}]},{"usr":"s:g","line":5,"col":6,"roles":["Definition"]},{"usr":"s:f","line":6,"col":3,"roles":["Reference","Call"],"relations":[{"usr":"s:g","roles":["CalledBy"]}]}]}]}},{"do":"poll"},{"do":"ask","query":"incoming","usr":"s:f","depth":16}]]}"#;

const TEXT_19: &str = "\
0 lease 1
0 put 995cf588c574b759d069e1cca5a22e644e0f5b3d10abdb3ca1b696c80a7258bf written
0 stage 2d711642b726b04401627ca9fbac32f5c8530fb1903cc4db02258717921a4881 ok
0 publish 2d711642b726b04401627ca9fbac32f5c8530fb1903cc4db02258717921a4881 synced
0 scan ok 1
0 load 995cf588c574b759d069e1cca5a22e644e0f5b3d10abdb3ca1b696c80a7258bf ok
0 install 1
0 load 995cf588c574b759d069e1cca5a22e644e0f5b3d10abdb3ca1b696c80a7258bf ok
ask 0 0 at 1 rows 3
edge\t1\ts:f\ts:f\tr.swift\t3\t3
edge\t1\ts:f\ts:g\tr.swift\t6\t3
edge\t2\ts:g\ts:f\tr.swift\t2\t3
end 8
";

/// A poll and an ask over a store in which the unit of output `abc` and its record were found.
const SCRIPT_FOUND: &str =
    r#"{"format":1,"lanes":[[{"do":"poll"},{"do":"ask","query":"def","usr":"s:1MA"}]]}"#;

const TEXT_FOUND: &str = "\
0 scan ok 1
0 load 9c498cadf2014879ffd80ce7f89feab86a2032e0b6b10d67628e078624a563f5 ok
0 install 1
0 load 9c498cadf2014879ffd80ce7f89feab86a2032e0b6b10d67628e078624a563f5 ok
ask 0 0 at 1 rows 1
row\ta.swift\t1\t8\tDefinition\tStruct\tSwift\t-\ts:1MA\tA
end 4
";

/// A load of that record that finds it damaged: the import is closed, and nothing is held.
const TEXT_DAMAGED: &str = "\
0 scan ok 1
0 load 9c498cadf2014879ffd80ce7f89feab86a2032e0b6b10d67628e078624a563f5 damaged
ask 0 0 none
end 2
";

/// The record and the unit as bytes, and their names.
const RECORD: &str =
    "495852310000000100000006000000640000000000000005733a314d410000000141000000010000000100000008000000000000000200000000";

const UNIT: &str =
    "495855310000000361626300000007612e7377696674000000014d00000000000000010000000200000007612e73776966740000000000000040396334393863616466323031343837396666643830636537663839666561623836613230333265306236623130643637363238653037383632346135363366350000000089fb523845df90b5aff46262f8c7e3d88786957aa1cd72c9c9885240c9debcc3";

const RECORD_NAME: &[u8] = b"9c498cadf2014879ffd80ce7f89feab86a2032e0b6b10d67628e078624a563f5";

const UNIT_NAME: &[u8] = b"ba7816bf8f01cfea414140de5dae2223b00361a396177a9cb410ff61f20015ad";

/// Turns: lanes in order, and a flag for each.
struct Turns {
    order: Vec<u32>,
    flags: Vec<Outcome>,
}

/// The flag that a line of a transcript shows.
fn flag_of(rt: &impl Abort, line: &str) -> Outcome {
    if line.ends_with(" fault") {
        return Outcome::Fault;
    }
    if line.ends_with(" unsynced") {
        return Outcome::Unsynced;
    }
    if line.ends_with(" damaged") {
        let name = FileName::read(RECORD_NAME).expect(rt, "a name");
        return Outcome::Damaged { name };
    }
    Outcome::Done
}

/// The turns that a transcript shows: its lines before the answers.
fn turns_of(alloc: Global, rt: &impl Abort, text: &str) -> Turns {
    let mut turns = Turns {
        order: Vec::new(alloc),
        flags: Vec::new(alloc),
    };
    for line in text.lines() {
        if line.starts_with("0 ") || line.starts_with("1 ") {
            let lane = if line.starts_with("0 ") { 0 } else { 1 };
            turns.order.push(lane).expect(rt, "memory");
            turns.flags.push(flag_of(rt, line)).expect(rt, "memory");
        }
    }
    turns
}

/// A store in which nothing was found.
fn empty(alloc: Global) -> Opened {
    Opened {
        units: Seq::of(Vec::new(alloc)),
        refused: Seq::of(Vec::new(alloc)),
        records: Seq::of(Vec::new(alloc)),
    }
}

/// A store in which the unit and its record were found.
fn one_unit(alloc: Global, rt: &impl Abort) -> Opened {
    let bytes = hex::decode(alloc, RECORD.as_bytes()).expect(rt, "digits");
    let value = ix_record::decode(alloc, bytes.as_slice()).expect(rt, "a record");
    let value = Arc::new(alloc, value).expect(rt, "memory");
    let file = hex::decode(alloc, UNIT.as_bytes()).expect(rt, "digits");
    let unit = ix_unit::decode(alloc, file.as_slice()).expect(rt, "a unit");
    let stored = StoredUnit {
        name: FileName::read(UNIT_NAME).expect(rt, "a name"),
        unit: Arc::new(alloc, unit).expect(rt, "memory"),
        values: Seq::of(Vec::from_array(alloc, [value]).expect(rt, "memory")),
    };
    let body = Body {
        name: FileName::read(RECORD_NAME).expect(rt, "a name"),
        bytes: Seq::of(bytes),
    };
    Opened {
        units: Seq::of(Vec::from_array(alloc, [stored]).expect(rt, "memory")),
        refused: Seq::of(Vec::new(alloc)),
        records: Seq::of(Vec::from_array(alloc, [body]).expect(rt, "memory")),
    }
}

/// What the script's run shows with these turns.
fn shown(
    alloc: Global,
    rt: &impl Abort,
    opened: &Opened,
    script: &str,
    turns: Turns,
) -> Option<Transcript> {
    let script = Script::read(alloc, script.as_bytes()).expect(rt, "a script");
    let Turns { order, flags } = turns;
    model_run(
        alloc,
        &script,
        opened,
        &Sha,
        &Seq::of(order),
        &Seq::of(flags),
    )
    .expect(rt, "memory")
}

/// Whether the run with the turns of the text has that text.
fn shows(alloc: Global, rt: &impl Abort, opened: &Opened, script: &str, text: &str) -> bool {
    let transcript = shown(alloc, rt, opened, script, turns_of(alloc, rt, text));
    let transcript = transcript.expect(rt, "a run");
    let mut sink = MemorySink::new(alloc, 4_096, Seq::of(Vec::new(alloc)));
    write_transcript(alloc, &transcript, &mut sink).is_ok() && sink.written() == text.as_bytes()
}

/// Whether the script has no run with these turns.
fn has_none(
    alloc: Global,
    rt: &impl Abort,
    script: &str,
    order: &[u32],
    flags: &[Outcome],
) -> bool {
    let turns = Turns {
        order: Vec::from_slice(alloc, order).expect(rt, "memory"),
        flags: Vec::from_slice(alloc, flags).expect(rt, "memory"),
    };
    shown(alloc, rt, &empty(alloc), script, turns).is_none()
}

#[test]
fn rows_have_their_transcripts(rt: HostRuntime) {
    let alloc = rt.alloc();
    let empty = empty(alloc);
    assert!(rt; shows(alloc, &rt, &empty, SCRIPT_03, TEXT_03));
    assert!(rt; shows(alloc, &rt, &empty, SCRIPT_06, TEXT_06));
    assert!(rt; shows(alloc, &rt, &empty, SCRIPT_07, TEXT_07));
    assert!(rt; shows(alloc, &rt, &empty, SCRIPT_08, TEXT_08));
    assert!(rt; shows(alloc, &rt, &empty, SCRIPT_09, TEXT_09));
    assert!(rt; shows(alloc, &rt, &empty, SCRIPT_10, TEXT_10));
    assert!(rt; shows(alloc, &rt, &empty, SCRIPT_13, TEXT_13));
    assert!(rt; shows(alloc, &rt, &empty, SCRIPT_19, TEXT_19));
}

#[test]
fn a_run_begins_with_what_was_found(rt: HostRuntime) {
    let alloc = rt.alloc();
    let opened = one_unit(alloc, &rt);
    assert!(rt; shows(alloc, &rt, &opened, SCRIPT_FOUND, TEXT_FOUND));
    assert!(rt; shows(alloc, &rt, &opened, SCRIPT_FOUND, TEXT_DAMAGED));
}

/// A refresh, and an ask that needs no record.
const REFRESH: &str =
    r#"{"format":1,"lanes":[[{"do":"refresh"},{"do":"ask","query":"units","path":"a"}]]}"#;

#[test]
fn other_orders_and_flags_have_no_run(rt: HostRuntime) {
    let alloc = rt.alloc();
    // A call is left; a flag more than turns, and one fewer; a lane that has ended, and one that isn't there; a flag that the call doesn't allow.
    assert!(rt; has_none(alloc, &rt, REFRESH, &[], &[]));
    assert!(rt; has_none(alloc, &rt, REFRESH, &[0], &[Outcome::Done, Outcome::Done]));
    assert!(rt; has_none(alloc, &rt, REFRESH, &[0], &[]));
    assert!(rt;
        has_none(
            alloc,
            &rt,
            REFRESH,
            &[0, 0],
            &[Outcome::Done, Outcome::Done]
        )
    );
    assert!(rt; has_none(alloc, &rt, REFRESH, &[1], &[Outcome::Done]));
    assert!(rt; has_none(alloc, &rt, REFRESH, &[0], &[Outcome::Fault]));
}
