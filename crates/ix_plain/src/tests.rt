//! Rows as whole bytes: a script comes in, a text and a status come out.
use super::*;
use ix_dir::MemoryDir;
use ix_io::MemorySink;
use ix_types::Seq;
use std::alloc::Global;
use std::process::Abort;

const SCRIPT_01: &str =
    r#"{"format":1,"lanes":[[{"do":"build","unit":{"output":"abc","main":"a.swift","module":"M","records":[{"path":"a.swift","symbols":[{"usr":"s:1MA","name":"A","kind":"Struct"}],"occurrences":[{"usr":"s:1MA","line":1,"col":8,"roles":["Definition"]}]}]}},{"do":"poll"},{"do":"refresh"},{"do":"ask","query":"def","usr":"s:1MA"}]]}"#;

const TEXT_01: &str = "\
0 lease 1
0 put 9c498cadf2014879ffd80ce7f89feab86a2032e0b6b10d67628e078624a563f5 written
0 stage ba7816bf8f01cfea414140de5dae2223b00361a396177a9cb410ff61f20015ad ok
0 publish ba7816bf8f01cfea414140de5dae2223b00361a396177a9cb410ff61f20015ad synced
0 scan ok 1
0 load 9c498cadf2014879ffd80ce7f89feab86a2032e0b6b10d67628e078624a563f5 ok
0 install 1
0 adopt 1
0 load 9c498cadf2014879ffd80ce7f89feab86a2032e0b6b10d67628e078624a563f5 ok
ask 0 0 at 1 rows 1
row\ta.swift\t1\t8\tDefinition\tStruct\tSwift\t-\ts:1MA\tA
end 9
";

const SCRIPT_02: &str = r#"{"format":1,"lanes":[]}"#;

const TEXT_02: &str = "\
end 0
";

const SCRIPT_09: &str =
    r#"{"format":1,"lanes":[[{"do":"build","unit":{"output":"abc","main":"a.swift","module":"M","records":[{"path":"a.swift","symbols":[{"usr":"s:1MA","name":"A","kind":"Struct"}],"occurrences":[{"usr":"s:1MA","line":1,"col":8,"roles":["Definition"]}]}]}},{"do":"build","unit":{"output":"abd","main":"a.swift","module":"M","records":[{"path":"a.swift","symbols":[{"usr":"s:1MA","name":"A","kind":"Struct"}],"occurrences":[{"usr":"s:1MA","line":1,"col":8,"roles":["Definition"]}]}]}}]]}"#;

const TEXT_09: &str = "\
0 lease 1
0 put 9c498cadf2014879ffd80ce7f89feab86a2032e0b6b10d67628e078624a563f5 written
0 stage ba7816bf8f01cfea414140de5dae2223b00361a396177a9cb410ff61f20015ad ok
0 publish ba7816bf8f01cfea414140de5dae2223b00361a396177a9cb410ff61f20015ad unsynced
0 lease 1
0 put 9c498cadf2014879ffd80ce7f89feab86a2032e0b6b10d67628e078624a563f5 shared
0 stage a52d159f262b2c6ddb724a61840befc36eb30c88877a4030b65cbe86298449c9 ok
0 publish a52d159f262b2c6ddb724a61840befc36eb30c88877a4030b65cbe86298449c9 synced
end 8
";

const SCRIPT_10: &str =
    r#"{"format":1,"lanes":[[{"do":"build","unit":{"output":"abc","main":"a.swift","module":"M","records":[{"path":"a.swift","symbols":[{"usr":"s:1MA","name":"A","kind":"Struct"}],"occurrences":[{"usr":"s:1MA","line":1,"col":8,"roles":["Definition"]}]}]}},{"do":"build","unit":{"output":"abc","main":"a.swift","module":"M","records":[{"path":"a.swift","symbols":[{"usr":"s:1MA","name":"A","kind":"Struct"}],"occurrences":[{"usr":"s:1MA","line":2,"col":8,"roles":["Definition"]}]}]}},{"do":"collect"},{"do":"collect"}]]}"#;

const TEXT_10: &str = "\
0 lease 1
0 put 9c498cadf2014879ffd80ce7f89feab86a2032e0b6b10d67628e078624a563f5 written
0 stage ba7816bf8f01cfea414140de5dae2223b00361a396177a9cb410ff61f20015ad ok
0 publish ba7816bf8f01cfea414140de5dae2223b00361a396177a9cb410ff61f20015ad synced
0 lease 1
0 put 6293b642c0cc42567b0799ed1ad2451055030d137e450e6bb43eb17cbab89da8 written
0 stage ba7816bf8f01cfea414140de5dae2223b00361a396177a9cb410ff61f20015ad ok
0 publish ba7816bf8f01cfea414140de5dae2223b00361a396177a9cb410ff61f20015ad unsynced
0 collect fault
0 collect removed 9c498cadf2014879ffd80ce7f89feab86a2032e0b6b10d67628e078624a563f5
end 10
";

const SCRIPT_12: &str =
    r#"{"format":1,"lanes":[[{"do":"collect"},{"do":"build","unit":{"output":"abc","main":"a.swift","module":"M","records":[{"path":"a.swift","symbols":[{"usr":"s:1MA","name":"A","kind":"Struct"}],"occurrences":[{"usr":"s:1MA","line":1,"col":8,"roles":["Definition"]}]}]}},{"do":"collect"}]]}"#;

const TEXT_12: &str = "\
0 collect nothing
0 lease 1
0 put 9c498cadf2014879ffd80ce7f89feab86a2032e0b6b10d67628e078624a563f5 written
0 stage ba7816bf8f01cfea414140de5dae2223b00361a396177a9cb410ff61f20015ad ok
0 publish ba7816bf8f01cfea414140de5dae2223b00361a396177a9cb410ff61f20015ad synced
0 collect nothing
end 6
";

const SCRIPT_13: &str =
    r#"{"format":1,"lanes":[[{"do":"remove","output":"abc"},{"do":"build","unit":{"output":"abc","main":"a.swift","module":"M","records":[{"path":"a.swift","symbols":[{"usr":"s:1MA","name":"A","kind":"Struct"}],"occurrences":[{"usr":"s:1MA","line":1,"col":8,"roles":["Definition"]}]}]}},{"do":"remove","output":"abc"},{"do":"remove","output":"abc"}]]}"#;

const TEXT_13: &str = "\
0 remove ba7816bf8f01cfea414140de5dae2223b00361a396177a9cb410ff61f20015ad none
0 lease 1
0 put 9c498cadf2014879ffd80ce7f89feab86a2032e0b6b10d67628e078624a563f5 written
0 stage ba7816bf8f01cfea414140de5dae2223b00361a396177a9cb410ff61f20015ad ok
0 publish ba7816bf8f01cfea414140de5dae2223b00361a396177a9cb410ff61f20015ad synced
0 remove ba7816bf8f01cfea414140de5dae2223b00361a396177a9cb410ff61f20015ad synced
0 remove ba7816bf8f01cfea414140de5dae2223b00361a396177a9cb410ff61f20015ad none
end 7
";

/// The numbers as a list.
fn numbers(alloc: Global, rt: &impl Abort, numbers: &[u64]) -> Seq<u64> {
    let mut list = Vec::new(alloc);
    for number in numbers {
        list.push(*number).expect(rt, "memory");
    }
    Seq::of(list)
}

/// Whether the bytes, over an empty directory of which the calls of these numbers fail and into a sink of which the writes of these numbers fail, end with this status, text and transcript.
fn ends(
    alloc: Global,
    rt: &impl Abort,
    script: &str,
    calls: &[u64],
    writes: &[u64],
    status: u8,
    text: &str,
    ran: bool,
) -> bool {
    let dir = MemoryDir::failing(alloc, numbers(alloc, rt, calls));
    let mut sink = MemorySink::new(alloc, 4_096, numbers(alloc, rt, writes));
    let ended = replay_bytes(alloc, script.as_bytes(), &mut sink, dir);
    ended.status == status && sink.written() == text.as_bytes() && ended.transcript.is_some() == ran
}

#[test]
fn scripts_end_with_their_texts(rt: HostRuntime) {
    let alloc = rt.alloc();
    assert!(rt; ends(alloc, &rt, SCRIPT_01, &[], &[], 0, TEXT_01, true));
    assert!(rt; ends(alloc, &rt, SCRIPT_02, &[], &[], 0, TEXT_02, true));
    assert!(rt; ends(alloc, &rt, SCRIPT_12, &[], &[], 0, TEXT_12, true));
    assert!(rt; ends(alloc, &rt, SCRIPT_13, &[], &[], 0, TEXT_13, true));
}

#[test]
fn a_run_with_failing_calls_is_written_whole(rt: HostRuntime) {
    let alloc = rt.alloc();
    assert!(rt; ends(alloc, &rt, SCRIPT_09, &[10], &[], 3, TEXT_09, true));
    assert!(rt; ends(alloc, &rt, SCRIPT_10, &[17, 18], &[], 3, TEXT_10, true));
}

#[test]
fn what_stands_in_the_way_of_a_text_is_told(rt: HostRuntime) {
    let alloc = rt.alloc();
    assert!(rt; ends(alloc, &rt, SCRIPT_01, &[1], &[], 8, "", false));
    assert!(rt; ends(alloc, &rt, SCRIPT_01, &[], &[1], 5, "", true));
    assert!(rt; ends(alloc, &rt, "", &[], &[], 2, "", false));
    assert!(rt;
        ends(
            alloc,
            &rt,
            r#"{"format":3,"lanes":[]}"#,
            &[],
            &[],
            2,
            "",
            false
        )
    );
    assert!(rt; ends(alloc, &rt, r#"{"format":1}"#, &[1], &[1], 2, "", false));
}

#[test]
fn a_script_has_at_most_16777216_bytes(rt: HostRuntime) {
    assert!(rt; MAX_INPUT == 16_777_216);
}
