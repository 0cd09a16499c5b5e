//! Worked cases of the top call: words and bytes come in, bytes and a status come out, over directories in memory.
use crate::ending::Ending;
use crate::top_call::{Ended, plain};
use ix_dir::{Area, Dir, MemoryDir, Pick, Reads, ReadsFrom, UntoldDir};
use ix_io::{MemorySink, MemorySource};
use ix_types::{FileName, Seq};
use std::alloc::Global;
use std::process::Abort;

const SCRIPT_01: &str =
    r#"{"format":1,"lanes":[[{"do":"build","unit":{"output":"abc","main":"a.swift","module":"M","records":[{"path":"a.swift","symbols":[{"usr":"s:1MA","name":"A","kind":"Struct"}],"occurrences":[{"usr":"s:1MA","line":1,"col":8,"roles":["Definition"]}]}]}},{"do":"poll"},{"do":"refresh"},{"do":"ask","query":"def","usr":"s:1MA"}]]}"#;

const TEXT_01: &str = "\
0 lease 1
0 put 9c498cadf2014879ffd80ce7f89feab86a2032e0b6b10d67628e078624a563f5 written
0 stage ba7816bf8f01cfea414140de5dae2223b00361a396177a9cb410ff61f20015ad ok
0 publish ba7816bf8f01cfea414140de5dae2223b00361a396177a9cb410ff61f20015ad synced
0 scan ok 1
0 load 9c498cadf2014879ffd80ce7f89feab86a2032e0b6b10d67628e078624a563f5 ok
0 install 1
0 adopt 1
0 load 9c498cadf2014879ffd80ce7f89feab86a2032e0b6b10d67628e078624a563f5 ok
ask 0 0 at 1 rows 1
row\ta.swift\t1\t8\tDefinition\tStruct\tSwift\t-\ts:1MA\tA
end 9
";

/// The same, with the record's file gone after the poll, and with a byte less.
const TEXT_LOST: &str = "\
0 lease 1
0 put 9c498cadf2014879ffd80ce7f89feab86a2032e0b6b10d67628e078624a563f5 written
0 stage ba7816bf8f01cfea414140de5dae2223b00361a396177a9cb410ff61f20015ad ok
0 publish ba7816bf8f01cfea414140de5dae2223b00361a396177a9cb410ff61f20015ad synced
0 scan ok 1
0 load 9c498cadf2014879ffd80ce7f89feab86a2032e0b6b10d67628e078624a563f5 ok
0 install 1
0 adopt 1
0 load 9c498cadf2014879ffd80ce7f89feab86a2032e0b6b10d67628e078624a563f5 lost
ask 0 0 at 1 lost
end 9
";

const TEXT_DAMAGED: &str = "\
0 lease 1
0 put 9c498cadf2014879ffd80ce7f89feab86a2032e0b6b10d67628e078624a563f5 written
0 stage ba7816bf8f01cfea414140de5dae2223b00361a396177a9cb410ff61f20015ad ok
0 publish ba7816bf8f01cfea414140de5dae2223b00361a396177a9cb410ff61f20015ad synced
0 scan ok 1
0 load 9c498cadf2014879ffd80ce7f89feab86a2032e0b6b10d67628e078624a563f5 ok
0 install 1
0 adopt 1
0 load 9c498cadf2014879ffd80ce7f89feab86a2032e0b6b10d67628e078624a563f5 damaged
ask 0 0 at 1 damaged
end 9
";

const SCRIPT_02: &str = r#"{"format":1,"lanes":[]}"#;

const TEXT_02: &str = "\
end 0
";

const TEXT_SHORT: &str = "\
refused ba7816bf8f01cfea414140de5dae2223b00361a396177a9cb410ff61f20015ad short
end 0
";

const SCRIPT_09: &str =
    r#"{"format":1,"lanes":[[{"do":"build","unit":{"output":"abc","main":"a.swift","module":"M","records":[{"path":"a.swift","symbols":[{"usr":"s:1MA","name":"A","kind":"Struct"}],"occurrences":[{"usr":"s:1MA","line":1,"col":8,"roles":["Definition"]}]}]}},{"do":"build","unit":{"output":"abd","main":"a.swift","module":"M","records":[{"path":"a.swift","symbols":[{"usr":"s:1MA","name":"A","kind":"Struct"}],"occurrences":[{"usr":"s:1MA","line":1,"col":8,"roles":["Definition"]}]}]}}]]}"#;

const TEXT_09: &str = "\
0 lease 1
0 put 9c498cadf2014879ffd80ce7f89feab86a2032e0b6b10d67628e078624a563f5 written
0 stage ba7816bf8f01cfea414140de5dae2223b00361a396177a9cb410ff61f20015ad ok
0 publish ba7816bf8f01cfea414140de5dae2223b00361a396177a9cb410ff61f20015ad unsynced
0 lease 1
0 put 9c498cadf2014879ffd80ce7f89feab86a2032e0b6b10d67628e078624a563f5 shared
0 stage a52d159f262b2c6ddb724a61840befc36eb30c88877a4030b65cbe86298449c9 ok
0 publish a52d159f262b2c6ddb724a61840befc36eb30c88877a4030b65cbe86298449c9 synced
end 8
";

/// A build of output `abc` with two records.
const SCRIPT_11: &str =
    r#"{"format":1,"lanes":[[{"do":"build","unit":{"output":"abc","main":"a.swift","module":"M","records":[{"path":"a.swift","symbols":[{"usr":"s:1MA","name":"A","kind":"Struct"}],"occurrences":[{"usr":"s:1MA","line":1,"col":8,"roles":["Definition"]}]},{"path":"b.swift","symbols":[{"usr":"s:1MA","name":"A","kind":"Struct"}],"occurrences":[{"usr":"s:1MA","line":2,"col":8,"roles":["Definition"]}]}]}}]]}"#;

const CHECK_NONE: &str = "\
checked 0 0
";

const CHECK_ONE: &str = "\
unit ba7816bf8f01cfea414140de5dae2223b00361a396177a9cb410ff61f20015ad 1
checked 1 0
";

const CHECK_TWO: &str = "\
unit ba7816bf8f01cfea414140de5dae2223b00361a396177a9cb410ff61f20015ad 2
checked 1 0
";

const CHECK_SHORT: &str = "\
unit a52d159f262b2c6ddb724a61840befc36eb30c88877a4030b65cbe86298449c9 1
refused ba7816bf8f01cfea414140de5dae2223b00361a396177a9cb410ff61f20015ad short
checked 1 1
";

/// The unit file of output `abc` without its last byte, and that of output `abd`, each with the record.
const SHORT_UNIT: &str =
    "495855310000000361626300000007612e7377696674000000014d00000000000000010000000200000007612e73776966740000000000000040396334393863616466323031343837396666643830636537663839666561623836613230333265306236623130643637363238653037383632346135363366350000000089fb523845df90b5aff46262f8c7e3d88786957aa1cd72c9c9885240c9debc";

const OTHER_UNIT: &str =
    "495855310000000361626400000007612e7377696674000000014d00000000000000010000000200000007612e7377696674000000000000004039633439386361646632303134383739666664383063653766383966656162383661323033326530623662313064363736323865303738363234613536336635000000005cde4745e4bc7535c3e7b4496c498d92d9bea3e001b76dd3f4c397e1a0ba1a56";

const RECORD: &str =
    "495852310000000100000006000000640000000000000005733a314d410000000141000000010000000100000008000000000000000200000000";

const RECORD_NAME: &[u8] = b"9c498cadf2014879ffd80ce7f89feab86a2032e0b6b10d67628e078624a563f5";

const ABC: &[u8] = b"ba7816bf8f01cfea414140de5dae2223b00361a396177a9cb410ff61f20015ad";

const ABD: &[u8] = b"a52d159f262b2c6ddb724a61840befc36eb30c88877a4030b65cbe86298449c9";

/// The numbers as a list.
fn numbers(alloc: Global, rt: &impl Abort, numbers: &[u64]) -> Seq<u64> {
    let mut list = Vec::new(alloc);
    for number in numbers {
        list.push(*number).expect(rt, "memory");
    }
    Seq::of(list)
}

fn bytes(alloc: Global, rt: &impl Abort, text: &str) -> Seq<u8> {
    Seq::of(text.as_bytes().to_vec(alloc).expect(rt, "memory"))
}

/// The words of a text, parted by blanks.
fn words(alloc: Global, rt: &impl Abort, text: &str) -> Seq<Seq<u8>> {
    let mut all = Vec::new(alloc);
    for word in text.split_whitespace() {
        all.push(bytes(alloc, rt, word)).expect(rt, "memory");
    }
    Seq::of(all)
}

/// A directory in which the calls of these numbers fail.
fn failing(alloc: Global, rt: &impl Abort, calls: &[u64]) -> MemoryDir {
    MemoryDir::failing(alloc, numbers(alloc, rt, calls))
}

/// Places a file.
fn put(alloc: Global, rt: &impl Abort, dir: &mut MemoryDir, area: Area, name: &[u8], digits: &str) {
    let name = FileName::read(name).expect(rt, "a name");
    let bytes = hex::decode(alloc, digits.as_bytes()).expect(rt, "digits");
    dir.place(alloc, area, name, bytes.as_slice())
        .expect(rt, "memory");
}

/// Whether the call of these words, with this input, over this directory, ends with this status and text, whatever the pieces; and the directory behind it.
fn call<D: Dir>(
    alloc: Global,
    rt: &impl Abort,
    asked: &str,
    input: &str,
    dir: D,
    status: u8,
    text: &str,
) -> (bool, D) {
    let words = words(alloc, rt, asked);
    let mut source = MemorySource::new(bytes(alloc, rt, input), 100, Seq::of(Vec::new(alloc)));
    let mut sink = MemorySink::new(alloc, 10, Seq::of(Vec::new(alloc)));
    let Ended {
        status: found,
        dir,
        ..
    } = plain(alloc, &words, &mut source, &mut sink, dir);
    (found == status && sink.written() == text.as_bytes(), dir)
}

/// Whether a replay of the script over an empty directory ends with this status, text and transcript, where the reads, calls and writes of these numbers fail.
fn ends(
    alloc: Global,
    rt: &impl Abort,
    script: &str,
    reads: &[u64],
    calls: &[u64],
    writes: &[u64],
    status: u8,
    text: &str,
    ran: bool,
) -> bool {
    let words = words(alloc, rt, "replay");
    let mut source = MemorySource::new(bytes(alloc, rt, script), 100, numbers(alloc, rt, reads));
    let mut sink = MemorySink::new(alloc, 10, numbers(alloc, rt, writes));
    let ended = plain(
        alloc,
        &words,
        &mut source,
        &mut sink,
        failing(alloc, rt, calls),
    );
    ended.status == status && sink.written() == text.as_bytes() && ended.transcript.is_some() == ran
}

/// Whether these words have no form: nothing is read and nothing written.
fn unknown(alloc: Global, rt: &impl Abort, asked: &str) -> bool {
    let words = words(alloc, rt, asked);
    let mut source = MemorySource::new(bytes(alloc, rt, SCRIPT_02), 100, Seq::of(Vec::new(alloc)));
    let mut sink = MemorySink::new(alloc, 10, Seq::of(Vec::new(alloc)));
    let ended = plain(alloc, &words, &mut source, &mut sink, MemoryDir::new(alloc));
    ended.ending == Ending::BadWords
        && ended.status == 1
        && source.left() == SCRIPT_02.as_bytes()
        && sink.written().is_empty()
}

#[test]
fn replays_end_with_their_status_and_text(rt: HostRuntime) {
    let alloc = rt.alloc();
    assert!(rt; ends(alloc, &rt, SCRIPT_01, &[], &[], &[], 0, TEXT_01, true));
    assert!(rt; ends(alloc, &rt, SCRIPT_02, &[], &[], &[], 0, TEXT_02, true));
    assert!(rt; ends(alloc, &rt, "{}", &[], &[1], &[1], 2, "", false));
    assert!(rt; ends(alloc, &rt, SCRIPT_09, &[], &[10], &[], 3, TEXT_09, true));
    assert!(rt; ends(alloc, &rt, SCRIPT_01, &[2], &[1], &[1], 4, "", false));
    assert!(rt;
        ends(
            alloc,
            &rt,
            SCRIPT_01,
            &[],
            &[],
            &[2],
            5,
            "0 lease 1\n",
            true
        )
    );
    assert!(rt; ends(alloc, &rt, SCRIPT_01, &[], &[1], &[1], 8, "", false));
}

#[test]
fn other_words_read_nothing_and_write_nothing(rt: HostRuntime) {
    let alloc = rt.alloc();
    assert!(rt; unknown(alloc, &rt, ""));
    assert!(rt; unknown(alloc, &rt, "replay x"));
    assert!(rt; unknown(alloc, &rt, "live"));
    assert!(rt; unknown(alloc, &rt, "Check"));
    assert!(rt; unknown(alloc, &rt, "gen 0"));
    assert!(rt; unknown(alloc, &rt, "gen 01"));
    assert!(rt; unknown(alloc, &rt, "gen 1001"));
}

#[test]
fn a_check_tells_what_opening_would_find_and_changes_nothing(rt: HostRuntime) {
    let alloc = rt.alloc();
    let (empty, dir) = call(
        alloc,
        &rt,
        "check",
        "",
        MemoryDir::new(alloc),
        0,
        CHECK_NONE,
    );
    let (replayed, dir) = call(alloc, &rt, "replay", SCRIPT_01, dir, 0, TEXT_01);
    let (one, _) = call(alloc, &rt, "check", SCRIPT_01, dir, 0, CHECK_ONE);
    assert!(rt; empty && replayed && one);
    let (fails, _) = call(alloc, &rt, "check", "", failing(alloc, &rt, &[1]), 8, "");
    assert!(rt; fails);
}

#[test]
fn a_damaged_unit_file_is_told_and_then_taken_away(rt: HostRuntime) {
    let alloc = rt.alloc();
    let mut dir = MemoryDir::new(alloc);
    put(alloc, &rt, &mut dir, Area::Units, ABC, SHORT_UNIT);
    put(alloc, &rt, &mut dir, Area::Units, ABD, OTHER_UNIT);
    put(alloc, &rt, &mut dir, Area::Records, RECORD_NAME, RECORD);
    let (checked, dir) = call(alloc, &rt, "check", "", dir, 0, CHECK_SHORT);
    let (again, dir) = call(alloc, &rt, "check", "", dir, 0, CHECK_SHORT);
    let (opened, dir) = call(alloc, &rt, "replay", SCRIPT_02, dir, 0, TEXT_SHORT);
    let (then, _) = call(alloc, &rt, "replay", SCRIPT_02, dir, 0, TEXT_02);
    assert!(rt; checked && again && opened && then);
}

/// Whether an ask of whose loads the file is read so ends with this text and status 9.
fn misses(alloc: Global, rt: &impl Abort, reads: Reads, text: &str) -> bool {
    let mut changes = Vec::new(alloc);
    changes
        .push(ReadsFrom { read: 4, reads })
        .expect(rt, "memory");
    let mut dir = UntoldDir::new(MemoryDir::new(alloc), Reads::Whole);
    dir.set_changes(Seq::of(changes));
    let (ended, _) = call(alloc, rt, "replay", SCRIPT_01, dir, 9, text);
    ended
}

#[test]
fn a_file_that_is_lost_or_damaged_in_the_run_is_told(rt: HostRuntime) {
    let alloc = rt.alloc();
    assert!(rt; misses(alloc, &rt, Reads::Nothing, TEXT_LOST));
    assert!(rt; misses(alloc, &rt, Reads::ByteLess, TEXT_DAMAGED));
}

/// What a check finds of a build that is stopped after so many calls of the directory.
fn stopped(alloc: Global, rt: &impl Abort, after: u64, pick: Pick, text: &str) -> bool {
    let mut calls = Vec::new(alloc);
    for number in 1..=20u64 {
        calls
            .push(after.saturating_add(number))
            .expect(rt, "memory");
    }
    let words = words(alloc, rt, "replay");
    let mut source = MemorySource::new(bytes(alloc, rt, SCRIPT_11), 100, Seq::of(Vec::new(alloc)));
    let mut sink = MemorySink::new(alloc, 10, Seq::of(Vec::new(alloc)));
    let dir = MemoryDir::failing(alloc, Seq::of(calls));
    let ended = plain(alloc, &words, &mut source, &mut sink, dir);
    let image = ended.dir.stopped(alloc, pick).expect(rt, "memory");
    let (checked, _) = call(alloc, rt, "check", "", image, 0, text);
    checked
}

#[test]
fn a_stop_within_a_build_leaves_no_unit_or_the_whole_one(rt: HostRuntime) {
    let alloc = rt.alloc();
    for after in 0..12 {
        assert!(rt; stopped(alloc, &rt, after, Pick::Oldest, CHECK_NONE));
        assert!(rt; stopped(alloc, &rt, after, Pick::Newest, CHECK_NONE));
        assert!(rt; stopped(alloc, &rt, after, Pick::Nth(1), CHECK_NONE));
    }
    assert!(rt; stopped(alloc, &rt, 12, Pick::Oldest, CHECK_NONE));
    assert!(rt; stopped(alloc, &rt, 12, Pick::Newest, CHECK_TWO));
    assert!(rt; stopped(alloc, &rt, 13, Pick::Oldest, CHECK_TWO));
    assert!(rt; stopped(alloc, &rt, 13, Pick::Newest, CHECK_TWO));
}
