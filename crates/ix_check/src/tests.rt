//! Worked checks, to the byte.
use super::*;
use ix_dir::{Area, MemoryDir, Reads, UntoldDir};
use ix_io::MemorySink;
use ix_types::{FileName, Seq};
use std::alloc::Global;
use std::process::Abort;

/// The file of a unit of output `abc` with one record, and that of output `abd`.
const UNIT: &str =
    "495855310000000361626300000007612e7377696674000000014d00000000000000010000000200000007612e73776966740000000000000040396334393863616466323031343837396666643830636537663839666561623836613230333265306236623130643637363238653037383632346135363366350000000089fb523845df90b5aff46262f8c7e3d88786957aa1cd72c9c9885240c9debcc3";

const OTHER_UNIT: &str =
    "495855310000000361626400000007612e7377696674000000014d00000000000000010000000200000007612e7377696674000000000000004039633439386361646632303134383739666664383063653766383966656162383661323033326530623662313064363736323865303738363234613536336635000000005cde4745e4bc7535c3e7b4496c498d92d9bea3e001b76dd3f4c397e1a0ba1a56";

/// The file of output `abc` without its last byte.
const SHORT_UNIT: &str =
    "495855310000000361626300000007612e7377696674000000014d00000000000000010000000200000007612e73776966740000000000000040396334393863616466323031343837396666643830636537663839666561623836613230333265306236623130643637363238653037383632346135363366350000000089fb523845df90b5aff46262f8c7e3d88786957aa1cd72c9c9885240c9debc";

/// The record of both.
const RECORD: &str =
    "495852310000000100000006000000640000000000000005733a314d410000000141000000010000000100000008000000000000000200000000";

/// The names of the record, and of the outputs `abc` and `abd`.
const RECORD_NAME: &[u8] = b"9c498cadf2014879ffd80ce7f89feab86a2032e0b6b10d67628e078624a563f5";

const ABC: &[u8] = b"ba7816bf8f01cfea414140de5dae2223b00361a396177a9cb410ff61f20015ad";

const ABD: &[u8] = b"a52d159f262b2c6ddb724a61840befc36eb30c88877a4030b65cbe86298449c9";

const TEXT_EMPTY: &str = "checked 0 0\n";

const TEXT_ONE: &str = "\
unit ba7816bf8f01cfea414140de5dae2223b00361a396177a9cb410ff61f20015ad 1
checked 1 0
";

const TEXT_TWO: &str = "\
unit a52d159f262b2c6ddb724a61840befc36eb30c88877a4030b65cbe86298449c9 1
unit ba7816bf8f01cfea414140de5dae2223b00361a396177a9cb410ff61f20015ad 1
checked 2 0
";

const TEXT_SHORT: &str = "\
unit a52d159f262b2c6ddb724a61840befc36eb30c88877a4030b65cbe86298449c9 1
refused ba7816bf8f01cfea414140de5dae2223b00361a396177a9cb410ff61f20015ad short
checked 1 1
";

const TEXT_MISSING: &str = "\
refused ba7816bf8f01cfea414140de5dae2223b00361a396177a9cb410ff61f20015ad record-missing 9c498cadf2014879ffd80ce7f89feab86a2032e0b6b10d67628e078624a563f5
checked 0 1
";

/// One number.
fn only(alloc: Global, rt: &impl Abort, number: u64) -> Seq<u64> {
    Seq::of(Vec::from_slice(alloc, &[number]).expect(rt, "memory"))
}

/// Places a file, where there are digits of one.
fn put(alloc: Global, rt: &impl Abort, dir: &mut MemoryDir, area: Area, name: &[u8], digits: &str) {
    if digits.is_empty() {
        return;
    }
    let name = FileName::read(name).expect(rt, "a name");
    let bytes = hex::decode(alloc, digits.as_bytes()).expect(rt, "digits");
    dir.place(alloc, area, name, bytes.as_slice())
        .expect(rt, "memory");
}

/// A directory with these files of both units and of their record, in which no call fails.
fn stored(alloc: Global, rt: &impl Abort, abc: &str, abd: &str, record: &str) -> MemoryDir {
    let mut dir = MemoryDir::new(alloc);
    put(alloc, rt, &mut dir, Area::Units, ABC, abc);
    put(alloc, rt, &mut dir, Area::Units, ABD, abd);
    put(alloc, rt, &mut dir, Area::Records, RECORD_NAME, record);
    dir
}

/// Whether a check of the directory writes this text.
fn writes(alloc: Global, dir: &mut MemoryDir, text: &str) -> bool {
    let mut sink = MemorySink::new(alloc, 4_096, Seq::of(Vec::new(alloc)));
    check(alloc, dir, &mut sink) == Ending::Done && sink.written() == text.as_bytes()
}

/// Whether a check of these files writes this text, and one more check the same.
fn checks(alloc: Global, rt: &impl Abort, abc: &str, abd: &str, record: &str, text: &str) -> bool {
    let mut dir = stored(alloc, rt, abc, abd, record);
    writes(alloc, &mut dir, text) && writes(alloc, &mut dir, text)
}

#[test]
fn stores_have_their_texts(rt: HostRuntime) {
    let alloc = rt.alloc();
    assert!(rt; checks(alloc, &rt, "", "", "", TEXT_EMPTY));
    assert!(rt; checks(alloc, &rt, UNIT, "", RECORD, TEXT_ONE));
    assert!(rt; checks(alloc, &rt, UNIT, OTHER_UNIT, RECORD, TEXT_TWO));
}

#[test]
fn refused_files_are_told_and_stay(rt: HostRuntime) {
    let alloc = rt.alloc();
    assert!(rt; checks(alloc, &rt, SHORT_UNIT, OTHER_UNIT, RECORD, TEXT_SHORT));
    assert!(rt; checks(alloc, &rt, UNIT, "", "", TEXT_MISSING));
}

#[test]
fn a_directory_that_tells_nothing_is_checked(rt: HostRuntime) {
    let alloc = rt.alloc();
    let inner = stored(alloc, &rt, UNIT, "", RECORD);
    let mut dir = UntoldDir::new(inner, Reads::Whole);
    let mut sink = MemorySink::new(alloc, 4_096, Seq::of(Vec::new(alloc)));
    assert!(rt; check(alloc, &mut dir, &mut sink) == Ending::Done);
    assert!(rt; sink.written() == TEXT_ONE.as_bytes());
}

#[test]
fn a_failed_call_of_the_directory_writes_nothing(rt: HostRuntime) {
    let alloc = rt.alloc();
    let mut dir = MemoryDir::failing(alloc, only(alloc, &rt, 1));
    let mut sink = MemorySink::new(alloc, 4_096, Seq::of(Vec::new(alloc)));
    let ending = check(alloc, &mut dir, &mut sink);
    assert!(rt; ending == Ending::OpenFault && ending.status() == 8);
    assert!(rt; sink.written().is_empty());
    assert!(rt; writes(alloc, &mut dir, TEXT_EMPTY));
}

#[test]
fn a_failed_write_leaves_a_front(rt: HostRuntime) {
    let alloc = rt.alloc();
    let mut sink = MemorySink::new(alloc, 10, only(alloc, &rt, 2));
    let ending = check(alloc, &mut MemoryDir::new(alloc), &mut sink);
    assert!(rt; ending == Ending::WriteFault && ending.status() == 5);
    assert!(rt; sink.written() == b"checked 0 ".as_slice());
}
