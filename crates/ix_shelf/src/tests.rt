//! What puts and loads answer, and how many calls of the directory each takes.
ghost use Rattle.ix_types.specs.Name.{sha_name};
ghost use Rattle.ix_record.specs.Whole.{IsWhole};

use super::*;
use ix_dir::{Area, Dir, MemoryDir, Pick, Reads, SteadyDir, UntoldDir};
use ix_record::{Body, decode, encode};
use ix_types::{Failed, FileName, Naming, Seq, Sha};
use std::alloc::Global;
use std::process::Abort;

/// A record of one symbol with one occurrence, in line 1.
const RECORD: [u8; 58] = [
    73, 88, 82, 49, 0, 0, 0, 1, 0, 0, 0, 6, 0, 0, 0, 100, 0, 0, 0, 0, 0, 0, 0, 5, 115, 58, 49, 77,
    65, 0, 0, 0, 1, 65, 0, 0, 0, 1, 0, 0, 0, 1, 0, 0, 0, 8, 0, 0, 0, 0, 0, 0, 0, 2, 0, 0, 0, 0,
];

/// The name of that record.
const NAME: &[u8] = b"9c498cadf2014879ffd80ce7f89feab86a2032e0b6b10d67628e078624a563f5";

fn name(rt: &impl Abort) -> FileName {
    FileName::read(NAME).expect(rt, "a name")
}

/// The record with its occurrence in this line.
fn record_in(alloc: Global, rt: &impl Abort, line: u8) -> Vec<u8> {
    let mut bytes = Vec::from_slice(alloc, &RECORD).expect(rt, "memory");
    if let Some(place) = bytes.get_mut(41) {
        *place = line;
    }
    bytes
}

/// The record with its occurrence in line 1, and its name.
fn body(alloc: Global, rt: &impl Abort) -> Body
    ensures { IsWhole sha_name result }
{
    let bytes = record_in(alloc, rt, 1);
    assert!(rt; decode(alloc, &bytes).is_ok());
    Body {
        name: Sha.name(&bytes),
        bytes: Seq::of(bytes),
    }
}

/// What a put of the record answers.
fn put<D: Dir>(
    alloc: Global,
    rt: &impl Abort,
    shelf: &mut Shelf,
    dir: &mut D,
    protected: bool,
) -> &'static str {
    dir.reserve(alloc, 1).expect(rt, "room");
    let body = body(alloc, rt);
    match shelf.put(alloc, dir, 0, &body, protected) {
        Ok(Put::Written) => "written",
        Ok(Put::Shared) => "shared",
        Err(error) => put_error(error, name(rt)),
    }
}

/// A clash that doesn't carry this name is another error.
fn put_error(error: PutError, name: FileName) -> &'static str {
    if error == PutError::Fault {
        return "fault";
    }
    if error == (PutError::Clash { name }) {
        return "clash";
    }
    "another error"
}

/// What a load answers behind a put of the record.
fn load<D: Dir>(alloc: Global, rt: &impl Abort, shelf: &mut Shelf, dir: &mut D) -> &'static str {
    laws::put_record_stands_whole();
    dir.reserve(alloc, 1).expect(rt, "room");
    let body = body(alloc, rt);
    assert!(rt; shelf.put(alloc, dir, 0, &body, true) == Ok(Put::Written));
    let value = shelf
        .load(alloc, dir, &Sha, body.name)
        .expect(rt, "a record");
    let bytes = encode(alloc, &value).expect(rt, "bytes");
    assert_eq!(rt; bytes.as_slice(), RECORD.as_slice());
    "loaded"
}

fn settle<D: Dir>(alloc: Global, rt: &impl Abort, shelf: &mut Shelf, dir: &mut D) -> &'static str {
    dir.reserve(alloc, 1).expect(rt, "room");
    done(shelf.settle(dir))
}

fn remove<D: Dir>(alloc: Global, rt: &impl Abort, shelf: &mut Shelf, dir: &mut D) -> &'static str {
    dir.reserve(alloc, 1).expect(rt, "room");
    done(shelf.remove(dir, name(rt)))
}

fn done(answer: Result<(), Failed>) -> &'static str {
    match answer {
        Ok(()) => "done",
        Err(Failed) => "fault",
    }
}

/// How many files an area has.
fn list<D: Dir>(alloc: Global, dir: &mut D, area: Area) -> &'static str {
    match dir.list(alloc, area) {
        Ok(listed) => {
            if listed.as_slice().is_empty() {
                "none"
            } else {
                "some"
            }
        }
        Err(_) => "fault",
    }
}

/// The line of the record that stands under the name.
fn line<D: Dir>(alloc: Global, rt: &impl Abort, dir: &mut D) -> &'static str {
    let found = dir
        .read(alloc, Area::Records, name(rt))
        .expect(rt, "a read");
    let Some(bytes) = found else {
        return "none";
    };
    if bytes.as_slice() == record_in(alloc, rt, 1).as_slice() {
        return "1";
    }
    if bytes.as_slice() == record_in(alloc, rt, 2).as_slice() {
        return "2";
    }
    "other bytes"
}

/// What a call answers. A `keep` is a put of a protected name, and a `next` a call of which it is asked alone whether it fails.
fn answer<D: Dir>(
    alloc: Global,
    rt: &impl Abort,
    shelf: &mut Shelf,
    dir: &mut D,
    call: &str,
) -> &'static str {
    match call {
        "put" => put(alloc, rt, shelf, dir, false),
        "keep" => put(alloc, rt, shelf, dir, true),
        "load" => load(alloc, rt, shelf, dir),
        "settle" => settle(alloc, rt, shelf, dir),
        "remove" => remove(alloc, rt, shelf, dir),
        "line" => line(alloc, rt, dir),
        "records" => list(alloc, dir, Area::Records),
        _ => list(alloc, dir, Area::Units),
    }
}

/// Makes the calls, each of which has what it is to answer behind it.
fn check_calls<D: Dir>(
    alloc: Global,
    rt: &impl Abort,
    shelf: &mut Shelf,
    dir: &mut D,
    calls: &str,
) {
    for call in calls.split(' ') {
        let (name, want) = call.split_once('=').expect(rt, "an answer");
        assert_eq!(rt;
            answer(alloc, rt, shelf, dir, name),
            want,
            "{call} in {calls}"
        );
    }
}

/// Makes the calls over a directory in memory whose calls of these numbers fail. The record stands there in this line at first, 0 for none.
fn check_run(alloc: Global, rt: &impl Abort, line: u8, fails: &[u64], calls: &str) {
    let fails = Vec::from_slice(alloc, fails).expect(rt, "memory");
    let mut dir = MemoryDir::failing(alloc, Seq::of(fails));
    if line > 0 {
        let bytes = record_in(alloc, rt, line);
        let placed = dir.place(alloc, Area::Records, name(rt), &bytes);
        placed.expect(rt, "memory");
    }
    check_calls(alloc, rt, &mut Shelf::new(), &mut dir, calls);
}

/// The ninth call is the one sync.
#[test]
fn a_put_that_failed_is_put_again(rt: HostRuntime) {
    let calls =
        "keep=fault records=none keep=written keep=shared settle=done settle=done units=fault";
    check_run(rt.alloc(), &rt, 0, &[3, 10], calls);
}

#[test]
fn a_put_calls_by_what_stands(rt: HostRuntime) {
    let alloc = rt.alloc();
    check_run(alloc, &rt, 0, &[4], "put=written units=fault line=1");
    check_run(alloc, &rt, 0, &[4], "keep=written units=fault line=1");
    check_run(alloc, &rt, 1, &[2], "put=shared units=fault line=1");
    check_run(alloc, &rt, 1, &[2], "keep=shared units=fault line=1");
    check_run(alloc, &rt, 2, &[4], "put=written units=fault line=1");
    check_run(alloc, &rt, 2, &[2], "keep=clash units=fault line=2");
}

#[test]
fn a_fault_of_a_put_leaves_the_areas(rt: HostRuntime) {
    let alloc = rt.alloc();
    for number in 1..4 {
        let calls = "put=fault line=2 records=some units=none";
        check_run(alloc, &rt, 2, &[number], calls);
    }
}

/// A settle of a new shelf is no call.
#[test]
fn a_load_a_settle_and_a_removal_are_one_call(rt: HostRuntime) {
    let alloc = rt.alloc();
    check_run(alloc, &rt, 0, &[5], "load=loaded units=fault");
    check_run(alloc, &rt, 0, &[5], "put=written settle=done units=fault");
    let removed = "put=written remove=done units=fault line=none";
    check_run(alloc, &rt, 0, &[5], removed);
    check_run(alloc, &rt, 0, &[1], "settle=done units=fault");
}

/// Each call once.
const EACH: &str = "load=loaded settle=done put=shared remove=done line=none";

#[test]
fn each_directory_is_a_shelf(rt: HostRuntime) {
    let alloc = rt.alloc();
    let inner = MemoryDir::new(alloc);
    check_calls(
        alloc,
        &rt,
        &mut Shelf::new(),
        &mut UntoldDir::new(inner, Reads::Whole),
        EACH,
    );
    check_calls(
        alloc,
        &rt,
        &mut Shelf::new(),
        &mut SteadyDir::new(alloc),
        EACH,
    );
}

/// Checks which record a crash leaves under the name, where it takes the oldest values.
fn check_left(alloc: Global, rt: &impl Abort, dir: &MemoryDir, want: &str) {
    let mut left = dir.stopped(alloc, Pick::Oldest).expect(rt, "memory");
    assert_eq!(rt; line(alloc, rt, &mut left), want);
}

#[test]
fn a_settled_record_stays_after_a_crash(rt: HostRuntime) {
    let alloc = rt.alloc();
    let mut dir = MemoryDir::new(alloc);
    let mut shelf = Shelf::new();
    check_calls(alloc, &rt, &mut shelf, &mut dir, "keep=written");
    check_left(alloc, &rt, &dir, "none");
    check_calls(alloc, &rt, &mut shelf, &mut dir, "settle=done");
    check_left(alloc, &rt, &dir, "1");
}

/// Why these bytes under the name aren't read, over a directory that doesn't tell its moves.
fn refusal(
    alloc: Global,
    rt: &impl Abort,
    name: FileName,
    bytes: &[u8],
    reads: Reads,
) -> &'static str {
    let mut inner = MemoryDir::new(alloc);
    inner
        .place(alloc, Area::Records, name, bytes)
        .expect(rt, "memory");
    let mut dir = UntoldDir::new(inner, reads);
    match Shelf::new().load(alloc, &mut dir, &Sha, name) {
        Ok(_) => "a record",
        Err(error) => load_error(error, name),
    }
}

/// An error that doesn't carry this name is another one.
fn load_error(error: LoadError, name: FileName) -> &'static str {
    if error == (LoadError::Lost { name }) {
        return "lost";
    }
    if error == (LoadError::Damaged { name }) {
        return "damaged";
    }
    "another error"
}

#[test]
fn a_record_is_lost_or_damaged(rt: HostRuntime) {
    let alloc = rt.alloc();
    let other = record_in(alloc, &rt, 2);
    let record = name(&rt);
    assert_eq!(rt;
        refusal(alloc, &rt, record, &RECORD, Reads::Nothing),
        "lost"
    );
    assert_eq!(rt;
        refusal(alloc, &rt, record, &RECORD, Reads::ByteLess),
        "damaged"
    );
    assert_eq!(rt;
        refusal(alloc, &rt, record, &other, Reads::Whole),
        "damaged"
    );
    let none = Sha.name(b"xyz");
    assert_eq!(rt; refusal(alloc, &rt, none, b"xyz", Reads::Whole), "damaged");
}

#[test]
fn errors_have_texts(rt: HostRuntime) {
    let name = FileName::read(b"ab").expect(&rt, "a name");
    let [fault, memory] = [PutError::Fault, PutError::Memory];
    let clash = PutError::Clash { name };
    let puts = format!(in rt.alloc(); "{fault}, {clash}, {memory}").expect(&rt, "memory");
    assert_eq!(rt;
        puts.as_str(),
        "the directory failed, other bytes stand under the protected name \"ab\", memory"
    );
    let [fault, memory] = [LoadError::Fault, LoadError::Memory];
    let [lost, damaged] = [LoadError::Lost { name }, LoadError::Damaged { name }];
    let loads = format!(in rt.alloc(); "{fault}, {lost}, {damaged}, {memory}");
    assert_eq!(rt;
        loads.expect(&rt, "memory").as_str(),
        "the directory failed, no record file \"ab\", the record file \"ab\" isn't what its name says, memory"
    );
}
