//! What a crash leaves, which calls fail, and what each kind of directory answers. A test ends where a call goes wrong.
use super::*;
use ix_types::{FileName, Seq};
use std::alloc::Global;
use std::process::Abort;

fn named(rt: &impl Abort, digits: &str) -> FileName {
    FileName::read(digits.as_bytes()).expect(rt, "a name")
}

/// Puts the bytes at the name, or takes the name away where they are `-`.
fn change<D: Dir>(
    alloc: Global,
    rt: &impl Abort,
    dir: &mut D,
    area: Area,
    name: FileName,
    bytes: &str,
) {
    dir.reserve(alloc, 1).expect(rt, "room");
    if bytes == "-" {
        return dir.remove(area, name).expect(rt, "a removal");
    }
    dir.stage(alloc, 0, bytes.as_bytes()).expect(rt, "a slot");
    dir.rename(0, area, name).expect(rt, "a rename");
}

fn sync<D: Dir>(alloc: Global, rt: &impl Abort, dir: &mut D, area: Area) {
    dir.reserve(alloc, 1).expect(rt, "room");
    dir.sync(area).expect(rt, "a sync");
}

/// Steps, and after `?` a pick with what a crash then leaves of units and records. A step is an area, a name and its new bytes, or
/// `-` for a removal; an area alone, for a sync; or `place`, a name and bytes, for a unit that is placed.
const CRASHES: &str = "\
new
u ab x
u ab y
? oldest | |
? 1 | ab=x |
? 4 | ab=x |
? newest | ab=y |
u
? oldest | ab=y |
? 1 | ab=y |
? 4 | ab=y |
? newest | ab=y |
new
place ab p
u ab x
u ab x
u ab -
u ab -
? 0 | ab=p |
? 2 | ab=x |
? 3 | |
? 4 | ab=p |
new
u ab 1
u cd 2
u 99 9
u 99 -
u 77 0
r 0b s
u
r
u ab 3
u ab 4
u cd -
u cd -
u 11 -
u ef 5
u 0a 6
u 0a -
u 77 8
r 0b -
r ab r
r ab r
place 77 7
? oldest | 77=7 ab=1 cd=2 | 0b=s
? newest | 77=7 ab=4 ef=5 | ab=r
? 0 | 77=7 ab=4 | 0b=s ab=r
? 1 | 0a=6 77=7 ab=1 cd=2 ef=5 | ab=r
? 2 | 77=7 ab=3 | 0b=s
? 3 | 77=7 ab=4 cd=2 ef=5 | ab=r
u
? oldest | 77=7 ab=4 ef=5 | 0b=s
r
? oldest | 77=7 ab=4 ef=5 | ab=r
? 1 | 77=7 ab=4 ef=5 | ab=r";

fn pick_of(rt: &impl Abort, word: &str) -> Pick {
    match word {
        "oldest" => Pick::Oldest,
        "newest" => Pick::Newest,
        _ => Pick::Nth(word.parse().expect(rt, "a number")),
    }
}

/// Checks that a listed file is the wanted one, as `ab=1`.
fn check_file<D: Dir>(
    alloc: Global,
    rt: &impl Abort,
    dir: &mut D,
    area: Area,
    name: FileName,
    want: &str,
) {
    let (digits, bytes) = want.split_once('=').expect(rt, "a file");
    assert_eq!(rt; name.bytes(), digits.as_bytes());
    let found = dir.read(alloc, area, name).expect(rt, "a read");
    let found = found.expect(rt, "a file");
    assert_eq!(rt; found.as_slice(), bytes.as_bytes());
}

/// Checks that these files stand in an area, in this order, and no others.
fn check_area<D: Dir>(alloc: Global, rt: &impl Abort, dir: &mut D, area: Area, want: &str) {
    let listed = dir.list(alloc, area).expect(rt, "a list");
    let mut words = want.split_whitespace();
    for one in listed.as_slice() {
        let word = words.next().expect(rt, want);
        check_file(alloc, rt, dir, area, one.name, word);
    }
    assert!(rt; words.next().is_none(), "{want}");
}

fn check_left(alloc: Global, rt: &impl Abort, dir: &MemoryDir, line: &str) {
    let (pick, files) = line.split_once('|').expect(rt, "a pick");
    let (units, records) = files.split_once('|').expect(rt, "two areas");
    let pick = pick_of(rt, pick.trim());
    let mut left = dir.stopped(alloc, pick).expect(rt, "what is left");
    check_area(alloc, rt, &mut left, Area::Units, units);
    check_area(alloc, rt, &mut left, Area::Records, records);
}

fn take_step(alloc: Global, rt: &impl Abort, dir: &mut MemoryDir, line: &str) {
    let mut words = line.split(' ');
    let first = words.next().expect(rt, "a word");
    let area = if first == "r" {
        Area::Records
    } else {
        Area::Units
    };
    let Some(name) = words.next() else {
        return sync(alloc, rt, dir, area);
    };
    let name = named(rt, name);
    let bytes = words.next().expect(rt, "bytes");
    if first == "place" {
        let placed = dir.place(alloc, area, name, bytes.as_bytes());
        return placed.expect(rt, "a file");
    }
    change(alloc, rt, dir, area, name, bytes);
}

#[test]
fn a_crash_leaves_each_name_one_of_its_values(rt: HostRuntime) {
    let alloc = rt.alloc();
    let mut dir = MemoryDir::new(alloc);
    for line in CRASHES.lines() {
        if line == "new" {
            dir = MemoryDir::new(alloc);
        } else if let Some(want) = line.strip_prefix("? ") {
            check_left(alloc, &rt, &dir, want);
        } else {
            take_step(alloc, &rt, &mut dir, line);
        }
    }
}

/// Whether a list or, in between, a sync succeeds.
fn succeeds(alloc: Global, rt: &impl Abort, dir: &mut MemoryDir, call: &str) -> bool {
    if call == "list" {
        return dir.list(alloc, Area::Units).is_ok();
    }
    dir.reserve(alloc, 1).expect(rt, "room");
    dir.sync(Area::Records).is_ok()
}

#[test]
fn calls_fail_by_their_numbers(rt: HostRuntime) {
    let alloc = rt.alloc();
    let fails = vec![in alloc; 4, 2].expect(&rt, "two numbers");
    let mut dir = MemoryDir::failing(alloc, Seq::of(fails));
    for line in "list ok,list fails,sync ok,sync fails,sync ok".split(',') {
        let (call, want) = line.split_once(' ').expect(&rt, "two words");
        let succeeded = succeeds(alloc, &rt, &mut dir, call);
        assert!(rt; succeeded == (want == "ok"), "{line}");
    }
}

/// Each call once, through the bound.
fn each_call<D: Dir>(alloc: Global, rt: &impl Abort, dir: &mut D) {
    let ab = named(rt, "ab");
    let cd = named(rt, "cd");
    change(alloc, rt, dir, Area::Records, cd, "c");
    change(alloc, rt, dir, Area::Records, ab, "a");
    sync(alloc, rt, dir, Area::Records);
    let listed = dir.list(alloc, Area::Records).expect(rt, "a list");
    let want = [Listed { name: ab, stamp: 1 }, Listed { name: cd, stamp: 0 }];
    assert!(rt; listed.as_slice() == want.as_slice());
    change(alloc, rt, dir, Area::Records, ab, "-");
    check_area(alloc, rt, dir, Area::Records, "cd=c");
    check_area(alloc, rt, dir, Area::Units, "");
}

#[test]
fn each_directory_answers_each_call(rt: HostRuntime) {
    let alloc = rt.alloc();
    each_call(alloc, &rt, &mut MemoryDir::new(alloc));
    each_call(alloc, &rt, &mut SteadyDir::new(alloc));
    let inner = MemoryDir::new(alloc);
    each_call(alloc, &rt, &mut UntoldDir::new(inner, Reads::Whole));
}

#[test]
fn a_steady_directory_is_placed_in_and_stopped(rt: HostRuntime) {
    let alloc = rt.alloc();
    let mut steady = SteadyDir::new(alloc);
    let placed = steady.place(alloc, Area::Records, named(&rt, "ab"), b"a");
    placed.expect(&rt, "a file");
    let left = steady.stopped(alloc, Pick::Oldest);
    let mut left = left.expect(&rt, "what is left");
    check_area(alloc, &rt, &mut left, Area::Records, "ab=a");
}

/// What a read of the name answers, `-` where it finds nothing.
fn check_read(alloc: Global, rt: &impl Abort, dir: &mut UntoldDir, want: &str) {
    let found = dir.read(alloc, Area::Records, named(rt, "ab"));
    match found.expect(rt, "a read") {
        Some(bytes) => assert_eq!(rt; bytes.as_slice(), want.as_bytes()),
        None => assert_eq!(rt; want, "-"),
    }
}

#[test]
fn reads_go_wrong_as_they_are_told_to(rt: HostRuntime) {
    let alloc = rt.alloc();
    let mut dir = UntoldDir::new(MemoryDir::new(alloc), Reads::ByteLess);
    change(alloc, &rt, &mut dir, Area::Records, named(&rt, "ab"), "xyz");
    check_read(alloc, &rt, &mut dir, "xy");
    dir.set_reads(Reads::Nothing);
    check_read(alloc, &rt, &mut dir, "-");
    dir.set_reads(Reads::Whole);
    check_read(alloc, &rt, &mut dir, "xyz");
    dir.set_changes(Seq::of(changes(alloc, &rt)));
    for want in ["xyz", "-", "-", "xy"] {
        check_read(alloc, &rt, &mut dir, want);
    }
}

/// The fifth and the sixth read find nothing, and those from the seventh on a byte less.
fn changes(alloc: Global, rt: &impl Abort) -> Vec<ReadsFrom> {
    let nothing = ReadsFrom {
        read: 5,
        reads: Reads::Nothing,
    };
    let less = ReadsFrom {
        read: 7,
        reads: Reads::ByteLess,
    };
    Vec::from_slice(alloc, &[nothing, less]).expect(rt, "two changes")
}

#[test]
fn errors_have_texts(rt: HostRuntime) {
    let alloc = rt.alloc();
    for (error, want) in [(DirError::Failed, "failed"), (DirError::Memory, "memory")] {
        let text = format!(in alloc; "{error}").expect(&rt, "a text");
        assert_eq!(rt; text.as_str(), want);
    }
}
