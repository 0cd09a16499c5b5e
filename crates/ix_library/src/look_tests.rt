//! Scans, loads and installs over a directory that doesn't tell its moves.
use super::*;
use ix_cabinet::ScanError;
use ix_dir::{Area, MemoryDir, Reads, ReadsFrom, UntoldDir};
use ix_machine::{Outcome, Purpose};
use ix_shelf::LoadError;
use ix_types::{FileName, Seq, Sha};
use std::alloc::Global;
use std::process::Abort;

/// A record of one symbol with one occurrence.
const RECORD: [u8; 58] = [
    73, 88, 82, 49, 0, 0, 0, 1, 0, 0, 0, 6, 0, 0, 0, 100, 0, 0, 0, 0, 0, 0, 0, 5, 115, 58, 49, 77,
    65, 0, 0, 0, 1, 65, 0, 0, 0, 1, 0, 0, 0, 1, 0, 0, 0, 8, 0, 0, 0, 0, 0, 0, 0, 2, 0, 0, 0, 0,
];

/// The file of a unit of output `abc` that lists this record.
const UNIT: [u8; 158] = [
    73, 88, 85, 49, 0, 0, 0, 3, 97, 98, 99, 0, 0, 0, 7, 97, 46, 115, 119, 105, 102, 116, 0, 0, 0,
    1, 77, 0, 0, 0, 0, 0, 0, 0, 1, 0, 0, 0, 2, 0, 0, 0, 7, 97, 46, 115, 119, 105, 102, 116, 0, 0,
    0, 0, 0, 0, 0, 64, 57, 99, 52, 57, 56, 99, 97, 100, 102, 50, 48, 49, 52, 56, 55, 57, 102, 102,
    100, 56, 48, 99, 101, 55, 102, 56, 57, 102, 101, 97, 98, 56, 54, 97, 50, 48, 51, 50, 101, 48,
    98, 54, 98, 49, 48, 100, 54, 55, 54, 50, 56, 101, 48, 55, 56, 54, 50, 52, 97, 53, 54, 51, 102,
    53, 0, 0, 0, 0, 137, 251, 82, 56, 69, 223, 144, 181, 175, 244, 98, 98, 248, 199, 227, 216, 135,
    134, 149, 122, 161, 205, 114, 201, 201, 136, 82, 64, 201, 222, 188, 195,
];

fn unit_name(rt: &impl Abort) -> FileName {
    FileName::read(b"ba7816bf8f01cfea414140de5dae2223b00361a396177a9cb410ff61f20015ad").expect(
        rt, "a name",
    )
}

fn record_name(rt: &impl Abort) -> FileName {
    FileName::read(b"9c498cadf2014879ffd80ce7f89feab86a2032e0b6b10d67628e078624a563f5").expect(
        rt, "a name",
    )
}

/// The unit and its record stand there. The first read gives nothing, the next ones all, and those from a number on answer in this way. The calls of these
/// numbers fail.
fn standing(alloc: Global, rt: &impl Abort, fails: &[u64], read: u64, reads: Reads) -> UntoldDir {
    let fails = Vec::from_slice(alloc, fails).expect(rt, "memory");
    let mut inner = MemoryDir::failing(alloc, Seq::of(fails));
    let unit = inner.place(alloc, Area::Units, unit_name(rt), &UNIT);
    unit.expect(rt, "memory");
    let record = inner.place(alloc, Area::Records, record_name(rt), &RECORD);
    record.expect(rt, "memory");
    let mut changes = Vec::new(alloc);
    changes
        .push(ReadsFrom {
            read: 2,
            reads: Reads::Whole,
        })
        .expect(rt, "memory");
    changes.push(ReadsFrom { read, reads }).expect(rt, "memory");
    let mut dir = UntoldDir::new(inner, Reads::Nothing);
    dir.set_changes(Seq::of(changes));
    dir
}

/// A store that was opened over them with one lane. Its first read, of the unit file, gives nothing, so no unit is published. These are the numbers of
/// the calls that fail, and from the read of a number on reads answer in this way.
fn opened(
    alloc: Global,
    rt: &impl Abort,
    fails: &[u64],
    read: u64,
    reads: Reads,
) -> Library<UntoldDir, Sha> {
    let dir = standing(alloc, rt, fails, read, reads);
    match open_store(alloc, dir, Sha, 1) {
        Ok(
            Started {
                library,
                refused: _,
            },
        ) => library,
        Err(_) => panic!(rt; "a store"),
    }
}

/// The scan finds the unit, which nobody published, and its record is new.
fn check_scan(alloc: Global, rt: &impl Abort, library: &mut Library<UntoldDir, Sha>) {
    let scan = library.scan(alloc, 0).expect(rt, "a scan");
    assert!(rt; scan.mark == 0);
    assert!(rt; scan.batch.gone.as_slice().is_empty());
    for put in scan.batch.puts.as_slice() {
        assert!(rt; put.name == unit_name(rt));
    }
    assert!(rt; scan.batch.puts.as_slice().len() == 1);
    for name in scan.fresh.as_slice() {
        assert!(rt; *name == record_name(rt));
    }
    assert!(rt; scan.fresh.as_slice().len() == 1);
}

/// What a load of the record answers.
fn answer(
    alloc: Global,
    library: &mut Library<UntoldDir, Sha>,
    name: FileName,
    purpose: Purpose,
) -> &'static str {
    match library.load(alloc, 0, name, purpose).err() {
        None => "a record",
        Some(error) => word(error, name),
    }
}

/// An error that doesn't carry this name is another one.
fn word(error: LoadError, name: FileName) -> &'static str {
    if error == (LoadError::Lost { name }) {
        return "lost";
    }
    if error == (LoadError::Damaged { name }) {
        return "damaged";
    }
    "another error"
}

/// How many events there are, the last of which has this outcome.
fn check_last(rt: &impl Abort, library: &Library<UntoldDir, Sha>, count: usize, outcome: &Outcome) {
    assert!(rt; library.events().len() == count);
    for event in library.events().last() {
        assert!(rt; event.outcome == *outcome);
    }
}

#[test]
fn a_scan_brings_what_the_directory_lists(rt: HostRuntime) {
    let alloc = rt.alloc();
    let name = record_name(&rt);
    let mut library = opened(alloc, &rt, &[], 4, Reads::Nothing);
    check_scan(alloc, &rt, &mut library);
    assert_eq!(rt;
        answer(alloc, &mut library, name, Purpose::Import),
        "a record"
    );
    assert!(rt; library.has_lane(0));
    assert!(rt; library.has_import(0));
    assert!(rt; library.install(0) == Ok(0));
    check_last(&rt, &library, 3, &Outcome::At { mark: 0 });
    // The record vanishes.
    assert_eq!(rt; answer(alloc, &mut library, name, Purpose::Ask), "lost");
    check_last(&rt, &library, 4, &Outcome::Lost { name });
    let _dir = library.into_dir();
}

#[test]
fn a_load_for_the_import_that_fails_closes_it(rt: HostRuntime) {
    let alloc = rt.alloc();
    let name = record_name(&rt);
    let mut library = opened(alloc, &rt, &[], 3, Reads::ByteLess);
    check_scan(alloc, &rt, &mut library);
    assert!(rt; library.has_import(0));
    assert_eq!(rt;
        answer(alloc, &mut library, name, Purpose::Import),
        "damaged"
    );
    assert!(rt; !library.has_import(0));
    check_last(&rt, &library, 2, &Outcome::Damaged { name });
    let _dir = library.into_dir();
}

/// An opening makes four calls, and the first scan two.
#[test]
fn a_scan_that_fails_closes_the_import(rt: HostRuntime) {
    let alloc = rt.alloc();
    let mut library = opened(alloc, &rt, &[7], 9, Reads::Whole);
    check_scan(alloc, &rt, &mut library);
    assert!(rt; library.has_import(0));
    match library.scan(alloc, 0) {
        Ok(_) => panic!(&rt; "no fault"),
        Err(error) => assert!(rt; error == ScanError::Fault),
    }
    assert!(rt; !library.has_import(0));
    check_last(&rt, &library, 2, &Outcome::Fault);
    let _dir = library.into_dir();
}
