//! Each look once, over a directory that doesn't tell its moves.
use super::*;
use ix_cabinet::{Scanned, Stamps};
use ix_dir::{Area, MemoryDir, Reads, UntoldDir};
use ix_shelf::{LoadError, Shelf};
use ix_types::{FileName, Sha};
use std::alloc::Global;
use std::process::Abort;

/// A record of one symbol with one occurrence.
const RECORD: [u8; 58] = [
    73, 88, 82, 49, 0, 0, 0, 1, 0, 0, 0, 6, 0, 0, 0, 100, 0, 0, 0, 0, 0, 0, 0, 5, 115, 58, 49, 77,
    65, 0, 0, 0, 1, 65, 0, 0, 0, 1, 0, 0, 0, 1, 0, 0, 0, 8, 0, 0, 0, 0, 0, 0, 0, 2, 0, 0, 0, 0,
];

/// The file of a unit of output `abc` that lists this record.
const UNIT: [u8; 158] = [
    73, 88, 85, 49, 0, 0, 0, 3, 97, 98, 99, 0, 0, 0, 7, 97, 46, 115, 119, 105, 102, 116, 0, 0, 0,
    1, 77, 0, 0, 0, 0, 0, 0, 0, 1, 0, 0, 0, 2, 0, 0, 0, 7, 97, 46, 115, 119, 105, 102, 116, 0, 0,
    0, 0, 0, 0, 0, 64, 57, 99, 52, 57, 56, 99, 97, 100, 102, 50, 48, 49, 52, 56, 55, 57, 102, 102,
    100, 56, 48, 99, 101, 55, 102, 56, 57, 102, 101, 97, 98, 56, 54, 97, 50, 48, 51, 50, 101, 48,
    98, 54, 98, 49, 48, 100, 54, 55, 54, 50, 56, 101, 48, 55, 56, 54, 50, 52, 97, 53, 54, 51, 102,
    53, 0, 0, 0, 0, 137, 251, 82, 56, 69, 223, 144, 181, 175, 244, 98, 98, 248, 199, 227, 216, 135,
    134, 149, 122, 161, 205, 114, 201, 201, 136, 82, 64, 201, 222, 188, 195,
];

fn unit_name(rt: &impl Abort) -> FileName {
    FileName::read(b"ba7816bf8f01cfea414140de5dae2223b00361a396177a9cb410ff61f20015ad").expect(
        rt, "a name",
    )
}

fn record_name(rt: &impl Abort) -> FileName {
    FileName::read(b"9c498cadf2014879ffd80ce7f89feab86a2032e0b6b10d67628e078624a563f5").expect(
        rt, "a name",
    )
}

/// The unit and its record stand there, and reads answer in this way.
fn standing(alloc: Global, rt: &impl Abort, reads: Reads) -> UntoldDir {
    let mut inner = MemoryDir::new(alloc);
    let unit = inner.place(alloc, Area::Units, unit_name(rt), &UNIT);
    unit.expect(rt, "memory");
    let record = inner.place(alloc, Area::Records, record_name(rt), &RECORD);
    record.expect(rt, "memory");
    UntoldDir::new(inner, reads)
}

/// What a load of the record answers, where reads answer in this way.
fn answer(alloc: Global, rt: &impl Abort, name: FileName, reads: Reads) -> &'static str {
    let mut dir = standing(alloc, rt, reads);
    let shelf = Shelf::new();
    match load(alloc, &mut dir, &shelf, &Sha, name) {
        Ok(_) => "a record",
        Err(error) => word(error, name),
    }
}

/// An error that doesn't carry this name is another one.
fn word(error: LoadError, name: FileName) -> &'static str {
    if error == (LoadError::Lost { name }) {
        return "lost";
    }
    if error == (LoadError::Damaged { name }) {
        return "damaged";
    }
    "another error"
}

/// The stamps that a scan gives, which is to put so many units.
fn stamps(
    alloc: Global,
    rt: &impl Abort,
    dir: &mut UntoldDir,
    known: &Stamps,
    count: usize,
) -> Stamps {
    let Scanned { batch, stamps } = scan(alloc, dir, &Sha, known).expect(rt, "a scan");
    assert!(rt; batch.puts.as_slice().len() == count);
    stamps
}

#[test]
fn what_stands_is_scanned_once(rt: HostRuntime) {
    let alloc = rt.alloc();
    let mut dir = standing(alloc, &rt, Reads::Whole);
    let known = stamps(alloc, &rt, &mut dir, &Stamps::new(alloc), 1);
    let _known = stamps(alloc, &rt, &mut dir, &known, 0);
}

#[test]
fn a_record_is_loaded_lost_or_damaged(rt: HostRuntime) {
    let alloc = rt.alloc();
    let name = record_name(&rt);
    assert_eq!(rt; answer(alloc, &rt, name, Reads::Whole), "a record");
    assert_eq!(rt; answer(alloc, &rt, name, Reads::Nothing), "lost");
    assert_eq!(rt; answer(alloc, &rt, name, Reads::ByteLess), "damaged");
}
