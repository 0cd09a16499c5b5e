//! What opening finds and leaves, over directories of each kind.
use super::*;
use ix_dir::{Area, Dir, MemoryDir, Pick, Reads, SteadyDir, UntoldDir};
use ix_machine::UnitFault;
use ix_types::{FileName, Seq, Sha};
use std::alloc::Global;
use std::process::Abort;
use std::test::Fail;

/// The file of a unit of output `abc` with one record.
const UNIT: &str =
    "495855310000000361626300000007612e7377696674000000014d00000000000000010000000200000007612e7377696674000000000000004039633439386361646632303134383739666664383063653766383966656162383661323033326530623662313064363736323865303738363234613536336635\
0000000089fb523845df90b5aff46262f8c7e3d88786957aa1cd72c9c9885240c9debcc3";

/// The same of output `abd`.
const OTHER_UNIT: &str =
    "495855310000000361626400000007612e7377696674000000014d00000000000000010000000200000007612e7377696674000000000000004039633439386361646632303134383739666664383063653766383966656162383661323033326530623662313064363736323865303738363234613536336635\
000000005cde4745e4bc7535c3e7b4496c498d92d9bea3e001b76dd3f4c397e1a0ba1a56";

/// Their record.
const RECORD: &str =
    "495852310000000100000006000000640000000000000005733a314d410000000141000000010000000100000008000000000000000200000000";

/// The name of the record, and the names of the outputs `abc` and `abd`.
const RECORD_NAME: &[u8] = b"9c498cadf2014879ffd80ce7f89feab86a2032e0b6b10d67628e078624a563f5";

const ABC: &[u8] = b"ba7816bf8f01cfea414140de5dae2223b00361a396177a9cb410ff61f20015ad";

const ABD: &[u8] = b"a52d159f262b2c6ddb724a61840befc36eb30c88877a4030b65cbe86298449c9";

/// Changed files of the unit: a word, what stands in `UNIT`, and what is put in its place.
const CHANGES: &str = "\
magic | 4958553100000003 | 4958553200000003
short | 40c9debcc3 | 40c9debc
field | 4d00000000 | 4d00000002
order | 00000001000000020000000761 | 00000003000000010000000175000000010000000175000000020000000761
trailing | c9debcc3 | c9debcc300
digest | c9debcc3 | c9debcc4";

/// Unit files under their names, the file of the record, and what is found, in rising order of name.
const CASES: &str = "\
- | none | -
abc:abc | whole | abc
abc:magic | whole | abc=magic
abc:short | whole | abc=short
abc:field | whole | abc=field
abc:order | whole | abc=order
abc:trailing | whole | abc=trailing
abc:digest | whole | abc=digest
abd:abc | whole | abd=name
abc:abc | none | abc=missing
abc:abc | cut | abc=damaged
abc:abc | other | abc=damaged
abd:abc | none | abd=name
abd:field | cut | abd=field
abc:abc abd:abd | whole | abd abc
abc:abc abd:abd | cut | abd=damaged abc=damaged
abc:abc abd:magic | whole | abc abd=magic
abc:digest abd:abd | whole | abd abc=digest";

fn name_of(rt: &impl Abort, word: &str) -> FileName {
    let digits = if word == "abd" { ABD } else { ABC };
    FileName::read(digits).expect(rt, "a name")
}

fn record_name(rt: &impl Abort) -> FileName {
    FileName::read(RECORD_NAME).expect(rt, "a name")
}

/// The bytes of a text of digits with a part of it changed.
fn changed(alloc: Global, rt: &impl Abort, text: &str, old: &str, new: &str) -> Vec<u8> {
    let (front, back) = text.split_once(old).expect(rt, "no such part");
    let mut digits = Vec::from_slice(alloc, front.as_bytes()).expect(rt, "memory");
    digits
        .extend_from_slice(new.as_bytes())
        .expect(rt, "memory");
    digits
        .extend_from_slice(back.as_bytes())
        .expect(rt, "memory");
    hex::decode(alloc, digits.as_slice()).expect(rt, "digits")
}

/// The file of a word.
fn unit_file(alloc: Global, rt: &impl Abort, word: &str) -> Vec<u8> {
    if word == "abd" {
        return hex::decode(alloc, OTHER_UNIT.as_bytes()).expect(rt, "digits");
    }
    for line in CHANGES.lines() {
        let (name, change) = line.split_once(" | ").expect(rt, "a change");
        if name == word {
            let (old, new) = change.split_once(" | ").expect(rt, "a part");
            return changed(alloc, rt, UNIT, old, new);
        }
    }
    hex::decode(alloc, UNIT.as_bytes()).expect(rt, "digits")
}

fn record_file(alloc: Global, rt: &impl Abort, word: &str) -> Vec<u8> {
    match word {
        "cut" => changed(alloc, rt, RECORD, "0200000000", "02000000"),
        "other" => changed(alloc, rt, RECORD, "733a314d41", "733a314d42"),
        _ => hex::decode(alloc, RECORD.as_bytes()).expect(rt, "digits"),
    }
}

/// Places the unit files and the record of a case.
fn place(alloc: Global, rt: &impl Abort, dir: &mut MemoryDir, units: &str, record: &str) {
    for unit in units.split(' ') {
        if let Some((name, word)) = unit.split_once(':') {
            let file = unit_file(alloc, rt, word);
            dir.place(alloc, Area::Units, name_of(rt, name), file.as_slice())
                .expect(rt, "memory");
        }
    }
    if record != "none" {
        let file = record_file(alloc, rt, record);
        dir.place(alloc, Area::Records, record_name(rt), file.as_slice())
            .expect(rt, "memory");
    }
}

fn cause_of(rt: &impl Abort, word: &str) -> UnitFault {
    match word {
        "magic" => UnitFault::Magic,
        "short" => UnitFault::Short,
        "field" => UnitFault::Field { at: 27 },
        "order" => UnitFault::Order { at: 44 },
        "trailing" => UnitFault::Trailing { at: 158 },
        "digest" => UnitFault::Digest,
        "name" => UnitFault::WrongName,
        "missing" => UnitFault::RecordMissing {
            name: record_name(rt),
        },
        _ => UnitFault::RecordDamaged {
            name: record_name(rt),
        },
    }
}

/// Checks the units and then, where they are wanted, the refused files with their causes.
fn check_found(rt: &impl Abort, found: &Found, want: &str, refuses: bool) {
    let mut words = want
        .split(' ')
        .filter(|word| *word != "-" && (refuses || !word.contains('=')));
    for put in found.units.as_slice() {
        let word = words.next().expect(rt, "no more units");
        assert!(rt; put.name == name_of(rt, word));
    }
    for refused in found.refused.as_slice() {
        let word = words.next().expect(rt, "no more refused files");
        let (name, cause) = word.split_once('=').expect(rt, "a cause");
        assert!(rt; refused.name == name_of(rt, name));
        assert!(rt; refused.cause == cause_of(rt, cause), "{want}");
    }
    assert!(rt; words.next().is_none());
}

/// Looks, opens, and opens again.
fn check_opening<D: Dir>(alloc: Global, rt: &impl Abort, dir: &mut D, want: &str) {
    let looked = look(alloc, dir, &Sha).expect(rt, "a look");
    check_found(rt, &looked, want, true);
    let opened = open(alloc, dir, &Sha).expect(rt, "an opening");
    check_found(rt, &opened, want, true);
    let again = open(alloc, dir, &Sha).expect(rt, "an opening");
    check_found(rt, &again, want, false);
}

#[test]
fn each_cause_is_found_once(rt: HostRuntime) {
    let alloc = rt.alloc();
    for line in CASES.lines() {
        let (units, rest) = line.split_once(" | ").expect(&rt, "units");
        let (record, want) = rest.split_once(" | ").expect(&rt, "a record");
        let mut dir = MemoryDir::new(alloc);
        place(alloc, &rt, &mut dir, units, record);
        check_opening(alloc, &rt, &mut dir, want);
    }
}

/// One sound unit and one refused: two syncs, a list, three reads, a removal and a sync.
#[test]
fn each_failing_call_is_a_fault(rt: HostRuntime) {
    let alloc = rt.alloc();
    for number in 1..=9u64 {
        let fails = Vec::from_slice(alloc, &[number]).expect(&rt, "memory");
        let mut dir = MemoryDir::failing(alloc, Seq::of(fails));
        place(alloc, &rt, &mut dir, "abc:abc abd:magic", "whole");
        let opened = open(alloc, &mut dir, &Sha);
        assert_eq!(rt;
            opened.err(),
            if number < 9 {
                Some(OpenError::Fault)
            } else {
                None
            }
        );
        let mut left = dir.stopped(alloc, Pick::Oldest).expect(&rt, "memory");
        let found = open(alloc, &mut left, &Sha).expect(&rt, "an opening");
        assert_eq!(rt; found.units.as_slice().len(), 1);
    }
}

#[test]
fn a_unit_that_reads_wrongly_is_not_listed_or_refused(rt: HostRuntime) {
    let alloc = rt.alloc();
    let mut inner = MemoryDir::new(alloc);
    place(alloc, &rt, &mut inner, "abc:abc", "whole");
    let mut dir = UntoldDir::new(inner, Reads::Nothing);
    check_opening(alloc, &rt, &mut dir, "-");
    dir.set_reads(Reads::Whole);
    check_opening(alloc, &rt, &mut dir, "abc");
    dir.set_reads(Reads::ByteLess);
    check_opening(alloc, &rt, &mut dir, "abc=short");
    check_opening(alloc, &rt, &mut SteadyDir::new(alloc), "-");
}

#[test]
fn errors_have_texts(rt: HostRuntime) -> Result<(), Fail> {
    assert_eq!(rt;
        OpenError::Fault.to_string(rt.alloc())?.as_str(),
        "the directory failed"
    );
    assert_eq!(rt; OpenError::Memory.to_string(rt.alloc())?.as_str(), "memory");
    Ok(())
}
