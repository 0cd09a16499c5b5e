//! Batches and look-ups over a small store, worked out by hand.
ghost use Rattle.std.specs.Prelude.{◌<◌};

use super::*;
use ix_outline::{Outline, OutlineSymbol};
use ix_types::{FileName, Seq, Text};
use ix_unit::{Batch, RecordDep, UnitPut};
use std::alloc::Global;
use std::process::Abort;
use std::sync::Arc;

/// The files of the store in hex digits, each under its name. Units a and b share record 2, which b lists under two paths, and e twice
/// under each of two; c lists a path as a file.
const STORE: &str = "\
record 1 49585232000000050000000c000000000000000000000008633a436972636c6500000006436972636c65000000000000000c000000000000000000000007633a5368617065000000055368617065000000065f53686170650000000c000000000000000000000006633a6172656100000006617265612829000000000000000c000000000000000000000005633a6269670000000441726561000000000000000c000000000000000000000006633a6d61696e000000046d61696e000000055f6d61696e00000008000000010000000100000001000000020000000000000002000000010000000000000002000000000000000200000005000000010000040400000001000004000000000000000003000000010000000300000802000000010000080000000002000000040000000100000004000000010000000000000005000000010000000400000002000000000000000600000002000000020000202400000001000020000000000400000007000000020000000400002024000000010000200000000002\n\
record 2 49585231000000010000000c000000000000000000000006633a6172656100000006617265612829000000010000000400000005000000000000000100000000\n\
record 3 49585231000000020000000c000000000000000000000006633a61726561000000066172656128290000000c000000000000000000000005633a7573650000000375736500000002000000010000000100000001000000020000000000000002000000020000000000002024000000010000200000000001\n\
record 4 49585231000000020000000c000000000000000000000003733a66000000000000000c000000000000000000000003733a67000000000000000500000001000000060000000000000002000000000000000200000003000000010000202400000001000020000000000000000003000000030000000000002024000000010000200000000000000000050000000600000001000000020000000000000006000000030000000000002024000000010000200000000001\n\
record 9c498cadf2014879ffd80ce7f89feab86a2032e0b6b10d67628e078624a563f5 495852310000000100000006000000640000000000000005733a314d410000000141000000010000000100000008000000000000000200000000\n\
unit a 4958553100000003612e6f00000003612e630000000000000000000000030000000200000003612e630000000000000001310000000200000003752e6800000000000000013200000003000000057374642e68000000000000000200000003612e630000000100000003752e6800000003612e6300000002000000057374642e681621d0bd6af802fdca77f69153901c54c23dc7ce4250e2c188034a356540652b\n\
unit b 4958553100000003622e6f00000003622e630000000000000000000000030000000200000003622e630000000000000001330000000200000003752e680000000000000001320000000200000003762e680000000000000001320000000100000003622e630000000100000003752e68883998b7a9c43ac0a4c76043494f1bb9f1911ae099d49a707d2777351d7ed862\n\
unit c 4958553100000003632e6f000000000000000000000000000000010000000300000003752e6800000000000000005d24cccf1f26da8fa1cf06c70b89c027c014cddc3badde8553d6f8692bcc8e69\n\
unit d 4958553100000003642e6f00000003642e630000000000000000000000010000000200000007722e73776966740000000000000001340000000100000003642e630000000100000003752e686f4ac10ad78a4ab69a447c467446127d2ff6d214e3a27a377916b53da1b80e04\n\
unit e 4958553100000003652e6f000000000000000000000000000000040000000200000003752e680000000000000001320000000200000003752e680000000100000001320000000200000003762e680000000000000001320000000200000003762e680000000100000001320000000003d4609e4b0dd045a22e2f0069e40e95c77fd30a05a049f6a3903245a677c3b2\n\
unit ba7816bf8f01cfea414140de5dae2223b00361a396177a9cb410ff61f20015ad 495855310000000361626300000007612e7377696674000000014d00000000000000010000000200000007612e73776966740000000000000040396334393863616466323031343837396666643830636537663839666561623836613230333265306236623130643637363238653037383632346135363366350000000089fb523845df90b5aff46262f8c7e3d88786957aa1cd72c9c9885240c9debcc3";

/// Batches, and what look-ups find after each. `put b=a` puts the unit of a under the name b.
const SCRIPT: &str = "\
put ba7816bf8f01cfea414140de5dae2223b00361a396177a9cb410ff61f20015ad
providers s:1MA => 9c498cadf2014879ffd80ce7f89feab86a2032e0b6b10d67628e078624a563f5
named A => s:1MA
name_at 0 => A
name_at 1 =>
in_path a.swift => 9c498cadf2014879ffd80ce7f89feab86a2032e0b6b10d67628e078624a563f5
paths 9c498cadf2014879ffd80ce7f89feab86a2032e0b6b10d67628e078624a563f5 => a.swift
listing a.swift => ba7816bf8f01cfea414140de5dae2223b00361a396177a9cb410ff61f20015ad
unit ba7816bf8f01cfea414140de5dae2223b00361a396177a9cb410ff61f20015ad => abc
gone ba7816bf8f01cfea414140de5dae2223b00361a396177a9cb410ff61f20015ad
providers s:1MA =>
related s:1MA =>
named A =>
name_at 0 =>
coded A =>
in_path a.swift =>
paths 9c498cadf2014879ffd80ce7f89feab86a2032e0b6b10d67628e078624a563f5 =>
listing a.swift =>
unit ba7816bf8f01cfea414140de5dae2223b00361a396177a9cb410ff61f20015ad =>
unit_at 0 =>
put a b c d ba7816bf8f01cfea414140de5dae2223b00361a396177a9cb410ff61f20015ad
providers c:area => 1 2 3
related c:area => 1
related c:use => 3
named area() => c:area
coded _Shape => c:Shape
coded =>
in_path v.h => 2
in_path std.h =>
paths 2 => u.h v.h
listing u.h => a b c
listing std.h => a
name_at 3 => Circle
unit_at 1 => b b.o
unit_at 5 =>
gone a
providers c:area => 2 3
related c:area =>
named main =>
coded _Shape =>
in_path u.h => 2
in_path a.c =>
paths 2 => u.h v.h
listing u.h => b c
listing std.h =>
name_at 1 => A
name_at 2 => area()
name_at 4 =>
put b=a
providers c:area => 1 2
related c:use =>
related c:area => 1
in_path v.h =>
paths 2 => u.h
paths 3 =>
listing std.h => b
unit b => a.o
put a
listing u.h => a b c
gone b
providers c:area => 1 2
listing u.h => a c
put e
in_path u.h => 2
paths 2 => u.h v.h
listing v.h => e
providers c:area => 1 2
gone a
providers c:area => 2
in_path u.h => 2
listing u.h => c e
put e=c
providers c:area =>
paths 2 =>
listing u.h => c e
listing v.h =>
gone c d e ba7816bf8f01cfea414140de5dae2223b00361a396177a9cb410ff61f20015ad
providers c:area =>
listing u.h =>
name_at 0 =>
unit_at 0 =>";

fn text(rt: &impl Abort, alloc: Global, text: &str) -> Text {
    Text::read_or_empty(alloc, text.as_bytes()).expect(rt, "a text")
}

fn file_name(rt: &impl Abort, name: &str) -> FileName {
    FileName::read(name.as_bytes()).expect(rt, "a name")
}

/// The value of a hex digit.
fn nibble(digit: u8) -> u8
    ensures { result < 16 }
{
    match digit {
        b'0'..=b'9' => digit - b'0',
        b'a'..=b'f' => digit - b'a' + 10,
        _ => 0,
    }
}

/// The bytes that hex digits are.
fn bytes_of(rt: &impl Abort, alloc: Global, digits: &str) -> Vec<u8> {
    let mut bytes = Vec::new(alloc);
    for pair in digits.as_bytes().chunks(2) {
        if let [high, low] = pair {
            bytes
                .push(nibble(*high) * 16 + nibble(*low))
                .expect(rt, "memory");
        }
    }
    bytes
}

/// The bytes of the unit of a name.
fn unit_file(rt: &impl Abort, alloc: Global, name: &str) -> Vec<u8> {
    for line in STORE.lines() {
        let (kind, rest) = line.split_once(' ').expect(rt, "a kind");
        let (other, digits) = rest.split_once(' ').expect(rt, "a name");
        if kind == "unit" && other == name {
            return bytes_of(rt, alloc, digits);
        }
    }
    Vec::new(alloc)
}

/// The outlines of all records of the store.
fn outlines(rt: &impl Abort, alloc: Global) -> Outlines {
    let mut outlines = Outlines::new();
    for line in STORE.lines() {
        let (kind, rest) = line.split_once(' ').expect(rt, "a kind");
        let (name, digits) = rest.split_once(' ').expect(rt, "a name");
        if kind == "record" {
            let value = ix_record::decode(alloc, bytes_of(rt, alloc, digits).as_slice()).expect(
                rt, "a record",
            );
            let outline = Outline::of(alloc, &value).expect(rt, "memory");
            let outline = Arc::new(alloc, outline).expect(rt, "memory");
            outlines = outlines
                .with(alloc, file_name(rt, name), outline)
                .expect(rt, "memory");
        }
    }
    outlines
}

/// A unit of the store, under its name or another one's.
fn put(rt: &impl Abort, alloc: Global, word: &str) -> UnitPut {
    let (name, of) = word.split_once('=').unwrap_or((word, word));
    let file = unit_file(rt, alloc, of);
    let unit = ix_unit::decode(alloc, file.as_slice()).expect(rt, "a unit");
    UnitPut {
        name: file_name(rt, name),
        unit: Arc::new(alloc, unit).expect(rt, "memory"),
    }
}

/// The tables after a batch.
fn after(rt: &impl Abort, alloc: Global, tables: &Tables, puts: &str, gone: &str) -> Tables {
    let mut put_units = Vec::new(alloc);
    for word in puts.split_whitespace() {
        put_units.push(put(rt, alloc, word)).expect(rt, "memory");
    }
    let mut gone_names = Vec::new(alloc);
    for word in gone.split_whitespace() {
        gone_names.push(file_name(rt, word)).expect(rt, "memory");
    }
    let batch = Batch {
        puts: Seq::of(put_units),
        gone: Seq::of(gone_names),
    };
    tables
        .apply(alloc, &batch, &outlines(rt, alloc))
        .expect(rt, "memory")
}

/// Appends a space and bytes.
fn push(rt: &impl Abort, out: &mut Vec<u8>, bytes: &[u8]) {
    out.push(b' ').expect(rt, "memory");
    out.extend_from_slice(bytes).expect(rt, "memory");
}

fn push_names(rt: &impl Abort, out: &mut Vec<u8>, names: &[FileName]) {
    for name in names {
        push(rt, out, name.bytes());
    }
}

fn push_texts(rt: &impl Abort, out: &mut Vec<u8>, texts: &[Text]) {
    for text in texts {
        push(rt, out, text.bytes());
    }
}

/// Appends what is found at a place.
fn push_place(rt: &impl Abort, out: &mut Vec<u8>, tables: &Tables, word: &str, place: &str) {
    let place = place.parse::<u64>().expect(rt, "a place");
    if word == "name_at" {
        if let Some(name) = tables.name_at(place) {
            push(rt, out, name.bytes());
        }
    } else if let Some((name, unit)) = tables.unit_at(place) {
        push(rt, out, name.bytes());
        push(rt, out, unit.output.bytes());
    }
}

/// Appends the output path of the unit of a name.
fn push_unit(rt: &impl Abort, out: &mut Vec<u8>, tables: &Tables, name: &str) {
    if let Some(unit) = tables.unit(&file_name(rt, name)) {
        push(rt, out, unit.output.bytes());
    }
}

/// Appends what a look-up finds.
fn push_found(
    rt: &impl Abort,
    alloc: Global,
    out: &mut Vec<u8>,
    tables: &Tables,
    word: &str,
    of: &str,
) {
    let key = text(rt, alloc, of);
    match word {
        "providers" => push_names(rt, out, tables.providers(&key)),
        "related" => push_names(rt, out, tables.related(&key)),
        "named" => push_texts(rt, out, tables.named(&key)),
        "coded" => push_texts(rt, out, tables.coded(&key)),
        "in_path" => push_names(rt, out, tables.in_path(&key)),
        "paths" => push_texts(rt, out, tables.paths(&file_name(rt, of))),
        "listing" => push_names(rt, out, tables.listing(&key)),
        "unit" => push_unit(rt, out, tables, of),
        _ => push_place(rt, out, tables, word, of),
    }
}

/// Asserts that a look-up finds what the line says.
fn expect_found(rt: &impl Abort, alloc: Global, tables: &Tables, line: &str) {
    let (asked, want) = line.split_once(" =>").expect(rt, "what is found");
    let (word, of) = asked.split_once(' ').unwrap_or((asked, ""));
    let mut shown = Vec::new(alloc);
    push_found(rt, alloc, &mut shown, tables, word, of);
    assert!(rt; shown.as_slice() == want.as_bytes(), "{line}");
}

/// A batch, or what a look-up finds.
fn line_of(rt: &impl Abort, alloc: Global, tables: Tables, line: &str) -> Tables {
    if let Some(names) = line.strip_prefix("put ") {
        return after(rt, alloc, &tables, names, "");
    }
    if let Some(names) = line.strip_prefix("gone ") {
        return after(rt, alloc, &tables, "", names);
    }
    expect_found(rt, alloc, &tables, line);
    tables
}

#[test]
fn look_ups_follow_batches(rt: HostRuntime) {
    let alloc = rt.alloc();
    let mut tables = Tables::empty();
    for line in SCRIPT.lines() {
        tables = line_of(&rt, alloc, tables, line);
    }
    let same = tables.share().expect(&rt, "memory");
    let version = Version {
        number: 7,
        tables: same,
    };
    assert!(rt; version.tables.unit_at(0).is_none());
}

/// An outline of one symbol.
fn one_symbol(rt: &impl Abort, alloc: Global) -> Arc<Outline> {
    let mut symbols = Vec::new(alloc);
    symbols
        .push(OutlineSymbol {
            usr: text(rt, alloc, "c:area"),
            name: text(rt, alloc, "area()"),
            codegen: text(rt, alloc, ""),
        })
        .expect(rt, "memory");
    let outline = Outline {
        symbols: Seq::of(symbols),
        related: Seq::of(Vec::new(alloc)),
    };
    Arc::new(alloc, outline).expect(rt, "memory")
}

/// The tables after unit c lists a record for each six digits in a row of a text, all with the same symbol.
fn crowd(rt: &impl Abort, alloc: Global, tables: &Tables, digits: &str) -> Tables {
    let file = unit_file(rt, alloc, "c");
    let mut unit = ix_unit::decode(alloc, file.as_slice()).expect(rt, "a unit");
    let mut outlines = Outlines::new();
    let mut records = Vec::new(alloc);
    for six in digits.as_bytes().windows(6) {
        if let Some(name) = FileName::read(six) {
            let path = text(rt, alloc, "u.h");
            records
                .push(RecordDep {
                    path,
                    system: false,
                    name,
                })
                .expect(rt, "memory");
            outlines = outlines
                .with(alloc, name, one_symbol(rt, alloc))
                .expect(rt, "memory");
        }
    }
    unit.records = Seq::of(records);
    let mut puts = Vec::new(alloc);
    puts.push(UnitPut {
        name: file_name(rt, "c"),
        unit: Arc::new(alloc, unit).expect(rt, "memory"),
    })
    .expect(rt, "memory");
    let batch = Batch {
        puts: Seq::of(puts),
        gone: Seq::of(Vec::new(alloc)),
    };
    tables.apply(alloc, &batch, &outlines).expect(rt, "memory")
}

/// Whether a USR is found in 1,019 records, and in three once the unit lists no others.
fn follow_a_crowd(rt: &impl Abort, alloc: Global) -> bool {
    let many = crowd(rt, alloc, &Tables::empty(), STORE);
    let few = crowd(rt, alloc, &many, "00ff00fe");
    let usr = text(rt, alloc, "c:area");
    many.providers(&usr).len() == 1019 && few.providers(&usr).len() == 3
}

#[test]
fn a_usr_stands_in_a_thousand_records(rt: HostRuntime) {
    assert!(rt; follow_a_crowd(&rt, rt.alloc()));
}
