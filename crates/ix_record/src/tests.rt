//! Worked records, each fault, and large records. A test ends where a call goes wrong.
use super::*;
use ix_wire::put_u32;
use std::alloc::Global;
use std::process::Abort;

/// A record of one symbol and one occurrence, in format One.
const ONE: &str =
    "495852310000000100000006000000640000000000000005733a314d410000000141000000010000000100000008000000000000000200000000";

/// The same in format Two.
const TWO: &str =
    "495852320000000100000006000000640000000000000005733a314d41000000014100000000000000010000000100000008000000000000000200000000";

/// The same in format Two with the code generation name `$s1MAV`.
const CODEGEN: &str =
    "495852320000000100000006000000640000000000000005733a314d410000000141000000062473314d4156000000010000000100000008000000000000000200000000";

/// An occurrence with two relations, the first to the smaller symbol and with the greater roles.
const RELATIONS: &str =
    "495852310000000200000006000000640000000000000001610000000000000006000000640000000000000001620000000000000001000000010000000100000000000006020000000200000400000000000000020000000001";

/// What `CODEGEN` says.
const VALUE: &str =
    "RecordValue { format: Two, symbols: [Symbol { kind: Kind { code: 6 }, lang: Lang { code: 100 }, props: Props { bits: 0 }, usr: \"s:1MA\", name: \"A\", codegen: \"$s1MAV\" }], occurrences: [Occurrence { line: 1, column: 8, symbol: 0, roles: Roles { bits: 2 }, relations: [] }] }";

/// What stands in `ONE`, what is put in its place, and the fault.
const FAULTS_OF_ONE: &str = "\
49585231 | 49585233 | not a record file
0000000600000064 | 0000001b00000064 | bad field at byte 8
0000006400 | 0000000300 | bad field at byte 12
6400000000 | 6400000200 | bad field at byte 16
00000005733a314d41 | 00000000 | bad field at byte 20
00000005733a | 00001105733a | bad field at byte 20
00000005733a | 000000c8733a | bytes are missing
733a31 | 0a3a31 | bad field at byte 20
0000000141 | 00000001ff | bad field at byte 29
0000000100000008 | 0000000000000008 | bad field at byte 38
0000000100000008 | 0000000100000000 | bad field at byte 42
0800000000 | 0800000001 | bad index at byte 46
000000000000000200000000 | 000000000000000000000000 | bad field at byte 50
000000000000000200000000 | 000000000008000000000000 | bad field at byte 50
0000000200000000 | 0000000200000001 | bytes are missing
0000000200000000 | 00000002000000010000200000000000 | roles missing at byte 50
0000000200000000 | 00002002000000010000600000000000 | roles missing at byte 50
0000000200000000 | 000020020000000200002000000000000000200000000000 | out of order at byte 66
0000000200000000 | 00000002000000010000200200000000 | bad field at byte 58
0000000200000000 | 00000002000000010000000000000000 | bad field at byte 58
0000000200000000 | 00000002000000010008200000000000 | bad field at byte 58
0000000200000000 | 00002002000000010000200000000001 | bad index at byte 62
0000000200000000 | 000000020000000000 | bytes are left from byte 58 on
000000010000000100000008 | 0000000200000001000000080000000000000002000000000000000100000008 | out of order at byte 58
000000010000000100000008000000000000000200000000 | 00000002000000010000000800000000000000020000000000000001000000070000000000000002000000010000200000000000 | roles missing at byte 70
0000000100000006 | 0000000200000006000000640000000000000005733a314d41000000014000000006 | out of order at byte 34";

/// The same of `CODEGEN`.
const FAULTS_OF_TWO: &str = "\
49585232 | 49585233 | not a record file
0000000600000064 | 0000001b00000064 | bad field at byte 8
0000006400 | 0000000300 | bad field at byte 12
6400000000 | 6400000200 | bad field at byte 16
00000005733a314d41 | 00000000 | bad field at byte 20
00000005733a | 00001105733a | bad field at byte 20
00000005733a | 000000c8733a | bytes are missing
733a31 | 0a3a31 | bad field at byte 20
0000000141 | 00000001ff | bad field at byte 29
2473314d4156 | 2473310a4156 | bad field at byte 34
000000062473 | 000010012473 | bad field at byte 34
000000062473 | 000010002473 | bytes are missing
0000000100000008 | 0000000000000008 | bad field at byte 48
0000000100000008 | 0000000100000000 | bad field at byte 52
0800000000 | 0800000001 | bad index at byte 56
000000000000000200000000 | 000000000000000000000000 | bad field at byte 60
000000000000000200000000 | 000000000008000000000000 | bad field at byte 60
0000000200000000 | 0000000200000001 | bytes are missing
0000000200000000 | 00000002000000010000200000000000 | roles missing at byte 60
0000000200000000 | 00002002000000010000600000000000 | roles missing at byte 60
0000000200000000 | 000020020000000200002000000000000000200000000000 | out of order at byte 76
0000000200000000 | 00000002000000010000200200000000 | bad field at byte 68
0000000200000000 | 00000002000000010000000000000000 | bad field at byte 68
0000000200000000 | 00000002000000010008200000000000 | bad field at byte 68
0000000200000000 | 00002002000000010000200000000001 | bad index at byte 72
0000000200000000 | 000000020000000000 | bytes are left from byte 68 on
000000010000000100000008 | 0000000200000001000000080000000000000002000000000000000100000008 | out of order at byte 68
000000010000000100000008000000000000000200000000 | 00000002000000010000000800000000000000020000000000000001000000070000000000000002000000010000200000000000 | roles missing at byte 80
0000000100000006 | 0000000200000006000000640000000000000005733a314d410000000140000000062473314d415600000006 | out of order at byte 44";

fn bytes_of(alloc: Global, rt: &impl Abort, digits: &str) -> Vec<u8> {
    hex::decode(alloc, digits.as_bytes()).expect(rt, "hex digits")
}

/// Checks that the bytes are a record that is spelled so again.
fn check_spelling(alloc: Global, rt: &impl Abort, bytes: &[u8]) {
    let value = decode(alloc, bytes).expect(rt, "a record");
    let again = encode(alloc, &value).expect(rt, "bytes");
    assert!(rt; again.as_slice() == bytes);
}

/// Checks that each proper front of the bytes is short.
fn check_fronts(alloc: Global, rt: &impl Abort, bytes: &[u8]) {
    for len in 0..bytes.len() {
        assert!(rt; decode(alloc, &bytes[..len]).err() == Some(RecordError::Short));
    }
}

fn check_record(alloc: Global, rt: &impl Abort, digits: &str) {
    let bytes = bytes_of(alloc, rt, digits);
    check_spelling(alloc, rt, &bytes);
    check_fronts(alloc, rt, &bytes);
}

#[test]
fn worked_records_are_read_and_written(rt: HostRuntime) {
    check_record(rt.alloc(), &rt, ONE);
    check_record(rt.alloc(), &rt, TWO);
    check_record(rt.alloc(), &rt, CODEGEN);
    check_record(rt.alloc(), &rt, RELATIONS);
}

#[test]
fn a_record_has_its_values(rt: HostRuntime) {
    let bytes = bytes_of(rt.alloc(), &rt, CODEGEN);
    let value = decode(rt.alloc(), &bytes).expect(&rt, "a record");
    let printed = format!(in rt.alloc(); "{value:?}").expect(&rt, "memory");
    assert!(rt; printed.as_str() == VALUE);
}

fn check_words(alloc: Global, rt: &impl Abort, fault: RecordError, want: &str) {
    let words = fault.to_string(alloc).expect(rt, "memory");
    assert!(rt; words.as_str() == want, "{want}");
}

/// Checks that the digits, changed as the line says, have the line's fault.
fn check_fault(alloc: Global, rt: &impl Abort, digits: &str, line: &str) {
    let (old, change) = line.split_once(" | ").expect(rt, "a change");
    let (new, want) = change.split_once(" | ").expect(rt, "a fault");
    let (front, back) = digits.split_once(old).expect(rt, "such a part");
    let changed = format!(in alloc; "{front}{new}{back}").expect(rt, "memory");
    let bytes = bytes_of(alloc, rt, changed.as_str());
    let fault = decode(alloc, &bytes).err().expect(rt, "a fault");
    check_words(alloc, rt, fault, want);
}

fn check_faults(alloc: Global, rt: &impl Abort, digits: &str, faults: &str) {
    for line in faults.lines() {
        check_fault(alloc, rt, digits, line);
    }
}

#[test]
fn each_fault_is_the_first(rt: HostRuntime) {
    check_faults(rt.alloc(), &rt, ONE, FAULTS_OF_ONE);
    check_faults(rt.alloc(), &rt, CODEGEN, FAULTS_OF_TWO);
    check_words(rt.alloc(), &rt, RecordError::Memory, "memory");
}

/// Appends the numbers, each as four bytes.
fn put_numbers(rt: &impl Abort, out: &mut Vec<u8>, numbers: &[u32]) {
    for number in numbers {
        put_u32(out, *number).expect(rt, "memory");
    }
}

/// Appends so many symbols, each with the low half of its number in four letters as its USR, and with the texts behind it.
fn put_symbols(rt: &impl Abort, out: &mut Vec<u8>, texts: &[u32], count: u32) {
    for number in 0..count {
        let letters = (number & 0xf000) << 12
            | (number & 0xf00) << 8
            | (number & 0xf0) << 4
            | number & 15;
        put_numbers(rt, out, &[12, 2, 0, 4, 0x4040_4040 | letters]);
        put_numbers(rt, out, texts);
    }
}

/// Appends an occurrence for each symbol, in a line of its own.
fn put_occurrences(rt: &impl Abort, out: &mut Vec<u8>, count: u32) {
    for number in 0..count {
        put_numbers(rt, out, &[number + 1, 1, number, 2, 0]);
    }
}

/// Checks a record with 65,536 symbols and occurrences.
fn check_many(alloc: Global, rt: &impl Abort, magic: u32, texts: &[u32]) {
    let mut out = Vec::new(alloc);
    put_numbers(rt, &mut out, &[magic, 65_536]);
    put_symbols(rt, &mut out, texts, 65_536);
    put_numbers(rt, &mut out, &[65_536]);
    put_occurrences(rt, &mut out, 65_536);
    check_spelling(alloc, rt, &out);
}

#[test]
fn a_large_record_of_format_one_is_read_and_written(rt: HostRuntime) {
    check_many(rt.alloc(), &rt, 0x4958_5231, &[0]);
}

#[test]
fn a_large_record_of_format_two_is_read_and_written(rt: HostRuntime) {
    check_many(
        rt.alloc(),
        &rt,
        0x4958_5232,
        &[4, 0x6162_6364, 4, 0x6566_6768],
    );
}

/// Appends so many relations to the first symbol.
fn put_relations(rt: &impl Abort, out: &mut Vec<u8>, count: u32) {
    for number in 1..=count {
        put_numbers(rt, out, &[number << 9, 0]);
    }
}

#[test]
fn many_relations_are_read_and_written(rt: HostRuntime) {
    let mut out = bytes_of(rt.alloc(), &rt, ONE.split_at(76).0);
    put_numbers(&rt, &mut out, &[1, 8, 0, 523_778, 256]);
    put_relations(&rt, &mut out, 256);
    check_spelling(rt.alloc(), &rt, &out);
}
