//! Worked fields, each written out by hand. A test ends where a call goes wrong.
use super::*;
use byteorder::{BigEndian, ByteOrder};
use ix_types::Text;
use std::alloc::Global;
use std::process::Abort;

/// Bytes, and then each call with what it answers: a value, nothing, or the fault in words.
const READ: &str = "\
000000000000000710203040 : u64=7 | at=8 | u32=270544960 | end=
000000036162630000000000 : text=abc | at=7 | any= | end=bytes are left from byte 11 on
 : end= | u32=bytes are missing at byte 0
07 : end=bytes are left from byte 0 on | u64=bytes are missing at byte 0
0000000261 : text=bytes are missing at byte 0 | u32=2
00001001 : text=a text at byte 0 is too long | u32=4097
000000010a : text=no text at byte 0 | u32=1
00000000 : text=no text at byte 0 | u32=0";

fn check_fault(alloc: Global, rt: &impl Abort, fault: WireError, want: &str) {
    let shown = fault.to_string(alloc).expect(rt, "memory");
    assert!(rt; shown.as_str() == want, "{want}");
}

fn check_number(rt: &impl Abort, number: u64, want: &str) {
    assert!(rt; want.parse() == Ok(number), "{want}");
}

fn check_u32(alloc: Global, rt: &impl Abort, cursor: &mut Cursor<'_>, want: &str) {
    match cursor.u32() {
        Ok(number) => check_number(rt, u64::from(number), want),
        Err(fault) => check_fault(alloc, rt, fault, want),
    }
}

fn check_u64(alloc: Global, rt: &impl Abort, cursor: &mut Cursor<'_>, want: &str) {
    match cursor.u64() {
        Ok(number) => check_number(rt, number, want),
        Err(fault) => check_fault(alloc, rt, fault, want),
    }
}

fn check_text(alloc: Global, rt: &impl Abort, cursor: &mut Cursor<'_>, any: bool, want: &str) {
    match cursor.text(alloc, any) {
        Ok(text) => assert!(rt; text.bytes() == want.as_bytes(), "{want}"),
        Err(fault) => check_fault(alloc, rt, fault, want),
    }
}

fn check_end(alloc: Global, rt: &impl Abort, cursor: &Cursor<'_>, want: &str) {
    match cursor.end() {
        Ok(()) => assert!(rt; want.is_empty(), "{want}"),
        Err(fault) => check_fault(alloc, rt, fault, want),
    }
}

/// Checks what a call answers.
fn check_call(alloc: Global, rt: &impl Abort, cursor: &mut Cursor<'_>, call: &str, want: &str) {
    match call {
        "u32" => check_u32(alloc, rt, cursor, want),
        "u64" => check_u64(alloc, rt, cursor, want),
        "text" => check_text(alloc, rt, cursor, false, want),
        "any" => check_text(alloc, rt, cursor, true, want),
        "at" => check_number(rt, cursor.at(), want),
        _ => check_end(alloc, rt, cursor, want),
    }
}

fn check_calls(alloc: Global, rt: &impl Abort, bytes: &[u8], calls: &str) {
    let mut cursor = Cursor::new(bytes);
    for call in calls.split(" | ") {
        let (name, want) = call.split_once('=').expect(rt, "an answer");
        check_call(alloc, rt, &mut cursor, name, want);
    }
}

#[test]
fn fields_are_read_in_turn(rt: HostRuntime) {
    for line in READ.lines() {
        let (digits, calls) = line.split_once(" : ").expect(&rt, "calls");
        let bytes = hex::decode(rt.alloc(), digits.as_bytes()).expect(&rt, "digits");
        check_calls(rt.alloc(), &rt, &bytes, calls);
    }
    check_fault(rt.alloc(), &rt, WireError::Memory, "memory");
}

fn put_texts(alloc: Global, rt: &impl Abort, out: &mut Vec<u8>) {
    let text = Text::read(alloc, b"abc").expect(rt, "a text");
    put_text(out, &text).expect(rt, "memory");
    let empty = Text::read_or_empty(alloc, b"").expect(rt, "no byte");
    put_text(out, &empty).expect(rt, "memory");
}

#[test]
fn fields_are_written_in_turn(rt: HostRuntime) {
    let mut out = Vec::new(rt.alloc());
    put_u64(&mut out, 7).expect(&rt, "memory");
    put_u32(&mut out, 0x1020_3040).expect(&rt, "memory");
    put_texts(rt.alloc(), &rt, &mut out);
    check_calls(
        rt.alloc(),
        &rt,
        &out,
        "u64=7 | u32=270544960 | text=abc | any= | end=",
    );
    let written = [
        0, 0, 0, 0, 0, 0, 0, 7, 16, 32, 48, 64, 0, 0, 0, 3, 97, 98, 99, 0, 0, 0, 0,
    ];
    assert!(rt; out.as_slice() == written.as_slice());
    assert!(rt; BigEndian::read_u64(&out) == 7);
}
