//! Asks of a version that stay open from load to load: what each lacks, one record after the other, and its rows. A test ends where a call goes wrong.
ghost use Rattle.std.specs.Prelude.{◌<◌, ℕ, List, IfSome, IsSome};
ghost use Rattle.ix_lookups.specs.Loaded.{body_named};
ghost use Rattle.ix_asking.specs.Open.{IsSafe};

use super::*;
use ix_asking::OpenAsk;
use ix_lookups::Bodies;
use ix_outline::Outline;
use ix_record::RecordValue;
use ix_tables::{Outlines, Tables, Version};
use ix_types::{EdgeRow, FileName, OccRow, Query, Row, Seq, Text};
use ix_unit::{Batch, UnitPut};
use std::alloc::Global;
use std::process::Abort;
use std::sync::Arc;

/// The files of the store in hex digits, each under its name. Units a and b share record 2, which b lists under two paths. In records 1 and 3 c:main and c:use call c:area, and c:area calls c:main.
const STORE: &str = "\
record 1 49585232000000050000000c000000000000000000000008633a436972636c6500000006436972636c65000000000000000c000000000000000000000007633a5368617065000000055368617065000000065f53686170650000000c000000000000000000000006633a6172656100000006617265612829000000000000000c000000000000000000000005633a6269670000000441726561000000000000000c000000000000000000000006633a6d61696e000000046d61696e000000055f6d61696e00000008000000010000000100000001000000020000000000000002000000010000000000000002000000000000000200000005000000010000040400000001000004000000000000000003000000010000000300000a020000000200000200000000000000080000000002000000040000000100000004000000010000000000000005000000010000000400000002000000000000000600000002000000020000202400000001000020000000000400000007000000020000000400002024000000010000200000000002\n\
record 2 49585231000000010000000c000000000000000000000006633a6172656100000006617265612829000000010000000400000005000000000000000100000000\n\
record 3 49585231000000020000000c000000000000000000000006633a61726561000000066172656128290000000c000000000000000000000005633a7573650000000375736500000002000000010000000100000001000000020000000000000002000000020000000000002024000000010000200000000001\n\
unit a 4958553100000003612e6f00000003612e630000000000000000000000030000000200000003612e630000000000000001310000000200000003752e6800000000000000013200000003000000057374642e68000000000000000200000003612e630000000100000003752e6800000003612e6300000002000000057374642e681621d0bd6af802fdca77f69153901c54c23dc7ce4250e2c188034a356540652b\n\
unit b 4958553100000003622e6f00000003622e630000000000000000000000030000000200000003622e630000000000000001330000000200000003752e680000000000000001320000000200000003762e680000000000000001320000000100000003622e630000000100000003752e68883998b7a9c43ac0a4c76043494f1bb9f1911ae099d49a707d2777351d7ed862";

fn text(rt: &impl Abort, alloc: Global, text: &str) -> Text {
    Text::read_or_empty(alloc, text.as_bytes()).expect(rt, "a text")
}

fn file_name(rt: &impl Abort, name: &str) -> FileName {
    FileName::read(name.as_bytes()).expect(rt, "a name")
}

/// The value of a hex digit.
fn nibble(digit: u8) -> u8
    ensures { result < 16 }
{
    match digit {
        b'0'..=b'9' => digit - b'0',
        b'a'..=b'f' => digit - b'a' + 10,
        _ => 0,
    }
}

/// The bytes that hex digits are.
fn bytes_of(rt: &impl Abort, alloc: Global, digits: &str) -> Vec<u8> {
    let mut bytes = Vec::new(alloc);
    for pair in digits.as_bytes().chunks(2) {
        if let [high, low] = pair {
            bytes
                .push(nibble(*high) * 16 + nibble(*low))
                .expect(rt, "memory");
        }
    }
    bytes
}

/// What stands before the first space, and what behind it.
fn split(line: &str) -> (&str, &str) {
    line.split_once(' ').unwrap_or((line, ""))
}

/// The hex digits of the record of a name.
fn digits_of<'a>(files: &'a str, name: &FileName) -> &'a str {
    for line in files.lines() {
        let (kind, rest) = split(line);
        let (other, digits) = split(rest);
        if kind == "record" && other.as_bytes() == name.bytes() {
            return digits;
        }
    }
    ""
}

/// The value of the record of a name.
fn record(rt: &impl Abort, alloc: Global, files: &str, name: &FileName) -> RecordValue {
    let bytes = bytes_of(rt, alloc, digits_of(files, name));
    ix_record::decode(alloc, bytes.as_slice()).expect(rt, "a record")
}

/// The units of a store, put.
fn puts_of(rt: &impl Abort, alloc: Global, files: &str) -> Vec<UnitPut> {
    let mut puts = Vec::new(alloc);
    for line in files.lines() {
        let (kind, rest) = split(line);
        let (name, digits) = split(rest);
        if kind == "unit" {
            let bytes = bytes_of(rt, alloc, digits);
            let unit = ix_unit::decode(alloc, bytes.as_slice()).expect(rt, "a unit");
            let unit = Arc::new(alloc, unit).expect(rt, "memory");
            let name = file_name(rt, name);
            puts.push(UnitPut { name, unit }).expect(rt, "memory");
        }
    }
    puts
}

/// The outlines of its records.
fn outlines_of(rt: &impl Abort, alloc: Global, files: &str) -> Outlines {
    let mut outlines = Outlines::new();
    for line in files.lines() {
        let (kind, rest) = split(line);
        let (name, digits) = split(rest);
        if kind == "record" {
            let bytes = bytes_of(rt, alloc, digits);
            let value = ix_record::decode(alloc, bytes.as_slice()).expect(rt, "a record");
            let outline = Outline::of(alloc, &value).expect(rt, "memory");
            let outline = Arc::new(alloc, outline).expect(rt, "memory");
            outlines = outlines
                .with(alloc, file_name(rt, name), outline)
                .expect(rt, "memory");
        }
    }
    outlines
}

/// The version of a store.
fn version_of(rt: &impl Abort, alloc: Global, files: &str) -> Version {
    let batch = Batch {
        puts: Seq::of(puts_of(rt, alloc, files)),
        gone: Seq::of(Vec::new(alloc)),
    };
    let outlines = outlines_of(rt, alloc, files);
    let tables = Tables::empty()
        .apply(alloc, &batch, &outlines)
        .expect(rt, "memory");
    Version { number: 1, tables }
}

fn push(rt: &impl Abort, out: &mut Vec<u8>, bytes: &[u8]) {
    out.extend_from_slice(bytes).expect(rt, "memory");
}

/// Appends a mark, and a number below 100.
fn push_number(rt: &impl Abort, out: &mut Vec<u8>, mark: &[u8], number: u32) {
    push(rt, out, mark);
    if number >= 10 {
        out.push(b'0' + (number / 10 % 10) as u8)
            .expect(rt, "memory");
    }
    out.push(b'0' + (number % 10) as u8).expect(rt, "memory");
}

/// Appends a place.
fn push_place(rt: &impl Abort, out: &mut Vec<u8>, path: &Text, line: u32, column: u32) {
    push(rt, out, path.bytes());
    push_number(rt, out, b":", line);
    push_number(rt, out, b":", column);
}

/// Appends what stands of an edge.
fn push_edge(rt: &impl Abort, out: &mut Vec<u8>, edge: &EdgeRow) {
    push_number(rt, out, b" ", edge.depth);
    push(rt, out, b":");
    push(rt, out, edge.from.bytes());
    push(rt, out, b">");
    push(rt, out, edge.to.bytes());
    push(rt, out, b"@");
    push_place(rt, out, &edge.path, edge.line, edge.column);
}

/// Appends what stands of an occurrence.
fn push_occurrence(rt: &impl Abort, out: &mut Vec<u8>, row: &OccRow) {
    push(rt, out, b" ");
    push_place(rt, out, &row.path, row.line, row.column);
    push(rt, out, b"=");
    push(rt, out, row.usr.bytes());
}

/// Appends a word, behind a space.
fn push_word(rt: &impl Abort, out: &mut Vec<u8>, word: &[u8]) {
    push(rt, out, b" ");
    push(rt, out, word);
}

/// Appends what stands of a row, behind a space.
fn push_row(rt: &impl Abort, out: &mut Vec<u8>, row: &Row) {
    match row {
        Row::Occ(row) => push_occurrence(rt, out, row),
        Row::Path(path) => push_word(rt, out, path.bytes()),
        Row::Unit(name) => push_word(rt, out, name.bytes()),
        Row::Edge(edge) => push_edge(rt, out, edge),
    }
}

/// Appends the rows, each behind a space.
fn push_rows(rt: &impl Abort, out: &mut Vec<u8>, rows: &[Row]) {
    push(rt, out, b" =>");
    for row in rows {
        push_row(rt, out, row);
    }
}

/// Loads the record of a name. What is loaded stays.
fn load(rt: &impl Abort, alloc: Global, bodies: &mut Bodies, name: FileName)
    ensures { (other : List ℕ) → IsSome (body_named other bodies.old) → IsSome (body_named other bodies.new) }
{
    let body = Arc::new(alloc, record(rt, alloc, STORE, &name)).expect(rt, "memory");
    bodies.reserve().expect(rt, "memory");
    bodies.add(name, body);
}

/// What an ask comes to, appended: the record that it lacks, which is then loaded, or its rows. The ask, where it stays open.
fn step(
    rt: &impl Abort,
    alloc: Global,
    out: &mut Vec<u8>,
    query: &Query,
    version: &Version,
    bodies: &mut Bodies,
    opened: Option<OpenAsk>,
) -> Option<OpenAsk>
    requires { IfSome opened (IsSafe query.now bodies.old) }
    ensures { IfSome result (IsSafe query.now bodies.new) }
{
    ix_asking::laws::loading_keeps_asks_open();
    let next = ask(alloc, query, version, bodies, opened).expect(rt, "memory");
    match next {
        Next::Rows(rows) => {
            push_rows(rt, out, rows.as_slice());
            None
        }
        Next::Lacks(name, opened) => {
            push_word(rt, out, name.bytes());
            load(rt, alloc, bodies, name);
            Some(opened)
        }
    }
}

/// Asserts that a query lacks three records, one after the other, and then has its rows.
fn expect_rows(rt: &impl Abort, alloc: Global, query: Query, want: &str) {
    let version = version_of(rt, alloc, STORE);
    let mut bodies = Bodies::new(alloc);
    let mut shown = Vec::new(alloc);
    let first = step(rt, alloc, &mut shown, &query, &version, &mut bodies, None);
    let second = step(rt, alloc, &mut shown, &query, &version, &mut bodies, first);
    let third = step(rt, alloc, &mut shown, &query, &version, &mut bodies, second);
    let last = step(rt, alloc, &mut shown, &query, &version, &mut bodies, third);
    let is_right = last.is_none() && shown.as_slice() == want.as_bytes();
    assert!(rt; is_right, "{want}");
}

#[test]
fn an_ask_stays_open_from_load_to_load(rt: HostRuntime) {
    let alloc = rt.alloc();
    let usr = text(&rt, alloc, "c:area");
    expect_rows(
        &rt,
        alloc,
        Query::Def { usr },
        " 1 2 3 => u.h:4:5=c:area v.h:4:5=c:area",
    );
    let usr = text(&rt, alloc, "c:area");
    expect_rows(
        &rt,
        alloc,
        Query::Callers { usr },
        " 1 2 3 => a.c:6:2=c:area b.c:2:2=c:area",
    );
    let usr = text(&rt, alloc, "c:area");
    expect_rows(
        &rt,
        alloc,
        Query::Incoming { usr, depth: 16 },
        " 1 2 3 => 1:c:area>c:main@a.c:6:2 1:c:area>c:use@b.c:2:2 2:c:main>c:area@a.c:7:2",
    );
}
