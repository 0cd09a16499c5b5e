//! Walks over a small store, worked out by hand: what each loads, in order, and its edges.
ghost use Rattle.std.specs.Prelude.{◌≡◌, ◌<◌, false, [], Some};
ghost use Rattle.std.specs.Option.{option_copied, option_map_or};
ghost use Rattle.std.specs.Map.{lookup};
ghost use Rattle.std.specs.BTreeMap.{is_at};
ghost use Rattle.ix_types.specs.Row.{text_cmp};
ghost use Rattle.ix_needs.specs.Premises.{is_plain};

use super::*;
use ix_lookups::{Bodies, Lookups};
use ix_types::{EdgeRow, FileName, Query, Row, Text};
use ix_unit::UnitValue;
use std::alloc::Global;
use std::collections::BTreeMap;
use std::process::Abort;
use std::sync::Arc;

/// The records, each under its name. In 1 c:Shape is a base of c:Circle, c:big overrides c:area, c:main calls c:area and c:area calls
/// c:main; in 3 c:use calls c:area; in 4 s:f calls s:g and itself, and s:g calls s:f; in 5 s:g0 calls s:g1, and in 6 s:g1 calls s:g0. In the last two Circle has the base Shape,
/// as a compiler would index a package.
const RECORDS: &str = "\
1 49585232000000050000000c000000000000000000000008633a436972636c6500000006436972636c65000000000000000c000000000000000000000007633a5368617065000000055368617065000000065f53686170650000000c000000000000000000000006633a6172656100000006617265612829000000000000000c000000000000000000000005633a6269670000000441726561000000000000000c000000000000000000000006633a6d61696e000000046d61696e000000055f6d61696e00000008000000010000000100000001000000020000000000000002000000010000000000000002000000000000000200000005000000010000040400000001000004000000000000000003000000010000000300000a020000000200000200000000000000080000000002000000040000000100000004000000010000000000000005000000010000000400000002000000000000000600000002000000020000202400000001000020000000000400000007000000020000000400002024000000010000200000000002\n\
2 49585231000000010000000c000000000000000000000006633a6172656100000006617265612829000000010000000400000005000000000000000100000000\n\
3 49585231000000020000000c000000000000000000000006633a61726561000000066172656128290000000c000000000000000000000005633a7573650000000375736500000002000000010000000100000001000000020000000000000002000000020000000000002024000000010000200000000001\n\
4 49585231000000020000000c000000000000000000000003733a66000000000000000c000000000000000000000003733a670000000000000005000000010000000600000000000000020000000000000002000000030000000100002024000000010000200000000000000000030000000300000000000020240000000100002000000000000000000500000006000000010000000200000000000000060000000300000000000120240000000200010000000000000000200000000001\n\
5 49585231000000020000000c000000640000000000000004733a67300000000266300000000c000000640000000000000004733a673100000002663100000002000000010000000100000000000000020000000000000002000000010000000100002024000000010000200000000000\n\
6 49585231000000020000000c000000640000000000000004733a67300000000266300000000c000000640000000000000004733a673100000002663100000002000000010000000100000001000000020000000000000002000000010000000000002024000000010000200000000001\n\
e47e00ec78d236682ad4fc22f280a883e4c2505f2e240856f241d33382e36fb0 49585231000000050000000c00000000000000000000000a633a404640636c616d7000000005636c616d700000000700000064000000000000000d733a334170703553686170654300000005536861706500000010000000640000000000000016733a3341707035536861706543346172656153697946000000066172656128290000000700000064000000000000000e733a3341707036436972636c654300000006436972636c6500000010000000640000000000000017733a3341707036436972636c654334617265615369794600000006617265612829000000040000000100000007000000030000000200000000000000010000000f000000010000040400000001000004000000000300000002000000110000000400000a020000000200000800000000020000020000000003000000030000000c0000000000012024000000010001200000000004\n\
0c412e714c1fbf08572399e339ed2a8aade8cb278af01d2e1c5cc7edbdb59c23 49585231000000020000000700000064000000000000000d733a334170703553686170654300000005536861706500000010000000640000000000000016733a33417070355368617065433461726561536979460000000661726561282900000002000000010000000700000000000000020000000000000002000000080000000100000202000000010000020000000000";

/// What look-ups find: the word, the key and what is found under it.
const FOUND: &str = "\
p c:area 1 2 3
p c:Circle 1
p c:Shape 1
p c:big 1
p c:main 1
p c:use 3
p s:f 4
p s:g 4
r c:area 1
r c:Circle 1
r c:main 1
r c:use 3
r s:f 4
r s:g 4
at 1 a.c
at 2 u.h v.h
at 3 b.c
at 4 r.swift
p s:g0 5 6
p s:g1 5 6
at 5 g/0.swift
at 6 g/1.swift
r s:3App6CircleC e47e00ec78d236682ad4fc22f280a883e4c2505f2e240856f241d33382e36fb0
r s:3App5ShapeC 0c412e714c1fbf08572399e339ed2a8aade8cb278af01d2e1c5cc7edbdb59c23
at e47e00ec78d236682ad4fc22f280a883e4c2505f2e240856f241d33382e36fb0 Circle.swift
at 0c412e714c1fbf08572399e339ed2a8aade8cb278af01d2e1c5cc7edbdb59c23 Shape.swift";

/// A walk, its start and its depth, the records that it loads in order, and its edges: depth, ends, path, line and column.
const WALKS: &str = "\
incoming c:area 1 | 1 2 3 => 1:c:area>c:main@a.c:6:2 1:c:area>c:use@b.c:2:2
incoming c:area 16 | 1 2 3 => 1:c:area>c:main@a.c:6:2 1:c:area>c:use@b.c:2:2 2:c:main>c:area@a.c:7:2
incoming s:f 1 | 4 => 1:s:f>s:f@r.swift:3:3 1:s:f>s:g@r.swift:6:3
incoming s:f 16 | 4 => 1:s:f>s:f@r.swift:3:3 1:s:f>s:g@r.swift:6:3 2:s:g>s:f@r.swift:2:3
incoming s:f 0 | =>
incoming c:none 16 | =>
outgoing c:use 1 | 3 => 1:c:use>c:area@b.c:2:2
outgoing c:use 2 | 3 1 => 1:c:use>c:area@b.c:2:2 2:c:area>c:main@a.c:7:2
outgoing c:use 16 | 3 1 => 1:c:use>c:area@b.c:2:2 2:c:area>c:main@a.c:7:2 3:c:main>c:area@a.c:6:2
outgoing c:Shape 16 | =>
supertypes c:Circle 2 | 1 => 1:c:Circle>c:Shape@a.c:2:5
supertypes c:Shape 2 | =>
subtypes c:Shape 2 | 1 => 1:c:Shape>c:Circle@a.c:2:5
subtypes c:Circle 2 | 1 =>
incoming s:g0 3 | 5 6 => 1:s:g0>s:g1@g/1.swift:2:1 2:s:g1>s:g0@g/0.swift:2:1
supertypes s:3App6CircleC 2 | e47e00ec78d236682ad4fc22f280a883e4c2505f2e240856f241d33382e36fb0 0c412e714c1fbf08572399e339ed2a8aade8cb278af01d2e1c5cc7edbdb59c23 => 1:s:3App6CircleC>s:3App5ShapeC@Circle.swift:1:15";

/// Look-ups of a few keys; each other look-up finds nothing.
#[derive(Drop)]
struct Few {
    providers: BTreeMap<Text, Vec<FileName>>,
    related: BTreeMap<Text, Vec<FileName>>,
    paths: BTreeMap<FileName, Vec<Text>>,
    no_names: Vec<FileName>,
    no_texts: Vec<Text>,
}

impl Lookups for Few {
    ghost found = { λ f. record { providers = λ usr. option_map_or (λ names. names.items) (lookup (is_at (text_cmp usr)) f.providers.entries) f.no_names.items; related = λ usr. option_map_or (λ names. names.items) (lookup (is_at (text_cmp usr)) f.related.entries) f.no_names.items; named = λ name. f.no_texts.items; coded = λ codegen. f.no_texts.items; in_path = λ path. f.no_names.items; paths = λ name. option_map_or (λ texts. texts.items) (lookup (is_at (text_cmp name)) f.paths.entries) f.no_texts.items; listing = λ path. f.no_names.items; names = []; units = [] } };

    fn providers(&self, usr: &Text) -> &[FileName] {
        match self.providers.get(usr) {
            Some(names) => names.as_slice(),
            None => self.no_names.as_slice(),
        }
    }

    fn related(&self, usr: &Text) -> &[FileName] {
        match self.related.get(usr) {
            Some(names) => names.as_slice(),
            None => self.no_names.as_slice(),
        }
    }

    fn named(&self, _name: &Text) -> &[Text] {
        self.no_texts.as_slice()
    }

    fn coded(&self, _codegen: &Text) -> &[Text] {
        self.no_texts.as_slice()
    }

    fn name_at(&self, _place: u64) -> Option<&Text> {
        None
    }

    fn in_path(&self, _path: &Text) -> &[FileName] {
        self.no_names.as_slice()
    }

    fn paths(&self, name: &FileName) -> &[Text] {
        match self.paths.get(name) {
            Some(texts) => texts.as_slice(),
            None => self.no_texts.as_slice(),
        }
    }

    fn listing(&self, _path: &Text) -> &[FileName] {
        self.no_names.as_slice()
    }

    fn unit_at(&self, _place: u64) -> Option<(&FileName, &UnitValue)> {
        None
    }

    fn unit(&self, _name: &FileName) -> Option<&UnitValue> {
        None
    }
}

fn text(rt: &impl Abort, alloc: Global, text: &str) -> Text {
    Text::read(alloc, text.as_bytes()).expect(rt, "a text")
}

fn file_name(rt: &impl Abort, name: &str) -> FileName {
    FileName::read(name.as_bytes()).expect(rt, "a name")
}

/// The value of a hex digit.
fn nibble(digit: u8) -> u8
    ensures { result < 16 }
{
    match digit {
        b'0'..=b'9' => digit - b'0',
        b'a'..=b'f' => digit - b'a' + 10,
        _ => 0,
    }
}

/// The bytes that hex digits are.
fn bytes_of(rt: &impl Abort, alloc: Global, digits: &str) -> Vec<u8> {
    let mut bytes = Vec::new(alloc);
    for pair in digits.as_bytes().chunks(2) {
        if let [high, low] = pair {
            bytes
                .push(nibble(*high) * 16 + nibble(*low))
                .expect(rt, "memory");
        }
    }
    bytes
}

/// The names of some words.
fn names_of(rt: &impl Abort, alloc: Global, words: &str) -> Vec<FileName> {
    let mut names = Vec::new(alloc);
    for word in words.split(' ') {
        names.push(file_name(rt, word)).expect(rt, "memory");
    }
    names
}

/// The texts of some words.
fn texts_of(rt: &impl Abort, alloc: Global, words: &str) -> Vec<Text> {
    let mut texts = Vec::new(alloc);
    for word in words.split(' ') {
        texts.push(text(rt, alloc, word)).expect(rt, "memory");
    }
    texts
}

/// Puts what a line says into the look-ups.
fn add_found(rt: &impl Abort, alloc: Global, few: &mut Few, word: &str, rest: &str) {
    let (key, found) = rest.split_once(' ').expect(rt, "a key");
    let is_added = match word {
        "p" => {
            let names = names_of(rt, alloc, found);
            few.providers.insert(text(rt, alloc, key), names).is_ok()
        }
        "r" => {
            let names = names_of(rt, alloc, found);
            few.related.insert(text(rt, alloc, key), names).is_ok()
        }
        _ => {
            let texts = texts_of(rt, alloc, found);
            few.paths.insert(file_name(rt, key), texts).is_ok()
        }
    };
    assert!(rt; is_added);
}

fn lookups(rt: &impl Abort, alloc: Global) -> Few {
    let mut few = Few {
        providers: BTreeMap::new(alloc),
        related: BTreeMap::new(alloc),
        paths: BTreeMap::new(alloc),
        no_names: Vec::new(alloc),
        no_texts: Vec::new(alloc),
    };
    for line in FOUND.lines() {
        let (word, rest) = line.split_once(' ').expect(rt, "a word");
        add_found(rt, alloc, &mut few, word, rest);
    }
    few
}

/// Loads the record of a name.
fn load(rt: &impl Abort, alloc: Global, bodies: &mut Bodies, name: &FileName) {
    for line in RECORDS.lines() {
        let (word, digits) = line.split_once(' ').expect(rt, "a name");
        if word.as_bytes() == name.bytes() {
            let bytes = bytes_of(rt, alloc, digits);
            let record = ix_record::decode(alloc, bytes.as_slice()).expect(rt, "a record");
            let body = Arc::new(alloc, record).expect(rt, "memory");
            bodies.reserve().expect(rt, "memory");
            bodies.add(*name, body);
        }
    }
}

fn push(rt: &impl Abort, out: &mut Vec<u8>, bytes: &[u8]) {
    out.extend_from_slice(bytes).expect(rt, "memory");
}

/// Appends the last two digits of a number, with no nought in front, and what follows it.
fn push_number(rt: &impl Abort, out: &mut Vec<u8>, number: u32, behind: &[u8]) {
    if number >= 10 {
        out.push(b'0' + (number / 10 % 10) as u8)
            .expect(rt, "memory");
    }
    out.push(b'0' + (number % 10) as u8).expect(rt, "memory");
    push(rt, out, behind);
}

fn push_edge(rt: &impl Abort, out: &mut Vec<u8>, edge: &EdgeRow) {
    push(rt, out, b" ");
    push_number(rt, out, edge.depth, b":");
    push(rt, out, edge.from.bytes());
    push(rt, out, b">");
    push(rt, out, edge.to.bytes());
    push(rt, out, b"@");
    push(rt, out, edge.path.bytes());
    push(rt, out, b":");
    push_number(rt, out, edge.line, b":");
    push_number(rt, out, edge.column, b"");
}

/// Appends the edges, each behind a space.
fn push_rows(rt: &impl Abort, out: &mut Vec<u8>, rows: &[Row]) {
    push(rt, out, b" =>");
    for row in rows {
        match row {
            Row::Edge(edge) => push_edge(rt, out, edge),
            _ => push(rt, out, b" no edge"),
        }
    }
}

/// The query of a line.
fn query(rt: &impl Abort, alloc: Global, word: &str, start: &str, depth: u32) -> Query
    ensures { is_plain result ≡ false }
{
    let usr = text(rt, alloc, start);
    match word {
        "incoming" => Query::Incoming { usr, depth },
        "outgoing" => Query::Outgoing { usr, depth },
        "supertypes" => Query::Supertypes { usr, depth },
        _ => Query::Subtypes { usr, depth },
    }
}

/// The depth of a word.
fn depth_of(word: &str) -> u32 {
    match word {
        "0" => 0,
        "1" => 1,
        "2" => 2,
        "3" => 3,
        _ => 16,
    }
}

/// Whether the call without an open walk asks for the same record.
fn is_same_need(
    rt: &impl Abort,
    alloc: Global,
    query: &Query,
    few: &Few,
    bodies: &Bodies,
    next: &Option<FileName>,
) -> bool
    requires { is_plain query.now ≡ false }
{
    let name = next_need(alloc, query, few, bodies).expect(rt, "memory");
    name == *next
}

/// Loads what a walk needs and appends the names, each behind a space. Answers whether both ways to ask gave the same names.
fn load_all(
    rt: &impl Abort,
    alloc: Global,
    out: &mut Vec<u8>,
    query: &Query,
    few: &Few,
    walk: &mut OpenWalk,
    bodies: &mut Bodies,
) -> bool
    requires { is_plain query.now ≡ false }
{
    for _ in 0..9 {
        let next = walk.next_need(alloc, few, bodies).expect(rt, "memory");
        if !is_same_need(rt, alloc, query, few, bodies, &next) {
            return false;
        }
        match next {
            Some(name) => {
                push(rt, out, b" ");
                push(rt, out, name.bytes());
                load(rt, alloc, bodies, &name);
            }
            None => return true,
        }
    }
    false
}

/// Whether a walk loads these records and has these edges.
fn has_walk(rt: &impl Abort, alloc: Global, query: &Query, few: &Few, want: &str) -> bool
    requires { is_plain query.now ≡ false }
{
    let mut bodies = Bodies::new(alloc);
    let mut shown = Vec::new(alloc);
    let mut walk = OpenWalk::open(alloc, query, few).expect(rt, "memory");
    let is_same = load_all(rt, alloc, &mut shown, query, few, &mut walk, &mut bodies);
    let again = answer(alloc, query, few, &bodies).expect(rt, "memory");
    let rows = walk.into_answer(alloc).expect(rt, "memory");
    push_rows(rt, &mut shown, rows.as_slice());
    is_same && rows.as_slice() == again.as_slice() && shown.as_slice() == want.as_bytes()
}

#[test]
fn each_walk_loads_its_records_and_has_its_edges(rt: HostRuntime) {
    let alloc = rt.alloc();
    let few = lookups(&rt, alloc);
    for line in WALKS.lines() {
        let (asked, want) = line.split_once(" |").expect(&rt, "what is wanted");
        let mut words = asked.split(' ');
        let word = words.next().expect(&rt, "a word");
        let start = words.next().expect(&rt, "a start");
        let depth = depth_of(words.next().expect(&rt, "a depth"));
        let query = query(&rt, alloc, word, start, depth);
        let is_right = has_walk(&rt, alloc, &query, &few, want);
        assert!(&rt; is_right, "{line}");
    }
}
