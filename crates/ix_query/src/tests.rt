//! Answers over one record and one unit, worked out by hand.
ghost use Rattle.std.specs.Prelude.{◌≡◌, ◌<◌, true, Some};
ghost use Rattle.std.specs.Option.{option_copied};
ghost use Rattle.ix_needs.specs.Premises.{is_plain};

use super::*;
use ix_lookups::{Bodies, Lookups};
use ix_types::{FileName, OccRow, Query, Roles, Row, Text};
use ix_unit::UnitValue;
use std::alloc::Global;
use std::collections::BTreeMap;
use std::process::Abort;
use std::sync::Arc;

/// A record: bases, an override, a declaration and a definition, two calls.
const RECORD: &str =
    "49585232000000050000000c000000000000000000000008633a436972636c6500000006436972636c65000000000000000c000000000000000000000007633a5368617065000000055368617065000000065f53686170650000000c000000000000000000000006633a6172656100000006617265612829000000000000000c000000000000000000000005633a6269670000000441726561000000000000000c000000000000000000000006633a6d61696e000000046d61696e000000055f6d61696e00000008000000010000000100000001000000020000000000000002000000010000000000000002000000000000000200000005000000010000040400000001000004000000000000000003000000010000000300000a020000000200000200000000000000080000000002000000040000000100000004000000010000000000000005000000010000000400000002000000000000000600000002000000020000202400000001000020000000000400000007000000020000000400002024000000010000200000000002";

/// A unit a.o of a.c that includes two headers.
const UNIT: &str =
    "4958553100000003612e6f00000003612e630000000000000000000000030000000200000003612e630000000000000001310000000200000003752e6800000000000000013200000003000000057374642e68000000000000000200000003612e630000000100000003752e6800000003612e6300000002000000057374642e681621d0bd6af802fdca77f69153901c54c23dc7ce4250e2c188034a356540652b";

/// Look-ups that find the same whatever they are asked.
#[derive(Drop)]
struct Fixed {
    records: Vec<FileName>,
    usrs: Vec<Text>,
    names: Vec<Text>,
    paths: Vec<Text>,
    listing: Vec<FileName>,
    units: BTreeMap<FileName, UnitValue>,
}

impl Lookups for Fixed {
    ghost found = { λ f. record { providers = λ usr. f.records.items; related = λ usr. f.records.items; named = λ name. f.usrs.items; coded = λ codegen. f.usrs.items; in_path = λ path. f.records.items; paths = λ name. f.paths.items; listing = λ path. f.listing.items; names = f.names.items; units = f.units.entries } };

    fn providers(&self, _usr: &Text) -> &[FileName] {
        self.records.as_slice()
    }

    fn related(&self, _usr: &Text) -> &[FileName] {
        self.records.as_slice()
    }

    fn named(&self, _name: &Text) -> &[Text] {
        self.usrs.as_slice()
    }

    fn coded(&self, _codegen: &Text) -> &[Text] {
        self.usrs.as_slice()
    }

    fn name_at(&self, place: u64) -> Option<&Text> {
        self.names.get(place as usize)
    }

    fn in_path(&self, _path: &Text) -> &[FileName] {
        self.records.as_slice()
    }

    fn paths(&self, _name: &FileName) -> &[Text] {
        self.paths.as_slice()
    }

    fn listing(&self, _path: &Text) -> &[FileName] {
        self.listing.as_slice()
    }

    fn unit_at(&self, place: u64) -> Option<(&FileName, &UnitValue)> {
        self.units.iter().nth(place as usize)
    }

    fn unit(&self, name: &FileName) -> Option<&UnitValue> {
        self.units.get(name)
    }
}

fn text(rt: &impl Abort, alloc: Global, text: &str) -> Text {
    Text::read_or_empty(alloc, text.as_bytes()).expect(rt, "a text")
}

fn file_name(rt: &impl Abort, name: &str) -> FileName {
    FileName::read(name.as_bytes()).expect(rt, "a name")
}

/// The value of a hex digit.
fn nibble(digit: u8) -> u8
    ensures { result < 16 }
{
    match digit {
        b'0'..=b'9' => digit - b'0',
        b'a'..=b'f' => digit - b'a' + 10,
        _ => 0,
    }
}

/// The bytes that hex digits are.
fn bytes_of(rt: &impl Abort, alloc: Global, digits: &str) -> Vec<u8> {
    let mut bytes = Vec::new(alloc);
    for pair in digits.as_bytes().chunks(2) {
        if let [high, low] = pair {
            bytes
                .push(nibble(*high) * 16 + nibble(*low))
                .expect(rt, "memory");
        }
    }
    bytes
}

/// The names of some words.
fn names_of(rt: &impl Abort, alloc: Global, words: &str) -> Vec<FileName> {
    let mut names = Vec::new(alloc);
    for word in words.split(' ') {
        names.push(file_name(rt, word)).expect(rt, "memory");
    }
    names
}

/// The texts of some words.
fn texts_of(rt: &impl Abort, alloc: Global, words: &str) -> Vec<Text> {
    let mut texts = Vec::new(alloc);
    for word in words.split(' ') {
        texts.push(text(rt, alloc, word)).expect(rt, "memory");
    }
    texts
}

/// The unit, under the name a.
fn units_of(rt: &impl Abort, alloc: Global) -> BTreeMap<FileName, UnitValue> {
    let bytes = bytes_of(rt, alloc, UNIT);
    let unit = ix_unit::decode(alloc, bytes.as_slice()).expect(rt, "a unit");
    let mut units = BTreeMap::new(alloc);
    let is_added = units.insert(file_name(rt, "a"), unit).is_ok();
    assert!(rt; is_added);
    units
}

/// Each symbol in record 1 alone, which a.c lists; the names Area and main have the USRs c:big and c:main.
fn lookups(rt: &impl Abort, alloc: Global) -> Fixed {
    Fixed {
        records: names_of(rt, alloc, "1"),
        usrs: texts_of(rt, alloc, "c:big c:main"),
        names: texts_of(rt, alloc, "Area main"),
        paths: texts_of(rt, alloc, "a.c"),
        listing: names_of(rt, alloc, "a"),
        units: units_of(rt, alloc),
    }
}

/// Record 1, loaded.
fn bodies(rt: &impl Abort, alloc: Global) -> Bodies {
    let bytes = bytes_of(rt, alloc, RECORD);
    let record = ix_record::decode(alloc, bytes.as_slice()).expect(rt, "a record");
    let body = Arc::new(alloc, record).expect(rt, "memory");
    let mut bodies = Bodies::new(alloc);
    bodies.reserve().expect(rt, "memory");
    bodies.add(file_name(rt, "1"), body);
    bodies
}

fn push(rt: &impl Abort, out: &mut Vec<u8>, bytes: &[u8]) {
    out.extend_from_slice(bytes).expect(rt, "memory");
}

/// Appends the last digit of a number.
fn push_digit(rt: &impl Abort, out: &mut Vec<u8>, number: u32) {
    out.push(b'0' + (number % 10) as u8).expect(rt, "memory");
}

/// Appends what stands of an occurrence.
fn push_occurrence(rt: &impl Abort, out: &mut Vec<u8>, row: &OccRow) {
    push_digit(rt, out, row.line);
    push(rt, out, b":");
    push_digit(rt, out, row.column);
    push(rt, out, b"=");
    push(rt, out, row.usr.bytes());
}

/// Appends what stands of a row, and a space.
fn push_row(rt: &impl Abort, out: &mut Vec<u8>, row: &Row) {
    match row {
        Row::Occ(row) => push_occurrence(rt, out, row),
        Row::Path(path) => push(rt, out, path.bytes()),
        Row::Unit(name) => push(rt, out, name.bytes()),
        Row::Edge(_) => {}
    }
    push(rt, out, b" ");
}

/// Each row, with a space behind it.
fn rows_shown(rt: &impl Abort, alloc: Global, rows: &[Row]) -> Vec<u8> {
    let mut shown = Vec::new(alloc);
    for row in rows {
        push_row(rt, &mut shown, row);
    }
    shown
}

/// Whether the query has these rows, and needs record 1 where it needs any.
fn has_rows(rt: &impl Abort, alloc: Global, query: &Query, needs_one: bool, want: &str) -> bool
    requires { is_plain query.now ≡ true }
{
    let lookups = lookups(rt, alloc);
    let bodies = bodies(rt, alloc);
    let none = Bodies::new(alloc);
    let rows = answer(alloc, query, &lookups, &bodies).expect(rt, "memory");
    let shown = rows_shown(rt, alloc, rows.as_slice());
    let next = next_need(alloc, query, &lookups, &none).expect(rt, "memory");
    shown.as_slice() == want.as_bytes() && next.is_some() == needs_one
}

/// Asserts that a query that needs record 1 has these rows.
fn expect_rows(rt: &impl Abort, alloc: Global, query: Query, want: &str)
    requires { is_plain query ≡ true }
{
    let is_right = has_rows(rt, alloc, &query, true, want);
    assert!(rt; is_right, "{want}");
}

/// Asserts that a query that needs no record has these rows.
fn expect_paths(rt: &impl Abort, alloc: Global, query: Query, want: &str)
    requires { is_plain query ≡ true }
{
    let is_right = has_rows(rt, alloc, &query, false, want);
    assert!(rt; is_right, "{want}");
}

fn roles(rt: &impl Abort, bits: u32) -> Roles {
    Roles::new(bits).expect(rt, "roles")
}

#[test]
fn symbols_have_their_rows(rt: HostRuntime) {
    let alloc = rt.alloc();
    let usr = text(&rt, alloc, "c:main");
    expect_rows(&rt, alloc, Query::Def { usr }, "5:1=c:main ");
    let usr = text(&rt, alloc, "c:area");
    expect_rows(&rt, alloc, Query::Refs { usr }, "6:2=c:area ");
    let usr = text(&rt, alloc, "c:main");
    let mask = roles(&rt, 3);
    expect_rows(
        &rt,
        alloc,
        Query::Occ { usr, roles: mask },
        "4:1=c:main 5:1=c:main ",
    );
    let usr = text(&rt, alloc, "c:Circle");
    let mask = roles(&rt, 9216);
    expect_rows(&rt, alloc, Query::Rel { usr, roles: mask }, "2:5=c:Shape ");
    let usr = text(&rt, alloc, "c:area");
    expect_rows(&rt, alloc, Query::Callers { usr }, "6:2=c:area ");
    let usr = text(&rt, alloc, "c:area");
    expect_rows(&rt, alloc, Query::Overrides { usr }, "3:1=c:big ");
}

#[test]
fn names_and_paths_have_their_rows(rt: HostRuntime) {
    let alloc = rt.alloc();
    let name = text(&rt, alloc, "main");
    expect_rows(&rt, alloc, Query::Name { name }, "3:1=c:big 5:1=c:main ");
    let codegen = text(&rt, alloc, "_main");
    expect_rows(
        &rt,
        alloc,
        Query::Codegen { codegen },
        "3:1=c:big 5:1=c:main ",
    );
    let path = text(&rt, alloc, "a.c");
    expect_rows(
        &rt,
        alloc,
        Query::Symbols { path },
        "1:1=c:Shape 2:1=c:Circle 3:1=c:big 4:1=c:main 5:1=c:main ",
    );
    let path = text(&rt, alloc, "u.h");
    expect_paths(&rt, alloc, Query::Mains { path }, "a.c ");
    let path = text(&rt, alloc, "u.h");
    expect_paths(&rt, alloc, Query::Units { path }, "a ");
    let path = text(&rt, alloc, "a.c");
    expect_paths(&rt, alloc, Query::Includes { path }, "std.h u.h ");
    let path = text(&rt, alloc, "u.h");
    expect_paths(&rt, alloc, Query::Includers { path }, "a.c ");
}

/// The pattern of a text; its anchors and folding by their first letters.
fn pattern(rt: &impl Abort, alloc: Global, of: &str, more: &[u8]) -> Query
    ensures { is_plain result ≡ true }
{
    Query::Pattern {
        text: text(rt, alloc, of),
        start: more.contains(&b's'),
        end: more.contains(&b'e'),
        fold: more.contains(&b'f'),
    }
}

#[test]
fn patterns_match_the_names(rt: HostRuntime) {
    let alloc = rt.alloc();
    let both = "3:1=c:big 5:1=c:main ";
    expect_rows(&rt, alloc, pattern(&rt, alloc, "ai", b""), both);
    expect_rows(&rt, alloc, pattern(&rt, alloc, "ma", b"s"), both);
    expect_rows(&rt, alloc, pattern(&rt, alloc, "rea", b"e"), both);
    expect_rows(&rt, alloc, pattern(&rt, alloc, "AREA", b"sef"), both);
    expect_paths(&rt, alloc, pattern(&rt, alloc, "AREA", b""), "");
    expect_paths(&rt, alloc, pattern(&rt, alloc, "ain", b"s"), "");
    expect_paths(&rt, alloc, pattern(&rt, alloc, "Are", b"e"), "");
}

/// Whether a question that is opened needs a record beside those that are loaded.
fn needs_more(rt: &impl Abort, alloc: Global, bodies: &Bodies) -> bool {
    let usr = text(rt, alloc, "c:main");
    let query = Query::Def { usr };
    let lookups = lookups(rt, alloc);
    let mut question = Question::open(alloc, &query, &lookups).expect(rt, "memory");
    question.next_need(bodies).is_some()
}

#[test]
fn a_question_needs_what_is_not_loaded(rt: HostRuntime) {
    let alloc = rt.alloc();
    let none = Bodies::new(alloc);
    let needs_one = needs_more(&rt, alloc, &none);
    assert!(rt; needs_one);
    let loaded = bodies(&rt, alloc);
    let needs_another = needs_more(&rt, alloc, &loaded);
    assert!(rt; !needs_another);
}
