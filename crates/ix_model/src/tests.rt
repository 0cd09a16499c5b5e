//! Worked cases of the definitions, each written out by hand. A test ends where a call goes wrong.
use super::*;
use ix_record::{Occurrence, RecordValue, Relation, decode};
use ix_types::{FileName, OccRow, Roles, Row, Seq, Text};
use ix_unit::{RecordDep, UnitValue};
use std::alloc::Global;
use std::collections::BTreeMap;
use std::process::Abort;
use std::str::SplitWhitespace;

/// A record of a function of C and of a method of Swift that has no name.
const SYMBOLS: &[u8] =
    b"IXR1\0\0\0\x02\0\0\0\x0c\0\0\0\0\0\0\0\x01\0\0\0\x03c:A\0\0\0\x01A\0\0\0\x10\0\0\0\x64\0\0\0\x08\0\0\0\x03s:B\0\0\0\0\0\0\0\0";

/// Occurrences out of order: line, column, the symbol's index, roles, and the index and roles of the one relation. The last
/// names a symbol that isn't there, and the third has a relation to one.
const STANDING: &str = "\
7 3 1 2562 0 2560
4 5 0 1 1 512
2 9 1 6 2 512
2 8 1 5 0 512
1 1 2 2 0 512";

/// The rows of such a record without their path: line, column, USR, name, kind, language, properties, roles and relations.
const ROWS: &str = r#"
7 3 "s:B" "" 16 100 8 2562 [RelRow { usr: "c:A", roles: Roles { bits: 2560 } }]
4 5 "c:A" "A" 12 0 1 1 [RelRow { usr: "s:B", roles: Roles { bits: 512 } }]
2 9 "s:B" "" 16 100 8 6 []
2 8 "s:B" "" 16 100 8 5 [RelRow { usr: "c:A", roles: Roles { bits: 512 } }]
"#;

fn text(alloc: Global, rt: &impl Abort, text: &str) -> Text {
    Text::read_or_empty(alloc, text.as_bytes()).expect(rt, "a text")
}

fn name(rt: &impl Abort, name: &str) -> FileName {
    FileName::read(name.as_bytes()).expect(rt, "a name")
}

fn number(rt: &impl Abort, words: &mut SplitWhitespace<'_>) -> u32 {
    words
        .next()
        .expect(rt, "a word")
        .parse()
        .expect(rt, "a number")
}

fn roles(rt: &impl Abort, words: &mut SplitWhitespace<'_>) -> Roles {
    Roles::new(number(rt, words)).expect(rt, "roles")
}

fn relations(alloc: Global, rt: &impl Abort, words: &mut SplitWhitespace<'_>) -> Seq<Relation> {
    let mut relations = Vec::new(alloc);
    let symbol = number(rt, words);
    let roles = roles(rt, words);
    relations
        .push(Relation { symbol, roles })
        .expect(rt, "memory");
    Seq::of(relations)
}

fn occurrence(alloc: Global, rt: &impl Abort, words: &mut SplitWhitespace<'_>) -> Occurrence {
    let line = number(rt, words);
    let column = number(rt, words);
    let symbol = number(rt, words);
    let roles = roles(rt, words);
    Occurrence {
        line,
        column,
        symbol,
        roles,
        relations: relations(alloc, rt, words),
    }
}

fn occurrences(alloc: Global, rt: &impl Abort) -> Seq<Occurrence> {
    let mut all = Vec::new(alloc);
    for line in STANDING.lines() {
        all.push(occurrence(alloc, rt, &mut line.split_whitespace()))
            .expect(rt, "memory");
    }
    Seq::of(all)
}

fn value(alloc: Global, rt: &impl Abort) -> RecordValue {
    let mut value = decode(alloc, SYMBOLS).expect(rt, "a record");
    value.occurrences = occurrences(alloc, rt);
    value
}

fn values(alloc: Global, rt: &impl Abort, count: usize) -> Seq<RecordValue> {
    let mut values = Vec::new(alloc);
    for _ in 0..count {
        values.push(value(alloc, rt)).expect(rt, "memory");
    }
    Seq::of(values)
}

/// Record dependencies, as `a.swift=f1`.
fn deps(alloc: Global, rt: &impl Abort, words: &str) -> Seq<RecordDep> {
    let mut deps = Vec::new(alloc);
    for word in words.split_whitespace() {
        let (path, digits) = word.split_once('=').expect(rt, "a path and a name");
        let path = text(alloc, rt, path);
        let name = name(rt, digits);
        deps.push(RecordDep {
            path,
            system: false,
            name,
        })
        .expect(rt, "memory");
    }
    Seq::of(deps)
}

/// A unit of an output path with these record dependencies, and the worked record for each of the first of them.
fn stored(alloc: Global, rt: &impl Abort, output: &str, words: &str, count: usize) -> StoredUnit {
    let unit = UnitValue {
        output: text(alloc, rt, output),
        main_file: text(alloc, rt, ""),
        module_name: text(alloc, rt, ""),
        system: false,
        units: Seq::of(Vec::new(alloc)),
        records: deps(alloc, rt, words),
        files: Seq::of(Vec::new(alloc)),
        includes: Seq::of(Vec::new(alloc)),
    };
    let values = values(alloc, rt, count);
    StoredUnit { unit, values }
}

/// Two units. The first lists a record under two paths, and one of which no value is known; the second lists it again.
fn units(alloc: Global, rt: &impl Abort) -> BTreeMap<FileName, StoredUnit> {
    let mut units = BTreeMap::new(alloc);
    let again = stored(alloc, rt, "again", "a.swift=f2", 1);
    change(
        &mut units,
        Publication::Put {
            name: name(rt, "0b"),
            unit: again,
        },
    )
    .expect(rt, "memory");
    let first = stored(alloc, rt, "first", "b.h=f2 a.swift=f1 c.h=0c", 2);
    change(
        &mut units,
        Publication::Put {
            name: name(rt, "0a"),
            unit: first,
        },
    )
    .expect(rt, "memory");
    units
}

/// Checks where a row stands, and that it is the worked row of that place.
fn check_row(alloc: Global, rt: &impl Abort, row: &OccRow, want: &str) {
    let place = format!(in alloc; "{:?}:{}:{}", row.path, row.line, row.column).expect(
        rt, "memory",
    );
    assert!(rt; place.as_str() == want, "{want}");
    let shown = format!(in alloc;
        "\n{} {} {:?} {:?} {} {} {} {} {:?}\n",
        row.line,
        row.column,
        row.usr,
        row.name,
        row.kind.bits(),
        row.lang.bits(),
        row.props.bits(),
        row.roles.bits(),
        row.relations
    )
    .expect(rt, "memory");
    assert!(rt; ROWS.contains(shown.as_str()), "{shown}");
}

#[test]
fn units_have_the_rows_of_their_records(rt: HostRuntime) {
    let alloc = rt.alloc();
    let rows = rows(alloc, &units(alloc, &rt)).expect(&rt, "rows");
    let mut words =
        r#""b.h":7:3 "b.h":4:5 "b.h":2:9 "b.h":2:8 "a.swift":7:3 "a.swift":4:5 "a.swift":2:9 "a.swift":2:8
        "a.swift":7:3 "a.swift":4:5 "a.swift":2:9 "a.swift":2:8"#
            .split_whitespace();
    for row in &rows {
        check_row(alloc, &rt, row, words.next().expect(&rt, "no more rows"));
    }
    assert!(rt; words.next().is_none());
}

/// USRs, and where they are defined, or declared where no row defines them.
const DEFINED: &str = r#"
s:B = "a.swift":2:9 "a.swift":7:3 "b.h":2:9 "b.h":7:3
c:A = "a.swift":4:5 "b.h":4:5
c: = 
"#;

/// Checks which rows the definitions of a USR are.
fn check_definitions(alloc: Global, rt: &impl Abort, usr: &str, want: &str) {
    let rows = definitions_of(alloc, &text(alloc, rt, usr), &units(alloc, rt)).expect(rt, "rows");
    let mut words = want.split_whitespace();
    for row in rows.as_slice() {
        if let Row::Occ(row) = row {
            check_row(alloc, rt, row, words.next().expect(rt, "no more rows"));
        }
    }
    assert!(rt; words.next().is_none(), "{usr}");
}

#[test]
fn definitions_come_before_declarations(rt: HostRuntime) {
    for line in DEFINED.lines() {
        if let Some((usr, want)) = line.split_once(" = ") {
            check_definitions(rt.alloc(), &rt, usr, want);
        }
    }
}

#[test]
fn units_need_their_records_once_each(rt: HostRuntime) {
    let alloc = rt.alloc();
    let names = needs(alloc, &units(alloc, &rt)).expect(&rt, "names");
    let mut words = "0c f1 f2".split_whitespace();
    for name in &names {
        assert!(rt; words.next().expect(&rt, "no more names").as_bytes() == name.bytes());
    }
    assert!(rt; words.next().is_none());
}

/// Two units come, one of them again, and two names go, of which one isn't there.
fn changes(alloc: Global, rt: &impl Abort) -> Vec<Publication> {
    let mut all = Vec::new(alloc);
    for word in "0b=o1 0a=o2 0b=o3 0a= 0c=".split_whitespace() {
        let (digits, output) = word.split_once('=').expect(rt, "a change");
        let name = name(rt, digits);
        let change = if output.is_empty() {
            Publication::Gone { name }
        } else {
            Publication::Put {
                name,
                unit: stored(alloc, rt, output, "", 0),
            }
        };
        all.push(change).expect(rt, "memory");
    }
    all
}

/// Checks the names and output paths of the units at a mark.
fn check_mark(alloc: Global, rt: &impl Abort, mark: u64, want: &str) {
    let units = units_at(alloc, changes(alloc, rt), mark).expect(rt, "units");
    let mut words = want.split_whitespace();
    for (name, stored) in &units {
        let word = words.next().expect(rt, "no more units");
        let (digits, output) = word.split_once('=').expect(rt, "a unit");
        assert!(rt; name.bytes() == digits.as_bytes(), "{word}");
        assert!(rt; stored.unit.output.bytes() == output.as_bytes(), "{word}");
    }
    assert!(rt; words.next().is_none(), "{want}");
}

#[test]
fn a_mark_has_the_units_of_its_publications(rt: HostRuntime) {
    let marks = "0\n1 0b=o1\n2 0a=o2 0b=o1\n3 0a=o2 0b=o3\n4 0b=o3\n5 0b=o3\n9 0b=o3";
    for line in marks.lines() {
        let (mark, want) = line.split_once(' ').unwrap_or((line, ""));
        check_mark(rt.alloc(), &rt, mark.parse().expect(&rt, "a mark"), want);
    }
}
