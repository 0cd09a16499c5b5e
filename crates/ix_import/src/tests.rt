//! Imports of the worked store: a unit of one record that comes and goes, and a query over the version. A test ends where a call goes wrong.
ghost use Rattle.std.specs.Prelude.{◌≡◌, ◌<◌, true, IsSome, IfOk};
ghost use Rattle.ix_model.specs.Units.{Units};
ghost use Rattle.ix_answers.specs.Answers.{answer};
ghost use Rattle.ix_needs.specs.Premises.{is_plain, Holds, AreNeedsLoaded};
ghost use Rattle.ix_outline.specs.Known.{AreTables};

use super::*;
use ix_lookups::Bodies;
use ix_record::RecordValue;
use ix_tables::{Tables, Version};
use ix_types::{FileName, Memory, Query, Row, Seq, Text};
use ix_unit::{Batch, Scan, UnitPut};
use std::alloc::Global;
use std::process::Abort;
use std::sync::Arc;

const UNIT_NAME: &str = "ba7816bf8f01cfea414140de5dae2223b00361a396177a9cb410ff61f20015ad";

const RECORD_NAME: &str = "9c498cadf2014879ffd80ce7f89feab86a2032e0b6b10d67628e078624a563f5";

/// The unit of output `abc`, whose file a.swift has the record.
const UNIT: &str =
    "495855310000000361626300000007612e7377696674000000014d00000000000000010000000200000007612e73776966740000000000000040396334393863616466323031343837396666643830636537663839666561623836613230333265306236623130643637363238653037383632346135363366350000000089fb523845df90b5aff46262f8c7e3d88786957aa1cd72c9c9885240c9debcc3";

/// The record, which defines `A`, of USR `s:1MA`, at 1:8.
const RECORD: &str =
    "495852310000000100000006000000640000000000000005733a314d410000000141000000010000000100000008000000000000000200000000";

fn file_name(rt: &impl Abort, name: &str) -> FileName {
    FileName::read(name.as_bytes()).expect(rt, "a name")
}

/// The value of a hex digit.
fn nibble(digit: u8) -> u8
    ensures { result < 16 }
{
    match digit {
        b'0'..=b'9' => digit - b'0',
        b'a'..=b'f' => digit - b'a' + 10,
        _ => 0,
    }
}

/// The bytes that hex digits are.
fn bytes_of(rt: &impl Abort, alloc: Global, digits: &str) -> Vec<u8> {
    let mut bytes = Vec::new(alloc);
    for pair in digits.as_bytes().chunks(2) {
        if let [high, low] = pair {
            bytes
                .push(nibble(*high) * 16 + nibble(*low))
                .expect(rt, "memory");
        }
    }
    bytes
}

/// The names of some words.
fn names_of(rt: &impl Abort, alloc: Global, words: &str) -> Seq<FileName> {
    let mut names = Vec::new(alloc);
    for word in words.split_whitespace() {
        names.push(file_name(rt, word)).expect(rt, "memory");
    }
    Seq::of(names)
}

fn record(rt: &impl Abort, alloc: Global) -> RecordValue {
    let file = bytes_of(rt, alloc, RECORD);
    ix_record::decode(alloc, file.as_slice()).expect(rt, "a record")
}

/// The unit, put.
fn puts(rt: &impl Abort, alloc: Global) -> Vec<UnitPut> {
    let file = bytes_of(rt, alloc, UNIT);
    let unit = ix_unit::decode(alloc, file.as_slice()).expect(rt, "a unit");
    let mut puts = Vec::new(alloc);
    puts.push(UnitPut {
        name: file_name(rt, UNIT_NAME),
        unit: Arc::new(alloc, unit).expect(rt, "memory"),
    })
    .expect(rt, "memory");
    puts
}

/// A scan with these new names, at whose mark some units are gone.
fn scan(
    rt: &impl Abort,
    alloc: Global,
    mark: u64,
    puts: Vec<UnitPut>,
    gone: &str,
    fresh: &str,
) -> Scan {
    Scan {
        mark,
        batch: Batch {
            puts: Seq::of(puts),
            gone: names_of(rt, alloc, gone),
        },
        fresh: names_of(rt, alloc, fresh),
    }
}

/// Begins an import of the unit, whose record is new.
fn begin(rt: &impl Abort, alloc: Global, importer: &mut Importer, mark: u64)
    ensures { IsSome importer.new.import }
{
    importer.begin(scan(rt, alloc, mark, puts(rt, alloc), "", RECORD_NAME));
}

/// Takes the record, which has to be the next new one.
fn take(rt: &impl Abort, alloc: Global, importer: &mut Importer)
    requires { IsSome importer.old.import }
    ensures { IsSome importer.new.import }
{
    let name = importer.next_new().expect(rt, "a new name");
    assert!(rt; name == file_name(rt, RECORD_NAME));
    importer
        .take(alloc, name, &record(rt, alloc))
        .expect(rt, "memory");
}

/// The version of an import that has taken all.
fn finish(rt: &impl Abort, alloc: Global, importer: &mut Importer) -> Arc<Version>
    requires { IsSome importer.old.import }
{
    let next = importer.next_new();
    assert!(rt; next.is_none());
    importer.finish(alloc).expect(rt, "memory")
}

/// Whether the version is that of a mark, with the unit or with none.
fn is_version(rt: &impl Abort, version: &Version, number: u64, has_unit: bool) -> bool {
    let unit = version.tables.unit(&file_name(rt, UNIT_NAME));
    version.number == number && unit.is_some() == has_unit
}

#[test]
fn imports_end_at_the_marks_of_their_scans(rt: HostRuntime) {
    let alloc = rt.alloc();
    let mut importer = Importer::new(alloc).expect(&rt, "memory");
    begin(&rt, alloc, &mut importer, 1);
    take(&rt, alloc, &mut importer);
    assert!(rt; importer.is_open());
    importer.abandon();
    assert!(rt; !importer.is_open());
    assert!(rt; importer.next_new().is_none());
    assert!(rt; is_version(&rt, importer.version(), 0, false));
    begin(&rt, alloc, &mut importer, 1);
    take(&rt, alloc, &mut importer);
    let first = finish(&rt, alloc, &mut importer);
    assert!(rt; is_version(&rt, &first, 1, true));
    importer.begin(scan(&rt, alloc, 2, Vec::new(alloc), UNIT_NAME, ""));
    let second = finish(&rt, alloc, &mut importer);
    assert!(rt; is_version(&rt, &second, 2, false));
    assert!(rt; is_version(&rt, &first, 1, true));
    assert!(rt; is_version(&rt, importer.version(), 2, false));
}

/// The answer over the tables of a version.
fn asked(alloc: Global, query: &Query, tables: &Tables, bodies: &Bodies) -> Result<Seq<Row>, Memory>
    requires { is_plain query.now ≡ true }
    ensures { IfOk result (λ rows. (units : Units) → AreTables units tables.now → Holds units bodies.now → AreNeedsLoaded query.now units bodies.now
        → rows ≡ answer query.now units) }
{
    tables.find_what_is_there();
    ix_query::answer(alloc, query, tables, bodies)
}

/// The record, loaded.
fn bodies(rt: &impl Abort, alloc: Global) -> Bodies {
    let body = Arc::new(alloc, record(rt, alloc)).expect(rt, "memory");
    let mut bodies = Bodies::new(alloc);
    bodies.reserve().expect(rt, "memory");
    bodies.add(file_name(rt, RECORD_NAME), body);
    bodies
}

#[test]
fn a_query_is_answered_over_a_version(rt: HostRuntime) {
    let alloc = rt.alloc();
    let mut importer = Importer::new(alloc).expect(&rt, "memory");
    begin(&rt, alloc, &mut importer, 1);
    take(&rt, alloc, &mut importer);
    let version = finish(&rt, alloc, &mut importer);
    let usr = Text::read(alloc, b"s:1MA").expect(&rt, "a text");
    let query = Query::Def { usr };
    let rows = asked(alloc, &query, &version.tables, &bodies(&rt, alloc)).expect(&rt, "memory");
    let is_right = match rows.as_slice() {
        [Row::Occ(row)] => row.line == 1
            && row.column == 8
            && row.path.bytes() == b"a.swift".as_slice(),
        _ => false,
    };
    assert!(rt; is_right);
}
