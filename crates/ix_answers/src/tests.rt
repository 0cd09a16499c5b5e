//! A small store, and the answers and needs of each form of query worked out by hand.
ghost use Rattle.std.specs.Prelude.{◌<◌};

use super::*;
use ix_model::StoredUnit;
use ix_record::RecordValue;
use ix_types::{EdgeRow, FileName, Memory, OccRow, Query, Roles, Row, Seq, Text};
use ix_unit::RecordDep;
use std::alloc::Global;
use std::collections::BTreeMap;
use std::process::Abort;

/// The files of the store in hex digits, each under its name. Units a and b share record 2, which b lists under two paths; c lists a
/// path as a file and has no main file; d includes that path and doesn't list it. Two occurrences have two relations: c:big is a child of
/// c:Circle and overrides c:area, and s:f at 6:3 is contained by s:f and called by s:g.
const STORE: &str = "\
record 1 49585232000000050000000c000000000000000000000008633a436972636c6500000006436972636c65000000000000000c000000000000000000000007633a5368617065000000055368617065000000065f53686170650000000c000000000000000000000006633a6172656100000006617265612829000000000000000c000000000000000000000005633a6269670000000441726561000000000000000c000000000000000000000006633a6d61696e000000046d61696e000000055f6d61696e00000008000000010000000100000001000000020000000000000002000000010000000000000002000000000000000200000005000000010000040400000001000004000000000000000003000000010000000300000a020000000200000200000000000000080000000002000000040000000100000004000000010000000000000005000000010000000400000002000000000000000600000002000000020000202400000001000020000000000400000007000000020000000400002024000000010000200000000002\n\
record 2 49585231000000010000000c000000000000000000000006633a6172656100000006617265612829000000010000000400000005000000000000000100000000\n\
record 3 49585231000000020000000c000000000000000000000006633a61726561000000066172656128290000000c000000000000000000000005633a7573650000000375736500000002000000010000000100000001000000020000000000000002000000020000000000002024000000010000200000000001\n\
record 4 49585231000000020000000c000000000000000000000003733a66000000000000000c000000000000000000000003733a670000000000000005000000010000000600000000000000020000000000000002000000030000000100002024000000010000200000000000000000030000000300000000000020240000000100002000000000000000000500000006000000010000000200000000000000060000000300000000000120240000000200010000000000000000200000000001\n\
record 9c498cadf2014879ffd80ce7f89feab86a2032e0b6b10d67628e078624a563f5 495852310000000100000006000000640000000000000005733a314d410000000141000000010000000100000008000000000000000200000000\n\
unit a 4958553100000003612e6f00000003612e630000000000000000000000030000000200000003612e630000000000000001310000000200000003752e6800000000000000013200000003000000057374642e68000000000000000200000003612e630000000100000003752e6800000003612e6300000002000000057374642e681621d0bd6af802fdca77f69153901c54c23dc7ce4250e2c188034a356540652b\n\
unit b 4958553100000003622e6f00000003622e630000000000000000000000030000000200000003622e630000000000000001330000000200000003752e680000000000000001320000000200000003762e680000000000000001320000000100000003622e630000000100000003752e68883998b7a9c43ac0a4c76043494f1bb9f1911ae099d49a707d2777351d7ed862\n\
unit c 4958553100000003632e6f000000000000000000000000000000010000000300000003752e6800000000000000005d24cccf1f26da8fa1cf06c70b89c027c014cddc3badde8553d6f8692bcc8e69\n\
unit d 4958553100000003642e6f00000003642e630000000000000000000000010000000200000007722e73776966740000000000000001340000000100000003642e630000000100000003752e686f4ac10ad78a4ab69a447c467446127d2ff6d214e3a27a377916b53da1b80e04\n\
unit ba7816bf8f01cfea414140de5dae2223b00361a396177a9cb410ff61f20015ad 495855310000000361626300000007612e7377696674000000014d00000000000000010000000200000007612e73776966740000000000000040396334393863616466323031343837396666643830636537663839666561623836613230333265306236623130643637363238653037383632346135363366350000000089fb523845df90b5aff46262f8c7e3d88786957aa1cd72c9c9885240c9debcc3";

/// The kind of a query, its word and text and what more it asks, its rows and the records that it needs. Of a row of an occurrence stand path, line, column and USR; of an edge depth, ends,
/// path, line and column.
const ANSWERS: &str = "\
s def c:main => a.c:5:1=c:main | 1
s def c:area => u.h:4:5=c:area v.h:4:5=c:area | 1 2 3
s def c:none => |
s refs c:area => a.c:6:2=c:area b.c:2:2=c:area | 1 2 3
occ occ c:main 3 => a.c:4:1=c:main a.c:5:1=c:main | 1
rel rel c:main 9216 => a.c:6:2=c:area | 1
rel rel c:Circle 9216 => a.c:2:5=c:Shape | 1
s callers c:area => a.c:6:2=c:area b.c:2:2=c:area | 1 2 3
s callers c:Shape => | 1
s overrides c:area => a.c:3:1=c:big | 1
s overrides c:Circle => | 1
rel rel c:Circle 512 => a.c:3:1=c:big | 1
rel rel s:g 8192 => r.swift:6:3=s:f | 4
rel rel s:f 8192 => r.swift:2:3=s:g r.swift:3:3=s:f | 4
s callers s:f => r.swift:3:3=s:f r.swift:6:3=s:f | 4
s name area() => u.h:4:5=c:area v.h:4:5=c:area | 1 2 3
s name Area => a.c:3:1=c:big | 1
t pattern AREA f => a.c:3:1=c:big u.h:4:5=c:area v.h:4:5=c:area | 1 2 3
t pattern AREA fse => a.c:3:1=c:big | 1
t pattern AREA p => |
t pattern rea e => a.c:3:1=c:big | 1
t pattern ma s => a.c:5:1=c:main | 1
t pattern ai p => a.c:5:1=c:main | 1
p symbols u.h => u.h:4:5=c:area | 2
p symbols a.c => a.c:1:1=c:Shape a.c:2:1=c:Circle a.c:3:1=c:big a.c:4:1=c:main a.c:5:1=c:main | 1
p mains u.h => a.c b.c |
p units u.h => a b c |
p includes a.c => std.h u.h |
p includers u.h => a.c b.c d.c |
w incoming c:area 1 => 1:c:area>c:main@a.c:6:2 1:c:area>c:use@b.c:2:2 | 1 2 3
w incoming c:area 16 => 1:c:area>c:main@a.c:6:2 1:c:area>c:use@b.c:2:2 2:c:main>c:area@a.c:7:2 | 1 2 3 1 3
w incoming s:f 16 => 1:s:f>s:f@r.swift:3:3 1:s:f>s:g@r.swift:6:3 2:s:g>s:f@r.swift:2:3 | 4 4
w outgoing c:use 16 => 1:c:use>c:area@b.c:2:2 2:c:area>c:main@a.c:7:2 3:c:main>c:area@a.c:6:2 | 3 1 1
w supertypes c:Circle 2 => 1:c:Circle>c:Shape@a.c:2:5 | 1
w subtypes c:Shape 2 => 1:c:Shape>c:Circle@a.c:2:5 | 1 1
s codegen _main => a.c:5:1=c:main | 1
s codegen => |
s def s:1MA => a.swift:1:8=s:1MA | 9c498cadf2014879ffd80ce7f89feab86a2032e0b6b10d67628e078624a563f5";

/// The kind of a query, its word and text and what more it asks, the records that are loaded, and the one that comes next.
const NEXT: &str = "\
s def c:area | 1 => 2
s refs c:area | 2 => 1
occ occ c:area 4 | 1 2 => 3
s callers c:area | 1 3 => 2
s name area() | 3 1 => 2
t pattern AREA f | 2 3 => 1
w incoming c:area 16 | 1 2 => 3
w outgoing c:use 16 | 1 => 3
w outgoing c:use 16 | 3 => 1
w supertypes c:Circle 2 | 2 => 1
w subtypes c:Shape 2 | 3 => 1";

/// The kind of a look-up, its word and key, and what it finds.
const LOOKUPS: &str = "\
n providers c:area => 1 2 3
n providers s:1MA => 9c498cadf2014879ffd80ce7f89feab86a2032e0b6b10d67628e078624a563f5
n related c:area => 1
n related s:f => 4
t named area() => c:area
t named A => s:1MA
t coded _Shape => c:Shape
t coded =>
n in_path v.h => 2
n in_path std.h =>
r paths 2 => u.h v.h
n listing u.h => a b c
t names =>  A Area Circle Shape area() main use
";

/// A package of three files of Swift and a header of C, as a compiler would index it.
const PACKAGE: &str = "\
record 0c412e714c1fbf08572399e339ed2a8aade8cb278af01d2e1c5cc7edbdb59c23 49585231000000020000000700000064000000000000000d733a334170703553686170654300000005536861706500000010000000640000000000000016733a33417070355368617065433461726561536979460000000661726561282900000002000000010000000700000000000000020000000000000002000000080000000100000202000000010000020000000000\n\
record 2a3b1dc9d0b2aeb7caa2b3fd199154dd9ea017849d646b3cba2f7aa43b532278 49585231000000030000000c00000064000000000000000e733a33417070346d61696e797946000000066d61696e282900000010000000640000000000000016733a3341707035536861706543346172656153697946000000066172656128290000000700000064000000000000000e733a3341707036436972636c654300000006436972636c65000000030000000100000006000000000000000200000000000000020000000d000000020001000400000001000100000000000000000003000000090000000100012064000000010001200000000000\n\
record a721c50737005466f43caae3b6ff03da9eb8eccba606d7aa9788d266499161aa 49585231000000010000000c00000000000000000000000a633a404640636c616d7000000005636c616d70000000010000000400000005000000000000000100000000\n\
record e47e00ec78d236682ad4fc22f280a883e4c2505f2e240856f241d33382e36fb0 49585231000000050000000c00000000000000000000000a633a404640636c616d7000000005636c616d700000000700000064000000000000000d733a334170703553686170654300000005536861706500000010000000640000000000000016733a3341707035536861706543346172656153697946000000066172656128290000000700000064000000000000000e733a3341707036436972636c654300000006436972636c6500000010000000640000000000000017733a3341707036436972636c654334617265615369794600000006617265612829000000040000000100000007000000030000000200000000000000010000000f000000010000040400000001000004000000000300000002000000110000000400000a020000000200000800000000020000020000000003000000030000000c0000000000012024000000010001200000000004\n\
unit 3e7dc397fa49d0eda406c37d4165646da3dec450577282b3714d5f830a0d6591 49585531000000092f6f2f6d61696e2e6f0000000a6d61696e2e7377696674000000034170700000000000000004000000010000000b2f6f2f436972636c652e6f000000010000000a2f6f2f53686170652e6f000000020000000a6d61696e2e737769667400000000000000403261336231646339643062326165623763616132623366643139393135346464396561303137383439643634366233636261326637616134336235333232373800000002000000067574696c2e6800000000000000406137323163353037333730303534363666343363616165336236666630336461396562386563636261363036643761613937383864323636343939313631616100000000b5d00e1684514134df84dfd6327a643b7b513ca54a1d88aadada3b76e91ec373\n\
unit a92ac48d182a00527673d478479363dca7305991e95af1c321379e041747f36e 495855310000000a2f6f2f53686170652e6f0000000b53686170652e7377696674000000034170700000000000000001000000020000000b53686170652e73776966740000000000000040306334313265373134633166626630383537323339396533333965643261386161646538636232373861663031643265316335636337656462646235396332330000000094070715a5a06617adef9a3b1058864977d8226423eefd128e770ae29cb73272\n\
unit c5f42e49feb077298f3631b383687ec35d78d9b3f8aba1ae6097b5a6803fee27 495855310000000b2f6f2f436972636c652e6f0000000c436972636c652e7377696674000000034170700000000000000003000000010000000a2f6f2f53686170652e6f000000020000000c436972636c652e737769667400000000000000406534376530306563373864323336363832616434666332326632383061383833653463323530356632653234303835366632343164333333383265333666623000000002000000067574696c2e6800000000000000406137323163353037333730303534363666343363616165336236666630336461396562386563636261363036643761613937383864323636343939313631616100000000b443101ebf888645d7808dab9d9a75f720afd166ddded8cacf9efb8449233a8d";

/// The answers over the package, from an independent implementation, and the records that each needs.
const PACKAGE_ANSWERS: &str = "\
s def c:@F@clamp => util.h:4:5=c:@F@clamp | a721c50737005466f43caae3b6ff03da9eb8eccba606d7aa9788d266499161aa e47e00ec78d236682ad4fc22f280a883e4c2505f2e240856f241d33382e36fb0
s refs s:3App5ShapeC => Circle.swift:1:15=s:3App5ShapeC | 0c412e714c1fbf08572399e339ed2a8aade8cb278af01d2e1c5cc7edbdb59c23 e47e00ec78d236682ad4fc22f280a883e4c2505f2e240856f241d33382e36fb0
s overrides s:3App5ShapeC4areaSiyF => Circle.swift:2:17=s:3App6CircleC4areaSiyF | e47e00ec78d236682ad4fc22f280a883e4c2505f2e240856f241d33382e36fb0
s callers c:@F@clamp => Circle.swift:3:12=c:@F@clamp | a721c50737005466f43caae3b6ff03da9eb8eccba606d7aa9788d266499161aa e47e00ec78d236682ad4fc22f280a883e4c2505f2e240856f241d33382e36fb0
w supertypes s:3App6CircleC 2 => 1:s:3App6CircleC>s:3App5ShapeC@Circle.swift:1:15 | e47e00ec78d236682ad4fc22f280a883e4c2505f2e240856f241d33382e36fb0 0c412e714c1fbf08572399e339ed2a8aade8cb278af01d2e1c5cc7edbdb59c23
p mains util.h => Circle.swift main.swift |
t pattern area s => Circle.swift:2:17=s:3App6CircleC4areaSiyF Shape.swift:2:8=s:3App5ShapeC4areaSiyF | 0c412e714c1fbf08572399e339ed2a8aade8cb278af01d2e1c5cc7edbdb59c23 2a3b1dc9d0b2aeb7caa2b3fd199154dd9ea017849d646b3cba2f7aa43b532278 e47e00ec78d236682ad4fc22f280a883e4c2505f2e240856f241d33382e36fb0";

fn text(rt: &impl Abort, alloc: Global, text: &str) -> Text {
    Text::read_or_empty(alloc, text.as_bytes()).expect(rt, "a text")
}

fn file_name(rt: &impl Abort, name: &str) -> FileName {
    FileName::read(name.as_bytes()).expect(rt, "a name")
}

/// The value of a hex digit.
fn nibble(digit: u8) -> u8
    ensures { result < 16 }
{
    match digit {
        b'0'..=b'9' => digit - b'0',
        b'a'..=b'f' => digit - b'a' + 10,
        _ => 0,
    }
}

/// The bytes that hex digits are.
fn bytes_of(rt: &impl Abort, alloc: Global, digits: &str) -> Vec<u8> {
    let mut bytes = Vec::new(alloc);
    for pair in digits.as_bytes().chunks(2) {
        if let [high, low] = pair {
            bytes
                .push(nibble(*high) * 16 + nibble(*low))
                .expect(rt, "memory");
        }
    }
    bytes
}

/// What stands before the first space, and what behind it.
fn split(line: &str) -> (&str, &str) {
    line.split_once(' ').unwrap_or((line, ""))
}

/// The hex digits of the record of a name.
fn digits_of<'a>(files: &'a str, name: &FileName) -> &'a str {
    for line in files.lines() {
        let (kind, rest) = split(line);
        let (other, digits) = split(rest);
        if kind == "record" && other.as_bytes() == name.bytes() {
            return digits;
        }
    }
    ""
}

/// The value of the record of a name.
fn record(rt: &impl Abort, alloc: Global, files: &str, name: &FileName) -> RecordValue {
    let bytes = bytes_of(rt, alloc, digits_of(files, name));
    ix_record::decode(alloc, bytes.as_slice()).expect(rt, "a record")
}

/// The values of the records of a unit.
fn values_of(rt: &impl Abort, alloc: Global, files: &str, deps: &[RecordDep]) -> Vec<RecordValue> {
    let mut values = Vec::new(alloc);
    for dep in deps {
        let value = record(rt, alloc, files, &dep.name);
        values.push(value).expect(rt, "memory");
    }
    values
}

/// The unit of hex digits, with the values of its records.
fn unit_of(rt: &impl Abort, alloc: Global, files: &str, digits: &str) -> StoredUnit {
    let bytes = bytes_of(rt, alloc, digits);
    let unit = ix_unit::decode(alloc, bytes.as_slice()).expect(rt, "a unit");
    let values = values_of(rt, alloc, files, unit.records.as_slice());
    StoredUnit {
        unit,
        values: Seq::of(values),
    }
}

/// Adds a unit of a name.
fn add_unit(
    rt: &impl Abort,
    units: &mut BTreeMap<FileName, StoredUnit>,
    name: FileName,
    unit: StoredUnit,
) {
    let is_added = units.insert(name, unit).is_ok();
    assert!(rt; is_added);
}

fn store(rt: &impl Abort, alloc: Global, files: &str) -> BTreeMap<FileName, StoredUnit> {
    let mut units = BTreeMap::new(alloc);
    for line in files.lines() {
        let (kind, rest) = split(line);
        let (name, digits) = split(rest);
        if kind == "unit" {
            let unit = unit_of(rt, alloc, files, digits);
            add_unit(rt, &mut units, file_name(rt, name), unit);
        }
    }
    units
}

/// The number that digits are.
fn number(word: &str) -> u32 {
    let mut number: u32 = 0;
    for digit in word.as_bytes() {
        number = number
            .wrapping_mul(10)
            .wrapping_add(u32::from(digit.wrapping_sub(b'0')));
    }
    number
}

fn roles(rt: &impl Abort, word: &str) -> Roles {
    Roles::new(number(word)).expect(rt, "roles")
}

/// The walk of a word, from a USR to a depth.
fn walk(word: &str, usr: Text, depth: u32) -> Query {
    match word {
        "incoming" => Query::Incoming { usr, depth },
        "outgoing" => Query::Outgoing { usr, depth },
        "supertypes" => Query::Supertypes { usr, depth },
        _ => Query::Subtypes { usr, depth },
    }
}

/// The pattern of a text; of its anchors and folding the first letters stand.
fn pattern(text: Text, more: &[u8]) -> Query {
    Query::Pattern {
        text,
        start: more.contains(&b's'),
        end: more.contains(&b'e'),
        fold: more.contains(&b'f'),
    }
}

/// The query of a word that asks for a path.
fn query_of_path(word: &str, path: Text) -> Query {
    match word {
        "symbols" => Query::Symbols { path },
        "mains" => Query::Mains { path },
        "units" => Query::Units { path },
        "includes" => Query::Includes { path },
        _ => Query::Includers { path },
    }
}

/// The query of a word that asks for a symbol.
fn query_of_symbol(word: &str, usr: Text) -> Query {
    match word {
        "def" => Query::Def { usr },
        "refs" => Query::Refs { usr },
        "callers" => Query::Callers { usr },
        "overrides" => Query::Overrides { usr },
        "name" => Query::Name { name: usr },
        _ => Query::Codegen { codegen: usr },
    }
}

/// The query of a kind: of a symbol, a path, roles, a pattern or a walk; of a word, a text, and what stands behind these.
fn query(rt: &impl Abort, kind: &str, word: &str, of: Text, more: &str) -> Query {
    match kind {
        "s" => query_of_symbol(word, of),
        "p" => query_of_path(word, of),
        "occ" => Query::Occ {
            usr: of,
            roles: roles(rt, more),
        },
        "rel" => Query::Rel {
            usr: of,
            roles: roles(rt, more),
        },
        "t" => pattern(of, more.as_bytes()),
        _ => walk(word, of, number(more)),
    }
}

/// The query of a line: its kind, word and text, with what stands behind these.
fn query_of_line(rt: &impl Abort, alloc: Global, line: &str) -> Query {
    let (kind, rest) = split(line);
    let (word, rest) = split(rest);
    let (of, more) = split(rest);
    query(rt, kind, word, text(rt, alloc, of), more)
}

fn push(rt: &impl Abort, out: &mut Vec<u8>, bytes: &[u8]) {
    out.extend_from_slice(bytes).expect(rt, "memory");
}

/// Appends a mark, and a number below 100.
fn push_number(rt: &impl Abort, out: &mut Vec<u8>, mark: &[u8], number: u32) {
    push(rt, out, mark);
    if number >= 10 {
        out.push(b'0' + (number / 10 % 10) as u8)
            .expect(rt, "memory");
    }
    out.push(b'0' + (number % 10) as u8).expect(rt, "memory");
}

/// Appends a place.
fn push_place(rt: &impl Abort, out: &mut Vec<u8>, path: &Text, line: u32, column: u32) {
    push(rt, out, path.bytes());
    push_number(rt, out, b":", line);
    push_number(rt, out, b":", column);
}

/// Appends what stands of an edge.
fn push_edge(rt: &impl Abort, out: &mut Vec<u8>, edge: &EdgeRow) {
    push_number(rt, out, b" ", edge.depth);
    push(rt, out, b":");
    push(rt, out, edge.from.bytes());
    push(rt, out, b">");
    push(rt, out, edge.to.bytes());
    push(rt, out, b"@");
    push_place(rt, out, &edge.path, edge.line, edge.column);
}

/// Appends what stands of an occurrence.
fn push_occurrence(rt: &impl Abort, out: &mut Vec<u8>, row: &OccRow) {
    push(rt, out, b" ");
    push_place(rt, out, &row.path, row.line, row.column);
    push(rt, out, b"=");
    push(rt, out, row.usr.bytes());
}

/// Appends a word, behind a space.
fn push_word(rt: &impl Abort, out: &mut Vec<u8>, word: &[u8]) {
    push(rt, out, b" ");
    push(rt, out, word);
}

/// Appends what stands of a row, behind a space.
fn push_row(rt: &impl Abort, out: &mut Vec<u8>, row: &Row) {
    match row {
        Row::Occ(row) => push_occurrence(rt, out, row),
        Row::Path(path) => push_word(rt, out, path.bytes()),
        Row::Unit(name) => push_word(rt, out, name.bytes()),
        Row::Edge(edge) => push_edge(rt, out, edge),
    }
}

/// Each name, behind a space.
fn names_shown(rt: &impl Abort, alloc: Global, names: &[FileName]) -> Vec<u8> {
    let mut shown = Vec::new(alloc);
    for name in names {
        push_word(rt, &mut shown, name.bytes());
    }
    shown
}

/// Each text, behind a space.
fn texts_shown(rt: &impl Abort, alloc: Global, texts: &[Text]) -> Vec<u8> {
    let mut shown = Vec::new(alloc);
    for text in texts {
        push_word(rt, &mut shown, text.bytes());
    }
    shown
}

/// Each row, behind a space.
fn rows_shown(rt: &impl Abort, alloc: Global, rows: &[Row]) -> Vec<u8> {
    let mut shown = Vec::new(alloc);
    for row in rows {
        push_row(rt, &mut shown, row);
    }
    shown
}

/// Whether the rows of the query are these.
fn has_rows(
    rt: &impl Abort,
    alloc: Global,
    units: &BTreeMap<FileName, StoredUnit>,
    query: &Query,
    want: &str,
) -> bool {
    let rows = answer(alloc, query, units).expect(rt, "memory");
    let shown = rows_shown(rt, alloc, rows.as_slice());
    shown.as_slice() == want.as_bytes()
}

/// Whether the query needs these records, the first of them where none is loaded, and none where all are.
fn has_needs(
    rt: &impl Abort,
    alloc: Global,
    units: &BTreeMap<FileName, StoredUnit>,
    query: &Query,
    want: &str,
) -> bool {
    let needed = need_of(alloc, query, units).expect(rt, "memory");
    let shown = names_shown(rt, alloc, needed.as_slice());
    let next = next_need(alloc, query, units, &[]).expect(rt, "memory");
    let last = next_need(alloc, query, units, needed.as_slice()).expect(rt, "memory");
    shown.as_slice() == want.as_bytes()
        && next == needed.as_slice().first().copied()
        && last.is_none()
}

/// Asserts that the rows and the needs of a query are those of the line.
fn expect_line(rt: &impl Abort, alloc: Global, units: &BTreeMap<FileName, StoredUnit>, line: &str) {
    let (asked, want) = line.split_once(" =>").expect(rt, "an answer");
    let (rows, needs) = want.split_once(" |").expect(rt, "needs");
    let query = query_of_line(rt, alloc, asked);
    let is_right = has_rows(rt, alloc, units, &query, rows)
        && has_needs(rt, alloc, units, &query, needs);
    assert!(rt; is_right, "{line}");
}

#[test]
fn each_query_has_its_rows_and_needs(rt: HostRuntime) {
    let alloc = rt.alloc();
    let units = store(&rt, alloc, STORE);
    for line in ANSWERS.lines() {
        expect_line(&rt, alloc, &units, line);
    }
}

#[test]
fn each_query_has_its_rows_and_needs_over_a_package(rt: HostRuntime) {
    let alloc = rt.alloc();
    let units = store(&rt, alloc, PACKAGE);
    for line in PACKAGE_ANSWERS.lines() {
        expect_line(&rt, alloc, &units, line);
    }
}

/// The names of some words.
fn names_of(rt: &impl Abort, alloc: Global, words: &str) -> Vec<FileName> {
    let mut names = Vec::new(alloc);
    for word in words.split(' ') {
        names.push(file_name(rt, word)).expect(rt, "memory");
    }
    names
}

/// Asserts that the record of the line comes next, where those of the line are loaded.
fn expect_next(rt: &impl Abort, alloc: Global, units: &BTreeMap<FileName, StoredUnit>, line: &str) {
    let (asked, want) = line.split_once(" => ").expect(rt, "a record");
    let (asked, names) = asked.split_once(" | ").expect(rt, "records");
    let query = query_of_line(rt, alloc, asked);
    let loaded = names_of(rt, alloc, names);
    let next = next_need(alloc, &query, units, loaded.as_slice()).expect(rt, "memory");
    let next = next.expect(rt, "a record");
    assert!(rt; next.bytes() == want.as_bytes(), "{line}");
}

#[test]
fn the_next_need_depends_on_what_is_loaded(rt: HostRuntime) {
    let alloc = rt.alloc();
    let units = store(&rt, alloc, STORE);
    for line in NEXT.lines() {
        expect_next(&rt, alloc, &units, line);
    }
}

/// The names that were found.
fn found_names(rt: &impl Abort, alloc: Global, found: Result<Seq<FileName>, Memory>) -> Vec<u8> {
    names_shown(rt, alloc, found.expect(rt, "memory").as_slice())
}

/// The texts that were found.
fn found_texts(rt: &impl Abort, alloc: Global, found: Result<Seq<Text>, Memory>) -> Vec<u8> {
    texts_shown(rt, alloc, found.expect(rt, "memory").as_slice())
}

/// What the look-up of a word finds that gives names.
fn names_found(
    rt: &impl Abort,
    alloc: Global,
    units: &BTreeMap<FileName, StoredUnit>,
    word: &str,
    key: &Text,
) -> Vec<u8> {
    match word {
        "providers" => found_names(rt, alloc, providers(alloc, key, units)),
        "related" => found_names(rt, alloc, related(alloc, key, units)),
        "in_path" => found_names(rt, alloc, in_path(alloc, key, units)),
        _ => found_names(rt, alloc, listing(alloc, key, units)),
    }
}

/// What the look-up of a word finds that gives texts.
fn texts_found(
    rt: &impl Abort,
    alloc: Global,
    units: &BTreeMap<FileName, StoredUnit>,
    word: &str,
    key: &Text,
) -> Vec<u8> {
    match word {
        "named" => found_texts(rt, alloc, named(alloc, key, units)),
        "coded" => found_texts(rt, alloc, coded(alloc, key, units)),
        _ => found_texts(rt, alloc, names(alloc, units)),
    }
}

/// What the look-up of a line finds: its kind, its word and its key.
fn found(
    rt: &impl Abort,
    alloc: Global,
    units: &BTreeMap<FileName, StoredUnit>,
    line: &str,
) -> Vec<u8> {
    let (kind, rest) = split(line);
    let (word, key) = split(rest);
    match kind {
        "n" => names_found(rt, alloc, units, word, &text(rt, alloc, key)),
        "t" => texts_found(rt, alloc, units, word, &text(rt, alloc, key)),
        _ => found_texts(rt, alloc, paths(alloc, &file_name(rt, key), units)),
    }
}

#[test]
fn each_look_up_finds_its_items(rt: HostRuntime) {
    let alloc = rt.alloc();
    let units = store(&rt, alloc, STORE);
    for line in LOOKUPS.lines() {
        let (asked, want) = line.split_once(" =>").expect(&rt, "what is found");
        let shown = found(&rt, alloc, &units, asked);
        assert!(rt; shown.as_slice() == want.as_bytes(), "{line}");
    }
}

/// Whether the name at the place is this one.
fn is_name_at(
    rt: &impl Abort,
    alloc: Global,
    units: &BTreeMap<FileName, StoredUnit>,
    place: u64,
    want: &[u8],
) -> bool {
    match name_at(alloc, place, units).expect(rt, "memory") {
        Some(name) => name.bytes() == want,
        None => want.is_empty(),
    }
}

/// Whether the unit at the place has this name.
fn is_unit_at(units: &BTreeMap<FileName, StoredUnit>, place: u64, want: &[u8]) -> bool {
    match unit_at(place, units) {
        Some((name, _)) => name.bytes() == want,
        None => want.is_empty(),
    }
}

/// Whether the unit of the name has this output path.
fn has_output(units: &BTreeMap<FileName, StoredUnit>, name: &FileName, want: &[u8]) -> bool {
    match unit(name, units) {
        Some(stored) => stored.unit.output.bytes() == want,
        None => want.is_empty(),
    }
}

#[test]
fn each_place_has_its_name_and_unit(rt: HostRuntime) {
    let alloc = rt.alloc();
    let units = store(&rt, alloc, STORE);
    assert!(rt; is_name_at(&rt, alloc, &units, 1, b"A"));
    assert!(rt; is_name_at(&rt, alloc, &units, 8, b""));
    assert!(rt;
        is_unit_at(
            &units,
            2,
            b"ba7816bf8f01cfea414140de5dae2223b00361a396177a9cb410ff61f20015ad"
        )
    );
    assert!(rt; is_unit_at(&units, 5, b""));
    assert!(rt; has_output(&units, &file_name(&rt, "c"), b"c.o"));
    assert!(rt; has_output(&units, &file_name(&rt, "e"), b""));
}
