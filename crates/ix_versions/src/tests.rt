//! Queries of all eighteen forms over versions of small stores: what each loads, one record after the other, and its rows. A test ends where a call goes wrong.
ghost use Rattle.std.specs.Prelude.{◌<◌};

use super::*;
use ix_lookups::Bodies;
use ix_outline::Outline;
use ix_record::RecordValue;
use ix_tables::{Outlines, Tables, Version};
use ix_types::{EdgeRow, FileName, OccRow, Query, Roles, Row, Seq, Text};
use ix_unit::{Batch, UnitPut};
use std::alloc::Global;
use std::process::Abort;
use std::sync::Arc;

/// The files of the store in hex digits, each under its name. Units a and b share record 2, which b lists under two paths; c lists a
/// path as a file and has no main file; d includes that path and doesn't list it. Two occurrences have two relations: c:big is a child of
/// c:Circle and overrides c:area, and s:f at 6:3 is contained by s:f and called by s:g.
const STORE: &str = "\
record 1 49585232000000050000000c000000000000000000000008633a436972636c6500000006436972636c65000000000000000c000000000000000000000007633a5368617065000000055368617065000000065f53686170650000000c000000000000000000000006633a6172656100000006617265612829000000000000000c000000000000000000000005633a6269670000000441726561000000000000000c000000000000000000000006633a6d61696e000000046d61696e000000055f6d61696e00000008000000010000000100000001000000020000000000000002000000010000000000000002000000000000000200000005000000010000040400000001000004000000000000000003000000010000000300000a020000000200000200000000000000080000000002000000040000000100000004000000010000000000000005000000010000000400000002000000000000000600000002000000020000202400000001000020000000000400000007000000020000000400002024000000010000200000000002\n\
record 2 49585231000000010000000c000000000000000000000006633a6172656100000006617265612829000000010000000400000005000000000000000100000000\n\
record 3 49585231000000020000000c000000000000000000000006633a61726561000000066172656128290000000c000000000000000000000005633a7573650000000375736500000002000000010000000100000001000000020000000000000002000000020000000000002024000000010000200000000001\n\
record 4 49585231000000020000000c000000000000000000000003733a66000000000000000c000000000000000000000003733a670000000000000005000000010000000600000000000000020000000000000002000000030000000100002024000000010000200000000000000000030000000300000000000020240000000100002000000000000000000500000006000000010000000200000000000000060000000300000000000120240000000200010000000000000000200000000001\n\
record 9c498cadf2014879ffd80ce7f89feab86a2032e0b6b10d67628e078624a563f5 495852310000000100000006000000640000000000000005733a314d410000000141000000010000000100000008000000000000000200000000\n\
unit a 4958553100000003612e6f00000003612e630000000000000000000000030000000200000003612e630000000000000001310000000200000003752e6800000000000000013200000003000000057374642e68000000000000000200000003612e630000000100000003752e6800000003612e6300000002000000057374642e681621d0bd6af802fdca77f69153901c54c23dc7ce4250e2c188034a356540652b\n\
unit b 4958553100000003622e6f00000003622e630000000000000000000000030000000200000003622e630000000000000001330000000200000003752e680000000000000001320000000200000003762e680000000000000001320000000100000003622e630000000100000003752e68883998b7a9c43ac0a4c76043494f1bb9f1911ae099d49a707d2777351d7ed862\n\
unit c 4958553100000003632e6f000000000000000000000000000000010000000300000003752e6800000000000000005d24cccf1f26da8fa1cf06c70b89c027c014cddc3badde8553d6f8692bcc8e69\n\
unit d 4958553100000003642e6f00000003642e630000000000000000000000010000000200000007722e73776966740000000000000001340000000100000003642e630000000100000003752e686f4ac10ad78a4ab69a447c467446127d2ff6d214e3a27a377916b53da1b80e04\n\
unit ba7816bf8f01cfea414140de5dae2223b00361a396177a9cb410ff61f20015ad 495855310000000361626300000007612e7377696674000000014d00000000000000010000000200000007612e73776966740000000000000040396334393863616466323031343837396666643830636537663839666561623836613230333265306236623130643637363238653037383632346135363366350000000089fb523845df90b5aff46262f8c7e3d88786957aa1cd72c9c9885240c9debcc3";

/// The kind of a query, its word and text and what more it asks, the records that it loads, in order, and its rows. Of a row of an occurrence stand path, line, column and USR; of an edge depth,
/// ends, path, line and column.
const ANSWERS: &str = "\
s def c:main | 1 => a.c:5:1=c:main
s def c:area | 1 2 3 => u.h:4:5=c:area v.h:4:5=c:area
s def c:none | =>
s refs c:area | 1 2 3 => a.c:6:2=c:area b.c:2:2=c:area
occ occ c:main 3 | 1 => a.c:4:1=c:main a.c:5:1=c:main
rel rel c:main 9216 | 1 => a.c:6:2=c:area
rel rel c:Circle 9216 | 1 => a.c:2:5=c:Shape
s callers c:area | 1 2 3 => a.c:6:2=c:area b.c:2:2=c:area
s callers c:Shape | 1 =>
s overrides c:area | 1 => a.c:3:1=c:big
s overrides c:Circle | 1 =>
rel rel c:Circle 512 | 1 => a.c:3:1=c:big
rel rel s:g 8192 | 4 => r.swift:6:3=s:f
rel rel s:f 8192 | 4 => r.swift:2:3=s:g r.swift:3:3=s:f
s callers s:f | 4 => r.swift:3:3=s:f r.swift:6:3=s:f
s name area() | 1 2 3 => u.h:4:5=c:area v.h:4:5=c:area
s name Area | 1 => a.c:3:1=c:big
t pattern AREA f | 1 2 3 => a.c:3:1=c:big u.h:4:5=c:area v.h:4:5=c:area
t pattern AREA fse | 1 => a.c:3:1=c:big
t pattern AREA p | =>
t pattern rea e | 1 => a.c:3:1=c:big
t pattern ma s | 1 => a.c:5:1=c:main
t pattern ai p | 1 => a.c:5:1=c:main
p symbols u.h | 2 => u.h:4:5=c:area
p symbols a.c | 1 => a.c:1:1=c:Shape a.c:2:1=c:Circle a.c:3:1=c:big a.c:4:1=c:main a.c:5:1=c:main
p mains u.h | => a.c b.c
p units u.h | => a b c
p includes a.c | => std.h u.h
p includers u.h | => a.c b.c d.c
w incoming c:area 1 | 1 2 3 => 1:c:area>c:main@a.c:6:2 1:c:area>c:use@b.c:2:2
w incoming c:area 16 | 1 2 3 => 1:c:area>c:main@a.c:6:2 1:c:area>c:use@b.c:2:2 2:c:main>c:area@a.c:7:2
w incoming s:f 16 | 4 => 1:s:f>s:f@r.swift:3:3 1:s:f>s:g@r.swift:6:3 2:s:g>s:f@r.swift:2:3
w outgoing c:use 16 | 3 1 => 1:c:use>c:area@b.c:2:2 2:c:area>c:main@a.c:7:2 3:c:main>c:area@a.c:6:2
w supertypes c:Circle 2 | 1 => 1:c:Circle>c:Shape@a.c:2:5
w subtypes c:Shape 2 | 1 => 1:c:Shape>c:Circle@a.c:2:5
s codegen _main | 1 => a.c:5:1=c:main
s codegen | =>
s def s:1MA | 9c498cadf2014879ffd80ce7f89feab86a2032e0b6b10d67628e078624a563f5 => a.swift:1:8=s:1MA";

/// A package of three files of Swift and a header of C, as a compiler would index it.
const PACKAGE: &str = "\
record 0c412e714c1fbf08572399e339ed2a8aade8cb278af01d2e1c5cc7edbdb59c23 49585231000000020000000700000064000000000000000d733a334170703553686170654300000005536861706500000010000000640000000000000016733a33417070355368617065433461726561536979460000000661726561282900000002000000010000000700000000000000020000000000000002000000080000000100000202000000010000020000000000\n\
record 2a3b1dc9d0b2aeb7caa2b3fd199154dd9ea017849d646b3cba2f7aa43b532278 49585231000000030000000c00000064000000000000000e733a33417070346d61696e797946000000066d61696e282900000010000000640000000000000016733a3341707035536861706543346172656153697946000000066172656128290000000700000064000000000000000e733a3341707036436972636c654300000006436972636c65000000030000000100000006000000000000000200000000000000020000000d000000020001000400000001000100000000000000000003000000090000000100012064000000010001200000000000\n\
record a721c50737005466f43caae3b6ff03da9eb8eccba606d7aa9788d266499161aa 49585231000000010000000c00000000000000000000000a633a404640636c616d7000000005636c616d70000000010000000400000005000000000000000100000000\n\
record e47e00ec78d236682ad4fc22f280a883e4c2505f2e240856f241d33382e36fb0 49585231000000050000000c00000000000000000000000a633a404640636c616d7000000005636c616d700000000700000064000000000000000d733a334170703553686170654300000005536861706500000010000000640000000000000016733a3341707035536861706543346172656153697946000000066172656128290000000700000064000000000000000e733a3341707036436972636c654300000006436972636c6500000010000000640000000000000017733a3341707036436972636c654334617265615369794600000006617265612829000000040000000100000007000000030000000200000000000000010000000f000000010000040400000001000004000000000300000002000000110000000400000a020000000200000800000000020000020000000003000000030000000c0000000000012024000000010001200000000004\n\
unit 3e7dc397fa49d0eda406c37d4165646da3dec450577282b3714d5f830a0d6591 49585531000000092f6f2f6d61696e2e6f0000000a6d61696e2e7377696674000000034170700000000000000004000000010000000b2f6f2f436972636c652e6f000000010000000a2f6f2f53686170652e6f000000020000000a6d61696e2e737769667400000000000000403261336231646339643062326165623763616132623366643139393135346464396561303137383439643634366233636261326637616134336235333232373800000002000000067574696c2e6800000000000000406137323163353037333730303534363666343363616165336236666630336461396562386563636261363036643761613937383864323636343939313631616100000000b5d00e1684514134df84dfd6327a643b7b513ca54a1d88aadada3b76e91ec373\n\
unit a92ac48d182a00527673d478479363dca7305991e95af1c321379e041747f36e 495855310000000a2f6f2f53686170652e6f0000000b53686170652e7377696674000000034170700000000000000001000000020000000b53686170652e73776966740000000000000040306334313265373134633166626630383537323339396533333965643261386161646538636232373861663031643265316335636337656462646235396332330000000094070715a5a06617adef9a3b1058864977d8226423eefd128e770ae29cb73272\n\
unit c5f42e49feb077298f3631b383687ec35d78d9b3f8aba1ae6097b5a6803fee27 495855310000000b2f6f2f436972636c652e6f0000000c436972636c652e7377696674000000034170700000000000000003000000010000000a2f6f2f53686170652e6f000000020000000c436972636c652e737769667400000000000000406534376530306563373864323336363832616434666332326632383061383833653463323530356632653234303835366632343164333333383265333666623000000002000000067574696c2e6800000000000000406137323163353037333730303534363666343363616165336236666630336461396562386563636261363036643761613937383864323636343939313631616100000000b443101ebf888645d7808dab9d9a75f720afd166ddded8cacf9efb8449233a8d";

/// What is asked of the package.
const PACKAGE_ANSWERS: &str = "\
s def c:@F@clamp | a721c50737005466f43caae3b6ff03da9eb8eccba606d7aa9788d266499161aa e47e00ec78d236682ad4fc22f280a883e4c2505f2e240856f241d33382e36fb0 => util.h:4:5=c:@F@clamp
s refs s:3App5ShapeC | 0c412e714c1fbf08572399e339ed2a8aade8cb278af01d2e1c5cc7edbdb59c23 e47e00ec78d236682ad4fc22f280a883e4c2505f2e240856f241d33382e36fb0 => Circle.swift:1:15=s:3App5ShapeC
s overrides s:3App5ShapeC4areaSiyF | e47e00ec78d236682ad4fc22f280a883e4c2505f2e240856f241d33382e36fb0 => Circle.swift:2:17=s:3App6CircleC4areaSiyF
s callers c:@F@clamp | a721c50737005466f43caae3b6ff03da9eb8eccba606d7aa9788d266499161aa e47e00ec78d236682ad4fc22f280a883e4c2505f2e240856f241d33382e36fb0 => Circle.swift:3:12=c:@F@clamp
w supertypes s:3App6CircleC 2 | e47e00ec78d236682ad4fc22f280a883e4c2505f2e240856f241d33382e36fb0 0c412e714c1fbf08572399e339ed2a8aade8cb278af01d2e1c5cc7edbdb59c23 => 1:s:3App6CircleC>s:3App5ShapeC@Circle.swift:1:15
p mains util.h | => Circle.swift main.swift
t pattern area s | 0c412e714c1fbf08572399e339ed2a8aade8cb278af01d2e1c5cc7edbdb59c23 2a3b1dc9d0b2aeb7caa2b3fd199154dd9ea017849d646b3cba2f7aa43b532278 e47e00ec78d236682ad4fc22f280a883e4c2505f2e240856f241d33382e36fb0 => Circle.swift:2:17=s:3App6CircleC4areaSiyF Shape.swift:2:8=s:3App5ShapeC4areaSiyF";

/// A unit whose record declares and defines `s:x`, declares `s:y`, and defines `Area` and `area()`; and one in which `s:f` calls `s:g` and itself, and `s:g` calls `s:f`.
const PAIR: &str = "\
record 7 495852310000000400000006000000640000000000000003733a3100000004417265610000000c000000640000000000000003733a32000000066172656128290000000c000000640000000000000003733a7800000001780000000c000000640000000000000003733a7900000001790000000500000001000000010000000200000001000000000000000100000009000000030000000100000000000000020000000100000002000000020000000000000003000000010000000000000002000000000000000400000001000000010000000200000000\n\
record 19 49585231000000020000000c000000640000000000000003733a6600000001660000000c000000640000000000000003733a6700000001670000000500000001000000060000000000000002000000000000000200000003000000010000202400000001000020000000000000000003000000030000000000002024000000010000200000000000000000050000000600000001000000020000000000000006000000030000000000002024000000010000200000000001\n\
unit a 4958553100000003782e6f00000007782e73776966740000000000000000000000010000000200000007782e737769667400000000000000013700000000786de520e1d206c2fb5fc7ba4bc1a317aec22510e42a108976cc844af187a5b5\n\
unit b 4958553100000003722e6f00000007722e73776966740000000000000000000000010000000200000007722e73776966740000000000000002313900000000857966484dcbd7df68139e4a5235bb234747ee23e8db7157eca3605e26049bbb";

/// What is asked of the two units.
const PAIR_ANSWERS: &str = "\
s def s:x | 7 => x.swift:2:1=s:x
s def s:y | 7 => x.swift:1:9=s:y
t pattern AREA f | 7 => x.swift:3:1=s:1 x.swift:4:1=s:2
t pattern AREA fse | 7 => x.swift:3:1=s:1
t pattern AREA p | =>
w incoming s:f 16 | 19 => 1:s:f>s:f@r.swift:3:3 1:s:f>s:g@r.swift:6:3 2:s:g>s:f@r.swift:2:3";

fn text(rt: &impl Abort, alloc: Global, text: &str) -> Text {
    Text::read_or_empty(alloc, text.as_bytes()).expect(rt, "a text")
}

fn file_name(rt: &impl Abort, name: &str) -> FileName {
    FileName::read(name.as_bytes()).expect(rt, "a name")
}

/// The value of a hex digit.
fn nibble(digit: u8) -> u8
    ensures { result < 16 }
{
    match digit {
        b'0'..=b'9' => digit - b'0',
        b'a'..=b'f' => digit - b'a' + 10,
        _ => 0,
    }
}

/// The bytes that hex digits are.
fn bytes_of(rt: &impl Abort, alloc: Global, digits: &str) -> Vec<u8> {
    let mut bytes = Vec::new(alloc);
    for pair in digits.as_bytes().chunks(2) {
        if let [high, low] = pair {
            bytes
                .push(nibble(*high) * 16 + nibble(*low))
                .expect(rt, "memory");
        }
    }
    bytes
}

/// What stands before the first space, and what behind it.
fn split(line: &str) -> (&str, &str) {
    line.split_once(' ').unwrap_or((line, ""))
}

/// The hex digits of the record of a name.
fn digits_of<'a>(files: &'a str, name: &FileName) -> &'a str {
    for line in files.lines() {
        let (kind, rest) = split(line);
        let (other, digits) = split(rest);
        if kind == "record" && other.as_bytes() == name.bytes() {
            return digits;
        }
    }
    ""
}

/// The value of the record of a name.
fn record(rt: &impl Abort, alloc: Global, files: &str, name: &FileName) -> RecordValue {
    let bytes = bytes_of(rt, alloc, digits_of(files, name));
    ix_record::decode(alloc, bytes.as_slice()).expect(rt, "a record")
}

/// The units of a store, put.
fn puts_of(rt: &impl Abort, alloc: Global, files: &str) -> Vec<UnitPut> {
    let mut puts = Vec::new(alloc);
    for line in files.lines() {
        let (kind, rest) = split(line);
        let (name, digits) = split(rest);
        if kind == "unit" {
            let bytes = bytes_of(rt, alloc, digits);
            let unit = ix_unit::decode(alloc, bytes.as_slice()).expect(rt, "a unit");
            let unit = Arc::new(alloc, unit).expect(rt, "memory");
            let name = file_name(rt, name);
            puts.push(UnitPut { name, unit }).expect(rt, "memory");
        }
    }
    puts
}

/// The outlines of its records.
fn outlines_of(rt: &impl Abort, alloc: Global, files: &str) -> Outlines {
    let mut outlines = Outlines::new();
    for line in files.lines() {
        let (kind, rest) = split(line);
        let (name, digits) = split(rest);
        if kind == "record" {
            let bytes = bytes_of(rt, alloc, digits);
            let value = ix_record::decode(alloc, bytes.as_slice()).expect(rt, "a record");
            let outline = Outline::of(alloc, &value).expect(rt, "memory");
            let outline = Arc::new(alloc, outline).expect(rt, "memory");
            outlines = outlines
                .with(alloc, file_name(rt, name), outline)
                .expect(rt, "memory");
        }
    }
    outlines
}

/// The version of a store.
fn version_of(rt: &impl Abort, alloc: Global, files: &str) -> Version {
    let batch = Batch {
        puts: Seq::of(puts_of(rt, alloc, files)),
        gone: Seq::of(Vec::new(alloc)),
    };
    let outlines = outlines_of(rt, alloc, files);
    let tables = Tables::empty()
        .apply(alloc, &batch, &outlines)
        .expect(rt, "memory");
    Version { number: 1, tables }
}

/// The number that digits are.
fn number(word: &str) -> u32 {
    let mut number: u32 = 0;
    for digit in word.as_bytes() {
        number = number
            .wrapping_mul(10)
            .wrapping_add(u32::from(digit.wrapping_sub(b'0')));
    }
    number
}

fn roles(rt: &impl Abort, word: &str) -> Roles {
    Roles::new(number(word)).expect(rt, "roles")
}

/// The walk of a word, from a USR to a depth.
fn walk(word: &str, usr: Text, depth: u32) -> Query {
    match word {
        "incoming" => Query::Incoming { usr, depth },
        "outgoing" => Query::Outgoing { usr, depth },
        "supertypes" => Query::Supertypes { usr, depth },
        _ => Query::Subtypes { usr, depth },
    }
}

/// The pattern of a text; of its anchors and folding the first letters stand.
fn pattern(text: Text, more: &[u8]) -> Query {
    Query::Pattern {
        text,
        start: more.contains(&b's'),
        end: more.contains(&b'e'),
        fold: more.contains(&b'f'),
    }
}

/// The query of a word that asks for a path.
fn query_of_path(word: &str, path: Text) -> Query {
    match word {
        "symbols" => Query::Symbols { path },
        "mains" => Query::Mains { path },
        "units" => Query::Units { path },
        "includes" => Query::Includes { path },
        _ => Query::Includers { path },
    }
}

/// The query of a word that asks for a symbol.
fn query_of_symbol(word: &str, usr: Text) -> Query {
    match word {
        "def" => Query::Def { usr },
        "refs" => Query::Refs { usr },
        "callers" => Query::Callers { usr },
        "overrides" => Query::Overrides { usr },
        "name" => Query::Name { name: usr },
        _ => Query::Codegen { codegen: usr },
    }
}

/// The query of a kind: of a symbol, a path, roles, a pattern or a walk; of a word, a text, and what stands behind these.
fn query(rt: &impl Abort, kind: &str, word: &str, of: Text, more: &str) -> Query {
    match kind {
        "s" => query_of_symbol(word, of),
        "p" => query_of_path(word, of),
        "occ" => Query::Occ {
            usr: of,
            roles: roles(rt, more),
        },
        "rel" => Query::Rel {
            usr: of,
            roles: roles(rt, more),
        },
        "t" => pattern(of, more.as_bytes()),
        _ => walk(word, of, number(more)),
    }
}

/// The query of a line: its kind, word and text, with what stands behind these.
fn query_of_line(rt: &impl Abort, alloc: Global, line: &str) -> Query {
    let (kind, rest) = split(line);
    let (word, rest) = split(rest);
    let (of, more) = split(rest);
    query(rt, kind, word, text(rt, alloc, of), more)
}

fn push(rt: &impl Abort, out: &mut Vec<u8>, bytes: &[u8]) {
    out.extend_from_slice(bytes).expect(rt, "memory");
}

/// Appends a mark, and a number below 100.
fn push_number(rt: &impl Abort, out: &mut Vec<u8>, mark: &[u8], number: u32) {
    push(rt, out, mark);
    if number >= 10 {
        out.push(b'0' + (number / 10 % 10) as u8)
            .expect(rt, "memory");
    }
    out.push(b'0' + (number % 10) as u8).expect(rt, "memory");
}

/// Appends a place.
fn push_place(rt: &impl Abort, out: &mut Vec<u8>, path: &Text, line: u32, column: u32) {
    push(rt, out, path.bytes());
    push_number(rt, out, b":", line);
    push_number(rt, out, b":", column);
}

/// Appends what stands of an edge.
fn push_edge(rt: &impl Abort, out: &mut Vec<u8>, edge: &EdgeRow) {
    push_number(rt, out, b" ", edge.depth);
    push(rt, out, b":");
    push(rt, out, edge.from.bytes());
    push(rt, out, b">");
    push(rt, out, edge.to.bytes());
    push(rt, out, b"@");
    push_place(rt, out, &edge.path, edge.line, edge.column);
}

/// Appends what stands of an occurrence.
fn push_occurrence(rt: &impl Abort, out: &mut Vec<u8>, row: &OccRow) {
    push(rt, out, b" ");
    push_place(rt, out, &row.path, row.line, row.column);
    push(rt, out, b"=");
    push(rt, out, row.usr.bytes());
}

/// Appends a word, behind a space.
fn push_word(rt: &impl Abort, out: &mut Vec<u8>, word: &[u8]) {
    push(rt, out, b" ");
    push(rt, out, word);
}

/// Appends what stands of a row, behind a space.
fn push_row(rt: &impl Abort, out: &mut Vec<u8>, row: &Row) {
    match row {
        Row::Occ(row) => push_occurrence(rt, out, row),
        Row::Path(path) => push_word(rt, out, path.bytes()),
        Row::Unit(name) => push_word(rt, out, name.bytes()),
        Row::Edge(edge) => push_edge(rt, out, edge),
    }
}

/// Loads the record of a name.
fn load(rt: &impl Abort, alloc: Global, files: &str, bodies: &mut Bodies, name: &FileName) {
    let body = Arc::new(alloc, record(rt, alloc, files, name)).expect(rt, "memory");
    bodies.reserve().expect(rt, "memory");
    bodies.add(*name, body);
}

/// Loads what a query needs, one record after the other, and appends each name behind a space. False where it needs nine and more.
fn load_all(
    rt: &impl Abort,
    alloc: Global,
    out: &mut Vec<u8>,
    files: &str,
    version: &Version,
    query: &Query,
    bodies: &mut Bodies,
) -> bool {
    for _ in 0..9 {
        let next = next_need(alloc, query, version, bodies).expect(rt, "memory");
        match next {
            Some(name) => {
                push_word(rt, out, name.bytes());
                load(rt, alloc, files, bodies, &name);
            }
            None => return true,
        }
    }
    false
}

/// Appends the rows, each behind a space.
fn push_rows(rt: &impl Abort, out: &mut Vec<u8>, rows: &[Row]) {
    push(rt, out, b" =>");
    for row in rows {
        push_row(rt, out, row);
    }
}

/// Asserts that the query of a line loads the records of the line and has its rows.
fn expect_line(rt: &impl Abort, alloc: Global, files: &str, version: &Version, line: &str) {
    let (asked, want) = line.split_once(" |").expect(rt, "what is wanted");
    let query = query_of_line(rt, alloc, asked);
    let mut bodies = Bodies::new(alloc);
    let mut shown = Vec::new(alloc);
    let is_all = load_all(rt, alloc, &mut shown, files, version, &query, &mut bodies);
    let rows = answer(alloc, &query, version, &bodies).expect(rt, "memory");
    push_rows(rt, &mut shown, rows.as_slice());
    let is_right = is_all && shown.as_slice() == want.as_bytes();
    assert!(rt; is_right, "{line}");
}

/// Asserts each line over the version of a store.
fn expect_lines(rt: &impl Abort, alloc: Global, files: &str, lines: &str) {
    let version = version_of(rt, alloc, files);
    for line in lines.lines() {
        expect_line(rt, alloc, files, &version, line);
    }
}

#[test]
fn each_query_loads_its_records_and_has_its_rows(rt: HostRuntime) {
    let alloc = rt.alloc();
    expect_lines(&rt, alloc, STORE, ANSWERS);
}

#[test]
fn each_query_has_its_rows_over_a_package(rt: HostRuntime) {
    let alloc = rt.alloc();
    expect_lines(&rt, alloc, PACKAGE, PACKAGE_ANSWERS);
}

#[test]
fn definitions_names_and_a_cycle_have_their_rows(rt: HostRuntime) {
    let alloc = rt.alloc();
    expect_lines(&rt, alloc, PAIR, PAIR_ANSWERS);
}

/// Whether a query over a version of no units needs nothing and answers nothing.
fn is_nothing(rt: &impl Abort, alloc: Global, query: &Query) -> bool {
    let version = Version {
        number: 0,
        tables: Tables::empty(),
    };
    let bodies = Bodies::new(alloc);
    let need = next_need(alloc, query, &version, &bodies).expect(rt, "memory");
    let rows = answer(alloc, query, &version, &bodies).expect(rt, "memory");
    need.is_none() && rows.as_slice().is_empty()
}

#[test]
fn no_units_have_no_rows(rt: HostRuntime) {
    let alloc = rt.alloc();
    let usr = Text::read(alloc, b"s:f").expect(&rt, "a text");
    assert!(rt; is_nothing(&rt, alloc, &Query::Def { usr }));
    let usr = Text::read(alloc, b"s:f").expect(&rt, "a text");
    assert!(rt; is_nothing(&rt, alloc, &Query::Incoming { usr, depth: 2 }));
}
