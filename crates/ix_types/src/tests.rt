//! Values whose answers are known from outside, and each public function once.
use super::*;
use std::alloc::Global;
use std::cmp::Ordering;
use std::process::Abort;
use std::test::Fail;

/// Bytes in hex, and why they are no text.
const TEXTS: &str = r#"|no bytes
61|
20|
7e|
c280|
c3a9|
f09f9880|
f48fbfbf|
61ff|not UTF-8 at byte 1
61c3|not UTF-8 at byte 1
c080|not UTF-8 at byte 0
eda080|not UTF-8 at byte 0
f09f98|not UTF-8 at byte 0
f4908080|not UTF-8 at byte 0
0aff|not UTF-8 at byte 1
610a|a control character at byte 1
00|a control character at byte 0
611f|a control character at byte 1
7f|a control character at byte 0
c3a90a|a control character at byte 2"#;

/// The rows of the kinds.
const KINDS: &str = r#"0 Unknown
1 Module
2 Namespace
3 NamespaceAlias
4 Macro
5 Enum
6 Struct
7 Class
8 Protocol
9 Extension
10 Union
11 TypeAlias
12 Function
13 Variable
14 Field
15 EnumConstant
16 InstanceMethod
17 ClassMethod
18 StaticMethod
19 InstanceProperty
20 ClassProperty
21 StaticProperty
22 Constructor
23 Destructor
24 ConversionFunction
25 Parameter
26 Using
1000 CommentTag"#;

/// The rows of the languages.
const LANGS: &str = r#"0 C
1 Objective-C
2 C++
100 Swift"#;

/// The rows of the roles and relations.
const ROLES: &str = r#"0 Declaration
1 Definition
2 Reference
3 Read
4 Write
5 Call
6 Dynamic
7 AddressOf
8 Implicit
9 ChildOf
10 BaseOf
11 OverrideOf
12 ReceivedBy
13 CalledBy
14 ExtendedBy
15 AccessorOf
16 ContainedBy
17 IBTypeOf
18 SpecializationOf"#;

/// The rows of the properties.
const PROPS: &str = r#"0 Generic
1 TemplatePartialSpecialization
2 TemplateSpecialization
3 UnitTest
4 IBAnnotated
5 IBOutletCollection
6 GKInspectable
7 Local
8 ProtocolInterface"#;

/// The rows of the words of queries.
const QUERIES: &str = r#"0 def
1 refs
2 occ
3 rel
4 callers
5 overrides
6 name
7 pattern
8 symbols
9 mains
10 units
11 includes
12 includers
13 incoming
14 outgoing
15 supertypes
16 subtypes
17 codegen"#;

/// The rows of the words of steps.
const VERBS: &str = r#"0 build
1 remove
2 poll
3 refresh
4 ask
5 release
6 collect"#;

/// How two values compare, by the bound alone.
fn order<T: Ord>(a: &T, b: &T) -> Ordering {
    a.cmp(b)
}

/// The same by the bound that may give none.
fn partial_order<T: PartialOrd>(a: &T, b: &T) -> Option<Ordering> {
    a.partial_cmp(b)
}

/// Whether two values are equal, by the bound alone.
fn same<T: Eq>(a: &T, b: &T) -> bool {
    a == b
}

fn name_by<N: Naming>(naming: &N, bytes: &[u8]) -> FileName {
    naming.name(bytes)
}

fn text(rt: &impl Abort, alloc: Global, bytes: &[u8]) -> Text {
    Text::read(alloc, bytes).expect(rt, "a text")
}

/// Why the bytes are no text; nothing where they are one.
fn refusal(alloc: Global, bytes: &[u8]) -> Result<String, Fail> {
    match Text::read(alloc, bytes) {
        Ok(_) => Ok(String::new(alloc)),
        Err(fault) => Ok(fault.to_string(alloc)?),
    }
}

#[test]
fn texts_are_refused_by_the_first_cause(rt: HostRuntime) -> Result<(), Fail> {
    for line in TEXTS.lines() {
        let (digits, want) = line.split_once("|").ok_or("no bar")?;
        let bytes = hex::decode(rt.alloc(), digits.as_bytes())?;
        let refusal = refusal(rt.alloc(), bytes.as_slice())?;
        assert_eq!(rt; refusal.as_str(), want, "{line}");
    }
    Ok(())
}

/// `len` bytes `a`, and at the end one that is no text.
fn refused_at(alloc: Global, len: usize) -> Result<String, Fail> {
    let mut bytes = vec![in alloc; b'a'; len]?;
    bytes.push(0xff)?;
    refusal(alloc, bytes.as_slice())
}

#[test]
fn texts_have_at_most_4096_bytes(rt: HostRuntime) -> Result<(), Fail> {
    let within = refused_at(rt.alloc(), 4095)?;
    assert_eq!(rt; within.as_str(), "not UTF-8 at byte 4095");
    let beyond = refused_at(rt.alloc(), 4096)?;
    assert_eq!(rt; beyond.as_str(), "more than 4096 bytes");
    Ok(())
}

#[test]
fn texts_keep_their_bytes(rt: HostRuntime) {
    let a = text(&rt, rt.alloc(), b"a");
    assert_eq!(rt; a.bytes(), b"a".as_slice());
    let copy = a.clone().expect(&rt, "memory");
    assert_eq!(rt; copy.bytes(), b"a".as_slice());
    let empty = Text::read_or_empty(rt.alloc(), &[]).expect(&rt, "a text");
    assert!(rt; empty.bytes().is_empty());
    assert!(rt; Text::read_or_empty(rt.alloc(), &[0x7f]).is_err());
}

#[test]
fn names_are_lower_case_hex(rt: HostRuntime) {
    for digits in "0 9 a f 09af".split(" ") {
        assert!(rt; FileName::read(digits.as_bytes()).is_some(), "{digits}");
    }
    for digits in "g A / : `".split(" ") {
        assert!(rt; FileName::read(digits.as_bytes()).is_none(), "{digits}");
    }
    assert!(rt; FileName::read(&[]).is_none());
    assert!(rt; FileName::read(&[b'a'; 64]).is_some());
    assert!(rt; FileName::read(&[b'a'; 65]).is_none());
}

/// The digests of the standard's text `abc` and of no byte.
#[test]
fn sha_names_by_digest(rt: HostRuntime) {
    let abc: &[u8] = b"ba7816bf8f01cfea414140de5dae2223b00361a396177a9cb410ff61f20015ad";
    let empty: &[u8] = b"e3b0c44298fc1c149afbf4c8996fb92427ae41e4649b934ca495991b7852b855";
    assert_eq!(rt; name_by(&Sha, b"abc").bytes(), abc);
    assert_eq!(rt; name_by(&Sha, b"").bytes(), empty);
}

#[test]
fn codes_are_known_at_their_bounds(rt: HostRuntime) {
    for code in [27, 999, 1001, u32::MAX] {
        assert!(rt; Kind::new(code).is_none(), "{code}");
    }
    for code in [3, 99, 101, u32::MAX] {
        assert!(rt; Lang::new(code).is_none(), "{code}");
    }
    for bits in [524_288, u32::MAX] {
        assert!(rt; Roles::new(bits).is_none(), "{bits}");
    }
    for bits in [512, u32::MAX] {
        assert!(rt; Props::new(bits).is_none(), "{bits}");
    }
}

fn roles_of(rt: &impl Abort, bits: u32) -> Roles {
    Roles::new(bits).expect(rt, "roles")
}

fn have_common_bit(rt: &impl Abort, a: u32, b: u32) -> bool {
    roles_of(rt, a).any(roles_of(rt, b))
}

#[test]
fn roles_share_bits(rt: HostRuntime) {
    assert!(rt; have_common_bit(&rt, 3, 2));
    assert!(rt; have_common_bit(&rt, 262_144, 262_144));
    assert!(rt; !have_common_bit(&rt, 1, 2));
    assert!(rt; !have_common_bit(&rt, 0, 524_287));
}

#[test]
fn relations_are_bits_9_to_18(rt: HostRuntime) {
    assert_eq!(rt; roles_of(&rt, 524_287).relation_part().bits(), 523_776);
    assert_eq!(rt; roles_of(&rt, 511).relation_part().bits(), 0);
    assert_eq!(rt; roles_of(&rt, 512).relation_part().bits(), 512);
    assert_eq!(rt; roles_of(&rt, 262_145).relation_part().bits(), 262_144);
}

fn name_of(rt: &impl Abort, digits: &str) -> FileName {
    FileName::read(digits.as_bytes()).expect(rt, "a name")
}

/// Asserts how two values compare, each way.
fn expect_order<T: Ord>(rt: &impl Abort, a: &T, b: &T, want: Ordering) {
    assert_eq!(rt; order(a, b), want);
    assert_eq!(rt; partial_order(a, b), Some(want));
    assert_eq!(rt; same(a, b), want.is_eq());
}

/// The same of two texts, and of two names with the same bytes.
fn expect_byte_order(rt: &impl Abort, alloc: Global, a: &str, b: &str, want: Ordering) {
    expect_order(rt, &name_of(rt, a), &name_of(rt, b), want);
    let a = text(rt, alloc, a.as_bytes());
    let b = text(rt, alloc, b.as_bytes());
    expect_order(rt, &a, &b, want);
}

#[test]
fn a_proper_prefix_is_the_smaller(rt: HostRuntime) {
    expect_byte_order(&rt, rt.alloc(), "a", "a", Ordering::Equal);
    expect_byte_order(&rt, rt.alloc(), "a", "ab", Ordering::Less);
    expect_byte_order(&rt, rt.alloc(), "b", "ab", Ordering::Greater);
    expect_byte_order(&rt, rt.alloc(), "9", "a", Ordering::Less);
}

/// A list of one byte: both ways in which memory can be wanting become Memory.
fn one(alloc: Global, byte: u8) -> Result<Seq<u8>, Memory> {
    let mut items = Vec::new(alloc);
    items.push(byte)?;
    items.extend_from_slice(&[])?;
    Ok(Seq::of(items))
}

#[test]
fn lists_are_ordered_item_by_item(rt: HostRuntime) {
    let small = one(rt.alloc(), 1).expect(&rt, "memory");
    let large = one(rt.alloc(), 2).expect(&rt, "memory");
    assert_eq!(rt; small.as_slice(), [1].as_slice());
    expect_order(&rt, &small, &large, Ordering::Less);
    expect_order(&rt, &small, &small, Ordering::Equal);
    assert_eq!(rt; large.into_vec().as_slice(), [2].as_slice());
}

/// The text of a letter.
fn letter(rt: &impl Abort, alloc: Global, number: u8) -> Text {
    text(rt, alloc, &[b'a' | number])
}

/// A list of one relation.
fn relations(rt: &impl Abort, alloc: Global, number: u8) -> Seq<RelRow> {
    let mut rows = Vec::new(alloc);
    rows.push(relation(rt, alloc, 0, u32::from(number)))
        .expect(rt, "memory");
    Seq::of(rows)
}

/// An occurrence each of whose ten fields is made of a small number.
fn occurrence(rt: &impl Abort, alloc: Global, fields: &[u8; 10]) -> OccRow {
    OccRow {
        path: letter(rt, alloc, fields[0]),
        line: u32::from(fields[1]),
        column: u32::from(fields[2]),
        usr: letter(rt, alloc, fields[3]),
        name: letter(rt, alloc, fields[4]),
        kind: Kind::new(u32::from(fields[5])).expect(rt, "a kind"),
        lang: Lang::new(u32::from(fields[6])).expect(rt, "a language"),
        props: Props::new(u32::from(fields[7])).expect(rt, "properties"),
        roles: roles_of(rt, u32::from(fields[8])),
        relations: relations(rt, alloc, fields[9]),
    }
}

/// An edge each of whose six fields is made of one of the first six numbers.
fn edge(rt: &impl Abort, alloc: Global, fields: &[u8; 10]) -> EdgeRow {
    EdgeRow {
        depth: u32::from(fields[0]),
        from: letter(rt, alloc, fields[1]),
        to: letter(rt, alloc, fields[2]),
        path: letter(rt, alloc, fields[3]),
        line: u32::from(fields[4]),
        column: u32::from(fields[5]),
    }
}

/// Two behind the place alone.
fn large_behind(at: usize) -> [u8; 10] {
    let mut fields = [0u8; 10];
    for (place, field) in fields.iter_mut().enumerate() {
        if place > at {
            *field = 2;
        }
    }
    fields
}

/// Two at the place alone.
fn large_at(at: usize) -> [u8; 10] {
    let mut fields = [0u8; 10];
    for (place, field) in fields.iter_mut().enumerate() {
        if place == at {
            *field = 2;
        }
    }
    fields
}

/// The first field that differs decides, against all later ones.
fn expect_order_by_field(rt: &impl Abort, alloc: Global, at: usize) {
    let small = occurrence(rt, alloc, &large_behind(at));
    let large = occurrence(rt, alloc, &large_at(at));
    expect_order(rt, &small, &large, Ordering::Less);
    expect_order(rt, &small, &small, Ordering::Equal);
}

/// The same of edges.
fn expect_edges_by_field(rt: &impl Abort, alloc: Global, at: usize) {
    let small = edge(rt, alloc, &large_behind(at));
    let large = edge(rt, alloc, &large_at(at));
    expect_order(rt, &small, &large, Ordering::Less);
    expect_order(rt, &small, &small, Ordering::Equal);
}

#[test]
fn rows_are_ordered_field_by_field(rt: HostRuntime) {
    for at in 0..10 {
        expect_order_by_field(&rt, rt.alloc(), at);
    }
    for at in 0..6 {
        expect_edges_by_field(&rt, rt.alloc(), at);
    }
}

/// A relation to the symbol of a letter.
fn relation(rt: &impl Abort, alloc: Global, number: u8, roles: u32) -> RelRow {
    RelRow {
        usr: letter(rt, alloc, number),
        roles: roles_of(rt, roles),
    }
}

#[test]
fn relations_are_ordered_by_their_symbols_first(rt: HostRuntime) {
    let small = relation(&rt, rt.alloc(), 0, 2);
    let large = relation(&rt, rt.alloc(), 2, 1);
    expect_order(&rt, &small, &large, Ordering::Less);
}

/// The table of one row.
fn one_row(rt: &impl Abort) -> CodeTable<2> {
    CodeTable::<2>::new().with(1, "a").expect(rt, "a table")
}

#[test]
fn a_table_takes_no_clash_and_no_more_rows_than_fit(rt: HostRuntime) {
    assert!(rt; one_row(&rt).with(1, "b").is_none());
    assert!(rt; one_row(&rt).with(2, "a").is_none());
    let two = one_row(&rt).with(2, "b").expect(&rt, "a table");
    assert_eq!(rt; two.name_of(2), Some("b"));
    assert_eq!(rt; two.name_of(3), None);
    assert_eq!(rt; two.code_of(b"a"), Some(1));
    assert_eq!(rt; two.code_of(b"c"), None);
    assert!(rt; two.with(3, "c").is_none());
    laws::look_ups_are_inverse();
}

/// Asserts that the table has these rows, and none behind the last.
fn expect_rows<const N: usize>(
    rt: &impl Abort,
    table: &CodeTable<N>,
    rows: &str,
) -> Result<(), Fail> {
    let mut last = 0;
    for row in rows.lines() {
        let (code, name) = row.split_once(" ").ok_or("no name")?;
        let code = code.parse::<u32>()?;
        assert_eq!(rt; table.name_of(code), Some(name));
        assert_eq!(rt; table.code_of(name.as_bytes()), Some(code));
        last = code;
    }
    assert_eq!(rt; table.name_of(last.wrapping_add(1)), None);
    assert_eq!(rt; table.code_of(b"swift"), None);
    Ok(())
}

#[test]
fn the_tables_have_their_rows(rt: HostRuntime) -> Result<(), Fail> {
    expect_rows(&rt, &kinds(), KINDS)?;
    expect_rows(&rt, &langs(), LANGS)?;
    expect_rows(&rt, &roles(), ROLES)?;
    expect_rows(&rt, &props(), PROPS)?;
    expect_rows(&rt, &queries(), QUERIES)?;
    expect_rows(&rt, &verbs(), VERBS)
}

#[test]
fn kinds_and_languages_have_names(rt: HostRuntime) {
    assert_eq!(rt; Kind::STRUCT.name(), "Struct");
    assert_eq!(rt; Lang::SWIFT.name(), "Swift");
    assert_eq!(rt; Kind::STRUCT.bits(), 6);
    assert_eq!(rt; Lang::SWIFT.bits(), 100);
}

/// Asserts the words of some bits of the roles.
fn expect_words(rt: &impl Abort, alloc: Global, bits: u32, want: &str) {
    let mut out = Vec::new(alloc);
    push_words(&mut out, &roles(), bits).expect(rt, "memory");
    assert_eq!(rt; out.as_slice(), want.as_bytes());
}

#[test]
fn words_are_joined_in_rising_order(rt: HostRuntime) {
    expect_words(&rt, rt.alloc(), 0, "");
    expect_words(&rt, rt.alloc(), 2, "Definition");
    expect_words(&rt, rt.alloc(), 35, "Declaration+Definition+Call");
    expect_words(&rt, rt.alloc(), 262_400, "Implicit+SpecializationOf");
    expect_words(&rt, rt.alloc(), 524_288, "");
}

#[test]
fn a_count_stands_still_at_its_end(rt: HostRuntime) {
    assert_eq!(rt; count_up(0), 1);
    assert_eq!(rt; count_up(u64::MAX), u64::MAX);
}

/// A query of the text, of a number: the variants in their order.
fn query(number: u8, word: Text, roles: Roles) -> Query {
    match number {
        0 => Query::Def { usr: word },
        1 => Query::Refs { usr: word },
        2 => Query::Occ { usr: word, roles },
        3 => Query::Rel { usr: word, roles },
        4 => Query::Callers { usr: word },
        5 => Query::Overrides { usr: word },
        6 => Query::Name { name: word },
        7 => Query::Pattern {
            text: word,
            start: true,
            end: false,
            fold: true,
        },
        8 => Query::Symbols { path: word },
        9 => Query::Mains { path: word },
        10 => Query::Units { path: word },
        11 => Query::Includes { path: word },
        12 => Query::Includers { path: word },
        13 => Query::Incoming {
            usr: word,
            depth: 1,
        },
        14 => Query::Outgoing {
            usr: word,
            depth: 2,
        },
        15 => Query::Supertypes {
            usr: word,
            depth: 3,
        },
        16 => Query::Subtypes {
            usr: word,
            depth: 4,
        },
        _ => Query::Codegen { codegen: word },
    }
}

/// How each query of `a` and Declaration is printed.
const PRINTED_QUERIES: &str = r#"Def { usr: "a" }
Refs { usr: "a" }
Occ { usr: "a", roles: Roles { bits: 1 } }
Rel { usr: "a", roles: Roles { bits: 1 } }
Callers { usr: "a" }
Overrides { usr: "a" }
Name { name: "a" }
Pattern { text: "a", start: true, end: false, fold: true }
Symbols { path: "a" }
Mains { path: "a" }
Units { path: "a" }
Includes { path: "a" }
Includers { path: "a" }
Incoming { usr: "a", depth: 1 }
Outgoing { usr: "a", depth: 2 }
Supertypes { usr: "a", depth: 3 }
Subtypes { usr: "a", depth: 4 }
Codegen { codegen: "a" }"#;

#[test]
fn queries_have_their_fields(rt: HostRuntime) {
    let mut number = 0u8;
    for want in PRINTED_QUERIES.lines() {
        let word = text(&rt, rt.alloc(), b"a");
        let asked = query(number, word, roles_of(&rt, 1));
        expect_printed(&rt, rt.alloc(), &asked, want);
        number = number.wrapping_add(1);
    }
}

/// Asserts how a value is printed.
fn expect_printed<T: std::fmt::Debug>(rt: &impl Abort, alloc: Global, value: &T, want: &str) {
    let printed = format!(in alloc; "{value:?}").expect(rt, "memory");
    assert_eq!(rt; printed.as_str(), want);
}

#[test]
fn values_print_what_they_hold(rt: HostRuntime) {
    let usr = text(&rt, rt.alloc(), b"a");
    expect_printed(&rt, rt.alloc(), &usr, r#""a""#);
    let name = name_of(&rt, "ab");
    expect_printed(&rt, rt.alloc(), &name, r#""ab""#);
}

/// Asserts the text of an error.
fn expect_text<E: std::error::Error>(rt: &impl Abort, alloc: Global, error: &E, want: &str) {
    let text = format!(in alloc; "{error}").expect(rt, "memory");
    assert_eq!(rt; text.as_str(), want);
}

/// The texts of the other errors of texts stand in the table of texts.
#[test]
fn errors_have_texts(rt: HostRuntime) {
    expect_text(&rt, rt.alloc(), &Memory, "memory");
    expect_text(&rt, rt.alloc(), &Failed, "failed");
    expect_text(&rt, rt.alloc(), &TextError::Memory, "memory");
    expect_text(&rt, rt.alloc(), &TextError::TooLong, "more than 4096 bytes");
}
