//! The outline of a record, worked out by hand.
ghost use Rattle.std.specs.Prelude.{◌<◌};

use super::*;
use std::alloc::Global;
use std::process::Abort;

/// A record of five symbols whose relations lead to three of them, to one of these twice.
const RECORD: &str =
    "49585232000000050000000c000000000000000000000008633a436972636c6500000006436972636c65000000000000000c000000000000000000000007633a5368617065000000055368617065000000065f53686170650000000c000000000000000000000006633a6172656100000006617265612829000000000000000c000000000000000000000005633a6269670000000441726561000000000000000c000000000000000000000006633a6d61696e000000046d61696e000000055f6d61696e00000008000000010000000100000001000000020000000000000002000000010000000000000002000000000000000200000005000000010000040400000001000004000000000000000003000000010000000300000802000000010000080000000002000000040000000100000004000000010000000000000005000000010000000400000002000000000000000600000002000000020000202400000001000020000000000400000007000000020000000400002024000000010000200000000002";

/// What names its symbols, and where its relations lead.
const OUTLINE: &str =
    "Outline { symbols: [OutlineSymbol { usr: \"c:Circle\", name: \"Circle\", codegen: \"\" }, OutlineSymbol { usr: \"c:Shape\", name: \"Shape\", codegen: \"_Shape\" }, OutlineSymbol { usr: \"c:area\", name: \"area()\", codegen: \"\" }, OutlineSymbol { usr: \"c:big\", name: \"Area\", codegen: \"\" }, OutlineSymbol { usr: \"c:main\", name: \"main\", codegen: \"_main\" }], related: [\"c:Circle\", \"c:area\", \"c:main\"] }";

/// The value of a hex digit.
fn nibble(digit: u8) -> u8
    ensures { result < 16 }
{
    match digit {
        b'0'..=b'9' => digit - b'0',
        b'a'..=b'f' => digit - b'a' + 10,
        _ => 0,
    }
}

/// The bytes that hex digits are.
fn bytes_of(rt: &impl Abort, alloc: Global, digits: &str) -> Vec<u8> {
    let mut bytes = Vec::new(alloc);
    for pair in digits.as_bytes().chunks(2) {
        if let [high, low] = pair {
            bytes
                .push(nibble(*high) * 16 + nibble(*low))
                .expect(rt, "memory");
        }
    }
    bytes
}

#[test]
fn an_outline_has_what_its_record_names(rt: HostRuntime) {
    let alloc = rt.alloc();
    let bytes = bytes_of(&rt, alloc, RECORD);
    let value = ix_record::decode(alloc, bytes.as_slice()).expect(&rt, "a record");
    let outline = Outline::of(alloc, &value).expect(&rt, "memory");
    let shown = format!(in alloc; "{outline:?}").expect(&rt, "memory");
    assert!(rt; shown.as_str() == OUTLINE);
}
