//! What a record file says.
use ix_types::{Format, Kind, Lang, Props, Roles, Seq, Text};

/// `IXR1`, the four bytes that a record file of format One begins with, as a number.
pub const MAGIC_ONE: u32 = 0x4958_5231;

/// `IXR2`, the four bytes that a record file of format Two begins with, as a number.
pub const MAGIC_TWO: u32 = 0x4958_5232;

/// A symbol, named by its USR. `codegen` is its code generation name; it is empty where the symbol has none, and in
/// format One.
#[derive(Debug, Drop, PartialEq, Eq)]
pub struct Symbol {
    pub kind: Kind,
    pub lang: Lang,
    pub props: Props,
    pub usr: Text,
    pub name: Text,
    pub codegen: Text,
}

/// What another symbol is to an occurrence's. `symbol` is the other one's index in the record.
/// The fields stand in the order in which relations are sorted.
#[derive(Debug, Drop, PartialEq, Eq, PartialOrd, Ord)]
pub struct Relation {
    pub symbol: u32,
    pub roles: Roles,
}

/// An occurrence of a symbol. Lines and columns count from 1; `symbol` is an index in the record.
/// The fields stand in the order in which occurrences are sorted.
#[derive(Debug, Drop, PartialEq, Eq, PartialOrd, Ord)]
pub struct Occurrence {
    pub line: u32,
    pub column: u32,
    pub symbol: u32,
    pub roles: Roles,
    pub relations: Seq<Relation>,
}

/// The symbols of a source file, and where they occur in it. The format decides whether symbols have code generation
/// names.
#[derive(Debug, Drop, PartialEq, Eq)]
pub struct RecordValue {
    pub format: Format,
    pub symbols: Seq<Symbol>,
    pub occurrences: Seq<Occurrence>,
}
