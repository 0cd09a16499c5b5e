//! The tables of the store, each row once.
ghost use Rattle.std.specs.Prelude.{◌≡◌};
ghost use Rattle.ix_types.specs.Codes as tables;

use crate::code_table::{CodeRow, CodeTable};

/// The table of the rows, in order. No row may clash with an earlier one.
macro_rules! table {
    ($($code:literal = $name:literal),* $(,)?) => {
        CodeTable::new()$(.with($code, $name).unwrap())*
    };
}

/// The codes of the rows alone, for a test that makes no table.
macro_rules! codes {
    ($($code:literal = $name:literal),* $(,)?) => {
        [$($code),*]
    };
}

/// The rows alone, for a look-up that makes no table.
macro_rules! rows {
    ($($code:literal = $name:literal),* $(,)?) => {
        [$(CodeRow { code: $code, name: $name }),*]
    };
}

/// What another macro makes of the rows of the kinds.
macro_rules! kind_rows {
    ($then:ident) => {
        $then!(
            0 = "Unknown",
            1 = "Module",
            2 = "Namespace",
            3 = "NamespaceAlias",
            4 = "Macro",
            5 = "Enum",
            6 = "Struct",
            7 = "Class",
            8 = "Protocol",
            9 = "Extension",
            10 = "Union",
            11 = "TypeAlias",
            12 = "Function",
            13 = "Variable",
            14 = "Field",
            15 = "EnumConstant",
            16 = "InstanceMethod",
            17 = "ClassMethod",
            18 = "StaticMethod",
            19 = "InstanceProperty",
            20 = "ClassProperty",
            21 = "StaticProperty",
            22 = "Constructor",
            23 = "Destructor",
            24 = "ConversionFunction",
            25 = "Parameter",
            26 = "Using",
            1000 = "CommentTag",
        )
    };
}

/// What another macro makes of the rows of the languages.
macro_rules! lang_rows {
    ($then:ident) => {
        $then!(
            0 = "C",
            1 = "Objective-C",
            2 = "C++",
            100 = "Swift",
        )
    };
}

/// What another macro makes of the rows of the roles and relations.
macro_rules! role_rows {
    ($then:ident) => {
        $then!(
            0 = "Declaration",
            1 = "Definition",
            2 = "Reference",
            3 = "Read",
            4 = "Write",
            5 = "Call",
            6 = "Dynamic",
            7 = "AddressOf",
            8 = "Implicit",
            9 = "ChildOf",
            10 = "BaseOf",
            11 = "OverrideOf",
            12 = "ReceivedBy",
            13 = "CalledBy",
            14 = "ExtendedBy",
            15 = "AccessorOf",
            16 = "ContainedBy",
            17 = "IBTypeOf",
            18 = "SpecializationOf",
        )
    };
}

/// What another macro makes of the rows of the properties.
macro_rules! prop_rows {
    ($then:ident) => {
        $then!(
            0 = "Generic",
            1 = "TemplatePartialSpecialization",
            2 = "TemplateSpecialization",
            3 = "UnitTest",
            4 = "IBAnnotated",
            5 = "IBOutletCollection",
            6 = "GKInspectable",
            7 = "Local",
            8 = "ProtocolInterface",
        )
    };
}

/// The rows of the kinds.
pub(crate) const KINDS: [CodeRow; 28] = kind_rows!(rows);

/// The rows of the languages.
pub(crate) const LANGS: [CodeRow; 4] = lang_rows!(rows);

/// The rows of the roles and relations.
pub(crate) const ROLES: [CodeRow; 19] = role_rows!(rows);

/// The rows of the properties.
pub(crate) const PROPS: [CodeRow; 9] = prop_rows!(rows);

/// The kinds of symbols.
pub fn kinds() -> CodeTable<28>
    ensures { result ≡ tables.kinds }
{
    kind_rows!(table)
}

/// The languages.
pub fn langs() -> CodeTable<4>
    ensures { result ≡ tables.langs }
{
    lang_rows!(table)
}

/// Whether a row of the kinds has the code. Makes no table.
pub(crate) fn is_kind(code: u32) -> bool
    ensures { result ≡ tables.has_code tables.kinds code }
{
    kind_rows!(codes).contains(&code)
}

/// Whether a row of the languages has the code. Makes no table.
pub(crate) fn is_lang(code: u32) -> bool
    ensures { result ≡ tables.has_code tables.langs code }
{
    lang_rows!(codes).contains(&code)
}

/// The roles, and from 9 on the relations, by the number of their bit.
pub fn roles() -> CodeTable<19>
    ensures { result ≡ tables.roles }
{
    role_rows!(table)
}

/// The properties of symbols, by the number of their bit.
pub fn props() -> CodeTable<9>
    ensures { result ≡ tables.props }
{
    prop_rows!(table)
}

/// The words of queries.
pub fn queries() -> CodeTable<18>
    ensures { result ≡ tables.queries }
{
    table!(
        0 = "def",
        1 = "refs",
        2 = "occ",
        3 = "rel",
        4 = "callers",
        5 = "overrides",
        6 = "name",
        7 = "pattern",
        8 = "symbols",
        9 = "mains",
        10 = "units",
        11 = "includes",
        12 = "includers",
        13 = "incoming",
        14 = "outgoing",
        15 = "supertypes",
        16 = "subtypes",
        17 = "codegen",
    )
}

/// The words of steps.
pub fn verbs() -> CodeTable<7>
    ensures { result ≡ tables.verbs }
{
    table!(
        0 = "build",
        1 = "remove",
        2 = "poll",
        3 = "refresh",
        4 = "ask",
        5 = "release",
        6 = "collect",
    )
}
