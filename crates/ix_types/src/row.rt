//! Queries and the rows that answer them.
use crate::code::{Kind, Lang, Props, Roles};
use crate::name::FileName;
use crate::seq::Seq;
use crate::text::Text;

/// A relation of a row: what the other symbol is to the row's.
#[derive(Drop, Debug, PartialEq, Eq, PartialOrd, Ord)]
pub struct RelRow {
    pub usr: Text,
    pub roles: Roles,
}

/// An occurrence of a symbol in a file. The fields stand in the order in which rows are sorted.
/// Lines and columns count from 1.
#[derive(Drop, Debug, PartialEq, Eq, PartialOrd, Ord)]
pub struct OccRow {
    pub path: Text,
    pub line: u32,
    pub column: u32,
    pub usr: Text,
    pub name: Text,
    pub kind: Kind,
    pub lang: Lang,
    pub props: Props,
    pub roles: Roles,
    pub relations: Seq<RelRow>,
}

/// A step of a walk from one symbol to another, by the occurrence at a place. The fields stand in
/// the order in which rows are sorted. The depth counts from 1.
#[derive(Drop, Debug, PartialEq, Eq, PartialOrd, Ord)]
pub struct EdgeRow {
    pub depth: u32,
    pub from: Text,
    pub to: Text,
    pub path: Text,
    pub line: u32,
    pub column: u32,
}

/// A row of an answer. Each row of one answer is of the same variant.
#[derive(Drop, Debug, PartialEq, Eq)]
pub enum Row {
    Occ(OccRow),
    Path(Text),
    Unit(FileName),
    Edge(EdgeRow),
}

/// A question. A symbol is named by its USR, a file by its path.
#[derive(Drop, Debug, PartialEq, Eq)]
pub enum Query {
    /// Where the USR is defined; where it has no definition, where it is declared.
    Def {
        usr: Text,
    },
    /// Where the USR is referred to.
    Refs {
        usr: Text,
    },
    /// Where the USR occurs with any of the roles.
    Occ {
        usr: Text,
        roles: Roles,
    },
    /// Where anything occurs with a relation to the USR that has any of the roles.
    Rel {
        usr: Text,
        roles: Roles,
    },
    /// Where the USR is called by something.
    Callers {
        usr: Text,
    },
    /// What overrides the USR.
    Overrides {
        usr: Text,
    },
    /// Where the symbols of exactly this name are defined, as `Def` has it.
    Name {
        name: Text,
    },
    /// The same for each name that contains the text: at its start, at its end, with A to Z as a to z.
    Pattern {
        text: Text,
        start: bool,
        end: bool,
        fold: bool,
    },
    /// What the path defines or declares.
    Symbols {
        path: Text,
    },
    /// The main files of the units that list the path.
    Mains {
        path: Text,
    },
    /// The names of the units that list the path.
    Units {
        path: Text,
    },
    /// What the path includes.
    Includes {
        path: Text,
    },
    /// What includes the path.
    Includers {
        path: Text,
    },
    /// Who calls the USR, who calls these, and so on to the depth.
    Incoming {
        usr: Text,
        depth: u32,
    },
    /// Whom the USR calls, whom these call, and so on to the depth.
    Outgoing {
        usr: Text,
        depth: u32,
    },
    /// The bases of the USR, their bases, and so on to the depth.
    Supertypes {
        usr: Text,
        depth: u32,
    },
    /// What has the USR as a base, what has these, and so on to the depth.
    Subtypes {
        usr: Text,
        depth: u32,
    },
    /// Where the symbols of exactly this code generation name are defined, as `Def` has it.
    Codegen {
        codegen: Text,
    },
}
