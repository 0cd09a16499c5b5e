//! Scripts: the steps of lanes, and the described compile jobs among them. Symbols are named by their USRs.
use ix_types::{Format, Kind, Lang, Props, Query, Roles, Seq, Text};

/// The lanes of a script, and the order in which their steps are begun: numbers of lanes.
#[derive(Debug, Drop, PartialEq, Eq)]
pub struct Script {
    pub lanes: Seq<Seq<Step>>,
    pub order: Seq<u32>,
}

/// One step of a lane.
#[derive(Debug, Drop, PartialEq, Eq)]
pub enum Step {
    /// Writes the records of a compile job, and then its unit.
    Build(UnitPlan),
    /// Takes away the unit of the output path.
    Remove(Text),
    /// Looks for units that came or went, and makes a version of those that are there.
    Poll,
    /// Takes up the newest version.
    Refresh,
    /// Asks the version that the lane holds.
    Ask(Query),
    /// Lets go of the version that the lane holds.
    Release,
    /// Takes away one record that nothing needs.
    Collect,
}

/// What one compile job knows: its output, what it depends on, and its includes.
#[derive(Debug, Drop, PartialEq, Eq)]
pub struct UnitPlan {
    pub output: Text,
    pub main: Text,
    pub module: Text,
    pub system: bool,
    pub units: Seq<Text>,
    pub records: Seq<RecordPlan>,
    pub files: Seq<FilePlan>,
    pub includes: Seq<IncludePlan>,
}

/// What is known of one source file, and the format in which it is recorded.
#[derive(Debug, Drop, PartialEq, Eq)]
pub struct RecordPlan {
    pub format: Format,
    pub path: Text,
    pub system: bool,
    pub symbols: Seq<SymbolPlan>,
    pub occurrences: Seq<OccurrencePlan>,
}

/// A file that a job read and that has no record.
#[derive(Debug, Drop, PartialEq, Eq)]
pub struct FilePlan {
    pub path: Text,
    pub system: bool,
}

/// An include at a line, counted from 1.
#[derive(Debug, Drop, PartialEq, Eq)]
pub struct IncludePlan {
    pub from: Text,
    pub line: u32,
    pub to: Text,
}

/// A symbol of a source file. Its code generation name is empty where it has none.
#[derive(Debug, Drop, PartialEq, Eq)]
pub struct SymbolPlan {
    pub usr: Text,
    pub name: Text,
    pub kind: Kind,
    pub lang: Lang,
    pub props: Props,
    pub codegen: Text,
}

/// A place where a symbol stands. Lines and columns count from 1.
#[derive(Debug, Drop, PartialEq, Eq)]
pub struct OccurrencePlan {
    pub usr: Text,
    pub line: u32,
    pub col: u32,
    pub roles: Roles,
    pub relations: Seq<RelationPlan>,
}

/// What another symbol is to an occurrence's.
#[derive(Debug, Drop, PartialEq, Eq)]
pub struct RelationPlan {
    pub usr: Text,
    pub roles: Roles,
}
