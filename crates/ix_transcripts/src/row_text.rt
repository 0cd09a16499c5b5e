//! The lines of rows.
ghost use Rattle.std.specs.Prelude.{◌≡◌, ◌++◌, codes, OnOk};
ghost use Rattle.std.specs.List.{flat_map};
ghost use Rattle.std.specs.Fmt.{decimal};
ghost use Rattle.ix_types.specs.Codes.{kinds, langs};
ghost use Rattle.ix_replays.specs.Text.{tab, newline, word_of, role_names, props_words, relation_field, occurrence_line, edge_line, row_line};

use crate::append::{append, append_number};
use crate::words::{append_props, append_roles, kind_word, lang_word};
use ix_types::{EdgeRow, Memory, OccRow, RelRow, Row};

/// Appends the line of a row.
pub(crate) fn append_row(out: &mut Vec<u8>, row: &Row) -> Result<(), Memory>
    ensures { OnOk result (out.new.items ≡ out.old.items ++ row_line row.now) }
{
    match row {
        Row::Occ(row) => append_occurrence(out, row),
        Row::Path(path) => append_path(out, path.bytes()),
        Row::Unit(name) => append_unit(out, name.bytes()),
        Row::Edge(edge) => append_edge(out, edge),
    }
}

/// Appends the line of a path.
fn append_path(out: &mut Vec<u8>, path: &[u8]) -> Result<(), Memory>
    ensures { OnOk result (out.new.items ≡ out.old.items ++ codes "path" ++ tab ++ path.now ++ newline) }
{
    append(out, b"path")?;
    append_field(out, path)?;
    append(out, b"\n")
}

/// Appends the line of a unit.
fn append_unit(out: &mut Vec<u8>, name: &[u8]) -> Result<(), Memory>
    ensures { OnOk result (out.new.items ≡ out.old.items ++ codes "unit" ++ tab ++ name.now ++ newline) }
{
    append(out, b"unit")?;
    append_field(out, name)?;
    append(out, b"\n")
}

/// Appends the line of an edge.
fn append_edge(out: &mut Vec<u8>, edge: &EdgeRow) -> Result<(), Memory>
    ensures { OnOk result (out.new.items ≡ out.old.items ++ edge_line edge.now) }
{
    append(out, b"edge")?;
    append_number_field(out, edge.depth)?;
    append_field(out, edge.from.bytes())?;
    append_field(out, edge.to.bytes())?;
    append_field(out, edge.path.bytes())?;
    append_number_field(out, edge.line)?;
    append_number_field(out, edge.column)?;
    append(out, b"\n")
}

/// Appends the line of an occurrence.
fn append_occurrence(out: &mut Vec<u8>, row: &OccRow) -> Result<(), Memory>
    ensures { OnOk result (out.new.items ≡ out.old.items ++ occurrence_line row.now) }
{
    append(out, b"row")?;
    append_place(out, row)?;
    append_symbol(out, row)?;
    append_relations(out, row.relations.as_slice())?;
    append(out, b"\n")
}

/// Appends the fields that say where a symbol stands and how.
fn append_place(out: &mut Vec<u8>, row: &OccRow) -> Result<(), Memory>
    ensures { OnOk result (out.new.items ≡ out.old.items
        ++ tab ++ row.now.path ++ tab ++ decimal row.now.line ++ tab ++ decimal row.now.column
        ++ tab ++ role_names row.now.roles) }
{
    append_field(out, row.path.bytes())?;
    append_number_field(out, row.line)?;
    append_number_field(out, row.column)?;
    append(out, b"\t")?;
    append_roles(out, row.roles)
}

/// Appends the fields that say which symbol it is.
fn append_symbol(out: &mut Vec<u8>, row: &OccRow) -> Result<(), Memory>
    ensures { OnOk result (out.new.items ≡ out.old.items
        ++ tab ++ word_of kinds row.now.kind ++ tab ++ word_of langs row.now.lang
        ++ tab ++ props_words row.now.props ++ tab ++ row.now.usr ++ tab ++ row.now.name) }
{
    append_field(out, kind_word(row.kind).as_bytes())?;
    append_field(out, lang_word(row.lang).as_bytes())?;
    append(out, b"\t")?;
    append_props(out, row.props)?;
    append_field(out, row.usr.bytes())?;
    append_field(out, row.name.bytes())
}

/// Appends a tab, and a number in decimal.
fn append_number_field(out: &mut Vec<u8>, number: u32) -> Result<(), Memory>
    ensures { OnOk result (out.new.items ≡ out.old.items ++ tab ++ decimal number) }
{
    append(out, b"\t")?;
    append_number(out, u64::from(number))
}

/// Appends a tab, and the bytes of a field.
fn append_field(out: &mut Vec<u8>, field: &[u8]) -> Result<(), Memory>
    ensures { OnOk result (out.new.items ≡ out.old.items ++ tab ++ field.now) }
{
    append(out, b"\t")?;
    append(out, field)
}

/// Appends a field for each relation.
fn append_relations(out: &mut Vec<u8>, relations: &[RelRow]) -> Result<(), Memory>
    ensures { OnOk result (out.new.items ≡ out.old.items ++ flat_map relation_field relations.now) }
{
    for relation in relations {
        append_relation(out, relation)?;
    }
    Ok(())
}

/// Appends the field of a relation.
fn append_relation(out: &mut Vec<u8>, relation: &RelRow) -> Result<(), Memory>
    ensures { OnOk result (out.new.items ≡ out.old.items ++ relation_field relation.now) }
{
    append(out, b"\t")?;
    append_roles(out, relation.roles)?;
    append(out, b"=")?;
    append(out, relation.usr.bytes())
}
