//! Reads a record from the left, up to the first fault.
ghost use Rattle.std.specs.Prelude.{◌≡◌, ◌⊎◌, IfOk, IfErr, Some, Ok, Err};
ghost use Rattle.ix_record.specs.Gives.{Gives};
ghost use Rattle.ix_record.specs.declared.value.RecordValue.{RecordValue};
ghost use Rattle.ix_record.specs.Reading.{number_at, usr_at, name_at, codegen_at, format_at, fields_at, kind_at, lang_at, props_at, coordinate_at, index_at, roles_at, relation_roles_at, symbol_at, relation_at, has_roles, symbols_at, relations_at, occurrence_at, occurrences_at, record_at, record_fault};
ghost use Rattle.ix_record.specs.Spelling.{RecordSpelling};

use crate::fault::RecordError;
use crate::order::{occurrence_follows, relation_follows, symbol_follows};
use crate::value::{MAGIC_ONE, MAGIC_TWO, Occurrence, RecordValue, Relation, Symbol};
use ix_types::{Format, Kind, Lang, Props, Roles, Seq, Text};
use ix_wire::Cursor;
use std::alloc::Global;

#[tactic(auto, unfolding(crate::specs::Reading::number_at))]
fn read_number(cursor: &mut Cursor<'_>) -> Result<u32, RecordError>
    ensures { Gives result cursor.new (number_at cursor.old) }
{
    Ok(cursor.u32()?)
}

#[tactic(auto, unfolding(crate::specs::Reading::usr_at))]
fn read_usr(alloc: Global, cursor: &mut Cursor<'_>) -> Result<Text, RecordError>
    ensures { Gives result cursor.new (usr_at cursor.old) }
{
    Ok(cursor.text(alloc, false)?)
}

#[tactic(auto, unfolding(crate::specs::Reading::name_at))]
fn read_name(alloc: Global, cursor: &mut Cursor<'_>) -> Result<Text, RecordError>
    ensures { Gives result cursor.new (name_at cursor.old) }
{
    Ok(cursor.text(alloc, true)?)
}

/// Reads the code generation name, which is no field of format One.
#[tactic(auto, unfolding(crate::specs::Reading::codegen_at))]
fn read_codegen(alloc: Global, format: Format, cursor: &mut Cursor<'_>) -> Result<Text, RecordError>
    ensures { Gives result cursor.new (codegen_at format cursor.old) }
{
    match format {
        Format::One => match Text::read_or_empty(alloc, &[]) {
            Ok(codegen) => Ok(codegen),
            Err(_) => Err(RecordError::Memory),
        },
        Format::Two => Ok(cursor.text(alloc, true)?),
    }
}

/// Reads the magic, which is of the format.
#[tactic(auto, unfolding(crate::specs::Reading::format_at))]
fn read_format(cursor: &mut Cursor<'_>) -> Result<Format, RecordError>
    ensures { Gives result cursor.new (format_at cursor.old) }
{
    match read_number(cursor)? {
        MAGIC_ONE => Ok(Format::One),
        MAGIC_TWO => Ok(Format::Two),
        _ => Err(RecordError::BadMagic),
    }
}

#[tactic(auto, unfolding(crate::specs::Reading::kind_at, crate::specs::Reading::is_kind))]
fn read_kind(cursor: &mut Cursor<'_>) -> Result<Kind, RecordError>
    ensures { Gives result cursor.new (kind_at cursor.old) }
{
    let at = cursor.at();
    let code = read_number(cursor)?;
    match Kind::new(code) {
        Some(kind) => Ok(kind),
        None => Err(RecordError::BadField { at }),
    }
}

#[tactic(auto, unfolding(crate::specs::Reading::lang_at, crate::specs::Reading::is_lang))]
fn read_lang(cursor: &mut Cursor<'_>) -> Result<Lang, RecordError>
    ensures { Gives result cursor.new (lang_at cursor.old) }
{
    let at = cursor.at();
    let code = read_number(cursor)?;
    match Lang::new(code) {
        Some(lang) => Ok(lang),
        None => Err(RecordError::BadField { at }),
    }
}

#[tactic(auto, unfolding(crate::specs::Reading::props_at))]
fn read_props(cursor: &mut Cursor<'_>) -> Result<Props, RecordError>
    ensures { Gives result cursor.new (props_at cursor.old) }
{
    let at = cursor.at();
    let bits = read_number(cursor)?;
    match Props::new(bits) {
        Some(props) => Ok(props),
        None => Err(RecordError::BadField { at }),
    }
}

/// Reads a line or a column.
#[tactic(auto, unfolding(crate::specs::Reading::coordinate_at))]
fn read_coordinate(cursor: &mut Cursor<'_>) -> Result<u32, RecordError>
    ensures { Gives result cursor.new (coordinate_at cursor.old) }
{
    let at = cursor.at();
    let place = read_number(cursor)?;
    if place == 0 {
        return Err(RecordError::BadField { at });
    }
    Ok(place)
}

/// Reads the index of one of so many symbols.
#[tactic(auto, unfolding(crate::specs::Reading::index_at))]
fn read_index(cursor: &mut Cursor<'_>, symbols: u32) -> Result<u32, RecordError>
    ensures { Gives result cursor.new (index_at symbols cursor.old) }
{
    let at = cursor.at();
    let index = read_number(cursor)?;
    if index >= symbols {
        return Err(RecordError::BadIndex { at });
    }
    Ok(index)
}

#[tactic(auto, unfolding(crate::specs::Reading::roles_at))]
fn read_roles(cursor: &mut Cursor<'_>) -> Result<Roles, RecordError>
    ensures { Gives result cursor.new (roles_at cursor.old) }
{
    let at = cursor.at();
    let bits = read_number(cursor)?;
    match Roles::new(bits) {
        Some(roles) if bits != 0 => Ok(roles),
        _ => Err(RecordError::BadField { at }),
    }
}

#[tactic(auto, unfolding(crate::specs::Reading::relation_roles_at))]
fn read_relation_roles(cursor: &mut Cursor<'_>) -> Result<Roles, RecordError>
    ensures { Gives result cursor.new (relation_roles_at cursor.old) }
{
    let at = cursor.at();
    let bits = read_number(cursor)?;
    match Roles::new(bits) {
        Some(roles) if bits != 0 && roles.relation_part().bits() == bits => Ok(roles),
        _ => Err(RecordError::BadField { at }),
    }
}

#[tactic(auto, unfolding(crate::specs::Reading::symbol_at))]
fn read_symbol(
    alloc: Global,
    format: Format,
    cursor: &mut Cursor<'_>,
) -> Result<Symbol, RecordError>
    ensures { Gives result cursor.new (symbol_at format cursor.old) }
{
    let kind = read_kind(cursor)?;
    let lang = read_lang(cursor)?;
    let props = read_props(cursor)?;
    let usr = read_usr(alloc, cursor)?;
    let name = read_name(alloc, cursor)?;
    let codegen = read_codegen(alloc, format, cursor)?;
    Ok(Symbol {
        kind,
        lang,
        props,
        usr,
        name,
        codegen,
    })
}

#[tactic(auto, unfolding(crate::specs::Reading::relation_at))]
fn read_relation(cursor: &mut Cursor<'_>, symbols: u32) -> Result<Relation, RecordError>
    ensures { Gives result cursor.new (relation_at symbols cursor.old) }
{
    let roles = read_relation_roles(cursor)?;
    let symbol = read_index(cursor, symbols)?;
    Ok(Relation { symbol, roles })
}

/// Whether the roles have those of each relation.
#[tactic(auto, unfolding(crate::specs::Reading::has_roles))]
fn has_each(roles: Roles, relations: &[Relation]) -> bool
    ensures { result ≡ has_roles roles relations.now }
{
    relations
        .iter()
        .all(|r| roles.bits() & r.roles.bits() == r.roles.bits())
}

#[tactic(auto, unfolding(crate::specs::Reading::symbols_at))]
fn read_symbols(
    alloc: Global,
    format: Format,
    cursor: &mut Cursor<'_>,
    count: u32,
) -> Result<Seq<Symbol>, RecordError>
    ensures { Gives result cursor.new (symbols_at format count cursor.old) }
{
    let mut symbols = Vec::new(alloc);
    for _ in 0..count {
        let at = cursor.at();
        let symbol = read_symbol(alloc, format, cursor)?;
        if !symbol_follows(&symbols, &symbol) {
            return Err(RecordError::OutOfOrder { at });
        }
        symbols.push(symbol)?;
    }
    Ok(Seq::of(symbols))
}

/// Reads so many relations in a record of so many symbols.
#[tactic(auto, unfolding(crate::specs::Reading::relations_at))]
fn read_relations(
    alloc: Global,
    cursor: &mut Cursor<'_>,
    symbols: u32,
    count: u32,
) -> Result<Seq<Relation>, RecordError>
    ensures { Gives result cursor.new (relations_at symbols count cursor.old) }
{
    let mut relations = Vec::new(alloc);
    for _ in 0..count {
        let at = cursor.at();
        let relation = read_relation(cursor, symbols)?;
        if !relation_follows(&relations, &relation) {
            return Err(RecordError::OutOfOrder { at });
        }
        relations.push(relation)?;
    }
    Ok(Seq::of(relations))
}

#[tactic(auto, unfolding(crate::specs::Reading::occurrence_at))]
fn read_occurrence(
    alloc: Global,
    cursor: &mut Cursor<'_>,
    symbols: u32,
) -> Result<Occurrence, RecordError>
    ensures { Gives result cursor.new (occurrence_at symbols cursor.old) }
{
    let line = read_coordinate(cursor)?;
    let column = read_coordinate(cursor)?;
    let symbol = read_index(cursor, symbols)?;
    let at = cursor.at();
    let roles = read_roles(cursor)?;
    let count = read_number(cursor)?;
    let relations = read_relations(alloc, cursor, symbols, count)?;
    if !has_each(roles, relations.as_slice()) {
        return Err(RecordError::RolesMissing { at });
    }
    Ok(Occurrence {
        line,
        column,
        symbol,
        roles,
        relations,
    })
}

/// Reads so many occurrences in a record of so many symbols.
#[tactic(auto, unfolding(crate::specs::Reading::occurrences_at))]
fn read_occurrences(
    alloc: Global,
    cursor: &mut Cursor<'_>,
    symbols: u32,
    count: u32,
) -> Result<Seq<Occurrence>, RecordError>
    ensures { Gives result cursor.new (occurrences_at symbols count cursor.old) }
{
    let mut occurrences = Vec::new(alloc);
    for _ in 0..count {
        let at = cursor.at();
        let occurrence = read_occurrence(alloc, cursor, symbols)?;
        if !occurrence_follows(&occurrences, &occurrence) {
            return Err(RecordError::OutOfOrder { at });
        }
        occurrences.push(occurrence)?;
    }
    Ok(Seq::of(occurrences))
}

#[tactic(auto, unfolding(crate::specs::Reading::fields_at))]
fn read_fields(alloc: Global, cursor: &mut Cursor<'_>) -> Result<RecordValue, RecordError>
    ensures { Gives result cursor.new (fields_at cursor.old) }
{
    let format = read_format(cursor)?;
    let symbol_count = read_number(cursor)?;
    let symbols = read_symbols(alloc, format, cursor, symbol_count)?;
    let occurrence_count = read_number(cursor)?;
    let occurrences = read_occurrences(alloc, cursor, symbol_count, occurrence_count)?;
    Ok(RecordValue {
        format,
        symbols,
        occurrences,
    })
}

#[tactic(auto, unfolding(crate::specs::Reading::record_at))]
fn read_record(alloc: Global, cursor: &mut Cursor<'_>) -> Result<RecordValue, RecordError>
    ensures { Gives result cursor.new (record_at cursor.old) }
{
    let value = read_fields(alloc, cursor)?;
    cursor.end()?;
    Ok(value)
}

/// The value that the bytes spell, all of the bytes.
pub fn decode(alloc: Global, bytes: &[u8]) -> Result<RecordValue, RecordError>
    // What is read is spelled so.
    ensures found { IfOk result (RecordSpelling bytes.now) }
    // What is spelled so is read, unless memory runs out.
    ensures only { (v : RecordValue) → RecordSpelling bytes.now v → (result ≡ Ok v) ⊎ (result ≡ Err RecordError.Memory) }
    // Else it is the first fault.
    ensures fault { IfErr result (λ e. (e ≡ RecordError.Memory) ⊎ (record_fault bytes.now ≡ Some e)) }
{
    let mut cursor = Cursor::new(bytes);
    read_record(alloc, &mut cursor)
}
