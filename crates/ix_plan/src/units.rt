//! Reading the plan of a compile job from a JSON value, one reader an object.
ghost use Rattle.std.specs.Prelude.{◌≡◌, [], codes, false, IfOk};
ghost use Rattle.ix_plan.specs.Usrs.{Keeps, KeepsNext};
ghost use Rattle.ix_plan.specs.View.{view, items_view};
ghost use Rattle.ix_types.specs.Codes as tables;
ghost use Rattle.ix_types.specs.Codes.{swift_code};
ghost use Rattle.ix_plan.specs.Read.{Gives};
ghost use Rattle.ix_plan.specs.Json.{field, field_or, in_order, one_more, with_fields, few_of};
ghost use Rattle.ix_plan.specs.Values.{word_of, bits_of, prop_of, new_usr_of, known_usr_of};
ghost use Rattle.ix_plan.specs.Plans.{symbol_of, symbols_of, occurrences_of, unknown_code, codegen_of, is_usr_of, symbol_fields, unit_of};

use crate::fields::{
    Item, count_field, flag_or_false, list, list_or_none, no_text, roles_field, text_field,
    text_or_none,
};
use crate::objects::{bad_value, member, with_fields, within, within_item};
use crate::plan::{
    FilePlan, IncludePlan, OccurrencePlan, RecordPlan, RelationPlan, SymbolPlan, UnitPlan,
};
use crate::refusal::{ScriptError, ScriptRefusal, What};
use crate::symbol_table::{SymbolTable, Usrs};
use crate::value::Value;
use crate::values::{WordSort, kind, known_usr, lang, new_usr, props, text};
use crate::words::Words;
use ix_types::{Format, Kind, Lang, Props, Seq, Text};
use std::alloc::Global;

/// The most units, records, files and includes of a compile job, each.
const MAX_PARTS: usize = 4096;

/// The most symbols, and the most occurrences, of a record.
const MAX_ENTRIES: usize = 65_536;

/// The most relations of an occurrence.
const MAX_RELATIONS: usize = 256;

/// The greatest line and column.
const MAX_COORDINATE: u32 = u32::MAX;

/// What a script's format and the tables of words say of every object.
#[derive(Drop)]
pub struct Setting {
    pub words: Words,
    pub format: Format,
}

/// The symbols of a record, as its occurrences are read beside them.
#[derive(Drop)]
pub struct Around<'s> {
    words: &'s Words,
    table: &'s SymbolTable,
}

impl Item<Setting> for Text {
    ghost use Rattle.ix_plan.specs.Values.{text_of};

    ghost of = { λ setting. text_of };

    fn read(alloc: Global, _setting: &Setting, value: &Value<'_>) -> Result<Text, ScriptError> {
        text(alloc, value)
    }
}

impl Item<Setting> for FilePlan {
    ghost use Rattle.ix_plan.specs.Plans.{file_of};

    ghost of = { λ setting. file_of };

    #[tactic(auto, unfolding(crate::specs::Plans::file_of))]
    fn read(alloc: Global, _setting: &Setting, value: &Value<'_>) -> Result<FilePlan, ScriptError> {
        with_fields(alloc, value, &["path", "system"])?;
        let path = text_field(alloc, value, "path")?;
        let system = flag_or_false(alloc, value, "system")?;
        Ok(FilePlan { path, system })
    }
}

impl Item<Setting> for IncludePlan {
    ghost use Rattle.ix_plan.specs.Plans.{include_of};

    ghost of = { λ setting. include_of };

    #[tactic(auto, unfolding(crate::specs::Plans::include_of))]
    fn read(
        alloc: Global,
        _setting: &Setting,
        value: &Value<'_>,
    ) -> Result<IncludePlan, ScriptError> {
        with_fields(alloc, value, &["from", "line", "to"])?;
        let from = text_field(alloc, value, "from")?;
        let line = count_field(alloc, value, "line", MAX_COORDINATE)?;
        let to = text_field(alloc, value, "to")?;
        Ok(IncludePlan { from, line, to })
    }
}

/// The USR of one of the symbols.
fn known_usr_field(
    alloc: Global,
    table: &SymbolTable,
    value: &Value<'_>,
) -> Result<Text, ScriptError>
    ensures { Gives result (field (codes "usr") (known_usr_of (is_usr_of table.now)) (view value.now)) }
{
    let found = member(alloc, value, "usr")?;
    within(alloc, "usr", known_usr(alloc, table, found))
}

impl<'s> Item<Around<'s>> for RelationPlan {
    ghost use Rattle.ix_plan.specs.Plans.{relation_plan_of};
    ghost use Rattle.ix_plan.specs.Plans.{is_usr_of};

    ghost of = { λ around. relation_plan_of (is_usr_of around.table.now) };

    #[tactic(auto, unfolding(crate::specs::Plans::relation_plan_of))]
    fn read(
        alloc: Global,
        around: &Around<'s>,
        value: &Value<'_>,
    ) -> Result<RelationPlan, ScriptError> {
        with_fields(alloc, value, &["usr", "roles"])?;
        let usr = known_usr_field(alloc, around.table, value)?;
        let roles = roles_field(alloc, around.words, value, WordSort::Relation)?;
        Ok(RelationPlan { usr, roles })
    }
}

impl<'s> Item<Around<'s>> for OccurrencePlan {
    ghost use Rattle.ix_plan.specs.Plans.{occurrence_of};
    ghost use Rattle.ix_plan.specs.Plans.{is_usr_of};

    ghost of = { λ around. occurrence_of (is_usr_of around.table.now) };

    #[tactic(auto, unfolding(crate::specs::Plans::occurrence_of))]
    fn read(
        alloc: Global,
        around: &Around<'s>,
        value: &Value<'_>,
    ) -> Result<OccurrencePlan, ScriptError> {
        with_fields(alloc, value, &["usr", "line", "col", "roles", "relations"])?;
        let usr = known_usr_field(alloc, around.table, value)?;
        let line = count_field(alloc, value, "line", MAX_COORDINATE)?;
        let col = count_field(alloc, value, "col", MAX_COORDINATE)?;
        let roles = roles_field(alloc, around.words, value, WordSort::Role)?;
        let relations = list_or_none(
            alloc,
            around,
            value,
            "relations",
            What::Relations,
            MAX_RELATIONS,
        )?;
        Ok(OccurrencePlan {
            usr,
            line,
            col,
            roles,
            relations,
        })
    }
}

/// The USR of the symbol that comes behind these, which is kept with theirs.
fn new_usr_field(
    alloc: Global,
    symbols: &[SymbolPlan],
    usrs: &mut Usrs,
    value: &Value<'_>,
) -> Result<Text, ScriptError>
    ensures read { Keeps usrs.old.firsts usrs.old.others.keys symbols.now → Gives result (field (codes "usr") (new_usr_of (is_usr_of symbols.now)) (view value.now)) }
    ensures kept { Keeps usrs.old.firsts usrs.old.others.keys symbols.now → IfOk result (λ usr. KeepsNext usrs.new.firsts usrs.new.others.keys symbols.now usr) }
{
    let found = member(alloc, value, "usr")?;
    within(alloc, "usr", new_usr(alloc, symbols, usrs, found))
}

/// The kind of a symbol, unknown where it is absent.
fn kind_or_unknown(alloc: Global, words: &Words, value: &Value<'_>) -> Result<Kind, ScriptError>
    ensures { Gives result (field_or unknown_code (codes "kind") (word_of tables.kinds) (view value.now)) }
{
    match value.get("kind") {
        Some(found) => within(alloc, "kind", kind(alloc, words, found)),
        None => Ok(unknown_kind()),
    }
}

fn unknown_kind() -> Kind
    ensures { result ≡ unknown_code }
{
    match Kind::new(0) {
        Some(kind) => kind,
        None => unreachable!(),
    }
}

/// The language of a symbol, Swift where it is absent.
fn lang_or_swift(alloc: Global, words: &Words, value: &Value<'_>) -> Result<Lang, ScriptError>
    ensures { Gives result (field_or swift_code (codes "lang") (word_of tables.langs) (view value.now)) }
{
    match value.get("lang") {
        Some(found) => within(alloc, "lang", lang(alloc, words, found)),
        None => Ok(Lang::SWIFT),
    }
}

/// The properties of a symbol, none where they are absent.
fn props_or_none(alloc: Global, words: &Words, value: &Value<'_>) -> Result<Props, ScriptError>
    ensures { Gives result (field_or 0 (codes "props") (bits_of prop_of) (view value.now)) }
{
    match value.get("props") {
        Some(found) => within(alloc, "props", props(alloc, words, found)),
        None => Ok(no_props()),
    }
}

fn no_props() -> Props
    ensures { result ≡ 0 }
{
    match Props::new(0) {
        Some(props) => props,
        None => unreachable!(),
    }
}

/// Refuses a symbol with a field that its format doesn't have.
fn with_symbol_fields(alloc: Global, format: Format, value: &Value<'_>) -> Result<(), ScriptError>
    ensures { Gives result (with_fields (symbol_fields format) (view value.now)) }
{
    match format {
        Format::One => with_fields(alloc, value, &["usr", "name", "kind", "lang", "props"]),
        Format::Two => with_fields(
            alloc,
            value,
            &["usr", "name", "kind", "lang", "props", "codegen"],
        ),
    }
}

/// The code generation name, empty where it is absent and in format One.
fn codegen(alloc: Global, format: Format, value: &Value<'_>) -> Result<Text, ScriptError>
    ensures { Gives result (codegen_of format (view value.now)) }
{
    match format {
        Format::One => no_text(alloc),
        Format::Two => text_or_none(alloc, value, "codegen"),
    }
}

/// The symbol that comes behind these, whose USR is kept with theirs.
#[tactic(auto, unfolding(crate::specs::Plans::symbol_of))]
fn symbol(
    alloc: Global,
    setting: &Setting,
    symbols: &[SymbolPlan],
    usrs: &mut Usrs,
    value: &Value<'_>,
) -> Result<SymbolPlan, ScriptError>
    ensures read { Keeps usrs.old.firsts usrs.old.others.keys symbols.now → Gives result (symbol_of setting.now.format (is_usr_of symbols.now) (view value.now)) }
    ensures kept { Keeps usrs.old.firsts usrs.old.others.keys symbols.now → IfOk result (λ symbol. KeepsNext usrs.new.firsts usrs.new.others.keys symbols.now symbol.usr) }
{
    with_symbol_fields(alloc, setting.format, value)?;
    let usr = new_usr_field(alloc, symbols, usrs, value)?;
    let name = text_or_none(alloc, value, "name")?;
    let kind = kind_or_unknown(alloc, &setting.words, value)?;
    let lang = lang_or_swift(alloc, &setting.words, value)?;
    let props = props_or_none(alloc, &setting.words, value)?;
    let codegen = codegen(alloc, setting.format, value)?;
    Ok(SymbolPlan {
        usr,
        name,
        kind,
        lang,
        props,
        codegen,
    })
}

/// The symbols of a list.
fn each_symbol(
    alloc: Global,
    setting: &Setting,
    values: &[Value<'_>],
) -> Result<SymbolTable, ScriptError>
    ensures { Gives result (in_order (λ before. symbol_of setting.now.format (is_usr_of before)) one_more [] 0 (items_view values.now)) }
{
    let mut symbols = Vec::with_capacity(alloc, values.len())?;
    let mut usrs = Usrs::new(alloc);
    for (index, value) in values.iter().enumerate() {
        let symbol = within_item(
            alloc,
            index,
            symbol(alloc, setting, symbols.as_slice(), &mut usrs, value),
        )?;
        symbols.push(symbol)?;
    }
    Ok(SymbolTable::of(symbols, usrs))
}

fn symbols(alloc: Global, setting: &Setting, value: &Value<'_>) -> Result<SymbolTable, ScriptError>
    ensures { Gives result (symbols_of setting.now.format (view value.now)) }
{
    match value.as_array() {
        Some(values) => few_symbols(alloc, setting, values),
        None => bad_value(alloc),
    }
}

/// The symbols, where they are at most 65,536.
#[tactic(auto, using(crate::proofs::Items::items_count_items_view))]
fn few_symbols(
    alloc: Global,
    setting: &Setting,
    values: &[Value<'_>],
) -> Result<SymbolTable, ScriptError>
    ensures { Gives result (few_of What.Symbols 65536 (in_order (λ before. symbol_of setting.now.format (is_usr_of before)) one_more [] 0) (items_view values.now)) }
{
    if values.len() > MAX_ENTRIES {
        return Err(ScriptError::Refused(ScriptRefusal::TooMany {
            what: What::Symbols,
        }));
    }
    each_symbol(alloc, setting, values)
}

/// The symbols of a record, none where they are absent.
fn symbols_or_none(
    alloc: Global,
    setting: &Setting,
    value: &Value<'_>,
) -> Result<SymbolTable, ScriptError>
    ensures { Gives result (field_or [] (codes "symbols") (symbols_of setting.now.format) (view value.now)) }
{
    match value.get("symbols") {
        Some(found) => within(alloc, "symbols", symbols(alloc, setting, found)),
        None => Ok(SymbolTable::of(Vec::new(alloc), Usrs::new(alloc))),
    }
}

/// The occurrences of a record, none where they are absent.
fn occurrences_or_none(
    alloc: Global,
    setting: &Setting,
    table: &SymbolTable,
    value: &Value<'_>,
) -> Result<Seq<OccurrencePlan>, ScriptError>
    ensures { Gives result (field_or [] (codes "occurrences") (occurrences_of table.now) (view value.now)) }
{
    let around = Around {
        words: &setting.words,
        table,
    };
    list_or_none(
        alloc,
        &around,
        value,
        "occurrences",
        What::Occurrences,
        MAX_ENTRIES,
    )
}

impl Item<Setting> for RecordPlan {
    ghost use Rattle.ix_plan.specs.Plans.{record_of};

    ghost of = { λ setting. record_of setting.format };

    #[tactic(auto, unfolding(crate::specs::Plans::record_of))]
    fn read(
        alloc: Global,
        setting: &Setting,
        value: &Value<'_>,
    ) -> Result<RecordPlan, ScriptError> {
        with_fields(alloc, value, &["path", "system", "symbols", "occurrences"])?;
        let path = text_field(alloc, value, "path")?;
        let system = flag_or_false(alloc, value, "system")?;
        let table = symbols_or_none(alloc, setting, value)?;
        let occurrences = occurrences_or_none(alloc, setting, &table, value)?;
        Ok(RecordPlan {
            format: setting.format,
            path,
            system,
            symbols: table.into_symbols(),
            occurrences,
        })
    }
}

/// The plan of a compile job.
#[tactic(auto, unfolding(crate::specs::Plans::unit_of))]
pub fn unit(alloc: Global, setting: &Setting, value: &Value<'_>) -> Result<UnitPlan, ScriptError>
    ensures { Gives result (unit_of setting.now.format (view value.now)) }
{
    with_fields(
        alloc,
        value,
        &[
            "output", "main", "module", "system", "units", "records", "files", "includes",
        ],
    )?;
    let output = text_field(alloc, value, "output")?;
    let main = text_or_none(alloc, value, "main")?;
    let module = text_or_none(alloc, value, "module")?;
    let system = flag_or_false(alloc, value, "system")?;
    let units = list_or_none(alloc, setting, value, "units", What::Units, MAX_PARTS)?;
    let records = list_or_none(alloc, setting, value, "records", What::Records, MAX_PARTS)?;
    let files = list_or_none(alloc, setting, value, "files", What::Files, MAX_PARTS)?;
    let includes = list_or_none(alloc, setting, value, "includes", What::Includes, MAX_PARTS)?;
    Ok(UnitPlan {
        output,
        main,
        module,
        system,
        units,
        records,
        files,
        includes,
    })
}
