//! Reading the values of fields: texts, numbers, truth values, words and USRs.
ghost use Rattle.std.specs.Prelude.{◌≡◌, ◌<◌, ◌^◌, ◌||◌, List, ℕ, IfOk, is_none};
ghost use Rattle.ix_plan.specs.View.{view, items_view};
ghost use Rattle.ix_types.specs.Codes as tables;
ghost use Rattle.ix_plan.specs.Read.{Gives, GivesAs, within};
ghost use Rattle.ix_plan.specs.Json.{few_of};
ghost use Rattle.std.specs.Fmt.{decimal};
ghost use Rattle.ix_plan.specs.Plans.{is_usr_of};
ghost use Rattle.ix_plan.specs.Usrs.{Keeps, KeepsNext};
ghost use Rattle.ix_plan.specs.Values.{string_of, text_of, text_or_empty_of, flag_of, number_of, count_of, word_of, tested, role_of, relation_of, prop_of, bit_of, width, with_bit, bits_from, bits_of, some_bits_from, some_bits_of, new_usr_of, known_usr_of};
ghost use Rattle.ix_types.specs.Text.{refusal};

use crate::objects::{bad_value, within_item};
use crate::plan::SymbolPlan;
use crate::refusal::{ScriptError, ScriptRefusal, What};
use crate::symbol_table::{SymbolTable, Usrs};
use crate::value::Value;
use crate::words::Words;
use ix_types::{Kind, Lang, Props, Roles, Text, TextError};
use std::alloc::Global;

/// The most words of a list.
const MAX_WORDS: usize = 64;

/// The words of a list: of roles and relations, of relations alone, of properties.
#[derive(Clone, Copy, Debug, PartialEq, Eq)]
pub enum WordSort {
    Role,
    Relation,
    Prop,
}

/// The string.
pub fn string<'a>(alloc: Global, value: &Value<'a>) -> Result<&'a str, ScriptError>
    ensures { GivesAs (λ string. string.now) result (string_of (view value.now)) }
{
    match value.as_str() {
        Some(string) => Ok(string),
        None => bad_value(alloc),
    }
}

/// The string, where it is a text.
pub fn text(alloc: Global, value: &Value<'_>) -> Result<Text, ScriptError>
    ensures { Gives result (text_of (view value.now)) }
{
    text_from(alloc, string(alloc, value)?)
}

fn text_from(alloc: Global, string: &str) -> Result<Text, ScriptError>
    ensures { Gives result (tested (is_none (refusal string.now)) string.now) }
{
    match Text::read(alloc, string.as_bytes()) {
        Ok(text) => Ok(text),
        Err(TextError::Memory) => Err(ScriptError::Memory),
        Err(_) => bad_value(alloc),
    }
}

/// The string, where it is a text or empty.
pub fn text_or_empty(alloc: Global, value: &Value<'_>) -> Result<Text, ScriptError>
    ensures { Gives result (text_or_empty_of (view value.now)) }
{
    let string = string(alloc, value)?;
    match Text::read_or_empty(alloc, string.as_bytes()) {
        Ok(text) => Ok(text),
        Err(TextError::Memory) => Err(ScriptError::Memory),
        Err(_) => bad_value(alloc),
    }
}

/// The truth value.
pub fn flag(alloc: Global, value: &Value<'_>) -> Result<bool, ScriptError>
    ensures { Gives result (flag_of (view value.now)) }
{
    match value.as_bool() {
        Some(flag) => Ok(flag),
        None => bad_value(alloc),
    }
}

/// The whole number.
pub fn number(alloc: Global, value: &Value<'_>) -> Result<u64, ScriptError>
    ensures { Gives result (number_of (view value.now)) }
{
    match value.as_u64() {
        Some(number) => Ok(number),
        None => bad_value(alloc),
    }
}

/// The whole number, from 1 to the greatest.
pub fn count(alloc: Global, value: &Value<'_>, most: u32) -> Result<u32, ScriptError>
    ensures { Gives result (count_of most (view value.now)) }
{
    let number = number(alloc, value)?;
    if 1 <= number && number <= u64::from(most) {
        Ok(number as u32)
    } else {
        bad_value(alloc)
    }
}

/// The kind of a word.
#[tactic(auto, using(crate::proofs::Rows::kind_of_word))]
pub fn kind(alloc: Global, words: &Words, value: &Value<'_>) -> Result<Kind, ScriptError>
    ensures { Gives result (word_of tables.kinds (view value.now)) }
{
    match words.kind(string(alloc, value)?) {
        Some(code) => match Kind::new(code) {
            Some(kind) => Ok(kind),
            None => unreachable!(),
        },
        None => bad_value(alloc),
    }
}

/// The language of a word.
#[tactic(auto, using(crate::proofs::Rows::lang_of_word))]
pub fn lang(alloc: Global, words: &Words, value: &Value<'_>) -> Result<Lang, ScriptError>
    ensures { Gives result (word_of tables.langs (view value.now)) }
{
    match words.lang(string(alloc, value)?) {
        Some(code) => match Lang::new(code) {
            Some(lang) => Ok(lang),
            None => unreachable!(),
        },
        None => bad_value(alloc),
    }
}

/// The number of the bit of a word.
fn bit(alloc: Global, words: &Words, sort: WordSort, value: &Value<'_>) -> Result<u32, ScriptError>
    ensures bit { Gives result (bit_of sort (view value.now)) }
    ensures range { IfOk result (λ bit. bit < width sort) }
{
    match sort {
        WordSort::Role => role(alloc, words, value),
        WordSort::Relation => relation(alloc, words, value),
        WordSort::Prop => prop(alloc, words, value),
    }
}

/// The number of the bit of a role or a relation.
#[tactic(auto, using(crate::proofs::Rows::role_below))]
fn role(alloc: Global, words: &Words, value: &Value<'_>) -> Result<u32, ScriptError>
    ensures bit { Gives result (role_of (view value.now)) }
    ensures range { IfOk result (λ bit. bit < 19) }
{
    match words.role(string(alloc, value)?) {
        Some(bit) => Ok(bit),
        None => bad_value(alloc),
    }
}

/// The number of the bit of a relation.
fn relation(alloc: Global, words: &Words, value: &Value<'_>) -> Result<u32, ScriptError>
    ensures bit { Gives result (relation_of (view value.now)) }
    ensures range { IfOk result (λ bit. bit < 19) }
{
    let bit = role(alloc, words, value)?;
    if bit >= 9 { Ok(bit) } else { bad_value(alloc) }
}

/// The number of the bit of a property.
#[tactic(auto, using(crate::proofs::Rows::prop_below))]
fn prop(alloc: Global, words: &Words, value: &Value<'_>) -> Result<u32, ScriptError>
    ensures bit { Gives result (prop_of (view value.now)) }
    ensures range { IfOk result (λ bit. bit < 9) }
{
    match words.prop(string(alloc, value)?) {
        Some(bit) => Ok(bit),
        None => bad_value(alloc),
    }
}

/// The mask with a bit more.
fn set_bit(mask: u32, bit: u32) -> u32
    requires { bit < 32 }
    ensures { result ≡ with_bit mask bit }
{
    mask | 1 << bit
}

/// The bits of some words.
#[tactic(auto, using(crate::proofs::Rows::with_bit_below, crate::proofs::Rows::width_at_most))]
fn bits_from(
    alloc: Global,
    words: &Words,
    sort: WordSort,
    items: &[Value<'_>],
) -> Result<u32, ScriptError>
    ensures bits { Gives result (bits_from (bit_of sort) (items_view items.now)) }
    ensures range { IfOk result (λ mask. mask < 2 ^ width sort) }
{
    let mut mask = 0;
    for (index, item) in items.iter().enumerate() {
        let bit = bit_at(alloc, words, sort, index, item)?;
        mask = set_bit(mask, bit);
    }
    Ok(mask)
}

/// The number of the bit of a word at a number of a list.
#[tactic(auto, using(crate::proofs::Lengths::same_passes))]
fn bit_at(
    alloc: Global,
    words: &Words,
    sort: WordSort,
    index: usize,
    item: &Value<'_>,
) -> Result<u32, ScriptError>
    ensures bit { Gives result (within (decimal index) (bit_of sort (view item.now))) }
    ensures range { IfOk result (λ bit. bit < width sort) }
{
    within_item(alloc, index, bit(alloc, words, sort, item))
}

/// The roles of a list of at least one word.
pub fn roles(
    alloc: Global,
    words: &Words,
    sort: WordSort,
    value: &Value<'_>,
) -> Result<Roles, ScriptError>
    ensures { Gives result (some_bits_of (bit_of sort) (view value.now)) }
{
    match value.as_array() {
        Some(items) => few_roles(alloc, words, sort, items),
        None => bad_value(alloc),
    }
}

/// The roles, where the list has at most 64 words.
#[tactic(auto, using(crate::proofs::Items::items_count_items_view))]
fn few_roles(
    alloc: Global,
    words: &Words,
    sort: WordSort,
    items: &[Value<'_>],
) -> Result<Roles, ScriptError>
    ensures { Gives result (few_of What.Words 64 (some_bits_from (bit_of sort)) (items_view items.now)) }
{
    if items.len() > MAX_WORDS {
        return Err(ScriptError::Refused(ScriptRefusal::TooMany { what: What::Words }));
    }
    roles_from(alloc, words, sort, items)
}

#[tactic(auto, using(crate::proofs::Items::items_count_items_view, crate::proofs::Rows::roles_fit))]
fn roles_from(
    alloc: Global,
    words: &Words,
    sort: WordSort,
    items: &[Value<'_>],
) -> Result<Roles, ScriptError>
    ensures { Gives result (some_bits_from (bit_of sort) (items_view items.now)) }
{
    if items.len() == 0 {
        return bad_value(alloc);
    }
    match Roles::new(bits_from(alloc, words, sort, items)?) {
        Some(roles) => Ok(roles),
        None => unreachable!(),
    }
}

/// The properties of a list of words.
pub fn props(alloc: Global, words: &Words, value: &Value<'_>) -> Result<Props, ScriptError>
    ensures { Gives result (bits_of prop_of (view value.now)) }
{
    match value.as_array() {
        Some(items) => few_props(alloc, words, items),
        None => bad_value(alloc),
    }
}

/// The properties, where the list has at most 64 words.
#[tactic(auto, using(crate::proofs::Items::items_count_items_view))]
fn few_props(alloc: Global, words: &Words, items: &[Value<'_>]) -> Result<Props, ScriptError>
    ensures { Gives result (few_of What.Words 64 (bits_from prop_of) (items_view items.now)) }
{
    if items.len() > MAX_WORDS {
        return Err(ScriptError::Refused(ScriptRefusal::TooMany { what: What::Words }));
    }
    props_from(alloc, words, items)
}

fn props_from(alloc: Global, words: &Words, items: &[Value<'_>]) -> Result<Props, ScriptError>
    ensures { Gives result (bits_from prop_of (items_view items.now)) }
{
    match Props::new(bits_from(alloc, words, WordSort::Prop, items)?) {
        Some(props) => Ok(props),
        None => unreachable!(),
    }
}

/// The USR of the symbol that comes behind these, which is kept with theirs.
pub fn new_usr(
    alloc: Global,
    symbols: &[SymbolPlan],
    usrs: &mut Usrs,
    value: &Value<'_>,
) -> Result<Text, ScriptError>
    ensures read { Keeps usrs.old.firsts usrs.old.others.keys symbols.now → Gives result (new_usr_of (is_usr_of symbols.now) (view value.now)) }
    ensures kept { Keeps usrs.old.firsts usrs.old.others.keys symbols.now → IfOk result (λ usr. KeepsNext usrs.new.firsts usrs.new.others.keys symbols.now usr) }
{
    let usr = text(alloc, value)?;
    let new = usrs.keep(alloc, symbols, usr.bytes())?;
    if new { Ok(usr) } else { bad_value(alloc) }
}

/// The USR of one of the symbols.
pub fn known_usr(alloc: Global, table: &SymbolTable, value: &Value<'_>) -> Result<Text, ScriptError>
    ensures { Gives result (known_usr_of (is_usr_of table.now) (view value.now)) }
{
    let usr = text(alloc, value)?;
    let known = table.has(usr.bytes());
    if known { Ok(usr) } else { bad_value(alloc) }
}
