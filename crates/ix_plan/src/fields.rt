//! Reading the fields of an object, each at its place.
ghost use Rattle.std.specs.Prelude.{◌≡◌, [], false, codes, Ok};
ghost use Rattle.ix_plan.specs.View.{view, items_view};
ghost use Rattle.ix_plan.specs.Read.{Gives};
ghost use Rattle.ix_plan.specs.Json.{field, field_or, list_of, in_order, one_more, few_of};
ghost use Rattle.ix_plan.specs.Values.{text_of, text_or_empty_of, flag_of, count_of, bit_of, some_bits_of};

use crate::objects::{bad_value, member, within, within_item};
use crate::refusal::{ScriptError, ScriptRefusal, What};
use crate::value::Value;
use crate::values::{WordSort, count, flag, roles, text, text_or_empty};
use crate::words::Words;
use ix_types::{Roles, Seq, Text};
use std::alloc::Global;

/// What can be read of an item of a list, in a setting.
pub trait Item<C>: Drop {
    ghost use Rattle.serde_json.specs.Data.{Data};
    ghost use Rattle.ix_plan.specs.Read.{Read};

    /// What is to be read of a value.
    ghost of: { C → Data → Read Self };

    fn read(alloc: Global, setting: &C, value: &Value<'_>) -> Result<Self, ScriptError>
        ensures { Gives result (of setting.now (view value.now)) };
}

/// A text.
pub fn text_field(alloc: Global, value: &Value<'_>, name: &str) -> Result<Text, ScriptError>
    ensures { Gives result (field name.now text_of (view value.now)) }
{
    let found = member(alloc, value, name)?;
    within(alloc, name, text(alloc, found))
}

/// A text that may be empty.
pub fn text_or_empty_field(
    alloc: Global,
    value: &Value<'_>,
    name: &str,
) -> Result<Text, ScriptError>
    ensures { Gives result (field name.now text_or_empty_of (view value.now)) }
{
    let found = member(alloc, value, name)?;
    within(alloc, name, text_or_empty(alloc, found))
}

/// A text that may be empty, and is where it is absent.
pub fn text_or_none(alloc: Global, value: &Value<'_>, name: &str) -> Result<Text, ScriptError>
    ensures { Gives result (field_or [] name.now text_or_empty_of (view value.now)) }
{
    match value.get(name) {
        Some(found) => within(alloc, name, text_or_empty(alloc, found)),
        None => no_text(alloc),
    }
}

/// The empty text.
pub fn no_text(alloc: Global) -> Result<Text, ScriptError>
    ensures { Gives result (Ok []) }
{
    match Text::read_or_empty(alloc, &[]) {
        Ok(text) => Ok(text),
        Err(_) => Err(ScriptError::Memory),
    }
}

/// A truth value, false where it is absent.
pub fn flag_or_false(alloc: Global, value: &Value<'_>, name: &str) -> Result<bool, ScriptError>
    ensures { Gives result (field_or false name.now flag_of (view value.now)) }
{
    match value.get(name) {
        Some(found) => within(alloc, name, flag(alloc, found)),
        None => Ok(false),
    }
}

/// A number from 1 to the greatest.
pub fn count_field(
    alloc: Global,
    value: &Value<'_>,
    name: &str,
    most: u32,
) -> Result<u32, ScriptError>
    ensures { Gives result (field name.now (count_of most) (view value.now)) }
{
    let found = member(alloc, value, name)?;
    within(alloc, name, count(alloc, found, most))
}

/// A list of at least one word.
pub fn roles_field(
    alloc: Global,
    words: &Words,
    value: &Value<'_>,
    sort: WordSort,
) -> Result<Roles, ScriptError>
    ensures { Gives result (field (codes "roles") (some_bits_of (bit_of sort)) (view value.now)) }
{
    let found = member(alloc, value, "roles")?;
    within(alloc, "roles", roles(alloc, words, sort, found))
}

/// A list of at most so many items.
pub fn list<C, T: Item<C>>(
    alloc: Global,
    setting: &C,
    value: &Value<'_>,
    what: What,
    most: usize,
) -> Result<Seq<T>, ScriptError>
    ensures { Gives result (list_of what most (λ before. T.of setting.now) (view value.now)) }
{
    match value.as_array() {
        Some(values) => few(alloc, setting, values, what, most),
        None => bad_value(alloc),
    }
}

/// The items, where they are at most so many.
#[tactic(auto, using(crate::proofs::Items::items_count_items_view))]
fn few<C, T: Item<C>>(
    alloc: Global,
    setting: &C,
    values: &[Value<'_>],
    what: What,
    most: usize,
) -> Result<Seq<T>, ScriptError>
    ensures { Gives result (few_of what most (in_order (λ before. T.of setting.now) one_more [] 0) (items_view values.now)) }
{
    if values.len() > most {
        return Err(ScriptError::Refused(ScriptRefusal::TooMany { what }));
    }
    each(alloc, setting, values)
}

fn each<C, T: Item<C>>(
    alloc: Global,
    setting: &C,
    values: &[Value<'_>],
) -> Result<Seq<T>, ScriptError>
    ensures { Gives result (in_order (λ before. T.of setting.now) one_more [] 0 (items_view values.now)) }
{
    let mut items = Vec::with_capacity(alloc, values.len())?;
    for (index, value) in values.iter().enumerate() {
        let item = within_item(alloc, index, T::read(alloc, setting, value))?;
        items.push(item)?;
    }
    Ok(Seq::of(items))
}

/// A list of at most so many items, with none where it is absent.
pub fn list_or_none<C, T: Item<C>>(
    alloc: Global,
    setting: &C,
    value: &Value<'_>,
    name: &str,
    what: What,
    most: usize,
) -> Result<Seq<T>, ScriptError>
    ensures { Gives result (field_or [] name.now (list_of what most (λ before. T.of setting.now)) (view value.now)) }
{
    match value.get(name) {
        Some(found) => within(alloc, name, list(alloc, setting, found, what, most)),
        None => Ok(Seq::of(Vec::new(alloc))),
    }
}
