//! Reading steps and asks from a JSON value, by their words.
ghost use Rattle.std.specs.Prelude.{◌≡◌, List, ℕ, map, codes, Bool, IfOk, Ok, Err};
ghost use Rattle.serde_json.specs.View as owned;
ghost use Rattle.ix_plan.specs.View.{view};
ghost use Rattle.ix_plan.specs.Read.{Read, Gives, GivesAs};
ghost use Rattle.ix_plan.specs.Json.{field, with_fields};
ghost use Rattle.ix_plan.specs.Values.{string_of, bit_of, some_bits_of};
ghost use Rattle.ix_plan.specs.Steps.{unknown_word, ask_fields, one_text, usr_and_roles, usr_and_depth, name_ask, pattern_ask, walk_by_word, path_by_word, name_by_word, ask_by_word, ask_of, ask_alone_of, build_of, remove_of, plain_step, ask_step, step_by_word, step_by_do, step_of, lane_of};
ghost use Rattle.ix_plan.specs.Keeps.{IsAsk};

use crate::borrow::borrow;
use crate::fields::{
    Item, count_field, flag_or_false, list, roles_field, text_field, text_or_empty_field,
};
use crate::objects::{bad_value, member, with_fields, with_more_fields, within};
use crate::plan::Step;
use crate::refusal::{ScriptError, ScriptRefusal, What};
use crate::units::{Setting, unit};
use crate::value::Value;
use crate::values::{WordSort, string};
use crate::words::Words;
use ix_types::{Format, Query, Roles, Seq, Text};
use std::alloc::Global;

/// The most steps of a lane.
const MAX_STEPS: usize = 4096;

/// The greatest depth of a walk.
const MAX_DEPTH: u32 = 16;

/// Where an ask stands: among the steps of a lane, with its `do`, or alone.
#[derive(Clone, Copy, Debug, PartialEq, Eq)]
pub enum AskPlace {
    Among,
    Alone,
}

/// Refuses a value that isn't an object, and an ask with a field that its word doesn't have.
fn with_ask_fields(
    alloc: Global,
    at: AskPlace,
    value: &Value<'_>,
    names: &[&str],
) -> Result<(), ScriptError>
    ensures { Gives result (with_fields (ask_fields at (map (λ name. name.now) names.now)) (view value.now)) }
{
    match at {
        AskPlace::Among => with_more_fields(alloc, value, &["do", "query"], names),
        AskPlace::Alone => with_more_fields(alloc, value, &["query"], names),
    }
}

/// A field whose value is a string.
fn word_field<'a>(alloc: Global, value: &Value<'a>, name: &str) -> Result<&'a str, ScriptError>
    ensures { GivesAs (λ word. word.now) result (field name.now string_of (view value.now)) }
{
    let found = member(alloc, value, name)?;
    match found.as_str() {
        Some(word) => Ok(word),
        None => unknown_word(alloc, name),
    }
}

/// Refuses the value of the field.
fn unknown_word<T: Drop>(alloc: Global, name: &str) -> Result<T, ScriptError>
    ensures { Gives result (unknown_word name.now) }
{
    within(alloc, name, bad_value(alloc))
}

/// The one field of an ask, a text.
#[tactic(auto, unfolding(crate::specs::Steps::one_text))]
fn one_text(alloc: Global, at: AskPlace, value: &Value<'_>, name: &str) -> Result<Text, ScriptError>
    ensures { Gives result (one_text at name.now (view value.now)) }
{
    with_ask_fields(alloc, at, value, &[name])?;
    text_field(alloc, value, name)
}

/// The fields of an ask with roles.
#[tactic(auto, unfolding(crate::specs::Steps::usr_and_roles))]
fn usr_and_roles(
    alloc: Global,
    at: AskPlace,
    setting: &Setting,
    value: &Value<'_>,
    sort: WordSort,
) -> Result<(Text, Roles), ScriptError>
    ensures { Gives result (usr_and_roles at (bit_of sort) (view value.now)) }
{
    with_ask_fields(alloc, at, value, &["usr", "roles"])?;
    let usr = text_field(alloc, value, "usr")?;
    let roles = roles_field(alloc, &setting.words, value, sort)?;
    Ok((usr, roles))
}

/// The fields of a walk.
#[tactic(auto, unfolding(crate::specs::Steps::usr_and_depth))]
fn usr_and_depth(alloc: Global, at: AskPlace, value: &Value<'_>) -> Result<(Text, u32), ScriptError>
    ensures { Gives result (usr_and_depth at (view value.now)) }
{
    with_ask_fields(alloc, at, value, &["usr", "depth"])?;
    let usr = text_field(alloc, value, "usr")?;
    let depth = count_field(alloc, value, "depth", MAX_DEPTH)?;
    Ok((usr, depth))
}

#[tactic(auto, unfolding(crate::specs::Steps::name_ask))]
fn name_ask(alloc: Global, at: AskPlace, value: &Value<'_>) -> Result<Query, ScriptError>
    ensures { Gives result (name_ask at (view value.now)) }
{
    with_ask_fields(alloc, at, value, &["name"])?;
    let name = text_or_empty_field(alloc, value, "name")?;
    Ok(Query::Name { name })
}

#[tactic(auto, unfolding(crate::specs::Steps::pattern_ask))]
fn pattern_ask(alloc: Global, at: AskPlace, value: &Value<'_>) -> Result<Query, ScriptError>
    ensures { Gives result (pattern_ask at (view value.now)) }
{
    with_ask_fields(alloc, at, value, &["text", "start", "end", "fold"])?;
    let text = text_field(alloc, value, "text")?;
    let start = flag_or_false(alloc, value, "start")?;
    let end = flag_or_false(alloc, value, "end")?;
    let fold = flag_or_false(alloc, value, "fold")?;
    Ok(Query::Pattern {
        text,
        start,
        end,
        fold,
    })
}

#[tactic(auto, unfolding(crate::specs::Steps::walk_by_word))]
fn walk(alloc: Global, at: AskPlace, word: &str, value: &Value<'_>) -> Result<Query, ScriptError>
    ensures { Gives result (walk_by_word at word.now (view value.now)) }
{
    if word == "incoming" {
        let (usr, depth) = usr_and_depth(alloc, at, value)?;
        return Ok(Query::Incoming { usr, depth });
    }
    if word == "outgoing" {
        let (usr, depth) = usr_and_depth(alloc, at, value)?;
        return Ok(Query::Outgoing { usr, depth });
    }
    if word == "supertypes" {
        let (usr, depth) = usr_and_depth(alloc, at, value)?;
        return Ok(Query::Supertypes { usr, depth });
    }
    if word == "subtypes" {
        let (usr, depth) = usr_and_depth(alloc, at, value)?;
        return Ok(Query::Subtypes { usr, depth });
    }
    unknown_word(alloc, "query")
}

#[tactic(auto, unfolding(crate::specs::Steps::path_by_word))]
fn path_ask(
    alloc: Global,
    at: AskPlace,
    word: &str,
    value: &Value<'_>,
) -> Result<Query, ScriptError>
    ensures { Gives result (path_by_word at word.now (view value.now)) }
{
    if word == "symbols" {
        let path = one_text(alloc, at, value, "path")?;
        return Ok(Query::Symbols { path });
    }
    if word == "mains" {
        let path = one_text(alloc, at, value, "path")?;
        return Ok(Query::Mains { path });
    }
    if word == "units" {
        let path = one_text(alloc, at, value, "path")?;
        return Ok(Query::Units { path });
    }
    if word == "includes" {
        let path = one_text(alloc, at, value, "path")?;
        return Ok(Query::Includes { path });
    }
    if word == "includers" {
        let path = one_text(alloc, at, value, "path")?;
        return Ok(Query::Includers { path });
    }
    walk(alloc, at, word, value)
}

#[tactic(auto, unfolding(crate::specs::Steps::name_by_word))]
fn named_ask(
    alloc: Global,
    at: AskPlace,
    format: Format,
    word: &str,
    value: &Value<'_>,
) -> Result<Query, ScriptError>
    ensures { Gives result (name_by_word at format word.now (view value.now)) }
{
    if word == "name" {
        return name_ask(alloc, at, value);
    }
    if word == "pattern" {
        return pattern_ask(alloc, at, value);
    }
    if word == "codegen" && format == Format::Two {
        let codegen = one_text(alloc, at, value, "codegen")?;
        return Ok(Query::Codegen { codegen });
    }
    path_ask(alloc, at, word, value)
}

/// The ask of a word.
#[tactic(auto, unfolding(crate::specs::Steps::ask_by_word))]
fn ask_by_word(
    alloc: Global,
    at: AskPlace,
    setting: &Setting,
    word: &str,
    value: &Value<'_>,
) -> Result<Query, ScriptError>
    ensures { Gives result (ask_by_word at setting.now.format word.now (view value.now)) }
{
    if word == "def" {
        let usr = one_text(alloc, at, value, "usr")?;
        return Ok(Query::Def { usr });
    }
    if word == "refs" {
        let usr = one_text(alloc, at, value, "usr")?;
        return Ok(Query::Refs { usr });
    }
    if word == "occ" {
        let (usr, roles) = usr_and_roles(alloc, at, setting, value, WordSort::Role)?;
        return Ok(Query::Occ { usr, roles });
    }
    if word == "rel" {
        let (usr, roles) = usr_and_roles(alloc, at, setting, value, WordSort::Relation)?;
        return Ok(Query::Rel { usr, roles });
    }
    if word == "callers" {
        let usr = one_text(alloc, at, value, "usr")?;
        return Ok(Query::Callers { usr });
    }
    if word == "overrides" {
        let usr = one_text(alloc, at, value, "usr")?;
        return Ok(Query::Overrides { usr });
    }
    named_ask(alloc, at, setting.format, word, value)
}

/// An ask.
#[tactic(auto, unfolding(crate::specs::Steps::ask_of))]
fn ask(
    alloc: Global,
    at: AskPlace,
    setting: &Setting,
    value: &Value<'_>,
) -> Result<Query, ScriptError>
    ensures { Gives result (ask_of at setting.now.format (view value.now)) }
{
    let word = word_field(alloc, value, "query")?;
    ask_by_word(alloc, at, setting, word, value)
}

/// An ask that is no step of a script.
#[tactic(auto, unfolding(crate::specs::Steps::ask_alone_of))]
fn ask_alone(alloc: Global, value: &Value<'_>) -> Result<Query, ScriptError>
    ensures { Gives result (ask_alone_of (view value.now)) }
{
    let setting = Setting {
        words: Words::new(),
        format: Format::Two,
    };
    match value.as_object() {
        Some(_members) => ask(alloc, AskPlace::Alone, &setting, value),
        None => bad_value(alloc),
    }
}

/// The ask that a value spells by itself, as in a script of format 2 but with no `do`, or the first refusal in reading order. Places are those
/// from the value on.
pub fn read_ask(alloc: Global, value: &serde_json::Value) -> Result<Query, ScriptError>
    ensures accepted { IfOk result (λ ask. ask_alone_of (owned.view value.now) ≡ Ok ask) }
    ensures refused { (r : ScriptRefusal) → result ≡ Err (ScriptError.Refused r) → ask_alone_of (owned.view value.now) ≡ Err r }
    ensures kept { IfOk result IsAsk }
{
    let value = borrow(alloc, value)?;
    ask_alone(alloc, &value)
}

#[tactic(auto, unfolding(crate::specs::Steps::build_of))]
fn build(alloc: Global, setting: &Setting, value: &Value<'_>) -> Result<Step, ScriptError>
    ensures { Gives result (build_of setting.now.format (view value.now)) }
{
    with_fields(alloc, value, &["do", "unit"])?;
    let found = member(alloc, value, "unit")?;
    let unit = within(alloc, "unit", unit(alloc, setting, found))?;
    Ok(Step::Build(unit))
}

#[tactic(auto, unfolding(crate::specs::Steps::remove_of))]
fn remove(alloc: Global, value: &Value<'_>) -> Result<Step, ScriptError>
    ensures { Gives result (remove_of (view value.now)) }
{
    with_fields(alloc, value, &["do", "output"])?;
    let output = text_field(alloc, value, "output")?;
    Ok(Step::Remove(output))
}

#[tactic(auto, unfolding(crate::specs::Steps::plain_step))]
fn plain(alloc: Global, value: &Value<'_>, step: Step) -> Result<Step, ScriptError>
    ensures { Gives result (plain_step step (view value.now)) }
{
    with_fields(alloc, value, &["do"])?;
    Ok(step)
}

#[tactic(auto, unfolding(crate::specs::Steps::ask_step))]
fn ask_step(alloc: Global, setting: &Setting, value: &Value<'_>) -> Result<Step, ScriptError>
    ensures { Gives result (ask_step setting.now.format (view value.now)) }
{
    let query = ask(alloc, AskPlace::Among, setting, value)?;
    Ok(Step::Ask(query))
}

#[tactic(auto, unfolding(crate::specs::Steps::step_by_word))]
fn step_by_word(
    alloc: Global,
    setting: &Setting,
    word: &str,
    value: &Value<'_>,
) -> Result<Step, ScriptError>
    ensures { Gives result (step_by_word setting.now.format word.now (view value.now)) }
{
    if word == "build" {
        return build(alloc, setting, value);
    }
    if word == "remove" {
        return remove(alloc, value);
    }
    if word == "poll" {
        return plain(alloc, value, Step::Poll);
    }
    if word == "refresh" {
        return plain(alloc, value, Step::Refresh);
    }
    if word == "ask" {
        return ask_step(alloc, setting, value);
    }
    if word == "release" {
        return plain(alloc, value, Step::Release);
    }
    if word == "collect" {
        return plain(alloc, value, Step::Collect);
    }
    unknown_word(alloc, "do")
}

/// The step of an object.
fn step(alloc: Global, setting: &Setting, value: &Value<'_>) -> Result<Step, ScriptError>
    ensures { Gives result (step_by_do setting.now.format (view value.now)) }
{
    let word = word_field(alloc, value, "do")?;
    step_by_word(alloc, setting, word, value)
}

impl Item<Setting> for Step {
    ghost use Rattle.ix_plan.specs.Steps.{step_of};

    ghost of = { λ setting. step_of setting.format };

    #[tactic(auto, unfolding(crate::specs::Steps::step_of))]
    fn read(alloc: Global, setting: &Setting, value: &Value<'_>) -> Result<Step, ScriptError> {
        match value.as_object() {
            Some(_members) => step(alloc, setting, value),
            None => bad_value(alloc),
        }
    }
}

impl Item<Setting> for Seq<Step> {
    ghost use Rattle.ix_plan.specs.Steps.{lane_of};

    ghost of = { λ setting. lane_of setting.format };

    #[tactic(auto, unfolding(crate::specs::Steps::lane_of))]
    fn read(alloc: Global, setting: &Setting, value: &Value<'_>) -> Result<Seq<Step>, ScriptError> {
        list(alloc, setting, value, What::Steps, MAX_STEPS)
    }
}
