//! Looking into a JSON value by the rules of reading order: objects and their fields, lists and their items.
ghost use Rattle.std.specs.Prelude.{◌≡◌, ◌∷◌, ◌++◌, ◌||◌, [], map, List, ℕ, string_bytes, IfOk, Ok, Err};
ghost use Rattle.std.specs.Fmt.{decimal};
ghost use Rattle.std.specs.List.{list_any, list_all};
ghost use Rattle.std.specs.Str.{bytes_eq};
ghost use Rattle.serde_json.specs.Find.{get};
ghost use Rattle.ix_plan.specs.View.{view, members_view};
ghost use Rattle.ix_plan.specs.declared.refusal.ScriptRefusal.TheVariants.{BadField, BadValue};
ghost use Rattle.ix_plan.specs.Read.{Read, Gives, GivesAs, placed, within, bad_value};
ghost use Rattle.ix_plan.specs.Json.{json_of, keys_among, known_fields, with_fields, member_of};

use crate::parse::{Unread, parse};
use crate::refusal::{Place, ScriptError, ScriptRefusal};
use crate::value::Value;
use itoa::Buffer;
use ix_types::Seq;
use json::Scratch;
use std::alloc::{AllocError, Global};

/// The value of bytes that are UTF-8 and JSON.
#[tactic(auto, using(crate::proofs::Items::json_of_utf8))]
pub fn value<'a>(
    alloc: Global,
    bytes: &'a [u8],
    scratch: &'a mut Scratch,
) -> Result<Value<'a>, ScriptError>
    ensures { GivesAs view result (json_of bytes.now) }
{
    match str::from_utf8(bytes) {
        Ok(text) => match parse(alloc, text, scratch) {
            Ok(value) => Ok(value),
            Err(Unread::Memory) => Err(ScriptError::Memory),
            Err(Unread::NotJson) => Err(ScriptError::Refused(ScriptRefusal::NotJson)),
        },
        Err(_) => Err(ScriptError::Refused(ScriptRefusal::NotJson)),
    }
}

/// The refusal of a value that isn't allowed, at its own place.
pub fn bad_value<T: Drop>(alloc: Global) -> Result<T, ScriptError>
    ensures { Gives result bad_value }
{
    Err(ScriptError::Refused(ScriptRefusal::BadValue {
        path: Seq::of(Vec::new(alloc)),
    }))
}

/// The place of a part's place in the whole.
fn place(alloc: Global, part: &str, path: &[u8]) -> Result<Place, AllocError>
    ensures { IfOk result (λ place. place ≡ 47 ∷ part.now ++ path.now) }
{
    let mut bytes = Vec::new(alloc);
    bytes.push(b'/')?;
    bytes.extend_from_slice(part.as_bytes())?;
    bytes.extend_from_slice(path)?;
    Ok(Seq::of(bytes))
}

/// The refusal of a part, with its place seen from the whole.
fn placed(alloc: Global, part: &str, refusal: ScriptRefusal) -> Result<ScriptRefusal, AllocError>
    ensures { IfOk result (λ whole. whole ≡ placed part.now refusal) }
{
    match refusal {
        ScriptRefusal::BadField { path } => Ok(ScriptRefusal::BadField {
            path: place(alloc, part, path.as_slice())?,
        }),
        ScriptRefusal::BadValue { path } => Ok(ScriptRefusal::BadValue {
            path: place(alloc, part, path.as_slice())?,
        }),
        ScriptRefusal::NotJson => Ok(ScriptRefusal::NotJson),
        ScriptRefusal::TooMany { what } => Ok(ScriptRefusal::TooMany { what }),
        ScriptRefusal::TwoPollers { lane } => Ok(ScriptRefusal::TwoPollers { lane }),
    }
}

/// What was read of a part, with the place of a fault seen from the whole.
pub fn within<T: Drop>(
    alloc: Global,
    part: &str,
    read: Result<T, ScriptError>,
) -> Result<T, ScriptError>
    ensures placed { (r : Read T) → Gives read r → Gives result (within part.now r) }
    ensures same { IfOk result (λ value. read ≡ Ok value) }
{
    match read {
        Ok(value) => Ok(value),
        Err(ScriptError::Memory) => Err(ScriptError::Memory),
        Err(ScriptError::Refused(refusal)) => match placed(alloc, part, refusal) {
            Ok(refusal) => Err(ScriptError::Refused(refusal)),
            Err(_) => Err(ScriptError::Memory),
        },
    }
}

/// The same of the item of a list.
pub fn within_item<T: Drop>(
    alloc: Global,
    index: usize,
    read: Result<T, ScriptError>,
) -> Result<T, ScriptError>
    ensures placed { (r : Read T) → Gives read r → Gives result (within (decimal index) r) }
    ensures same { IfOk result (λ value. read ≡ Ok value) }
{
    match read {
        Ok(value) => Ok(value),
        Err(error) => within(alloc, Buffer::new().format(index), Err(error)),
    }
}

/// Refuses a value that isn't an object, and an object with a field of another name.
pub fn with_fields(alloc: Global, value: &Value<'_>, names: &[&str]) -> Result<(), ScriptError>
    ensures { Gives result (with_fields (map (λ name. name.now) names.now) (view value.now)) }
{
    with_more_fields(alloc, value, &[], names)
}

/// The same with names in two lists.
pub fn with_more_fields(
    alloc: Global,
    value: &Value<'_>,
    names: &[&str],
    more: &[&str],
) -> Result<(), ScriptError>
    ensures { Gives result (with_fields (map (λ name. name.now) names.now ++ map (λ name. name.now) more.now) (view value.now)) }
{
    match value.as_object() {
        Some(members) => known_fields(alloc, members, names, more),
        None => bad_value(alloc),
    }
}

#[tactic(auto, using(crate::proofs::Items::keys_among_members))]
fn known_fields(
    alloc: Global,
    members: &[(&str, Value<'_>)],
    names: &[&str],
    more: &[&str],
) -> Result<(), ScriptError>
    ensures { Gives result (known_fields (map (λ name. name.now) names.now ++ map (λ name. name.now) more.now) (members_view members.now)) }
{
    if are_among(names, more, members) {
        return Ok(());
    }
    Err(ScriptError::Refused(ScriptRefusal::BadField {
        path: Seq::of(Vec::new(alloc)),
    }))
}

fn are_among(names: &[&str], more: &[&str], members: &[(&str, Value<'_>)]) -> bool
    ensures { result ≡ list_all (λ member. list_any (λ name. bytes_eq name.now member.0.now) names.now || list_any (λ name. bytes_eq name.now member.0.now) more.now) members.now }
{
    members
        .iter()
        .all(|member| is_among_both(names, more, member.0))
}

fn is_among_both(names: &[&str], more: &[&str], key: &str) -> bool
    ensures { result ≡ (list_any (λ name. bytes_eq name.now key.now) names.now || list_any (λ name. bytes_eq name.now key.now) more.now) }
{
    if is_among(names, key) {
        return true;
    }
    is_among(more, key)
}

fn is_among(names: &[&str], key: &str) -> bool
    ensures { result ≡ list_any (λ name. bytes_eq name.now key.now) names.now }
{
    names.iter().any(|name| *name == key)
}

/// The field of the name, which is required.
pub fn member<'v, 'a>(
    alloc: Global,
    value: &'v Value<'a>,
    name: &str,
) -> Result<&'v Value<'a>, ScriptError>
    ensures { GivesAs (λ found. view found.now) result (member_of name.now (view value.now)) }
{
    if let Some(found) = value.get(name) {
        return Ok(found);
    }
    missing(alloc, name)
}

fn missing<'v, 'a>(alloc: Global, name: &str) -> Result<&'v Value<'a>, ScriptError>
    ensures { GivesAs (λ found. view found.now) result (Err (BadField (47 ∷ name.now))) }
{
    let path = place(alloc, name, &[])?;
    Err(ScriptError::Refused(ScriptRefusal::BadField { path }))
}
