//! From a value of `serde_json` to one that borrows its strings.
ghost use Rattle.std.specs.Prelude.{◌≡◌, IfOk};
ghost use Rattle.serde_json.specs.View as owned;
ghost use Rattle.ix_plan.specs.View.{view, items_view, members_view};

use crate::value::Value;
use serde_json::{Map, Value as OwnedValue};
use std::alloc::{AllocError, Global};

/// The same value.
#[cycle(borrow)]
pub fn borrow(alloc: Global, value: &OwnedValue) -> Result<Value<'_>, AllocError>
    ensures { IfOk result (λ v. view v ≡ owned.view value.now) }
{
    match value {
        OwnedValue::Null => Ok(Value::Null),
        OwnedValue::Bool(b) => Ok(Value::Bool(*b)),
        OwnedValue::Number(n) => Ok(Value::Number(*n)),
        OwnedValue::String(text) => Ok(Value::String(text.as_str())),
        OwnedValue::Array(items) => Ok(Value::Array(borrow_items(alloc, items)?)),
        OwnedValue::Object(members) => Ok(Value::Object(borrow_members(alloc, members)?)),
    }
}

#[cycle(borrow)]
fn borrow_items(alloc: Global, items: &Vec<OwnedValue>) -> Result<Vec<Value<'_>>, AllocError>
    ensures { IfOk result (λ v. items_view v.items ≡ owned.items_view items.now.items) }
{
    let mut found = Vec::with_capacity(alloc, items.len())?;
    for item in items {
        found.push(borrow(alloc, item)?)?;
    }
    Ok(found)
}

#[cycle(borrow)]
fn borrow_members(
    alloc: Global,
    members: &Map<String, OwnedValue>,
) -> Result<Vec<(&str, Value<'_>)>, AllocError>
    ensures { IfOk result (λ v. members_view v.items ≡ owned.members_view members.now.entries) }
{
    let mut found = Vec::with_capacity(alloc, members.len())?;
    for (name, member) in members.iter() {
        found.push((name.as_str(), borrow(alloc, member)?))?;
    }
    Ok(found)
}
