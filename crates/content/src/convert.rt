//! From a value of `serde_json` to our own. Texts of more than 39 bytes are moved, shorter ones
//! copied.
ghost use Rattle.std.specs.Prelude.{◌≡◌, IfOk, false, string_bytes, vec_len};
ghost use Rattle.serde_json.specs.Find.{is_float, of_integer};
ghost use Rattle.serde_json.specs.View.{view, items_view as items_of_values, members_view};
ghost use Rattle.serde_json.specs.View.{number_view};
ghost use Rattle.content.specs.Canonical.{data_of, items_data, fields_data};
ghost use Rattle.content.specs.Faults.{any_number, any_in_items, any_in_members, is_large};
ghost use Rattle.content.specs.TreeOf.{tree_of, pair_of, items_view, fields_view};

use crate::{Field, Json};
use serde_json::{Map, Number, Value};
use std::alloc::Global;
use u1_base::{Memory, Text};

#[cycle(convert)]
pub(crate) fn convert(alloc: Global, value: Value) -> Result<Json, Memory>
    requires no_float { any_number is_float (view value) ≡ false }
    requires no_large { any_number is_large (view value) ≡ false }
    ensures { IfOk result (λ j. data_of (tree_of j) ≡ view value) }
{
    match value {
        Value::Null => Ok(Json::Null),
        Value::Bool(truth) => Ok(Json::Bool(truth)),
        Value::Number(number) => Ok(Json::Whole(whole_of(&number))),
        Value::String(text) => Ok(Json::Text(Text::from_string(text)?)),
        Value::Array(items) => Ok(Json::List(convert_items(alloc, items)?)),
        Value::Object(members) => Ok(Json::Object(convert_members(alloc, members)?)),
    }
}

// The last item is taken first.
#[cycle(convert)]
fn convert_items(alloc: Global, items: Vec<Value>) -> Result<Vec<Json>, Memory>
    requires no_float { any_in_items is_float (items_of_values items.items) ≡ false }
    requires no_large { any_in_items is_large (items_of_values items.items) ≡ false }
    ensures { IfOk result (λ v. items_data (items_view v.items) ≡ items_of_values items.items) }
{
    let mut left = items;
    let mut found = Vec::with_capacity(alloc, left.len())?;
    while let Some(item) = left.pop() {
        found.push(convert(alloc, item)?)?;
        give_back_spare(&mut left);
    }
    found.reverse();
    Ok(found)
}

// Gives back the room of a list once half of it is empty, so that a long list and what is made of
// it are never both whole.
fn give_back_spare(left: &mut Vec<Value>)
    ensures items { left.new.items ≡ left.old.items }
    ensures len { vec_len left.new ≡ vec_len left.old }
{
    if left.len() <= left.capacity() / 2 {
        left.shrink_to_fit();
    }
}

#[cycle(convert)]
fn convert_members(alloc: Global, members: Map<String, Value>) -> Result<Vec<Field>, Memory>
    requires no_float { any_in_members is_float (members_view members.entries) ≡ false }
    requires no_large { any_in_members is_large (members_view members.entries) ≡ false }
    ensures { IfOk result (λ v. fields_data (fields_view v.items) ≡ members_view members.entries) }
{
    let mut found = Vec::with_capacity(alloc, members.len())?;
    for (name, member) in members {
        found.push(convert_member(alloc, name, member)?)?;
    }
    Ok(found)
}

#[cycle(convert)]
fn convert_member(alloc: Global, name: String, member: Value) -> Result<Field, Memory>
    requires no_float { any_number is_float (view member) ≡ false }
    requires no_large { any_number is_large (view member) ≡ false }
    ensures name { IfOk result (λ f. (pair_of f).0 ≡ string_bytes name) }
    ensures value { IfOk result (λ f. data_of (pair_of f).1 ≡ view member) }
{
    let value = convert(alloc, member)?;
    Ok(Field {
        name: Text::from_string(name)?,
        value,
    })
}

fn whole_of(number: &Number) -> i64
    requires no_float { is_float (number_view number.now) ≡ false }
    requires no_large { is_large (number_view number.now) ≡ false }
    ensures { of_integer result ≡ number_view number.now }
{
    match number.as_i64() {
        Some(whole) => whole,
        None => unreachable!(),
    }
}
