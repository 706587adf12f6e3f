//! The faults that lie in a value, one pass for each.
ghost use Rattle.std.specs.Prelude.{◌≡◌, nat_lt};
ghost use Rattle.serde_json.specs.Data.{depth, items_depth, members_depth};
ghost use Rattle.serde_json.specs.View.{view, items_view, members_view, number_view};
ghost use Rattle.content.specs.Faults.{any_number, any_in_items, any_in_members, fault_of_value};
ghost use Rattle.content.specs.inner.Kinds.{is_kind};

use crate::ContentFault;
use serde_json::{Map, Number, Value};
use u1_base::limits::MOST_CONTENT_DEPTH;

// The numbers that no content has: those that `serde_json` keeps as a float, and those from 2^63
// on.
#[derive(Clone, Copy)]
pub(crate) enum Kind {
    Float,
    Large,
}

pub(crate) fn fault_in(value: &Value) -> Option<ContentFault>
    ensures { result ≡ fault_of_value (view value.now) }
{
    if !value.is_object() {
        return Some(ContentFault::NotObject);
    }
    if nests_deeper(value, MOST_CONTENT_DEPTH) {
        return Some(ContentFault::TooDeep);
    }
    if has(value, Kind::Float) {
        return Some(ContentFault::NotWhole);
    }
    if has(value, Kind::Large) {
        return Some(ContentFault::OutOfRange);
    }
    None
}

#[cycle(nesting)]
fn nests_deeper(value: &Value, most: u64) -> bool
    ensures { result ≡ nat_lt most (depth (view value.now)) }
{
    match value {
        Value::Null | Value::Bool(_) | Value::Number(_) | Value::String(_) => false,
        Value::Array(items) => most == 0 || items_nest_deeper(items, most - 1),
        Value::Object(members) => most == 0 || members_nest_deeper(members, most - 1),
    }
}

#[cycle(nesting)]
fn items_nest_deeper(items: &Vec<Value>, most: u64) -> bool
    ensures { result ≡ nat_lt most (items_depth (items_view items.now.items)) }
{
    for item in items {
        if nests_deeper(item, most) {
            return true;
        }
    }
    false
}

#[cycle(nesting)]
fn members_nest_deeper(members: &Map<String, Value>, most: u64) -> bool
    ensures { result ≡ nat_lt most (members_depth (members_view members.now.entries)) }
{
    for (_name, member) in members.iter() {
        if nests_deeper(member, most) {
            return true;
        }
    }
    false
}

#[cycle(numbers)]
fn has(value: &Value, kind: Kind) -> bool
    ensures { result ≡ any_number (is_kind kind) (view value.now) }
{
    match value {
        Value::Null | Value::Bool(_) | Value::String(_) => false,
        Value::Number(number) => is_of(number, kind),
        Value::Array(items) => items_have(items, kind),
        Value::Object(members) => members_have(members, kind),
    }
}

#[cycle(numbers)]
fn items_have(items: &Vec<Value>, kind: Kind) -> bool
    ensures { result ≡ any_in_items (is_kind kind) (items_view items.now.items) }
{
    for item in items {
        if has(item, kind) {
            return true;
        }
    }
    false
}

#[cycle(numbers)]
fn members_have(members: &Map<String, Value>, kind: Kind) -> bool
    ensures { result ≡ any_in_members (is_kind kind) (members_view members.now.entries) }
{
    for (_name, member) in members.iter() {
        if has(member, kind) {
            return true;
        }
    }
    false
}

fn is_of(number: &Number, kind: Kind) -> bool
    ensures { result ≡ is_kind kind (number_view number.now) }
{
    match kind {
        Kind::Float => number.is_f64(),
        Kind::Large => number.is_u64() && !number.is_i64(),
    }
}
