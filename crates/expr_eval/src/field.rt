//! The values of a field.
ghost use Rattle.std.specs.Prelude.{◌≡◌, ◌++◌, OnOk};
ghost use Rattle.content.specs.TreeOf.{fields_view, items_view, tree_of};
ghost use Rattle.expr_eval.specs.Fields.{field_values, item_values, member_values, own_value};
ghost use Rattle.expr_eval.specs.Fields.{own_values};

use crate::value::Value;
use content::{Field, Json};
use u1_base::{Memory, Text};

// Adds the values that the json has at the parts of a field.
#[cycle(fields)]
pub(crate) fn add_field_values(
    json: &Json,
    parts: &[Text],
    out: &mut Vec<Value>,
) -> Result<(), Memory>
    ensures { OnOk result (out.new.items ≡ out.old.items
        ++ field_values (tree_of json.now) parts.now) }
{
    match json {
        Json::List(items) => if parts.is_empty() {
            add_own_values(items, out)
        } else {
            add_item_values(items, parts, out)
        },
        Json::Object(fields) => match parts.split_first() {
            Some((name, parts)) => add_member_values(fields, name, parts, out),
            None => Ok(()),
        },
        _ => if parts.is_empty() {
            add_own_value(json, out)
        } else {
            Ok(())
        },
    }
}

#[cycle(fields)]
fn add_item_values(items: &Vec<Json>, parts: &[Text], out: &mut Vec<Value>) -> Result<(), Memory>
    ensures { OnOk result (out.new.items ≡ out.old.items
        ++ item_values (items_view items.now.items) parts.now) }
{
    for item in items {
        add_field_values(item, parts, out)?;
    }
    Ok(())
}

#[cycle(fields)]
fn add_member_values(
    fields: &Vec<Field>,
    name: &Text,
    parts: &[Text],
    out: &mut Vec<Value>,
) -> Result<(), Memory>
    ensures { OnOk result (out.new.items ≡ out.old.items
        ++ member_values (fields_view fields.now.items) name.now parts.now) }
{
    for field in fields {
        if field.name == *name {
            return add_field_values(&field.value, parts, out);
        }
    }
    Ok(())
}

fn add_own_values(items: &Vec<Json>, out: &mut Vec<Value>) -> Result<(), Memory>
    ensures { OnOk result (out.new.items ≡ out.old.items
        ++ own_values (items_view items.now.items)) }
{
    for item in items {
        add_own_value(item, out)?;
    }
    Ok(())
}

fn add_own_value(json: &Json, out: &mut Vec<Value>) -> Result<(), Memory>
    ensures { OnOk result (out.new.items ≡ out.old.items ++ own_value (tree_of json.now)) }
{
    match json {
        Json::Bool(truth) => out.push(Value::Truth(*truth))?,
        Json::Whole(number) => out.push(Value::Whole(*number))?,
        Json::Text(text) => out.push(Value::Text(text.duplicate()?))?,
        Json::Null => {}
        Json::List(_) => {}
        Json::Object(_) => {}
    }
    Ok(())
}
