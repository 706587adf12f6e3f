//! The canonical text of a tree, written by `json` as its tokens.
ghost use Rattle.std.specs.Prelude.{◌≡◌, ◌++◌, ◌∷◌, IfOk, OnOk};
ghost use Rattle.json.specs.Token.{key};
ghost use Rattle.json.specs.Tree.{json_tokens, items_tokens, members_tokens};
ghost use Rattle.serde_json.specs.Written.{outline, items_outline, members_outline};
ghost use Rattle.content.specs.Canonical.{canonical, data_of, items_data, fields_data};
ghost use Rattle.content.specs.TreeOf.{tree_of, pair_of, items_view, fields_view};

use crate::{Field, Json};
use json::Writer;
use std::alloc::Global;
use u1_base::Memory;

// Most contents are no longer than this, so that their text is written into memory that is asked
// for once.
const SHORT_TEXT_BYTES: usize = 128;

/// The canonical text of the tree.
pub(crate) fn written(alloc: Global, root: &Json) -> Result<Vec<u8>, Memory>
    ensures { IfOk result (λ text. text.items ≡ canonical (tree_of root.now)) }
{
    let mut out = Writer::new(Vec::with_capacity(alloc, SHORT_TEXT_BYTES)?);
    write_json(root, &mut out)?;
    Ok(out.into_inner())
}

#[cycle(write)]
fn write_json(value: &Json, out: &mut Writer) -> Result<(), Memory>
    ensures before { OnOk result (out.new.before ≡ out.old.before) }
    ensures tokens { OnOk result (out.new.tokens
        ≡ out.old.tokens ++ json_tokens (outline (data_of (tree_of value.now)))) }
{
    match value {
        Json::Null => out.null()?,
        Json::Bool(truth) => out.boolean(*truth)?,
        Json::Whole(number) => out.i64(*number)?,
        Json::Text(text) => out.string(text.as_str())?,
        Json::List(items) => {
            out.begin_array()?;
            write_items(items, out)?;
        }
        Json::Object(fields) => {
            out.begin_object()?;
            write_fields(fields, out)?;
        }
    }
    Ok(())
}

#[cycle(write)]
fn write_items(items: &Vec<Json>, out: &mut Writer) -> Result<(), Memory>
    ensures before { OnOk result (out.new.before ≡ out.old.before) }
    ensures tokens { OnOk result (out.new.tokens
        ≡ out.old.tokens ++ items_tokens
        (items_outline (items_data (items_view items.now.items)))) }
{
    for item in items {
        write_json(item, out)?;
    }
    out.end_array()?;
    Ok(())
}

#[cycle(write)]
fn write_fields(fields: &Vec<Field>, out: &mut Writer) -> Result<(), Memory>
    ensures before { OnOk result (out.new.before ≡ out.old.before) }
    ensures tokens { OnOk result (out.new.tokens
        ≡ out.old.tokens ++ members_tokens
        (members_outline (fields_data (fields_view fields.now.items)))) }
{
    for field in fields {
        write_field(field, out)?;
    }
    out.end_object()?;
    Ok(())
}

#[cycle(write)]
fn write_field(field: &Field, out: &mut Writer) -> Result<(), Memory>
    ensures before { OnOk result (out.new.before ≡ out.old.before) }
    ensures tokens { OnOk result (out.new.tokens
        ≡ out.old.tokens ++ key (pair_of field.now).0
        ∷ json_tokens (outline (data_of (pair_of field.now).1))) }
{
    out.key(field.name.as_str())?;
    write_json(&field.value, out)
}
