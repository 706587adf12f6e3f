//! A part of the tree of a canonical text, made in one pass: the fields of some names. Of the others
//! nothing is made.
ghost use Rattle.std.specs.Prelude.{◌≡◌, ◌<◌, IfOk, filter, length};
ghost use Rattle.std.specs.Str.{bytes_eq};
ghost use Rattle.content.specs.Parts.{is_among, part_of};
ghost use Rattle.content.specs.inner.Pieces.{IsPartBefore, IsTaken, SomeBefore};
ghost use Rattle.content.specs.TreeOf.{fields_view, tree_of};

use crate::made::{made_value, text_of};
use crate::plain::{Stop, field_of};
use crate::spelled::{behind_value, next_name};
use crate::{Field, Json};
use std::alloc::Global;
use u1_base::Text;
use u1_base::limits::MOST_CONTENT_DEPTH;

/// The part of the root of the content whose canonical text the bytes are, if `spelled` knows it.
pub(crate) fn made_part(alloc: Global, bytes: &[u8], names: &[Text]) -> Result<Json, Stop>
    ensures { IfOk result (λ root. IsPartBefore names.now bytes.now (tree_of root)) }
{
    let [b'{', fields @ ..] = bytes else {
        return Err(Stop::NotPlain);
    };
    let (fields, rest) = made_some(alloc, fields, MOST_CONTENT_DEPTH - 1, names)?;
    if rest.is_empty() {
        Ok(Json::Object(fields))
    } else {
        Err(Stop::NotPlain)
    }
}

// The fields of these names, of those after an opening brace, and what stands behind all.
fn made_some<'a>(
    alloc: Global,
    bytes: &'a [u8],
    levels: u64,
    names: &[Text],
) -> Result<(Vec<Field>, &'a [u8]), Stop>
    ensures { IfOk result
        (λ r. SomeBefore names.now levels bytes.now (fields_view r.0.items) r.1.now) }
{
    let mut found = Vec::new(alloc);
    if let [b'}', rest @ ..] = bytes {
        return Ok((found, rest));
    }
    let mut left = bytes;
    let mut last = None;
    'fields: loop {
        let Some((name, text)) = next_name(last, left) else {
            return Err(Stop::NotPlain);
        };
        let behind = take_field(alloc, &mut found, name, text, levels, names)?;
        match behind {
            [b',', more @ ..] => {
                left = more;
                last = Some(name);
            }
            [b'}', rest @ ..] => return Ok((found, rest)),
            _ => return Err(Stop::NotPlain),
        }
    }
}

// Adds the field of this name whose value stands at the front, if it is asked for, and answers what
// stands behind the value.
fn take_field<'a>(
    alloc: Global,
    found: &mut Vec<Field>,
    name: &[u8],
    text: &'a [u8],
    levels: u64,
    names: &[Text],
) -> Result<&'a [u8], Stop>
    ensures taken { IfOk result (λ rest. IsTaken names.now levels name.now text.now rest.now
        found.old.items found.new.items) }
    ensures shorter { IfOk result (λ rest. length rest.now < length text.now) }
{
    if !is_asked(names, name) {
        return behind_value(text, levels).ok_or(Stop::NotPlain);
    }
    let (value, behind) = made_value(alloc, text, levels)?;
    let field = field_of(text_of(alloc, name)?, value);
    found.push(field)?;
    Ok(behind)
}

/// The same part of a tree.
pub(crate) fn cut_to(root: Json, names: &[Text]) -> Json
    ensures { tree_of result ≡ part_of names.now (tree_of root) }
{
    match root {
        Json::Object(fields) => Json::Object(fields_asked(fields, names)),
        other => other,
    }
}

fn fields_asked(mut fields: Vec<Field>, names: &[Text]) -> Vec<Field>
    ensures { result.items ≡ filter (λ f. is_among names.now f.name) fields.items }
{
    fields.retain(|field| is_kept(names, field));
    fields
}

fn is_kept(names: &[Text], field: &Field) -> bool
    ensures { result ≡ is_among names.now field.now.name }
{
    is_asked(names, field.name.as_str().as_bytes())
}

fn is_asked(names: &[Text], name: &[u8]) -> bool
    ensures { result ≡ is_among names.now name.now }
{
    names.iter().any(|other| is_name(other, name))
}

fn is_name(text: &Text, name: &[u8]) -> bool
    ensures { result ≡ bytes_eq text.now name.now }
{
    text.as_str().as_bytes() == name
}
