//! The tree of a canonical text, made in one pass.
//!
//! It reads the texts that `spelled` knows, and of those its lists, objects, texts and numbers are
//! made where they stand.
ghost use Rattle.std.specs.Prelude.{◌≡◌, ◌<◌, ◌∷◌, [], IfOk, length};
ghost use Rattle.content.specs.Contents.{most_depth};
ghost use Rattle.content.specs.inner.Fronts.{FieldsBefore, IsBefore, IsNumberBefore, ItemsBefore};
ghost use Rattle.content.specs.TreeOf.{fields_view, items_view, tree_of};

use crate::flat::{behind_negative, behind_number, behind_word, plain_text};
use crate::plain::{Stop, field_of, json_of};
use crate::spelled::next_name;
use crate::whole::whole;
use crate::{Field, Json};
use std::alloc::Global;
use u1_base::Text;
use u1_base::limits::MOST_CONTENT_DEPTH;

/// The root of the content whose canonical text the bytes are, if `spelled` knows it.
pub(crate) fn made_root(alloc: Global, bytes: &[u8]) -> Result<Json, Stop>
    ensures { IfOk result (λ root. IsBefore most_depth bytes.now (tree_of root) []) }
{
    let (root, rest) = made_value(alloc, bytes, MOST_CONTENT_DEPTH)?;
    if rest.is_empty() {
        Ok(root)
    } else {
        Err(Stop::NotPlain)
    }
}

// The value at the front, in which lists and objects nest at most so many deep, and what stands
// behind it.
#[cycle(made)]
pub(crate) fn made_value<'a>(
    alloc: Global,
    bytes: &'a [u8],
    levels: u64,
) -> Result<(Json, &'a [u8]), Stop>
    ensures value { IfOk result (λ r. IsBefore levels bytes.now (tree_of r.0) r.1.now) }
    ensures shorter { IfOk result (λ r. length r.1.now < length bytes.now) }
{
    match bytes {
        [b'{', fields @ ..] if levels > 0 => {
            let (fields, rest) = made_fields(alloc, fields, levels - 1)?;
            Ok((Json::Object(fields), rest))
        }
        [b'[', items @ ..] if levels > 0 => {
            let (items, rest) = made_items(alloc, items, levels - 1)?;
            Ok((Json::List(items), rest))
        }
        _ => made_flat(alloc, bytes),
    }
}

// The items after an opening bracket.
#[cycle(made)]
#[inline(never)]
fn made_items<'a>(
    alloc: Global,
    bytes: &'a [u8],
    levels: u64,
) -> Result<(Vec<Json>, &'a [u8]), Stop>
    ensures items { IfOk result (λ r. ItemsBefore levels bytes.now (items_view r.0.items) r.1.now) }
    ensures shorter { IfOk result (λ r. length r.1.now < length bytes.now) }
{
    let mut found = Vec::new(alloc);
    if let [b']', rest @ ..] = bytes {
        return Ok((found, rest));
    }
    let mut left = bytes;
    'items: loop {
        let (item, behind) = made_value(alloc, left, levels)?;
        found.push(item)?;
        match behind {
            [b',', more @ ..] => left = more,
            [b']', rest @ ..] => return Ok((found, rest)),
            _ => return Err(Stop::NotPlain),
        }
    }
}

// The fields after an opening brace.
#[cycle(made)]
#[inline(never)]
fn made_fields<'a>(
    alloc: Global,
    bytes: &'a [u8],
    levels: u64,
) -> Result<(Vec<Field>, &'a [u8]), Stop>
    ensures fields { IfOk result
        (λ r. FieldsBefore levels bytes.now (fields_view r.0.items) r.1.now) }
    ensures shorter { IfOk result (λ r. length r.1.now < length bytes.now) }
{
    let mut found = Vec::new(alloc);
    if let [b'}', rest @ ..] = bytes {
        return Ok((found, rest));
    }
    let mut left = bytes;
    let mut last = None;
    'fields: loop {
        let Some((name, text)) = next_name(last, left) else {
            return Err(Stop::NotPlain);
        };
        let (value, behind) = made_value(alloc, text, levels)?;
        let field = field_of(text_of(alloc, name)?, value);
        found.push(field)?;
        match behind {
            [b',', more @ ..] => {
                left = more;
                last = Some(name);
            }
            [b'}', rest @ ..] => return Ok((found, rest)),
            _ => return Err(Stop::NotPlain),
        }
    }
}

// The value at the front, which is no list and no object, and what stands behind it.
fn made_flat<'a>(alloc: Global, bytes: &'a [u8]) -> Result<(Json, &'a [u8]), Stop>
    ensures value { IfOk result (λ r. IsBefore 0 bytes.now (tree_of r.0) r.1.now) }
    ensures shorter { IfOk result (λ r. length r.1.now < length bytes.now) }
{
    match bytes {
        [b'"', text @ ..] => made_text(alloc, text),
        [b'n', ..] => {
            let rest = behind_word(bytes, b"null").ok_or(Stop::NotPlain)?;
            Ok((Json::Null, rest))
        }
        [b't', ..] => {
            let rest = behind_word(bytes, b"true").ok_or(Stop::NotPlain)?;
            Ok((Json::Bool(true), rest))
        }
        [b'f', ..] => {
            let rest = behind_word(bytes, b"false").ok_or(Stop::NotPlain)?;
            Ok((Json::Bool(false), rest))
        }
        [b'-', digits @ ..] => match behind_negative(digits) {
            Some(rest) => made_number(bytes, rest),
            None => Err(Stop::NotPlain),
        },
        _ => match behind_number(bytes) {
            Some(rest) => made_number(bytes, rest),
            None => Err(Stop::NotPlain),
        },
    }
}

// The text after an opening quote.
fn made_text<'a>(alloc: Global, bytes: &'a [u8]) -> Result<(Json, &'a [u8]), Stop>
    ensures value { IfOk result (λ r. IsBefore 0 (34 ∷ bytes.now) (tree_of r.0) r.1.now) }
    ensures shorter { IfOk result (λ r. length r.1.now < length bytes.now) }
{
    let (text, rest) = plain_text(bytes).ok_or(Stop::NotPlain)?;
    Ok((Json::Text(text_of(alloc, text)?), rest))
}

pub(crate) fn text_of(alloc: Global, bytes: &[u8]) -> Result<Text, Stop>
    ensures { IfOk result (λ t. t ≡ bytes.now) }
{
    match str::from_utf8(bytes) {
        Ok(text) => Ok(Text::copy(alloc, text)?),
        Err(_) => Err(Stop::NotPlain),
    }
}

// The number before the rest.
fn made_number<'a>(bytes: &[u8], rest: &'a [u8]) -> Result<(Json, &'a [u8]), Stop>
    requires { IsNumberBefore bytes.now rest.now }
    ensures value { IfOk result (λ r. IsBefore 0 bytes.now (tree_of r.0) r.1.now) }
    ensures rest { IfOk result (λ r. r.1.now ≡ rest.now) }
{
    let number = &bytes[..bytes.len() - rest.len()];
    let Ok(text) = str::from_utf8(number) else {
        return Err(Stop::NotPlain);
    };
    match whole(text) {
        Some(number) => Ok((json_of(number), rest)),
        None => Err(Stop::NotPlain),
    }
}
