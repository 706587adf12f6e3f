//! The tree of a plain text, made in one pass over its tokens.
//!
//! The other way, over a value of `serde_json`, makes that value first and then looks it through
//! once for each fault.
ghost use Rattle.std.specs.Prelude.{◌≡◌, ◌<◌, ◌≤◌, false, length, Some, None, IfOk, OnOk};
ghost use Rattle.std.specs.Prelude.{option_map};
ghost use Rattle.json.specs.Json.{items, members, value as grammar};
ghost use Rattle.serde_json.specs.Data.{no_members, number as json_number};
ghost use Rattle.serde_json.specs.Find.{of_integer};
ghost use Rattle.serde_json.specs.Read.{converted, of_items, of_json, of_members};
ghost use Rattle.content.specs.Canonical.{data_of, fields_data, items_data};
ghost use Rattle.content.specs.Faults.{Reads, any_in_items, any_in_members, any_number};
ghost use Rattle.content.specs.Faults.{fault_of_value, is_large};
ghost use Rattle.content.specs.Plain.{more_levels, comes_after as comes_behind};
ghost use Rattle.content.specs.Tree.{fields_nesting, items_nesting, nesting, whole as whole_tree};
ghost use Rattle.content.specs.TreeOf.{fields_view, items_view, pair_of, tree_of};

use crate::put::put_field;
use crate::whole::whole;
use crate::{Field, Json};
use json::{Invalid, Reader, Scratch, Token};
use std::alloc::{AllocError, AllocFailed, Global};
use u1_base::limits::{MOST_CONTENT_BYTES, MOST_CONTENT_DEPTH};
use u1_base::{Memory, Text};

/// Why no tree was made.
#[derive(Clone, Copy)]
pub(crate) enum Stop {
    /// The bytes are not plain. They may be a content, or have a fault.
    NotPlain,
    Memory,
}

impl From<Memory> for Stop {
    fn from(_memory: Memory) -> Stop {
        Stop::Memory
    }
}

impl From<AllocError> for Stop {
    fn from(_error: AllocError) -> Stop {
        Stop::Memory
    }
}

impl<T: Drop> From<AllocFailed<T>> for Stop {
    fn from(_error: AllocFailed<T>) -> Stop {
        Stop::Memory
    }
}

impl From<Invalid> for Stop {
    fn from(_invalid: Invalid) -> Stop {
        Stop::NotPlain
    }
}

/// The root of the content that the bytes are, if they are plain: they have no fault, no name
/// stands twice in an object, and each field after the first `put::MANY_FIELDS` of an object has a
/// greater name than all before it.
pub(crate) fn plain_root(
    alloc: Global,
    scratch: &mut Scratch<Global>,
    bytes: &[u8],
) -> Result<Json, Stop>
    ensures { IfOk result (λ root. Reads bytes.now (tree_of root)) }
{
    if bytes.len() as u64 > MOST_CONTENT_BYTES {
        return Err(Stop::NotPlain);
    }
    let Ok(text) = str::from_utf8(bytes) else {
        return Err(Stop::NotPlain);
    };
    let Ok(mut reader) = Reader::new(text, scratch) else {
        return Err(Stop::Memory);
    };
    let root = plain_object(alloc, &mut reader)?;
    if reader.next().is_some() {
        return Err(Stop::NotPlain);
    }
    Ok(root)
}

fn plain_object(alloc: Global, reader: &mut Reader<'_>) -> Result<Json, Stop>
    ensures value { IfOk result (λ root. converted of_json (grammar 127 reader.old)
        ≡ Some (data_of (tree_of root), reader.new)) }
    ensures no_fault { IfOk result (λ root. fault_of_value (data_of (tree_of root)) ≡ None) }
{
    let token = reader.next().ok_or(Stop::NotPlain)?;
    match token {
        Token::BeginObject => Ok(Json::Object(plain_fields(
            alloc,
            reader,
            MOST_CONTENT_DEPTH - 1,
        )?)),
        Token::EndObject
        | Token::BeginArray
        | Token::EndArray
        | Token::Key(_)
        | Token::String(_)
        | Token::Number(_)
        | Token::Bool(_)
        | Token::Null
        | Token::Bad => Err(Stop::NotPlain),
    }
}

// The next value, in which lists and objects may nest so many deep.
#[cycle(plain)]
fn plain_value(alloc: Global, reader: &mut Reader<'_>, levels: u64) -> Result<Json, Stop>
    ensures value { IfOk result (λ j. converted of_json (grammar (more_levels levels) reader.old)
        ≡ Some (data_of (tree_of j), reader.new)) }
    ensures shallow { IfOk result (λ j. nesting (tree_of j) ≤ levels) }
    ensures small { IfOk result (λ j. any_number is_large (data_of (tree_of j)) ≡ false) }
    ensures shorter { OnOk result (length reader.new < length reader.old) }
{
    let token = reader.next().ok_or(Stop::NotPlain)?;
    match token {
        Token::Null => Ok(Json::Null),
        Token::Bool(truth) => Ok(Json::Bool(truth)),
        Token::Number(text) => match whole(text) {
            Some(number) => Ok(json_of(number)),
            None => Err(Stop::NotPlain),
        },
        Token::String(text) => Ok(Json::Text(Text::copy(alloc, text)?)),
        Token::BeginArray => {
            if levels == 0 {
                return Err(Stop::NotPlain);
            }
            Ok(Json::List(plain_items(alloc, reader, levels - 1)?))
        }
        Token::BeginObject => {
            if levels == 0 {
                return Err(Stop::NotPlain);
            }
            Ok(Json::Object(plain_fields(alloc, reader, levels - 1)?))
        }
        Token::EndObject | Token::EndArray | Token::Key(_) | Token::Bad => Err(Stop::NotPlain),
    }
}

// The items after an opening bracket.
#[cycle(plain)]
#[inline(never)]
fn plain_items(alloc: Global, reader: &mut Reader<'_>, levels: u64) -> Result<Vec<Json>, Stop>
    ensures value { IfOk result (λ v. converted of_items
        (items (grammar (more_levels levels)) (length reader.old) reader.old)
        ≡ Some (items_data (items_view v.items), reader.new)) }
    ensures shallow { IfOk result (λ v. items_nesting (items_view v.items) ≤ levels) }
    ensures small { IfOk result
        (λ v. any_in_items is_large (items_data (items_view v.items)) ≡ false) }
    ensures shorter { OnOk result (length reader.new < length reader.old) }
{
    let mut found = Vec::new(alloc);
    'items: while !reader.take_end_array() {
        let item = plain_value(alloc, reader, levels)?;
        found.push(item)?;
    }
    found.shrink_to_fit();
    Ok(found)
}

// The fields after an opening brace. The last name so far is the greatest, also after a field was
// put before it.
#[cycle(plain)]
#[inline(never)]
fn plain_fields(alloc: Global, reader: &mut Reader<'_>, levels: u64) -> Result<Vec<Field>, Stop>
    ensures value { IfOk result (λ v. converted (λ ms. of_members ms no_members)
        (members (grammar (more_levels levels)) (length reader.old) reader.old)
        ≡ Some (fields_data (fields_view v.items), reader.new)) }
    ensures shallow { IfOk result (λ v. fields_nesting (fields_view v.items) ≤ levels) }
    ensures small { IfOk result
        (λ v. any_in_members is_large (fields_data (fields_view v.items)) ≡ false) }
    ensures shorter { OnOk result (length reader.new < length reader.old) }
{
    let mut found = Vec::new(alloc);
    let mut last = None;
    'fields: while let Some(name) = reader.next_key()? {
        let value = plain_value(alloc, reader, levels)?;
        let field = field_of(Text::copy(alloc, name)?, value);
        if comes_after(last, name) {
            found.push(field)?;
            last = Some(name);
        } else {
            put_field(&mut found, field)?;
        }
    }
    found.shrink_to_fit();
    Ok(found)
}

pub(crate) fn json_of(number: i64) -> Json
    ensures tree { tree_of result ≡ whole_tree number }
    ensures value { data_of (tree_of result) ≡ json_number (of_integer number) }
    ensures shallow { nesting (tree_of result) ≡ 0 }
    ensures small { any_number is_large (data_of (tree_of result)) ≡ false }
{
    Json::Whole(number)
}

pub(crate) fn field_of(name: Text, value: Json) -> Field
    ensures name { (pair_of result).0 ≡ name }
    ensures value { (pair_of result).1 ≡ tree_of value }
{
    Field { name, value }
}

// Whether the name comes after the last one.
fn comes_after(last: Option<&str>, name: &str) -> bool
    ensures { result ≡ comes_behind (option_map (λ s. s.now) last.entry) name.now }
{
    match last {
        Some(last) => last.cmp(name).is_lt(),
        None => true,
    }
}
