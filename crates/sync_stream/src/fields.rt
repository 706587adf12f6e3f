//! What an object says of the names that the object of a document has.
ghost use Rattle.std.specs.Prelude.{◌≡◌, ◌==◌, false, slice_index, None, Some, IfOk, IfSome};
ghost use Rattle.std.specs.Prelude.{MatchOption, if◌then◌else◌, option_map, length, [], ℕ};
ghost use Rattle.std.specs.Str.{bytes_eq};
ghost use Rattle.json.specs.Json.{members, read_key, value};
ghost use Rattle.json.specs.Reads.{token_of};
ghost use Rattle.serde_json.specs.Data.{Members, no_members, object, unsigned};
ghost use Rattle.serde_json.specs.Read.{converted, number_from, number_of, of_json, of_members};
ghost use Rattle.serde_json.specs.View.{view};
ghost use Rattle.content.specs.Faults.{value_of};
ghost use Rattle.sync_stream.specs.inner.Fields.{IsPlainMember, data_of_token, said, said_in};
ghost use Rattle.sync_stream.specs.inner.Fields.{sayings_of};
ghost use Rattle.sync_stream.specs.inner.Fields.{with_saying, told, told_of};

use fast_float::Numeral;
use json::{Reader, Scratch, Token};
use serde_json::Value;
use std::alloc::Global;
use u1_base::Memory;

/// What an object says of one name.
#[derive(Clone, Copy)]
pub(crate) enum Field<'a> {
    /// No member has the name.
    Absent,
    Null,
    /// A whole number from 0 to 2^64-1.
    Whole(u64),
    Text(&'a str),
    /// Another value.
    Other,
}

/// What an object says of each name.
#[derive(Clone, Copy)]
pub(crate) struct Fields<'a> {
    pub(crate) id: Field<'a>,
    pub(crate) rev: Field<'a>,
    pub(crate) content: Field<'a>,
    pub(crate) generation: Field<'a>,
    pub(crate) trans: Field<'a>,
}

// A member with a plain value.
#[derive(Clone, Copy)]
pub(crate) struct PlainMember<'a> {
    pub(crate) name: &'a str,
    pub(crate) field: Field<'a>,
}

impl<'a> Fields<'a> {
    // Those of the object without members.
    fn none() -> Fields<'a>
        ensures { told_of result ≡ sayings_of (object no_members) }
    {
        Fields {
            id: Field::Absent,
            rev: Field::Absent,
            content: Field::Absent,
            generation: Field::Absent,
            trans: Field::Absent,
        }
    }

    // Takes one more member. Of a repeated name the last one counts.
    fn take(&mut self, member: PlainMember<'a>)
        ensures { told_of self.new
            ≡ with_saying member.entry.name.now (told member.entry.field) (told_of self.old) }
    {
        let PlainMember { name, field } = member;
        self.id = chosen(name == "id", field, self.id);
        self.rev = chosen(name == "rev", field, self.rev);
        self.content = chosen(name == "content", field, self.content);
        self.generation = chosen(name == "gen", field, self.generation);
        self.trans = chosen(name == "trans_id", field, self.trans);
    }
}

fn chosen<'a>(is: bool, field: Field<'a>, other: Field<'a>) -> Field<'a>
    ensures { told result ≡ (if is then told field.entry else told other.entry) }
{
    if is { field } else { other }
}

// ---- of a value

/// What the value says.
pub(crate) fn fields_of<'a>(value: &'a Value) -> Fields<'a>
    ensures { told_of result ≡ sayings_of (view value.now) }
{
    Fields {
        id: field_in(value, "id"),
        rev: field_in(value, "rev"),
        content: field_in(value, "content"),
        generation: field_in(value, "gen"),
        trans: field_in(value, "trans_id"),
    }
}

fn field_in<'a>(value: &'a Value, name: &str) -> Field<'a>
    ensures { told result ≡ said_in name.now (view value.now) }
{
    match value.get(name) {
        Some(member) => field_of(member),
        None => Field::Absent,
    }
}

fn field_of<'a>(value: &'a Value) -> Field<'a>
    ensures { told result ≡ said (view value.now) }
{
    match value {
        Value::Null => Field::Null,
        Value::String(text) => Field::Text(text.as_str()),
        Value::Number(number) => match number.as_u64() {
            Some(number) => Field::Whole(number),
            None => Field::Other,
        },
        Value::Bool(_) => Field::Other,
        Value::Array(_) => Field::Other,
        Value::Object(_) => Field::Other,
    }
}

// ---- of an object that is read where it stands

/// What the object of these bytes says, if each of its members is null, a text or a whole number
/// from 0 to 2^64-1. None says nothing of other bytes: they may be such an object or not.
///
/// Texts are lent where they stand in the bytes, or in the scratch where they are escaped.
pub(crate) fn plain_fields<'a>(
    bytes: &'a [u8],
    scratch: &'a mut Scratch<Global>,
) -> Result<Option<Fields<'a>>, Memory>
    ensures { IfOk result (λ found. IfSome found
        (λ fields. option_map sayings_of (value_of bytes.now) ≡ Some (told_of fields))) }
{
    let Ok(text) = str::from_utf8(bytes) else {
        return Ok(None);
    };
    let Ok(mut reader) = Reader::new(text, scratch) else {
        return Err(Memory);
    };
    let Some(fields) = object_fields(&mut reader) else {
        return Ok(None);
    };
    if reader.next().is_some() {
        return Ok(None);
    }
    Ok(Some(fields))
}

// The same of the tokens of an object, which are taken.
fn object_fields<'a>(reader: &mut Reader<'a>) -> Option<Fields<'a>>
    ensures { IfSome result (λ fields. (ms : Members)
        × (converted of_json (value 127 reader.old) ≡ Some (object ms, reader.new))
        × (told_of fields ≡ sayings_of (object ms))) }
{
    match reader.next()? {
        Token::BeginObject => member_fields(reader),
        _ => None,
    }
}

// The same after the opening brace.
fn member_fields<'a>(reader: &mut Reader<'a>) -> Option<Fields<'a>>
    ensures { IfSome result (λ fields. (ms : Members)
        × (converted (λ ms. of_members ms no_members)
        (members (value 126) (length reader.old) reader.old) ≡ Some (ms, reader.new))
        × (told_of fields ≡ sayings_of (object ms))) }
{
    let mut fields = Fields::none();
    'members: while let Some(member) = next_member(reader)? {
        fields.take(member);
    }
    Some(fields)
}

// The next member of an object, if it is plain and not the last one that was taken.
fn next_member<'a>(reader: &mut Reader<'a>) -> Option<Option<PlainMember<'a>>>
    ensures { IfSome result (λ next. MatchOption next
        (read_key reader.old ≡ Some (None, reader.new))
        (λ member. IsPlainMember reader.old member reader.new)) }
{
    match reader.next_key() {
        Ok(Some(name)) => {
            let field = plain_field(reader.next()?)?;
            Some(Some(PlainMember { name, field }))
        }
        Ok(None) => Some(None),
        Err(_) => None,
    }
}

fn plain_field(token: Token<'_>) -> Option<Field<'_>>
    ensures { IfSome result
        (λ field. option_map said (data_of_token (token_of token.entry)) ≡ Some (told field)) }
{
    match token {
        Token::Null => Some(Field::Null),
        Token::String(text) => Some(Field::Text(text)),
        Token::Number(text) => match whole(text) {
            Some(number) => Some(Field::Whole(number)),
            None => None,
        },
        Token::BeginObject
        | Token::EndObject
        | Token::BeginArray
        | Token::EndArray
        | Token::Key(_)
        | Token::Bool(_)
        | Token::Bad => None,
    }
}

// The number that the text of a number writes, if it is whole and has no sign.
fn whole(text: &str) -> Option<u64>
    ensures { IfSome result (λ number. number_of text.now ≡ Some (unsigned number)) }
{
    let bytes = text.as_bytes();
    if has_minus(bytes) {
        return None;
    }
    unsigned(&Numeral::scan(bytes))
}

fn has_minus(bytes: &[u8]) -> bool
    ensures { result ≡ (slice_index bytes.now 0 == 45) }
{
    !bytes.is_empty() && bytes[0] == b'-'
}

fn unsigned(numeral: &Numeral<'_>) -> Option<u64>
    ensures { IfSome result (λ number. number_from false numeral.now ≡ Some (unsigned number)) }
{
    numeral.to_u64()
}
