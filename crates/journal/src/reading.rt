//! Reading the fields of an image. Each reader looks at the front of the bytes that it is given.
ghost use Rattle.std.specs.Prelude.{◌≡◌, ◌<◌, ◌≤◌, [], ◌∷◌, ◌++◌, MatchOption, OnOk, drop, length};
ghost use Rattle.u1_base.specs.Fields.{text_field, u64_bytes};
ghost use Rattle.journal.specs.Image.{IsBody, IsFormat, IsLimit, body_field, first_field};
ghost use Rattle.journal.specs.Damage.{Begins};
ghost use Rattle.journal.specs.inner.Fields.{EndsEntries, NoBody, NoFirst, NoLimit, NoText};
ghost use Rattle.journal.specs.inner.Fields.{ReadsHeader};
ghost use Rattle.journal.specs.inner.Fields.{ReadsIdField};

use crate::layout::{
    BEFORE_BODY_BYTES, BODY_LENGTH_BYTES, FIRST_FIELD_BYTES, FIRST_FORMAT, LETTERS, LETTERS_BYTES,
    LIMIT_BYTES, OPEN_GATE, SECOND_FORMAT, TEXT_LENGTH_BYTES,
};
use crate::parsed::{Parsed, Start};
use crate::{Bodies, Header};
use std::alloc::Global;
use u1_base::limits::{GREATEST_IMAGE_LIMIT, LEAST_IMAGE_LIMIT};
use u1_base::{Bytes, Database, FormOf, Id, IdFault, Memory, Replica, u16_at, u32_at, u64_at};

/// The bytes from the place on.
pub(crate) fn behind(bytes: &[u8], place: usize) -> &[u8]
    requires { place ≤ length bytes.now }
    ensures { result.now ≡ drop place bytes.now }
{
    &bytes[place..]
}

/// The format, where the bytes begin with the first field of an image.
fn format_of(bytes: &[u8]) -> Option<u8>
    ensures { MatchOption result (NoFirst bytes.now)
        (λ format. IsFormat format × Begins (first_field format) bytes.now) }
{
    if bytes.len() < FIRST_FIELD_BYTES {
        return None;
    }
    let letters = &bytes[..LETTERS_BYTES];
    if letters != LETTERS.as_bytes() {
        return None;
    }
    let format = bytes[LETTERS_BYTES];
    if format == FIRST_FORMAT {
        return Some(FIRST_FORMAT);
    }
    if format == SECOND_FORMAT {
        return Some(SECOND_FORMAT);
    }
    None
}

/// The text of a field.
fn text_of(bytes: &[u8]) -> Option<&str>
    ensures { MatchOption result (NoText bytes.now)
        (λ text. (length text.now < 65536) × Begins (text_field text.now) bytes.now) }
{
    if bytes.len() < TEXT_LENGTH_BYTES {
        return None;
    }
    let size = u16_at(bytes, 0) as usize;
    let rest = &bytes[TEXT_LENGTH_BYTES..];
    if rest.len() < size {
        return None;
    }
    match str::from_utf8(&rest[..size]) {
        Ok(text) => Some(text),
        Err(_) => None,
    }
}

/// The id of a field.
fn id_of<F: FormOf>(alloc: Global, bytes: &[u8]) -> Parsed<Id<F>>
    ensures { ReadsIdField F.form bytes.now result }
{
    let Some(text) = text_of(bytes) else {
        return Parsed::Broken(0);
    };
    match Id::read(alloc, text) {
        Ok(id) => Parsed::Whole(id),
        Err(IdFault::Memory) => Parsed::Memory,
        Err(IdFault::Empty) => Parsed::Broken(0),
        Err(IdFault::TooLong(_)) => Parsed::Broken(0),
        Err(IdFault::BadByte(_)) => Parsed::Broken(0),
    }
}

/// The limit of an image.
fn limit_of(bytes: &[u8]) -> Option<u64>
    ensures { MatchOption result (NoLimit bytes.now)
        (λ limit. IsLimit limit × Begins (u64_bytes limit) bytes.now) }
{
    if bytes.len() < LIMIT_BYTES {
        return None;
    }
    let limit = u64_at(bytes, 0);
    if limit < LEAST_IMAGE_LIMIT {
        return None;
    }
    if limit > GREATEST_IMAGE_LIMIT {
        return None;
    }
    Some(limit)
}

/// The body after its length.
pub(crate) fn body_of(bytes: &[u8]) -> Option<&[u8]>
    ensures { MatchOption result (NoBody bytes.now)
        (λ body. IsBody body.now × Begins (body_field body.now) bytes.now) }
{
    if bytes.len() < BODY_LENGTH_BYTES {
        return None;
    }
    let size = u32_at(bytes, 0) as usize;
    let rest = &bytes[BODY_LENGTH_BYTES..];
    if size == 0 {
        return None;
    }
    if rest.len() < size {
        return None;
    }
    Some(&rest[..size])
}

/// The header that the bytes begin with.
pub(crate) fn header_of(alloc: Global, bytes: &[u8]) -> Parsed<Start>
    ensures { ReadsHeader bytes.now result }
{
    let Some(format) = format_of(bytes) else {
        return Parsed::Broken(0);
    };
    let after_first = behind(bytes, FIRST_FIELD_BYTES);
    let name = match id_of::<Database>(alloc, after_first) {
        Parsed::Whole(name) => name,
        Parsed::Broken(_) => return Parsed::Broken(FIRST_FIELD_BYTES),
        Parsed::Memory => return Parsed::Memory,
    };
    let uid_at = FIRST_FIELD_BYTES + TEXT_LENGTH_BYTES + name.as_str().len();
    let after_name = behind(bytes, uid_at);
    let uid = match id_of::<Replica>(alloc, after_name) {
        Parsed::Whole(uid) => uid,
        Parsed::Broken(_) => return Parsed::Broken(uid_at),
        Parsed::Memory => return Parsed::Memory,
    };
    let limit_at = uid_at + TEXT_LENGTH_BYTES + uid.as_str().len();
    let after_uid = behind(bytes, limit_at);
    let Some(limit) = limit_of(after_uid) else {
        return Parsed::Broken(limit_at);
    };
    let header = Header { name, uid, limit };
    Parsed::Whole(Start {
        format,
        header,
        length: limit_at + LIMIT_BYTES,
    })
}

/// The length of the entries that the bytes begin with, up to the first closed gate, or the place
/// where a gate is missing or has no body after it.
pub(crate) fn end_of_entries(bytes: &[u8]) -> Result<usize, usize>
    ensures { EndsEntries bytes.now result }
{
    let mut at = 0;
    while at < bytes.len() {
        if bytes[at] != OPEN_GATE {
            return Ok(at);
        }
        let after_gate = behind(bytes, at + 1);
        let Some(body) = body_of(after_gate) else {
            return Err(at + 1);
        };
        at += BEFORE_BODY_BYTES + body.len();
    }
    Err(at)
}

/// Adds a copy of the body.
pub(crate) fn add_copy(alloc: Global, bodies: &mut Bodies, body: &[u8]) -> Result<(), Memory>
    ensures { OnOk result (bodies.new ≡ bodies.old ++ body.now ∷ []) }
{
    bodies.push(Bytes::from_vec(body.to_vec(alloc)?))
}
