//! What the objects of a stream say.
ghost use Rattle.std.specs.Prelude.{◌≡◌, ◌≢◌, Some, None, IfOk, IfErr, option_map};
ghost use Rattle.u1_base.specs.Ids.{id_in};
ghost use Rattle.u1_base.specs.declared.ids.Form.TheVariants.{Document, Transaction};
ghost use Rattle.content.specs.Reading.{content_in};
ghost use Rattle.vector_rev.specs.ClockText.{clock_in};
ghost use Rattle.sync_stream.specs.inner.Fields.{content_said, doc_said, generation_said};
ghost use Rattle.sync_stream.specs.inner.Fields.{place_said};
ghost use Rattle.sync_stream.specs.inner.Fields.{text_said, told, told_of};
ghost use Rattle.sync_stream.specs.Objects.{doc_in, head_in};

use crate::fields::{Field, Fields, fields_of, plain_fields};
use crate::scratches::Scratches;
use crate::{HeadKind, SyncDoc};
use conflicts::Member;
use content::{Content, ContentFault};
use json::Scratch;
use std::alloc::Global;
use sync_http::parts::{position_in, value_in};
use u1_base::limits::GREATEST_COUNT;
use u1_base::{DocId, IdFault, Memory, Position, TransId};
use vector_rev::{Clock, ClockFault};

/// The position that the bytes of a head's object say, if they say one.
#[tactic(auto, unfolding(crate::specs::Objects::head_in))]
pub(crate) fn head_in(
    alloc: Global,
    kind: HeadKind,
    bytes: &[u8],
) -> Result<Option<Position>, Memory>
    ensures { IfOk result (λ head. head ≡ head_in kind bytes.now) }
{
    let Some(value) = value_in(alloc, bytes)? else {
        return Ok(None);
    };
    match kind {
        HeadKind::Request => position_in(
            alloc,
            &value,
            "last_known_generation",
            "last_known_trans_id",
        ),
        HeadKind::Reply => position_in(alloc, &value, "new_generation", "new_transaction_id"),
    }
}

/// The document that the bytes of its object say, if they say one.
#[tactic(auto, using(crate::proofs::Sayings::doc_in_said, crate::proofs::Sayings::doc_in_none))]
pub(crate) fn doc_in(
    alloc: Global,
    scratch: &mut Scratches,
    bytes: &[u8],
) -> Result<Option<SyncDoc>, Memory>
    ensures { IfOk result (λ doc. doc ≡ doc_in bytes.now) }
{
    if let Some(fields) = plain_fields(bytes, &mut scratch.line)? {
        return doc_of(alloc, &mut scratch.content, fields);
    }
    let Some(value) = value_in(alloc, bytes)? else {
        return Ok(None);
    };
    doc_of(alloc, &mut scratch.content, fields_of(&value))
}

#[tactic(auto, unfolding(crate::specs::inner::Fields::doc_said))]
fn doc_of(
    alloc: Global,
    scratch: &mut Scratch<Global>,
    fields: Fields<'_>,
) -> Result<Option<SyncDoc>, Memory>
    ensures { IfOk result (λ doc. doc ≡ doc_said (told_of fields.entry)) }
{
    let Some(text) = text_in(fields.id) else {
        return Ok(None);
    };
    let Some(id) = id_of(alloc, text)? else {
        return Ok(None);
    };
    let Some(text) = text_in(fields.rev) else {
        return Ok(None);
    };
    let Some(rev) = clock_of(alloc, text)? else {
        return Ok(None);
    };
    let Some(content) = content_of(alloc, scratch, fields.content)? else {
        return Ok(None);
    };
    let Some(at) = place_of(alloc, fields.generation, fields.trans)? else {
        return Ok(None);
    };
    Ok(Some(SyncDoc {
        id,
        member: Member { rev, content },
        at,
    }))
}

fn text_in<'a>(field: Field<'a>) -> Option<&'a str>
    ensures { option_map (λ s. s.now) result ≡ text_said (told field.entry) }
{
    match field {
        Field::Text(text) => Some(text),
        Field::Absent => None,
        Field::Null => None,
        Field::Whole(_) => None,
        Field::Other => None,
    }
}

// The position of a document in the log of its sender.
#[tactic(auto, unfolding(crate::specs::inner::Fields::place_said))]
fn place_of(
    alloc: Global,
    generation: Field<'_>,
    trans: Field<'_>,
) -> Result<Option<Position>, Memory>
    ensures { IfOk result (λ at. at ≡ place_said (told generation.entry) (told trans.entry)) }
{
    let Some(generation) = generation_in(generation) else {
        return Ok(None);
    };
    let Some(text) = text_in(trans) else {
        return Ok(None);
    };
    let Some(trans) = trans_of(alloc, text)? else {
        return Ok(None);
    };
    Ok(Some(Position {
        generation,
        trans: Some(trans),
    }))
}

fn generation_in(field: Field<'_>) -> Option<u64>
    ensures { result ≡ generation_said (told field.entry) }
{
    match field {
        Field::Whole(number) => {
            if number > 0 && number <= GREATEST_COUNT {
                Some(number)
            } else {
                None
            }
        }
        Field::Absent => None,
        Field::Null => None,
        Field::Text(_) => None,
        Field::Other => None,
    }
}

fn id_of(alloc: Global, text: &str) -> Result<Option<DocId>, Memory>
    ensures { IfOk result (λ id. id ≡ id_in Document text.now) }
{
    match DocId::read(alloc, text) {
        Ok(id) => Ok(Some(id)),
        Err(IdFault::Memory) => Err(Memory),
        Err(_) => Ok(None),
    }
}

fn clock_of(alloc: Global, text: &str) -> Result<Option<Clock>, Memory>
    ensures { IfOk result (λ clock. clock ≡ clock_in text.now) }
{
    match Clock::read(alloc, text) {
        Ok(clock) => Ok(Some(clock)),
        Err(ClockFault::Memory) => Err(Memory),
        Err(_) => Ok(None),
    }
}

fn trans_of(alloc: Global, text: &str) -> Result<Option<TransId>, Memory>
    ensures { IfOk result (λ id. id ≡ id_in Transaction text.now) }
{
    match TransId::read(alloc, text) {
        Ok(id) => Ok(Some(id)),
        Err(IdFault::Memory) => Err(Memory),
        Err(_) => Ok(None),
    }
}

// What a field says of a content: null that there is none, a text the content that it is.
fn content_of(
    alloc: Global,
    scratch: &mut Scratch<Global>,
    field: Field<'_>,
) -> Result<Option<Option<Content>>, Memory>
    ensures { IfOk result (λ content. content ≡ content_said (told field.entry)) }
{
    match field {
        Field::Null => Ok(Some(None)),
        Field::Text(text) => match content_in(alloc, scratch, text.as_bytes())? {
            Some(content) => Ok(Some(Some(content))),
            None => Ok(None),
        },
        Field::Absent => Ok(None),
        Field::Whole(_) => Ok(None),
        Field::Other => Ok(None),
    }
}

fn content_in(
    alloc: Global,
    scratch: &mut Scratch<Global>,
    bytes: &[u8],
) -> Result<Option<Content>, Memory>
    ensures { IfOk result (λ content. content ≡ content_in bytes.now) }
{
    match Content::read_with(alloc, scratch, bytes) {
        Ok(content) => Ok(Some(content)),
        Err(ContentFault::Memory) => Err(Memory),
        Err(_) => Ok(None),
    }
}
