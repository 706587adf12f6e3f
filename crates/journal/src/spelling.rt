//! How headers and entries are spelled.
ghost use Rattle.std.specs.Prelude.{◌≡◌, ◌<◌, ◌^◌, [], ◌∷◌, ◌++◌, IfOk, OnOk, length};
ghost use Rattle.journal.specs.Image.{AreBodies, IsHeader, body_field, entry, header_bytes, image};

use crate::layout::{BEFORE_BODY_BYTES, CLOSED_GATE, LETTERS, OPEN_GATE, SECOND_FORMAT};
use crate::{Bodies, Header};
use std::alloc::Global;
use u1_base::{Bytes, Memory};

/// A header in format 2.
#[tactic(auto, unfolding(crate::specs::Image::header_bytes, crate::specs::Image::first_field))]
pub(crate) fn header_in_bytes(alloc: Global, header: &Header) -> Result<Bytes, Memory>
    ensures bytes { IfOk result (λ bytes. bytes ≡ header_bytes SECOND_FORMAT header.now) }
    ensures header { OnOk result (IsHeader SECOND_FORMAT header.now) }
{
    let mut out = Bytes::new(alloc);
    out.extend(LETTERS.as_bytes())?;
    out.push(SECOND_FORMAT)?;
    out.push_text(header.name.as_str())?;
    out.push_text(header.uid.as_str())?;
    out.push_u64(header.limit)?;
    Ok(out)
}

/// An image in format 2.
pub(crate) fn image_in_bytes(
    alloc: Global,
    header: &Header,
    bodies: &[Bytes],
) -> Result<Bytes, Memory>
    requires { AreBodies bodies.now }
    ensures bytes { IfOk result (λ bytes. bytes ≡ image SECOND_FORMAT header.now bodies.now) }
    ensures header { OnOk result (IsHeader SECOND_FORMAT header.now) }
{
    let mut out = header_in_bytes(alloc, header)?;
    for body in bodies {
        push_entry(&mut out, body.as_slice())?;
    }
    out.push(CLOSED_GATE)?;
    Ok(out)
}

fn push_entry(out: &mut Bytes, body: &[u8]) -> Result<(), Memory>
    requires { length body.now < 2 ^ 32 }
    ensures { OnOk result (out.new ≡ out.old ++ entry body.now) }
{
    out.push(OPEN_GATE)?;
    push_body(out, body)
}

#[tactic(auto, unfolding(crate::specs::Image::body_field))]
fn push_body(out: &mut Bytes, body: &[u8]) -> Result<(), Memory>
    requires { length body.now < 2 ^ 32 }
    ensures { OnOk result (out.new ≡ out.old ++ body_field body.now) }
{
    out.push_u32(body.len() as u32)?;
    out.extend(body)
}

/// What an append writes after the gate: the body after its length, and the next gate, which is
/// closed.
pub(crate) fn behind_the_gate(alloc: Global, body: &[u8]) -> Result<Bytes, Memory>
    requires { length body.now < 2 ^ 32 }
    ensures { IfOk result (λ bytes. bytes ≡ body_field body.now ++ CLOSED_GATE ∷ []) }
{
    // As long as the entry: its own gate stands already, and the next one stands after it.
    let mut out = Bytes::from_vec(Vec::with_capacity(alloc, BEFORE_BODY_BYTES + body.len())?);
    push_body(&mut out, body)?;
    out.push(CLOSED_GATE)?;
    Ok(out)
}
