//! What the bytes of a field are.
ghost use Rattle.std.specs.Prelude.{◌≡◌, IfOk, Some};
ghost use Rattle.u1_base.specs.Ids.{id_in};
ghost use Rattle.expr_parser.specs.FormOf.{form_of};
ghost use Rattle.expr_parser.specs.Reading.{IsExpr, expr_in};
ghost use Rattle.record_fields.specs.inner.Reading.{IsExpression};
ghost use Rattle.vector_rev.specs.Clock.{clock_of};
ghost use Rattle.vector_rev.specs.ClockText.{clock_in};
ghost use Rattle.record_fields.specs.Plain.{canonical_in, if_canonical};

use content::{Content, ContentFault};
use expr_parser::{Expr, ParseFault};
use json::Scratch;
use std::alloc::Global;
use u1_base::{FormOf, Id, IdFault, Memory};
use vector_rev::{Clock, ClockEntries, ClockFault};

/// The id that the bytes are.
pub(crate) fn read_id<F: FormOf>(alloc: Global, bytes: &[u8]) -> Result<Option<Id<F>>, Memory>
    ensures { IfOk result (λ found. found ≡ id_in F.form bytes.now) }
{
    match Id::of_bytes(alloc, bytes) {
        Ok(id) => Ok(Some(id)),
        Err(IdFault::Memory) => Err(Memory),
        Err(IdFault::Empty) => Ok(None),
        Err(IdFault::TooLong(_)) => Ok(None),
        Err(IdFault::BadByte(_)) => Ok(None),
    }
}

/// The content whose canonical text the bytes are.
pub(crate) fn read_content(
    alloc: Global,
    scratch: &mut Scratch<Global>,
    bytes: &[u8],
) -> Result<Option<Content>, Memory>
    ensures { IfOk result (λ found. found ≡ canonical_in bytes.now) }
{
    match Content::read_with(alloc, scratch, bytes) {
        Ok(content) => Ok(if_canonical(content, bytes)),
        Err(ContentFault::Memory) => Err(Memory),
        Err(ContentFault::TooBig(_)) => Ok(None),
        Err(ContentFault::NotJson) => Ok(None),
        Err(ContentFault::NotObject) => Ok(None),
        Err(ContentFault::TooDeep) => Ok(None),
        Err(ContentFault::NotWhole) => Ok(None),
        Err(ContentFault::OutOfRange) => Ok(None),
    }
}

// The content, if the bytes are its canonical text.
fn if_canonical(content: Content, bytes: &[u8]) -> Option<Content>
    ensures { result ≡ if_canonical bytes.now (Some content) }
{
    if content.as_str().as_bytes() == bytes {
        return Some(content);
    }
    None
}

/// The expression whose canonical text the bytes are.
#[tactic(auto, using(crate::proofs::Texts::no_expressions))]
pub(crate) fn read_expression(alloc: Global, bytes: &[u8]) -> Result<Option<Expr>, Memory>
    ensures { IfOk result (λ found. IsExpression bytes.now found) }
{
    let Ok(text) = str::from_utf8(bytes) else {
        return Ok(None);
    };
    match Expr::read(alloc, text) {
        Ok(expr) => if_spelled(alloc, expr, bytes),
        Err(ParseFault::Memory) => Err(Memory),
        Err(ParseFault::TooLong) => Ok(None),
        Err(ParseFault::At(_)) => Ok(None),
    }
}

// The expression that was read, if the bytes are its canonical text.
#[tactic(auto, using(crate::proofs::Texts::read_expressions))]
fn if_spelled(alloc: Global, expr: Expr, bytes: &[u8]) -> Result<Option<Expr>, Memory>
    requires read { expr_in bytes.now ≡ Some (form_of expr) }
    requires expr { IsExpr (form_of expr) }
    ensures { IfOk result (λ found. IsExpression bytes.now found) }
{
    let text = expr.text(alloc)?;
    if text.as_str().as_bytes() == bytes {
        return Ok(Some(expr));
    }
    Ok(None)
}

/// The clock of the entries.
#[tactic(auto, using(crate::proofs::EntriesRead::clocks))]
pub(crate) fn clock_of(entries: ClockEntries) -> Option<Clock>
    ensures { result ≡ clock_of entries }
{
    match Clock::of_entries(entries) {
        Ok(clock) => Some(clock),
        Err(ClockFault::Empty) => None,
        Err(ClockFault::TooMany) => None,
        Err(ClockFault::BadEntry(_)) => None,
        Err(ClockFault::NotSorted(_)) => None,
        Err(ClockFault::Memory) => None,
    }
}

/// The clock that the bytes spell.
#[tactic(auto, using(crate::proofs::Texts::no_clock))]
pub(crate) fn read_clock(alloc: Global, bytes: &[u8]) -> Result<Option<Clock>, Memory>
    ensures { IfOk result (λ found. found ≡ clock_in bytes.now) }
{
    let Ok(text) = str::from_utf8(bytes) else {
        return Ok(None);
    };
    match Clock::read(alloc, text) {
        Ok(clock) => Ok(Some(clock)),
        Err(ClockFault::Memory) => Err(Memory),
        Err(ClockFault::Empty) => Ok(None),
        Err(ClockFault::TooMany) => Ok(None),
        Err(ClockFault::BadEntry(_)) => Ok(None),
        Err(ClockFault::NotSorted(_)) => Ok(None),
    }
}
