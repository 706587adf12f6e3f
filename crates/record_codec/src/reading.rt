//! Reading steps.
ghost use Rattle.std.specs.Prelude.{◌≡◌};
ghost use Rattle.replica_state.specs.Steps.{step_of};
ghost use Rattle.record_fields.specs.Plain.{expressions};
ghost use Rattle.record_fields.specs.Reading.{Reads};
ghost use Rattle.record_fields.specs.declared.format.Format.TheVariants as format_of;
ghost use Rattle.record_codec.specs.Bodies.{accept, kind, making, maybe_moved, maybe_table, moved};
ghost use Rattle.record_codec.specs.Bodies.{step, table};
ghost use Rattle.record_codec.specs.inner.Bodies.{moved_at, step_at};
ghost use Rattle.record_codec.specs.declared.kind.Kind.TheVariants as kind_of;

use crate::kind::Kind;
use crate::{makings, tables};
use conflicts::{Accept, Making};
use json::Scratch;
use record_fields::{Format, Reader, Stop};
use replica_state::{IndexExprs, Move, PosTable, Step};
use std::alloc::Global;

pub(crate) fn read_step(
    reader: &mut Reader<'_>,
    scratch: &mut Scratch<Global>,
    format: Format,
) -> Result<Step, Stop>
    ensures { Reads step_of ((step format).read reader.old) result reader.new }
{
    match read_kind(reader)? {
        Kind::Accept => accepted(reader, scratch, format),
        Kind::Gone => gone(reader, format),
        Kind::Position => position(reader, format),
        Kind::IndexCreate => index_created(reader),
        Kind::IndexDelete => index_deleted(reader),
    }
}

fn read_kind(reader: &mut Reader<'_>) -> Result<Kind, Stop>
    ensures { Reads (λ k. k) (kind.read reader.old) result reader.new }
{
    let start = reader.left();
    let byte = reader.byte()?;
    match Kind::of_byte(byte) {
        Some(kind) => Ok(kind),
        None => Err(Stop::Bad(start)),
    }
}

fn accepted(
    reader: &mut Reader<'_>,
    scratch: &mut Scratch<Global>,
    format: Format,
) -> Result<Step, Stop>
    ensures { Reads step_of (step_at format kind_of.Accept reader.old) result reader.new }
{
    let doc = reader.id()?;
    let accept = read_accept(reader, scratch, format)?;
    let trans = reader.id()?;
    let moved = read_maybe_moved(reader, format)?;
    Ok(Step::Accept {
        doc,
        accept,
        trans,
        moved,
    })
}

fn gone(reader: &mut Reader<'_>, format: Format) -> Result<Step, Stop>
    ensures { Reads step_of (step_at format kind_of.Gone reader.old) result reader.new }
{
    let doc = reader.id()?;
    let trans = reader.id()?;
    let moved = read_maybe_moved(reader, format)?;
    Ok(Step::Gone { doc, trans, moved })
}

fn position(reader: &mut Reader<'_>, format: Format) -> Result<Step, Stop>
    ensures { Reads step_of (step_at format kind_of.Position reader.old) result reader.new }
{
    let moved = read_moved(reader, format)?;
    Ok(Step::Position(moved))
}

fn index_created(reader: &mut Reader<'_>) -> Result<Step, Stop>
    ensures { Reads step_of
        (step_at format_of.Second kind_of.IndexCreate reader.old) result reader.new }
{
    let name = reader.id()?;
    let exprs = read_exprs(reader)?;
    Ok(Step::IndexCreate { name, exprs })
}

fn index_deleted(reader: &mut Reader<'_>) -> Result<Step, Stop>
    ensures { Reads step_of
        (step_at format_of.Second kind_of.IndexDelete reader.old) result reader.new }
{
    let name = reader.id()?;
    Ok(Step::IndexDelete { name })
}

// ---- acceptances

#[tactic(auto, unfolding(crate::specs::Bodies::accept))]
fn read_accept(
    reader: &mut Reader<'_>,
    scratch: &mut Scratch<Global>,
    format: Format,
) -> Result<Accept, Stop>
    ensures { Reads (λ a. a) ((accept format).read reader.old) result reader.new }
{
    let rev = reader.clock(format)?;
    let making = read_making(reader)?;
    let parents = reader.clocks(format)?;
    let current = reader.flag()?;
    let content = reader.content(scratch)?;
    Ok(Accept {
        rev,
        content,
        making,
        parents,
        current,
    })
}

fn read_making(reader: &mut Reader<'_>) -> Result<Making, Stop>
    ensures { Reads (λ m. m) (making.read reader.old) result reader.new }
{
    let start = reader.left();
    let byte = reader.byte()?;
    match makings::of_byte(byte) {
        Some(making) => Ok(making),
        None => Err(Stop::Bad(start)),
    }
}

// ---- moves

#[tactic(auto, unfolding(crate::specs::Bodies::moved))]
fn read_moved(reader: &mut Reader<'_>, format: Format) -> Result<Move, Stop>
    ensures { Reads (λ m. m) ((moved format).read reader.old) result reader.new }
{
    let table = read_table(reader)?;
    let moved = moved_at(reader, format, table)?;
    Ok(moved)
}

fn read_table(reader: &mut Reader<'_>) -> Result<PosTable, Stop>
    ensures { Reads (λ t. t) (table.read reader.old) result reader.new }
{
    let start = reader.left();
    match read_maybe_table(reader)? {
        Some(table) => Ok(table),
        None => Err(Stop::Bad(start)),
    }
}

#[tactic(auto, using(crate::proofs::StepKinds::moved_none))]
fn read_maybe_moved(reader: &mut Reader<'_>, format: Format) -> Result<Option<Move>, Stop>
    ensures { Reads (λ m. m) ((maybe_moved format).read reader.old) result reader.new }
{
    match read_maybe_table(reader)? {
        Some(table) => {
            let moved = moved_at(reader, format, table)?;
            Ok(Some(moved))
        }
        None => Ok(None),
    }
}

// The uid and the place, where the table was read.
fn moved_at(reader: &mut Reader<'_>, format: Format, table: PosTable) -> Result<Move, Stop>
    ensures { Reads (λ m. m) (moved_at format table reader.old) result reader.new }
{
    let uid = reader.uid(format)?;
    let at = reader.place()?;
    Ok(Move { table, uid, at })
}

fn read_maybe_table(reader: &mut Reader<'_>) -> Result<Option<PosTable>, Stop>
    ensures { Reads (λ t. t) (maybe_table.read reader.old) result reader.new }
{
    let start = reader.left();
    let byte = reader.byte()?;
    match tables::of_byte(byte) {
        Some(table) => Ok(table),
        None => Err(Stop::Bad(start)),
    }
}

// ---- indexes

fn read_exprs(reader: &mut Reader<'_>) -> Result<IndexExprs, Stop>
    ensures { Reads (λ x. x.texts) (expressions.read reader.old) result reader.new }
{
    let exprs = reader.expressions()?;
    Ok(IndexExprs::of(exprs))
}
