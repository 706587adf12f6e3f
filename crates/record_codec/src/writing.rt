//! Writing steps.
ghost use Rattle.std.specs.Prelude.{◌≡◌, IfSome, OnOk};
ghost use Rattle.expr_parser.specs.Reading.{AreExprs};
ghost use Rattle.replica_state.specs.Steps.{step_of};
ghost use Rattle.record_fields.specs.Plain.{expressions};
ghost use Rattle.record_fields.specs.Writing.{with_field};
ghost use Rattle.record_fields.specs.declared.format.Format.TheVariants as format_of;
ghost use Rattle.record_codec.specs.Bodies.{accept, making, maybe_moved, moved, step, table};
ghost use Rattle.record_codec.specs.Steps.{IsAccept, IsMove, IsStep};

use crate::kind::Kind;
use crate::{makings, tables};
use conflicts::{Accept, Making};
use record_fields::Writer;
use replica_state::{IndexExprs, Move, PosTable, Step};
use u1_base::Memory;

#[tactic(auto, using(crate::proofs::Writings::steps))]
pub(crate) fn write_step(writer: &mut Writer<'_>, value: &Step) -> Result<(), Memory>
    ensures wrote { OnOk result
        (writer.new ≡ with_field (step format_of.Second) (step_of value.now) writer.old) }
    ensures is { OnOk result (IsStep (step_of value.now)) }
{
    match value {
        Step::Accept {
            doc,
            accept,
            trans,
            moved,
        } => {
            writer.byte(Kind::Accept.byte())?;
            writer.id(doc)?;
            write_accept(writer, accept)?;
            writer.id(trans)?;
            write_maybe_moved(writer, moved)
        }
        Step::Gone { doc, trans, moved } => {
            writer.byte(Kind::Gone.byte())?;
            writer.id(doc)?;
            writer.id(trans)?;
            write_maybe_moved(writer, moved)
        }
        Step::Position(moved) => {
            writer.byte(Kind::Position.byte())?;
            write_moved(writer, moved)
        }
        Step::IndexCreate { name, exprs } => {
            writer.byte(Kind::IndexCreate.byte())?;
            writer.id(name)?;
            write_exprs(writer, exprs)
        }
        Step::IndexDelete { name } => {
            writer.byte(Kind::IndexDelete.byte())?;
            writer.id(name)
        }
    }
}

#[tactic(auto, using(crate::proofs::Writings::accept_is))]
fn write_accept(writer: &mut Writer<'_>, value: &Accept) -> Result<(), Memory>
    ensures wrote { OnOk result
        (writer.new ≡ with_field (accept format_of.Second) value.now writer.old) }
    ensures is { OnOk result (IsAccept value.now) }
{
    let parents = value.parents.as_slice();
    // A body with so many parents would not fit an entry.
    if parents.len() > u32::MAX as usize {
        return Err(Memory);
    }
    writer.clock(&value.rev)?;
    write_making(writer, value.making)?;
    writer.clocks(parents)?;
    writer.flag(value.current)?;
    writer.content(&value.content)
}

#[tactic(auto, unfolding(record_fields::specs::Writing::with_field))]
fn write_making(writer: &mut Writer<'_>, value: Making) -> Result<(), Memory>
    ensures { OnOk result (writer.new ≡ with_field making value writer.old) }
{
    writer.byte(makings::byte(value))
}

#[tactic(auto, using(crate::proofs::Writings::moved_is))]
fn write_moved(writer: &mut Writer<'_>, value: &Move) -> Result<(), Memory>
    ensures wrote { OnOk result
        (writer.new ≡ with_field (moved format_of.Second) value.now writer.old) }
    ensures is { OnOk result (IsMove value.now) }
{
    write_table(writer, value.table)?;
    writer.reference(&value.uid)?;
    writer.place(&value.at)
}

#[tactic(auto, unfolding(record_fields::specs::Writing::with_field))]
fn write_table(writer: &mut Writer<'_>, value: PosTable) -> Result<(), Memory>
    ensures { OnOk result (writer.new ≡ with_field table value writer.old) }
{
    writer.byte(tables::byte(Some(value)))
}

#[tactic(auto, using(crate::proofs::Writings::maybe_moves))]
fn write_maybe_moved(writer: &mut Writer<'_>, value: &Option<Move>) -> Result<(), Memory>
    ensures wrote { OnOk result
        (writer.new ≡ with_field (maybe_moved format_of.Second) value.now writer.old) }
    ensures is { OnOk result (IfSome value.now IsMove) }
{
    match value {
        Some(moved) => write_moved(writer, moved),
        None => writer.byte(tables::byte(None)),
    }
}

fn write_exprs(writer: &mut Writer<'_>, value: &IndexExprs) -> Result<(), Memory>
    ensures wrote { OnOk result (writer.new ≡ with_field expressions value.now.texts writer.old) }
    ensures are { AreExprs value.now.texts }
{
    writer.expressions(value.as_slice())
}
