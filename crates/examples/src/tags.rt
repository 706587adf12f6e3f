//! Example: an index over notes, and a query.
ghost use Rattle.std.specs.Prelude.{◌≡◌, [], ◌∷◌, IfOk, OnErr, OnOk, Some};
ghost use Rattle.expr_parser.specs.Canonical.{canonical};
ghost use Rattle.expr_parser.specs.FormOf.{form_of};
ghost use Rattle.expr_parser.specs.Reading.{IsExpr};
ghost use Rattle.replica_core.specs.Calls.{IsDone};
ghost use Rattle.replica_core.specs.CallsDecide.{create_decides};
ghost use Rattle.replica_core.specs.CallsFaults.{index_failure};
ghost use Rattle.replica_core.specs.Replica.{state_in};
ghost use Rattle.examples.specs.Tags.{Finds};

use expr_parser::{Expr, Exprs};
use replica_core::{IndexFault, QueryFault, Replica, create_index, index_table, query_index};
use replica_state::{IndexExprs, State};
use std::alloc::Global;
use u1_base::{Ids, IndexName, Memory, Text, Texts};

/// Makes an index of all notes by an expression, as `tag` or `lower(title)`. Each later call on the
/// notes keeps it up to date.
pub fn index_notes<R: Replica>(
    alloc: Global,
    notes: &mut R,
    name: &IndexName,
    by: Expr,
) -> Result<(), IndexFault>
    requires open { R.is_open notes.old }
    requires read { IsExpr (form_of by) }
    ensures indexed { OnOk result ((state_in (R.known notes.new)).index name.now
        ≡ Some (canonical (form_of by) ∷ [])) }
    ensures same { OnErr result (state_in (R.known notes.new) ≡ state_in (R.known notes.old)) }
    ensures done { IsDone R.known R.is_open R.crash index_failure
        (create_decides name.now (canonical (form_of by) ∷ []) (state_in (R.known notes.old)))
        notes.old notes.new result }
{
    let Ok(exprs) = alone(alloc, by) else {
        return Err(IndexFault::Memory);
    };
    create_index(notes, name, exprs)
}

// An index may have up to eight expressions. Here it has one.
fn alone(alloc: Global, expr: Expr) -> Result<IndexExprs, Memory>
    requires { IsExpr (form_of expr) }
    ensures { IfOk result (λ exprs. exprs.texts ≡ canonical (form_of expr) ∷ []) }
{
    let mut exprs = Exprs::new(alloc);
    exprs.push(expr)?;
    Ok(IndexExprs::of(exprs))
}

/// The notes with this value in the index, by id. A value that ends in `*` stands for each value
/// that begins so; the notes then go by their values first. None if there is no index of the name.
/// It is refused if the index has more than one expression.
pub fn notes_with(
    alloc: Global,
    state: &State,
    name: &IndexName,
    value: &str,
) -> Result<Option<Ids>, QueryFault>
    ensures { Finds state.now name.now value.now result }
{
    let mut values = Texts::new(alloc);
    values.push(Text::copy(alloc, value)?)?;
    let Some(index) = index_table(state, name) else {
        return Ok(None);
    };
    match query_index(alloc, index, values.as_slice()) {
        Ok(ids) => Ok(Some(ids)),
        Err(fault) => Err(fault),
    }
}
