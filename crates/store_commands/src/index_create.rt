//! `index-create`: creates an index.
ghost use Rattle.std.specs.Prelude.{◌≡◌, ◌≤◌, Err, IfErr, IfOk, List, Result, Some, length, map};
ghost use Rattle.command_lines.specs.declared.outcome.Outcome.{Outcome};
ghost use Rattle.conflicts.specs.State.{Text};
ghost use Rattle.expr_parser.specs.FormOf.{form_of};
ghost use Rattle.expr_parser.specs.Limits.{most_exprs};
ghost use Rattle.expr_parser.specs.Reading.{IsExpr, expr_in};
ghost use Rattle.replica_core.specs.Commands.Indexes.{index_create_effect};
ghost use Rattle.replica_state.specs.Held.{lists_of};
ghost use Rattle.store_commands.specs.Carries.{Carries};
ghost use Rattle.store_commands.specs.Deeds.{go_on, over_replica};
ghost use Rattle.store_commands.specs.Expressions.{HaveRead};
ghost use Rattle.store_commands.specs.inner.Expressions.{AreRead, EndsFor, texts_read};

use crate::Ended;
use command_lines::{Outcome, expression_end, print_index_made};
use expr_parser::{Expr, Exprs};
use link::Sink;
use replica_core::{Replica, create_index};
use replica_state::IndexExprs;
use std::alloc::Global;
use u1_base::{IndexName, Text};

/// Creates the index of these expressions over all documents. An index that has them already stays.
pub fn index_create<R: Replica, K: Sink>(
    alloc: Global,
    name: &IndexName,
    texts: &[Text],
    replica: &mut R,
    out: &mut K,
) -> Ended
    requires open { R.is_open replica.old }
    requires some { 1 ≤ length texts.now }
    requires few { length texts.now ≤ most_exprs }
    ensures { (exprs : Result (List Text) Outcome) × HaveRead texts.now exprs
        × Carries R.known R.is_open R.crash
        (go_on exprs (λ canonicals. over_replica
        (index_create_effect (lists_of (R.known replica.old).state) name.now canonicals)))
        replica.old replica.new (K.known out.old) (K.known out.new) result }
{
    let exprs = read_exprs(alloc, texts)?;
    create_index(replica, name, exprs)?;
    Ok(print_index_made(out, name)?)
}

// The expressions, in the order of the words; the first that is refused counts.
fn read_exprs(alloc: Global, texts: &[Text]) -> Result<IndexExprs, Outcome>
    requires some { 1 ≤ length texts.now }
    requires few { length texts.now ≤ most_exprs }
    ensures { HaveRead texts.now (texts_read result) }
{
    let exprs = exprs_in(alloc, texts)?;
    Ok(IndexExprs::of(exprs))
}

fn exprs_in(alloc: Global, texts: &[Text]) -> Result<Exprs, Outcome>
    ensures all { IfOk result (λ exprs. AreRead texts.now (map form_of exprs)) }
    ensures first { IfErr result (λ end. HaveRead texts.now (Err end)) }
{
    let mut exprs = Exprs::new(alloc);
    for text in texts {
        let expr = expr_in(alloc, exprs.len() as u64, text)?;
        exprs.push(expr)?;
    }
    Ok(exprs)
}

// The expression at a place, which counts from 0.
fn expr_in(alloc: Global, place: u64, text: &Text) -> Result<Expr, Outcome>
    ensures reads { IfOk result (λ expr. expr_in text.now ≡ Some (form_of expr)) }
    ensures expr { IfOk result (λ expr. IsExpr (form_of expr)) }
    ensures refused { IfErr result (λ end. EndsFor place text.now end) }
{
    match Expr::read(alloc, text.as_str()) {
        Ok(expr) => Ok(expr),
        Err(fault) => Err(expression_end(place, fault)),
    }
}
