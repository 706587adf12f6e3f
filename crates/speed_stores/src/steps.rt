//! The steps of a replica that accept revisions of the documents, and an index over them.
ghost use Rattle.std.specs.Prelude.{IfOk};
ghost use Rattle.expr_parser.specs.Reading.{IsExpr};
ghost use Rattle.expr_parser.specs.FormOf.{form_of};

use conflicts::{Accept, Making};
use expr_parser::{Expr, Exprs};
use replica_state::{IndexExprs, Step};
use speed_common::{Fault, content_of, done, id_of, trans_of};
use std::alloc::Global;
use u1_base::{IdKind, IndexName, Memory, ReplicaUid};
use vector_rev::{Clock, Clocks};

/// The number of documents where each step is of another one.
pub const MANY: u32 = u32::MAX;

/// The uid of the replica.
pub fn own(alloc: Global) -> Result<ReplicaUid, Memory> {
    ReplicaUid::made(alloc, 7, IdKind::Replica, 0)
}

/// The steps from one number up to another, which edit so many documents in turn.
pub fn edits(alloc: Global, first: u32, end: u32, documents: u32) -> Result<Vec<Step>, Fault> {
    let own = own(alloc)?;
    let mut steps = Vec::new(alloc);
    for number in first..end {
        steps.push(edit(alloc, &own, number, documents)?)?;
    }
    Ok(steps)
}

// Each document is edited once before the first one is edited again.
fn edit(alloc: Global, own: &ReplicaUid, number: u32, documents: u32) -> Result<Step, Fault> {
    let turn = number.checked_div(documents).unwrap_or(0);
    let document = number.checked_rem(documents).unwrap_or(0);
    Ok(Step::Accept {
        doc: id_of(alloc, document)?,
        accept: Accept {
            rev: clock_of(alloc, own, u64::from(turn) + 1)?,
            content: Some(content_of(alloc, number)?),
            making: Making::Edit,
            parents: parents_of(alloc, own, turn)?,
            current: true,
        },
        trans: trans_of(alloc, number)?,
        moved: None,
    })
}

fn clock_of(alloc: Global, own: &ReplicaUid, counter: u64) -> Result<Clock, Fault> {
    let uid = own.as_str();
    let text = format!(in alloc; "{uid}:{counter}")?;
    done(Clock::read(alloc, text.as_str()))
}

// The revision that an edit was made from, if it is not the first one.
fn parents_of(alloc: Global, own: &ReplicaUid, turn: u32) -> Result<Clocks, Fault> {
    let mut parents = Clocks::new(alloc);
    if turn > 0 {
        parents.push(clock_of(alloc, own, u64::from(turn))?)?;
    }
    Ok(parents)
}

/// The step that creates an index of three expressions.
pub fn index(alloc: Global) -> Result<Step, Fault> {
    let mut exprs = Exprs::new(alloc);
    exprs.push(expr(alloc, "name")?)?;
    exprs.push(expr(alloc, "number(age,3)")?)?;
    exprs.push(expr(alloc, "split_words(tags)")?)?;
    Ok(Step::IndexCreate {
        name: done(IndexName::read(alloc, "by_name"))?,
        exprs: IndexExprs::of(exprs),
    })
}

fn expr(alloc: Global, text: &str) -> Result<Expr, Fault>
    ensures { IfOk result (λ e. IsExpr (form_of e)) }
{
    match Expr::read(alloc, text) {
        Ok(expr) => Ok(expr),
        Err(_) => Err(Fault::Run),
    }
}
