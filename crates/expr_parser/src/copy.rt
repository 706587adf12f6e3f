//! Copies of expressions.
ghost use Rattle.std.specs.Prelude.{◌≡◌, ℕ, IfOk, map};
ghost use Rattle.expr_parser.specs.FormOf.{form_of};

use crate::Expr;
use std::alloc::Global;
use u1_base::Memory;

#[cycle(copying)]
pub(crate) fn copied(alloc: Global, expr: &Expr) -> Result<Expr, Memory>
    ensures { IfOk result (λ e. form_of e ≡ form_of expr.now) }
{
    match expr {
        Expr::Field(path) => Ok(Expr::Field(path.copy(alloc)?)),
        Expr::Lower(argument) => Ok(Expr::Lower(boxed(alloc, argument)?)),
        Expr::SplitWords(argument) => Ok(Expr::SplitWords(boxed(alloc, argument)?)),
        Expr::Number(argument, width) => Ok(Expr::Number(boxed(alloc, argument)?, *width)),
        Expr::Truth(argument) => Ok(Expr::Truth(boxed(alloc, argument)?)),
        Expr::Combine(arguments) => Ok(Expr::Combine(copied_all(alloc, arguments)?)),
    }
}

#[cycle(copying)]
fn boxed(alloc: Global, expr: &Expr) -> Result<Box<Expr>, Memory>
    ensures { IfOk result (λ b. form_of b.value ≡ form_of expr.now) }
{
    let copy = copied(alloc, expr)?;
    Ok(Box::new(alloc, copy)?)
}

#[cycle(copying)]
fn copied_all(alloc: Global, exprs: &Vec<Expr>) -> Result<Vec<Expr>, Memory>
    ensures { IfOk result (λ es. map form_of es.items ≡ map form_of exprs.now.items) }
{
    let mut copies = Vec::with_capacity(alloc, exprs.len())?;
    for expr in exprs {
        let copy = copied(alloc, expr)?;
        copies.push(copy)?;
    }
    Ok(copies)
}
