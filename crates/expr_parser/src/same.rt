//! Equality of expressions, without memory.
ghost use Rattle.std.specs.Prelude.{◌≡◌, ℕ, List, drop};
ghost use Rattle.expr_parser.specs.FormOf.{form_of, forms_of_all};
ghost use Rattle.expr_parser.specs.Same.{is_same, are_same, is_same_path};

use crate::{Expr, Path};

#[cycle(sameness)]
pub(crate) fn same(a: &Expr, b: &Expr) -> bool
    ensures { result ≡ is_same (form_of a.now) (form_of b.now) }
{
    match a {
        Expr::Field(p) => match b {
            Expr::Field(q) => same_path(p, q),
            _ => false,
        },
        Expr::Lower(x) => match b {
            Expr::Lower(y) => same(x, y),
            _ => false,
        },
        Expr::SplitWords(x) => match b {
            Expr::SplitWords(y) => same(x, y),
            _ => false,
        },
        Expr::Number(x, m) => match b {
            Expr::Number(y, n) => *m == *n && same(x, y),
            _ => false,
        },
        Expr::Truth(x) => match b {
            Expr::Truth(y) => same(x, y),
            _ => false,
        },
        Expr::Combine(xs) => match b {
            Expr::Combine(ys) => same_all(xs, ys),
            _ => false,
        },
    }
}

#[cycle(sameness)]
fn same_all(xs: &Vec<Expr>, ys: &Vec<Expr>) -> bool
    ensures { result ≡ are_same (forms_of_all xs.now.items) (forms_of_all ys.now.items) }
{
    if xs.len() != ys.len() {
        return false;
    }
    for i in 0..xs.len() {
        if !same(&xs[i], &ys[i]) {
            return false;
        }
    }
    true
}

fn same_path(p: &Path, q: &Path) -> bool
    ensures { result ≡ is_same_path p.now q.now }
{
    p.parts() == q.parts()
}
