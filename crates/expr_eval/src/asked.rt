//! The names of the fields at the root that expressions ask for.
ghost use Rattle.std.specs.Prelude.{◌≡◌, ◌++◌, IfOk, OnOk, map};
ghost use Rattle.expr_parser.specs.FormOf.{form_of, forms_of_all};
ghost use Rattle.expr_eval.specs.Asked.{all_names_asked, first_of_path, names_asked};
ghost use Rattle.expr_eval.specs.Asked.{names_asked_by_each};

use expr_parser::Expr;
use std::alloc::Global;
use u1_base::{Memory, Text, Texts};

/// The names of the fields at the root of a content that the expressions ask for: the keys of a
/// content are those of its part that has just these (`law_part`).
pub fn names(alloc: Global, exprs: &[Expr]) -> Result<Texts, Memory>
    ensures { IfOk result (λ names. names ≡ all_names_asked (map form_of exprs.now)) }
{
    let mut out = Vec::new(alloc);
    for expr in exprs {
        add_names(expr, &mut out)?;
    }
    Ok(Texts::from_vec(out))
}

#[cycle(asked)]
fn add_names(expr: &Expr, out: &mut Vec<Text>) -> Result<(), Memory>
    ensures { OnOk result (out.new.items ≡ out.old.items ++ names_asked (form_of expr.now)) }
{
    match expr {
        Expr::Field(path) => add_first(path.parts(), out),
        Expr::Lower(argument) => add_names(argument, out),
        Expr::SplitWords(argument) => add_names(argument, out),
        Expr::Number(argument, _) => add_names(argument, out),
        Expr::Truth(argument) => add_names(argument, out),
        Expr::Combine(arguments) => add_names_of_each(arguments, out),
    }
}

#[cycle(asked)]
fn add_names_of_each(exprs: &Vec<Expr>, out: &mut Vec<Text>) -> Result<(), Memory>
    ensures { OnOk result (out.new.items ≡ out.old.items
        ++ names_asked_by_each (forms_of_all exprs.now.items)) }
{
    for expr in exprs {
        add_names(expr, out)?;
    }
    Ok(())
}

fn add_first(parts: &[Text], out: &mut Vec<Text>) -> Result<(), Memory>
    ensures { OnOk result (out.new.items ≡ out.old.items ++ first_of_path parts.now) }
{
    match parts.split_first() {
        Some((name, _)) => {
            out.push(name.duplicate()?)?;
            Ok(())
        }
        None => Ok(()),
    }
}
