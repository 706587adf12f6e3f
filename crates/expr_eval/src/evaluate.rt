//! The values of an expression.
ghost use Rattle.std.specs.Prelude.{◌≡◌, ◌++◌, IfOk, OnOk, map, flat_map};
ghost use Rattle.content.specs.TreeOf.{tree_of};
ghost use Rattle.expr_parser.specs.FormOf.{form_of, forms_of_all};
ghost use Rattle.expr_eval.specs.Kinds.{texts_in, truths_in, wholes_in};
ghost use Rattle.expr_eval.specs.inner.Lent.{lent};
ghost use Rattle.expr_eval.specs.Texts.{folded, number_text, truth_text};
ghost use Rattle.expr_eval.specs.Values.{texts_of, values_of, values_of_each};
ghost use Rattle.expr_eval.specs.Words.{distinct, words_in};

use crate::case_fold::case_folded;
use crate::field::add_field_values;
use crate::first_places::first_places;
use crate::number::{number_spelled, truth_spelled};
use crate::value::{Value, texts_among, truths_among, wholes_among};
use crate::words::words_among;
use content::Json;
use expr_parser::Expr;
use std::alloc::{AllocError, Global};
use u1_base::{Memory, Text, Texts};

/// The texts that the expression gives for the json, in order. Its other values are dropped.
pub fn values(alloc: Global, expr: &Expr, root: &Json) -> Result<Texts, Memory>
    ensures { IfOk result (λ texts. texts ≡ texts_of (form_of expr.now) (tree_of root.now)) }
{
    let given = values_given(alloc, expr, root)?;
    Ok(Texts::from_vec(texts_from(alloc, given)?))
}

#[cycle(values)]
fn values_given(alloc: Global, expr: &Expr, root: &Json) -> Result<Vec<Value>, Memory>
    ensures { IfOk result (λ given. given.items ≡ values_of (form_of expr.now) (tree_of root.now)) }
{
    let mut given = Vec::new(alloc);
    add_values(alloc, expr, root, &mut given)?;
    Ok(given)
}

// Adds the values that the expression gives.
#[cycle(values)]
fn add_values(alloc: Global, expr: &Expr, root: &Json, out: &mut Vec<Value>) -> Result<(), Memory>
    ensures { OnOk result (out.new.items ≡ out.old.items
        ++ values_of (form_of expr.now) (tree_of root.now)) }
{
    match expr {
        Expr::Field(path) => add_field_values(root, path.parts(), out),
        Expr::Lower(argument) => add_folded(alloc, &values_given(alloc, argument, root)?, out),
        Expr::SplitWords(argument) => add_words_once(
            alloc,
            &values_given(alloc, argument, root)?,
            out,
        ),
        Expr::Number(argument, width) => add_numbers(
            alloc,
            &values_given(alloc, argument, root)?,
            *width,
            out,
        ),
        Expr::Truth(argument) => add_truths(alloc, &values_given(alloc, argument, root)?, out),
        Expr::Combine(arguments) => add_values_of_each(alloc, arguments, root, out),
    }
}

#[cycle(values)]
fn add_values_of_each(
    alloc: Global,
    exprs: &Vec<Expr>,
    root: &Json,
    out: &mut Vec<Value>,
) -> Result<(), Memory>
    ensures { OnOk result (out.new.items ≡ out.old.items
        ++ values_of_each (forms_of_all exprs.now.items) (tree_of root.now)) }
{
    for expr in exprs {
        add_values(alloc, expr, root, out)?;
    }
    Ok(())
}

fn texts_from(alloc: Global, given: Vec<Value>) -> Result<Vec<Text>, AllocError>
    ensures { IfOk result (λ texts. texts.items ≡ texts_in given.items) }
{
    given
        .into_iter()
        .filter_map(|value| value.into_text())
        .collect(alloc)
}

fn add_folded(alloc: Global, given: &[Value], out: &mut Vec<Value>) -> Result<(), Memory>
    ensures { OnOk result (out.new.items ≡ out.old.items
        ++ map Value.Text (map folded (texts_in given.now))) }
{
    let texts = texts_among(alloc, given)?;
    for text in &texts {
        out.push(Value::Text(case_folded(alloc, text)?))?;
    }
    Ok(())
}

fn add_words_once(alloc: Global, given: &[Value], out: &mut Vec<Value>) -> Result<(), Memory>
    ensures { OnOk result (out.new.items ≡ out.old.items
        ++ map Value.Text (distinct (flat_map words_in (texts_in given.now)))) }
{
    let texts = texts_among(alloc, given)?;
    let words = words_among(alloc, &texts)?;
    let firsts = first_places(alloc, &words)?;
    add_texts(alloc, &firsts, out)
}

fn add_texts(alloc: Global, texts: &[&str], out: &mut Vec<Value>) -> Result<(), Memory>
    ensures { OnOk result (out.new.items ≡ out.old.items ++ map Value.Text (lent texts.now)) }
{
    for text in texts {
        out.push(Value::Text(Text::copy(alloc, text)?))?;
    }
    Ok(())
}

fn add_numbers(
    alloc: Global,
    given: &[Value],
    width: u8,
    out: &mut Vec<Value>,
) -> Result<(), Memory>
    ensures { OnOk result (out.new.items ≡ out.old.items
        ++ map Value.Text (map (number_text width) (wholes_in given.now))) }
{
    let numbers = wholes_among(alloc, given)?;
    for number in &numbers {
        out.push(Value::Text(number_spelled(alloc, *number, width)?))?;
    }
    Ok(())
}

fn add_truths(alloc: Global, given: &[Value], out: &mut Vec<Value>) -> Result<(), Memory>
    ensures { OnOk result (out.new.items ≡ out.old.items
        ++ map Value.Text (map truth_text (truths_in given.now))) }
{
    let truths = truths_among(alloc, given)?;
    for truth in &truths {
        out.push(Value::Text(truth_spelled(alloc, *truth)?))?;
    }
    Ok(())
}
