//! The spelling of an expression without white space.
ghost use Rattle.std.specs.Prelude.{◌≡◌, ◌++◌, OnOk, codes, string_bytes};
ghost use Rattle.std.specs.List.{join_with_byte};
ghost use Rattle.expr_parser.specs.Forms.{combine, number};
ghost use Rattle.expr_parser.specs.FormOf.{form_of, forms_of_all};
ghost use Rattle.expr_parser.specs.Canonical.{canonical};

use crate::{Expr, Path};
use std::fmt::Write;
use u1_base::Memory;

// Adds the spelling at the end. At an error a front of it was added.
#[cycle(spelling)]
pub(crate) fn spell(expr: &Expr, out: &mut String) -> Result<(), Memory>
    ensures { OnOk result (string_bytes out.new ≡ string_bytes out.old
        ++ canonical (form_of expr.now)) }
{
    match expr {
        Expr::Field(path) => spell_path(path, out),
        Expr::Lower(argument) => spell_call("lower(", argument, out),
        Expr::SplitWords(argument) => spell_call("split_words(", argument, out),
        Expr::Number(argument, width) => spell_number(argument, *width, out),
        Expr::Truth(argument) => spell_call("bool(", argument, out),
        Expr::Combine(arguments) => spell_combine(arguments, out),
    }
}

#[cycle(spelling)]
fn spell_call(word: &str, argument: &Expr, out: &mut String) -> Result<(), Memory>
    ensures { OnOk result (string_bytes out.new ≡ string_bytes out.old
        ++ (word.now ++ (canonical (form_of argument.now) ++ codes ")"))) }
{
    out.push_str(word)?;
    spell(argument, out)?;
    out.push_str(")")?;
    Ok(())
}

#[cycle(spelling)]
fn spell_number(argument: &Expr, width: u8, out: &mut String) -> Result<(), Memory>
    ensures { OnOk result (string_bytes out.new ≡ string_bytes out.old
        ++ canonical (number (form_of argument.now) width)) }
{
    out.push_str("number(")?;
    spell(argument, out)?;
    write!(out, ",{width})")?;
    Ok(())
}

#[cycle(spelling)]
fn spell_combine(arguments: &Vec<Expr>, out: &mut String) -> Result<(), Memory>
    ensures { OnOk result (string_bytes out.new ≡ string_bytes out.old
        ++ canonical (combine (forms_of_all arguments.now.items))) }
{
    out.push_str("combine(")?;
    let mut mark = "";
    for argument in arguments {
        out.push_str(mark)?;
        spell(argument, out)?;
        mark = ",";
    }
    out.push_str(")")?;
    Ok(())
}

fn spell_path(path: &Path, out: &mut String) -> Result<(), Memory>
    ensures { OnOk result (string_bytes out.new ≡ string_bytes out.old
        ++ join_with_byte 46 path.now) }
{
    let mut mark = "";
    for part in path.parts() {
        out.push_str(mark)?;
        out.push_str(part.as_str())?;
        mark = ".";
    }
    Ok(())
}
