//! Expressions: read, their values, and the keys of a document.
use crate::{Asked, say_fault};
use content::{Content, Json};
use expr_eval::{keys, names, values};
use expr_parser::Expr;
use rows::Said;
use u1_base::{Key, Memory, Text};

// Of more keys the number and the last one are printed.
const MOST_KEYS: usize = 9;

// Of a longer text the length is printed.
const MOST_BYTES: usize = 400;

/// Answers the calls of expressions, and tells whether it is one of them.
pub(crate) fn answer(asked: &Asked<'_>, said: &mut Said) -> Result<bool, Memory> {
    match asked.call {
        "expr" => say_expr(asked.text, said)?,
        "same-expr" => match asked.arguments {
            [one, other] => say_same(one, other, said)?,
            _ => said.line("not two words")?,
        },
        "names" | "values" | "keys" => say_of_exprs(asked, said)?,
        _ => return Ok(false),
    }
    Ok(true)
}

// The canonical text, or the fault.
fn say_expr(text: &str, said: &mut Said) -> Result<(), Memory> {
    match Expr::read(said.alloc(), text) {
        Ok(expr) => say_text(&expr, said),
        Err(fault) => say_fault(fault, said),
    }
}

fn say_text(expr: &Expr, said: &mut Said) -> Result<(), Memory> {
    said.line(expr.text(said.alloc())?.as_str())
}

// Whether a copy of the first is the same as the second.
fn say_same(one: &Text, other: &Text, said: &mut Said) -> Result<(), Memory> {
    let alloc = said.alloc();
    match (
        Expr::read(alloc, one.as_str()),
        Expr::read(alloc, other.as_str()),
    ) {
        (Ok(one), Ok(other)) => {
            let copy = one.copy(alloc)?;
            said.line(if copy.same(&other) { "same" } else { "other" })
        }
        _ => said.line("no expression"),
    }
}

// What a content has of one to eight expressions.
fn say_of_exprs(asked: &Asked<'_>, said: &mut Said) -> Result<(), Memory> {
    let mut exprs = Vec::new(said.alloc());
    for text in asked.arguments {
        match Expr::read(said.alloc(), text.as_str()) {
            Ok(expr) => exprs.push(expr)?,
            Err(fault) => return say_fault(fault, said),
        }
    }
    if asked.call == "names" {
        return say_names(exprs.as_slice(), said);
    }
    match Content::read(said.alloc(), asked.text.as_bytes()) {
        Ok(content) => say_of_content(asked.call, exprs.as_slice(), &content, said),
        Err(fault) => say_fault(fault, said),
    }
}

fn say_of_content(
    call: &str,
    exprs: &[Expr],
    content: &Content,
    said: &mut Said,
) -> Result<(), Memory> {
    if call == "values" {
        return say_values(exprs, &content.root()?, said);
    }
    say_keys(exprs, content, said)
}

fn say_names(exprs: &[Expr], said: &mut Said) -> Result<(), Memory> {
    let names = names(said.alloc(), exprs)?;
    say_texts(names.as_slice(), said)
}

fn say_texts(texts: &[Text], said: &mut Said) -> Result<(), Memory> {
    for text in texts {
        say_short(text.as_str(), said)?;
    }
    if texts.is_empty() {
        said.word("none")?;
    }
    said.end()
}

fn say_short(text: &str, said: &mut Said) -> Result<(), Memory> {
    if text.len() > MOST_BYTES {
        said.number(text.len() as u64)?;
        return said.word("bytes");
    }
    said.quoted(text)
}

// The values of each expression.
fn say_values(exprs: &[Expr], root: &Json, said: &mut Said) -> Result<(), Memory> {
    for expr in exprs {
        let texts = values(said.alloc(), expr, root)?;
        say_texts(texts.as_slice(), said)?;
    }
    Ok(())
}

// The keys, of the part of the content that the expressions ask for.
fn say_keys(exprs: &[Expr], content: &Content, said: &mut Said) -> Result<(), Memory> {
    if exprs.is_empty() || exprs.len() > 8 {
        return said.line("not one to eight expressions");
    }
    let names = names(said.alloc(), exprs)?;
    let part = content.part(names.as_slice())?;
    let keys = keys(said.alloc(), exprs, &part)?;
    say_each_key(keys.as_slice(), said)
}

fn say_each_key(keys: &[Key], said: &mut Said) -> Result<(), Memory> {
    match keys.last() {
        Some(last) if keys.len() > MOST_KEYS => {
            said.number(keys.len() as u64)?;
            said.word("keys, the last")?;
            say_texts(last.texts(), said)
        }
        Some(_) => {
            for key in keys {
                say_texts(key.texts(), said)?;
            }
            Ok(())
        }
        None => said.line("no key"),
    }
}
