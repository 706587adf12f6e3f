//! The descent through a text, one function for each rule of the grammar.
ghost use Rattle.std.specs.Prelude.{◌≡◌, ℕ, ◌<◌, ◌≤◌, [], ◌∷◌, ◌++◌, OnOk, IfOk, IfNone};
ghost use Rattle.std.specs.Prelude.{MatchOption, length, map, Ok, Err, Result, List};
ghost use Rattle.expr_parser.specs.Forms.{Form, combine, field, number};
ghost use Rattle.expr_parser.specs.FormOf.{form_of, forms_of_all};
ghost use Rattle.expr_parser.specs.Grammar.{is_part, is_white};
ghost use Rattle.expr_parser.specs.Descent.{Fails, Goes, ReadsPart};
ghost use Rattle.expr_parser.specs.inner.Descent.{Parses};
ghost use Rattle.expr_parser.specs.Machine.{Open, begin, behind, done, ready, run, within};

use crate::reader::Reader;
use crate::transform::{Transform, transform_named};
use crate::{Expr, Path};
use std::alloc::{AllocError, AllocFailed, Global};
use u1_base::{Memory, Text, Texts};

/// Why a reading stops.
#[derive(Clone, Copy, PartialEq, Eq)]
pub(crate) enum Stop {
    /// What is left begins with a character that cannot stand there, or nothing is left and more
    /// has to come.
    Here,
    Memory,
}

impl From<Memory> for Stop {
    ghost use Rattle.std.specs.Prelude.{◌≡◌};
    ghost use Rattle.expr_parser.specs.declared.descent.Stop.TheVariants as stop;

    ghost from_gives = { λ _ e. e ≡ stop.Memory };

    fn from(_memory: Memory) -> Stop {
        Stop::Memory
    }
}

impl<T: Drop> From<AllocFailed<T>> for Stop {
    ghost use Rattle.std.specs.Prelude.{◌≡◌};
    ghost use Rattle.expr_parser.specs.declared.descent.Stop.TheVariants as stop;

    ghost from_gives = { λ _ e. e ≡ stop.Memory };

    fn from(_error: AllocFailed<T>) -> Stop {
        Stop::Memory
    }
}

/// A field as it was read: its last part, and the parts before that one.
#[derive(Drop)]
struct Words<'t> {
    parts: Texts,
    last: &'t str,
}

/// Reads an expression that is the whole of the text.
pub(crate) fn whole(alloc: Global, reader: &mut Reader<'_>) -> Result<Expr, Stop>
    ensures { Parses reader.old reader.new result }
{
    let expr = expression(alloc, reader)?;
    if !reader.is_at_end() {
        return Err(Stop::Here);
    }
    Ok(expr)
}

// Reads an expression, with white space before it and after it.
#[cycle(descent)]
fn expression(alloc: Global, reader: &mut Reader<'_>) -> Result<Expr, Stop>
    ensures goes { Goes begin (λ e K. done K (form_of e)) reader.old reader.new result }
    ensures past { OnOk result (Fails is_white reader.new) }
    ensures shorter { OnOk result (length reader.new < length reader.old) }
{
    let words = words_of_field(alloc, reader)?;
    match bracket(reader, &words) {
        Some(transform) => call(alloc, reader, transform),
        None => {
            let Words { parts, last } = words;
            Ok(Expr::Field(path_of(alloc, parts, last)?))
        }
    }
}

// Reads a field with white space before it and after it.
fn words_of_field<'t>(alloc: Global, reader: &mut Reader<'t>) -> Result<Words<'t>, Stop>
    ensures goes { Goes begin (λ w K. behind K w.parts w.last.now) reader.old reader.new result }
    ensures past { OnOk result (Fails is_white reader.new) }
    ensures shorter { OnOk result (length reader.new < length reader.old) }
{
    reader.pass_white();
    let mut parts = Texts::new(alloc);
    let mut last = some_part(reader)?;
    while reader.takes('.') {
        parts.push(Text::copy(alloc, last)?)?;
        last = some_part(reader)?;
    }
    reader.pass_white();
    Ok(Words { parts, last })
}

// Reads the characters of a part, of which there must be one.
fn some_part<'t>(reader: &mut Reader<'t>) -> Result<&'t str, Stop>
    ensures { ReadsPart reader.old reader.new result }
{
    let part = reader.part();
    if part.is_empty() {
        return Err(Stop::Here);
    }
    Ok(part)
}

// Passes the bracket after the word of a transform.
fn bracket(reader: &mut Reader<'_>, words: &Words<'_>) -> Option<Transform>
    requires { Fails is_white reader.old }
    ensures goes { MatchOption result
        ((K : Open) → run (behind K words.now.parts words.now.last.now) reader.old
        ≡ run (done K (field (words.now.parts ++ words.now.last.now ∷ []))) reader.new)
        (λ t. (K : Open) → run (behind K words.now.parts words.now.last.now) reader.old
        ≡ run (begin (within t K)) reader.new) }
    ensures shorter { length reader.new ≤ length reader.old }
    ensures none { IfNone result (reader.new ≡ reader.old) }
{
    if !words.parts.is_empty() {
        return None;
    }
    match transform_named(words.last) {
        Some(transform) => {
            if reader.takes('(') {
                Some(transform)
            } else {
                None
            }
        }
        None => None,
    }
}

fn path_of(alloc: Global, parts: Texts, last: &str) -> Result<Path, Memory>
    ensures { IfOk result (λ path. path ≡ parts ++ last.now ∷ []) }
{
    let mut parts = parts;
    parts.push(Text::copy(alloc, last)?)?;
    Ok(Path::of(parts))
}

// Reads what stands in the brackets of a transform, the closing bracket and white space after it.
#[cycle(descent)]
fn call(alloc: Global, reader: &mut Reader<'_>, transform: Transform) -> Result<Expr, Stop>
    ensures goes { Goes (λ K. begin (within transform K))
        (λ e K. done K (form_of e)) reader.old reader.new result }
    ensures past { OnOk result (Fails is_white reader.new) }
    ensures shorter { OnOk result (length reader.new < length reader.old) }
{
    let first = expression(alloc, reader)?;
    let expr = applied(alloc, reader, transform, first)?;
    if !reader.takes(')') {
        return Err(Stop::Here);
    }
    reader.pass_white();
    Ok(expr)
}

// Reads what follows the first argument, up to the closing bracket.
#[cycle(descent)]
fn applied(
    alloc: Global,
    reader: &mut Reader<'_>,
    transform: Transform,
    first: Expr,
) -> Result<Expr, Stop>
    requires { Fails is_white reader.old }
    ensures goes { Goes (λ K. done (within transform K) (form_of first))
        (λ e K. ready K (form_of e)) reader.old reader.new result }
    ensures shorter { OnOk result (length reader.new ≤ length reader.old) }
{
    match transform {
        Transform::Lower => Ok(Expr::Lower(Box::new(alloc, first)?)),
        Transform::SplitWords => Ok(Expr::SplitWords(Box::new(alloc, first)?)),
        Transform::Truth => Ok(Expr::Truth(Box::new(alloc, first)?)),
        Transform::Number => {
            let width = width_behind(reader)?;
            Ok(Expr::Number(Box::new(alloc, first)?, width))
        }
        Transform::Combine => {
            let all = arguments(alloc, reader, first)?;
            Ok(Expr::Combine(all))
        }
    }
}

// Reads the other arguments of `combine`.
#[cycle(descent)]
fn arguments(alloc: Global, reader: &mut Reader<'_>, first: Expr) -> Result<Vec<Expr>, Stop>
    requires { Fails is_white reader.old }
    ensures goes { Goes (λ K. done (within Transform.Combine K) (form_of first))
        (λ all K. ready K (combine (forms_of_all all.items))) reader.old reader.new result }
    ensures shorter { OnOk result (length reader.new ≤ length reader.old) }
{
    let mut all = Vec::new(alloc);
    all.push(first)?;
    while reader.takes(',') {
        let next = expression(alloc, reader)?;
        all.push(next)?;
    }
    Ok(all)
}

// Reads the comma and the width, with white space round it.
fn width_behind(reader: &mut Reader<'_>) -> Result<u8, Stop>
    requires { Fails is_white reader.old }
    ensures goes { (f : Form)
        → Goes (λ K. done (within Transform.Number K) f)
        (λ n K. ready K (number f n)) reader.old reader.new result }
    ensures shorter { OnOk result (length reader.new ≤ length reader.old) }
{
    if !reader.takes(',') {
        return Err(Stop::Here);
    }
    reader.pass_white();
    let mut width = 0;
    while let Some(longer) = reader.digit_behind(width) {
        width = longer;
    }
    if width == 0 {
        return Err(Stop::Here);
    }
    reader.pass_white();
    Ok(width)
}
