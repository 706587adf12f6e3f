//! Expressions.
ghost use Rattle.std.specs.Prelude.{◌<◌, ◌≤◌, MatchBool, length};
ghost use Rattle.expr_parser.specs.Limits.{longest};

use crate::copy::copied;
use crate::descent::{Stop, whole};
use crate::reader::Reader;
use crate::same::same;
use crate::spell::spell;
use crate::{ParseFault, Path};
use std::alloc::Global;
use u1_base::limits::MOST_EXPRESSION_BYTES;
use u1_base::{Items, Memory, Text};

/// An index expression: a field, or a transform of what other expressions give (U1DB's index
/// expressions).
#[derive(Drop)]
pub enum Expr {
    Field(Path),
    /// `lower(..)`
    Lower(Box<Expr>),
    /// `split_words(..)`
    SplitWords(Box<Expr>),
    /// `number(.., width)`, the width from 1 to 128.
    Number(Box<Expr>, u8),
    /// `bool(..)`
    Truth(Box<Expr>),
    /// `combine(.., ..)`, one argument or more.
    Combine(Vec<Expr>),
}

/// A list of expressions.
pub type Exprs = Items<Expr>;

impl Expr {
    ghost use Rattle.std.specs.Prelude.{◌≡◌, ◌≢◌, ◌↔◌, IsTrue, IfOk, IfErr, Some, None};
    ghost use Rattle.expr_parser.specs.FormOf.{form_of};
    ghost use Rattle.expr_parser.specs.Faults.{ReadsExpr};
    ghost use Rattle.expr_parser.specs.Canonical.{canonical, IsShortest};
    ghost use Rattle.expr_parser.specs.Reading.{IsExpr, expr_in};

    /// Reads an expression from the whole of the text, which has at most `MOST_EXPRESSION_BYTES`.
    ///
    /// `At` carries the length in bytes of the longest front of the text that some expression
    /// begins with.
    pub fn read(alloc: Global, text: &str) -> Result<Expr, ParseFault>
        ensures reads { IfOk result (λ e. expr_in text.now ≡ Some (form_of e)) }
        ensures expr { IfOk result (λ e. IsExpr (form_of e)) }
        ensures refused { IfErr result
            (λ fault. fault ≢ ParseFault.Memory → expr_in text.now ≡ None) }
        ensures grammar { ReadsExpr text.now result }
    {
        if is_too_long(text) {
            return Err(ParseFault::TooLong);
        }
        let mut reader = Reader::new(text);
        match whole(alloc, &mut reader) {
            Ok(expr) => Ok(expr),
            Err(Stop::Here) => Err(ParseFault::At((text.len() - reader.left()) as u64)),
            Err(Stop::Memory) => Err(ParseFault::Memory),
        }
    }

    /// The spelling without white space.
    ///
    /// It is read as this expression, if this one was read or copied from one that was, and is
    /// never longer than what was read for it.
    pub fn text(&self, alloc: Global) -> Result<Text, Memory>
        ensures value { IfOk result (λ t. t ≡ canonical (form_of self.now)) }
        ensures shortest { IfOk result (λ t. IsShortest (form_of self.now) t) }
        ensures reads_back { IfOk result
            (λ t. IsExpr (form_of self.now) → expr_in t ≡ Some (form_of self.now)) }
    {
        let mut spelling = String::new(alloc);
        spell(self, &mut spelling)?;
        let text = Text::from_string(spelling)?;
        Ok(text)
    }

    /// Whether the two are one expression. Takes no memory.
    pub fn same(&self, other: &Expr) -> bool
        ensures { IsTrue result ↔ (form_of self.now ≡ form_of other.now) }
    {
        same(self, other)
    }

    pub fn copy(&self, alloc: Global) -> Result<Expr, Memory>
        ensures { IfOk result (λ e. form_of e ≡ form_of self.now) }
    {
        copied(alloc, self)
    }
}

fn is_too_long(text: &str) -> bool
    ensures { MatchBool result (longest < length text.now) (length text.now ≤ longest) }
{
    text.len() > MOST_EXPRESSION_BYTES
}
