//! The expressions of an index.
ghost use Rattle.std.specs.Prelude.{◌≤◌, IsTrue, length, map};
ghost use Rattle.std.specs.List.{list_all};
ghost use Rattle.expr_parser.specs.FormOf.{form_of};
ghost use Rattle.expr_parser.specs.Limits.{most_exprs};
ghost use Rattle.replica_state.specs.Exprs.{is_read};

use expr_parser::{Expr, Exprs};
use std::marker::Model;

/// One to eight expressions, each of which some text reads as, seen as their canonical texts.
#[derive(Drop)]
pub struct IndexExprs {
    exprs: Exprs,
    ghost read: { IsTrue (list_all is_read (map form_of exprs)) },
    ghost some: { 1 ≤ length (map form_of exprs) },
    ghost few: { length (map form_of exprs) ≤ most_exprs },
}

impl Model for IndexExprs {
    ghost use Rattle.std.specs.Prelude.{map};
    ghost use Rattle.expr_parser.specs.FormOf.{form_of};
    ghost use Rattle.replica_state.specs.Exprs.{IndexTexts, texts_code, texts_of};

    ghost Value = { IndexTexts };

    ghost coded = { texts_code };

    ghost view = { λ s. texts_of (map form_of s.exprs) s.read s.some s.few };
}

impl IndexExprs {
    ghost use Rattle.std.specs.Prelude.{◌≡◌, ◌≤◌, length, map};
    ghost use Rattle.std.specs.List.{All};
    ghost use Rattle.expr_parser.specs.Canonical.{canonical};
    ghost use Rattle.expr_parser.specs.FormOf.{form_of};
    ghost use Rattle.expr_parser.specs.Limits.{most_exprs};
    ghost use Rattle.expr_parser.specs.Reading.{IsExpr, forms_in};

    /// The expressions of an index. The condition is that there are one to eight, each of which was
    /// read.
    pub fn of(exprs: Exprs) -> IndexExprs
        requires read { All IsExpr (map form_of exprs) }
        requires some { 1 ≤ length exprs }
        requires few { length exprs ≤ most_exprs }
        ensures { result.texts ≡ map canonical (map form_of exprs) }
    {
        IndexExprs { exprs }
    }

    pub fn exprs(&self) -> &Exprs
        ensures forms { map form_of result.now ≡ forms_in self.now.texts }
        ensures count { length result.now ≡ length self.now.texts }
        ensures some { 1 ≤ length result.now }
        ensures few { length result.now ≤ most_exprs }
    {
        &self.exprs
    }

    pub fn as_slice(&self) -> &[Expr]
        ensures forms { map form_of result.now ≡ forms_in self.now.texts }
        ensures count { length result.now ≡ length self.now.texts }
        ensures some { 1 ≤ length result.now }
        ensures few { length result.now ≤ most_exprs }
    {
        self.exprs().as_slice()
    }
}
