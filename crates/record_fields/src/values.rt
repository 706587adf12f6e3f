//! Reading contents and the expressions of an index.
ghost use Rattle.std.specs.Prelude.{◌≤◌, ◌≡◌, IfOk, length, map, true};
ghost use Rattle.std.specs.List.{All};
ghost use Rattle.expr_parser.specs.FormOf.{form_of};
ghost use Rattle.expr_parser.specs.Limits.{most_exprs};
ghost use Rattle.expr_parser.specs.Reading.{IsExpr};
ghost use Rattle.record_fields.specs.Fields.{each};
ghost use Rattle.record_fields.specs.Plain.{content, count, expression, expressions, held};
ghost use Rattle.record_fields.specs.Reading.{Reads, texts_of};
ghost use Rattle.record_fields.specs.inner.Reading.{text_of};

use crate::read::{read_content, read_expression};
use crate::reader::Reader;
use crate::stop::Stop;
use content::Content;
use expr_parser::{Expr, Exprs};
use json::Scratch;
use std::alloc::Global;
use u1_base::limits::MOST_KEY_TEXTS;

impl<'a> Reader<'a> {
    /// A flag, and after a 1 four bytes of length and the canonical text of the content.
    pub fn content(&mut self, scratch: &mut Scratch<Global>) -> Result<Option<Content>, Stop>
        ensures { Reads (λ c. c) (content.read self.old) result self.new }
    {
        if self.flag()? {
            let content = self.held(scratch)?;
            return Ok(Some(content));
        }
        Ok(None)
    }

    fn held(&mut self, scratch: &mut Scratch<Global>) -> Result<Content, Stop>
        ensures { Reads (λ c. c) ((held true).read self.old) result self.new }
    {
        let start = self.left();
        let bytes = self.text()?;
        match read_content(self.alloc, scratch, bytes)? {
            Some(content) => Ok(content),
            None => Err(Stop::Bad(start)),
        }
    }

    /// One to eight expressions after one byte with their number, each by its canonical text.
    pub fn expressions(&mut self) -> Result<Exprs, Stop>
        ensures reads { Reads texts_of (expressions.read self.old) result self.new }
        ensures read { IfOk result (λ es. All IsExpr (map form_of es)) }
        ensures some { IfOk result (λ es. 1 ≤ length es) }
        ensures few { IfOk result (λ es. length es ≤ most_exprs) }
    {
        let count = self.count()?;
        let exprs = self.each_expression(count)?;
        Ok(exprs)
    }

    fn count(&mut self) -> Result<u8, Stop>
        ensures reads { Reads (λ n. n) (count.read self.old) result self.new }
        ensures some { IfOk result (λ n. 1 ≤ n) }
        ensures few { IfOk result (λ n. n ≤ most_exprs) }
    {
        let start = self.left();
        let count = self.byte()?;
        if count < 1 || count as usize > MOST_KEY_TEXTS {
            return Err(Stop::Bad(start));
        }
        Ok(count)
    }

    fn each_expression(&mut self, count: u8) -> Result<Exprs, Stop>
        ensures reads { Reads texts_of ((each expression count).read self.old) result self.new }
        ensures read { IfOk result (λ es. All IsExpr (map form_of es)) }
        ensures length { IfOk result (λ es. length es ≡ count) }
    {
        let mut exprs = Exprs::new(self.alloc);
        for _ in 0..count {
            let expr = self.expression()?;
            exprs.push(expr)?;
        }
        Ok(exprs)
    }

    fn expression(&mut self) -> Result<Expr, Stop>
        ensures reads { Reads text_of (expression.read self.old) result self.new }
        ensures read { IfOk result (λ e. IsExpr (form_of e)) }
    {
        let start = self.left();
        let bytes = self.short_text()?;
        match read_expression(self.alloc, bytes)? {
            Some(expr) => Ok(expr),
            None => Err(Stop::Bad(start)),
        }
    }
}
