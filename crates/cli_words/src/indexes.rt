//! Commands on indexes and views, and queries.
ghost use Rattle.std.specs.Prelude.{◌≤◌, length};
ghost use Rattle.cli_words.specs.Words.{Reads};
ghost use Rattle.cli_words.specs.declared.given.Given.TheVariants as option_is;
ghost use Rattle.cli_words.specs.declared.verb.Verb.TheVariants as verb;

use crate::operands::{end, id, operand, texts};
use crate::word::Word;
use crate::{Command, Edit, Show, View, WordsFault};
use std::alloc::Global;

pub fn index_create(alloc: Global, operands: &[Word]) -> Result<Command, WordsFault>
    requires { 1 ≤ length operands.now }
    ensures { Reads verb.IndexCreate operands.now option_is.Nothing result }
{
    let name = id(alloc, operand(operands, 0))??;
    let exprs = texts(alloc, &operands[1..])?;
    Ok(Command::Edit(Edit::IndexCreate { name, exprs }))
}

pub fn index_delete(alloc: Global, operands: &[Word]) -> Result<Command, WordsFault>
    requires { 1 ≤ length operands.now }
    ensures { Reads verb.IndexDelete operands.now option_is.Nothing result }
{
    let name = id(alloc, operand(operands, 0))??;
    Ok(Command::Edit(Edit::IndexDelete { name }))
}

pub fn query(alloc: Global, operands: &[Word]) -> Result<Command, WordsFault>
    requires { 1 ≤ length operands.now }
    ensures { Reads verb.Query operands.now option_is.Nothing result }
{
    let name = id(alloc, operand(operands, 0))??;
    let values = texts(alloc, &operands[1..])?;
    Ok(Command::Show(Show::Query { name, values }))
}

pub fn range(alloc: Global, operands: &[Word]) -> Result<Command, WordsFault>
    requires { 3 ≤ length operands.now }
    ensures { Reads verb.Range operands.now option_is.Nothing result }
{
    let name = id(alloc, operand(operands, 0))??;
    let start = end(alloc, operand(operands, 1))??;
    let end = end(alloc, operand(operands, 2))??;
    Ok(Command::Show(Show::Range { name, start, end }))
}

pub fn keys(alloc: Global, operands: &[Word]) -> Result<Command, WordsFault>
    requires { 1 ≤ length operands.now }
    ensures { Reads verb.Keys operands.now option_is.Nothing result }
{
    let name = id(alloc, operand(operands, 0))??;
    Ok(Command::Show(Show::Keys { name }))
}

pub fn view_create(alloc: Global, operands: &[Word]) -> Result<Command, WordsFault>
    requires { 2 ≤ length operands.now }
    ensures { Reads verb.ViewCreate operands.now option_is.Nothing result }
{
    let name = id(alloc, operand(operands, 0))??;
    let index = id(alloc, operand(operands, 1))??;
    let values = texts(alloc, &operands[2..])?;
    Ok(Command::View(View::Create {
        name,
        index,
        values,
    }))
}

pub fn view_show(alloc: Global, operands: &[Word]) -> Result<Command, WordsFault>
    requires { 1 ≤ length operands.now }
    ensures { Reads verb.ViewShow operands.now option_is.Nothing result }
{
    let name = id(alloc, operand(operands, 0))??;
    Ok(Command::View(View::Show { name }))
}

pub fn view_delete(alloc: Global, operands: &[Word]) -> Result<Command, WordsFault>
    requires { 1 ≤ length operands.now }
    ensures { Reads verb.ViewDelete operands.now option_is.Nothing result }
{
    let name = id(alloc, operand(operands, 0))??;
    Ok(Command::View(View::Delete { name }))
}
