//! Commands that meet other replicas and clients.
ghost use Rattle.std.specs.Prelude.{◌≤◌, length};
ghost use Rattle.cli_words.specs.Words.{Reads};
ghost use Rattle.cli_words.specs.declared.given.Given.TheVariants as option_is;
ghost use Rattle.cli_words.specs.declared.verb.Verb.TheVariants as verb;

use crate::limits::{MOST_BETWEEN, MOST_CONNECTIONS, MOST_ROUNDS};
use crate::operands::{address, number, operand, port};
use crate::word::Word;
use crate::{Command, Online, WordsFault};
use std::alloc::Global;

pub fn sync(alloc: Global, operands: &[Word]) -> Result<Command, WordsFault>
    requires { 1 ≤ length operands.now }
    ensures { Reads verb.Sync operands.now option_is.Nothing result }
{
    let with = address(alloc, operand(operands, 0))??;
    Ok(Command::Online(Online::Sync { with }))
}

pub fn serve(operands: &[Word]) -> Result<Command, WordsFault>
    requires { 2 ≤ length operands.now }
    ensures { Reads verb.Serve operands.now option_is.Nothing result }
{
    let port = port(operand(operands, 0))?;
    let count = number(operand(operands, 1), 1, MOST_CONNECTIONS)?;
    Ok(Command::Online(Online::Serve { port, count }))
}

pub fn serve_docs(operands: &[Word]) -> Result<Command, WordsFault>
    requires { 2 ≤ length operands.now }
    ensures { Reads verb.ServeDocs operands.now option_is.Nothing result }
{
    let port = port(operand(operands, 0))?;
    let count = number(operand(operands, 1), 1, MOST_CONNECTIONS)?;
    Ok(Command::Online(Online::ServeDocs { port, count }))
}

pub fn node(alloc: Global, operands: &[Word]) -> Result<Command, WordsFault>
    requires { 4 ≤ length operands.now }
    ensures { Reads verb.Node operands.now option_is.Nothing result }
{
    let port = port(operand(operands, 0))?;
    let with = address(alloc, operand(operands, 1))??;
    let rounds = number(operand(operands, 2), 1, MOST_ROUNDS)?;
    let between = number(operand(operands, 3), 0, MOST_BETWEEN)?;
    Ok(Command::Online(Online::Node {
        port,
        with,
        rounds,
        between,
    }))
}
