//! Commands on documents.
ghost use Rattle.std.specs.Prelude.{◌≤◌, length};
ghost use Rattle.cli_words.specs.Words.{Reads};
ghost use Rattle.cli_words.specs.declared.given.Given.TheVariants as option_is;
ghost use Rattle.cli_words.specs.declared.verb.Verb.TheVariants as verb;

use crate::given::Given;
use crate::operands::{id, operand, revision, revisions};
use crate::word::Word;
use crate::{Command, Edit, Show, WordsFault};
use std::alloc::Global;

pub fn create(alloc: Global, operands: &[Word]) -> Result<Command, WordsFault>
    ensures { Reads verb.Create operands.now option_is.Nothing result }
{
    match operands.first() {
        Some(word) => Ok(Command::Edit(Edit::Create {
            id: Some(id(alloc, word)??),
        })),
        None => Ok(Command::Edit(Edit::Create { id: None })),
    }
}

pub fn get(alloc: Global, operands: &[Word], given: &Given) -> Result<Command, WordsFault>
    requires { 1 ≤ length operands.now }
    ensures { Reads verb.Get operands.now given.now result }
{
    let id = id(alloc, operand(operands, 0))??;
    let deleted = given.is_deleted();
    Ok(Command::Show(Show::Get { id, deleted }))
}

pub fn put(alloc: Global, operands: &[Word]) -> Result<Command, WordsFault>
    requires { 1 ≤ length operands.now }
    ensures { Reads verb.Put operands.now option_is.Nothing result }
{
    let id = id(alloc, operand(operands, 0))??;
    match operands.get(1) {
        Some(word) => Ok(Command::Edit(Edit::Put {
            id,
            rev: Some(revision(alloc, word)??),
        })),
        None => Ok(Command::Edit(Edit::Put { id, rev: None })),
    }
}

pub fn delete(alloc: Global, operands: &[Word]) -> Result<Command, WordsFault>
    requires { 2 ≤ length operands.now }
    ensures { Reads verb.Delete operands.now option_is.Nothing result }
{
    let id = id(alloc, operand(operands, 0))??;
    let rev = revision(alloc, operand(operands, 1))??;
    Ok(Command::Edit(Edit::Delete { id, rev }))
}

pub fn conflicts(alloc: Global, operands: &[Word]) -> Result<Command, WordsFault>
    requires { 1 ≤ length operands.now }
    ensures { Reads verb.Conflicts operands.now option_is.Nothing result }
{
    let id = id(alloc, operand(operands, 0))??;
    Ok(Command::Show(Show::Conflicts { id }))
}

pub fn resolve(alloc: Global, operands: &[Word]) -> Result<Command, WordsFault>
    requires { 1 ≤ length operands.now }
    ensures { Reads verb.Resolve operands.now option_is.Nothing result }
{
    let id = id(alloc, operand(operands, 0))??;
    let revs = revisions(alloc, &operands[1..])??;
    Ok(Command::Edit(Edit::Resolve { id, revs }))
}

pub fn resolve_deleted(alloc: Global, operands: &[Word]) -> Result<Command, WordsFault>
    requires { 1 ≤ length operands.now }
    ensures { Reads verb.ResolveDeleted operands.now option_is.Nothing result }
{
    let id = id(alloc, operand(operands, 0))??;
    let revs = revisions(alloc, &operands[1..])??;
    Ok(Command::Edit(Edit::ResolveDeleted { id, revs }))
}
