//! Commands on the store as a whole.
ghost use Rattle.std.specs.Prelude.{◌≡◌, ◌≤◌, IfOk, length};
ghost use Rattle.cli_words.specs.Table.{first_refused, limit, names};
ghost use Rattle.cli_words.specs.Words.{Reads};
ghost use Rattle.cli_words.specs.declared.given.Given.TheVariants as option_is;
ghost use Rattle.cli_words.specs.declared.verb.Verb.TheVariants as verb;

use crate::fault::Refused;
use crate::given::Given;
use crate::limits::MOST_WORKLOAD;
use crate::operands::{id, number, operand};
use crate::word::Word;
use crate::{Command, Show, WordsFault};
use std::alloc::Global;
use u1_base::limits::{GREATEST_COUNT, GREATEST_IMAGE_LIMIT, LEAST_IMAGE_LIMIT};
use u1_base::{DbName, Memory, ReplicaUid};

pub fn init(alloc: Global, operands: &[Word], given: &Given) -> Result<Command, WordsFault>
    requires { 1 ≤ length operands.now }
    ensures { Reads verb.Init operands.now given.now result }
{
    let limit = limit(given);
    match names(alloc, operands)? {
        Ok((name, uid)) => Ok(Command::Init {
            name,
            uid,
            limit: limit?,
        }),
        Err(refused) => Err(WordsFault::from(first_refused(refused, limit))),
    }
}

type Names = (DbName, Option<ReplicaUid>);

fn names(alloc: Global, operands: &[Word]) -> Result<Result<Names, Refused>, Memory>
    requires { 1 ≤ length operands.now }
    ensures { IfOk result (λ found. found ≡ names operands.now) }
{
    let name = match id(alloc, operand(operands, 0))? {
        Ok(name) => name,
        Err(refused) => return Ok(Err(refused)),
    };
    let Some(word) = operands.get(1) else {
        return Ok(Ok((name, None)));
    };
    match id(alloc, word)? {
        Ok(uid) => Ok(Ok((name, Some(uid)))),
        Err(refused) => Ok(Err(refused)),
    }
}

fn limit(given: &Given) -> Result<Option<u64>, Refused>
    ensures { result ≡ limit given.now }
{
    match given.limit() {
        Some(word) => Ok(Some(number(word, LEAST_IMAGE_LIMIT, GREATEST_IMAGE_LIMIT)?)),
        None => Ok(None),
    }
}

// Of the operand and the option that are refused the one that stands first.
fn first_refused(refused: Refused, limit: Result<Option<u64>, Refused>) -> Refused
    ensures { result ≡ first_refused refused limit }
{
    match limit {
        Ok(_) => refused,
        Err(other) => Refused {
            place: refused.place.min(other.place),
        },
    }
}

pub fn changes(operands: &[Word]) -> Result<Command, WordsFault>
    requires { 1 ≤ length operands.now }
    ensures { Reads verb.Changes operands.now option_is.Nothing result }
{
    let after = number(operand(operands, 0), 0, GREATEST_COUNT)?;
    Ok(Command::Show(Show::Changes { after }))
}

pub fn work(operands: &[Word]) -> Result<Command, WordsFault>
    requires { 2 ≤ length operands.now }
    ensures { Reads verb.Work operands.now option_is.Nothing result }
{
    let seed = number(operand(operands, 0), 0, u64::MAX)?;
    let count = number(operand(operands, 1), 0, MOST_WORKLOAD)?;
    Ok(Command::Work { seed, count })
}
