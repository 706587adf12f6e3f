//! Whether a command has the right number of operands, and its option a value: clap decides it.
ghost use Rattle.std.specs.Prelude.{◌≡◌, ◌≤◌, ◌++◌, IfOk, IfSome, true, codes, length, map};
ghost use Rattle.std.specs.Prelude.{option_map, string_bytes};
ghost use Rattle.clap.specs.Faults.{fault_of};
ghost use Rattle.clap.specs.Kinds.{FailsBy, Kinds};
ghost use Rattle.clap.specs.Words.{app_of};
ghost use Rattle.cli_words.specs.inner.Form.{HasNoGlobals, IsForm, asked, bare, form, has_no_kind};
ghost use Rattle.cli_words.specs.inner.Form.{option_text, with_option};
ghost use Rattle.cli_words.specs.Given.{allows};
ghost use Rattle.cli_words.specs.Words.{fits};

use crate::given::Given;
use crate::synopsis::{Allowed, Synopsis};
use crate::word::Word;
use clap::error::ErrorKind;
use clap::{Arg, ArgAction, ArgMatches, Command, Error};
use std::alloc::{AllocError, Global};
use u1_base::Memory;

/// Whether a command may stand with this option and these operands.
pub fn fits(
    alloc: Global,
    synopsis: Synopsis,
    given: &Given,
    operands: &[Word],
) -> Result<bool, Memory>
    requires allowed { allows synopsis.option given.now ≡ true }
    requires ordered { IfSome synopsis.most (λ most. synopsis.least ≤ most) }
    ensures { IfOk result (λ b. b ≡ fits synopsis given.now (length operands.now)) }
{
    let text = option_text(alloc, given)?;
    match text {
        Some(option) => {
            let words = words_of(alloc, Some(option.as_str()), operands)?;
            passes(alloc, synopsis, words.as_slice())
        }
        None => {
            let words = words_of(alloc, None, operands)?;
            passes(alloc, synopsis, words.as_slice())
        }
    }
}

// The option as one word.
fn option_text(alloc: Global, given: &Given) -> Result<Option<String>, Memory>
    ensures { IfOk result (λ text. option_map string_bytes text ≡ option_text given.now) }
{
    match given {
        Given::Nothing => Ok(None),
        Given::Deleted => Ok(Some(String::from_str(alloc, "--deleted")?)),
        Given::Limit(None) => Ok(Some(String::from_str(alloc, "--limit")?)),
        Given::Limit(Some(value)) => Ok(Some(limit_text(alloc, value.text())?)),
    }
}

fn limit_text(alloc: Global, value: &str) -> Result<String, Memory>
    ensures { IfOk result (λ text. string_bytes text ≡ codes "--limit=" ++ value.now) }
{
    let mut text = String::from_str(alloc, "--limit=")?;
    text.push_str(value)?;
    Ok(text)
}

// The words by which clap is asked.
fn words_of<'w, 'a>(
    alloc: Global,
    option: Option<&'w str>,
    operands: &'w [Word<'a>],
) -> Result<Vec<&'w str>, Memory>
    ensures words { IfOk result (λ words. map (λ s. s.now) words.items
        ≡ asked (option_map (λ s. s.now) option.entry) operands.entry.now) }
    ensures few { length operands.entry.now ≤ usize.MAX }
{
    let mut words = Vec::with_capacity(alloc, operands.len())?;
    if let Some(option) = option {
        words.push(option)?;
    }
    words.push("--")?;
    for operand in operands {
        words.push(operand.text())?;
    }
    Ok(words)
}

// Whether clap finds no fault in the words.
fn passes<'w>(alloc: Global, synopsis: Synopsis, words: &'w [&'w str]) -> Result<bool, Memory>
    ensures { IfOk result (λ b. b
        ≡ has_no_kind (fault_of (form synopsis) (map (λ s. s.now) words.entry.now))) }
{
    let command = command(alloc, synopsis)?;
    let answer = command.try_get_matches_from(words);
    verdict(&answer)
}

// Whether clap's answer tells no fault.
fn verdict(answer: &Result<ArgMatches, Error>) -> Result<bool, Memory>
    ensures { IfOk result (λ b. (kinds : Kinds) → FailsBy kinds answer.now
        → b ≡ has_no_kind kinds) }
{
    match answer {
        Ok(_) => Ok(true),
        Err(error) => match error.kind() {
            ErrorKind::OutOfMemory => Err(Memory),
            _ => Ok(false),
        },
    }
}

// The command as clap parses it: all operands are the values of one argument, and the option is
// another one.
fn command<'w>(alloc: Global, synopsis: Synopsis) -> Result<Command<'w>, AllocError>
    ensures { IfOk result (λ c. IsForm c (form synopsis)) }
{
    let most = synopsis.most.unwrap_or(usize::MAX);
    let operands = Arg::new(alloc, "operands")
        .required(synopsis.least > 0)
        .num_args(synopsis.least..=most)
        .action(ArgAction::Set);
    let command = bare(alloc).arg(operands)?;
    with_option(alloc, command, synopsis.option)
}

fn bare<'w>(alloc: Global) -> Command<'w>
    ensures { IsForm result bare }
{
    Command::new(alloc, "command")
        .no_binary_name(true)
        .disable_help_flag(true)
        .disable_version_flag(true)
}

fn with_option<'w>(
    alloc: Global,
    command: Command<'w>,
    option: Allowed,
) -> Result<Command<'w>, AllocError>
    requires { HasNoGlobals command }
    ensures { IfOk result (λ c. IsForm c (with_option option (app_of command.entry))) }
{
    match option {
        Allowed::Nothing => Ok(command),
        Allowed::Deleted => {
            let deleted = Arg::new(alloc, "deleted")
                .long("deleted")
                .action(ArgAction::SetTrue);
            command.arg(deleted)
        }
        Allowed::Limit => {
            let limit = Arg::new(alloc, "limit")
                .long("limit")
                .action(ArgAction::Set);
            command.arg(limit)
        }
    }
}
