//! The words of the command line.
use crate::commands::say_command;
use crate::runs::Runs;
use crate::{Asked, say_fault};
use cli_words::{operands_shown, read_words};
use rows::Said;
use std::alloc::Global;
use u1_base::{Memory, Text, Texts};

/// Answers the calls of words, and tells whether it is one of them.
pub(crate) fn answer(asked: &Asked<'_>, said: &mut Said) -> Result<bool, Memory> {
    match (asked.call, asked.arguments) {
        ("words", list) => say_words(list, said)?,
        ("line", _) => {
            let words = words_with(said.alloc(), asked.text, "@")?;
            say_words(words.as_slice(), said)?;
        }
        ("with", [line, list @ ..]) => say_with(line, list, said)?,
        ("operands", _) => match operands_shown(asked.text) {
            Some(shown) => said.quoted(shown).and_then(|_| said.end())?,
            None => said.line("none")?,
        },
        _ => return Ok(false),
    }
    Ok(true)
}

fn say_words(words: &[Text], said: &mut Said) -> Result<(), Memory> {
    match read_words(said.alloc(), words) {
        Ok(command) => say_command(&command, said),
        Err(fault) => say_fault(fault, said),
    }
}

// A line with each of the words for its word `@`, or for the `@` at the end of one.
fn say_with(line: &Text, list: &[Text], said: &mut Said) -> Result<(), Memory> {
    let mut runs = Runs::new(said.alloc());
    for word in list {
        let words = words_with(said.alloc(), line.as_str(), word.as_str())?;
        say_words(words.as_slice(), runs.next())?;
        runs.take(said)?;
    }
    runs.end(said)
}

// The words of the line, which blanks part.
fn words_with(alloc: Global, line: &str, given: &str) -> Result<Texts, Memory> {
    let mut words = Texts::new(alloc);
    for word in line.split(' ') {
        match word.strip_suffix('@') {
            Some(front) => words.push(joined(alloc, front, given)?)?,
            None => words.push(Text::copy(alloc, word)?)?,
        }
    }
    Ok(words)
}

fn joined(alloc: Global, front: &str, end: &str) -> Result<Text, Memory> {
    let mut text = String::from_str(alloc, front)?;
    text.push_str(end)?;
    Text::from_string(text)
}
