//! The rows of the low libraries: ids, clocks, logs, contents, expressions, and the words of the
//! command line. A line `? CALL ..` asks one call; docs/testing.md says how a row is written.
//!
//! `<TEXT` at the end of a line, or else its last word, is the text that the call reads. A fault is
//! printed as it says itself.
#![tactic(auto)]

mod clocks;
mod commands;
mod contents;
mod expressions;
mod ids;
mod logs;
mod runs;
mod words;

use crate::runs::Runs;
use rows::{Answers, Parts, Said, parts_of, run};
use std::fmt::Display;
use std::process::ExitCode;
use translog::Log;
use u1_base::{Memory, Text};

fn main(rt: HostRuntime) -> ExitCode {
    let mut values = Values {
        log: Log::new(rt.alloc()),
    };
    run(&rt, &mut values)
}

// What rows hold on to.
#[derive(Drop)]
struct Values {
    log: Log,
}

impl Answers for Values {
    fn answer(&mut self, line: &str, said: &mut Said) -> Result<(), Memory> {
        let parts = parts_of(said.alloc(), line)?;
        self.answer_words(parts.words.as_slice(), text_of(&parts), said)
    }
}

// The input of a line, or else its last word.
fn text_of(parts: &Parts) -> &str {
    match &parts.input {
        Some(input) => input.as_str(),
        None => last_of(parts.words.as_slice()),
    }
}

fn last_of(words: &[Text]) -> &str {
    match words.last() {
        Some(word) => word.as_str(),
        None => "",
    }
}

impl Values {
    fn answer_words(&mut self, words: &[Text], text: &str, said: &mut Said) -> Result<(), Memory> {
        match words {
            [mark, call, arguments @ ..] if mark.as_str() == "?" => {
                let asked = Asked {
                    call: call.as_str(),
                    arguments,
                    text,
                };
                if asked.call == "log" {
                    self.log = logs::log_of(said.alloc(), arguments)?;
                }
                answer_or_each(&self.log, &asked, said)
            }
            _ => said.line("no question"),
        }
    }
}

// A question: the call, the words behind it, and the text that it reads.
#[derive(Clone, Copy)]
pub(crate) struct Asked<'a> {
    pub(crate) call: &'a str,
    pub(crate) arguments: &'a [Text],
    pub(crate) text: &'a str,
}

// `? each CALL WORD ..` asks the call of each word.
fn answer_or_each(log: &Log, asked: &Asked<'_>, said: &mut Said) -> Result<(), Memory> {
    match asked.arguments {
        [call, list @ ..] if asked.call == "each" => answer_each(log, call.as_str(), list, said),
        _ => answer_one(log, asked, said),
    }
}

fn answer_each(log: &Log, call: &str, list: &[Text], said: &mut Said) -> Result<(), Memory> {
    let mut runs = Runs::new(said.alloc());
    for word in list {
        let asked = Asked {
            call,
            arguments: &[],
            text: word.as_str(),
        };
        answer_one(log, &asked, runs.next())?;
        runs.take(said)?;
    }
    runs.end(said)
}

fn answer_one(log: &Log, asked: &Asked<'_>, said: &mut Said) -> Result<(), Memory> {
    let is_known = ids::answer(asked, said)?
        || clocks::answer(asked, said)?
        || logs::answer(log, asked, said)?
        || contents::answer(asked, said)?
        || expressions::answer(asked, said)?
        || words::answer(asked, said)?;
    if is_known {
        return Ok(());
    }
    said.line("no such call")
}

pub(crate) fn say_fault<E: Display + Drop>(fault: E, said: &mut Said) -> Result<(), Memory> {
    let text = format!(in said.alloc(); "{fault}")?;
    said.line(text.as_str())
}
