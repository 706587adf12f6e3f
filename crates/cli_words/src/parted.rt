//! The words after the command, parted into operands and options.
ghost use Rattle.std.specs.Prelude.{◌≡◌, IfOk, OnOk, drop};
ghost use Rattle.cli_words.specs.Parted.{Any, after, after_word, is_option, joined, one, parted};
ghost use Rattle.cli_words.specs.Parted.{role_of, unless_option};

use crate::word::Word;
use std::alloc::Global;
use u1_base::{Items, Memory, Text};

/// What the words before it make of the next word.
#[derive(Clone, Copy, PartialEq, Eq)]
pub enum Next {
    /// An operand, an option or `--`.
    Any,
    /// `--limit` stands before it, without a value of its own.
    Value,
    /// `--` stands somewhere before it.
    Operand,
}

/// What a word is.
#[derive(Clone, Copy, PartialEq, Eq)]
pub enum Role {
    Operand,
    /// An option, with a value in the same word or without one.
    Flag,
    /// The value of the option before it.
    Value,
    /// The first `--`.
    Dashes,
}

/// The words after the command by what they are, each list in the order in which they stand.
#[derive(Drop)]
pub struct Parted<'a> {
    pub operands: Items<Word<'a>>,
    pub flags: Items<Word<'a>>,
    pub values: Items<Word<'a>>,
}

/// Parts the words after the directory and the command.
pub fn part<'a>(alloc: Global, words: &'a [Text]) -> Result<Parted<'a>, Memory>
    ensures { IfOk result (λ p. p ≡ parted Any 2 (drop 2 words.entry.now)) }
{
    let mut parted = Parted {
        operands: Items::new(alloc),
        flags: Items::new(alloc),
        values: Items::new(alloc),
    };
    let mut next = Next::Any;
    for place in 2..words.len() {
        let text = words[place].as_str();
        let word = Word::new(place, text);
        add(&mut parted, role_of(next, text), word)?;
        next = after(next, text);
    }
    Ok(parted)
}

// Adds a word by what it is.
fn add<'a>(parted: &mut Parted<'a>, role: Role, word: Word<'a>) -> Result<(), Memory>
    ensures { OnOk result (parted.new ≡ joined parted.old (one role word.entry)) }
{
    match role {
        Role::Operand => parted.operands.push(word),
        Role::Flag => parted.flags.push(word),
        Role::Value => parted.values.push(word),
        Role::Dashes => Ok(()),
    }
}

fn role_of(next: Next, text: &str) -> Role
    ensures { result ≡ role_of next text.now }
{
    match next {
        Next::Operand => Role::Operand,
        Next::Any => unless_option(text, Role::Operand),
        Next::Value => unless_option(text, Role::Value),
    }
}

fn unless_option(text: &str, plain: Role) -> Role
    ensures { result ≡ unless_option text.now plain }
{
    if text == "--" {
        Role::Dashes
    } else if is_option(text) {
        Role::Flag
    } else {
        plain
    }
}

fn after(next: Next, text: &str) -> Next
    ensures { result ≡ after next text.now }
{
    match next {
        Next::Operand => Next::Operand,
        Next::Any => after_word(text),
        Next::Value => after_word(text),
    }
}

fn after_word(text: &str) -> Next
    ensures { result ≡ after_word text.now }
{
    if text == "--" {
        Next::Operand
    } else if text == "--limit" {
        Next::Value
    } else {
        Next::Any
    }
}

fn is_option(text: &str) -> bool
    ensures { result ≡ is_option text.now }
{
    text.len() > 1 && text.as_bytes()[0] == b'-'
}
