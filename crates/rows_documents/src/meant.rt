//! What the words of a row mean.
//!
//! `~` stands for CR LF, and `^` with the sign behind it for what a row cannot show, or what many
//! rows have. `^N(TEXT)` is N times the text; where it has `##`, that is the number of the turn.
use rows::{Said, bytes_of_hex, number_of};
use std::alloc::Global;
use std::fmt;
use u1_base::{Bytes, Position};

// The head and two documents of a reply, and the names of the members of heads.
const MARKS: &[(&str, &str)] = &[
    ("h", r#"{"new_generation":2,"new_transaction_id":"T-2"}"#),
    (
        "d",
        r#"{"content":null,"gen":1,"id":"d1","rev":"a:1","trans_id":"T-1"}"#,
    ),
    (
        "e",
        r#"{"content":"{}","gen":2,"id":"d2","rev":"a:1|b:2","trans_id":"T-2"}"#,
    ),
    ("g", r#""new_generation""#),
    ("i", r#""new_transaction_id""#),
    ("k", r#""last_known_generation""#),
    ("l", r#""last_known_trans_id""#),
    ("s", " "),
    ("t", "\t"),
    ("n", "\n"),
    ("r", "\r"),
];

/// The bytes that the words of a row mean.
pub(crate) fn meant(alloc: Global, row: &str) -> Option<Bytes> {
    let mut bytes = Bytes::new(alloc);
    let mut is_marked = false;
    for piece in row.split('^') {
        if is_marked {
            push_marked(alloc, &mut bytes, piece)?;
        } else {
            push_plain(&mut bytes, piece)?;
        }
        is_marked = true;
    }
    Some(bytes)
}

fn push_plain(bytes: &mut Bytes, text: &str) -> Option<()> {
    let mut is_later = false;
    for line in text.split('~') {
        if is_later {
            bytes.extend(b"\r\n").ok()?;
        }
        bytes.extend(line.as_bytes()).ok()?;
        is_later = true;
    }
    Some(())
}

// A piece behind a `^`. The byte 255 is no text.
fn push_marked(alloc: Global, bytes: &mut Bytes, piece: &str) -> Option<()> {
    for (mark, text) in MARKS {
        if let Some(rest) = piece.strip_prefix(*mark) {
            bytes.extend(text.as_bytes()).ok()?;
            return push_plain(bytes, rest);
        }
    }
    if let Some(rest) = piece.strip_prefix("f") {
        bytes.push(255).ok()?;
        return push_plain(bytes, rest);
    }
    let (count, rest) = piece.split_once('(')?;
    let (text, rest) = rest.split_once(')')?;
    push_times(alloc, bytes, number_of(count)?, text)?;
    push_plain(bytes, rest)
}

fn push_times(alloc: Global, bytes: &mut Bytes, count: u64, text: &str) -> Option<()> {
    match text.split_once("##") {
        Some((front, rest)) => push_numbered(alloc, bytes, count, front, rest),
        None => push_same(alloc, bytes, count, text),
    }
}

fn push_same(alloc: Global, bytes: &mut Bytes, count: u64, text: &str) -> Option<()> {
    let mut once = Bytes::new(alloc);
    push_plain(&mut once, text)?;
    for _ in 0..count {
        bytes.extend(once.as_slice()).ok()?;
    }
    Some(())
}

fn push_numbered(
    alloc: Global,
    bytes: &mut Bytes,
    count: u64,
    front: &str,
    rest: &str,
) -> Option<()> {
    for turn in 0..count {
        let text = format!(in alloc; "{front}{turn:02}{rest}").ok()?;
        push_plain(bytes, text.as_str())?;
    }
    Some(())
}

/// The bytes of words of base 16; a word behind `'` is a text.
pub(crate) fn hex(alloc: Global, row: &str) -> Option<Bytes> {
    let mut bytes = Bytes::new(alloc);
    for word in row.split(' ') {
        match word.strip_prefix('\'') {
            Some(text) => bytes.extend(text.as_bytes()).ok()?,
            None => {
                let piece = bytes_of_hex(alloc, word).ok()??;
                bytes.extend(piece.as_slice()).ok()?;
            }
        }
    }
    Some(bytes)
}

/// Adds the text of the bytes, in which `~` stands for CR LF; `-` where there are none.
pub(crate) fn say_text(alloc: Global, bytes: &[u8], said: &mut Said) -> Option<()> {
    if bytes.is_empty() {
        return said.word("-").ok();
    }
    let text = String::from_str(alloc, str::from_utf8(bytes).ok()?).ok()?;
    said.word(text.replace(alloc, "\r\n", "~").ok()?.as_str())
        .ok()
}

/// The same as an answer.
pub(crate) fn say_text_line(alloc: Global, bytes: &[u8], said: &mut Said) -> Option<()> {
    say_text(alloc, bytes, said)?;
    said.end().ok()
}

/// Adds what a fault says of itself.
pub(crate) fn say_fault<F: fmt::Display>(alloc: Global, fault: &F, said: &mut Said) -> Option<()> {
    said.word(format!(in alloc; "{fault}").ok()?.as_str()).ok()
}

/// Answers what a fault says of itself.
pub(crate) fn say_bad<F: fmt::Display>(alloc: Global, fault: &F, said: &mut Said) -> Option<()> {
    say_fault(alloc, fault, said)?;
    said.end().ok()
}

/// Adds a position as `GENERATION TRANSACTION`.
pub(crate) fn say_position(at: &Position, said: &mut Said) -> Option<()> {
    said.number(at.generation).ok()?;
    match &at.trans {
        Some(trans) => said.word(trans.as_str()).ok(),
        None => said.word("-").ok(),
    }
}
