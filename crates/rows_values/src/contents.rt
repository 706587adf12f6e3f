//! Contents: read, written and compared.
use crate::{Asked, say_fault};
use content::Content;
use rows::{Said, bytes_of_hex};
use u1_base::{Memory, Text};

const MOST_PRINTED: usize = 400;

/// Answers the calls of contents, and tells whether it is one of them.
pub(crate) fn answer(asked: &Asked<'_>, said: &mut Said) -> Result<bool, Memory> {
    match (asked.call, asked.arguments) {
        ("content", _) => say_content(asked.text.as_bytes(), MOST_PRINTED, said)?,
        ("canonical", _) => say_content(asked.text.as_bytes(), 0, said)?,
        ("content-of-bytes", _) => match bytes_of_hex(said.alloc(), asked.text)? {
            Some(bytes) => say_content(bytes.as_slice(), MOST_PRINTED, said)?,
            None => said.line("no bytes")?,
        },
        ("same", [one, other]) => say_same(one, other, said)?,
        _ => return Ok(false),
    }
    Ok(true)
}

// The canonical text, or the fault. A text of more bytes than so many is not printed where it is as
// it was given.
fn say_content(bytes: &[u8], most: usize, said: &mut Said) -> Result<(), Memory> {
    match Content::read(said.alloc(), bytes) {
        Ok(content) => {
            let text = content.as_str();
            if text.len() > most && text.as_bytes() == bytes {
                return said.line("as it stands");
            }
            said.line(text)
        }
        Err(fault) => say_fault(fault, said),
    }
}

// Whether the first content and a copy of it are the same as the second.
fn say_same(one: &Text, other: &Text, said: &mut Said) -> Result<(), Memory> {
    let alloc = said.alloc();
    let one = Content::read(alloc, one.as_str().as_bytes());
    match (one, Content::read(alloc, other.as_str().as_bytes())) {
        (Ok(one), Ok(other)) => {
            let copy = one.copy()?;
            said.word(is_same(&one, &other))?;
            said.word(is_same(&copy, &other))?;
            said.end()
        }
        _ => said.line("no content"),
    }
}

fn is_same(one: &Content, other: &Content) -> &'static str {
    if one.same(other) { "same" } else { "other" }
}
