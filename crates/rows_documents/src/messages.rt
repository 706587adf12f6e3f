//! `message`: the small bodies that tell positions.
//!
//! - `told BODY`: the position that a body tells, and how that is written.
//! - `info BODY`: what a target says of itself and of its source, and how that is written.
//! - `kept BODY`: whether a reply says that the told position is kept.
use crate::meant::{say_bad, say_position, say_text_line};
use rows::Said;
use std::alloc::Global;
use sync_http::{Info, read_info, read_kept, read_told, write_info, write_told};
use u1_base::{Bytes, Position};

pub(crate) fn answer(alloc: Global, call: &str, body: &[u8], said: &mut Said) -> Option<()> {
    match call {
        "told" => match read_told(alloc, body) {
            Ok(at) => say_told(alloc, &at, said),
            Err(fault) => say_bad(alloc, &fault, said),
        },
        "info" => match read_info(alloc, body) {
            Ok(info) => say_info(alloc, &info, said),
            Err(fault) => say_bad(alloc, &fault, said),
        },
        "kept" => match read_kept(alloc, body) {
            Ok(()) => say_kept(said),
            Err(fault) => say_bad(alloc, &fault, said),
        },
        _ => None,
    }
}

fn say_kept(said: &mut Said) -> Option<()> {
    said.word("kept").ok()?;
    said.end().ok()
}

fn say_told(alloc: Global, at: &Position, said: &mut Said) -> Option<()> {
    say_position(at, said)?;
    say_written(alloc, &write_told(alloc, at).ok()?, said)
}

fn say_info(alloc: Global, info: &Info, said: &mut Said) -> Option<()> {
    said.word(info.target.as_str()).ok()?;
    say_position(&info.target_at, said)?;
    said.word(info.source.as_str()).ok()?;
    say_position(&info.source_at, said)?;
    say_written(alloc, &write_info(alloc, info).ok()?, said)
}

// How a body is written, behind its length.
fn say_written(alloc: Global, body: &Bytes, said: &mut Said) -> Option<()> {
    said.end().ok()?;
    said.number(body.len() as u64).ok()?;
    say_text_line(alloc, body.as_slice(), said)
}
