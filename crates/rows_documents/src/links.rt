//! `link`: links, doors and streams in memory. Numbers of failing calls stand with commas between,
//! `-` for none.
//!
//! - `new PIECE FAILING REPLY ..`: a link of these replies, which come in pieces of this size.
//!   `ask FIRST SECOND MANY`: a request in two parts, and so many bytes of its reply. `begin TEXT`:
//!   an ask that is given up later. `asked N`: what the ask of this number sent, and got.
//! - `door FAILING TEXT ..`: a door of connections that have these texts. `serve N`: so many are
//!   served, each by sending its text back. `given N`: what was sent on the one of this number.
//! - `source FAILING TEXT`: a source. `read N`: at most so many bytes of it.
//! - `sink FAILING TEXT ..`: a sink takes these and is flushed twice.
//! - `faults all`: what the faults say of themselves that no row makes.
use crate::callers::{ask, serve_next};
use crate::heads::target;
use crate::meant::{say_bad, say_fault, say_text, say_text_line};
use crate::still::Still;
use link::{InputFault, MemConn, MemSink, MemSource, ReadFailed, Sink, WriteFailed, read_at_most};
use rows::{Said, number_of};
use std::alloc::Global;
use sync_http::Address;
use sync_link::{AskFault, Conns, Link, MemAcceptor, MemLink, Replies};
use u1_base::{Bytes, Numbers};

/// What the rows so far have made.
#[derive(Drop)]
pub(crate) struct Links {
    link: Option<Still>,
    door: Option<MemAcceptor>,
    source: Option<MemSource>,
}

impl Links {
    pub(crate) fn new() -> Links {
        Links {
            link: None,
            door: None,
            source: None,
        }
    }

    pub(crate) fn answer(
        &mut self,
        alloc: Global,
        call: &str,
        row: &str,
        said: &mut Said,
    ) -> Option<()> {
        match call {
            "new" => drop(self.link.replace(new_link(alloc, row)?)),
            "door" => drop(self.door.replace(new_door(alloc, row)?)),
            "source" => drop(self.source.replace(new_source(alloc, row)?)),
            "sink" => return sink(alloc, row, said),
            "faults" => return faults(alloc, said),
            "read" => return read(alloc, self.source.as_mut()?, row, said),
            "serve" | "given" => return door(alloc, self.door.as_mut()?, call, row, said),
            _ => return asked(alloc, self.link.as_mut()?, call, row, said),
        }
        said.line("new").ok()
    }
}

fn numbers(alloc: Global, row: &str) -> Option<Numbers> {
    let mut numbers = Numbers::new(alloc);
    if row == "-" {
        return Some(numbers);
    }
    for number in row.split(',') {
        numbers.push(number_of(number)?).ok()?;
    }
    Some(numbers)
}

fn bytes_of(alloc: Global, text: &str) -> Option<Bytes> {
    let mut bytes = Bytes::new(alloc);
    bytes.extend(text.as_bytes()).ok()?;
    Some(bytes)
}

// ---- links

fn new_link(alloc: Global, row: &str) -> Option<Still> {
    let (piece, row) = row.split_once(' ')?;
    let (failing, row) = row.split_once(' ')?;
    let piece = number_of(piece)?;
    if piece < 1 {
        return None;
    }
    let replies = replies(alloc, row)?;
    let failing = numbers(alloc, failing)?;
    Some(Still {
        inner: MemLink::new(replies, piece, failing),
    })
}

fn replies(alloc: Global, row: &str) -> Option<Replies> {
    let mut replies = Replies::new(alloc);
    for reply in row.split(' ') {
        replies.push(bytes_of(alloc, reply)?).ok()?;
    }
    Some(replies)
}

fn asked(alloc: Global, link: &mut Still, call: &str, row: &str, said: &mut Said) -> Option<()> {
    match call {
        "ask" => ask_over(alloc, link, row, said),
        "begin" => begin(alloc, link, row, said),
        "asked" => say_ask(alloc, &link.inner, number_of(row)?, said),
        _ => None,
    }
}

fn ask_over(alloc: Global, link: &mut Still, row: &str, said: &mut Said) -> Option<()> {
    let (first, row) = row.split_once(' ')?;
    let (second, many) = row.split_once(' ')?;
    let many = number_of(many)? as usize;
    let to = target(alloc)?;
    match ask(alloc, link, &to, first.as_bytes(), second.as_bytes(), many) {
        Ok(reply) => say_text_line(alloc, reply.as_slice(), said),
        Err(fault) => say_bad(alloc, &fault, said),
    }
}

fn begin(alloc: Global, link: &mut Still, row: &str, said: &mut Said) -> Option<()> {
    let to = target(alloc)?;
    link.begin(&to).ok()?;
    link.send(row.as_bytes()).ok()?;
    said.line("begun").ok()
}

fn say_ask(alloc: Global, link: &MemLink, number: u64, said: &mut Said) -> Option<()> {
    let Some(ask) = link.asked(number) else {
        return said.line("none").ok();
    };
    say_text(alloc, ask.sent(), said)?;
    said.word("=>").ok()?;
    say_text_line(alloc, ask.given(), said)
}

// ---- sources and sinks

fn new_source(alloc: Global, row: &str) -> Option<MemSource> {
    let (failing, text) = row.split_once(' ')?;
    let failing = numbers(alloc, failing)?;
    Some(MemSource::new(bytes_of(alloc, text)?, failing))
}

fn read(alloc: Global, source: &mut MemSource, row: &str, said: &mut Said) -> Option<()> {
    match read_at_most(alloc, source, number_of(row)? as usize) {
        Ok(bytes) => say_text_line(alloc, bytes.as_slice(), said),
        Err(fault) => say_bad(alloc, &fault, said),
    }
}

fn sink(alloc: Global, row: &str, said: &mut Said) -> Option<()> {
    let (failing, row) = row.split_once(' ')?;
    let mut sink = MemSink::new(alloc, numbers(alloc, failing)?);
    put_each(alloc, &mut sink, row, said)
}

fn put_each(alloc: Global, sink: &mut MemSink, row: &str, said: &mut Said) -> Option<()> {
    for piece in row.split(' ') {
        say_written(alloc, sink.put(piece.as_bytes()), said)?;
    }
    say_written(alloc, sink.flush(), said)?;
    say_written(alloc, sink.flush(), said)?;
    say_text_line(alloc, sink.bytes(), said)
}

fn say_written(alloc: Global, done: Result<(), WriteFailed>, said: &mut Said) -> Option<()> {
    match done {
        Ok(()) => said.word("done").ok()?,
        Err(fault) => say_fault(alloc, &fault, said)?,
    }
    said.join(";").ok()
}

fn faults(alloc: Global, said: &mut Said) -> Option<()> {
    say_bad(alloc, &AskFault::Memory, said)?;
    say_bad(alloc, &InputFault::Memory, said)?;
    say_bad(alloc, &ReadFailed, said)
}

// ---- doors

fn new_door(alloc: Global, row: &str) -> Option<MemAcceptor> {
    let (failing, row) = row.split_once(' ')?;
    let conns = conns(alloc, row)?;
    let failing = numbers(alloc, failing)?;
    MemAcceptor::new(conns, failing).ok()
}

fn conns(alloc: Global, row: &str) -> Option<Conns> {
    let mut conns = Conns::new(alloc);
    for text in row.split(' ') {
        let source = MemSource::new(bytes_of(alloc, text)?, Numbers::new(alloc));
        let sink = MemSink::new(alloc, Numbers::new(alloc));
        conns.push(MemConn::new(source, sink)).ok()?;
    }
    Some(conns)
}

fn door(
    alloc: Global,
    door: &mut MemAcceptor,
    call: &str,
    row: &str,
    said: &mut Said,
) -> Option<()> {
    let number = number_of(row)?;
    if call == "serve" {
        return serve(alloc, door, number, said);
    }
    match door.given(number) {
        Some(conn) => say_text_line(alloc, conn.sink().bytes(), said),
        None => said.line("none").ok(),
    }
}

fn serve(alloc: Global, door: &mut MemAcceptor, count: u64, said: &mut Said) -> Option<()> {
    for _ in 0..count {
        match serve_next(door, 8080) {
            Ok(true) => said.word("served").ok()?,
            Ok(false) => said.word("closed").ok()?,
            Err(fault) => say_fault(alloc, &fault, said)?,
        }
        said.join(";").ok()?;
    }
    said.end().ok()
}
