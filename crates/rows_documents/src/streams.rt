//! `stream`: a stream of documents, in pieces.
//!
//! - `request BYTES`, `reply BYTES`: its lines, and that it is whole, or its fault. It is read as a
//!   whole and in pieces of each smaller size, a long one in pieces of 4,096 bytes and without its
//!   last byte; what is told otherwise then is said too.
//! - `open BYTES`: the lines of a reply that goes on, how many bytes are held, and its fault: of
//!   two calls for a line and of a push.
//! - `written request BYTES`, `written reply BYTES`: how its lines are written, behind the length.
use crate::histories::{say_clock, say_content};
use crate::meant::{say_bad, say_position, say_text_line};
use rows::Said;
use std::alloc::Global;
use sync_stream::{HeadKind, Line, Reader, StreamFault, SyncDoc, write_doc, write_end, write_head};
use u1_base::Bytes;

pub(crate) fn answer(alloc: Global, call: &str, body: &[u8], said: &mut Said) -> Option<()> {
    match call {
        "request" => in_pieces(alloc, HeadKind::Request, body, said),
        "reply" => in_pieces(alloc, HeadKind::Reply, body, said),
        "open" => opened(alloc, body, said),
        "written" => written(alloc, str::from_utf8(body).ok()?, said),
        _ => None,
    }
}

// Longer bodies are not read in pieces of each size.
const SHORT: usize = 2000;

fn in_pieces(alloc: Global, kind: HeadKind, body: &[u8], said: &mut Said) -> Option<()> {
    let whole = told(alloc, kind, body, body.len())?;
    say_whole_and_pieces(alloc, kind, body, whole.as_str(), said)
}

fn say_whole_and_pieces(
    alloc: Global,
    kind: HeadKind,
    body: &[u8],
    whole: &str,
    said: &mut Said,
) -> Option<()> {
    said.lines(whole.strip_prefix("> ")?).ok()?;
    if body.len() > SHORT {
        say_other(alloc, kind, body, 4096, whole, said)?;
        return say_other(alloc, kind, body, body.len() - 1, whole, said);
    }
    for size in 1..body.len() {
        say_other(alloc, kind, body, size, whole, said)?;
    }
    Some(())
}

// What is told of the body in pieces of this size, if it is not the same.
fn say_other(
    alloc: Global,
    kind: HeadKind,
    body: &[u8],
    size: usize,
    whole: &str,
    said: &mut Said,
) -> Option<()> {
    let told = told(alloc, kind, body, size)?;
    if told.as_str() == whole {
        return Some(());
    }
    said.word("in pieces of").ok()?;
    said.number(size as u64).ok()?;
    said.line(told.as_str().trim()).ok()
}

fn told(alloc: Global, kind: HeadKind, body: &[u8], size: usize) -> Option<Said> {
    let mut said = Said::new(alloc);
    let mut reader = Reader::new(alloc, kind);
    let is_told = tell(alloc, &mut reader, body, size, &mut said);
    drop(reader);
    is_told?;
    Some(said)
}

fn tell(
    alloc: Global,
    reader: &mut Reader,
    body: &[u8],
    size: usize,
    said: &mut Said,
) -> Option<()> {
    for piece in body.chunks(size.max(1)) {
        take(alloc, reader, piece, said)?;
    }
    match finish(alloc, reader) {
        Ok(()) => said.line("whole").ok(),
        Err(fault) => say_bad(alloc, &fault, said),
    }
}

// Pushes a piece, and says the lines that are whole then. The reader keeps a fault, which is said
// at the end.
fn take(alloc: Global, reader: &mut Reader, piece: &[u8], said: &mut Said) -> Option<()> {
    if reader.push(piece).is_err() {
        return Some(());
    }
    for _ in 0..piece.len() {
        if !say_next(alloc, reader, said)? {
            break;
        }
    }
    Some(())
}

// Says the next line, if there is one. Whether another one may come.
fn say_next(alloc: Global, reader: &mut Reader, said: &mut Said) -> Option<bool> {
    match reader.next_line(alloc) {
        Ok(Some(line)) => {
            let told = say_line(&line, said);
            drop(line);
            told
        }
        Ok(None) => Some(false),
        Err(_) => Some(false),
    }
}

fn say_line(line: &Line, said: &mut Said) -> Option<bool> {
    match line {
        Line::Head(at) => {
            said.word("head").ok()?;
            say_position(at, said)?;
        }
        Line::Doc(doc) => say_document(doc, said)?,
        Line::End => said.word("end").ok()?,
    }
    said.join(";").ok()?;
    Some(!matches!(line, Line::End))
}

fn say_document(doc: &SyncDoc, said: &mut Said) -> Option<()> {
    said.word(doc.id.as_str()).ok()?;
    say_clock(&doc.member.rev, said)?;
    say_content(&doc.member.content, said)?;
    say_position(&doc.at, said)
}

// Ends the body, of which each whole line was given.
fn finish(alloc: Global, reader: &mut Reader) -> Result<(), StreamFault> {
    match reader.next_line(alloc)? {
        None => reader.finish(alloc),
        Some(line) => {
            let is_end = matches!(&line, Line::End);
            drop(line);
            if is_end {
                reader.finish(alloc)
            } else {
                Err(StreamFault::At(0))
            }
        }
    }
}

fn opened(alloc: Global, body: &[u8], said: &mut Said) -> Option<()> {
    let mut reader = Reader::new(alloc, HeadKind::Reply);
    let told = open(alloc, &mut reader, body, said);
    drop(reader);
    told
}

fn open(alloc: Global, reader: &mut Reader, body: &[u8], said: &mut Said) -> Option<()> {
    take(alloc, reader, body, said)?;
    said.word("held").ok()?;
    said.number(reader.held()).ok()?;
    said.end().ok()?;
    for _ in 0..2 {
        if let Err(fault) = reader.next_line(alloc) {
            say_bad(alloc, &fault, said)?;
        }
    }
    match reader.push(b"~") {
        Ok(()) => Some(()),
        Err(fault) => say_bad(alloc, &fault, said),
    }
}

fn written(alloc: Global, row: &str, said: &mut Said) -> Option<()> {
    let (kind, body) = row.split_once(' ')?;
    let kind = if kind == "request" {
        HeadKind::Request
    } else {
        HeadKind::Reply
    };
    let out = written_again(alloc, kind, body.as_bytes())?;
    said.number(out.len() as u64).ok()?;
    say_text_line(alloc, out.as_slice(), said)
}

fn written_again(alloc: Global, kind: HeadKind, body: &[u8]) -> Option<Bytes> {
    let mut out = Bytes::new(alloc);
    let mut reader = Reader::new(alloc, kind);
    let is_written = write_all(alloc, kind, &mut reader, body, &mut out);
    drop(reader);
    is_written?;
    Some(out)
}

fn write_all(
    alloc: Global,
    kind: HeadKind,
    reader: &mut Reader,
    body: &[u8],
    out: &mut Bytes,
) -> Option<()> {
    reader.push(body).ok()?;
    for _ in 0..body.len() {
        if !write_next(alloc, kind, reader, out)? {
            break;
        }
    }
    Some(())
}

// Writes the next line. Whether another one comes.
fn write_next(alloc: Global, kind: HeadKind, reader: &mut Reader, out: &mut Bytes) -> Option<bool> {
    let line = reader.next_line(alloc).ok()??;
    let written = write_line(alloc, kind, &line, out);
    drop(line);
    written
}

fn write_line(alloc: Global, kind: HeadKind, line: &Line, out: &mut Bytes) -> Option<bool> {
    let piece = match line {
        Line::Head(at) => write_head(alloc, kind, at).ok()?,
        Line::Doc(doc) => write_document(alloc, doc)?,
        Line::End => write_end(alloc).ok()?,
    };
    out.extend(piece.as_slice()).ok()?;
    Some(!matches!(line, Line::End))
}

fn write_document(alloc: Global, doc: &SyncDoc) -> Option<Bytes> {
    if doc.at.generation < 1 {
        return None;
    }
    write_doc(alloc, doc).ok()
}
