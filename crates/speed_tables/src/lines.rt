//! Reading a stream of documents in pieces, beside `serde_json`'s reading of each line alone.
use crate::sent::{document, piece_of};
use serde_json::Value;
use speed_common::{Fault, Workload, done};
use std::alloc::Global;
use sync_stream::{HeadKind, Line, Reader, write_end, write_head};
use u1_base::Position;

// How many bytes come at a time.
const PIECE: usize = 65_536;

/// The stream of a request with so many documents. The result is how many were read.
#[derive(Drop)]
pub struct Lines {
    text: Vec<u8>,
}

impl Workload for Lines {
    fn make(alloc: Global, size: u32) -> Result<Lines, Fault> {
        let mut text = write_head(alloc, HeadKind::Request, &Position::start())?.into_vec();
        for number in 0..size {
            let doc = document(alloc, number)?;
            text.extend_from_slice(piece_of(alloc, &doc)?.as_slice())?;
        }
        text.extend_from_slice(write_end(alloc)?.as_slice())?;
        Ok(Lines { text })
    }

    fn ours(&mut self, alloc: Global) -> Result<u64, Fault> {
        let mut reader = Reader::new(alloc, HeadKind::Request);
        let mut documents = 0u64;
        for piece in self.text.as_slice().chunks(PIECE) {
            done(reader.push(piece))?;
            documents = documents.saturating_add(documents_given(alloc, &mut reader, piece.len())?);
        }
        match reader.next_line(alloc) {
            Ok(Some(Line::End)) => Ok(documents),
            _ => Err(Fault::Run),
        }
    }

    // The objects among the lines, each read as a value where it stands; the first one is the head.
    fn peer(&mut self, alloc: Global) -> Result<u64, Fault> {
        let mut objects = 0u64;
        let mut rest = self.text.as_slice();
        for _ in 0..rest.len() {
            let Some((line, behind)) = plain_line(rest) else {
                break;
            };
            rest = behind;
            if line.len() < 2 {
                continue;
            }
            match Value::from_slice(alloc, line.strip_suffix(b",").unwrap_or(line)) {
                Ok(Value::Object(_)) => objects = objects.saturating_add(1),
                _ => return Err(Fault::Run),
            }
        }
        Ok(objects.saturating_sub(1))
    }
}

// How many documents the reader gives of the pushed bytes, of which there are at most so many.
fn documents_given(alloc: Global, reader: &mut Reader, most: usize) -> Result<u64, Fault> {
    let mut documents = 0u64;
    for _ in 0..most {
        match done(reader.next_line(alloc))? {
            Some(Line::Head(_)) => {}
            Some(Line::Doc(_)) => documents = documents.saturating_add(1),
            Some(Line::End) => break,
            None => break,
        }
    }
    Ok(documents)
}

// The first line and what is after it.
fn plain_line(bytes: &[u8]) -> Option<(&[u8], &[u8])> {
    for place in 1..bytes.len() {
        if bytes[place] == b'\n' && bytes[place - 1] == b'\r' {
            return Some((&bytes[..place - 1], &bytes[place + 1..]));
        }
    }
    None
}
