//! Writing documents as the lines of a stream, beside `serde_json`'s writing of the same values.
use crate::sent::{document, piece_of};
use serde_json::Value;
use speed_common::{Fault, Workload, done};
use std::alloc::Global;
use sync_stream::SyncDoc;

/// So many documents. The result is the length of all that is written.
#[derive(Drop)]
pub struct Stream {
    docs: Vec<SyncDoc>,
    values: Vec<Value>,
}

impl Workload for Stream {
    fn make(alloc: Global, size: u32) -> Result<Stream, Fault> {
        let mut stream = Stream {
            docs: Vec::new(alloc),
            values: Vec::new(alloc),
        };
        for number in 0..size {
            stream.add(alloc, document(alloc, number)?)?;
        }
        Ok(stream)
    }

    fn ours(&mut self, alloc: Global) -> Result<u64, Fault> {
        let mut length = 0u64;
        for doc in &self.docs {
            length = length.saturating_add(piece_of(alloc, doc)?.len() as u64);
        }
        Ok(length)
    }

    // Without the comma and CR LF before each document.
    fn peer(&mut self, alloc: Global) -> Result<u64, Fault> {
        let mut length = 0u64;
        for value in &self.values {
            let piece = done(value.to_vec(alloc))?;
            length = length.saturating_add(piece.len() as u64).saturating_add(3);
        }
        Ok(length)
    }
}

impl Stream {
    fn add(&mut self, alloc: Global, doc: SyncDoc) -> Result<(), Fault> {
        let piece = piece_of(alloc, &doc)?;
        let line = piece.as_slice().get(3..).unwrap_or(b"");
        self.values.push(done(Value::from_slice(alloc, line))?)?;
        self.docs.push(doc)?;
        Ok(())
    }
}
