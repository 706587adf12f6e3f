//! Reading the heads of requests, beside `httparse` alone.
use httparse::Status;
use httparse::spans::{EMPTY_HEADER_SPAN, parse_request};
use speed_common::{Fault, Workload};
use std::alloc::{AllocError, Global};
use sync_http::{Heard, read_request};

// As many fields as a head may have.
const FIELDS: usize = 64;

/// So many heads of POSTs, as a source writes them. The result is the length of all of them.
#[derive(Drop)]
pub struct Heads {
    heads: Vec<String>,
}

impl Workload for Heads {
    fn make(alloc: Global, size: u32) -> Result<Heads, Fault> {
        let mut heads = Vec::new(alloc);
        for number in 0..size {
            heads.push(head_of(alloc, number)?)?;
        }
        Ok(Heads { heads })
    }

    fn ours(&mut self, alloc: Global) -> Result<u64, Fault> {
        let mut total = 0u64;
        for head in &self.heads {
            match read_request(alloc, head.as_bytes()) {
                Ok(Heard::Head { head: _, length }) => total = total.saturating_add(length),
                _ => return Err(Fault::Run),
            }
        }
        Ok(total)
    }

    fn peer(&mut self, _alloc: Global) -> Result<u64, Fault> {
        let mut total = 0u64;
        for head in &self.heads {
            let mut fields = [EMPTY_HEADER_SPAN; FIELDS];
            match parse_request(head.as_bytes(), &mut fields) {
                Ok(Status::Complete(spans)) => total = total.saturating_add(spans.len as u64),
                _ => return Err(Fault::Run),
            }
        }
        Ok(total)
    }
}

fn head_of(alloc: Global, number: u32) -> Result<String, AllocError> {
    format!(in alloc;
        "POST /notes/sync-from/R-{number:032x} HTTP/1.1\r\n\
        Host: localhost:8080\r\n\
        Connection: close\r\n\
        Content-Type: application/x-u1db-sync-stream\r\n\
        Content-Length: {number}\r\n\r\n"
    )
}
