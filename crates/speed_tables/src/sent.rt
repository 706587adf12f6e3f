//! Documents on their way.
use conflicts::Member;
use speed_common::{Fault, content_of, done, id_of, trans_of};
use std::alloc::Global;
use sync_stream::{SyncDoc, write_doc};
use u1_base::Position;
use vector_rev::Clock;

/// The document of this number, which is sent after so many others.
pub fn document(alloc: Global, number: u32) -> Result<SyncDoc, Fault> {
    Ok(SyncDoc {
        id: id_of(alloc, number)?,
        member: Member {
            rev: done(Clock::read(alloc, "laptop:1"))?,
            content: Some(content_of(alloc, number)?),
        },
        at: Position {
            generation: u64::from(number) + 1,
            trans: Some(trans_of(alloc, number)?),
        },
    })
}

/// What the document is written as: a comma and CR LF before its line.
pub fn piece_of(alloc: Global, doc: &SyncDoc) -> Result<Vec<u8>, Fault> {
    if doc.at.generation == 0 {
        return Err(Fault::Run);
    }
    Ok(write_doc(alloc, doc)?.into_vec())
}
