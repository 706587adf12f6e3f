//! The stream of documents that two replicas exchange: lines of JSON parted by CR LF, which come in
//! any pieces.
//!
//! A stream says a list of lines: a head, documents, an end. A reader gives the same lines however
//! the stream is cut, names the first line that is not as it must be, and keeps no more than the
//! unfinished line. What is written is read as itself.
#![tactic(auto)]

mod buffer;
mod fault;
mod fields;
mod laws;
mod line;
mod objects;
mod reader;
mod says;
mod scratches;
mod write;

pub use fault::{LineFault, StreamFault};
pub use laws::{
    law_bodies, law_first_fault, law_lengths, law_messages, law_one_reading, law_one_saying,
    law_readers, law_serving, law_streams, law_whole_streams,
};
pub use line::{HeadKind, Line, SyncDoc};
pub use reader::Reader;
pub use write::{write_doc, write_end, write_head};
