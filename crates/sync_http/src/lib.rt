//! What two replicas say to each other over HTTP/1.1 beside the stream of documents: the heads of
//! requests and replies, the small bodies that tell positions, and the address of a database.
//!
//! Heads, bodies and addresses are values: a reader says which value the bytes are, or why they are
//! none. What is written is read as itself.
#![tactic(auto)]

mod address;
mod fault;
mod fields;
mod heads;
mod info;
mod laws;
mod names;
pub mod parts;
mod read;
mod slashes;
mod target;
mod told;
mod write;

pub use address::{Address, AddressFault, read_address};
pub use fault::{BodyFault, WireFault};
pub use heads::{Heard, ReplyHead, RequestHead, Verb};
pub use info::{Info, read_info, write_info};
pub use laws::{law_bodies, law_heads, law_heads_go_on};
pub use read::{read_reply, read_request};
pub use told::{read_kept, read_told, write_told};
pub use write::{write_reply, write_request};
