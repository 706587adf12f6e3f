//! A connection that a target serves: what is read of it, and a reply that is written.
//!
//! Each function says which bytes of the connection it took, and which it wrote. No replica is here.
#![tactic(auto)]

mod fault;
mod head;
mod piece;
mod put;

pub use fault::PutFault;
pub use head::{Opening, read_head};
pub use piece::{PIECE, read_piece, read_up_to};
pub use put::{flush, put_flushed, put_reply};
