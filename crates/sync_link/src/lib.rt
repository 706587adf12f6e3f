//! Links and doors: how a replica asks another one, and how connections come to a server.
//!
//! A link carries asks, each a request with its reply. A door gives connections and takes them
//! back. Each may tell what it holds; a socket does not. A call fails only if the object's count of
//! faults rose.
#![tactic(auto)]

mod asking;
mod doing;
mod door;
mod laws;
mod memory_ask;
mod memory_door;
mod memory_link;
mod rest;

pub use asking::{AskFault, Link, Phase};
pub use door::{AcceptFailed, Acceptor};
pub use laws::{law_lost_replies, law_memory_peers, law_refusals};
pub use memory_ask::{Carried, MemAsk};
pub use memory_door::{Conns, MemAcceptor};
pub use memory_link::{MemLink, Replies};
