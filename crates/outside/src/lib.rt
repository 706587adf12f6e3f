//! The objects outside of a run, as one value: what it reads from and prints to, the link by which
//! it asks a peer, and the door by which connections come to it.
//!
//! The caller owns it and lends it. What contracts know of it is one record, `OutsideKnown`.
#![tactic(auto)]

mod peers;

use link::{Sink, Source};
pub use peers::NoDoor;
use sync_link::{Acceptor, Link};

/// The objects outside.
#[derive(Drop)]
pub struct Outside<S: Source, K: Sink, L: Link, A: Acceptor> {
    pub input: S,
    pub out: K,
    pub link: L,
    pub door: A,
}
