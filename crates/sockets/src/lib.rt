//! Links, doors and connections over TCP.
//!
//! They tell nothing of what the peer says: a call is said to fail only where it counted a fault,
//! and what a socket does between two calls is trusted.
#![tactic(auto)]

mod asking;
mod asks;
mod conn;
mod door;
mod streams;
#[cfg(test)]
mod tests;
mod traced;

pub use crate::asking::TcpLink;
pub use crate::conn::TcpConn;
pub use crate::door::TcpAcceptor;
