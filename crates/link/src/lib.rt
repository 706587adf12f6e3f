//! What the product reads from and writes to: sources, sinks, and connections that are both.
//!
//! A source tells, or does not tell, which bytes it has left; a sink which bytes it has taken. Each
//! counts its faults, and a call fails only where the count of its object rose.
#![tactic(auto)]

mod adapters;
mod calls;
mod conn;
mod input;
mod memory;
mod sink;
mod source;

pub use adapters::{StdSink, StdSource};
pub use conn::Conn;
pub use input::{InputFault, read_at_most};
pub use memory::{MemConn, MemSink, MemSource};
pub use sink::{Sink, WriteFailed};
pub use source::{ReadFailed, Source};
