//! The session of a source, on values: what it asks, what it makes of what comes back, which steps
//! it makes, and how it ends.
//!
//! The calls of a session and the laws on many replicas cite these definitions; no byte is in them.
//! The crate has the types that a session answers, and laws; it runs nothing.
#![tactic(auto)]

mod asked;
mod fault;
mod laws;
mod summary;

pub use asked::Asked;
pub use fault::SyncFault;
pub use laws::{law_replies, law_taking, law_worked};
pub use summary::Summary;
