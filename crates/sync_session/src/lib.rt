//! A session of a source: it asks its target for its info, settles how far the target's log is
//! known once documents were exchanged, and tells how far the target has this replica's log. The
//! exchange itself is not here yet.
//!
//! Each phase is a call of its own, between which other calls may change the replica, over any
//! replica and any link. Its contract is the definition of `sync_phases`, of the state that the
//! call finds and of the bytes that the link handed back.
#![tactic(auto)]

mod asking;
mod finishing;
mod session;
mod settling;

pub use session::{Asking, Recording, Sending, Taking};
pub use sync_phases::{Asked, Summary, SyncFault};
