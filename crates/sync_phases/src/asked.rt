//! What the info of a target leads to.
use crate::Summary;

/// What the info of a target leads to. `S` is the session that goes on.
#[derive(Drop)]
pub enum Asked<S> {
    /// Nothing is new on either side: the session is complete.
    Level(Summary),
    /// Documents are to be exchanged.
    Send(S),
}
