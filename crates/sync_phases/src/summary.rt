//! What a session comes to that is complete.
use u1_base::ReplicaUid;

/// What a complete session did. Where nothing was new on either side, nothing was sent and nothing
/// taken.
#[derive(Drop)]
pub struct Summary {
    pub target: ReplicaUid,
    /// How many documents were sent.
    pub sent: u64,
    /// How many of those that came back changed something here: each that was inserted, and each in
    /// conflict that was accepted.
    pub taken: u64,
    /// The generation up to which the target's log is known.
    pub known: u64,
    /// The target was told where this replica's log ends.
    pub recorded: bool,
}
