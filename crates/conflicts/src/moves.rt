//! What a replica keeps of each peer, and how it moves.
ghost use Rattle.std.specs.Prelude.{◌≡◌, IfOk};

use u1_base::{Memory, Position, ReplicaUid};

/// Which of the two positions that are kept of a peer.
#[derive(Clone, Copy, PartialEq, Eq)]
pub enum PosTable {
    /// The place up to which this replica knows the peer's log.
    Known,
    /// The place in the peer's own log up to which the peer has told this replica of it.
    Told,
}

/// A position of a peer, and the place to which it is moved.
#[derive(Drop)]
pub struct Move {
    pub table: PosTable,
    pub uid: ReplicaUid,
    pub at: Position,
}

impl Move {
    pub fn copy(&self) -> Result<Move, Memory>
        ensures { IfOk result (λ m. m ≡ self.now) }
    {
        Ok(Move {
            table: self.table,
            uid: self.uid.copy()?,
            at: self.at.copy()?,
        })
    }
}
