//! The heads of requests and replies, as values.
use u1_base::{DbName, ReplicaUid};

/// What a request asks for.
#[derive(Clone, Copy, PartialEq, Eq)]
pub enum Verb {
    /// The target's positions.
    Get,
    /// The source tells its position.
    Put,
    /// Documents are exchanged.
    Post,
}

/// A request of the replica `source` to the database `db`.
#[derive(Drop)]
pub struct RequestHead {
    pub verb: Verb,
    pub db: DbName,
    pub source: ReplicaUid,
    /// How many bytes of body follow; 0 for GET.
    pub body: u64,
}

/// The head of a reply.
#[derive(Clone, Copy, PartialEq, Eq)]
pub struct ReplyHead {
    /// As RFC 9110 numbers them.
    pub status: u16,
    /// How many bytes of body follow.
    pub body: u64,
}

/// What the first bytes of a connection are.
#[derive(Drop)]
pub enum Heard<T> {
    /// More bytes are needed.
    NotYet,
    /// A whole head, which takes `length` bytes.
    Head { head: T, length: u64 },
}
