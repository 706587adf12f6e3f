//! What the lines of a stream say.
use conflicts::Member;
use u1_base::{DocId, Position};

/// Which head a stream has.
#[derive(Clone, Copy, PartialEq, Eq)]
pub enum HeadKind {
    /// That of a request: up to where the source knows the target's log.
    Request,
    /// That of a reply: where the target's log ends.
    Reply,
}

/// A document on its way.
#[derive(Drop)]
pub struct SyncDoc {
    pub id: DocId,
    pub member: Member,
    /// Where the sender's log has this revision; its generation is at least 1.
    pub at: Position,
}

/// What a line says.
#[derive(Drop)]
pub enum Line {
    Head(Position),
    Doc(SyncDoc),
    /// The stream is over.
    End,
}

/// Which line comes next.
#[derive(Clone, Copy, PartialEq, Eq)]
pub enum Next {
    /// The line `[`.
    Opening,
    /// The head.
    Heading,
    /// A document, if a comma stood at the end of the line before; else the line `]`.
    After(bool),
    /// None: the line `]` was passed.
    Closed,
}

/// What one whole line says, and which line comes after it.
#[derive(Drop)]
pub struct Passed {
    pub line: Option<Line>,
    pub place: Next,
}
