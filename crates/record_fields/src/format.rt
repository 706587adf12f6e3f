//! The two formats of bodies.

/// How uids stand in a body.
#[derive(Clone, Copy, PartialEq, Eq)]
pub enum Format {
    /// As their texts. It is read, and never written.
    First,
    /// By their numbers, each with its text where it is named for the first time.
    Second,
}
