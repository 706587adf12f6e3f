//! How many operands a command has, and which option.

/// The option that a command has, if it has one.
#[derive(Clone, Copy, PartialEq, Eq)]
pub enum Allowed {
    Nothing,
    /// `--deleted`, without a value.
    Deleted,
    /// `--limit`, with a value.
    Limit,
}

/// What a command may stand with.
#[derive(Clone, Copy, PartialEq, Eq)]
pub struct Synopsis {
    /// The least number of operands.
    pub least: usize,
    /// The greatest number of operands. None: there is no greatest one.
    pub most: Option<usize>,
    pub option: Allowed,
}
