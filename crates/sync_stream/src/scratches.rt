//! The memory that is kept from line to line.
use json::Scratch;
use std::alloc::Global;

/// Where texts with escapes are written out: those of a line, and those of the content that it has
/// as a text. Each grows to the longest that was read.
#[derive(Drop)]
pub(crate) struct Scratches {
    pub(crate) line: Scratch<Global>,
    pub(crate) content: Scratch<Global>,
}

impl Scratches {
    pub(crate) fn new(alloc: Global) -> Scratches {
        Scratches {
            line: Scratch::new(alloc),
            content: Scratch::new(alloc),
        }
    }
}
