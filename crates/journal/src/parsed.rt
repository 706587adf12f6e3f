//! What the readers of an image find.
use crate::Header;

/// A field, or a row of fields, that was read; or the place where none could be; or out of memory.
#[derive(Drop)]
pub enum Parsed<T> {
    Whole(T),
    Broken(usize),
    Memory,
}

/// A header, and its length in bytes.
#[derive(Drop)]
pub struct Start {
    pub format: u8,
    pub header: Header,
    pub length: usize,
}
