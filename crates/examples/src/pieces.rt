//! Example: a `Source` of your own, and a content that is read from it.
//!
//! Whatever gives bytes can be a `Source`: a file, a connection, or, as here, a text that arrives
//! in pieces.
ghost use Rattle.std.specs.Prelude.{◌≡◌, ◌≢◌, ◌<◌, IfErr, IfOk, None, Some};
ghost use Rattle.content.specs.Reading.{content_in};

use content::{Content, ContentFault};
use link::{InputFault, ReadFailed, Source, read_at_most};
use std::alloc::Global;
use u1_base::limits::MOST_CONTENT_BYTES;

/// A source that gives a text in pieces of at most so many bytes. No read of it fails.
#[derive(Drop)]
pub struct Pieces<'a> {
    pub left: &'a [u8],
    pub most: usize,
    // A read gives at least one byte until the end, so a piece has at least one.
    pub ghost some: { 0 < most },
}

impl Source for Pieces<'_> {
    ghost use Rattle.std.specs.Prelude.{Some, ⊤};

    // What contracts see of it: the bytes that are left, and that no read failed.
    ghost known = { λ p. record { left = Some p.left.now; faults = 0 } };

    // It is a source and nothing else, so there is nothing that a read has to leave alone.
    ghost read_keeps = { λ _ _. ⊤ };

    fn read(&mut self, into: &mut [u8]) -> Result<usize, ReadFailed> {
        let count = self.left.len().min(into.len()).min(self.most);
        let (piece, left) = self.left.split_at(count);
        into[..count].copy_from_slice(piece);
        self.left = left;
        Ok(count)
    }
}

/// Reads a content from a text that arrives in pieces. However small they are, it is the content of
/// the whole text.
pub fn content_in_pieces(alloc: Global, json: &[u8], most: usize) -> Result<Content, ContentFault>
    requires { 0 < most }
    ensures whole { IfOk result (λ content. content_in json.now ≡ Some content) }
    ensures refused { IfErr result
        (λ fault. fault ≢ ContentFault.Memory → content_in json.now ≡ None) }
{
    let mut pieces = Pieces { left: json, most };
    // One byte more than a content may have, so that a text that is too long is seen to be.
    let limit = MOST_CONTENT_BYTES as usize + 1;
    match read_at_most(alloc, &mut pieces, limit) {
        Ok(bytes) => Content::read(alloc, bytes.as_slice()),
        Err(InputFault::Memory) => Err(ContentFault::Memory),
        // A read fails only if the source counts a fault, and this one never does.
        Err(InputFault::Source) => unreachable!(),
    }
}
