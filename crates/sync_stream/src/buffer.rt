//! The bytes of the unfinished line, and what was pushed after it.
ghost use Rattle.std.specs.Prelude.{◌≡◌, [], ◌++◌, ◌≤◌, length, drop, OnOk, OnErr, MatchOption};
ghost use Rattle.key_lanes.specs.Breaks.{IsBreak, NoBreak};

use key_lanes::find_break;
use std::alloc::Global;
use std::marker::Model;
use u1_base::Memory;

/// The bytes that were pushed and not yet skipped.
#[derive(Drop)]
pub(crate) struct Buffer {
    bytes: Vec<u8>,
    start: usize,
    // no CR LF stands from `start` up to this place
    seen: usize,
}

impl Model for Buffer {
    ghost use Rattle.std.specs.Prelude.{List, drop, ℕ};
    ghost use Rattle.sync_stream.specs.Seen.{IsSeen};

    ghost Value = { List ℕ };

    ghost view = { λ b. drop b.start b.bytes.items };

    ghost invariant = { λ b. IsSeen b.bytes.items b.start b.seen };
}

impl Buffer {
    pub(crate) fn new(alloc: Global) -> Buffer
        ensures { result ≡ [] }
    {
        Buffer {
            bytes: Vec::new(alloc),
            start: 0,
            seen: 0,
        }
    }

    pub(crate) fn len(&self) -> usize
        ensures { result ≡ length self.now }
    {
        self.bytes.len() - self.start
    }

    pub(crate) fn rest(&self) -> &[u8]
        ensures { result.now ≡ self.now }
    {
        &self.bytes[self.start..]
    }

    /// Adds bytes at the end.
    pub(crate) fn push(&mut self, piece: &[u8]) -> Result<(), Memory>
        ensures ok { OnOk result (self.new ≡ self.old ++ piece.now) }
        ensures err { OnErr result (self.new ≡ self.old) }
    {
        self.forget_skipped();
        self.bytes.extend_from_slice(piece)?;
        Ok(())
    }

    // Moves the bytes to the front of the memory.
    fn forget_skipped(&mut self)
        ensures { self.new ≡ self.old }
    {
        if self.start > 0 {
            forget(&mut self.bytes, self.start);
            self.seen -= self.start;
            self.start = 0;
        }
    }

    /// The place of the first CR LF.
    pub(crate) fn first_break(&mut self) -> Option<usize>
        ensures same { self.new ≡ self.old }
        ensures found { MatchOption result (NoBreak self.old 0 (length self.old))
            (λ p. IsBreak self.old p × NoBreak self.old 0 p) }
    {
        match find_break(&self.bytes, self.seen) {
            Some(at) => {
                self.seen = at;
                Some(at - self.start)
            }
            None => {
                if self.bytes.len() > self.seen {
                    self.seen = self.bytes.len() - 1;
                }
                None
            }
        }
    }

    /// Drops so many bytes from the front.
    pub(crate) fn skip(&mut self, count: usize)
        requires { count ≤ length self.old }
        ensures { self.new ≡ drop count self.old }
    {
        self.start += count;
        self.seen = self.start;
    }
}

// Drops the first bytes of a list.
fn forget(bytes: &mut Vec<u8>, count: usize)
    requires { count ≤ length bytes.old.items }
    ensures { bytes.new.items ≡ drop count bytes.old.items }
{
    let left = bytes.len() - count;
    bytes.copy_within(count.., 0);
    bytes.truncate(left);
}
