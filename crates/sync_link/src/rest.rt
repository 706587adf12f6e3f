//! The rest of a reply.
ghost use Rattle.std.specs.Prelude.{◌≡◌, drop};

use std::marker::Model;
use u1_base::Bytes;

/// Bytes that are given piece by piece, seen as those that are left.
#[derive(Drop)]
pub(crate) struct Rest {
    bytes: Bytes,
    at: usize,
}

impl Model for Rest {
    ghost use Rattle.std.specs.Prelude.{◌≤◌, List, ℕ, drop, length};

    ghost Value = { List ℕ };

    ghost view = { λ r. drop r.at r.bytes };

    ghost invariant = { λ r. r.at ≤ length r.bytes };
}

impl Rest {
    pub(crate) fn new(bytes: Bytes) -> Rest
        ensures { result ≡ bytes }
    {
        Rest { bytes, at: 0 }
    }

    pub(crate) fn as_slice(&self) -> &[u8]
        ensures { result.now ≡ self.now }
    {
        let (_, rest) = self.bytes.as_slice().split_at(self.at);
        rest
    }

    /// So many of the first bytes are gone.
    pub(crate) fn pass(&mut self, count: usize)
        ensures { self.new ≡ drop count self.old }
    {
        self.at = self.at.saturating_add(count).min(self.bytes.len());
    }
}
