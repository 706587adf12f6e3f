//! A link that tells its peer.
use sync_http::Address;
use sync_link::{AskFault, Link, MemLink};

/// A link in memory whose peer is an empty replica that no request changes.
#[derive(Drop)]
pub(crate) struct Still {
    pub inner: MemLink,
}

impl Link for Still {
    ghost use Rattle.std.specs.Prelude.{◌≡◌, [], Some};
    ghost use Rattle.conflicts.specs.State.{state_of};
    ghost use Rattle.sync_link.specs.Memory.{link_known};

    ghost known = { λ l. record (link_known l.inner) { peer = Some (state_of [] [] []) } };

    ghost serves = { λ _ p _ _ q. q ≡ p };

    ghost stops = { λ _ p _ q. q ≡ p };

    fn begin(&mut self, to: &Address) -> Result<(), AskFault> {
        self.inner.begin(to)
    }

    fn send(&mut self, piece: &[u8]) -> Result<(), AskFault> {
        self.inner.send(piece)
    }

    fn finish(&mut self) -> Result<(), AskFault> {
        self.inner.finish()
    }

    fn receive(&mut self, into: &mut [u8]) -> Result<usize, AskFault> {
        self.inner.receive(into)
    }
}
