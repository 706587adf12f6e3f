//! The asks that a link over TCP carried, of which no byte is kept.
ghost use Rattle.std.specs.Prelude.{◌≡◌, ◌++◌, [], ℕ, None, Some, IfOk, OnErr, OnOk, take};
ghost use Rattle.sync_link.specs.Links.{and_given, and_sent, carried};

use crate::traced::Traced;
use std::alloc::Global;
use std::marker::Model;
use sync_http::Address;
use u1_base::Memory;

/// An ask: to whom it went, and its bytes, which contracts alone see.
#[derive(Drop)]
pub(crate) struct TracedAsk {
    to: Address,
    sent: Traced,
    given: Traced,
}

impl Model for TracedAsk {
    ghost use Rattle.sync_link.specs.Links.{Ask};

    ghost Value = { Ask };

    ghost view = { λ a. record { to = a.to; sent = a.sent; given = a.given } };
}

fn ask_to(alloc: Global, to: &Address) -> Result<TracedAsk, Memory>
    ensures { IfOk result (λ ask. ask ≡ record { to = to.now; sent = []; given = [] }) }
{
    Ok(TracedAsk {
        to: Address {
            host: to.host.duplicate()?,
            port: to.port,
            db: to.db.copy()?,
        },
        sent: Traced::new(alloc),
        given: Traced::new(alloc),
    })
}

/// The asks that a link carried, in order.
#[derive(Drop)]
pub(crate) struct TracedAsks {
    earlier: Vec<TracedAsk>,
    last: Option<TracedAsk>,
}

impl Model for TracedAsks {
    ghost use Rattle.sync_link.specs.Links.{CarriedAsks};

    ghost Value = { CarriedAsks };

    ghost view = { λ c. record { earlier = c.earlier.items; last = c.last } };
}

impl TracedAsks {
    pub(crate) fn new(alloc: Global) -> TracedAsks
        ensures { result ≡ record { earlier = []; last = None } }
    {
        TracedAsks {
            earlier: Vec::new(alloc),
            last: None,
        }
    }

    /// One ask more, of which nothing was sent.
    pub(crate) fn begin(&mut self, to: &Address) -> Result<(), Memory>
        ensures ok { OnOk result (self.new ≡ record {
          earlier = carried self.old;
          last = Some (record { to = to.now; sent = []; given = [] });
        }) }
        ensures err { OnErr result (self.new ≡ self.old) }
    {
        let ask = ask_to(*self.earlier.allocator(), to)?;
        self.put_last(ask)
    }

    // The ask is the last one from now on; the former last one joins the earlier ones.
    fn put_last(&mut self, ask: TracedAsk) -> Result<(), Memory>
        ensures ok { OnOk result (self.new
            ≡ record { earlier = carried self.old; last = Some ask }) }
        ensures err { OnErr result (self.new ≡ self.old) }
    {
        self.earlier.reserve(1)?;
        if let Some(before) = self.last.replace(ask) {
            let _ = self.earlier.push(before);
        }
        Ok(())
    }

    /// The last ask sent this too. At an error a front of it counts as sent.
    pub(crate) fn send(&mut self, piece: &[u8]) -> Result<(), Memory>
        ensures ok { OnOk result
            (self.new ≡ record self.old { last = and_sent piece.now self.old.last }) }
        ensures err { OnErr result ((k : ℕ)
            × (self.new ≡ record self.old { last = and_sent (take k piece.now) self.old.last })) }
    {
        if let Some(ask) = &mut self.last {
            ask.sent.note(piece)?;
        }
        Ok(())
    }

    /// The last ask was given this too. At an error the asks are as they were.
    pub(crate) fn give(&mut self, piece: &[u8]) -> Result<(), Memory>
        ensures ok { OnOk result
            (self.new ≡ record self.old { last = and_given piece.now self.old.last }) }
        ensures err { OnErr result (self.new ≡ self.old) }
    {
        if let Some(ask) = &mut self.last {
            ask.given.note_all(piece)?;
        }
        Ok(())
    }
}
