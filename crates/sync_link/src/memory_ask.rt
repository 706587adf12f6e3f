//! The asks that a link carried, kept in memory.
ghost use Rattle.std.specs.Prelude.{◌≡◌, ◌∷◌, ◌++◌, [], IfOk, None, Some, OnErr, OnOk};
ghost use Rattle.std.specs.Prelude.{length, option_copied, slice_get};
ghost use Rattle.std.specs.Option.{option_to_list};
ghost use Rattle.sync_link.specs.Links.{and_given, and_sent, carried};

use std::alloc::Global;
use std::marker::Model;
use sync_http::Address;
use u1_base::{Bytes, Memory};

/// An ask that a link carried.
#[derive(Drop)]
pub struct MemAsk {
    to: Address,
    sent: Bytes,
    given: Bytes,
}

impl Model for MemAsk {
    ghost use Rattle.sync_link.specs.Links.{Ask};

    ghost Value = { Ask };

    ghost view = { λ a. record { to = a.to; sent = a.sent; given = a.given } };
}

impl MemAsk {
    /// An ask of which nothing was sent.
    pub fn new(alloc: Global, to: &Address) -> Result<MemAsk, Memory>
        ensures { IfOk result (λ ask. ask ≡ record { to = to.now; sent = []; given = [] }) }
    {
        Ok(MemAsk {
            to: Address {
                host: to.host.duplicate()?,
                port: to.port,
                db: to.db.copy()?,
            },
            sent: Bytes::new(alloc),
            given: Bytes::new(alloc),
        })
    }

    pub fn to(&self) -> &Address
        ensures { result.now ≡ self.now.to }
    {
        &self.to
    }

    /// The bytes of the request that were handed on.
    pub fn sent(&self) -> &[u8]
        ensures { result.now ≡ self.now.sent }
    {
        self.sent.as_slice()
    }

    /// The bytes of the reply that were handed back.
    pub fn given(&self) -> &[u8]
        ensures { result.now ≡ self.now.given }
    {
        self.given.as_slice()
    }
}

/// The asks that a link carried, in order. A link that records them keeps one of these.
#[derive(Drop)]
pub struct Carried {
    earlier: Vec<MemAsk>,
    last: Option<MemAsk>,
}

impl Model for Carried {
    ghost use Rattle.sync_link.specs.Links.{CarriedAsks};

    ghost Value = { CarriedAsks };

    ghost view = { λ c. record { earlier = c.earlier.items; last = c.last } };
}

impl Carried {
    /// None yet.
    pub fn new(alloc: Global) -> Carried
        ensures { result ≡ record { earlier = []; last = None } }
    {
        Carried {
            earlier: Vec::new(alloc),
            last: None,
        }
    }

    /// One ask more, of which nothing was sent.
    pub fn begin(&mut self, to: &Address) -> Result<(), Memory>
        ensures ok { OnOk result (self.new ≡ record {
          earlier = carried self.old;
          last = Some (record { to = to.now; sent = []; given = [] });
        }) }
        ensures err { OnErr result (self.new ≡ self.old) }
    {
        let ask = MemAsk::new(*self.earlier.allocator(), to)?;
        self.put_last(ask)
    }

    // The ask is the last one from now on; the former last one joins the earlier ones.
    fn put_last(&mut self, ask: MemAsk) -> Result<(), Memory>
        ensures ok { OnOk result (self.new
            ≡ record { earlier = carried self.old; last = Some ask }) }
        ensures err { OnErr result (self.new ≡ self.old) }
    {
        self.earlier.reserve(1)?;
        if let Some(before) = self.last.replace(ask) {
            let _ = self.earlier.push(before);
        }
        Ok(())
    }

    /// The last ask sent this too.
    pub fn send(&mut self, piece: &[u8]) -> Result<(), Memory>
        ensures ok { OnOk result
            (self.new ≡ record self.old { last = and_sent piece.now self.old.last }) }
        ensures err { OnErr result (self.new ≡ self.old) }
    {
        if let Some(ask) = &mut self.last {
            ask.sent.extend(piece)?;
        }
        Ok(())
    }

    /// The last ask was given this too.
    pub fn give(&mut self, piece: &[u8]) -> Result<(), Memory>
        ensures ok { OnOk result
            (self.new ≡ record self.old { last = and_given piece.now self.old.last }) }
        ensures err { OnErr result (self.new ≡ self.old) }
    {
        if let Some(ask) = &mut self.last {
            ask.given.extend(piece)?;
        }
        Ok(())
    }

    /// How many asks were begun before the last one.
    pub fn before_last(&self) -> u64
        ensures { result ≡ length self.now.earlier }
    {
        self.earlier.len() as u64
    }

    /// The ask of this number, counted from 0, if so many were begun.
    pub fn asked(&self, number: u64) -> Option<&MemAsk>
        ensures { option_copied result ≡ slice_get (carried self.now) number }
    {
        let place = number as usize;
        if place == self.earlier.len() {
            return self.last.as_ref();
        }
        self.earlier.as_slice().get(place)
    }
}
