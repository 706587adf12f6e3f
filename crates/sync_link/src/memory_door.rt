//! A door in memory: its connections are given beforehand, and it fails where a test wants it.
ghost use Rattle.std.specs.Prelude.{◌≡◌, ◌-◌, ◌≤◌, ◌↔◌, [], ◌∷◌, ◌++◌, option_copied, slice_get};
ghost use Rattle.std.specs.Prelude.{IfOk, IsErr, Contains};
ghost use Rattle.u1_base.specs.Causes.{HasCause};
ghost use Rattle.sync_link.specs.Doors.{LetsOut};
ghost use Rattle.sync_link.specs.Memory.{CountsCall, door_known};

use crate::{AcceptFailed, Acceptor};
use link::MemConn;
use std::marker::Model;
use std::vec::IntoIter;
use u1_base::{Items, Memory, Numbers};

/// The connections of a `MemAcceptor`, in order.
pub type Conns = Items<MemConn>;

/// A door whose connections are given beforehand. It keeps those that are given back.
#[derive(Drop)]
pub struct MemAcceptor {
    to_come: IntoIter<MemConn>,
    given_back: Vec<MemConn>,
    out: usize,
    // how many connections it was made for
    all: usize,
    calls: u64,
    failing: Numbers,
    faults: u64,
}

impl Model for MemAcceptor {
    ghost use Rattle.std.specs.Prelude.{◌≡◌, ◌≤◌, ◌+◌, vec_len, vec_capacity};
    ghost use Rattle.std.specs.Vec.Iter.{into_iter_items, into_iter_len};
    ghost use Rattle.sync_link.specs.Memory.{Queue};

    ghost Value = { Queue };

    ghost view = { λ d. record {
      to_come = into_iter_items d.to_come;
      given_back = d.given_back.items;
      out = d.out;
      calls = d.calls;
      failing = d.failing;
      faults = d.faults;
    } };

    ghost invariant = { λ d. (into_iter_len d.to_come + d.out + vec_len d.given_back ≤ d.all)
        × (d.all ≤ vec_capacity d.given_back) };
}

impl MemAcceptor {
    /// A door of these connections. The calls of `next` are counted from 0, and just those whose
    /// numbers stand in `failing` fail; they use up no connection.
    pub fn new(conns: Conns, failing: Numbers) -> Result<MemAcceptor, Memory>
        ensures { IfOk result (λ door. door ≡ record {
          to_come = conns;
          given_back = [];
          out = 0;
          calls = 0;
          failing = failing;
          faults = 0;
        }) }
    {
        let conns = conns.into_vec();
        let all = conns.len();
        Ok(MemAcceptor {
            given_back: Vec::with_capacity(*conns.allocator(), all)?,
            to_come: conns.into_iter(),
            out: 0,
            all,
            calls: 0,
            failing,
            faults: 0,
        })
    }

    /// The connection that was given back as the one of this number, counted from 0, if so many
    /// were.
    pub fn given(&self, place: u64) -> Option<&MemConn>
        ensures { option_copied result ≡ slice_get self.now.given_back place }
    {
        self.given_back.as_slice().get(place as usize)
    }
}

impl Acceptor for MemAcceptor {
    ghost use Rattle.sync_link.specs.Memory.{door_known};

    type Conn = MemConn;

    ghost known = { door_known };

    fn next(&mut self, _port: u16, wait: bool) -> Result<Option<MemConn>, AcceptFailed>
        ensures lets_out { LetsOut wait (door_known self.old) (door_known self.new) result }
        ensures cause { HasCause self.old.faults self.new.faults result }
        ensures fails { IsErr result ↔ Contains self.old.failing self.old.calls }
        ensures counts { CountsCall self.old self.new result }
    {
        let fails = self.failing.as_slice().contains(&self.calls);
        self.calls = self.calls.saturating_add(1);
        if fails {
            self.faults = self.faults.saturating_add(1);
            return Err(AcceptFailed);
        }
        match self.to_come.next() {
            Some(conn) => {
                self.out += 1;
                Ok(Some(conn))
            }
            None => Ok(None),
        }
    }

    fn give_back(&mut self, conn: MemConn)
        requires { 1 ≤ self.old.out }
        ensures { self.new ≡ record self.old {
          given_back = self.old.given_back ++ conn ∷ [];
          out = self.old.out - 1;
        } }
    {
        let _ = self.given_back.push(conn);
        self.out -= 1;
    }
}
