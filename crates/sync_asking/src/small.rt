//! Replies with a small body.
ghost use Rattle.std.specs.Prelude.{◌≡◌, ◌≤◌, ◌+◌, [], Err, IfErr, IfOk, List, OnOk, ℕ};
ghost use Rattle.std.specs.Io.KnownBytes.{Consumes};
ghost use Rattle.u1_base.specs.Causes.{HasCauseOf};
ghost use Rattle.sync_link.specs.Links.{given_more};
ghost use Rattle.sync_asking.specs.Carried.{Carries, IsGiven};
ghost use Rattle.sync_asking.specs.Heard.{HearsSmall};
ghost use Rattle.sync_asking.specs.inner.Heard.{HasBody};

use crate::heads::{Found, ask_fault, hear_head};
use crate::hearing::hear_up_to;
use crate::sending::send_whole;
use std::alloc::Global;
use std::marker::Model;
use sync_http::Address;
use sync_link::{Link, Phase};
use sync_phases::SyncFault;
use u1_base::Bytes;
use u1_base::limits::MOST_POSITION_BODY_BYTES;

/// The body of a reply, seen as its bytes.
#[derive(Drop)]
pub struct SmallBody {
    heard: Bytes,
    start: usize,
    count: usize,
}

impl Model for SmallBody {
    ghost use Rattle.std.specs.Prelude.{◌≤◌, ◌+◌, List, ℕ, drop, length, take};

    ghost Value = { List ℕ };

    ghost view = { λ b. take b.count (drop b.start b.heard) };

    ghost invariant = { λ b. b.start + b.count ≤ length b.heard };
}

impl SmallBody {
    pub fn as_slice(&self) -> &[u8]
        ensures { result.now ≡ self.now }
    {
        let (_, rest) = self.heard.as_slice().split_at(self.start);
        let (body, _) = rest.split_at(self.count);
        body
    }
}

/// Asks this address by the whole request, and hears a reply whose body is small.
pub fn ask_small<L: Link>(
    alloc: Global,
    link: &mut L,
    to: &Address,
    request: &[u8],
) -> Result<SmallBody, SyncFault>
    ensures heard { (given : List ℕ)
        × Carries L.serves L.stops (L.known link.old) (L.known link.new) to.now request.now given
        × HearsSmall given result }
    ensures cause { HasCauseOf SyncFault.Link
        (L.known link.old).faults (L.known link.new).faults result }
{
    match send_whole(link, to, request) {
        Ok(()) => hear_small(alloc, link),
        Err(fault) => Err(ask_fault(fault)),
    }
}

/// Hears a reply of which nothing was heard, and whose body is small. It gives the body of one with
/// status 200.
pub fn hear_small<L: Link>(alloc: Global, link: &mut L) -> Result<SmallBody, SyncFault>
    requires phase { (L.known link.old).phase ≡ Phase.Receiving }
    ensures heard { (given : List ℕ)
        × IsGiven (L.known link.old) (L.known link.new) given × HearsSmall given result }
    ensures cause { HasCauseOf SyncFault.Link
        (L.known link.old).faults (L.known link.new).faults result }
{
    let mut heard = Bytes::new(alloc);
    match hear_body(link, &mut heard) {
        Ok(found) => Ok(SmallBody {
            heard,
            start: found.length as usize,
            count: found.head.body as usize,
        }),
        Err(fault) => {
            drop(heard);
            Err(fault)
        }
    }
}

// Hears the head and the whole body.
fn hear_body<L: Link>(link: &mut L, heard: &mut Bytes) -> Result<Found, SyncFault>
    requires phase { (L.known link.old).phase ≡ Phase.Receiving }
    requires none { heard.old ≡ [] }
    ensures given { OnOk result ((L.known link.new ≡ given_more heard.new (L.known link.old))
        × Consumes (L.known link.old).coming (L.known link.new).coming heard.new) }
    ensures body { IfOk result (HasBody heard.new) }
    ensures none { IfErr result (λ fault. (given : List ℕ)
        × IsGiven (L.known link.old) (L.known link.new) given × HearsSmall given (Err fault)) }
    ensures cause { HasCauseOf SyncFault.Link
        (L.known link.old).faults (L.known link.new).faults result }
{
    let found = match hear_head(link, heard) {
        Ok(found) => found,
        Err(fault) => return Err(fault),
    };
    if found.head.status != 200 {
        return Err(SyncFault::Peer(found.head.status));
    }
    if found.head.body > MOST_POSITION_BODY_BYTES {
        return Err(SyncFault::Broken(0));
    }
    let end = (found.length + found.head.body) as usize;
    match hear_up_to(link, heard, end) {
        Ok(()) => Ok(found),
        Err(fault) => Err(ask_fault(fault)),
    }
}
