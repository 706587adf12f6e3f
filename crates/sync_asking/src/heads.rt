//! The head of a reply is heard.
ghost use Rattle.std.specs.Prelude.{◌≡◌, ◌≢◌, ◌≤◌, [], Err, IfErr, IfOk, IfSome, List, Ok, OnOk};
ghost use Rattle.std.specs.Prelude.{length, ℕ};
ghost use Rattle.std.specs.Io.KnownBytes.{Consumes};
ghost use Rattle.u1_base.specs.Causes.{HasCauseOf};
ghost use Rattle.sync_http.specs.Hearing.{SaysReply};
ghost use Rattle.sync_link.specs.Links.{given_more};
ghost use Rattle.sync_asking.specs.Carried.{IsGiven};
ghost use Rattle.sync_asking.specs.Heard.{HasNoHead, ask_ends};
ghost use Rattle.sync_asking.specs.inner.Heard.{SaysHead, found_of};

use crate::hearing::{PIECE, hear};
use sync_http::{Heard, ReplyHead, read_reply};
use sync_link::{AskFault, Link, Phase};
use sync_phases::SyncFault;
use u1_base::Bytes;
use u1_base::limits::MOST_HEAD_BYTES;

/// The head of a reply, and how many bytes it takes.
#[derive(Clone, Copy, PartialEq, Eq)]
pub struct Found {
    pub head: ReplyHead,
    pub length: u64,
}

/// Hears the head of a reply of which nothing was heard. Some bytes of the body may come with it.
pub fn hear_head<L: Link>(link: &mut L, heard: &mut Bytes) -> Result<Found, SyncFault>
    requires phase { (L.known link.old).phase ≡ Phase.Receiving }
    requires none { heard.old ≡ [] }
    ensures given { OnOk result ((L.known link.new ≡ given_more heard.new (L.known link.old))
        × Consumes (L.known link.old).coming (L.known link.new).coming heard.new) }
    ensures says { IfOk result (λ found. SaysReply heard.new (Ok found.head) found.length) }
    ensures within { IfOk result
        (λ found. (found.length ≤ length heard.new) × (found.length ≤ MOST_HEAD_BYTES)) }
    ensures none { IfErr result (λ fault. (given : List ℕ)
        × IsGiven (L.known link.old) (L.known link.new) given × HasNoHead given fault) }
    ensures cause { HasCauseOf SyncFault.Link
        (L.known link.old).faults (L.known link.new).faults result }
{
    while heard.len() < MOST_HEAD_BYTES {
        match head_in(heard.as_slice()) {
            Ok(Some(found)) => return Ok(found),
            Ok(None) => {}
            Err(fault) => return Err(fault),
        }
        match hear(link, heard, PIECE) {
            Ok(()) => {}
            Err(fault) => return Err(ask_fault(fault)),
        }
    }
    whole_head_in(heard.as_slice())
}

// So many bytes have a head, or never will.
fn whole_head_in(heard: &[u8]) -> Result<Found, SyncFault>
    requires { MOST_HEAD_BYTES ≤ length heard.now }
    ensures says { IfOk result (λ found. SaysReply heard.now (Ok found.head) found.length) }
    ensures within { IfOk result
        (λ found. (found.length ≤ length heard.now) × (found.length ≤ MOST_HEAD_BYTES)) }
    ensures none { IfErr result (λ fault. HasNoHead heard.now fault × (fault ≢ SyncFault.Link)) }
{
    match head_in(heard) {
        Ok(Some(found)) => Ok(found),
        Ok(None) => unreachable!(),
        Err(fault) => Err(fault),
    }
}

/// A failure of a link as a fault of a session.
pub fn ask_fault(fault: AskFault) -> SyncFault
    ensures { result ≡ ask_ends fault }
{
    match fault {
        AskFault::Failed => SyncFault::Link,
        AskFault::Memory => SyncFault::Memory,
    }
}

// The head at the front of the bytes, if it is whole.
fn head_in(heard: &[u8]) -> Result<Option<Found>, SyncFault>
    ensures says { SaysHead heard.now result }
    ensures within { IfOk result (λ o. IfSome o
        (λ found. (found.length ≤ length heard.now) × (found.length ≤ MOST_HEAD_BYTES))) }
{
    match read_reply(heard) {
        Ok(said) => Ok(found_of(said)),
        Err(_) => Err(SyncFault::Broken(0)),
    }
}

fn found_of(said: Heard<ReplyHead>) -> Option<Found>
    ensures { result ≡ found_of said }
{
    match said {
        Heard::Head { head, length } => Some(Found { head, length }),
        Heard::NotYet => None,
    }
}
