//! What a session does with any link, and a server with any door, proved from the traits alone.
ghost use Rattle.std.specs.Prelude.{◌≡◌, ◌≤◌, ◌++◌, List, ℕ, [], drop, length, Some, IsSomeAnd};
ghost use Rattle.std.specs.Prelude.{Ok, IfOk, OnOk, false, true};
ghost use Rattle.std.specs.Io.KnownBytes.{Consumes};
ghost use Rattle.std.specs.Option.{option_map};
ghost use Rattle.u1_base.specs.Causes.{HasCause, HasCauseOf};
ghost use Rattle.sync_link.specs.Links.{BothTold, asks, given_more};

use link::{Sink, Source};
use std::alloc::Global;
use sync_http::Address;
use sync_link::{AcceptFailed, Acceptor, AskFault, Link, Phase};
use u1_base::Bytes;

// How much is received at once, in bytes.
const PIECE: usize = 4096;

/// Sends a request in two parts, and receives so many bytes of its reply.
pub(crate) fn ask<L: Link>(
    alloc: Global,
    link: &mut L,
    to: &Address,
    first: &[u8],
    second: &[u8],
    many: usize,
) -> Result<Bytes, AskFault>
    ensures earlier { IfOk result (λ _. (L.known link.new).earlier ≡ asks (L.known link.old)) }
    ensures asked { IfOk result (λ reply. (L.known link.new).ask
        ≡ Some (record { to = to.now; sent = first.now ++ second.now; given = reply })) }
    ensures many { IfOk result (λ reply. length reply ≡ many) }
    ensures peer { IfOk result (λ reply. BothTold (L.known link.old).peer (L.known link.new).peer
        (λ p q. IsSomeAnd (L.known link.new).coming
        (λ left. L.serves (L.known link.old).seed p (first.now ++ second.now) (reply ++ left) q))) }
    ensures cause { HasCauseOf AskFault.Failed
        (L.known link.old).faults (L.known link.new).faults result }
{
    link.begin(to)?;
    link.send(first)?;
    link.send(second)?;
    link.finish()?;
    receive_all(alloc, link, many)
}

// Receives so many bytes of the reply.
fn receive_all<L: Link>(alloc: Global, link: &mut L, many: usize) -> Result<Bytes, AskFault>
    requires { (L.known link.old).phase ≡ Phase.Receiving }
    ensures given { IfOk result (λ reply. L.known link.new ≡ given_more reply (L.known link.old)) }
    ensures next { IfOk result (λ reply.
        Consumes (L.known link.old).coming (L.known link.new).coming reply) }
    ensures many { IfOk result (λ reply. length reply ≡ many) }
    ensures cause { HasCauseOf AskFault.Failed
        (L.known link.old).faults (L.known link.new).faults result }
{
    let mut reply = Bytes::new(alloc);
    while reply.len() < many {
        let room = PIECE.min(many - reply.len());
        receive_piece(link, &mut reply, room)?;
    }
    Ok(reply)
}

// Receives the next bytes, at most as many as there is room for, and adds them.
fn receive_piece<L: Link>(link: &mut L, reply: &mut Bytes, room: usize) -> Result<(), AskFault>
    requires phase { (L.known link.old).phase ≡ Phase.Receiving }
    requires room { (1 ≤ room) × (room ≤ PIECE) }
    ensures added { OnOk result ((piece : List ℕ) × (1 ≤ length piece) × (length piece ≤ room)
        × (reply.new ≡ reply.old ++ piece)
        × (L.known link.new ≡ given_more piece (L.known link.old))
        × Consumes (L.known link.old).coming (L.known link.new).coming piece) }
    ensures cause { HasCauseOf AskFault.Failed
        (L.known link.old).faults (L.known link.new).faults result }
{
    let mut piece = [0; PIECE];
    let count = link.receive(&mut piece[..room])?;
    reply.extend(&piece[..count])?;
    Ok(())
}

/// Serves one connection, by sending back what came of it first. It tells whether there was one.
pub(crate) fn serve_next<A: Acceptor>(door: &mut A, port: u16) -> Result<bool, AcceptFailed>
    ensures out { IfOk result (λ _. (A.known door.new).out ≡ (A.known door.old).out) }
    ensures gone { result ≡ Ok true → (A.known door.new).to_come
        ≡ option_map (λ conns. drop 1 conns) (A.known door.old).to_come }
    ensures none { result ≡ Ok false → (A.known door.old).to_come ≡ Some [] }
    ensures cause { HasCause (A.known door.old).faults (A.known door.new).faults result }
{
    let Some(mut conn) = door.next(port, true)? else {
        return Ok(false);
    };
    let mut piece = [0; 8];
    if let Ok(count) = conn.read(&mut piece) {
        let _ = conn.put(&piece[..count]);
        let _ = conn.flush();
    }
    door.give_back(conn);
    Ok(true)
}
