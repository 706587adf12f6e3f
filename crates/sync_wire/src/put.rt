//! A reply whose body is at hand is written.
ghost use Rattle.std.specs.Prelude.{◌≡◌, ◌≤◌, false, IsSome, IfErr, IfOk, OnOk, OnErr, length};
ghost use Rattle.std.specs.Io.KnownBytes.{Appends, Keeps};
ghost use Rattle.u1_base.specs.Causes.{HasCause, HasCauseOf};
ghost use Rattle.u1_base.specs.declared.limits.TheConstants.{GREATEST_COUNT};
ghost use Rattle.http.specs.StatusCode.{IsStatusCode, reason_phrase};
ghost use Rattle.link.specs.Streams.{AppendsFront};
ghost use Rattle.sync_wire.specs.Put.{PutsFront, whole_reply};

use crate::PutFault;
use link::{Conn, WriteFailed};
use std::alloc::Global;
use sync_http::{ReplyHead, write_reply};
use u1_base::limits::GREATEST_COUNT;
use u1_base::{Bytes, Memory};

/// Writes a reply with this body, and hands it on. If memory runs out nothing is written.
#[tactic(auto, using(crate::proofs::Flushed::keeps_same))]
pub fn put_reply<C: Conn>(
    alloc: Global,
    conn: &mut C,
    status: u16,
    stream: bool,
    body: &[u8],
) -> Result<(), PutFault>
    requires code { IsStatusCode status }
    requires phrase { IsSome (reason_phrase status) }
    ensures put { OnOk result (Appends (C.Sink.known conn.old).taken (C.Sink.known conn.new).taken
        (whole_reply status stream body.now)) }
    ensures handed_on { OnOk result ((C.Sink.known conn.new).held ≡ false) }
    ensures counted { OnOk result (length body.now ≤ GREATEST_COUNT) }
    ensures front { IfErr result (PutsFront (C.Sink.known conn.old).taken
        (C.Sink.known conn.new).taken (whole_reply status stream body.now)) }
    ensures cause { HasCauseOf PutFault.Sink
        (C.Sink.known conn.old).faults (C.Sink.known conn.new).faults result }
    ensures source { C.Source.known conn.new ≡ C.Source.known conn.old }
{
    let text = joined(alloc, status, stream, body)?;
    match put_flushed(conn, text.as_slice()) {
        Ok(()) => Ok(()),
        Err(_) => Err(PutFault::Sink),
    }
}

// Head and body. A body that is too long for its head takes more memory than there is.
fn joined(alloc: Global, status: u16, stream: bool, body: &[u8]) -> Result<Bytes, Memory>
    requires code { IsStatusCode status }
    requires phrase { IsSome (reason_phrase status) }
    ensures text { IfOk result (λ text. text ≡ whole_reply status stream body.now) }
    ensures counted { OnOk result (length body.now ≤ GREATEST_COUNT) }
{
    let count = body.len() as u64;
    if count > GREATEST_COUNT {
        return Err(Memory);
    }
    let mut text = write_reply(
        alloc,
        &ReplyHead {
            status,
            body: count,
        },
        stream,
    )?;
    text.extend(body)?;
    Ok(text)
}

/// Writes the text, and hands on what was written.
#[tactic(auto, using(crate::proofs::Flushed::kept_all))]
pub fn put_flushed<C: Conn>(conn: &mut C, text: &[u8]) -> Result<(), WriteFailed>
    ensures put { OnOk result (Appends (C.Sink.known conn.old).taken
        (C.Sink.known conn.new).taken text.now) }
    ensures handed_on { OnOk result ((C.Sink.known conn.new).held ≡ false) }
    ensures front { OnErr result (AppendsFront (C.Sink.known conn.old).taken
        (C.Sink.known conn.new).taken text.now) }
    ensures cause { HasCause
        (C.Sink.known conn.old).faults (C.Sink.known conn.new).faults result }
    ensures source { C.Source.known conn.new ≡ C.Source.known conn.old }
{
    match conn.put(text) {
        Ok(()) => flush(conn),
        Err(fault) => Err(fault),
    }
}

/// Hands on what was written.
pub fn flush<C: Conn>(conn: &mut C) -> Result<(), WriteFailed>
    ensures same { Keeps (C.Sink.known conn.old).taken (C.Sink.known conn.new).taken }
    ensures handed_on { OnOk result ((C.Sink.known conn.new).held ≡ false) }
    ensures cause { HasCause
        (C.Sink.known conn.old).faults (C.Sink.known conn.new).faults result }
    ensures source { C.Source.known conn.new ≡ C.Source.known conn.old }
{
    conn.flush()
}
