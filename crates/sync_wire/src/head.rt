//! The head of a request is read.
ghost use Rattle.std.specs.Prelude.{◌≡◌, IfErr, IfOk};
ghost use Rattle.u1_base.specs.Causes.{HasCauseOf};
ghost use Rattle.link.specs.declared.input.InputFault.TheVariants as input;
ghost use Rattle.sync_wire.specs.Opened.{IsOpened, LosesHead};
ghost use Rattle.sync_wire.specs.inner.Opened.{stops_at};

use crate::{PIECE, read_piece};
use link::{Conn, InputFault};
use std::alloc::Global;
use sync_http::{Heard, RequestHead, WireFault, read_request};
use u1_base::Bytes;

/// What comes first on a connection.
#[derive(Drop)]
pub enum Opening {
    /// A whole head, which takes `length` of the bytes that were read.
    Head {
        head: RequestHead,
        length: u64,
        bytes: Bytes,
    },
    /// The source ends within it.
    Early,
    /// What was read is no head, and will never be one.
    Faulty(WireFault),
}

/// Reads until it is known what the head of the request is. It may have read some of the body.
pub fn read_head<C: Conn>(alloc: Global, conn: &mut C) -> Result<Opening, InputFault>
    ensures opened { IfOk result
        (IsOpened (C.Source.known conn.old).left (C.Source.known conn.new).left) }
    ensures lost { IfErr result
        (LosesHead (C.Source.known conn.old).left (C.Source.known conn.new).left) }
    ensures cause { HasCauseOf input.Source
        (C.Source.known conn.old).faults (C.Source.known conn.new).faults result }
    ensures sink { C.Sink.known conn.new ≡ C.Sink.known conn.old }
{
    let mut bytes = Bytes::new(alloc);
    loop {
        match read_request(alloc, bytes.as_slice()) {
            Ok(Heard::Head { head, length }) => {
                return Ok(Opening::Head {
                    head,
                    length,
                    bytes,
                });
            }
            Ok(Heard::NotYet) => match read_piece(conn, &mut bytes, PIECE) {
                Ok(count) => {
                    if count == 0 {
                        return Ok(Opening::Early);
                    }
                }
                Err(fault) => {
                    drop(bytes);
                    return Err(fault);
                }
            },
            Err(fault) => {
                drop(bytes);
                return opening_at(fault);
            }
        }
    }
}

// What a fault of the head comes to. Running out of memory is none of the request's.
fn opening_at(fault: WireFault) -> Result<Opening, InputFault>
    ensures { result ≡ stops_at fault }
{
    match fault {
        WireFault::TooLarge => Ok(Opening::Faulty(fault)),
        WireFault::BadHead => Ok(Opening::Faulty(fault)),
        WireFault::BadPath => Ok(Opening::Faulty(fault)),
        WireFault::BadMethod => Ok(Opening::Faulty(fault)),
        WireFault::Chunked => Ok(Opening::Faulty(fault)),
        WireFault::NoLength => Ok(Opening::Faulty(fault)),
        WireFault::Memory => Err(InputFault::Memory),
    }
}
