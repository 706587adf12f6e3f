//! How a server answers one connection.
ghost use Rattle.std.specs.Prelude.{IfErr, IfOk};
ghost use Rattle.u1_base.specs.Causes.{HasCauseOf};
ghost use Rattle.sync_exchange.specs.Served.{BreaksOff, HasServed};

use link::Conn;
use replica_core::Replica;
use std::alloc::Global;
use thiserror::Error;
use u1_base::Memory;

/// What was served on a connection.
#[derive(Clone, Copy, PartialEq, Eq)]
pub struct Served {
    /// The status of the reply.
    pub status: u16,
    /// How many documents of the request were passed without a refusal.
    pub applied: u64,
    /// How many documents a reply with status 200 has.
    pub returned: u64,
}

/// Why a connection was not answered with a whole reply. The steps that were made stay.
#[derive(Clone, Copy, Debug, PartialEq, Eq, Error)]
pub enum ServeFault {
    /// A read failed. No reply was begun.
    #[error("a read of the request failed")]
    Source,
    /// A write failed.
    #[error("a write of the reply failed")]
    Sink,
    /// No reply was begun, or one that returns documents was.
    #[error("out of memory")]
    Memory,
}

impl From<Memory> for ServeFault {
    ghost use Rattle.std.specs.Prelude.{◌≡◌};
    ghost use Rattle.sync_exchange.specs.declared.serve.ServeFault.TheVariants as fault;

    ghost from_gives = { λ _ e. e ≡ fault.Memory };

    fn from(_memory: Memory) -> ServeFault {
        ServeFault::Memory
    }
}

/// Answers the requests of sources, one on each connection.
pub trait Serve {
    /// Reads one request from the connection, makes its steps and writes its reply.
    ///
    /// Request, reply and steps are those of the definition of serving. The steps are kept for good
    /// before a byte of the reply is written. The transaction ids are made of the seed.
    fn serve_one<R: Replica, C: Conn>(
        &mut self,
        alloc: Global,
        replica: &mut R,
        seed: u128,
        conn: &mut C,
    ) -> Result<Served, ServeFault>
        requires { R.is_open replica.old }
        ensures served { IfOk result (HasServed R.known R.is_open R.crash seed
            replica.old replica.new (C.Source.known conn.old) (C.Source.known conn.new)
            (C.Sink.known conn.old) (C.Sink.known conn.new)) }
        ensures broken { IfErr result (BreaksOff R.known R.is_open R.crash seed
            replica.old replica.new (C.Source.known conn.old) (C.Source.known conn.new)
            (C.Sink.known conn.old) (C.Sink.known conn.new)) }
        ensures source { HasCauseOf ServeFault.Source
            (C.Source.known conn.old).faults (C.Source.known conn.new).faults result }
        ensures sink { HasCauseOf ServeFault.Sink
            (C.Sink.known conn.old).faults (C.Sink.known conn.new).faults result };
}
