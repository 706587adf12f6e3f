//! Why a reply is not written whole.
use u1_base::Memory;

/// Why a reply was not written whole.
#[derive(Clone, Copy, PartialEq, Eq)]
pub enum PutFault {
    /// A write failed. A beginning of the reply may have been written.
    Sink,
    /// Memory ran out before anything was written.
    Memory,
}

impl From<Memory> for PutFault {
    ghost use Rattle.std.specs.Prelude.{◌≡◌};
    ghost use Rattle.sync_wire.specs.declared.fault.PutFault.TheVariants as fault;

    ghost from_gives = { λ _ e. e ≡ fault.Memory };

    fn from(_memory: Memory) -> PutFault {
        PutFault::Memory
    }
}
