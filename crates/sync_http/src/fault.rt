//! Why bytes are no message.
use std::fmt;
use thiserror::Error;
use u1_base::Memory;

/// Why the first bytes of a connection are no head, in the order in which it is tested.
#[derive(Clone, Copy, Debug, PartialEq, Eq, Error)]
pub enum WireFault {
    /// The first 16,384 bytes hold no whole head.
    #[error("the head is too large")]
    TooLarge,
    /// No head of HTTP/1.0 or HTTP/1.1, more than 64 headers, or a Content-Length that stands twice
    /// or is no number.
    #[error("not an HTTP head")]
    BadHead,
    /// The target is not `/DATABASE/sync-from/UID`.
    #[error("no such target")]
    BadPath,
    /// The method is not GET, PUT or POST.
    #[error("no such method")]
    BadMethod,
    /// There is a Transfer-Encoding.
    #[error("a transfer encoding is not supported")]
    Chunked,
    /// There is no Content-Length where one is needed.
    #[error("no Content-Length")]
    NoLength,
    #[error("out of memory")]
    Memory,
}

impl From<Memory> for WireFault {
    ghost use Rattle.std.specs.Prelude.{◌≡◌};
    ghost use Rattle.sync_http.specs.declared.fault.WireFault.TheVariants as fault;

    ghost from_gives = { λ _ e. e ≡ fault.Memory };

    fn from(_memory: Memory) -> WireFault {
        WireFault::Memory
    }
}

/// Why a body says nothing.
#[derive(Clone, Copy, Debug, PartialEq, Eq, Error)]
pub enum BodyFault {
    /// It is not one JSON object with the members that it must have.
    #[error("not the body of this message")]
    Bad,
    #[error("out of memory")]
    Memory,
}

impl From<Memory> for BodyFault {
    ghost use Rattle.std.specs.Prelude.{◌≡◌};
    ghost use Rattle.sync_http.specs.declared.fault.BodyFault.TheVariants as fault;

    ghost from_gives = { λ _ e. e ≡ fault.Memory };

    fn from(_memory: Memory) -> BodyFault {
        BodyFault::Memory
    }
}
