//! Why a text is no content.
use std::error::Error;
use std::fmt;
use u1_base::Memory;

/// Why a byte text is no content, in the order in which the faults are tested.
///
/// The conditions from `NotObject` on speak of the value that was read. Of a name that is repeated
/// in one object the last value counts, so a member that a later one replaces is not looked at.
#[derive(Clone, Copy, Debug, PartialEq, Eq)]
pub enum ContentFault {
    /// The length in bytes, which is above `u1_base::limits::MOST_CONTENT_BYTES`.
    TooBig(u64),
    /// `serde_json` reads no value: bytes that are no UTF-8 or no JSON, 128 levels or more, or a
    /// number that no double holds, also in a member that a later one replaces.
    NotJson,
    /// The root is no object.
    NotObject,
    /// Nested deeper than `u1_base::limits::MOST_CONTENT_DEPTH`, the root counted as 1.
    TooDeep,
    /// Some number has a fraction or an exponent, is `-0`, or lies below -2^63 or above 2^64-1.
    NotWhole,
    /// Some number lies from 2^63 to 2^64-1.
    OutOfRange,
    Memory,
}

impl From<Memory> for ContentFault {
    ghost use Rattle.std.specs.Prelude.{◌≡◌};
    ghost use Rattle.content.specs.declared.fault.ContentFault.TheVariants as fault;

    ghost from_gives = { λ _ e. e ≡ fault.Memory };

    fn from(_memory: Memory) -> ContentFault {
        ContentFault::Memory
    }
}

impl fmt::Display for ContentFault {
    fn fmt<W: fmt::Write>(&self, f: &mut fmt::Formatter<W>) -> fmt::Result {
        match self {
            ContentFault::TooBig(length) => write!(
                f,
                "the content has {length} bytes, which is too many"
            ),
            ContentFault::NotJson => f.write_str("the content is not JSON"),
            ContentFault::NotObject => f.write_str("the content is not an object"),
            ContentFault::TooDeep => f.write_str("the content is nested too deeply"),
            ContentFault::NotWhole => f.write_str(
                "a number of the content is not whole or does not fit 64 bits",
            ),
            ContentFault::OutOfRange => f.write_str(
                "a number of the content is above 9223372036854775807",
            ),
            ContentFault::Memory => f.write_str("out of memory"),
        }
    }
}

impl Error for ContentFault {}
