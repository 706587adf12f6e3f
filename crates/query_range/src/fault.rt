//! Why the values of a query are no pattern.
use std::error::Error;
use std::fmt;
use u1_base::Memory;

/// The width is tested first.
#[derive(Clone, Copy, Debug, PartialEq, Eq)]
pub enum PatternFault {
    /// There is not one value for each expression of the index.
    WrongWidth,
    /// The first value, counted from 0, that is not `*` though one before it is or ends in a star.
    BadGlob(u64),
    Memory,
}

impl fmt::Display for PatternFault {
    fn fmt<W: fmt::Write>(&self, f: &mut fmt::Formatter<W>) -> fmt::Result {
        match self {
            PatternFault::WrongWidth => {
                f.write_str("there is not one value for each expression of the index")
            }
            PatternFault::BadGlob(place) => {
                write!(f, "value {place} stands behind a star and is no star")
            }
            PatternFault::Memory => f.write_str("out of memory"),
        }
    }
}

impl Error for PatternFault {}

impl From<Memory> for PatternFault {
    ghost use Rattle.std.specs.Prelude.{◌≡◌};
    ghost use Rattle.query_range.specs.declared.fault.PatternFault.TheVariants as fault;

    ghost from_gives = { λ _ e. e ≡ fault.Memory };

    fn from(_memory: Memory) -> PatternFault {
        PatternFault::Memory
    }
}
