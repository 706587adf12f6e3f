//! Why a query or a range is refused.
use query_range::PatternFault;
use std::error::Error;
use std::fmt;
use u1_base::Memory;

/// Why a query or a range is refused. The width is tested first.
#[derive(Clone, Copy, Debug, PartialEq, Eq)]
pub enum QueryFault {
    /// The values, or the texts of an end of the range, are more or fewer than the expressions of
    /// the index.
    WrongWidth,
    /// The first value, counted from 0, that is not `*` though one before it is or ends in a star.
    BadGlob(u64),
    Memory,
}

impl fmt::Display for QueryFault {
    fn fmt<W: fmt::Write>(&self, f: &mut fmt::Formatter<W>) -> fmt::Result {
        match self {
            QueryFault::WrongWidth => {
                f.write_str("there is not one value for each expression of the index")
            }
            QueryFault::BadGlob(place) => {
                write!(f, "value {place} stands behind a star and is no star")
            }
            QueryFault::Memory => f.write_str("out of memory"),
        }
    }
}

impl Error for QueryFault {}

impl From<Memory> for QueryFault {
    ghost use Rattle.std.specs.Prelude.{◌≡◌};
    ghost use Rattle.replica_reads.specs.declared.fault.QueryFault.TheVariants as fault;

    ghost from_gives = { λ _ e. e ≡ fault.Memory };

    fn from(_memory: Memory) -> QueryFault {
        QueryFault::Memory
    }
}

impl From<PatternFault> for QueryFault {
    ghost use Rattle.std.specs.Prelude.{◌≡◌};
    ghost use Rattle.replica_reads.specs.Faults.{query_fault};

    ghost from_gives = { λ fault e. e ≡ query_fault fault };

    fn from(fault: PatternFault) -> QueryFault {
        match fault {
            PatternFault::WrongWidth => QueryFault::WrongWidth,
            PatternFault::BadGlob(place) => QueryFault::BadGlob(place),
            PatternFault::Memory => QueryFault::Memory,
        }
    }
}
