//! Why reading stops.
use std::error::Error;
use std::fmt;
use u1_base::Memory;

/// How many bytes are left at the first field that has no reading; or out of memory.
#[derive(Clone, Copy, Debug, PartialEq, Eq)]
pub enum Stop {
    Bad(usize),
    Memory,
}

impl fmt::Display for Stop {
    fn fmt<W: fmt::Write>(&self, f: &mut fmt::Formatter<W>) -> fmt::Result {
        match self {
            Stop::Bad(left) => write!(f, "no field can be read {left} bytes before the end"),
            Stop::Memory => f.write_str("out of memory"),
        }
    }
}

impl Error for Stop {}

impl From<Memory> for Stop {
    ghost use Rattle.std.specs.Prelude.{◌≡◌};
    ghost use Rattle.record_fields.specs.declared.stop.Stop.TheVariants as stop;

    ghost from_gives = { λ _ e. e ≡ stop.Memory };

    fn from(_memory: Memory) -> Stop {
        Stop::Memory
    }
}
