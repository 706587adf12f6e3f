//! Why a text is no expression.
use std::error::Error;
use std::fmt;
use u1_base::limits::MOST_EXPRESSION_BYTES;

/// The length is tested first.
#[derive(Clone, Copy, Debug, PartialEq, Eq)]
pub enum ParseFault {
    /// Longer than `u1_base::limits::MOST_EXPRESSION_BYTES`.
    TooLong,
    /// The length in bytes of the longest front of the text that some expression begins with, of
    /// any length.
    At(u64),
    Memory,
}

impl fmt::Display for ParseFault {
    fn fmt<W: fmt::Write>(&self, f: &mut fmt::Formatter<W>) -> fmt::Result {
        match self {
            ParseFault::TooLong => {
                write!(
                    f,
                    "the expression has more than {MOST_EXPRESSION_BYTES} bytes"
                )
            }
            ParseFault::At(place) => write!(f, "the expression goes wrong at byte {place}"),
            ParseFault::Memory => f.write_str("out of memory"),
        }
    }
}

impl Error for ParseFault {}
