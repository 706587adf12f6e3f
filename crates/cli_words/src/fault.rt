//! Why words are no command.
use std::error::Error;
use std::fmt;
use u1_base::Memory;

/// Why words are no command. The words as a whole are tested before the values.
#[derive(Clone, Copy, Debug, PartialEq, Eq)]
pub enum WordsFault {
    /// They are not the words of a command: the command, its option or the number of its operands.
    Words,
    /// The place of the first word that is not a valid value. The directory is word 0.
    Value(u64),
    Memory,
}

/// The place of a word that its reader refuses. The directory is word 0.
#[derive(Clone, Copy, Debug, PartialEq, Eq)]
pub struct Refused {
    pub place: u64,
}

impl From<Refused> for WordsFault {
    ghost use Rattle.std.specs.Prelude.{◌≡◌};
    ghost use Rattle.cli_words.specs.declared.fault.WordsFault.TheVariants as fault;

    ghost from_gives = { λ refused e. e ≡ fault.Value refused.place };

    fn from(refused: Refused) -> WordsFault {
        WordsFault::Value(refused.place)
    }
}

impl From<Memory> for WordsFault {
    ghost use Rattle.std.specs.Prelude.{◌≡◌};
    ghost use Rattle.cli_words.specs.declared.fault.WordsFault.TheVariants as fault;

    ghost from_gives = { λ _ e. e ≡ fault.Memory };

    fn from(_memory: Memory) -> WordsFault {
        WordsFault::Memory
    }
}

impl fmt::Display for WordsFault {
    fn fmt<W: fmt::Write>(&self, f: &mut fmt::Formatter<W>) -> fmt::Result {
        match self {
            WordsFault::Words => f.write_str("the words are not a command"),
            WordsFault::Value(place) => write!(f, "word {place} is not a valid value"),
            WordsFault::Memory => f.write_str("out of memory"),
        }
    }
}

impl Error for WordsFault {}
