//! How a position that a peer tells stands to the log, and to the one that is kept for the peer.
ghost use Rattle.std.specs.Prelude.{◌≡◌, MatchBool};
ghost use Rattle.translog.specs.Checks.{Checks};
ghost use Rattle.translog.specs.Source.{GoesBack, GoesOn, passes};

use crate::Log;
use u1_base::{Position, TransId};

/// How a position stands to a log.
pub enum Check<'a> {
    /// It is the start, or the log has its transaction id at its generation.
    Fits,
    /// It lies past the end of the log, whose generation is given.
    NotReached(u64),
    /// The log has another transaction id at its generation, which is given.
    OtherId(&'a TransId),
}

impl Log {
    pub fn check(&self, at: &Position) -> Check<'_>
        ensures { Checks self.now.entries at.now result }
    {
        let Some(wanted) = &at.trans else {
            return Check::Fits;
        };
        match self.at(at.generation) {
            None => Check::NotReached(self.generation()),
            Some(found) => {
                if found == wanted {
                    Check::Fits
                } else {
                    Check::OtherId(found)
                }
            }
        }
    }
}

/// Whether a position lies after the one that is kept, or is that very one.
pub fn goes_on(kept: &Position, to: &Position) -> bool
    ensures goes { MatchBool result (GoesOn kept.now to.now) (GoesBack kept.now to.now) }
    ensures value { result ≡ passes kept.now to.now }
{
    if to.generation == kept.generation {
        return to.trans == kept.trans;
    }
    to.generation > kept.generation
}
