//! A place in a transaction log.
ghost use Rattle.std.specs.Prelude.{◌≡◌, ◌≤◌, ◌↔◌, IfOk, IsNone};
ghost use Rattle.u1_base.specs.Places.{nowhere};
ghost use Rattle.u1_base.specs.declared.limits.TheConstants.{GREATEST_COUNT};

use crate::{Memory, TransId};
use std::marker::Model;

/// A generation of a log, and the transaction id of the entry that stands there, seen as the two.
///
/// Generation 0 is the place before the first entry, and has no transaction id.
#[derive(Debug, Drop)]
pub struct Position {
    /// From 0 to `limits::GREATEST_COUNT`.
    pub generation: u64,
    pub trans: Option<TransId>,
    pub ghost named: { (IsNone trans) ↔ (generation ≡ 0) },
    pub ghost counted: { generation ≤ GREATEST_COUNT },
}

impl Model for Position {
    ghost use Rattle.u1_base.specs.Places.{Place, place_code};

    ghost Value = { Place };

    ghost coded = { place_code };

    ghost view = { λ p. record { generation = p.generation; trans = p.trans } };
}

impl Position {
    /// The place before the first entry.
    pub fn start() -> Position
        ensures { result ≡ nowhere }
    {
        Position {
            generation: 0,
            trans: None,
        }
    }

    pub fn copy(&self) -> Result<Position, Memory>
        ensures { IfOk result (λ p. p ≡ self.now) }
    {
        let trans = match &self.trans {
            Some(trans) => Some(trans.copy()?),
            None => None,
        };
        Ok(Position {
            generation: self.generation,
            trans,
        })
    }
}

impl PartialEq for Position {
    ghost use Rattle.std.specs.Cmp.{partial_equiv_from_equiv};
    ghost use Rattle.u1_base.specs.Places.{same_place, same_place_equals};

    ghost eq = { same_place };

    ghost laws = { partial_equiv_from_equiv same_place_equals };

    fn eq(&self, other: &Position) -> bool {
        self.generation == other.generation && self.trans == other.trans
    }
}

impl Eq for Position {
    ghost use Rattle.u1_base.specs.Places.{same_place_equals};

    ghost laws = { same_place_equals };
}
