//! A walk through the pairs of a table.
ghost use Rattle.std.specs.Prelude.{◌≡◌, ◌+◌, option_map, slice_get};

use crate::pair::Pair;
use chunk_list::Walk;
use std::marker::Model;
use std::sync::ledger::Ledger;
use u1_base::{DocId, Key, Steps};

/// A walk through the pairs of a table, for who wants many that stand together.
#[derive(Drop)]
pub struct Entries<'a> {
    pub(crate) pairs: Walk<'a, Pair>,
}

impl<'a> Model for Entries<'a> {
    ghost use Rattle.std.specs.Prelude.{List};
    ghost use Rattle.std.specs.Coded.{coded×, coded_list, coded_ℕ};
    ghost use Rattle.index_tables.specs.Order.{Entry};
    ghost use Rattle.index_tables.specs.Seen.{seen};

    ghost Value = { List Entry };

    ghost coded = { coded_list (coded× (coded_list (coded_list coded_ℕ)) (coded_list coded_ℕ)) };

    ghost view = { λ s. seen s.pairs };
}

impl<'a> Entries<'a> {
    /// The pair at a place, which counts from 0. None past the end. It counts one step.
    pub fn entry<L: Ledger>(
        &mut self,
        place: u64,
        steps: &mut Steps<L>,
    ) -> Option<(&'a Key, &'a DocId)>
        ensures value { option_map (λ p. (p.0.now, p.1.now)) result ≡ slice_get self.old place }
        ensures pairs { self.new ≡ self.old }
        ensures looks { steps.new ≡ steps.old + 1 }
    {
        steps.tick();
        match self.pairs.get(place as usize) {
            Some(pair) => Some((&pair.key, &pair.id)),
            None => None,
        }
    }
}
