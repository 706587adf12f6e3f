//! A walk through the pairs of a table.
ghost use Rattle.std.specs.Prelude.{◌≡◌, option_map, slice_get};

use crate::entry::Entry;
use chunk_list::Walk;
use std::marker::Model;
use u1_base::{FormOf, Id};

/// A walk through the pairs of a table, for who wants many that stand together.
#[derive(Drop)]
pub struct Pairs<'a, F: FormOf, V> {
    pub(crate) entries: Walk<'a, Entry<F, V>>,
}

impl<'a, F: FormOf, V> Model for Pairs<'a, F, V> {
    ghost use Rattle.std.specs.Prelude.{List, ℕ};
    ghost use Rattle.std.specs.Coded.{coded×, coded_list, coded_ℕ};

    ghost Value = { List (List ℕ × V) };

    ghost coded = { coded_list (coded× (coded_list coded_ℕ) V.code) };

    ghost view = { λ s. s.entries };
}

impl<'a, F: FormOf, V> Pairs<'a, F, V> {
    /// The pair at a place, which counts from 0 in the order of the ids. None past the end.
    pub fn pair(&mut self, place: u64) -> Option<(&'a Id<F>, &'a V)>
        ensures value { option_map (λ p. (p.0.now, p.1.now)) result ≡ slice_get self.old place }
        ensures pairs { self.new ≡ self.old }
    {
        match self.entries.get(place as usize) {
            Some(entry) => Some((entry.id(), entry.value())),
            None => None,
        }
    }
}
