//! A walk through a list, from place to place.
ghost use Rattle.std.specs.Prelude.{◌≡◌, slice_get};
ghost use Rattle.std.specs.Option.{option_copied};

use crate::ChunkList;
use std::marker::Model;

/// A walk through a list. It keeps the rest of a chunk at hand, so that the chunk of the next item
/// is not looked for.
#[derive(Drop)]
pub struct Walk<'a, T> {
    list: &'a ChunkList<T>,
    // Items of the list, from `begin` on.
    run: &'a [T],
    begin: usize,
}

impl<'a, T> Model for Walk<'a, T> {
    ghost use Rattle.std.specs.Prelude.{List};
    ghost use Rattle.std.specs.Coded.{coded_list};
    ghost use Rattle.chunk_list.specs.Chunks.{IsRun};

    ghost Value = { List T };

    ghost coded = { coded_list T.code };

    ghost view = { λ s. s.list.now.items };

    ghost invariant = { λ s. IsRun s.list.now.items s.begin s.run.now };
}

impl<'a, T> Walk<'a, T> {
    // A walk that is at the first item.
    pub(crate) fn new(list: &'a ChunkList<T>) -> Walk<'a, T>
        ensures { result ≡ list.now.items }
    {
        let run = list.run(0);
        Walk {
            list,
            run,
            begin: 0,
        }
    }

    /// The item at a place, which counts from 0. None past the end.
    pub fn get(&mut self, place: usize) -> Option<&'a T>
        ensures value { option_copied result ≡ slice_get self.old place }
        ensures list { self.new ≡ self.old }
    {
        if place < self.begin || place - self.begin >= self.run.len() {
            self.run = self.list.run(place);
            self.begin = place;
        }
        self.run.get(place - self.begin)
    }
}
