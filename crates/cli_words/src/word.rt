//! A word with its place.
ghost use Rattle.std.specs.Prelude.{◌≡◌};

use crate::fault::Refused;
use std::marker::Model;

/// A word, or the part of one that holds a value, with the word's place; the directory is word 0.
/// It is seen as the pair of place and text.
#[derive(Drop)]
pub struct Word<'a> {
    place: usize,
    text: &'a str,
}

impl<'a> Model for Word<'a> {
    ghost use Rattle.std.specs.Prelude.{List, ℕ};

    ghost Value = { ℕ × List ℕ };

    ghost view = { λ w. (w.place, w.text.now) };
}

impl<'a> Word<'a> {
    pub fn new(place: usize, text: &'a str) -> Word<'a>
        ensures { result ≡ (place, text.entry.now) }
    {
        Word { place, text }
    }

    pub fn place(&self) -> usize
        ensures { result ≡ self.now.0 }
    {
        self.place
    }

    pub fn text(&self) -> &'a str
        ensures { result.now ≡ self.now.1 }
    {
        self.text
    }

    /// What is answered where its reader refuses it.
    pub fn refused(&self) -> Refused
        ensures { result ≡ record { place = self.now.0 } }
    {
        Refused {
            place: self.place as u64,
        }
    }
}
