//! The stores that rows name.
use crate::acts::act;
use crate::store::{Store, word};
use rows::{Answers, Said, parts_of};
use std::alloc::Global;
use u1_base::{Memory, Text};

/// The stores, in the order in which they were made.
#[derive(Drop)]
pub struct Shelf {
    stores: Vec<Store>,
}

impl Answers for Shelf {
    fn answer(&mut self, line: &str, said: &mut Said) -> Result<(), Memory> {
        let parts = parts_of(said.alloc(), line)?;
        let words = parts.words.as_slice();
        match &parts.input {
            Some(input) => self.answer_words(words, input.as_str().as_bytes(), said),
            None => self.answer_words(words, b"", said),
        }
    }
}

impl Shelf {
    pub fn new(alloc: Global) -> Shelf {
        Shelf {
            stores: Vec::new(alloc),
        }
    }

    fn answer_words(
        &mut self,
        words: &[Text],
        input: &[u8],
        said: &mut Said,
    ) -> Result<(), Memory> {
        match word(words, 0) {
            "=" => self.make(words, said),
            "!" => match self.find(word(words, 1)) {
                Some(store) => act(store, words, input, said),
                None => said.line("no such store"),
            },
            name => match self.find(name) {
                Some(store) => store.command(words, input, said),
                None => said.line("no such store"),
            },
        }
    }

    // Makes a store, in the place of an older one of the same name.
    fn make(&mut self, words: &[Text], said: &mut Said) -> Result<(), Memory> {
        let name = word(words, 1);
        let store = match word(words, 2) {
            "" => Store::blank(said.alloc(), name)?,
            _ => match self.find(word(words, 3)) {
                Some(other) => other.copy(said.alloc(), name)?,
                None => return said.line("no such store"),
            },
        };
        self.put(name, store)
    }

    fn put(&mut self, name: &str, store: Store) -> Result<(), Memory> {
        match self.find(name) {
            Some(older) => *older = store,
            None => self.stores.push(store)?,
        }
        Ok(())
    }

    fn find(&mut self, name: &str) -> Option<&mut Store> {
        for store in self.stores.iter_mut() {
            if store.is_named(name) {
                return Some(store);
            }
        }
        None
    }
}
