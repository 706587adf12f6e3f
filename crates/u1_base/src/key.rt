//! The key of a document in an index.
ghost use Rattle.std.specs.Prelude.{◌≡◌, ◌≤◌, ◌∷◌, [], IfOk, length};
ghost use Rattle.u1_base.specs.declared.limits.TheConstants.{MOST_KEY_TEXTS};

use crate::{Items, Memory, Text, Texts};
use std::marker::Model;
use std::slice;

/// One to `limits::MOST_KEY_TEXTS` texts, seen as their list. The text of a key of one takes no
/// memory beside its own.
#[derive(Drop)]
pub struct Key {
    texts: KeyTexts,
}

#[derive(Drop)]
enum KeyTexts {
    One(Text),
    Several(Texts),
}

const _: () = prove!(size_of::<Key>() == 32);

/// A list of keys.
pub type Keys = Items<Key>;

impl Model for Key {
    ghost use Rattle.std.specs.Prelude.{◌≤◌, List, ℕ, length};
    ghost use Rattle.u1_base.specs.declared.limits.TheConstants.{MOST_KEY_TEXTS};

    ghost Value = { List (List ℕ) };

    ghost use Rattle.u1_base.specs.KeyTexts.{texts_of};

    ghost view = { λ k. texts_of k.texts };

    ghost invariant = { λ k. (1 ≤ length (texts_of k.texts))
        × (length (texts_of k.texts) ≤ MOST_KEY_TEXTS) };
}

impl Key {
    pub fn of(texts: Texts) -> Key
        requires some { 1 ≤ length texts }
        requires few { length texts ≤ MOST_KEY_TEXTS }
        ensures { result ≡ texts }
    {
        let mut texts = texts.into_vec();
        if texts.len() == 1
            && let Some(only) = texts.pop()
        {
            return Key::of_one(only);
        }
        Key {
            texts: KeyTexts::Several(Texts::from_vec(texts)),
        }
    }

    /// The key of one text.
    pub fn of_one(text: Text) -> Key
        ensures { result ≡ text ∷ [] }
    {
        Key {
            texts: KeyTexts::One(text),
        }
    }

    pub fn texts(&self) -> &[Text]
        ensures value { result.now ≡ self.now }
        ensures some { 1 ≤ length self.now }
        ensures few { length self.now ≤ MOST_KEY_TEXTS }
    {
        match &self.texts {
            KeyTexts::One(text) => slice::from_ref(text),
            KeyTexts::Several(texts) => texts.as_slice(),
        }
    }

    pub fn copy(&self) -> Result<Key, Memory>
        ensures { IfOk result (λ key. key ≡ self.now) }
    {
        let texts = match &self.texts {
            KeyTexts::One(text) => KeyTexts::One(text.duplicate()?),
            KeyTexts::Several(texts) => KeyTexts::Several(texts.duplicate()?),
        };
        Ok(Key { texts })
    }
}
