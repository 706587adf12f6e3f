//! A text that lies in the value itself.
ghost use Rattle.std.specs.Prelude.{◌≡◌, ◌≤◌, ◌<◌, ◌↔◌, IsSome, IfSome, length};

use std::marker::Model;
use std::str;

/// A UTF-8 text of at most `N` bytes, seen as these.
#[derive(Drop)]
pub(crate) struct Inline<const N: usize> {
    length: u8,
    bytes: [u8; N],
}

impl<const N: usize> Model for Inline<N> {
    ghost use Rattle.std.specs.Prelude.{List, ℕ, ◌≤◌, take, IsUtf8};

    ghost Value = { List ℕ };

    ghost view = { λ t. take t.length t.bytes };

    ghost invariant = { λ t. (t.length ≤ N) × ∥ IsUtf8 (take t.length t.bytes) ∥₁ };
}

impl<const N: usize> Inline<N> {
    /// The text, if it is short enough.
    pub(crate) fn of(text: &str) -> Option<Inline<N>>
        requires { N < 256 }
        ensures variant { IsSome result ↔ (length text.now ≤ N) }
        ensures value { IfSome result (λ t. t ≡ text.now) }
    {
        if text.len() > N {
            return None;
        }
        let mut bytes = [0; N];
        bytes[..text.len()].copy_from_slice(text.as_bytes());
        Some(Inline {
            length: text.len() as u8,
            bytes,
        })
    }

    /// The same text.
    pub(crate) fn again(&self) -> Inline<N>
        ensures { result ≡ self.now }
    {
        Inline {
            length: self.length,
            bytes: self.bytes,
        }
    }

    pub(crate) fn as_str(&self) -> &str
        ensures { result.now ≡ self.now }
    {
        unsafe { str::from_utf8_unchecked(&self.bytes[..self.length as usize]) }
    }
}
