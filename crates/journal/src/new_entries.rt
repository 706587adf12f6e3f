//! Entries that are made ready ahead, to be added together.
ghost use Rattle.std.specs.Prelude.{◌≡◌, ℕ, ◌+◌, ◌-◌, ◌^◌, ◌<◌, ◌≤◌, [], ◌∷◌, ◌++◌, ◌↔◌, List, IsTrue};
ghost use Rattle.std.specs.Prelude.{OnErr, OnOk, length, set};
ghost use Rattle.journal.specs.Entries.{AreSpelled};

use crate::layout::OPEN_GATE;
use crate::spelling::behind_the_gate;
use std::alloc::Global;
use std::marker::Model;
use u1_base::Memory;

/// Entries that no image has yet, seen as the bytes that stand behind the gate of the first one.
///
/// `Journal::stage` adds a body to them, and `Journal::append_all` adds all of them to an image, for
/// which it needs no memory.
#[derive(Drop)]
pub struct NewEntries {
    bytes: Vec<u8>,
}

impl Model for NewEntries {
    ghost use Rattle.std.specs.Prelude.{ℕ, List};

    ghost Value = { List ℕ };

    ghost view = { λ e. e.bytes.items };
}

impl NewEntries {
    /// No entries.
    pub fn new(alloc: Global) -> NewEntries
        ensures { result ≡ [] }
    {
        NewEntries {
            bytes: Vec::new(alloc),
        }
    }

    pub fn is_empty(&self) -> bool
        ensures { IsTrue result ↔ (self.now ≡ []) }
    {
        self.bytes.is_empty()
    }

    /// By how many bytes they lengthen an image.
    pub fn len(&self) -> usize
        ensures { result ≡ length self.now }
    {
        self.bytes.len()
    }

    /// Lets all of them go, and keeps the memory for later ones.
    pub fn clear(&mut self)
        ensures { self.new ≡ [] }
    {
        self.bytes.clear();
    }

    pub(crate) fn as_slice(&self) -> &[u8]
        ensures { result.now ≡ self.now }
    {
        self.bytes.as_slice()
    }

    /// Adds an entry of 1 to 2^32-1 bytes last.
    pub fn push(&mut self, alloc: Global, body: &[u8]) -> Result<(), Memory>
        requires some { 1 ≤ length body.now }
        requires short { length body.now < 2 ^ 32 }
        ensures spelled { OnOk result ((bodies : List (List ℕ)) → AreSpelled bodies self.old
            → AreSpelled (bodies ++ body.now ∷ []) self.new) }
        ensures length { OnOk result (length self.new ≡ length self.old + 5 + length body.now) }
        ensures same { OnErr result (self.new ≡ self.old) }
    {
        let behind = behind_the_gate(alloc, body)?;
        let end = self.bytes.len();
        match self.bytes.extend_from_slice(behind.as_slice()) {
            Ok(()) => {
                open_before(&mut self.bytes, end);
                Ok(())
            }
            Err(_) => Err(Memory),
        }
    }
}

// Opens the gate that stands before the place, if there is one.
fn open_before(bytes: &mut Vec<u8>, place: usize)
    requires { place ≤ length bytes.old.items }
    ensures none { place ≡ 0 → bytes.new.items ≡ bytes.old.items }
    ensures some { 1 ≤ place → bytes.new.items ≡ set bytes.old.items (place - 1) OPEN_GATE }
    ensures length { length bytes.new.items ≡ length bytes.old.items }
{
    if place > 0 {
        bytes[place - 1] = OPEN_GATE;
    }
}
