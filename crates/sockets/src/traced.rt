//! Bytes that contracts see and that take no memory.
ghost use Rattle.std.specs.Prelude.{◌≡◌, [], ◌∷◌, ◌++◌, OnOk, OnErr, ℕ, take};

use std::alloc::Global;
use std::marker::Model;
use std::sync::ledger::Blank;
use u1_base::Memory;

/// Bytes that are noted and not kept: each is a token of no size, which contracts see as the byte.
#[derive(Drop)]
pub(crate) struct Traced {
    tokens: Vec<Blank>,
}

impl Model for Traced {
    ghost use Rattle.std.specs.Prelude.{List, ℕ, map};

    ghost Value = { List ℕ };

    ghost view = { λ s. map (λ b. b.parts) s.tokens.items };
}

impl Traced {
    pub(crate) fn new(alloc: Global) -> Traced
        ensures { result ≡ [] }
    {
        Traced {
            tokens: Vec::new(alloc),
        }
    }

    fn note_one(&mut self, byte: u8) -> Result<(), Memory>
        ensures ok { OnOk result (self.new ≡ self.old ++ byte ∷ []) }
        ensures err { OnErr result (self.new ≡ self.old) }
    {
        self.tokens.push(Blank::new(u64::from(byte)))?;
        Ok(())
    }

    /// Notes the bytes behind those before. At an error a front of them is noted.
    pub(crate) fn note(&mut self, bytes: &[u8]) -> Result<(), Memory>
        ensures ok { OnOk result (self.new ≡ self.old ++ bytes.now) }
        ensures err { OnErr result ((k : ℕ) × (self.new ≡ self.old ++ take k bytes.now)) }
    {
        for &byte in bytes {
            self.note_one(byte)?;
        }
        Ok(())
    }

    /// Notes the bytes behind those before. At an error none of them is noted.
    pub(crate) fn note_all(&mut self, bytes: &[u8]) -> Result<(), Memory>
        ensures ok { OnOk result (self.new ≡ self.old ++ bytes.now) }
        ensures err { OnErr result (self.new ≡ self.old) }
    {
        let mut more = Traced::new(*self.tokens.allocator());
        more.note(bytes)?;
        self.tokens.append(&mut more.tokens)?;
        Ok(())
    }
}
