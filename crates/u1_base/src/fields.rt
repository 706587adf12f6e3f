//! Numbers and texts as images and bodies spell them: numbers big-endian, a text after its length.
ghost use Rattle.std.specs.Prelude.{◌≡◌, ◌+◌, ◌<◌, ◌≤◌, ◌++◌, OnOk, OnErr, length, take, drop};
ghost use Rattle.u1_base.specs.Fields.{text_field, u16_bytes, u32_bytes, u64_bytes};

use crate::{Bytes, Memory};

impl Bytes {
    /// Adds the piece at the end, or leaves the list as it was.
    pub fn extend(&mut self, piece: &[u8]) -> Result<(), Memory>
        ensures ok { OnOk result (self.new ≡ self.old ++ piece.now) }
        ensures err { OnErr result (self.new ≡ self.old) }
    {
        self.inner.extend_from_slice(piece)?;
        Ok(())
    }

    #[tactic(auto, unfolding(crate::specs::Fields::u16_bytes))]
    pub fn push_u16(&mut self, number: u16) -> Result<(), Memory>
        ensures ok { OnOk result (self.new ≡ self.old ++ u16_bytes number) }
        ensures err { OnErr result (self.new ≡ self.old) }
    {
        self.extend(&number.to_be_bytes())
    }

    #[tactic(auto, unfolding(crate::specs::Fields::u32_bytes))]
    pub fn push_u32(&mut self, number: u32) -> Result<(), Memory>
        ensures ok { OnOk result (self.new ≡ self.old ++ u32_bytes number) }
        ensures err { OnErr result (self.new ≡ self.old) }
    {
        self.extend(&number.to_be_bytes())
    }

    #[tactic(auto, unfolding(crate::specs::Fields::u64_bytes))]
    pub fn push_u64(&mut self, number: u64) -> Result<(), Memory>
        ensures ok { OnOk result (self.new ≡ self.old ++ u64_bytes number) }
        ensures err { OnErr result (self.new ≡ self.old) }
    {
        self.extend(&number.to_be_bytes())
    }

    /// Adds the length in two bytes and then the text. At an error a front of that was added.
    #[tactic(auto, unfolding(crate::specs::Fields::text_field))]
    pub fn push_text(&mut self, text: &str) -> Result<(), Memory>
        requires { length text.now < 65536 }
        ensures { OnOk result (self.new ≡ self.old ++ text_field text.now) }
    {
        self.push_u16(text.len() as u16)?;
        self.extend(text.as_bytes())
    }
}

/// The number that stands in two bytes.
#[tactic(auto, unfolding(crate::specs::Fields::u16_bytes))]
pub fn u16_at(bytes: &[u8], place: usize) -> u16
    requires { place + 2 ≤ length bytes.now }
    ensures { take 2 (drop place bytes.now) ≡ u16_bytes result }
{
    u16::from_be_bytes([bytes[place], bytes[place + 1]])
}

/// The number that stands in four bytes.
#[tactic(auto, unfolding(crate::specs::Fields::u32_bytes))]
pub fn u32_at(bytes: &[u8], place: usize) -> u32
    requires { place + 4 ≤ length bytes.now }
    ensures { take 4 (drop place bytes.now) ≡ u32_bytes result }
{
    let piece = &bytes[place..place + 4];
    u32::from_be_bytes([piece[0], piece[1], piece[2], piece[3]])
}

/// The number that stands in eight bytes.
#[tactic(auto, unfolding(crate::specs::Fields::u64_bytes))]
pub fn u64_at(bytes: &[u8], place: usize) -> u64
    requires { place + 8 ≤ length bytes.now }
    ensures { take 8 (drop place bytes.now) ≡ u64_bytes result }
{
    let piece = &bytes[place..place + 8];
    u64::from_be_bytes([
        piece[0], piece[1], piece[2], piece[3], piece[4], piece[5], piece[6], piece[7],
    ])
}
