//! Numbers and bytes in words.
use std::alloc::Global;
use u1_base::Memory;

/// The number that the digits tell, where it is below 2^64.
pub fn number_of(word: &str) -> Option<u64> {
    word.parse::<u64>().ok()
}

/// The bytes of a word of base 16, two digits each: none where it is no such word.
pub fn bytes_of_hex(alloc: Global, word: &str) -> Result<Option<Vec<u8>>, Memory> {
    let mut bytes = Vec::new(alloc);
    let mut high = None;
    for c in word.chars() {
        let Some(digit) = c.to_digit(16) else {
            return Ok(None);
        };
        match high {
            None => high = Some(digit),
            Some(first) => {
                bytes.push(byte_of(first, digit))?;
                high = None;
            }
        }
    }
    if high.is_some() {
        return Ok(None);
    }
    Ok(Some(bytes))
}

// The byte of two digits of base 16.
pub(crate) fn byte_of(high: u32, low: u32) -> u8 {
    let byte = high.wrapping_mul(16).wrapping_add(low) % 256;
    byte as u8
}

pub(crate) fn push_number(text: &mut String, number: u64) -> Result<(), Memory> {
    write!(text, "{number}")?;
    Ok(())
}
