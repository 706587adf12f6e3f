//! The answers to one line.
use crate::numbers::push_number;
use std::alloc::Global;
use u1_base::Memory;

/// The answers to one line. One that has several words is put word by word, and then ended.
#[derive(Drop)]
pub struct Said {
    text: String,
    is_begun: bool,
}

impl Said {
    pub fn new(alloc: Global) -> Said {
        Said {
            text: String::new(alloc),
            is_begun: false,
        }
    }

    pub fn alloc(&self) -> Global {
        *self.text.allocator()
    }

    /// An answer that is this text.
    pub fn line(&mut self, text: &str) -> Result<(), Memory> {
        self.word(text)?;
        self.end()
    }

    /// An answer for each line of the text, as of what a command printed.
    pub fn lines(&mut self, text: &str) -> Result<(), Memory> {
        for line in text.lines() {
            self.line(line)?;
        }
        Ok(())
    }

    /// The answer `[N]`, for a status other than 0.
    pub fn status(&mut self, status: u8) -> Result<(), Memory> {
        if status == 0 {
            return Ok(());
        }
        self.word("[")?;
        push_number(&mut self.text, u64::from(status))?;
        self.join("]")?;
        self.end()
    }

    /// A word of the present answer, behind a blank.
    pub fn word(&mut self, word: &str) -> Result<(), Memory> {
        self.begin()?;
        self.text.push(' ')?;
        self.text.push_str(word)?;
        Ok(())
    }

    /// A further piece of the present word.
    pub fn join(&mut self, piece: &str) -> Result<(), Memory> {
        if self.is_begun {
            self.text.push_str(piece)?;
            return Ok(());
        }
        self.word(piece)
    }

    pub fn number(&mut self, number: u64) -> Result<(), Memory> {
        self.word("")?;
        push_number(&mut self.text, number)
    }

    /// A word in quotes, with the escapes that `parts_of` reads: for a text that may have blanks,
    /// be empty or have lines.
    pub fn quoted(&mut self, text: &str) -> Result<(), Memory> {
        self.word("\"")?;
        for c in text.chars() {
            self.escaped(c)?;
        }
        self.join("\"")
    }

    /// The bytes as one word, two digits of base 16 each.
    pub fn hex(&mut self, bytes: &[u8]) -> Result<(), Memory> {
        self.word("")?;
        for byte in bytes {
            self.hex_of(*byte)?;
        }
        Ok(())
    }

    /// Ends the present answer; one without words is `>`.
    pub fn end(&mut self) -> Result<(), Memory> {
        self.begin()?;
        self.text.push('\n')?;
        self.is_begun = false;
        Ok(())
    }

    pub fn clear(&mut self) {
        self.text.clear();
        self.is_begun = false;
    }

    /// The answers as they are printed.
    pub fn as_str(&self) -> &str {
        self.text.as_str()
    }

    fn begin(&mut self) -> Result<(), Memory> {
        if !self.is_begun {
            self.text.push('>')?;
            self.is_begun = true;
        }
        Ok(())
    }

    fn escaped(&mut self, c: char) -> Result<(), Memory> {
        match c {
            '\n' => self.text.push_str("\\n")?,
            '\t' => self.text.push_str("\\t")?,
            '\r' => self.text.push_str("\\r")?,
            '"' => self.text.push_str("\\\"")?,
            '\\' => self.text.push_str("\\\\")?,
            _ => match u8::try_from(c) {
                Ok(byte) if byte < 32 || (byte > 126 && byte < 160) => {
                    self.text.push_str("\\x")?;
                    self.hex_of(byte)?;
                }
                _ => self.text.push(c)?,
            },
        }
        Ok(())
    }

    fn hex_of(&mut self, byte: u8) -> Result<(), Memory> {
        self.text.push(hex_digit(byte / 16))?;
        self.text.push(hex_digit(byte % 16))?;
        Ok(())
    }
}

fn hex_digit(digit: u8) -> char {
    match char::from_digit(u32::from(digit), 16) {
        Some(c) => c,
        None => '?',
    }
}
