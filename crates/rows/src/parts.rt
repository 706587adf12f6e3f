//! The words of a line.
use crate::numbers::{byte_of, push_number};
use std::alloc::Global;
use std::mem;
use u1_base::{Memory, Text, Texts};

/// A line in parts.
#[derive(Drop)]
pub struct Parts {
    pub words: Texts,
    /// The text behind a word that begins with `<`.
    pub input: Option<Text>,
}

/// The words of a line, which blanks part, up to one that begins with `<`: what follows that sign,
/// up to the end of the line, is the input. A word or an input that begins with `"` goes to the
/// next `"`, and there
/// - `\n`, `\t`, `\r` are the line feed, tabulator and carriage return, `\"` and `\\` themselves;
/// - `\xHH` is the character of this number in base 16;
/// - `\(N TEXT)` is N times the text up to the next `)`, which has one character or more; in
///   `\(A-B TEXT)` it stands once for each number from A up to, but without, B, and each `#` in it
///   is that number.
///
/// Every other text stands for itself: `{"a":1}` is one word, since it does not begin with `"`.
pub fn parts_of(alloc: Global, line: &str) -> Result<Parts, Memory> {
    let mut parting = Parting {
        place: Place::Between,
        word: String::new(alloc),
        piece: String::new(alloc),
        from: 0,
        to: 0,
        is_input: false,
        parts: Parts {
            words: Texts::new(alloc),
            input: None,
        },
    };
    for c in line.chars() {
        parting.take(c)?;
    }
    match parting.place {
        Place::Between => {}
        _ => parting.end_word()?,
    }
    Ok(parting.parts)
}

// Where in a line a character stands.
#[derive(Clone, Copy)]
enum Place {
    Between,
    Begin,
    Plain,
    Quoted,
    Escaped,
    High,
    Low(u32),
    Count,
    Repeated,
}

#[derive(Drop)]
struct Parting {
    place: Place,
    word: String,
    // The repeated text, and the numbers that it stands for.
    piece: String,
    from: u32,
    to: u32,
    is_input: bool,
    parts: Parts,
}

impl Parting {
    fn take(&mut self, c: char) -> Result<(), Memory> {
        match self.place {
            Place::Between => self.begin(c),
            Place::Begin => self.first(c),
            Place::Plain => self.plain(c),
            Place::Quoted => self.quoted(c),
            Place::Escaped => self.escaped(c),
            Place::High | Place::Low(_) => self.digit(c),
            Place::Count => self.count(c),
            Place::Repeated => self.repeated(c),
        }
    }

    fn begin(&mut self, c: char) -> Result<(), Memory> {
        match c {
            ' ' => Ok(()),
            '<' => {
                self.is_input = true;
                self.place = Place::Begin;
                Ok(())
            }
            _ => self.first(c),
        }
    }

    fn first(&mut self, c: char) -> Result<(), Memory> {
        self.place = Place::Plain;
        if c == '"' {
            self.place = Place::Quoted;
            return Ok(());
        }
        self.plain(c)
    }

    fn plain(&mut self, c: char) -> Result<(), Memory> {
        if c == ' ' && !self.is_input {
            return self.end_word();
        }
        self.word.push(c)?;
        Ok(())
    }

    fn quoted(&mut self, c: char) -> Result<(), Memory> {
        match c {
            '"' => self.end_word(),
            '\\' => {
                self.place = Place::Escaped;
                Ok(())
            }
            _ => Ok(self.word.push(c)?),
        }
    }

    fn escaped(&mut self, c: char) -> Result<(), Memory> {
        self.place = Place::Quoted;
        match c {
            'n' => self.word.push('\n')?,
            't' => self.word.push('\t')?,
            'r' => self.word.push('\r')?,
            'x' => self.place = Place::High,
            '(' => self.place = Place::Count,
            _ => self.word.push(c)?,
        }
        Ok(())
    }

    fn digit(&mut self, c: char) -> Result<(), Memory> {
        let digit = c.to_digit(16).unwrap_or(0);
        match self.place {
            Place::Low(high) => {
                self.place = Place::Quoted;
                self.word.push(char::from(byte_of(high, digit)))?;
            }
            _ => self.place = Place::Low(digit),
        }
        Ok(())
    }

    fn count(&mut self, c: char) -> Result<(), Memory> {
        match c {
            ' ' => self.place = Place::Repeated,
            '-' => {
                self.from = self.to;
                self.to = 0;
            }
            _ => {
                let digit = c.to_digit(10).unwrap_or(0);
                self.to = self.to.wrapping_mul(10).wrapping_add(digit);
            }
        }
        Ok(())
    }

    fn repeated(&mut self, c: char) -> Result<(), Memory> {
        if c != ')' || self.piece.is_empty() {
            self.piece.push(c)?;
            return Ok(());
        }
        self.place = Place::Quoted;
        for number in self.from..self.to {
            push_piece(&mut self.word, self.piece.as_str(), number)?;
        }
        self.piece.clear();
        self.from = 0;
        self.to = 0;
        Ok(())
    }

    fn end_word(&mut self) -> Result<(), Memory> {
        self.place = Place::Between;
        let alloc = *self.word.allocator();
        let word = Text::from_string(mem::replace(&mut self.word, String::new(alloc)))?;
        if self.is_input {
            self.parts.input = Some(word);
            self.is_input = false;
            return Ok(());
        }
        self.parts.words.push(word)
    }
}

// The text, with the number for each `#`.
fn push_piece(word: &mut String, piece: &str, number: u32) -> Result<(), Memory> {
    for c in piece.chars() {
        if c == '#' {
            push_number(word, u64::from(number))?;
        } else {
            word.push(c)?;
        }
    }
    Ok(())
}
