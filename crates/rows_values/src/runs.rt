//! Equal answers in a row, which are printed once.
use rows::Said;
use std::alloc::Global;
use u1_base::Memory;

#[derive(Drop)]
pub(crate) struct Runs {
    next: Said,
    last: String,
    count: u64,
}

impl Runs {
    pub(crate) fn new(alloc: Global) -> Runs {
        Runs {
            next: Said::new(alloc),
            last: String::new(alloc),
            count: 0,
        }
    }

    /// Takes the next answer.
    pub(crate) fn next(&mut self) -> &mut Said {
        self.next.clear();
        &mut self.next
    }

    /// Counts the answer that was taken, and prints those before it if it is another one.
    pub(crate) fn take(&mut self, said: &mut Said) -> Result<(), Memory> {
        if self.count > 0 && self.next.as_str() == self.last.as_str() {
            self.count = self.count.saturating_add(1);
            return Ok(());
        }
        self.end(said)?;
        self.last.clear();
        self.last.push_str(self.next.as_str())?;
        self.count = 1;
        Ok(())
    }

    /// Prints the last answer, and how many times it came if that is several times.
    pub(crate) fn end(&self, said: &mut Said) -> Result<(), Memory> {
        for line in self.last.as_str().lines() {
            said.word(line.strip_prefix("> ").unwrap_or(line))?;
            if self.count > 1 {
                said.join(",")?;
                said.number(self.count)?;
                said.word("times")?;
            }
            said.end()?;
        }
        Ok(())
    }
}
