//! The run over a file of rows.
use crate::Said;
use std::alloc::Global;
use std::io::{self, BufRead, BufReader};
use std::process::ExitCode;
use u1_base::Memory;

/// What answers the lines that ask.
pub trait Answers {
    /// Puts the answers to the line into `said`, which is empty before. Where memory runs out, the
    /// run prints `> out of memory` and ends.
    fn answer(&mut self, line: &str, said: &mut Said) -> Result<(), Memory>;
}

/// Prints the rows of standard input with the answers that came. The status is 1 where memory runs
/// out, and where standard input or output fails.
pub fn run<A: Answers>(rt: &HostRuntime, answers: &mut A) -> ExitCode {
    match print_rows(rt, answers) {
        Ok(()) => ExitCode::SUCCESS,
        Err(_) => ExitCode::FAILURE,
    }
}

fn print_rows<A: Answers>(rt: &HostRuntime, answers: &mut A) -> io::Result<()> {
    let alloc = rt.alloc();
    let mut said = Said::new(alloc);
    for line in BufReader::new(alloc, rt.reader())?.lines(alloc) {
        print_row(rt, answers, line?.as_str(), &mut said)?;
    }
    Ok(())
}

fn print_row<A: Answers>(
    rt: &HostRuntime,
    answers: &mut A,
    line: &str,
    said: &mut Said,
) -> io::Result<()> {
    if is_answer(line) {
        return Ok(());
    }
    rt.println(line)?;
    if asks(line) {
        said.clear();
        if answers.answer(line, said).is_err() {
            rt.println("> out of memory")?;
            return Err(io::Error::from(io::ErrorKind::OutOfMemory));
        }
        rt.print(said.as_str())?;
    }
    Ok(())
}

fn is_answer(line: &str) -> bool {
    line == ">" || line.starts_with("> ")
}

fn asks(line: &str) -> bool {
    !line.trim().is_empty() && !line.starts_with("#")
}
