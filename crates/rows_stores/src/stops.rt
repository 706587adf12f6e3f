//! A command that is made again and again, each call of a disk or a stream failing in turn, and
//! stopped then: how it ended, and what the next command finds.
use crate::ids::named;
use crate::runs::{Broken, Ran, run_on};
use command_lines::outcome_status;
use crash_harness::{Files, Left};
use disks::DiskName;
use rows::Said;
use std::alloc::Global;
use std::str;
use u1_base::{Memory, Text};

const DISKS: [DiskName; 3] = [DiskName::Root, DiskName::Left, DiskName::Right];

// No command of the rows prints so many pieces.
const MOST_OUTPUTS: u64 = 200;

// What is tried: a command over these files, and the question that is asked then. The first of the
// words stands for the store's folder.
#[derive(Clone, Copy)]
struct Trial<'a> {
    alloc: Global,
    files: Files<'a>,
    command: &'a [Text],
    question: &'a [Text],
    input: &'a [u8],
}

/// Tries what the words `! NAME stops QUESTION : COMMAND` say.
pub fn stops<'a>(
    files: Files<'a>,
    words: &'a [Text],
    input: &'a [u8],
    said: &mut Said,
) -> Result<(), Memory> {
    let colon = words.iter().position(|word| word.as_str() == ":");
    let colon = colon.unwrap_or(0);
    let trial = Trial {
        alloc: said.alloc(),
        files,
        command: words.get(colon..).unwrap_or(&[]),
        question: words.get(2..colon).unwrap_or(&[]),
        input,
    };
    let mut lines = Vec::new(trial.alloc);
    trial.run_all(&mut lines)?;
    for line in lines.as_slice() {
        said.line(line.as_str())?;
    }
    Ok(())
}

/// Asks the question of the words `! NAME cuts QUESTION` over the left image, cut to each shorter
/// length, and tells of each answer at which lengths it comes.
pub fn cuts(files: Files<'_>, words: &[Text], said: &mut Said) -> Result<(), Memory> {
    let question = words.get(2..).unwrap_or(&[]);
    let mut from = 0;
    let mut last = answer_cut(said.alloc(), files, question, 0)?;
    for length in 1..files.1.len() {
        let answer = answer_cut(said.alloc(), files, question, length)?;
        if answer.as_str() != last.as_str() {
            tell_range(said, from, length.saturating_sub(1), last.as_str())?;
            from = length;
            last = answer;
        }
    }
    tell_range(said, from, files.1.len().saturating_sub(1), last.as_str())
}

fn answer_cut(
    alloc: Global,
    files: Files<'_>,
    question: &[Text],
    length: usize,
) -> Result<String, Memory> {
    let left = files.1.get(..length).unwrap_or(files.1);
    let cut = Files(files.0, left, files.2);
    let ran = run_on(alloc, question, cut, b"", Broken::Nothing)?;
    let mut line = String::new(alloc);
    push_joined(alloc, &mut line, ran.printed.bytes())?;
    write!(line, " [{}]", outcome_status(&ran.outcome))?;
    Ok(line)
}

// `FROM..TO ANSWER`, or the length alone
fn tell_range(said: &mut Said, from: usize, to: usize, answer: &str) -> Result<(), Memory> {
    let mut line = String::new(said.alloc());
    write!(line, "{from}")?;
    if from < to {
        write!(line, "..{to}")?;
    }
    said.word(line.as_str())?;
    said.line(answer)
}

// The lines that were told, each once.
type Lines = Vec<String>;

fn tell(lines: &mut Lines, line: String) -> Result<(), Memory> {
    for told in lines.iter() {
        if told.as_str() == line.as_str() {
            return Ok(());
        }
    }
    lines.push(line)?;
    Ok(())
}

// The lines that were printed, in one.
fn push_joined(alloc: Global, line: &mut String, printed: &[u8]) -> Result<(), Memory> {
    let text = named(alloc, str::from_utf8(printed).unwrap_or("no text"))?;
    for (place, piece) in text.as_str().lines().enumerate() {
        if place > 0 {
            line.push_str(" / ")?;
        }
        line.push_str(piece)?;
    }
    Ok(())
}

impl Trial<'_> {
    fn run_all(&self, lines: &mut Lines) -> Result<(), Memory> {
        let whole = self.run(Broken::Nothing)?;
        self.stop_disks(&whole, lines)?;
        if !self.input.is_empty() {
            self.stop(Broken::Input(0), &whole, lines)?;
            self.stop(Broken::Input(1), &whole, lines)?;
        }
        self.stop_outputs(&whole, lines)
    }

    fn stop_disks(&self, whole: &Ran, lines: &mut Lines) -> Result<(), Memory> {
        for name in DISKS {
            for call in 0..whole.disks.disk(name).calls() {
                self.stop(Broken::Disk(name, call), whole, lines)?;
            }
        }
        Ok(())
    }

    // Up to the first number that is not reached: that run ends as ever.
    fn stop_outputs(&self, whole: &Ran, lines: &mut Lines) -> Result<(), Memory> {
        for call in 0..MOST_OUTPUTS {
            if self.stop(Broken::Output(call), whole, lines)? {
                return Ok(());
            }
        }
        Err(Memory)
    }

    // Whether the run ended as ever.
    fn stop(&self, broken: Broken, whole: &Ran, lines: &mut Lines) -> Result<bool, Memory> {
        let ran = self.run(broken)?;
        self.tell_stop(broken, &ran, whole, lines)?;
        Ok(outcome_status(&ran.outcome) == 0)
    }

    fn tell_stop(
        &self,
        broken: Broken,
        ran: &Ran,
        whole: &Ran,
        lines: &mut Lines,
    ) -> Result<(), Memory> {
        let end = self.end_of(broken, ran, whole)?;
        let left = Left::of(self.alloc, &ran.disks)?;
        self.ask_all(&left, end.as_str(), lines)
    }

    fn run(&self, broken: Broken) -> Result<Ran, Memory> {
        run_on(self.alloc, self.command, self.files, self.input, broken)
    }

    // What was printed, and the status.
    fn end_of(&self, broken: Broken, ran: &Ran, whole: &Ran) -> Result<String, Memory> {
        let printed = ran.printed.bytes();
        let status = outcome_status(&ran.outcome);
        let mut end = String::new(self.alloc);
        match broken {
            Broken::Output(_) if whole.printed.bytes().starts_with(printed) && status != 0 => {
                end.push_str("front")?;
            }
            _ => push_joined(self.alloc, &mut end, printed)?,
        }
        write!(end, " [{status}]: ")?;
        Ok(end)
    }

    fn ask_all(&self, left: &Left, end: &str, lines: &mut Lines) -> Result<(), Memory> {
        for number in 0..Left::COUNT {
            if let Some(files) = left.files(number) {
                self.ask(files, end, lines)?;
            }
        }
        Ok(())
    }

    fn ask(&self, files: Files<'_>, end: &str, lines: &mut Lines) -> Result<(), Memory> {
        let ran = run_on(self.alloc, self.question, files, b"", Broken::Nothing)?;
        let mut line = String::from_str(self.alloc, end)?;
        push_joined(self.alloc, &mut line, ran.printed.bytes())?;
        tell(lines, line)
    }
}
