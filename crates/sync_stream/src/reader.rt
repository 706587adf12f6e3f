//! Reads a stream that comes in pieces.
ghost use Rattle.std.specs.Prelude.{◌≡◌, ◌≢◌, ◌++◌, ◌⊎◌, ◌<◌, ◌≤◌, false, true, Err, None, Some, ℕ};
ghost use Rattle.std.specs.Prelude.{List};
ghost use Rattle.std.specs.Prelude.{[], IfErr, IfOk, IfSome, IsSomeAnd, OnErr, OnOk, length};
ghost use Rattle.sync_stream.specs.HeldText.{Answers, EndsAgain, Finishes, HeldText, IsReadUp};
ghost use Rattle.sync_stream.specs.inner.HeldText.{PassesOne};
ghost use Rattle.sync_stream.specs.HeldText.{StandsFor, fresh, line_in, lines_given};
ghost use Rattle.sync_stream.specs.inner.HeldText.{lines_passed};
ghost use Rattle.sync_stream.specs.inner.Says.{IsShape};
ghost use Rattle.sync_stream.specs.Stream.{Ends, IsGood, answered, end_fault, fault_of, is_closed};
ghost use Rattle.sync_stream.specs.Stream.{is_long_rest};
ghost use Rattle.sync_stream.specs.declared.fault.LineFault.{LineFault as Fault};
ghost use Rattle.sync_stream.specs.declared.fault.LineFault.TheVariants.{At};
ghost use Rattle.sync_stream.specs.declared.fault.StreamFault.TheVariants.{Memory as NoMemory};
ghost use Rattle.sync_stream.specs.declared.line.Line.{Line as Said};
ghost use Rattle.sync_stream.specs.declared.line.Line.TheVariants.{End};
ghost use Rattle.sync_stream.specs.declared.line.Next.TheVariants.{Closed, Heading, Opening};

use crate::buffer::Buffer;
use crate::line::{HeadKind, Line, Next, Passed};
use crate::says::says;
use crate::scratches::Scratches;
use crate::{LineFault, StreamFault};
use std::alloc::Global;
use std::marker::Model;
use u1_base::Memory;
use u1_base::limits::MOST_LINE_BYTES;

/// Reads a stream in any pieces. It keeps only the unfinished line, the fault that it gave, and
/// memory for the texts of one line.
#[derive(Drop)]
pub struct Reader {
    kind: HeadKind,
    number: u64,
    place: Next,
    fault: Option<LineFault>,
    rest: Buffer,
    scratch: Scratches,
}

impl Model for Reader {
    ghost use Rattle.sync_stream.specs.HeldText.{HeldText};

    ghost Value = { HeldText };

    ghost view = { λ r. record {
      kind = r.kind;
      number = r.number;
      place = r.place;
      fault =
          r.fault;
      rest = r.rest;
    } };
}

impl Reader {
    /// A reader to which nothing was pushed.
    pub fn new(alloc: Global, kind: HeadKind) -> Reader
        ensures fresh { result ≡ fresh kind }
        ensures stands { StandsFor result [] [] }
    {
        Reader {
            kind,
            number: 1,
            place: Next::Opening,
            fault: None,
            rest: Buffer::new(alloc),
            scratch: Scratches::new(alloc),
        }
    }

    /// Adds the piece to the pushed bytes. It never finds a fault first.
    pub fn push(&mut self, piece: &[u8]) -> Result<(), StreamFault>
        ensures ok { OnOk result ((text : List ℕ) (given : List Said)
            → StandsFor self.old text given
            → StandsFor self.new (text ++ piece.now) given) }
        ensures err { IfErr result (λ e. (e ≡ NoMemory)
            ⊎ IsSomeAnd self.old.fault (λ f. e ≡ answered f)) }
        ensures left { OnErr result (self.new ≡ self.old) }
        ensures again { IfSome self.old.fault
            (λ f. (result ≡ Err (answered f)) × (self.new ≡ self.old)) }
        ensures no_fault { OnOk result (self.new.fault ≡ None) }
        ensures pushed { OnOk result
            (self.new ≡ record self.old { rest = self.old.rest ++ piece.now }) }
    {
        if let Some(fault) = self.fault {
            return Err(fault.into());
        }
        self.rest.push(piece)?;
        Ok(())
    }

    /// The next line, if a whole one is there. After the end it gives the end again, or the fault
    /// of what follows it.
    pub fn next_line(&mut self, alloc: Global) -> Result<Option<Line>, StreamFault>
        ensures stands { (text : List ℕ) (given : List Said) → StandsFor self.old text given
            → StandsFor self.new text (given ++ lines_given self.old.place result) }
        ensures answers { Answers self.old self.new result }
        ensures kind { self.new.kind ≡ self.old.kind }
        ensures again { IfSome self.old.fault
            (λ f. (result ≡ Err (answered f)) × (self.new ≡ self.old)) }
        ensures takes { IfOk result (λ o. IfSome o (λ _. is_closed self.old.place ≡ false
            → length self.new.rest < length self.old.rest)) }
        ensures open_ { IfOk result (λ o. o ≢ Some End → is_closed self.new.place ≡ false) }
        ensures ended { self.old.fault ≡ None → is_closed self.old.place ≡ true
            → EndsAgain self.old self.new result }
    {
        if let Some(fault) = self.fault {
            return Err(fault.into());
        }
        if self.place == Next::Closed {
            return Ok(self.after_end()?);
        }
        self.before_end(alloc)
    }

    // The next line of a reader that has given neither a fault nor the end.
    #[tactic(auto, using(crate::proofs::Stands::faulty_after, crate::proofs::Stands::answers_from))]
    fn before_end(&mut self, alloc: Global) -> Result<Option<Line>, StreamFault>
        requires no_fault { self.old.fault ≡ None }
        requires open_ { is_closed self.old.place ≡ false }
        ensures stands { (text : List ℕ) (given : List Said) → StandsFor self.old text given
            → StandsFor self.new text (given ++ line_in result) }
        ensures answers { Answers self.old self.new result }
        ensures kind { self.new.kind ≡ self.old.kind }
        ensures takes { IfOk result (λ o. IfSome o
            (λ _. length self.new.rest < length self.old.rest)) }
        ensures open_ { IfOk result (λ o. o ≢ Some End → is_closed self.new.place ≡ false) }
    {
        match self.pass(alloc)? {
            Err(fault) => Err(fault.into()),
            Ok(None) => Ok(None),
            Ok(Some(first)) => match first.line {
                Some(line) => Ok(Some(line)),
                None => self.after_opening(alloc),
            },
        }
    }

    // The line after the line `[`.
    #[tactic(auto, using(crate::proofs::Stands::faulty_after))]
    fn after_opening(&mut self, alloc: Global) -> Result<Option<Line>, StreamFault>
        requires no_fault { self.old.fault ≡ None }
        requires heading { self.old.place ≡ Heading }
        ensures stands { (text : List ℕ) (given : List Said) → StandsFor self.old text given
            → StandsFor self.new text (given ++ line_in result) }
        ensures answers { Answers self.old self.new result }
        ensures kind { self.new.kind ≡ self.old.kind }
        ensures shorter { length self.new.rest ≤ length self.old.rest }
        ensures open_ { IfOk result (λ o. o ≢ Some End → is_closed self.new.place ≡ false) }
    {
        match self.pass(alloc)? {
            Err(fault) => Err(fault.into()),
            Ok(None) => Ok(None),
            Ok(Some(passed)) => Ok(passed.line),
        }
    }

    // What comes after the line `]`.
    fn after_end(&mut self) -> Result<Option<Line>, LineFault>
        requires no_fault { self.old.fault ≡ None }
        requires closed { self.old.place ≡ Closed }
        ensures end { IfOk result
            (λ line. (line ≡ Some End) × (self.old.rest ≡ []) × (self.new ≡ self.old)) }
        ensures more { IfErr result (λ e. (e ≡ At self.old.number) × (self.old.rest ≢ [])
            × (self.new ≡ record self.old { fault = Some e })) }
    {
        if self.rest.len() == 0 {
            return Ok(Some(Line::End));
        }
        let fault = LineFault::At(self.number);
        self.fault = Some(fault);
        Err(fault)
    }

    // Passes the whole line at the front.
    #[tactic(auto, using(crate::proofs::Stands::stands_after))]
    fn pass(&mut self, alloc: Global) -> Result<Result<Option<Passed>, LineFault>, Memory>
        requires no_fault { self.old.fault ≡ None }
        requires open_ { is_closed self.old.place ≡ false }
        ensures passes { IfOk result (λ r. PassesOne self.old self.new r) }
        ensures stands { IfOk result (λ r. (text : List ℕ) (given : List Said)
            → StandsFor self.old text given
            → StandsFor self.new text (given ++ lines_passed r)) }
        ensures shape { IfOk result
            (λ r. IfOk r (λ o. IfSome o (λ passed. IsShape self.old.place passed))) }
        ensures left { OnErr result (self.new ≡ self.old) }
    {
        self.pass_one(alloc)
    }

    fn pass_one(&mut self, alloc: Global) -> Result<Result<Option<Passed>, LineFault>, Memory>
        requires no_fault { self.old.fault ≡ None }
        requires open_ { is_closed self.old.place ≡ false }
        ensures passes { IfOk result (λ r. PassesOne self.old self.new r) }
        ensures shape { IfOk result
            (λ r. IfOk r (λ o. IfSome o (λ passed. IsShape self.old.place passed))) }
        ensures left { OnErr result (self.new ≡ self.old) }
    {
        let Some(at) = self.rest.first_break() else {
            if !is_long_rest(self.rest.rest()) {
                return Ok(Ok(None));
            }
            let fault = LineFault::TooLong(self.number);
            self.fault = Some(fault);
            return Ok(Err(fault));
        };
        match read_line(
            alloc,
            &mut self.scratch,
            self.kind,
            self.number,
            self.place,
            &self.rest.rest()[..at],
        )? {
            Ok(passed) => {
                self.rest.skip(at + 2);
                self.number = self.number.saturating_add(1);
                self.place = passed.place;
                Ok(Ok(Some(passed)))
            }
            Err(fault) => {
                self.fault = Some(fault);
                Ok(Err(fault))
            }
        }
    }

    /// Says that the body ends here: what is left is its last line.
    #[tactic(auto, using(crate::proofs::Stands::ends_of))]
    pub fn finish(&mut self, alloc: Global) -> Result<(), StreamFault>
        requires { IsReadUp self.old }
        ensures finishes { Finishes self.old self.new result }
        ensures again { IfSome self.old.fault
            (λ f. (result ≡ Err (answered f)) × (self.new ≡ self.old)) }
        ensures whole { OnOk result ((text : List ℕ) (given : List Said)
            → StandsFor self.old text given
            → Ends self.old.kind text given None) }
        ensures faulty { IfErr result (λ e. self.old.fault ≡ None
            → (text : List ℕ) (given : List Said) → StandsFor self.old text given
            → (e ≡ NoMemory) ⊎ ((f : Fault) × (e ≡ answered f)
            × Ends self.old.kind text given (Some f))) }
    {
        if let Some(fault) = self.fault {
            return Err(fault.into());
        }
        match end_fault(
            alloc,
            &mut self.scratch,
            self.kind,
            self.number,
            self.place,
            self.rest.rest(),
        )? {
            None => Ok(()),
            Some(fault) => {
                self.fault = Some(fault);
                Err(fault.into())
            }
        }
    }

    /// How many bytes were pushed after the last line that was passed.
    pub fn held(&self) -> u64
        ensures { result ≡ length self.now.rest }
    {
        self.rest.len() as u64
    }
}

// Whether an unended rest is too long, whatever comes after it.
fn is_long_rest(bytes: &[u8]) -> bool
    ensures { result ≡ is_long_rest bytes.now }
{
    let len = bytes.len();
    len > MOST_LINE_BYTES && !(len == MOST_LINE_BYTES + 1 && bytes[len - 1] == b'\r')
}

// What a whole line says, or its fault.
#[tactic(auto, using(crate::proofs::Stands::shape_of))]
fn read_line(
    alloc: Global,
    scratch: &mut Scratches,
    kind: HeadKind,
    number: u64,
    place: Next,
    line: &[u8],
) -> Result<Result<Passed, LineFault>, Memory>
    ensures ok { IfOk result (λ r. IfOk r (λ passed. IsGood kind place line.now passed)) }
    ensures shape { IfOk result (λ r. IfOk r (λ passed. IsShape place passed)) }
    ensures err { IfOk result (λ r. IfErr r (λ e. fault_of kind number place line.now ≡ Some e)) }
{
    if line.len() > MOST_LINE_BYTES {
        return Ok(Err(LineFault::TooLong(number)));
    }
    match says(alloc, scratch, kind, place, line)? {
        Some(passed) => Ok(Ok(passed)),
        None => Ok(Err(LineFault::At(number))),
    }
}

// The fault of a body that ends with this rest.
fn end_fault(
    alloc: Global,
    scratch: &mut Scratches,
    kind: HeadKind,
    number: u64,
    place: Next,
    rest: &[u8],
) -> Result<Option<LineFault>, Memory>
    ensures { IfOk result (λ o. o ≡ end_fault kind number place rest.now) }
{
    if place == Next::Closed {
        return Ok(if rest.is_empty() {
            None
        } else {
            Some(LineFault::At(number))
        });
    }
    if rest.len() > MOST_LINE_BYTES {
        return Ok(Some(LineFault::TooLong(number)));
    }
    match says(alloc, scratch, kind, place, rest)? {
        None => Ok(Some(LineFault::At(number))),
        Some(passed) => Ok(if passed.place == Next::Closed {
            None
        } else {
            Some(LineFault::At(number.saturating_add(1)))
        }),
    }
}
