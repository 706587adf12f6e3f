//! The last line of an outcome.
ghost use Rattle.std.specs.Prelude.{◌++◌, codes};
ghost use Rattle.vector_rev.specs.ClockText.{clock_text};
ghost use Rattle.command_lines.specs.LastLines.{last_line, with_number, with_numbers};
ghost use Rattle.command_lines.specs.Puts.{Puts};

use crate::places::trans_or_dash;
use crate::put::{PrintFault, put_all};
use crate::{Outcome, Refusal, UsageKind};
use content::ContentFault;
use disks::DiskName;
use itoa::Buffer;
use link::Sink;
use u1_base::Position;
use vector_rev::Clock;

/// Prints the last line of an outcome: nothing for `Done`, `SinkFault` and `Memory`.
pub fn print_last_line<K: Sink>(out: &mut K, outcome: &Outcome) -> Result<(), PrintFault>
    ensures { Puts (last_line outcome.now) (K.known out.old) (K.known out.new) result }
{
    match outcome {
        Outcome::Done | Outcome::SinkFault | Outcome::Memory => put_all(out, &[]),
        Outcome::Usage(kind) => print_usage(out, *kind),
        Outcome::BadContent(fault) => print_bad_content(out, *fault),
        Outcome::Refused(refusal) => print_refusal(out, refusal),
        Outcome::Damaged { disk, place } => print_damaged(out, *disk, *place),
        Outcome::StoreFull { need, limit } => print_numbers(out, b"full", *need, *limit),
        Outcome::DiskFault => put_all(out, &[b"failed disk\n"]),
        Outcome::SourceFault => put_all(out, &[b"failed input\n"]),
        Outcome::LinkFault => put_all(out, &[b"failed link\n"]),
        Outcome::AcceptFault => put_all(out, &[b"failed accept\n"]),
        Outcome::Peer(status) => print_number(out, b"peer", u64::from(*status)),
        Outcome::BrokenReply(line) => print_number(out, b"broken-reply", *line),
        Outcome::LogCheck { mine, theirs } => print_log_check(out, mine, theirs),
    }
}

fn print_usage<K: Sink>(out: &mut K, kind: UsageKind) -> Result<(), PrintFault>
    ensures { Puts (last_line (Outcome.Usage kind)) (K.known out.old) (K.known out.new) result }
{
    match kind {
        UsageKind::Words => put_all(out, &[b"usage\n"]),
        UsageKind::Value(place) => print_number(out, b"usage", place),
    }
}

fn print_bad_content<K: Sink>(out: &mut K, fault: ContentFault) -> Result<(), PrintFault>
    ensures { Puts (last_line (Outcome.BadContent fault)) (K.known out.old)
        (K.known out.new) result }
{
    match fault {
        ContentFault::TooBig(length) => print_number(out, b"bad-content too-big", length),
        ContentFault::NotJson => put_all(out, &[b"bad-content not-json\n"]),
        ContentFault::NotObject => put_all(out, &[b"bad-content not-object\n"]),
        ContentFault::TooDeep => put_all(out, &[b"bad-content too-deep\n"]),
        ContentFault::NotWhole => put_all(out, &[b"bad-content not-whole\n"]),
        ContentFault::OutOfRange => put_all(out, &[b"bad-content out-of-range\n"]),
        ContentFault::Memory => put_all(out, &[b"bad-content \n"]),
    }
}

fn print_refusal<K: Sink>(out: &mut K, refusal: &Refusal) -> Result<(), PrintFault>
    ensures { Puts (last_line (Outcome.Refused refusal.now)) (K.known out.old)
        (K.known out.new) result }
{
    match refusal {
        Refusal::RevisionConflict(current) => print_clock(
            out,
            b"refused revision-conflict ",
            current,
        ),
        Refusal::Unnamed(leader) => print_clock(out, b"refused unnamed ", leader),
        Refusal::IndexTooLong(place) => print_number(out, b"refused index-too-long", *place),
        Refusal::IndexParse { expression, at } => {
            print_numbers(out, b"refused index-parse", *expression, *at)
        }
        Refusal::BadGlob(place) => print_number(out, b"refused bad-glob", *place),
        Refusal::NoDatabase => put_all(out, &[b"refused no-database\n"]),
        Refusal::DatabaseExists => put_all(out, &[b"refused database-exists\n"]),
        Refusal::NotEmpty => put_all(out, &[b"refused not-empty\n"]),
        Refusal::NotBuilt => put_all(out, &[b"refused not-built\n"]),
        Refusal::NoDocument => put_all(out, &[b"refused no-document\n"]),
        Refusal::Conflicted => put_all(out, &[b"refused conflicted\n"]),
        Refusal::AlreadyDeleted => put_all(out, &[b"refused already-deleted\n"]),
        Refusal::NotConflicted => put_all(out, &[b"refused not-conflicted\n"]),
        Refusal::NothingNamed => put_all(out, &[b"refused nothing-named\n"]),
        Refusal::ClockFull => put_all(out, &[b"refused clock-full\n"]),
        Refusal::IndexUnknown => put_all(out, &[b"refused index-unknown\n"]),
        Refusal::IndexTaken => put_all(out, &[b"refused index-taken\n"]),
        Refusal::WrongWidth => put_all(out, &[b"refused wrong-width\n"]),
        Refusal::ViewUnknown => put_all(out, &[b"refused view-unknown\n"]),
        Refusal::ViewTaken => put_all(out, &[b"refused view-taken\n"]),
    }
}

fn print_damaged<K: Sink>(out: &mut K, disk: DiskName, place: u64) -> Result<(), PrintFault>
    ensures { Puts (last_line (Outcome.Damaged disk place)) (K.known out.old)
        (K.known out.new) result }
{
    match disk {
        DiskName::Root => print_number(out, b"damaged root", place),
        DiskName::Left => print_number(out, b"damaged left", place),
        DiskName::Right => print_number(out, b"damaged right", place),
    }
}

fn print_log_check<K: Sink>(
    out: &mut K,
    mine: &Position,
    theirs: &Position,
) -> Result<(), PrintFault>
    ensures { Puts (last_line (Outcome.LogCheck mine.now theirs.now))
        (K.known out.old) (K.known out.new) result }
{
    let mut first = Buffer::new();
    let mut second = Buffer::new();
    put_all(
        out,
        &[
            b"log-check ",
            first.format(mine.generation).as_bytes(),
            b" ",
            trans_or_dash(mine).as_bytes(),
            b" ",
            second.format(theirs.generation).as_bytes(),
            b" ",
            trans_or_dash(theirs).as_bytes(),
            b"\n",
        ],
    )
}

fn print_clock<K: Sink>(out: &mut K, words: &[u8], clock: &Clock) -> Result<(), PrintFault>
    ensures { Puts (words.now ++ (clock_text clock.now ++ codes "\n"))
        (K.known out.old) (K.known out.new) result }
{
    let clock = clock.text()?;
    put_all(out, &[words, clock.as_str().as_bytes(), b"\n"])
}

fn print_number<K: Sink>(out: &mut K, words: &[u8], number: u64) -> Result<(), PrintFault>
    ensures { Puts (with_number words.now number ++ codes "\n")
        (K.known out.old) (K.known out.new) result }
{
    let mut buffer = Buffer::new();
    put_all(out, &[words, b" ", buffer.format(number).as_bytes(), b"\n"])
}

fn print_numbers<K: Sink>(
    out: &mut K,
    words: &[u8],
    first: u64,
    second: u64,
) -> Result<(), PrintFault>
    ensures { Puts (with_numbers words.now first second ++ codes "\n")
        (K.known out.old) (K.known out.new) result }
{
    let mut one = Buffer::new();
    let mut other = Buffer::new();
    put_all(
        out,
        &[
            words,
            b" ",
            one.format(first).as_bytes(),
            b" ",
            other.format(second).as_bytes(),
            b"\n",
        ],
    )
}
