//! How a run ends, and the status that the program ends with.
ghost use Rattle.std.specs.Prelude.{◌≡◌};
ghost use Rattle.command_lines.specs.Outcomes.{expression_end, status_of};

use crate::PrintFault;
use content::ContentFault;
use disks::{CompactFault, DiskName, MakeFault, OpenFault};
use expr_parser::ParseFault;
use link::InputFault;
use replica_core::{IndexFault, PutFault, QueryFault, ResolveDocFault};
use u1_base::{Memory, Position};
use vector_rev::Clock;

/// How a run ends.
#[derive(PartialEq, Eq, Drop)]
pub enum Outcome {
    Done,
    /// The words are no command.
    Usage(UsageKind),
    /// The input is no content. The fault is never `Memory`.
    BadContent(ContentFault),
    /// The command is refused, and the store stays as it was.
    Refused(Refusal),
    /// A file of the store does not read, from this byte on.
    Damaged { disk: DiskName, place: u64 },
    /// With the next entry the image would have `need` bytes, and it may have no more than `limit`.
    StoreFull { need: u64, limit: u64 },
    DiskFault,
    SourceFault,
    SinkFault,
    LinkFault,
    AcceptFault,
    /// The peer replied with this status.
    Peer(u16),
    /// This line of the peer's reply is the first faulty one; 0 stands for the head.
    BrokenReply(u64),
    /// A position of the own log and one that the peer gave do not fit.
    LogCheck { mine: Position, theirs: Position },
    Memory,
}

/// What is wrong with the words.
#[derive(Clone, Copy, PartialEq, Eq)]
pub enum UsageKind {
    /// They are not the words of a command.
    Words,
    /// The word at this place, the directory being word 0, is no value of its kind.
    Value(u64),
}

/// Why a command is refused.
#[derive(PartialEq, Eq, Drop)]
pub enum Refusal {
    NoDatabase,
    DatabaseExists,
    /// A workload is only made in a store that nothing was done to.
    NotEmpty,
    /// The command is not built yet.
    NotBuilt,
    NoDocument,
    /// The document has more than one member.
    Conflicted,
    /// The given revision is the current one, and another one was named, or none although the
    /// document is live.
    RevisionConflict(Clock),
    /// The current member has no content already.
    AlreadyDeleted,
    /// The document has one member.
    NotConflicted,
    /// No named revision is a member.
    NothingNamed,
    /// No named member has the greatest own counter among all members. The given revision is the
    /// first that has it.
    Unnamed(Clock),
    /// The own counter is 2^63-1, or the clock would have more than 64 entries.
    ClockFull,
    /// The expression at this place, which counts from 0, has more than 512 bytes.
    IndexTooLong(u64),
    /// The expression at this place, which counts from 0, goes wrong at this byte.
    IndexParse { expression: u64, at: u64 },
    IndexUnknown,
    /// An index of the name has other expressions.
    IndexTaken,
    /// There is not one value for each expression of the index.
    WrongWidth,
    /// The first value, counted from 0, that is not `*` though one before it is or ends in a star.
    BadGlob(u64),
    ViewUnknown,
    /// A view of the name has other expressions or values.
    ViewTaken,
}

/// The status of the program for an outcome.
pub fn outcome_status(outcome: &Outcome) -> u8
    ensures { result ≡ status_of outcome.now }
{
    match outcome {
        Outcome::Done => 0,
        Outcome::BadContent(_) | Outcome::Refused(_) => 1,
        Outcome::Usage(_) => 2,
        Outcome::Damaged { .. } => 3,
        Outcome::StoreFull { .. } => 4,
        Outcome::DiskFault => 5,
        Outcome::SourceFault | Outcome::SinkFault | Outcome::LinkFault | Outcome::AcceptFault => 6,
        Outcome::Peer(_) | Outcome::BrokenReply(_) | Outcome::LogCheck { .. } => 7,
        Outcome::Memory => 8,
    }
}

/// How a run ends where the index expression at the place, which counts from 0, is refused.
pub fn expression_end(place: u64, fault: ParseFault) -> Outcome
    ensures { result ≡ expression_end place fault }
{
    match fault {
        ParseFault::TooLong => Outcome::Refused(Refusal::IndexTooLong(place)),
        ParseFault::At(at) => Outcome::Refused(Refusal::IndexParse {
            expression: place,
            at,
        }),
        ParseFault::Memory => Outcome::Memory,
    }
}

impl From<Memory> for Outcome {
    ghost use Rattle.std.specs.Prelude.{◌≡◌};
    ghost use Rattle.command_lines.specs.declared.outcome.Outcome.TheVariants as outcome;

    ghost from_gives = { λ _ e. e ≡ outcome.Memory };

    fn from(_memory: Memory) -> Outcome {
        Outcome::Memory
    }
}

impl From<PrintFault> for Outcome {
    ghost use Rattle.std.specs.Prelude.{◌≡◌};
    ghost use Rattle.command_lines.specs.Outcomes.{print_end};

    ghost from_gives = { λ fault e. e ≡ print_end fault };

    fn from(fault: PrintFault) -> Outcome {
        match fault {
            PrintFault::Sink => Outcome::SinkFault,
            PrintFault::Memory => Outcome::Memory,
        }
    }
}

impl From<InputFault> for Outcome {
    ghost use Rattle.std.specs.Prelude.{◌≡◌};
    ghost use Rattle.command_lines.specs.Outcomes.{input_end};

    ghost from_gives = { λ fault e. e ≡ input_end fault };

    fn from(fault: InputFault) -> Outcome {
        match fault {
            InputFault::Source => Outcome::SourceFault,
            InputFault::Memory => Outcome::Memory,
        }
    }
}

impl From<ContentFault> for Outcome {
    ghost use Rattle.std.specs.Prelude.{◌≡◌};
    ghost use Rattle.command_lines.specs.Outcomes.{content_end};

    ghost from_gives = { λ fault e. e ≡ content_end fault };

    fn from(fault: ContentFault) -> Outcome {
        match fault {
            ContentFault::Memory => Outcome::Memory,
            _ => Outcome::BadContent(fault),
        }
    }
}

impl From<PutFault> for Outcome {
    ghost use Rattle.std.specs.Prelude.{◌≡◌};
    ghost use Rattle.command_lines.specs.Outcomes.{put_end};

    ghost from_gives = { λ fault e. e ≡ put_end fault };

    fn from(fault: PutFault) -> Outcome {
        match fault {
            PutFault::NoDocument => Outcome::Refused(Refusal::NoDocument),
            PutFault::Conflicted => Outcome::Refused(Refusal::Conflicted),
            PutFault::RevisionConflict(current) => {
                Outcome::Refused(Refusal::RevisionConflict(current))
            }
            PutFault::AlreadyDeleted => Outcome::Refused(Refusal::AlreadyDeleted),
            PutFault::ClockFull => Outcome::Refused(Refusal::ClockFull),
            PutFault::Full { need, limit } => Outcome::StoreFull { need, limit },
            PutFault::Disk => Outcome::DiskFault,
            PutFault::Memory => Outcome::Memory,
        }
    }
}

impl From<ResolveDocFault> for Outcome {
    ghost use Rattle.std.specs.Prelude.{◌≡◌};
    ghost use Rattle.command_lines.specs.Outcomes.{resolve_end};

    ghost from_gives = { λ fault e. e ≡ resolve_end fault };

    fn from(fault: ResolveDocFault) -> Outcome {
        match fault {
            ResolveDocFault::NoDocument => Outcome::Refused(Refusal::NoDocument),
            ResolveDocFault::NotConflicted => Outcome::Refused(Refusal::NotConflicted),
            ResolveDocFault::NothingNamed => Outcome::Refused(Refusal::NothingNamed),
            ResolveDocFault::Unnamed(leader) => Outcome::Refused(Refusal::Unnamed(leader)),
            ResolveDocFault::ClockFull => Outcome::Refused(Refusal::ClockFull),
            ResolveDocFault::Full { need, limit } => Outcome::StoreFull { need, limit },
            ResolveDocFault::Disk => Outcome::DiskFault,
            ResolveDocFault::Memory => Outcome::Memory,
        }
    }
}

impl From<IndexFault> for Outcome {
    ghost use Rattle.std.specs.Prelude.{◌≡◌};
    ghost use Rattle.command_lines.specs.Outcomes.{index_end};

    ghost from_gives = { λ fault e. e ≡ index_end fault };

    fn from(fault: IndexFault) -> Outcome {
        match fault {
            IndexFault::IndexTaken => Outcome::Refused(Refusal::IndexTaken),
            IndexFault::IndexUnknown => Outcome::Refused(Refusal::IndexUnknown),
            IndexFault::Full { need, limit } => Outcome::StoreFull { need, limit },
            IndexFault::Disk => Outcome::DiskFault,
            IndexFault::Memory => Outcome::Memory,
        }
    }
}

impl From<QueryFault> for Outcome {
    ghost use Rattle.std.specs.Prelude.{◌≡◌};
    ghost use Rattle.command_lines.specs.Outcomes.{query_end};

    ghost from_gives = { λ fault e. e ≡ query_end fault };

    fn from(fault: QueryFault) -> Outcome {
        match fault {
            QueryFault::WrongWidth => Outcome::Refused(Refusal::WrongWidth),
            QueryFault::BadGlob(place) => Outcome::Refused(Refusal::BadGlob(place)),
            QueryFault::Memory => Outcome::Memory,
        }
    }
}

impl From<OpenFault> for Outcome {
    ghost use Rattle.std.specs.Prelude.{◌≡◌};
    ghost use Rattle.command_lines.specs.Outcomes.{open_end};

    ghost from_gives = { λ fault e. e ≡ open_end fault };

    fn from(fault: OpenFault) -> Outcome {
        match fault {
            OpenFault::Blank => Outcome::Refused(Refusal::NoDatabase),
            OpenFault::Damaged { disk, place } => Outcome::Damaged { disk, place },
            OpenFault::Disk => Outcome::DiskFault,
            OpenFault::Memory => Outcome::Memory,
        }
    }
}

impl From<MakeFault> for Outcome {
    ghost use Rattle.std.specs.Prelude.{◌≡◌};
    ghost use Rattle.command_lines.specs.Outcomes.{make_end};

    ghost from_gives = { λ fault e. e ≡ make_end fault };

    fn from(fault: MakeFault) -> Outcome {
        match fault {
            MakeFault::Exists => Outcome::Refused(Refusal::DatabaseExists),
            MakeFault::Disk => Outcome::DiskFault,
            MakeFault::Memory => Outcome::Memory,
        }
    }
}

impl From<CompactFault> for Outcome {
    ghost use Rattle.std.specs.Prelude.{◌≡◌};
    ghost use Rattle.command_lines.specs.Outcomes.{compact_end};

    ghost from_gives = { λ fault e. e ≡ compact_end fault };

    fn from(fault: CompactFault) -> Outcome {
        match fault {
            CompactFault::Damaged { disk, place } => Outcome::Damaged { disk, place },
            CompactFault::Disk => Outcome::DiskFault,
            CompactFault::Memory => Outcome::Memory,
        }
    }
}
