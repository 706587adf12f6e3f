//! Why a store on three disks is not opened, made or compacted, and what a compaction answers.
use crate::DiskName;
use disk_model::DiskFailed;
use std::error::Error;
use std::fmt;
use u1_base::Memory;

/// Why no store was opened.
#[derive(Clone, Copy, Debug, PartialEq, Eq)]
pub enum OpenFault {
    /// The root is empty: there is no database.
    Blank,
    /// The file of this disk is damaged. The place counts bytes from 0.
    Damaged { disk: DiskName, place: u64 },
    Disk,
    Memory,
}

/// Why no store was made.
#[derive(Clone, Copy, Debug, PartialEq, Eq)]
pub enum MakeFault {
    /// The root is not empty: there is a store already, which may be damaged.
    Exists,
    /// There is the empty store, or what might have been there before.
    Disk,
    Memory,
}

/// Why a store was not compacted.
#[derive(Clone, Copy, Debug, PartialEq, Eq)]
pub enum CompactFault {
    /// The image was read again, and this file is damaged. The place counts bytes from 0; a root
    /// that is empty by now is damaged at 0.
    Damaged { disk: DiskName, place: u64 },
    Disk,
    Memory,
}

/// The lengths of an image before it was compacted and after it, in bytes.
#[derive(Clone, Copy, PartialEq, Eq)]
pub struct Sizes {
    pub before: u64,
    pub after: u64,
}

impl From<DiskFailed> for OpenFault {
    ghost use Rattle.std.specs.Prelude.{◌≡◌};
    ghost use Rattle.disks.specs.declared.fault.OpenFault.TheVariants as fault;

    ghost from_gives = { λ _ e. e ≡ fault.Disk };

    fn from(_failed: DiskFailed) -> OpenFault {
        OpenFault::Disk
    }
}

impl From<DiskFailed> for MakeFault {
    ghost use Rattle.std.specs.Prelude.{◌≡◌};
    ghost use Rattle.disks.specs.declared.fault.MakeFault.TheVariants as fault;

    ghost from_gives = { λ _ e. e ≡ fault.Disk };

    fn from(_failed: DiskFailed) -> MakeFault {
        MakeFault::Disk
    }
}

impl From<Memory> for MakeFault {
    ghost use Rattle.std.specs.Prelude.{◌≡◌};
    ghost use Rattle.disks.specs.declared.fault.MakeFault.TheVariants as fault;

    ghost from_gives = { λ _ e. e ≡ fault.Memory };

    fn from(_memory: Memory) -> MakeFault {
        MakeFault::Memory
    }
}

impl From<Memory> for CompactFault {
    ghost use Rattle.std.specs.Prelude.{◌≡◌};
    ghost use Rattle.disks.specs.declared.fault.CompactFault.TheVariants as fault;

    ghost from_gives = { λ _ e. e ≡ fault.Memory };

    fn from(_memory: Memory) -> CompactFault {
        CompactFault::Memory
    }
}

impl From<OpenFault> for CompactFault {
    ghost use Rattle.std.specs.Prelude.{◌≡◌};
    ghost use Rattle.disks.specs.Faults.{fault_reading};

    ghost from_gives = { λ fault e. e ≡ fault_reading fault };

    fn from(fault: OpenFault) -> CompactFault {
        match fault {
            OpenFault::Blank => CompactFault::Damaged {
                disk: DiskName::Root,
                place: 0,
            },
            OpenFault::Damaged { disk, place } => CompactFault::Damaged { disk, place },
            OpenFault::Disk => CompactFault::Disk,
            OpenFault::Memory => CompactFault::Memory,
        }
    }
}

impl fmt::Display for OpenFault {
    fn fmt<W: fmt::Write>(&self, f: &mut fmt::Formatter<W>) -> fmt::Result {
        match self {
            OpenFault::Blank => f.write_str("there is no database"),
            OpenFault::Damaged { disk, place } => write_damage(f, *disk, *place),
            OpenFault::Disk => f.write_str("the disk failed"),
            OpenFault::Memory => f.write_str("out of memory"),
        }
    }
}

impl fmt::Display for MakeFault {
    fn fmt<W: fmt::Write>(&self, f: &mut fmt::Formatter<W>) -> fmt::Result {
        match self {
            MakeFault::Exists => f.write_str("there is a database already"),
            MakeFault::Disk => f.write_str("the disk failed"),
            MakeFault::Memory => f.write_str("out of memory"),
        }
    }
}

impl fmt::Display for CompactFault {
    fn fmt<W: fmt::Write>(&self, f: &mut fmt::Formatter<W>) -> fmt::Result {
        match self {
            CompactFault::Damaged { disk, place } => write_damage(f, *disk, *place),
            CompactFault::Disk => f.write_str("the disk failed"),
            CompactFault::Memory => f.write_str("out of memory"),
        }
    }
}

impl Error for OpenFault {}

impl Error for MakeFault {}

impl Error for CompactFault {}

fn write_damage<W: fmt::Write>(
    f: &mut fmt::Formatter<W>,
    disk: DiskName,
    place: u64,
) -> fmt::Result {
    let file = match disk {
        DiskName::Root => "root",
        DiskName::Left => "left",
        DiskName::Right => "right",
    };
    write!(f, "the file {file} is damaged at byte {place}")
}
