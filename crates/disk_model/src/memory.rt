//! A disk in memory, for tests: it keeps a log of its calls and fails where it was told to.
ghost use Rattle.std.specs.Prelude.{◌↔◌, Contains, IsTrue};
ghost use Rattle.std.proofs.Props.{props};
ghost use Rattle.disk_model.specs.Disk.{IsCrashImage};
ghost use Rattle.disk_model.specs.Log.{now_of};

use crate::calls::{Call, note_cut, note_look, note_sync, note_write};
use crate::losses::{Choice, image_after, image_at};
use crate::{Disk, DiskFailed};
use std::alloc::Global;
use u1_base::{Bytes, Memory, Numbers};

/// A disk in memory.
///
/// A call whose number is in `failing`, or that finds no memory for itself or for its record,
/// counts a fault. A write that is to fail puts the first half of its bytes, a cut that is to fail
/// goes half of the way.
#[derive(Drop)]
pub struct MemDisk {
    bytes: Vec<u8>,
    log: Vec<Call>,
    failing: Numbers,
    made: u64,
    faults: u64,
    ghost image: { IsCrashImage (now_of log.items bytes.items)
        bytes.items } by { Prim.hlevel props },
}

impl MemDisk {
    ghost use Rattle.std.specs.Prelude.{◌≡◌, ◌+◌, ◌<◌, ◌≤◌, ◌⊎◌, ◌↔◌, IfOk, IsErr, IsOk, OnErr};
    ghost use Rattle.std.specs.Prelude.{OnOk, IsTrue};
    ghost use Rattle.disk_model.specs.Disk.{IsCrashImage};
    ghost use Rattle.disk_model.specs.Device.{lost_at, untouched};
    ghost use Rattle.disk_model.specs.Counts.{called};
    ghost use Rattle.disk_model.specs.Moments.{Looked};
    ghost use Rattle.disk_model.specs.MemDisk.{FailsAsTold, IsToFail, mem_calls, mem_failing};
    ghost use Rattle.disk_model.specs.MemDisk.{mem_known, mem_left, mem_left_after, mem_left_now};

    /// A disk that holds these bytes. `failing` has the numbers, from 0, of the calls that fail.
    pub fn new(alloc: Global, bytes: Bytes, failing: Numbers) -> MemDisk
        ensures known { mem_known result ≡ untouched bytes }
        ensures failing { mem_failing result ≡ failing }
    {
        MemDisk {
            bytes: bytes.into_vec(),
            log: Vec::new(alloc),
            failing,
            made: 0,
            faults: 0,
        }
    }

    /// How many calls were noted: all but those that found no memory.
    pub fn calls(&self) -> u64
        ensures { result ≡ mem_calls self.now }
    {
        self.log.len() as u64
    }

    /// What a read gives.
    pub fn bytes(&self) -> &[u8]
        ensures { result.now ≡ (mem_known self.now).seen }
    {
        self.bytes.as_slice()
    }

    /// The image that a stop during that call leaves by this choice: of a write or a cut one of
    /// those after it, of another call one of those before it.
    pub fn crash_image(&self, alloc: Global, call: u64, choice: Choice) -> Result<Bytes, Memory>
        requires { call < mem_calls self.now }
        ensures may_be { IfOk result
            (λ image. IsCrashImage (lost_at (mem_known self.now) call) image
            ⊎ IsCrashImage (lost_at (mem_known self.now) (call + 1)) image) }
        ensures by_choice { IfOk result (λ image. image ≡ mem_left self.now call choice) }
    {
        let place = call as usize;
        match &self.log[place] {
            Call::Write(_, _, _, _) | Call::Cut(_, _) => self.image(alloc, place + 1, choice),
            Call::Look | Call::Sync => self.image(alloc, place, choice),
        }
    }

    /// The image that a stop now leaves by this choice: one that a crash after the last call may
    /// leave.
    pub fn crash_image_now(&self, alloc: Global, choice: Choice) -> Result<Bytes, Memory>
        ensures may_be { IfOk result (λ image. IsCrashImage (mem_known self.now).now image) }
        ensures by_choice { IfOk result (λ image. image ≡ mem_left_now self.now choice) }
    {
        image_after(alloc, &self.log, &self.bytes, choice)
    }

    // The image at the moment before the call of this number, or now.
    fn image(&self, alloc: Global, moment: usize, choice: Choice) -> Result<Bytes, Memory>
        requires { moment ≤ mem_calls self.now }
        ensures may_be { IfOk result
            (λ image. IsCrashImage (lost_at (mem_known self.now) moment) image) }
        ensures by_choice { IfOk result (λ image. image ≡ mem_left_after self.now moment choice) }
    {
        image_at(alloc, &self.log, &self.bytes, moment, choice)
    }

    // Counts a call, and tells whether it is one that is to fail.
    fn begin(&mut self) -> bool
        ensures same { self.new ≡ record self.old { made = called 1 self.old.made } }
        ensures told { IsTrue result ↔ IsToFail self.old }
    {
        let number = self.calls();
        self.made = self.made.saturating_add(1);
        is_among(self.failing.as_slice(), number)
    }

    // Answers a call that was to fail or not, and that was noted or found no memory.
    fn answer(&mut self, fails: bool, noted: Result<(), Memory>) -> Result<(), DiskFailed>
        ensures same { self.new ≡ record self.old { faults = self.new.faults } }
        ensures told { IsTrue fails → IsErr result }
        ensures ok { OnOk result (IsOk noted) }
        ensures err { OnErr result (IsTrue fails ⊎ IsErr noted) }
        ensures quiet { OnOk result (self.new.faults ≡ self.old.faults) }
        ensures counted { OnErr result (self.new.faults ≡ called 1 self.old.faults) }
    {
        if noted.is_ok() && !fails {
            return Ok(());
        }
        self.faults = self.faults.saturating_add(1);
        Err(DiskFailed)
    }

    // A call that changes nothing.
    fn look(&mut self) -> Result<(), DiskFailed>
        ensures seen { (mem_known self.new).seen ≡ (mem_known self.old).seen }
        ensures crash { Looked (mem_known self.old) (mem_known self.new) }
        ensures counted { (mem_known self.new).made ≡ called 1 (mem_known self.old).made }
        ensures as_told { FailsAsTold self.old self.new result }
    {
        let fails = self.begin();
        let noted = note_look(&self.bytes, &mut self.log);
        self.answer(fails, noted)
    }
}

fn is_among(numbers: &[u64], number: u64) -> bool
    ensures { IsTrue result ↔ Contains numbers.now number }
{
    numbers.contains(&number)
}

impl Disk for MemDisk {
    ghost use Rattle.std.specs.Prelude.{◌≡◌, ◌≤◌, ◌+◌, true, IsTrue, IfOk, OnOk, OnErr, length};
    ghost use Rattle.std.specs.Prelude.{take, drop};
    ghost use Rattle.u1_base.specs.Causes.{HasCause};
    ghost use Rattle.disk_model.specs.Disk.{Cut, Torn, overwritten, settled, was_cut, wrote};
    ghost use Rattle.disk_model.specs.Moments.{Looked, Took, TookOrNot};
    ghost use Rattle.disk_model.specs.Counts.{called};
    ghost use Rattle.disk_model.specs.MemDisk.{FailsAsTold, mem_known};

    ghost tells = { true };

    ghost known = { mem_known };

    fn length(&mut self) -> Result<u64, DiskFailed>
        ensures value { IfOk result (λ n. n ≡ length (mem_known self.old).seen) }
        ensures seen { (mem_known self.new).seen ≡ (mem_known self.old).seen }
        ensures crash { Looked (mem_known self.old) (mem_known self.new) }
        ensures counted { (mem_known self.new).made ≡ called 1 (mem_known self.old).made }
        ensures cause { HasCause (mem_known self.old).faults (mem_known self.new).faults result }
        ensures as_told { FailsAsTold self.old self.new result }
    {
        self.look()?;
        Ok(self.bytes.len() as u64)
    }

    fn read_at(&mut self, at: u64, into: &mut [u8]) -> Result<(), DiskFailed>
        requires { at + length into.old ≤ length (mem_known self.old).seen }
        ensures bytes { OnOk result
            (into.new ≡ take (length into.old) (drop at (mem_known self.old).seen)) }
        ensures seen { (mem_known self.new).seen ≡ (mem_known self.old).seen }
        ensures crash { Looked (mem_known self.old) (mem_known self.new) }
        ensures counted { (mem_known self.new).made ≡ called 1 (mem_known self.old).made }
        ensures cause { HasCause (mem_known self.old).faults (mem_known self.new).faults result }
        ensures as_told { FailsAsTold self.old self.new result }
    {
        self.look()?;
        let from = at as usize;
        into.copy_from_slice(&self.bytes[from..from + into.len()]);
        Ok(())
    }

    fn write_at(&mut self, at: u64, bytes: &[u8]) -> Result<(), DiskFailed>
        requires { at ≤ length (mem_known self.old).seen }
        ensures written { OnOk result
            ((mem_known self.new).seen ≡ overwritten (mem_known self.old).seen at bytes.now) }
        ensures torn { OnErr result
            (Torn at (length bytes.now) (mem_known self.old).seen (mem_known self.new).seen) }
        ensures crash { OnOk result
            (Took (mem_known self.old) (mem_known self.new)
            (wrote at (length bytes.now) (mem_known self.old).now)) }
        ensures crash_err { OnErr result
            (TookOrNot (mem_known self.old) (mem_known self.new)
            (wrote at (length bytes.now) (mem_known self.old).now)) }
        ensures counted { (mem_known self.new).made ≡ called 1 (mem_known self.old).made }
        ensures cause { HasCause (mem_known self.old).faults (mem_known self.new).faults result }
        ensures as_told { FailsAsTold self.old self.new result }
    {
        let fails = self.begin();
        let put = if fails { bytes.len() / 2 } else { bytes.len() };
        let noted = note_write(
            &mut self.bytes,
            &mut self.log,
            at as usize,
            bytes.len(),
            &bytes[..put],
        );
        self.answer(fails, noted)
    }

    fn cut(&mut self, to: u64) -> Result<(), DiskFailed>
        requires { to ≤ length (mem_known self.old).seen }
        ensures shortened { OnOk result
            ((mem_known self.new).seen ≡ take to (mem_known self.old).seen) }
        ensures torn { OnErr result (Cut to (mem_known self.old).seen (mem_known self.new).seen) }
        ensures crash { OnOk result
            (Took (mem_known self.old) (mem_known self.new) (was_cut to (mem_known self.old).now)) }
        ensures crash_err { OnErr result
            (TookOrNot (mem_known self.old) (mem_known self.new)
            (was_cut to (mem_known self.old).now)) }
        ensures counted { (mem_known self.new).made ≡ called 1 (mem_known self.old).made }
        ensures cause { HasCause (mem_known self.old).faults (mem_known self.new).faults result }
        ensures as_told { FailsAsTold self.old self.new result }
    {
        let fails = self.begin();
        let to = to as usize;
        let left = if fails {
            self.bytes.len().saturating_sub(to) / 2
        } else {
            0
        };
        let noted = note_cut(&mut self.bytes, &mut self.log, to, to + left);
        self.answer(fails, noted)
    }

    fn sync(&mut self) -> Result<(), DiskFailed>
        ensures seen { (mem_known self.new).seen ≡ (mem_known self.old).seen }
        ensures durable { OnOk result
            (Took (mem_known self.old) (mem_known self.new) (settled (mem_known self.old).seen)) }
        ensures crash_err { OnErr result (Looked (mem_known self.old) (mem_known self.new)) }
        ensures counted { (mem_known self.new).made ≡ called 1 (mem_known self.old).made }
        ensures cause { HasCause (mem_known self.old).faults (mem_known self.new).faults result }
        ensures as_told { FailsAsTold self.old self.new result }
    {
        let fails = self.begin();
        let noted = if fails {
            note_look(&self.bytes, &mut self.log)
        } else {
            note_sync(&self.bytes, &mut self.log)
        };
        self.answer(fails, noted)
    }

    ghost seen_may_stay = { λ disk tells. disk.image };
}
