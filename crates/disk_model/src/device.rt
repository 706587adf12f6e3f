//! The trait of disks.
use std::fmt;

/// The disk failed. Its count of faults rose.
#[derive(Clone, Copy, Debug, PartialEq, Eq)]
pub struct DiskFailed;

impl fmt::Display for DiskFailed {
    fn fmt<W: fmt::Write>(&self, f: &mut fmt::Formatter<W>) -> fmt::Result {
        f.write_str("the disk failed")
    }
}

impl std::error::Error for DiskFailed {}

/// A disk that holds one file. Places and lengths are in bytes.
///
/// Between two syncs each written range, and the part past the least length, may hold any bytes
/// after a crash; the bytes outside stay. After a failed write or cut it is open what a read gives
/// in the touched range.
pub trait Disk {
    ghost use Rattle.std.specs.Prelude.{◌≡◌, ◌≤◌, ◌+◌, ℕ, Bool, IsTrue, length, take, drop, IfOk};
    ghost use Rattle.std.specs.Prelude.{OnOk, OnErr};
    ghost use Rattle.u1_base.specs.Causes.{HasCause};
    ghost use Rattle.disk_model.specs.Disk.{IsCrashImage, settled, wrote, was_cut, overwritten};
    ghost use Rattle.disk_model.specs.Disk.{Torn, Cut};
    ghost use Rattle.disk_model.specs.Device.{Device};
    ghost use Rattle.disk_model.specs.Moments.{Took, Looked, TookOrNot};
    ghost use Rattle.disk_model.specs.Counts.{called};

    /// Whether it tells what it holds. Where it does not, only its counts of calls and of faults
    /// are known.
    ghost tells: { Bool };

    /// What a read gives, what a crash may leave, what lies beside it, its moments, and its counts.
    ghost known: { Self → Device };

    /// The number of bytes.
    fn length(&mut self) -> Result<u64, DiskFailed>
        ensures value { IsTrue tells → IfOk result (λ n. n ≡ length (known self.old).seen) }
        ensures seen { IsTrue tells → (known self.new).seen ≡ (known self.old).seen }
        ensures crash { IsTrue tells → Looked (known self.old) (known self.new) }
        ensures counted { (known self.new).made ≡ called 1 (known self.old).made }
        ensures cause { HasCause (known self.old).faults (known self.new).faults result };

    /// Fills `into` with the bytes from `at` on.
    fn read_at(&mut self, at: u64, into: &mut [u8]) -> Result<(), DiskFailed>
        requires { IsTrue tells → at + length into.old ≤ length (known self.old).seen }
        ensures bytes { IsTrue tells
            → OnOk result (into.new ≡ take (length into.old) (drop at (known self.old).seen)) }
        ensures seen { IsTrue tells → (known self.new).seen ≡ (known self.old).seen }
        ensures crash { IsTrue tells → Looked (known self.old) (known self.new) }
        ensures counted { (known self.new).made ≡ called 1 (known self.old).made }
        ensures cause { HasCause (known self.old).faults (known self.new).faults result };

    /// Writes over what stands at `at`, and past the end where the bytes reach further.
    fn write_at(&mut self, at: u64, bytes: &[u8]) -> Result<(), DiskFailed>
        requires { IsTrue tells → at ≤ length (known self.old).seen }
        ensures written { IsTrue tells
            → OnOk result ((known self.new).seen ≡ overwritten (known self.old).seen at bytes.now) }
        ensures torn { IsTrue tells
            → OnErr result (Torn at (length bytes.now) (known self.old).seen
            (known self.new).seen) }
        ensures crash { IsTrue tells
            → OnOk result (Took (known self.old) (known self.new)
            (wrote at (length bytes.now) (known self.old).now)) }
        ensures crash_err { IsTrue tells
            → OnErr result (TookOrNot (known self.old) (known self.new)
            (wrote at (length bytes.now) (known self.old).now)) }
        ensures counted { (known self.new).made ≡ called 1 (known self.old).made }
        ensures cause { HasCause (known self.old).faults (known self.new).faults result };

    /// Shortens to so many bytes.
    fn cut(&mut self, to: u64) -> Result<(), DiskFailed>
        requires { IsTrue tells → to ≤ length (known self.old).seen }
        ensures shortened { IsTrue tells
            → OnOk result ((known self.new).seen ≡ take to (known self.old).seen) }
        ensures torn { IsTrue tells
            → OnErr result (Cut to (known self.old).seen (known self.new).seen) }
        ensures crash { IsTrue tells
            → OnOk result (Took (known self.old) (known self.new)
            (was_cut to (known self.old).now)) }
        ensures crash_err { IsTrue tells
            → OnErr result (TookOrNot (known self.old) (known self.new)
            (was_cut to (known self.old).now)) }
        ensures counted { (known self.new).made ≡ called 1 (known self.old).made }
        ensures cause { HasCause (known self.old).faults (known self.new).faults result };

    /// The barrier: after it a crash leaves what a read gives.
    fn sync(&mut self) -> Result<(), DiskFailed>
        ensures seen { IsTrue tells → (known self.new).seen ≡ (known self.old).seen }
        ensures durable { IsTrue tells
            → OnOk result (Took (known self.old) (known self.new) (settled (known self.old).seen)) }
        ensures crash_err { IsTrue tells → OnErr result (Looked (known self.old) (known self.new)) }
        ensures counted { (known self.new).made ≡ called 1 (known self.old).made }
        ensures cause { HasCause (known self.old).faults (known self.new).faults result };

    /// What a read gives is one of the images.
    ghost seen_may_stay: { (disk : Self) → IsTrue tells
        → IsCrashImage (known disk).now (known disk).seen };
}
