//! What holds of three disks, whatever they are, each as the contract of a function that does
//! nothing.
ghost use Rattle.std.specs.Prelude.{IsTrue};
ghost use Rattle.disks.specs.Joint.{AreCrashImages, now_of, seen_of};
ghost use Rattle.disks.specs.Disks.{disks_known};
ghost use Rattle.disks.specs.Laws.{EachMoment, MomentsStay, OneDiskMoves, SettledLeaveReads};

use crate::Disks;
use disk_model::Disk;

/// What the reads give of the three is one of the images that a crash now may leave.
pub fn law_reads<D: Disk>(_disks: &Disks<D>)
    ensures { IsTrue D.tells
        → AreCrashImages (now_of (disks_known D.known _disks.now).files)
        (seen_of (disks_known D.known _disks.now).files) }
{}

/// Where all three are settled, a crash leaves just what the reads give.
pub fn law_settled()
    ensures { SettledLeaveReads }
{}

/// A moment that was reached is the same for ever, and now is the one after them all.
pub fn law_moments()
    ensures { MomentsStay }
{}

/// Calls that go to one disk move neither what the other two read nor what a crash may leave of
/// them.
pub fn law_one_disk()
    ensures { OneDiskMoves }
{}

/// What is said of a crash at any moment of a run holds at each of its moments by number.
pub fn law_each_moment()
    ensures { EachMoment }
{}
