//! Three disks as one: calls go to the one that it is turned to, and each is noted with the three
//! as they stood.
use crate::DiskName;
use crate::history::History;
use crate::trio::Trio;
use disk_model::{Disk, DiskFailed};

/// Three disks that share one order of moments.
///
/// It is a disk: calls go to the one that it is turned to, and the other two lie beside it. Nothing
/// takes it apart or lends one of the three to be changed, so that each call on one of them is a
/// moment of all three.
#[derive(Drop)]
pub struct Disks<D: Disk> {
    trio: Trio<D>,
    name: DiskName,
    history: History<Trio<D>>,
}

impl<D: Disk> Disks<D> {
    ghost use Rattle.std.specs.Prelude.{◌≡◌, [], IsTrue};
    ghost use Rattle.disks.specs.declared.name.DiskName.TheVariants.{Root, Left, Right};
    ghost use Rattle.disks.specs.Joint.{AreCrashImages, now_of, seen_of};
    ghost use Rattle.disks.specs.Disks.{disk_of, disks_known, turned, turned_to};

    /// The three, turned to the root. No moment of theirs has passed.
    pub fn new(root: D, left: D, right: D) -> Disks<D>
        ensures root { disk_of result Root ≡ root }
        ensures left { disk_of result Left ≡ left }
        ensures right { disk_of result Right ≡ right }
        ensures turned { turned_to result ≡ Root }
        ensures past { (disks_known D.known result).past ≡ [] }
    {
        Disks {
            trio: Trio { root, left, right },
            name: DiskName::Root,
            history: History::new(),
        }
    }

    /// Looks at one of the three.
    pub fn disk(&self, name: DiskName) -> &D
        ensures { result.now ≡ disk_of self.now name }
    {
        self.trio.one(name)
    }

    /// Lets the next calls go to this disk. No call is made, and no moment passes.
    pub fn turn_to(&mut self, name: DiskName)
        ensures { self.new ≡ turned name self.old }
    {
        self.name = name;
    }
}

impl<D: Disk> Disk for Disks<D> {
    ghost use Rattle.std.specs.Prelude.{◌≡◌, ◌≤◌, ◌+◌, IsTrue, IfOk, OnOk, OnErr, length, take};
    ghost use Rattle.std.specs.Prelude.{drop};
    ghost use Rattle.disks.specs.Trio.{one_of_each};
    ghost use Rattle.disks.specs.Joint.{MayStay, facing};
    ghost use Rattle.disks.specs.Disks.{disks_known, files_of, turned_to};

    ghost tells = { D.tells };

    ghost known = { λ disks. facing (turned_to disks) (disks_known D.known disks) };

    fn length(&mut self) -> Result<u64, DiskFailed> {
        self.history = self.history.and(&self.trio);
        self.trio.length(self.name)
    }

    fn read_at(&mut self, at: u64, into: &mut [u8]) -> Result<(), DiskFailed> {
        self.history = self.history.and(&self.trio);
        self.trio.read_at(self.name, at, into)
    }

    fn write_at(&mut self, at: u64, bytes: &[u8]) -> Result<(), DiskFailed> {
        self.history = self.history.and(&self.trio);
        self.trio.write_at(self.name, at, bytes)
    }

    fn cut(&mut self, to: u64) -> Result<(), DiskFailed> {
        self.history = self.history.and(&self.trio);
        self.trio.cut(self.name, to)
    }

    fn sync(&mut self) -> Result<(), DiskFailed> {
        self.history = self.history.and(&self.trio);
        self.trio.sync(self.name)
    }

    ghost seen_may_stay = { λ disks tells. one_of_each MayStay (turned_to disks)
        (files_of D.known disks.trio)
        (D.seen_may_stay disks.trio.root tells) (D.seen_may_stay disks.trio.left tells)
        (D.seen_may_stay disks.trio.right tells) };
}
