//! One thing for each of the three disks, and the calls on one disk of three.
use crate::DiskName;
use disk_model::{Disk, DiskFailed};

/// One thing for each of the three disks.
#[derive(Drop)]
pub(crate) struct Trio<A> {
    pub root: A,
    pub left: A,
    pub right: A,
}

impl<A> Trio<A> {
    ghost use Rattle.std.specs.Prelude.{◌≡◌};
    ghost use Rattle.disks.specs.Trio.{pick};

    /// The one of this disk.
    pub(crate) fn one(&self, name: DiskName) -> &A
        ensures { result.now ≡ pick name self.now }
    {
        match name {
            DiskName::Root => &self.root,
            DiskName::Left => &self.left,
            DiskName::Right => &self.right,
        }
    }
}

impl<D: Disk> Trio<D> {
    ghost use Rattle.std.specs.Prelude.{◌≡◌, ◌≤◌, ◌+◌, IsTrue, IfOk, OnOk, OnErr, ◌⊎◌, length};
    ghost use Rattle.std.specs.Prelude.{take, drop};
    ghost use Rattle.u1_base.specs.Causes.{HasCause};
    ghost use Rattle.disk_model.specs.Disk.{settled, wrote, was_cut, overwritten, Torn, Cut};
    ghost use Rattle.disk_model.specs.Counts.{called};
    ghost use Rattle.disks.specs.Trio.{pick, others};
    ghost use Rattle.disks.specs.Disks.{faults_of, files_of, made_by};

    pub(crate) fn length(&mut self, name: DiskName) -> Result<u64, DiskFailed>
        ensures value { IsTrue D.tells
            → IfOk result (λ n. n ≡ length (pick name (files_of D.known self.old)).seen) }
        ensures seen { IsTrue D.tells
            → (pick name (files_of D.known self.new)).seen
            ≡ (pick name (files_of D.known self.old)).seen }
        ensures now { IsTrue D.tells
            → (pick name (files_of D.known self.new)).now
            ≡ (pick name (files_of D.known self.old)).now }
        ensures others { others name (files_of D.known self.new)
            ≡ others name (files_of D.known self.old) }
        ensures counted { made_by D.known self.new ≡ called 1 (made_by D.known self.old) }
        ensures cause { HasCause (faults_of D.known self.old) (faults_of D.known self.new) result }
    {
        match name {
            DiskName::Root => self.root.length(),
            DiskName::Left => self.left.length(),
            DiskName::Right => self.right.length(),
        }
    }

    pub(crate) fn read_at(
        &mut self,
        name: DiskName,
        at: u64,
        into: &mut [u8],
    ) -> Result<(), DiskFailed>
        requires { IsTrue D.tells → at + length into.old
            ≤ length (pick name (files_of D.known self.old)).seen }
        ensures bytes { IsTrue D.tells
            → OnOk result (into.new ≡ take (length into.old)
            (drop at (pick name (files_of D.known self.old)).seen)) }
        ensures seen { IsTrue D.tells
            → (pick name (files_of D.known self.new)).seen
            ≡ (pick name (files_of D.known self.old)).seen }
        ensures now { IsTrue D.tells
            → (pick name (files_of D.known self.new)).now
            ≡ (pick name (files_of D.known self.old)).now }
        ensures others { others name (files_of D.known self.new)
            ≡ others name (files_of D.known self.old) }
        ensures counted { made_by D.known self.new ≡ called 1 (made_by D.known self.old) }
        ensures cause { HasCause (faults_of D.known self.old) (faults_of D.known self.new) result }
    {
        match name {
            DiskName::Root => self.root.read_at(at, into),
            DiskName::Left => self.left.read_at(at, into),
            DiskName::Right => self.right.read_at(at, into),
        }
    }

    pub(crate) fn write_at(
        &mut self,
        name: DiskName,
        at: u64,
        bytes: &[u8],
    ) -> Result<(), DiskFailed>
        requires { IsTrue D.tells → at ≤ length (pick name (files_of D.known self.old)).seen }
        ensures written { IsTrue D.tells
            → OnOk result ((pick name (files_of D.known self.new)).seen
            ≡ overwritten (pick name (files_of D.known self.old)).seen at bytes.now) }
        ensures torn { IsTrue D.tells
            → OnErr result (Torn at (length bytes.now) (pick name (files_of D.known self.old)).seen
            (pick name (files_of D.known self.new)).seen) }
        ensures now { IsTrue D.tells
            → OnOk result ((pick name (files_of D.known self.new)).now
            ≡ wrote at (length bytes.now) (pick name (files_of D.known self.old)).now) }
        ensures now_err { IsTrue D.tells
            → OnErr result (((pick name (files_of D.known self.new)).now
            ≡ wrote at (length bytes.now) (pick name (files_of D.known self.old)).now)
            ⊎ ((pick name (files_of D.known self.new)).now
            ≡ (pick name (files_of D.known self.old)).now)) }
        ensures others { others name (files_of D.known self.new)
            ≡ others name (files_of D.known self.old) }
        ensures counted { made_by D.known self.new ≡ called 1 (made_by D.known self.old) }
        ensures cause { HasCause (faults_of D.known self.old) (faults_of D.known self.new) result }
    {
        match name {
            DiskName::Root => self.root.write_at(at, bytes),
            DiskName::Left => self.left.write_at(at, bytes),
            DiskName::Right => self.right.write_at(at, bytes),
        }
    }

    pub(crate) fn cut(&mut self, name: DiskName, to: u64) -> Result<(), DiskFailed>
        requires { IsTrue D.tells → to ≤ length (pick name (files_of D.known self.old)).seen }
        ensures shortened { IsTrue D.tells
            → OnOk result ((pick name (files_of D.known self.new)).seen
            ≡ take to (pick name (files_of D.known self.old)).seen) }
        ensures torn { IsTrue D.tells
            → OnErr result (Cut to (pick name (files_of D.known self.old)).seen
            (pick name (files_of D.known self.new)).seen) }
        ensures now { IsTrue D.tells
            → OnOk result ((pick name (files_of D.known self.new)).now
            ≡ was_cut to (pick name (files_of D.known self.old)).now) }
        ensures now_err { IsTrue D.tells
            → OnErr result (((pick name (files_of D.known self.new)).now
            ≡ was_cut to (pick name (files_of D.known self.old)).now)
            ⊎ ((pick name (files_of D.known self.new)).now
            ≡ (pick name (files_of D.known self.old)).now)) }
        ensures others { others name (files_of D.known self.new)
            ≡ others name (files_of D.known self.old) }
        ensures counted { made_by D.known self.new ≡ called 1 (made_by D.known self.old) }
        ensures cause { HasCause (faults_of D.known self.old) (faults_of D.known self.new) result }
    {
        match name {
            DiskName::Root => self.root.cut(to),
            DiskName::Left => self.left.cut(to),
            DiskName::Right => self.right.cut(to),
        }
    }

    pub(crate) fn sync(&mut self, name: DiskName) -> Result<(), DiskFailed>
        ensures seen { IsTrue D.tells
            → (pick name (files_of D.known self.new)).seen
            ≡ (pick name (files_of D.known self.old)).seen }
        ensures durable { IsTrue D.tells
            → OnOk result ((pick name (files_of D.known self.new)).now
            ≡ settled (pick name (files_of D.known self.old)).seen) }
        ensures now_err { IsTrue D.tells
            → OnErr result ((pick name (files_of D.known self.new)).now
            ≡ (pick name (files_of D.known self.old)).now) }
        ensures others { others name (files_of D.known self.new)
            ≡ others name (files_of D.known self.old) }
        ensures counted { made_by D.known self.new ≡ called 1 (made_by D.known self.old) }
        ensures cause { HasCause (faults_of D.known self.old) (faults_of D.known self.new) result }
    {
        match name {
            DiskName::Root => self.root.sync(),
            DiskName::Left => self.left.sync(),
            DiskName::Right => self.right.sync(),
        }
    }
}
