//! Counting the calls of an object in memory, some of which are to fail.
ghost use Rattle.std.specs.Prelude.{◌≡◌, ◌≤◌, ◌↔◌, IsTrue, Contains};
ghost use Rattle.std.specs.Bool.{OnTrue, OnFalse};
ghost use Rattle.u1_base.specs.Causes.{Rose};
ghost use Rattle.link.specs.Memory.{one_more};

use u1_base::Numbers;

/// How many calls were made, which are to fail, and how many did.
#[derive(Drop)]
pub struct Calls {
    pub made: u64,
    pub failing: Numbers,
    pub faults: u64,
}

impl Calls {
    /// Counts one call, and tells whether it fails.
    pub fn begin(&mut self) -> bool
        ensures fails { IsTrue result ↔ Contains self.old.failing self.old.made }
        ensures made { self.new.made ≡ one_more self.old.made }
        ensures faulty { OnTrue result (self.new.faults ≡ one_more self.old.faults) }
        ensures rose { OnTrue result (Rose self.old.faults self.new.faults) }
        ensures faultless { OnFalse result (self.new.faults ≡ self.old.faults) }
        ensures later { self.old.faults ≤ self.new.faults }
        ensures failing { self.new.failing ≡ self.old.failing }
    {
        let fails = self.failing.as_slice().contains(&self.made);
        self.made = self.made.saturating_add(1);
        if fails {
            self.fail();
        }
        fails
    }

    /// Counts a failure.
    pub fn fail(&mut self)
        ensures made { self.new.made ≡ self.old.made }
        ensures faulty { self.new.faults ≡ one_more self.old.faults }
        ensures rose { Rose self.old.faults self.new.faults }
        ensures later { self.old.faults ≤ self.new.faults }
        ensures failing { self.new.failing ≡ self.old.failing }
    {
        self.faults = self.faults.saturating_add(1);
    }
}
