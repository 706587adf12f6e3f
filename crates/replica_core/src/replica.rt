//! The trait of replicas.
use crate::CommitFault;
use replica_state::{State, Step};

/// A replica: a state, and a place where its steps are kept.
///
/// A step is kept for good by `commit`, or together with others: `stage` makes it in memory, and
/// `flush` keeps all that is staged. A replica that is open has nothing staged.
///
/// `known` is what contracts see of it, `is_open` what an open one keeps, `stages` what one keeps
/// that takes steps and of which a crash now leaves just this state, and `crash` what opening it may
/// find after a crash at a moment, which is counted from 0.
pub trait Replica {
    ghost use Rattle.std.specs.Prelude.{◌≡◌, ◌≢◌, ◌≤◌, ◌<◌, ◌∷◌, [], ℕ, Err, IfErr, IsOk, OnErr};
    ghost use Rattle.std.specs.Prelude.{OnOk, Some, true};
    ghost use Rattle.std.specs.Result.{IsErrAnd};
    ghost use Rattle.conflicts.specs.State.{Fits, State, after};
    ghost use Rattle.replica_state.specs.Held.{lists_of};
    ghost use Rattle.replica_state.specs.Steps.{step_of};
    ghost use Rattle.replica_core.specs.declared.fault.CommitFault.TheVariants as fault;
    ghost use Rattle.replica_core.specs.Replica.{AddsOnly, Found, HasFailed, IsLeft, IsTooLong};
    ghost use Rattle.replica_core.specs.Replica.{IsUnflushed, Known, MayStand, NeedsBehind, Stands};
    ghost use Rattle.replica_core.specs.Replica.{StandsAs, StandsAsEither, Stored, is_disk};
    ghost use Rattle.replica_core.specs.Replica.{may_be_written, state_in, stored_as, stored_in};

    ghost known: { Self → Known };

    ghost is_open: { Self → Type 0 };

    ghost stages: { Self → State → Type 0 };

    ghost crash: { Self → ℕ → Found Stored → Type 0 };

    fn state(&self) -> &State
        ensures { result.now ≡ (known self.now).state };

    /// Whether it takes steps. It is closed once a disk has failed, and then has to be opened anew.
    fn is_open(&self) -> bool
        ensures { result ≡ (known self.now).opened };

    /// Makes the step, and keeps it for good. Nothing may be staged.
    ///
    /// `Full` is returned exactly when the step needs more than the limit, unless memory runs out.
    /// `Disk` is returned only when the count of faults rose; then the replica is closed.
    fn commit(&mut self, step: Step) -> Result<(), CommitFault>
        requires ready { is_open self.old }
        requires fits { Fits (state_in (known self.old)) (step_of step) }
        ensures ok { OnOk result
            ((state_in (known self.new) ≡ after (state_in (known self.old)) (step_of step))
            × is_open self.new) }
        ensures need { OnOk result
            (NeedsBehind (known self.old) (known self.new) (step_of step ∷ [])) }
        ensures cause { IfErr result
            (HasFailed (known self.old) (known self.new) (Some (step_of step))) }
        ensures too_long { (known self.old).limit < (known self.old).need [] (step_of step)
            → IsErrAnd result (IsTooLong (known self.old) (step_of step)) }
        ensures state { OnErr result
            (lists_of (known self.new).state ≡ lists_of (known self.old).state) }
        ensures left { IfErr result (λ fault. IsLeft (known self.old) (known self.new)
            (is_open self.new) (is_disk fault)) }
        ensures any_moment { AddsOnly known crash self.old self.new
            (MayStand (stored_in (known self.old)) (Some (step_of step)) (may_be_written result)) }
        ensures limit { (known self.new).limit ≡ (known self.old).limit }
        ensures later { (known self.old).faults ≤ (known self.new).faults };

    /// Makes the step, and keeps it in memory until `flush` keeps it for good. No disk is called,
    /// and a crash leaves what was kept for good before.
    ///
    /// `Full` is returned exactly when the image with all that is staged and with the step would
    /// need more than the limit, unless memory runs out. `Disk` is not returned.
    fn stage(&mut self, step: Step) -> Result<(), CommitFault>
        requires ready { (kept : _) × stages self.old kept }
        requires fits { Fits (state_in (known self.old)) (step_of step) }
        ensures ok { OnOk result
            (state_in (known self.new) ≡ after (state_in (known self.old)) (step_of step)) }
        ensures need { OnOk result
            (NeedsBehind (known self.old) (known self.new) (step_of step ∷ [])) }
        ensures stays { (kept : _) → stages self.old kept → stages self.new kept }
        ensures cause { IfErr result
            (HasFailed (known self.old) (known self.new) (Some (step_of step))) }
        ensures no_disk { result ≢ Err fault.Disk }
        ensures too_long { (known self.old).limit < (known self.old).need [] (step_of step)
            → IsErrAnd result (IsTooLong (known self.old) (step_of step)) }
        ensures state { OnErr result
            (lists_of (known self.new).state ≡ lists_of (known self.old).state) }
        ensures left { OnErr result (NeedsBehind (known self.old) (known self.new) []) }
        ensures any_moment { (kept : _) → stages self.old kept
            → AddsOnly known crash self.old self.new (StandsAs (stored_as (known self.old) kept)) }
        ensures limit { (known self.new).limit ≡ (known self.old).limit }
        ensures faults { (known self.new).faults ≡ (known self.old).faults };

    /// Keeps for good all that is staged. It takes no memory. Where nothing is staged it does
    /// nothing.
    ///
    /// A crash on the way leaves all that was staged or nothing of it. `Disk` is returned only when
    /// the count of faults rose; then the replica is closed, and its state is still the one with all
    /// that was staged. No other fault is returned.
    fn flush(&mut self) -> Result<(), CommitFault>
        requires ready { (kept : _) × stages self.old kept }
        ensures ok { OnOk result (is_open self.new) }
        ensures idle { is_open self.old → (self.new ≡ self.old) × IsOk result }
        ensures state { lists_of (known self.new).state ≡ lists_of (known self.old).state }
        ensures need { NeedsBehind (known self.old) (known self.new) [] }
        ensures cause { IfErr result (IsUnflushed (known self.old) (known self.new)) }
        ensures any_moment { (kept : _) → stages self.old kept
            → AddsOnly known crash self.old self.new
            (StandsAsEither (stored_as (known self.old) kept) (stored_in (known self.old))) }
        ensures limit { (known self.new).limit ≡ (known self.old).limit }
        ensures later { (known self.old).faults ≤ (known self.new).faults };

    /// What `is_open` answers of an open replica.
    ghost opened: { (r : Self) → is_open r → (known r).opened ≡ true };

    /// A crash of an open replica at this moment leaves just its state.
    ghost settled: { (r : Self) (found : Found Stored) → is_open r
        → crash r (known r).moment found → found ≡ Stands (stored_in (known r)) };

    /// An open replica has nothing staged: a crash leaves its state.
    ghost none_staged: { (r : Self) → is_open r → stages r (state_in (known r)) };

    /// A crash at this moment leaves just what is kept.
    ghost staged_leaves: { (r : Self) (kept : State) (found : Found Stored) → stages r kept
        → crash r (known r).moment found → found ≡ Stands (stored_as (known r) kept) };

    /// What `is_open` answers of a replica that stages steps.
    ghost opened_staged: { (r : Self) (kept : State) → stages r kept
        → (known r).opened ≡ true };
}
