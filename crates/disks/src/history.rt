//! The earlier states of the three disks. They exist only in proofs.
ghost use Rattle.std.specs.Prelude.{◌≡◌, List, [], ◌∷◌, ◌++◌};
ghost use Rattle.std.specs.Borrow.{ftrue};

use std::marker::{Model, PhantomData};

/// The states that were noted, in order. It takes no bytes, and its calls do nothing when they run.
#[derive(Drop)]
pub(crate) struct History<T> {
    of: PhantomData<T>,
    pub ghost states: { List T },
}

impl<T> Model for History<T> {
    ghost also_owns = { λ _. ftrue };
}

impl<T> History<T> {
    pub(crate) fn new() -> History<T>
        ensures { result.states ≡ [] }
    {
        History { of: PhantomData }
    }

    /// The same with one state more.
    pub(crate) fn and(&self, _state: &T) -> History<T>
        ensures { result.states ≡ self.now.states ++ _state.now ∷ [] }
    {
        History { of: PhantomData }
    }
}
