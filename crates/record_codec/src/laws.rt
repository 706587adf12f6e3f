//! What holds of all bodies, each as the contract of a function that does nothing.
ghost use Rattle.record_codec.specs.Laws.{BodiesReadBack, FirstBodiesReadBack};

/// Where the same uids have numbers, each step has one body and each body says one step.
pub fn law_bodies()
    ensures { BodiesReadBack }
{}

/// The same of bodies in format 1.
pub fn law_first_bodies()
    ensures { FirstBodiesReadBack }
{}
