//! What holds of all messages, each as the contract of a function that does nothing.
ghost use Rattle.sync_http.specs.Laws.{BodiesReadBack, HeadsGoOn, HeadsReadBack};

/// A head that was written is read as what it was written for, whatever comes after it.
pub fn law_heads()
    ensures { HeadsReadBack }
{}

/// What a whole head says it says with more bytes behind it, and nothing else is heard of them.
pub fn law_heads_go_on()
    ensures { HeadsGoOn }
{}

/// A body that was written is read as what it was written for.
pub fn law_bodies()
    ensures { BodiesReadBack }
{}
