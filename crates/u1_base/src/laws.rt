//! What holds of all ids and places, each as the contract of a function that does nothing.
ghost use Rattle.u1_base.specs.Ids.{IdsReadBack, SameIdDecides};
ghost use Rattle.u1_base.specs.Places.{SamePlaceDecides};

/// An id reads as itself, and what reads as an id is that id.
pub fn law_ids()
    ensures { IdsReadBack }
{}

/// Ids are the same exactly where their bytes are.
pub fn law_same_id()
    ensures { SameIdDecides }
{}

/// Places are the same exactly where their generations and transaction ids are.
pub fn law_same_place()
    ensures { SamePlaceDecides }
{}
