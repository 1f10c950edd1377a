//! The laws of slots.
ghost use Rattle.plane_pool.specs.Rule.{SlotsKeepTheirRule};
ghost use Rattle.plane_pool.specs.Free.{FreeSlotsWait};

/// Between any two steps of any threads, the words of a slot and the views of its owners meet the rule of slots. (What each
/// step asks and keeps is `Kept`.)
pub fn slots_keep_their_rule()
    ensures { SlotsKeepTheirRule }
{}

/// While word 0 of a slot is 0, nobody refers to the slot, and the only step that any owner can make is the claim of its
/// keeper.
pub fn free_slots_wait_for_their_keeper()
    ensures { FreeSlotsWait }
{}
