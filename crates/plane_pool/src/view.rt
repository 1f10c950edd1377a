//! What each owner of a slot knows, and the rule of slots.
use atomic_table::{Seat, Shared, Table, TableRule};
use std::alloc::Global;

/// What an owner knows. No value of it is made: a clause reads an array as a list of any length.
pub enum View {
    /// A keeper: the number of data words, the number of its looks, and the word that it found last.
    Keeper(u64, u64, u64),
    /// A keeper that has claimed the slot and is to give it, with the same three numbers.
    Giving(u64, u64, u64),
    /// A draft: the number of data words, the first place and the number of places of its range, and the words written.
    Drafting(u64, u64, u64, [u64; 0]),
    /// A reference: its weight, its content, and the word that it found last.
    Referring(u64, [u64; 0], u64),
    /// Nothing any more.
    Spent,
}

/// The rule of slots. Its key is the number of data words.
pub struct SlotRule;

impl TableRule<(), View, u64> for SlotRule {
    ghost use Rattle.plane_pool.specs.Slot.{Kept, keeper};

    ghost holds = { Kept };

    ghost first = { keeper };
}

/// A slot: word 0, which is the sum of the weights, and the data words.
pub type Slot = Table<(), View, u64, SlotRule, Global>;

/// The words of a slot, as all of its owners see them.
pub type Words = Shared<(), View, u64, SlotRule>;

/// The seat of an owner in the table of its slot.
pub type Place = Seat<(), View>;
