//! Keepers: each makes one slot, looks at it when a draft is wanted, and gives it when it is free.
ghost use Rattle.std.specs.Prelude.{◌≡◌, ◌<◌, ◌+◌, true, false, [], length, slice_index, IfOk, MatchResult};
ghost use Rattle.plane_pool.specs.Owners.{fresh_draft};
ghost use Rattle.plane_pool.specs.Pools.{Looked};

use crate::draft::Draft;
use crate::steps;
use crate::view::{Place, Slot};
use atomic_table::Table;
use av_base::NoMemory;
use std::alloc::Global;
use std::marker::Model;
use std::sync::Arc;

/// The keeper of one slot. It alone can claim the slot.
#[derive(Drop)]
pub struct Keeper {
    slot: Arc<Slot, Global>,
    seat: Place,
    words: u32,
    giving: bool,
}

impl Model for Keeper {
    ghost use Rattle.std.specs.Prelude.{◌≡◌, ◌+◌};
    ghost use Rattle.std.specs.Arc.{arc_value};
    ghost use Rattle.plane_pool.specs.Owners.{found_of};
    ghost use Rattle.plane_pool.specs.Pools.{KeeperView, keeper_code, looks_of, IsKeeping};

    ghost Value = { KeeperView };

    ghost coded = { keeper_code };

    ghost view = { λ k. record { table = k.seat.table_id; words = k.words; giving = k.giving; looks = looks_of k.seat.me.0; found = found_of k.seat.me.0 } };

    ghost invariant = { λ k. (k.seat.table_id ≡ (arc_value k.slot).shared.table_id) × ((arc_value k.slot).shared.key ≡ k.words) × ((arc_value k.slot).shared.table_id.words ≡ k.words + 1) × IsKeeping k.seat.me k.words k.giving };
}

/// A list of zeros.
fn zeros(alloc: Global, count: usize) -> Result<Vec<u64>, NoMemory>
    requires { 0 < count }
    ensures { IfOk result (λ list. (length list.items ≡ count) × (slice_index list.items 0 ≡ 0)) }
{
    let list = vec![in alloc; 0u64; count]?;
    Ok(list)
}

impl Keeper {
    /// The keeper of a new slot. All words of the slot are 0.
    ///
    /// # Errors
    /// Out of memory.
    pub fn new(alloc: Global, words: u32) -> Result<Keeper, NoMemory>
        requires { 0 < words }
        ensures { IfOk result (λ keeper. (keeper.words ≡ words) × (keeper.giving ≡ false) × (keeper.looks ≡ 0)) }
    {
        let start = zeros(alloc, words as usize + 1)?;
        let (table, seat) = Table::of_words(alloc, start.as_slice(), &(words as u64))?;
        let slot = Arc::new(alloc, table)?;
        Ok(Keeper {
            slot,
            seat,
            words,
            giving: false,
        })
    }

    /// Whether the slot was claimed and is still to be given.
    pub fn is_giving(&self) -> bool
        ensures { result ≡ self.now.giving }
    {
        self.giving
    }

    /// Looks at word 0 and claims the slot if it is 0. Returns whether it is. A new slot is free.
    pub fn look(&mut self) -> bool
        requires { self.old.giving ≡ false }
        ensures { Looked self.old self.new result }
    {
        let found = steps::claim(&self.slot.shared, &mut self.seat);
        self.giving = found == 0;
        self.giving
    }

    /// Gives the slot that was claimed, as a draft with this number.
    ///
    /// # Errors
    /// No room for one more owner of the slot. Then the slot is still to be given.
    pub fn grant(&mut self, number: u64) -> Result<Draft, NoMemory>
        requires { self.old.giving ≡ true }
        ensures granted { MatchResult result
            (λ draft. (self.new ≡ record self.old { giving = false }) × (draft ≡ fresh_draft self.old.table number self.old.words))
            (λ _. self.new ≡ self.old) }
        ensures free { self.old.found ≡ 0 }
    {
        let slot = Arc::try_clone(&self.slot)?;
        let seat = steps::give(&self.slot.shared, &mut self.seat);
        self.giving = false;
        Ok(Draft::fresh(slot, seat, number, self.words))
    }
}
