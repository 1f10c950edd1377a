//! References: shares of a sealed slot, which read it.
ghost use Rattle.std.specs.Prelude.{◌≡◌, ◌≢◌, ◌+◌, ◌-◌, ◌<◌, ◌≤◌, length, slice_index, MatchResult};
ghost use Rattle.plane_pool.specs.Owners.{Reads, opened_draft};

use crate::draft::Draft;
use crate::steps;
use crate::view::{Place, Slot};
use av_base::NoMemory;
use std::alloc::Global;
use std::marker::Model;
use std::sync::Arc;

/// A share of a slot. Contracts see which slot it is, as for a draft, the weight of the share, the content, which stays as
/// long as the reference is there, and the word that `sole` found last, 0 before that.
///
/// A reference may move to another thread. A dropped reference is released.
pub struct PlaneRef {
    pub(crate) slot: Arc<Slot, Global>,
    pub(crate) seat: Place,
    pub(crate) number: u64,
    pub(crate) words: u32,
    pub(crate) weight: u64,
}

impl Model for PlaneRef {
    ghost use Rattle.std.specs.Prelude.{◌≡◌, ◌+◌};
    ghost use Rattle.std.specs.Arc.{arc_value};
    ghost use Rattle.plane_pool.specs.Owners.{PlaneView, plane_code, content_of, found_of, IsPlane};

    ghost Value = { PlaneView };

    ghost coded = { plane_code };

    ghost view = { λ d. record { table = d.seat.table_id; number = d.number; words = d.words; weight = d.weight; content = content_of d.seat.me.0; found = found_of d.seat.me.0 } };

    ghost invariant = { λ d. (d.seat.table_id ≡ (arc_value d.slot).shared.table_id) × ((arc_value d.slot).shared.key ≡ d.words) × ((arc_value d.slot).shared.table_id.words ≡ d.words + 1) × IsPlane d.seat.me d.words d.weight };
}

/// A reference that is not alone: the word that was found is not its weight.
#[derive(Drop)]
pub struct Seen {
    pub plane: PlaneRef,
    pub found: u64,
}

impl PlaneRef {
    /// Reads a word.
    pub fn get(&mut self, at: u32) -> u64
        requires { at < length self.old.content }
        ensures word { result ≡ slice_index self.old.content at }
        ensures same { self.new ≡ self.old }
    {
        steps::get(&self.slot.shared, &mut self.seat, at)
    }

    /// Reads the words from the place `at` on into the row.
    pub fn get_row(&mut self, at: u32, row: &mut [u64])
        requires { at + length row.old ≤ length self.old.content }
        ensures words { Reads self.old.content at row.old row.new }
        ensures same { self.new ≡ self.old }
    {
        steps::get_row(&self.slot.shared, &mut self.seat, at, row)
    }

    /// The weight of this share, 1 to 2^62.
    pub fn weight(&self) -> u64
        ensures value { result ≡ self.now.weight }
        ensures some { 0 < result }
    {
        self.weight
    }

    /// The number of the slot in its pool.
    pub fn slot(&self) -> u64
        ensures { result ≡ self.now.number }
    {
        self.number
    }

    /// Lends a part of the weight to a new reference with the same content.
    ///
    /// # Errors
    /// No room for one more owner of the slot. Then all is as before.
    pub fn share(&mut self, give: u64) -> Result<PlaneRef, NoMemory>
        requires { (0 < give) × (give < self.old.weight) }
        ensures { MatchResult result
            (λ other. (self.new ≡ record self.old { weight = self.old.weight - give }) × (other ≡ record self.old { weight = give; found = 0 }))
            (λ _. self.new ≡ self.old) }
    {
        let slot = Arc::try_clone(&self.slot)?;
        let seat = steps::share(&self.slot.shared, &mut self.seat, give);
        self.weight -= give;
        let number = self.number;
        let words = self.words;
        Ok(PlaneRef {
            slot,
            seat,
            number,
            words,
            weight: give,
        })
    }

    /// Takes the weight of this share from word 0.
    pub fn release(self) {}

    /// The slot as a draft with all of its words written, if this reference is the only owner.
    ///
    /// # Errors
    /// Another owner has a share: the word that was found is not the weight. The reference comes back with that word.
    #[tactic(auto, using(crate::proofs::Owned::opens_whole))]
    pub fn sole(mut self) -> Result<Draft, Seen>
        ensures { MatchResult result
            (λ draft. draft ≡ opened_draft self)
            (λ seen. (seen.found ≢ self.weight) × (seen.plane ≡ record self { found = seen.found })) }
    {
        let found = steps::sole(&self.slot.shared, &mut self.seat, self.weight);
        if found != self.weight {
            return Err(Seen { plane: self, found });
        }
        let PlaneRef {
            slot,
            seat,
            number,
            words,
            weight: _,
        } = self;
        Ok(Draft {
            slot,
            seat,
            number,
            words,
            from: 0,
            count: words,
            written: words,
        })
    }
}

/// The reference is released.
impl Drop for PlaneRef {
    fn drop(self) {
        let PlaneRef {
            slot,
            mut seat,
            number: _,
            words: _,
            weight,
        } = self;
        steps::release(&slot.shared, &mut seat, weight);
    }
}
