//! Drafts: the right to write a range of a slot.
ghost use Rattle.std.specs.Prelude.{◌≡◌, ◌+◌, ◌-◌, ◌<◌, ◌≤◌, [], ◌∷◌, ◌++◌, length, take, drop, slice_index, slice_set, MatchResult};
ghost use Rattle.std.specs.Arc.{arc_value};
ghost use Rattle.std.specs.Simd.Lanes.{put_chunk};
ghost use Rattle.plane_pool.specs.Slot.{whole_weight};
ghost use Rattle.plane_pool.specs.Owners.{IsDraft, CoversSlot, IsWritten, Reads, fresh_draft, reach};

use crate::plane_ref::PlaneRef;
use crate::steps;
use crate::view::{Place, Slot};
use std::alloc::Global;
use std::marker::Model;
use std::sync::Arc;

/// The right to write a range of a slot. Contracts see which slot it is, by its table and by its number in its pool, the
/// number of its data words, the range, and the words written. They are the first words of the range. Places count the data
/// words of the slot from 0, also for a draft that was cut.
///
/// A draft may move to another thread. A dropped draft of the whole slot is given up. A dropped part of one is not, so its
/// slot is never given again.
pub struct Draft {
    pub(crate) slot: Arc<Slot, Global>,
    pub(crate) seat: Place,
    pub(crate) number: u64,
    pub(crate) words: u32,
    pub(crate) from: u32,
    pub(crate) count: u32,
    pub(crate) written: u32,
}

impl Model for Draft {
    ghost use Rattle.std.specs.Prelude.{◌≡◌, ◌+◌};
    ghost use Rattle.std.specs.Arc.{arc_value};
    ghost use Rattle.plane_pool.specs.Owners.{DraftView, draft_code, written_of, IsDraft};

    ghost Value = { DraftView };

    ghost coded = { draft_code };

    ghost view = { λ d. record { table = d.seat.table_id; number = d.number; words = d.words; from = d.from; count = d.count; written = written_of d.seat.me.0 } };

    ghost invariant = { λ d. (d.seat.table_id ≡ (arc_value d.slot).shared.table_id) × ((arc_value d.slot).shared.key ≡ d.words) × ((arc_value d.slot).shared.table_id.words ≡ d.words + 1) × IsDraft d.seat.me d.words d.from d.count d.written };
}

/// A draft that could not be cut, since its slot had no room for one more owner.
#[derive(Drop)]
pub struct Uncut {
    pub draft: Draft,
}

impl Draft {
    /// The draft of a slot that its keeper gives.
    pub(crate) fn fresh(slot: Arc<Slot, Global>, seat: Place, number: u64, words: u32) -> Draft
        requires table { (seat.table_id ≡ (arc_value slot).shared.table_id) × ((arc_value slot).shared.key ≡ words) × ((arc_value slot).shared.table_id.words ≡ words + 1) }
        requires seat { IsDraft seat.me words 0 words 0 }
        ensures { result ≡ fresh_draft seat.table_id number words }
    {
        Draft {
            slot,
            seat,
            number,
            words,
            from: 0,
            count: words,
            written: 0,
        }
    }

    /// Writes a word: over one that is written, or after the last one.
    pub fn put(&mut self, at: u32, word: u64)
        requires range { (self.old.from ≤ at) × (at < self.old.from + self.old.count) }
        requires next { at ≤ reach self.old }
        ensures added { at ≡ reach self.old → self.new ≡ record self.old { written = self.old.written ++ word ∷ [] } }
        ensures replaced { at < reach self.old → self.new ≡ record self.old { written = slice_set self.old.written (at - self.old.from) word } }
    {
        steps::put(&self.slot.shared, &mut self.seat, at, word);
        if at - self.from == self.written {
            self.written += 1;
        }
    }

    /// Reads a word that is written.
    pub fn get(&mut self, at: u32) -> u64
        requires { (self.old.from ≤ at) × (at < reach self.old) }
        ensures word { result ≡ slice_index self.old.written (at - self.old.from) }
        ensures same { self.new ≡ self.old }
    {
        steps::get(&self.slot.shared, &mut self.seat, at)
    }

    /// Writes the words of a row after the last one.
    pub fn put_row(&mut self, row: &[u64])
        requires { length self.old.written + length row.now ≤ self.old.count }
        ensures { self.new ≡ record self.old { written = self.old.written ++ row.now } }
    {
        let at = self.from + self.written;
        steps::put_row(&self.slot.shared, &mut self.seat, at, row);
        self.written += row.len() as u32;
    }

    /// Writes the words of a row over those from the place `at` on.
    pub fn set_row(&mut self, at: u32, row: &[u64])
        requires { (self.old.from ≤ at) × (at + length row.now ≤ reach self.old) }
        ensures { self.new ≡ record self.old { written = put_chunk (at - self.old.from) self.old.written row.now } }
    {
        steps::put_row(&self.slot.shared, &mut self.seat, at, row)
    }

    /// Reads the words from the place `at` on into the row.
    pub fn get_row(&mut self, at: u32, row: &mut [u64])
        requires { (self.old.from ≤ at) × (at + length row.old ≤ reach self.old) }
        ensures words { Reads self.old.written (at - self.old.from) row.old row.new }
        ensures same { self.new ≡ self.old }
    {
        steps::get_row(&self.slot.shared, &mut self.seat, at, row)
    }

    /// How many words are written.
    pub fn written(&self) -> u32
        ensures { result ≡ length self.now.written }
    {
        self.written
    }

    /// The number of the slot in its pool.
    pub fn slot(&self) -> u64
        ensures { result ≡ self.now.number }
    {
        self.number
    }

    /// The one reference to the slot, of the whole weight. All is written.
    pub fn seal(self) -> PlaneRef
        requires whole { CoversSlot self }
        requires written { IsWritten self }
        ensures { result ≡ record { table = self.table; number = self.number; words = self.words; weight = whole_weight; content = self.written; found = 0 } }
    {
        let Draft {
            slot,
            mut seat,
            number,
            words,
            from: _,
            count: _,
            written: _,
        } = self;
        steps::seal(&slot.shared, &mut seat);
        PlaneRef {
            slot,
            seat,
            number,
            words,
            weight: steps::WHOLE_WEIGHT,
        }
    }

    /// Sets the slot free.
    pub fn give_up(self)
        requires { CoversSlot self }
    {}

    /// Two drafts: of the places before `at`, and of those from it on. All is written.
    ///
    /// # Errors
    /// No room for one more owner of the slot, with the draft.
    pub fn cut(mut self, at: u32) -> Result<(Draft, Draft), Uncut>
        requires written { IsWritten self }
        requires inside { (self.from < at) × (at < self.from + self.count) }
        ensures { MatchResult result
            (λ parts. (parts.0 ≡ record self { count = at - self.from; written = take (at - self.from) self.written })
            × (parts.1 ≡ record self { from = at; count = (self.from + self.count) - at; written = drop (at - self.from) self.written }))
            (λ uncut. uncut.draft ≡ self) }
    {
        let Ok(slot) = Arc::try_clone(&self.slot) else {
            return Err(Uncut { draft: self });
        };
        let seat = steps::cut(&self.slot.shared, &mut self.seat, at);
        let lower = at - self.from;
        let upper = self.count - lower;
        self.count = lower;
        self.written = lower;
        let number = self.number;
        let words = self.words;
        let above = Draft {
            slot,
            seat,
            number,
            words,
            from: at,
            count: upper,
            written: upper,
        };
        Ok((self, above))
    }

    /// One draft of two ranges that follow each other in one slot. All of both is written.
    pub fn mend(mut self, other: Draft) -> Draft
        requires slot { other.table ≡ self.table }
        requires next { other.from ≡ self.from + self.count }
        requires written { IsWritten self × IsWritten other }
        ensures { result ≡ record self { count = self.count + other.count; written = self.written ++ other.written } }
    {
        let Draft {
            slot: _other_slot,
            seat,
            number: _,
            words: _,
            from: _,
            count,
            written,
        } = other;
        steps::mend(&self.slot.shared, &mut self.seat, seat);
        self.count += count;
        self.written += written;
        self
    }
}

/// A draft of the whole slot is given up.
impl Drop for Draft {
    fn drop(self) {
        let Draft {
            slot,
            mut seat,
            number: _,
            words,
            from,
            count,
            written: _,
        } = self;
        if from == 0 && count == words {
            steps::release(&slot.shared, &mut seat, steps::WHOLE_WEIGHT);
        }
    }
}
