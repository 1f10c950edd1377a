//! The ten kinds of step of a slot. Each is one atomic operation on one word, by the seat of an owner. It asks something of
//! the owner's view (`May..`), keeps the rule of slots, and states the view after it.
ghost use Rattle.std.specs.Prelude.{◌≡◌, ◌≢◌, ℕ, ◌+◌, ◌-◌, ◌^◌, ◌<◌, ◌≤◌, [], List, length, slice_index};
ghost use Rattle.plane_pool.specs.Slot.{weight as weight_of, IsFresh};
ghost use Rattle.plane_pool.specs.Told.{written_at, row_written_at, word_of, sealed, lighter, lent, opened, looked, claimed, idle, drafted, cut_left, cut_right, mended};
ghost use Rattle.plane_pool.specs.declared.view.View.TheVariants.{Spent};
ghost use Rattle.plane_pool.specs.Asked.{MayPut, MayPutRow, MayGet, MaySeal, MayRelease, MayShare, MayOpen, MayClaim, MayGive, MayCut, MayMend};

use crate::plays::{Claim, Cut, Get, Give, Lot, Mend, Put, Release, Seal, Share, Sole};
use crate::view::{Place, Words};
use std::marker::Brand;

/// The whole weight.
pub const WHOLE_WEIGHT: u64 = 1 << 62;

/// Stores a data word: put.
pub fn put(words: &Words, seat: &mut Place, at: u32, word: u64)
    requires table { seat.old.table_id ≡ words.now.table_id }
    requires place { at < words.now.key }
    requires wide { words.now.table_id.words ≡ words.now.key + 1 }
    requires may { MayPut seat.old.me.0 at }
    ensures seat { (seat.new.table_id ≡ seat.old.table_id) × (seat.new.id ≡ seat.old.id) }
    ensures view { seat.new.me ≡ (written_at seat.old.me.0 at word, seat.old.me.1) }
{
    words.store::<Put>(seat, at as usize + 1, word)
}

/// Loads a data word: get.
pub fn get(words: &Words, seat: &mut Place, at: u32) -> u64
    requires table { seat.old.table_id ≡ words.now.table_id }
    requires wide { words.now.table_id.words ≡ words.now.key + 1 }
    requires place { at < words.now.key }
    requires may { MayGet seat.old.me.0 at }
    ensures seat { (seat.new.table_id ≡ seat.old.table_id) × (seat.new.id ≡ seat.old.id) × (seat.new.me ≡ seat.old.me) }
    ensures word { result ≡ word_of seat.old.me.0 at }
{
    words.load::<Get>(seat, at as usize + 1)
}

/// Makes a draft the one reference: seal. The load of word 0 is the step at which its view changes.
pub fn seal(words: &Words, seat: &mut Place)
    requires table { seat.old.table_id ≡ words.now.table_id }
    requires wide { 0 < words.now.table_id.words }
    requires full { MaySeal seat.old.me.0 }
    ensures seat { (seat.new.table_id ≡ seat.old.table_id) × (seat.new.id ≡ seat.old.id) }
    ensures view { seat.new.me ≡ (sealed seat.old.me.0, seat.old.me.1) }
{
    let _ = words.load::<Seal>(seat, 0);
}

/// Takes the weight of the owner from word 0: drop.
pub fn release(words: &Words, seat: &mut Place, weight: u64)
    requires table { seat.old.table_id ≡ words.now.table_id }
    requires wide { 0 < words.now.table_id.words }
    requires free { MayRelease seat.old.me.0 }
    requires weight { weight ≡ weight_of seat.old.me.0 }
    ensures seat { (seat.new.table_id ≡ seat.old.table_id) × (seat.new.id ≡ seat.old.id) }
    ensures view { seat.new.me ≡ (Spent, seat.old.me.1) }
{
    words.fetch_sub::<Release>(seat, 0, weight);
}

/// The same, with the weight as the number of the split.
fn share_as<G: Lot>(words: &Words, seat: &mut Place, give: u64) -> Place
    requires table { seat.old.table_id ≡ words.now.table_id }
    requires wide { 0 < words.now.table_id.words }
    requires give { G.give ≡ give }
    requires lend { MayShare seat.old.me.0 give }
    ensures seat { (seat.new.table_id ≡ seat.old.table_id) × (seat.new.id ≡ seat.old.id) × (result.table_id ≡ seat.old.table_id) }
    ensures views { (seat.new.me ≡ (lighter give seat.old.me.0, seat.old.me.1)) × (result.me ≡ (lent give seat.old.me.0, [])) }
{
    let _ = give;
    words.split_seat::<Share<G>>(seat)
}

/// Lends a part of the owner's weight to a new owner: share.
pub fn share(words: &Words, seat: &mut Place, give: u64) -> Place
    requires table { seat.old.table_id ≡ words.now.table_id }
    requires wide { 0 < words.now.table_id.words }
    requires lend { MayShare seat.old.me.0 give }
    ensures seat { (seat.new.table_id ≡ seat.old.table_id) × (seat.new.id ≡ seat.old.id) × (result.table_id ≡ seat.old.table_id) }
    ensures views { (seat.new.me ≡ (lighter give seat.old.me.0, seat.old.me.1)) × (result.me ≡ (lent give seat.old.me.0, [])) }
{
    share_as::<Brand>(words, seat, give)
}

/// Gives a draft of the slot that the keeper has claimed: give.
pub fn give(words: &Words, seat: &mut Place) -> Place
    requires table { seat.old.table_id ≡ words.now.table_id }
    requires wide { 0 < words.now.table_id.words }
    requires giving { MayGive seat.old.me.0 }
    ensures seat { (seat.new.table_id ≡ seat.old.table_id) × (seat.new.id ≡ seat.old.id) × (result.table_id ≡ seat.old.table_id) }
    ensures views { (seat.new.me ≡ (idle seat.old.me.0, seat.old.me.1)) × (result.me ≡ (drafted seat.old.me.0, [])) }
{
    words.split_seat::<Give>(seat)
}

/// Makes a reference a draft if word 0 is its weight: sole. Returns the word that was found.
pub fn sole(words: &Words, seat: &mut Place, weight: u64) -> u64
    requires table { seat.old.table_id ≡ words.now.table_id }
    requires wide { 0 < words.now.table_id.words }
    requires reference { MayOpen seat.old.me.0 weight }
    ensures seat { (seat.new.table_id ≡ seat.old.table_id) × (seat.new.id ≡ seat.old.id) }
    ensures draft { result ≡ weight → seat.new.me ≡ (opened seat.old.me.0, seat.old.me.1) }
    ensures seen { result ≢ weight → seat.new.me ≡ (looked result seat.old.me.0, seat.old.me.1) }
{
    words.compare_exchange::<Sole>(seat, 0, weight, WHOLE_WEIGHT)
}

/// Claims the slot if word 0 is 0: claim. Returns the word that was found.
pub fn claim(words: &Words, seat: &mut Place) -> u64
    requires table { seat.old.table_id ≡ words.now.table_id }
    requires wide { 0 < words.now.table_id.words }
    requires keeper { MayClaim seat.old.me.0 }
    ensures seat { (seat.new.table_id ≡ seat.old.table_id) × (seat.new.id ≡ seat.old.id) }
    ensures fresh { IsFresh seat.old.me.0 → result ≡ 0 }
    ensures given { result ≡ 0 → seat.new.me ≡ (claimed seat.old.me.0, seat.old.me.1) }
    ensures seen { result ≢ 0 → seat.new.me ≡ (looked result seat.old.me.0, seat.old.me.1) }
{
    words.compare_exchange::<Claim>(seat, 0, 0, WHOLE_WEIGHT)
}

/// Loads the data words from the place `at` on into the row.
pub fn get_row(words: &Words, seat: &mut Place, at: u32, row: &mut [u64])
    requires table { seat.old.table_id ≡ words.now.table_id }
    requires wide { words.now.table_id.words ≡ words.now.key + 1 }
    requires small { words.now.key < 2 ^ 32 }
    requires place { at + length row.old ≤ words.now.key }
    requires may { (k : ℕ) → k < length row.old → MayGet seat.old.me.0 (at + k) }
    ensures seat { (seat.new.table_id ≡ seat.old.table_id) × (seat.new.id ≡ seat.old.id) × (seat.new.me ≡ seat.old.me) }
    ensures words { (k : ℕ) → k < length row.old → slice_index row.new k ≡ word_of seat.old.me.0 (at + k) }
{
    for i in 0..row.len() {
        row[i] = get(words, seat, at + i as u32);
    }
}

/// Stores the words of the row from the place `at` on.
pub fn put_row(words: &Words, seat: &mut Place, at: u32, row: &[u64])
    requires table { seat.old.table_id ≡ words.now.table_id }
    requires wide { words.now.table_id.words ≡ words.now.key + 1 }
    requires small { words.now.key < 2 ^ 32 }
    requires place { at + length row.now ≤ words.now.key }
    requires may { MayPutRow seat.old.me.0 at (length row.now) }
    ensures seat { (seat.new.table_id ≡ seat.old.table_id) × (seat.new.id ≡ seat.old.id) }
    ensures view { seat.new.me ≡ (row_written_at seat.old.me.0 at row.now, seat.old.me.1) }
{
    for i in 0..row.len() {
        put(words, seat, at + i as u32, row[i]);
    }
}

/// The same, with the place as the number of the split.
fn cut_as<G: Lot>(words: &Words, seat: &mut Place, at: u32) -> Place
    requires table { seat.old.table_id ≡ words.now.table_id }
    requires wide { 0 < words.now.table_id.words }
    requires give { G.give ≡ at }
    requires cut { MayCut seat.old.me.0 at }
    ensures seat { (seat.new.table_id ≡ seat.old.table_id) × (seat.new.id ≡ seat.old.id) × (result.table_id ≡ seat.old.table_id) }
    ensures views { (seat.new.me ≡ (cut_left at seat.old.me.0, seat.old.me.1)) × (result.me ≡ (cut_right at seat.old.me.0, [])) }
{
    let _ = at;
    words.split_seat::<Cut<G>>(seat)
}

/// Cuts a range in two: cut. The new owner has the part from the place `at` on.
pub fn cut(words: &Words, seat: &mut Place, at: u32) -> Place
    requires table { seat.old.table_id ≡ words.now.table_id }
    requires wide { 0 < words.now.table_id.words }
    requires cut { MayCut seat.old.me.0 at }
    ensures seat { (seat.new.table_id ≡ seat.old.table_id) × (seat.new.id ≡ seat.old.id) × (result.table_id ≡ seat.old.table_id) }
    ensures views { (seat.new.me ≡ (cut_left at seat.old.me.0, seat.old.me.1)) × (result.me ≡ (cut_right at seat.old.me.0, [])) }
{
    cut_as::<Brand>(words, seat, at)
}

/// Joins the range of the other owner to that of this one: mend.
pub fn mend(words: &Words, seat: &mut Place, other: Place)
    requires table { (seat.old.table_id ≡ words.now.table_id) × (other.table_id ≡ words.now.table_id) }
    requires wide { 0 < words.now.table_id.words }
    requires empty { other.me.1 ≡ [] }
    requires mend { MayMend seat.old.me.0 other.me.0 }
    ensures seat { (seat.new.table_id ≡ seat.old.table_id) × (seat.new.id ≡ seat.old.id) }
    ensures view { seat.new.me ≡ (mended seat.old.me.0 other.me.0, seat.old.me.1) }
{
    words.join_seat::<Mend>(seat, other);
}
