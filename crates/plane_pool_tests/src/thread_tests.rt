//! Threads that read one slot, write another, and write parts of one draft.
ghost use Rattle.std.specs.Prelude.{◌≡◌, ◌+◌, ◌<◌, ◌^◌, length, IfOk};
ghost use denote.Param.Send.{IsSync};
ghost use Rattle.plane_pool.specs.Owners.{IsWritten};
ghost use Rattle.plane_pool.specs.Slot.{whole_weight};

use av_base::NoMemory;
use plane_pool::{Draft, PlaneRef, Pool};
use std::alloc::Global;
use std::test::Fail;
use std::thread::{Threads, join};

/// The number of data words of each slot, and that of the parts of a draft.
const WORDS: u32 = 64;

/// How often each thread goes over its slot.
const ROUNDS: u64 = 2000;

/// A reference to a slot whose words are all this one.
fn plane_of(alloc: Global, pool: &mut Pool, word: u64) -> Result<PlaneRef, NoMemory>
    requires { pool.old.words ≡ WORDS }
    ensures words { pool.new.words ≡ WORDS }
    ensures plane { IfOk result (λ plane. (length plane.content ≡ WORDS) × (plane.weight ≡ whole_weight)) }
{
    let mut draft = pool.acquire(alloc)?;
    draft.put_row(&[word; 64]);
    Ok(draft.seal())
}

/// How many words of a row are another word.
fn others(row: &[u64], word: u64) -> u64 {
    row.iter().filter(|found| **found != word).count() as u64
}

/// Reads the slot, each time through a share of its own, and counts the reads of another word. The reference is released.
fn read(mut plane: PlaneRef, word: u64) -> u64
    requires { length plane.content ≡ WORDS }
{
    let mut strays = 0u64;
    let mut row = [0; 64];
    for _ in 0..ROUNDS {
        if plane.weight() < 2 {
            return u64::MAX;
        }
        let Ok(mut share) = plane.share(1) else {
            return u64::MAX;
        };
        share.get_row(0, &mut row);
        strays = strays.saturating_add(others(&row, word));
        share.release();
    }
    strays
}

/// Edits the slot, each time as the only owner, and returns the word that is written last.
fn edit(mut plane: PlaneRef) -> Option<u64>
    requires { (length plane.content ≡ WORDS) × (plane.words ≡ WORDS) }
{
    for round in 0..ROUNDS {
        let Ok(mut draft) = plane.sole() else {
            return None;
        };
        draft.set_row(0, &[round; 64]);
        plane = draft.seal();
    }
    Some(plane.get(63))
}

/// Reads one slot by two threads and edits another by a third one.
fn read_and_edit<R: Threads + Sync>(
    rt: &R,
    one: PlaneRef,
    other: PlaneRef,
    edited: PlaneRef,
) -> (u64, u64, Option<u64>)
    requires readers { (length one.content ≡ WORDS) × (length other.content ≡ WORDS) }
    requires edited { (length edited.content ≡ WORDS) × (edited.words ≡ WORDS) }
{
    let readers = move || -> (u64, u64)
        requires { IsSync R.row × (length one.content ≡ WORDS) × (length other.content ≡ WORDS) }
    { join(rt, move || read(one, 7), move || read(other, 7)) };
    let ((one, other), last) = join(rt, readers, move || edit(edited));
    (one, other, last)
}

#[test]
fn two_threads_read_a_slot_while_a_third_edits_another(rt: HostRuntime) -> Result<(), Fail> {
    let mut pool = Pool::new(rt.alloc(), WORDS)?;
    let mut one = plane_of(rt.alloc(), &mut pool, 7)?;
    let other = one.share(1 << 61)?;
    let edited = plane_of(rt.alloc(), &mut pool, 0)?;
    let seen = read_and_edit(&rt, one, other, edited);
    assert_eq!(rt; seen, (0, 0, Some(ROUNDS - 1)));

    // The threads released all that they had.
    let first = pool.acquire(rt.alloc())?;
    let second = pool.acquire(rt.alloc())?;
    assert_eq!(rt; (first.slot(), second.slot(), pool.slots()), (0, 1, 2));
    Ok(())
}

/// Writes each word of the draft by a thread of its own: cuts the draft until its parts have one word each, and mends them.
#[cycle(halves)]
fn write_apart<R: Threads + Sync>(
    rt: &R,
    mut draft: Draft,
    from: u32,
    count: u32,
) -> Result<Draft, NoMemory>
    requires range { (draft.from ≡ from) × (draft.count ≡ count) × (0 < count) × (from + count < 2 ^ 32) }
    requires written { IsWritten draft }
    ensures { IfOk result (λ whole. (whole ≡ record draft { written = whole.written }) × IsWritten whole) }
{
    if count == 1 {
        draft.put(from, u64::from(from) + 100);
        return Ok(draft);
    }
    let low = count / 2;
    let high = count - low;
    let middle = from + low;
    let Ok((lower, upper)) = draft.cut(middle) else {
        return Err(NoMemory);
    };
    let front = move || -> Result<Draft, NoMemory>
        requires { IsSync R.row × (lower.from ≡ from) × (lower.count ≡ low) × (0 < low) × (from + low < 2 ^ 32) × IsWritten lower }
        ensures { IfOk result (λ whole. (whole ≡ record lower { written = whole.written }) × IsWritten whole) }
    { write_apart(rt, lower, from, low) };
    let back = move || -> Result<Draft, NoMemory>
        requires { IsSync R.row × (upper.from ≡ middle) × (upper.count ≡ high) × (0 < high) × (middle + high < 2 ^ 32) × IsWritten upper }
        ensures { IfOk result (λ whole. (whole ≡ record upper { written = whole.written }) × IsWritten whole) }
    { write_apart(rt, upper, middle, high) };
    let (lower, upper) = join(rt, front, back);
    Ok(lower?.mend(upper?))
}

#[test]
fn parts_of_a_draft_are_written_by_threads_of_their_own(rt: HostRuntime) -> Result<(), Fail> {
    let mut pool = Pool::new(rt.alloc(), WORDS)?;
    let mut draft = pool.acquire(rt.alloc())?;
    draft.put_row(&[0; 64]);
    let draft = write_apart(&rt, draft, 0, WORDS)?;
    let mut row = [0; 64];
    draft.seal().get_row(0, &mut row);
    for place in 0..64 {
        assert_eq!(rt; row[place], 100 + place as u64, "at {place}");
    }
    Ok(())
}
