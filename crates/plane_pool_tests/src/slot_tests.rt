//! Slots that come back when nobody refers to them, weights, and references that are alone.
ghost use Rattle.std.specs.Prelude.{◌≡◌, ◌<◌, length, IfOk};
ghost use Rattle.plane_pool.specs.Slot.{whole_weight};

use av_base::NoMemory;
use plane_pool::{PlaneRef, Pool};
use std::alloc::Global;
use std::test::Fail;

/// A reference of the whole weight to a slot of the pool with these words.
fn plane_of(alloc: Global, pool: &mut Pool, words: &[u64]) -> Result<PlaneRef, NoMemory>
    requires { length words.now ≡ pool.old.words }
    ensures words { pool.new.words ≡ pool.old.words }
    ensures plane { IfOk result (λ plane. (plane.content ≡ words.now) × (plane.words ≡ pool.old.words) × (plane.weight ≡ whole_weight)) }
{
    let mut draft = pool.acquire(alloc)?;
    draft.put_row(words);
    Ok(draft.seal())
}

/// Lends a part of 2^20 of the weight, or a weight of 1. A weight of 1 can't be lent.
fn lend(plane: &mut PlaneRef) -> Option<PlaneRef>
    ensures { (plane.new.content ≡ plane.old.content) × (plane.new.words ≡ plane.old.words) }
{
    let weight = plane.weight();
    if weight < 2 {
        return None;
    }
    plane.share((weight >> 20).max(1)).ok()
}

/// Writes a word of a slot whose reference is alone, and reads the slot after that.
fn edited(plane: PlaneRef) -> Option<[u64; 3]>
    requires { (length plane.content ≡ 3) × (plane.words ≡ 3) }
{
    let Ok(mut draft) = plane.sole() else {
        return None;
    };
    draft.set_row(1, &[5]);
    let mut row = [0; 3];
    draft.seal().get_row(0, &mut row);
    Some(row)
}

#[test]
fn a_slot_comes_back_when_nobody_refers_to_it(rt: HostRuntime) -> Result<(), Fail> {
    let mut pool = Pool::new(rt.alloc(), 2)?;
    let mut draft = pool.acquire(rt.alloc())?;
    draft.put(0, 7);
    draft.put(1, 8);
    let plane = draft.seal();
    assert_eq!(rt; plane.slot(), 0);
    plane.release();
    let mut draft = pool.acquire(rt.alloc())?;
    assert_eq!(rt; (draft.slot(), pool.slots(), draft.written()), (0, 1, 0));

    draft.put_row(&[7, 8]);
    let mut plane = draft.seal();
    let other = pool.acquire(rt.alloc())?;
    assert_eq!(rt; (other.slot(), pool.slots()), (1, 2));
    assert_eq!(rt; (plane.get(0), plane.get(1)), (7, 8));

    // Dropped values set their slots free too.
    other.give_up();
    let other = pool.acquire(rt.alloc())?;
    assert_eq!(rt; (other.slot(), pool.slots()), (1, 2));
    drop(plane);
    let other = pool.acquire(rt.alloc())?;
    assert_eq!(rt; (other.slot(), pool.slots()), (0, 2));
    Ok(())
}

#[test]
fn weights_shrink_along_a_chain_of_shares(rt: HostRuntime) -> Result<(), Fail> {
    let mut pool = Pool::new(rt.alloc(), 1)?;
    let mut first = plane_of(rt.alloc(), &mut pool, &[7])?;
    assert_eq!(rt; first.weight(), 1 << 62);
    let mut second = lend(&mut first).ok_or("no share")?;
    assert_eq!(rt; second.weight(), 1 << 42);
    let mut third = lend(&mut second).ok_or("no share")?;
    assert_eq!(rt; third.weight(), 1 << 22);
    let mut fourth = lend(&mut third).ok_or("no share")?;
    assert_eq!(rt; fourth.weight(), 4);
    let mut fifth = lend(&mut fourth).ok_or("no share")?;
    assert_eq!(rt; fifth.weight(), 1);
    assert!(rt; lend(&mut fifth).is_none());
    assert_eq!(rt;
        (first.weight(), fourth.weight()),
        ((1 << 62) - (1 << 42), 3)
    );

    // The slot is free once all of them are gone.
    for plane in [first, second, third, fourth] {
        plane.release();
        let other = pool.acquire(rt.alloc())?;
        assert_eq!(rt; other.slot(), 1);
    }
    fifth.release();
    let other = pool.acquire(rt.alloc())?;
    assert_eq!(rt; (other.slot(), pool.slots()), (0, 2));
    Ok(())
}

#[test]
fn a_reference_that_is_alone_can_be_written(rt: HostRuntime) -> Result<(), Fail> {
    let mut pool = Pool::new(rt.alloc(), 3)?;
    let mut plane = plane_of(rt.alloc(), &mut pool, &[7, 8, 9])?;
    let other = lend(&mut plane).ok_or("no share")?;
    let Err(seen) = plane.sole() else {
        return Err("another reference was there".into());
    };
    assert_eq!(rt; seen.found, 1 << 62);
    let mut plane = seen.plane;
    assert_eq!(rt; (plane.weight(), plane.get(1)), ((1 << 62) - (1 << 42), 8));
    other.release();
    assert_eq!(rt; edited(plane), Some([7, 5, 9]));
    Ok(())
}
