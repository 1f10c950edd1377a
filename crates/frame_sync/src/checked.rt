//! Calls of a timeline that are tested before they are made.
ghost use Rattle.std.specs.Prelude.{◌≡◌, ◌<◌, ◌≤ℤ◌, [], None, false, length, IsTrue, IfSome, MatchOption};
ghost use Rattle.frame_sync.specs.Framesync.{EachOne};
ghost use Rattle.frame_sync.specs.Lanes.{IsOpen, IsPast, IsPastAt};

use crate::Timeline;
use crate::lane::Lane;
use std::alloc::Global;
use std::test::Fail;

/// The last time of an input, if it has one.
fn last_time(lane: &Lane) -> Option<i64>
    ensures { MatchOption result ((lane.now.waiting ≡ []) × (lane.now.latest ≡ None)) (λ t. EachOne lane.now.waiting (λ u. u ≤ℤ t) × IfSome lane.now.latest (λ s. s.pts ≤ℤ t)) }
{
    match (lane.waiting.back(), lane.latest) {
        (Some(last), _) => Some(*last),
        (None, Some(latest)) => Some(latest.pts),
        (None, None) => None,
    }
}

/// Whether it is open, and the time past its last one.
fn takes(lane: &Lane, pts: i64) -> bool
    ensures { IsTrue result → (lane.now.ended ≡ false) × IsPast lane.now pts }
{
    match last_time(lane) {
        Some(last) => !lane.ended && last < pts,
        None => !lane.ended,
    }
}

/// Whether an input of the timeline is open, and the time past its last one.
fn can_push(timeline: &Timeline, input: u32, pts: i64) -> bool
    ensures open { IsTrue result → IsOpen timeline.now input }
    ensures past { IsTrue result → IsPastAt timeline.now input pts }
{
    match timeline.lanes.get(input as usize) {
        Some(lane) => takes(lane, pts),
        None => false,
    }
}

/// Whether it is an input of the timeline.
fn is_input(timeline: &Timeline, input: u32) -> bool
    ensures { IsTrue result → input < length timeline.now }
{
    (input as usize) < timeline.lanes.len()
}

/// Pushes a time, past the last one.
pub(crate) fn push(
    timeline: &mut Timeline,
    alloc: Global,
    input: u32,
    pts: i64,
) -> Result<(), Fail> {
    if !can_push(timeline, input, pts) {
        return Err("not a rising list".into());
    }
    timeline.push(alloc, input, pts)?;
    Ok(())
}

/// Ends an input.
pub(crate) fn end(timeline: &mut Timeline, input: u32) -> Result<(), Fail> {
    if !is_input(timeline, input) {
        return Err("no such input".into());
    }
    timeline.end(input);
    Ok(())
}

/// The current frame of an input.
pub(crate) fn current(timeline: &Timeline, input: u32) -> Result<Option<u64>, Fail> {
    if !is_input(timeline, input) {
        return Err("no such input".into());
    }
    Ok(timeline.current(input))
}
