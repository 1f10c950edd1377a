//! One turn over all inputs.
ghost use Rattle.std.specs.Prelude.{◌≡◌, ◌↔◌, ◌<◌, ◌≤◌, ◌^◌, ℕ, [], length, IsTrue, IsFalse, MatchOption};
ghost use Rattle.frame_sync.specs.Framesync.{SomeOne, EachOne};
ghost use Rattle.av_base.specs.First.{IsFirst};
ghost use Rattle.frame_sync.specs.Histories.{History, IsNext, returned};
ghost use Rattle.frame_sync.specs.Timelines.{Represents, IsLeft};
ghost use Rattle.frame_sync.specs.Lanes.{IsSpent, EndsAll, IsDone, IsHungryAt, Heads, IsEarliestTime, IsEarlier, IsTop, HasBegun, MakesEvent, PassesAll, ShowsAll, waiting_count};
ghost use Rattle.frame_sync.specs.declared.rules.Before.TheVariants as before;
ghost use Rattle.frame_sync.specs.declared.rules.Step.TheVariants.{Event};

use crate::lane::Lane;
use crate::rules::{Before, Step};

/// Whether an input ends all events.
fn one_ends_all(lanes: &[Lane]) -> bool
    ensures { IsTrue result ↔ SomeOne lanes.now EndsAll }
{
    'lanes: for lane in lanes {
        if lane.ends_all() {
            return true;
        }
    }
    false
}

/// Whether every input of sync above 0 has ended with nothing waiting.
fn all_are_spent(lanes: &[Lane]) -> bool
    ensures { IsTrue result ↔ EachOne lanes.now (λ l. 0 < l.rule.sync → IsSpent l) }
{
    'lanes: for lane in lanes {
        if lane.sync() > 0 && !lane.is_spent() {
            return false;
        }
    }
    true
}

/// Whether no more events come.
fn is_done(lanes: &[Lane]) -> bool
    ensures { IsTrue result ↔ IsDone lanes.now }
{
    one_ends_all(lanes) || all_are_spent(lanes)
}

/// The lowest open input with nothing waiting.
fn first_hungry(lanes: &[Lane]) -> Option<usize>
    ensures { MatchOption result ((k : ℕ) → IsHungryAt lanes.now k → ⊥) (IsFirst (IsHungryAt lanes.now)) }
{
    'lanes: for (input, lane) in lanes.iter().enumerate() {
        if lane.is_hungry() {
            return Some(input);
        }
    }
    None
}

/// The earliest time that waits.
fn earliest_time(lanes: &[Lane]) -> Option<i64>
    ensures { MatchOption result (EachOne lanes.now (λ l. l.waiting ≡ [])) (IsEarliestTime lanes.now) }
{
    let mut earliest: Option<i64> = None;
    'lanes: for lane in lanes {
        earliest = earlier(earliest, lane.head());
    }
    earliest
}

/// The earlier of two times, either of which may be missing.
fn earlier(a: Option<i64>, b: Option<i64>) -> Option<i64>
    ensures { IsEarlier a b result }
{
    match (a, b) {
        (Some(a), Some(b)) => Some(a.min(b)),
        (Some(a), None) => Some(a),
        (None, b) => b,
    }
}

/// The greatest sync of the inputs with something waiting, or 0.
fn top_level(lanes: &[Lane]) -> u8
    ensures { IsTop lanes.now result }
{
    let mut level = 0;
    'lanes: for lane in lanes {
        if lane.waits() {
            level = level.max(lane.sync());
        }
    }
    level
}

/// Whether an input of the sync waits at the time.
fn one_meets(lanes: &[Lane], pts: i64, level: u8) -> bool
    ensures { IsTrue result ↔ SomeOne lanes.now (λ l. Heads l pts × (l.rule.sync ≡ level)) }
{
    'lanes: for lane in lanes {
        if lane.head() == Some(pts) && lane.sync() == level {
            return true;
        }
    }
    false
}

/// Whether every Stop-before input has a timestamp not later than the earliest that waits.
fn all_have_begun(lanes: &[Lane], pts: i64) -> bool
    ensures { IsTrue result ↔ EachOne lanes.now (λ l. l.rule.before ≡ before.Stop → HasBegun l pts) }
{
    'lanes: for lane in lanes {
        if lane.is_stop_before() && !lane.has_begun(pts) {
            return false;
        }
    }
    true
}

/// Whether the earliest time that waits is an event.
fn makes_event(lanes: &[Lane], pts: i64) -> bool
    ensures { IsTrue result ↔ MakesEvent lanes.now pts }
{
    let level = top_level(lanes);
    level > 0 && one_meets(lanes, pts, level) && all_have_begun(lanes, pts)
}

/// Passes the earliest time that waits.
fn pass_all(lanes: &mut [Lane], pts: i64)
    ensures { PassesAll lanes.old pts lanes.new }
{
    'lanes: for lane in lanes.iter_mut() {
        lane.pass(pts);
    }
}

/// Makes the current frames those at a time that was just passed.
fn show_all(lanes: &mut [Lane], pts: i64)
    ensures { ShowsAll lanes.old pts lanes.new }
{
    'lanes: for lane in lanes.iter_mut() {
        lane.show(pts);
    }
}

/// Passes the earliest time that waits. Returns whether it is an event.
fn turn(lanes: &mut [Lane], pts: i64) -> bool
    requires earliest { IsEarliestTime lanes.old pts }
    requires fed { (k : ℕ) → ¬ IsHungryAt lanes.old k }
    requires lasting { ¬ IsDone lanes.old }
    ensures event { (h : History) → Represents lanes.old h → IsTrue result → IsNext h (Event pts) × Represents lanes.new (returned (Event pts) h) }
    ensures none { (h : History) → Represents lanes.old h → IsFalse result → Represents lanes.new h }
    ensures fewer { waiting_count lanes.new < waiting_count lanes.old }
{
    let is_event = makes_event(lanes, pts);
    pass_all(lanes, pts);
    if is_event {
        show_all(lanes, pts);
    }
    is_event
}

/// Passes times up to the next event, if it is known.
pub(crate) fn advance(lanes: &mut [Lane]) -> Step
    requires { length lanes.old ≤ 2 ^ 32 }
    ensures next { (h : History) → Represents lanes.old h → IsNext h result × Represents lanes.new (returned result h) }
    ensures left { IsLeft result lanes.new }
{
    'turns: loop {
        if is_done(lanes) {
            return Step::Done;
        }
        if let Some(input) = first_hungry(lanes) {
            let input = input as u32;
            return Step::Need { input };
        }
        let Some(pts) = earliest_time(lanes) else {
            return Step::Done;
        };
        if turn(lanes, pts) {
            return Step::Event { pts };
        }
    }
}
