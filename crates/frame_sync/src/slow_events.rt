//! A plain slow program that finds the events in whole lists, beside the timeline.
ghost use Rattle.std.specs.Prelude.{◌≡◌, ◌⊎◌, ◌↔◌, ◌≤ℤ◌, false, IsTrue, IfOk};
ghost use Rattle.frame_sync.specs.Framesync.{SomeOne, EachOne, HasAt, HasFrom, HasUpTo, IsEvent, AreEvents};
ghost use Rattle.frame_sync.specs.declared.rules.After.TheVariants as after;
ghost use Rattle.frame_sync.specs.declared.rules.Before.TheVariants as before;
ghost use Rattle.frame_sync.specs.SlowEvents.{Allows, IsBelow, IsMet, AreFew};

use crate::checked::{end, push};
use crate::{After, Before, Rule, Step, Timeline};
use av_base::List;
use std::alloc::{AllocFailed, Global};
use std::marker::Model;
use std::test::Fail;

/// Times here are less, and not below 0.
const TIMES: i64 = 6;

/// The most steps of a run here.
const STEPS: u32 = 40;

/// An input with its whole list. Contracts see the definition's input.
#[derive(Drop)]
struct Whole {
    rule: Rule,
    times: Vec<i64>,
    ended: bool,
}

impl Model for Whole {
    ghost use Rattle.frame_sync.specs.Framesync.{Input};

    ghost Value = { Input };

    ghost view = { λ w. record { rule = w.rule; times = w.times.items; ended = w.ended } };
}

/// Whether one of these is the time.
fn one_is(times: &[i64], t: i64) -> bool
    ensures { IsTrue result ↔ SomeOne times.now (λ u. u ≡ t) }
{
    'times: for u in times {
        if *u == t {
            return true;
        }
    }
    false
}

/// Whether one of these is the time or later.
fn one_is_from(times: &[i64], t: i64) -> bool
    ensures { IsTrue result ↔ SomeOne times.now (λ u. t ≤ℤ u) }
{
    'times: for u in times {
        if t <= *u {
            return true;
        }
    }
    false
}

/// Whether one of these is the time or earlier.
fn one_is_up_to(times: &[i64], t: i64) -> bool
    ensures { IsTrue result ↔ SomeOne times.now (λ u. u ≤ℤ t) }
{
    'times: for u in times {
        if *u <= t {
            return true;
        }
    }
    false
}

impl Whole {
    /// Whether it has a frame at the time.
    fn has_at(&self, t: i64) -> bool
        ensures { IsTrue result ↔ HasAt self.now t }
    {
        one_is(self.times.as_slice(), t)
    }

    /// Whether it has a frame at the time or after it.
    fn has_from(&self, t: i64) -> bool
        ensures { IsTrue result ↔ HasFrom self.now t }
    {
        one_is_from(self.times.as_slice(), t)
    }

    /// Whether it has a frame at the time or before it.
    fn has_up_to(&self, t: i64) -> bool
        ensures { IsTrue result ↔ HasUpTo self.now t }
    {
        one_is_up_to(self.times.as_slice(), t)
    }

    /// Whether it allows an event at the time, by what it does before its first frame.
    fn has_begun(&self, t: i64) -> bool
        ensures { IsTrue result ↔ (self.now.rule.before ≡ before.Stop → HasUpTo self.now t) }
    {
        self.rule.before != Before::Stop || self.has_up_to(t)
    }

    /// Whether it has to have a frame at or after the time of an event.
    fn has_to_last(&self) -> bool
        ensures { IsTrue result ↔ (self.now.rule.after ≡ after.Stop) ⊎ (self.now.ended ≡ false) }
    {
        self.rule.after == After::Stop || !self.ended
    }

    /// Whether it allows an event at the time.
    fn allows(&self, t: i64) -> bool
        ensures { IsTrue result ↔ Allows t self.now }
    {
        if self.has_to_last() {
            return self.has_begun(t) && self.has_from(t);
        }
        self.has_begun(t)
    }

    /// Whether it has no greater sync, or no frame at or after the time.
    fn is_below(&self, t: i64, sync: u8) -> bool
        ensures { IsTrue result ↔ IsBelow t sync self.now }
    {
        self.rule.sync <= sync || !self.has_from(t)
    }

    /// Its sync.
    fn sync(&self) -> u8
        ensures { result ≡ self.now.rule.sync }
    {
        self.rule.sync
    }
}

/// Whether each input allows an event at the time, by its rule.
fn all_allow(inputs: &[Whole], t: i64) -> bool
    ensures { IsTrue result ↔ EachOne inputs.now (Allows t) }
{
    'inputs: for input in inputs {
        if !input.allows(t) {
            return false;
        }
    }
    true
}

/// Whether no input with a frame at or after the time has a greater sync.
fn is_top(inputs: &[Whole], t: i64, sync: u8) -> bool
    ensures { IsTrue result ↔ EachOne inputs.now (IsBelow t sync) }
{
    'inputs: for input in inputs {
        if !input.is_below(t, sync) {
            return false;
        }
    }
    true
}

/// Whether an input has a frame at the time, and its sync is the level, and above 0.
fn is_met(inputs: &[Whole], input: &Whole, t: i64) -> bool
    ensures { IsTrue result ↔ IsMet inputs.now t input.now }
{
    let sync = input.sync();
    sync > 0 && input.has_at(t) && is_top(inputs, t, sync)
}

/// Whether an input of the level has a frame at the time, and the level is above 0.
fn one_meets(inputs: &[Whole], t: i64) -> bool
    ensures { IsTrue result ↔ SomeOne inputs.now (IsMet inputs.now t) }
{
    'inputs: for input in inputs {
        if is_met(inputs, input, t) {
            return true;
        }
    }
    false
}

/// Whether there is an event at the time.
fn is_event(inputs: &[Whole], t: i64) -> bool
    ensures { IsTrue result ↔ IsEvent inputs.now t }
{
    one_meets(inputs, t) && all_allow(inputs, t)
}

/// All events.
fn all_events(alloc: Global, inputs: &[Whole]) -> Result<Vec<i64>, AllocFailed<i64>>
    ensures { IfOk result (λ events. AreFew inputs.now → AreEvents inputs.now events.items) }
{
    let mut events = Vec::new(alloc);
    'times: for t in 0..TIMES {
        if is_event(inputs, t) {
            events.push(t)?;
        }
    }
    Ok(events)
}

/// A time that an input gets, or its end.
type Given = (u32, Option<i64>);

/// What the two inputs get, one after another.
const TABLES: [&[Given]; 5] = [
    &[
        (0, Some(0)),
        (1, Some(0)),
        (0, Some(1)),
        (0, Some(2)),
        (1, Some(3)),
        (0, None),
        (1, Some(5)),
        (1, None),
    ],
    &[
        (1, Some(2)),
        (0, Some(0)),
        (0, Some(1)),
        (0, Some(3)),
        (1, None),
        (0, Some(4)),
        (0, None),
    ],
    &[(0, None), (1, Some(1)), (1, Some(2)), (1, None)],
    &[(1, None), (0, Some(0)), (0, Some(2)), (0, None)],
    &[
        (0, Some(1)),
        (1, Some(0)),
        (1, Some(1)),
        (1, Some(2)),
        (1, Some(4)),
        (0, Some(4)),
        (1, None),
        (0, Some(5)),
        (0, None),
    ],
];

/// A rule.
fn rule(before: Before, after: After, sync: u8) -> Rule {
    Rule {
        before,
        after,
        sync,
    }
}

/// The rules of the two inputs: overlays and stacks with their options, and two that nothing stops.
fn all_rules() -> [[Rule; 2]; 6] {
    let main = rule(Before::Stop, After::Infinity, 2);
    let stack = rule(Before::Stop, After::Infinity, 1);
    let short = rule(Before::Stop, After::Stop, 1);
    let free = rule(Before::Null, After::Infinity, 1);
    [
        [main, free],
        [
            rule(Before::Stop, After::Stop, 2),
            rule(Before::Null, After::Stop, 1),
        ],
        [main, rule(Before::Null, After::Null, 0)],
        [stack, stack],
        [short, short],
        [rule(Before::Null, After::Null, 1), free],
    ]
}

/// A timeline, the whole lists of its inputs, and the events that it returned.
#[derive(Drop)]
struct Run {
    timeline: Timeline,
    inputs: Vec<Whole>,
    events: Vec<i64>,
}

/// A run of two inputs that got nothing yet.
fn start(alloc: Global, rules: [Rule; 2]) -> Result<Run, Fail> {
    let mut inputs = Vec::new(alloc);
    for rule in rules {
        inputs.push(Whole {
            rule,
            times: Vec::new(alloc),
            ended: false,
        })?;
    }
    Ok(Run {
        timeline: Timeline::new(alloc, List::new(rules.to_vec(alloc)?))?,
        inputs,
        events: Vec::new(alloc),
    })
}

/// Gives an input a time, or its end.
fn give(run: &mut Run, alloc: Global, given: Given) -> Result<(), Fail> {
    let (input, time) = given;
    let Some(whole) = run.inputs.get_mut(input as usize) else {
        return Err("no such input".into());
    };
    match time {
        Some(time) => {
            whole.times.push(time)?;
            push(&mut run.timeline, alloc, input, time)
        }
        None => {
            whole.ended = true;
            end(&mut run.timeline, input)
        }
    }
}

/// Takes all events that the timeline knows.
fn drain(run: &mut Run) -> Result<(), Fail> {
    for _ in 0..STEPS {
        let Step::Event { pts } = run.timeline.next() else {
            return Ok(());
        };
        run.events.push(pts)?;
    }
    Err("the events don't end".into())
}

#[test]
fn timeline_returns_all_events_that_are_known(rt: HostRuntime) -> Result<(), Fail> {
    let alloc = rt.alloc();
    for rules in all_rules() {
        for table in TABLES {
            let mut run = start(alloc, rules)?;
            for given in table {
                give(&mut run, alloc, *given)?;
                drain(&mut run)?;
                let wanted = all_events(alloc, run.inputs.as_slice())?;
                assert_eq!(rt; run.events.as_slice(), wanted.as_slice());
            }
        }
    }
    Ok(())
}
