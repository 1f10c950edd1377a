//! What is kept of one input.
ghost use Rattle.std.specs.Prelude.{◌≡◌, ◌≢◌, ◌↔◌, ◌++◌, ◌∷◌, [], Some, None, true, false, IsTrue, OnOk, OnErr};
ghost use Rattle.std.specs.List.{slice_get};
ghost use Rattle.frame_sync.specs.Lanes.{IsSpent, IsHungry, EndsAll, HasBegun, Passes, HasLeft, Shows, IsPast};
ghost use Rattle.frame_sync.specs.declared.rules.Before.TheVariants as before;

use crate::rules::{After, Before, Rule};
use crate::stamp::Stamp;
use av_base::NoMemory;
use std::alloc::Global;
use std::collections::VecDeque;
use std::marker::Model;

/// What is kept of one input: the times that wait, and of those that were passed the last one alone.
#[derive(Drop)]
pub(crate) struct Lane {
    rule: Rule,
    pub(crate) latest: Option<Stamp>,
    pub(crate) waiting: VecDeque<i64>,
    pub(crate) ended: bool,
    current: Option<u64>,
}

impl Model for Lane {
    ghost use Rattle.frame_sync.specs.Lanes.{LaneValue, IsSound};

    ghost Value = { LaneValue };

    ghost view = { λ l. record { rule = l.rule; latest = l.latest; waiting = l.waiting.items; ended = l.ended; current = l.current } };

    ghost invariant = { λ l. IsSound (record { rule = l.rule; latest = l.latest; waiting = l.waiting.items; ended = l.ended; current = l.current }) };
}

impl Lane {
    /// An open input without frames.
    pub(crate) fn new(alloc: Global, rule: Rule) -> Lane
        ensures { result ≡ record { rule = rule; latest = None; waiting = []; ended = false; current = None } }
    {
        Lane {
            rule,
            latest: None,
            waiting: VecDeque::new(alloc),
            ended: false,
            current: None,
        }
    }

    /// Takes a time, past its last one.
    pub(crate) fn push(&mut self, pts: i64) -> Result<(), NoMemory>
        requires { IsPast self.old pts }
        ensures pushed { OnOk result (self.new ≡ record self.old { waiting = self.old.waiting ++ pts ∷ [] }) }
        ensures refused { OnErr result (self.new ≡ self.old) }
    {
        self.waiting.push_back(pts)?;
        Ok(())
    }

    /// Ends it.
    pub(crate) fn end(&mut self)
        ensures { self.new ≡ record self.old { ended = true } }
    {
        self.ended = true;
    }

    /// Its sync.
    pub(crate) fn sync(&self) -> u8
        ensures { result ≡ self.now.rule.sync }
    {
        self.rule.sync
    }

    /// Whether no event comes before its first frame.
    pub(crate) fn is_stop_before(&self) -> bool
        ensures { IsTrue result ↔ (self.now.rule.before ≡ before.Stop) }
    {
        self.rule.before == Before::Stop
    }

    /// The number of its current frame at the last event.
    pub(crate) fn current(&self) -> Option<u64>
        ensures { result ≡ self.now.current }
    {
        self.current
    }

    /// The first time that waits.
    pub(crate) fn head(&self) -> Option<i64>
        ensures { result ≡ slice_get self.now.waiting 0 }
    {
        self.waiting.front().copied()
    }

    /// Whether something waits.
    pub(crate) fn waits(&self) -> bool
        ensures { IsTrue result ↔ (self.now.waiting ≢ []) }
    {
        !self.waiting.is_empty()
    }

    /// Whether it has ended with nothing waiting.
    pub(crate) fn is_spent(&self) -> bool
        ensures { IsTrue result ↔ IsSpent self.now }
    {
        self.ended && self.waiting.is_empty()
    }

    /// Whether it is open with nothing waiting.
    pub(crate) fn is_hungry(&self) -> bool
        ensures { IsTrue result ↔ IsHungry self.now }
    {
        !self.ended && self.waiting.is_empty()
    }

    /// Whether it ends all events.
    pub(crate) fn ends_all(&self) -> bool
        ensures { IsTrue result ↔ EndsAll self.now }
    {
        let never_begins = self.rule.before == Before::Stop && self.latest.is_none();
        self.is_spent() && (never_begins || self.rule.after == After::Stop)
    }

    /// Whether it allows an event at the earliest time that waits, by what it does before its first frame.
    pub(crate) fn has_begun(&self, pts: i64) -> bool
        ensures { IsTrue result ↔ HasBegun self.now pts }
    {
        self.latest.is_some() || self.head() == Some(pts)
    }

    /// Passes the earliest time that waits, if it has it.
    pub(crate) fn pass(&mut self, pts: i64)
        ensures { Passes self.old pts self.new }
    {
        if self.head() != Some(pts) {
            return;
        }
        self.waiting.pop_front();
        let number = match self.latest {
            Some(latest) => latest.number + 1,
            None => 0,
        };
        self.latest = Some(Stamp { number, pts });
    }

    /// Whether it has ended before a time that was passed, and shows nothing then.
    fn has_left(&self, pts: i64) -> bool
        ensures { IsTrue result ↔ HasLeft self.now pts }
    {
        let before = match self.latest {
            Some(latest) => latest.pts < pts,
            None => true,
        };
        self.rule.after == After::Null && self.is_spent() && before
    }

    /// Makes the current frame the one at a time that was just passed.
    pub(crate) fn show(&mut self, pts: i64)
        ensures { Shows self.old pts self.new }
    {
        self.current = match self.latest {
            Some(latest) if !self.has_left(pts) => Some(latest.number),
            _ => None,
        };
    }
}
