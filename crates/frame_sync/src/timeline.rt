//! A timeline of several inputs.
ghost use Rattle.std.specs.Prelude.{◌≡◌, ◌<◌, ◌≤◌, ◌^◌, length, IfOk, OnOk, OnErr};
ghost use Rattle.frame_sync.specs.Histories.{History, IsNext, IsShown, fresh, pushed, ended, returned};
ghost use Rattle.frame_sync.specs.Lanes.{IsOpen, IsPastAt};
ghost use Rattle.frame_sync.specs.Timelines.{Represents, IsLeft};

use crate::lane::Lane;
use crate::lanes::advance;
use crate::rules::{Rule, Step};
use av_base::{List, NoMemory};
use std::alloc::Global;
use std::marker::Model;

/// The timestamps of several inputs, as far as they wait. Contracts see what is kept of each input, and the histories
/// that it represents: all that was pushed and ended, and the events that were returned.
#[derive(Drop)]
pub struct Timeline {
    pub(crate) lanes: Vec<Lane>,
}

impl Model for Timeline {
    ghost use Rattle.std.specs.Prelude.{◌≤◌, ◌^◌, List, length};
    ghost use Rattle.frame_sync.specs.Lanes.{LaneValue};

    ghost Value = { List LaneValue };

    ghost view = { λ t. t.lanes.items };

    ghost invariant = { λ t. length t.lanes.items ≤ 2 ^ 32 };
}

impl Timeline {
    /// A timeline of inputs with these rules, which have no frames yet. There are at most 2^32.
    ///
    /// # Errors
    /// Out of memory.
    pub fn new(alloc: Global, rules: List<Rule>) -> Result<Timeline, NoMemory>
        requires { length rules ≤ 2 ^ 32 }
        ensures { IfOk result (λ t. Represents t (fresh rules)) }
    {
        let mut lanes = Vec::new(alloc);
        'rules: for rule in rules.as_slice() {
            lanes.push(Lane::new(alloc, *rule))?;
        }
        Ok(Timeline { lanes })
    }

    /// Takes the time of the next frame of an open input, past its last one.
    ///
    /// # Errors
    /// Out of memory. Then all is as before.
    pub fn push(&mut self, _alloc: Global, input: u32, pts: i64) -> Result<(), NoMemory>
        requires open { IsOpen self.old input }
        requires past { IsPastAt self.old input pts }
        ensures pushed { OnOk result ((h : History) → Represents self.old h → Represents self.new (pushed input pts h)) }
        ensures refused { OnErr result (self.new ≡ self.old) }
    {
        self.lanes[input as usize].push(pts)
    }

    /// Ends an input. If it has ended, nothing changes.
    pub fn end(&mut self, input: u32)
        requires { input < length self.old }
        ensures { (h : History) → Represents self.old h → Represents self.new (ended input h) }
    {
        self.lanes[input as usize].end();
    }

    /// What comes next: an event, or the lowest input that has to get a timestamp or to end before more is known, or
    /// nothing any more.
    pub fn next(&mut self) -> Step
        ensures next { (h : History) → Represents self.old h → IsNext h result × Represents self.new (returned result h) }
        ensures left { IsLeft result self.new }
    {
        advance(self.lanes.as_mut_slice())
    }

    /// The number of an input's current frame at the last event that was returned.
    pub fn current(&self, input: u32) -> Option<u64>
        requires { input < length self.now }
        ensures { (h : History) → Represents self.now h → IsShown h input result }
    {
        self.lanes[input as usize].current()
    }
}
