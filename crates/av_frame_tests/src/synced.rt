//! A small filter of two inputs that works by times, after the events of `frame_sync`. It shows that the trait carries
//! filters that keep frames of several inputs.
ghost use Rattle.std.specs.Prelude.{◌≡◌, ℕ, ◌==◌, ◌∷◌, if◌then◌else◌};
ghost use Rattle.av_base.specs.declared.shapes.Shape.{Shape};
ghost use Rattle.av_frame.specs.FilterLaws.{IsNew};
ghost use Rattle.av_frame.specs.Streams.{Streams, AllRise};
ghost use Rattle.av_frame_tests.specs.Synced.{two_to_one, frames_from, left_side, is_ready, synced_rule, synced_over, AreShown};

use av_base::NoMemory;
use av_frame::{Filter, Frame, Given, Returned};
use std::alloc::Global;
use std::collections::VecDeque;
use std::marker::Model;
use std::thread::Threads;

/// Gives the frames of input 0, each when input 1 has a frame at its time or after it, or has ended.
#[derive(Drop)]
pub struct Synced {
    main: VecDeque<Frame>,
    side: VecDeque<Frame>,
    main_finished: bool,
    side_finished: bool,
}

impl Model for Synced {
    ghost use Rattle.av_frame_tests.specs.Synced.{SyncedValue};

    ghost Value = { SyncedValue };

    ghost view = { λ s. record { main = s.main.items; side = s.side.items; main_finished = s.main_finished; side_finished = s.side_finished } };
}

/// Drops the frames before a time.
fn drop_before(queue: &mut VecDeque<Frame>, pts: i64)
    ensures { queue.new.items ≡ frames_from pts queue.old.items }
{
    'dropping: while let Some(frame) = queue.front() {
        if frame.pts() >= pts {
            return;
        }
        queue.pop_front();
    }
}

impl Synced {
    /// A new one.
    pub fn new(alloc: Global) -> Synced
        ensures is_new { (main side : Shape) → IsNew (⟦<Synced as Filter>⟧.pads result) (⟦<Synced as Filter>⟧.rest result) (⟦<Synced as Filter>⟧.accepts result) two_to_one synced_rule (λ i. if i == 0 then main else side) (λ _. main) }
        ensures shown { (ins : Streams) → AllRise 2 ins → AreShown (ins 0) (ins 1) (⟦<Synced as Filter>⟧.rest result ins 0) }
    {
        Synced {
            main: VecDeque::new(alloc),
            side: VecDeque::new(alloc),
            main_finished: false,
            side_finished: false,
        }
    }

    /// Drops the frames of input 1 that come before the next one of input 0. Tells whether that one can be given.
    fn advance(&mut self) -> bool
        ensures side { self.new ≡ record self.old { side = left_side self.old.main self.old.side } }
        ensures ready { result ≡ is_ready self.new }
    {
        match self.main.front() {
            Some(next) => {
                let pts = next.pts();
                drop_before(&mut self.side, pts);
                !self.side.is_empty() || self.side_finished
            }
            None => false,
        }
    }

    /// Whether input 0 is finished and all its frames are used.
    fn is_over(&self) -> bool
        ensures { result ≡ synced_over self.now }
    {
        self.main_finished && self.main.is_empty()
    }
}

impl Filter for Synced {
    ghost use Rattle.av_frame_tests.specs.Synced.{two_to_one, synced_rest, synced_closes, synced_wants, synced_over};
    ghost use Rattle.av_frame_tests.specs.SyncedLaws.{synced_laws};

    ghost pads = { λ s. two_to_one };

    ghost rest = { synced_rest };

    ghost accepts = { λ s i x. Unit {0} };

    ghost closes = { synced_closes };

    ghost wants = { synced_wants };

    ghost over = { λ s o. synced_over s };

    ghost laws = { synced_laws };

    fn offer(&mut self, alloc: Global, input: u32, frame: Frame) -> Result<(), Returned> {
        if input == 0 {
            self.main.push_back(frame)?;
        } else {
            self.side.push_back(frame)?;
        }
        Ok(())
    }

    fn finish(&mut self, input: u32) {
        if input == 0 {
            self.main_finished = true;
        } else {
            self.side_finished = true;
        }
    }

    fn give<R: Threads + Sync>(
        &mut self,
        rt: &R,
        alloc: Global,
        slices: u32,
        output: u32,
    ) -> Result<Given, NoMemory> {
        if self.is_over() {
            return Ok(Given::End);
        }
        if !self.advance() {
            return Ok(Given::Nothing);
        }
        match self.main.pop_front() {
            Some(frame) => Ok(Given::Frame(frame)),
            None => unreachable!(),
        }
    }

    fn needs(&self, input: u32) -> bool {
        let waits = if input == 0 {
            !self.main.is_empty()
        } else {
            !self.side.is_empty()
        };
        !waits && !self.closed(input)
    }

    fn closed(&self, input: u32) -> bool {
        let finished = if input == 0 {
            self.main_finished
        } else {
            self.side_finished
        };
        finished || self.is_over()
    }
}
