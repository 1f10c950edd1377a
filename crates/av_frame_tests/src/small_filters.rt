//! A small filter that ends before its input does.
ghost use Rattle.av_base.specs.declared.shapes.Shape.{Shape};
ghost use Rattle.av_frame.specs.FilterLaws.{IsNew, one_to};
ghost use Rattle.av_frame_tests.specs.SmallFilters.{first_rule};

use av_base::NoMemory;
use av_frame::{Filter, Frame, Given, Returned};
use std::alloc::Global;
use std::collections::VecDeque;
use std::thread::Threads;

/// Gives the first frames of its input, so many as it was made for, and ends with the last of them.
#[derive(Drop)]
pub struct FirstFrames {
    /// How many are still to come.
    left: u64,
    waiting: VecDeque<Frame>,
    has_ended: bool,
}

impl FirstFrames {
    /// A new one, for so many frames.
    pub fn new(alloc: Global, count: u64) -> FirstFrames
        ensures { (shape : Shape) → IsNew (⟦<FirstFrames as Filter>⟧.pads result) (⟦<FirstFrames as Filter>⟧.rest result) (⟦<FirstFrames as Filter>⟧.accepts result) (one_to 1) (first_rule count) (λ _. shape) (λ _. shape) }
    {
        FirstFrames {
            left: count,
            waiting: VecDeque::new(alloc),
            has_ended: false,
        }
    }
}

impl Filter for FirstFrames {
    ghost use Rattle.std.specs.Prelude.{not, ◌==◌, ◌||◌, ◌&&◌};
    ghost use Rattle.av_frame.specs.FilterLaws.{one_to};
    ghost use Rattle.av_frame.specs.Rules.{is_empty, waiting_then};
    ghost use Rattle.av_frame.specs.OneLaws.{one_laws};
    ghost use Rattle.av_frame_tests.specs.SmallFilters.{first_stream};
    ghost use Rattle.av_frame_tests.specs.SmallFilterLaws.{first_laws};

    ghost pads = { λ f. one_to 1 };

    ghost rest = { λ f. waiting_then f.waiting.items (f.has_ended || (f.left == 0)) (first_stream f.left) };

    ghost accepts = { λ f i x. Unit {0} };

    ghost closes = { λ f i. f.has_ended || (f.left == 0) };

    ghost wants = { λ f i. not (f.has_ended || (f.left == 0)) && is_empty f.waiting.items };

    ghost over = { λ f o. (f.has_ended || (f.left == 0)) && is_empty f.waiting.items };

    ghost laws = { λ f. one_laws f.waiting.items (f.has_ended || (f.left == 0)) (first_stream f.left) (first_laws f.left) };

    fn offer(&mut self, alloc: Global, input: u32, frame: Frame) -> Result<(), Returned> {
        self.waiting.push_back(frame)?;
        self.left -= 1;
        Ok(())
    }

    fn finish(&mut self, input: u32) {
        self.has_ended = true;
    }

    fn give<R: Threads + Sync>(
        &mut self,
        rt: &R,
        alloc: Global,
        slices: u32,
        output: u32,
    ) -> Result<Given, NoMemory> {
        match self.waiting.pop_front() {
            Some(frame) => Ok(Given::Frame(frame)),
            None if self.has_ended || self.left == 0 => Ok(Given::End),
            None => Ok(Given::Nothing),
        }
    }

    fn needs(&self, input: u32) -> bool {
        !(self.has_ended || self.left == 0) && self.waiting.is_empty()
    }

    fn closed(&self, input: u32) -> bool {
        self.has_ended || self.left == 0
    }
}
