//! Filters that make one frame on each output of each frame.

ghost use Rattle.std.specs.Prelude.{◌≡◌, ℕ, ◌<◌, ◌+◌, ◌++◌, length, IfOk, IfErr, OnOk, OnErr, ◌∷◌, []};
ghost use Rattle.std.specs.Thread.{IsSync};
ghost use Rattle.std.specs.VecDeque.{deque_len, deque_capacity};
ghost use Rattle.av_base.specs.declared.shapes.Shape.{Shape};
ghost use Rattle.av_frame.specs.Frames.{FrameValue};
ghost use Rattle.av_frame.specs.Streams.{Streams};
ghost use Rattle.av_frame.specs.FilterLaws.{IsSlices, IsNew, one_to};
ghost use Rattle.av_frame.specs.Rules.{SameTimes, later_row, queue, each_rule, each_rest};

use crate::filter::{Filter, Given, Returned};
use crate::frame::Frame;
use crate::queues::Queues;
use av_base::NoMemory;
use std::alloc::Global;
use std::collections::VecDeque;
use std::marker::Model;
use std::thread::Threads;

/// What a filter makes of each frame by itself: one frame for each of its outputs, shown when that frame is.
pub trait PerFrame {
    /// How many frames are made of each.
    ghost outputs: { Self → ℕ };

    /// The shape of the frames that are taken.
    ghost shape: { Self → Shape };

    /// The shape of the frames that are made, by output.
    ghost out_shape: { Self → ℕ → Shape };

    /// What is made of a frame on an output: the filter's equations.
    ghost made: { Self → ℕ → FrameValue → FrameValue };

    /// Makes the frames of a frame, one for each output. The result is that of output 0. Those of the outputs from 1 on
    /// are pushed to `others`, in order.
    ///
    /// # Errors
    /// Out of memory, with a frame of equal value. What was pushed to `others` then counts for nothing.
    fn make<R: Threads + Sync>(
        &mut self,
        rt: &R,
        alloc: Global,
        slices: u32,
        frame: Frame,
        others: &mut Vec<Frame>,
    ) -> Result<Frame, Returned>
        requires sync { IsSync R.row }
        requires slices { IsSlices slices }
        requires shape { frame.shape ≡ shape self.old }
        ensures outputs { outputs self.new ≡ outputs self.old }
        ensures shape { shape self.new ≡ shape self.old }
        ensures out_shape { out_shape self.new ≡ out_shape self.old }
        ensures made { made self.new ≡ made self.old }
        ensures first { IfOk result (λ first. first ≡ made self.old 0 frame) }
        ensures later { OnOk result (others.new.items ≡ others.old.items ++ later_row (made self.old) (outputs self.old) frame) }
        ensures returned { IfErr result (λ e. e.frame ≡ frame) };

    /// There is an output.
    ghost some: { (v : Self) → 0 < outputs v };

    /// The times stay.
    ghost keeps: { (v : Self) (o : ℕ) (x : FrameValue) → o < outputs v → SameTimes x (made v o x) };

    /// What is made has the shape of its output.
    ghost shaped: { (v : Self) (o : ℕ) (x : FrameValue) → o < outputs v → x.shape ≡ shape v → (made v o x).shape ≡ out_shape v o };
}

/// Gives, on each output, the frames that a rule makes of each frame. They are made when they are asked for.
#[derive(Drop)]
pub struct Each<P: PerFrame> {
    rule: P,
    offered: VecDeque<Frame>,
    waiting: Queues,
    finished: bool,
}

impl<P: PerFrame> Model for Each<P> {
    ghost use Rattle.std.specs.Prelude.{◌≡◌, length};
    ghost use Rattle.av_frame.specs.Streams.{AllShaped};
    ghost use Rattle.av_frame.specs.Rules.{EachValue};

    ghost Value = { EachValue P };

    ghost view = { λ e. record { rule = e.rule; offered = e.offered.items; waiting = e.waiting.lists; finished = e.finished } };

    ghost invariant = { λ e. (length e.waiting.lists ≡ P.outputs e.rule) × AllShaped (P.shape e.rule) e.offered.items };
}

/// Puts a frame before the others, where there is room for it.
fn put_back(queue: &mut VecDeque<Frame>, frame: Frame)
    requires { deque_len queue.old < deque_capacity queue.old }
    ensures { queue.new.items ≡ frame ∷ queue.old.items }
{
    match queue.push_front(frame) {
        Ok(()) => {}
        Err(_) => unreachable!(),
    }
}

impl<P: PerFrame + Drop> Each<P> {
    /// A new filter of one input, which makes frames by the rule.
    ///
    /// # Errors
    /// Out of memory.
    pub fn new(alloc: Global, rule: P, outputs: u32) -> Result<Each<P>, NoMemory>
        requires { P.outputs rule ≡ outputs }
        ensures { IfOk result (λ e. IsNew (⟦<Each<P> as Filter>⟧.pads e) (⟦<Each<P> as Filter>⟧.rest e) (⟦<Each<P> as Filter>⟧.accepts e) (one_to outputs) (each_rule (P.made rule)) (λ _. P.shape rule) (P.out_shape rule)) }
    {
        let waiting = Queues::new(alloc, outputs)?;
        Ok(Each {
            rule,
            offered: VecDeque::new(alloc),
            waiting,
            finished: false,
        })
    }
}

impl<P: PerFrame> Each<P> {
    /// Where nothing waits on an output, makes the frames of the first offered frame, if there is one. What is still
    /// to be given stays.
    fn fill<R: Threads + Sync>(
        &mut self,
        rt: &R,
        alloc: Global,
        slices: u32,
        output: u32,
    ) -> Result<(), NoMemory>
        requires slices { IsSlices slices }
        requires port { output < P.outputs self.old.rule }
        ensures finished { self.new.finished ≡ self.old.finished }
        ensures outputs { P.outputs self.new.rule ≡ P.outputs self.old.rule }
        ensures shape { P.shape self.new.rule ≡ P.shape self.old.rule }
        ensures rest { (ins : Streams) (o : ℕ) → o < P.outputs self.old.rule → each_rest (P.made self.new.rule) self.new ins o ≡ each_rest (P.made self.old.rule) self.old ins o }
        ensures some { OnOk result (queue self.new.waiting output ≡ [] → self.new.offered ≡ []) }
        ensures none { self.old.offered ≡ [] → (self.new.offered ≡ []) × (self.new.waiting ≡ self.old.waiting) }
    {
        if !self.waiting.is_empty(output) {
            return Ok(());
        }
        self.waiting.reserve()?;
        let Some(frame) = self.offered.pop_front() else {
            return Ok(());
        };
        let mut others = Vec::new(alloc);
        match self.rule.make(rt, alloc, slices, frame, &mut others) {
            Ok(first) => {
                self.waiting.push_row(first, others);
                Ok(())
            }
            Err(returned) => {
                put_back(&mut self.offered, returned.frame);
                Err(NoMemory)
            }
        }
    }
}

impl<P: PerFrame> Filter for Each<P> {
    ghost use Rattle.std.specs.Prelude.{◌&&◌, not};
    ghost use Rattle.av_frame.specs.FilterLaws.{one_to};
    ghost use Rattle.av_frame.specs.Rules.{is_empty, queue, each_rest};
    ghost use Rattle.av_frame.specs.EachLaws.{each_laws};

    ghost pads = { λ e. one_to (P.outputs e.rule) };

    ghost rest = { λ e. each_rest (P.made e.rule) e };

    ghost accepts = { λ e i x. x.shape ≡ P.shape e.rule };

    ghost closes = { λ e i. e.finished };

    ghost wants = { λ e i. not e.finished && is_empty e.offered };

    ghost over = { λ e o. e.finished && (is_empty e.offered && is_empty (queue e.waiting o)) };

    ghost laws = { λ e. each_laws (P.outputs e.rule) (P.made e.rule) e (P.some e.rule) };

    fn offer(&mut self, alloc: Global, input: u32, frame: Frame) -> Result<(), Returned> {
        self.offered.push_back(frame)?;
        Ok(())
    }

    fn finish(&mut self, input: u32) {
        self.finished = true;
    }

    fn give<R: Threads + Sync>(
        &mut self,
        rt: &R,
        alloc: Global,
        slices: u32,
        output: u32,
    ) -> Result<Given, NoMemory> {
        self.fill(rt, alloc, slices, output)?;
        match self.waiting.pop(output) {
            Some(frame) => Ok(Given::Frame(frame)),
            None if self.finished => Ok(Given::End),
            None => Ok(Given::Nothing),
        }
    }

    fn needs(&self, input: u32) -> bool {
        !self.finished && self.offered.is_empty()
    }

    fn closed(&self, input: u32) -> bool {
        self.finished
    }
}
