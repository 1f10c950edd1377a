//! One type for all filters that run.
ghost use Rattle.std.specs.Prelude.{◌≡◌};
ghost use Rattle.av_frame.specs.Frames.{FrameValue};
ghost use Rattle.av_frame.specs.Rules.{SameTimes};
ghost use Rattle.node_core.specs.Filters.{frame_filters};

use crate::filters::FrameFilters;
use av_base::NoMemory;
use av_filter::Framewise;
use av_frame::{Filter, Frame, Given, Returned};
use std::alloc::Global;
use std::thread::Threads;

/// A filter that runs: it takes frames and gives frames. All filters that there are work frame by frame.
#[derive(Drop)]
pub struct Instance {
    pub(crate) framewise: Framewise<FrameFilters>,
}

impl Filter for Instance {
    ghost use Rattle.std.proofs.Common.{arith};
    ghost use Rattle.av_frame.specs.EachLaws.{each_laws};

    ghost pads = { λ f. ⟦<Framewise<FrameFilters> as Filter>⟧.pads f.framewise };

    ghost rest = { λ f. ⟦<Framewise<FrameFilters> as Filter>⟧.rest f.framewise };

    ghost accepts = { λ f. ⟦<Framewise<FrameFilters> as Filter>⟧.accepts f.framewise };

    ghost closes = { λ f. ⟦<Framewise<FrameFilters> as Filter>⟧.closes f.framewise };

    ghost wants = { λ f. ⟦<Framewise<FrameFilters> as Filter>⟧.wants f.framewise };

    ghost over = { λ f. ⟦<Framewise<FrameFilters> as Filter>⟧.over f.framewise };

    ghost laws = { λ f. each_laws 1 _ f.framewise.each (Prim.omega arith) };

    fn offer(&mut self, alloc: Global, input: u32, frame: Frame) -> Result<(), Returned> {
        self.framewise.offer(alloc, input, frame)
    }

    fn finish(&mut self, input: u32) {
        self.framewise.finish(input);
    }

    fn give<R: Threads + Sync>(
        &mut self,
        rt: &R,
        alloc: Global,
        slices: u32,
        output: u32,
    ) -> Result<Given, NoMemory> {
        self.framewise.give(rt, alloc, slices, output)
    }

    fn needs(&self, input: u32) -> bool {
        self.framewise.needs(input)
    }

    fn closed(&self, input: u32) -> bool {
        self.framewise.closed(input)
    }
}

/// What is made of a frame is shown when the frame is, and has the output's shape. Its contract is the law; the call does
/// nothing.
pub fn made_frames_are_lawful()
    ensures times { (t : frame_filters.Settings) (x : FrameValue) → SameTimes x (frame_filters.making.made t x) }
    ensures shape { (t : frame_filters.Settings) (x : FrameValue) → (frame_filters.making.made t x).shape ≡ frame_filters.making.shape t x.shape }
{}
