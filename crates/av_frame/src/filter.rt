//! The trait of all filters.
//!
//! A filter's meaning is what it is still to give on each output, as a function of what it is still to be offered on
//! each input (`rest`). Every clause is an equation on that function.

ghost use Rattle.std.specs.Prelude.{◌≡◌, ◌≢◌, ℕ, ◌<◌, ◌==◌, if◌then◌else◌, Bool, true, false, [], OnOk, OnErr, IfErr};
ghost use Rattle.std.specs.Thread.{IsSync};
ghost use Rattle.av_frame.specs.Frames.{FrameValue};
ghost use Rattle.av_frame.specs.Streams.{Streams, open_stream, after, coming, ending, nothing_more, AllRise, FollowsOn};
ghost use Rattle.av_frame.specs.Answers.{OnNothing, OnEnd, frames_of};
ghost use Rattle.av_frame.specs.FilterLaws.{Pads, IsSlices, FilterLaws};

use crate::frame::Frame;
use av_base::NoMemory;
use std::alloc::{AllocFailed, Global};
use std::thread::Threads;

/// What a filter gives when it is asked for more on an output.
#[derive(Drop)]
pub enum Given {
    /// The next frame there.
    Frame(Frame),
    /// Nothing for now: what was offered makes no further frame there.
    Nothing,
    /// The end: all was given there.
    End,
}

/// Out of memory, with the frame that was passed.
#[derive(Drop)]
pub struct Returned {
    /// The frame, as it was.
    pub frame: Frame,
}

impl From<AllocFailed<Frame>> for Returned {
    ghost from_gives = { λ refused e. e.frame ≡ refused.value };

    fn from(refused: AllocFailed<Frame>) -> Returned {
        Returned {
            frame: refused.value,
        }
    }
}

/// A filter: it is offered frames on its inputs, and gives frames on its outputs.
pub trait Filter {
    /// How many inputs and outputs it has, which stays through all calls.
    ghost pads: { Self → Pads };

    /// What is still to be given on each output, by what is still to be offered on each input.
    ghost rest: { Self → Streams → Streams };

    /// Which frames may be offered next on an input.
    ghost accepts: { Self → ℕ → FrameValue → Type 0 };

    /// Whether an input is closed: what would come there makes no difference any more.
    ghost closes: { Self → ℕ → Bool };

    /// Whether an input is needed.
    ghost wants: { Self → ℕ → Bool };

    /// Whether the end of an output was given.
    ghost over: { Self → ℕ → Bool };

    /// Takes the next frame of an input that isn't closed.
    ///
    /// # Errors
    /// Out of memory, with the frame. The filter is then as it was.
    fn offer(&mut self, alloc: Global, input: u32, frame: Frame) -> Result<(), Returned>
        requires port { input < (pads self.old).inputs }
        requires open { closes self.old input ≡ false }
        requires accepts { accepts self.old input frame }
        ensures pads { pads self.new ≡ pads self.old }
        ensures over { (o : ℕ) → over self.old o ≡ true → over self.new o ≡ true }
        ensures closes { (j : ℕ) → closes self.old j ≡ true → closes self.new j ≡ true }
        ensures others { (j : ℕ) (y : FrameValue) → j ≢ input → accepts self.old j y → accepts self.new j y }

        // Where it was taken, it is the first of what came. The next one there has its shape and a later time.
        ensures rest { OnOk result ((ins : Streams) → AllRise (pads self.old).inputs (coming input frame ins) → (o : ℕ) → o < (pads self.old).outputs → rest self.new ins o ≡ rest self.old (coming input frame ins) o) }
        ensures accepts { OnOk result ((y : FrameValue) → FollowsOn frame y → accepts self.new input y) }

        // Else it can be offered again.
        ensures returned { IfErr result (λ e. e.frame ≡ frame) }
        ensures err { OnErr result ((ins : Streams) (o : ℕ) → rest self.new ins o ≡ rest self.old ins o) }
        ensures err_accepts { OnErr result ((y : FrameValue) → accepts self.old input y → accepts self.new input y) }
        ensures err_closes { OnErr result (closes self.new input ≡ false) };

    /// Takes the end of an input, which is then closed.
    fn finish(&mut self, input: u32)
        requires { input < (pads self.old).inputs }
        ensures pads { pads self.new ≡ pads self.old }
        ensures over { (o : ℕ) → over self.old o ≡ true → over self.new o ≡ true }
        ensures closes { (j : ℕ) → closes self.old j ≡ true → closes self.new j ≡ true }
        ensures others { (j : ℕ) (y : FrameValue) → j ≢ input → accepts self.old j y → accepts self.new j y }
        ensures rest { (ins : Streams) (o : ℕ) → o < (pads self.old).outputs → rest self.new ins o ≡ rest self.old (ending input ins) o }
        ensures closed { closes self.new input ≡ true };

    /// Gives the next frame of an output, or says that there is none for now or that there will be none.
    ///
    /// # Errors
    /// Out of memory. The filter is then as it was.
    fn give<R: Threads + Sync>(
        &mut self,
        rt: &R,
        alloc: Global,
        slices: u32,
        output: u32,
    ) -> Result<Given, NoMemory>
        requires sync { IsSync R.row }
        requires slices { IsSlices slices }
        requires port { output < (pads self.old).outputs }
        ensures pads { pads self.new ≡ pads self.old }
        ensures over { (o : ℕ) → over self.old o ≡ true → over self.new o ≡ true }
        ensures closes { (j : ℕ) → closes self.old j ≡ true → closes self.new j ≡ true }
        ensures accepts { (j : ℕ) (y : FrameValue) → accepts self.old j y → accepts self.new j y }

        // The frame, where one is given, was the first of what was still to be given there.
        ensures rest { (ins : Streams) → AllRise (pads self.old).inputs ins → (o : ℕ) → o < (pads self.old).outputs → rest self.old ins o ≡ after (if o == output then frames_of result else []) (rest self.new ins o) }

        // Nothing comes where nothing is to be given for now, and then some input is needed.
        ensures nothing { OnNothing result (rest self.new nothing_more output ≡ open_stream []) }
        ensures needs { OnNothing result ((i : ℕ) × (i < (pads self.old).inputs) × (wants self.new i ≡ true)) }

        // End comes where nothing is to be given whatever comes.
        ensures end { OnEnd result (over self.new output ≡ true) }
        ensures end_needs { OnEnd result ((i : ℕ) → wants self.new i ≡ wants self.old i) };

    /// Whether a frame, or the end, is needed on this input before more can be given.
    fn needs(&self, input: u32) -> bool
        requires { input < (pads self.now).inputs }
        ensures { result ≡ wants self.now input };

    /// Whether what would come on this input makes no difference any more. A finished input is closed.
    fn closed(&self, input: u32) -> bool
        requires { input < (pads self.now).inputs }
        ensures { result ≡ closes self.now input };

    /// The laws of every filter, in every state.
    ghost laws: { (v : Self) → FilterLaws (pads v) (rest v) (closes v) (wants v) (over v) };
}
