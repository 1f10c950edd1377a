//! The clauses and laws of every filter, said of histories: what was offered, and what was given.
//!
//! Each of these calls does what the filter's own call does. They are derived from the filter's trait alone, so they
//! hold of every filter.

ghost use Rattle.std.specs.Prelude.{◌≡◌, ℕ, ◌<◌, true, false, OnOk, OnErr, IfErr};
ghost use Rattle.std.specs.Thread.{IsSync};
ghost use Rattle.av_base.specs.declared.shapes.Shape.{Shape};
ghost use Rattle.av_frame.specs.Frames.{FrameValue};
ghost use Rattle.av_frame.specs.Streams.{Stream, Streams, Begins, AllBegin, at_pad, ended_stream, Rises, AllRise};
ghost use Rattle.av_frame.specs.Answers.{IfGave, OnNothing, OnEnd};
ghost use Rattle.av_frame.specs.FilterLaws.{Pads, FilterLaws, IsSlices, IsNew};
ghost use Rattle.filter_history.specs.Histories.{History, offered, finished, given, end_given, no_history, Stands};

use av_base::NoMemory;
use av_frame::{Filter, Frame, Given, Returned};
use std::alloc::Global;
use std::thread::Threads;

/// A new filter has the empty history of its function.
pub fn starts<F: Filter>(_filter: &F)
    ensures { Stands (F.pads _filter.now) (F.rest _filter.now) (F.rest _filter.now) (F.closes _filter.now) (F.over _filter.now) no_history }
{}

/// Offers a frame. Every history of the filter then has the frame too.
///
/// # Errors
/// Out of memory, with the frame. The filter then has the histories that it had.
pub fn offer<F: Filter>(
    filter: &mut F,
    alloc: Global,
    input: u32,
    frame: Frame,
) -> Result<(), Returned>
    requires port { input < (F.pads filter.old).inputs }
    requires open { F.closes filter.old input ≡ false }
    requires accepts { F.accepts filter.old input frame }
    ensures pads { F.pads filter.new ≡ F.pads filter.old }
    ensures ok { OnOk result ((whole : Streams → Streams) (h : History) → Stands (F.pads filter.old) whole (F.rest filter.old) (F.closes filter.old) (F.over filter.old) h → (h.ins input).ended ≡ false
        → Stands (F.pads filter.old) whole (F.rest filter.new) (F.closes filter.new) (F.over filter.new) (offered h input frame)) }
    ensures err { OnErr result ((whole : Streams → Streams) (h : History) → Stands (F.pads filter.old) whole (F.rest filter.old) (F.closes filter.old) (F.over filter.old) h
        → Stands (F.pads filter.old) whole (F.rest filter.new) (F.closes filter.new) (F.over filter.new) h) }
    ensures returned { IfErr result (λ e. e.frame ≡ frame) }
{
    match filter.offer(alloc, input, frame) {
        Ok(()) => Ok(()),
        Err(returned) => Err(returned),
    }
}

/// Finishes an input. In every history of the filter that input has then ended.
pub fn finish<F: Filter>(filter: &mut F, input: u32)
    requires { input < (F.pads filter.old).inputs }
    ensures pads { F.pads filter.new ≡ F.pads filter.old }
    ensures stands { (whole : Streams → Streams) (h : History) → Stands (F.pads filter.old) whole (F.rest filter.old) (F.closes filter.old) (F.over filter.old) h → (h.ins input).ended ≡ false
        → Stands (F.pads filter.old) whole (F.rest filter.new) (F.closes filter.new) (F.over filter.new) (finished h input) }
{
    filter.finish(input);
}

/// Gives what comes next on an output. What was given there begins what the function gives of what was offered. Where
/// the result is Nothing or End, it is all of it.
///
/// # Errors
/// Out of memory. The filter then has the histories that it had.
pub fn give<F: Filter, R: Threads + Sync>(
    filter: &mut F,
    rt: &R,
    alloc: Global,
    slices: u32,
    output: u32,
) -> Result<Given, NoMemory>
    requires slices { IsSlices slices }
    requires port { output < (F.pads filter.old).outputs }
    ensures pads { F.pads filter.new ≡ F.pads filter.old }
    ensures frame { IfGave result (λ x. (whole : Streams → Streams) (h : History) → Stands (F.pads filter.old) whole (F.rest filter.old) (F.closes filter.old) (F.over filter.old) h
        → Stands (F.pads filter.old) whole (F.rest filter.new) (F.closes filter.new) (F.over filter.new) (given h output x)) }

    // Nothing: it is equal, and some input is needed that is neither finished nor closed.
    ensures nothing { OnNothing result ((whole : Streams → Streams) (h : History) → Stands (F.pads filter.old) whole (F.rest filter.old) (F.closes filter.old) (F.over filter.old) h
        → Stands (F.pads filter.old) whole (F.rest filter.new) (F.closes filter.new) (F.over filter.new) h) }
    ensures all { OnNothing result ((whole : Streams → Streams) (h : History) → Stands (F.pads filter.old) whole (F.rest filter.old) (F.closes filter.old) (F.over filter.old) h
        → AllRise (F.pads filter.old).inputs h.ins → whole h.ins output ≡ h.outs output) }
    ensures needs { OnNothing result ((i : ℕ) × (i < (F.pads filter.old).inputs) × (F.wants filter.new i ≡ true) × (F.closes filter.new i ≡ false)) }

    // End: it is equal, and ended.
    ensures end { OnEnd result ((whole : Streams → Streams) (h : History) → Stands (F.pads filter.old) whole (F.rest filter.old) (F.closes filter.old) (F.over filter.old) h
        → Stands (F.pads filter.old) whole (F.rest filter.new) (F.closes filter.new) (F.over filter.new) (end_given h output)) }
    ensures whole { OnEnd result ((whole : Streams → Streams) (h : History) → Stands (F.pads filter.old) whole (F.rest filter.old) (F.closes filter.old) (F.over filter.old) h
        → AllRise (F.pads filter.old).inputs h.ins → whole h.ins output ≡ ended_stream (h.outs output).frames) }

    ensures err { OnErr result ((whole : Streams → Streams) (h : History) → Stands (F.pads filter.old) whole (F.rest filter.old) (F.closes filter.old) (F.over filter.old) h
        → Stands (F.pads filter.old) whole (F.rest filter.new) (F.closes filter.new) (F.over filter.new) h) }
{
    match filter.give(rt, alloc, slices, output) {
        Ok(Given::Frame(frame)) => Ok(Given::Frame(frame)),
        Ok(Given::Nothing) => Ok(Given::Nothing),
        Ok(Given::End) => Ok(Given::End),
        Err(refused) => Err(refused),
    }
}

/// What was given on each output begins what the function gives of what was offered.
pub fn begins<F: Filter>(_filter: &F)
    ensures { (whole : Streams → Streams) (h : History) → Stands (F.pads _filter.now) whole (F.rest _filter.now) (F.closes _filter.now) (F.over _filter.now) h
        → AllRise (F.pads _filter.now).inputs h.ins → (o : ℕ) → o < (F.pads _filter.now).outputs → Begins (h.outs o) (whole h.ins o) }
{}

/// What is still to be given obeys the laws of filters. Of a new filter it is the filter's function, and where each
/// input's stream begins another, each output's begins the other's.
pub fn obeys<F: Filter>(_filter: &F)
    ensures laws { FilterLaws (F.pads _filter.now) (F.rest _filter.now) (F.closes _filter.now) (F.wants _filter.now) (F.over _filter.now) }
    ensures begins { (pads : Pads) (rule : Streams → Streams) (in_shape out_shape : ℕ → Shape) → IsNew (F.pads _filter.now) (F.rest _filter.now) (F.accepts _filter.now) pads rule in_shape out_shape
        → (s t : Streams) → AllRise (F.pads _filter.now).inputs s → AllRise (F.pads _filter.now).inputs t → AllBegin (F.pads _filter.now).inputs s t
        → AllBegin (F.pads _filter.now).outputs (F.rest _filter.now s) (F.rest _filter.now t) }
{}

/// Where an input is closed, then whatever the other inputs become, the function is the same whatever that input becomes.
pub fn settles<F: Filter>(_filter: &F)
    ensures { (whole : Streams → Streams) (h : History) → Stands (F.pads _filter.now) whole (F.rest _filter.now) (F.closes _filter.now) (F.over _filter.now) h
        → (i : ℕ) → i < (F.pads _filter.now).inputs → F.closes _filter.now i ≡ true
        → (all : Streams) (t : Stream) → AllRise (F.pads _filter.now).inputs all → Rises t.frames → ((j : ℕ) → Begins (h.ins j) (all j)) → Begins (h.ins i) t
        → (o : ℕ) → o < (F.pads _filter.now).outputs → whole (at_pad all i t) o ≡ whole all o }
{}

/// A needed input is neither closed nor finished.
pub fn needs_open<F: Filter>(_filter: &F)
    ensures { (whole : Streams → Streams) (h : History) → Stands (F.pads _filter.now) whole (F.rest _filter.now) (F.closes _filter.now) (F.over _filter.now) h
        → (i : ℕ) → i < (F.pads _filter.now).inputs → F.wants _filter.now i ≡ true → (F.closes _filter.now i ≡ false) × ((h.ins i).ended ≡ false) }
{}

/// Once every output has returned End, every input is closed.
pub fn closes_all<F: Filter>(_filter: &F)
    ensures { (whole : Streams → Streams) (h : History) → Stands (F.pads _filter.now) whole (F.rest _filter.now) (F.closes _filter.now) (F.over _filter.now) h
        → ((o : ℕ) → o < (F.pads _filter.now).outputs → (h.outs o).ended ≡ true) → (i : ℕ) → i < (F.pads _filter.now).inputs → F.closes _filter.now i ≡ true }
{}
