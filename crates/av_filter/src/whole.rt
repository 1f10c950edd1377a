//! Whole streams through one filter: a caller that knows nothing of the filter but its trait.

ghost use Rattle.std.specs.Prelude.{◌≡◌, ◌≢◌, ℕ, ◌<◌, ◌^◌, [], true, length, IfOk, OnOk};
ghost use Rattle.av_frame.specs.Frames.{FrameValue};
ghost use Rattle.av_frame.specs.Streams.{Streams, at_pad, ended_stream, AllRise};
ghost use Rattle.av_frame.specs.FilterLaws.{IsSlices};
ghost use Rattle.av_frame.specs.Rules.{queue};
ghost use Rattle.av_filter.specs.Whole.{IsReady, AreReady, all_ended, no_frames};

use av_base::{List, NoMemory};
use av_frame::{Filter, Frame, Given};
use std::alloc::Global;
use std::thread::Threads;

/// Offers the frames of an input, as far as it isn't closed.
fn offer_all<F: Filter>(
    filter: &mut F,
    alloc: Global,
    input: u32,
    frames: List<Frame>,
) -> Result<(), NoMemory>
    requires port { input < (F.pads filter.old).inputs }
    requires ready { IsReady (F.accepts filter.old input) frames }
    ensures pads { F.pads filter.new ≡ F.pads filter.old }
    ensures accepts { (j : ℕ) (y : FrameValue) → j ≢ input → F.accepts filter.old j y → F.accepts filter.new j y }
    ensures rest { OnOk result ((ins : Streams) → AllRise (F.pads filter.old).inputs ins → (o : ℕ) → o < (F.pads filter.old).outputs
        → F.rest filter.old (at_pad ins input (ended_stream frames)) o ≡ F.rest filter.new (at_pad ins input (ended_stream [])) o) }
{
    let mut left = frames.into_vec();
    'offering: while !left.is_empty() {
        if filter.closed(input) {
            return Ok(());
        }
        let frame = left.remove(0);
        match filter.offer(alloc, input, frame) {
            Ok(()) => {}
            Err(_) => return Err(NoMemory),
        }
    }
    Ok(())
}

/// Finishes every input.
fn finish_all<F: Filter>(filter: &mut F, inputs: u32)
    requires { (F.pads filter.old).inputs ≡ inputs }
    ensures pads { F.pads filter.new ≡ F.pads filter.old }
    ensures closed { (i : ℕ) → i < inputs → F.closes filter.new i ≡ true }
    ensures rest { (o : ℕ) → o < (F.pads filter.old).outputs → F.rest filter.new no_frames o ≡ F.rest filter.old no_frames o }
{
    for input in 0..inputs {
        filter.finish(input);
    }
}

/// Takes all that is still to be given on an output, where every input is closed.
fn take_all<F: Filter, R: Threads + Sync>(
    filter: &mut F,
    rt: &R,
    alloc: Global,
    slices: u32,
    output: u32,
) -> Result<List<Frame>, NoMemory>
    requires slices { IsSlices slices }
    requires port { output < (F.pads filter.old).outputs }
    requires closed { (i : ℕ) → i < (F.pads filter.old).inputs → F.closes filter.old i ≡ true }
    ensures pads { F.pads filter.new ≡ F.pads filter.old }
    ensures closed { (i : ℕ) → i < (F.pads filter.old).inputs → F.closes filter.new i ≡ true }
    ensures taken { IfOk result (λ all. F.rest filter.old no_frames output ≡ ended_stream all) }
    ensures others { (o : ℕ) → o < (F.pads filter.old).outputs → o ≢ output → F.rest filter.new no_frames o ≡ F.rest filter.old no_frames o }
{
    let mut all = Vec::new(alloc);
    'giving: loop {
        match filter.give(rt, alloc, slices, output)? {
            Given::Frame(frame) => all.push(frame)?,
            Given::Nothing => unreachable!(),
            Given::End => return Ok(List::new(all)),
        }
    }
}

/// Offers whole streams, one for each input, and ends them. Returns all that the filter gives, output by output:
/// its function of the ended streams.
///
/// # Errors
/// Out of memory.
pub fn filter_whole<F: Filter, R: Threads + Sync>(
    filter: &mut F,
    rt: &R,
    alloc: Global,
    slices: u32,
    inputs: List<List<Frame>>,
    outputs: u32,
) -> Result<List<List<Frame>>, NoMemory>
    requires slices { IsSlices slices }
    requires few { length inputs < 2 ^ 32 }
    requires inputs { (F.pads filter.old).inputs ≡ length inputs }
    requires outputs { (F.pads filter.old).outputs ≡ outputs }
    requires ready { AreReady (F.accepts filter.old) inputs }
    ensures count { IfOk result (λ given. length given ≡ outputs) }
    ensures whole { IfOk result (λ given. (o : ℕ) → o < outputs → F.rest filter.old (all_ended inputs) o ≡ ended_stream (queue given o)) }
{
    let mut left = inputs.into_vec();
    let count = left.len() as u32;
    'offering: while let Some(frames) = left.pop() {
        offer_all(filter, alloc, left.len() as u32, frames)?;
    }
    finish_all(filter, count);
    let mut given = Vec::new(alloc);
    for output in 0..outputs {
        let all = take_all(filter, rt, alloc, slices, output)?;
        given.push(all)?;
    }
    Ok(List::new(given))
}
