//! A filter and one of its ports.
ghost use Rattle.std.specs.Prelude.{◌+◌, length, ◌≡◌, ◌⊎◌, ◌<◌, ◌≤◌, ℕ, [], true, false, IsTrue, Ok, None, Some, OnOk};
ghost use Rattle.av_frame.specs.Streams.{open_stream, nothing_more};
ghost use Rattle.graph_node.specs.Ports.{offered, closing, given, is_done, closed, SameInlet, Blocked, Drawn, outlet_id, inlet_moves, outlet_moves, inlet_core};
ghost use Rattle.av_frame.specs.FilterLaws.{IsSlices};
ghost use Rattle.graph_node.specs.Laws.{Told, Gave, InFit};

use crate::inlet::Inlet;
use crate::outlet::Outlet;
use av_base::NoMemory;
use av_frame::{Filter, Frame, Given};
use std::alloc::Global;
use std::thread::Threads;

/// The pts of a frame.
fn last_of(frame: &Frame) -> Option<i64>
    ensures { result ≡ Some frame.now.pts }
{
    Some(frame.pts())
}

/// Offers the frame that waits to the filter, if it may come next.
///
/// # Errors
/// Out of memory. Then the frame waits on.
pub(crate) fn tell<F: Filter>(
    filter: &mut F,
    inlet: &mut Inlet,
    alloc: Global,
    input: u32,
) -> Result<(), NoMemory>
    requires port { input < (F.pads filter.old).inputs }
    requires open { closing inlet.old ≡ false }
    requires fit { InFit F.closes F.accepts filter.old input inlet.old }
    ensures told { Told F.pads F.rest F.closes F.over F.accepts filter.old filter.new input (offered inlet.old) (offered inlet.new) }
    ensures fit { InFit F.closes F.accepts filter.new input inlet.new }
    ensures same { SameInlet inlet.old inlet.new }
    ensures port { inlet.new.port ≡ inlet.old.port }
    ensures queue { inlet.new.port.queued ≡ inlet.old.port.queued }
    ensures idle { OnOk result ((F.closes filter.new input ≡ true) ⊎ Blocked inlet.new) }
{
    if filter.closed(input) {
        return Ok(());
    }
    if !inlet.can_tell() {
        return Ok(());
    }
    let Some(frame) = inlet.pending.take() else {
        return Ok(());
    };
    let last = last_of(&frame);
    match filter.offer(alloc, input, frame) {
        Ok(()) => {
            inlet.last = last;
            Ok(())
        }
        Err(back) => {
            inlet.pending = Some(back.frame);
            Err(NoMemory)
        }
    }
}

/// Tells the filter the end, once it came and all frames were offered.
pub(crate) fn tell_end<F: Filter>(filter: &mut F, inlet: &mut Inlet, input: u32)
    requires port { input < (F.pads filter.old).inputs }
    requires open { closing inlet.old ≡ false }
    requires fit { InFit F.closes F.accepts filter.old input inlet.old }
    ensures told { Told F.pads F.rest F.closes F.over F.accepts filter.old filter.new input (offered inlet.old) (offered inlet.new) }
    ensures fit { InFit F.closes F.accepts filter.new input inlet.new }
    ensures same { SameInlet inlet.old inlet.new }
    ensures port { inlet.new.port ≡ inlet.old.port }
    ensures kept { (inlet.new.pending ≡ inlet.old.pending) × (inlet.new.last ≡ inlet.old.last) × (inlet.new.port.queued ≡ inlet.old.port.queued) }
    ensures end { inlet.new.pending ≡ None → inlet.new.port.queued ≡ [] → inlet.new.port.end_received ≡ inlet.new.finished }
{
    if inlet.finished || inlet.pending.is_some() || !inlet.port.ended() {
        return;
    }
    filter.finish(input);
    inlet.finished = true;
}

/// Offers one frame to the filter, or tells it the end, and returns whether a frame was taken.
///
/// # Errors
/// Out of memory. Then the frame waits on.
pub(crate) fn feed<F: Filter>(
    filter: &mut F,
    inlet: &mut Inlet,
    alloc: Global,
    input: u32,
) -> Result<bool, NoMemory>
    requires port { input < (F.pads filter.old).inputs }
    requires open { closing inlet.old ≡ false }
    requires fit { InFit F.closes F.accepts filter.old input inlet.old }
    ensures told { Told F.pads F.rest F.closes F.over F.accepts filter.old filter.new input (offered inlet.old) (offered inlet.new) }
    ensures fit { InFit F.closes F.accepts filter.new input inlet.new }
    ensures same { SameInlet inlet.old inlet.new }
    ensures still { result ≡ Ok false → inlet_core inlet.new ≡ inlet_core inlet.old }
    ensures moved { result ≡ Ok true → inlet_moves inlet.old < inlet_moves inlet.new }
    ensures idle { result ≡ Ok false → (F.closes filter.new input ≡ true) ⊎ Drawn inlet.new }
{
    tell(filter, inlet, alloc, input)?;
    if filter.closed(input) {
        return Ok(false);
    }
    if inlet.draw() {
        tell(filter, inlet, alloc, input)?;
        return Ok(true);
    }
    tell_end(filter, inlet, input);
    Ok(false)
}

/// Sends what the filter gives next on an output, and returns whether it gave something.
///
/// # Errors
/// Out of memory. A frame that was given is then held.
pub(crate) fn ask<F: Filter, R: Threads + Sync>(
    rt: &R,
    filter: &mut F,
    outlet: &mut Outlet,
    alloc: Global,
    slices: u32,
    output: u32,
) -> Result<bool, NoMemory>
    requires slices { IsSlices slices }
    requires port { output < (F.pads filter.old).outputs }
    ensures gave { Gave F.pads F.rest F.closes F.over F.accepts filter.old filter.new output (given outlet.old) (given outlet.new) }
    ensures id { outlet_id outlet.new ≡ outlet_id outlet.old }
    ensures grows { outlet_moves outlet.old ≤ outlet_moves outlet.new }
    ensures moved { result ≡ Ok true → outlet_moves outlet.old < outlet_moves outlet.new }
    ensures closed { (closed outlet.new ≡ closed outlet.old) × (IsTrue (is_done outlet.old) → IsTrue (is_done outlet.new)) }
    ensures same { result ≡ Ok false → outlet.new ≡ outlet.old }
    ensures others { result ≡ Ok false → (o : ℕ) → o < (F.pads filter.old).outputs → F.rest filter.old nothing_more o ≡ open_stream [] → F.rest filter.new nothing_more o ≡ open_stream [] }
    ensures done { IsTrue (is_done outlet.old) → filter.new ≡ filter.old }
    ensures idle { result ≡ Ok false → is_done outlet.old ≡ false → F.rest filter.new nothing_more output ≡ open_stream [] }
    ensures few { length (given outlet.new).frames ≤ length (given outlet.old).frames + 1 }
    ensures held { result ≡ Ok false → is_done outlet.old ≡ false → outlet.new.held ≡ None }
    ensures needs { result ≡ Ok false → is_done outlet.old ≡ false → (i : ℕ) × (i < (F.pads filter.old).inputs) × (F.wants filter.new i ≡ true) }
{
    if outlet.is_done() {
        return Ok(false);
    }
    if outlet.held.is_some() {
        return Err(NoMemory);
    }
    match filter.give(rt, alloc, slices, output) {
        Ok(Given::Frame(frame)) => {
            outlet.put(alloc, frame)?;
            Ok(true)
        }
        Ok(Given::End) => {
            outlet.end();
            Ok(true)
        }
        Ok(Given::Nothing) => Ok(false),
        Err(_) => Err(NoMemory),
    }
}
