//! Filters one after another, and the way of a frame through them.
ghost use Rattle.std.specs.Prelude.{◌≡◌, ℤ, pos, ◌+ℤ◌, ◌≤ℤ◌, List, false, IfOk, OnOk};
ghost use Rattle.av_base.specs.declared.shapes.Shape.{Shape};
ghost use Rattle.av_frame.specs.Frames.{FrameValue};
ghost use Rattle.node_core.specs.Shaping.{ReadyValue};
ghost use Rattle.avgraph.specs.Chains.{Step, passed, AreReady, AreLinked, TakesFrom, AllTake};

use av_base::{NoMemory, Shape};
use av_frame::{Filter, Frame, Given};
use node_core::{Instance, Ready};
use std::alloc::Global;
use std::marker::Model;
use std::thread::Threads;

/// Makes the filters of a chain, which then take frames from time 0 on.
///
/// # Errors
/// Out of memory.
fn start_all(alloc: Global, readies: &[Ready]) -> Result<Vec<Instance>, NoMemory>
    ensures { (s t : Shape) → AreLinked s readies.now t
        → IfOk result (λ v. AllTake ⟦<Instance as Filter>⟧.pads ⟦<Instance as Filter>⟧.rest ⟦<Instance as Filter>⟧.accepts (pos 0) s readies.now v.items t) }
{
    let mut instances = Vec::new(alloc);
    for ready in readies {
        instances.push(ready.start(alloc)?)?;
    }
    Ok(instances)
}

/// The frame that a filter makes of one.
///
/// # Errors
/// Out of memory. The frame is released then.
fn step<F: Filter, R: Threads + Sync>(
    rt: &R,
    alloc: Global,
    filter: &mut F,
    frame: Frame,
) -> Result<Frame, NoMemory>
    requires { (low : ℤ) × (made : FrameValue → FrameValue) × (low ≤ℤ frame.pts) × TakesFrom low frame.shape made (F.pads filter.old) (F.rest filter.old) (F.accepts filter.old) }
    ensures frame { (low : ℤ) (made : FrameValue → FrameValue) → low ≤ℤ frame.pts → TakesFrom low frame.shape made (F.pads filter.old) (F.rest filter.old) (F.accepts filter.old)
        → IfOk result (λ f. f ≡ made frame) }
    ensures takes { (low : ℤ) (made : FrameValue → FrameValue) → low ≤ℤ frame.pts → TakesFrom low frame.shape made (F.pads filter.old) (F.rest filter.old) (F.accepts filter.old)
        → OnOk result (TakesFrom (frame.pts +ℤ pos 1) frame.shape made (F.pads filter.new) (F.rest filter.new) (F.accepts filter.new)) }
{
    match filter.offer(alloc, 0, frame) {
        Ok(()) => {}
        Err(_) => return Err(NoMemory),
    }
    match filter.give(rt, alloc, 1, 0)? {
        Given::Frame(made) => Ok(made),
        Given::Nothing | Given::End => unreachable!(),
    }
}

/// The frame at the end of a chain of filters, which take frames from some time on that isn't past that of this one. They
/// then take later frames.
///
/// # Errors
/// Out of memory. The frame is released then.
fn pass<F: Filter, R: Threads + Sync>(
    rt: &R,
    alloc: Global,
    filters: &mut [F],
    frame: Frame,
) -> Result<Frame, NoMemory>
    requires { (low : ℤ) × (readies : List ReadyValue) × (t : Shape) × (low ≤ℤ frame.pts) × AllTake F.pads F.rest F.accepts low frame.shape readies filters.old t }
    ensures frame { (low : ℤ) (readies : List ReadyValue) (t : Shape) → low ≤ℤ frame.pts → AllTake F.pads F.rest F.accepts low frame.shape readies filters.old t
        → IfOk result (λ f. f ≡ passed readies frame) }
    ensures shape { (low : ℤ) (readies : List ReadyValue) (t : Shape) → low ≤ℤ frame.pts → AllTake F.pads F.rest F.accepts low frame.shape readies filters.old t
        → IfOk result (λ f. f.shape ≡ t) }
    ensures take { (low : ℤ) (readies : List ReadyValue) (t : Shape) → low ≤ℤ frame.pts → AllTake F.pads F.rest F.accepts low frame.shape readies filters.old t
        → OnOk result (AllTake F.pads F.rest F.accepts (frame.pts +ℤ pos 1) frame.shape readies filters.new t) }
{
    let mut current = frame;
    for i in 0..filters.len() {
        current = step(rt, alloc, &mut filters[i], current)?;
    }
    Ok(current)
}

/// Filters one after another that run: each is offered what the one before it gives.
#[derive(Drop)]
pub(crate) struct Chain {
    readies: Vec<Ready>,
    instances: Vec<Instance>,
    shape: Shape,
    end: Shape,
    /// The lowest time that the next frame may have.
    next: i64,
    /// Whether a frame was rejected.
    spent: bool,
}

impl Model for Chain {
    ghost use Rattle.std.specs.Prelude.{◌≡◌, false};
    ghost use Rattle.avgraph.specs.Chains.{ChainValue, AllTake};

    ghost Value = { ChainValue };

    ghost view = { λ c. record { readies = c.readies.items; shape = c.shape; end = c.end; next = c.next; spent = c.spent } };

    ghost invariant = { λ c. c.spent ≡ false → AllTake ⟦<Instance as Filter>⟧.pads ⟦<Instance as Filter>⟧.rest ⟦<Instance as Filter>⟧.accepts c.next c.shape c.readies.items c.instances.items c.end };
}

impl Chain {
    /// The chain of filters that are ready, for frames of a shape; the last one gives frames of `end`.
    ///
    /// # Errors
    /// Out of memory.
    pub(crate) fn new(
        alloc: Global,
        readies: Vec<Ready>,
        shape: Shape,
        end: Shape,
    ) -> Result<Chain, NoMemory>
        requires ready { (path : List Step) × AreReady path shape readies.items end }
        ensures { IfOk result (λ c. c ≡ record { readies = readies.items; shape = shape; end = end; next = pos 0; spent = false }) }
    {
        let instances = start_all(alloc, &readies)?;
        Ok(Chain {
            readies,
            instances,
            shape,
            end,
            next: 0,
            spent: false,
        })
    }

    /// The shape of the frames that the last filter gives.
    pub(crate) fn end(&self) -> Shape
        ensures { result ≡ self.now.end }
    {
        self.end
    }

    /// The frame at the end of the chain for one at its beginning.
    ///
    /// # Errors
    /// Out of memory. The chain is spent then.
    pub(crate) fn pass<R: Threads + Sync>(
        &mut self,
        rt: &R,
        alloc: Global,
        frame: Frame,
    ) -> Result<Frame, NoMemory>
        requires fresh { self.old.spent ≡ false }
        requires shape { frame.shape ≡ self.old.shape }
        requires next { self.old.next ≤ℤ frame.pts }
        ensures passed { IfOk result (λ f. f ≡ passed self.old.readies frame) }
        ensures shape { IfOk result (λ f. f.shape ≡ self.old.end) }
        ensures after { OnOk result (self.new ≡ record self.old { next = frame.pts +ℤ pos 1 }) }
    {
        // Any frame is lawful, and so its time is within 2^62, by the clause of this call.
        let _shape = frame.shape();
        let pts = frame.pts();
        self.spent = true;
        let passed = pass(rt, alloc, &mut self.instances, frame)?;
        self.next = pts + 1;
        self.spent = false;
        Ok(passed)
    }
}
