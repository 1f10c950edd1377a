//! What a node does, as its users see it.
ghost use Rattle.std.specs.Prelude.{◌+◌, None, [], ◌≡◌, ◌⊎◌, ℕ, ◌<◌, ◌≤◌, ◌^◌, ◌↔◌, false, true, IsTrue, IsFalse, Ok, Some, IfOk, All, length, slice_get, map};
ghost use Rattle.graph_node.specs.Nodes.{SomeWanted, Fit, Step, IsIdle, IsSound, IsNewNode, Law, OutSeen, InSeen, SameCores, NothingMoves, offered_all, given_all, closing_all, closed_all, moves};
ghost use Rattle.link_ports.specs.Ends.{fresh_sender, fresh_receiver};
ghost use Rattle.link_ports.specs.Links.{HasArrived, on_the_way};
ghost use Rattle.link_ports.specs.Moves.{sender_core, receiver_core, sender_moves, LooksAt, SameAt, Tied};
ghost use Rattle.graph_node.specs.Ports.{outlet_id, inlet_id, closing};
ghost use Rattle.graph_node.specs.declared.inlet.Inlet.{Inlet as AnInlet};
ghost use Rattle.graph_node.specs.declared.outlet.Outlet.{Outlet as AnOutlet};
ghost use Rattle.av_base.specs.declared.shapes.Shape.{Shape as AShape};
ghost use Rattle.av_frame.specs.Frames.{FrameValue};
ghost use Rattle.av_frame.specs.FilterLaws.{IsSlices};
ghost use Rattle.av_frame.specs.Streams.{Streams, Begins, AllRise};

use crate::ends::{inlets, outlets};
use crate::node::{Node, Turned};
use av_base::{List, NoMemory, Shape};
use av_frame::{Filter, Frame};
use link_ports::{InPort, OutPort};
use std::alloc::Global;
use std::thread::Threads;

/// Whether two flags are equal.
fn are_equal(a: bool, b: bool) -> bool
    ensures { IsTrue result ↔ (a ≡ b) }
{
    a == b
}

/// Whether a turn was idle.
fn is_idle(turned: &Result<Turned, NoMemory>) -> bool
    ensures { IsTrue result ↔ (turned.now ≡ Ok Turned.Idle) }
{
    matches!(turned, Ok(Turned::Idle))
}

impl<F: Filter> Node<F> {
    /// One turn. The node reads notes and fills its inputs, offers a frame on each input, sends at most one frame on each
    /// open output beside one that was held, passes on ends and closings, and notes wants. The result is Idle exactly if
    /// nothing of this can be done now.
    ///
    /// # Errors
    /// Out of memory. Nothing is lost, and the turn can be made again.
    pub fn turn<R: Threads + Sync>(
        &mut self,
        rt: &R,
        alloc: Global,
        slices: u32,
    ) -> Result<Turned, NoMemory>
        requires slices { IsSlices slices }
        requires sound { IsSound F.pads F.rest F.closes F.wants F.accepts self.old }
        ensures sound { IsSound F.pads F.rest F.closes F.wants F.accepts self.new }
        ensures step { Step F.pads F.rest F.closes F.over self.old self.new }
        ensures mark { IsTrue self.new.idle ↔ (result ≡ Ok Turned.Idle) }

        // On each output at most one frame more was given.
        ensures few { (o : ℕ) → length (given_all self.new o).frames ≤ length (given_all self.old o).frames + 1 }
        ensures still { result ≡ Ok Turned.Idle → SameCores self.old self.new × NothingMoves self.old }
        ensures moved { result ≡ Ok Turned.Moved → moves self.old < moves self.new }
        ensures idle { result ≡ Ok Turned.Idle → IsIdle F.rest F.closes F.wants self.new }
    {
        let turned = self.work(rt, alloc, slices);
        self.idle = is_idle(&turned);
        turned
    }

    /// Whether the last turn was idle, and no want was handed over since.
    pub fn idle(&self) -> bool
        ensures { result ≡ self.now.idle }
    {
        self.idle
    }

    /// A node at the ends of new links, one for each pad of the filter. `shapes` are those of the frames that come on the
    /// inputs. It takes no memory for frames.
    ///
    /// # Errors
    /// Out of memory.
    pub fn new(
        alloc: Global,
        filter: F,
        shapes: &[Shape],
        ins: List<InPort<Frame>>,
        outs: List<OutPort<Frame>>,
    ) -> Result<Node<F>, NoMemory>
    where
        F: Drop,
        requires inputs { ((F.pads filter).inputs ≡ length ins) × (length ins < 2 ^ 32) }
        requires outputs { ((F.pads filter).outputs ≡ length outs) × (length outs < 2 ^ 32) }
        requires shapes { length shapes.now ≡ length ins }
        requires fresh_ins { All (λ r. r ≡ fresh_receiver r.link) ins }
        requires fresh_outs { All (λ s. s ≡ fresh_sender s.link) outs }
        requires accepts { (i : ℕ) (shape : AShape) (y : FrameValue) → slice_get shapes.now i ≡ Some shape → y.shape ≡ shape → F.accepts filter i y }
        ensures sound { IfOk result (λ n. IsSound F.pads F.rest F.closes F.wants F.accepts n) }
        ensures law { IfOk result (λ n. Law F.pads F.rest F.closes F.over (F.rest filter) n) }
        ensures new { IfOk result (λ n. IsNewNode filter shapes.now ins outs n) }
    {
        let inputs = ins.as_slice().len() as u32;
        let outputs = outs.as_slice().len() as u32;
        let ins = inlets(alloc, shapes, ins.into_vec())?;
        let outs = outlets(alloc, outs.into_vec())?;
        Ok(Node {
            filter,
            inputs,
            outputs,
            ins,
            outs,
            idle: false,
        })
    }

    /// Whether an output is wanted.
    fn wanted(&self, output: u32) -> bool
        requires port { output < self.now.outputs }
        requires fit { Fit F.pads F.closes F.accepts self.now }
        ensures { (q : AnOutlet) → slice_get self.now.outs.items output ≡ Some q → result ≡ q.port.wanted }
    {
        self.outs[output as usize].wants()
    }

    /// Looks at the link from an output to an input of the node `taker` from both of its ends, and returns whether anything
    /// is in flight. What waits at an end is in flight too, and so is a want that the output doesn't know of. If nothing
    /// else is in flight, the want is handed over, and this node is no more idle.
    pub fn beside(&mut self, output: u32, taker: &mut Node<F>, input: u32) -> bool
        requires ports { (output < self.old.outputs) × (input < taker.old.inputs) }
        requires sound { IsSound F.pads F.rest F.closes F.wants F.accepts self.old }
        requires taker_sound { IsSound F.pads F.rest F.closes F.wants F.accepts taker.old }
        requires link { slice_get (map outlet_id self.old.outs.items) output ≡ slice_get (map inlet_id taker.old.ins.items) input }
        ensures sound { IsSound F.pads F.rest F.closes F.wants F.accepts self.new }
        ensures taker_sound { IsSound F.pads F.rest F.closes F.wants F.accepts taker.new }
        ensures step { Step F.pads F.rest F.closes F.over self.old self.new }
        ensures taker_step { Step F.pads F.rest F.closes F.over taker.old taker.new }
        ensures begins { Begins (offered_all taker.new input) (given_all self.new output) }
        ensures seen { OutSeen self.old self.new output }
        ensures taker_seen { InSeen taker.old taker.new input }
        ensures cores { SameCores self.old self.new ⊎ (moves self.old < moves self.new) }
        ensures taker_cores { SameCores taker.old taker.new }
        ensures mark { moves self.new ≤ moves self.old → self.new.idle ≡ self.old.idle }
        ensures taker_mark { taker.new.idle ≡ taker.old.idle }

        // The two ends of the link.
        ensures beside { (q : AnOutlet) (r : AnInlet) → slice_get self.new.outs.items output ≡ Some q → slice_get taker.new.ins.items input ≡ Some r → Tied q.port r.port }
        ensures still { IsFalse result → (q : AnOutlet) (r : AnInlet) → slice_get self.new.outs.items output ≡ Some q → slice_get taker.new.ins.items input ≡ Some r → HasArrived q.port r.port }
        ensures flies { result ≡ true → (moves self.old < moves self.new) ⊎ ((q : AnOutlet) (r : AnInlet) → slice_get self.new.outs.items output ≡ Some q → slice_get taker.new.ins.items input ≡ Some r → 0 < on_the_way q.port r.port) }
    {
        let wanted = self.wanted(output);
        let flying = self.look(output, taker, input);
        self.keep_mark(wanted, output);
        flying
    }

    /// Looks at the link to an input from both of its ends, as `beside` does. `out` is the end that sends.
    pub fn beside_source(&mut self, input: u32, out: &mut OutPort<Frame>) -> bool
        requires port { input < self.old.inputs }
        requires sound { IsSound F.pads F.rest F.closes F.wants F.accepts self.old }
        requires link { slice_get (map inlet_id self.old.ins.items) input ≡ Some out.old.link }
        ensures sound { IsSound F.pads F.rest F.closes F.wants F.accepts self.new }
        ensures step { Step F.pads F.rest F.closes F.over self.old self.new }
        ensures seen { InSeen self.old self.new input }
        ensures cores { SameCores self.old self.new }
        ensures mark { self.new.idle ≡ self.old.idle }
        ensures out { LooksAt out.old out.new }
        ensures out_core { (sender_core out.new ≡ sender_core out.old) ⊎ (sender_moves out.old < sender_moves out.new) }

        // The two ends of the link.
        ensures beside { (r : AnInlet) → slice_get self.new.ins.items input ≡ Some r → Tied out.new r.port }
        ensures still { IsFalse result → (r : AnInlet) → slice_get self.new.ins.items input ≡ Some r → HasArrived out.new r.port }
        ensures flies { result ≡ true → (sender_moves out.old < sender_moves out.new) ⊎ ((r : AnInlet) → slice_get self.new.ins.items input ≡ Some r → 0 < on_the_way out.new r.port) }
    {
        self.look_source(input, out)
    }

    /// Looks at the link from an output from both of its ends, as `beside` does. `into` is the end that takes.
    pub fn beside_target(&mut self, output: u32, into: &mut InPort<Frame>) -> bool
        requires port { output < self.old.outputs }
        requires sound { IsSound F.pads F.rest F.closes F.wants F.accepts self.old }
        requires link { slice_get (map outlet_id self.old.outs.items) output ≡ Some into.old.link }
        ensures sound { IsSound F.pads F.rest F.closes F.wants F.accepts self.new }
        ensures step { Step F.pads F.rest F.closes F.over self.old self.new }
        ensures seen { OutSeen self.old self.new output }
        ensures cores { SameCores self.old self.new ⊎ (moves self.old < moves self.new) }
        ensures mark { moves self.new ≤ moves self.old → self.new.idle ≡ self.old.idle }
        ensures into { SameAt into.old into.new }
        ensures into_core { receiver_core into.new ≡ receiver_core into.old }

        // The two ends of the link.
        ensures beside { (q : AnOutlet) → slice_get self.new.outs.items output ≡ Some q → Tied q.port into.new }
        ensures still { IsFalse result → (q : AnOutlet) → slice_get self.new.outs.items output ≡ Some q → HasArrived q.port into.new }
        ensures flies { result ≡ true → (moves self.old < moves self.new) ⊎ ((q : AnOutlet) → slice_get self.new.outs.items output ≡ Some q → 0 < on_the_way q.port into.new) }
    {
        let wanted = self.wanted(output);
        let flying = self.look_target(output, into);
        self.keep_mark(wanted, output);
        flying
    }

    /// Takes the mark away if an output is wanted and was not, or the other way round.
    fn keep_mark(&mut self, wanted: bool, output: u32)
        requires port { output < self.old.outputs }
        requires fit { Fit F.pads F.closes F.accepts self.old }
        ensures same { self.new ≡ record self.old { idle = self.new.idle } }
        ensures kept { (q : AnOutlet) → slice_get self.old.outs.items output ≡ Some q → q.port.wanted ≡ wanted → self.new.idle ≡ self.old.idle }
        ensures taken { self.new.idle ≡ true → (self.old.idle ≡ true) × ((q : AnOutlet) → slice_get self.old.outs.items output ≡ Some q → q.port.wanted ≡ wanted) }
    {
        let same = are_equal(self.wanted(output), wanted);
        self.idle = self.idle && same;
    }

    /// A law of every node: what the filter gave begins what its function gives of whatever the inputs' streams become.
    pub fn begins(&self)
        requires { Fit F.pads F.closes F.accepts self.now }
        ensures { (whole : Streams → Streams) → Law F.pads F.rest F.closes F.over whole self.now → (asked : Streams) → AllRise self.now.inputs asked
            → ((i : ℕ) → Begins (offered_all self.now i) (asked i)) → (o : ℕ) → o < self.now.outputs → Begins (given_all self.now o) (whole asked o) }
    {}

    /// A law of every idle node: on an output that its taker hasn't closed, the filter gave all that its function gives, also
    /// of more on the inputs that the node has closed.
    pub fn whole(&self)
        requires fit { Fit F.pads F.closes F.accepts self.now }
        requires idle { IsIdle F.rest F.closes F.wants self.now }
        ensures { (whole : Streams → Streams) → Law F.pads F.rest F.closes F.over whole self.now → (asked : Streams) → AllRise self.now.inputs asked
            → ((i : ℕ) → Begins (offered_all self.now i) (asked i)) → ((i : ℕ) → closing_all self.now i ≡ false → asked i ≡ offered_all self.now i)
            → (o : ℕ) → o < self.now.outputs → closed_all self.now o ≡ false → whole asked o ≡ given_all self.now o }
    {}

    /// A law of every node: what arrives at a closed input isn't kept.
    pub fn keeps_nothing(&self)
        ensures { (i : ℕ) (r : AnInlet) → slice_get self.now.ins.items i ≡ Some r → closing r ≡ true → (r.port.queued ≡ []) × (r.pending ≡ None) }
    {}

    /// A law of every idle node: while an output is wanted, some input was asked that is neither closed nor ended.
    pub fn asks(&self)
        requires fit { Fit F.pads F.closes F.accepts self.now }
        requires idle { IsIdle F.rest F.closes F.wants self.now }
        ensures { SomeWanted self.now → (i : ℕ) × (i < self.now.inputs) × ((r : AnInlet) → slice_get self.now.ins.items i ≡ Some r
            → (r.port.asked ≡ true) × (closing r ≡ false) × (r.finished ≡ false)) }
    {}
}
