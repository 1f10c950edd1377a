//! Looks at the links of a node.
ghost use Rattle.std.specs.Prelude.{◌≡◌, ◌⊎◌, ◌<◌, true, IsFalse, Some, slice_get, map};
ghost use Rattle.graph_node.specs.Nodes.{Fit, Step, IsIdle, OutSeen, InSeen, SameCores, offered_all, given_all, moves};
ghost use Rattle.link_ports.specs.Links.{HasArrived, on_the_way};
ghost use Rattle.link_ports.specs.Moves.{sender_core, receiver_core, sender_moves, LooksAt, SameAt, Tied};
ghost use Rattle.graph_node.specs.Ports.{outlet_id, inlet_id};
ghost use Rattle.graph_node.specs.declared.inlet.Inlet.{Inlet as AnInlet};
ghost use Rattle.graph_node.specs.declared.outlet.Outlet.{Outlet as AnOutlet};
ghost use Rattle.av_frame.specs.Streams.{Begins};

use crate::beside::{beside_in, beside_out, beside_ports};
use crate::node::Node;
use av_frame::{Filter, Frame};
use link_ports::{InPort, OutPort};

impl<F: Filter> Node<F> {
    /// Looks at the link from an output to an input of another node, without the mark.
    pub(crate) fn look(&mut self, output: u32, taker: &mut Node<F>, input: u32) -> bool
        requires ports { (output < self.old.outputs) × (input < taker.old.inputs) }
        requires fit { Fit F.pads F.closes F.accepts self.old }
        requires taker_fit { Fit F.pads F.closes F.accepts taker.old }
        requires link { slice_get (map outlet_id self.old.outs.items) output ≡ slice_get (map inlet_id taker.old.ins.items) input }
        ensures fit { Fit F.pads F.closes F.accepts self.new }
        ensures taker_fit { Fit F.pads F.closes F.accepts taker.new }
        ensures marks { (self.new.idle ≡ self.old.idle) × (taker.new.idle ≡ taker.old.idle) }
        ensures step { Step F.pads F.rest F.closes F.over self.old self.new }
        ensures taker_step { Step F.pads F.rest F.closes F.over taker.old taker.new }
        ensures begins { Begins (offered_all taker.new input) (given_all self.new output) }
        ensures idle { ((q p : AnOutlet) → slice_get self.old.outs.items output ≡ Some q → slice_get self.new.outs.items output ≡ Some p → p.port.wanted ≡ q.port.wanted) → IsIdle F.rest F.closes F.wants self.old → IsIdle F.rest F.closes F.wants self.new }
        ensures taker_idle { IsIdle F.rest F.closes F.wants taker.old → IsIdle F.rest F.closes F.wants taker.new }
        ensures cores { SameCores self.old self.new ⊎ (moves self.old < moves self.new) }
        ensures taker_cores { SameCores taker.old taker.new }
        ensures flies { result ≡ true → (moves self.old < moves self.new) ⊎ ((q : AnOutlet) (r : AnInlet) → slice_get self.new.outs.items output ≡ Some q → slice_get taker.new.ins.items input ≡ Some r → 0 < on_the_way q.port r.port) }
        ensures seen { OutSeen self.old self.new output }
        ensures taker_seen { InSeen taker.old taker.new input }
        ensures beside { (q : AnOutlet) (r : AnInlet) → slice_get self.new.outs.items output ≡ Some q → slice_get taker.new.ins.items input ≡ Some r → Tied q.port r.port }
        ensures still { IsFalse result → (q : AnOutlet) (r : AnInlet) → slice_get self.new.outs.items output ≡ Some q → slice_get taker.new.ins.items input ≡ Some r → HasArrived q.port r.port }
    {
        let out = &mut self.outs[output as usize];
        let into = &mut taker.ins[input as usize];
        beside_ports(out, into)
    }

    /// Looks at the link to an input, without the mark.
    pub(crate) fn look_source(&mut self, input: u32, out: &mut OutPort<Frame>) -> bool
        requires port { input < self.old.inputs }
        requires fit { Fit F.pads F.closes F.accepts self.old }
        requires link { slice_get (map inlet_id self.old.ins.items) input ≡ Some out.old.link }
        ensures fit { Fit F.pads F.closes F.accepts self.new }
        ensures marks { self.new.idle ≡ self.old.idle }
        ensures step { Step F.pads F.rest F.closes F.over self.old self.new }
        ensures idle { IsIdle F.rest F.closes F.wants self.old → IsIdle F.rest F.closes F.wants self.new }
        ensures seen { InSeen self.old self.new input }
        ensures cores { SameCores self.old self.new }
        ensures flies { result ≡ true → (sender_moves out.old < sender_moves out.new) ⊎ ((r : AnInlet) → slice_get self.new.ins.items input ≡ Some r → 0 < on_the_way out.new r.port) }
        ensures out_core { (sender_core out.new ≡ sender_core out.old) ⊎ (sender_moves out.old < sender_moves out.new) }
        ensures out { LooksAt out.old out.new }
        ensures beside { (r : AnInlet) → slice_get self.new.ins.items input ≡ Some r → Tied out.new r.port }
        ensures still { IsFalse result → (r : AnInlet) → slice_get self.new.ins.items input ≡ Some r → HasArrived out.new r.port }
    {
        let into = &mut self.ins[input as usize];
        beside_in(out, into)
    }

    /// Looks at the link from an output, without the mark.
    pub(crate) fn look_target(&mut self, output: u32, into: &mut InPort<Frame>) -> bool
        requires port { output < self.old.outputs }
        requires fit { Fit F.pads F.closes F.accepts self.old }
        requires link { slice_get (map outlet_id self.old.outs.items) output ≡ Some into.old.link }
        ensures fit { Fit F.pads F.closes F.accepts self.new }
        ensures marks { self.new.idle ≡ self.old.idle }
        ensures step { Step F.pads F.rest F.closes F.over self.old self.new }
        ensures idle { ((q p : AnOutlet) → slice_get self.old.outs.items output ≡ Some q → slice_get self.new.outs.items output ≡ Some p → p.port.wanted ≡ q.port.wanted) → IsIdle F.rest F.closes F.wants self.old → IsIdle F.rest F.closes F.wants self.new }
        ensures seen { OutSeen self.old self.new output }
        ensures cores { SameCores self.old self.new ⊎ (moves self.old < moves self.new) }
        ensures flies { result ≡ true → (moves self.old < moves self.new) ⊎ ((q : AnOutlet) → slice_get self.new.outs.items output ≡ Some q → 0 < on_the_way q.port into.new) }
        ensures into_core { receiver_core into.new ≡ receiver_core into.old }
        ensures into { SameAt into.old into.new }
        ensures beside { (q : AnOutlet) → slice_get self.new.outs.items output ≡ Some q → Tied q.port into.new }
        ensures still { IsFalse result → (q : AnOutlet) → slice_get self.new.outs.items output ≡ Some q → HasArrived q.port into.new }
    {
        let out = &mut self.outs[output as usize];
        beside_out(out, into)
    }
}
