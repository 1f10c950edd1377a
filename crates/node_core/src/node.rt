//! Nodes of the filters that run.
ghost use Rattle.std.specs.Prelude.{◌≡◌, [], ◌∷◌, All, IfOk, length};
ghost use Rattle.av_base.specs.declared.shapes.Shape.{Shape as AShape};
ghost use Rattle.av_frame.specs.FilterLaws.{IsNew, one_to};
ghost use Rattle.av_frame.specs.Rules.{each_rule};
ghost use Rattle.graph_node.specs.Nodes.{IsSound, Law, IsNewNode};
ghost use Rattle.link_ports.specs.Ends.{fresh_sender, fresh_receiver};
ghost use Rattle.node_core.specs.Shaping.{made_by};

use crate::instance::Instance;
use crate::ready::Ready;
use av_base::{List, NoMemory};
use av_frame::{Filter, Frame};
use link_ports::{InPort, OutPort};
use std::alloc::Global;

/// A filter that runs, between the ends of its links.
pub type Node = graph_node::Node<Instance>;

/// The node of a filter that is configured, at the ends of new links, one for each of its pads. It takes no memory for
/// frames.
///
/// # Errors
/// Out of memory.
pub fn new_node(
    alloc: Global,
    ready: &Ready,
    ins: List<InPort<Frame>>,
    outs: List<OutPort<Frame>>,
) -> Result<Node, NoMemory>
    requires inputs { length ins ≡ length ready.now.ins }
    requires outputs { length outs ≡ length ready.now.outs }
    requires fresh_ins { All (λ r. r ≡ fresh_receiver r.link) ins }
    requires fresh_outs { All (λ s. s ≡ fresh_sender s.link) outs }
    ensures sound { IfOk result (λ n. IsSound ⟦<Instance as Filter>⟧.pads ⟦<Instance as Filter>⟧.rest ⟦<Instance as Filter>⟧.closes ⟦<Instance as Filter>⟧.wants ⟦<Instance as Filter>⟧.accepts n) }
    ensures law { IfOk result (λ n. Law ⟦<Instance as Filter>⟧.pads ⟦<Instance as Filter>⟧.rest ⟦<Instance as Filter>⟧.closes ⟦<Instance as Filter>⟧.over (⟦<Instance as Filter>⟧.rest n.filter) n) }
    ensures new { IfOk result (λ n. IsNewNode n.filter ready.now.ins ins outs n) }

    // The node's filter is the one that `Ready::start` makes.
    ensures filter { (s out : AShape) → ready.now.ins ≡ s ∷ [] → ready.now.outs ≡ out ∷ [] → IfOk result (λ n. IsNew (⟦<Instance as Filter>⟧.pads n.filter) (⟦<Instance as Filter>⟧.rest n.filter) (⟦<Instance as Filter>⟧.accepts n.filter)
        (one_to 1) (each_rule (λ _. made_by ready.now)) (λ _. s) (λ _. out)) }
{
    let instance = ready.start(alloc)?;
    graph_node::Node::new(alloc, instance, ready.ins().as_slice(), ins, outs)
}
