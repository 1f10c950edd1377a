//! Looks at the links of a node from both of their ends.
ghost use Rattle.std.specs.Prelude.{◌≡◌, [], ◌∷◌, IfOk, map};
ghost use Rattle.graph_node.specs.Nodes.{IsSound};
ghost use Rattle.graph_node.specs.Ports.{inlet_id, outlet_id};

use crate::far_ends::small;
use av_base::{List, NoMemory};
use av_frame::{Filter, Frame};
use filt_fan::{Split, split};
use graph_node::{Node, Turned};
use link_ports::{InPort, OutPort, link};
use std::alloc::Global;

/// A node of `split` with one output, between the far ends of its links.
struct Single {
    source: OutPort<Frame>,
    node: Node<Split>,
    taker: InPort<Frame>,
}

/// The list of one item.
fn one<T: Drop>(alloc: Global, item: T) -> Result<List<T>, NoMemory>
    ensures { IfOk result (λ list. list ≡ item ∷ []) }
{
    let mut items = Vec::new(alloc);
    items.push(item)?;
    Ok(List::new(items))
}

/// A new one, with links that have room for one parcel.
fn new_single(alloc: Global) -> Result<Single, NoMemory>
    ensures sound { IfOk result (λ s. IsSound ⟦<Split as Filter>⟧.pads ⟦<Split as Filter>⟧.rest ⟦<Split as Filter>⟧.closes ⟦<Split as Filter>⟧.wants ⟦<Split as Filter>⟧.accepts s.node) }
    ensures ports { IfOk result (λ s. (s.node.inputs ≡ 1) × (s.node.outputs ≡ 1)) }
    ensures input { IfOk result (λ s. map inlet_id s.node.ins.items ≡ s.source.link ∷ []) }
    ensures output { IfOk result (λ s. map outlet_id s.node.outs.items ≡ s.taker.link ∷ []) }
{
    let (source, input) = link::<Frame>(alloc, 1)?;
    let (output, taker) = link::<Frame>(alloc, 1)?;
    let shape = small();
    let filter = split(alloc, shape, 1)?;
    let node = Node::new(
        alloc,
        filter,
        &[shape],
        one(alloc, input)?,
        one(alloc, output)?,
    )?;
    Ok(Single {
        source,
        node,
        taker,
    })
}

#[test]
fn links_are_looked_at_from_both_ends(rt: HostRuntime) -> Result<(), NoMemory> {
    let alloc = rt.alloc();
    let Single {
        mut source,
        mut node,
        mut taker,
    } = new_single(alloc)?;
    assert!(rt; !node.beside_target(0, &mut taker));
    taker.want();
    assert!(rt; node.beside_target(0, &mut taker));
    assert!(rt; !node.beside_source(0, &mut source));
    assert_eq!(rt; node.turn(&rt, alloc, 1)?, Turned::Moved);
    assert!(rt; !node.beside_target(0, &mut taker));
    assert!(rt; node.beside_source(0, &mut source));
    assert_eq!(rt; node.turn(&rt, alloc, 1)?, Turned::Idle);
    assert!(rt; node.idle());
    Ok(())
}
