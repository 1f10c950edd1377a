//! The inputs and outputs of a new node.
ghost use Rattle.std.specs.Prelude.{◌≡◌, ◌<◌, All, IfOk, Some, length, slice_get};
ghost use Rattle.link_ports.specs.Ends.{fresh_sender, fresh_receiver};
ghost use Rattle.graph_node.specs.Nodes.{AreInlets, AreOutlets};

use crate::inlet::Inlet;
use crate::outlet::Outlet;
use av_base::{NoMemory, Shape};
use av_frame::Frame;
use link_ports::{InPort, OutPort};
use std::alloc::Global;

/// The shape at a place of the list.
fn shape_at(shapes: &[Shape], place: usize) -> Shape
    requires { place < length shapes.now }
    ensures { slice_get shapes.now place ≡ Some result }
{
    shapes[place]
}

/// The inputs at the ends of new links, for frames of these shapes.
///
/// # Errors
/// Out of memory.
pub(crate) fn inlets(
    alloc: Global,
    shapes: &[Shape],
    ports: Vec<InPort<Frame>>,
) -> Result<Vec<Inlet>, NoMemory>
    requires shapes { length shapes.now ≡ length ports.items }
    requires fresh { All (λ r. r ≡ fresh_receiver r.link) ports.items }
    ensures { IfOk result (λ ins. AreInlets shapes.now ports.items ins.items) }
{
    let mut ins = Vec::new(alloc);
    for port in ports {
        let shape = shape_at(shapes, ins.len());
        ins.push(Inlet::new(port, shape))?;
    }
    Ok(ins)
}

/// The outputs at the ends of new links.
///
/// # Errors
/// Out of memory.
pub(crate) fn outlets(alloc: Global, ports: Vec<OutPort<Frame>>) -> Result<Vec<Outlet>, NoMemory>
    requires { All (λ s. s ≡ fresh_sender s.link) ports.items }
    ensures { IfOk result (λ outs. AreOutlets ports.items outs.items) }
{
    let mut outs = Vec::new(alloc);
    for port in ports {
        outs.push(Outlet::new(port))?;
    }
    Ok(outs)
}
