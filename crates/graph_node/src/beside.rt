// The two ends of a link, at two nodes.
ghost use Rattle.std.specs.Prelude.{◌≡◌, ◌⊎◌, ◌<◌, ◌≤◌, true, false, IsFalse};
ghost use Rattle.link_ports.specs.Links.{HasArrived, on_the_way};
ghost use Rattle.graph_node.specs.Ports.{given, offered, closed, inlet_id, outlet_id, outlet_moves, inlet_core, outlet_core, SameInlet};
ghost use Rattle.link_ports.specs.Moves.{sender_moves, sender_core, receiver_core, LooksAt, SameAt, Tied};

use crate::inlet::Inlet;
use crate::outlet::Outlet;
use crate::ports::beside_of;
use av_frame::Frame;
use link_ports::{InPort, OutPort};

/// `beside` on one output and one input. Answers whether anything is on its way, or a want was handed over.
#[tactic(auto, using(crate::proofs::OutletLemmas::given_is))]
pub(crate) fn beside_ports(out: &mut Outlet, into: &mut Inlet) -> bool
    requires { outlet_id out.old ≡ inlet_id into.old }
    ensures id { outlet_id out.new ≡ outlet_id out.old }
    ensures given { given out.new ≡ given out.old }
    ensures out { (out.new.held ≡ out.old.held) × (closed out.new ≡ closed out.old) × (out.new.port.ended ≡ out.old.port.ended) }
    ensures grows { outlet_moves out.old ≤ outlet_moves out.new }
    ensures into { SameInlet into.old into.new }
    ensures offered { (offered into.new ≡ offered into.old) × (into.new.last ≡ into.old.last) }
    ensures beside { Tied out.new.port into.new.port }
    ensures arrived { IsFalse result → HasArrived out.new.port into.new.port }
    ensures quiet { IsFalse result → out.new.port.wanted ≡ out.old.port.wanted }
    ensures flies { result ≡ true → (0 < on_the_way out.new.port into.new.port) ⊎ (outlet_moves out.old < outlet_moves out.new) }
    ensures cores { (inlet_core into.new ≡ inlet_core into.old) × ((outlet_core out.new ≡ outlet_core out.old) ⊎ (outlet_moves out.old < outlet_moves out.new)) }
{
    beside_of(&mut out.port, &mut into.port)
}

/// The same where the engine sends.
pub(crate) fn beside_in(out: &mut OutPort<Frame>, into: &mut Inlet) -> bool
    requires { out.old.link ≡ inlet_id into.old }
    ensures out { LooksAt out.old out.new }
    ensures into { SameInlet into.old into.new }
    ensures offered { (offered into.new ≡ offered into.old) × (into.new.last ≡ into.old.last) }
    ensures beside { Tied out.new into.new.port }
    ensures arrived { IsFalse result → HasArrived out.new into.new.port }
    ensures flies { result ≡ true → (0 < on_the_way out.new into.new.port) ⊎ (sender_moves out.old < sender_moves out.new) }
    ensures cores { (inlet_core into.new ≡ inlet_core into.old) × ((sender_core out.new ≡ sender_core out.old) ⊎ (sender_moves out.old < sender_moves out.new)) }
{
    beside_of(out, &mut into.port)
}

/// The same where the engine takes.
#[tactic(auto, using(crate::proofs::OutletLemmas::given_is))]
pub(crate) fn beside_out(out: &mut Outlet, into: &mut InPort<Frame>) -> bool
    requires { outlet_id out.old ≡ into.old.link }
    ensures id { outlet_id out.new ≡ outlet_id out.old }
    ensures given { given out.new ≡ given out.old }
    ensures out { (out.new.held ≡ out.old.held) × (closed out.new ≡ closed out.old) × (out.new.port.ended ≡ out.old.port.ended) }
    ensures grows { outlet_moves out.old ≤ outlet_moves out.new }
    ensures into { SameAt into.old into.new }
    ensures beside { Tied out.new.port into.new }
    ensures arrived { IsFalse result → HasArrived out.new.port into.new }
    ensures quiet { IsFalse result → out.new.port.wanted ≡ out.old.port.wanted }
    ensures flies { result ≡ true → (0 < on_the_way out.new.port into.new) ⊎ (outlet_moves out.old < outlet_moves out.new) }
    ensures cores { (receiver_core into.new ≡ receiver_core into.old) × ((outlet_core out.new ≡ outlet_core out.old) ⊎ (outlet_moves out.old < outlet_moves out.new)) }
{
    beside_of(&mut out.port, into)
}
