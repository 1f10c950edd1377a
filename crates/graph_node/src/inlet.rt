//! The inputs of a node.
ghost use Rattle.std.specs.Prelude.{◌≡◌, ℤ, ◌<◌, ◌≤◌, ◌++◌, ◌↔◌, [], true, false, IsTrue, IsFalse, IsNone, Some, None, Ok, IfOk, option_to_list};
ghost use Rattle.av_frame.specs.Frames.{FrameValue};
ghost use Rattle.av_frame.specs.Streams.{Begins, open_stream};
ghost use Rattle.graph_node.specs.Times.{last_pts, IsPast};
ghost use Rattle.link_ports.specs.Parcels.{front_of};
ghost use Rattle.link_ports.specs.Ends.{is_closing, fresh_receiver};

use crate::ports::{close_port, discard, fill_port, take_of, want_port};
use crate::shapes::are_equal;
use av_base::{NoMemory, Shape};
use av_frame::Frame;
use link_ports::InPort;
use std::alloc::Global;

/// An input of a node: a port, with a frame that was taken and isn't offered yet.
#[derive(Drop)]
pub struct Inlet {
    pub(crate) port: InPort<Frame>,
    /// The frame that waits.
    pub(crate) pending: Option<Frame>,
    /// The pts of the last frame that was offered.
    pub(crate) last: Option<i64>,
    pub(crate) shape: Shape,
    /// Whether the filter was told the end.
    pub(crate) finished: bool,
    ghost pending_is: { port.taken ≡ front_of (port.taken) (option_to_list pending) ++ option_to_list pending },
    ghost last_is: { is_closing port ≡ false → last ≡ last_pts (front_of (port.taken) (option_to_list pending)) },
    ghost finished_is: { IsTrue finished → (port.end_received ≡ true) × (port.queued ≡ []) × (pending ≡ None) },
    // What arrives after the closing is dropped, so nothing waits then.
    ghost dropped_is: { is_closing port ≡ true → (port.queued ≡ []) × (pending ≡ None) },
}

impl Inlet {
    /// The input at the end of a new link, for frames of a shape.
    pub fn new(port: InPort<Frame>, shape: Shape) -> Inlet
        requires { port ≡ fresh_receiver port.link }
        ensures offered { offered result ≡ open_stream [] }
        ensures port { (result.port ≡ port) × (result.shape ≡ shape) }
        ensures open { closing result ≡ false }
        ensures last { result.last ≡ None }
    {
        Inlet {
            port,
            pending: None,
            last: None,
            shape,
            finished: false,
        }
    }

    ghost use Rattle.graph_node.specs.Ports.{offered, arrived, closing, inlet_id, inlet_moves, inlet_core, SameInlet, Blocked};
    ghost use Rattle.link_ports.specs.Moves.{FillDone};

    /// Fills the queue, and returns whether anything moved. What arrives after the closing is dropped.
    ///
    /// # Errors
    /// Out of memory. Then nothing moved.
    pub(crate) fn fill(&mut self, alloc: Global) -> Result<bool, NoMemory>
        ensures id { inlet_id self.new ≡ inlet_id self.old }
        ensures offered { closing self.old ≡ false → offered self.new ≡ offered self.old }
        ensures begins { Begins (offered self.old) (offered self.new) }
        ensures finished { self.new.finished ≡ self.old.finished }
        ensures kept { (self.new.shape ≡ self.old.shape) × (self.new.last ≡ self.old.last) × (closing self.new ≡ closing self.old) }
        ensures grows { inlet_moves self.old ≤ inlet_moves self.new }
        ensures moved { IfOk result (λ moved. IsTrue moved → inlet_moves self.old < inlet_moves self.new) }
        ensures still { result ≡ Ok false → (inlet_core self.new ≡ inlet_core self.old) × FillDone self.old.port }
    {
        fill_port(&mut self.port, alloc)
    }

    /// Takes a frame of the queue if none waits, and returns whether it did.
    #[tactic(auto, using(crate::proofs::InletLemmas::drawn_none, crate::proofs::InletLemmas::drawn_some))]
    pub(crate) fn draw(&mut self) -> bool
        ensures same { SameInlet self.old self.new }
        ensures offered { offered self.new ≡ offered self.old }
        ensures last { self.new.last ≡ self.old.last }
        ensures none { result ≡ false → self.new.pending ≡ None → self.new.port.queued ≡ [] }
        ensures moved { result ≡ true → inlet_moves self.old < inlet_moves self.new }
        ensures still { result ≡ false → inlet_core self.new ≡ inlet_core self.old }
        ensures pending { result ≡ false → self.new.pending ≡ self.old.pending }
    {
        if self.pending.is_some() {
            return false;
        }
        if self.finished {
            return false;
        }
        match take_of(&mut self.port) {
            Some(frame) => {
                self.pending = Some(frame);
                true
            }
            None => false,
        }
    }

    /// Whether a frame of this shape and pts may be offered next.
    pub(crate) fn may_follow(&self, shape: Shape, pts: i64) -> bool
        ensures { IsTrue result ↔ ((shape ≡ self.now.shape) × IsPast self.now.last pts) }
    {
        if !are_equal(shape, self.shape) {
            return false;
        }
        match self.last {
            Some(last) => last < pts,
            None => true,
        }
    }

    /// Whether a frame waits that may be offered.
    pub(crate) fn can_tell(&self) -> bool
        ensures yes { IsTrue result → (y : FrameValue) → self.now.pending ≡ Some y → (y.shape ≡ self.now.shape) × IsPast self.now.last y.pts }
        ensures no { IsFalse result → Blocked self.now }
    {
        match &self.pending {
            Some(frame) => self.may_follow(frame.shape(), frame.pts()),
            None => false,
        }
    }

    /// Whether the input was closed.
    pub(crate) fn is_closing(&self) -> bool
        ensures { result ≡ closing self.now }
    {
        self.port.is_closing()
    }

    /// Notes the closing, drops what waits, and returns whether that is new.
    pub(crate) fn close(&mut self) -> bool
        ensures id { inlet_id self.new ≡ inlet_id self.old }
        ensures begins { Begins (offered self.old) (offered self.new) }
        ensures finished { self.new.finished ≡ self.old.finished }
        ensures kept { (self.new.shape ≡ self.old.shape) × (self.new.last ≡ self.old.last) × (self.new.port.asked ≡ self.old.port.asked) }
        ensures closing { closing self.new ≡ true }
        ensures grows { inlet_moves self.old ≤ inlet_moves self.new }
        ensures moved { result ≡ true → inlet_moves self.old < inlet_moves self.new }
        ensures still { result ≡ false → inlet_core self.new ≡ inlet_core self.old }
    {
        if !close_port(&mut self.port) {
            return false;
        }
        discard(&mut self.port);
        self.pending = None;
        true
    }

    /// Notes a want, and returns whether that is new.
    pub(crate) fn want(&mut self) -> bool
        ensures id { inlet_id self.new ≡ inlet_id self.old }
        ensures offered { offered self.new ≡ offered self.old }
        ensures arrived { arrived self.new ≡ arrived self.old }
        ensures kept { (self.new.shape ≡ self.old.shape) × (self.new.last ≡ self.old.last) × (closing self.new ≡ closing self.old) }
        ensures finished { self.new.finished ≡ self.old.finished }
        ensures asked { self.new.port.asked ≡ true }
        ensures grows { inlet_moves self.old ≤ inlet_moves self.new }
        ensures moved { result ≡ true → inlet_moves self.old < inlet_moves self.new }
        ensures still { result ≡ false → inlet_core self.new ≡ inlet_core self.old }
    {
        want_port(&mut self.port)
    }
}
