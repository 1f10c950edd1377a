//! The outputs of a node.
ghost use Rattle.std.specs.Prelude.{◌≡◌, ◌<◌, ◌≤◌, ◌||◌, ◌&&◌, not, [], true, false, IsTrue, Ok, None, OnOk, IfOk};
ghost use Rattle.filter_history.specs.Histories.{with_frame};
ghost use Rattle.av_frame.specs.Streams.{ended_stream};

use crate::ports::{end_port, flush_of, send_to};
use av_base::NoMemory;
use av_frame::Frame;
use link_ports::OutPort;
use std::alloc::Global;

/// An output of a node: a port, with a frame that was given and isn't sent yet.
#[derive(Drop)]
pub struct Outlet {
    pub(crate) port: OutPort<Frame>,
    /// A frame for which there was no memory.
    pub(crate) held: Option<Frame>,
    ghost held_is: { IsTrue port.ended → held ≡ None },
}

impl Outlet {
    ghost use Rattle.link_ports.specs.Ends.{sent, fresh_sender};
    ghost use Rattle.av_frame.specs.Streams.{open_stream};
    ghost use Rattle.graph_node.specs.Ports.{given, closed, is_done, is_wanted, outlet_id, outlet_moves, outlet_core};
    ghost use Rattle.link_ports.specs.Moves.{FlushDone};

    /// The output at the end of a new link.
    pub fn new(port: OutPort<Frame>) -> Outlet
        requires { port ≡ fresh_sender port.link }
        ensures given { given result ≡ open_stream [] }
        ensures port { result.port ≡ port }
    {
        Outlet { port, held: None }
    }

    /// Sends what is held, moves what waits into the ring, reads the notes, and returns whether anything moved.
    ///
    /// # Errors
    /// Out of memory. A frame that is held stays.
    pub(crate) fn flush(&mut self, alloc: Global) -> Result<bool, NoMemory>
        ensures id { outlet_id self.new ≡ outlet_id self.old }
        ensures given { given self.new ≡ given self.old }
        ensures closed { closed self.old ≡ true → closed self.new ≡ true }
        ensures grows { outlet_moves self.old ≤ outlet_moves self.new }
        ensures still { result ≡ Ok false → (outlet_core self.new ≡ outlet_core self.old) × FlushDone self.old.port }
        ensures moved { IfOk result (λ moved. IsTrue moved → outlet_moves self.old < outlet_moves self.new) }
    {
        let sent = self.send_held(alloc)?;
        let flushed = self.flush_port();
        Ok(sent || flushed)
    }

    /// Moves what waits into the ring, reads the notes, and returns whether anything moved.
    #[tactic(auto, using(crate::proofs::OutletLemmas::given_is))]
    fn flush_port(&mut self) -> bool
        ensures id { outlet_id self.new ≡ outlet_id self.old }
        ensures given { given self.new ≡ given self.old }
        ensures closed { closed self.old ≡ true → closed self.new ≡ true }
        ensures grows { outlet_moves self.old ≤ outlet_moves self.new }
        ensures still { result ≡ false → (outlet_core self.new ≡ outlet_core self.old) × FlushDone self.old.port }
        ensures moved { IsTrue result → outlet_moves self.old < outlet_moves self.new }
    {
        flush_of(&mut self.port)
    }

    /// Sends what is held, and returns whether there was something.
    ///
    /// # Errors
    /// Out of memory. A frame that is held stays.
    #[tactic(auto, using(crate::proofs::OutletLemmas::unheld_is, crate::proofs::OutletLemmas::reheld_is))]
    fn send_held(&mut self, alloc: Global) -> Result<bool, NoMemory>
        ensures id { outlet_id self.new ≡ outlet_id self.old }
        ensures given { given self.new ≡ given self.old }
        ensures closed { closed self.new ≡ closed self.old }
        ensures grows { outlet_moves self.old ≤ outlet_moves self.new }
        ensures still { result ≡ Ok false → self.new ≡ self.old }
        ensures moved { IfOk result (λ moved. IsTrue moved → outlet_moves self.old < outlet_moves self.new) }
    {
        match self.held.take() {
            None => Ok(false),
            Some(frame) => match send_to(&mut self.port, alloc, frame) {
                Ok(()) => Ok(true),
                Err(back) => {
                    self.held = Some(back.item);
                    Err(NoMemory)
                }
            },
        }
    }

    /// Sends a frame.
    ///
    /// # Errors
    /// Out of memory. Then the frame is held.
    #[tactic(auto, using(crate::proofs::OutletLemmas::sent_is, crate::proofs::OutletLemmas::held_is))]
    pub(crate) fn put(&mut self, alloc: Global, frame: Frame) -> Result<(), NoMemory>
        requires { (self.old.held ≡ None) × (self.old.port.ended ≡ false) }
        ensures id { outlet_id self.new ≡ outlet_id self.old }
        ensures given { given self.new ≡ with_frame (given self.old) frame }
        ensures closed { closed self.new ≡ closed self.old }
        ensures grows { outlet_moves self.old ≤ outlet_moves self.new }
        ensures moved { OnOk result (outlet_moves self.old < outlet_moves self.new) }
    {
        match send_to(&mut self.port, alloc, frame) {
            Ok(()) => Ok(()),
            Err(back) => {
                self.held = Some(back.item);
                Err(NoMemory)
            }
        }
    }

    /// Ends the stream.
    #[tactic(auto, using(crate::proofs::OutletLemmas::end_is))]
    pub(crate) fn end(&mut self)
        requires { (self.old.held ≡ None) × (self.old.port.ended ≡ false) }
        ensures id { outlet_id self.new ≡ outlet_id self.old }
        ensures given { given self.new ≡ ended_stream (given self.old).frames }
        ensures closed { closed self.new ≡ closed self.old }
        ensures moved { outlet_moves self.old < outlet_moves self.new }
    {
        end_port(&mut self.port);
    }

    /// Whether a want was received, and no frame was sent since.
    pub(crate) fn wants(&self) -> bool
        ensures { result ≡ self.now.port.wanted }
    {
        self.port.wanted()
    }

    /// Whether nothing more is to be sent.
    pub(crate) fn is_done(&self) -> bool
        ensures { result ≡ is_done self.now }
    {
        self.port.closed() || self.port.is_ended()
    }

    /// Whether the taker waits for a frame.
    pub(crate) fn is_wanted(&self) -> bool
        ensures { result ≡ is_wanted self.now }
    {
        self.port.wanted() && !self.is_done()
    }
}
