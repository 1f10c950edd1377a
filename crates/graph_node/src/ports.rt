//! The calls of the two ends of a link, with what they do to the counted moves.
ghost use Rattle.std.specs.Prelude.{◌≡◌, ◌⊎◌, ◌<◌, Ok, ◌∷◌, [], true, false, IsTrue, IsFalse, IsNone, IfSome, IfNone, IfOk, IfErr, OnOk, OnErr};
ghost use Rattle.link_ports.specs.Ends.{is_closing, received};
ghost use Rattle.link_ports.specs.Links.{HasArrived, on_the_way};
ghost use Rattle.link_ports.specs.Moves.{KeepsIn, KeepsOut, TakesOne, Took, Notes, Sends, LooksAt, SameAt, Tied, Drops, FillDone, FlushDone, sender_core, receiver_core, sender_moves, receiver_moves};
ghost use Rattle.graph_node.specs.Ports.{Arrives};

use av_base::NoMemory;
use av_frame::Frame;
use link_ports::{InPort, OutPort, Unsent};
use std::alloc::Global;

/// Fills the queue, and returns whether anything moved. What arrives at a closed end is dropped.
///
/// # Errors
/// Out of memory. Then nothing moved.
pub fn fill_port(port: &mut InPort<Frame>, alloc: Global) -> Result<bool, NoMemory>
    requires dropped { is_closing port.old ≡ true → port.old.queued ≡ [] }
    ensures open { is_closing port.old ≡ false → KeepsIn port.old port.new }
    ensures closed { is_closing port.old ≡ true → Arrives port.old port.new × (port.new.queued ≡ []) }
    ensures moved { IfOk result (λ moved. IsTrue moved → receiver_moves port.old < receiver_moves port.new) }
    ensures still { result ≡ Ok false → (receiver_core port.new ≡ receiver_core port.old) × FillDone port.old }
{
    let moved = fill_queue(port, alloc)?;
    if port.is_closing() {
        discard(port);
    }
    Ok(moved)
}

/// Fills the queue, and returns whether anything moved.
///
/// # Errors
/// Out of memory. Then nothing moved.
fn fill_queue(port: &mut InPort<Frame>, alloc: Global) -> Result<bool, NoMemory>
    ensures keeps { KeepsIn port.old port.new }
    ensures refused { OnErr result (port.new.queued ≡ port.old.queued) }
    ensures moved { IfOk result (λ moved. IsTrue moved → receiver_moves port.old < receiver_moves port.new) }
    ensures still { result ≡ Ok false → (receiver_core port.new ≡ receiver_core port.old) × FillDone port.old }
{
    let moved = port.fill(alloc)?;
    Ok(moved)
}

/// Drops what is queued.
pub(crate) fn discard(port: &mut InPort<Frame>)
    ensures drops { Drops port.old port.new }
    ensures becomes { port.new ≡ record port.old { taken = received port.old; queued = [] } }
{
    port.discard();
}

/// Takes the oldest frame of the queue.
pub fn take_of(port: &mut InPort<Frame>) -> Option<Frame>
    ensures some { IfSome result (λ x. TakesOne port.old port.new x) }
    ensures none { IfNone result ((port.new ≡ port.old) × (port.new.queued ≡ [])) }
    ensures took { Took port.old port.new result }
{
    let Some(frame) = port.take() else {
        return None;
    };
    Some(frame)
}

/// Notes a want, and returns whether that is new.
pub fn want_port(port: &mut InPort<Frame>) -> bool
    ensures notes { Notes port.old port.new true (is_closing port.old) }
    ensures still { result ≡ false → port.new ≡ port.old }
    ensures moved { result ≡ true → receiver_moves port.old < receiver_moves port.new }
{
    if port.asked() {
        return false;
    }
    port.want();
    true
}

/// Notes the closing, and returns whether that is new.
pub fn close_port(port: &mut InPort<Frame>) -> bool
    ensures notes { Notes port.old port.new port.old.asked true }
    ensures still { result ≡ false → port.new ≡ port.old }
    ensures moved { result ≡ true → receiver_moves port.old < receiver_moves port.new }
{
    if port.is_closing() {
        return false;
    }
    port.close();
    true
}

/// Moves what waits into the ring, reads the notes, and returns whether anything moved.
pub fn flush_of(port: &mut OutPort<Frame>) -> bool
    ensures keeps { KeepsOut port.old port.new }
    ensures moved { IsTrue result → sender_moves port.old < sender_moves port.new }
    ensures still { result ≡ false → (sender_core port.new ≡ sender_core port.old) × FlushDone port.old }
{
    port.flush()
}

/// Sends a frame.
///
/// # Errors
/// Out of memory, with the frame.
pub fn send_to(port: &mut OutPort<Frame>, alloc: Global, frame: Frame) -> Result<(), Unsent<Frame>>
    requires { port.old.ended ≡ false }
    ensures sent { OnOk result (Sends port.old port.new (frame ∷ []) port.old.ended) }
    ensures unsent { IfErr result (λ e. (e.item ≡ frame) × (port.new ≡ port.old)) }
{
    match port.send(alloc, frame) {
        Ok(()) => Ok(()),
        Err(back) => Err(back),
    }
}

/// Ends the stream.
pub fn end_port(port: &mut OutPort<Frame>)
    requires { port.old.ended ≡ false }
    ensures { Sends port.old port.new [] true }
{
    port.end();
}

/// Looks at a link from both of its ends, and returns whether anything is in flight or a want was handed over.
pub fn beside_of(out: &mut OutPort<Frame>, into: &mut InPort<Frame>) -> bool
    requires { out.old.link ≡ into.old.link }
    ensures out { LooksAt out.old out.new }
    ensures into { SameAt into.old into.new }
    ensures beside { Tied out.new into.new }
    ensures arrived { IsFalse result → HasArrived out.new into.new }
    ensures quiet { IsFalse result → out.new.wanted ≡ out.old.wanted }
    ensures flies { result ≡ true → (0 < on_the_way out.new into.new) ⊎ (sender_moves out.old < sender_moves out.new) }
    ensures cores { (receiver_core into.new ≡ receiver_core into.old) × ((sender_core out.new ≡ sender_core out.old) ⊎ (sender_moves out.old < sender_moves out.new)) }
{
    let flying = link_ports::beside(out, into);
    into.notes_are_few();
    flying
}
