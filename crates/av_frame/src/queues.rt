//! Frames that wait on several outputs.

ghost use Rattle.std.specs.Prelude.{◌≡◌, ◌≢◌, ℕ, ◌<◌, ◌+◌, ◌++◌, ◌∷◌, [], true, false, length, map, nat_lt, slice_get, take, IfOk, IfSome, IfNone, OnOk, replicate};
ghost use Rattle.std.specs.List.{list_all};
ghost use Rattle.std.specs.VecDeque.{deque_len, deque_capacity};
ghost use Rattle.av_frame.specs.Frames.{FrameValue};
ghost use Rattle.av_frame.specs.Rules.{queue, is_empty};

use crate::frame::Frame;
use av_base::NoMemory;
use std::alloc::Global;
use std::collections::VecDeque;
use std::marker::Model;

/// A queue for each output.
#[derive(Drop)]
pub(crate) struct Queues {
    queues: Vec<VecDeque<Frame>>,
}

impl Model for Queues {
    ghost use Rattle.std.specs.Prelude.{map, nat_lt};
    ghost use Rattle.std.specs.List.{list_all};
    ghost use Rattle.std.specs.VecDeque.{deque_len, deque_capacity};
    ghost use Rattle.av_frame.specs.Rules.{QueuesValue};

    ghost Value = { QueuesValue };

    ghost view = { λ w. record { lists = map (λ q. q.items) w.queues.items; has_room = list_all (λ q. nat_lt (deque_len q) (deque_capacity q)) w.queues.items } };
}

impl Queues {
    /// Empty queues for this many outputs.
    pub(crate) fn new(alloc: Global, outputs: u32) -> Result<Queues, NoMemory>
        ensures { IfOk result (λ w. w.lists ≡ replicate outputs []) }
    {
        let mut queues = Vec::new(alloc);
        for _ in 0..outputs {
            queues.push(VecDeque::new(alloc))?;
        }
        Ok(Queues { queues })
    }

    /// Whether nothing waits on an output.
    pub(crate) fn is_empty(&self, output: u32) -> bool
        requires { output < length self.now.lists }
        ensures { result ≡ is_empty (queue self.now.lists output) }
    {
        self.queues[output as usize].is_empty()
    }

    /// Makes room for one more frame in each queue.
    pub(crate) fn reserve(&mut self) -> Result<(), NoMemory>
        ensures lists { self.new.lists ≡ self.old.lists }
        ensures room { OnOk result (self.new.has_room ≡ true) }
    {
        reserve_each(&mut self.queues)
    }

    /// Puts a frame into each queue: the first one into that of output 0, and the others, in order, into the later ones.
    pub(crate) fn push_row(&mut self, first: Frame, others: Vec<Frame>)
        requires room { self.old.has_room ≡ true }
        requires outputs { length others.items + 1 ≡ length self.old.lists }
        ensures outputs { length self.new.lists ≡ length self.old.lists }
        ensures pushed { (o : ℕ) (x : FrameValue) → slice_get (first ∷ others.items) o ≡ Some x → queue self.new.lists o ≡ queue self.old.lists o ++ x ∷ [] }
    {
        push_each(&mut self.queues, first, others);
    }

    /// Takes the first frame of an output's queue.
    pub(crate) fn pop(&mut self, output: u32) -> Option<Frame>
        requires { output < length self.old.lists }
        ensures outputs { length self.new.lists ≡ length self.old.lists }
        ensures some { IfSome result (λ x. queue self.old.lists output ≡ x ∷ queue self.new.lists output) }
        ensures none { IfNone result (queue self.old.lists output ≡ []) }
        ensures unchanged { IfNone result (self.new.lists ≡ self.old.lists) }
        ensures dry { (o : ℕ) → queue self.old.lists o ≡ [] → queue self.new.lists o ≡ [] }
        ensures others { (o : ℕ) → o ≢ output → queue self.new.lists o ≡ queue self.old.lists o }
    {
        let queue = &mut self.queues[output as usize];
        queue.pop_front()
    }
}

fn reserve_each(queues: &mut Vec<VecDeque<Frame>>) -> Result<(), NoMemory>
    ensures lists { map (λ q. q.items) queues.new.items ≡ map (λ q. q.items) queues.old.items }
    ensures room { OnOk result (list_all (λ q. nat_lt (deque_len q) (deque_capacity q)) queues.new.items ≡ true) }
{
    for i in 0..queues.len() {
        let queue = &mut queues[i];
        if queue.reserve(1).is_err() {
            return Err(NoMemory);
        }
    }
    Ok(())
}

/// Puts a frame into one queue, which has room for it.
fn push_at(queues: &mut Vec<VecDeque<Frame>>, place: usize, frame: Frame)
    requires place { place < length queues.old.items }
    requires room { list_all (λ q. nat_lt (deque_len q) (deque_capacity q)) (take (place + 1) queues.old.items) ≡ true }
    ensures outputs { length queues.new.items ≡ length queues.old.items }
    ensures room { list_all (λ q. nat_lt (deque_len q) (deque_capacity q)) (take place queues.new.items) ≡ true }
    ensures pushed { queue (map (λ q. q.items) queues.new.items) place ≡ queue (map (λ q. q.items) queues.old.items) place ++ frame ∷ [] }
    ensures others { (o : ℕ) → o ≢ place → queue (map (λ q. q.items) queues.new.items) o ≡ queue (map (λ q. q.items) queues.old.items) o }
{
    let queue = &mut queues[place];
    match queue.push_back(frame) {
        Ok(()) => {}
        Err(_) => unreachable!(),
    }
}

/// Puts a frame into each queue, from the last one down.
fn push_each(queues: &mut Vec<VecDeque<Frame>>, first: Frame, mut others: Vec<Frame>)
    requires room { list_all (λ q. nat_lt (deque_len q) (deque_capacity q)) queues.old.items ≡ true }
    requires outputs { length others.items + 1 ≡ length queues.old.items }
    ensures outputs { length queues.new.items ≡ length queues.old.items }
    ensures pushed { (o : ℕ) (x : FrameValue) → slice_get (first ∷ others.items) o ≡ Some x → queue (map (λ q. q.items) queues.new.items) o ≡ queue (map (λ q. q.items) queues.old.items) o ++ x ∷ [] }
{
    while let Some(frame) = others.pop() {
        push_at(queues, others.len() + 1, frame);
    }
    push_at(queues, 0, first);
}
