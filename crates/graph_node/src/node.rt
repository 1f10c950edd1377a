//! Nodes: a filter with its inputs and outputs.
ghost use Rattle.std.specs.Prelude.{◌+◌, ◌≤◌, ◌≡◌, ◌≢◌, ◌⊎◌, ◌||◌, ℕ, ◌<◌, ◌↔◌, true, false, IsTrue, IsFalse, Ok, Some, length, slice_index_or, slice_get, map, []};
ghost use Rattle.graph_node.specs.Nodes.{AllDone, SomeWanted, Fit, Step, DrawnAt, AllDrawn, ClosedAt, AllClosed, AskedAt, AllAsked, Needs, AllNeed, WantedAt, AllWanted, IsIdle, outlet, inlet, SameCores, NothingMoves, moves, given_all};
ghost use Rattle.link_ports.specs.Moves.{FillDone, FlushDone};
ghost use Rattle.graph_node.specs.Ports.{is_done};
ghost use Rattle.av_frame.specs.FilterLaws.{IsSlices};
ghost use Rattle.graph_node.specs.declared.inlet.Inlet.{Inlet as AnInlet};
ghost use Rattle.graph_node.specs.declared.outlet.Outlet.{Outlet as AnOutlet};

use crate::inlet::Inlet;
use crate::outlet::Outlet;
use crate::steps::{ask, feed};
use av_base::NoMemory;
use av_frame::Filter;
use std::alloc::Global;
use std::thread::Threads;

/// What a turn did.
#[derive(Clone, Copy, Debug, PartialEq, Eq, Drop)]
pub enum Turned {
    /// Something moved at a port.
    Moved,
    /// Nothing can move until something comes at a port.
    Idle,
}

/// A filter with its inputs and outputs, each at the end of a link.
#[derive(Drop)]
pub struct Node<F: Filter> {
    pub(crate) filter: F,
    pub(crate) inputs: u32,
    pub(crate) outputs: u32,
    pub(crate) ins: Vec<Inlet>,
    pub(crate) outs: Vec<Outlet>,
    /// Whether the last turn was idle, and no want was handed over since.
    pub(crate) idle: bool,
}

/// Whether one of these is true.
fn some_of(a: bool, b: bool, c: bool, d: bool, e: bool, f: bool) -> bool
    ensures { result ≡ (a || b || c || d || e || f) }
{
    a || b || c || d || e || f
}

impl<F: Filter> Node<F> {
    /// Fills an input, and returns whether anything moved.
    fn fill_one(&mut self, alloc: Global, input: u32) -> Result<bool, NoMemory>
        requires port { input < self.old.inputs }
        requires fit { Fit F.pads F.closes F.accepts self.old }
        ensures fit { Fit F.pads F.closes F.accepts self.new }
        ensures step { Step F.pads F.rest F.closes F.over self.old self.new }
        ensures still { result ≡ Ok false → SameCores self.old self.new }
        ensures done { result ≡ Ok false → (r : AnInlet) → slice_get self.old.ins.items input ≡ Some r → FillDone r.port }
        ensures others { (j : ℕ) → j ≢ input → slice_get self.new.ins.items j ≡ slice_get self.old.ins.items j }
        ensures outs { self.new.outs ≡ self.old.outs }
        ensures moved { result ≡ Ok true → moves self.old < moves self.new }
    {
        self.ins[input as usize].fill(alloc)
    }

    /// Flushes an output, and returns whether anything moved.
    fn flush_one(&mut self, alloc: Global, output: u32) -> Result<bool, NoMemory>
        requires port { output < self.old.outputs }
        requires fit { Fit F.pads F.closes F.accepts self.old }
        ensures fit { Fit F.pads F.closes F.accepts self.new }
        ensures step { Step F.pads F.rest F.closes F.over self.old self.new }
        ensures still { result ≡ Ok false → SameCores self.old self.new }
        ensures done { result ≡ Ok false → (q : AnOutlet) → slice_get self.old.outs.items output ≡ Some q → FlushDone q.port }
        ensures others { (j : ℕ) → j ≢ output → slice_get self.new.outs.items j ≡ slice_get self.old.outs.items j }
        ensures given { (o : ℕ) → given_all self.new o ≡ given_all self.old o }
        ensures moved { result ≡ Ok true → moves self.old < moves self.new }
    {
        self.outs[output as usize].flush(alloc)
    }

    /// Offers what waits at an input, and returns whether a frame was taken.
    fn offer_one(&mut self, alloc: Global, input: u32) -> Result<bool, NoMemory>
        requires port { input < self.old.inputs }
        requires fit { Fit F.pads F.closes F.accepts self.old }
        ensures fit { Fit F.pads F.closes F.accepts self.new }
        ensures step { Step F.pads F.rest F.closes F.over self.old self.new }
        ensures outs { self.new.outs ≡ self.old.outs }
        ensures still { result ≡ Ok false → SameCores self.old self.new }
        ensures moved { result ≡ Ok true → moves self.old < moves self.new }
        ensures drawn { (j : ℕ) → j ≢ input → DrawnAt F.closes self.old j → DrawnAt F.closes self.new j }
        ensures idle { result ≡ Ok false → DrawnAt F.closes self.new input }
    {
        let inlet = &mut self.ins[input as usize];
        if inlet.is_closing() {
            return Ok(false);
        }
        feed(&mut self.filter, inlet, alloc, input)
    }

    /// Asks the filter for more on an output, and returns whether it gave something.
    fn give_one<R: Threads + Sync>(
        &mut self,
        rt: &R,
        alloc: Global,
        slices: u32,
        output: u32,
    ) -> Result<bool, NoMemory>
        requires slices { IsSlices slices }
        requires port { output < self.old.outputs }
        requires fit { Fit F.pads F.closes F.accepts self.old }
        ensures fit { Fit F.pads F.closes F.accepts self.new }
        ensures step { Step F.pads F.rest F.closes F.over self.old self.new }
        ensures few { (o : ℕ) → length (given_all self.new o).frames ≤ length (given_all self.old o).frames + 1 }
        ensures others { (o : ℕ) → o ≢ output → given_all self.new o ≡ given_all self.old o }
        ensures still { result ≡ Ok false → SameCores self.old self.new }
        ensures moved { result ≡ Ok true → moves self.old < moves self.new }
        ensures ins { self.new.ins ≡ self.old.ins }
        ensures asked { result ≡ Ok false → (o : ℕ) → o < self.old.outputs → AskedAt F.rest self.old o → AskedAt F.rest self.new o }
        ensures idle { result ≡ Ok false → AskedAt F.rest self.new output }
        ensures done { result ≡ Ok false → (o : ℕ) (d : AnOutlet) → is_done (outlet self.new o d) ≡ is_done (outlet self.old o d) }
        ensures needs { result ≡ Ok false → (d : AnOutlet) → Needs F.wants self.old ⊎ (is_done (outlet self.old output d) ≡ false) → Needs F.wants self.new }
    {
        let outlet = &mut self.outs[output as usize];
        ask(rt, &mut self.filter, outlet, alloc, slices, output)
    }

    /// Closes an input that makes no difference any more, and returns whether that is new.
    fn close_one(&mut self, input: u32, all_done: bool) -> bool
        requires port { input < self.old.inputs }
        requires done { IsTrue all_done ↔ AllDone self.old }
        requires fit { Fit F.pads F.closes F.accepts self.old }
        ensures fit { Fit F.pads F.closes F.accepts self.new }
        ensures step { Step F.pads F.rest F.closes F.over self.old self.new }
        ensures still { result ≡ false → SameCores self.old self.new }
        ensures moved { result ≡ true → moves self.old < moves self.new }
        ensures kept { (self.new.filter ≡ self.old.filter) × (self.new.outs ≡ self.old.outs) }
        ensures drawn { (j : ℕ) → j < self.old.inputs → DrawnAt F.closes self.old j → DrawnAt F.closes self.new j }
        ensures closed { (j : ℕ) → j ≢ input → ClosedAt F.closes self.old j → ClosedAt F.closes self.new j }
        ensures idle { ClosedAt F.closes self.new input }
    {
        if all_done || self.filter.closed(input) {
            let inlet = &mut self.ins[input as usize];
            inlet.close()
        } else {
            false
        }
    }

    /// Notes a want at an input that the filter needs while an output is wanted, and returns whether that is new.
    fn want_one(&mut self, input: u32, some_wanted: bool) -> bool
        requires port { input < self.old.inputs }
        requires wanted { SomeWanted self.old → IsTrue some_wanted }
        requires fit { Fit F.pads F.closes F.accepts self.old }
        ensures fit { Fit F.pads F.closes F.accepts self.new }
        ensures step { Step F.pads F.rest F.closes F.over self.old self.new }
        ensures still { result ≡ false → SameCores self.old self.new }
        ensures moved { result ≡ true → moves self.old < moves self.new }
        ensures kept { (self.new.filter ≡ self.old.filter) × (self.new.outs ≡ self.old.outs) }
        ensures drawn { (j : ℕ) → j < self.old.inputs → DrawnAt F.closes self.old j → DrawnAt F.closes self.new j }
        ensures closed { (j : ℕ) → j < self.old.inputs → ClosedAt F.closes self.old j → ClosedAt F.closes self.new j }
        ensures asked { (j : ℕ) → j ≢ input → WantedAt F.wants self.old j → WantedAt F.wants self.new j }
        ensures idle { WantedAt F.wants self.new input }
    {
        if some_wanted && self.filter.needs(input) {
            let inlet = &mut self.ins[input as usize];
            inlet.want()
        } else {
            false
        }
    }

    /// Whether nothing more is to be sent on any output.
    fn all_done(&self) -> bool
        requires fit { Fit F.pads F.closes F.accepts self.now }
        ensures { IsTrue result ↔ AllDone self.now }
    {
        for o in 0..self.outputs {
            if !self.outs[o as usize].is_done() {
                return false;
            }
        }
        true
    }

    /// Whether an output is wanted.
    fn some_wanted(&self) -> bool
        requires fit { Fit F.pads F.closes F.accepts self.now }
        ensures { SomeWanted self.now → IsTrue result }
    {
        for o in 0..self.outputs {
            if self.outs[o as usize].is_wanted() {
                return true;
            }
        }
        false
    }

    /// Fills each input.
    #[tactic(auto, using(crate::proofs::NodeLemmas::step_refl, crate::proofs::NodeLemmas::step_trans))]
    fn fill_all(&mut self, alloc: Global) -> Result<bool, NoMemory>
        requires fit { Fit F.pads F.closes F.accepts self.old }
        ensures fit { Fit F.pads F.closes F.accepts self.new }
        ensures step { Step F.pads F.rest F.closes F.over self.old self.new }
        ensures still { result ≡ Ok false → SameCores self.old self.new }
        ensures done { result ≡ Ok false → (i : ℕ) (r : AnInlet) → slice_get self.old.ins.items i ≡ Some r → FillDone r.port }
        ensures outs { self.new.outs ≡ self.old.outs }
        ensures moved { result ≡ Ok true → moves self.old < moves self.new }
    {
        let mut moved = false;
        for i in 0..self.inputs {
            if self.fill_one(alloc, i)? {
                moved = true;
            }
        }
        Ok(moved)
    }

    /// Flushes each output.
    #[tactic(auto, using(crate::proofs::NodeLemmas::step_refl, crate::proofs::NodeLemmas::step_trans))]
    fn flush_all(&mut self, alloc: Global) -> Result<bool, NoMemory>
        requires fit { Fit F.pads F.closes F.accepts self.old }
        ensures fit { Fit F.pads F.closes F.accepts self.new }
        ensures step { Step F.pads F.rest F.closes F.over self.old self.new }
        ensures still { result ≡ Ok false → SameCores self.old self.new }
        ensures done { result ≡ Ok false → (o : ℕ) (q : AnOutlet) → slice_get self.old.outs.items o ≡ Some q → FlushDone q.port }
        ensures given { (o : ℕ) → given_all self.new o ≡ given_all self.old o }
        ensures moved { result ≡ Ok true → moves self.old < moves self.new }
    {
        let mut moved = false;
        for i in 0..self.outputs {
            if self.flush_one(alloc, i)? {
                moved = true;
            }
        }
        Ok(moved)
    }

    /// Offers what waits at each input.
    #[tactic(auto, using(crate::proofs::NodeLemmas::step_refl, crate::proofs::NodeLemmas::step_trans))]
    fn offer_all(&mut self, alloc: Global) -> Result<bool, NoMemory>
        requires fit { Fit F.pads F.closes F.accepts self.old }
        ensures fit { Fit F.pads F.closes F.accepts self.new }
        ensures step { Step F.pads F.rest F.closes F.over self.old self.new }
        ensures outs { self.new.outs ≡ self.old.outs }
        ensures still { result ≡ Ok false → SameCores self.old self.new }
        ensures moved { result ≡ Ok true → moves self.old < moves self.new }
        ensures idle { result ≡ Ok false → AllDrawn F.closes self.new }
    {
        let mut moved = false;
        for i in 0..self.inputs {
            if self.offer_one(alloc, i)? {
                moved = true;
            }
        }
        Ok(moved)
    }

    /// Asks the filter for more on each output.
    #[tactic(auto, using(crate::proofs::NodeLemmas::step_refl, crate::proofs::NodeLemmas::step_trans))]
    fn give_all<R: Threads + Sync>(
        &mut self,
        rt: &R,
        alloc: Global,
        slices: u32,
    ) -> Result<bool, NoMemory>
        requires slices { IsSlices slices }
        requires fit { Fit F.pads F.closes F.accepts self.old }
        ensures fit { Fit F.pads F.closes F.accepts self.new }
        ensures step { Step F.pads F.rest F.closes F.over self.old self.new }
        ensures few { (o : ℕ) → length (given_all self.new o).frames ≤ length (given_all self.old o).frames + 1 }
        ensures still { result ≡ Ok false → SameCores self.old self.new }
        ensures moved { result ≡ Ok true → moves self.old < moves self.new }
        ensures ins { self.new.ins ≡ self.old.ins }
        ensures idle { result ≡ Ok false → AllAsked F.rest self.new }
        ensures needs { result ≡ Ok false → AllNeed F.wants self.new }
    {
        let mut moved = false;
        for i in 0..self.outputs {
            if self.give_one(rt, alloc, slices, i)? {
                moved = true;
            }
        }
        Ok(moved)
    }

    /// Closes the inputs that make no difference any more.
    #[tactic(auto, using(crate::proofs::NodeLemmas::step_refl, crate::proofs::NodeLemmas::step_trans))]
    fn close_all(&mut self) -> bool
        requires fit { Fit F.pads F.closes F.accepts self.old }
        ensures fit { Fit F.pads F.closes F.accepts self.new }
        ensures step { Step F.pads F.rest F.closes F.over self.old self.new }
        ensures still { result ≡ false → SameCores self.old self.new }
        ensures moved { result ≡ true → moves self.old < moves self.new }
        ensures kept { (self.new.filter ≡ self.old.filter) × (self.new.outs ≡ self.old.outs) }
        ensures drawn { AllDrawn F.closes self.old → AllDrawn F.closes self.new }
        ensures idle { AllClosed F.closes self.new }
    {
        let all_done = self.all_done();
        let mut moved = false;
        for i in 0..self.inputs {
            if self.close_one(i, all_done) {
                moved = true;
            }
        }
        moved
    }

    /// Notes wants.
    #[tactic(auto, using(crate::proofs::NodeLemmas::step_refl, crate::proofs::NodeLemmas::step_trans))]
    fn want_all(&mut self) -> bool
        requires fit { Fit F.pads F.closes F.accepts self.old }
        ensures fit { Fit F.pads F.closes F.accepts self.new }
        ensures step { Step F.pads F.rest F.closes F.over self.old self.new }
        ensures still { result ≡ false → SameCores self.old self.new }
        ensures moved { result ≡ true → moves self.old < moves self.new }
        ensures kept { (self.new.filter ≡ self.old.filter) × (self.new.outs ≡ self.old.outs) }
        ensures drawn { AllDrawn F.closes self.old → AllDrawn F.closes self.new }
        ensures closed { AllClosed F.closes self.old → AllClosed F.closes self.new }
        ensures idle { AllWanted F.wants self.new }
    {
        let some_wanted = self.some_wanted();
        let mut moved = false;
        for i in 0..self.inputs {
            if self.want_one(i, some_wanted) {
                moved = true;
            }
        }
        moved
    }

    /// One turn, which sets no mark.
    #[tactic(auto, using(crate::proofs::NodeLemmas::step_refl, crate::proofs::NodeLemmas::step_trans))]
    pub(crate) fn work<R: Threads + Sync>(
        &mut self,
        rt: &R,
        alloc: Global,
        slices: u32,
    ) -> Result<Turned, NoMemory>
        requires slices { IsSlices slices }
        requires fit { Fit F.pads F.closes F.accepts self.old }
        ensures fit { Fit F.pads F.closes F.accepts self.new }
        ensures step { Step F.pads F.rest F.closes F.over self.old self.new }
        ensures few { (o : ℕ) → length (given_all self.new o).frames ≤ length (given_all self.old o).frames + 1 }
        ensures still { result ≡ Ok Turned.Idle → SameCores self.old self.new × NothingMoves self.old }
        ensures moved { result ≡ Ok Turned.Moved → moves self.old < moves self.new }
        ensures idle { result ≡ Ok Turned.Idle → IsIdle F.rest F.closes F.wants self.new }
    {
        let filled = self.fill_all(alloc)?;
        let flushed = self.flush_all(alloc)?;
        let offered = self.offer_all(alloc)?;
        let given = self.give_all(rt, alloc, slices)?;
        let closed = self.close_all();
        let asked = self.want_all();
        if some_of(filled, flushed, offered, given, closed, asked) {
            Ok(Turned::Moved)
        } else {
            Ok(Turned::Idle)
        }
    }
}
