//! A small filter that works frame by frame: on output 0 a card of one grey in place of each frame, and on output 1 the
//! frame. It holds an `Each`, as all such filters do.
ghost use Rattle.std.specs.Prelude.{◌≡◌, ℕ, ◌≤◌, IfOk};
ghost use Rattle.av_base.specs.Shapes.{columns_of, IsWithinLimits};
ghost use Rattle.av_frame.specs.FilterLaws.{IsNew, one_to};
ghost use Rattle.av_frame.specs.Rules.{each_rule};
ghost use Rattle.av_frame_tests.specs.SmallFilters.{card, card_made};

use av_base::{NoMemory, Shape};
use av_frame::{Each, Edit, Filter, Frame, Given, Kernel, PerFrame, Pools, Returned, paint};
use std::alloc::Global;
use std::thread::Threads;

/// Every sample is 200.
#[derive(Clone, Copy, Drop)]
struct Grey;

impl Kernel for Grey {
    ghost fits = { λ k sources plane row column. Unit {0} };

    ghost value = { λ k sources plane row column. 200 };

    fn at(&self, _sources: &mut [Frame], _plane: u32, _row: u32, _column: u32) -> i32 {
        200
    }
}

/// The card that stands for a frame.
fn card_of(alloc: Global, pools: &mut Pools, frame: &Frame) -> Result<Frame, NoMemory>
    requires limits { IsWithinLimits frame.now.shape }
    requires narrow { (p : ℕ) → columns_of frame.now.shape p ≤ 8 }
    ensures { IfOk result (λ f. f ≡ card frame.now) }
{
    let mut edit = Edit::blank(alloc, pools, frame.shape(), 0)?;
    let pts = frame.pts();
    let duration = frame.duration();
    paint(&mut edit, &Grey, &mut []);
    Ok(edit.seal(pts, duration))
}

/// A card in place of each frame, and the frame beside it.
#[derive(Drop)]
struct Cards {
    pools: Pools,
    shape: Shape,
    ghost limits: { IsWithinLimits shape },
    ghost narrow: { (p : ℕ) → columns_of shape p ≤ 8 },
}

impl PerFrame for Cards {
    ghost use Rattle.av_frame_tests.specs.SmallFilters.{card_made};
    ghost use Rattle.av_frame_tests.specs.SmallFilterLaws.{card_some, card_keeps, card_shaped};

    ghost outputs = { λ k. 2 };

    ghost shape = { λ k. k.shape };

    ghost out_shape = { λ k o. k.shape };

    ghost made = { λ k. card_made };

    ghost some = { λ k. card_some };

    ghost keeps = { λ k o x h. card_keeps o x };

    ghost shaped = { λ k o x h e. card_shaped o x k.shape e };

    fn make<R: Threads + Sync>(
        &mut self,
        _rt: &R,
        alloc: Global,
        _slices: u32,
        frame: Frame,
        others: &mut Vec<Frame>,
    ) -> Result<Frame, Returned> {
        let Ok(card) = card_of(alloc, &mut self.pools, &frame) else {
            return Err(Returned { frame });
        };
        others.push(frame)?;
        Ok(card)
    }
}

/// Cards and frames.
#[derive(Drop)]
pub struct Carded {
    cards: Each<Cards>,
}

impl Carded {
    /// A new one, for frames of this shape.
    pub fn new(alloc: Global, pools: Pools, shape: Shape) -> Result<Carded, NoMemory>
        requires limits { IsWithinLimits shape }
        requires narrow { (p : ℕ) → columns_of shape p ≤ 8 }
        ensures { IfOk result (λ f. IsNew (⟦<Carded as Filter>⟧.pads f) (⟦<Carded as Filter>⟧.rest f) (⟦<Carded as Filter>⟧.accepts f) (one_to 2) (each_rule card_made) (λ _. shape) (λ _. shape)) }
    {
        let cards = Each::new(alloc, Cards { pools, shape }, 2)?;
        Ok(Carded { cards })
    }
}

impl Filter for Carded {
    ghost use Rattle.av_frame.specs.EachLaws.{each_laws};
    ghost use Rattle.av_frame_tests.specs.SmallFilters.{card_made};
    ghost use Rattle.av_frame_tests.specs.SmallFilterLaws.{card_some};

    ghost pads = { λ f. ⟦<Each<Cards> as Filter>⟧.pads f.cards };

    ghost rest = { λ f. ⟦<Each<Cards> as Filter>⟧.rest f.cards };

    ghost accepts = { λ f. ⟦<Each<Cards> as Filter>⟧.accepts f.cards };

    ghost closes = { λ f. ⟦<Each<Cards> as Filter>⟧.closes f.cards };

    ghost wants = { λ f. ⟦<Each<Cards> as Filter>⟧.wants f.cards };

    ghost over = { λ f. ⟦<Each<Cards> as Filter>⟧.over f.cards };

    ghost laws = { λ f. each_laws 2 card_made f.cards card_some };

    fn offer(&mut self, alloc: Global, input: u32, frame: Frame) -> Result<(), Returned> {
        self.cards.offer(alloc, input, frame)
    }

    fn finish(&mut self, input: u32) {
        self.cards.finish(input);
    }

    fn give<R: Threads + Sync>(
        &mut self,
        rt: &R,
        alloc: Global,
        slices: u32,
        output: u32,
    ) -> Result<Given, NoMemory> {
        self.cards.give(rt, alloc, slices, output)
    }

    fn needs(&self, input: u32) -> bool {
        self.cards.needs(input)
    }

    fn closed(&self, input: u32) -> bool {
        self.cards.closed(input)
    }
}
