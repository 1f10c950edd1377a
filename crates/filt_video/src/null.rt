//! The filter `null`: pictures pass as they are.
use av_filter::{Framewise, Plain, PlainRule};
use av_frame::{Frame, Pools, Returned};
use std::alloc::Global;

/// The filter `null`. It has no options.
pub type Null = Framewise<Plain<NullRule>>;

/// Each frame is passed as it is.
#[derive(Clone, Copy, Drop)]
pub struct NullRule;

impl PlainRule for NullRule {
    ghost use Rattle.std.specs.Prelude.{codes, refl};

    ghost name = { codes "null" };

    ghost only = { record {} };

    ghost made = { λ x. x };

    fn is_named(word: &str) -> bool {
        word == "null"
    }

    fn new() -> NullRule {
        NullRule
    }

    fn remake(_alloc: Global, _pools: &mut Pools, frame: Frame) -> Result<Frame, Returned> {
        Ok(frame)
    }

    ghost keeps = { λ x. record { pts = refl; duration = refl } };

    ghost shaped = { λ x. refl };
}
