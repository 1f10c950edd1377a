//! The filter `vflip`: pictures are turned upside down.
use av_filter::{Framewise, Plain, PlainRule};
use av_frame::{Frame, Pools, Returned};
use std::alloc::Global;

/// The filter `vflip`. It has no options.
pub type Vflip = Framewise<Plain<VflipRule>>;

/// The sample in row r is that of row h - 1 - r in the same plane and column.
#[derive(Clone, Copy, Drop)]
pub struct VflipRule;

impl PlainRule for VflipRule {
    ghost use Rattle.std.specs.Prelude.{codes, refl};
    ghost use Rattle.av_frame.specs.Pictures.{repainted, repainted_keeps};
    ghost use Rattle.filt_video.specs.Vflip.{vflipped};

    ghost name = { codes "vflip" };

    ghost only = { record {} };

    ghost made = { repainted vflipped };

    fn is_named(word: &str) -> bool {
        word == "vflip"
    }

    fn new() -> VflipRule {
        VflipRule
    }

    fn remake(_alloc: Global, _pools: &mut Pools, frame: Frame) -> Result<Frame, Returned> {
        Ok(frame.upside_down())
    }

    ghost keeps = { repainted_keeps vflipped };

    ghost shaped = { λ x. refl };
}
