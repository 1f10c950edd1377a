//! The filter `hflip`: pictures are turned from left to right.
use av_filter::{Framewise, Plain, PlainRule, map_frame};
use av_frame::{Frame, Pools, Returned, RowMap};
use std::alloc::Global;

/// The filter `hflip`. It has no options.
pub type Hflip = Framewise<Plain<HflipRule>>;

/// The sample in column c is that of column w - 1 - c in the same plane and row.
#[derive(Clone, Copy, Drop)]
pub struct HflipRule;

impl RowMap for HflipRule {
    ghost use Rattle.std.specs.Prelude.{◌-◌, length, slice_index};

    ghost value = { λ map p row c. slice_index row ((length row - 1) - c) };

    fn map_row(&self, _plane: u32, row: &mut [u8]) {
        row.reverse();
    }
}

impl PlainRule for HflipRule {
    ghost use Rattle.std.specs.Prelude.{codes, refl};
    ghost use Rattle.av_frame.specs.Pictures.{repainted, repainted_keeps};
    ghost use Rattle.filt_video.specs.Hflip.{hflipped};

    ghost name = { codes "hflip" };

    ghost only = { record {} };

    ghost made = { repainted hflipped };

    fn is_named(word: &str) -> bool {
        word == "hflip"
    }

    fn new() -> HflipRule {
        HflipRule
    }

    fn remake(alloc: Global, pools: &mut Pools, frame: Frame) -> Result<Frame, Returned> {
        map_frame(alloc, pools, frame, &HflipRule)
    }

    ghost keeps = { repainted_keeps hflipped };

    ghost shaped = { λ x. refl };
}
