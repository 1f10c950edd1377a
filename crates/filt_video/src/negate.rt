//! The filter `negate`: the samples of Y, U and V are negated.
ghost use Rattle.std.specs.Prelude.{◌≡◌, ◌<◌, ◌-◌, ℕ, length, slice_index};

use av_filter::{Framewise, Plain, PlainRule, map_frame};
use av_frame::{Frame, Pools, Returned, RowMap};
use std::alloc::Global;

/// The filter `negate`. It has no options.
pub type Negate = Framewise<Plain<NegateRule>>;

/// The number of plane A.
const ALPHA: u32 = 3;

/// Replaces each sample by 255 less it.
fn negate_all(row: &mut [u8])
    ensures { (c : ℕ) → c < length row.old → slice_index row.new c ≡ 255 - slice_index row.old c }
{
    for sample in row.iter_mut() {
        *sample = 255 - *sample;
    }
}

/// Each sample is 255 less the one in its place; in A it is that one.
#[derive(Clone, Copy, Drop)]
pub struct NegateRule;

impl RowMap for NegateRule {
    ghost use Rattle.std.specs.Prelude.{◌-◌, ◌==◌, slice_index, if◌then◌else◌};

    ghost value = { λ map p row c. if p == 3 then slice_index row c else 255 - slice_index row c };

    fn map_row(&self, plane: u32, row: &mut [u8]) {
        if plane == ALPHA {
            return;
        }
        negate_all(row);
    }
}

impl PlainRule for NegateRule {
    ghost use Rattle.std.specs.Prelude.{codes, refl};
    ghost use Rattle.av_frame.specs.Pictures.{repainted, repainted_keeps};
    ghost use Rattle.filt_video.specs.Negate.{negated};

    ghost name = { codes "negate" };

    ghost only = { record {} };

    ghost made = { repainted negated };

    fn is_named(word: &str) -> bool {
        word == "negate"
    }

    fn new() -> NegateRule {
        NegateRule
    }

    fn remake(alloc: Global, pools: &mut Pools, frame: Frame) -> Result<Frame, Returned> {
        map_frame(alloc, pools, frame, &NegateRule)
    }

    ghost keeps = { repainted_keeps negated };

    ghost shaped = { λ x. refl };
}
