//! The filters `split` and `asplit`: every output is the input.
ghost use Rattle.std.specs.Prelude.{◌≡◌, ◌<◌, ◌++◌, IfOk, OnOk};
ghost use Rattle.av_frame.specs.Rules.{later_row};
ghost use Rattle.av_frame.specs.FilterLaws.{IsNew, one_to};
ghost use Rattle.filt_fan.specs.Splits.{split_rule};

use av_base::{NoMemory, Shape};
use av_frame::{Each, Filter, Frame, PerFrame, Pools, Returned};
use std::alloc::Global;
use std::thread::Threads;

/// The filter `split`, which gives pictures on several outputs.
pub type Split = Each<ShareRule>;

/// The filter `asplit`, which gives sound on several outputs.
pub type Asplit = Each<ShareRule>;

/// Each frame is given on every output. Output 0 gets the frame itself, the others a share of it.
#[derive(Drop)]
pub struct ShareRule {
    shape: Shape,
    outputs: u32,
    pools: Pools,
    ghost some: { 0 < outputs },
}

/// Shares a frame for the outputs from 1 on, in order.
///
/// # Errors
/// Out of memory.
fn share_all(
    alloc: Global,
    pools: &mut Pools,
    frame: &mut Frame,
    outputs: u32,
    others: &mut Vec<Frame>,
) -> Result<(), NoMemory>
    requires { 0 < outputs }
    ensures shares { OnOk result (others.new.items ≡ others.old.items ++ later_row (λ _ x. x) outputs frame.old) }
    ensures same { frame.new ≡ frame.old }
{
    for _ in 1..outputs {
        let share = frame.share(alloc, pools)?;
        others.push(share)?;
    }
    Ok(())
}

impl PerFrame for ShareRule {
    ghost use Rattle.std.proofs.Common.{refl};

    ghost outputs = { λ k. k.outputs };

    ghost shape = { λ k. k.shape };

    ghost out_shape = { λ k o. k.shape };

    ghost made = { λ k o x. x };

    ghost some = { λ k. k.some };

    ghost keeps = { λ k o x h. record { pts = refl; duration = refl } };

    ghost shaped = { λ k o x h e. e };

    fn make<R: Threads + Sync>(
        &mut self,
        _rt: &R,
        alloc: Global,
        _slices: u32,
        frame: Frame,
        others: &mut Vec<Frame>,
    ) -> Result<Frame, Returned> {
        let mut frame = frame;
        match share_all(alloc, &mut self.pools, &mut frame, self.outputs, others) {
            Ok(()) => Ok(frame),
            Err(_) => Err(Returned { frame }),
        }
    }
}

/// A new `split` or `asplit` with this many outputs, at least one, for frames of a shape.
///
/// # Errors
/// Out of memory.
pub fn split(alloc: Global, shape: Shape, outputs: u32) -> Result<Split, NoMemory>
    requires { 0 < outputs }
    ensures { IfOk result (λ f. IsNew (⟦<Split as Filter>⟧.pads f) (⟦<Split as Filter>⟧.rest f) (⟦<Split as Filter>⟧.accepts f) (one_to outputs) split_rule (λ _. shape) (λ _. shape)) }
{
    let pools = Pools::new(alloc)?;
    let rule = ShareRule {
        shape,
        outputs,
        pools,
    };
    let each = Each::new(alloc, rule, outputs)?;
    Ok(each)
}
