//! Filters.
ghost use Rattle.std.specs.Prelude.{◌≡◌, ◌≤◌, ◌<◌, ◌+◌, ◌^◌, ℕ, List, length, drop, IfOk};
ghost use Rattle.std.specs.Str.{IsCharBoundary};
ghost use Rattle.graph_text.specs.Grammar.{IsFilter, NoFilter};
ghost use Rattle.av_text.specs.Parts.{IsPlace};
ghost use Rattle.graph_text.specs.Reading.{FailsAt};
ghost use Rattle.av_base.specs.Failures.{IfFault};

use crate::FilterCall;
use crate::arguments::read_arguments;
use crate::labels::read_labels;
use crate::names::{read_instance, read_name};
use av_text::TextError;
use std::alloc::Global;

/// The filter at a place, in this chain, and the place after it.
pub(crate) fn read_filter(
    alloc: Global,
    text: &str,
    place: usize,
    chain: u32,
) -> Result<(FilterCall, usize), TextError>
    requires place { IsCharBoundary text.now place }
    requires length { length text.now < 2 ^ 32 }
    ensures call { IfOk result (λ t. IsFilter (length text.now) chain (drop place text.now) t.0 (drop t.1 text.now)) }
    ensures later { IfOk result (λ t. IsPlace text.now place t.1) }
    ensures fault { IfFault result (FailsAt NoFilter text.now place) }
{
    let (ins, named) = read_labels(alloc, text, place)?;
    let (name, end) = read_name(alloc, text, named)?;
    let (instance, end) = read_instance(alloc, text, end)?;
    let (args, end) = read_arguments(alloc, text, end)?;
    let (outs, end) = read_labels(alloc, text, end)?;
    let at = named as u32;
    Ok((
        FilterCall {
            name,
            instance,
            args,
            ins,
            outs,
            at,
            chain,
        },
        end,
    ))
}
