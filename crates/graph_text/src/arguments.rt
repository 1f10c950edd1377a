//! Arguments of filters, at both levels of escaping.
ghost use Rattle.std.specs.Prelude.{◌≡◌, ◌≤◌, ◌<◌, ◌+◌, ◌^◌, ℕ, List, length, drop, IfOk};
ghost use Rattle.std.specs.Str.{IsCharBoundary};
ghost use Rattle.graph_text.specs.Grammar.{AreArguments, NoArguments};
ghost use Rattle.av_text.specs.Parts.{IsPlace};
ghost use Rattle.graph_text.specs.Reading.{FailsAt};
ghost use Rattle.av_base.specs.Failures.{IfFault};

use crate::names::fault;
use av_base::List;
use av_text::{Arg, TextError, next_token, skip_white, split_args};
use std::alloc::Global;

/// What ends a filter's arguments.
const ENDS: &[u8] = b"[],;";

/// The arguments at a place, after a `=`, if there are any, and the place after them.
pub(crate) fn read_arguments(
    alloc: Global,
    text: &str,
    place: usize,
) -> Result<(List<Arg>, usize), TextError>
    requires place { IsCharBoundary text.now place }
    requires length { length text.now < 2 ^ 32 }
    ensures args { IfOk result (λ t. AreArguments (drop place text.now) t.0 (drop t.1 text.now)) }
    ensures later { IfOk result (λ t. IsPlace text.now place t.1) }
    ensures fault { IfFault result (FailsAt NoArguments text.now place) }
{
    let place = skip_white(text, place);
    if !text[place..].starts_with('=') {
        return Ok((List::new(Vec::new(alloc)), place));
    }
    let start = skip_white(text, place + 1);
    let (token, end) = next_token(alloc, text, start, ENDS)?;
    match split_args(alloc, token.as_str()) {
        Ok(args) => Ok((args, end)),
        Err(TextError::Fault(inner)) => Err(fault(start, inner.kind)),
        Err(TextError::NoMemory) => Err(TextError::NoMemory),
    }
}
