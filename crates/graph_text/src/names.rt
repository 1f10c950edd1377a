//! Names of filters and of their instances.
ghost use Rattle.std.specs.Prelude.{◌≡◌, ◌≤◌, ◌<◌, ◌+◌, ◌^◌, ℕ, List, length, drop, IfOk};
ghost use Rattle.std.specs.Str.{IsCharBoundary};
ghost use Rattle.av_text.specs.Parts.{Skips};
ghost use Rattle.graph_text.specs.Grammar.{IsName, NoName, IsInstance, NoInstance};
ghost use Rattle.av_text.specs.Parts.{IsPlace};
ghost use Rattle.graph_text.specs.Reading.{FailsAt};
ghost use Rattle.av_base.specs.Failures.{IfFault};
ghost use Rattle.av_base.specs.declared.failure.Failure.{Failure};

use av_base::Text;
use av_text::{Class, TextError, TextFault, TextKind, skip_white, split_run};
use std::alloc::Global;

/// The fault of a kind at a place.
pub(crate) fn fault(place: usize, kind: TextKind) -> TextError
    requires { place < 2 ^ 32 }
    ensures { result ≡ Failure.Fault (record { at = place; kind = kind }) }
{
    let at = place as u32;
    TextError::Fault(TextFault { at, kind })
}

/// The name at a place, and the place after it.
pub(crate) fn read_name(alloc: Global, text: &str, place: usize) -> Result<(Text, usize), TextError>
    requires place { IsCharBoundary text.now place }
    requires length { length text.now < 2 ^ 32 }
    ensures name { IfOk result (λ t. IsName (drop place text.now) t.0 (drop t.1 text.now)) }
    ensures later { IfOk result (λ t. IsPlace text.now place t.1) }
    ensures fault { IfFault result (FailsAt NoName text.now place) }
{
    let (name, rest) = split_run(&text[place..], Class::Name);
    if name.is_empty() {
        return Err(fault(place, TextKind::ExpectedName));
    }
    let name = Text::new(String::from_str(alloc, name)?);
    Ok((name, text.len() - rest.len()))
}

/// The instance at a place, after an `@`, if there is one, and the place after it.
pub(crate) fn read_instance(
    alloc: Global,
    text: &str,
    place: usize,
) -> Result<(Option<Text>, usize), TextError>
    requires place { IsCharBoundary text.now place }
    requires length { length text.now < 2 ^ 32 }
    ensures instance { IfOk result (λ t. IsInstance (drop place text.now) t.0 (drop t.1 text.now)) }
    ensures later { IfOk result (λ t. IsPlace text.now place t.1) }
    ensures fault { IfFault result (FailsAt NoInstance text.now place) }
{
    let place = skip_white(text, place);
    if !text[place..].starts_with('@') {
        return Ok((None, place));
    }
    let named = skip_white(text, place + 1);
    let (name, end) = read_name(alloc, text, named)?;
    Ok((Some(name), end))
}
