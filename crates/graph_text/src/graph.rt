//! Whole texts.
ghost use Rattle.std.specs.Prelude.{◌≡◌, ◌≤◌, ◌<◌, ◌+◌, ◌^◌, ℕ, List, length, drop, IfOk};
ghost use Rattle.std.specs.Str.{IsCharBoundary};
ghost use Rattle.av_text.specs.Faults.{IsFaultAt};
ghost use Rattle.av_text.specs.declared.fault.TextKind.{TextKind};
ghost use Rattle.std.specs.List.{AllByRecursion};
ghost use Rattle.graph_text.specs.Graphs.{IsStray, IsBody, NoBody, IsGraph, IsGraphFault};
ghost use Rattle.av_text.specs.Parts.{IsPlace};
ghost use Rattle.graph_text.specs.Reading.{FailsAt, IsNext};
ghost use Rattle.graph_text.specs.declared.graph.FilterCall.{FilterCall};
ghost use Rattle.av_base.specs.Failures.{IfFault, Gives, Refuses};

use crate::filter::read_filter;
use crate::names::fault;
use av_base::{List, Text};
use av_text::{Arg, TextError, TextKind, skip_white};
use std::alloc::Global;

/// A call of a filter.
#[derive(Drop)]
pub struct FilterCall {
    /// The filter's name.
    pub name: Text,
    /// The name of its instance, after an `@`.
    pub instance: Option<Text>,
    /// Its arguments, after a `=`.
    pub args: List<Arg>,
    /// The labels before it, which name its first inputs.
    pub ins: List<Text>,
    /// The labels after it, which name its first outputs.
    pub outs: List<Text>,
    /// The byte of the text at which its name begins.
    pub at: u32,
    /// The number of its chain, counted from 0.
    pub chain: u32,
}

/// The filters that a text calls.
#[derive(Drop)]
pub struct GraphText {
    /// The calls, in the order of the text.
    pub calls: List<FilterCall>,
}

/// What begins a text that says flags of the scaler.
const FLAGS: &str = "sws_flags=";

/// The place at which the chains of a text begin.
fn find_body(text: &str) -> Result<usize, TextError>
    requires { length text.now < 2 ^ 32 }
    ensures body { IfOk result (λ place. IsBody text.now (drop place text.now)) }
    ensures later { IfOk result (IsPlace text.now 0) }
    ensures fault { IfFault result (FailsAt NoBody text.now 0) }
{
    let start = skip_white(text, 0);
    let Some(flags) = text[start..].strip_prefix(FLAGS) else {
        return Ok(0);
    };
    match flags.split_once(';') {
        Some((_, body)) => Ok(text.len() - body.len()),
        None => Err(fault(text.len(), TextKind::ExpectedName)),
    }
}

/// The chain of the filter after the one that ends at a place; none if the text ends there.
fn chain_after(text: &str, place: usize, chain: u32) -> Result<Option<u32>, TextError>
    requires within { place ≤ length text.now }
    requires length { length text.now < 2 ^ 32 }
    requires chain { chain ≤ place }
    ensures next { IfOk result (IsNext (drop place text.now) chain) }
    ensures stray { IfFault result (λ f. IsStray (drop place text.now) × (f.kind ≡ TextKind.Stray) × (f.at ≡ place)) }
{
    match text.as_bytes().get(place) {
        None => Ok(None),
        Some(b',') => Ok(Some(chain)),
        Some(b';') => Ok(Some(chain + 1)),
        Some(_) => Err(fault(place, TextKind::Stray)),
    }
}

/// The filters that a text calls.
///
/// Chains are joined by `;` and the filters of a chain by `,`. A filter is labels, a name, an instance after an `@`,
/// arguments after a `=`, and labels, of which all but the name may be missing. White space may be between all
/// parts. What `sws_flags=` and the first `;` enclose at the beginning is skipped. The text has fewer than 2^32 bytes.
/// (FFmpeg Filters Documentation, "Filtergraph syntax".)
///
/// # Errors
/// The first in reading order of these: `ExpectedName` at a place at which a name must begin and none does, or at the
/// end if `sws_flags=` has no `;`; `BadLabel` at a `[` that begins no label; `Stray` at what follows a whole filter and is
/// neither `,` nor `;` nor the end; `UnclosedQuote` and `LoneEscape` of arguments at their byte, or at the first byte of
/// the arguments if only an argument's own quoting has the fault. Or out of memory.
pub fn parse(alloc: Global, text: &str) -> Result<GraphText, TextError>
    requires { length text.now < 2 ^ 32 }
    ensures graph { IfOk result (λ g. IsGraph text.now g.calls) }
    // A filter has no more arguments than the text has bytes.
    ensures few { IfOk result (λ g. AllByRecursion (λ call. length call.args < 2 ^ 32) g.calls) }
    // What has a reading isn't refused, and has no other.
    ensures reads { (calls : List FilterCall) → IsGraph text.now calls → Gives (λ g. g.calls ≡ calls) result }
    ensures fault { IfFault result (λ f. (bad : List ℕ) × IsGraphFault text.now f.kind bad × (f.at + length bad ≡ length text.now)) }
    // What has a fault isn't read, and has no other.
    ensures faulty { (kind : TextKind) (bad : List ℕ) → IsGraphFault text.now kind bad → Refuses (IsFaultAt text.now kind bad) result }
{
    let mut calls = Vec::new(alloc);
    let mut place = find_body(text)?;
    let mut chain = 0;
    'calls: loop {
        let (call, end) = read_filter(alloc, text, place, chain)?;
        calls.push(call)?;
        match chain_after(text, end, chain)? {
            Some(next) => chain = next,
            None => break,
        }
        place = end + 1;
    }
    let calls = List::new(calls);
    Ok(GraphText { calls })
}
