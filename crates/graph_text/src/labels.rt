//! Labels.
ghost use Rattle.std.specs.Prelude.{◌≡◌, ◌≤◌, ◌<◌, ◌+◌, ◌^◌, ◌∷◌, ℕ, List, length, drop, IfOk, IfSome, IsNone};
ghost use Rattle.std.specs.Str.{IsUtf8, IsCharBoundary};
ghost use Rattle.graph_text.specs.Grammar.{IsLabel, AreLabels, NoLabels};
ghost use Rattle.av_text.specs.Parts.{IsPlace};
ghost use Rattle.graph_text.specs.Reading.{FailsAt};
ghost use Rattle.av_base.specs.Failures.{IfFault};

use crate::names::fault;
use av_base::{List, Text};
use av_text::{Class, TextError, TextKind, skip_white, split_run};
use std::alloc::Global;

/// The name of the label that a text begins with, and the text after it.
fn split_label(text: &str) -> Option<(&str, &str)>
    ensures label { IfSome result (λ p. IsLabel text.now p.0.now p.1.now) }
    ensures none { IsNone result → (name rest : List ℕ) → IsLabel text.now name rest → ⊥ }
    ensures utf8 { IfSome result (λ p. IsUtf8 p.1.now) }
{
    let (_, named) = split_run(text.strip_prefix('[')?, Class::White);
    let (name, behind) = split_run(named, Class::Label);
    if name.is_empty() {
        return None;
    }
    let (_, closed) = split_run(behind, Class::White);
    match closed.strip_prefix(']') {
        Some(rest) => Some((name, rest)),
        None => None,
    }
}

/// The labels at a place, and the place after them.
pub(crate) fn read_labels(
    alloc: Global,
    text: &str,
    start: usize,
) -> Result<(List<Text>, usize), TextError>
    requires start { IsCharBoundary text.now start }
    requires length { length text.now < 2 ^ 32 }
    ensures labels { IfOk result (λ t. AreLabels (drop start text.now) t.0 (drop t.1 text.now)) }
    ensures later { IfOk result (λ t. IsPlace text.now start t.1) }
    ensures fault { IfFault result (FailsAt NoLabels text.now start) }
{
    let mut labels = Vec::new(alloc);
    let mut place = skip_white(text, start);
    'labels: while text[place..].starts_with('[') {
        let Some((name, rest)) = split_label(&text[place..]) else {
            return Err(fault(place, TextKind::BadLabel));
        };
        labels.push(Text::new(String::from_str(alloc, name)?))?;
        place = skip_white(text, text.len() - rest.len());
    }
    Ok((List::new(labels), place))
}
