//! The faults of a command line that has none at a word.
ghost use Rattle.std.specs.Prelude.{◌≡◌, ℕ, length, filter, IfOk};
ghost use Rattle.av_words.specs.declared.word_roles.Role.TheVariants.{Value};
ghost use Rattle.av_words.specs.declared.word_roles.Valued.TheVariants.{Graph};
ghost use Rattle.av_words.specs.WordRoles.{line_of};
ghost use Rattle.av_words.specs.WordFaults.{IsLast, names_input, names_output, is_input, is_output, IsFirstFault};
ghost use Rattle.av_words.specs.WordChecks.{HasNoneAt};
ghost use Rattle.av_words.specs.CommandWords.{IsFaultless};
ghost use Rattle.av_base.specs.Failures.{IfFault};
ghost use Rattle.av_faults.specs.declared.fault.Fault.TheVariants.{Limit};

use crate::word_faults::WordError;
use crate::word_roles::{Item, Role, Valued, last_of, last_value};
use av_faults::{Fault, LimitKind};

/// The greatest number of inputs (`most_inputs`).
const INPUTS_MAX: usize = 32;

/// The greatest number of output files (`most_outputs`).
const OUTPUTS_MAX: usize = 32;

/// The greatest number of bytes of a graph text (`greatest_text`).
const TEXT_MAX: usize = 65_536;

/// Whether the word names an input.
fn names_input(role: Role) -> bool
    ensures { result ≡ names_input role }
{
    matches!(role, Role::Value(Valued::Input | Valued::Generator))
}

/// Whether the word names an output file.
fn names_output(role: Role) -> bool
    ensures { result ≡ names_output role }
{
    matches!(role, Role::File)
}

/// The number of inputs.
fn count_inputs(items: &[Item]) -> usize
    ensures { result ≡ length (filter is_input (line_of items.now)) }
{
    let mut count = 0;
    'items: for item in items {
        if names_input(item.role) {
            count += 1;
        }
    }
    count
}

/// The number of output files.
fn count_outputs(items: &[Item]) -> usize
    ensures { result ≡ length (filter is_output (line_of items.now)) }
{
    let mut count = 0;
    'items: for item in items {
        if names_output(item.role) {
            count += 1;
        }
    }
    count
}

/// The fault of a quantity that is past its limit.
fn limit(kind: LimitKind, most: usize) -> Fault
    ensures { result ≡ Limit kind 0 most }
{
    Fault::Limit {
        kind,
        which: 0,
        allowed: most as u64,
    }
}

/// The graph text of words without a fault.
pub(crate) fn text_of<'a>(items: &[Item<'a>]) -> Result<&'a str, WordError>
    requires { (n : ℕ) → HasNoneAt (line_of items.now) n }
    ensures text { IfOk result (λ text. (at : ℕ) × IsLast (line_of items.now) (Value Graph) at text.now) }
    ensures none { IfOk result (λ _. IsFaultless (line_of items.now)) }
    ensures fault { IfFault result (IsFirstFault (line_of items.now)) }
{
    let Some(text) = last_value(items, Valued::Graph) else {
        return Err(WordError::Fault(Fault::NoGraph));
    };
    if last_of(items, Role::File).is_none() {
        return Err(WordError::Fault(Fault::NoOutput));
    }
    if count_inputs(items) > INPUTS_MAX {
        return Err(WordError::Fault(limit(LimitKind::Inputs, INPUTS_MAX)));
    }
    if count_outputs(items) > OUTPUTS_MAX {
        return Err(WordError::Fault(limit(LimitKind::Outputs, OUTPUTS_MAX)));
    }
    if text.len() > TEXT_MAX {
        return Err(WordError::Fault(limit(LimitKind::Text, TEXT_MAX)));
    }
    Ok(text)
}
