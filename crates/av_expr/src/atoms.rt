//! Numbers and names, and what is between them.
ghost use Rattle.std.specs.Prelude.{◌≡◌, ◌≤◌, ◌<◌, ◌+◌, ◌*◌, ◌^◌, ℕ, pos, length, drop, slice_range, IfOk, IfSome, IsNone};
ghost use Rattle.std.specs.Str.{IsCharBoundary};
ghost use Rattle.std.specs.Str.Parse.{AllDigits, digits_value};
ghost use Rattle.av_text.specs.Classes.{is_digit, is_name, Stops, IsRun};
ghost use Rattle.av_expr.specs.Fractions.{IsReduced};
ghost use Rattle.av_text.specs.Parts.{Skips, Lacks};
ghost use Rattle.av_expr.specs.Parts.{IsMark};
ghost use Rattle.av_expr.specs.Grammar.{IsNineteenth, NoDigits, IsNumber, NoNumber, IsAllowed, IsVariable, NoVariable};
ghost use Rattle.av_text.specs.Parts.{IsPlace};
ghost use Rattle.av_expr.specs.Reading.{FailsAt, BeginsNumber, BeginsName};
ghost use Rattle.av_expr.specs.declared.vars.Var.{Var};
ghost use Rattle.av_base.specs.Failures.{IfFault};
ghost use Rattle.av_base.specs.declared.failure.Failure.{Failure};

use crate::fault::{ExprError, ExprFault, ExprKind};
use crate::fraction::{Fraction, reduce_small};
use crate::vars::{Var, VarSet};
use av_text::{Class, skip_white, split_run};

/// The greatest number of digits on each side of a point.
const MOST: usize = 18;

/// The fault of a kind at a place.
pub(crate) fn fault(place: usize, kind: ExprKind) -> ExprError
    requires { place < 2 ^ 32 }
    ensures { result ≡ Failure.Fault (record { at = place; kind = kind }) }
{
    let at = place as u32;
    ExprError::Fault(ExprFault { at, kind })
}

/// The number that digits write.
fn digits_number(digits: &[u8]) -> u64
    requires digits { AllDigits 10 digits.now }
    requires few { length digits.now ≤ 18 }
    ensures number { result ≡ digits_value 10 digits.now }
    ensures small { result < 10 ^ 18 }
{
    let mut value = 0u64;
    for byte in digits {
        value = value * 10 + u64::from(*byte - b'0');
    }
    value
}

/// The fraction that the digits before and after a point write.
fn decimal(digits: &[u8], part: &[u8]) -> Fraction
    requires digits { AllDigits 10 digits.now }
    requires few { length digits.now ≤ 18 }
    requires part { AllDigits 10 part.now }
    requires few_after { length part.now ≤ 18 }
    ensures { IsReduced (pos (digits_value 10 digits.now * 10 ^ length part.now + digits_value 10 part.now)) (pos (10 ^ length part.now)) result }
{
    let scale = 10u128.pow(part.len() as u32);
    reduce_small(
        u128::from(digits_number(digits)) * scale + u128::from(digits_number(part)),
        scale,
    )
}

/// The place after the digits at a place, of which there are at most 18.
fn read_digits(text: &str, place: usize) -> Result<usize, ExprError>
    requires place { IsCharBoundary text.now place }
    requires length { length text.now < 2 ^ 32 }
    ensures digits { IfOk result (λ end. IsRun is_digit (drop place text.now) (slice_range text.now place end) (drop end text.now)) }
    ensures few { IfOk result (λ end. end ≤ place + 18) }
    ensures later { IfOk result (IsPlace text.now place) }
    ensures fault { IfFault result (FailsAt IsNineteenth text.now place) }
{
    let (digits, rest) = split_run(&text[place..], Class::Digit);
    if digits.len() > MOST {
        return Err(fault(place + MOST, ExprKind::Syntax));
    }
    Ok(text.len() - rest.len())
}

/// The place after the digits at a place, of which there are 1 to 18.
fn read_part(text: &str, place: usize) -> Result<usize, ExprError>
    requires place { IsCharBoundary text.now place }
    requires length { length text.now < 2 ^ 32 }
    ensures digits { IfOk result (λ end. IsRun is_digit (drop place text.now) (slice_range text.now place end) (drop end text.now)) }
    ensures few { IfOk result (λ end. (place < end) × (end ≤ place + 18)) }
    ensures later { IfOk result (IsPlace text.now place) }
    ensures fault { IfFault result (FailsAt NoDigits text.now place) }
{
    let end = read_digits(text, place)?;
    if end == place {
        return Err(fault(place, ExprKind::Syntax));
    }
    Ok(end)
}

/// The number at a place, and the place after it.
pub(crate) fn read_number(text: &str, place: usize) -> Result<(Fraction, usize), ExprError>
    requires place { IsCharBoundary text.now place }
    requires length { length text.now < 2 ^ 32 }
    requires begins { BeginsNumber (drop place text.now) }
    ensures number { IfOk result (λ t. IsNumber (drop place text.now) t.0 (drop t.1 text.now)) }
    ensures later { IfOk result (λ t. IsPlace text.now place t.1) }
    ensures fault { IfFault result (FailsAt NoNumber text.now place) }
{
    let end = read_digits(text, place)?;
    let digits = text[place..end].as_bytes();
    if !text[end..].starts_with('.') {
        let num = i128::from(digits_number(digits));
        return Ok((Fraction { num, den: 1 }, skip_white(text, end)));
    }
    let start = end + 1;
    let end = read_part(text, start)?;
    let part = text[start..end].as_bytes();
    Ok((decimal(digits, part), skip_white(text, end)))
}

/// The variable that a name spells, if it is allowed.
fn allowed_variable(name: &str, allowed: VarSet) -> Option<Var>
    ensures variable { IfSome result (IsAllowed allowed name.now) }
    ensures none { IsNone result → (x : Var) → ¬ IsAllowed allowed name.now x }
{
    let var = Var::named(name)?;
    if allowed.has(var) { Some(var) } else { None }
}

/// The variable whose name is at a place, and the place after it.
pub(crate) fn read_variable(
    text: &str,
    place: usize,
    allowed: VarSet,
) -> Result<(Var, usize), ExprError>
    requires place { IsCharBoundary text.now place }
    requires length { length text.now < 2 ^ 32 }
    requires begins { BeginsName (drop place text.now) }
    ensures variable { IfOk result (λ t. IsVariable allowed (drop place text.now) t.0 (drop t.1 text.now)) }
    ensures later { IfOk result (λ t. IsPlace text.now place t.1) }
    ensures fault { IfFault result (FailsAt (NoVariable allowed) text.now place) }
{
    let (name, rest) = split_run(&text[place..], Class::Name);
    match allowed_variable(name, allowed) {
        Some(var) => Ok((var, skip_white(text, text.len() - rest.len()))),
        None => Err(fault(place, ExprKind::UnknownName)),
    }
}
