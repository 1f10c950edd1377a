//! Times.
ghost use Rattle.std.specs.Prelude.{◌≡◌, ◌<◌, ◌+◌, ◌*◌, ◌^◌, ◌++◌, ◌⊎◌, ℕ, ℤ, List, Some, IfSome, IsSomeAnd};
ghost use Rattle.av_text.specs.Classes.{is_digit, Stops};
ghost use Rattle.std.specs.Str.Parse.{AllDigits};
ghost use Rattle.av_text.specs.Times.{IsTime, IsClock, IsAmount, IsUnit, micros as micros_of};
ghost use Rattle.av_text.specs.NumberParts.{BeginsFraction, EndsFraction, IsSixtieth, IsClockOf};

use crate::Class;
use crate::classes::split_bytes;
use crate::numbers::{number, signed, split_sign};

/// A part of a unit: `num` parts of `scale`.
#[derive(Clone, Copy)]
struct Part {
    num: u64,
    scale: u64,
}

/// The point and the digits that a text begins with, if it does, and the text after them.
fn split_part(text: &[u8]) -> Option<(Part, &[u8])>
    ensures found { IfSome result (λ p. BeginsFraction text.now p.0.num p.0.scale p.1.now) }
    ensures only { (part scale : ℕ) (rest : List ℕ) → BeginsFraction text.now part scale rest → EndsFraction rest
        → IsSomeAnd result (λ p. (p.0.num ≡ part) × (p.0.scale ≡ scale) × (p.1.now ≡ rest)) }
    ensures less { IfSome result (λ p. p.0.num < p.0.scale) }
{
    match text {
        [b'.', tail @ ..] => {
            let (digits, rest) = split_bytes(tail, Class::Digit);
            let num = number(digits, 1, 18)?;
            let scale = 10u64.pow(digits.len() as u32);
            Some((Part { num, scale }, rest))
        }
        _ => Some((Part { num: 0, scale: 1 }, text)),
    }
}

/// The microseconds in whole units and a part of one, if a unit has `unit` microseconds.
fn micros(unit: u64, whole: u64, part: Part) -> u64
    requires less { part.num < part.scale }
    requires fits { whole * unit + unit < 2 ^ 63 }
    ensures value { result ≡ micros_of unit whole part.num part.scale }
    ensures fits { result < 2 ^ 63 }
{
    let behind = u128::from(part.num) * u128::from(unit) / u128::from(part.scale);
    whole * unit + behind as u64
}

/// A number of two digits below 60.
fn sixtieth(text: &[u8]) -> Option<u64>
    ensures found { IfSome result (IsSixtieth text.now) }
    ensures only { (n : ℕ) → IsSixtieth text.now n → result ≡ Some n }
{
    let value = number(text, 2, 2)?;
    if value < 60 { Some(value) } else { None }
}

/// The microseconds of a clock: its hours, the text of its minutes, and the text that its seconds begin.
fn clock(hours: u64, minute: &[u8], behind: &[u8]) -> Option<u64>
    requires { hours < 10 ^ 9 }
    ensures found { IfSome result (IsClockOf hours minute.now behind.now) }
    ensures only { (size : ℕ) → IsClockOf hours minute.now behind.now size → result ≡ Some size }
    ensures fits { IfSome result (λ size. size < 2 ^ 63) }
{
    let minutes = sixtieth(minute)?;
    let (second, rest) = split_bytes(behind, Class::Digit);
    let seconds = sixtieth(second)?;
    match split_part(rest)? {
        (part, []) => Some(micros(1_000_000, (hours * 60 + minutes) * 60 + seconds, part)),
        _ => None,
    }
}

/// The microseconds of the unit that a suffix names, and how many digits may come before the point.
fn unit_of(suffix: &[u8]) -> Option<(u64, usize)>
    ensures found { IfSome result (λ p. IsUnit suffix.now p.0 p.1) }
    ensures only { (unit most : ℕ) → IsUnit suffix.now unit most → result ≡ Some (unit, most) }
{
    match suffix {
        b"" | b"s" => Some((1_000_000, 9)),
        b"ms" => Some((1000, 9)),
        b"us" => Some((1, 18)),
        _ => None,
    }
}

/// The microseconds of an amount of a unit.
fn amount(digits: &[u8], tail: &[u8]) -> Option<u64>
    requires digits { AllDigits 10 digits.now }
    requires tail { Stops is_digit tail.now }
    ensures found { IfSome result (IsAmount (digits.now ++ tail.now)) }
    ensures only { (size : ℕ) → IsAmount (digits.now ++ tail.now) size → result ≡ Some size }
    ensures fits { IfSome result (λ size. size < 2 ^ 63) }
{
    let (part, suffix) = split_part(tail)?;
    let (unit, most) = unit_of(suffix)?;
    Some(micros(unit, number(digits, 1, most)?, part))
}

/// The microseconds of a time without its sign.
fn size_of(text: &[u8]) -> Option<u64>
    ensures found { IfSome result (λ size. IsClock text.now size ⊎ IsAmount text.now size) }
    ensures only { (size : ℕ) → IsClock text.now size ⊎ IsAmount text.now size → result ≡ Some size }
    ensures fits { IfSome result (λ size. size < 2 ^ 63) }
{
    let (first, tail) = split_bytes(text, Class::Digit);
    match tail {
        [b':', behind @ ..] => {
            let (second, rest) = split_bytes(behind, Class::Digit);
            match rest {
                [b':', third @ ..] => clock(number(first, 1, 9)?, second, third),
                _ => clock(0, first, behind),
            }
        }
        _ => amount(first, tail),
    }
}

/// The time that a text says, in microseconds; what is finer is cut towards zero.
///
/// The forms are `[-][HH:]MM:SS[.m..]`, with minutes and seconds of two digits below 60, and `[-]S[.m..]` with `s`,
/// `ms`, `us` or nothing after it, which is seconds. At most 9 digits come before a point, or 18 with `us`, and at
/// most 18 after it. None if the text has another form. (FFmpeg Utilities Documentation, "Time duration".)
pub fn read_time(text: &str) -> Option<i64>
    ensures time { IfSome result (IsTime text.now) }
    ensures only { (z : ℤ) → IsTime text.now z → result ≡ Some z }
{
    let (negative, body) = split_sign(text.as_bytes());
    let size = size_of(body)?;
    Some(signed(negative, size))
}
