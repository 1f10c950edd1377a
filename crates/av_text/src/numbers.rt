//! Whole numbers and ratios.
ghost use Rattle.std.specs.Prelude.{◌≡◌, ◌≤◌, ◌<◌, ◌^◌, ℕ, ℤ, Some, IfSome};
ghost use Rattle.av_base.specs.declared.numbers.Ratio.{Ratio};
ghost use Rattle.av_text.specs.Numbers.{IsNumber, IsWhole, Spells, SaysRatio};
ghost use Rattle.av_text.specs.NumberParts.{IsUnsigned, signed_of, IsDecimal, IsQuotient, AreParts};

use crate::Class;
use crate::classes::split_bytes;
use av_base::{Ratio, reduce};

/// The number that decimal digits write; none if the text isn't from `least` to `most` digits.
pub(crate) fn number(text: &[u8], least: usize, most: usize) -> Option<u64>
    requires { most ≤ 18 }
    ensures found { IfSome result (IsNumber least most text.now) }
    ensures only { (n : ℕ) → IsNumber least most text.now n → result ≡ Some n }
    ensures fits { IfSome result (λ n. n < 10 ^ most) }
{
    if text.len() < least || text.len() > most {
        return None;
    }
    let mut value = 0u64;
    for byte in text {
        if !byte.is_ascii_digit() {
            return None;
        }
        value = value * 10 + u64::from(*byte - b'0');
    }
    Some(value)
}

/// The number of a text that is `least` to `most` decimal digits, of which there may be 18. None if it isn't.
pub fn read_digits(text: &str, least: usize, most: usize) -> Option<u64>
    requires { most ≤ 18 }
    ensures number { IfSome result (IsNumber least most text.now) }
    ensures only { (n : ℕ) → IsNumber least most text.now n → result ≡ Some n }
    ensures fits { IfSome result (λ n. n < 10 ^ most) }
{
    number(text.as_bytes(), least, most)
}

/// Whether a text begins with a `-`, and the text without it.
pub(crate) fn split_sign(text: &[u8]) -> (bool, &[u8])
    ensures { IsUnsigned text.now result.0 result.1.now }
{
    match text {
        [b'-', size @ ..] => (true, size),
        _ => (false, text),
    }
}

/// A number of this sign and size.
pub(crate) fn signed(negative: bool, size: u64) -> i64
    requires { size < 2 ^ 63 }
    ensures { result ≡ signed_of negative size }
{
    if negative {
        -(size as i64)
    } else {
        size as i64
    }
}

/// The number of a text that is 1 to 18 digits, with a `-` before them or without one. None elsewhere.
pub fn read_whole(text: &str) -> Option<i64>
    ensures number { IfSome result (IsWhole text.now) }
    ensures only { (z : ℤ) → IsWhole text.now z → result ≡ Some z }
{
    let (negative, digits) = split_sign(text.as_bytes());
    let size = number(digits, 1, 18)?;
    Some(signed(negative, size))
}

/// The two numbers of a number with a point, with the digits before and after it.
fn decimal(above: &[u8], below: &[u8]) -> Option<(u128, u128)>
    ensures found { IfSome result (λ p. IsDecimal above.now below.now p.0 p.1) }
    ensures only { (num den : ℕ) → IsDecimal above.now below.now num den → result ≡ Some (num, den) }
{
    let whole = number(above, 0, 18)?;
    let part = number(below, 1, 18)?;
    let scale = 10u128.pow(below.len() as u32);
    Some((u128::from(whole) * scale + u128::from(part), scale))
}

/// The two numbers of `N/D`.
fn fraction(above: &[u8], below: &[u8]) -> Option<(u128, u128)>
    ensures found { IfSome result (λ p. IsQuotient above.now below.now p.0 p.1) }
    ensures only { (num den : ℕ) → IsQuotient above.now below.now num den → result ≡ Some (num, den) }
{
    let num = number(above, 1, 18)?;
    let den = number(below, 1, 18)?;
    if den == 0 {
        return None;
    }
    Some((u128::from(num), u128::from(den)))
}

/// The two numbers of digits and the text after them.
fn parts(above: &[u8], tail: &[u8]) -> Option<(u128, u128)>
    ensures found { IfSome result (λ p. AreParts above.now tail.now p.0 p.1) }
    ensures only { (num den : ℕ) → AreParts above.now tail.now num den → result ≡ Some (num, den) }
{
    match tail {
        [] => Some((u128::from(number(above, 1, 18)?), 1)),
        [b'/' | b':', below @ ..] => fraction(above, below),
        [b'.', below @ ..] => decimal(above, below),
        _ => None,
    }
}

/// The two numbers whose ratio a text says.
fn spelled(text: &str) -> Option<(u128, u128)>
    ensures found { IfSome result (λ p. Spells text.now p.0 p.1) }
    ensures only { (num den : ℕ) → Spells text.now num den → result ≡ Some (num, den) }
{
    match text {
        "ntsc" => Some((30000, 1001)),
        "pal" => Some((25, 1)),
        "film" => Some((24, 1)),
        "ntsc_film" => Some((24000, 1001)),
        _ => {
            let (above, tail) = split_bytes(text.as_bytes(), Class::Digit);
            parts(above, tail)
        }
    }
}

/// The ratio that a text says, in lowest terms.
///
/// The forms are `N`, `N/D` and `N:D` of 1 to 18 digits each, and D isn't 0; a number with a point, with at most 18
/// digits before it and 1 to 18 after it; and the words `ntsc` 30000/1001, `pal` 25, `film` 24 and `ntsc_film`
/// 24000/1001. None if the text is none of these, or a part passes 2^31 - 1 in lowest terms. (FFmpeg Utilities
/// Documentation, "Ratio" and "Video rate".)
pub fn read_ratio(text: &str) -> Option<Ratio>
    ensures ratio { IfSome result (SaysRatio text.now) }
    ensures only { (r : Ratio) → SaysRatio text.now r → result ≡ Some r }
{
    let (num, den) = spelled(text)?;
    reduce(num, den)
}
