//! The values of the parameters of a header line.
ghost use Rattle.std.specs.Prelude.{◌≡◌, ℕ, List, IfSome, MatchOption};
ghost use Rattle.y4m_header.specs.Params.{side_in, rate_in, aspect_in, scan_in, colour_in};
ghost use Rattle.y4m_header.specs.Parts.{digits_from, small_in, small_numbers_in, HasNoColon, IsAroundColon};

use av_base::{PixelFormat, SIDE_MAX};

/// The greatest number in a rate or an aspect.
const NUMBER_MAX: u64 = 0x7fff_ffff;

/// The value of decimal digits, which is 0 without any, or none if a byte isn't a digit or the value isn't below
/// `number_bound`.
pub(crate) fn digits(text: &[u8]) -> Option<u32>
    ensures { result ≡ digits_from 0 text.now }
{
    let mut value = 0u64;
    for byte in text {
        if !byte.is_ascii_digit() {
            return None;
        }
        value = value * 10 + u64::from(*byte - b'0');
        if value > NUMBER_MAX {
            return None;
        }
    }
    Some(value as u32)
}

/// The number of decimal digits, or none if there is no digit, a byte isn't one, or the number isn't below
/// `number_bound`.
pub(crate) fn number(text: &[u8]) -> Option<u32>
    ensures { result ≡ small_in text.now }
{
    if text.is_empty() {
        return None;
    }
    digits(text)
}

/// What comes before the first colon, and what comes after it.
pub(crate) fn around_colon(value: &[u8]) -> Option<(&[u8], &[u8])>
    ensures { MatchOption result (HasNoColon value.now) (λ p. IsAroundColon value.now p.0.now p.1.now) }
{
    let colon = value.iter().position(|byte| *byte == b':')?;
    Some((&value[..colon], &value[colon + 1..]))
}

/// Two numbers with a colon between them, each below `number_bound`.
fn numbers(value: &[u8]) -> Option<(u32, u32)>
    ensures { result ≡ small_numbers_in value.now }
{
    let (num, den) = around_colon(value)?;
    let num = number(num)?;
    let den = number(den)?;
    Some((num, den))
}

/// A width or a height.
pub(crate) fn side(value: &[u8]) -> Option<u32>
    ensures { result ≡ side_in value.now }
{
    let side = number(value)?;
    if side == 0 || side > SIDE_MAX {
        return None;
    }
    Some(side)
}

/// Frames per second.
pub(crate) fn rate(value: &[u8]) -> Option<(u32, u32)>
    ensures { result ≡ rate_in value.now }
{
    let (num, den) = numbers(value)?;
    if num == 0 && den == 0 {
        return Some((25, 1));
    }
    if num == 0 || den == 0 {
        return None;
    }
    Some((num, den))
}

/// The aspect of a sample.
pub(crate) fn aspect(value: &[u8]) -> Option<(u32, u32)>
    ensures { result ≡ aspect_in value.now }
{
    let (num, den) = numbers(value)?;
    if num == 0 || den == 0 {
        return Some((0, 1));
    }
    Some((num, den))
}

/// The order of the fields.
pub(crate) fn scan(value: &[u8]) -> Option<u8>
    ensures { result ≡ scan_in value.now }
{
    match value {
        [letter @ (b'p' | b't' | b'b' | b'm' | b'?')] => Some(*letter),
        _ => None,
    }
}

/// The format of a colour's name.
pub(crate) fn colour(name: &[u8]) -> Option<PixelFormat>
    ensures { result ≡ colour_in name.now }
{
    match name {
        b"420jpeg" | b"420mpeg2" | b"420paldv" | b"420" => Some(PixelFormat::Yuv420p),
        b"422" => Some(PixelFormat::Yuv422p),
        b"444" => Some(PixelFormat::Yuv444p),
        b"444alpha" => Some(PixelFormat::Yuva444p),
        b"mono" => Some(PixelFormat::Gray),
        _ => None,
    }
}
