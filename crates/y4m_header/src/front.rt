//! The beginning of a header line that may go on.
ghost use Rattle.std.specs.Prelude.{◌≡◌, IfSome, IsNone, is_some};
ghost use Rattle.y4m_header.specs.Front.{GoesOn, has_value, is_whole, is_ordered, are_ordered};
ghost use Rattle.y4m_header.specs.Params.{side_in, rate_in, aspect_in, scan_in};
ghost use Rattle.y4m_header.specs.Said.{StandsAlways};
ghost use Rattle.y4m_header.specs.declared.fault.HeaderFault.{HeaderFault};

use crate::fault::HeaderFault;
use crate::params::{put, unsaid};
use crate::read::{MAGIC, after};
use crate::values::{around_colon, digits, number, scan};
use av_base::SIDE_MAX;

/// Whether a text may go on to a width or a height.
fn side_goes_on(value: &[u8]) -> bool
    ensures { GoesOn 32 (λ v. is_some (side_in v)) value.now result }
{
    match digits(value) {
        Some(side) => side <= SIDE_MAX,
        None => false,
    }
}

/// Whether a text may go on to frames per second.
fn rate_goes_on(value: &[u8]) -> bool
    ensures { GoesOn 32 (λ v. is_some (rate_in v)) value.now result }
{
    let Some((num, den)) = around_colon(value) else {
        return digits(value).is_some();
    };
    let Some(num) = number(num) else {
        return false;
    };
    let Some(den) = digits(den) else {
        return false;
    };
    num > 0 || den == 0
}

/// Whether a text may go on to the aspect of a sample.
fn aspect_goes_on(value: &[u8]) -> bool
    ensures { GoesOn 32 (λ v. is_some (aspect_in v)) value.now result }
{
    let Some((num, den)) = around_colon(value) else {
        return digits(value).is_some();
    };
    number(num).is_some() && digits(den).is_some()
}

/// Whether a text may go on to the order of the fields.
fn scan_goes_on(value: &[u8]) -> bool
    ensures { GoesOn 32 (λ v. is_some (scan_in v)) value.now result }
{
    value.is_empty() || scan(value).is_some()
}

/// Whether a text may go on to a value that the letter may have.
fn value_goes_on(letter: u8, value: &[u8]) -> bool
    ensures { GoesOn 32 (has_value letter) value.now result }
{
    match letter {
        b'W' | b'H' => side_goes_on(value),
        b'F' => rate_goes_on(value),
        b'A' => aspect_goes_on(value),
        b'I' => scan_goes_on(value),
        _ => true,
    }
}

/// Whether a piece may go on to a parameter that is in order.
fn piece_goes_on(piece: &[u8]) -> bool
    ensures { GoesOn 32 is_whole piece.now result }
{
    match piece {
        [] => true,
        [letter, value @ ..] => letter.is_ascii_alphabetic() && value_goes_on(*letter, value),
    }
}

/// Whether a text, which comes after the first space, may go on to parameters that are in order. All pieces but the last
/// are whole.
fn params_go_on(text: &[u8]) -> bool
    ensures { GoesOn 10 are_ordered text.now result }
{
    let mut latest = unsaid();
    let mut last: &[u8] = &[];
    for piece in text.split(|byte| *byte == b' ') {
        let Some(next) = put(latest, last) else {
            return false;
        };
        latest = next;
        last = piece;
    }
    piece_goes_on(last)
}

/// Whether a text, which comes after the name of the format, may go on to parameters that are in order.
fn rest_goes_on(rest: &[u8]) -> bool
    ensures { GoesOn 10 is_ordered rest.now result }
{
    match rest {
        [] => true,
        [b' ', text @ ..] => params_go_on(text),
        _ => false,
    }
}

/// Why a header line with this beginning is refused, whatever follows on it. None if it may still be in order.
pub fn front_fault(front: &[u8]) -> Option<HeaderFault>
    ensures some { IfSome result (StandsAlways front.now) }
    ensures none { IsNone result → (e : HeaderFault) → ¬ StandsAlways front.now e }
{
    let Some(rest) = after(front, MAGIC) else {
        return match after(MAGIC, front) {
            Some(_) => None,
            None => Some(HeaderFault::NotMedia),
        };
    };
    if rest_goes_on(rest) {
        return None;
    }
    Some(HeaderFault::BadHeader)
}

#[cfg(test)]
mod tests {
    use super::front_fault;
    use crate::fault::HeaderFault;

    #[test]
    fn beginnings_have_a_fault_or_may_go_on(rt: HostRuntime) {
        let may_go_on = None;
        let not_media = Some(HeaderFault::NotMedia);
        let bad_header = Some(HeaderFault::BadHeader);
        for (front, fault) in [
            ("", may_go_on),
            ("YUV4", may_go_on),
            ("YUV4MPEG2", may_go_on),
            ("YUV4MPEG2  ", may_go_on),
            ("yuv", not_media),
            ("YUV4MPEG1", not_media),
            ("YUV4MPEG2X", bad_header),
            ("YUV4MPEG2 4", bad_header),
            ("YUV4MPEG2 W", may_go_on),
            ("YUV4MPEG2 W000", may_go_on),
            ("YUV4MPEG2 W8192", may_go_on),
            ("YUV4MPEG2 W8193", bad_header),
            ("YUV4MPEG2 H18446744073709551617", bad_header),
            ("YUV4MPEG2 Wx", bad_header),
            ("YUV4MPEG2 W0 ", bad_header),
            ("YUV4MPEG2 W0 W4 H2", bad_header),
            ("YUV4MPEG2 F", may_go_on),
            ("YUV4MPEG2 F00", may_go_on),
            ("YUV4MPEG2 F00:0", may_go_on),
            ("YUV4MPEG2 F25:0", may_go_on),
            ("YUV4MPEG2 F:", bad_header),
            ("YUV4MPEG2 F0:1", bad_header),
            ("YUV4MPEG2 F2147483648", bad_header),
            ("YUV4MPEG2 F1:1:", bad_header),
            ("YUV4MPEG2 A0:1", may_go_on),
            ("YUV4MPEG2 A1:", may_go_on),
            ("YUV4MPEG2 A-", bad_header),
            ("YUV4MPEG2 I", may_go_on),
            ("YUV4MPEG2 Ip", may_go_on),
            ("YUV4MPEG2 Ipp", bad_header),
            ("YUV4MPEG2 Ix", bad_header),
            ("YUV4MPEG2 Cxyz", may_go_on),
            ("YUV4MPEG2 Cxyz W4 H2", may_go_on),
            ("YUV4MPEG2 W8192 H8192 C444", may_go_on),
        ] {
            assert_eq!(rt; front_fault(front.as_bytes()), fault, "{front}");
        }
    }
}
