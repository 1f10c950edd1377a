//! The parameters of a header line.
ghost use Rattle.std.specs.Prelude.{◌≡◌, ◌==◌, List, ℕ, [], ◌∷◌, false, IfSome, IsNone, None, length};
ghost use Rattle.std.specs.List.{slice_split};
ghost use Rattle.y4m_header.specs.Params.{is_good, is_space};
ghost use Rattle.y4m_header.specs.Walk.{param, unsaid, IsSet, outcome, with_gap};

use crate::values::{aspect, colour, rate, scan, side};
use av_base::PixelFormat;

/// What the parameters of a header line say. Of several parameters of one letter the last counts.
#[derive(Clone, Copy)]
pub(crate) struct Latest {
    /// The width, or 0 if no parameter says it.
    pub(crate) width: u32,
    /// The height, or 0 if no parameter says it.
    pub(crate) height: u32,
    /// Frames per second.
    pub(crate) rate: (u32, u32),
    /// The aspect of a sample.
    pub(crate) aspect: (u32, u32),
    /// The order of the fields.
    pub(crate) scan: u8,
    /// The format of the last name of a colour, or none if the name is unknown.
    pub(crate) colour: Option<PixelFormat>,
    /// Each name of a colour is known.
    pub(crate) named: bool,
}

/// What holds without any parameter.
pub(crate) fn unsaid() -> Latest
    ensures { result ≡ unsaid }
{
    Latest {
        width: 0,
        height: 0,
        rate: (25, 1),
        aspect: (0, 1),
        scan: b'p',
        colour: Some(PixelFormat::Yuv420p),
        named: true,
    }
}

/// What holds after one more parameter, or none if its value isn't one that the letter may have.
fn set(latest: Latest, letter: u8, value: &[u8]) -> Option<Latest>
    ensures none { IsNone result → is_good (param letter value.now) ≡ false }
    ensures some { IfSome result (IsSet latest (param letter value.now)) }
{
    match letter {
        b'W' => Some(Latest {
            width: side(value)?,
            ..latest
        }),
        b'H' => Some(Latest {
            height: side(value)?,
            ..latest
        }),
        b'F' => Some(Latest {
            rate: rate(value)?,
            ..latest
        }),
        b'I' => Some(Latest {
            scan: scan(value)?,
            ..latest
        }),
        b'A' => Some(Latest {
            aspect: aspect(value)?,
            ..latest
        }),
        b'C' => {
            let colour = colour(value);
            Some(Latest {
                colour,
                named: latest.named && colour.is_some(),
                ..latest
            })
        }
        _ => Some(latest),
    }
}

/// What holds after one more piece, which is empty or a parameter, or none if the parameter isn't in order.
pub(crate) fn put(latest: Latest, piece: &[u8]) -> Option<Latest>
    ensures none { IsNone result → (rest : List (List ℕ)) → outcome latest (piece.now ∷ rest) ≡ None }
    ensures some { IfSome result (λ new. (rest : List (List ℕ)) → outcome new (with_gap (length piece.now == 0) rest) ≡ outcome latest (piece.now ∷ rest)) }
{
    match piece {
        [] => Some(latest),
        [letter, value @ ..] => {
            if !letter.is_ascii_alphabetic() {
                return None;
            }
            set(latest, *letter, value)
        }
    }
}

/// What the parameters of a text say, which are cut at spaces, or none if one isn't in order.
pub(crate) fn read_params(text: &[u8]) -> Option<Latest>
    ensures { result ≡ outcome unsaid (slice_split is_space text.now) }
{
    let mut latest = unsaid();
    let mut gap = false;
    for piece in text.split(|byte| *byte == b' ') {
        latest = put(latest, piece)?;
        gap = piece.is_empty();
    }
    if gap {
        return None;
    }
    Some(latest)
}
