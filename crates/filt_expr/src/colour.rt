//! Colours of areas.
ghost use Rattle.std.specs.Prelude.{◌≡◌, ℕ, List, Some, IsNone, IfSome};
ghost use Rattle.filt_expr.specs.declared.colour.Colour.{Colour};
ghost use Rattle.filt_expr.specs.Colours.{Splits, IsSample, IsForm, MeansColour, colour_in};

use av_filter::read_whole_within;

/// A sample of Y, U and V.
#[derive(Clone, Copy, Debug, PartialEq, Eq)]
pub struct Colour {
    /// Of Y.
    pub y: u8,
    /// Of U.
    pub u: u8,
    /// Of V.
    pub v: u8,
}

/// Black, in the limited range.
pub(crate) const BLACK: Colour = Colour {
    y: 16,
    u: 128,
    v: 128,
};

/// A piece, and the rest after the first `/`.
fn split(text: &str) -> Option<(&str, &str)>
    ensures some { IfSome result (λ p. Splits text.now p.0.now p.1.now) }
    ensures none { IsNone result → (piece rest : List ℕ) → ¬ Splits text.now piece rest }
{
    text.split_once('/')
}

/// A whole number from 0 to 255.
fn read_sample(text: &str) -> Option<u8>
    ensures sample { IfSome result (IsSample text.now) }
    ensures only { (n : ℕ) → IsSample text.now n → result ≡ Some n }
{
    let Some(sample) = read_whole_within(text, 0, 255) else {
        return None;
    };
    Some(sample as u8)
}

/// The colour of three whole numbers from 0 to 255.
fn read_samples(y: &str, u: &str, v: &str) -> Option<Colour>
    ensures some { IfSome result (λ c. IsSample y.now c.y × IsSample u.now c.u × IsSample v.now c.v) }
    ensures none { IsNone result → (c : Colour) → IsSample y.now c.y → IsSample u.now c.u → ¬ IsSample v.now c.v }
{
    let Some(y) = read_sample(y) else {
        return None;
    };
    let Some(u) = read_sample(u) else {
        return None;
    };
    let Some(v) = read_sample(v) else {
        return None;
    };
    Some(Colour { y, u, v })
}

/// The colour that a text says by `yuv/Y/U/V`.
fn read_form(text: &str) -> Option<Colour>
    ensures some { IfSome result (IsForm text.now) }
    ensures none { IsNone result → (c : Colour) → ¬ IsForm text.now c }
{
    let Some((word, tail)) = split(text) else {
        return None;
    };
    if word != "yuv" {
        return None;
    }
    let Some((y, behind)) = split(tail) else {
        return None;
    };
    let Some((u, v)) = split(behind) else {
        return None;
    };
    read_samples(y, u, v)
}

/// The colour that a text says: `black`, `white`, or `yuv/Y/U/V` with three whole numbers from 0 to 255.
pub(crate) fn read_colour(text: &str) -> Option<Colour>
    ensures some { IfSome result (MeansColour text.now) }
    ensures none { IsNone result → (c : Colour) → ¬ MeansColour text.now c }
{
    match text {
        "black" => Some(BLACK),
        "white" => Some(Colour {
            y: 235,
            u: 128,
            v: 128,
        }),
        _ => read_form(text),
    }
}

impl Colour {
    /// The sample of a plane. A is opaque.
    pub(crate) fn sample(self, plane: u32) -> u8
        ensures { result ≡ colour_in self plane }
    {
        match plane {
            0 => self.y,
            1 => self.u,
            2 => self.v,
            _ => 255,
        }
    }
}
