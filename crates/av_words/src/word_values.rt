//! Values of options, and endings of names.
ghost use Rattle.std.specs.Prelude.{◌≡◌, ◌<◌, ℕ, List, map, IfOk, IfSome, IsNone};
ghost use Rattle.av_words.specs.declared.command_words.InputWord.{InputWord};
ghost use Rattle.av_words.specs.WordValues.{ends_in, media_of, ending_of, IsLabelled, IsCount, IsWithin, pieces, SaysOrder, IsMade, SaysMade};

use crate::command_words::InputWord;
use av_base::{Media, PICTURE_MAX, PixelFormat, SIDE_MAX, picture_bytes};
use av_text::{Class, read_digits, split_run};
use graph_plan::Ending;
use std::alloc::{AllocError, Global};

/// The greatest number of workers, and of slices (`greatest_count`).
const COUNT_MAX: u32 = 64;

/// The greatest number of made frames (`greatest_length`).
const FRAMES_MAX: u32 = 100_000;

/// Whether a name has this ending, in letters of either case.
fn ends_in(name: &str, ending: &str) -> bool
    ensures { result ≡ ends_in name.now ending.now }
{
    let bytes = name.as_bytes();
    let tail = &bytes[bytes.len().saturating_sub(ending.len())..];
    tail.eq_ignore_ascii_case(ending.as_bytes())
}

/// What an input file gives, by its name.
pub(crate) fn media_of(name: &str) -> Option<Media>
    ensures { result ≡ media_of name.now }
{
    if ends_in(name, ".y4m") {
        Some(Media::Video)
    } else if ends_in(name, ".wav") {
        Some(Media::Audio)
    } else {
        None
    }
}

/// What an output file is written as, by its name.
pub(crate) fn ending_of(name: &str) -> Option<Ending>
    ensures { result ≡ ending_of name.now }
{
    if ends_in(name, ".y4m") {
        Some(Ending::Y4m)
    } else if ends_in(name, ".wav") {
        Some(Ending::Wav)
    } else if ends_in(name, ".frames") {
        Some(Ending::Frames)
    } else {
        None
    }
}

/// The label in brackets, if the text is that.
pub(crate) fn label_in(text: &str) -> Option<&str>
    ensures label { IfSome result (λ l. IsLabelled text.now l.now) }
    ensures none { IsNone result → (label : List ℕ) → IsLabelled text.now label → ⊥ }
{
    let (label, after) = split_run(text.strip_prefix('[')?, Class::Label);
    if label.is_empty() || after != "]" {
        return None;
    }
    Some(label)
}

/// A number of workers or slices, at least `lowest`.
pub(crate) fn read_count(text: &str, lowest: u32) -> Option<u32>
    ensures count { IfSome result (IsCount lowest text.now) }
    ensures none { IsNone result → (n : ℕ) → IsCount lowest text.now n → ⊥ }
{
    let count = read_digits(text, 1, 4)? as u32;
    if count < lowest || count > COUNT_MAX {
        return None;
    }
    Some(count)
}

/// The pieces of a text between marks.
fn pieces(alloc: Global, text: &str, mark: char) -> Result<Vec<&str>, AllocError>
    requires { mark < 128 }
    ensures { IfOk result (λ all. map (λ p. p.now) all.items ≡ pieces mark text.now) }
{
    text.split(mark).collect(alloc)
}

/// The numbers of an order, as they are written.
pub(crate) fn read_order(alloc: Global, text: &str) -> Result<Option<Vec<u32>>, AllocError>
    ensures order { IfOk result (λ order. IfSome order (λ numbers. SaysOrder text.now numbers.items)) }
    ensures none { IfOk result (λ order. IsNone order → (numbers : List ℕ) → SaysOrder text.now numbers → ⊥) }
{
    let mut numbers = Vec::new(alloc);
    let pieces = pieces(alloc, text, '|')?;
    'pieces: for piece in pieces.as_slice() {
        let Some(number) = read_digits(piece, 1, 4) else {
            return Ok(None);
        };
        numbers.push(number as u32)?;
    }
    Ok(Some(numbers))
}

/// A number of a made input, in its range.
fn number_within(text: &str, lowest: u32, most: u32) -> Option<u32>
    ensures number { IfSome result (IsWithin lowest most text.now) }
    ensures none { IsNone result → (n : ℕ) → IsWithin lowest most text.now n → ⊥ }
{
    let number = read_digits(text, 1, 10)?;
    if number < u64::from(lowest) || number > u64::from(most) {
        return None;
    }
    Some(number as u32)
}

/// The made input of these four numbers.
fn made_of(seed: &str, width: &str, height: &str, frames: &str) -> Option<InputWord>
    ensures made { IfSome result (IsMade seed.now width.now height.now frames.now) }
    ensures none { IsNone result → (input : InputWord) → IsMade seed.now width.now height.now frames.now input → ⊥ }
{
    let seed = number_within(seed, 0, u32::MAX)?;
    let width = number_within(width, 1, SIDE_MAX)?;
    let height = number_within(height, 1, SIDE_MAX)?;
    let frames = number_within(frames, 0, FRAMES_MAX)?;
    if picture_bytes(PixelFormat::Yuv420p, width, height) > PICTURE_MAX {
        return None;
    }
    Some(InputWord::Made {
        seed,
        width,
        height,
        frames,
    })
}

/// The made input that a text names.
pub(crate) fn read_made(alloc: Global, text: &str) -> Result<Option<InputWord>, AllocError>
    ensures made { IfOk result (λ made. IfSome made (SaysMade text.now)) }
    ensures none { IfOk result (λ made. IsNone made → (other : InputWord) → SaysMade text.now other → ⊥) }
{
    let pieces = pieces(alloc, text, ':')?;
    match pieces.as_slice() {
        [seed, width, height, frames] => Ok(made_of(seed, width, height, frames)),
        _ => Ok(None),
    }
}
