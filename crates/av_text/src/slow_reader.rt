//! A plain slow reader of tokens, beside the real one.
ghost use Rattle.std.specs.Prelude.{◌≡◌, ◌<◌, ◌≤◌, ◌+◌, ◌↔◌, ◌++◌, ◌∷◌, ℕ, List, true, length, take, drop, IsTrue, IfOk, IfErr, IfSome, IsNone};
ghost use Rattle.std.specs.List.{AllByRecursion, Contains};
ghost use Rattle.av_text.specs.Classes.{is_white, IsRun};
ghost use Rattle.av_text.specs.Tokens.{Ends, IsToken};
ghost use Rattle.av_text.specs.Faults.{IsBroken, IsTokenFault};
ghost use Rattle.av_text.specs.SlowRows.{BeginsRow, Says};

use crate::{TextError, TextKind, next_token};
use std::alloc::Global;
use std::test::Fail;

/// The bytes that texts are made of here.
const LETTERS: [u8; 5] = *b"a \\',";

/// The most bytes of a text here.
const LONGEST: usize = 5;

/// How many such texts there are.
const TEXTS: usize = 1 + 5 + 25 + 125 + 625 + 3125;

/// Whether the byte is one of the specials.
fn is_special(byte: u8, specials: &[u8]) -> bool
    ensures { IsTrue result ↔ Contains specials.now byte }
{
    specials.contains(&byte)
}

/// Whether the byte is white space.
fn is_space(byte: u8) -> bool
    ensures { result ≡ is_white byte }
{
    byte == b' ' || byte == b'\t' || byte == b'\n' || byte == b'\r'
}

/// Whether all bytes are white space.
fn all_space(text: &[u8]) -> bool
    ensures { IsTrue result ↔ AllByRecursion (λ c. is_white c ≡ true) text.now }
{
    match text {
        [] => true,
        [c, behind @ ..] => is_space(*c) && all_space(behind),
    }
}

/// How many bytes come before the first `'`.
fn quote_len(text: &[u8]) -> Option<usize>
    ensures found { IfSome result (λ n. (n < length text.now) × (text.now ≡ take n text.now ++ 39 ∷ drop (n + 1) text.now) × ¬ Contains (take n text.now) 39) }
    ensures none { IsNone result → ¬ Contains text.now 39 }
{
    match text {
        [] => None,
        [b'\'', ..] => Some(0),
        [_, behind @ ..] => Some(quote_len(behind)? + 1),
    }
}

/// Where the row of pieces that begins at a place ends; or the place at which it is broken, and why.
fn row_end(text: &[u8], place: usize, specials: &[u8]) -> Result<usize, (usize, TextKind)>
    requires { place ≤ length text.now }
    ensures row { IfOk result (λ n. BeginsRow specials.now (drop place text.now) (drop n text.now)) }
    ensures ends { IfOk result (λ n. Ends specials.now (drop n text.now)) }
    ensures end { IfOk result (λ n. (place ≤ n) × (n ≤ length text.now)) }
    ensures before { IfErr result (λ f. BeginsRow specials.now (drop place text.now) (drop f.0 text.now)) }
    ensures broken { IfErr result (λ f. IsBroken f.1 (drop f.0 text.now)) }
    ensures fault { IfErr result (λ f. (place ≤ f.0) × (f.0 < length text.now)) }
{
    let [first, behind @ ..] = &text[place..] else {
        return Ok(place);
    };
    match *first {
        b'\\' if behind.is_empty() => Err((place, TextKind::LoneEscape)),
        b'\\' => row_end(text, place + 2, specials),
        b'\'' => match quote_len(behind) {
            Some(inner) => row_end(text, place + inner + 2, specials),
            None => Err((place, TextKind::UnclosedQuote)),
        },
        c if is_special(c, specials) => Ok(place),
        _ => row_end(text, place + 1, specials),
    }
}

/// Where the row of the token that a text begins with starts and ends; or the place of the fault, and its kind.
fn token_span(text: &[u8], specials: &[u8]) -> Result<(usize, usize), (usize, TextKind)>
    ensures token { IfOk result (λ t. (value : List ℕ) × IsToken specials.now text.now value (drop t.1 text.now)) }
    ensures start { IfOk result (λ t. IsRun is_white text.now (take t.0 text.now) (drop t.0 text.now)) }
    ensures row { IfOk result (λ t. BeginsRow specials.now (drop t.0 text.now) (drop t.1 text.now)) }
    ensures end { IfOk result (λ t. (t.0 ≤ t.1) × (t.1 ≤ length text.now)) }
    ensures fault { IfErr result (λ f. IsTokenFault specials.now text.now f.1 (drop f.0 text.now)) }
{
    let lead = lead_len(text);
    let end = row_end(text, lead, specials)?;
    Ok((lead, end))
}

/// Whether the bytes of a row of pieces say the value.
fn says(row: &[u8], value: &[u8]) -> bool
    ensures { IsTrue result → Says row.now value.now }
{
    if all_space(row) {
        return value.is_empty();
    }
    let [first, behind @ ..] = row else {
        return false;
    };
    match *first {
        b'\\' => match behind {
            [c, rest @ ..] => begins_with(value, *c) && says(rest, &value[1..]),
            [] => false,
        },
        b'\'' => match quote_len(behind) {
            Some(n) => { value.starts_with(&behind[..n]) && says(&behind[n + 1..], &value[n..]) }
            None => false,
        },
        c => begins_with(value, c) && says(behind, &value[1..]),
    }
}

/// Whether the text begins with the byte.
fn begins_with(text: &[u8], byte: u8) -> bool
    ensures { IsTrue result → text.now ≡ byte ∷ drop 1 text.now }
{
    match text {
        [first, ..] => *first == byte,
        [] => false,
    }
}

/// Where the white space at the front of a text ends.
fn lead_len(text: &[u8]) -> usize
    ensures run { IsRun is_white text.now (take result text.now) (drop result text.now) }
    ensures fits { result ≤ length text.now }
{
    let mut lead = 0;
    while lead < text.len() && is_space(text[lead]) {
        lead += 1;
    }
    lead
}

/// Whether the real reader reads the text as the slow one does.
fn agrees(alloc: Global, text: &str) -> bool
    requires { length text.now ≤ LONGEST }
{
    let bytes = text.as_bytes();
    match (next_token(alloc, text, 0, b","), token_span(bytes, b",")) {
        (Ok((token, place)), Ok((start, end))) => {
            place == end && says(&bytes[start..end], token.as_str().as_bytes())
        }
        (Err(TextError::Fault(fault)), Err((at, kind))) => {
            fault.at as usize == at && fault.kind == kind
        }
        _ => false,
    }
}

/// The text of a number, with a length: all texts are in a row, the short ones first.
fn letters(mut number: usize) -> ([u8; LONGEST], usize)
    ensures { result.1 ≤ LONGEST }
{
    let mut bytes = [0; LONGEST];
    let mut len = 0;
    while number > 0 && len < LONGEST {
        number -= 1;
        bytes[len] = LETTERS[number % LETTERS.len()];
        number /= LETTERS.len();
        len += 1;
    }
    (bytes, len)
}

#[test]
fn every_short_text_reads_as_the_slow_reader_says(rt: HostRuntime) -> Result<(), Fail> {
    for number in 0..TEXTS {
        let (bytes, len) = letters(number);
        let text = str::from_utf8(&bytes[..len])?;
        assert!(rt; agrees(rt.alloc(), text), "at {text:?}");
    }
    Ok(())
}
