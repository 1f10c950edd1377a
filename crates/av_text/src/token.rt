//! Tokens: quoting and escapes.
ghost use Rattle.std.specs.Prelude.{◌≡◌, ◌<◌, ◌≤◌, ◌↔◌, ◌+◌, ◌^◌, ◌++◌, ◌∷◌, ℕ, List, length, drop, if◌then◌else◌, string_bytes, IsTrue, IfOk, IfErr, IfSome, OnOk, MatchOption};
ghost use Rattle.std.specs.List.{Contains};
ghost use Rattle.std.specs.Str.{IsAscii, IsUtf8, IsCharBoundary};
ghost use Rattle.av_text.specs.Tokens.{Ends, IsToken};
ghost use Rattle.av_text.specs.Faults.{IsBroken, IsTokenFault, IsFaultAt};
ghost use Rattle.av_text.specs.Pieces.{BeginsPiece, said, is_gap};
ghost use Rattle.av_text.specs.declared.fault.TextKind.{TextKind};
ghost use Rattle.av_base.specs.Failures.{IfFault, Gives, Refuses};

use crate::{Class, TextError, TextFault, TextKind, split_run};
use av_base::Text;
use std::alloc::{AllocError, Global};

/// A piece of a raw token.
#[derive(Clone, Copy)]
enum Piece<'a> {
    /// A character that means itself.
    Plain(char),
    /// A character after a `\`.
    Escaped(char),
    /// A text between two `'`.
    Quoted(&'a str),
}

/// Whether the character is one of the specials, which are ASCII.
fn is_special(c: char, specials: &[u8]) -> bool
    requires { IsAscii specials.now }
    ensures { IsTrue result ↔ Contains specials.now c }
{
    specials.iter().any(|special| char::from(*special) == c)
}

/// The piece that a text begins with, and the text after it; none if a token may end here.
fn next_piece<'a>(text: &'a str, specials: &[u8]) -> Result<Option<(Piece<'a>, &'a str)>, TextKind>
    requires { IsAscii specials.now }
    ensures piece { IfOk result (λ found. MatchOption found (Ends specials.now text.now) (λ p. BeginsPiece specials.now text.now p.0 p.1.now)) }
    ensures broken { IfErr result (λ kind. IsBroken kind text.now) }
    ensures utf8 { IfOk result (λ found. IfSome found (λ p. IsUtf8 p.1.now)) }
{
    let mut chars = text.chars();
    let Some(first) = chars.next() else {
        return Ok(None);
    };
    let behind = chars.as_str();
    match first {
        '\\' => Ok(Some(escaped(behind)?)),
        '\'' => Ok(Some(quoted(behind)?)),
        c if is_special(c, specials) => Ok(None),
        c => Ok(Some((Piece::Plain(c), behind))),
    }
}

/// The piece after a `\`.
fn escaped(text: &str) -> Result<(Piece<'_>, &str), TextKind>
    ensures piece { IfOk result (λ p. (specials : List ℕ) → BeginsPiece specials (92 ∷ text.now) p.0 p.1.now) }
    ensures broken { IfErr result (λ kind. IsBroken kind (92 ∷ text.now)) }
    ensures utf8 { IfOk result (λ p. IsUtf8 p.1.now) }
{
    let mut chars = text.chars();
    match chars.next() {
        Some(c) => Ok((Piece::Escaped(c), chars.as_str())),
        None => Err(TextKind::LoneEscape),
    }
}

/// The piece after a `'`.
fn quoted(text: &str) -> Result<(Piece<'_>, &str), TextKind>
    ensures piece { IfOk result (λ p. (specials : List ℕ) → BeginsPiece specials (39 ∷ text.now) p.0 p.1.now) }
    ensures broken { IfErr result (λ kind. IsBroken kind (39 ∷ text.now)) }
    ensures utf8 { IfOk result (λ p. IsUtf8 p.1.now) }
{
    match text.split_once('\'') {
        Some((inner, behind)) => Ok((Piece::Quoted(inner), behind)),
        None => Err(TextKind::UnclosedQuote),
    }
}

/// The value of a token as far as it was read.
#[derive(Drop)]
struct Value {
    /// What its pieces mean.
    text: String,
    /// How many bytes of it come before the plain white space at its end.
    kept: usize,
}

impl Value {
    /// Adds a piece.
    fn add(&mut self, piece: Piece<'_>) -> Result<(), AllocError>
        ensures text { OnOk result (string_bytes self.new.text ≡ string_bytes self.old.text ++ said piece.entry) }
        ensures kept { OnOk result (self.new.kept ≡ (if is_gap piece.entry then self.old.kept else length (string_bytes self.new.text))) }
    {
        match piece {
            Piece::Plain(c) if Class::White.has(c) => return self.text.push(c),
            Piece::Plain(c) | Piece::Escaped(c) => self.text.push(c)?,
            Piece::Quoted(inner) => self.text.push_str(inner)?,
        }
        self.kept = self.text.len();
        Ok(())
    }
}

/// The token that begins at the byte `start` of a text: its value, and the byte at which it ends.
///
/// White space is skipped. The token goes on to the first special that is neither quoted nor escaped, or to the end of
/// the text. A `\` makes the character after it literal, and a pair of `'` all that is between them. White space
/// at the end is dropped if it is neither. `start` is between two characters of the text, and the specials are
/// ASCII. (FFmpeg Filters Documentation, "Notes on filtergraph escaping".)
///
/// # Errors
/// `UnclosedQuote` at a `'` without a partner, or `LoneEscape` at a `\` that is the last byte, whichever comes first. Or
/// out of memory.
pub fn next_token(
    alloc: Global,
    text: &str,
    start: usize,
    specials: &[u8],
) -> Result<(Text, usize), TextError>
    requires start { IsCharBoundary text.now start }
    requires specials { IsAscii specials.now }
    requires length { length text.now < 2 ^ 32 }
    // The text from `start` on begins with a token of this value, and the place is that of the rest.
    ensures token { IfOk result (λ t. IsToken specials.now (drop start text.now) t.0 (drop t.1 text.now)) }
    ensures place { IfOk result (λ t. (start ≤ t.1) × IsCharBoundary text.now t.1) }
    ensures short { IfOk result (λ t. length t.0 ≤ length text.now) }
    // What has a reading isn't refused, and has no other.
    ensures reads { (value rest : List ℕ) → IsToken specials.now (drop start text.now) value rest → Gives (λ t. (t.0 ≡ value) × (drop t.1 text.now ≡ rest)) result }
    ensures fault { IfFault result (λ f. (bad : List ℕ) × IsTokenFault specials.now (drop start text.now) f.kind bad × (f.at + length bad ≡ length text.now)) }
    // What has a fault isn't read, and has no other.
    ensures faulty { (kind : TextKind) (bad : List ℕ) → IsTokenFault specials.now (drop start text.now) kind bad → Refuses (IsFaultAt text.now kind bad) result }
{
    let (_, mut rest) = split_run(&text[start..], Class::White);
    let mut value = Value {
        text: String::new(alloc),
        kept: 0,
    };
    loop {
        let place = text.len() - rest.len();
        match next_piece(rest, specials) {
            Ok(Some((piece, behind))) => {
                value.add(piece)?;
                rest = behind;
            }
            Ok(None) => {
                value.text.truncate(value.kept);
                return Ok((Text::new(value.text), place));
            }
            Err(kind) => {
                let at = place as u32;
                return Err(TextError::Fault(TextFault { at, kind }));
            }
        }
    }
}
