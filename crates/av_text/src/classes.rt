//! Classes of ASCII characters, and the runs of them that texts begin with.
ghost use Rattle.std.specs.Prelude.{◌≡◌, ◌≤◌, length, take, drop};
ghost use Rattle.std.specs.Str.{IsUtf8, IsCharBoundary};
ghost use Rattle.av_text.specs.Classes.{has, IsRun};
ghost use Rattle.av_text.specs.Parts.{Skips, IsPlace};

/// A class of ASCII characters.
#[derive(Clone, Copy, Debug, PartialEq, Eq)]
pub enum Class {
    /// White space: space, tab, line feed, carriage return.
    White,
    /// Decimal digits.
    Digit,
    /// What names are made of: letters, digits and `_`.
    Name,
    /// What labels are made of: letters, digits, `_` and `:`.
    Label,
}

impl Class {
    /// Whether the class has this character.
    pub fn has(self, c: char) -> bool
        ensures { result ≡ has self c }
    {
        match self {
            Class::White => matches!(c, ' ' | '\t' | '\n' | '\r'),
            Class::Digit => c.is_ascii_digit(),
            Class::Name => c.is_ascii_alphanumeric() || c == '_',
            Class::Label => c.is_ascii_alphanumeric() || c == '_' || c == ':',
        }
    }
}

/// How many bytes at the front of a text are of the class.
fn run_len(text: &[u8], class: Class) -> usize
    ensures within { result ≤ length text.now }
    ensures run { IsRun (has class) text.now (take result text.now) (drop result text.now) }
{
    for (i, byte) in text.iter().enumerate() {
        if !class.has(char::from(*byte)) {
            return i;
        }
    }
    text.len()
}

/// The longest run of characters of the class that a text begins with, and the text after it.
pub fn split_run(text: &str, class: Class) -> (&str, &str)
    ensures run { IsRun (has class) text.now result.0.now result.1.now }
    ensures utf8 { IsUtf8 result.1.now }
{
    text.split_at(run_len(text.as_bytes(), class))
}

/// The same of a text that is seen as bytes.
pub(crate) fn split_bytes(text: &[u8], class: Class) -> (&[u8], &[u8])
    ensures { IsRun (has class) text.now result.0.now result.1.now }
{
    text.split_at(run_len(text, class))
}

/// The place after the white space at a place.
pub fn skip_white(text: &str, place: usize) -> usize
    requires { IsCharBoundary text.now place }
    ensures skips { Skips (drop place text.now) (drop result text.now) }
    ensures later { IsPlace text.now place result }
{
    let (_, rest) = split_run(&text[place..], Class::White);
    text.len() - rest.len()
}
