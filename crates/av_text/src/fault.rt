//! Why a text has no reading.
use av_base::Failure;

/// What is wrong with a text.
#[derive(Clone, Copy, Debug, PartialEq, Eq)]
pub enum TextKind {
    /// A `'` has no partner.
    UnclosedQuote,
    /// A `\` is the last byte, and isn't quoted.
    LoneEscape,
    /// A name must begin here, and none does.
    ExpectedName,
    /// A `[` begins no label.
    BadLabel,
    /// A whole filter is followed by something else than `,`, `;` or the end.
    Stray,
}

/// Where a text has no reading, and why.
#[derive(Clone, Copy, Debug, PartialEq, Eq)]
pub struct TextFault {
    /// The byte of the text at which the fault is, counted from 0.
    pub at: u32,
    /// What is wrong there.
    pub kind: TextKind,
}

/// Why a text wasn't read.
pub type TextError = Failure<TextFault>;
