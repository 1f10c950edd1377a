//! Why a text is no expression, and why an expression has no value.
use av_base::Failure;

/// What is wrong with a text.
#[derive(Clone, Copy, Debug, PartialEq, Eq)]
pub enum ExprKind {
    /// No reading allows this byte, or the end.
    Syntax,
    /// A name that isn't allowed.
    UnknownName,
    /// The 65th level of parentheses and unary signs.
    TooDeep,
}

/// Where a text is no expression, and why.
#[derive(Clone, Copy, Debug, PartialEq, Eq)]
pub struct ExprFault {
    /// The byte of the text at which the fault is, counted from 0.
    pub at: u32,
    /// What is wrong there.
    pub kind: ExprKind,
}

/// Why a text wasn't read.
pub type ExprError = Failure<ExprFault>;

/// Why an expression has no value.
#[derive(Clone, Copy, Debug, PartialEq, Eq)]
pub enum NoValue {
    /// A product, a sum or a negation leaves the 128 bits.
    Overflow,
    /// A divisor is 0.
    DivisionByZero,
}
