//! Why a header line is refused.

/// Why a header line is refused.
#[derive(Clone, Copy, Debug, PartialEq, Eq)]
pub enum HeaderFault {
    /// The line doesn't begin with `YUV4MPEG2`.
    NotMedia,
    /// A parameter or its value isn't in order, the size is missing, or the picture is too large.
    BadHeader,
    /// The line is in order but for the name of a colour, which is unknown.
    BadColour,
}
