//! What a reader or a writer of a file returns if it can't go on.

/// Why a header was refused.
#[derive(Clone, Copy, Debug, PartialEq, Eq)]
pub enum HeadError {
    /// The input is no file of this kind.
    NotMedia,
    /// The header isn't in order.
    BadHeader,
    /// The header is in order but for its colour, which is unknown.
    BadColour,
    /// The header isn't whole within the limit of bytes.
    TooLong,
    /// The host failed, and its count of reads rose in this call.
    Host,
    /// Out of memory.
    NoMemory,
}

/// Why the next frame was refused.
#[derive(Clone, Copy, Debug, PartialEq, Eq)]
pub enum NextError {
    /// The bytes after so many whole frames begin no frame, whatever follows.
    BadFrame {
        /// The number of whole frames before it.
        frame: u64,
    },
    /// The input ends within a frame.
    Truncated {
        /// The number of whole frames before it.
        place: u64,
    },
    /// The input goes on past the limit of bytes, and no frame is whole within it.
    TooLong,
    /// The host failed, and its count of reads rose in this call.
    Host,
    /// Out of memory.
    NoMemory,
}

/// Why a text wasn't written to its end.
#[derive(Clone, Copy, Debug, PartialEq, Eq)]
pub enum WriteError {
    /// The host failed, and its count of writes rose in this call.
    Host,
    /// Out of memory.
    NoMemory,
}
