//! How far a reader or a writer is.

use av_base::Shape;

/// How far a reader is.
#[derive(Clone, Copy, Debug, PartialEq, Eq)]
pub enum Stage {
    /// Nothing was read.
    Fresh,
    /// The header was read, and stated this shape.
    Headed(Shape),
    /// A call failed, and no other may be made.
    Spent,
}

/// How far a writer is.
#[derive(Clone, Copy, Debug, PartialEq, Eq)]
pub enum Progress {
    /// Nothing was written.
    Fresh,
    /// The header was written, and no end yet.
    Started,
    /// A call failed or the end was written, and no other call may be made.
    Spent,
}
