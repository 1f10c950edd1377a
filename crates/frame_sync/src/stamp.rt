//! A frame without its content.

/// A frame by its number and its time.
#[derive(Clone, Copy)]
pub(crate) struct Stamp {
    /// Its number among its input's frames, counted from 0.
    pub(crate) number: u64,
    /// Its time.
    pub(crate) pts: i64,
}
