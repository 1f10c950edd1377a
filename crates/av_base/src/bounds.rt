//! Limits that several crates share.

/// The greatest width, and the greatest height, of a picture, in samples (`greatest_side`).
pub const SIDE_MAX: u32 = 8192;

/// The greatest number of bytes of a picture (`greatest_picture`).
pub const PICTURE_MAX: u64 = 1 << 26;
