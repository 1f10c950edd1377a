//! The limits of YUV4MPEG2 files that the reader and the writer keep to, and the line that begins a frame.

/// The greatest number of bytes that one call of the host gives or takes (`piece_size`).
pub(crate) const PIECE: usize = 65536;

/// The greatest number of bytes of a header line, with its line feed (`longest_line`).
pub(crate) const LINE_MAX: usize = 1024;

/// The greatest number of bytes of a frame's line, with its line feed (`longest_mark`).
pub(crate) const MARK_MAX: usize = 256;

/// The line that begins a frame, as it is written.
pub(crate) const FRAME_MARK: &[u8; 6] = b"FRAME\n";

/// The first bytes of a frame's line that has parameters.
pub(crate) const SPACED_MARK: &[u8; 6] = b"FRAME ";

/// What a header line begins with.
pub(crate) const MAGIC: &[u8; 9] = b"YUV4MPEG2";
