//! Files of YUV4MPEG2: a reader that gives the frames of an open input, and a writer of frames to an output.
//!
//! In layers: the limits of a file (`y4m_limits`) and how far a reader or a writer is (`y4m_state`), rows of a plane (`rows`), and the reader and the writer. The law of files is in `law`.
#![tactic(auto)]

pub mod law;
pub mod reader;
mod rows;
pub mod writer;
mod y4m_limits;
mod y4m_state;

pub use y4m_state::{Progress, Stage};

#[cfg(test)]
mod file_tests;
#[cfg(test)]
mod slow_reader;
