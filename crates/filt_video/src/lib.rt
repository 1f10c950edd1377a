//! Filters of pictures without expressions: turned, negated, exchanged planes, chosen formats.
//!
//! Each filter is a file with its options and its rule (`FrameRule` of `av_filter`), and a file of `specs` with its
//! equation, its settings and their outcome.
#![tactic(auto)]

mod format;
mod format_list;
mod hflip;
mod negate;
mod null;
mod set;
mod shuffleplanes;
mod transpose;
mod vflip;

pub use format::{FormatFilter, FormatOptions, FormatRule};
pub use hflip::{Hflip, HflipRule};
pub use negate::{Negate, NegateRule};
pub use null::{Null, NullRule};
pub use set::{VideoOptions, VideoSettings};
pub use shuffleplanes::{PlaneOrder, Shuffleplanes};
pub use transpose::{Passthrough, Transpose, TransposeOptions, TransposeSettings, Turn};
pub use vflip::{Vflip, VflipRule};
