//! Filters of pictures whose options are expressions: cut, framed, looked up.
//!
//! Each filter is a file with its options and its rule (`FrameRule` of `av_filter`), and a file of `specs` with its
//! equation, its settings and their outcome. What they share is beside them: the values of expressions (`worth`), and
//! sizes and places (`geometry`).
#![tactic(auto)]

mod colour;
mod crop;
mod geometry;
mod lutyuv;
mod pad;
mod paste;
mod set;
mod worth;

pub use colour::Colour;
pub use crop::{Crop, CropOptions, CropSettings};
pub use lutyuv::{Lutyuv, LutyuvOptions, LutyuvSettings};
pub use pad::{Pad, PadOptions, PadSettings};
pub use set::{ExprOptions, ExprSettings};
