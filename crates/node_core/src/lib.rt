//! The filters of a graph: which filter a call names, its options, its pads, and its settings and shapes.
#![tactic(auto)]

mod filters;
mod instance;
mod kind;
pub mod law;
mod name;
mod node;
mod ready;
mod wishes;

pub use filters::{FrameFilters, FrameOptions};
pub use instance::{Instance, made_frames_are_lawful};
pub use kind::Kind;
pub use node::{Node, new_node};
pub use ready::Ready;
pub use wishes::{PadLinks, Wishes};
