//! A node of a graph: a filter with the ends of its links.
//!
//! A node takes frames from its inputs, offers them to its filter and sends what the filter gives (`node`, and for users
//! `calls`). An input and an output are a port with a frame that waits (`inlet`, `outlet`, `ends`). One step of the filter
//! at one port is in `steps`. The two ends of a link are looked at together (`looks`, `beside`). What each call of a port
//! does to the counted moves is said in `ports`.
#![tactic(auto)]

mod beside;
mod calls;
mod ends;
mod inlet;
mod looks;
mod node;
mod outlet;
pub mod ports;
mod shapes;
mod steps;

pub use node::{Node, Turned};
