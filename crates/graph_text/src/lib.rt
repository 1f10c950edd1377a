//! The filtergraph language: a text and the filters that it calls.
#![tactic(auto)]

mod arguments;
mod filter;
mod graph;
mod labels;
mod law;
mod names;

pub use graph::{FilterCall, GraphText, parse};
pub use law::graphs_have_one_reading;

#[cfg(test)]
mod tests;
