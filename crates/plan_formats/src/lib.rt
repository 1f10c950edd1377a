//! The formats of a plan's links: what its filters and its files ask of them, and the choice.
#![tactic(auto)]

mod choice;
pub mod law;
mod pads;

pub use choice::choose_formats;

#[cfg(test)]
mod tests;
