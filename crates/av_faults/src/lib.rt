//! What stops a command: each fault with its place, its status and its line. And the lines of the report of a command that
//! was done.
#![tactic(auto)]

mod fault;
mod lines;
mod report;

pub use fault::{Fault, LimitKind, Stop};
pub use lines::{LINE_ROOM, line, status};
pub use report::{input_line, output_line};

#[cfg(test)]
mod fault_tests;
