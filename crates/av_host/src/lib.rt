//! The outside: named inputs and outputs, and a place to print.
#![tactic(auto)]

mod host;
mod host_runs;
mod memory;
mod memory_calls;
mod parts;
mod real;
mod real_files;

pub use host::{Failed, Host, HostError};
pub use host_runs::{fill, say_all, write_all};
pub use parts::MemoryHost;
pub use real::RealHost;

#[cfg(test)]
mod real_tests;
#[cfg(test)]
mod tests;
