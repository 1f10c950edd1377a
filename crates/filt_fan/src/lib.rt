//! Filters that give their input on several outputs.
#![tactic(auto)]

mod fan;

pub use fan::{Asplit, ShareRule, Split, split};
