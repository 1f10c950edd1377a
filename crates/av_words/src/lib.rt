//! Command lines: what each word is, the first fault of the words, and the command that they mean if there is none.
#![tactic(auto)]

mod command_parts;
mod command_words;
pub mod law;
mod line_checks;
mod word_checks;
mod word_faults;
mod word_roles;
mod word_values;

pub use command_words::{Command, InputWord, OutputWord, read_words};
pub use word_faults::WordError;

#[cfg(test)]
mod word_tests;
