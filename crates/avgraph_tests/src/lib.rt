//! Tests of the top call: command lines over hosts in memory and over real files.
//!
//! Expected values are worked out by hand from the rules of the command, the graph language and the filters. The tests are a
//! crate of their own, since a crate with tests is proved twice.
#![tactic(auto)]

#[cfg(test)]
mod command_tests;
#[cfg(test)]
mod commands;
#[cfg(test)]
mod file_tests;
#[cfg(test)]
mod host_tests;
#[cfg(test)]
mod run_tests;
#[cfg(test)]
mod text_tests;
