//! Tests of all filters for pictures, by calls in the graph language: names and arguments, settings, shapes and samples.
//!
//! Expected values are worked out from the documentation of the filters. The tests are a crate of their own, since a crate
//! with tests is proved twice.
#![tactic(auto)]

#[cfg(test)]
mod area_tests;
#[cfg(test)]
mod argument_tests;
#[cfg(test)]
mod calls;
#[cfg(test)]
mod format_tests;
#[cfg(test)]
mod lookup_tests;
#[cfg(test)]
mod picture_tests;
#[cfg(test)]
mod pictures;
#[cfg(test)]
mod setting_tests;
#[cfg(test)]
mod shape_tests;
