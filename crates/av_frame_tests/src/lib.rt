//! Tests of the crate `av_frame`, by its public calls alone: frames, filters in whole, and options.
//!
//! They are a crate of their own, since a crate with tests is proved twice.
#![tactic(auto)]

#[cfg(test)]
mod cards;
#[cfg(test)]
mod filter_tests;
#[cfg(test)]
mod frame_tests;
#[cfg(test)]
mod option_tests;
#[cfg(test)]
mod small_filters;
#[cfg(test)]
mod synced;
