//! Tests of the crate `plane_pool`, by its public calls: slots that come back, weights, and threads that share slots.
//!
//! They are a crate of their own, since a crate with tests is proved twice.
#![tactic(auto)]

#[cfg(test)]
mod slot_tests;
#[cfg(test)]
mod thread_tests;
