//! Tests of the crate `graph_node`, by its public calls alone: nodes between links with room for one parcel.
//!
//! They are a crate of their own, since a crate with tests is proved twice.
#![tactic(auto)]

#[cfg(test)]
mod far_ends;
#[cfg(test)]
mod look_tests;
#[cfg(test)]
mod node_tests;
