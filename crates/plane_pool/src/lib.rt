//! Planes of words that several owners share, and that are written only while nobody reads them.
//!
//! A pool makes slots and gives each as a draft. A draft is written and then sealed. A sealed slot is read through
//! references. Each has a weight, and word 0 of the slot is the sum of all weights: so the slot is free at 0, and a reference
//! of the whole weight knows that it is alone. No lock is taken, and no call waits.
//!
//! The owners and the public calls are in `draft`, `plane_ref` and `pool`. Each changes a slot by one step of ten kinds
//! (`steps`). What owners know is a view (`view`), and what a step tells of it is in `plays`.
#![tactic(auto)]

mod draft;
mod keeper;
mod law;
mod plane_ref;
mod plays;
mod pool;
mod steps;
mod view;

pub use draft::{Draft, Uncut};
pub use law::{free_slots_wait_for_their_keeper, slots_keep_their_rule};
pub use plane_ref::{PlaneRef, Seen};
pub use pool::Pool;
