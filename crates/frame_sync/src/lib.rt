//! When the frames of several inputs meet: events by timestamps alone, after framesync.
#![tactic(auto)]

mod lane;
mod lanes;
mod law;
mod rules;
mod stamp;
mod timeline;

pub use law::{ended_inputs_end, events_are_one, events_begin, histories_show};
pub use rules::{After, Before, Rule, Step};
pub use timeline::Timeline;

#[cfg(test)]
mod checked;
#[cfg(test)]
mod slow_events;
#[cfg(test)]
mod tests;
