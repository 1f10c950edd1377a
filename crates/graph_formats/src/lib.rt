//! The formats of links: the first ones, by the format order, that meet all wishes and relations.
#![tactic(auto)]

mod across;
mod choice;
mod demands;
mod draft;
mod law;
mod request;
mod ties;

pub use choice::choose;
pub use law::formats_are_chosen_in_one_way;
pub use request::{FormatError, Relation, Wish};

#[cfg(test)]
mod slow_choice;
#[cfg(test)]
mod tests;
