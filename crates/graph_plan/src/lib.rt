//! Plans: which pad gives to which, in which order the filters come, and which output file takes which pad.
#![tactic(auto)]

mod bind;
mod called;
mod counts;
mod labels;
mod law;
mod linking;
mod opens;
mod order;
mod origins;
mod places;
mod plan;
mod turns;

pub use counts::MOST_LINKS;
pub use law::{
    graphs_link_in_one_way, outputs_bind_in_one_way, plans_are_lawful, plans_have_one_order,
    plans_of_single_filters_are_paths,
};
pub use linking::link;
pub use plan::{
    DraftPlan, Edge, Ending, OpenOut, OutputFile, Pads, Plan, PlanError, PlanFault, Source, Target,
};

#[cfg(test)]
mod bind_tests;
#[cfg(test)]
mod linking_tests;
#[cfg(test)]
mod order_tests;
#[cfg(test)]
mod plan_tests;
