//! The form of a filter: what one that works frame by frame is made of.
//!
//! A filter is a rule (`rule`, `plain`), which reads options (`options`), checks the limits (`limits`) and makes one frame
//! of each (`framewise`). Several rules are one list (`rule_set`). Pictures are made in place (`mapping`) or painted
//! anew (`painting`, `source`).
//!
//! Whole streams go through any filter by `whole`.
#![tactic(auto)]

mod framewise;
mod limits;
mod mapping;
mod options;
mod painting;
mod plain;
mod rule;
mod rule_set;
mod source;
mod whole;

pub use framewise::{Framewise, Placed};
pub use limits::{check_limits, check_shape, picture_parts, picture_size};
pub use mapping::map_frame;
pub use options::{
    NoOptions, Options, arguments_have_one_reading, read_flag, read_options, read_whole_within,
};
pub use painting::paint_frame;
pub use plain::{Plain, PlainRule};
pub use rule::{FrameRule, NamedRule};
pub use rule_set::{One, Or, RuleSet, Sets};
pub use source::{read_column, read_part, read_sample, size_of};
pub use whole::filter_whole;
