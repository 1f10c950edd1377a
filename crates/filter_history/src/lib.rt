//! Histories of filters: what was offered to a filter, and what it gave.
//!
//! The clauses and laws of the filters' trait are said of histories (`history`). They hold of every filter.
#![tactic(auto)]

pub mod history;
