//! Frames: pictures as planes of rows of samples, with their time; and the trait of filters.
//!
//! In layers: the bytes of a plane (`page`), where its rows are among them (`geometry`), rows and samples (`plane`),
//! frames and their edits (`frame`, `edit`), pictures made sample by sample or row by row (`kernel`), and rows
//! mapped in place (`rows`). Where a column and a row of a picture are in each plane is said by `grid`.
//!
//! Above them are filters: the trait of all (`filter`), and filters that work frame by frame (`each`). What refuses
//! options and settings is in `refusals`.
#![tactic(auto)]

mod each;
mod edit;
mod faults;
mod filter;
mod frame;
mod geometry;
mod grid;
mod kernel;
mod page;
mod plane;
mod queues;
mod refusals;
mod rows;

pub use each::{Each, PerFrame};
pub use edit::Edit;
pub use faults::{HeadError, NextError, WriteError};
pub use filter::{Filter, Given, Returned};
pub use frame::{Frame, Pools, Unedited};
pub use grid::{chroma_step, place_in};
pub use kernel::{Kernel, paint};
pub use refusals::{ConfigError, OptionError};
pub use rows::{RowMap, map_rows};
