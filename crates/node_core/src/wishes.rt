//! What filters ask of the formats of their links.
use av_base::List;
use graph_formats::{Relation, Wish};

/// The links of a filter, by their numbers.
#[derive(Drop)]
pub struct PadLinks {
    /// The links to its input pads, by pad.
    pub ins: List<u32>,
    /// The links from its output pads, by pad.
    pub outs: List<u32>,
}

/// What a filter asks of the formats of its links.
#[derive(Drop)]
pub struct Wishes {
    /// The formats that its links can have.
    pub wishes: List<Wish>,
    /// What the formats of two of its links have to do with each other.
    pub relations: List<Relation>,
}
