//! What a graph means: the functions of its filters, composed along its links, on whole streams.
#![tactic(auto)]

ghost use Rattle.graph_meaning.specs.Laws.{MeaningLaw, PrefixLaw, QuietLaw, WantLaw};

/// Shows the laws of composition, on any streams that nodes and links tell of.
///
/// - `meaning`: the streams of a plan are the only ones that agree with the function of each node.
/// - `prefix`: what a node has given begins the stream that the plan gives there.
/// - `quiet`: if nothing more can move, each output that isn't closed has given all of it.
/// - `wants`: if nothing more can move, each output that is wanted leads to an input of the graph that is wanted.
pub fn composes()
    ensures meaning { MeaningLaw }
    ensures prefix { PrefixLaw }
    ensures quiet { QuietLaw }
    ensures wants { WantLaw }
{}
