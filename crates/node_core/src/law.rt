//! A call means one filter or is refused for one fault, and a filter has one outcome for pictures of a shape.
ghost use Rattle.node_core.specs.Laws.{CallsHaveOneMeaning, FiltersHaveOneOutcome};

/// Every call means one filter or is refused for one fault, and never both; out of memory is no fault of a call. (Two sets
/// of formats that a call means have the same members.)
pub fn calls_have_one_meaning()
    ensures { CallsHaveOneMeaning }
{}

/// Every filter that a call means has, for pictures of a shape, one set of settings and one shape of its output, or is
/// refused for one fault, and never both.
pub fn filters_have_one_outcome()
    ensures { FiltersHaveOneOutcome }
{}
