//! Texts have one reading or one fault.
ghost use Rattle.graph_text.specs.Laws.{GraphsHaveOneReading};

/// Every text says one list of calls or has one fault, and never both.
pub fn graphs_have_one_reading()
    ensures { GraphsHaveOneReading }
{}
