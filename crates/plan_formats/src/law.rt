//! What a plan asks of the formats of its links.
ghost use Rattle.plan_formats.specs.PathFormats.{PlansAskOfFormats};

/// A plan asks only of links that it has. On a path every link has the format of the input's pictures, which each filter
/// takes and the output can hold. Its contract is the law; the call does nothing.
pub fn plans_ask_of_formats()
    ensures { PlansAskOfFormats }
{}
