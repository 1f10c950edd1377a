//! Formats are chosen in one way.
ghost use Rattle.graph_formats.specs.Assignments.{FormatsAreChosenInOneWay};

/// Wishes and relations have exactly one chosen assignment or exactly one fault, and no assignment if there is a fault.
pub fn formats_are_chosen_in_one_way()
    ensures { FormatsAreChosenInOneWay }
{}
