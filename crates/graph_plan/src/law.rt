//! Laws of plans: what exists is unique, and what a plan keeps to.
ghost use Rattle.graph_plan.specs.Orders.{OneOrder};
ghost use Rattle.graph_plan.specs.Refusals.{GraphsLinkInOneWay};
ghost use Rattle.graph_plan.specs.Bindings.{OutputsBindInOneWay};
ghost use Rattle.graph_plan.specs.Lawful.{PlansAreLawful};
ghost use Rattle.graph_plan.specs.Paths.{PlansArePaths};

/// Links have at most one order of filters, and they have one exactly if no filter reaches itself.
pub fn plans_have_one_order()
    ensures { OneOrder }
{}

/// A draft has one bound plan or one fault, and never both.
pub fn outputs_bind_in_one_way()
    ensures { OutputsBindInOneWay }
{}

/// A small graph has exactly one draft or exactly one fault, always.
pub fn graphs_link_in_one_way()
    ensures { GraphsLinkInOneWay }
{}

/// In a plan the ends of links are there and agree, each input pad and each output file is the end of one link, and each
/// filter comes once, after those that it takes from.
pub fn plans_are_lawful()
    ensures { PlansAreLawful }
{}

/// The plan of one input, one output and filters that take one stream and give one is a path from the input through all
/// filters, in their order, to the output.
pub fn plans_of_single_filters_are_paths()
    ensures { PlansArePaths }
{}
