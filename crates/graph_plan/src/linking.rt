//! Links of a text's calls.
ghost use Rattle.std.specs.Prelude.{◌≡◌, ◌↔◌, ℕ, Some, None, length, IfOk, MatchOption};
ghost use Rattle.graph_plan.specs.declared.plan.DraftPlan.{DraftPlan};
ghost use Rattle.graph_plan.specs.declared.plan.Edge.{Edge};
ghost use Rattle.graph_plan.specs.declared.plan.PlanFault.{PlanFault};
ghost use Rattle.graph_plan.specs.declared.places.Place.{Place};
ghost use Rattle.graph_plan.specs.declared.plan.Source.TheVariants.{Filter};
ghost use Rattle.graph_plan.specs.declared.origins.Origin.TheVariants.{Pad};
ghost use Rattle.graph_plan.specs.Links.{link_to};
ghost use Rattle.av_base.specs.Failures.{IfFault, Gives, Refuses};
ghost use Rattle.av_base.specs.First.{Never};
ghost use Rattle.graph_plan.specs.Orders.{Feeds, IsOrder};
ghost use Rattle.graph_plan.specs.Graphs.{Graph, TakesFrom};
ghost use Rattle.graph_plan.specs.Refusals.{HasCycle, IsLinkFault, IsLinked, IsOnOutput, IsSmall, IsSound};
ghost use Rattle.graph_plan.specs.Joining.{graph_of, AreInlets, IsJoinedBy, Notes, FitsTogether};
ghost use Rattle.graph_plan.specs.declared.places.Side.TheVariants.{In};

use crate::counts::check_counts;
use crate::labels::{Labels, index_pads};
use crate::opens::list_opens;
use crate::order::{Arranged, arrange};
use crate::origins::{Inlet, Origin, check_kinds, list_inlets};
use crate::places::Parts;
use crate::plan::{DraftPlan, Edge, Pads, PlanError, PlanFault, Source, Target};
use crate::turns::take_files;
use av_base::{List, Media, NoMemory};
use graph_text::GraphText;
use std::alloc::Global;

/// The link between filters that an input pad has, if it has one.
fn joined_edge(inlet: &Inlet) -> Option<Edge>
    ensures { MatchOption result
        ((giver : Place) → ¬ (inlet.now.origin ≡ Pad giver))
        (λ edge. (giver : Place) × (inlet.now.origin ≡ Pad giver) × (edge ≡ link_to inlet.now.taker (Filter giver.filter giver.pad))) }
{
    let Origin::Pad(giver) = inlet.origin else {
        return None;
    };
    let from = Source::Filter {
        filter: giver.filter,
        pad: giver.pad,
    };
    let to = Target::Filter {
        filter: inlet.taker.filter,
        pad: inlet.taker.pad,
    };
    Some(Edge { from, to })
}

/// The links between filters.
fn list_joined(alloc: Global, inlets: &[Inlet]) -> Result<Vec<Edge>, NoMemory>
    ensures { IfOk result (λ edges. (giver taker : ℕ) → Feeds edges.items giver taker ↔ IsJoinedBy inlets.now giver taker) }
{
    let mut edges = Vec::new(alloc);
    'inlets: for inlet in inlets {
        if let Some(edge) = joined_edge(inlet) {
            edges.push(edge)?;
        }
    }
    Ok(edges)
}

/// The order of the filters.
fn order_filters(alloc: Global, parts: &Parts, inlets: &[Inlet]) -> Result<Vec<u32>, PlanError>
    requires fit { FitsTogether (graph_of parts.now) }
    requires inlets { AreInlets (graph_of parts.now) inlets.now }
    ensures order { IfOk result (λ order. IsOrder (TakesFrom (graph_of parts.now)) (length parts.now.calls.now) order.items) }
    ensures straight { IfOk result (λ _. Never (HasCycle (graph_of parts.now))) }
    ensures fault { (outputs : ℕ) → IsSound (graph_of parts.now) outputs → IfFault result (IsLinkFault (graph_of parts.now) outputs) }
{
    let joined = list_joined(alloc, inlets)?;
    match arrange(alloc, joined.as_slice(), parts.calls.len() as u32)? {
        Arranged::Order(order) => Ok(order),
        Arranged::Cycle { filter } => Err(PlanError::Fault(PlanFault::Cycle { filter })),
    }
}

/// The pads by their labels, and the input pads, in order, with where each takes from.
fn find_inlets<'a>(
    alloc: Global,
    parts: &Parts<'a, '_, '_>,
    outputs: u32,
) -> Result<(Labels<'a>, Vec<Inlet>), PlanError>
    requires { IsSmall (graph_of parts.now) }
    ensures sound { IfOk result (λ _. IsSound (graph_of parts.now) outputs) }
    ensures fit { IfOk result (λ _. FitsTogether (graph_of parts.now)) }
    ensures ins { IfOk result (λ p. Notes (graph_of parts.now) In (IsOnOutput (graph_of parts.now)) p.0.ins) }
    ensures inlets { IfOk result (λ p. AreInlets (graph_of parts.now) p.1.items) }
    ensures fault { IfFault result (IsLinkFault (graph_of parts.now) outputs) }
{
    check_counts(parts, outputs)?;
    let labels = index_pads(alloc, parts)?;
    let inlets = list_inlets(alloc, parts, &labels.outs)?;
    check_kinds(parts, inlets.as_slice())?;
    Ok((labels, inlets))
}

/// The plan of calls, as far as it needs no output files.
fn draft(alloc: Global, parts: &Parts, outputs: u32) -> Result<DraftPlan, PlanError>
    requires { IsSmall (graph_of parts.now) }
    ensures draft { IfOk result (IsLinked (graph_of parts.now) outputs) }
    ensures fault { IfFault result (IsLinkFault (graph_of parts.now) outputs) }
{
    let (labels, inlets) = find_inlets(alloc, parts, outputs)?;
    let order = order_filters(alloc, parts, inlets.as_slice())?;
    let links = take_files(alloc, parts, inlets.as_slice())?;
    let opens = list_opens(alloc, parts, &labels.ins)?;
    Ok(DraftPlan {
        links: List::new(links),
        order: List::new(order),
        opens: List::new(opens),
    })
}

/// The plan of a text's calls, as far as it needs no output files.
///
/// There are as many `pads` as calls: those of each call's filter. `inputs` says what each input file gives, and
/// `outputs` is the number of output files, which counts among the links. Labels before a filter name its first input
/// pads, labels after it name its first output pads. Equal labels on an output pad and an input pad make a link; in a
/// chain, the unlabelled output pads of a filter are linked to the unlabelled input pads of the next, in order. A label
/// of input pads alone names an input file: `N`, `N:v`, `N:v:0`, `N:a` or `N:a:0`. At last each input pad that is still
/// open, by filter and number, takes the first input file of its kind that nothing has taken. (FFmpeg Filters
/// Documentation, "Filtergraph syntax".)
///
/// There are fewer than 2^32 calls, output pads of a filter, and input files.
///
/// # Errors
/// The first of these that occurs: `TooManyLinks`, `PadCount`, `LabelTwice`, `UnknownInput`, `MediaMismatch`, `Cycle`,
/// `OpenPad`, each at the lowest filter, and pad, at which it occurs. Or out of memory.
pub fn link(
    alloc: Global,
    text: &GraphText,
    pads: &List<Pads>,
    inputs: &[Media],
    outputs: u32,
) -> Result<DraftPlan, PlanError>
    requires { IsSmall (record { calls = text.now.calls; pads = pads.now; files = inputs.now }) }
    ensures draft { IfOk result (IsLinked (record { calls = text.now.calls; pads = pads.now; files = inputs.now }) outputs) }
    // What has a draft isn't refused, and has no other.
    ensures links { (draft : DraftPlan) → IsLinked (record { calls = text.now.calls; pads = pads.now; files = inputs.now }) outputs draft → Gives (λ made. made ≡ draft) result }
    ensures fault { IfFault result (IsLinkFault (record { calls = text.now.calls; pads = pads.now; files = inputs.now }) outputs) }
    // What has a fault has no draft, and no other fault.
    ensures faulty { (f : PlanFault) → IsLinkFault (record { calls = text.now.calls; pads = pads.now; files = inputs.now }) outputs f → Refuses (λ found. found ≡ f) result }
{
    let parts = Parts {
        calls: text.calls.as_slice(),
        pads: pads.as_slice(),
        files: inputs,
    };
    draft(alloc, &parts, outputs)
}
