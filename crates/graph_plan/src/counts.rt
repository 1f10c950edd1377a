//! How many links and pads there are.
ghost use Rattle.std.specs.Prelude.{◌≡◌, ◌<◌, ◌≤◌, ◌+◌, ◌-◌, ◌↔◌, ℕ, length, sum_by, IsTrue, IfOk, IfSome, IsNone};
ghost use Rattle.av_base.specs.Failures.{IfFault};
ghost use Rattle.av_base.specs.First.{IsFirst, Never};
ghost use Rattle.graph_plan.specs.Graphs.{labels, kinds};
ghost use Rattle.graph_plan.specs.Refusals.{most_links, HasTooMany, HasWrongPads, HasMoreLabels, LacksInput, IsLinkFault, IsSmall};
ghost use Rattle.graph_plan.specs.Joining.{graph_of, IsCounted};

use crate::places::{Parts, Side, kinds, labels};
use crate::plan::{Pads, PlanError, PlanFault};
use graph_text::FilterCall;

/// The greatest number of links (`most_links`).
pub const MOST_LINKS: usize = 1024;

/// Whether the input pads and the outputs are more than the greatest number of links.
fn has_too_many(pads: &[Pads], outputs: u32) -> bool
    ensures { IsTrue result ↔ most_links < sum_by (λ (p : Pads). length p.ins) pads.now + outputs }
{
    let mut total = outputs as usize;
    'filters: for of_filter in pads {
        if total > MOST_LINKS {
            return true;
        }
        total += of_filter.ins.as_slice().len();
    }
    total > MOST_LINKS
}

/// Whether a call has more labels of a side than its filter has pads there.
fn has_more_labels(call: &FilterCall, pads: &Pads, side: Side) -> bool
    ensures { IsTrue result ↔ length (kinds side pads.now) < length (labels side call.now) }
{
    labels(call, side).len() > kinds(pads, side).len()
}

/// How many pads of a side have no label.
fn unlabelled(call: &FilterCall, pads: &Pads, side: Side) -> usize
    ensures { result ≡ length (kinds side pads.now) - length (labels side call.now) }
{
    kinds(pads, side)
        .len()
        .saturating_sub(labels(call, side).len())
}

/// Whether the filter before it in its chain has more unlabelled output pads than a filter has unlabelled input pads.
fn lacks_input(parts: &Parts, filter: usize) -> bool
    requires each { length parts.now.pads.now ≡ length parts.now.calls.now }
    requires there { filter < length parts.now.calls.now }
    ensures { IsTrue result ↔ LacksInput (graph_of parts.now) filter }
{
    let Some(before) = filter.checked_sub(1) else {
        return false;
    };
    let (first, second) = (&parts.calls[before], &parts.calls[filter]);
    let given = unlabelled(first, &parts.pads[before], Side::Out);
    first.chain == second.chain && given > unlabelled(second, &parts.pads[filter], Side::In)
}

/// Whether the labels and pads of a filter don't fit.
fn has_wrong_pads(parts: &Parts, filter: usize) -> bool
    requires each { length parts.now.pads.now ≡ length parts.now.calls.now }
    requires there { filter < length parts.now.calls.now }
    ensures { IsTrue result ↔ HasWrongPads (graph_of parts.now) filter }
{
    let (call, pads) = (&parts.calls[filter], &parts.pads[filter]);
    has_more_labels(call, pads, Side::In)
        || has_more_labels(call, pads, Side::Out)
        || lacks_input(parts, filter)
}

/// The first filter whose labels and pads don't fit.
fn first_wrong_pads(parts: &Parts) -> Option<usize>
    requires { length parts.now.pads.now ≡ length parts.now.calls.now }
    ensures wrong { IfSome result (IsFirst (HasWrongPads (graph_of parts.now))) }
    ensures within { IfSome result (λ f. f < length parts.now.calls.now) }
    ensures none { IsNone result → Never (HasWrongPads (graph_of parts.now)) }
{
    'filters: for filter in 0..parts.calls.len() {
        if has_wrong_pads(parts, filter) {
            return Some(filter);
        }
    }
    None
}

/// Checks that the links aren't too many, and that labels and pads fit.
pub(crate) fn check_counts(parts: &Parts, outputs: u32) -> Result<(), PlanError>
    requires { IsSmall (graph_of parts.now) }
    ensures few { IfOk result (λ _. ¬ HasTooMany (graph_of parts.now) outputs) }
    ensures counted { IfOk result (λ _. IsCounted (graph_of parts.now)) }
    ensures fault { IfFault result (IsLinkFault (graph_of parts.now) outputs) }
{
    if has_too_many(parts.pads, outputs) {
        return Err(PlanError::Fault(PlanFault::TooManyLinks));
    }
    if let Some(filter) = first_wrong_pads(parts) {
        let filter = filter as u32;
        return Err(PlanError::Fault(PlanFault::PadCount { filter }));
    }
    Ok(())
}
