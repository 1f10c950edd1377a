//! Places of labels and pads: a filter, and a number there.
ghost use Rattle.std.specs.Prelude.{◌≡◌, ◌<◌, ◌≤◌, ◌^◌, ◌++◌, ℕ, Some, None, length, IfOk, MatchOption, option_copied};
ghost use Rattle.std.specs.List.{slice_get};
ghost use Rattle.graph_plan.specs.Graphs.{item, labels, kinds, label, kind, places, places_of, pads_on};
ghost use Rattle.graph_plan.specs.Joining.{graph_of};

use crate::plan::Pads;
use av_base::{List, Media, NoMemory, Text};
use graph_text::FilterCall;
use std::alloc::Global;

/// The two sides of a filter.
#[derive(Clone, Copy, Debug, PartialEq, Eq)]
pub(crate) enum Side {
    /// What it takes.
    In,
    /// What it gives.
    Out,
}

/// The place of a pad, or of a label that names one.
#[derive(Clone, Copy, Debug, PartialEq, Eq)]
pub(crate) struct Place {
    /// The filter's number, counted from 0.
    pub(crate) filter: u32,
    /// The pad's number on its side, counted from 0.
    pub(crate) pad: u32,
}

/// What links are made from.
#[derive(Clone, Copy)]
pub(crate) struct Parts<'t, 'p, 'f> {
    /// The calls of the text.
    pub(crate) calls: &'t [FilterCall],
    /// The pads of each call's filter.
    pub(crate) pads: &'p [Pads],
    /// What each input file gives.
    pub(crate) files: &'f [Media],
}

/// The labels of a call, before its name or after it.
pub(crate) fn labels(call: &FilterCall, side: Side) -> &[Text]
    ensures { result.now ≡ labels side call.now }
{
    match side {
        Side::In => call.ins.as_slice(),
        Side::Out => call.outs.as_slice(),
    }
}

/// What the pads of a filter take, or give.
pub(crate) fn kinds(pads: &Pads, side: Side) -> &[Media]
    ensures { result.now ≡ kinds side pads.now }
{
    match side {
        Side::In => pads.ins.as_slice(),
        Side::Out => pads.outs.as_slice(),
    }
}

/// The label of a pad, if it has one.
pub(crate) fn label_of<'t>(parts: &Parts<'t, '_, '_>, side: Side, place: Place) -> Option<&'t str>
    ensures { MatchOption result
        (label (graph_of parts.now) side place.filter place.pad ≡ None)
        (λ name. label (graph_of parts.now) side place.filter place.pad ≡ Some name.now) }
{
    let call = parts.calls.get(place.filter as usize)?;
    let label = labels(call, side).get(place.pad as usize)?;
    Some(label.as_str())
}

/// What a pad takes, or gives, if it is there.
pub(crate) fn kind_of(parts: &Parts, side: Side, place: Place) -> Option<Media>
    ensures { result ≡ kind (graph_of parts.now) side place.filter place.pad }
{
    let pads = parts.pads.get(place.filter as usize)?;
    kinds(pads, side).get(place.pad as usize).copied()
}

/// Adds the first `count` places of a filter.
fn push_places(mut places: Vec<Place>, filter: u32, count: usize) -> Result<Vec<Place>, NoMemory>
    requires { count ≤ 2 ^ 32 }
    ensures { IfOk result (λ all. all.items ≡ places.items ++ places_of filter 0 count) }
{
    'pads: for pad in 0..count {
        let pad = pad as u32;
        places.push(Place { filter, pad })?;
    }
    Ok(places)
}

/// The places of all labels of a side, in order.
pub(crate) fn label_places(
    alloc: Global,
    calls: &[FilterCall],
    side: Side,
) -> Result<Vec<Place>, NoMemory>
    requires calls { length calls.now ≤ 2 ^ 32 }
    requires each { (k : ℕ) (call : FilterCall) → slice_get calls.now k ≡ Some call → length (labels side call) ≤ 2 ^ 32 }
    ensures { IfOk result (λ all. all.items ≡ places (λ (c : FilterCall). length (labels side c)) 0 calls.now) }
{
    let mut places = Vec::new(alloc);
    'calls: for (filter, call) in calls.iter().enumerate() {
        places = push_places(places, filter as u32, labels(call, side).len())?;
    }
    Ok(places)
}

/// The places of all pads of a side, in order.
pub(crate) fn pad_places(alloc: Global, pads: &[Pads], side: Side) -> Result<Vec<Place>, NoMemory>
    requires filters { length pads.now ≤ 2 ^ 32 }
    requires each { (k : ℕ) (p : Pads) → slice_get pads.now k ≡ Some p → length (kinds side p) ≤ 2 ^ 32 }
    ensures { IfOk result (λ all. all.items ≡ places (λ (p : Pads). length (kinds side p)) 0 pads.now) }
{
    let mut places = Vec::new(alloc);
    'filters: for (filter, of_filter) in pads.iter().enumerate() {
        places = push_places(places, filter as u32, kinds(of_filter, side).len())?;
    }
    Ok(places)
}
