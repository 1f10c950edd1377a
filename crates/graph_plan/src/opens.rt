//! Output pads that no filter takes.
ghost use Rattle.std.specs.Prelude.{◌≡◌, ◌<◌, ◌+◌, ◌↔◌, ◌++◌, ◌∷◌, [], ℕ, List, Some, IsTrue, IfOk, option_copied};
ghost use Rattle.std.specs.List.{slice_get};
ghost use Rattle.av_base.specs.declared.formats.Media.{Media};
ghost use Rattle.graph_plan.specs.declared.plan.OpenOut.{OpenOut};
ghost use Rattle.graph_text.specs.declared.graph.FilterCall.{FilterCall};
ghost use Rattle.graph_plan.specs.declared.places.Place.{Place};
ghost use Rattle.graph_plan.specs.declared.places.Side.TheVariants.{In, Out};
ghost use Rattle.graph_plan.specs.Graphs.{kind, pads_on, AreJoined};
ghost use Rattle.graph_plan.specs.Links.{AreLeft, out_pad};
ghost use Rattle.graph_plan.specs.Refusals.{IsOnOutput};
ghost use Rattle.graph_plan.specs.Joining.{graph_of, Notes, FitsTogether};

use crate::labels::LabelTable;
use crate::places::{Parts, Place, Side, kind_of, label_of, pad_places};
use crate::plan::OpenOut;
use av_base::{Media, NoMemory, Text};
use std::alloc::Global;

/// Whether another filter comes after this one in its chain.
fn is_followed(parts: &Parts, filter: usize) -> bool
    requires { filter < usize.MAX }
    ensures { IsTrue result ↔ ((first second : FilterCall) × (slice_get parts.now.calls.now filter ≡ Some first) × (slice_get parts.now.calls.now (filter + 1) ≡ Some second) × (first.chain ≡ second.chain)) }
{
    match (parts.calls.get(filter), parts.calls.get(filter + 1)) {
        (Some(first), Some(second)) => first.chain == second.chain,
        _ => false,
    }
}

/// Whether a filter takes what an output pad gives.
fn is_taken(parts: &Parts, ins: &LabelTable, giver: Place) -> bool
    requires fit { FitsTogether (graph_of parts.now) }
    requires ins { Notes (graph_of parts.now) In (IsOnOutput (graph_of parts.now)) ins.now }
    requires there { (gives : Media) × (kind (graph_of parts.now) Out giver.filter giver.pad ≡ Some gives) }
    ensures { IsTrue result ↔ ((taker : Place) × AreJoined (graph_of parts.now) giver taker) }
{
    match label_of(parts, Side::Out, giver) {
        Some(name) => ins.pads.contains_key(name),
        None => is_followed(parts, giver.filter as usize),
    }
}

/// A copy of an output pad's label, if it has one.
fn own_label(alloc: Global, name: Option<&str>) -> Result<Option<Text>, NoMemory>
    ensures { IfOk result (λ own. own ≡ option_copied name.entry) }
{
    match name {
        Some(name) => Ok(Some(Text::new(String::from_str(alloc, name)?))),
        None => Ok(None),
    }
}

/// Adds an output pad to those that are left.
fn push_open(
    mut opens: Vec<OpenOut>,
    alloc: Global,
    parts: &Parts,
    giver: Place,
    media: Media,
) -> Result<Vec<OpenOut>, NoMemory>
    ensures { IfOk result (λ all. all.items ≡ opens.items ++ out_pad (graph_of parts.now) giver media ∷ []) }
{
    let label = own_label(alloc, label_of(parts, Side::Out, giver))?;
    opens.push(OpenOut {
        filter: giver.filter,
        pad: giver.pad,
        label,
        media,
    })?;
    Ok(opens)
}

/// Adds an output pad to those that are left, if no filter takes it.
fn push_left(
    opens: Vec<OpenOut>,
    alloc: Global,
    parts: &Parts,
    ins: &LabelTable,
    giver: Place,
) -> Result<Vec<OpenOut>, NoMemory>
    requires fit { FitsTogether (graph_of parts.now) }
    requires ins { Notes (graph_of parts.now) In (IsOnOutput (graph_of parts.now)) ins.now }
    requires there { (gives : Media) × (kind (graph_of parts.now) Out giver.filter giver.pad ≡ Some gives) }
    ensures { IfOk result (λ all. (more : List OpenOut) × (all.items ≡ opens.items ++ more) × AreLeft (graph_of parts.now) (giver ∷ []) more) }
{
    let Some(media) = kind_of(parts, Side::Out, giver) else {
        return Ok(opens);
    };
    if is_taken(parts, ins, giver) {
        return Ok(opens);
    }
    push_open(opens, alloc, parts, giver, media)
}

/// The output pads that no filter takes, in order.
pub(crate) fn list_opens(
    alloc: Global,
    parts: &Parts,
    ins: &LabelTable,
) -> Result<Vec<OpenOut>, NoMemory>
    requires fit { FitsTogether (graph_of parts.now) }
    requires ins { Notes (graph_of parts.now) In (IsOnOutput (graph_of parts.now)) ins.now }
    ensures { IfOk result (λ opens. AreLeft (graph_of parts.now) (pads_on (graph_of parts.now) Out) opens.items) }
{
    let mut opens = Vec::new(alloc);
    let places = pad_places(alloc, parts.pads, Side::Out)?;
    'givers: for giver in places.as_slice() {
        opens = push_left(opens, alloc, parts, ins, *giver)?;
    }
    Ok(opens)
}
