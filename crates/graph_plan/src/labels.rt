//! Tables of labels.
ghost use Rattle.std.specs.Prelude.{◌≡◌, ◌↔◌, ◌++◌, ◌∷◌, [], ℕ, List, None, Some, IsTrue, IfOk};
ghost use Rattle.graph_plan.specs.declared.labels.LabelTable.{LabelTable};
ghost use Rattle.graph_plan.specs.declared.places.Side.{Side};
ghost use Rattle.graph_plan.specs.declared.places.Place.{Place};
ghost use Rattle.av_base.specs.Failures.{IfFault};
ghost use Rattle.graph_plan.specs.Graphs.{Graph, label};
ghost use Rattle.graph_plan.specs.Refusals.{HasTooMany, IsLinkFault, IsOnOutput};
ghost use Rattle.graph_plan.specs.declared.places.Side.TheVariants.{In, Out};
ghost use Rattle.graph_plan.specs.Joining.{graph_of, pad_of, IsNoted, HasSeen, Notes, IsCounted, IsLesser, FitsTogether};

use crate::places::{Parts, Place, Side, label_of, label_places};
use crate::plan::{PlanError, PlanFault};
use av_base::NoMemory;
use indexmap::IndexMap;
use std::alloc::Global;

/// The pads of one side by their labels.
#[derive(Drop)]
pub(crate) struct LabelTable<'a> {
    /// The first pad with each label.
    pub(crate) pads: IndexMap<&'a str, Place>,
    /// The filter of the first pad whose label is also on an earlier pad.
    pub(crate) twice: Option<u32>,
}

impl LabelTable<'_> {
    /// A table without labels.
    pub(crate) fn new(alloc: Global) -> Self
        ensures pads { (name : List ℕ) → pad_of result name ≡ None }
        ensures twice { result.twice ≡ None }
    {
        LabelTable {
            pads: IndexMap::new(alloc),
            twice: None,
        }
    }
}

/// Whether a label is to be noted: each one of an output pad is, and one of an input pad if the other table has it.
fn is_noted(side: Side, others: &LabelTable, name: &str) -> bool
    ensures { IsTrue result ↔ IsNoted side others.now name.now }
{
    match side {
        Side::Out => true,
        Side::In => others.pads.contains_key(name),
    }
}

/// Notes a label and its pad.
fn note_label<'a>(table: &mut LabelTable<'a>, name: &'a str, place: Place) -> Result<(), NoMemory>
    ensures { (graph : Graph) (side : Side) (others : LabelTable) (seen : List Place)
        → label graph side place.filter place.pad ≡ Some name.now → IsNoted side others name.now
        → HasSeen graph side (IsNoted side others) seen table.old → IfOk result (λ _. HasSeen graph side (IsNoted side others) (seen ++ place ∷ []) table.new) }
{
    if table.pads.contains_key(name) {
        table.twice = table.twice.or(Some(place.filter));
        return Ok(());
    }
    table.pads.insert(name, place)?;
    Ok(())
}

/// Notes the label of a place, if it is to be noted.
fn note_place<'a>(
    table: &mut LabelTable<'a>,
    parts: &Parts<'a, '_, '_>,
    side: Side,
    others: &LabelTable,
    place: Place,
) -> Result<(), NoMemory>
    ensures { (seen : List Place) → HasSeen (graph_of parts.now) side (IsNoted side others.now) seen table.old
        → IfOk result (λ _. HasSeen (graph_of parts.now) side (IsNoted side others.now) (seen ++ place ∷ []) table.new) }
{
    let Some(name) = label_of(parts, side, place) else {
        return Ok(());
    };
    if !is_noted(side, others, name) {
        return Ok(());
    }
    note_label(table, name, place)
}

/// The pads of a side by their labels. For input pads, only the labels that the other table has too.
fn index_labels<'a>(
    alloc: Global,
    parts: &Parts<'a, '_, '_>,
    side: Side,
    others: &LabelTable,
) -> Result<LabelTable<'a>, NoMemory>
    requires { IsCounted (graph_of parts.now) }
    ensures { IfOk result (Notes (graph_of parts.now) side (IsNoted side others.now)) }
{
    let mut table = LabelTable::new(alloc);
    let places = label_places(alloc, parts.calls, side)?;
    'labels: for place in places.as_slice() {
        note_place(&mut table, parts, side, others, *place)?;
    }
    Ok(table)
}

/// The lesser of two numbers that may be there.
fn lesser(first: Option<u32>, second: Option<u32>) -> Option<u32>
    ensures { IsLesser first second result }
{
    match (first, second) {
        (Some(one), Some(other)) => Some(one.min(other)),
        (Some(one), None) => Some(one),
        (None, other) => other,
    }
}

/// The output pads by their labels, and the input pads by those of their labels that are also on output pads.
#[derive(Drop)]
pub(crate) struct Labels<'a> {
    /// The output pads.
    pub(crate) outs: LabelTable<'a>,
    /// The input pads.
    pub(crate) ins: LabelTable<'a>,
}

/// The pads by their labels. No label occurs twice.
pub(crate) fn index_pads<'a>(
    alloc: Global,
    parts: &Parts<'a, '_, '_>,
) -> Result<Labels<'a>, PlanError>
    requires { IsCounted (graph_of parts.now) }
    ensures outs { IfOk result (λ l. Notes (graph_of parts.now) Out (λ name. Unit {0}) l.outs) }
    ensures ins { IfOk result (λ l. Notes (graph_of parts.now) In (IsOnOutput (graph_of parts.now)) l.ins) }
    ensures fit { IfOk result (λ _. FitsTogether (graph_of parts.now)) }
    ensures fault { (outputs : ℕ) → ¬ HasTooMany (graph_of parts.now) outputs → IfFault result (IsLinkFault (graph_of parts.now) outputs) }
{
    let outs = index_labels(alloc, parts, Side::Out, &LabelTable::new(alloc))?;
    let ins = index_labels(alloc, parts, Side::In, &outs)?;
    if let Some(filter) = lesser(outs.twice, ins.twice) {
        return Err(PlanError::Fault(PlanFault::LabelTwice { filter }));
    }
    Ok(Labels { outs, ins })
}
