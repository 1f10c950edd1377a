//! Where each input pad takes from, before open ones take what is left.
ghost use Rattle.std.specs.Prelude.{◌≡◌, ◌<◌, ◌↔◌, ℕ, Option, Some, None, length, IsTrue, IfOk, IfSome, IsNone, MatchOption};
ghost use Rattle.std.specs.List.{slice_get};
ghost use Rattle.av_base.specs.declared.formats.Media.{Media};
ghost use Rattle.graph_plan.specs.declared.places.Place.{Place};
ghost use Rattle.graph_plan.specs.declared.places.Side.TheVariants.{In, Out};
ghost use Rattle.graph_plan.specs.declared.origins.Origin.TheVariants.{File};
ghost use Rattle.av_base.specs.Failures.{IfFault};
ghost use Rattle.av_base.specs.First.{Never};
ghost use Rattle.graph_plan.specs.Graphs.{AreNeighbours, SaysFile, SaysKind};
ghost use Rattle.graph_plan.specs.Refusals.{HasTooMany, HasUnknownInput, HasMismatch, IsLinkFault, IsSmall};
ghost use Rattle.graph_plan.specs.Joining.{graph_of, Notes, IsUnknown, IsOriginOf, IsInlet, AreInlets, Differ, IsMismatched, FitsTogether};

use crate::labels::LabelTable;
use crate::places::{Parts, Place, Side, kind_of, label_of, labels, pad_places};
use crate::plan::{PlanError, PlanFault};
use av_base::Media;
use av_text::{Class, read_digits, split_run};
use std::alloc::Global;

/// Where an input pad takes from.
#[derive(Clone, Copy, Debug, PartialEq, Eq)]
pub(crate) enum Origin {
    /// From an output pad that the text joins to it.
    Pad(Place),
    /// From a file that its label names.
    File {
        /// The file's number.
        file: u32,
        /// What the label says that the file gives.
        said: Option<Media>,
    },
    /// From what is left.
    Open,
}

/// An input pad and where it takes from.
#[derive(Clone, Copy, Debug, PartialEq, Eq)]
pub(crate) struct Inlet {
    /// The pad.
    pub(crate) taker: Place,
    /// Where it takes from.
    pub(crate) origin: Origin,
}

/// What the text after the number of a file says that the file gives. `None` if it says something else.
fn read_kind(text: &str) -> Option<Option<Media>>
    ensures said { IfSome result (SaysKind text.now) }
    ensures only { (said : Option Media) → SaysKind text.now said → result ≡ Some said }
{
    match text {
        "" => Some(None),
        ":v" | ":v:0" => Some(Some(Media::Video)),
        ":a" | ":a:0" => Some(Some(Media::Audio)),
        _ => None,
    }
}

/// The file that a label names, and what it says that the file gives.
fn read_file(name: &str) -> Option<(u32, Option<Media>)>
    ensures said { IfSome result (λ p. SaysFile name.now p.0 p.1) }
    ensures only { (file : ℕ) (said : Option Media) → SaysFile name.now file said → result ≡ Some (file, said) }
{
    let (digits, suffix) = split_run(name, Class::Digit);
    let file = read_digits(digits, 1, 4)?;
    let said = read_kind(suffix)?;
    Some((file as u32, said))
}

/// The file that a label names, if it names one.
fn named_file(parts: &Parts, name: &str) -> Option<Origin>
    ensures { MatchOption result
        ((file : ℕ) (said : Option Media) → SaysFile name.now file said → ¬ (file < length parts.now.files.now))
        (λ o. (file : ℕ) × (said : Option Media) × (o ≡ File file said) × SaysFile name.now file said × (file < length parts.now.files.now)) }
{
    let (file, said) = read_file(name)?;
    if (file as usize) < parts.files.len() {
        Some(Origin::File { file, said })
    } else {
        None
    }
}

/// The output pad of the filter before it in its chain that gives to an unlabelled input pad.
fn neighbour(parts: &Parts, taker: Place) -> Option<Place>
    requires { IsSmall (graph_of parts.now) }
    ensures { MatchOption result
        ((giver : Place) → ¬ AreNeighbours (graph_of parts.now) giver taker)
        (λ giver. AreNeighbours (graph_of parts.now) giver taker) }
{
    let filter = taker.filter.checked_sub(1)?;
    let first = parts.calls.get(filter as usize)?;
    let second = parts.calls.get(taker.filter as usize)?;
    if first.chain != second.chain {
        return None;
    }
    let nth = (taker.pad as usize).checked_sub(labels(second, Side::In).len())?;
    let pad = labels(first, Side::Out).len().checked_add(nth)?;
    let pad = u32::try_from(pad).ok()?;
    let giver = Place { filter, pad };
    kind_of(parts, Side::Out, giver)?;
    Some(giver)
}

/// Where an input pad takes from. `None` if its label names neither a pad nor a file.
fn find_origin(parts: &Parts, outs: &LabelTable, taker: Place) -> Option<Origin>
    requires small { IsSmall (graph_of parts.now) }
    requires outs { Notes (graph_of parts.now) Out (λ name. Unit {0}) outs.now }
    ensures { MatchOption result (IsUnknown (graph_of parts.now) taker) (IsOriginOf (graph_of parts.now) taker) }
{
    let Some(name) = label_of(parts, Side::In, taker) else {
        return match neighbour(parts, taker) {
            Some(giver) => Some(Origin::Pad(giver)),
            None => Some(Origin::Open),
        };
    };
    match outs.pads.get(name).copied() {
        Some(giver) => Some(Origin::Pad(giver)),
        None => named_file(parts, name),
    }
}

/// The input pads, in order, and where each takes from.
pub(crate) fn list_inlets(
    alloc: Global,
    parts: &Parts,
    outs: &LabelTable,
) -> Result<Vec<Inlet>, PlanError>
    requires outs { Notes (graph_of parts.now) Out (λ name. Unit {0}) outs.now }
    requires fit { FitsTogether (graph_of parts.now) }
    ensures inlets { IfOk result (λ all. AreInlets (graph_of parts.now) all.items) }
    ensures known { IfOk result (λ _. Never (HasUnknownInput (graph_of parts.now))) }
    ensures fault { (outputs : ℕ) → ¬ HasTooMany (graph_of parts.now) outputs → IfFault result (IsLinkFault (graph_of parts.now) outputs) }
{
    let mut inlets = Vec::new(alloc);
    let places = pad_places(alloc, parts.pads, Side::In)?;
    'takers: for taker in places.as_slice() {
        let taker = *taker;
        let Some(origin) = find_origin(parts, outs, taker) else {
            let filter = taker.filter;
            return Err(PlanError::Fault(PlanFault::UnknownInput { filter }));
        };
        inlets.push(Inlet { taker, origin })?;
    }
    Ok(inlets)
}

/// Whether both are there, and differ.
fn differ(first: Option<Media>, second: Option<Media>) -> bool
    ensures { IsTrue result ↔ Differ first second }
{
    match (first, second) {
        (Some(one), Some(other)) => one != other,
        _ => false,
    }
}

/// What a file gives, if it is there.
fn kind_of_file(parts: &Parts, file: u32) -> Option<Media>
    ensures { result ≡ slice_get parts.now.files.now file }
{
    parts.files.get(file as usize).copied()
}

/// Whether an input pad gets another kind than its own, or than its label says.
fn is_mismatched(parts: &Parts, inlet: &Inlet) -> bool
    requires inlet { IsInlet (graph_of parts.now) inlet.now }
    requires fit { FitsTogether (graph_of parts.now) }
    ensures { IsTrue result ↔ IsMismatched (graph_of parts.now) inlet.now.taker }
{
    let takes = kind_of(parts, Side::In, inlet.taker);
    match inlet.origin {
        Origin::Pad(giver) => differ(kind_of(parts, Side::Out, giver), takes),
        Origin::File { file, said } => {
            let gives = kind_of_file(parts, file);
            differ(gives, takes) || differ(gives, said)
        }
        Origin::Open => false,
    }
}

/// Checks that each link's ends are of one kind.
pub(crate) fn check_kinds(parts: &Parts, inlets: &[Inlet]) -> Result<(), PlanError>
    requires inlets { AreInlets (graph_of parts.now) inlets.now }
    requires fit { FitsTogether (graph_of parts.now) }
    requires known { Never (HasUnknownInput (graph_of parts.now)) }
    ensures agree { IfOk result (λ _. Never (HasMismatch (graph_of parts.now))) }
    ensures fault { (outputs : ℕ) → ¬ HasTooMany (graph_of parts.now) outputs → IfFault result (IsLinkFault (graph_of parts.now) outputs) }
{
    'inlets: for inlet in inlets {
        if is_mismatched(parts, inlet) {
            let filter = inlet.taker.filter;
            return Err(PlanError::Fault(PlanFault::MediaMismatch { filter }));
        }
    }
    Ok(())
}
