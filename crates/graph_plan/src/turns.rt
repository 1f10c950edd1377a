//! Open input pads take the files that are left, in order.
ghost use Rattle.std.specs.Prelude.{◌≡◌, ◌<◌, ◌↔◌, ℕ, Option, List, [], Some, true, false, length, set, slice_index_or, IsTrue, IfOk, IfSome, IsNone, MatchOption};
ghost use Rattle.std.specs.List.{slice_get};
ghost use Rattle.av_base.specs.declared.formats.Media.{Media};
ghost use Rattle.graph_plan.specs.declared.plan.Edge.{Edge};
ghost use Rattle.graph_plan.specs.declared.plan.Source.{Source};
ghost use Rattle.graph_plan.specs.declared.places.Side.TheVariants.{In, Out};
ghost use Rattle.graph_plan.specs.declared.plan.Source.TheVariants.{Input};
ghost use Rattle.graph_plan.specs.declared.origins.Origin.TheVariants.{File};
ghost use Rattle.av_base.specs.Failures.{IfFault};
ghost use Rattle.av_base.specs.First.{IsFirst, Never};
ghost use Rattle.graph_plan.specs.Graphs.{kind, pads_on, IsOpen};
ghost use Rattle.graph_plan.specs.Links.{AreLinks, IsLeft, IsOrigin};
ghost use Rattle.graph_plan.specs.Refusals.{HasCycle, IsLinkFault, IsSmall, IsSound};
ghost use Rattle.graph_plan.specs.Joining.{graph_of, AreInlets, AreTaken, IsInlet, IsNamedBy, FitsTogether, WhenMarked, FindsNoFile};

use crate::origins::{Inlet, Origin};
use crate::places::{Parts, Place, Side, kind_of};
use crate::plan::{Edge, PlanError, PlanFault, Source, Target};
use av_base::{Media, NoMemory};
use std::alloc::Global;

/// Marks a file, if one is given.
fn mark_file(taken: &mut [bool], file: Option<u32>)
    requires { IfSome file (λ f. f < length taken.old) }
    ensures { WhenMarked file taken.old taken.new }
{
    if let Some(file) = file {
        taken[file as usize] = true;
    }
}

/// The file that the label of an input pad names, if it names one.
fn named_by(inlet: &Inlet) -> Option<u32>
    ensures { MatchOption result
        ((file : ℕ) (said : Option Media) → ¬ (inlet.now.origin ≡ File file said))
        (λ file. (said : Option Media) × (inlet.now.origin ≡ File file said)) }
{
    match inlet.origin {
        Origin::File { file, .. } => Some(file),
        _ => None,
    }
}

/// Which of the first `count` files labels name.
fn mark_named(alloc: Global, inlets: &[Inlet], count: usize) -> Result<Vec<bool>, NoMemory>
    requires { (file : ℕ) → IsNamedBy inlets.now file → file < count }
    ensures each { IfOk result (λ taken. length taken.items ≡ count) }
    ensures marked { IfOk result (λ taken. (file : ℕ) → (slice_index_or taken.items file false ≡ true) ↔ IsNamedBy inlets.now file) }
{
    let mut taken = vec![in alloc; false; count]?;
    'inlets: for inlet in inlets {
        mark_file(taken.as_mut_slice(), named_by(inlet));
    }
    Ok(taken)
}

/// Whether a file gives this kind, and isn't taken.
fn is_left(files: &[Media], taken: &[bool], wanted: Media, file: usize) -> bool
    requires each { length taken.now ≡ length files.now }
    requires there { file < length files.now }
    ensures { IsTrue result ↔ (slice_get files.now file ≡ Some wanted) × (slice_index_or taken.now file false ≡ false) }
{
    files[file] == wanted && !taken[file]
}

/// The first file of a kind that isn't taken.
fn first_file(files: &[Media], taken: &[bool], wanted: Media) -> Option<usize>
    requires { length taken.now ≡ length files.now }
    ensures left { IfSome result (IsFirst (λ k. (slice_get files.now k ≡ Some wanted) × (slice_index_or taken.now k false ≡ false))) }
    ensures none { IsNone result → Never (λ k. (slice_get files.now k ≡ Some wanted) × (slice_index_or taken.now k false ≡ false)) }
{
    'files: for file in 0..files.len() {
        if is_left(files, taken, wanted, file) {
            return Some(file);
        }
    }
    None
}

/// Where an input pad takes from. `None` if it is open and no file of its kind is left.
fn source_of(parts: &Parts, inlet: &Inlet, taken: &[bool]) -> Option<Source>
    requires small { IsSmall (graph_of parts.now) }
    requires inlet { IsInlet (graph_of parts.now) inlet.now }
    requires there { (wanted : Media) × (kind (graph_of parts.now) In inlet.now.taker.filter inlet.now.taker.pad ≡ Some wanted) }
    requires each { length taken.now ≡ length parts.now.files.now }
    ensures { (before : List Edge) → AreTaken (graph_of parts.now) before taken.now → MatchOption result
        (FindsNoFile (graph_of parts.now) before inlet.now.taker)
        (IsOrigin (graph_of parts.now) before inlet.now.taker) }
{
    match inlet.origin {
        Origin::Pad(Place { filter, pad }) => Some(Source::Filter { filter, pad }),
        Origin::File { file, .. } => Some(Source::Input { input: file }),
        Origin::Open => {
            let wanted = kind_of(parts, Side::In, inlet.taker)?;
            let file = first_file(parts.files, taken, wanted)?;
            Some(Source::Input { input: file as u32 })
        }
    }
}

/// The file at which a link begins, if it begins at one.
fn input_of(from: Source) -> Option<u32>
    ensures { MatchOption result ((input : ℕ) → ¬ (from ≡ Input input)) (λ input. from ≡ Input input) }
{
    match from {
        Source::Input { input } => Some(input),
        Source::Filter { .. } => None,
    }
}

/// The links to the input pads, in order.
pub(crate) fn take_files(
    alloc: Global,
    parts: &Parts,
    inlets: &[Inlet],
) -> Result<Vec<Edge>, PlanError>
    requires fit { FitsTogether (graph_of parts.now) }
    requires inlets { AreInlets (graph_of parts.now) inlets.now }
    ensures links { IfOk result (λ links. AreLinks (graph_of parts.now) [] (pads_on (graph_of parts.now) In) links.items) }
    ensures fault { (outputs : ℕ) → IsSound (graph_of parts.now) outputs → Never (HasCycle (graph_of parts.now)) → IfFault result (IsLinkFault (graph_of parts.now) outputs) }
{
    let mut taken = mark_named(alloc, inlets, parts.files.len())?;
    let mut links = Vec::new(alloc);
    'inlets: for inlet in inlets {
        let Place { filter, pad } = inlet.taker;
        let Some(from) = source_of(parts, inlet, taken.as_slice()) else {
            return Err(PlanError::Fault(PlanFault::OpenPad { filter, pad }));
        };
        mark_file(taken.as_mut_slice(), input_of(from));
        let to = Target::Filter { filter, pad };
        links.push(Edge { from, to })?;
    }
    Ok(links)
}
