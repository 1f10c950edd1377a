//! What words ask for: the filters on the path from one input to one output.
ghost use Rattle.std.specs.Prelude.{◌≡◌, ◌≢◌, ◌↔◌, ◌⊎◌, ◌<◌, ◌≤◌, ◌^◌, ℕ, List, Some, None, length, map, option_map, string_bytes, false, IsTrue, IfOk, IfErr, IfSome, IsNone};
ghost use Rattle.std.specs.List.{AllZip, AllByRecursion};
ghost use Rattle.graph_plan.specs.declared.plan.OutputFile.{OutputFile};
ghost use Rattle.graph_plan.specs.declared.plan.DraftPlan.{DraftPlan};
ghost use Rattle.graph_plan.specs.declared.plan.PlanFault.{PlanFault};
ghost use Rattle.graph_plan.specs.Refusals.{IsLinked, most_links};
ghost use Rattle.graph_plan.specs.Paths.{IsPath};
ghost use Rattle.graph_text.specs.declared.graph.FilterCall.{FilterCall};
ghost use Rattle.node_core.specs.Kinds.{IsKind};
ghost use Rattle.node_core.specs.Shaping.{pads_of};
ghost use Rattle.avgraph.specs.Chains.{Step};
ghost use Rattle.av_words.specs.declared.command_words.OutputWord.{OutputWord};
ghost use Rattle.graph_plan.specs.declared.plan.Ending.TheVariants.{Y4m};
ghost use Rattle.avgraph.specs.Stops.{option_stop, plan_stop, plan_error_stop, text_stop};
ghost use Rattle.avgraph.specs.Requests.{IsVideoFile, RunsToday, AreNames, IsRefusedCall, graph_of, given_by, files_of, AreSteps, Asks, AsksCommand, AsksCalls, AsksKinds, AsksDraft, AsksPlan};
ghost use Rattle.avgraph.specs.Jobs.{Asked, IsSmallCommand};
ghost use Rattle.avgraph.specs.Bounds.{most_filters};

use av_base::{List, Media, NoMemory, Text};
use av_faults::{Fault, LimitKind, Stop};
use av_frame::OptionError;
use av_text::TextError;
use av_words::{Command, InputWord, OutputWord, read_words};
use graph_plan::{
    DraftPlan, Edge, Ending, MOST_LINKS, OutputFile, Pads, Plan, PlanError, PlanFault, link,
};
use graph_text::{FilterCall, GraphText, parse};
use node_core::Kind;
use std::alloc::Global;

/// The greatest number of filters of a graph (`most_filters`).
const FILTERS_MAX: usize = 256;

/// What is to be done.
#[derive(Drop)]
pub(crate) struct Job {
    /// The name of the input.
    pub(crate) input: Text,
    /// The filters of the graph.
    pub(crate) kinds: Vec<Kind>,
    /// The numbers of the filters that the input's frames pass, one after another.
    pub(crate) order: List<u32>,
    /// The links of the graph.
    pub(crate) links: List<Edge>,
    /// The name of the output.
    pub(crate) output: Text,
    /// Whether a report is asked for.
    pub(crate) report: bool,
}

/// What stops the command if the graph text has no reading.
fn stopped_text(error: TextError) -> Stop
    ensures { result ≡ text_stop error }
{
    match error {
        TextError::Fault(fault) => Stop::Fault(Fault::TextFault {
            at: fault.at,
            kind: fault.kind,
        }),
        TextError::NoMemory => Stop::NoMemory,
    }
}

/// What stops the command if the arguments of a filter are rejected.
fn stopped_option(filter: u32, error: OptionError) -> Stop
    ensures { result ≡ option_stop filter error }
{
    Stop::Fault(match error {
        OptionError::UnknownFilter => Fault::UnknownFilter { filter },
        OptionError::UnknownOption { option } => Fault::UnknownOption { filter, option },
        OptionError::TooManyValues { option } => Fault::TooManyValues { filter, option },
        OptionError::BadValue { option } => Fault::BadValue { filter, option },
        OptionError::MissingOption => Fault::MissingOption { filter },
        OptionError::NotYet => Fault::NotYet,
        OptionError::NoMemory => return Stop::NoMemory,
    })
}

/// The fault of a graph that can't be linked, or of outputs that can't be bound.
fn plan_fault(fault: PlanFault) -> Fault
    ensures { Stop.Fault result ≡ plan_stop fault }
{
    match fault {
        PlanFault::TooManyLinks => Fault::Limit {
            kind: LimitKind::Links,
            which: 0,
            allowed: MOST_LINKS as u64,
        },
        PlanFault::PadCount { filter } => Fault::PadCount { filter },
        PlanFault::LabelTwice { filter } => Fault::LabelTwice { filter },
        PlanFault::UnknownInput { filter } => Fault::UnknownInput { filter },
        PlanFault::MediaMismatch { filter } => Fault::MediaMismatch { filter },
        PlanFault::Cycle { filter } => Fault::Cycle { filter },
        PlanFault::OpenPad { filter, pad } => Fault::OpenPad { filter, pad },
        PlanFault::NoSuchOutput { output } => Fault::NoSuchOutput { output },
        PlanFault::Unmapped { filter, pad } => Fault::Unmapped { filter, pad },
        PlanFault::WrongKind { output } => Fault::WrongKind { output },
    }
}

/// What stops the command if there is no plan.
fn stopped_plan(error: PlanError) -> Stop
    ensures { result ≡ plan_error_stop error }
{
    match error {
        PlanError::Fault(fault) => Stop::Fault(plan_fault(fault)),
        PlanError::NoMemory => Stop::NoMemory,
    }
}

/// Whether all inputs are files of video.
fn are_video_files(inputs: &[InputWord]) -> bool
    ensures all { IsTrue result → AllByRecursion IsVideoFile inputs.now }
    ensures none { result ≡ false → ¬ AllByRecursion IsVideoFile inputs.now }
{
    for input in inputs {
        match input {
            InputWord::File {
                media: Media::Video,
                ..
            } => {}
            _ => return false,
        }
    }
    true
}

/// Whether all outputs are files of Y4M.
fn are_y4m_files(outputs: &[OutputWord]) -> bool
    ensures all { IsTrue result → AllByRecursion (λ (o : OutputWord). o.file.ending ≡ Y4m) outputs.now }
    ensures none { result ≡ false → ¬ AllByRecursion (λ (o : OutputWord). o.file.ending ≡ Y4m) outputs.now }
{
    for output in outputs {
        match output.file.ending {
            Ending::Y4m => {}
            _ => return false,
        }
    }
    true
}

/// Whether the command can run today.
fn runs_today(command: &Command) -> bool
    ensures today { IsTrue result → RunsToday command.now }
    ensures later { result ≡ false → ¬ RunsToday command.now }
{
    are_video_files(command.inputs.as_slice())
        && are_y4m_files(command.outputs.as_slice())
        && command.workers == 0
        && command.slices == 1
        && command.order.as_slice().is_empty()
}

/// The filters that calls name, with the options that their arguments give them.
fn kinds_of(alloc: Global, calls: &[FilterCall]) -> Result<Vec<Kind>, Stop>
    requires few { length calls.now ≤ most_filters }
    requires args { AllByRecursion (λ call. length call.args < 2 ^ 32) calls.now }
    ensures kinds { IfOk result (λ kinds. AllZip IsKind calls.now kinds.items) }
    ensures stop { IfErr result (λ stop. (stop ≡ Stop.NoMemory) ⊎ IsRefusedCall 0 calls.now stop) }
{
    let mut kinds = Vec::new(alloc);
    for (filter, call) in calls.iter().enumerate() {
        let kind = match Kind::read(alloc, call) {
            Ok(kind) => kind,
            Err(error) => return Err(stopped_option(filter as u32, error)),
        };
        kinds.push(kind)?;
    }
    Ok(kinds)
}

/// The pads of filters.
fn list_pads(alloc: Global, kinds: &[Kind]) -> Result<List<Pads>, NoMemory>
    ensures { IfOk result (λ pads. pads ≡ map pads_of kinds.now) }
{
    let mut pads = Vec::new(alloc);
    for kind in kinds {
        pads.push(kind.pads(alloc)?)?;
    }
    Ok(List::new(pads))
}

/// What an input gives.
fn given_by(input: &InputWord) -> Media
    ensures { result ≡ given_by input.now }
{
    match input {
        InputWord::File { media, .. } => *media,
        InputWord::Made { .. } => Media::Video,
    }
}

/// What inputs give.
fn list_media(alloc: Global, inputs: &[InputWord]) -> Result<Vec<Media>, NoMemory>
    ensures { IfOk result (λ media. media.items ≡ map given_by inputs.now) }
{
    let mut media = Vec::new(alloc);
    for input in inputs {
        media.push(given_by(input))?;
    }
    Ok(media)
}

/// A copy of a label.
fn copy_label(alloc: Global, label: &Option<Text>) -> Result<Option<Text>, NoMemory>
    ensures { IfOk result (λ copy. copy ≡ label.now) }
{
    match label {
        Some(label) => Ok(Some(Text::new(String::from_str(alloc, label.as_str())?))),
        None => Ok(None),
    }
}

/// The output files of outputs.
fn list_files(alloc: Global, outputs: &[OutputWord]) -> Result<List<OutputFile>, NoMemory>
    ensures { IfOk result (λ files. files ≡ map (λ (o : OutputWord). o.file) outputs.now) }
{
    let mut files = Vec::new(alloc);
    for output in outputs {
        let label = copy_label(alloc, &output.file.label)?;
        let ending = output.file.ending;
        files.push(OutputFile { label, ending })?;
    }
    Ok(List::new(files))
}

/// The names of the only input and of the only output, if there is one of each.
fn names_of(command: &Command) -> Option<(&str, &str)>
    requires { RunsToday command.now }
    ensures names { IfSome result (λ p. AreNames command.now (p.0.now, p.1.now)) }
    ensures none { IsNone result → (names : List ℕ × List ℕ) → ¬ AreNames command.now names }
{
    let inputs = command.inputs.as_slice();
    let outputs = command.outputs.as_slice();
    if inputs.len() != 1 || outputs.len() != 1 {
        return None;
    }
    match &inputs[0] {
        InputWord::File { name, .. } => Some((name.as_str(), outputs[0].name.as_str())),
        InputWord::Made { .. } => None,
    }
}

/// What a plan asks for.
fn ask_plan(
    alloc: Global,
    command: &Command,
    calls: &[FilterCall],
    kinds: Vec<Kind>,
    plan: Plan,
) -> Result<Job, Stop>
    requires today { RunsToday command.now }
    requires calls { length calls.now ≤ most_filters }
    requires kinds { AllZip IsKind calls.now kinds.items }
    requires links { length plan.links ≤ most_links }
    requires path { (names : List ℕ × List ℕ) → AreNames command.now names → IsPath plan }
    requires steps { (path : List Step) × AreSteps calls.now plan.order path }
    ensures { Asked (AsksPlan command.now calls.now plan) result }
{
    let Some((input, output)) = names_of(command) else {
        return Err(Stop::Fault(Fault::NotYet));
    };
    Ok(Job {
        input: Text::new(String::from_str(alloc, input)?),
        kinds,
        order: plan.order,
        links: plan.links,
        output: Text::new(String::from_str(alloc, output)?),
        report: command.report,
    })
}

/// What a draft asks for.
fn ask_draft(
    alloc: Global,
    command: &Command,
    calls: &[FilterCall],
    kinds: Vec<Kind>,
    draft: DraftPlan,
) -> Result<Job, Stop>
    requires today { RunsToday command.now }
    requires few { IsSmallCommand command.now }
    requires calls { length calls.now ≤ most_filters }
    requires kinds { AllZip IsKind calls.now kinds.items }
    requires linked { IsLinked (graph_of command.now calls.now kinds.items) (length command.now.outputs) draft }
    ensures { Asked (AsksDraft command.now calls.now draft) result }
{
    let files = list_files(alloc, command.outputs.as_slice())?;
    let plan = match draft.bind(alloc, &files) {
        Ok(plan) => plan,
        Err(error) => return Err(stopped_plan(error)),
    };
    ask_plan(alloc, command, calls, kinds, plan)
}

/// What calls that mean filters ask for.
fn ask_kinds(
    alloc: Global,
    command: &Command,
    graph: &GraphText,
    kinds: Vec<Kind>,
) -> Result<Job, Stop>
    requires today { RunsToday command.now }
    requires few { IsSmallCommand command.now }
    requires calls { length graph.now.calls ≤ most_filters }
    requires kinds { AllZip IsKind graph.now.calls kinds.items }
    ensures { Asked (AsksKinds command.now graph.now.calls kinds.items) result }
{
    let pads = list_pads(alloc, kinds.as_slice())?;
    let media = list_media(alloc, command.inputs.as_slice())?;
    let outputs = command.outputs.as_slice().len() as u32;
    let draft = match link(alloc, graph, &pads, media.as_slice(), outputs) {
        Ok(draft) => draft,
        Err(error) => return Err(stopped_plan(error)),
    };
    ask_draft(alloc, command, graph.calls.as_slice(), kinds, draft)
}

/// What calls ask for.
fn ask_calls(alloc: Global, command: &Command, graph: &GraphText) -> Result<Job, Stop>
    requires today { RunsToday command.now }
    requires few { IsSmallCommand command.now }
    requires args { AllByRecursion (λ call. length call.args < 2 ^ 32) graph.now.calls }
    ensures { Asked (AsksCalls command.now graph.now.calls) result }
{
    let calls = graph.calls.as_slice();
    if calls.len() > FILTERS_MAX {
        return Err(Stop::Fault(Fault::Limit {
            kind: LimitKind::Filters,
            which: 0,
            allowed: FILTERS_MAX as u64,
        }));
    }
    let kinds = kinds_of(alloc, calls)?;
    ask_kinds(alloc, command, graph, kinds)
}

/// What a command asks for.
fn ask_command(alloc: Global, command: &Command) -> Result<Job, Stop>
    requires { IsSmallCommand command.now }
    ensures { Asked (AsksCommand command.now) result }
{
    if !runs_today(command) {
        return Err(Stop::Fault(Fault::NotYet));
    }
    let graph = match parse(alloc, command.text.as_str()) {
        Ok(graph) => graph,
        Err(error) => return Err(stopped_text(error)),
    };
    ask_calls(alloc, command, &graph)
}

/// What words ask for.
///
/// # Errors
/// The first of these: the fault of the words; `NotYet` if the command can't run today; the fault of the graph text; the
/// limit of filters; the fault of the first filter that is rejected; the fault of the links, or of the outputs; `NotYet` if
/// there isn't one input and one output. Or out of memory.
pub(crate) fn ask(alloc: Global, words: &[String]) -> Result<Job, Stop>
    ensures { Asked (Asks (map string_bytes words.now)) result }
{
    let command = read_words(alloc, words)?;
    ask_command(alloc, &command)
}
