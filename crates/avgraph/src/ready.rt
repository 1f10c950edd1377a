//! The filters of a path, made ready for the pictures of an input.
ghost use Rattle.std.specs.Prelude.{◌≡◌, ◌⊎◌, List, [], ◌∷◌, false, IsTrue, IfOk, IfErr};
ghost use Rattle.av_base.specs.declared.formats.Format.{Format};
ghost use Rattle.av_base.specs.Shapes.{IsPictureShape, IsPictured};
ghost use Rattle.av_frame.specs.declared.refusals.ConfigError.TheVariants as config;
ghost use Rattle.node_core.specs.Shaping.{Takes, IsReady, IsConfigFault};
ghost use Rattle.y4m_header.specs.HeaderTexts.{IsWritable};
ghost use Rattle.avgraph.specs.Chains.{Step, Flow, AreReady};
ghost use Rattle.avgraph.specs.Answers.{HasFormats, HasRate, IsUnready, y4m_formats};
ghost use Rattle.avgraph.specs.Jobs.{AreOfPath, IsFlow};
ghost use Rattle.avgraph.specs.Commands.{IsChainFor, StopsShape};
ghost use Rattle.avgraph.specs.Readying.{AreTaking, LacksStop};
ghost use Rattle.avgraph.specs.Stops.{config_stop};

use crate::chain::Chain;
use crate::request::Job;
use av_base::{Format, FormatSet, List, PixelFormat, Props, Shape};
use av_faults::{Fault, Stop};
use av_frame::ConfigError;
use graph_formats::FormatError;
use node_core::{Kind, Ready};
use plan_formats::choose_formats;
use std::alloc::Global;

/// What stops the command if a filter can't be made ready.
fn stopped_config(filter: u32, error: ConfigError) -> Stop
    ensures { result ≡ config_stop filter error }
{
    Stop::Fault(match error {
        ConfigError::SizeMismatch { a, b } => Fault::SizeMismatch { filter, a, b },
        ConfigError::BadGeometry { found, allowed } => Fault::BadGeometry {
            filter,
            found,
            allowed,
        },
        ConfigError::TimeBaseRange => Fault::TimeBaseRange { filter },
        ConfigError::TooLarge { found, allowed } => Fault::TooLarge {
            filter,
            found,
            allowed,
        },
        ConfigError::NoValue { option } => Fault::NoValue { filter, option },
        ConfigError::NoMemory => return Stop::NoMemory,
    })
}

/// The formats that an output file can hold.
fn y4m_formats() -> FormatSet
    ensures { result ≡ y4m_formats }
{
    FormatSet::empty()
        .with(Format::Video(PixelFormat::Gray))
        .with(Format::Video(PixelFormat::Yuv420p))
        .with(Format::Video(PixelFormat::Yuv422p))
        .with(Format::Video(PixelFormat::Yuv444p))
        .with(Format::Video(PixelFormat::Yuva444p))
}

/// The formats of the links, where the input's pictures have a format.
fn choose(alloc: Global, job: &Job, format: Format) -> Result<List<Format>, Stop>
    requires { (flow : Flow) × IsFlow job.now.kinds.items job.now.order job.now.links flow }
    ensures formats { (flow : Flow) → IsFlow job.now.kinds.items job.now.order job.now.links flow → IfOk result (HasFormats flow format) }
    ensures stop { (flow : Flow) → IsFlow job.now.kinds.items job.now.order job.now.links flow → IfErr result (LacksStop flow format) }
{
    let formats = choose_formats(
        alloc,
        job.links.as_slice(),
        job.kinds.as_slice(),
        &[format],
        &[y4m_formats()],
    );
    match formats {
        Ok(formats) => Ok(formats),
        Err(FormatError::NoCommonFormat { link }) => {
            Err(Stop::Fault(Fault::NoCommonFormat { link }))
        }
        Err(FormatError::NoMemory) => Err(Stop::NoMemory),
    }
}

/// A filter, made ready for pictures of a shape.
fn make_ready(alloc: Global, kind: &Kind, shape: Shape) -> Result<Ready, ConfigError>
    requires picture { IsPictureShape shape }
    requires takes { Takes kind.now shape.format }
    ensures ready { IfOk result (IsReady kind.now shape) }
    ensures refused { IfErr result (λ e. (e ≡ config.NoMemory) ⊎ IsConfigFault kind.now shape e) }
{
    let ins = List::new(vec![in alloc; shape]?);
    let chosen = List::new(vec![in alloc; shape.format]?);
    kind.configure(alloc, &ins, &chosen)
}

/// What is made ready of a path: its filters, and the shape that the last one gives.
#[derive(Drop)]
struct ReadiedPath {
    readies: Vec<Ready>,
    end: Shape,
}

/// Makes the filters ready one after the other, the first for pictures of a shape.
fn make_all_ready(
    alloc: Global,
    kinds: &[Kind],
    order: &[u32],
    shape: Shape,
) -> Result<ReadiedPath, Stop>
    requires picture { IsPictureShape shape }
    requires taking { (path : List Step) × AreOfPath kinds.now order.now path × AreTaking path shape.format }
    ensures ready { (path : List Step) → AreOfPath kinds.now order.now path → IfOk result (λ r. AreReady path shape r.readies.items r.end) }
    ensures stop { (path : List Step) → AreOfPath kinds.now order.now path → IfErr result (λ stop. (stop ≡ Stop.NoMemory) ⊎ IsUnready path shape stop) }
{
    let mut readies = Vec::new(alloc);
    let mut end = shape;
    for filter in order {
        let ready = match make_ready(alloc, &kinds[*filter as usize], end) {
            Ok(ready) => ready,
            Err(error) => return Err(stopped_config(*filter, error)),
        };
        end = ready.outs().as_slice()[0];
        readies.push(ready)?;
    }
    Ok(ReadiedPath { readies, end })
}

/// Whether a file can state the rate of pictures of a shape.
fn has_rate(shape: Shape) -> bool
    ensures known { IsTrue result → HasRate shape.props }
    ensures unknown { result ≡ false → ¬ HasRate shape.props }
{
    match shape.props {
        Props::Video(props) => props.rate.num > 0,
        Props::Audio(_) => false,
    }
}

/// The chain of the filters of a job, ready for pictures of a shape.
///
/// # Errors
/// `NoCommonFormat` if the links can't be given formats; else the fault of the first filter that can't be made
/// ready; else `NoRate` if the rate of what the last one gives is unknown. Out of memory.
pub(crate) fn ready_chain(alloc: Global, job: &Job, shape: Shape) -> Result<Chain, Stop>
    requires picture { IsPictured shape }
    requires flow { (flow : Flow) × IsFlow job.now.kinds.items job.now.order job.now.links flow }
    ensures formats { (flow : Flow) → IsFlow job.now.kinds.items job.now.order job.now.links flow → IfOk result (λ chain. (fs : List Format) × HasFormats flow shape.format fs) }
    ensures ready { (flow : Flow) → IsFlow job.now.kinds.items job.now.order job.now.links flow → IfOk result (IsChainFor flow.path shape) }
    ensures writable { IfOk result (λ chain. IsWritable chain.end) }
    ensures stop { (flow : Flow) → IsFlow job.now.kinds.items job.now.order job.now.links flow → IfErr result (StopsShape flow shape) }
{
    let _formats = match choose(alloc, job, shape.format) {
        Ok(formats) => formats,
        Err(stop) => return Err(stop),
    };
    let readied = match make_all_ready(alloc, job.kinds.as_slice(), job.order.as_slice(), shape) {
        Ok(readied) => readied,
        Err(stop) => return Err(stop),
    };
    if !has_rate(readied.end) {
        return Err(Stop::Fault(Fault::NoRate { output: 0 }));
    }
    let chain = Chain::new(alloc, readied.readies, shape, readied.end)?;
    Ok(chain)
}
