//! A job on its files.
ghost use Rattle.std.specs.Prelude.{◌≡◌, ◌≤◌, IfOk};
ghost use Rattle.y4m_header.specs.HeaderLaws.{longest_line};
ghost use Rattle.y4m_header.specs.HeaderTexts.{IsWritable};
ghost use Rattle.avgraph.specs.Commands.{Commands, Prepares, OpensFile, CreatesFile, stop_of_opening};
ghost use Rattle.avgraph.specs.Stops.{CountsStop, head_stop};
ghost use Rattle.avgraph.specs.Requests.{Request};
ghost use Rattle.avgraph.specs.Jobs.{IsJob};
ghost use Rattle.avgraph.specs.Bounds.{greatest_input};

use crate::chain::Chain;
use crate::ready::ready_chain;
use crate::report::Counts;
use crate::request::Job;
use crate::run::{pass_all, stopped_writing};
use crate::{LIMIT, TOO_LONG};
use av_base::{NoMemory, Shape};
use av_faults::{Fault, Stop};
use av_frame::{HeadError, Pools};
use av_host::{Host, HostError};
use std::alloc::Global;
use std::thread::Threads;
use y4m_io::reader::Reader;
use y4m_io::writer::Writer;

/// What stops the command if a file can't be opened or created.
fn stopped_opening(error: HostError) -> Stop
    ensures { result ≡ stop_of_opening error }
{
    match error {
        HostError::Failed => Stop::Fault(Fault::OpenFault),
        HostError::NoMemory => Stop::NoMemory,
    }
}

/// What stops the command if the header can't be read.
fn stopped_heading(error: HeadError) -> Stop
    ensures { result ≡ head_stop greatest_input error }
{
    match error {
        HeadError::NotMedia => Stop::Fault(Fault::NotMedia { input: 0 }),
        HeadError::BadHeader => Stop::Fault(Fault::BadHeader { input: 0 }),
        HeadError::BadColour => Stop::Fault(Fault::BadColour { input: 0 }),
        HeadError::TooLong => Stop::Fault(TOO_LONG),
        HeadError::Host => Stop::Fault(Fault::ReadFault),
        HeadError::NoMemory => Stop::NoMemory,
    }
}

/// Opens the input and reads its header.
fn open<H: Host>(alloc: Global, host: &mut H, name: &str) -> Result<(Reader, Shape), Stop>
    ensures opens { OpensFile greatest_input (H.world host.old) (H.world host.new) name.now result }
    ensures faults { CountsStop result (H.world host.old).faults (H.world host.new).faults }
{
    let id = match host.open_input(name) {
        Ok(id) => id,
        Err(error) => return Err(stopped_opening(error)),
    };
    let mut reader = match Reader::new(alloc, id, LIMIT) {
        Ok(reader) => reader,
        Err(NoMemory) => return Err(Stop::NoMemory),
    };
    match reader.header(alloc, host) {
        Ok(shape) => Ok((reader, shape)),
        Err(error) => Err(stopped_heading(error)),
    }
}

/// Creates the output and writes its header.
fn create<H: Host>(alloc: Global, host: &mut H, name: &str, shape: Shape) -> Result<Writer, Stop>
    requires { IsWritable shape }
    ensures creates { CreatesFile (H.world host.old) (H.world host.new) name.now shape result }
    ensures short { IfOk result (λ writer. writer.bytes ≤ longest_line) }
    ensures faults { CountsStop result (H.world host.old).faults (H.world host.new).faults }
{
    let id = match host.create(name) {
        Ok(id) => id,
        Err(error) => return Err(stopped_opening(error)),
    };
    let mut writer = match Writer::new(alloc, id, shape) {
        Ok(writer) => writer,
        Err(NoMemory) => return Err(Stop::NoMemory),
    };
    match writer.start(alloc, host) {
        Ok(()) => Ok(writer),
        Err(error) => Err(stopped_writing(error)),
    }
}

/// Opens the input, reads its header, and makes the filters ready for its pictures.
fn prepare<H: Host>(alloc: Global, host: &mut H, job: &Job) -> Result<(Reader, Chain), Stop>
    requires { (request : Request) × IsJob request job.now }
    ensures prepares { (request : Request) → IsJob request job.now → Prepares greatest_input request.flow (H.world host.old) (H.world host.new) request.input result }
    ensures faults { CountsStop result (H.world host.old).faults (H.world host.new).faults }
{
    let (reader, shape) = match open(alloc, host, job.input.as_str()) {
        Ok(opened) => opened,
        Err(stop) => return Err(stop),
    };
    match ready_chain(alloc, job, shape) {
        Ok(chain) => Ok((reader, chain)),
        Err(stop) => Err(stop),
    }
}

/// Writes the input to the output, each frame as it comes out of the filters, and returns how much was read and written.
pub(crate) fn run_job<R: Threads + Sync, H: Host>(
    rt: &R,
    alloc: Global,
    host: &mut H,
    job: &Job,
) -> Result<Counts, Stop>
    requires { (request : Request) × IsJob request job.now }
    ensures commands { (request : Request) → IsJob request job.now → Commands greatest_input request (H.world host.old) (H.world host.new) result }
    ensures faults { CountsStop result (H.world host.old).faults (H.world host.new).faults }
{
    let mut pools = match Pools::new(alloc) {
        Ok(pools) => pools,
        Err(NoMemory) => return Err(Stop::NoMemory),
    };
    let (mut reader, mut chain) = match prepare(alloc, host, job) {
        Ok(prepared) => prepared,
        Err(stop) => return Err(stop),
    };
    let mut writer = match create(alloc, host, job.output.as_str(), chain.end()) {
        Ok(writer) => writer,
        Err(stop) => return Err(stop),
    };
    match pass_all(
        rt,
        alloc,
        host,
        &mut reader,
        &mut writer,
        &mut pools,
        &mut chain,
    ) {
        Ok(counts) => Ok(counts),
        Err(stop) => Err(stop),
    }
}
