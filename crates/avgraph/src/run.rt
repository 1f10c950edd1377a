//! The loop from an input to an output.
ghost use Rattle.std.specs.Prelude.{◌≡◌, ◌≤◌, pos, false, IsTrue, IsSome};
ghost use Rattle.avgraph.specs.Running.{Runs, stop_of_write};
ghost use Rattle.avgraph.specs.Stops.{CountsStop, next_stop};
ghost use Rattle.avgraph.specs.Bounds.{greatest_input};
ghost use Rattle.y4m_header.specs.HeaderLaws.{longest_line};
ghost use Rattle.y4m_io.specs.declared.y4m_state.Stage.{Stage};
ghost use Rattle.y4m_io.specs.declared.y4m_state.Progress.{Progress};

use crate::TOO_LONG;
use crate::chain::Chain;
use crate::report::Counts;
use av_base::NoMemory;
use av_faults::{Fault, Stop};
use av_frame::{NextError, Pools, WriteError};
use av_host::Host;
use std::alloc::Global;
use std::thread::Threads;
use y4m_io::reader::Reader;
use y4m_io::writer::Writer;

/// What stops the command if a frame can't be read.
pub(crate) fn stopped_reading(error: NextError) -> Stop
    ensures { result ≡ next_stop greatest_input error }
{
    match error {
        NextError::BadFrame { frame } => Stop::Fault(Fault::BadFrame { input: 0, frame }),
        NextError::Truncated { place } => Stop::Fault(Fault::Truncated { input: 0, place }),
        NextError::TooLong => Stop::Fault(TOO_LONG),
        NextError::Host => Stop::Fault(Fault::ReadFault),
        NextError::NoMemory => Stop::NoMemory,
    }
}

/// What stops the command if a text can't be written.
pub(crate) fn stopped_writing(error: WriteError) -> Stop
    ensures { result ≡ stop_of_write error }
{
    match error {
        WriteError::Host => Stop::Fault(Fault::WriteFault),
        WriteError::NoMemory => Stop::NoMemory,
    }
}

/// Writes each frame that is left of the input as it comes out of the filters, and returns how much was read and
/// written.
pub(crate) fn pass_all<R: Threads + Sync, H: Host>(
    rt: &R,
    alloc: Global,
    host: &mut H,
    reader: &mut Reader,
    writer: &mut Writer,
    pools: &mut Pools,
    chain: &mut Chain,
) -> Result<Counts, Stop>
    requires input { IsTrue ((H.world host.old).inputs.is_open reader.old.id) }
    requires output { IsSome ((H.world host.old).outputs.name writer.old.id) }
    requires headed { reader.old.stage ≡ Stage.Headed chain.old.shape }
    requires first { reader.old.frames ≡ 0 }
    requires within { reader.old.room ≤ greatest_input }
    requires short { writer.old.bytes ≤ longest_line }
    requires started { writer.old.progress ≡ Progress.Started }
    requires end { writer.old.shape ≡ chain.old.end }
    requires next { chain.old.next ≡ pos 0 }
    requires fresh { chain.old.spent ≡ false }
    ensures runs { Runs greatest_input chain.old.shape chain.old.readies (H.world host.old) (H.world host.new) reader.old writer.old result }
    ensures faults { CountsStop result (H.world host.old).faults (H.world host.new).faults }
{
    loop {
        let frame = match reader.next(alloc, host, pools) {
            Ok(Some(frame)) => frame,
            Ok(None) => break,
            Err(error) => return Err(stopped_reading(error)),
        };
        let mut passed = match chain.pass(rt, alloc, frame) {
            Ok(passed) => passed,
            Err(NoMemory) => return Err(Stop::NoMemory),
        };
        match writer.frame(alloc, host, &mut passed) {
            Ok(()) => {}
            Err(error) => return Err(stopped_writing(error)),
        }
    }
    match writer.finish(alloc, host) {
        Ok(()) => Ok(Counts {
            frames: reader.frames(),
            bytes: writer.bytes(),
        }),
        Err(error) => Err(stopped_writing(error)),
    }
}
