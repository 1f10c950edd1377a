//! The writer of YUV4MPEG2 files.
ghost use Rattle.std.specs.Prelude.{◌≡◌, ◌<◌, ◌≤◌, [], ℕ, length, IfOk, OnOk, OnErr, IsOk, IsSome};
ghost use Rattle.std.specs.List.{concat};
ghost use Rattle.av_base.specs.Bounds.{greatest_side};
ghost use Rattle.av_base.specs.Shapes.{planes_of, columns_of};
ghost use Rattle.av_host.specs.Calls.{Changes, appended, Counts, RaisesWrites};
ghost use Rattle.av_frame.specs.Frames.{plane_at};
ghost use Rattle.av_host.specs.HostRuns.{WritesPart};
ghost use Rattle.y4m_io.specs.Sizes.{piece_size};
ghost use Rattle.y4m_header.specs.HeaderLaws.{longest_line};
ghost use Rattle.y4m_header.specs.HeaderTexts.{header_text, IsWritable};
ghost use Rattle.y4m_io.specs.FrameTexts.{picture_text, frame_text, frame_size, greatest_frame};
ghost use Rattle.y4m_io.specs.Writing.{Writes, CountsWrite, write_error_of};
ghost use Rattle.y4m_io.specs.declared.y4m_state.Progress.{Progress};

use crate::rows::copy_rows;
use crate::y4m_limits::{FRAME_MARK, PIECE};
use crate::y4m_state::Progress;
use av_base::{NoMemory, Shape};
use av_frame::{Frame, WriteError};
use av_host::{Host, HostError, write_all};
use std::alloc::Global;
use std::marker::Model;
use y4m_header::write_header;

/// A writer to one output of a host. Contracts see which output it writes, the shape of its pictures, how far it is, and how
/// many bytes it wrote.
#[derive(Drop)]
pub struct Writer {
    id: u32,
    shape: Shape,
    progress: Progress,
    bytes: u64,
    buffer: Vec<u8>,
}

impl Model for Writer {
    ghost use Rattle.std.specs.Prelude.{◌≡◌, vec_len};
    ghost use Rattle.y4m_io.specs.Sizes.{piece_size};
    ghost use Rattle.y4m_header.specs.HeaderTexts.{IsWritable};
    ghost use Rattle.y4m_io.specs.Writing.{Writing};

    ghost Value = { Writing };

    ghost view = { λ w. record { id = w.id; shape = w.shape; progress = w.progress; bytes = w.bytes } };

    ghost invariant = { λ w. (vec_len w.buffer ≡ piece_size) × IsWritable w.shape };
}

/// Writes the rows of a plane, in pieces of whole rows.
fn write_plane<H: Host>(
    host: &mut H,
    id: u32,
    frame: &mut Frame,
    plane: u32,
    buffer: &mut [u8],
) -> Result<(), HostError>
    requires id { IsSome ((H.world host.old).outputs.name id) }
    requires plane { plane < planes_of frame.old.shape }
    requires narrow { columns_of frame.old.shape plane ≤ greatest_side }
    requires long { length buffer.old ≡ piece_size }
    ensures written { OnOk result (Changes (H.world host.old) (H.world host.new) id (appended (concat (plane_at frame.old.planes plane).rows))) }
    ensures refused { OnErr result (WritesPart (H.world host.old) (H.world host.new) id (concat (plane_at frame.old.planes plane).rows)) }
    ensures faults { Counts RaisesWrites result (H.world host.old).faults (H.world host.new).faults }
    ensures same { frame.new ≡ frame.old }
{
    let (columns, rows) = frame.shape().plane_size(plane);
    let most = PIECE as u32 / columns;
    let mut row = 0;
    while row < rows {
        let count = most.min(rows - row);
        let size = count as usize * columns as usize;
        let piece = &mut buffer[..size];
        copy_rows(frame, plane, row, count, piece);
        write_all(host, id, piece)?;
        row += count;
    }
    Ok(())
}

/// Writes the planes of a picture.
fn write_picture<H: Host>(
    host: &mut H,
    id: u32,
    frame: &mut Frame,
    buffer: &mut [u8],
) -> Result<(), HostError>
    requires id { IsSome ((H.world host.old).outputs.name id) }
    requires narrow { (p : ℕ) → p < planes_of frame.old.shape → columns_of frame.old.shape p ≤ greatest_side }
    requires long { length buffer.old ≡ piece_size }
    ensures written { OnOk result (Changes (H.world host.old) (H.world host.new) id (appended (picture_text frame.old.planes))) }
    ensures refused { OnErr result (WritesPart (H.world host.old) (H.world host.new) id (picture_text frame.old.planes)) }
    ensures faults { Counts RaisesWrites result (H.world host.old).faults (H.world host.new).faults }
    ensures same { frame.new ≡ frame.old }
{
    for plane in 0..frame.shape().planes() {
        write_plane(host, id, frame, plane, buffer)?;
    }
    Ok(())
}

/// Writes a frame: its first line, and its planes.
fn write_frame<H: Host>(
    host: &mut H,
    id: u32,
    frame: &mut Frame,
    buffer: &mut [u8],
) -> Result<(), HostError>
    requires id { IsSome ((H.world host.old).outputs.name id) }
    requires narrow { (p : ℕ) → p < planes_of frame.old.shape → columns_of frame.old.shape p ≤ greatest_side }
    requires long { length buffer.old ≡ piece_size }
    ensures written { OnOk result (Changes (H.world host.old) (H.world host.new) id (appended (frame_text frame.old.planes))) }
    ensures refused { OnErr result (WritesPart (H.world host.old) (H.world host.new) id (frame_text frame.old.planes)) }
    ensures faults { Counts RaisesWrites result (H.world host.old).faults (H.world host.new).faults }
    ensures same { frame.new ≡ frame.old }
{
    write_all(host, id, FRAME_MARK)?;
    write_picture(host, id, frame, buffer)?;
    Ok(())
}

/// What the writer returns after a failed call of the host.
fn write_error(error: HostError) -> WriteError
    ensures { result ≡ write_error_of error }
{
    match error {
        HostError::Failed => WriteError::Host,
        HostError::NoMemory => WriteError::NoMemory,
    }
}

impl Writer {
    /// How many bytes the header line and the frames have that were written whole. More than 2^64 - 1 are shown as 2^64 - 1.
    pub fn bytes(&self) -> u64
        ensures { result ≡ self.now.bytes }
    {
        self.bytes
    }

    /// A writer of pictures of the shape to the output with this id.
    ///
    /// # Errors
    /// Out of memory.
    pub fn new(alloc: Global, id: u32, shape: Shape) -> Result<Writer, NoMemory>
        requires { IsWritable shape }
        ensures { IfOk result (λ w. w ≡ record { id = id; shape = shape; progress = Progress.Fresh; bytes = 0 }) }
    {
        let buffer = vec![in alloc; 0u8; PIECE]?;
        Ok(Writer {
            id,
            shape,
            progress: Progress::Fresh,
            bytes: 0,
            buffer,
        })
    }

    /// Writes the header line.
    ///
    /// # Errors
    /// `Host` exactly if the host's count of writes rose, and `NoMemory`, out of memory. The writer is spent then,
    /// and a beginning of the line was added.
    pub fn start<H: Host>(&mut self, alloc: Global, host: &mut H) -> Result<(), WriteError>
        requires id { IsSome ((H.world host.old).outputs.name self.old.id) }
        requires fresh { self.old.progress ≡ Progress.Fresh }
        ensures writes { Writes (H.world host.old) (H.world host.new) self.old self.new (header_text self.old.shape) Progress.Started result }
        ensures faults { CountsWrite result (H.world host.old).faults (H.world host.new).faults }
        ensures short { OnOk result (length (header_text self.old.shape) ≤ longest_line) }
    {
        self.progress = Progress::Spent;
        let line = match write_header(alloc, self.shape) {
            Ok(line) => line,
            Err(NoMemory) => return Err(WriteError::NoMemory),
        };
        write_all(host, self.id, line.as_bytes()).map_err(write_error)?;
        self.bytes = self.bytes.saturating_add(line.len() as u64);
        self.progress = Progress::Started;
        Ok(())
    }

    /// Writes a frame of the writer's shape.
    ///
    /// # Errors
    /// `Host` exactly if the host's count of writes rose, and `NoMemory` if the host is out of memory. The writer is
    /// spent then, and a beginning of the frame's text was added.
    pub fn frame<H: Host>(
        &mut self,
        _alloc: Global,
        host: &mut H,
        frame: &mut Frame,
    ) -> Result<(), WriteError>
        requires id { IsSome ((H.world host.old).outputs.name self.old.id) }
        requires started { self.old.progress ≡ Progress.Started }
        requires shape { frame.old.shape ≡ self.old.shape }
        ensures writes { Writes (H.world host.old) (H.world host.new) self.old self.new (frame_text frame.old.planes) Progress.Started result }
        ensures faults { CountsWrite result (H.world host.old).faults (H.world host.new).faults }
        ensures size { OnOk result (length (frame_text frame.old.planes) ≡ frame_size self.old.shape) }
        ensures small { OnOk result (frame_size self.old.shape ≤ greatest_frame) }
        ensures same { frame.new ≡ frame.old }
    {
        self.progress = Progress::Spent;
        write_frame(host, self.id, frame, &mut self.buffer).map_err(write_error)?;
        let size = FRAME_MARK.len() as u64 + frame.shape().picture_bytes();
        self.bytes = self.bytes.saturating_add(size);
        self.progress = Progress::Started;
        Ok(())
    }

    /// Writes the end of the file, which is empty. It makes no call of the host.
    ///
    /// # Errors
    /// None: the type is that of a writer of any format.
    pub fn finish<H: Host>(&mut self, _alloc: Global, host: &mut H) -> Result<(), WriteError>
        requires id { IsSome ((H.world host.old).outputs.name self.old.id) }
        requires started { self.old.progress ≡ Progress.Started }
        ensures writes { Writes (H.world host.old) (H.world host.new) self.old self.new [] Progress.Spent result }
        ensures faults { CountsWrite result (H.world host.old).faults (H.world host.new).faults }
        ensures done { IsOk result }
    {
        let _host = host;
        self.progress = Progress::Spent;
        Ok(())
    }
}
