//! The reader of YUV4MPEG2 files.
ghost use Rattle.std.specs.Prelude.{◌≡◌, ◌⊎◌, ◌+◌, ◌*◌, ◌<◌, ◌≤◌, ◌^◌, ◌++◌, [], Some, ◌∷◌, Ok, ℕ, List, true, false, take, length, IfOk, IfSome, OnErr, IsTrue, MatchResult};
ghost use Rattle.std.specs.Option.{ForSome, option_to_list};
ghost use Rattle.av_base.specs.declared.shapes.Shape.{Shape};
ghost use Rattle.av_base.specs.Bounds.{greatest_side};
ghost use Rattle.av_base.specs.Shapes.{planes_of, columns_of, IsWithinLimits};
ghost use Rattle.av_host.specs.Calls.{Stays, Reads, RaisesReads};
ghost use Rattle.av_host.specs.HostRuns.{ReadsSome};
ghost use Rattle.y4m_io.specs.Sizes.{piece_size};
ghost use Rattle.y4m_io.specs.Heads.{head_error};
ghost use Rattle.y4m_io.specs.FrameTexts.{frame_mark};
ghost use Rattle.y4m_io.specs.Pieces.{GivesLine, ReadsPlane, ReadsPicture, Begins, spaced_mark, CanBeginMark, GivesMark, EndsWithin, Finds};
ghost use Rattle.y4m_io.specs.Reading.{Heads, CountsHead, IsHeaded, Gives, CountsNext};
ghost use Rattle.y4m_io.specs.declared.y4m_state.Stage.{Stage};

use crate::rows::put_rows;
use crate::y4m_limits::{FRAME_MARK, LINE_MAX, MAGIC, MARK_MAX, PIECE, SPACED_MARK};
use crate::y4m_state::Stage;
use av_base::{NoMemory, Shape};
use av_frame::{Edit, Frame, HeadError, NextError, Pools};
use av_host::{Failed, Host, fill};
use std::alloc::Global;
use std::marker::Model;
use y4m_header::{HeaderFault, front_fault, read_header};

/// What the reading of a line found, of which the bytes are at the front of a buffer.
enum Line {
    /// A line of this many bytes, and its line feed after them.
    Whole(usize),
    /// This many bytes without a line feed. The input ends after them, or a header line must have ended by then.
    Unended(usize),
    /// This many bytes without a line feed, up to the limit, which is less than a header line may have. More follow.
    Cut(usize),
}

/// How a picture ended.
enum Ending {
    /// All of it was there.
    Whole,
    /// The input ended within it.
    Short,
}

/// What the reading of a frame's line found.
enum Mark {
    /// A line of this many bytes, with its line feed.
    Whole(usize),
    /// Something that is no frame's line, whatever follows.
    Bad,
    /// The end of the input.
    End,
    /// The input's end within the line.
    Short,
    /// The limit of bytes within the line, and more bytes.
    Past,
}

/// What was found at the place of a frame.
enum Found {
    /// A whole frame, whose line has this many bytes.
    Frame(usize),
    /// The end of the input.
    End,
    /// Something that is no frame, whatever follows.
    Bad,
    /// The input's end within a frame.
    Short,
    /// The limit of bytes, within a frame that may go on.
    Past,
}

/// A reader of one open input of a host. Contracts see which input it reads, how many bytes it may still take, how many
/// frames it gave, and how far it is. It keeps nothing of the input: what is left for it is what the host has left.
#[derive(Drop)]
pub struct Reader {
    id: u32,
    room: u64,
    frames: u64,
    stage: Stage,
    buffer: Vec<u8>,
}

impl Model for Reader {
    ghost use Rattle.std.specs.Prelude.{◌≡◌, ◌+◌, ◌*◌, ◌<◌, ◌^◌, vec_len};
    ghost use Rattle.y4m_io.specs.Reading.{Reading, IsSound};
    ghost use Rattle.y4m_io.specs.Sizes.{piece_size};

    ghost Value = { Reading };

    ghost view = { λ r. record { id = r.id; room = r.room; frames = r.frames; stage = r.stage } };

    ghost invariant = { λ r. (vec_len r.buffer ≡ piece_size) × (6 * r.frames + r.room < 2 ^ 64) × IsSound r.stage };
}

/// Reads a byte into a place of the buffer. There is none only at the end of the input.
fn read_byte<H: Host>(
    host: &mut H,
    id: u32,
    buffer: &mut [u8],
    at: usize,
) -> Result<Option<u8>, Failed>
    requires id { IsTrue ((H.world host.old).inputs.is_open id) }
    requires at { at < length buffer.old }
    ensures read { IfOk result (λ byte. Reads (H.world host.old) (H.world host.new) id (option_to_list byte)) }
    ensures kept { IfOk result (λ byte. IfSome byte (λ b. take (at + 1) buffer.new ≡ take at buffer.old ++ b ∷ [])) }
    ensures front { take at buffer.new ≡ take at buffer.old }
    ensures end { result ≡ Ok None → ForSome ((H.world host.old).inputs.left id) (λ left. left ≡ []) }
    ensures refused { OnErr result (Stays (H.world host.old) (H.world host.new)) }
    ensures faults { MatchResult result (λ _. (H.world host.new).faults ≡ (H.world host.old).faults)
        (λ _. RaisesReads (H.world host.old).faults (H.world host.new).faults) }
{
    if host.read(id, &mut buffer[at..at + 1])? == 0 {
        return Ok(None);
    }
    Ok(Some(buffer[at]))
}

/// Reads a line byte by byte, of at most `LINE_MAX` bytes and at most `room`, to the front of the buffer.
fn read_line<H: Host>(host: &mut H, id: u32, room: u64, buffer: &mut [u8]) -> Result<Line, Failed>
    requires id { IsTrue ((H.world host.old).inputs.is_open id) }
    requires long { length buffer.old ≡ piece_size }
    ensures line { IfOk result (GivesLine (H.world host.old) (H.world host.new) id room buffer.new) }
    ensures refused { OnErr result (ReadsSome (H.world host.old) (H.world host.new) id) }
    ensures faults { MatchResult result (λ _. (H.world host.new).faults ≡ (H.world host.old).faults)
        (λ _. RaisesReads (H.world host.old).faults (H.world host.new).faults) }
{
    let most = room.min(LINE_MAX as u64) as usize;
    for n in 0..most {
        match read_byte(host, id, buffer, n)? {
            None => return Ok(Line::Unended(n)),
            Some(b'\n') => return Ok(Line::Whole(n)),
            Some(_) => {}
        }
    }
    if most == LINE_MAX {
        return Ok(Line::Unended(most));
    }
    match read_byte(host, id, buffer, most)? {
        None => Ok(Line::Unended(most)),
        Some(_) => Ok(Line::Cut(most)),
    }
}

/// What the reader returns for a fault of a header line.
fn line_error(fault: HeaderFault) -> HeadError
    ensures { result ≡ head_error fault }
{
    match fault {
        HeaderFault::NotMedia => HeadError::NotMedia,
        HeaderFault::BadHeader => HeadError::BadHeader,
        HeaderFault::BadColour => HeadError::BadColour,
    }
}

/// Reads the rows of a plane, in pieces of whole rows.
fn read_plane<H: Host>(
    host: &mut H,
    id: u32,
    edit: &mut Edit,
    plane: u32,
    buffer: &mut [u8],
) -> Result<Ending, Failed>
    requires id { IsTrue ((H.world host.old).inputs.is_open id) }
    requires plane { plane < planes_of edit.old.shape }
    requires narrow { columns_of edit.old.shape plane ≤ greatest_side }
    requires long { length buffer.old ≡ piece_size }
    ensures read { IfOk result (ReadsPlane (H.world host.old) (H.world host.new) id plane edit.old edit.new) }
    ensures refused { OnErr result (ReadsSome (H.world host.old) (H.world host.new) id) }
    ensures faults { MatchResult result (λ _. (H.world host.new).faults ≡ (H.world host.old).faults)
        (λ _. RaisesReads (H.world host.old).faults (H.world host.new).faults) }
{
    let (columns, rows) = edit.shape().plane_size(plane);
    let most = PIECE as u32 / columns;
    let mut row = 0;
    while row < rows {
        let count = most.min(rows - row);
        let size = count as usize * columns as usize;
        let piece = &mut buffer[..size];
        if fill(host, id, piece)? < size {
            return Ok(Ending::Short);
        }
        put_rows(edit, plane, row, count, piece);
        row += count;
    }
    Ok(Ending::Whole)
}

/// Reads the planes of a picture.
fn read_picture<H: Host>(
    host: &mut H,
    id: u32,
    edit: &mut Edit,
    buffer: &mut [u8],
) -> Result<Ending, Failed>
    requires id { IsTrue ((H.world host.old).inputs.is_open id) }
    requires narrow { (p : ℕ) → p < planes_of edit.old.shape → columns_of edit.old.shape p ≤ greatest_side }
    requires long { length buffer.old ≡ piece_size }
    ensures read { IfOk result (ReadsPicture (H.world host.old) (H.world host.new) id edit.old edit.new) }
    ensures refused { OnErr result (ReadsSome (H.world host.old) (H.world host.new) id) }
    ensures faults { MatchResult result (λ _. (H.world host.new).faults ≡ (H.world host.old).faults)
        (λ _. RaisesReads (H.world host.old).faults (H.world host.new).faults) }
{
    let mut plane = 0;
    while plane < edit.shape().planes() {
        match read_plane(host, id, edit, plane, buffer)? {
            Ending::Whole => plane += 1,
            Ending::Short => return Ok(Ending::Short),
        }
    }
    Ok(Ending::Whole)
}

/// Reads and drops at most `most` bytes, and returns how many there were. They are fewer only if the input ends.
fn skip<H: Host>(host: &mut H, id: u32, most: u64, buffer: &mut [u8]) -> Result<u64, Failed>
    requires id { IsTrue ((H.world host.old).inputs.is_open id) }
    requires long { length buffer.old ≡ piece_size }
    ensures read { IfOk result (λ n. (got : List ℕ) × (length got ≡ n) × Reads (H.world host.old) (H.world host.new) id got) }
    ensures within { IfOk result (λ n. n ≤ most) }
    ensures end { IfOk result (λ n. n < most → ForSome ((H.world host.old).inputs.left id) (λ _. (H.world host.new).inputs.left id ≡ Some [])) }
    ensures refused { OnErr result (ReadsSome (H.world host.old) (H.world host.new) id) }
    ensures faults { MatchResult result (λ _. (H.world host.new).faults ≡ (H.world host.old).faults)
        (λ _. RaisesReads (H.world host.old).faults (H.world host.new).faults) }
{
    let mut skipped = 0;
    while skipped < most {
        let size = PIECE.min(usize::try_from(most - skipped).unwrap_or(PIECE));
        let n = fill(host, id, &mut buffer[..size])?;
        skipped += n as u64;
        if n < size {
            break;
        }
    }
    Ok(skipped)
}

/// Whether a frame's line may begin with these bytes, of which there are at most 6.
fn is_front(bytes: &[u8]) -> bool
    requires { length bytes.now ≤ 6 }
    ensures yes { result ≡ true → Begins bytes.now frame_mark ⊎ Begins bytes.now spaced_mark }
    ensures no { result ≡ false → ¬ CanBeginMark bytes.now }
{
    FRAME_MARK.starts_with(bytes) || SPACED_MARK.starts_with(bytes)
}

/// Reads the line of a frame: its first bytes at once, and parameters byte by byte.
fn read_mark<H: Host>(host: &mut H, id: u32, room: u64, buffer: &mut [u8]) -> Result<Mark, Failed>
    requires id { IsTrue ((H.world host.old).inputs.is_open id) }
    requires long { length buffer.old ≡ piece_size }
    ensures mark { IfOk result (GivesMark (H.world host.old) (H.world host.new) id room) }
    ensures refused { OnErr result (ReadsSome (H.world host.old) (H.world host.new) id) }
    ensures faults { MatchResult result (λ _. (H.world host.new).faults ≡ (H.world host.old).faults)
        (λ _. RaisesReads (H.world host.old).faults (H.world host.new).faults) }
{
    let most = room.min(MARK_MAX as u64) as usize;
    let first = most.min(FRAME_MARK.len());
    let size = fill(host, id, &mut buffer[..first])?;
    if !is_front(&buffer[..size]) {
        return Ok(Mark::Bad);
    }
    if size < first {
        return Ok(if size == 0 { Mark::End } else { Mark::Short });
    }
    if size == FRAME_MARK.len() && buffer[5] == b'\n' {
        return Ok(Mark::Whole(size));
    }
    for n in first..most {
        match read_byte(host, id, buffer, n)? {
            None => return Ok(Mark::Short),
            Some(b'\n') => return Ok(Mark::Whole(n + 1)),
            Some(_) => {}
        }
    }
    if most == MARK_MAX {
        return Ok(Mark::Bad);
    }
    match read_byte(host, id, buffer, most)? {
        None => Ok(if most == 0 { Mark::End } else { Mark::Short }),
        Some(_) => Ok(Mark::Past),
    }
}

/// Finds how the input ends if `room` bytes after a frame's line are within the limit, which are fewer than its picture
/// has.
fn read_last<H: Host>(host: &mut H, id: u32, room: u64, buffer: &mut [u8]) -> Result<Found, Failed>
    requires id { IsTrue ((H.world host.old).inputs.is_open id) }
    requires long { length buffer.old ≡ piece_size }
    ensures found { IfOk result (EndsWithin (H.world host.old) (H.world host.new) id room) }
    ensures refused { OnErr result (ReadsSome (H.world host.old) (H.world host.new) id) }
    ensures faults { MatchResult result (λ _. (H.world host.new).faults ≡ (H.world host.old).faults)
        (λ _. RaisesReads (H.world host.old).faults (H.world host.new).faults) }
{
    if skip(host, id, room, buffer)? < room {
        return Ok(Found::Short);
    }
    if fill(host, id, &mut buffer[..1])? == 0 {
        return Ok(Found::Short);
    }
    Ok(Found::Past)
}

/// Finds how the input goes on, and reads the frame if one is whole within the limit.
fn read_frame<H: Host>(
    host: &mut H,
    id: u32,
    room: u64,
    edit: &mut Edit,
    buffer: &mut [u8],
) -> Result<Found, Failed>
    requires id { IsTrue ((H.world host.old).inputs.is_open id) }
    requires limits { IsWithinLimits edit.old.shape }
    requires long { length buffer.old ≡ piece_size }
    ensures found { IfOk result (Finds (H.world host.old) (H.world host.new) id room edit.old edit.new) }
    ensures refused { OnErr result (ReadsSome (H.world host.old) (H.world host.new) id) }
    ensures faults { MatchResult result (λ _. (H.world host.new).faults ≡ (H.world host.old).faults)
        (λ _. RaisesReads (H.world host.old).faults (H.world host.new).faults) }
{
    let size = match read_mark(host, id, room, buffer)? {
        Mark::Whole(size) => size,
        Mark::Bad => return Ok(Found::Bad),
        Mark::End => return Ok(Found::End),
        Mark::Short => return Ok(Found::Short),
        Mark::Past => return Ok(Found::Past),
    };
    let left = room - size as u64;
    if edit.shape().picture_bytes() > left {
        return read_last(host, id, left, buffer);
    }
    match read_picture(host, id, edit, buffer)? {
        Ending::Whole => Ok(Found::Frame(size)),
        Ending::Short => Ok(Found::Short),
    }
}

impl Reader {
    /// A reader of the input with this id, of which it takes at most `limit` bytes.
    ///
    /// # Errors
    /// Out of memory.
    pub fn new(alloc: Global, id: u32, limit: u64) -> Result<Reader, NoMemory>
        ensures { IfOk result (λ r. r ≡ record { id = id; room = limit; frames = 0; stage = Stage.Fresh }) }
    {
        let buffer = vec![in alloc; 0u8; PIECE]?;
        Ok(Reader {
            id,
            room: limit,
            frames: 0,
            stage: Stage::Fresh,
            buffer,
        })
    }

    /// How many frames it has given.
    pub fn frames(&self) -> u64
        ensures { result ≡ self.now.frames }
    {
        self.frames
    }

    /// Reads the header line, and returns its shape.
    ///
    /// # Errors
    /// `NotMedia`, `BadHeader` and `BadColour` for a fault of the header line, `TooLong` if the line isn't over within a
    /// limit that is less than a line may have, more bytes follow and it may still be in order, and `Host` exactly if
    /// the host's count of reads rose. The reader is spent then.
    pub fn header<H: Host>(&mut self, _alloc: Global, host: &mut H) -> Result<Shape, HeadError>
        requires id { IsTrue ((H.world host.old).inputs.is_open self.old.id) }
        requires fresh { self.old.stage ≡ Stage.Fresh }
        ensures heads { Heads (H.world host.old) (H.world host.new) self.old self.new result }
        ensures faults { CountsHead result (H.world host.old).faults (H.world host.new).faults }
    {
        self.stage = Stage::Spent;
        let size = match read_line(host, self.id, self.room, &mut self.buffer) {
            Ok(Line::Whole(size)) => size,
            Ok(Line::Unended(size)) if self.buffer[..size].starts_with(MAGIC) => {
                return Err(HeadError::BadHeader);
            }
            Ok(Line::Unended(_)) => return Err(HeadError::NotMedia),
            Ok(Line::Cut(size)) => match front_fault(&self.buffer[..size]) {
                Some(fault) => return Err(line_error(fault)),
                None => return Err(HeadError::TooLong),
            },
            Err(Failed) => return Err(HeadError::Host),
        };
        match read_header(&self.buffer[..size]) {
            Ok(shape) => {
                self.room -= size as u64 + 1;
                self.stage = Stage::Headed(shape);
                Ok(shape)
            }
            Err(fault) => Err(line_error(fault)),
        }
    }

    /// Reads the next frame, in the order of the file: frame k has the pts k and the duration 1. None means that the
    /// input ended after the frame before it.
    ///
    /// # Errors
    /// `BadFrame` if what is within the limit is no frame whatever follows, `Truncated` if the input ends within a
    /// frame, `TooLong` if the limit comes before the frame's end and more bytes follow, and `Host` exactly if the
    /// host's count of reads rose; the reader is spent then. After `NoMemory`, out of memory, the same rest of the
    /// input is left, and the call can be made again.
    pub fn next<H: Host>(
        &mut self,
        alloc: Global,
        host: &mut H,
        pools: &mut Pools,
    ) -> Result<Option<Frame>, NextError>
        requires id { IsTrue ((H.world host.old).inputs.is_open self.old.id) }
        requires headed { IsHeaded self.old.stage }
        ensures gives { (shape : Shape) → self.old.stage ≡ Stage.Headed shape → Gives shape (H.world host.old) (H.world host.new) self.old self.new result }
        ensures faults { CountsNext result (H.world host.old).faults (H.world host.new).faults }
    {
        let Stage::Headed(shape) = self.stage else {
            unreachable!()
        };
        let mut edit = match Edit::blank(alloc, pools, shape, 0) {
            Ok(edit) => edit,
            Err(NoMemory) => return Err(NextError::NoMemory),
        };
        self.stage = Stage::Spent;
        match read_frame(host, self.id, self.room, &mut edit, &mut self.buffer) {
            Ok(Found::Frame(size)) => {
                self.stage = Stage::Headed(edit.shape());
                self.room -= size as u64 + shape.picture_bytes();
                let pts = self.frames as i64;
                self.frames += 1;
                Ok(Some(edit.seal(pts, 1)))
            }
            Ok(Found::End) => {
                self.stage = Stage::Headed(shape);
                Ok(None)
            }
            Ok(Found::Bad) => Err(NextError::BadFrame { frame: self.frames }),
            Ok(Found::Short) => Err(NextError::Truncated { place: self.frames }),
            Ok(Found::Past) => Err(NextError::TooLong),
            Err(Failed) => Err(NextError::Host),
        }
    }
}
