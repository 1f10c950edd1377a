//! The files of a host over real files: how they are opened, and one call each on one of them.
ghost use Rattle.std.specs.Prelude.{◌≡◌, ◌<◌, string_bytes, length, IsTrue};
ghost use Rattle.std.specs.Io.{ReadsAtMost, WritesAtMost};
ghost use Rattle.std.specs.Io.KnownBytes.{ReadConsumes, WriteAppends};
ghost use Rattle.av_host.specs.Files.{AltersAt, GoesToEnd, WritesOver, Patches};

use std::fs::{Metadata, OpenFile, OpenOptions};
use std::io::{self, ErrorKind, Read, Seek, SeekFrom, Write};
use std::os::unix::fs::MetadataExt;
use std::rt::Files;

/// A file that was created, and its name.
#[derive(Drop)]
pub struct NamedFile<F> {
    pub(crate) name: String,
    pub(crate) file: F,
}

/// Opens a file for an output, and empties it. A file that is one of the inputs is refused and
/// keeps its bytes, whatever name it is called by.
pub(crate) fn create_apart<R: Files>(
    rt: &R,
    name: &str,
    inputs: &[R::File],
) -> io::Result<R::File> {
    // It is opened as it is, compared, and only then emptied.
    let file = OpenOptions::new().write(true).create(true).open(rt, name)?;
    let found = file.metadata()?;
    if found.is_file() {
        for input in inputs {
            if is_same_file(&input.metadata()?, &found) {
                return Err(io::Error::from(ErrorKind::AlreadyExists));
            }
        }
        // A file system may write all blocks of a truncated file when it is closed, so a new file isn't truncated.
        if found.len() != 0 {
            file.set_len(0)?;
        }
    }
    Ok(file)
}

/// Whether both are of one file, by device and inode. No file has the inode 0: it means that the
/// inode isn't known.
fn is_same_file(one: &Metadata, other: &Metadata) -> bool {
    one.ino() != 0 && one.ino() == other.ino() && one.dev() == other.dev()
}

/// One read of the input with this id.
pub(crate) fn read_input<F: Read>(inputs: &mut Vec<F>, id: u32, buf: &mut [u8]) -> io::Result<usize>
    requires { id < length inputs.old.items }
    ensures fits { ReadsAtMost result buf.new }
    ensures read { AltersAt inputs.old.items inputs.new.items id
        (λ x y. ReadConsumes (F.remaining x) (F.remaining y) result buf.new) }
{
    inputs[id as usize].read(buf)
}

/// One write to the output with this id.
pub(crate) fn write_output<F: Write>(
    outputs: &mut Vec<NamedFile<F>>,
    id: u32,
    piece: &[u8],
) -> io::Result<usize>
    requires { id < length outputs.old.items }
    ensures fits { WritesAtMost result piece.now }
    ensures written { AltersAt outputs.old.items outputs.new.items id
        (λ x y. (string_bytes y.name ≡ string_bytes x.name)
        × WriteAppends (F.contents x.file) (F.contents y.file) result piece.now) }
{
    outputs[id as usize].file.write(piece)
}

/// A patch of the output with this id.
pub(crate) fn patch_output<F: Write + Seek>(
    outputs: &mut Vec<NamedFile<F>>,
    id: u32,
    at: u64,
    piece: &[u8],
) -> bool
    requires { id < length outputs.old.items }
    ensures patched { AltersAt outputs.old.items outputs.new.items id
        (λ x y. (string_bytes y.name ≡ string_bytes x.name)
        × (IsTrue result → Patches F.stream_position F.stream_bytes F.contents x.file y.file at piece.now)) }
{
    patch_file(&mut outputs[id as usize].file, at, piece)
}

/// Writes over bytes, and goes back to the end, even if the writing failed.
fn patch_file<F: Write + Seek>(file: &mut F, at: u64, piece: &[u8]) -> bool
    ensures { IsTrue result → Patches F.stream_position F.stream_bytes F.contents file.old file.new at piece.now }
{
    let written = write_over(file, at, piece);
    let at_end = go_to_end(file);
    written && at_end
}

/// Goes to a place and writes all of the piece there.
fn write_over<F: Write + Seek>(file: &mut F, at: u64, piece: &[u8]) -> bool
    ensures { IsTrue result → WritesOver F.stream_position F.contents file.old file.new at piece.now }
{
    file.seek(SeekFrom::Start(at)).is_ok() && file.write_all(piece).is_ok()
}

/// Goes to the end, so that the next write adds to it.
fn go_to_end<S: Seek>(file: &mut S) -> bool
    ensures { IsTrue result → GoesToEnd (S.stream_position file.old) (S.stream_position file.new) (S.stream_bytes file.old) }
{
    file.seek(SeekFrom::End(0)).is_ok()
}
