//! The lines of a report: how many frames were read and written.
ghost use Rattle.std.specs.Prelude.{◌≡◌, ◌≤◌};
ghost use Rattle.arrayvec.specs.ArrayString.{array_string_len};
ghost use Rattle.av_faults.specs.Reports.{input_line, output_line};

use crate::lines::{LINE_ROOM, put_number};
use arrayvec::ArrayString;

/// The line of an input, with its line feed: how many frames it gave.
pub fn input_line(input: u32, frames: u64) -> ArrayString<LINE_ROOM>
    ensures text { result.bytes ≡ input_line input frames }
    ensures short { array_string_len result ≤ 52 }
{
    let mut line = ArrayString::new();
    put_number(&mut line, "in ", u64::from(input));
    put_number(&mut line, " frames ", frames);
    line.push_str("\n");
    line
}

/// The line of an output, with its line feed: how many frames were written to it, and its length in bytes.
pub fn output_line(output: u32, frames: u64, bytes: u64) -> ArrayString<LINE_ROOM>
    ensures text { result.bytes ≡ output_line output frames bytes }
    ensures short { array_string_len result ≤ 80 }
{
    let mut line = ArrayString::new();
    put_number(&mut line, "out ", u64::from(output));
    put_number(&mut line, " frames ", frames);
    put_number(&mut line, " bytes ", bytes);
    line.push_str("\n");
    line
}
