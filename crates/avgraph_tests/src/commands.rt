//! Commands and hosts of tests.

use av_host::MemoryHost;
use avgraph::{OpenGate, avgraph};
use std::alloc::{AllocError, Global};
use std::process::Abort;
use std::thread::Threads;

/// A picture of 4x2 samples.
pub(crate) const FILE: &[u8] =
    b"YUV4MPEG2 W4 H2 F25:1 C420\nFRAME\n\x01\x02\x03\x04\x05\x06\x07\x08\x09\x0a\x0b\x0c";

/// What it is written as if left and right are exchanged.
pub(crate) const FLIPPED: &[u8] =
    b"YUV4MPEG2 W4 H2 F25:1 Ip A0:0 C420jpeg\nFRAME\n\x04\x03\x02\x01\x08\x07\x06\x05\x0a\x09\x0c\x0b";

/// What it is written as if its samples stay.
pub(crate) const KEPT: &[u8] =
    b"YUV4MPEG2 W4 H2 F25:1 Ip A0:0 C420jpeg\nFRAME\n\x01\x02\x03\x04\x05\x06\x07\x08\x09\x0a\x0b\x0c";

/// The lengths of the header lines that are read and written.
pub(crate) const HEADER: usize = 27;

pub(crate) const WRITTEN_HEADER: usize = 39;

/// A gray picture of 4x2 samples.
pub(crate) const GRAY: &[u8] =
    b"YUV4MPEG2 W4 H2 F25:1 Cmono\nFRAME\n\x01\x02\x03\x04\x05\x06\x07\x08";

/// The words as texts of their own.
pub(crate) fn words(alloc: Global, line: &[&str]) -> Result<Vec<String>, AllocError> {
    let mut words = Vec::new(alloc);
    for word in line {
        words.push(String::from_str(alloc, word)?)?;
    }
    Ok(words)
}

/// The words of a command from `a.y4m` to `b.y4m` with this graph text.
pub(crate) fn with_text(alloc: Global, text: &str) -> Result<Vec<String>, AllocError> {
    words(alloc, &["-i", "a.y4m", "-filter_complex", text, "b.y4m"])
}

/// A host that holds these bytes as `a.y4m`.
pub(crate) fn host_with(rt: &impl Abort, alloc: Global, bytes: &[u8]) -> MemoryHost {
    let mut host = MemoryHost::new(alloc).ok().expect(rt, "a host");
    host.add(alloc, "a.y4m", bytes).ok().expect(rt, "an input");
    host
}

/// What came of a command: its status, and whether just this was printed.
pub(crate) fn run(
    rt: &(impl Abort + Threads + Sync),
    alloc: Global,
    words: &[String],
    host: &mut MemoryHost,
    said: &str,
) -> (u8, bool) {
    let status = avgraph(rt, alloc, words, host, &OpenGate);
    (status, host.said() == said.as_bytes())
}

/// Runs a command over a host of which only the first call may succeed; its status, and whether just this line was printed
/// and no output created.
pub(crate) fn refusal(
    rt: &(impl Abort + Threads + Sync),
    alloc: Global,
    words: &[String],
    line: &str,
) -> (u8, bool) {
    let mut host = host_with(rt, alloc, FILE);
    host.fail_call(alloc, 1).ok().expect(rt, "a call");
    let (status, said) = run(rt, alloc, words, &mut host, line);
    (status, said && host.output("b.y4m").is_none())
}
