//! Reads, writes and prints that go on until all is done.
ghost use Rattle.std.specs.Prelude.{◌≡◌, ◌<◌, ◌≤◌, ◌+◌, ◌++◌, [], Some, Ok, take, length, IfOk, OnOk, OnErr, MatchResult, IsTrue, IsSome};
ghost use Rattle.std.specs.Option.{ForSome};
ghost use Rattle.av_host.specs.Calls.{Stays, Reads, Changes, Says, appended, Counts, RaisesReads, RaisesWrites, RaisesSayings};
ghost use Rattle.av_host.specs.HostRuns.{ReadsSome, WritesPart, SaysPart};

use crate::host::{Failed, Host, HostError};

/// Reads into the buffer from a place on.
fn read_at<H: Host>(host: &mut H, id: u32, buf: &mut [u8], at: usize) -> Result<usize, Failed>
    requires id { IsTrue ((H.world host.old).inputs.is_open id) }
    requires at { at < length buf.old }
    ensures read { IfOk result (λ n. (piece : _) × (length piece ≡ n) × (take (at + n) buf.new ≡ take at buf.old ++ piece)
        × Reads (H.world host.old) (H.world host.new) id piece) }
    ensures fits { IfOk result (λ n. at + n ≤ length buf.new) }
    ensures end { result ≡ Ok 0 → ForSome ((H.world host.old).inputs.left id) (λ left. left ≡ []) }
    ensures refused { OnErr result (Stays (H.world host.old) (H.world host.new)) }
    ensures faults { MatchResult result (λ _. (H.world host.new).faults ≡ (H.world host.old).faults)
        (λ _. RaisesReads (H.world host.old).faults (H.world host.new).faults) }
{
    let n = host.read(id, &mut buf[at..])?;
    Ok(n)
}

/// Reads until the buffer is full or the input ends, however the host cuts the reads.
pub fn fill<H: Host>(host: &mut H, id: u32, buf: &mut [u8]) -> Result<usize, Failed>
    requires { IsTrue ((H.world host.old).inputs.is_open id) }
    ensures read { IfOk result (λ n. Reads (H.world host.old) (H.world host.new) id (take n buf.new)) }
    ensures fits { IfOk result (λ n. n ≤ length buf.new) }
    // It stops short only at the end.
    ensures end { IfOk result (λ n. n < length buf.new → ForSome ((H.world host.old).inputs.left id) (λ _. (H.world host.new).inputs.left id ≡ Some [])) }
    ensures refused { OnErr result (ReadsSome (H.world host.old) (H.world host.new) id) }
    ensures faults { MatchResult result (λ _. (H.world host.new).faults ≡ (H.world host.old).faults)
        (λ _. RaisesReads (H.world host.old).faults (H.world host.new).faults) }
{
    let mut filled = 0;
    while filled < buf.len() {
        let n = read_at(host, id, buf, filled)?;
        if n == 0 {
            break;
        }
        filled += n;
    }
    Ok(filled)
}

/// Writes all of the piece.
pub fn write_all<H: Host>(host: &mut H, id: u32, piece: &[u8]) -> Result<(), HostError>
    requires { IsSome ((H.world host.old).outputs.name id) }
    ensures written { OnOk result (Changes (H.world host.old) (H.world host.new) id (appended piece.now)) }
    ensures refused { OnErr result (WritesPart (H.world host.old) (H.world host.new) id piece.now) }
    ensures faults { Counts RaisesWrites result (H.world host.old).faults (H.world host.new).faults }
{
    let mut done = 0;
    while done < piece.len() {
        done += host.write(id, &piece[done..])?;
    }
    Ok(())
}

/// Prints the line. A failure ends it.
pub fn say_all<H: Host>(host: &mut H, line: &[u8]) -> Result<(), Failed>
    ensures said { OnOk result (Says (H.world host.old) (H.world host.new) line.now) }
    ensures refused { OnErr result (SaysPart (H.world host.old) (H.world host.new) line.now) }
    ensures faults { MatchResult result (λ _. (H.world host.new).faults ≡ (H.world host.old).faults)
        (λ _. RaisesSayings (H.world host.old).faults (H.world host.new).faults) }
{
    let mut done = 0;
    while done < line.len() {
        done += host.say(&line[done..])?;
    }
    Ok(())
}
