//! Calls of the host in memory, on values made by hand.
ghost use Rattle.std.specs.Prelude.{◌≡◌, ◌≤◌, Some, length, IfOk, IsTrue, IsSome};
ghost use Rattle.av_host.specs.Memory.{memory_world};

use crate::{Failed, Host, HostError, MemoryHost, write_all};
use std::alloc::Global;
use std::process::Abort;
use std::test::Fail;

/// A host in memory that holds these bytes as the input `in`.
fn host_with(rt: &impl Abort, alloc: Global, bytes: &[u8]) -> MemoryHost {
    let mut host = MemoryHost::new(alloc).ok().expect(rt, "a host");
    host.add(alloc, "in", bytes).ok().expect(rt, "an input");
    host
}

/// Whether the output of that name holds these bytes.
fn holds(host: &MemoryHost, name: &str, bytes: &[u8]) -> bool {
    match host.output(name) {
        Some(held) => held == bytes,
        None => false,
    }
}

/// One read. Whatever it returns, all open inputs stay open.
pub(crate) fn read_once<H: Host>(host: &mut H, id: u32, buf: &mut [u8]) -> Result<usize, Failed>
    requires { IsTrue ((H.world host.old).inputs.is_open id) }
    ensures open { IsTrue ((H.world host.new).inputs.is_open id) }
    ensures others { (H.world host.new).inputs.is_open ≡ (H.world host.old).inputs.is_open }
    ensures fits { IfOk result (λ n. n ≤ length buf.new) }
{
    match host.read(id, buf) {
        Ok(n) => Ok(n),
        Err(Failed) => Err(Failed),
    }
}

/// One write. Whatever it returns, the output keeps its name.
pub(crate) fn write_once<H: Host>(
    host: &mut H,
    id: u32,
    name: &str,
    piece: &[u8],
) -> Result<usize, HostError>
    requires { (H.world host.old).outputs.name id ≡ Some name.now }
    ensures { (H.world host.new).outputs.name id ≡ Some name.now }
{
    match host.write(id, piece) {
        Ok(n) => Ok(n),
        Err(e) => Err(e),
    }
}

/// One patch of bytes that were written. Whatever it returns, the output keeps its name.
fn patch_once(
    rt: &impl Abort,
    host: &mut MemoryHost,
    id: u32,
    name: &str,
    at: u64,
    piece: &[u8],
) -> Result<(), Failed>
    requires { (memory_world host.old).outputs.name id ≡ Some name.now }
    ensures { (memory_world host.new).outputs.name id ≡ Some name.now }
{
    let written = host.output(name).expect(rt, "an output").len() as u64;
    assert!(rt; at <= written && piece.len() as u64 <= written - at);
    match host.patch(id, at, piece) {
        Ok(()) => Ok(()),
        Err(Failed) => Err(Failed),
    }
}

/// The counts and the bytes of some reads.
#[derive(Drop)]
pub(crate) struct Pieces {
    pub(crate) counts: Vec<usize>,
    pub(crate) bytes: Vec<u8>,
}

/// Reads six times into a buffer of four bytes.
pub(crate) fn read_pieces<H: Host>(
    rt: &impl Abort,
    alloc: Global,
    host: &mut H,
    id: u32,
) -> Result<Pieces, Fail>
    requires { IsTrue ((H.world host.old).inputs.is_open id) }
{
    let mut counts = Vec::new(alloc);
    let mut bytes = Vec::new(alloc);
    for _ in 0..6 {
        let mut buf = [0u8; 4];
        let n = read_once(host, id, &mut buf).ok().expect(rt, "a read");
        counts.push(n)?;
        bytes.extend_from_slice(&buf[..n])?;
    }
    Ok(Pieces { counts, bytes })
}

#[test]
fn reads_give_at_most_the_bound_and_then_nothing(rt: HostRuntime) -> Result<(), Fail> {
    for (bound, counts) in [
        (1, [1, 1, 1, 1, 1, 0]),
        (2, [2, 2, 1, 0, 0, 0]),
        (7, [4, 1, 0, 0, 0, 0]),
    ] {
        assert!(rt; bound > 0);
        let mut host = host_with(&rt, rt.alloc(), b"replaced");
        host.add(rt.alloc(), "in", b"abcde")
            .ok()
            .expect(&rt, "an input");
        host.give_at_most(bound);
        let id = host.open_input("in").ok().expect(&rt, "an id");
        let pieces = read_pieces(&rt, rt.alloc(), &mut host, id)?;
        assert_eq!(rt; pieces.counts.as_slice(), counts.as_slice());
        assert_eq!(rt; pieces.bytes.as_slice(), b"abcde".as_slice());
    }
    Ok(())
}

#[test]
fn outputs_hold_what_was_written_and_patched(rt: HostRuntime) {
    let mut host = host_with(&rt, rt.alloc(), b"");
    assert!(rt; host.output("out").is_none());
    let id = host.create("out").ok().expect(&rt, "an id");
    assert!(rt; holds(&host, "out", b""));
    assert_eq!(rt; write_once(&mut host, id, "out", b"abc"), Ok(3));
    assert_eq!(rt; write_once(&mut host, id, "out", b"de"), Ok(2));
    assert_eq!(rt; patch_once(&rt, &mut host, id, "out", 1, b"XY"), Ok(()));
    assert_eq!(rt; write_once(&mut host, id, "out", b"f"), Ok(1));
    assert!(rt; holds(&host, "out", b"aXYdef"));
    assert!(rt; host.output("other").is_none());
    let again = host.create("out").ok().expect(&rt, "an id");
    assert!(rt; holds(&host, "out", b""));
    assert_eq!(rt; write_once(&mut host, again, "out", b"g"), Ok(1));
    assert!(rt; holds(&host, "out", b"g"));
}

#[test]
fn an_output_is_whole_however_few_bytes_each_write_takes(rt: HostRuntime) {
    for bound in [1, 2, 100] {
        assert!(rt; bound > 0);
        let mut host = host_with(&rt, rt.alloc(), b"");
        host.take_at_most(bound);
        let id = host.create("out").ok().expect(&rt, "an id");
        assert_eq!(rt; write_all(&mut host, id, b"abcde"), Ok(()));
        assert!(rt; holds(&host, "out", b"abcde"));
    }
}

#[test]
fn a_named_call_fails_and_the_next_goes_on_as_before(rt: HostRuntime) {
    let mut host = host_with(&rt, rt.alloc(), b"abc");
    for call in [0, 2, 4, 6, 9, 11] {
        host.fail_call(rt.alloc(), call).ok().expect(&rt, "a call");
    }
    assert_eq!(rt; host.open_input("in"), Err(HostError::Failed));
    let input = host.open_input("in").ok().expect(&rt, "an id");
    let mut buf = [0u8; 4];
    assert_eq!(rt; read_once(&mut host, input, &mut buf), Err(Failed));
    assert_eq!(rt; read_once(&mut host, input, &mut buf), Ok(3));
    assert_eq!(rt; buf, *b"abc\0");
    assert_eq!(rt; host.create("out"), Err(HostError::Failed));
    let output = host.create("out").ok().expect(&rt, "an id");
    assert_eq!(rt;
        write_once(&mut host, output, "out", b"de"),
        Err(HostError::Failed)
    );
    assert_eq!(rt; write_once(&mut host, output, "out", b"de"), Ok(2));
    assert_eq!(rt; patch_once(&rt, &mut host, output, "out", 0, b"X"), Ok(()));
    assert_eq!(rt;
        patch_once(&rt, &mut host, output, "out", 0, b"Y"),
        Err(Failed)
    );
    assert!(rt; holds(&host, "out", b"Xe"));
    assert_eq!(rt; host.say(b"hi"), Ok(2));
    assert_eq!(rt; host.say(b"ho"), Err(Failed));
    assert_eq!(rt; host.said().len(), 2);
}

#[test]
fn a_name_that_was_not_added_is_refused(rt: HostRuntime) {
    let mut host = host_with(&rt, rt.alloc(), b"");
    assert_eq!(rt; host.open_input("inn"), Err(HostError::Failed));
    assert!(rt; host.open_input("in").is_ok());
}

#[test]
fn saying_ends_at_65536_bytes(rt: HostRuntime) -> Result<(), Fail> {
    let mut host = host_with(&rt, rt.alloc(), b"");
    let most = vec![in rt.alloc(); b'x'; 65534]?;
    assert_eq!(rt; host.say(most.as_slice()), Ok(65534));
    assert_eq!(rt; host.say(b"yyyy"), Ok(2));
    assert_eq!(rt; host.say(b"y"), Err(Failed));
    assert_eq!(rt; host.say(b""), Ok(0));
    assert_eq!(rt; host.said().len(), 65536);
    Ok(())
}
