//! Calls of the host over real files, on small files that each test makes and removes.
ghost use Rattle.std.specs.Prelude.{◌≡◌, Some, IsTrue};

use crate::tests::{read_once, read_pieces, write_once};
use crate::{Failed, Host, HostError, RealHost};
use std::fs;
use std::os::unix::fs::symlink;
use std::process::Abort;
use std::rt::Files;
use std::test::Fail;

/// Opens two inputs, and returns their ids.
fn open_two<H: Host>(rt: &impl Abort, host: &mut H, one: &str, two: &str) -> (u32, u32)
    ensures one { IsTrue ((H.world host.new).inputs.is_open result.0) }
    ensures two { IsTrue ((H.world host.new).inputs.is_open result.1) }
{
    let first = host.open_input(one).ok().expect(rt, "an id");
    let second = host.open_input(two).ok().expect(rt, "an id");
    (first, second)
}

/// One read of the first of two inputs. Whatever it returns, both stay open.
fn read_turn<H: Host>(host: &mut H, id: u32, other: u32, buf: &mut [u8]) -> Result<usize, Failed>
    requires open { IsTrue ((H.world host.old).inputs.is_open id) }
    requires other { IsTrue ((H.world host.old).inputs.is_open other) }
    ensures open { IsTrue ((H.world host.new).inputs.is_open id) }
    ensures other { IsTrue ((H.world host.new).inputs.is_open other) }
{
    read_once(host, id, buf)
}

/// One patch. Whatever it returns, the output keeps its name.
fn patch_once<R: Files + Print>(
    host: &mut RealHost<R>,
    id: u32,
    name: &str,
    at: u64,
    piece: &[u8],
) -> Result<(), Failed>
    requires { (⟦<RealHost<R> as Host>⟧.world host.old).outputs.name id ≡ Some name.now }
    ensures { (⟦<RealHost<R> as Host>⟧.world host.new).outputs.name id ≡ Some name.now }
{
    match host.patch(id, at, piece) {
        Ok(()) => Ok(()),
        Err(Failed) => Err(Failed),
    }
}

#[test]
fn a_file_is_written_and_read_back(rt: HostRuntime) -> Result<(), Fail> {
    let mut host = RealHost::new(&rt, rt.alloc());
    assert_eq!(rt; host.open_input("file"), Err(HostError::Failed));
    assert_eq!(rt; host.create("none/file"), Err(HostError::Failed));
    let output = host.create("file").ok().expect(&rt, "an id");
    assert_eq!(rt; write_once(&mut host, output, "file", b"abc"), Ok(3));
    let input = host.open_input("file").ok().expect(&rt, "an id");
    let pieces = read_pieces(&rt, rt.alloc(), &mut host, input)?;
    assert_eq!(rt; pieces.counts.as_slice(), [3, 0, 0, 0, 0, 0].as_slice());
    assert_eq!(rt; pieces.bytes.as_slice(), b"abc".as_slice());
    assert_eq!(rt; host.say(b"said\n"), Ok(5));
    fs::remove_file(&rt, "file")?;
    Ok(())
}

#[test]
fn a_write_after_a_patch_goes_to_the_end(rt: HostRuntime) -> Result<(), Fail> {
    let mut host = RealHost::new(&rt, rt.alloc());
    let id = host.create("file").ok().expect(&rt, "an id");
    assert_eq!(rt; write_once(&mut host, id, "file", b"abcde"), Ok(5));
    assert_eq!(rt; patch_once(&mut host, id, "file", 1, b"XY"), Ok(()));
    assert_eq!(rt; write_once(&mut host, id, "file", b"fg"), Ok(2));
    assert_eq!(rt; fs::read_to_string(&rt, "file")?.as_str(), "aXYdefg");
    fs::remove_file(&rt, "file")?;
    Ok(())
}

#[test]
fn two_inputs_are_read_in_turns(rt: HostRuntime) -> Result<(), Fail> {
    fs::write(&rt, "one", "abcdef")?;
    fs::write(&rt, "two", "uvwxy")?;
    let mut host = RealHost::new(&rt, rt.alloc());
    let (one, two) = open_two(&rt, &mut host, "one", "two");
    let mut buf = [0u8; 4];
    assert_eq!(rt; read_turn(&mut host, one, two, &mut buf), Ok(4));
    assert_eq!(rt; buf, *b"abcd");
    assert_eq!(rt; read_turn(&mut host, two, one, &mut buf), Ok(4));
    assert_eq!(rt; buf, *b"uvwx");
    assert_eq!(rt; read_turn(&mut host, one, two, &mut buf), Ok(2));
    assert_eq!(rt; buf, *b"efwx");
    assert_eq!(rt; read_turn(&mut host, two, one, &mut buf), Ok(1));
    assert_eq!(rt; buf, *b"yfwx");
    fs::remove_file(&rt, "one")?;
    fs::remove_file(&rt, "two")?;
    Ok(())
}

#[test]
fn an_output_that_is_an_open_input_is_refused(rt: HostRuntime) -> Result<(), Fail> {
    fs::write(&rt, "file", "abc")?;
    fs::write(&rt, "other", "old")?;
    fs::hard_link(&rt, "file", "hard")?;
    symlink(&rt, "file", "soft")?;
    let mut host = RealHost::new(&rt, rt.alloc());
    host.open_input("file").ok().expect(&rt, "an id");
    for name in ["file", "./file", "soft", "hard"] {
        assert_eq!(rt; host.create(name), Err(HostError::Failed));
        assert_eq!(rt; fs::read_to_string(&rt, "file")?.as_str(), "abc");
    }
    assert!(rt; host.create("other").is_ok());
    assert_eq!(rt; fs::read_to_string(&rt, "other")?.as_str(), "");
    for name in ["file", "other", "soft", "hard"] {
        fs::remove_file(&rt, name)?;
    }
    Ok(())
}
