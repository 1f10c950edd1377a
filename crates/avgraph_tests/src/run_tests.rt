//! Runs from files to files, by hand-made files.

use crate::commands::{FILE, FLIPPED, HEADER, WRITTEN_HEADER, host_with, run, with_text};
use av_host::MemoryHost;
use avgraph::{OpenGate, avgraph};
use std::test::Fail;

#[test]
fn a_file_is_flipped_however_it_is_read_and_written(rt: HostRuntime) -> Result<(), Fail> {
    let words = with_text(rt.alloc(), "hflip")?;
    for most in [1, 2, 7, 65536] {
        let mut host = host_with(&rt, rt.alloc(), FILE);
        host.give_at_most(most);
        host.take_at_most(most);
        assert_eq!(rt; avgraph(&rt, rt.alloc(), &words, &mut host, &OpenGate), 0);
        assert_eq!(rt; host.output("b.y4m"), Some(FLIPPED));
        assert_eq!(rt; host.said(), b"".as_slice());
    }
    Ok(())
}

#[test]
fn odd_sizes_keep_their_rows(rt: HostRuntime) -> Result<(), Fail> {
    let words = with_text(rt.alloc(), "hflip")?;
    for (input, output) in [
        (
            b"YUV4MPEG2 W3 H3 F30000:1001 C420\nFRAME\nabcdefghiklmnuvwx".as_slice(),
            b"YUV4MPEG2 W3 H3 F30000:1001 Ip A0:0 C420jpeg\nFRAME\ncbafedihglknmvuxw".as_slice(),
        ),
        (
            b"YUV4MPEG2 W1 H1 F50:2 C420\nFRAME\nabcFRAME\ndef".as_slice(),
            b"YUV4MPEG2 W1 H1 F25:1 Ip A0:0 C420jpeg\nFRAME\nabcFRAME\ndef".as_slice(),
        ),
    ] {
        let mut host = host_with(&rt, rt.alloc(), input);
        assert_eq!(rt; avgraph(&rt, rt.alloc(), &words, &mut host, &OpenGate), 0);
        assert_eq!(rt; host.output("b.y4m"), Some(output));
    }
    Ok(())
}

#[test]
fn a_file_that_is_cut_leaves_its_whole_frames(rt: HostRuntime) -> Result<(), Fail> {
    let words = with_text(rt.alloc(), "hflip")?;
    for most in [1, 7, 65536] {
        for cut in 0..=FILE.len() {
            let mut host = host_with(&rt, rt.alloc(), &FILE[..cut]);
            host.give_at_most(most);
            let (status, said, output) = match cut {
                0..9 => (6, "avgraph: NotMedia input=0\n", None),
                9..HEADER => (6, "avgraph: BadHeader input=0\n", None),
                HEADER => (0, "", Some(&FLIPPED[..WRITTEN_HEADER])),
                45 => (0, "", Some(FLIPPED)),
                _ => (
                    9,
                    "avgraph: Truncated input=0 place=0\n",
                    Some(&FLIPPED[..WRITTEN_HEADER]),
                ),
            };
            assert_eq!(rt;
                run(&rt, rt.alloc(), &words, &mut host, said),
                (status, true)
            );
            assert_eq!(rt; host.output("b.y4m"), output);
        }
    }
    Ok(())
}

#[test]
fn a_failed_call_ends_the_run_with_its_line(rt: HostRuntime) -> Result<(), Fail> {
    let words = with_text(rt.alloc(), "hflip")?;
    for (call, status, line, output) in [
        (0, 11, b"avgraph: OpenFault count=1\n".as_slice(), None),
        (1, 12, b"avgraph: ReadFault count=1\n".as_slice(), None),
        (2, 12, b"avgraph: ReadFault count=1\n".as_slice(), None),
        (28, 11, b"avgraph: OpenFault count=1\n".as_slice(), None),
        (
            29,
            13,
            b"avgraph: WriteFault count=1\n".as_slice(),
            Some(b"".as_slice()),
        ),
        (
            30,
            12,
            b"avgraph: ReadFault count=1\n".as_slice(),
            Some(&FLIPPED[..WRITTEN_HEADER]),
        ),
    ] {
        let mut host = host_with(&rt, rt.alloc(), FILE);
        host.fail_call(rt.alloc(), call).ok().expect(&rt, "a call");
        assert_eq!(rt;
            avgraph(&rt, rt.alloc(), &words, &mut host, &OpenGate),
            status
        );
        assert_eq!(rt; host.said(), line);
        assert_eq!(rt; host.output("b.y4m"), output);
    }
    Ok(())
}

#[test]
fn a_missing_input_is_not_opened(rt: HostRuntime) -> Result<(), Fail> {
    let words = with_text(rt.alloc(), "hflip")?;
    let mut host = MemoryHost::new(rt.alloc()).ok().expect(&rt, "a host");
    assert_eq!(rt; avgraph(&rt, rt.alloc(), &words, &mut host, &OpenGate), 11);
    assert_eq!(rt; host.said(), b"avgraph: OpenFault count=1\n".as_slice());
    assert!(rt; host.output("b.y4m").is_none());
    Ok(())
}
