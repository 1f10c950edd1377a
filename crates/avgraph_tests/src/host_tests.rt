//! Commands over hosts that fail at a print, that have the output already, and over real files.

use crate::commands::{FILE, FLIPPED, host_with, run, with_text, words};
use av_host::RealHost;
use avgraph::{OpenGate, avgraph};
use std::fs;
use std::test::Fail;

#[test]
fn a_failed_print_leaves_the_status(rt: HostRuntime) -> Result<(), Fail> {
    // The words are refused, and the first call is the print.
    let refused = words(rt.alloc(), &["-foo"])?;
    let mut host = host_with(&rt, rt.alloc(), FILE);
    host.fail_call(rt.alloc(), 0).ok().expect(&rt, "a call");
    assert_eq!(rt; run(&rt, rt.alloc(), &refused, &mut host, ""), (2, true));
    assert_eq!(rt;
        run(
            &rt,
            rt.alloc(),
            &refused,
            &mut host,
            "avgraph: UnknownWord word=0\n"
        ),
        (2, true)
    );
    // A run whose report can't be printed is done. Its calls are an opening, 27 reads of the header, a creation, a write of the
    // header, 4 reads and 4 writes of the frame, a read at the end, and the print.
    let reported = words(
        rt.alloc(),
        &["-report", "-i", "a.y4m", "-lavfi", "hflip", "b.y4m"],
    )?;
    let mut host = host_with(&rt, rt.alloc(), FILE);
    host.fail_call(rt.alloc(), 39).ok().expect(&rt, "a call");
    let status = avgraph(&rt, rt.alloc(), &reported, &mut host, &OpenGate);
    assert_eq!(rt; status, 0);
    assert_eq!(rt; host.output("b.y4m"), Some(FLIPPED));
    assert_eq!(rt; host.said(), b"".as_slice());
    Ok(())
}

#[test]
fn an_output_that_is_there_stays_if_the_command_is_refused(rt: HostRuntime) -> Result<(), Fail> {
    let flip = with_text(rt.alloc(), "hflip")?;
    let mut host = host_with(&rt, rt.alloc(), FILE);
    assert_eq!(rt; run(&rt, rt.alloc(), &flip, &mut host, ""), (0, true));
    assert_eq!(rt; host.output("b.y4m"), Some(FLIPPED));
    for (text, line) in [
        ("hflip;hflip", "avgraph: OpenPad filter=1 pad=0\n"),
        (
            "crop=8",
            "avgraph: OpenPad filter=1 pad=0\navgraph: BadGeometry filter=0 found=8 allowed=4\n",
        ),
    ] {
        let words = with_text(rt.alloc(), text)?;
        let (status, said) = run(&rt, rt.alloc(), &words, &mut host, line);
        assert!(rt; said && status != 0);
        assert_eq!(rt; host.output("b.y4m"), Some(FLIPPED));
    }
    Ok(())
}

#[test]
fn a_real_file_is_flipped(rt: HostRuntime) -> Result<(), Fail> {
    fs::write(&rt, "a.y4m", FILE)?;
    let flip = with_text(rt.alloc(), "hflip")?;
    let mut host = RealHost::new(&rt, rt.alloc());
    assert_eq!(rt; avgraph(&rt, rt.alloc(), &flip, &mut host, &OpenGate), 0);
    assert_eq!(rt; fs::read(&rt, "b.y4m")?.as_slice(), FLIPPED);
    fs::remove_file(&rt, "a.y4m")?;
    fs::remove_file(&rt, "b.y4m")?;
    Ok(())
}
