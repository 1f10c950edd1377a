//! Command lines: their words, their links, and the report.

use crate::commands::{FILE, FLIPPED, KEPT, host_with, refusal, run, words};
use std::alloc::{AllocError, Global};
use std::test::Fail;

#[test]
fn words_are_refused_with_their_line_before_any_file_is_opened(
    rt: HostRuntime,
) -> Result<(), Fail> {
    for (line, status, said) in [
        ([].as_slice(), 2, "avgraph: NoGraph\n"),
        (["-"].as_slice(), 2, "avgraph: UnknownWord word=0\n"),
        (["-i", "a.y4m"].as_slice(), 2, "avgraph: NoGraph\n"),
        (["-lavfi", "null"].as_slice(), 2, "avgraph: NoOutput\n"),
        (
            ["-i", "a.y4m", "-lavfi", "null", "b.y4m", "-i"].as_slice(),
            2,
            "avgraph: MissingValue word=5\n",
        ),
        (
            ["-i", "a.y4m", "-lavfi", "null", "a.y4m"].as_slice(),
            2,
            "avgraph: SameName word=4\n",
        ),
        (
            ["-i", "a.mkv", "-lavfi", "null", "b.y4m", "-foo"].as_slice(),
            2,
            "avgraph: BadEnding word=1\n",
        ),
        (
            ["-workers", "65", "-i", "a.y4m", "-lavfi", "null", "b.y4m"].as_slice(),
            2,
            "avgraph: BadNumber word=1\n",
        ),
        // The words come before what can't run today, and that before the text.
        (
            [
                "-workers", "1", "-i", "a.y4m", "-lavfi", "]", "b.y4m", "-map",
            ]
            .as_slice(),
            2,
            "avgraph: MissingValue word=7\n",
        ),
        (
            ["-workers", "1", "-i", "a.y4m", "-lavfi", "]", "b.y4m"].as_slice(),
            15,
            "avgraph: NotYet\n",
        ),
        (
            ["-slices", "2", "-i", "a.y4m", "-lavfi", "null", "b.y4m"].as_slice(),
            15,
            "avgraph: NotYet\n",
        ),
        (
            ["-order", "0", "-i", "a.y4m", "-lavfi", "null", "b.y4m"].as_slice(),
            15,
            "avgraph: NotYet\n",
        ),
        (
            ["-g", "1:4:2:1", "-lavfi", "null", "b.y4m"].as_slice(),
            15,
            "avgraph: NotYet\n",
        ),
        (
            ["-i", "a.wav", "-lavfi", "null", "b.y4m"].as_slice(),
            15,
            "avgraph: NotYet\n",
        ),
        (
            ["-i", "a.y4m", "-lavfi", "null", "b.FRAMES"].as_slice(),
            15,
            "avgraph: NotYet\n",
        ),
    ] {
        let words = words(rt.alloc(), line)?;
        assert_eq!(rt; refusal(&rt, rt.alloc(), &words, said), (status, true));
    }
    Ok(())
}

#[test]
fn links_are_refused_with_their_line_before_any_file_is_opened(
    rt: HostRuntime,
) -> Result<(), Fail> {
    for (text, status, said) in [
        ("hflip;null", 5, "avgraph: OpenPad filter=1 pad=0\n"),
        ("[a]null", 5, "avgraph: UnknownInput filter=0\n"),
        ("[1:v]null", 5, "avgraph: UnknownInput filter=0\n"),
        ("[0:a]null", 5, "avgraph: MediaMismatch filter=0\n"),
        ("null[x]", 5, "avgraph: NoSuchOutput output=0\n"),
        ("[0]null;[0]null", 5, "avgraph: Unmapped filter=1 pad=0\n"),
        ("[0][0]null", 5, "avgraph: PadCount filter=0\n"),
        ("null,[a]null", 5, "avgraph: PadCount filter=1\n"),
        ("[0]null[a];[0]null[a]", 5, "avgraph: LabelTwice filter=1\n"),
        ("[a]null[b];[b]null[a]", 5, "avgraph: Cycle filter=0\n"),
        // The first kind of fault counts, wherever it is.
        ("[a]null;null[b][c]", 5, "avgraph: PadCount filter=1\n"),
        (
            "[x]null;[0]null[a];[0]null[a]",
            5,
            "avgraph: LabelTwice filter=2\n",
        ),
        ("[0:a]null;[x]null", 5, "avgraph: UnknownInput filter=1\n"),
        // A filter is rejected before the links are seen, and the links before what can't run today.
        ("[a]null,blur", 4, "avgraph: UnknownFilter filter=1\n"),
        ("[a]null,fps", 15, "avgraph: NotYet\n"),
        ("null,split", 15, "avgraph: NotYet\n"),
    ] {
        let words = words(rt.alloc(), &["-i", "a.y4m", "-lavfi", text, "b.y4m"])?;
        assert_eq!(rt;
            refusal(&rt, rt.alloc(), &words, said),
            (status, true),
            "{text}"
        );
    }
    Ok(())
}

#[test]
fn more_inputs_and_outputs_are_linked_before_they_are_refused(rt: HostRuntime) -> Result<(), Fail> {
    for (line, status, said) in [
        (
            ["-lavfi", "null", "b.y4m"].as_slice(),
            5,
            "avgraph: OpenPad filter=0 pad=0\n",
        ),
        (
            ["-i", "a.y4m", "-i", "a.y4m", "-lavfi", "null", "b.y4m"].as_slice(),
            15,
            "avgraph: NotYet\n",
        ),
        (
            ["-i", "a.y4m", "-lavfi", "[0]null;[0]null", "b.y4m", "c.y4m"].as_slice(),
            15,
            "avgraph: NotYet\n",
        ),
        (
            ["-i", "a.y4m", "-lavfi", "null", "b.y4m", "c.y4m"].as_slice(),
            5,
            "avgraph: NoSuchOutput output=1\n",
        ),
        (
            ["-i", "a.y4m", "-lavfi", "null[x]", "-map", "[y]", "b.y4m"].as_slice(),
            5,
            "avgraph: NoSuchOutput output=0\n",
        ),
    ] {
        let words = words(rt.alloc(), line)?;
        assert_eq!(rt; refusal(&rt, rt.alloc(), &words, said), (status, true));
    }
    Ok(())
}

#[test]
fn a_plan_is_a_path_wherever_its_filters_are_in_the_text(rt: HostRuntime) -> Result<(), Fail> {
    for (line, output) in [
        (
            [
                "-i",
                "a.y4m",
                "-lavfi",
                "[0:v:0]hflip[x];[x]hflip[y]",
                "-map",
                "[y]",
                "b.y4m",
            ]
            .as_slice(),
            KEPT,
        ),
        (
            [
                "-lavfi",
                "[x]null[y];[0]hflip[x]",
                "-i",
                "a.y4m",
                "-map",
                "[y]",
                "b.y4m",
            ]
            .as_slice(),
            FLIPPED,
        ),
        (
            [
                "b.y4m",
                "-y",
                "-lavfi",
                "null",
                "-filter_complex",
                "[c]null;[0:v]hflip,null[c]",
                "-i",
                "a.y4m",
            ]
            .as_slice(),
            FLIPPED,
        ),
        (
            [
                "-i",
                "a.y4m",
                "-lavfi",
                "null[a];[a]null[b];[b]hflip",
                "b.y4m",
            ]
            .as_slice(),
            FLIPPED,
        ),
    ] {
        let words = words(rt.alloc(), line)?;
        let mut host = host_with(&rt, rt.alloc(), FILE);
        assert_eq!(rt; run(&rt, rt.alloc(), &words, &mut host, ""), (0, true));
        assert_eq!(rt; host.output("b.y4m"), Some(output));
    }
    Ok(())
}

#[test]
fn filters_are_configured_in_the_order_of_the_plan(rt: HostRuntime) -> Result<(), Fail> {
    for (text, line) in [
        (
            "[x]crop=8[y];[0]crop=16[x]",
            "avgraph: BadGeometry filter=1 found=16 allowed=4\n",
        ),
        (
            "[x]crop=8[y];[0]null[x]",
            "avgraph: BadGeometry filter=0 found=8 allowed=4\n",
        ),
    ] {
        let words = words(
            rt.alloc(),
            &["-i", "a.y4m", "-lavfi", text, "-map", "[y]", "b.y4m"],
        )?;
        let mut host = host_with(&rt, rt.alloc(), FILE);
        assert_eq!(rt; run(&rt, rt.alloc(), &words, &mut host, line), (8, true));
        assert!(rt; host.output("b.y4m").is_none());
    }
    Ok(())
}

#[test]
fn a_report_tells_the_frames_and_the_bytes(rt: HostRuntime) -> Result<(), Fail> {
    let two = b"YUV4MPEG2 W1 H1 F25:1 C420\nFRAME\nabcFRAME\ndef".as_slice();
    for (text, file, said) in [
        ("null", FILE, "in 0 frames 1\nout 0 frames 1 bytes 57\n"),
        ("null", two, "in 0 frames 2\nout 0 frames 2 bytes 57\n"),
        ("pad=3:1", two, "in 0 frames 2\nout 0 frames 2 bytes 65\n"),
        (
            "null",
            &FILE[..27],
            "in 0 frames 0\nout 0 frames 0 bytes 39\n",
        ),
    ] {
        let words = words(
            rt.alloc(),
            &["-report", "-i", "a.y4m", "-lavfi", text, "b.y4m"],
        )?;
        let mut host = host_with(&rt, rt.alloc(), file);
        assert_eq!(rt;
            run(&rt, rt.alloc(), &words, &mut host, said),
            (0, true),
            "{text}"
        );
        let mut host = host_with(&rt, rt.alloc(), &FILE[..26]);
        assert_eq!(rt;
            run(
                &rt,
                rt.alloc(),
                &words,
                &mut host,
                "avgraph: BadHeader input=0\n"
            ),
            (6, true)
        );
    }
    Ok(())
}

/// The words of a command with so many inputs and outputs.
fn with_files(alloc: Global, inputs: usize, outputs: usize) -> Result<Vec<String>, AllocError> {
    let mut words = Vec::new(alloc);
    for _ in 0..inputs {
        words.push(String::from_str(alloc, "-i")?)?;
        words.push(String::from_str(alloc, "a.y4m")?)?;
    }
    words.push(String::from_str(alloc, "-lavfi")?)?;
    words.push(String::from_str(alloc, "null")?)?;
    for number in 0..outputs {
        words.push(format!(in alloc; "b{number}.y4m")?)?;
    }
    Ok(words)
}

#[test]
fn inputs_and_outputs_are_thirty_two_at_most(rt: HostRuntime) -> Result<(), Fail> {
    for (inputs, outputs, status, said) in [
        (32, 1, 15, "avgraph: NotYet\n"),
        (33, 1, 10, "avgraph: Limit kind=inputs which=0 allowed=32\n"),
        (1, 32, 5, "avgraph: NoSuchOutput output=1\n"),
        (
            1,
            33,
            10,
            "avgraph: Limit kind=outputs which=0 allowed=32\n",
        ),
        (
            33,
            33,
            10,
            "avgraph: Limit kind=inputs which=0 allowed=32\n",
        ),
        (33, 0, 2, "avgraph: NoOutput\n"),
    ] {
        let words = with_files(rt.alloc(), inputs, outputs)?;
        assert_eq!(rt;
            refusal(&rt, rt.alloc(), &words, said),
            (status, true),
            "{inputs} {outputs}"
        );
    }
    Ok(())
}
