//! Graph texts by the top call, over a host in memory.

use crate::commands::{FILE, FLIPPED, KEPT, host_with, refusal, run, with_text};
use avgraph::{OpenGate, avgraph};
use std::alloc::{AllocError, Global};
use std::test::Fail;

/// So many copies of a piece, and an end.
fn repeated(alloc: Global, piece: &str, count: usize, end: &str) -> Result<String, AllocError> {
    let mut text = String::new(alloc);
    for _ in 0..count {
        text.push_str(piece)?;
    }
    text.push_str(end)?;
    Ok(text)
}

#[test]
fn a_chain_of_filters_is_passed_in_turn(rt: HostRuntime) -> Result<(), Fail> {
    for (text, output) in [
        ("hflip", FLIPPED),
        ("null", KEPT),
        (" hflip , null,hflip@b ", KEPT),
        ("sws_flags=bilinear;\thflip@a,hflip\n,hflip", FLIPPED),
        ("null=", KEPT),
        ("vflip,vflip", KEPT),
    ] {
        let words = with_text(rt.alloc(), text)?;
        let mut host = host_with(&rt, rt.alloc(), FILE);
        assert_eq!(rt; avgraph(&rt, rt.alloc(), &words, &mut host, &OpenGate), 0);
        assert_eq!(rt; host.output("b.y4m"), Some(output));
        assert_eq!(rt; host.said(), b"".as_slice());
    }
    Ok(())
}

#[test]
fn a_text_is_refused_with_its_line_before_any_file_is_opened(rt: HostRuntime) -> Result<(), Fail> {
    for (text, line) in [
        ("a='b", "avgraph: TextFault at=2 kind=UnclosedQuote\n"),
        ("null,", "avgraph: TextFault at=5 kind=ExpectedName\n"),
        ("null]", "avgraph: TextFault at=4 kind=Stray\n"),
        ("[]null", "avgraph: TextFault at=0 kind=BadLabel\n"),
        (r"a=b\", "avgraph: TextFault at=3 kind=LoneEscape\n"),
        ("", "avgraph: TextFault at=0 kind=ExpectedName\n"),
    ] {
        let words = with_text(rt.alloc(), text)?;
        let refused = refusal(&rt, rt.alloc(), &words, line);
        assert_eq!(rt; refused, (3, true));
    }
    Ok(())
}

#[test]
fn filters_and_arguments_are_refused_before_any_file_is_opened(
    rt: HostRuntime,
) -> Result<(), Fail> {
    for (text, line) in [
        ("blur", "avgraph: UnknownFilter filter=0\n"),
        ("null,a='b\\:c'", "avgraph: UnknownFilter filter=1\n"),
        ("hflip=z=1", "avgraph: UnknownOption filter=0 option=0\n"),
        ("hflip=1", "avgraph: TooManyValues filter=0 option=0\n"),
        (
            "crop=1:1:0:0:0:0:7",
            "avgraph: TooManyValues filter=0 option=6\n",
        ),
        ("lutyuv=y=(1", "avgraph: BadValue filter=0 option=0\n"),
        (
            "null,vflip,transpose=1:5",
            "avgraph: BadValue filter=2 option=1\n",
        ),
        ("format", "avgraph: MissingOption filter=0\n"),
        // A filter is rejected before the labels of an earlier one are seen.
        ("[a]null,blur", "avgraph: UnknownFilter filter=1\n"),
    ] {
        let words = with_text(rt.alloc(), text)?;
        let refused = refusal(&rt, rt.alloc(), &words, line);
        assert_eq!(rt; refused, (4, true), "{text}");
    }
    Ok(())
}

#[test]
fn filters_that_cannot_be_made_ready_are_refused_before_the_output_is_created(
    rt: HostRuntime,
) -> Result<(), Fail> {
    for (text, status, line) in [
        (
            "crop=iw+2",
            8,
            "avgraph: BadGeometry filter=0 found=6 allowed=4\n",
        ),
        (
            "null,crop=2:2,crop=4",
            8,
            "avgraph: BadGeometry filter=2 found=4 allowed=2\n",
        ),
        (
            "lutyuv=y=255/val",
            8,
            "avgraph: NoValue filter=0 option=0\n",
        ),
        (
            "pad=8193:2",
            8,
            "avgraph: TooLarge filter=0 found=8193 allowed=8192\n",
        ),
        ("format=gray", 7, "avgraph: NoCommonFormat link=0\n"),
        // That no format suits all comes before the fault of a filter's settings.
        (
            "crop=iw+2,format=gray",
            7,
            "avgraph: NoCommonFormat link=0\n",
        ),
    ] {
        let words = with_text(rt.alloc(), text)?;
        let mut host = host_with(&rt, rt.alloc(), FILE);
        let got = avgraph(&rt, rt.alloc(), &words, &mut host, &OpenGate);
        assert_eq!(rt; got, status, "{text}");
        assert_eq!(rt; host.said(), line.as_bytes());
        assert_eq!(rt; host.output("b.y4m"), None);
    }
    Ok(())
}

#[test]
fn pictures_come_out_of_the_filters_as_they_say(rt: HostRuntime) -> Result<(), Fail> {
    for (text, output) in [
        (
            "lutyuv=y='255-val'",
            b"YUV4MPEG2 W4 H2 F25:1 Ip A0:0 C420jpeg\nFRAME\n\xfe\xfd\xfc\xfb\xfa\xf9\xf8\xf7\x09\x0a\x0b\x0c".as_slice(),
        ),
        (
            "pad=6:2:2:0",
            b"YUV4MPEG2 W6 H2 F25:1 Ip A0:0 C420jpeg\nFRAME\n\x10\x10\x01\x02\x03\x04\x10\x10\x05\x06\x07\x08\x80\x09\x0a\x80\x0b\x0c".as_slice(),
        ),
        (
            "transpose=1",
            b"YUV4MPEG2 W2 H4 F25:1 Ip A0:0 C420jpeg\nFRAME\n\x05\x01\x06\x02\x07\x03\x08\x04\x09\x0a\x0b\x0c".as_slice(),
        ),
        (
            "crop=2:2:2:0, negate",
            b"YUV4MPEG2 W2 H2 F25:1 Ip A0:0 C420jpeg\nFRAME\n\xfc\xfb\xf8\xf7\xf5\xf3".as_slice(),
        ),
        (
            "vflip,shuffleplanes=0:2:1,format=gray|yuv420p",
            b"YUV4MPEG2 W4 H2 F25:1 Ip A0:0 C420jpeg\nFRAME\n\x05\x06\x07\x08\x01\x02\x03\x04\x0b\x0c\x09\x0a".as_slice(),
        ),
    ] {
        let words = with_text(rt.alloc(), text)?;
        let mut host = host_with(&rt, rt.alloc(), FILE);
        assert_eq!(rt; avgraph(&rt, rt.alloc(), &words, &mut host, &OpenGate), 0);
        assert_eq!(rt; host.output("b.y4m"), Some(output), "{text}");
        assert_eq!(rt; host.said(), b"".as_slice());
    }
    Ok(())
}

/// The lines of the two limits.
const TOO_MANY: &str = "avgraph: Limit kind=filters which=0 allowed=256\n";

const TOO_LONG: &str = "avgraph: Limit kind=text which=0 allowed=65536\n";

#[test]
fn a_text_passes_its_limits_by_one(rt: HostRuntime) -> Result<(), Fail> {
    for (piece, count, end, status, line) in [
        ("null,", 255, "null", 0, ""),
        ("null,", 256, "null", 10, TOO_MANY),
        (" ", 65_532, "null", 0, ""),
        (" ", 65_533, "null", 10, TOO_LONG),
        // The fault of a text comes before the limit of filters, and the limit of bytes before the fault.
        (
            "null,",
            256,
            "null]",
            3,
            "avgraph: TextFault at=1284 kind=Stray\n",
        ),
        ("]", 65_537, "", 10, TOO_LONG),
    ] {
        let text = repeated(rt.alloc(), piece, count, end)?;
        let words = with_text(rt.alloc(), text.as_str())?;
        let mut host = host_with(&rt, rt.alloc(), FILE);
        assert_eq!(rt;
            avgraph(&rt, rt.alloc(), &words, &mut host, &OpenGate),
            status
        );
        assert_eq!(rt; host.said(), line.as_bytes());
        assert_eq!(rt; host.output("b.y4m").is_some(), status == 0);
    }
    Ok(())
}
