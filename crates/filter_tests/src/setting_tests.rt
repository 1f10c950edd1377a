//! Settings that are rejected for pictures of a shape.
use crate::calls::{Answer, answer_to};
use crate::pictures::{Input, shape_of};
use av_base::PixelFormat::{Gray, Yuv420p, Yuv422p, Yuv444p, Yuva420p, Yuva422p};
use av_frame::ConfigError;
use std::alloc::Global;
use std::process::Abort;

/// Gray pictures of four columns and two rows.
const MONO: Input = (Gray, 4, 2);

/// Checks what the first call of a text is rejected for.
fn check_rejected(rt: &impl Abort, alloc: Global, text: &str, input: Input, error: ConfigError) {
    let found = answer_to(rt, alloc, text, shape_of(input));
    assert_eq!(rt; found, Answer::Settings(error), "by {text}");
}

#[test]
fn expressions_without_a_value_are_named_by_their_option(rt: HostRuntime) {
    for (text, input, option) in [
        ("crop=1/0", MONO, 0),
        ("crop=h=1/(ow-iw)", MONO, 1),
        ("crop=x=1/0", MONO, 2),
        ("crop=w=iw+2:y=1/(oh-ih)", MONO, 3),
        ("pad=1/(iw-4)", MONO, 0),
        ("pad=h=1/0", MONO, 1),
        ("pad=3:x=1/(oh-ih)", MONO, 2),
        ("pad=9000:y=1/0", MONO, 3),
        ("lutyuv=y=255/val", MONO, 0),
        ("lutyuv=u=1/(val-minval)", (Yuv420p, 4, 2), 1),
        ("lutyuv=v=1/(val-255)", (Yuv420p, 4, 2), 2),
        ("lutyuv=a=1/0", (Yuva420p, 4, 2), 3),
        ("lutyuv=v=1/0:u=1/val", (Yuv422p, 4, 2), 1),
        (
            "lutyuv=y=val*999999999999999999*999999999999999999*999999999999999999",
            MONO,
            0,
        ),
    ] {
        let error = ConfigError::NoValue { option };
        check_rejected(&rt, rt.alloc(), text, input, error);
    }
}

#[test]
fn parts_that_do_not_fit_are_rejected(rt: HostRuntime) {
    for (text, input, found, allowed) in [
        ("crop=iw+2", MONO, 6, 4),
        ("crop=0", MONO, 0, 4),
        ("crop=1/2", MONO, 0, 4),
        ("crop=-1/2", MONO, 0, 4),
        ("crop=-3/2", MONO, -2, 4),
        ("crop=h=ih*2", MONO, 4, 2),
        ("crop=h=7/2", MONO, 4, 2),
        ("crop=9:9", MONO, 9, 4),
        ("crop=1:2", (Yuv420p, 4, 2), 0, 4),
        ("crop=2:1", (Yuv420p, 4, 2), 0, 2),
        ("crop=1:1", (Yuva422p, 4, 2), 0, 4),
        ("crop=7:2", (Yuv420p, 4, 2), 6, 4),
        ("crop=7:2:exact=1", (Yuv420p, 4, 2), 7, 4),
        ("crop=h=-9223372036854775*10000", MONO, i64::MIN, 2),
        ("crop=922337203685477580*100", MONO, i64::MAX, 4),
    ] {
        let error = ConfigError::BadGeometry { found, allowed };
        check_rejected(&rt, rt.alloc(), text, input, error);
    }
}

#[test]
fn areas_that_are_too_small_are_rejected(rt: HostRuntime) {
    for (text, input, found, allowed) in [
        ("pad=3", MONO, 3, 4),
        ("pad=-4", MONO, -4, 4),
        ("pad=h=-1", MONO, -1, 2),
        ("pad=2:1", MONO, 2, 4),
        ("pad=5:1:2", MONO, 1, 2),
        ("pad=x=1", MONO, 5, 4),
        ("pad=y=3", MONO, 5, 2),
        ("pad=5:3:2:2", MONO, 6, 5),
        ("pad=5:3:1:2", MONO, 4, 3),
        ("pad=8193:x=9000", MONO, 9_004, 8_193),
        ("pad=5:2:3", (Yuv422p, 4, 2), 6, 5),
        ("pad=4:4:0:5", (Yuv420p, 4, 2), 6, 4),
        ("pad=-922337203685477580*100", MONO, i64::MIN, 4),
        ("pad=x=922337203685477580*100", MONO, i64::MAX, 4),
    ] {
        let error = ConfigError::BadGeometry { found, allowed };
        check_rejected(&rt, rt.alloc(), text, input, error);
    }
}

#[test]
fn planes_are_replaced_by_planes_of_their_size(rt: HostRuntime) {
    let absent = |found, allowed| ConfigError::BadGeometry { found, allowed };
    let other = |a, b| ConfigError::SizeMismatch { a, b };
    for (text, input, error) in [
        ("shuffleplanes=1", MONO, absent(1, 1)),
        ("shuffleplanes=0:1:3", (Yuv444p, 4, 2), absent(3, 3)),
        ("shuffleplanes=0:3:0", (Yuv420p, 3, 3), absent(3, 3)),
        ("shuffleplanes=1", (Yuv420p, 4, 2), other(0, 1)),
        ("shuffleplanes=1:3", (Yuv420p, 3, 3), other(0, 1)),
        ("shuffleplanes=0:0", (Yuv422p, 4, 2), other(1, 0)),
        ("shuffleplanes=0:1:3", (Yuva422p, 4, 2), other(2, 3)),
        ("shuffleplanes=map3=1", (Yuva420p, 4, 2), other(3, 1)),
        ("shuffleplanes=1", (Yuv422p, 2, 1), other(0, 1)),
    ] {
        check_rejected(&rt, rt.alloc(), text, input, error);
    }
}

#[test]
fn sides_past_a_limit_are_rejected(rt: HostRuntime) {
    for (text, input, found) in [
        ("null", (Gray, 8_193, 9_000), 8_193),
        ("null", (Yuv444p, 8_193, 2), 8_193),
        ("vflip", (Gray, 2, 8_193), 8_193),
        ("hflip", (Gray, 8_194, 1), 8_194),
        ("negate", (Gray, 8_194, 1), 8_194),
        ("format=gray", (Gray, 1, 8_194), 8_194),
        ("shuffleplanes", (Gray, 8_194, 1), 8_194),
        ("lutyuv", (Gray, 1, 8_194), 8_194),
        ("crop", (Gray, 8_193, 2), 8_193),
        ("crop=2:8195", (Gray, 2, 9_000), 8_195),
        ("pad=8193", MONO, 8_193),
        ("pad=h=10000", MONO, 10_000),
        ("pad=922337203685477580*100", MONO, u64::MAX),
        ("transpose", (Gray, 2, 8_200), 8_200),
        ("transpose", (Gray, 8_201, 2), 8_201),
        ("transpose=1:landscape", (Gray, 8_202, 2), 8_202),
    ] {
        let allowed = 8_192;
        let error = ConfigError::TooLarge { found, allowed };
        check_rejected(&rt, rt.alloc(), text, input, error);
    }
}

#[test]
fn pictures_of_too_many_bytes_are_rejected(rt: HostRuntime) {
    for (text, input, found) in [
        ("null", (Yuv444p, 8_192, 8_192), 3 << 26),
        ("transpose", (Yuv420p, 8_192, 8_191), 100_655_104),
        ("pad=8192:8192", (Yuv422p, 4, 2), 1 << 27),
        ("pad=8192:8192", (Yuva420p, 4, 2), 5 << 25),
        ("crop=8192:8192", (Yuv420p, 9_000, 9_000), 3 << 25),
    ] {
        let allowed = 1 << 26;
        let error = ConfigError::TooLarge { found, allowed };
        check_rejected(&rt, rt.alloc(), text, input, error);
    }
}
