//! Formats that filters take, and the shapes of what they give.
ghost use Rattle.av_base.specs.Shapes.{IsPictureShape};

use crate::calls::{Answer, answer_to, read};
use crate::pictures::{Input, shape_of, shape_with};
use av_base::PixelFormat::{Gray, Yuv420p, Yuv422p, Yuv444p, Yuva420p, Yuva422p, Yuva444p};
use av_base::{Format, PixelFormat, Ratio, SampleFormat, Shape};
use std::alloc::Global;
use std::process::Abort;

/// All formats of pictures.
const PIXELS: [PixelFormat; 7] = [
    Gray, Yuv420p, Yuv422p, Yuv444p, Yuva420p, Yuva422p, Yuva444p,
];

/// The formats of pictures that the filter of a text takes: bit i stands for format i.
fn taken(rt: &impl Abort, alloc: Global, text: &str) -> u32 {
    let kind = read(rt, alloc, text).ok().expect(rt, "a filter");
    let mut bits = 0;
    for place in 0..7 {
        if kind.takes(Format::Video(PIXELS[place])) {
            bits |= 1 << place;
        }
    }
    bits
}

#[test]
fn filters_take_the_formats_that_they_can_work_on(rt: HostRuntime) {
    for (text, bits) in [
        ("crop", 0b111_1111),
        ("hflip", 0b111_1111),
        ("lutyuv", 0b111_1111),
        ("negate", 0b111_1111),
        ("null", 0b111_1111),
        ("pad", 0b111_1111),
        ("shuffleplanes", 0b111_1111),
        ("vflip", 0b111_1111),
        ("transpose", 0b101_1011),
        ("transpose=passthrough=portrait", 0b101_1011),
        ("format=gray", 0b000_0001),
        ("format=yuv420p", 0b000_0010),
        ("format=yuv422p", 0b000_0100),
        ("format=yuv444p", 0b000_1000),
        ("format=yuva420p", 0b001_0000),
        ("format=yuva422p", 0b010_0000),
        ("format=yuva444p", 0b100_0000),
        ("format=gray|yuv444p|gray", 0b000_1001),
        ("format=pix_fmts=yuva444p|yuv420p", 0b100_0010),
        ("format=gray:pix_fmts=yuv422p|yuva422p", 0b010_0100),
    ] {
        assert_eq!(rt; taken(&rt, rt.alloc(), text), bits, "by {text}");
    }
}

#[test]
fn format_takes_no_sound(rt: HostRuntime) {
    let kind = read(&rt, rt.alloc(), "format=gray|yuva444p")
        .ok()
        .expect(&rt, "a filter");
    assert!(rt; !kind.takes(Format::Audio(SampleFormat::U8)));
}

#[test]
fn pictures_of_other_formats_are_not_taken(rt: HostRuntime) {
    for (text, pixels) in [
        ("format=gray", Yuv420p),
        ("format=yuv420p|yuva444p", Yuv444p),
        ("transpose", Yuv422p),
        ("transpose=passthrough=landscape", Yuva422p),
    ] {
        let found = answer_to(&rt, rt.alloc(), text, shape_of((pixels, 4, 2)));
        assert_eq!(rt; found, Answer::Format, "by {text}");
    }
}

/// The shape that a filter gives.
fn given(rt: &impl Abort, alloc: Global, text: &str, shape: Shape) -> Shape
    requires { IsPictureShape shape }
{
    match answer_to(rt, alloc, text, shape) {
        Answer::Gives(given) => given,
        other => {
            assert!(rt; false, "{other:?} by {text}");
            shape
        }
    }
}

#[test]
fn outputs_have_the_sizes_that_options_ask_for(rt: HostRuntime) {
    for (text, input, width, height) in [
        ("hflip", (Yuv420p, 6, 4), 6, 4),
        ("null", (Yuv444p, 8_192, 2), 8_192, 2),
        ("null", (Gray, 8_192, 8_192), 8_192, 8_192),
        ("negate", (Yuva422p, 1, 1), 1, 1),
        ("lutyuv=u=128", (Yuv420p, 5, 3), 5, 3),
        ("lutyuv=u=255/val", (Gray, 4, 2), 4, 2),
        ("lutyuv=a=1/0", (Yuv420p, 4, 2), 4, 2),
        ("format=yuv420p", (Yuv420p, 3, 3), 3, 3),
        ("shuffleplanes=0:2:1:3", (Yuv420p, 3, 3), 3, 3),
        ("crop=3:3", (Yuv420p, 6, 4), 2, 2),
        ("crop=3:3:exact=1", (Yuv420p, 6, 4), 3, 3),
        ("crop=3:3", (Yuv422p, 6, 4), 2, 3),
        ("crop=3:3:keep_aspect=0", (Yuva444p, 6, 4), 3, 3),
        ("crop=100:2", (Gray, 9_000, 2), 100, 2),
        ("pad=iw+2:2*ih:2", (Yuv420p, 6, 4), 8, 8),
        ("pad=7:5", (Yuv420p, 6, 4), 7, 5),
        ("pad=0:0", (Yuva420p, 3, 5), 3, 5),
        ("pad=8192:8192", (Gray, 4, 2), 8_192, 8_192),
    ] {
        let found = given(&rt, rt.alloc(), text, shape_of(input));
        let (pixels, ..) = input;
        assert_eq!(rt; found, shape_of((pixels, width, height)), "by {text}");
    }
}

/// Checks the shape of pictures that are transposed, or pass where they are not turned, for a known aspect and an unknown
/// one.
fn check_transposed(rt: &impl Abort, alloc: Global, text: &str, input: Input, turned: bool) {
    let (pixels, width, height) = input;
    let unknown = Ratio { num: 0, den: 1 };
    let shown = if turned {
        (pixels, height, width)
    } else {
        input
    };
    let found = given(rt, alloc, text, shape_with(input, unknown));
    assert_eq!(rt; found, shape_with(shown, unknown), "by {text}");
    let found = given(rt, alloc, text, shape_of(input));
    if turned {
        let aspect = Ratio { num: 3, den: 4 };
        assert_eq!(rt; found, shape_with(shown, aspect), "by {text}");
    } else {
        assert_eq!(rt; found, shape_of(shown), "by {text}");
    }
}

#[test]
fn transposed_pictures_have_the_other_sizes_and_aspect(rt: HostRuntime) {
    for (text, width, height, turned) in [
        ("transpose", 6, 4, true),
        ("transpose=1", 4, 6, true),
        ("transpose=cclock", 5, 5, true),
        ("transpose=3:none", 6, 4, true),
        ("transpose=passthrough=none", 4, 6, true),
        ("transpose=passthrough=landscape", 6, 4, false),
        ("transpose=1:landscape", 5, 5, false),
        ("transpose=2:landscape", 4, 6, true),
        ("transpose=passthrough=portrait", 4, 6, false),
        ("transpose=clock:portrait", 5, 5, false),
        ("transpose=dir=3:passthrough=portrait", 6, 4, true),
    ] {
        for pixels in [Gray, Yuv420p, Yuva444p] {
            check_transposed(&rt, rt.alloc(), text, (pixels, width, height), turned);
        }
    }
}
