//! The lines and the statuses of stops.

use crate::fault::{Fault, LimitKind, Stop};
use crate::lines::{line, status};
use crate::report::{input_line, output_line};
use av_text::TextKind;

#[test]
fn each_stop_has_its_line_and_its_status(rt: HostRuntime) {
    for (stop, code, text) in [
        (Stop::NoMemory, 14, "avgraph: NoMemory\n"),
        (Stop::Fault(Fault::NotYet), 15, "avgraph: NotYet\n"),
        (
            Stop::Fault(Fault::OpenFault),
            11,
            "avgraph: OpenFault count=1\n",
        ),
        (
            Stop::Fault(Fault::ReadFault),
            12,
            "avgraph: ReadFault count=1\n",
        ),
        (
            Stop::Fault(Fault::WriteFault),
            13,
            "avgraph: WriteFault count=1\n",
        ),
    ] {
        assert_eq!(rt; line(stop).as_str(), text);
        assert_eq!(rt; status(stop), code, "{text}");
    }
}

#[test]
fn a_fault_of_a_filter_shows_its_numbers(rt: HostRuntime) {
    for (fault, code, text) in [
        (
            Fault::MissingOption { filter: 255 },
            4,
            "avgraph: MissingOption filter=255\n",
        ),
        (
            Fault::TimeBaseRange { filter: 2 },
            8,
            "avgraph: TimeBaseRange filter=2\n",
        ),
        (
            Fault::SizeMismatch {
                filter: 4294967295,
                a: 18446744073709551615,
                b: 0,
            },
            8,
            "avgraph: SizeMismatch filter=4294967295 a=18446744073709551615 b=0\n",
        ),
        (
            Fault::BadGeometry {
                filter: 4294967295,
                found: -9223372036854775808,
                allowed: -1,
            },
            8,
            "avgraph: BadGeometry filter=4294967295 found=-9223372036854775808 allowed=-1\n",
        ),
    ] {
        let stop = Stop::Fault(fault);
        assert_eq!(rt; line(stop).as_str(), text);
        assert_eq!(rt; status(stop), code, "{text}");
    }
}

#[test]
fn a_fault_of_the_links_shows_its_filter_and_pad_or_its_output(rt: HostRuntime) {
    for (fault, text) in [
        (
            Fault::PadCount { filter: 1 },
            "avgraph: PadCount filter=1\n",
        ),
        (
            Fault::LabelTwice { filter: 2 },
            "avgraph: LabelTwice filter=2\n",
        ),
        (
            Fault::UnknownInput { filter: 0 },
            "avgraph: UnknownInput filter=0\n",
        ),
        (
            Fault::MediaMismatch { filter: 3 },
            "avgraph: MediaMismatch filter=3\n",
        ),
        (Fault::Cycle { filter: 0 }, "avgraph: Cycle filter=0\n"),
        (
            Fault::OpenPad { filter: 4, pad: 1 },
            "avgraph: OpenPad filter=4 pad=1\n",
        ),
        (
            Fault::Unmapped {
                filter: 4294967295,
                pad: 4294967295,
            },
            "avgraph: Unmapped filter=4294967295 pad=4294967295\n",
        ),
        (
            Fault::NoSuchOutput { output: 0 },
            "avgraph: NoSuchOutput output=0\n",
        ),
        (
            Fault::WrongKind { output: 31 },
            "avgraph: WrongKind output=31\n",
        ),
    ] {
        let stop = Stop::Fault(fault);
        assert_eq!(rt; line(stop).as_str(), text);
        assert_eq!(rt; status(stop), 5, "{text}");
    }
}

#[test]
fn a_fault_of_a_file_shows_its_numbers(rt: HostRuntime) {
    for (fault, code, text) in [
        (
            Fault::NotMedia { input: 0 },
            6,
            "avgraph: NotMedia input=0\n",
        ),
        (
            Fault::BadHeader { input: 31 },
            6,
            "avgraph: BadHeader input=31\n",
        ),
        (
            Fault::BadColour { input: 4294967295 },
            6,
            "avgraph: BadColour input=4294967295\n",
        ),
        (Fault::NoRate { output: 0 }, 8, "avgraph: NoRate output=0\n"),
        (
            Fault::BadFrame { input: 0, frame: 0 },
            9,
            "avgraph: BadFrame input=0 frame=0\n",
        ),
        (
            Fault::Truncated {
                input: 4294967295,
                place: 18446744073709551615,
            },
            9,
            "avgraph: Truncated input=4294967295 place=18446744073709551615\n",
        ),
        (
            Fault::Limit {
                kind: LimitKind::Bytes,
                which: 1,
                allowed: 1099511627776,
            },
            10,
            "avgraph: Limit kind=bytes which=1 allowed=1099511627776\n",
        ),
    ] {
        let stop = Stop::Fault(fault);
        assert_eq!(rt; line(stop).as_str(), text);
        assert_eq!(rt; status(stop), code, "{text}");
    }
}

#[test]
fn a_report_has_a_line_for_an_input_and_for_an_output(rt: HostRuntime) {
    assert_eq!(rt; input_line(0, 1).as_str(), "in 0 frames 1\n");
    assert_eq!(rt;
        input_line(4294967295, 18446744073709551615).as_str(),
        "in 4294967295 frames 18446744073709551615\n"
    );
    assert_eq!(rt; output_line(0, 1, 57).as_str(), "out 0 frames 1 bytes 57\n");
    assert_eq!(rt;
        output_line(4294967295, 18446744073709551615, 18446744073709551615).as_str(),
        "out 4294967295 frames 18446744073709551615 bytes 18446744073709551615\n"
    );
}

#[test]
fn a_fault_of_the_words_tells_its_word(rt: HostRuntime) {
    for (fault, text) in [
        (
            Fault::UnknownWord { word: 0 },
            "avgraph: UnknownWord word=0\n",
        ),
        (
            Fault::MissingValue { word: 3 },
            "avgraph: MissingValue word=3\n",
        ),
        (Fault::BadNumber { word: 1 }, "avgraph: BadNumber word=1\n"),
        (
            Fault::BadEnding { word: 10 },
            "avgraph: BadEnding word=10\n",
        ),
        (
            Fault::SameName {
                word: 18446744073709551615,
            },
            "avgraph: SameName word=18446744073709551615\n",
        ),
        (Fault::NoGraph, "avgraph: NoGraph\n"),
        (Fault::NoOutput, "avgraph: NoOutput\n"),
    ] {
        let stop = Stop::Fault(fault);
        assert_eq!(rt; line(stop).as_str(), text);
        assert_eq!(rt; status(stop), 2, "{text}");
    }
}

#[test]
fn a_fault_of_the_text_tells_its_byte_and_its_kind(rt: HostRuntime) {
    for (at, kind, text) in [
        (0, TextKind::Stray, "avgraph: TextFault at=0 kind=Stray\n"),
        (
            2,
            TextKind::UnclosedQuote,
            "avgraph: TextFault at=2 kind=UnclosedQuote\n",
        ),
        (
            10,
            TextKind::LoneEscape,
            "avgraph: TextFault at=10 kind=LoneEscape\n",
        ),
        (
            65536,
            TextKind::ExpectedName,
            "avgraph: TextFault at=65536 kind=ExpectedName\n",
        ),
        (
            4294967295,
            TextKind::BadLabel,
            "avgraph: TextFault at=4294967295 kind=BadLabel\n",
        ),
    ] {
        let stop = Stop::Fault(Fault::TextFault { at, kind });
        assert_eq!(rt; line(stop).as_str(), text);
        assert_eq!(rt; status(stop), 3, "{text}");
    }
}

#[test]
fn a_limit_tells_its_quantity_and_its_numbers(rt: HostRuntime) {
    for (kind, which, allowed, text) in [
        (
            LimitKind::Filters,
            0,
            256,
            "avgraph: Limit kind=filters which=0 allowed=256\n",
        ),
        (
            LimitKind::Text,
            0,
            65536,
            "avgraph: Limit kind=text which=0 allowed=65536\n",
        ),
        (
            LimitKind::Inputs,
            10,
            0,
            "avgraph: Limit kind=inputs which=10 allowed=0\n",
        ),
        (
            LimitKind::Outputs,
            0,
            32,
            "avgraph: Limit kind=outputs which=0 allowed=32\n",
        ),
        (
            LimitKind::Links,
            0,
            1024,
            "avgraph: Limit kind=links which=0 allowed=1024\n",
        ),
        (
            LimitKind::Filters,
            4294967295,
            18446744073709551615,
            "avgraph: Limit kind=filters which=4294967295 allowed=18446744073709551615\n",
        ),
    ] {
        let stop = Stop::Fault(Fault::Limit {
            kind,
            which,
            allowed,
        });
        assert_eq!(rt; line(stop).as_str(), text);
        assert_eq!(rt; status(stop), 10, "{text}");
    }
}
