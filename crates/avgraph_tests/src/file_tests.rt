//! Files of all forms, and the formats of links.

use crate::commands::{FILE, GRAY, KEPT, host_with, run, with_text};
use av_frame::HeadError;
use av_host::Host;
use avgraph::reader::Reader;
use std::alloc::Global;
use std::test::Fail;

/// The header that is written of gray pictures of 4x2 samples.
const GRAY_HEADER: &[u8] = b"YUV4MPEG2 W4 H2 F25:1 Ip A0:0 Cmono\n";

#[test]
fn gray_pictures_pass_the_filters(rt: HostRuntime) -> Result<(), Fail> {
    for (text, input, output) in [
        (
            "hflip",
            GRAY,
            b"YUV4MPEG2 W4 H2 F25:1 Ip A0:0 Cmono\nFRAME\n\x04\x03\x02\x01\x08\x07\x06\x05".as_slice(),
        ),
        ("hflip", &GRAY[..28], GRAY_HEADER),
        (
            "lutyuv=y='255-val'",
            GRAY,
            b"YUV4MPEG2 W4 H2 F25:1 Ip A0:0 Cmono\nFRAME\n\xfe\xfd\xfc\xfb\xfa\xf9\xf8\xf7".as_slice(),
        ),
        (
            "lutyuv=y=255\\-val",
            GRAY,
            b"YUV4MPEG2 W4 H2 F25:1 Ip A0:0 Cmono\nFRAME\n\xfe\xfd\xfc\xfb\xfa\xf9\xf8\xf7".as_slice(),
        ),
        ("format=yuv420p|gray,null", FILE, KEPT),
    ] {
        let words = with_text(rt.alloc(), text)?;
        let mut host = host_with(&rt, rt.alloc(), input);
        assert_eq!(rt;
            run(&rt, rt.alloc(), &words, &mut host, ""),
            (0, true),
            "{text}"
        );
        assert_eq!(rt; host.output("b.y4m"), Some(output), "{text}");
    }
    Ok(())
}

/// Headers with one frame of samples, and what `null` writes of them.
const FORMS: [(&[u8], &[u8]); 8] = [
    (
        b"YUV4MPEG2 W2 H2 F25:1 Ip A1:1 C420jpeg XYSCSS=420JPEG\nFRAME\nabcdef",
        b"YUV4MPEG2 W2 H2 F25:1 Ip A1:1 C420jpeg\nFRAME\nabcdef",
    ),
    (
        b"YUV4MPEG2 W2 H2 F30000:1001 It A20:30 C420mpeg2\nFRAME Ip\nabcdef",
        b"YUV4MPEG2 W2 H2 F30000:1001 It A2:3 C420jpeg\nFRAME\nabcdef",
    ),
    (
        b"YUV4MPEG2 W2 H2 F0:0 Im A0:1 C420paldv\nFRAME\nabcdef",
        b"YUV4MPEG2 W2 H2 F25:1 Im A0:0 C420jpeg\nFRAME\nabcdef",
    ),
    (
        b"YUV4MPEG2 W9 H2  W02 I?\nFRAME\nabcdef",
        b"YUV4MPEG2 W2 H2 F25:1 I? A0:0 C420jpeg\nFRAME\nabcdef",
    ),
    (
        b"YUV4MPEG2 H2 W2 C422 F50:2\nFRAME\nabcdefgh",
        b"YUV4MPEG2 W2 H2 F25:1 Ip A0:0 C422\nFRAME\nabcdefgh",
    ),
    (
        b"YUV4MPEG2 W1 H2 C444\nFRAME\nabcdef",
        b"YUV4MPEG2 W1 H2 F25:1 Ip A0:0 C444\nFRAME\nabcdef",
    ),
    (
        b"YUV4MPEG2 W1 H1 C444alpha Ib\nFRAME\nabcdFRAME Xa b\nefgh",
        b"YUV4MPEG2 W1 H1 F25:1 Ib A0:0 C444alpha\nFRAME\nabcdFRAME\nefgh",
    ),
    (b"YUV4MPEG2 W1 H1 Cxyz Cmono Cmono\n", b""),
];

#[test]
fn headers_of_all_forms_are_read(rt: HostRuntime) -> Result<(), Fail> {
    let words = with_text(rt.alloc(), "null")?;
    for (input, output) in FORMS {
        let mut host = host_with(&rt, rt.alloc(), input);
        if output.is_empty() {
            let said = "avgraph: BadColour input=0\n";
            assert_eq!(rt; run(&rt, rt.alloc(), &words, &mut host, said), (6, true));
            assert!(rt; host.output("b.y4m").is_none());
        } else {
            assert_eq!(rt; run(&rt, rt.alloc(), &words, &mut host, ""), (0, true));
            assert_eq!(rt; host.output("b.y4m"), Some(output));
        }
    }
    Ok(())
}

/// Graph texts and files, with their status and line.
const REFUSALS: [(&str, &[u8], u8, &str); 8] = [
    ("null", b"RIFF", 6, "avgraph: NotMedia input=0\n"),
    (
        "null",
        b"YUV4MPEG2 W0 H2\n",
        6,
        "avgraph: BadHeader input=0\n",
    ),
    (
        "null",
        b"YUV4MPEG2 W4 H2 F25:1 Cxyz\nFRAME\n\x01\x02\x03\x04\x05\x06\x07\x08",
        6,
        "avgraph: BadColour input=0\n",
    ),
    ("format=gray", FILE, 7, "avgraph: NoCommonFormat link=0\n"),
    (
        "null,format=yuva420p",
        FILE,
        7,
        "avgraph: NoCommonFormat link=0\n",
    ),
    // The formats come before the sizes.
    (
        "crop=9,format=gray",
        FILE,
        7,
        "avgraph: NoCommonFormat link=0\n",
    ),
    (
        "crop=iw+2",
        GRAY,
        8,
        "avgraph: BadGeometry filter=0 found=6 allowed=4\n",
    ),
    (
        "lutyuv=y=255/val",
        GRAY,
        8,
        "avgraph: NoValue filter=0 option=0\n",
    ),
];

#[test]
fn files_are_refused_with_their_line_before_the_output_is_created(
    rt: HostRuntime,
) -> Result<(), Fail> {
    for (text, input, status, said) in REFUSALS {
        let words = with_text(rt.alloc(), text)?;
        let mut host = host_with(&rt, rt.alloc(), input);
        assert_eq!(rt;
            run(&rt, rt.alloc(), &words, &mut host, said),
            (status, true),
            "{said}"
        );
        assert!(rt; host.output("b.y4m").is_none());
    }
    Ok(())
}

#[test]
fn damage_leaves_the_frames_before_it(rt: HostRuntime) -> Result<(), Fail> {
    let words = with_text(rt.alloc(), "null")?;
    for (input, said, output) in [
        (
            b"YUV4MPEG2 W1 H1 F25:1 Cmono\nFRAME\n\x00FRAME\n\x01FRAME\n\x02FRAME\n".as_slice(),
            "avgraph: Truncated input=0 place=3\n",
            b"YUV4MPEG2 W1 H1 F25:1 Ip A0:0 Cmono\nFRAME\n\x00FRAME\n\x01FRAME\n\x02".as_slice(),
        ),
        (
            b"YUV4MPEG2 W4 H2 F25:1 Cmono\nFRAMX\n\x01\x02\x03\x04\x05\x06\x07\x08".as_slice(),
            "avgraph: BadFrame input=0 frame=0\n",
            GRAY_HEADER,
        ),
        (
            b"YUV4MPEG2 W1 H1 Cmono\nFRAME\n0YUV4MPEG2 W1".as_slice(),
            "avgraph: BadFrame input=0 frame=1\n",
            b"YUV4MPEG2 W1 H1 F25:1 Ip A0:0 Cmono\nFRAME\n0".as_slice(),
        ),
    ] {
        let mut host = host_with(&rt, rt.alloc(), input);
        assert_eq!(rt;
            run(&rt, rt.alloc(), &words, &mut host, said),
            (9, true),
            "{said}"
        );
        assert_eq!(rt; host.output("b.y4m"), Some(output), "{said}");
    }
    Ok(())
}

/// The fault of the header of `a.y4m`, of which at most `limit` bytes are read.
fn head_error<H: Host>(alloc: Global, host: &mut H, limit: u64) -> Option<HeadError> {
    let Ok(id) = host.open_input("a.y4m") else {
        return None;
    };
    let Ok(mut reader) = Reader::new(alloc, id, limit) else {
        return None;
    };
    reader.header(alloc, host).err()
}

#[test]
fn a_header_past_the_limit_is_too_long(rt: HostRuntime) {
    for (limit, error) in [(20, Some(HeadError::TooLong)), (28, None)] {
        let mut host = host_with(&rt, rt.alloc(), GRAY);
        assert_eq!(rt; head_error(rt.alloc(), &mut host, limit), error);
    }
}
