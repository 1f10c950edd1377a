//! Files that are read and written again, over a host in memory.
ghost use Rattle.std.specs.Prelude.{◌≡◌, IsTrue, IsSome};
ghost use Rattle.y4m_header.specs.HeaderTexts.{IsWritable};
ghost use Rattle.y4m_io.specs.declared.y4m_state.Stage.{Stage};
ghost use Rattle.y4m_io.specs.declared.y4m_state.Progress.{Progress};

use crate::reader::Reader;
use crate::writer::Writer;
use Refused::{Head, Next, Write};
use av_base::Shape;
use av_frame::{HeadError, NextError, Pools, WriteError};
use av_host::{Host, MemoryHost};
use std::alloc::Global;
use std::process::Abort;
use std::test::Fail;

/// A picture of 4x2 samples.
const FILE: &[u8] =
    b"YUV4MPEG2 W4 H2 F25:1 C420\nFRAME\n\x01\x02\x03\x04\x05\x06\x07\x08\x09\x0a\x0b\x0c";

/// What is written of it.
const WRITTEN: &[u8] =
    b"YUV4MPEG2 W4 H2 F25:1 Ip A0:0 C420jpeg\nFRAME\n\x01\x02\x03\x04\x05\x06\x07\x08\x09\x0a\x0b\x0c";

/// The length of its header line.
const WRITTEN_HEADER: usize = 39;

/// Two pictures of one sample, of which the second has parameters. The header line has 28 bytes, and the frames 7 and 12.
const PAIR: &[u8] = b"YUV4MPEG2 W1 H1 F25:1 Cmono\nFRAME\n\x01FRAME Ixyz\n\x02";

/// A limit that no file here reaches.
pub(crate) const NO_LIMIT: u64 = 1 << 40;

/// What ended a copy before its end.
#[derive(Clone, Copy, Debug, PartialEq, Eq)]
pub(crate) enum Refused {
    /// The header was rejected.
    Head(HeadError),
    /// A frame was rejected.
    Next(NextError),
    /// A text was not written to its end.
    Write(WriteError),
    /// The host opened or created no file, or there was no memory for the reader or the writer.
    Other,
}

/// A host that holds these bytes as `a.y4m`.
pub(crate) fn host_with(rt: &impl Abort, alloc: Global, bytes: &[u8]) -> MemoryHost {
    let mut host = MemoryHost::new(alloc).ok().expect(rt, "a host");
    host.add(alloc, "a.y4m", bytes).ok().expect(rt, "an input");
    host
}

/// Writes each frame that is left of the input, and returns how many there were.
fn copy_frames<H: Host>(
    alloc: Global,
    host: &mut H,
    reader: &mut Reader,
    writer: &mut Writer,
    pools: &mut Pools,
    shape: Shape,
) -> Result<u64, Refused>
    requires input { IsTrue ((H.world host.old).inputs.is_open reader.old.id) }
    requires output { IsSome ((H.world host.old).outputs.name writer.old.id) }
    requires headed { reader.old.stage ≡ Stage.Headed shape }
    requires started { writer.old.progress ≡ Progress.Started }
    requires shape { writer.old.shape ≡ shape }
{
    loop {
        let mut frame = match reader.next(alloc, host, pools) {
            Ok(Some(frame)) => frame,
            Ok(None) => break,
            Err(error) => return Err(Next(error)),
        };
        match writer.frame(alloc, host, &mut frame) {
            Ok(()) => {}
            Err(error) => return Err(Write(error)),
        }
    }
    match writer.finish(alloc, host) {
        Ok(()) => Ok(reader.frames()),
        Err(error) => Err(Write(error)),
    }
}

/// Writes `b.y4m`, with the frames of an input of which the header was read.
fn write_frames<H: Host>(
    alloc: Global,
    host: &mut H,
    reader: &mut Reader,
    shape: Shape,
) -> Result<u64, Refused>
    requires input { IsTrue ((H.world host.old).inputs.is_open reader.old.id) }
    requires headed { reader.old.stage ≡ Stage.Headed shape }
    requires writable { IsWritable shape }
{
    let Ok(mut pools) = Pools::new(alloc) else {
        return Err(Refused::Other);
    };
    let Ok(id) = host.create("b.y4m") else {
        return Err(Refused::Other);
    };
    let Ok(mut writer) = Writer::new(alloc, id, shape) else {
        return Err(Refused::Other);
    };
    match writer.start(alloc, host) {
        Ok(()) => {}
        Err(error) => return Err(Write(error)),
    }
    copy_frames(alloc, host, reader, &mut writer, &mut pools, shape)
}

/// Writes `b.y4m`, with the frames of `a.y4m`, of which at most `limit` bytes are read, and returns how many there were.
pub(crate) fn copy_file<H: Host>(alloc: Global, host: &mut H, limit: u64) -> Result<u64, Refused> {
    let Ok(id) = host.open_input("a.y4m") else {
        return Err(Refused::Other);
    };
    let Ok(mut reader) = Reader::new(alloc, id, limit) else {
        return Err(Refused::Other);
    };
    match reader.header(alloc, host) {
        Ok(shape) => write_frames(alloc, host, &mut reader, shape),
        Err(error) => Err(Head(error)),
    }
}

/// What a copy of these bytes returns.
fn copied(rt: &impl Abort, alloc: Global, bytes: &[u8], limit: u64) -> Result<u64, Refused> {
    let mut host = host_with(rt, alloc, bytes);
    copy_file(alloc, &mut host, limit)
}

#[test]
fn a_file_is_written_as_it_was_read_however_it_is_read(rt: HostRuntime) {
    for most in [1, 2, 7, 65536] {
        let mut host = host_with(&rt, rt.alloc(), FILE);
        host.give_at_most(most);
        assert_eq!(rt; copy_file(rt.alloc(), &mut host, NO_LIMIT), Ok(1));
        assert_eq!(rt; host.output("b.y4m"), Some(WRITTEN));
    }
}

#[test]
fn a_failed_call_ends_the_copy(rt: HostRuntime) -> Result<(), Fail> {
    for (call, refused, output) in [
        (1, Head(HeadError::Host), None),
        (29, Write(WriteError::Host), Some(b"".as_slice())),
        (30, Next(NextError::Host), Some(&WRITTEN[..WRITTEN_HEADER])),
        (
            34,
            Write(WriteError::Host),
            Some(&WRITTEN[..WRITTEN_HEADER]),
        ),
    ] {
        let mut host = host_with(&rt, rt.alloc(), FILE);
        host.fail_call(rt.alloc(), call).ok().expect(&rt, "a call");
        assert_eq!(rt; copy_file(rt.alloc(), &mut host, NO_LIMIT), Err(refused));
        assert_eq!(rt; host.output("b.y4m"), output);
    }
    Ok(())
}

/// Sizes from one to another, and what a copy of `PAIR` returns if it has only that size, and if that is its limit.
const SIZES: [(usize, usize, Result<u64, Refused>, Result<u64, Refused>); 7] = [
    (
        0,
        9,
        Err(Head(HeadError::NotMedia)),
        Err(Head(HeadError::TooLong)),
    ),
    (
        9,
        28,
        Err(Head(HeadError::BadHeader)),
        Err(Head(HeadError::TooLong)),
    ),
    (28, 29, Ok(0), Err(Next(NextError::TooLong))),
    (
        29,
        35,
        Err(Next(NextError::Truncated { place: 0 })),
        Err(Next(NextError::TooLong)),
    ),
    (35, 36, Ok(1), Err(Next(NextError::TooLong))),
    (
        36,
        47,
        Err(Next(NextError::Truncated { place: 1 })),
        Err(Next(NextError::TooLong)),
    ),
    (47, 48, Ok(2), Ok(2)),
];

#[test]
fn every_prefix_and_every_limit_of_a_file_has_its_result(rt: HostRuntime) {
    for (from, to, prefix, limited) in SIZES {
        for size in from..to {
            let bytes = PAIR.get(..size).unwrap_or(&[]);
            let limit = size as u64;
            assert_eq!(rt;
                copied(&rt, rt.alloc(), bytes, NO_LIMIT),
                prefix,
                "at {size}"
            );
            assert_eq!(rt; copied(&rt, rt.alloc(), bytes, limit), prefix, "at {size}");
            assert_eq!(rt; copied(&rt, rt.alloc(), PAIR, limit), limited, "at {size}");
        }
    }
}

/// Files that are rejected, with a limit.
const DAMAGE: [(&[u8], u64, Refused); 13] = [
    (
        b"YUV4MPEG2 W1 H1 Cmono\nFRAMX",
        NO_LIMIT,
        Next(NextError::BadFrame { frame: 0 }),
    ),
    (
        b"YUV4MPEG2 W1 H1 Cmono\nFRAMES\n\x01",
        NO_LIMIT,
        Next(NextError::BadFrame { frame: 0 }),
    ),
    (
        b"YUV4MPEG2 W1 H1 Cmono\n\nFRAME\n\x01",
        NO_LIMIT,
        Next(NextError::BadFrame { frame: 0 }),
    ),
    (
        b"YUV4MPEG2 W1 H1 Cmono\nFRAME\n\x01x",
        NO_LIMIT,
        Next(NextError::BadFrame { frame: 1 }),
    ),
    (
        b"YUV4MPEG2 W1 H1 Cmono\nFRAME\n\x01FRAM\n",
        33,
        Next(NextError::TooLong),
    ),
    (
        b"YUV4MPEG2 W1 H1 Cmono\nFRAME\n\x01FRAM\n",
        34,
        Next(NextError::BadFrame { frame: 1 }),
    ),
    (b"YUV4MPEG2 W0 H1 Cmono\n", 12, Head(HeadError::TooLong)),
    (b"YUV4MPEG2 W0 H1 Cmono\n", 13, Head(HeadError::BadHeader)),
    (b"YUV4MPEG3 W1 H1 Cmono\n", 8, Head(HeadError::TooLong)),
    (b"YUV4MPEG3 W1 H1 Cmono\n", 9, Head(HeadError::NotMedia)),
    (b"YUV4MPEG2 W1 H1 Cother\n", 22, Head(HeadError::TooLong)),
    (b"YUV4MPEG2 W1 H1 Cother\n", 23, Head(HeadError::BadColour)),
    (b"", 0, Head(HeadError::NotMedia)),
];

#[test]
fn damage_and_limits_have_their_results(rt: HostRuntime) {
    for (bytes, limit, result) in DAMAGE {
        assert_eq!(rt;
            copied(&rt, rt.alloc(), bytes, limit),
            Err(result),
            "{bytes:?} {limit}"
        );
    }
}

#[test]
fn a_line_of_256_bytes_is_one_of_a_frame(rt: HostRuntime) -> Result<(), Fail> {
    for (count, result) in [
        (249, Ok(1)),
        (250, Err(Next(NextError::BadFrame { frame: 0 }))),
    ] {
        let mut bytes = Vec::new(rt.alloc());
        bytes.extend_from_slice(b"YUV4MPEG2 W1 H1 Cmono\nFRAME ")?;
        for _ in 0..count {
            bytes.push(b'x')?;
        }
        bytes.extend_from_slice(b"\n\x01")?;
        assert_eq!(rt; copied(&rt, rt.alloc(), &bytes, NO_LIMIT), result);
    }
    Ok(())
}

/// Files, and what is written of each.
const COPIES: [(&[u8], &[u8]); 7] = [
    (
        PAIR,
        b"YUV4MPEG2 W1 H1 F25:1 Ip A0:0 Cmono\nFRAME\n\x01FRAME\n\x02",
    ),
    (
        b"YUV4MPEG2 W2 H2 C420\nFRAME\nabcdef",
        b"YUV4MPEG2 W2 H2 F25:1 Ip A0:0 C420jpeg\nFRAME\nabcdef",
    ),
    (
        b"YUV4MPEG2 W2 H2 C420mpeg2 It\nFRAME\nabcdef",
        b"YUV4MPEG2 W2 H2 F25:1 It A0:0 C420jpeg\nFRAME\nabcdef",
    ),
    (
        b"YUV4MPEG2 C420paldv W3 H1 A4:2\nFRAME\nabcdefg",
        b"YUV4MPEG2 W3 H1 F25:1 Ip A2:1 C420jpeg\nFRAME\nabcdefg",
    ),
    (
        b"YUV4MPEG2 W3 H1 F60:2 C422\nFRAME\nabcdefg",
        b"YUV4MPEG2 W3 H1 F30:1 Ip A0:0 C422\nFRAME\nabcdefg",
    ),
    (
        b"YUV4MPEG2 W2 H1 C444 Xabc\nFRAME\nabcdef",
        b"YUV4MPEG2 W2 H1 F25:1 Ip A0:0 C444\nFRAME\nabcdef",
    ),
    (
        b"YUV4MPEG2  W1 H1 C444alpha\nFRAME\nabcd",
        b"YUV4MPEG2 W1 H1 F25:1 Ip A0:0 C444alpha\nFRAME\nabcd",
    ),
];

#[test]
fn a_file_of_each_colour_is_copied(rt: HostRuntime) {
    for (bytes, output) in COPIES {
        let mut host = host_with(&rt, rt.alloc(), bytes);
        assert!(rt; copy_file(rt.alloc(), &mut host, NO_LIMIT).is_ok());
        assert_eq!(rt; host.output("b.y4m"), Some(output));
    }
}
