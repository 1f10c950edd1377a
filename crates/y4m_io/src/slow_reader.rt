//! A plain slow reader, for small files that are in memory, beside the real one, with which it shares no function.

use crate::file_tests::{NO_LIMIT, Refused, copy_file, host_with};
use av_frame::{HeadError, NextError};

/// The number that a side of one digit says.
fn slow_side(parameter: &[u8]) -> usize {
    match parameter {
        [_, digit @ b'1'..=b'9'] => usize::from(*digit - b'0'),
        _ => 0,
    }
}

/// How many samples the planes of a picture have together.
fn slow_size(colour: &[u8], width: usize, height: usize) -> usize {
    let luma = width.saturating_mul(height);
    let narrow = width.div_ceil(2);
    let chroma = match colour {
        b"C422" => narrow.saturating_mul(height),
        b"C444" | b"C444alpha" => luma,
        b"Cmono" => 0,
        _ => narrow.saturating_mul(height.div_ceil(2)),
    };
    let alpha = match colour {
        b"C444alpha" => luma,
        _ => 0,
    };
    luma.saturating_add(chroma.saturating_mul(2))
        .saturating_add(alpha)
}

/// The size of the pictures of a file with this header line, in which each parameter is in order.
fn slow_header(line: &[u8]) -> usize {
    let (mut width, mut height, mut colour) = (0, 0, b"".as_slice());
    for parameter in line.split(|byte| *byte == b' ') {
        match parameter {
            [b'W', ..] => width = slow_side(parameter),
            [b'H', ..] => height = slow_side(parameter),
            [b'C', ..] => colour = parameter,
            _ => {}
        }
    }
    slow_size(colour, width, height)
}

/// Where the first line feed is.
fn slow_feed(bytes: &[u8]) -> Option<usize> {
    for (place, byte) in bytes.iter().enumerate() {
        if *byte == b'\n' {
            return Some(place);
        }
    }
    None
}

/// Whether a line, which may go on, is that of a frame.
fn slow_mark(line: &[u8], goes_on: bool) -> bool {
    for (place, byte) in b"FRAME ".iter().enumerate() {
        match line.get(place) {
            Some(other) if byte == other => {}
            Some(_) => return false,
            None => return goes_on || place == 5,
        }
    }
    true
}

/// How many frames the bytes have, or what is wrong with them.
fn slow_frames(bytes: &[u8], size: usize) -> Result<u64, NextError> {
    let mut rest = bytes;
    for count in 0..1000 {
        if rest.is_empty() {
            return Ok(count);
        }
        let line = slow_feed(rest).unwrap_or(rest.len());
        if line > 255 || !slow_mark(rest.get(..line).unwrap_or(&[]), line == rest.len()) {
            return Err(NextError::BadFrame { frame: count });
        }
        match rest.get(line.saturating_add(1).saturating_add(size)..) {
            Some(after) => rest = after,
            None => return Err(NextError::Truncated { place: count }),
        }
    }
    Err(NextError::Host)
}

/// How many frames a file has, or what is wrong with it.
fn slow_file(bytes: &[u8]) -> Result<u64, Refused> {
    let Some(line) = slow_feed(bytes) else {
        return Err(Refused::Head(match bytes.first_chunk::<9>() {
            Some(b"YUV4MPEG2") => HeadError::BadHeader,
            _ => HeadError::NotMedia,
        }));
    };
    let size = slow_header(bytes.get(..line).unwrap_or(&[]));
    match slow_frames(bytes.get(line.saturating_add(1)..).unwrap_or(&[]), size) {
        Ok(count) => Ok(count),
        Err(error) => Err(Refused::Next(error)),
    }
}

#[test]
fn the_reader_agrees_with_a_slow_reader_at_every_cut(rt: HostRuntime) {
    for file in [
        b"YUV4MPEG2 W4 H2 F25:1 C420\nFRAME\nabcdefghiklmFRAME\nnopqrstuvwxy".as_slice(),
        b"YUV4MPEG2 W3 H1 C422\nFRAME I1 Xy\nabcdefgFRAME \nabcdefgFRAME\n\n\n\n\n\n\n\nFRAMES\n",
        b"YUV4MPEG2 W1 H2 Cmono\nFRAME\nFRFRAME  \nAMFRAME\n\n\nFRAMEFRAME\nab",
        b"YUV4MPEG2 C444 W2 H1\nFRAME\nabcdefFRAME\n\xffFRAME",
        b"YUV4MPEG2 W1 H1 C444alpha\nFRAME\nabcd\nFRAME\nabcd",
    ] {
        for most in [1, 2, 7, 65536] {
            for cut in 0..file.len().saturating_add(1) {
                let bytes = file.get(..cut).unwrap_or(&[]);
                let mut host = host_with(&rt, rt.alloc(), bytes);
                host.give_at_most(most);
                assert_eq!(rt;
                    copy_file(rt.alloc(), &mut host, NO_LIMIT),
                    slow_file(bytes),
                    "{bytes:?}"
                );
            }
        }
    }
}
