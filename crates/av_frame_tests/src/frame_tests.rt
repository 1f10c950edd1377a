//! Frames and their edits, drawn by hand.
ghost use Rattle.std.specs.Prelude.{ℕ, ◌≤◌, IfOk};
ghost use Rattle.av_base.specs.Shapes.{columns_of};

use av_base::{Format, NoMemory, PixelFormat, Props, Ratio, Shape, TimeBase, VideoProps};
use av_frame::{Edit, Frame, Kernel, Pools, RowMap, map_rows, paint};
use std::alloc::Global;

/// A picture of 3x3 samples, with chroma planes of 2x2.
fn blank(alloc: Global, pools: &mut Pools) -> Result<Edit, NoMemory>
    ensures { IfOk result (λ e. (p : ℕ) → columns_of e.shape p ≤ 8) }
{
    let shape = Shape {
        format: Format::Video(PixelFormat::Yuv420p),
        props: Props::Video(VideoProps {
            width: 3,
            height: 3,
            aspect: Ratio { num: 0, den: 1 },
            rate: Ratio { num: 25, den: 1 },
            base: TimeBase { num: 1, den: 25 },
            scan: b'p',
        }),
    };
    Edit::blank(alloc, pools, shape, 0)
}

/// Replaces a sample, where there is one.
fn set(edit: &mut Edit, plane: u32, row: u32, column: u32, value: u8) {
    let shape = edit.shape();
    if plane < shape.planes() {
        let (columns, rows) = shape.plane_size(plane);
        if row < rows && column < columns {
            edit.set(plane, row, column, i32::from(value));
        }
    }
}

/// The samples of a row, where there is one, by the reads of single samples.
fn samples(frame: &mut Frame, plane: u32, row: u32) -> [i32; 3] {
    let mut found = [-1; 3];
    for column in 0..3 {
        found[column as usize] = sample(frame, plane, row, column);
    }
    found
}

fn sample(frame: &mut Frame, plane: u32, row: u32, column: u32) -> i32 {
    let shape = frame.shape();
    if plane < shape.planes() {
        let (columns, rows) = shape.plane_size(plane);
        if row < rows && column < columns {
            return frame.sample(plane, row, column);
        }
    }
    -1
}

/// The samples of plane Y from a column on, by a read of a part of a row.
fn part(frame: &mut Frame, row: u32, column: u32) -> [u8; 2] {
    let mut found = [0; 2];
    let shape = frame.shape();
    if shape.planes() > 0 {
        let (columns, rows) = shape.plane_size(0);
        if row < rows && column < columns && columns - column >= 2 {
            frame.part(0, row, column, &mut found);
        }
    }
    found
}

/// The samples of plane Y below a row, by a read of a part of a column.
fn column(frame: &mut Frame, row: u32, column: u32) -> [u8; 2] {
    let mut found = [0; 2];
    let shape = frame.shape();
    if shape.planes() > 0 {
        let (columns, rows) = shape.plane_size(0);
        if column < columns && row < rows && rows - row >= 2 {
            frame.column(0, row, column, &mut found);
        }
    }
    found
}

#[test]
fn a_frame_has_what_its_edit_was_given(rt: HostRuntime) {
    let alloc = rt.alloc();
    let mut pools = Pools::new(alloc).ok().expect(&rt, "pools");
    let mut edit = blank(alloc, &mut pools).ok().expect(&rt, "a picture");
    for column in 0..3 {
        set(&mut edit, 0, 2, column, 7 + column as u8);
    }
    set(&mut edit, 1, 1, 1, 200);
    let mut frame = edit.seal(-5, 2);
    assert_eq!(rt; (frame.pts(), frame.duration()), (-5, 2));
    for (plane, row, want) in [
        (0, 0, [0, 0, 0]),
        (0, 1, [0, 0, 0]),
        (0, 2, [7, 8, 9]),
        (1, 0, [0, 0, -1]),
        (1, 1, [0, 200, -1]),
        (2, 1, [0, 0, -1]),
    ] {
        assert_eq!(rt; samples(&mut frame, plane, row), want);
    }
    assert_eq!(rt; part(&mut frame, 2, 1), [8, 9]);
    frame.release();
}

/// Samples that tell their places, given sample by sample alone.
#[derive(Clone, Copy, Drop)]
struct Places;

impl Kernel for Places {
    ghost use Rattle.std.specs.Prelude.{◌+◌, ◌*◌, ◌%◌};

    ghost fits = { λ k sources plane row column. Unit {0} };

    ghost value = { λ k sources plane row column. 16 * (plane % 4) + 4 * (row % 4) + column % 4 };

    fn at(&self, _sources: &mut [Frame], plane: u32, row: u32, column: u32) -> i32 {
        (16 * (plane % 4) + 4 * (row % 4) + column % 4) as i32
    }
}

#[test]
fn a_kernel_of_samples_paints_rows(rt: HostRuntime) {
    let alloc = rt.alloc();
    let mut pools = Pools::new(alloc).ok().expect(&rt, "pools");
    let mut edit = blank(alloc, &mut pools).ok().expect(&rt, "a picture");
    paint(&mut edit, &Places, &mut []);
    let mut frame = edit.seal(4, 1);
    for (plane, row, want) in [
        (0, 0, [0, 1, 2]),
        (0, 2, [8, 9, 10]),
        (1, 0, [16, 17, -1]),
        (2, 1, [36, 37, -1]),
    ] {
        assert_eq!(rt; samples(&mut frame, plane, row), want);
    }
}

/// The part of a frame that begins in the column `x` and the row `y`, where the frame has it.
fn window(frame: Frame, x: u32, y: u32, width: u32, height: u32) -> Frame {
    let shape = frame.shape();
    let Props::Video(props) = shape.props else {
        return frame;
    };
    let fits_across = x <= props.width && width <= props.width - x;
    let fits_down = y <= props.height && height <= props.height - y;
    if width == 0 || height == 0 || !fits_across || !fits_down {
        return frame;
    }
    let part = Shape {
        format: shape.format,
        props: Props::Video(VideoProps {
            width,
            height,
            ..props
        }),
    };
    frame.window(x, y, part)
}

/// A frame of 3x3 samples that tell their places.
fn placed(alloc: Global, pools: &mut Pools) -> Result<Frame, NoMemory> {
    let mut edit = blank(alloc, pools)?;
    paint(&mut edit, &Places, &mut []);
    Ok(edit.seal(4, 1))
}

#[test]
fn a_window_begins_where_chroma_does(rt: HostRuntime) {
    let alloc = rt.alloc();
    let mut pools = Pools::new(alloc).ok().expect(&rt, "pools");
    let frame = placed(alloc, &mut pools).ok().expect(&rt, "a frame");
    let mut part = window(frame, 1, 1, 2, 1);
    for (plane, row, want) in [
        (0, 0, [5, 6, -1]),
        (0, 1, [-1, -1, -1]),
        (1, 0, [16, -1, -1]),
        (2, 0, [32, -1, -1]),
    ] {
        assert_eq!(rt; samples(&mut part, plane, row), want);
    }
    let frame = placed(alloc, &mut pools).ok().expect(&rt, "a frame");
    let mut part = window(frame, 2, 1, 1, 2);
    for (plane, row, want) in [
        (0, 0, [6, -1, -1]),
        (0, 1, [10, -1, -1]),
        (1, 0, [17, -1, -1]),
        (1, 1, [-1, -1, -1]),
    ] {
        assert_eq!(rt; samples(&mut part, plane, row), want);
    }
}

#[test]
fn a_window_of_a_frame_upside_down(rt: HostRuntime) {
    let alloc = rt.alloc();
    let mut pools = Pools::new(alloc).ok().expect(&rt, "pools");
    let frame = placed(alloc, &mut pools).ok().expect(&rt, "a frame");
    let mut part = window(frame.upside_down(), 1, 0, 2, 2).upside_down();
    for (plane, row, want) in [
        (0, 0, [5, 6, -1]),
        (0, 1, [9, 10, -1]),
        (1, 0, [20, -1, -1]),
        (2, 0, [36, -1, -1]),
    ] {
        assert_eq!(rt; samples(&mut part, plane, row), want);
    }
}

#[test]
fn a_column_is_read_in_the_order_of_the_rows(rt: HostRuntime) {
    let alloc = rt.alloc();
    let mut pools = Pools::new(alloc).ok().expect(&rt, "pools");
    let mut frame = placed(alloc, &mut pools).ok().expect(&rt, "a frame");
    assert_eq!(rt; column(&mut frame, 1, 2), [6, 10]);
    let mut frame = frame.upside_down();
    assert_eq!(rt; column(&mut frame, 0, 1), [9, 5]);
    assert_eq!(rt; column(&mut frame, 1, 0), [4, 0]);
    let mut part = window(frame, 1, 1, 2, 2);
    assert_eq!(rt; column(&mut part, 0, 1), [6, 2]);
}

/// Rows whose samples are in the other order.
#[derive(Clone, Copy, Drop)]
struct Backwards;

impl RowMap for Backwards {
    ghost use Rattle.std.specs.Prelude.{◌-◌, length, slice_index};

    ghost value = { λ m plane row column. slice_index row ((length row - 1) - column) };

    fn map_row(&self, _plane: u32, row: &mut [u8]) {
        row.reverse();
    }
}

#[test]
fn rows_are_mapped_in_place(rt: HostRuntime) {
    let alloc = rt.alloc();
    let mut pools = Pools::new(alloc).ok().expect(&rt, "pools");
    let frame = placed(alloc, &mut pools).ok().expect(&rt, "a frame");
    let part = window(frame, 1, 1, 2, 2);
    let mut edit = part.edit(alloc, &mut pools).ok().expect(&rt, "an edit");
    map_rows(&mut edit, &Backwards);
    let mut frame = edit.seal(4, 1);
    for (plane, row, want) in [
        (0, 0, [6, 5, -1]),
        (0, 1, [10, 9, -1]),
        (1, 0, [16, -1, -1]),
    ] {
        assert_eq!(rt; samples(&mut frame, plane, row), want);
    }
}

/// Replaces a row of plane Y, where there is one of this length.
fn set_row(edit: &mut Edit, row: u32, samples: &[u8]) {
    let shape = edit.shape();
    if shape.planes() > 0 {
        let (columns, rows) = shape.plane_size(0);
        if row < rows && samples.len() == columns as usize {
            edit.set_row(0, row, samples);
        }
    }
}

#[test]
fn rows_are_written_in_any_order(rt: HostRuntime) {
    let alloc = rt.alloc();
    let mut pools = Pools::new(alloc).ok().expect(&rt, "pools");
    let mut edit = blank(alloc, &mut pools).ok().expect(&rt, "a picture");
    set_row(&mut edit, 2, &[7, 8, 9]);
    set_row(&mut edit, 0, &[1, 2, 3]);
    set(&mut edit, 0, 0, 1, 5);
    let mut frame = edit.seal(4, 1);
    for (plane, row, want) in [
        (0, 0, [1, 5, 3]),
        (0, 1, [0, 0, 0]),
        (0, 2, [7, 8, 9]),
        (1, 1, [0, 0, -1]),
    ] {
        assert_eq!(rt; samples(&mut frame, plane, row), want);
    }
}
