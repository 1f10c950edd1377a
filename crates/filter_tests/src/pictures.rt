//! Small pictures, and their samples as texts.
ghost use Rattle.std.specs.Prelude.{◌≡◌, IfOk};
ghost use Rattle.av_base.specs.Numbers.{IsRatio};
ghost use Rattle.av_base.specs.declared.formats.Format.TheVariants as format;
ghost use Rattle.av_base.specs.Shapes.{IsPictureShape};

use av_base::{Format, NoMemory, PixelFormat, Props, Ratio, Shape, TimeBase, VideoProps};
use av_filter::check_shape;
use av_frame::{Edit, Frame, Kernel, Pools, paint};
use std::alloc::Global;

/// The pts of each picture.
pub(crate) const PTS: i64 = -5;

/// The duration of each picture.
pub(crate) const DURATION: i64 = 3;

/// The format, the width and the height of pictures.
pub(crate) type Input = (PixelFormat, u32, u32);

/// The shape of pictures of at least one column and one row, with an aspect.
pub(crate) fn shape_with(input: Input, aspect: Ratio) -> Shape
    requires { IsRatio aspect }
    ensures picture { IsPictureShape result }
    ensures format { result.format ≡ format.Video input.0 }
{
    let (pixels, width, height) = input;
    Shape {
        format: Format::Video(pixels),
        props: Props::Video(VideoProps {
            width: width.max(1),
            height: height.max(1),
            aspect,
            rate: Ratio { num: 25, den: 1 },
            base: TimeBase { num: 1, den: 25 },
            scan: b'p',
        }),
    }
}

/// The shape of pictures of at least one column and one row, whose samples are 4/3 as wide as high.
pub(crate) fn shape_of(input: Input) -> Shape
    ensures picture { IsPictureShape result }
    ensures format { result.format ≡ format.Video input.0 }
{
    shape_with(input, Ratio { num: 4, den: 3 })
}

/// A picture of samples of 0; out of memory if its shape passes a limit.
fn blank(alloc: Global, shape: Shape) -> Result<Edit, NoMemory>
    requires { IsPictureShape shape }
    ensures { IfOk result (λ e. e.shape ≡ shape) }
{
    match check_shape(shape) {
        Ok(()) => {}
        Err(_) => return Err(NoMemory),
    }
    let mut pools = Pools::new(alloc)?;
    Edit::blank(alloc, &mut pools, shape, 0)
}

/// The sample in plane p, row r and column c is 60 p + 10 r + c.
#[derive(Clone, Copy, Drop)]
struct Numbered;

impl Kernel for Numbered {
    ghost use Rattle.std.specs.Prelude.{◌+◌, ◌*◌, ◌%◌};

    ghost fits = { λ k sources p r c. Unit {0} };

    ghost value = { λ k sources p r c. (60 * p + 10 * r + c) % 256 };

    fn at(&self, _sources: &mut [Frame], plane: u32, row: u32, column: u32) -> i32 {
        let sample = 60 * u64::from(plane) + 10 * u64::from(row) + u64::from(column);
        (sample % 256) as i32
    }
}

/// A picture of numbered samples.
pub(crate) fn picture_of_numbers(alloc: Global, shape: Shape) -> Result<Frame, NoMemory>
    requires { IsPictureShape shape }
    ensures { IfOk result (λ f. f.shape ≡ shape) }
{
    let mut edit = blank(alloc, shape)?;
    paint(&mut edit, &Numbered, &mut []);
    Ok(edit.seal(PTS, DURATION))
}

/// Samples at the ends of the ranges of planes, and in the middle.
pub(crate) const LEVELS: [u8; 11] = [0, 15, 16, 17, 128, 234, 235, 236, 240, 241, 255];

/// Gives the first row of a plane the levels, if it is as long.
fn set_levels(edit: &mut Edit, plane: u32)
    ensures { edit.new.shape ≡ edit.old.shape }
{
    let shape = edit.shape();
    if plane < shape.planes() {
        let (columns, rows) = shape.plane_size(plane);
        if rows > 0 && columns == 11 {
            edit.set_row(plane, 0, &LEVELS);
        }
    }
}

/// A picture of one row, which has the levels in each plane.
pub(crate) fn picture_of_levels(alloc: Global) -> Result<Frame, NoMemory> {
    let mut edit = blank(alloc, shape_of((PixelFormat::Yuva444p, 11, 1)))?;
    set_levels(&mut edit, 0);
    set_levels(&mut edit, 1);
    set_levels(&mut edit, 2);
    set_levels(&mut edit, 3);
    Ok(edit.seal(PTS, DURATION))
}

/// A sample; -1 if there is none.
fn sample(frame: &mut Frame, plane: u32, row: u32, column: u32) -> i32 {
    let shape = frame.shape();
    if plane < shape.planes() {
        let (columns, rows) = shape.plane_size(plane);
        if row < rows && column < columns {
            return frame.sample(plane, row, column);
        }
    }
    -1
}

/// The columns and rows of a plane; 0 if there is none.
fn size_of(frame: &Frame, plane: u32) -> (u32, u32) {
    let shape = frame.shape();
    if plane < shape.planes() {
        shape.plane_size(plane)
    } else {
        (0, 0)
    }
}

/// Adds the samples of a row to a text, with a space between each two.
fn push_row(
    alloc: Global,
    text: &mut String,
    frame: &mut Frame,
    plane: u32,
    row: u32,
) -> Result<(), NoMemory> {
    let (columns, _rows) = size_of(frame, plane);
    for column in 0..columns {
        if column > 0 {
            text.push(' ')?;
        }
        let value = sample(frame, plane, row, column);
        text.push_str(format!(in alloc; "{value}")?.as_str())?;
    }
    Ok(())
}

/// Adds the rows of a plane to a text, with a comma between each two.
fn push_plane(
    alloc: Global,
    text: &mut String,
    frame: &mut Frame,
    plane: u32,
) -> Result<(), NoMemory> {
    let (_columns, rows) = size_of(frame, plane);
    for row in 0..rows {
        if row > 0 {
            text.push_str(", ")?;
        }
        push_row(alloc, text, frame, plane, row)?;
    }
    Ok(())
}

/// The samples of a picture, by planes and rows, with a bar between each two planes.
pub(crate) fn written(alloc: Global, mut frame: Frame) -> Result<String, NoMemory> {
    let mut text = String::new(alloc);
    for plane in 0..frame.shape().planes() {
        if plane > 0 {
            text.push_str(" | ")?;
        }
        push_plane(alloc, &mut text, &mut frame, plane)?;
    }
    Ok(text)
}
