//! Frames, which stay as they are.
ghost use Rattle.std.specs.Prelude.{◌≡◌, ◌+◌, ◌-◌, ◌<◌, ◌≤◌, ℕ, pos, length, slice_index, IfOk, IfErr, IsOk};
ghost use Rattle.std.specs.Simd.Lanes.{chunk};
ghost use Rattle.av_base.specs.Shapes.{IsLawful, IsVideo, planes_of, rows_of, width_of, height_of};
ghost use Rattle.av_frame.specs.Rasters.{row_of, sample_of};
ghost use Rattle.av_frame.specs.Grid.{column_in, row_in};
ghost use Rattle.av_frame.specs.Frames.{plane_at, planes_by, IsFrame, IsPicture, IsPts, IsDuration};

use crate::edit::Edit;
use crate::grid::place_in;
use crate::plane::Plane;
use av_base::{NoMemory, Shape};
use std::alloc::Global;
use std::marker::Model;

/// What planes are taken from. For now each plane is a vector of its own.
#[derive(Drop)]
pub struct Pools;

impl Pools {
    /// Pools that hold nothing yet.
    ///
    /// # Errors
    /// Out of memory.
    pub fn new(_alloc: Global) -> Result<Pools, NoMemory> {
        Ok(Pools)
    }
}

/// A picture with its time. Contracts see its value: its shape, the rows of samples of each plane, and its pts and
/// duration in ticks of the shape's time base.
#[derive(Drop)]
pub struct Frame {
    shape: Shape,
    planes: Vec<Plane>,
    pts: i64,
    duration: i64,
}

impl Model for Frame {
    ghost use Rattle.av_frame.specs.Frames.{FrameValue, IsFrame};

    ghost Value = { FrameValue };

    ghost view = { λ f. record { shape = f.shape; planes = f.planes.items; pts = f.pts; duration = f.duration } };

    ghost invariant = { λ f. IsFrame (record { shape = f.shape; planes = f.planes.items; pts = f.pts; duration = f.duration }) };
}

/// Out of memory, with the frame that was to be edited.
#[derive(Drop)]
pub struct Unedited {
    /// The frame, as it was.
    pub frame: Frame,
}

impl Frame {
    /// The frame of these planes, with a pts and a duration in ticks of the shape's time base.
    pub(crate) fn new(shape: Shape, planes: Vec<Plane>, pts: i64, duration: i64) -> Frame
        requires picture { IsPicture shape planes.items }
        requires pts { IsPts pts }
        requires duration { IsDuration duration }
        ensures { result ≡ record { shape = shape; planes = planes.items; pts = pts; duration = duration } }
    {
        Frame {
            shape,
            planes,
            pts,
            duration,
        }
    }

    /// The format and properties, which are lawful.
    pub fn shape(&self) -> Shape
        ensures shape { result ≡ self.now.shape }
        ensures frame { IsFrame self.now }
    {
        self.shape
    }

    /// When it is shown, in ticks of its time base.
    pub fn pts(&self) -> i64
        ensures { result ≡ self.now.pts }
    {
        self.pts
    }

    /// How long it is shown, in ticks of its time base.
    pub fn duration(&self) -> i64
        ensures { result ≡ self.now.duration }
    {
        self.duration
    }

    /// Shows it at another time, in ticks of its time base.
    pub fn set_pts(&mut self, pts: i64)
        requires { IsPts pts }
        ensures { self.new ≡ record self.old { pts = pts } }
    {
        self.pts = pts;
    }

    /// Shows it for another time, in ticks of its time base.
    pub fn set_duration(&mut self, duration: i64)
        requires { IsDuration duration }
        ensures { self.new ≡ record self.old { duration = duration } }
    {
        self.duration = duration;
    }

    /// The same frame once more. For now each of its planes is a copy.
    ///
    /// # Errors
    /// Out of memory. This frame is then as it was, too.
    pub fn share(&mut self, alloc: Global, _pools: &mut Pools) -> Result<Frame, NoMemory>
        ensures shared { IfOk result (λ f. f ≡ self.old) }
        ensures same { self.new ≡ self.old }
    {
        let planes = copy_all(alloc, &self.planes)?;
        Ok(Frame::new(self.shape, planes, self.pts, self.duration))
    }

    /// One sample.
    pub fn sample(&mut self, plane: u32, row: u32, column: u32) -> i32
        requires plane { plane < planes_of self.old.shape }
        requires row { row < (plane_at self.old.planes plane).height }
        requires column { column < (plane_at self.old.planes plane).width }
        ensures sample { result ≡ pos (sample_of (plane_at self.old.planes plane) row column) }
        ensures same { self.new ≡ self.old }
    {
        i32::from(self.planes[plane as usize].sample(row, column))
    }

    /// Copies a row of samples of eight bits into `out`, which is as long as the row.
    pub fn row(&mut self, plane: u32, row: u32, out: &mut [u8])
        requires plane { plane < planes_of self.old.shape }
        requires row { row < (plane_at self.old.planes plane).height }
        requires wide { length out.old ≡ (plane_at self.old.planes plane).width }
        ensures out { out.new ≡ row_of (plane_at self.old.planes plane) row }
        ensures same { self.new ≡ self.old }
    {
        self.planes[plane as usize].part(row, 0, out);
    }

    /// Copies samples of eight bits of a row, from a column on, into all of `out`.
    pub fn part(&mut self, plane: u32, row: u32, column: u32, out: &mut [u8])
        requires plane { plane < planes_of self.old.shape }
        requires row { row < (plane_at self.old.planes plane).height }
        requires wide { column + length out.old ≤ (plane_at self.old.planes plane).width }
        ensures out { out.new ≡ chunk column (length out.old) (row_of (plane_at self.old.planes plane) row) }
        ensures same { self.new ≡ self.old }
    {
        self.planes[plane as usize].part(row, column, out);
    }

    /// Copies samples of eight bits of a column, from a row on, into all of `out`.
    pub fn column(&mut self, plane: u32, row: u32, column: u32, out: &mut [u8])
        requires plane { plane < planes_of self.old.shape }
        requires column { column < (plane_at self.old.planes plane).width }
        requires high { row + length out.old ≤ (plane_at self.old.planes plane).height }
        ensures out { (i : ℕ) → i < length out.old → slice_index out.new i ≡ sample_of (plane_at self.old.planes plane) (row + i) column }
        ensures same { self.new ≡ self.old }
    {
        self.planes[plane as usize].column(row, column, out);
    }

    /// The rows of each plane in the other order. No sample is copied.
    pub fn upside_down(self) -> Frame
        ensures { result ≡ record self { planes = planes_by self.shape (λ p r c. sample_of (plane_at self.planes p) ((rows_of self.shape p - 1) - r) c) } }
    {
        let Frame {
            shape,
            mut planes,
            pts,
            duration,
        } = self;
        turn_planes(shape, &mut planes);
        Frame::new(shape, planes, pts, duration)
    }

    /// The part of the picture that has this shape's size and begins in the column `x` and the row `y`. No sample is
    /// copied.
    pub fn window(self, x: u32, y: u32, shape: Shape) -> Frame
        requires lawful { IsLawful shape }
        requires video { IsVideo shape.format }
        requires format { shape.format ≡ self.shape.format }
        requires columns { x + width_of shape.props ≤ width_of self.shape.props }
        requires rows { y + height_of shape.props ≤ height_of self.shape.props }
        ensures { result ≡ record {
          shape = shape;
          planes = planes_by shape (λ p r c. sample_of (plane_at self.planes p) (row_in self.shape p y + r) (column_in self.shape p x + c));
          pts = self.pts;
          duration = self.duration;
        } }
    {
        let Frame {
            shape: whole,
            mut planes,
            pts,
            duration,
        } = self;
        window_planes(whole, &mut planes, x, y, shape);
        Frame::new(shape, planes, pts, duration)
    }

    /// The picture to be edited. The frame's planes are its own, so they move into the edit: no sample is copied, and no
    /// memory is taken.
    ///
    /// # Errors
    /// Out of memory, for planes that others read too; there are none yet.
    pub fn edit(self, _alloc: Global, _pools: &mut Pools) -> Result<Edit, Unedited>
        ensures edit { IfOk result (λ e. e ≡ record { shape = self.shape; planes = self.planes }) }
        ensures frame { IfErr result (λ e. e.frame ≡ self) }
        ensures succeeds { IsOk result }
    {
        let Frame { shape, planes, .. } = self;
        Ok(Edit::new(shape, planes))
    }

    /// Lets the frame go.
    pub fn release(self) {}
}

/// A copy of each plane.
fn copy_all(alloc: Global, planes: &[Plane]) -> Result<Vec<Plane>, NoMemory>
    ensures { IfOk result (λ copies. copies.items ≡ planes.now) }
{
    let mut copies = Vec::new(alloc);
    for plane in planes {
        let copy = plane.copy(alloc)?;
        copies.push(copy)?;
    }
    Ok(copies)
}

/// Puts the rows of each plane in the other order.
fn turn_planes(shape: Shape, planes: &mut [Plane])
    requires { IsPicture shape planes.old }
    ensures { planes.new ≡ planes_by shape (λ p r c. sample_of (plane_at planes.old p) ((rows_of shape p - 1) - r) c) }
{
    for plane in 0..shape.planes() {
        planes[plane as usize].upside_down();
    }
}

/// Keeps of each plane the part of it that belongs to a part of the picture.
fn window_planes(whole: Shape, planes: &mut [Plane], x: u32, y: u32, shape: Shape)
    requires picture { IsPicture whole planes.old }
    requires lawful { IsLawful shape }
    requires video { IsVideo shape.format }
    requires format { shape.format ≡ whole.format }
    requires columns { x + width_of shape.props ≤ width_of whole.props }
    requires rows { y + height_of shape.props ≤ height_of whole.props }
    ensures { planes.new ≡ planes_by shape (λ p r c. sample_of (plane_at planes.old p) (row_in whole p y + r) (column_in whole p x + c)) }
{
    for plane in 0..shape.planes() {
        let (left, top) = place_in(whole, plane, x, y);
        let (columns, rows) = shape.plane_size(plane);
        planes[plane as usize].window(left, top, columns, rows);
    }
}
