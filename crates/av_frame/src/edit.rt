//! Frames that are being made.
ghost use Rattle.std.specs.Prelude.{◌≡◌, ◌+◌, ◌<◌, ◌≤◌, ℕ, pos, ◌≤ℤ◌, unsigned_abs, length, IfOk};
ghost use Rattle.av_base.specs.Shapes.{IsLawful, IsVideo, IsWithinLimits, planes_of};
ghost use Rattle.std.specs.Simd.Lanes.{put_chunk};
ghost use Rattle.av_frame.specs.Rasters.{row_of, sample_of, row_by};
ghost use Rattle.av_frame.specs.Frames.{plane_at, with_row, with_sample, blank_planes, IsPicture, IsPts, IsDuration};

use crate::frame::{Frame, Pools};
use crate::kernel::Kernel;
use crate::plane::Plane;
use crate::rows::RowMap;
use av_base::{NoMemory, Shape};
use std::alloc::Global;
use std::marker::Model;

/// A picture that is being made. Contracts see its shape and the rows of samples of each plane.
#[derive(Drop)]
pub struct Edit {
    shape: Shape,
    planes: Vec<Plane>,
}

impl Model for Edit {
    ghost use Rattle.av_frame.specs.Frames.{EditValue, IsPicture};

    ghost Value = { EditValue };

    ghost view = { λ e. record { shape = e.shape; planes = e.planes.items } };

    ghost invariant = { λ e. IsPicture e.shape e.planes.items };
}

fn blank_all(alloc: Global, shape: Shape) -> Result<Vec<Plane>, NoMemory>
    requires lawful { IsLawful shape }
    requires video { IsVideo shape.format }
    requires limits { IsWithinLimits shape }
    ensures { IfOk result (λ planes. planes.items ≡ blank_planes shape) }
{
    let mut planes = Vec::new(alloc);
    for plane in 0..shape.planes() {
        let (columns, rows) = shape.plane_size(plane);
        let plane = Plane::blank(alloc, columns, rows)?;
        planes.push(plane)?;
    }
    Ok(planes)
}

impl Edit {
    /// The picture of these planes.
    pub(crate) fn new(shape: Shape, planes: Vec<Plane>) -> Edit
        requires { IsPicture shape planes.items }
        ensures { result ≡ record { shape = shape; planes = planes.items } }
    {
        Edit { shape, planes }
    }

    /// A picture of samples of 0. `samples` counts the samples of a piece of sound; for pictures it is 0.
    ///
    /// # Errors
    /// Out of memory.
    pub fn blank(
        alloc: Global,
        _pools: &mut Pools,
        shape: Shape,
        _samples: u32,
    ) -> Result<Edit, NoMemory>
        requires lawful { IsLawful shape }
        requires video { IsVideo shape.format }
        requires limits { IsWithinLimits shape }
        requires samples { _samples ≡ 0 }
        ensures { IfOk result (λ e. e ≡ record { shape = shape; planes = blank_planes shape }) }
    {
        let planes = blank_all(alloc, shape)?;
        Ok(Edit { shape, planes })
    }

    /// The format and properties, which are lawful.
    pub fn shape(&self) -> Shape
        ensures shape { result ≡ self.now.shape }
        ensures picture { IsPicture self.now.shape self.now.planes }
    {
        self.shape
    }

    /// One sample, as it is so far.
    pub fn sample(&mut self, plane: u32, row: u32, column: u32) -> i32
        requires plane { plane < planes_of self.old.shape }
        requires row { row < (plane_at self.old.planes plane).height }
        requires column { column < (plane_at self.old.planes plane).width }
        ensures sample { result ≡ pos (sample_of (plane_at self.old.planes plane) row column) }
        ensures same { self.new ≡ self.old }
    {
        i32::from(self.planes[plane as usize].sample(row, column))
    }

    /// Replaces one sample, by a value of 0 to 255.
    pub fn set(&mut self, plane: u32, row: u32, column: u32, value: i32)
        requires plane { plane < planes_of self.old.shape }
        requires row { row < (plane_at self.old.planes plane).height }
        requires column { column < (plane_at self.old.planes plane).width }
        requires low { pos 0 ≤ℤ value }
        requires high { value ≤ℤ pos 255 }
        ensures { self.new ≡ record self.old { planes = with_sample self.old.planes plane row column (unsigned_abs value) } }
    {
        self.planes[plane as usize].set(row, column, value as u8);
    }

    /// Copies a row of samples of eight bits, as they are so far, into `out`, which is as long as the row.
    pub fn row(&mut self, plane: u32, row: u32, out: &mut [u8])
        requires plane { plane < planes_of self.old.shape }
        requires row { row < (plane_at self.old.planes plane).height }
        requires wide { length out.old ≡ (plane_at self.old.planes plane).width }
        ensures out { out.new ≡ row_of (plane_at self.old.planes plane) row }
        ensures same { self.new ≡ self.old }
    {
        self.planes[plane as usize].part(row, 0, out);
    }

    /// Replaces a row by samples of eight bits, as many as the row has.
    pub fn set_row(&mut self, plane: u32, row: u32, samples: &[u8])
        requires plane { plane < planes_of self.old.shape }
        requires row { row < (plane_at self.old.planes plane).height }
        requires wide { length samples.now ≡ (plane_at self.old.planes plane).width }
        ensures { self.new ≡ record self.old { planes = with_row self.old.planes plane row samples.now } }
    {
        self.planes[plane as usize].set_row(row, samples);
    }

    /// Replaces samples of eight bits of a row, from a column on.
    pub fn set_part(&mut self, plane: u32, row: u32, column: u32, samples: &[u8])
        requires plane { plane < planes_of self.old.shape }
        requires row { row < (plane_at self.old.planes plane).height }
        requires wide { column + length samples.now ≤ (plane_at self.old.planes plane).width }
        ensures { self.new ≡ record self.old { planes = with_row self.old.planes plane row (put_chunk column (row_of (plane_at self.old.planes plane) row) samples.now) } }
    {
        self.planes[plane as usize].set_part(row, column, samples);
    }

    /// Has a kernel write a row of samples of eight bits in place.
    pub fn paint_row<K: Kernel>(&mut self, kernel: &K, sources: &mut [Frame], plane: u32, row: u32)
        requires plane { plane < planes_of self.old.shape }
        requires row { row < (plane_at self.old.planes plane).height }
        requires fits { (c : ℕ) → c < (plane_at self.old.planes plane).width → K.fits kernel.now sources.old plane row c }
        requires small { (c : ℕ) → c < (plane_at self.old.planes plane).width → K.value kernel.now sources.old plane row c < 256 }
        ensures painted { self.new ≡ record self.old {
          planes = with_row self.old.planes plane row (row_by (plane_at self.old.planes plane).width (K.value kernel.now sources.old plane row));
        } }
        ensures same { sources.new ≡ sources.old }
    {
        self.planes[plane as usize].paint_row(kernel, sources, plane, row);
    }

    /// Has a map rewrite a row of samples of eight bits in place.
    pub fn map_row<M: RowMap>(&mut self, map: &M, plane: u32, row: u32)
        requires plane { plane < planes_of self.old.shape }
        requires row { row < (plane_at self.old.planes plane).height }
        ensures mapped { self.new ≡ record self.old {
          planes = with_row self.old.planes plane row (row_by (plane_at self.old.planes plane).width (M.value map.now plane (row_of (plane_at self.old.planes plane) row)));
        } }
        ensures small { (c : ℕ) → c < (plane_at self.old.planes plane).width → M.value map.now plane (row_of (plane_at self.old.planes plane) row) c < 256 }
    {
        self.planes[plane as usize].map_row(map, plane, row);
    }

    /// The picture as a frame, with a pts and a duration in ticks of the shape's time base. It takes no
    /// memory.
    pub fn seal(self, pts: i64, duration: i64) -> Frame
        requires pts { IsPts pts }
        requires duration { IsDuration duration }
        ensures { result ≡ record { shape = self.shape; planes = self.planes; pts = pts; duration = duration } }
    {
        let Edit { shape, planes } = self;
        Frame::new(shape, planes, pts, duration)
    }
}
