//! Planes: rows of samples of eight bits.
ghost use Rattle.std.specs.Prelude.{◌≡◌, ◌+◌, ◌-◌, ◌*◌, ◌^◌, ◌<◌, ◌≤◌, ℕ, length, slice_index, slice_set, IfOk};
ghost use Rattle.std.specs.Simd.Lanes.{chunk, put_chunk};
ghost use Rattle.av_frame.specs.Rasters.{row_of, sample_of, row_by, raster_by, blank_raster};

use crate::frame::Frame;
use crate::geometry::{Geometry, place_of, upside_down_of, window_of};
use crate::kernel::Kernel;
use crate::page::Page;
use crate::rows::RowMap;
use av_base::NoMemory;
use std::alloc::Global;
use std::marker::Model;

/// The rows of a plane. Contracts see its width, its height and its rows of samples.
#[derive(Drop)]
pub struct Plane {
    page: Page,
    geometry: Geometry,
}

impl Model for Plane {
    ghost use Rattle.std.specs.Prelude.{length};
    ghost use Rattle.av_frame.specs.Rasters.{Raster};
    ghost use Rattle.av_frame.specs.Geometries.{raster_at, Fitted};

    ghost Value = { Raster };

    ghost view = { λ p. raster_at p.geometry p.page };

    ghost invariant = { λ p. Fitted p.geometry (length p.page) };
}

impl Plane {
    /// A plane of samples of 0. Each row begins on a word of eight bytes.
    ///
    /// # Errors
    /// Out of memory.
    pub fn blank(alloc: Global, width: u32, height: u32) -> Result<Plane, NoMemory>
        requires width { width ≤ 2 ^ 13 }
        requires some { 0 < height }
        requires height { height ≤ 2 ^ 13 }
        ensures { IfOk result (λ p. p ≡ blank_raster width height) }
    {
        let stride = width.div_ceil(8) * 8;
        let page = Page::blank(alloc, stride as usize * height as usize)?;
        Ok(Plane {
            page,
            geometry: Geometry {
                offset: 0,
                stride,
                width,
                height,
                bottom_up: false,
            },
        })
    }

    /// The same rows, in memory of their own.
    ///
    /// # Errors
    /// Out of memory.
    pub fn copy(&self, alloc: Global) -> Result<Plane, NoMemory>
        ensures { IfOk result (λ p. p ≡ self.now) }
    {
        let page = self.page.copy(alloc)?;
        Ok(Plane {
            page,
            geometry: self.geometry,
        })
    }

    /// Copies samples of a row, from a column on, into all of `out`.
    pub fn part(&mut self, row: u32, column: u32, out: &mut [u8])
        requires row { row < self.old.height }
        requires wide { column + length out.old ≤ self.old.width }
        ensures out { out.new ≡ chunk column (length out.old) (row_of self.old row) }
        ensures same { self.new ≡ self.old }
    {
        let at = place_of(self.geometry, row) + column as usize;
        self.page.read(at, out);
    }

    /// One sample.
    pub fn sample(&mut self, row: u32, column: u32) -> u8
        requires row { row < self.old.height }
        requires column { column < self.old.width }
        ensures sample { result ≡ sample_of self.old row column }
        ensures same { self.new ≡ self.old }
    {
        let at = place_of(self.geometry, row) + column as usize;
        let mut one = [0u8];
        self.page.read(at, &mut one);
        one[0]
    }

    /// Copies samples of a column, from a row on, into all of `out`.
    pub fn column(&mut self, row: u32, column: u32, out: &mut [u8])
        requires column { column < self.old.width }
        requires high { row + length out.old ≤ self.old.height }
        ensures out { (i : ℕ) → i < length out.old → slice_index out.new i ≡ sample_of self.old (row + i) column }
        ensures same { self.new ≡ self.old }
    {
        self.page.column(self.geometry, row, column, out);
    }

    /// Replaces a row.
    pub fn set_row(&mut self, row: u32, samples: &[u8])
        requires row { row < self.old.height }
        requires wide { length samples.now ≡ self.old.width }
        ensures { self.new ≡ record self.old { rows = slice_set self.old.rows row samples.now } }
    {
        let at = place_of(self.geometry, row);
        self.page.write(at, samples);
    }

    /// Replaces samples of a row, from a column on.
    pub fn set_part(&mut self, row: u32, column: u32, samples: &[u8])
        requires row { row < self.old.height }
        requires wide { column + length samples.now ≤ self.old.width }
        ensures { self.new ≡ record self.old { rows = slice_set self.old.rows row (put_chunk column (row_of self.old row) samples.now) } }
    {
        let at = place_of(self.geometry, row) + column as usize;
        self.page.write(at, samples);
    }

    /// Has a kernel write a row.
    pub fn paint_row<K: Kernel>(&mut self, kernel: &K, sources: &mut [Frame], plane: u32, row: u32)
        requires row { row < self.old.height }
        requires fits { (c : ℕ) → c < self.old.width → K.fits kernel.now sources.old plane row c }
        requires small { (c : ℕ) → c < self.old.width → K.value kernel.now sources.old plane row c < 256 }
        ensures painted { self.new ≡ record self.old { rows = slice_set self.old.rows row (row_by self.old.width (K.value kernel.now sources.old plane row)) } }
        ensures same { sources.new ≡ sources.old }
    {
        let at = place_of(self.geometry, row);
        let count = self.geometry.width as usize;
        self.page.paint(at, count, kernel, sources, plane, row);
    }

    /// Has a map rewrite a row.
    pub fn map_row<M: RowMap>(&mut self, map: &M, plane: u32, row: u32)
        requires row { row < self.old.height }
        requires plane { plane < 4 }
        ensures mapped { self.new ≡ record self.old { rows = slice_set self.old.rows row (row_by self.old.width (M.value map.now plane (row_of self.old row))) } }
        ensures small { (c : ℕ) → c < self.old.width → M.value map.now plane (row_of self.old row) c < 256 }
    {
        let at = place_of(self.geometry, row);
        let count = self.geometry.width as usize;
        self.page.map(at, count, map, plane);
    }

    /// Replaces one sample.
    pub fn set(&mut self, row: u32, column: u32, value: u8)
        requires row { row < self.old.height }
        requires column { column < self.old.width }
        ensures { self.new ≡ record self.old { rows = slice_set self.old.rows row (slice_set (row_of self.old row) column value) } }
    {
        let at = place_of(self.geometry, row) + column as usize;
        self.page.write(at, &[value]);
    }

    /// Keeps the window of `width` columns and `height` rows that begins in the column `x` and the row `y`. No sample is
    /// copied.
    pub fn window(&mut self, x: u32, y: u32, width: u32, height: u32)
        requires some { 0 < height }
        requires columns { x + width ≤ self.old.width }
        requires rows { y + height ≤ self.old.height }
        ensures { self.new ≡ raster_by width height (λ r c. sample_of self.old (y + r) (x + c)) }
    {
        self.geometry = window_of(self.geometry, x, y, width, height);
    }

    /// Puts the rows in the other order. No sample is copied.
    pub fn upside_down(&mut self)
        ensures { self.new ≡ raster_by self.old.width self.old.height (λ r c. sample_of self.old ((self.old.height - 1) - r) c) }
    {
        self.geometry = upside_down_of(self.geometry);
    }
}
