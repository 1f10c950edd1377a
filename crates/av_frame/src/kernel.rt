//! Pictures that are made sample by sample, or row by row.
ghost use Rattle.std.specs.Prelude.{◌≡◌, ℕ, List, ◌+◌, ◌*◌, ◌<◌, ◌≤◌, ◌^◌, pos, length, slice_index, slice_set};
ghost use Rattle.av_base.specs.Shapes.{planes_of, columns_of, rows_of};
ghost use Rattle.av_frame.specs.Rasters.{raster_by};
ghost use Rattle.av_frame.specs.Frames.{FrameValue, planes_by};

use crate::edit::Edit;
use crate::frame::Frame;

/// The most rows that a band has.
const BAND: u32 = 32;

/// The widest rows that are made in bands.
const WIDEST: u32 = 4096;

/// What each sample of a new picture is, as an equation on the samples of its sources. These are a slice and not a list, as a
/// single frame is lent as a slice (`std::slice::from_mut`), while a list would be built for each frame.
pub trait Kernel: Sync {
    /// Whether the equation has a value in a plane, a row and a column, from these sources.
    ghost fits: { Self → List FrameValue → ℕ → ℕ → ℕ → Type 0 };

    /// The value in a plane, a row and a column.
    ghost value: { Self → List FrameValue → ℕ → ℕ → ℕ → ℕ };

    /// One sample.
    fn at(&self, sources: &mut [Frame], plane: u32, row: u32, column: u32) -> i32
        requires { fits self.now sources.old plane row column }
        ensures value { result ≡ pos (value self.now sources.old plane row column) }
        ensures same { sources.new ≡ sources.old };

    /// The first samples of a row, as many as `out` has room for. A kernel that has a faster way gives it here.
    fn row(&self, sources: &mut [Frame], plane: u32, row: u32, out: &mut [u8])
        requires wide { length out.old < 2 ^ 32 }
        requires fits { (c : ℕ) → c < length out.old → fits self.now sources.old plane row c }
        requires small { (c : ℕ) → c < length out.old → value self.now sources.old plane row c < 256 }
        ensures out { (c : ℕ) → c < length out.old → slice_index out.new c ≡ value self.now sources.old plane row c }
        ensures same { sources.new ≡ sources.old }
    {
        for column in 0..out.len() {
            out[column] = self.at(sources, plane, row, column as u32) as u8;
        }
    }

    /// The samples of a column from a row on, as many as `out` has room for. A kernel that has columns gives its faster way here.
    fn column(&self, sources: &mut [Frame], plane: u32, row: u32, column: u32, out: &mut [u8])
        requires high { row + length out.old < 2 ^ 32 }
        requires fits { (i : ℕ) → i < length out.old → fits self.now sources.old plane (row + i) column }
        requires small { (i : ℕ) → i < length out.old → value self.now sources.old plane (row + i) column < 256 }
        ensures out { (i : ℕ) → i < length out.old → slice_index out.new i ≡ value self.now sources.old plane (row + i) column }
        ensures same { sources.new ≡ sources.old }
    {
        for i in 0..out.len() {
            out[i] = self.at(sources, plane, row + i as u32, column) as u8;
        }
    }

    /// Whether samples are made faster by columns than by rows.
    fn has_columns(&self) -> bool {
        false
    }
}

/// Gives every sample of a plane the kernel's value, row by row. Each row is made where it stays.
fn paint_rows<K: Kernel>(edit: &mut Edit, kernel: &K, sources: &mut [Frame], plane: u32)
    requires plane { plane < planes_of edit.old.shape }
    requires fits { (r c : ℕ) → r < rows_of edit.old.shape plane → c < columns_of edit.old.shape plane → K.fits kernel.now sources.old plane r c }
    requires small { (r c : ℕ) → r < rows_of edit.old.shape plane → c < columns_of edit.old.shape plane → K.value kernel.now sources.old plane r c < 256 }
    ensures painted { edit.new ≡ record edit.old {
      planes = slice_set edit.old.planes plane
          (raster_by (columns_of edit.old.shape plane) (rows_of edit.old.shape plane) (K.value kernel.now sources.old plane));
    } }
    ensures same { sources.new ≡ sources.old }
{
    let (_columns, rows) = edit.shape().plane_size(plane);
    for row in 0..rows {
        edit.paint_row(kernel, sources, plane, row);
    }
}

/// Makes the columns of `count` rows from `row` on. In a band, each column begins 32 bytes after the one before it.
fn read_band<K: Kernel>(
    kernel: &K,
    sources: &mut [Frame],
    plane: u32,
    row: u32,
    count: u32,
    columns: u32,
    band: &mut [u8],
)
    requires few { count ≤ 32 }
    requires high { row + count < 2 ^ 32 }
    requires room { columns * 32 ≤ length band.old }
    requires fits { (i c : ℕ) → i < count → c < columns → K.fits kernel.now sources.old plane (row + i) c }
    requires small { (i c : ℕ) → i < count → c < columns → K.value kernel.now sources.old plane (row + i) c < 256 }
    ensures band { (i c : ℕ) → i < count → c < columns → slice_index band.new (c * 32 + i) ≡ K.value kernel.now sources.old plane (row + i) c }
    ensures same { sources.new ≡ sources.old }
{
    for column in 0..columns {
        let at = column as usize * 32;
        kernel.column(
            sources,
            plane,
            row,
            column,
            &mut band[at..at + count as usize],
        );
    }
}

/// Copies a row of a band.
fn copy_row(band: &[u8], row: u32, out: &mut [u8])
    requires row { row < 32 }
    requires room { length out.old * 32 ≤ length band.now }
    ensures { (c : ℕ) → c < length out.old → slice_index out.new c ≡ slice_index band.now (c * 32 + row) }
{
    for column in 0..out.len() {
        out[column] = band[column * 32 + row as usize];
    }
}

/// Gives every sample of a plane the kernel's value, by bands of columns. So the short parts of a source that a band is made of
/// stay in the cache.
fn paint_bands<K: Kernel>(edit: &mut Edit, kernel: &K, sources: &mut [Frame], plane: u32)
    requires plane { plane < planes_of edit.old.shape }
    requires wide { columns_of edit.old.shape plane ≤ 4096 }
    requires fits { (r c : ℕ) → r < rows_of edit.old.shape plane → c < columns_of edit.old.shape plane → K.fits kernel.now sources.old plane r c }
    requires small { (r c : ℕ) → r < rows_of edit.old.shape plane → c < columns_of edit.old.shape plane → K.value kernel.now sources.old plane r c < 256 }
    ensures painted { edit.new ≡ record edit.old {
      planes = slice_set edit.old.planes plane
          (raster_by (columns_of edit.old.shape plane) (rows_of edit.old.shape plane) (K.value kernel.now sources.old plane));
    } }
    ensures same { sources.new ≡ sources.old }
{
    let (columns, rows) = edit.shape().plane_size(plane);
    let mut band = [0u8; BAND as usize * WIDEST as usize];
    let mut samples = [0u8; WIDEST as usize];
    let line = &mut samples[..columns as usize];
    for number in 0..rows.div_ceil(BAND) {
        let row = number * BAND;
        let count = BAND.min(rows - row);
        read_band(kernel, sources, plane, row, count, columns, &mut band);
        for i in 0..count {
            copy_row(&band, i, line);
            edit.set_row(plane, row + i, line);
        }
    }
}

/// Gives every sample of a plane the kernel's value.
fn paint_plane<K: Kernel>(edit: &mut Edit, kernel: &K, sources: &mut [Frame], plane: u32)
    requires plane { plane < planes_of edit.old.shape }
    requires fits { (r c : ℕ) → r < rows_of edit.old.shape plane → c < columns_of edit.old.shape plane → K.fits kernel.now sources.old plane r c }
    requires small { (r c : ℕ) → r < rows_of edit.old.shape plane → c < columns_of edit.old.shape plane → K.value kernel.now sources.old plane r c < 256 }
    ensures painted { edit.new ≡ record edit.old {
      planes = slice_set edit.old.planes plane
          (raster_by (columns_of edit.old.shape plane) (rows_of edit.old.shape plane) (K.value kernel.now sources.old plane));
    } }
    ensures same { sources.new ≡ sources.old }
{
    let (columns, _rows) = edit.shape().plane_size(plane);
    if kernel.has_columns() && columns <= WIDEST {
        paint_bands(edit, kernel, sources, plane);
    } else {
        paint_rows(edit, kernel, sources, plane);
    }
}

/// Gives every sample of the picture the kernel's value.
pub fn paint<K: Kernel>(edit: &mut Edit, kernel: &K, sources: &mut [Frame])
    requires fits { (p r c : ℕ) → p < planes_of edit.old.shape → r < rows_of edit.old.shape p → c < columns_of edit.old.shape p → K.fits kernel.now sources.old p r c }
    requires small { (p r c : ℕ) → p < planes_of edit.old.shape → r < rows_of edit.old.shape p → c < columns_of edit.old.shape p → K.value kernel.now sources.old p r c < 256 }
    ensures painted { edit.new ≡ record edit.old { planes = planes_by edit.old.shape (K.value kernel.now sources.old) } }
    ensures same { sources.new ≡ sources.old }
{
    for plane in 0..edit.shape().planes() {
        paint_plane(edit, kernel, sources, plane);
    }
}
