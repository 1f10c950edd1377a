//! Rows into which a part of another row is pasted.
ghost use Rattle.std.specs.Prelude.{◌≡◌, ◌<◌, ◌-◌, ◌^◌, ℕ, false, length, slice_index, if◌then◌else◌};
ghost use Rattle.av_base.specs.Shapes.{planes_of, rows_of, columns_of};
ghost use Rattle.av_frame.specs.Grid.{column_in, row_in};
ghost use Rattle.av_frame.specs.Pictures.{sample};
ghost use Rattle.av_frame.specs.Sources.{source_at};
ghost use Rattle.filt_expr.specs.Paste.{is_among};

use av_filter::{read_part, size_of};
use av_frame::{Frame, place_in};

/// Whether a place is one of `n` places from `first` on.
pub(crate) fn is_among(first: u32, n: u32, at: u32) -> bool
    ensures { result ≡ is_among first n at }
{
    first <= at && at - first < n
}

/// Gives each sample of a row one value.
pub(crate) fn fill(row: &mut [u8], value: u8)
    ensures { (c : ℕ) → c < length row.old → slice_index row.new c ≡ value }
{
    for sample in row.iter_mut() {
        *sample = value;
    }
}

/// Gives one value to the samples of a row that are not among the `columns` ones from `left` on.
pub(crate) fn fill_around(row: &mut [u8], left: u32, columns: u32, value: u8)
    ensures { (c : ℕ) → c < length row.old → is_among left columns c ≡ false → slice_index row.new c ≡ value }
{
    let begin = row.len().min(left as usize);
    let end = row.len().min(left as usize + columns as usize);
    fill(&mut row[..begin], value);
    fill(&mut row[end..], value);
}

/// Where the column `x` and the row `y` of the input are in a plane.
pub(crate) fn start_in(sources: &[Frame], plane: u32, x: u32, y: u32) -> (u32, u32)
    requires some { 0 < length sources.now }
    requires plane { plane < planes_of (source_at sources.now 0).shape }
    ensures columns { columns_of (source_at sources.now 0).shape plane < 2 ^ 32 }
    ensures rows { rows_of (source_at sources.now 0).shape plane < 2 ^ 32 }
    ensures column { result.0 ≡ column_in (source_at sources.now 0).shape plane x }
    ensures row { result.1 ≡ row_in (source_at sources.now 0).shape plane y }
{
    place_in(sources[0].shape(), plane, x, y)
}

/// Copies a row of the input into a row of the output, from a column on, as far as that goes.
pub(crate) fn copy_row(sources: &mut [Frame], plane: u32, row: u32, left: u32, out: &mut [u8])
    requires some { 0 < length sources.old }
    requires plane { plane < planes_of (source_at sources.old 0).shape }
    requires row { row < rows_of (source_at sources.old 0).shape plane }
    ensures out { (c : ℕ) → c < length out.old → slice_index out.new c
        ≡ (if is_among left (columns_of (source_at sources.old 0).shape plane) c then sample (source_at sources.old 0) plane row (c - left) else slice_index out.old c) }
    ensures same { sources.new ≡ sources.old }
{
    let (columns, _rows) = size_of(sources, plane);
    let begin = out.len().min(left as usize);
    let end = out.len().min(left as usize + columns as usize);
    read_part(sources, plane, row, 0, &mut out[begin..end]);
}
