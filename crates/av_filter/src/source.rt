//! What maps read of the first source, which is the only one of most.
ghost use Rattle.std.specs.Prelude.{◌≡◌, ◌+◌, ◌<◌, ◌≤◌, ℕ, pos, length, slice_index};
ghost use Rattle.av_base.specs.Shapes.{planes_of, columns_of, rows_of};
ghost use Rattle.av_frame.specs.Sources.{source_at};
ghost use Rattle.av_frame.specs.Pictures.{sample};
ghost use Rattle.av_filter.specs.Places.{HasPlace};

use av_frame::Frame;

/// How many columns and rows a plane has.
pub fn size_of(sources: &[Frame], plane: u32) -> (u32, u32)
    requires some { 0 < length sources.now }
    requires plane { plane < planes_of (source_at sources.now 0).shape }
    ensures columns { result.0 ≡ columns_of (source_at sources.now 0).shape plane }
    ensures rows { result.1 ≡ rows_of (source_at sources.now 0).shape plane }
{
    sources[0].shape().plane_size(plane)
}

/// One sample.
pub fn read_sample(sources: &mut [Frame], plane: u32, row: u32, column: u32) -> i32
    requires { HasPlace sources.old plane row column }
    ensures sample { result ≡ pos (sample (source_at sources.old 0) plane row column) }
    ensures small { sample (source_at sources.old 0) plane row column < 256 }
    ensures same { sources.new ≡ sources.old }
{
    let source = &mut sources[0];
    let _shape = source.shape();
    source.sample(plane, row, column)
}

/// Copies samples of a row, from a column on, into all of `out`.
pub fn read_part(sources: &mut [Frame], plane: u32, row: u32, column: u32, out: &mut [u8])
    requires some { 0 < length sources.old }
    requires plane { plane < planes_of (source_at sources.old 0).shape }
    requires row { row < rows_of (source_at sources.old 0).shape plane }
    requires wide { column + length out.old ≤ columns_of (source_at sources.old 0).shape plane }
    ensures out { (c : ℕ) → c < length out.old → slice_index out.new c ≡ sample (source_at sources.old 0) plane row (column + c) }
    ensures same { sources.new ≡ sources.old }
{
    let source = &mut sources[0];
    let _shape = source.shape();
    source.part(plane, row, column, out);
}

/// Copies samples of a column, from a row on, into all of `out`.
pub fn read_column(sources: &mut [Frame], plane: u32, row: u32, column: u32, out: &mut [u8])
    requires some { 0 < length sources.old }
    requires plane { plane < planes_of (source_at sources.old 0).shape }
    requires column { column < columns_of (source_at sources.old 0).shape plane }
    requires high { row + length out.old ≤ rows_of (source_at sources.old 0).shape plane }
    ensures out { (i : ℕ) → i < length out.old → slice_index out.new i ≡ sample (source_at sources.old 0) plane (row + i) column }
    ensures same { sources.new ≡ sources.old }
{
    let source = &mut sources[0];
    let _shape = source.shape();
    source.column(plane, row, column, out);
}
