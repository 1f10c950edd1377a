//! Maps of rows in place.
ghost use Rattle.std.specs.Prelude.{◌≡◌, ℕ, List, ◌<◌, length, slice_index, slice_set};
ghost use Rattle.av_base.specs.Shapes.{planes_of, columns_of, rows_of};
ghost use Rattle.av_frame.specs.Rasters.{row_of, raster_by};
ghost use Rattle.av_frame.specs.Frames.{plane_at, planes_by};

use crate::edit::Edit;

/// What becomes of each sample of a row, by the samples that the row has.
pub trait RowMap: Sync {
    /// The new sample of a plane, by the samples of its row and a column.
    ghost value: { Self → ℕ → List ℕ → ℕ → ℕ };

    /// Rewrites a row.
    fn map_row(&self, plane: u32, row: &mut [u8])
        requires { plane < 4 }
        ensures { (c : ℕ) → c < length row.old → slice_index row.new c ≡ value self.now plane row.old c };
}

/// Maps the rows of a plane in place.
fn map_plane<M: RowMap>(edit: &mut Edit, map: &M, plane: u32)
    requires plane { plane < planes_of edit.old.shape }
    ensures { edit.new ≡ record edit.old {
      planes = slice_set edit.old.planes plane
          (raster_by (columns_of edit.old.shape plane) (rows_of edit.old.shape plane) (λ r c. M.value map.now plane (row_of (plane_at edit.old.planes plane) r) c));
    } }
{
    let (_columns, rows) = edit.shape().plane_size(plane);
    for row in 0..rows {
        edit.map_row(map, plane, row);
    }
}

/// Maps every row of the picture in place.
pub fn map_rows<M: RowMap>(edit: &mut Edit, map: &M)
    ensures { edit.new ≡ record edit.old { planes = planes_by edit.old.shape (λ p r c. M.value map.now p (row_of (plane_at edit.old.planes p) r) c) } }
{
    for plane in 0..edit.shape().planes() {
        map_plane(edit, map, plane);
    }
}
