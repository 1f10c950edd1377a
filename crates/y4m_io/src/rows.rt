//! Rows of samples, many at a time.
ghost use Rattle.std.specs.Prelude.{◌≡◌, ◌+◌, ◌*◌, ◌<◌, ◌≤◌, ◌++◌, take, drop, length, slice_set};
ghost use Rattle.std.specs.List.{concat};
ghost use Rattle.av_base.specs.Shapes.{planes_of, columns_of, rows_of};
ghost use Rattle.av_frame.specs.Frames.{plane_at, IsPicture};

use av_frame::{Edit, Frame};

/// Replaces `count` rows of a plane from the row `first` on by the bytes, which are those rows one after another.
pub(crate) fn put_rows(edit: &mut Edit, plane: u32, first: u32, count: u32, bytes: &[u8])
    requires plane { plane < planes_of edit.old.shape }
    requires rows { first + count ≤ rows_of edit.old.shape plane }
    requires wide { length bytes.now ≡ count * columns_of edit.old.shape plane }
    ensures picture { IsPicture edit.new.shape edit.new.planes }
    ensures others { edit.new ≡ record edit.old { planes = slice_set edit.old.planes plane (plane_at edit.new.planes plane) } }
    ensures rows { concat (take (first + count) (plane_at edit.new.planes plane).rows) ≡ concat (take first (plane_at edit.old.planes plane).rows) ++ bytes.now }
{
    let (columns, _rows) = edit.shape().plane_size(plane);
    let width = columns as usize;
    for i in 0..count {
        let at = i as usize * width;
        edit.set_row(plane, first + i, &bytes[at..at + width]);
    }
}

/// Copies `count` rows of a plane from the row `first` on, one after another, into `out`.
pub(crate) fn copy_rows(frame: &mut Frame, plane: u32, first: u32, count: u32, out: &mut [u8])
    requires plane { plane < planes_of frame.old.shape }
    requires rows { first + count ≤ rows_of frame.old.shape plane }
    requires wide { length out.old ≡ count * columns_of frame.old.shape plane }
    ensures out { out.new ≡ concat (take count (drop first (plane_at frame.old.planes plane).rows)) }
    ensures same { frame.new ≡ frame.old }
{
    let (columns, _rows) = frame.shape().plane_size(plane);
    let width = columns as usize;
    for i in 0..count {
        let at = i as usize * width;
        frame.row(plane, first + i, &mut out[at..at + width]);
    }
}
