//! Pictures whose rows are mapped in place.
ghost use Rattle.std.specs.Prelude.{◌≡◌, IfOk, IfErr};
ghost use Rattle.av_frame.specs.Frames.{IsFrame, plane_at};
ghost use Rattle.av_frame.specs.Pictures.{repainted};
ghost use Rattle.av_frame.specs.Rasters.{row_of};

use av_frame::{Frame, Pools, Returned, RowMap, map_rows};
use std::alloc::Global;

/// The frame with each row mapped.
///
/// # Errors
/// Out of memory, with a frame of equal value.
pub fn map_frame<M: RowMap>(
    alloc: Global,
    pools: &mut Pools,
    frame: Frame,
    map: &M,
) -> Result<Frame, Returned>
    ensures frame { IsFrame frame }
    ensures made { IfOk result (λ y. y ≡ repainted (λ x p r c. M.value map.now p (row_of (plane_at x.planes p) r) c) frame) }
    ensures returned { IfErr result (λ e. e.frame ≡ frame) }
{
    let pts = frame.pts();
    let duration = frame.duration();
    let mut edit = match frame.edit(alloc, pools) {
        Ok(edit) => edit,
        Err(unedited) => {
            return Err(Returned {
                frame: unedited.frame,
            });
        }
    };
    map_rows(&mut edit, map);
    Ok(edit.seal(pts, duration))
}
