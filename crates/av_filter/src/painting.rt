//! New pictures that kernels paint of one frame.
ghost use Rattle.std.specs.Prelude.{◌≡◌, ◌<◌, ℕ, [], ◌∷◌, IfOk, IfErr};
ghost use Rattle.av_base.specs.Shapes.{planes_of, rows_of, columns_of, IsPictured};
ghost use Rattle.av_frame.specs.Pictures.{painted};

use av_base::{NoMemory, Shape};
use av_frame::{Edit, Frame, Kernel, Pools, Returned, paint};
use std::alloc::Global;
use std::slice;

/// The picture of a shape that a kernel paints of a frame.
fn paint_picture<K: Kernel>(
    alloc: Global,
    pools: &mut Pools,
    frame: &mut Frame,
    out_shape: Shape,
    kernel: &K,
) -> Result<Frame, NoMemory>
    requires pictured { IsPictured out_shape }
    requires fits { (p r c : ℕ) → p < planes_of out_shape → r < rows_of out_shape p → c < columns_of out_shape p → K.fits kernel.now (frame.old ∷ []) p r c }
    requires small { (p r c : ℕ) → p < planes_of out_shape → r < rows_of out_shape p → c < columns_of out_shape p → K.value kernel.now (frame.old ∷ []) p r c < 256 }
    ensures same { frame.new ≡ frame.old }
    ensures made { IfOk result (λ y. y ≡ painted (λ x. K.value kernel.now (x ∷ [])) out_shape frame.old) }
{
    let mut edit = Edit::blank(alloc, pools, out_shape, 0)?;
    // Any frame is lawful, by this call's contract.
    let _shape = frame.shape();
    let pts = frame.pts();
    let duration = frame.duration();
    paint(&mut edit, kernel, slice::from_mut(frame));
    Ok(edit.seal(pts, duration))
}

/// The picture of a shape that a kernel paints of a frame, shown when the frame is.
///
/// # Errors
/// Out of memory, with the frame.
pub fn paint_frame<K: Kernel>(
    alloc: Global,
    pools: &mut Pools,
    mut frame: Frame,
    out_shape: Shape,
    kernel: &K,
) -> Result<Frame, Returned>
    requires pictured { IsPictured out_shape }
    requires fits { (p r c : ℕ) → p < planes_of out_shape → r < rows_of out_shape p → c < columns_of out_shape p → K.fits kernel.now (frame ∷ []) p r c }
    requires small { (p r c : ℕ) → p < planes_of out_shape → r < rows_of out_shape p → c < columns_of out_shape p → K.value kernel.now (frame ∷ []) p r c < 256 }
    ensures made { IfOk result (λ y. y ≡ painted (λ x. K.value kernel.now (x ∷ [])) out_shape frame) }
    ensures returned { IfErr result (λ e. e.frame ≡ frame) }
{
    match paint_picture(alloc, pools, &mut frame, out_shape, kernel) {
        Ok(picture) => Ok(picture),
        Err(NoMemory) => Err(Returned { frame }),
    }
}
