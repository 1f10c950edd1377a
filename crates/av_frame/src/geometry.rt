//! Where the rows of a plane are among its bytes.
ghost use Rattle.std.specs.Prelude.{◌≡◌, ◌+◌, ◌*◌, ◌^◌, ◌<◌, ◌≤◌};
ghost use Rattle.av_frame.specs.Geometries.{place, skipped, window_at, upside_down_at};

/// Where the rows are. Every offset into a plane's bytes is computed from this record, and nowhere else.
/// All numbers are in bytes, which are samples of eight bits.
#[derive(Clone, Copy, Debug, PartialEq, Eq)]
pub struct Geometry {
    /// The place of the row that lies lowest among the bytes.
    pub offset: u32,
    /// From the start of one row to the start of the next.
    pub stride: u32,
    /// Samples in a row.
    pub width: u32,
    /// Rows.
    pub height: u32,
    /// Whether the picture's last row is the one that lies lowest.
    pub bottom_up: bool,
}

/// The place of the first sample of a row.
pub fn place_of(geometry: Geometry, row: u32) -> usize
    requires { row < geometry.height }
    ensures { result ≡ place geometry row }
{
    let line = if geometry.bottom_up {
        geometry.height - 1 - row
    } else {
        row
    };
    geometry.offset as usize + geometry.stride as usize * line as usize
}

/// How many rows outside of a window lie before its first one among the bytes.
fn skipped_of(geometry: Geometry, y: u32, height: u32) -> u32
    requires { y + height ≤ geometry.height }
    ensures { result ≡ skipped geometry y height }
{
    if geometry.bottom_up {
        geometry.height - y - height
    } else {
        y
    }
}

/// Where the rows of a window are, which begins in the column `x` and the row `y`.
pub fn window_of(geometry: Geometry, x: u32, y: u32, width: u32, height: u32) -> Geometry
    requires columns { x + width ≤ geometry.width }
    requires rows { y + height ≤ geometry.height }
    requires small { geometry.offset + x + geometry.stride * skipped geometry y height < 2 ^ 32 }
    ensures { result ≡ window_at geometry x y width height }
{
    let skipped = skipped_of(geometry, y, height);
    Geometry {
        offset: geometry.offset + x + geometry.stride * skipped,
        stride: geometry.stride,
        width,
        height,
        bottom_up: geometry.bottom_up,
    }
}

/// Where the rows are, read in the other order.
pub fn upside_down_of(geometry: Geometry) -> Geometry
    ensures { result ≡ upside_down_at geometry }
{
    Geometry {
        bottom_up: !geometry.bottom_up,
        ..geometry
    }
}
