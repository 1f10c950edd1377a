//! The chroma grid: where a column and a row of a picture are in each of its planes.
ghost use Rattle.std.specs.Prelude.{◌≡◌};
ghost use Rattle.av_base.specs.Shapes.{IsLawful, IsVideo};
ghost use Rattle.av_frame.specs.Grid.{step_across, step_down, column_in, row_in};

use av_base::{Format, PixelFormat, Shape};

/// How many columns and how many rows of the picture a sample of chroma covers: 1 or 2 each.
pub fn chroma_step(shape: Shape) -> (u32, u32)
    requires lawful { IsLawful shape }
    requires video { IsVideo shape.format }
    ensures across { result.0 ≡ step_across shape }
    ensures down { result.1 ≡ step_down shape }
{
    match shape.format {
        Format::Video(PixelFormat::Yuv420p | PixelFormat::Yuva420p) => (2, 2),
        Format::Video(PixelFormat::Yuv422p | PixelFormat::Yuva422p) => (2, 1),
        Format::Video(PixelFormat::Gray | PixelFormat::Yuv444p | PixelFormat::Yuva444p) => (1, 1),
        Format::Audio(_) => unreachable!(),
    }
}

/// The column and the row of a plane in which the column `x` and the row `y` of the picture are.
pub fn place_in(shape: Shape, plane: u32, x: u32, y: u32) -> (u32, u32)
    requires lawful { IsLawful shape }
    requires video { IsVideo shape.format }
    ensures column { result.0 ≡ column_in shape plane x }
    ensures row { result.1 ≡ row_in shape plane y }
{
    if plane == 1 || plane == 2 {
        let (across, down) = chroma_step(shape);
        (x / across, y / down)
    } else {
        (x, y)
    }
}
