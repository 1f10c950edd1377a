//! Whether two shapes are equal.
ghost use Rattle.std.specs.Prelude.{◌≡◌, ◌↔◌, IsTrue};

use av_base::{AudioProps, Format, Props, Shape, VideoProps};

/// Whether two shapes are equal.
pub(crate) fn are_equal(a: Shape, b: Shape) -> bool
    ensures { IsTrue result ↔ (a ≡ b) }
{
    same_format(a.format, b.format) && same_props(a.props, b.props)
}

fn same_format(a: Format, b: Format) -> bool
    ensures { IsTrue result ↔ (a ≡ b) }
{
    a == b
}

fn same_props(a: Props, b: Props) -> bool
    ensures { IsTrue result ↔ (a ≡ b) }
{
    match (a, b) {
        (Props::Video(a), Props::Video(b)) => same_video(a, b),
        (Props::Audio(a), Props::Audio(b)) => same_audio(a, b),
        _ => false,
    }
}

fn same_video(a: VideoProps, b: VideoProps) -> bool
    ensures { IsTrue result ↔ (a ≡ b) }
{
    a == b
}

fn same_audio(a: AudioProps, b: AudioProps) -> bool
    ensures { IsTrue result ↔ (a ≡ b) }
{
    a == b
}
