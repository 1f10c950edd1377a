//! Formats on both sides of a relation.
ghost use Rattle.std.specs.Prelude.{◌≡◌, ◌≢◌, Some, MatchOption};
ghost use Rattle.av_base.specs.declared.formats.Format.{Format};
ghost use Rattle.graph_formats.specs.Assignments.{with_alpha_of};
ghost use Rattle.graph_formats.specs.Demands.{Names};
ghost use Rattle.graph_formats.specs.Walks.{IsAcross, IsApart};

use crate::request::Relation;
use av_base::{Format, PixelFormat};

/// The format with the planes of this one and an alpha plane, if there is one.
pub(crate) fn with_alpha(format: Format) -> Option<Format>
    ensures { result ≡ with_alpha_of format }
{
    match format {
        Format::Video(PixelFormat::Yuv420p) => Some(Format::Video(PixelFormat::Yuva420p)),
        Format::Video(PixelFormat::Yuv422p) => Some(Format::Video(PixelFormat::Yuva422p)),
        Format::Video(PixelFormat::Yuv444p) => Some(Format::Video(PixelFormat::Yuva444p)),
        _ => None,
    }
}

/// The format with the planes of this one but for the alpha plane, if there is one.
fn without_alpha(format: Format) -> Option<Format>
    ensures { MatchOption result ((f : Format) → with_alpha_of f ≢ Some format) (λ f. with_alpha_of f ≡ Some format) }
{
    match format {
        Format::Video(PixelFormat::Yuva420p) => Some(Format::Video(PixelFormat::Yuv420p)),
        Format::Video(PixelFormat::Yuva422p) => Some(Format::Video(PixelFormat::Yuv422p)),
        Format::Video(PixelFormat::Yuva444p) => Some(Format::Video(PixelFormat::Yuv444p)),
        _ => None,
    }
}

/// The other link of a relation that names a link, and the format that it has if the link has this one.
pub(crate) fn across(relation: Relation, link: u32, format: Format) -> Option<(u32, Format)>
    requires { Names relation link }
    ensures { MatchOption result (IsApart relation link format) (λ o. IsAcross relation link format o.0 o.1) }
{
    match relation {
        Relation::Same { a, b } => {
            let other = if link == a { b } else { a };
            Some((other, format))
        }
        Relation::WithAlpha { plain, alpha } => {
            if link == plain {
                Some((alpha, with_alpha(format)?))
            } else {
                Some((plain, without_alpha(format)?))
            }
        }
    }
}
