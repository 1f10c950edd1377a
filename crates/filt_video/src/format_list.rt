//! Lists of formats.
ghost use Rattle.std.specs.Prelude.{◌≡◌, IfSome, IsNone};
ghost use Rattle.av_base.specs.declared.sets.FormatSet.{FormatSet};
ghost use Rattle.av_filter.specs.Words.{word_in};
ghost use Rattle.filt_video.specs.Formats.{format_words, IsFormatList};

use av_base::{Format, FormatSet, PixelFormat};

/// The format that a name means.
fn named(name: &str) -> Option<PixelFormat>
    ensures { result ≡ word_in format_words name.now }
{
    match name {
        "gray" => Some(PixelFormat::Gray),
        "yuv420p" => Some(PixelFormat::Yuv420p),
        "yuv422p" => Some(PixelFormat::Yuv422p),
        "yuv444p" => Some(PixelFormat::Yuv444p),
        "yuva420p" => Some(PixelFormat::Yuva420p),
        "yuva422p" => Some(PixelFormat::Yuva422p),
        "yuva444p" => Some(PixelFormat::Yuva444p),
        _ => None,
    }
}

/// The formats whose names are in a text, joined by `|`. None if something else is there.
pub(crate) fn read_formats(text: &str) -> Option<FormatSet>
    ensures found { IfSome result (IsFormatList text.now) }
    ensures none { IsNone result → (set : FormatSet) → ¬ IsFormatList text.now set }
{
    let mut formats = FormatSet::empty();
    'reading: for name in text.split('|') {
        let Some(pixels) = named(name) else {
            return None;
        };
        formats = formats.with(Format::Video(pixels));
    }
    Some(formats)
}
