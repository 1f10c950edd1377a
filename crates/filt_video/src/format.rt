//! The filter `format`: frames pass, whose format is one of a list.
use crate::format_list::read_formats;
use av_base::{Format, FormatSet, List, NoMemory, Shape};
use av_filter::{FrameRule, Framewise, NamedRule, Options, check_shape, read_options};
use av_frame::{ConfigError, Frame, OptionError, Pools, Returned};
use av_text::Arg;
use std::alloc::Global;

/// The filter `format`. Which formats may pass is settled before it is configured.
pub type FormatFilter = Framewise<FormatRule>;

/// The option `pix_fmts`, which has no default: names of pixel formats, joined by `|`. `BadValue` means that a part of a
/// value names no format, `MissingOption` that no list is given.
#[derive(Clone, Copy, Debug, PartialEq, Eq, Drop)]
pub struct FormatOptions {
    /// The formats that may pass, once they are given.
    pub pix_fmts: Option<FormatSet>,
}

/// Each frame is passed as it is.
#[derive(Clone, Copy, Drop)]
pub struct FormatRule;

impl Options for FormatOptions {
    ghost use Rattle.filt_video.specs.Formats.{format_rules};
    ghost use Rattle.filt_video.specs.FormatLaws.{format_numbers};

    ghost rules = { format_rules };

    fn count() -> u32 {
        1
    }

    fn numbered(name: &str) -> Option<u32> {
        match name {
            "pix_fmts" => Some(0),
            _ => None,
        }
    }

    fn defaults(_alloc: Global) -> Result<FormatOptions, NoMemory> {
        Ok(FormatOptions { pix_fmts: None })
    }

    fn set(&mut self, _alloc: Global, _option: u32, value: &str) -> Result<bool, NoMemory> {
        let Some(formats) = read_formats(value) else {
            return Ok(false);
        };
        self.pix_fmts = Some(formats);
        Ok(true)
    }

    fn complete(self, _arguments: u32) -> Result<FormatOptions, OptionError> {
        match self.pix_fmts {
            Some(_formats) => Ok(self),
            None => Err(OptionError::MissingOption),
        }
    }

    ghost numbers = { format_numbers };
}

impl FrameRule for FormatRule {
    ghost use Rattle.filt_video.specs.Formats.{format_making};
    ghost use Rattle.filt_video.specs.FormatLaws.{format_making_laws};

    type Options = FormatOptions;

    ghost making = { format_making };

    fn takes(options: &FormatOptions, format: Format) -> bool {
        match options.pix_fmts {
            Some(formats) => formats.has(format),
            None => false,
        }
    }

    #[tactic(auto, unfolding(crate::specs::Formats::format_outcome))]
    fn settle(_options: &FormatOptions, shape: Shape) -> Result<FormatRule, ConfigError> {
        check_shape(shape)?;
        Ok(FormatRule)
    }

    fn shape(&self, shape: Shape) -> Shape {
        shape
    }

    fn make(&self, _alloc: Global, _pools: &mut Pools, frame: Frame) -> Result<Frame, Returned> {
        Ok(frame)
    }

    ghost laws = { format_making_laws };
}

impl NamedRule for FormatRule {
    ghost use Rattle.std.specs.Prelude.{codes};
    ghost use Rattle.filt_video.specs.Formats.{format_rules};
    ghost use Rattle.filt_video.specs.FormatLaws.{format_reading_laws};

    ghost name = { codes "format" };

    ghost options = { format_rules };

    fn is_named(word: &str) -> bool {
        word == "format"
    }

    fn read(alloc: Global, args: &List<Arg>) -> Result<FormatOptions, OptionError> {
        read_options(alloc, args)
    }

    ghost one = { format_reading_laws };
}
