//! The filters of this crate as one set of rules.
use crate::format::FormatRule;
use crate::hflip::HflipRule;
use crate::negate::NegateRule;
use crate::null::NullRule;
use crate::shuffleplanes::PlaneOrder;
use crate::transpose::TransposeSettings;
use crate::vflip::VflipRule;
use av_base::{Format, List, Shape};
use av_filter::{FrameRule, Or, Plain, RuleSet};
use av_frame::{ConfigError, Frame, OptionError, Pools, Returned};
use av_text::Arg;
use std::alloc::Global;

/// The rules, in the order of their names. The last has no options.
type Rules = Or<
    FormatRule,
    Or<
        Plain<HflipRule>,
        Or<
            Plain<NegateRule>,
            Or<Plain<NullRule>, Or<PlaneOrder, Or<TransposeSettings, Plain<VflipRule>>>>,
        >,
    >,
>;

/// Options of one of these filters.
#[derive(Drop)]
pub struct VideoOptions {
    options: <Rules as FrameRule>::Options,
}

/// Settings of one of these filters.
#[derive(Clone, Copy, Drop)]
pub struct VideoSettings {
    rule: Rules,
}

impl FrameRule for VideoSettings {
    ghost use Rattle.filt_video.specs.VideoFilters.{video_filters};
    ghost use Rattle.filt_video.specs.VideoFilterLaws.{video_filter_laws};

    type Options = VideoOptions;

    ghost making = { video_filters.making };

    fn takes(options: &VideoOptions, format: Format) -> bool {
        Rules::takes(&options.options, format)
    }

    fn settle(options: &VideoOptions, shape: Shape) -> Result<VideoSettings, ConfigError> {
        let rule = Rules::settle(&options.options, shape)?;
        Ok(VideoSettings { rule })
    }

    fn shape(&self, shape: Shape) -> Shape {
        self.rule.shape(shape)
    }

    fn make(&self, alloc: Global, pools: &mut Pools, frame: Frame) -> Result<Frame, Returned> {
        self.rule.make(alloc, pools, frame)
    }

    ghost laws = { video_filter_laws.making };
}

impl RuleSet for VideoSettings {
    ghost use Rattle.filt_video.specs.VideoFilters.{video_filters};
    ghost use Rattle.filt_video.specs.VideoFilterLaws.{video_filter_laws};

    ghost contains = { video_filters.contains };

    ghost reads = { video_filters.reads };

    fn is_name(word: &str) -> bool {
        Rules::is_name(word)
    }

    fn read_named(
        alloc: Global,
        word: &str,
        args: &List<Arg>,
    ) -> Result<VideoOptions, OptionError> {
        let options = Rules::read_named(alloc, word, args)?;
        Ok(VideoOptions { options })
    }

    ghost one_reading = { video_filter_laws.one_reading };

    ghost one_outcome = { video_filter_laws.one_outcome };
}
