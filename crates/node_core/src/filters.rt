//! The filters that work frame by frame: the sets of all crates of filters, as one set of rules.
use av_base::{Format, List, Shape};
use av_filter::{FrameRule, RuleSet, Sets};
use av_frame::{ConfigError, Frame, OptionError, Pools, Returned};
use av_text::Arg;
use filt_expr::ExprSettings;
use filt_video::VideoSettings;
use std::alloc::Global;

/// The sets of rules, one for each crate of filters.
type Rules = Sets<ExprSettings, VideoSettings>;

/// Options of one of these filters.
#[derive(Drop)]
pub struct FrameOptions {
    options: <Rules as FrameRule>::Options,
}

/// The rules of these filters.
#[derive(Clone, Copy, Drop)]
pub struct FrameFilters {
    rule: Rules,
}

impl FrameRule for FrameFilters {
    ghost use Rattle.node_core.specs.Filters.{frame_filters};
    ghost use Rattle.node_core.specs.FilterLaws.{frame_filter_laws};

    type Options = FrameOptions;

    ghost making = { frame_filters.making };

    fn takes(options: &FrameOptions, format: Format) -> bool {
        Rules::takes(&options.options, format)
    }

    fn settle(options: &FrameOptions, shape: Shape) -> Result<FrameFilters, ConfigError> {
        let rule = Rules::settle(&options.options, shape)?;
        Ok(FrameFilters { rule })
    }

    fn shape(&self, shape: Shape) -> Shape {
        self.rule.shape(shape)
    }

    fn make(&self, alloc: Global, pools: &mut Pools, frame: Frame) -> Result<Frame, Returned> {
        self.rule.make(alloc, pools, frame)
    }

    ghost laws = { frame_filter_laws.making };
}

impl RuleSet for FrameFilters {
    ghost use Rattle.node_core.specs.Filters.{frame_filters};
    ghost use Rattle.node_core.specs.FilterLaws.{frame_filter_laws};

    ghost contains = { frame_filters.contains };

    ghost reads = { frame_filters.reads };

    fn is_name(word: &str) -> bool {
        Rules::is_name(word)
    }

    fn read_named(
        alloc: Global,
        word: &str,
        args: &List<Arg>,
    ) -> Result<FrameOptions, OptionError> {
        let options = Rules::read_named(alloc, word, args)?;
        Ok(FrameOptions { options })
    }

    ghost one_reading = { frame_filter_laws.one_reading };

    ghost one_outcome = { frame_filter_laws.one_outcome };
}
