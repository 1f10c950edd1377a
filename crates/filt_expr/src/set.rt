//! The filters of this crate as one set of rules.
use crate::crop::CropSettings;
use crate::lutyuv::LutyuvSettings;
use crate::pad::PadSettings;
use av_base::{Format, List, Shape};
use av_filter::{FrameRule, One, Or, RuleSet};
use av_frame::{ConfigError, Frame, OptionError, Pools, Returned};
use av_text::Arg;
use std::alloc::Global;

/// The rules, in the order of their names.
type Rules = Or<CropSettings, Or<LutyuvSettings, One<PadSettings>>>;

/// Options of one of these filters.
#[derive(Drop)]
pub struct ExprOptions {
    options: <Rules as FrameRule>::Options,
}

/// Settings of one of these filters.
#[derive(Clone, Copy, Drop)]
pub struct ExprSettings {
    rule: Rules,
}

impl FrameRule for ExprSettings {
    ghost use Rattle.filt_expr.specs.ExprFilters.{expr_filters};
    ghost use Rattle.filt_expr.specs.ExprFilterLaws.{expr_filter_laws};

    type Options = ExprOptions;

    ghost making = { expr_filters.making };

    fn takes(options: &ExprOptions, format: Format) -> bool {
        Rules::takes(&options.options, format)
    }

    fn settle(options: &ExprOptions, shape: Shape) -> Result<ExprSettings, ConfigError> {
        let rule = Rules::settle(&options.options, shape)?;
        Ok(ExprSettings { rule })
    }

    fn shape(&self, shape: Shape) -> Shape {
        self.rule.shape(shape)
    }

    fn make(&self, alloc: Global, pools: &mut Pools, frame: Frame) -> Result<Frame, Returned> {
        self.rule.make(alloc, pools, frame)
    }

    ghost laws = { expr_filter_laws.making };
}

impl RuleSet for ExprSettings {
    ghost use Rattle.filt_expr.specs.ExprFilters.{expr_filters};
    ghost use Rattle.filt_expr.specs.ExprFilterLaws.{expr_filter_laws};

    ghost contains = { expr_filters.contains };

    ghost reads = { expr_filters.reads };

    fn is_name(word: &str) -> bool {
        Rules::is_name(word)
    }

    fn read_named(alloc: Global, word: &str, args: &List<Arg>) -> Result<ExprOptions, OptionError> {
        let options = Rules::read_named(alloc, word, args)?;
        Ok(ExprOptions { options })
    }

    ghost one_reading = { expr_filter_laws.one_reading };

    ghost one_outcome = { expr_filter_laws.one_outcome };
}
