//! Rules without options and settings, whose output has the shape of their input.
ghost use Rattle.std.specs.Prelude.{◌≡◌, ◌⊎◌, ◌<◌, ◌^◌, ℕ, List, IfOk, IfErr, length};
ghost use Rattle.av_frame.specs.Frames.{FrameValue};
ghost use Rattle.av_base.specs.Shapes.{IsPictured};
ghost use Rattle.av_frame.specs.Rules.{SameTimes};
ghost use Rattle.av_filter.specs.Words.{is_text};

use crate::limits::check_shape;
use crate::options::{NoOptions, read_options};
use crate::rule::{FrameRule, NamedRule};
use av_base::{Format, List, Shape};
use av_frame::{ConfigError, Frame, OptionError, Pools, Returned};
use av_text::Arg;
use std::alloc::Global;

/// What a filter without options makes of each frame. There is one value of such a rule.
pub trait PlainRule: Copy + Drop {
    ghost name: { List ℕ };

    ghost only: { Self };

    ghost made: { FrameValue → FrameValue };

    /// Whether a word is the filter's name.
    fn is_named(word: &str) -> bool
        ensures { result ≡ is_text name word.now };

    /// The rule.
    fn new() -> Self
        ensures { result ≡ only };

    /// What is made of a frame.
    ///
    /// # Errors
    /// Out of memory, with a frame of equal value.
    fn remake(alloc: Global, pools: &mut Pools, frame: Frame) -> Result<Frame, Returned>
        requires { IsPictured frame.shape }
        ensures made { IfOk result (λ y. y ≡ made frame) }
        ensures returned { IfErr result (λ e. e.frame ≡ frame) };

    /// It is shown when the frame is.
    ghost keeps: { (x : FrameValue) → SameTimes x (made x) };

    /// It has the frame's shape.
    ghost shaped: { (x : FrameValue) → (made x).shape ≡ x.shape };
}

/// The settings of a filter that has none.
#[derive(Clone, Copy, Drop)]
pub struct Plain<P> {
    rule: P,
}

impl<P: PlainRule> FrameRule for Plain<P> {
    ghost use Rattle.av_filter.specs.Plains.{plain_making, plain_laws};

    type Options = NoOptions;

    ghost making = { plain_making P.only P.made };

    fn takes(_options: &NoOptions, _format: Format) -> bool {
        true
    }

    fn settle(_options: &NoOptions, shape: Shape) -> Result<Plain<P>, ConfigError> {
        check_shape(shape)?;
        Ok(Plain { rule: P::new() })
    }

    fn shape(&self, shape: Shape) -> Shape {
        shape
    }

    fn make(&self, alloc: Global, pools: &mut Pools, frame: Frame) -> Result<Frame, Returned> {
        P::remake(alloc, pools, frame)
    }

    ghost laws = { plain_laws P.only P.made P.keeps P.shaped };
}

impl<P: PlainRule> NamedRule for Plain<P> {
    ghost use Rattle.av_filter.specs.NoOptions.{no_rules};
    ghost use Rattle.av_filter.specs.Plains.{plain_one};

    ghost name = { P.name };

    ghost options = { no_rules };

    fn is_named(word: &str) -> bool {
        P::is_named(word)
    }

    fn read(alloc: Global, args: &List<Arg>) -> Result<NoOptions, OptionError> {
        read_options(alloc, args)
    }

    ghost one = { plain_one P.only P.made };
}
