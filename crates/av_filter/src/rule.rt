//! Rules of filters that make one frame of each.
//!
//! A rule holds the settings of its filter. A filter is given by its rule alone: its name, its options, the formats that
//! it takes, the outcome of its settings, the shape of its output and what it makes of a frame. Reading arguments,
//! configuring and running are written once for all rules (`framewise`).
ghost use Rattle.std.specs.Prelude.{◌≡◌, ◌↔◌, ◌⊎◌, ◌<◌, ◌^◌, ℕ, List, Ok, Err, IsTrue, IfOk, IfErr, length};
ghost use Rattle.av_base.specs.Shapes.{IsPictureShape};
ghost use Rattle.av_filter.specs.Words.{is_text};
ghost use Rattle.av_filter.specs.Meanings.{OptionRules, IsReading, Making, IsSettled, MakingLaws, ReadingLaws};
ghost use Rattle.av_frame.specs.declared.refusals.OptionError.TheVariants as option;

use av_base::{Format, List, Shape};
use av_frame::{ConfigError, Frame, OptionError, Pools, Returned};
use av_text::Arg;
use std::alloc::Global;

/// What a filter of one input makes of each frame, with its settings.
pub trait FrameRule: Copy + Drop {
    /// The options that settings come from.
    type Options: Drop;

    ghost making: { Making Self.Options Self };

    /// Whether a filter with these options takes frames of a format.
    fn takes(options: &Self::Options, format: Format) -> bool
        ensures { IsTrue result ↔ making.takes options.now format };

    /// The settings for pictures of a shape. It takes no memory.
    ///
    /// # Errors
    /// `NoValue` of the first option whose expression has no value; then what the filter's own checks find, `BadGeometry`
    /// or `SizeMismatch`; then `TooLarge` of its output.
    fn settle(options: &Self::Options, shape: Shape) -> Result<Self, ConfigError>
        requires picture { IsPictureShape shape }
        requires takes { making.takes options.now shape.format }
        ensures { making.settles options.now shape result };

    /// The shape of the output, for input of a shape.
    fn shape(&self, shape: Shape) -> Shape
        requires { IsSettled making shape self.now }
        ensures { result ≡ making.shape self.now shape };

    /// What is made of a frame.
    ///
    /// # Errors
    /// Out of memory, with a frame of equal value.
    fn make(&self, alloc: Global, pools: &mut Pools, frame: Frame) -> Result<Frame, Returned>
        requires { IsSettled making frame.shape self.now }
        ensures made { IfOk result (λ y. y ≡ making.made self.now frame) }
        ensures returned { IfErr result (λ e. e.frame ≡ frame) };

    ghost laws: { MakingLaws making };
}

/// The rule of a filter that graph texts name.
pub trait NamedRule: FrameRule {
    ghost name: { List ℕ };

    ghost options: { OptionRules Self.Options };

    /// Whether a word is the filter's name.
    fn is_named(word: &str) -> bool
        ensures { result ≡ is_text name word.now };

    /// Reads the filter's arguments.
    ///
    /// # Errors
    /// As `read_options` says.
    fn read(alloc: Global, args: &List<Arg>) -> Result<Self::Options, OptionError>
        requires { length args.now < 2 ^ 32 }
        ensures read { IfOk result (λ o. IsReading options args.now (Ok o)) }
        ensures refused { IfErr result (λ e. (e ≡ option.NoMemory) ⊎ IsReading options args.now (Err e)) };

    /// Arguments have exactly one reading, and options that were read exactly one outcome, always.
    ghost one: { ReadingLaws Self.making options };
}
