//! Sets of rules, of which graph texts name one.
//!
//! A set is a list of types: `Or<A, Or<B, Plain<C>>>` has the rules `A`, `B` and `C`, the last of which has no options. Its
//! values are those of one of its rules, and it is itself a rule. So what is written once for rules serves all filters of a
//! program, and a new filter is one more type in the list. `Sets<A, B>` has the rules of two sets.
//!
//! The type of a list is long, and each statement on it writes the whole type out. So each crate of filters has its list in
//! a struct with one field, and only the struct's own calls are about the list.
ghost use Rattle.std.specs.Prelude.{◌≡◌, ◌⊎◌, ◌<◌, ◌^◌, ℕ, List, Bool, true, Result, Ok, Err, IfOk, IfErr, length};
ghost use Rattle.av_text.specs.declared.arguments.Arg.{Arg};
ghost use Rattle.av_filter.specs.Meanings.{HasOneReading, HasOneOutcome};
ghost use Rattle.av_frame.specs.declared.refusals.OptionError.{OptionError as TheOptionError};
ghost use Rattle.av_frame.specs.declared.refusals.OptionError.TheVariants as option;

use crate::options::{NoOptions, read_options};
use crate::plain::{Plain, PlainRule};
use crate::rule::{FrameRule, NamedRule};
use av_base::{Format, List, Shape};
use av_frame::{ConfigError, Frame, OptionError, Pools, Returned};
use av_text::Arg;
use std::alloc::Global;

/// A value of the first type, or one of the others.
#[derive(Clone, Copy, Drop)]
pub enum Or<A, B> {
    /// Of the first.
    First(A),
    /// Of the others.
    Other(B),
}

/// Rules of filters that graph texts name.
pub trait RuleSet: FrameRule {
    /// Whether a word is the name of one of the rules.
    ghost contains: { List ℕ → Bool };

    /// What arguments give the rule of a name.
    ghost reads: { List ℕ → List Arg → Result Self.Options TheOptionError → Type 0 };

    /// Whether a word is the name of one of the rules.
    fn is_name(word: &str) -> bool
        ensures { result ≡ contains word.now };

    /// Reads the arguments of the filter of a name.
    ///
    /// # Errors
    /// As `read_options` says.
    fn read_named(alloc: Global, word: &str, args: &List<Arg>) -> Result<Self::Options, OptionError>
        requires few { length args.now < 2 ^ 32 }
        requires named { contains word.now ≡ true }
        ensures read { IfOk result (λ o. reads word.now args.now (Ok o)) }
        ensures refused { IfErr result (λ e. (e ≡ option.NoMemory) ⊎ reads word.now args.now (Err e)) };

    /// Arguments of a filter that there is have exactly one reading, always.
    ghost one_reading: { (word : List ℕ) (args : List Arg) → contains word ≡ true → HasOneReading Self.making (reads word args) };

    /// Options that were read have exactly one outcome, always.
    ghost one_outcome: { (word : List ℕ) (args : List Arg) → HasOneOutcome Self.making (reads word args) };
}

/// A list ends with a rule without options.
impl<P: PlainRule> RuleSet for Plain<P> {
    ghost use Rattle.av_filter.specs.Words.{is_text};
    ghost use Rattle.av_filter.specs.Meanings.{IsReading};
    ghost use Rattle.av_filter.specs.NoOptions.{no_rules};
    ghost use Rattle.av_filter.specs.Plains.{plain_one};

    ghost contains = { λ word. is_text P.name word };

    ghost reads = { λ word args. IsReading no_rules args };

    fn is_name(word: &str) -> bool {
        P::is_named(word)
    }

    fn read_named(alloc: Global, _word: &str, args: &List<Arg>) -> Result<NoOptions, OptionError> {
        read_options(alloc, args)
    }

    ghost one_reading = { λ word args h. (plain_one P.only P.made).one_reading args };

    ghost one_outcome = { λ word args. (plain_one P.only P.made).one_outcome args };
}

impl<A: FrameRule, B: FrameRule> FrameRule for Or<A, B> {
    ghost use Rattle.av_filter.specs.RuleSets.{or_making, or_laws};

    type Options = Or<A::Options, B::Options>;

    ghost making = { or_making A.making B.making };

    fn takes(options: &Or<A::Options, B::Options>, format: Format) -> bool {
        match options {
            Or::First(options) => A::takes(options, format),
            Or::Other(options) => B::takes(options, format),
        }
    }

    fn settle(options: &Or<A::Options, B::Options>, shape: Shape) -> Result<Or<A, B>, ConfigError> {
        match options {
            Or::First(options) => Ok(Or::First(A::settle(options, shape)?)),
            Or::Other(options) => Ok(Or::Other(B::settle(options, shape)?)),
        }
    }

    fn shape(&self, shape: Shape) -> Shape {
        match self {
            Or::First(rule) => rule.shape(shape),
            Or::Other(rule) => rule.shape(shape),
        }
    }

    fn make(&self, alloc: Global, pools: &mut Pools, frame: Frame) -> Result<Frame, Returned> {
        match self {
            Or::First(rule) => rule.make(alloc, pools, frame),
            Or::Other(rule) => rule.make(alloc, pools, frame),
        }
    }

    ghost laws = { or_laws A.making B.making A.laws B.laws };
}

impl<A: NamedRule, B: RuleSet> RuleSet for Or<A, B> {
    ghost use Rattle.std.specs.Prelude.{◌||◌};
    ghost use Rattle.av_filter.specs.Words.{is_text};
    ghost use Rattle.av_filter.specs.Meanings.{IsReading};
    ghost use Rattle.av_filter.specs.RuleSets.{or_reads, or_one_reading, or_one_outcome};

    ghost contains = { λ word. is_text A.name word || B.contains word };

    ghost reads = { λ word args. or_reads (is_text A.name word) (IsReading A.options args) (B.reads word args) };

    fn is_name(word: &str) -> bool {
        A::is_named(word) || B::is_name(word)
    }

    fn read_named(
        alloc: Global,
        word: &str,
        args: &List<Arg>,
    ) -> Result<Or<A::Options, B::Options>, OptionError> {
        if A::is_named(word) {
            Ok(Or::First(A::read(alloc, args)?))
        } else {
            Ok(Or::Other(B::read_named(alloc, word, args)?))
        }
    }

    ghost one_reading = { λ word args h. or_one_reading A.making B.making (is_text A.name word) (B.contains word) (IsReading A.options args) (B.reads word args) (λ is. A.one.one_reading args) (B.one_reading word args) h };

    ghost one_outcome = { λ word args. or_one_outcome A.making B.making (is_text A.name word) (IsReading A.options args) (B.reads word args) (A.one.one_outcome args) (B.one_outcome word args) };
}

/// The rules of two sets.
#[derive(Clone, Copy, Drop)]
pub struct Sets<A, B> {
    rule: Or<A, B>,
}

impl<A: FrameRule, B: FrameRule> FrameRule for Sets<A, B> {
    ghost use Rattle.av_filter.specs.RuleSets.{or_making, or_laws};
    ghost use Rattle.av_filter.specs.Wrappers.{wrapped_making, wrapped_making_laws};
    ghost use Rattle.av_filter.specs.JoinedSets.{same_options, in_sets};

    type Options = Or<A::Options, B::Options>;

    ghost making = { wrapped_making same_options in_sets (or_making A.making B.making) };

    fn takes(options: &Or<A::Options, B::Options>, format: Format) -> bool {
        <Or<A, B> as FrameRule>::takes(options, format)
    }

    fn settle(
        options: &Or<A::Options, B::Options>,
        shape: Shape,
    ) -> Result<Sets<A, B>, ConfigError> {
        let rule = <Or<A, B> as FrameRule>::settle(options, shape)?;
        Ok(Sets { rule })
    }

    fn shape(&self, shape: Shape) -> Shape {
        self.rule.shape(shape)
    }

    fn make(&self, alloc: Global, pools: &mut Pools, frame: Frame) -> Result<Frame, Returned> {
        self.rule.make(alloc, pools, frame)
    }

    ghost laws = { wrapped_making_laws same_options in_sets (or_making A.making B.making) (or_laws A.making B.making A.laws B.laws) };
}

impl<A: RuleSet, B: RuleSet> RuleSet for Sets<A, B> {
    ghost use Rattle.std.specs.Prelude.{◌||◌};
    ghost use Rattle.av_filter.specs.RuleSets.{or_reads};
    ghost use Rattle.av_filter.specs.JoinedSets.{sets_one_reading, sets_one_outcome};

    ghost contains = { λ word. A.contains word || B.contains word };

    ghost reads = { λ word args. or_reads (A.contains word) (A.reads word args) (B.reads word args) };

    fn is_name(word: &str) -> bool {
        A::is_name(word) || B::is_name(word)
    }

    fn read_named(
        alloc: Global,
        word: &str,
        args: &List<Arg>,
    ) -> Result<Or<A::Options, B::Options>, OptionError> {
        if A::is_name(word) {
            Ok(Or::First(A::read_named(alloc, word, args)?))
        } else {
            Ok(Or::Other(B::read_named(alloc, word, args)?))
        }
    }

    ghost one_reading = { λ word args h. sets_one_reading A.making B.making (A.contains word) (B.contains word) (A.reads word args) (B.reads word args) (A.one_reading word args) (B.one_reading word args) h };

    ghost one_outcome = { λ word args. sets_one_outcome A.making B.making (A.contains word) (B.contains word) (A.reads word args) (B.reads word args) (A.one_outcome word args) (B.one_outcome word args) };
}

/// A rule as a set of one, at the end of a list of rules that all have options.
#[derive(Clone, Copy, Drop)]
pub struct One<A> {
    rule: A,
}

impl<A: FrameRule> FrameRule for One<A> {
    ghost use Rattle.av_filter.specs.Wrappers.{wrapped_making, wrapped_making_laws};
    ghost use Rattle.av_filter.specs.JoinedSets.{same_options, in_one};

    type Options = A::Options;

    ghost making = { wrapped_making same_options in_one A.making };

    fn takes(options: &A::Options, format: Format) -> bool {
        A::takes(options, format)
    }

    fn settle(options: &A::Options, shape: Shape) -> Result<One<A>, ConfigError> {
        let rule = A::settle(options, shape)?;
        Ok(One { rule })
    }

    fn shape(&self, shape: Shape) -> Shape {
        self.rule.shape(shape)
    }

    fn make(&self, alloc: Global, pools: &mut Pools, frame: Frame) -> Result<Frame, Returned> {
        self.rule.make(alloc, pools, frame)
    }

    ghost laws = { wrapped_making_laws same_options in_one A.making A.laws };
}

impl<A: NamedRule> RuleSet for One<A> {
    ghost use Rattle.av_filter.specs.Words.{is_text};
    ghost use Rattle.av_filter.specs.Meanings.{IsReading};
    ghost use Rattle.av_filter.specs.JoinedSets.{in_one, inside_one_reading, inside_one_outcome};

    ghost contains = { λ word. is_text A.name word };

    ghost reads = { λ word args. IsReading A.options args };

    fn is_name(word: &str) -> bool {
        A::is_named(word)
    }

    fn read_named(alloc: Global, _word: &str, args: &List<Arg>) -> Result<A::Options, OptionError> {
        A::read(alloc, args)
    }

    ghost one_reading = { λ word args h. inside_one_reading in_one A.making (IsReading A.options args) (A.one.one_reading args) };

    ghost one_outcome = { λ word args. inside_one_outcome in_one A.making (IsReading A.options args) (A.one.one_outcome args) };
}
