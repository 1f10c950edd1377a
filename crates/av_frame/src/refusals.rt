//! What a filter's arguments and settings are refused for.
use av_base::NoMemory;
use std::alloc::{AllocError, AllocFailed};

/// Why the arguments of a filter were refused.
#[derive(Clone, Copy, Debug, PartialEq, Eq)]
pub enum OptionError {
    /// There is no filter of this name.
    UnknownFilter,
    /// The filter has no option of this name.
    UnknownOption {
        /// The number of the argument, counted from 0.
        option: u32,
    },
    /// A value without a name comes after a named one, or past the last option.
    TooManyValues {
        /// The number of the argument, counted from 0.
        option: u32,
    },
    /// A value that the option doesn't take, or options that contradict each other.
    BadValue {
        /// The number of the argument, counted from 0; the number of arguments where options contradict each other.
        option: u32,
    },
    /// An option that must be given isn't.
    MissingOption,
    /// The filter isn't built yet.
    NotYet,
    /// Out of memory.
    NoMemory,
}

impl From<NoMemory> for OptionError {
    ghost use Rattle.std.specs.Prelude.{◌≡◌};
    ghost use Rattle.av_frame.specs.declared.refusals.OptionError.TheVariants as option;

    ghost from_gives = { λ _ e. e ≡ option.NoMemory };

    fn from(_refused: NoMemory) -> OptionError {
        OptionError::NoMemory
    }
}

impl From<AllocError> for OptionError {
    ghost use Rattle.std.specs.Prelude.{◌≡◌};
    ghost use Rattle.av_frame.specs.declared.refusals.OptionError.TheVariants as option;

    ghost from_gives = { λ _ e. e ≡ option.NoMemory };

    fn from(_refused: AllocError) -> OptionError {
        OptionError::NoMemory
    }
}

impl<T: Drop> From<AllocFailed<T>> for OptionError {
    ghost use Rattle.std.specs.Prelude.{◌≡◌};
    ghost use Rattle.av_frame.specs.declared.refusals.OptionError.TheVariants as option;

    ghost from_gives = { λ _ e. e ≡ option.NoMemory };

    fn from(_refused: AllocFailed<T>) -> OptionError {
        OptionError::NoMemory
    }
}

/// Why a filter can't work on inputs of these shapes, in these formats.
#[derive(Clone, Copy, Debug, PartialEq, Eq)]
pub enum ConfigError {
    /// Two inputs differ in what must be equal.
    SizeMismatch {
        /// What the first of them has.
        a: u64,
        /// What the other has.
        b: u64,
    },
    /// A size or a place that doesn't fit the picture.
    BadGeometry {
        /// What was asked for.
        found: i64,
        /// The nearest that is allowed.
        allowed: i64,
    },
    /// No time base fits.
    TimeBaseRange,
    /// The output would pass a limit.
    TooLarge {
        /// What it would have.
        found: u64,
        /// The most that is allowed.
        allowed: u64,
    },
    /// An expression has no value.
    NoValue {
        /// The number of its option in the filter's table of options, counted from 0.
        option: u32,
    },
    /// Out of memory.
    NoMemory,
}

impl From<NoMemory> for ConfigError {
    ghost use Rattle.std.specs.Prelude.{◌≡◌};
    ghost use Rattle.av_frame.specs.declared.refusals.ConfigError.TheVariants as config;

    ghost from_gives = { λ _ e. e ≡ config.NoMemory };

    fn from(_refused: NoMemory) -> ConfigError {
        ConfigError::NoMemory
    }
}

impl From<AllocError> for ConfigError {
    ghost use Rattle.std.specs.Prelude.{◌≡◌};
    ghost use Rattle.av_frame.specs.declared.refusals.ConfigError.TheVariants as config;

    ghost from_gives = { λ _ e. e ≡ config.NoMemory };

    fn from(_refused: AllocError) -> ConfigError {
        ConfigError::NoMemory
    }
}

impl<T: Drop> From<AllocFailed<T>> for ConfigError {
    ghost use Rattle.std.specs.Prelude.{◌≡◌};
    ghost use Rattle.av_frame.specs.declared.refusals.ConfigError.TheVariants as config;

    ghost from_gives = { λ _ e. e ≡ config.NoMemory };

    fn from(_refused: AllocFailed<T>) -> ConfigError {
        ConfigError::NoMemory
    }
}
