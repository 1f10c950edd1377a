//! Options of filters, as arguments give them.
//!
//! A filter says by the trait what its options are and which texts they take; the rule for arguments is here alone.
ghost use Rattle.std.specs.Prelude.{◌≡◌, ◌↔◌, ◌<◌, ◌≢◌, ◌^◌, ◌⊎◌, ℕ, ℤ, List, Option, Some, None, Ok, Err, IsTrue, length, max, take, IfOk, IfErr, IfSome};
ghost use Rattle.std.specs.List.{slice_get};
ghost use Rattle.av_text.specs.declared.arguments.Arg.{Arg};
ghost use Rattle.av_frame.specs.declared.refusals.OptionError.{OptionError};
ghost use Rattle.av_frame.specs.declared.refusals.OptionError.TheVariants as option;
ghost use Rattle.av_filter.specs.Words.{word_in};
ghost use Rattle.av_filter.specs.Meanings.{OptionRules, IsReading};
ghost use Rattle.av_filter.specs.Options.{any_named, has_name, option_for, misplaced, HasFault, AreTaken, IsFirstFault, HasGiven, IsGiven, IsRead, flags, IsWholeWithin};

use av_base::{List, NoMemory};
use av_frame::OptionError;
use av_text::{Arg, read_whole};
use std::alloc::Global;

/// The options of a filter, as its arguments give them. Contracts see their rules: how many there are, their names, the
/// texts that each takes, and what each has then.
pub trait Options: Drop {
    ghost rules: { OptionRules Self };

    /// How many options there are. They are numbered in the order in which values without a name are theirs.
    fn count() -> u32
        ensures { result ≡ rules.count };

    /// The number of the option that a name means. An option may have a second name.
    fn numbered(name: &str) -> Option<u32>
        ensures { result ≡ word_in rules.names name.now };

    /// The options without arguments: each has its default.
    ///
    /// # Errors
    /// Out of memory.
    fn defaults(alloc: Global) -> Result<Self, NoMemory>
        ensures { IfOk result (λ options. (o : ℕ) → o < rules.count → rules.has options o None) };

    /// Gives an option what a text says. Returns false if the option doesn't take the text. Number 0 is no option
    /// if there are none, and takes no text then.
    ///
    /// # Errors
    /// Out of memory.
    fn set(&mut self, alloc: Global, option: u32, value: &str) -> Result<bool, NoMemory>
        requires { option < max rules.count 1 }
        ensures takes { IfOk result (λ taken. IsTrue taken ↔ rules.takes option value.now) }
        ensures set { IfOk result (λ taken. IsTrue taken → rules.has self.new option (Some value.now)) }
        ensures others { IfOk result (λ taken. IsTrue taken → (o : ℕ) (text : Option (List ℕ)) → o ≢ option → rules.has self.old o text → rules.has self.new o text) };

    /// The options that so many arguments gave, if none contradicts another and none is missing.
    ///
    /// # Errors
    /// `BadValue` with the number of arguments if options contradict each other; then `MissingOption`.
    fn complete(self, arguments: u32) -> Result<Self, OptionError>
        ensures { rules.completes self arguments result };

    /// Each name is that of an option.
    ghost numbers: { (name : List ℕ) (o : ℕ) → word_in rules.names name ≡ Some o → o < rules.count };
}

/// The option of argument `place`. `is_late` means that one before it has a name.
fn option_of<O: Options>(arg: &Arg, place: u32, is_late: bool) -> Result<u32, OptionError>
    ensures ok { IfOk result (λ o. option_for O.rules.count O.rules.names is_late place arg.now.name ≡ Some o) }
    ensures some { IfOk result (λ o. o < O.rules.count) }
    ensures err { IfErr result (λ e. (option_for O.rules.count O.rules.names is_late place arg.now.name ≡ None) × (e ≡ misplaced place arg.now.name)) }
{
    match &arg.name {
        Some(name) => match O::numbered(name.as_str()) {
            Some(option) => Ok(option),
            None => Err(OptionError::UnknownOption { option: place }),
        },
        None if is_late || place >= O::count() => Err(OptionError::TooManyValues { option: place }),
        None => Ok(place),
    }
}

/// Gives the option of argument `place` the argument's value.
fn read_argument<O: Options>(
    alloc: Global,
    arg: &Arg,
    place: u32,
    is_late: bool,
    options: &mut O,
) -> Result<(), OptionError>
    ensures read { (args : List Arg) → slice_get args place ≡ Some arg.now → is_late ≡ any_named (take place args)
        → IfOk result (λ _. IsRead O.rules.count O.rules.names args place (O.rules.has options.old) (O.rules.has options.new)) }
    ensures taken { (args : List Arg) → slice_get args place ≡ Some arg.now → is_late ≡ any_named (take place args)
        → IfOk result (λ _. (e : OptionError) → ¬ HasFault O.rules.count O.rules.names O.rules.takes args place e) }
    ensures refused { (args : List Arg) → slice_get args place ≡ Some arg.now → is_late ≡ any_named (take place args)
        → IfErr result (λ e. (e ≡ option.NoMemory) ⊎ HasFault O.rules.count O.rules.names O.rules.takes args place e) }
{
    let option = option_of::<O>(arg, place, is_late)?;
    if options.set(alloc, option, arg.value.as_str())? {
        Ok(())
    } else {
        Err(OptionError::BadValue { option: place })
    }
}

/// Gives options what arguments say.
fn read_arguments<O: Options>(alloc: Global, args: &List<Arg>, options: O) -> Result<O, OptionError>
    requires few { length args.now < 2 ^ 32 }
    requires defaults { (o : ℕ) → o < O.rules.count → O.rules.has options o None }
    ensures read { IfOk result (λ o. HasGiven O.rules.count O.rules.names (O.rules.has o) args.now) }
    ensures taken { IfOk result (λ _. AreTaken O.rules.count O.rules.names O.rules.takes args.now) }
    ensures refused { IfErr result (λ e. (e ≡ option.NoMemory) ⊎ IsFirstFault O.rules.count O.rules.names O.rules.takes args.now e) }
{
    let mut options = options;
    let mut is_late = false;
    'reading: for (place, arg) in args.as_slice().iter().enumerate() {
        read_argument(alloc, arg, place as u32, is_late, &mut options)?;
        is_late |= arg.name.is_some();
    }
    Ok(options)
}

/// Reads a filter's arguments. Each option then has the value of its last argument, or its default.
///
/// A value without a name is for the option of its own number.
///
/// # Errors
/// The fault of the first argument that has one: `UnknownOption` if its name is none of the filter's; `TooManyValues` if it
/// has no name and comes after one with a name or past the last option; `BadValue` if its option doesn't take its value.
/// Then `BadValue` with the number of arguments if options contradict each other, and `MissingOption`. Or out of memory.
pub fn read_options<O: Options>(alloc: Global, args: &List<Arg>) -> Result<O, OptionError>
    requires few { length args.now < 2 ^ 32 }
    ensures read { IfOk result (λ o. IsReading O.rules args.now (Ok o)) }
    ensures refused { IfErr result (λ e. (e ≡ option.NoMemory) ⊎ IsReading O.rules args.now (Err e)) }
{
    let defaults = O::defaults(alloc)?;
    let options = read_arguments(alloc, args, defaults)?;
    options.complete(args.as_slice().len() as u32)
}

/// The law that arguments have one reading: an option is given one text at most, and there is one fault at most, and none
/// if each argument is taken.
pub fn arguments_have_one_reading<O: Options>()
    ensures given { (args : List Arg) (o : ℕ) (t u : Option (List ℕ)) → IsGiven O.rules.count O.rules.names args o t → IsGiven O.rules.count O.rules.names args o u → t ≡ u }
    ensures fault { (args : List Arg) (e f : OptionError) → IsFirstFault O.rules.count O.rules.names O.rules.takes args e → IsFirstFault O.rules.count O.rules.names O.rules.takes args f → e ≡ f }
    ensures one { (args : List Arg) (e : OptionError) → AreTaken O.rules.count O.rules.names O.rules.takes args → ¬ IsFirstFault O.rules.count O.rules.names O.rules.takes args e }
{}

/// The options of a filter that has none.
#[derive(Clone, Copy, Debug, PartialEq, Eq, Drop)]
pub struct NoOptions;

impl Options for NoOptions {
    ghost use Rattle.av_filter.specs.NoOptions.{no_rules};

    ghost rules = { no_rules };

    fn count() -> u32 {
        0
    }

    fn numbered(_name: &str) -> Option<u32> {
        None
    }

    fn defaults(_alloc: Global) -> Result<NoOptions, NoMemory> {
        Ok(NoOptions)
    }

    fn set(&mut self, _alloc: Global, _option: u32, _value: &str) -> Result<bool, NoMemory> {
        Ok(false)
    }

    fn complete(self, _arguments: u32) -> Result<NoOptions, OptionError> {
        Ok(self)
    }

    ghost numbers = { λ name o e. absurd (cc) };
}

/// The value of a flag: `0` or `false`, `1` or `true`. None otherwise.
pub fn read_flag(text: &str) -> Option<bool>
    ensures { result ≡ word_in flags text.now }
{
    match text {
        "0" => Some(false),
        "1" => Some(true),
        "false" => Some(false),
        "true" => Some(true),
        _ => None,
    }
}

/// The whole number from `least` to `most` that a text writes, by 1 to 18 digits with a `-` before them or without one.
/// None elsewhere.
pub fn read_whole_within(text: &str, least: i64, most: i64) -> Option<i64>
    ensures number { IfSome result (IsWholeWithin least most text.now) }
    ensures only { (z : ℤ) → IsWholeWithin least most text.now z → result ≡ Some z }
{
    let Some(z) = read_whole(text) else {
        return None;
    };
    if least <= z && z <= most {
        Some(z)
    } else {
        None
    }
}
