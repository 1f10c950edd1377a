//! What stops the command.
use av_base::{Failure, NoMemory};
use av_text::TextKind;
use std::alloc::{AllocError, AllocFailed};

/// A quantity that has a limit.
#[derive(Clone, Copy, Debug, PartialEq, Eq)]
pub enum LimitKind {
    /// Bytes of the graph text.
    Text,
    /// Inputs of the command.
    Inputs,
    /// Output files of the command.
    Outputs,
    /// Filters of the graph.
    Filters,
    /// Links of the graph: its input pads and the output files.
    Links,
    /// Bytes of an input.
    Bytes,
}

/// What stops the command, besides out of memory. A host's fault is counted once, since it ends the run.
#[derive(Clone, Copy, Debug, PartialEq, Eq)]
pub enum Fault {
    /// A word that begins with `-` and is no option, a second `-map` before one output file, or a value of `-map` that
    /// isn't a label in brackets.
    UnknownWord {
        /// The word's number, counted from 0.
        word: u64,
    },
    /// An option at the end without its value, or a `-map` without an output file after it.
    MissingValue {
        /// The option's number, counted from 0.
        word: u64,
    },
    /// A value that isn't of its option's form, or is out of range.
    BadNumber {
        /// The value's number, counted from 0.
        word: u64,
    },
    /// A file whose name has no ending that is read, or written.
    BadEnding {
        /// The number of the name's word, counted from 0.
        word: u64,
    },
    /// An output named as an earlier file, or an input named as an earlier output.
    SameName {
        /// The number of the later name's word, counted from 0.
        word: u64,
    },
    /// There is no graph text.
    NoGraph,
    /// There is no output file.
    NoOutput,
    /// The words, the graph or the input are outside of what the command can do today.
    NotYet,
    /// A filter has a name that no filter has.
    UnknownFilter {
        /// The filter's number, counted from 0 in the order of the text.
        filter: u32,
    },
    /// An argument has a name that is none of the filter's options.
    UnknownOption {
        /// The filter's number.
        filter: u32,
        /// The argument's number, counted from 0.
        option: u32,
    },
    /// An argument without a name comes after one with a name, or past the last option.
    TooManyValues {
        /// The filter's number.
        filter: u32,
        /// The argument's number, counted from 0.
        option: u32,
    },
    /// An option doesn't take the value of an argument.
    BadValue {
        /// The filter's number.
        filter: u32,
        /// The argument's number, counted from 0.
        option: u32,
    },
    /// An option that must be given isn't.
    MissingOption {
        /// The filter's number.
        filter: u32,
    },
    /// A filter has more labels than pads, or too few inputs for the filter before it.
    PadCount {
        /// The filter's number.
        filter: u32,
    },
    /// A label is on two output pads, or on an output pad and on two input pads.
    LabelTwice {
        /// The filter's number.
        filter: u32,
    },
    /// The label of an input pad is on no output pad and names no input.
    UnknownInput {
        /// The filter's number.
        filter: u32,
    },
    /// One end of a link is video and the other audio, or a label says another kind than its input's.
    MediaMismatch {
        /// The number of the filter that the link leads to.
        filter: u32,
    },
    /// A filter takes, over links, from itself.
    Cycle {
        /// The filter's number.
        filter: u32,
    },
    /// There is no input left for an input pad without a label.
    OpenPad {
        /// The filter's number.
        filter: u32,
        /// The pad's number, counted from 0.
        pad: u32,
    },
    /// No output file takes an output pad.
    Unmapped {
        /// The filter's number.
        filter: u32,
        /// The pad's number, counted from 0.
        pad: u32,
    },
    /// No output pad is there for an output file, or an earlier file took it.
    NoSuchOutput {
        /// The output's number, counted from 0.
        output: u32,
    },
    /// A Y4M file takes audio, or a WAV file video.
    WrongKind {
        /// The output's number, counted from 0.
        output: u32,
    },
    /// An input is no Y4M file.
    NotMedia {
        /// The input's number, counted from 0.
        input: u32,
    },
    /// The header of an input isn't in order.
    BadHeader {
        /// The input's number.
        input: u32,
    },
    /// The header of an input is in order but for its colour, which is unknown.
    BadColour {
        /// The input's number.
        input: u32,
    },
    /// No format suits all filters and files on a part of the graph.
    NoCommonFormat {
        /// The number of the part's first link.
        link: u32,
    },
    /// Two sizes differ that must be the same.
    SizeMismatch {
        /// The filter's number.
        filter: u32,
        /// The one size, or the plane that has it.
        a: u64,
        /// The other.
        b: u64,
    },
    /// A size or a place isn't one that the input allows.
    BadGeometry {
        /// The filter's number.
        filter: u32,
        /// What was asked for, in samples.
        found: i64,
        /// The greatest, or the lowest, that is allowed.
        allowed: i64,
    },
    /// The output of a filter passes a limit.
    TooLarge {
        /// The filter's number.
        filter: u32,
        /// Its width or height in samples, or the bytes of a picture.
        found: u64,
        /// The limit.
        allowed: u64,
    },
    /// No time base fits all inputs of a filter.
    TimeBaseRange {
        /// The filter's number.
        filter: u32,
    },
    /// An expression has no value.
    NoValue {
        /// The filter's number.
        filter: u32,
        /// The option's number.
        option: u32,
    },
    /// An output would have to state a frame rate, which is unknown.
    NoRate {
        /// The output's number, counted from 0.
        output: u32,
    },
    /// What follows the whole frames of an input begins no frame.
    BadFrame {
        /// The input's number.
        input: u32,
        /// The number of whole frames before it.
        frame: u64,
    },
    /// An input ends within a frame.
    Truncated {
        /// The input's number.
        input: u32,
        /// The number of whole frames before it.
        place: u64,
    },
    /// The host failed at opening an input or creating an output.
    OpenFault,
    /// The host failed at a read.
    ReadFault,
    /// The host failed at a write.
    WriteFault,
    /// The graph text has no reading.
    TextFault {
        /// The byte of the text at which the fault is, counted from 0.
        at: u32,
        /// What is wrong there.
        kind: TextKind,
    },
    /// A quantity passes its limit.
    Limit {
        /// The quantity.
        kind: LimitKind,
        /// The number of the input that passes it, for bytes, and else 0.
        which: u32,
        /// The greatest number allowed.
        allowed: u64,
    },
}

/// Why the command ended before all was done.
#[derive(Clone, Copy, Debug, PartialEq, Eq)]
pub enum Stop {
    /// A fault with its cause.
    Fault(Fault),
    /// Out of memory.
    NoMemory,
}

impl From<Failure<Fault>> for Stop {
    ghost use Rattle.std.specs.Prelude.{◌≡◌};
    ghost use Rattle.av_faults.specs.Faults.{stop_of};

    ghost from_gives = { λ failure stop. stop ≡ stop_of failure };

    fn from(failure: Failure<Fault>) -> Stop {
        match failure {
            Failure::Fault(fault) => Stop::Fault(fault),
            Failure::NoMemory => Stop::NoMemory,
        }
    }
}

impl From<NoMemory> for Stop {
    ghost use Rattle.std.specs.Prelude.{◌≡◌};
    ghost use Rattle.av_faults.specs.declared.fault.Stop.{Stop};

    ghost from_gives = { λ _ stop. stop ≡ Stop.NoMemory };

    fn from(_refused: NoMemory) -> Stop {
        Stop::NoMemory
    }
}

impl From<AllocError> for Stop {
    ghost use Rattle.std.specs.Prelude.{◌≡◌};
    ghost use Rattle.av_faults.specs.declared.fault.Stop.{Stop};

    ghost from_gives = { λ _ stop. stop ≡ Stop.NoMemory };

    fn from(_refused: AllocError) -> Stop {
        Stop::NoMemory
    }
}

impl<T: Drop> From<AllocFailed<T>> for Stop {
    ghost use Rattle.std.specs.Prelude.{◌≡◌};
    ghost use Rattle.av_faults.specs.declared.fault.Stop.{Stop};

    ghost from_gives = { λ _ stop. stop ≡ Stop.NoMemory };

    fn from(_refused: AllocFailed<T>) -> Stop {
        Stop::NoMemory
    }
}
