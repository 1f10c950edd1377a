//! The parts of a plan.
use av_base::{Failure, List, Media, Text};

/// What the pads of a call's filter take and give, by their numbers.
#[derive(Drop)]
pub struct Pads {
    /// What each input pad takes.
    pub ins: List<Media>,
    /// What each output pad gives.
    pub outs: List<Media>,
}

/// Where a link begins.
#[derive(Clone, Copy, Debug, PartialEq, Eq)]
pub enum Source {
    /// At an input file.
    Input {
        /// Its number, counted from 0.
        input: u32,
    },
    /// At an output pad of a filter.
    Filter {
        /// The filter's number, counted from 0.
        filter: u32,
        /// The pad's number, counted from 0.
        pad: u32,
    },
}

/// Where a link ends.
#[derive(Clone, Copy, Debug, PartialEq, Eq)]
pub enum Target {
    /// At an input pad of a filter.
    Filter {
        /// The filter's number, counted from 0.
        filter: u32,
        /// The pad's number, counted from 0.
        pad: u32,
    },
    /// At an output file.
    Output {
        /// Its number, counted from 0.
        output: u32,
    },
}

/// A link.
#[derive(Clone, Copy, Debug, PartialEq, Eq)]
pub struct Edge {
    /// Where it begins.
    pub from: Source,
    /// Where it ends.
    pub to: Target,
}

/// An output pad that no filter takes.
#[derive(Drop)]
pub struct OpenOut {
    /// The filter's number, counted from 0.
    pub filter: u32,
    /// The pad's number, counted from 0.
    pub pad: u32,
    /// The label after the filter's name that names the pad, if there is one.
    pub label: Option<Text>,
    /// What the pad gives.
    pub media: Media,
}

/// A plan whose outputs aren't bound yet.
#[derive(Drop)]
pub struct DraftPlan {
    /// The links to input pads, by filter and pad.
    pub links: List<Edge>,
    /// The filters, each after those that it takes from.
    pub order: List<u32>,
    /// The output pads that no filter takes, by filter and pad.
    pub opens: List<OpenOut>,
}

/// A plan.
#[derive(Drop)]
pub struct Plan {
    /// The links, by their targets: input pads by filter and pad, then outputs.
    pub links: List<Edge>,
    /// The filters, each after those that it takes from.
    pub order: List<u32>,
}

/// What an output file is written as.
#[derive(Clone, Copy, Debug, PartialEq, Eq)]
pub enum Ending {
    /// YUV4MPEG2, which takes video.
    Y4m,
    /// RIFF WAVE, which takes audio.
    Wav,
    /// A listing of frames, which takes either.
    Frames,
}

/// An output file.
#[derive(Drop)]
pub struct OutputFile {
    /// The label of the output pad that it takes, if it names one.
    pub label: Option<Text>,
    /// What it is written as.
    pub ending: Ending,
}

/// Why there is no plan.
#[derive(Clone, Copy, Debug, PartialEq, Eq)]
pub enum PlanFault {
    /// The input pads and the outputs are more than 1,024.
    TooManyLinks,
    /// A filter has more labels than pads, or fewer unlabelled input pads than the filter before it in its chain has
    /// unlabelled output pads.
    PadCount {
        /// The lowest such filter.
        filter: u32,
    },
    /// A label is on two output pads, or on an output pad and on two input pads.
    LabelTwice {
        /// The lowest filter with such a pad after the first one.
        filter: u32,
    },
    /// The label of an input pad is on no output pad and names no input file.
    UnknownInput {
        /// The lowest filter with such a pad.
        filter: u32,
    },
    /// A link's two ends differ in kind, or a label's `:v` or `:a` differs from its file's.
    MediaMismatch {
        /// The lowest filter that such a link leads to.
        filter: u32,
    },
    /// A filter reaches itself over links.
    Cycle {
        /// The lowest such filter.
        filter: u32,
    },
    /// An input pad without a label, to which no filter gives, finds no input file.
    OpenPad {
        /// The filter of the first such pad.
        filter: u32,
        /// The pad.
        pad: u32,
    },
    /// An output file finds no open output pad, or one that an earlier file took by its label.
    NoSuchOutput {
        /// The lowest such output.
        output: u32,
    },
    /// An open output pad is taken by no output file.
    Unmapped {
        /// The filter of the first such pad.
        filter: u32,
        /// The pad.
        pad: u32,
    },
    /// A Y4M file takes audio, or a WAV file video.
    WrongKind {
        /// The lowest such output.
        output: u32,
    },
}

/// Why no plan was given.
pub type PlanError = Failure<PlanFault>;
