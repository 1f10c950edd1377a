//! The command: from words and files to files.
#![tactic(auto)]

mod chain;
mod command;
pub mod law;
mod ready;
mod report;
mod request;
mod run;
mod top;

pub use av_faults::{Fault, LimitKind, Stop};
pub use av_words::{Command, InputWord, OutputWord, WordError, read_words};
pub use top::{Gate, OpenGate, avgraph};
pub use y4m_io::{Progress, Stage, reader, writer};

/// The greatest number of bytes of an input (`greatest_input`).
pub const LIMIT: u64 = 1 << 40;

/// An input has more bytes than the limit.
const TOO_LONG: Fault = Fault::Limit {
    kind: LimitKind::Bytes,
    which: 0,
    allowed: LIMIT,
};
