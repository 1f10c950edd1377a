//! What a command that was done has read and written, and what is printed of a command.
ghost use Rattle.std.specs.Prelude.{◌≡◌};
ghost use Rattle.av_faults.specs.Faults.{stop_line};
ghost use Rattle.avgraph.specs.Headline.{Prints, Reports, counts_text};

use av_faults::{Stop, input_line, line, output_line, status};
use av_host::{Host, say_all};

/// How much was read and written.
#[derive(Clone, Copy, Debug, PartialEq, Eq)]
pub(crate) struct Counts {
    /// The number of frames, which is the same for the input and the output.
    pub(crate) frames: u64,
    /// The length of the output in bytes.
    pub(crate) bytes: u64,
}

/// A command that was done.
#[derive(Clone, Copy, Debug, PartialEq, Eq)]
pub(crate) struct Done {
    /// How much was read and written.
    pub(crate) counts: Counts,
    /// Whether a report is asked for.
    pub(crate) report: bool,
}

/// Prints the report.
fn say_report<H: Host>(host: &mut H, counts: Counts)
    ensures { Prints (H.world host.old) (H.world host.new) (counts_text counts) }
{
    let mut text = input_line(0, counts.frames);
    text.push_str(output_line(0, counts.frames, counts.bytes).as_str());
    let _ = say_all(host, text.as_str().as_bytes());
}

/// Prints the line of a stop.
fn say_stop<H: Host>(host: &mut H, stop: Stop)
    ensures { Prints (H.world host.old) (H.world host.new) (stop_line stop) }
{
    let text = line(stop);
    let _ = say_all(host, text.as_str().as_bytes());
}

/// Prints what is to be printed of an outcome, and returns its status.
pub(crate) fn report<H: Host>(host: &mut H, outcome: Result<Done, Stop>) -> u8
    ensures { Reports (H.world host.old) (H.world host.new) outcome result }
{
    match outcome {
        Ok(done) => {
            if done.report {
                say_report(host, done.counts);
            }
            0
        }
        Err(stop) => {
            say_stop(host, stop);
            status(stop)
        }
    }
}
