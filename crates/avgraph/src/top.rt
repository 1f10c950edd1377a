//! The top call: the command from its words to its status.
ghost use Rattle.std.specs.Prelude.{◌≡◌, ◌≢◌, ◌⊎◌, map, Ok, Err, string_bytes};
ghost use Rattle.av_faults.specs.Faults.{IsOfWords, IsOfFile, IsOfLimit};
ghost use Rattle.av_faults.specs.declared.fault.Stop.{Stop};
ghost use Rattle.avgraph.specs.Bounds.{greatest_input};
ghost use Rattle.avgraph.specs.Requests.{Request, Asks};
ghost use Rattle.avgraph.specs.Commands.{MayHold};
ghost use Rattle.avgraph.specs.Headline.{Obeys, Acts, StopsAt, Refuses, HasCause, IsQuiet, IsDone, IsNamed, Concludes, Keeps, SaysStatus};

use crate::command::run_job;
use crate::report::{Done, report};
use crate::request::ask;
use av_faults::Stop;
use av_host::Host;
use std::alloc::Global;
use std::thread::Threads;

/// What comes between a run and the turns of its filters. There is no turn yet, and so no call.
pub trait Gate: Sync {}

/// The gate of the shipped program, which adds nothing.
#[derive(Clone, Copy, Drop)]
pub struct OpenGate;

impl Gate for OpenGate {}

/// Obeys the words.
fn obey<R: Threads + Sync, H: Host>(
    rt: &R,
    alloc: Global,
    words: &[String],
    host: &mut H,
) -> Result<Done, Stop>
    ensures { Obeys greatest_input (map string_bytes words.now) (H.world host.old) (H.world host.new) result }
{
    let job = match ask(alloc, words) {
        Ok(job) => job,
        Err(stop) => return Err(stop),
    };
    let report = job.report;
    match run_job(rt, alloc, host, &job) {
        Ok(counts) => Ok(Done { counts, report }),
        Err(stop) => Err(stop),
    }
}

/// Obeys the words, and reports.
fn act<R: Threads + Sync, H: Host>(rt: &R, alloc: Global, words: &[String], host: &mut H) -> u8
    ensures { Acts greatest_input (map string_bytes words.now) (H.world host.old) (H.world host.new) result }
{
    let outcome = obey(rt, alloc, words, host);
    report(host, outcome)
}

/// Runs the command that the words name, and returns the program's status: 0 if all was done, 2 if the words have a fault,
/// 3 if the graph text has no reading, 4 if a filter or its arguments are rejected, 5 if the filters and the outputs can't be
/// linked, 6 if the input's header is rejected, 7 if filters and files have no common format, 8 if a filter can't be made
/// ready or the output's rate is unknown, 9 if the input is damaged, 10 if a limit is passed, 11 if an input was not opened or
/// an output not created, 12 and 13 if a read or a write failed, 14 if out of memory, and 15 if the words or the graph are
/// outside of what the command can do today. After any status but 0 one line was printed. At
/// status 0 the report was printed, if it was asked for.
pub fn avgraph<R: Threads + Sync, H: Host, G: Gate>(
    rt: &R,
    alloc: Global,
    words: &[String],
    host: &mut H,
    _gate: &G,
) -> u8
    // What stops the words before any file is opened is returned, or out of memory, and the host is asked only to print.
    ensures refused { (stops : Stop) → Asks (map string_bytes words.now) (Err stops) → Refuses (H.world host.old) (H.world host.new) stops result }
    // A status of 2, 3, 4, 5 or 15 is that of what stops the words.
    ensures stands { IsOfWords result → (stops : Stop) × Asks (map string_bytes words.now) (Err stops) × StopsAt (H.world host.old) (H.world host.new) stops result }
    // A status of 6, 7, 8 or 9 is that of the file of the input. After a damage the output holds all that came before it.
    ensures names { IsOfFile result → (request : Request) × Asks (map string_bytes words.now) (Ok request)
        × MayHold ((H.world host.old).held request.input) (IsNamed greatest_input request (H.world host.old) (H.world host.new) result) }
    // A status of 10 is that of a limit of the words, or of the file's bytes.
    ensures limits { IsOfLimit result → ((stops : Stop) × Asks (map string_bytes words.now) (Err stops) × StopsAt (H.world host.old) (H.world host.new) stops result)
        ⊎ ((request : Request) × Asks (map string_bytes words.now) (Ok request)
        × MayHold ((H.world host.old).held request.input) (IsNamed greatest_input request (H.world host.old) (H.world host.new) result)) }

    // At status 0 the words ask for something, and it was done.
    ensures done { result ≡ 0 → (request : Request) × Asks (map string_bytes words.now) (Ok request)
        × MayHold ((H.world host.old).held request.input) (IsDone greatest_input request (H.world host.old) (H.world host.new)) }
    // If no call of the host failed but prints, the status is the one that the words and the file have, or out of memory.
    ensures complete { IsQuiet (H.world host.old).faults (H.world host.new).faults → Concludes greatest_input (map string_bytes words.now) (H.world host.old) result }

    // A status of 11, 12 or 13 comes exactly if its count rose.
    ensures cause { HasCause (H.world host.old).faults (H.world host.new).faults result }

    // Only the output changes, once the header was read and the filters are ready, and it holds a beginning of the result.
    ensures kept { Keeps greatest_input (map string_bytes words.now) (H.world host.old) (H.world host.new) }

    ensures said { result ≢ 0 → SaysStatus (H.world host.old) (H.world host.new) result }
{
    act(rt, alloc, words, host)
}
