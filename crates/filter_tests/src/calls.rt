//! What the first call of a text means, and what its filter makes of a picture.
ghost use Rattle.std.specs.Prelude.{◌≡◌, [], ◌∷◌, IfOk};
ghost use Rattle.av_frame.specs.FilterLaws.{one_to};
ghost use Rattle.av_frame.specs.Frames.{FrameValue};
ghost use Rattle.av_base.specs.Shapes.{IsPictureShape};
ghost use Rattle.node_core.specs.Shaping.{Takes, IsReady};

use crate::pictures::{DURATION, Input, PTS, picture_of_numbers, shape_of, written};
use av_base::{List, NoMemory, Shape};
use av_frame::{ConfigError, Filter, Frame, Given, OptionError};
use graph_text::parse;
use node_core::{Instance, Kind, Ready};
use std::alloc::Global;
use std::process::Abort;
use std::thread::Threads;

/// The filter of the first call of a text.
pub(crate) fn read(rt: &impl Abort, alloc: Global, text: &str) -> Result<Kind, OptionError> {
    assert!(rt; text.len() < 1_000);
    let Ok(text) = parse(alloc, text) else {
        return Err(OptionError::NoMemory);
    };
    let calls = text.calls.as_slice();
    assert!(rt; !calls.is_empty());
    assert!(rt; calls[0].args.as_slice().len() < 1_000);
    Kind::read(alloc, &calls[0])
}

/// A filter that is configured for pictures of a shape.
fn ready_for(alloc: Global, kind: &Kind, shape: Shape) -> Result<Ready, ConfigError>
    requires picture { IsPictureShape shape }
    requires takes { Takes kind.now shape.format }
    ensures { IfOk result (IsReady kind.now shape) }
{
    let ins = List::new(vec![in alloc; shape]?);
    let chosen = List::new(vec![in alloc; shape.format]?);
    kind.configure(alloc, &ins, &chosen)
}

/// A filter that runs, for pictures of a shape.
fn started(alloc: Global, ready: &Ready, shape: Shape) -> Result<Instance, NoMemory>
    requires { (kind : Kind) × IsReady kind shape ready.now }
    ensures pads { IfOk result (λ f. ⟦<Instance as Filter>⟧.pads f ≡ one_to 1) }
    ensures accepts { IfOk result (λ f. (x : FrameValue) → x.shape ≡ shape → ⟦<Instance as Filter>⟧.accepts f 0 x) }
{
    ready.start(alloc)
}

/// The answer to a call, for pictures of a shape.
#[derive(Clone, Copy, Debug, PartialEq, Eq)]
pub(crate) enum Answer {
    /// Its arguments are rejected.
    Arguments(OptionError),
    /// Its filter does not take pictures of this format.
    Format,
    /// Its settings are rejected.
    Settings(ConfigError),
    /// Its filter gives pictures of this shape.
    Gives(Shape),
}

/// The shape of the only output; the other shape if there is not one output.
fn output(ready: &Ready, other: Shape) -> Shape {
    let outs = ready.outs().as_slice();
    if outs.len() == 1 { outs[0] } else { other }
}

/// The answer to the first call of a text.
pub(crate) fn answer_to(rt: &impl Abort, alloc: Global, text: &str, shape: Shape) -> Answer
    requires { IsPictureShape shape }
{
    let kind = match read(rt, alloc, text) {
        Ok(kind) => kind,
        Err(error) => return Answer::Arguments(error),
    };
    if !kind.takes(shape.format) {
        return Answer::Format;
    }
    match ready_for(alloc, &kind, shape) {
        Ok(ready) => Answer::Gives(output(&ready, shape)),
        Err(error) => Answer::Settings(error),
    }
}

/// The frame that a filter makes of one.
fn through<F: Filter, R: Threads + Sync>(
    filter: &mut F,
    rt: &R,
    alloc: Global,
    frame: Frame,
) -> Result<Option<Frame>, NoMemory>
    requires pads { F.pads filter.old ≡ one_to 1 }
    requires accepts { F.accepts filter.old 0 frame }
{
    if filter.closed(0) {
        return Ok(None);
    }
    if filter.offer(alloc, 0, frame).is_err() {
        return Err(NoMemory);
    }
    match filter.give(rt, alloc, 1, 0)? {
        Given::Frame(frame) => Ok(Some(frame)),
        Given::Nothing | Given::End => Ok(None),
    }
}

/// The frame that the filter of a kind makes of one. Its shape is that of the filter's output.
fn run<R: Abort + Threads + Sync>(
    rt: &R,
    alloc: Global,
    kind: &Kind,
    frame: Frame,
) -> Result<Option<Frame>, NoMemory>
    requires { Takes kind.now frame.shape.format }
{
    let shape = frame.shape();
    let Ok(ready) = ready_for(alloc, kind, shape) else {
        return Ok(None);
    };
    let mut filter = started(alloc, &ready, shape)?;
    let made = through(&mut filter, rt, alloc, frame)?;
    if let Some(made) = &made {
        assert_eq!(rt; made.shape(), output(&ready, shape));
    }
    Ok(made)
}

/// The samples that the filter of a text's first call makes of a picture, which keeps its time.
pub(crate) fn made<R: Abort + Threads + Sync>(
    rt: &R,
    alloc: Global,
    text: &str,
    frame: Frame,
) -> Result<String, NoMemory> {
    let Ok(kind) = read(rt, alloc, text) else {
        return Ok(String::from_str(alloc, "arguments")?);
    };
    if !kind.takes(frame.shape().format) {
        return Ok(String::from_str(alloc, "format")?);
    }
    let Some(frame) = run(rt, alloc, &kind, frame)? else {
        return Ok(String::from_str(alloc, "settings")?);
    };
    assert_eq!(rt; (frame.pts(), frame.duration()), (PTS, DURATION));
    written(alloc, frame)
}

/// A call, a picture of numbered samples, and the samples that are made of it.
pub(crate) type Row = (&'static str, Input, &'static str);

/// Checks what is made of a picture of numbered samples.
pub(crate) fn check_row<R: Abort + Threads + Sync>(
    rt: &R,
    alloc: Global,
    row: &Row,
) -> Result<(), NoMemory> {
    let (text, input, wanted) = *row;
    let frame = picture_of_numbers(alloc, shape_of(input))?;
    let found = made(rt, alloc, text, frame)?;
    assert_eq!(rt; found.as_str(), wanted, "by {text}");
    Ok(())
}

/// Checks what is made of each picture of a table.
pub(crate) fn check_rows<R: Abort + Threads + Sync>(
    rt: &R,
    alloc: Global,
    rows: &[Row],
) -> Result<(), NoMemory> {
    for row in rows {
        check_row(rt, alloc, row)?;
    }
    Ok(())
}
