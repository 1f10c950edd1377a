ghost use Rattle.std.specs.Prelude.{◌≡◌, ℕ, ◌≤◌, pos, IfOk};
ghost use Rattle.av_base.specs.Shapes.{columns_of, IsLawful, IsVideo, IsWithinLimits};
ghost use Rattle.av_frame.specs.FilterLaws.{one_to};
ghost use Rattle.av_filter.specs.Whole.{IsReady};

use crate::cards::Carded;
use crate::small_filters::FirstFrames;
use crate::synced::Synced;
use av_base::{Format, List, NoMemory, PixelFormat, Props, Ratio, Shape, TimeBase, VideoProps};
use av_filter::filter_whole;
use av_frame::{Edit, Filter, Frame, Given, Pools};
use filter_history::history;
use std::alloc::Global;
use std::thread::Threads;

/// The shape of pictures of 2x1 samples.
fn small() -> Shape
    ensures lawful { IsLawful result }
    ensures video { IsVideo result.format }
    ensures limits { IsWithinLimits result }
    ensures narrow { (p : ℕ) → columns_of result p ≤ 8 }
{
    Shape {
        format: Format::Video(PixelFormat::Gray),
        props: Props::Video(VideoProps {
            width: 2,
            height: 1,
            aspect: Ratio { num: 0, den: 1 },
            rate: Ratio { num: 25, den: 1 },
            base: TimeBase { num: 1, den: 25 },
            scan: b'p',
        }),
    }
}

/// A picture of samples of 0.
fn black(alloc: Global, pools: &mut Pools, shape: Shape, pts: u8) -> Result<Frame, NoMemory>
    requires lawful { IsLawful shape }
    requires video { IsVideo shape.format }
    requires limits { IsWithinLimits shape }
    ensures { IfOk result (λ f. (f.shape ≡ shape) × (f.pts ≡ pos pts)) }
{
    Ok(Edit::blank(alloc, pools, shape, 0)?.seal(i64::from(pts), 1))
}

/// What a filter gave, as a test reads it: the pts and a sample of a frame, or the name of the answer.
fn told(given: Result<Given, NoMemory>) -> (i64, i32) {
    match given {
        Ok(Given::Frame(mut frame)) => (frame.pts(), first_sample(&mut frame)),
        Ok(Given::Nothing) => (-1, -1),
        Ok(Given::End) => (-2, -2),
        Err(NoMemory) => (-3, -3),
    }
}

fn first_sample(frame: &mut Frame) -> i32 {
    let shape = frame.shape();
    if shape.planes() > 0 {
        let (columns, rows) = shape.plane_size(0);
        if rows > 0 && columns > 0 {
            return frame.sample(0, 0, 0);
        }
    }
    -4
}

const NOTHING: (i64, i32) = (-1, -1);

const END: (i64, i32) = (-2, -2);

/// Three pictures, at times 0, 1 and 2.
fn three(alloc: Global, pools: &mut Pools, shape: Shape) -> Result<List<Frame>, NoMemory>
    requires lawful { IsLawful shape }
    requires video { IsVideo shape.format }
    requires limits { IsWithinLimits shape }
    ensures { IfOk result (λ xs. IsReady (λ x. x.shape ≡ shape) xs) }
{
    let mut frames = Vec::new(alloc);
    frames.push(black(alloc, pools, shape, 0)?)?;
    frames.push(black(alloc, pools, shape, 1)?)?;
    frames.push(black(alloc, pools, shape, 2)?)?;
    Ok(List::new(frames))
}

/// All that a filter of one input gives for a whole stream.
fn given_for<F: Filter, R: Threads + Sync>(
    filter: &mut F,
    rt: &R,
    alloc: Global,
    frames: List<Frame>,
    outputs: u32,
) -> Result<List<List<Frame>>, NoMemory>
    requires pads { F.pads filter.old ≡ one_to outputs }
    requires ready { IsReady (F.accepts filter.old 0) frames }
{
    let mut inputs = Vec::new(alloc);
    inputs.push(frames)?;
    filter_whole(filter, rt, alloc, 1, List::new(inputs), outputs)
}

/// The times and first samples of what output 0 gave, as far as there are three.
fn told_all(given: List<List<Frame>>) -> [(i64, i32); 3] {
    let mut told = [NOTHING; 3];
    let mut lists = given.into_vec();
    if lists.is_empty() {
        return told;
    }
    let mut frames = lists.remove(0).into_vec();
    for place in 0..3 {
        if !frames.is_empty() {
            let mut frame = frames.remove(0);
            told[place] = (frame.pts(), first_sample(&mut frame));
        }
    }
    told
}

#[test]
fn each_gives_on_every_output_what_was_made(rt: HostRuntime) -> Result<(), NoMemory> {
    let alloc = rt.alloc();
    let shape = small();
    let pools = Pools::new(alloc)?;
    let mut frames = Pools::new(alloc)?;
    let mut carded = Carded::new(alloc, pools, shape)?;
    assert!(rt; carded.needs(0));
    let frame = black(alloc, &mut frames, shape, 7)?;
    carded.offer(alloc, 0, frame).ok().expect(&rt, "room");
    assert!(rt; !carded.needs(0));
    assert_eq!(rt; told(carded.give(&rt, alloc, 1, 1)), (7, 0));
    assert_eq!(rt; told(carded.give(&rt, alloc, 1, 1)), NOTHING);
    assert!(rt; carded.needs(0));
    carded.finish(0);
    assert!(rt; carded.closed(0));
    assert_eq!(rt; told(carded.give(&rt, alloc, 1, 1)), END);
    assert_eq!(rt; told(carded.give(&rt, alloc, 1, 0)), (7, 200));
    assert_eq!(rt; told(carded.give(&rt, alloc, 1, 0)), END);
    Ok(())
}

#[test]
fn a_filter_of_times_gives_frames_at_events(rt: HostRuntime) -> Result<(), NoMemory> {
    let alloc = rt.alloc();
    let shape = small();
    let mut frames = Pools::new(alloc)?;
    let mut synced = Synced::new(alloc);
    for (input, pts) in [(0, 3), (0, 5), (1, 2), (1, 4), (0, 8)] {
        let frame = black(alloc, &mut frames, shape, pts)?;
        if !synced.closed(input) {
            synced.offer(alloc, input, frame).ok().expect(&rt, "room");
        }
    }
    assert_eq!(rt; told(synced.give(&rt, alloc, 1, 0)), (3, 0));
    assert_eq!(rt; told(synced.give(&rt, alloc, 1, 0)), NOTHING);
    assert!(rt; synced.needs(1) && !synced.needs(0));
    synced.finish(1);
    assert_eq!(rt; told(synced.give(&rt, alloc, 1, 0)), (5, 0));
    synced.finish(0);
    assert_eq!(rt; told(synced.give(&rt, alloc, 1, 0)), (8, 0));
    assert_eq!(rt; told(synced.give(&rt, alloc, 1, 0)), END);
    assert!(rt; synced.closed(1));
    Ok(())
}

#[test]
fn a_filter_that_ends_early_closes_its_input(rt: HostRuntime) -> Result<(), NoMemory> {
    let alloc = rt.alloc();
    let shape = small();
    let mut frames = Pools::new(alloc)?;
    let mut first = FirstFrames::new(alloc, 2);
    for pts in 0..2 {
        let frame = black(alloc, &mut frames, shape, pts)?;
        if !first.closed(0) {
            first.offer(alloc, 0, frame).ok().expect(&rt, "room");
        }
    }
    assert!(rt; first.closed(0));
    assert_eq!(rt; told(first.give(&rt, alloc, 1, 0)), (0, 0));
    assert_eq!(rt; told(first.give(&rt, alloc, 1, 0)), (1, 0));
    assert_eq!(rt; told(first.give(&rt, alloc, 1, 0)), END);
    Ok(())
}

#[test]
fn calls_said_of_histories_do_what_the_filter_does(rt: HostRuntime) -> Result<(), NoMemory> {
    let alloc = rt.alloc();
    let shape = small();
    let mut frames = Pools::new(alloc)?;
    let mut first = FirstFrames::new(alloc, 2);
    history::starts(&first);
    history::obeys(&first);
    history::needs_open(&first);
    assert_eq!(rt; told(history::give(&mut first, &rt, alloc, 1, 0)), NOTHING);
    let frame = black(alloc, &mut frames, shape, 5)?;
    if !first.closed(0) {
        history::offer(&mut first, alloc, 0, frame)
            .ok()
            .expect(&rt, "room");
    }
    history::begins(&first);
    assert_eq!(rt; told(history::give(&mut first, &rt, alloc, 1, 0)), (5, 0));
    history::finish(&mut first, 0);
    history::settles(&first);
    assert_eq!(rt; told(history::give(&mut first, &rt, alloc, 1, 0)), END);
    history::closes_all(&first);
    Ok(())
}

#[test]
fn whole_streams_go_through_any_filter(rt: HostRuntime) -> Result<(), NoMemory> {
    let alloc = rt.alloc();
    let shape = small();
    let pools = Pools::new(alloc)?;
    let mut frames = Pools::new(alloc)?;
    let mut carded = Carded::new(alloc, pools, shape)?;
    let stream = three(alloc, &mut frames, shape)?;
    let given = given_for(&mut carded, &rt, alloc, stream, 2)?;
    assert_eq!(rt; told_all(given), [(0, 200), (1, 200), (2, 200)]);
    let mut first = FirstFrames::new(alloc, 2);
    let stream = three(alloc, &mut frames, shape)?;
    let given = given_for(&mut first, &rt, alloc, stream, 1)?;
    assert_eq!(rt; told_all(given), [(0, 0), (1, 0), NOTHING]);
    Ok(())
}
