//! The events of worked filters over two inputs, which end after their lists.
use crate::checked::{current, end, push};
use crate::{After, Before, Rule, Step, Timeline};
use av_base::List;
use std::alloc::Global;
use std::test::Fail;

/// The most steps of a run here.
const STEPS: u32 = 100;

/// An event with the current frames of two inputs.
#[derive(Clone, Copy, Debug, PartialEq, Eq)]
struct Shown {
    pts: i64,
    first: Option<u64>,
    second: Option<u64>,
}

/// A row of a table: an event with the numbers of two current frames.
fn both(pts: i64, first: u64, second: u64) -> Shown {
    Shown {
        pts,
        first: Some(first),
        second: Some(second),
    }
}

/// A row of a table: an event at which the second input has no current frame.
fn alone(pts: i64, first: u64) -> Shown {
    Shown {
        pts,
        first: Some(first),
        second: None,
    }
}

/// The rules of the two inputs of a filter.
fn rules(first: (Before, After, u8), second: (Before, After, u8)) -> [Rule; 2] {
    let (before, after, sync) = first;
    let main = Rule {
        before,
        after,
        sync,
    };
    let (before, after, sync) = second;
    let other = Rule {
        before,
        after,
        sync,
    };
    [main, other]
}

/// Pushes the next time of a list, or ends the input after the last one.
fn feed(timeline: &mut Timeline, alloc: Global, input: u32, list: &mut &[i64]) -> Result<(), Fail> {
    match *list {
        [first, rest @ ..] => {
            push(timeline, alloc, input, *first)?;
            *list = rest;
        }
        [] => end(timeline, input)?,
    }
    Ok(())
}

/// All events of a filter over these lists, with the current frames.
fn run(
    alloc: Global,
    rules: [Rule; 2],
    mut first: &[i64],
    mut second: &[i64],
) -> Result<Vec<Shown>, Fail> {
    let mut timeline = Timeline::new(alloc, List::new(rules.to_vec(alloc)?))?;
    let mut events = Vec::new(alloc);
    for _ in 0..STEPS {
        match timeline.next() {
            Step::Done => return Ok(events),
            Step::Need { input: 0 } => feed(&mut timeline, alloc, 0, &mut first)?,
            Step::Need { .. } => feed(&mut timeline, alloc, 1, &mut second)?,
            Step::Event { pts } => {
                let first = current(&timeline, 0)?;
                let second = current(&timeline, 1)?;
                events.push(Shown { pts, first, second })?;
            }
        }
    }
    Err("the run doesn't end".into())
}

#[test]
fn overlay_goes_on_over_the_last_frame(rt: HostRuntime) -> Result<(), Fail> {
    let overlay = rules(
        (Before::Stop, After::Infinity, 2),
        (Before::Null, After::Infinity, 1),
    );
    let shown = run(rt.alloc(), overlay, &[0, 1, 2], &[0, 1, 2, 3, 4])?;
    let wanted = [
        both(0, 0, 0),
        both(1, 1, 1),
        both(2, 2, 2),
        both(3, 2, 3),
        both(4, 2, 4),
    ];
    assert_eq!(rt; shown.as_slice(), wanted.as_slice());
    Ok(())
}

#[test]
fn overlay_ends_with_the_shortest(rt: HostRuntime) -> Result<(), Fail> {
    let shortest = rules(
        (Before::Stop, After::Stop, 2),
        (Before::Null, After::Stop, 1),
    );
    let shown = run(rt.alloc(), shortest, &[0, 1, 2], &[0, 1, 2, 3, 4])?;
    let wanted = [both(0, 0, 0), both(1, 1, 1), both(2, 2, 2)];
    assert_eq!(rt; shown.as_slice(), wanted.as_slice());
    Ok(())
}

#[test]
fn overlay_passes_the_main_frames(rt: HostRuntime) -> Result<(), Fail> {
    let pass = rules(
        (Before::Stop, After::Infinity, 2),
        (Before::Null, After::Null, 0),
    );
    let shown = run(rt.alloc(), pass, &[0, 1, 2, 3, 4], &[0, 1, 2])?;
    let wanted = [
        both(0, 0, 0),
        both(1, 1, 1),
        both(2, 2, 2),
        alone(3, 3),
        alone(4, 4),
    ];
    assert_eq!(rt; shown.as_slice(), wanted.as_slice());
    Ok(())
}

#[test]
fn stacks_follow_both_rates(rt: HostRuntime) -> Result<(), Fail> {
    let stack = rules(
        (Before::Stop, After::Infinity, 1),
        (Before::Stop, After::Infinity, 1),
    );
    let shown = run(rt.alloc(), stack, &[0, 1200, 2400], &[0, 1001, 2002])?;
    let wanted = [
        both(0, 0, 0),
        both(1001, 0, 1),
        both(1200, 1, 1),
        both(2002, 1, 2),
        both(2400, 2, 2),
    ];
    assert_eq!(rt; shown.as_slice(), wanted.as_slice());
    Ok(())
}

#[test]
fn shortest_stacks_leave_the_last_out(rt: HostRuntime) -> Result<(), Fail> {
    let shortest = rules(
        (Before::Stop, After::Stop, 1),
        (Before::Stop, After::Stop, 1),
    );
    let shown = run(rt.alloc(), shortest, &[0, 1200, 2400], &[0, 1001, 2002])?;
    let wanted = [
        both(0, 0, 0),
        both(1001, 0, 1),
        both(1200, 1, 1),
        both(2002, 1, 2),
    ];
    assert_eq!(rt; shown.as_slice(), wanted.as_slice());
    Ok(())
}
