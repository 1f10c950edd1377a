use crate::{
    DraftPlan, Edge, Ending, OpenOut, OutputFile, Plan, PlanError, PlanFault, Source, Target,
};
use av_base::{List, Media, Text};
use std::alloc::{AllocError, Global};
use std::process::Abort;
use std::test::Fail;

/// The label of this name, or none if it is empty.
fn label(alloc: Global, name: &str) -> Result<Option<Text>, AllocError> {
    if name.is_empty() {
        return Ok(None);
    }
    Ok(Some(Text::new(String::from_str(alloc, name)?)))
}

/// The link from the first input to the first filter.
fn first_link() -> Edge {
    Edge {
        from: Source::Input { input: 0 },
        to: Target::Filter { filter: 0, pad: 0 },
    }
}

/// The link from pad 1 of a filter to an output.
fn link(filter: u32, output: u32) -> Edge {
    Edge {
        from: Source::Filter { filter, pad: 1 },
        to: Target::Output { output },
    }
}

/// What a draft gives for these files: a file is its label and its ending.
pub(crate) fn bind_files(
    rt: &impl Abort,
    alloc: Global,
    draft: DraftPlan,
    files: &[(&str, Ending)],
) -> Result<Result<Plan, PlanError>, AllocError> {
    let mut outputs = Vec::new(alloc);
    for (name, ending) in files {
        outputs.push(OutputFile {
            label: label(alloc, name)?,
            ending: *ending,
        })?;
    }
    assert!(rt; outputs.len() < 100);
    Ok(draft.bind(alloc, &List::new(outputs)))
}

/// What a draft of one link, with these open pads, gives for these files: a pad is its filter, its label and its kind.
fn bind(
    rt: &impl Abort,
    alloc: Global,
    pads: &[(u32, &str, Media)],
    files: &[(&str, Ending)],
) -> Result<Result<Plan, PlanError>, AllocError> {
    let mut opens = Vec::new(alloc);
    for (filter, name, media) in pads {
        opens.push(OpenOut {
            filter: *filter,
            pad: 1,
            label: label(alloc, name)?,
            media: *media,
        })?;
    }
    let draft = DraftPlan {
        links: List::new(vec![in alloc; first_link()]?),
        order: List::new(vec![in alloc; 0u32, 1]?),
        opens: List::new(opens),
    };
    bind_files(rt, alloc, draft, files)
}

#[test]
fn files_take_the_pads_with_their_labels(rt: HostRuntime) -> Result<(), Fail> {
    let pads = [(3, "c", Media::Video), (5, "d", Media::Audio)];
    let files = [("d", Ending::Wav), ("c", Ending::Y4m)];
    match bind(&rt, rt.alloc(), &pads, &files)? {
        Ok(plan) => {
            let links = [first_link(), link(5, 0), link(3, 1)];
            assert_eq!(rt; plan.links.as_slice(), links.as_slice());
            assert_eq!(rt; plan.order.as_slice(), [0, 1].as_slice());
        }
        Err(_) => assert!(rt; false),
    }
    Ok(())
}

#[test]
fn files_without_labels_take_the_other_pads_in_order(rt: HostRuntime) -> Result<(), Fail> {
    let pads = [
        (2, "", Media::Audio),
        (3, "c", Media::Video),
        (5, "", Media::Video),
    ];
    let files = [
        ("", Ending::Frames),
        ("", Ending::Frames),
        ("c", Ending::Frames),
    ];
    match bind(&rt, rt.alloc(), &pads, &files)? {
        Ok(plan) => {
            let links = [first_link(), link(2, 0), link(5, 1), link(3, 2)];
            assert_eq!(rt; plan.links.as_slice(), links.as_slice());
        }
        Err(_) => assert!(rt; false),
    }
    Ok(())
}

#[test]
fn faults_of_files_come_before_those_of_pads_and_of_kinds(rt: HostRuntime) -> Result<(), Fail> {
    let pads = [(3, "c", Media::Audio), (5, "", Media::Video)];
    for (files, fault) in [
        (
            [("c", Ending::Y4m), ("e", Ending::Wav)],
            PlanFault::NoSuchOutput { output: 1 },
        ),
        (
            [("c", Ending::Y4m), ("c", Ending::Wav)],
            PlanFault::NoSuchOutput { output: 1 },
        ),
        (
            [("", Ending::Wav), ("", Ending::Wav)],
            PlanFault::NoSuchOutput { output: 1 },
        ),
        (
            [("", Ending::Y4m), ("c", Ending::Y4m)],
            PlanFault::WrongKind { output: 1 },
        ),
        (
            [("", Ending::Wav), ("c", Ending::Y4m)],
            PlanFault::WrongKind { output: 0 },
        ),
    ] {
        match bind(&rt, rt.alloc(), &pads, &files)? {
            Ok(_) => assert!(rt; false),
            Err(error) => assert_eq!(rt; error, PlanError::Fault(fault)),
        }
    }
    Ok(())
}

#[test]
fn the_first_pad_that_is_left_is_named(rt: HostRuntime) -> Result<(), Fail> {
    let pads = [
        (2, "b", Media::Audio),
        (3, "c", Media::Video),
        (5, "", Media::Video),
    ];
    for (file, filter) in [("b", 3), ("c", 2), ("", 2)] {
        match bind(&rt, rt.alloc(), &pads, &[(file, Ending::Y4m)])? {
            Ok(_) => assert!(rt; false),
            Err(error) => {
                let fault = PlanFault::Unmapped { filter, pad: 1 };
                assert_eq!(rt; error, PlanError::Fault(fault));
            }
        }
    }
    Ok(())
}
