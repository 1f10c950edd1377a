use crate::bind_tests::bind_files;
use crate::linking_tests::draft;
use crate::{Ending, Plan, PlanError, PlanFault};
use std::alloc::{AllocError, Global};
use std::process::Abort;
use std::test::Fail;

/// The plan of a text, of input files that give these kinds, and of these output files.
fn plan(
    rt: &impl Abort,
    alloc: Global,
    text: &str,
    inputs: &str,
    files: &[(&str, Ending)],
) -> Result<Result<Plan, PlanError>, AllocError> {
    assert!(rt; files.len() < 100);
    match draft(rt, alloc, text, inputs, files.len() as u32)? {
        Ok(draft) => bind_files(rt, alloc, draft, files),
        Err(error) => Ok(Err(error)),
    }
}

/// Texts, the number of outputs, and the fault that is named. Most have a fault of a later kind too, at an earlier filter.
const RANKED: [(&str, u32, PlanFault); 7] = [
    ("[a][b]null", 1024, PlanFault::TooManyLinks),
    ("[a][b]null", 1023, PlanFault::PadCount { filter: 0 }),
    (
        "null[a];null[a];null[b][c]",
        1,
        PlanFault::PadCount { filter: 2 },
    ),
    (
        "[z]null;null[a];null[a]",
        1,
        PlanFault::LabelTwice { filter: 2 },
    ),
    (
        "null,anull;[z]null",
        1,
        PlanFault::UnknownInput { filter: 2 },
    ),
    (
        "[a]null[a];null,anull",
        1,
        PlanFault::MediaMismatch { filter: 2 },
    ),
    ("[a]null[b];[b]null[a]", 1, PlanFault::Cycle { filter: 0 }),
];

#[test]
fn an_earlier_kind_of_fault_is_named_first(rt: HostRuntime) -> Result<(), Fail> {
    for (text, outputs, fault) in RANKED {
        match draft(&rt, rt.alloc(), text, "v", outputs)? {
            Ok(_) => assert!(rt; false, "{text} links"),
            Err(error) => assert_eq!(rt; error, PlanError::Fault(fault), "at {text}"),
        }
    }
    Ok(())
}

#[test]
fn outputs_are_bound_once_the_text_links(rt: HostRuntime) -> Result<(), Fail> {
    for (text, file, ending, fault) in [
        (
            "null[x]",
            "",
            Ending::Y4m,
            PlanFault::NoSuchOutput { output: 0 },
        ),
        (
            "split",
            "",
            Ending::Y4m,
            PlanFault::Unmapped { filter: 0, pad: 1 },
        ),
        // A pad of a kind that the file can't take, and a pad that is left.
        (
            "split[a][b]",
            "b",
            Ending::Wav,
            PlanFault::Unmapped { filter: 0, pad: 0 },
        ),
        (
            "null,null[a]",
            "a",
            Ending::Wav,
            PlanFault::WrongKind { output: 0 },
        ),
        // A file that finds no pad, and a pad that is left.
        (
            "split[a][b]",
            "c",
            Ending::Y4m,
            PlanFault::NoSuchOutput { output: 0 },
        ),
    ] {
        match plan(&rt, rt.alloc(), text, "v", &[(file, ending)])? {
            Ok(_) => assert!(rt; false, "{text} binds"),
            Err(error) => assert_eq!(rt; error, PlanError::Fault(fault), "at {text}"),
        }
    }
    Ok(())
}

#[test]
fn a_plan_has_a_thousand_and_twenty_four_links_at_most(rt: HostRuntime) -> Result<(), Fail> {
    let mut text = String::from_str(rt.alloc(), "null")?;
    for _ in 1..1023 {
        text.push_str(",null")?;
    }
    let files = [("", Ending::Y4m)];
    match plan(&rt, rt.alloc(), text.as_str(), "v", &files)? {
        Ok(plan) => {
            assert_eq!(rt; plan.links.as_slice().len(), 1024);
            assert_eq!(rt; plan.order.as_slice().len(), 1023);
        }
        Err(_) => assert!(rt; false),
    }
    text.push_str(",null")?;
    match plan(&rt, rt.alloc(), text.as_str(), "v", &files)? {
        Ok(_) => assert!(rt; false),
        Err(error) => assert_eq!(rt; error, PlanError::Fault(PlanFault::TooManyLinks)),
    }
    Ok(())
}
