ghost use Rattle.std.specs.Prelude.{◌≡◌, ◌<◌, ◌^◌, length, All, IfOk};
ghost use Rattle.graph_plan.specs.declared.plan.Pads.{Pads};

use crate::{DraftPlan, Edge, OpenOut, Pads, PlanError, PlanFault, Source, Target, link};
use av_base::{List, Media};
use graph_text::{GraphText, parse};
use std::alloc::{AllocError, Global};
use std::fmt::Write;
use std::process::Abort;
use std::test::Fail;

/// A list of kinds: `v` for video, `a` for audio.
fn kinds(rt: &impl Abort, alloc: Global, text: &str) -> Result<Vec<Media>, AllocError>
    ensures { IfOk result (λ kinds. length kinds.items < 2 ^ 32) }
{
    let mut kinds = Vec::new(alloc);
    for letter in text.chars() {
        kinds.push(if letter == 'a' {
            Media::Audio
        } else {
            Media::Video
        })?;
    }
    assert!(rt; kinds.len() < 2000);
    Ok(kinds)
}

/// What the pads of the filter of this name take and give.
fn kinds_of(name: &str) -> (&str, &str) {
    match name {
        "anull" => ("a", "a"),
        "split" => ("v", "vv"),
        "hstack" => ("vv", "v"),
        "concat" => ("va", "va"),
        "nullsink" => ("v", ""),
        "color" => ("", "v"),
        "sixteen" => ("vvvvvvvvvvvvvvvv", "vvvvvvvvvvvvvvvv"),
        _ => ("v", "v"),
    }
}

/// The pads of each call's filter.
fn pads_of(rt: &impl Abort, alloc: Global, text: &GraphText) -> Result<List<Pads>, AllocError>
    ensures each { IfOk result (λ all. length all ≡ length text.now.calls) }
    ensures small { IfOk result (All (λ (p : Pads). length p.outs < 2 ^ 32)) }
{
    let mut all = Vec::new(alloc);
    'calls: for call in text.calls.as_slice() {
        let (ins, outs) = kinds_of(call.name.as_str());
        let ins = List::new(kinds(rt, alloc, ins)?);
        let outs = List::new(kinds(rt, alloc, outs)?);
        all.push(Pads { ins, outs })?;
    }
    Ok(List::new(all))
}

/// The draft of a text, of files that give these kinds, and of this number of outputs.
pub(crate) fn draft(
    rt: &impl Abort,
    alloc: Global,
    text: &str,
    files: &str,
    outputs: u32,
) -> Result<Result<DraftPlan, PlanError>, AllocError> {
    assert!(rt; text.len() < 100_000);
    let Ok(text) = parse(alloc, text) else {
        panic!(rt; "the text has no reading");
    };
    assert!(rt; text.calls.as_slice().len() < 2000);
    let pads = pads_of(rt, alloc, &text)?;
    let files = kinds(rt, alloc, files)?;
    Ok(link(alloc, &text, &pads, files.as_slice(), outputs))
}

/// Writes a link: the file or pad where it begins, `>`, and the pad where it ends.
fn write_link(text: &mut String, link: &Edge) -> Result<(), AllocError> {
    match link.from {
        Source::Input { input } => write!(text, "{input}>")?,
        Source::Filter { filter, pad } => write!(text, "{filter}.{pad}>")?,
    }
    match link.to {
        Target::Filter { filter, pad } => write!(text, "{filter}.{pad} "),
        Target::Output { output } => write!(text, "out {output} "),
    }
}

/// Writes a pad that is left: its place, label and kind.
fn write_open(text: &mut String, open: &OpenOut) -> Result<(), AllocError> {
    write!(text, " {}.{}", open.filter, open.pad)?;
    if let Some(label) = &open.label {
        write!(text, "[{}]", label.as_str())?;
    }
    text.push_str(match open.media {
        Media::Audio => "a",
        Media::Video => "v",
    })
}

/// Writes a draft: its links, `|`, the order, and the pads that are left.
fn write_draft(alloc: Global, draft: &DraftPlan) -> Result<String, AllocError> {
    let mut text = String::new(alloc);
    for link in draft.links.as_slice() {
        write_link(&mut text, link)?;
    }
    text.push_str("|")?;
    for filter in draft.order.as_slice() {
        write!(text, " {filter}")?;
    }
    text.push_str(";")?;
    for open in draft.opens.as_slice() {
        write_open(&mut text, open)?;
    }
    Ok(text)
}

/// Texts, what the files give, and the drafts.
const DRAWN: [(&str, &str, &str); 13] = [
    ("null", "v", "0>0.0 | 0; 0.0v"),
    ("null,null", "v", "0>0.0 0.0>1.0 | 0 1; 1.0v"),
    (
        "[0:v]null[x];[x]null[y]",
        "v",
        "0>0.0 0.0>1.0 | 0 1; 1.0[y]v",
    ),
    // A filter takes from a later one.
    ("[x]null;null[x]", "v", "1.0>0.0 0>1.0 | 1 0; 0.0v"),
    (
        "split[a][b];[a]null[c];[b]null[d]",
        "v",
        "0>0.0 0.0>1.0 0.1>2.0 | 0 1 2; 1.0[c]v 2.0[d]v",
    ),
    // A label names an output pad, so that the next filter doesn't take it.
    (
        "split[a],null;[a]null",
        "v",
        "0>0.0 0.1>1.0 0.0>2.0 | 0 1 2; 1.0v 2.0v",
    ),
    ("split,hstack", "v", "0>0.0 0.0>1.0 0.1>1.1 | 0 1; 1.0v"),
    // Files by label, several times, and then those that are left, by kind.
    (
        "[0]hstack;[0:v:0]null",
        "vv",
        "0>0.0 1>0.1 0>1.0 | 0 1; 0.0v 1.0v",
    ),
    (
        "concat;[2:a:0]anull",
        "vaa",
        "0>0.0 1>0.1 2>1.0 | 0 1; 0.0v 0.1a 1.0a",
    ),
    ("hstack;null", "vavv", "0>0.0 2>0.1 3>1.0 | 0 1; 0.0v 1.0v"),
    ("[0001:a]anull", "va", "1>0.0 | 0; 0.0a"),
    // An output's label is never a file's.
    ("[0:v]null;null[0:v]", "v", "1.0>0.0 0>1.0 | 1 0; 0.0v"),
    ("color[a:b];[a:b]nullsink", "", "0.0>1.0 | 0 1;"),
];

#[test]
fn pads_take_from_labels_neighbours_and_files(rt: HostRuntime) -> Result<(), Fail> {
    for (text, files, drawn) in DRAWN {
        match draft(&rt, rt.alloc(), text, files, 1)? {
            Ok(draft) => {
                let text = write_draft(rt.alloc(), &draft)?;
                assert_eq!(rt; text.as_str(), drawn);
            }
            Err(_) => assert!(rt; false),
        }
    }
    Ok(())
}

/// Texts, what the files give, and the faults.
const FAULTS: [(&str, &str, PlanFault); 25] = [
    ("split,null", "v", PlanFault::PadCount { filter: 1 }),
    ("[a][b]null", "v", PlanFault::PadCount { filter: 0 }),
    ("null;null[a][b]", "v", PlanFault::PadCount { filter: 1 }),
    ("color,[a]null", "v", PlanFault::PadCount { filter: 1 }),
    (
        "null[a];null[a];[b]null",
        "v",
        PlanFault::LabelTwice { filter: 1 },
    ),
    (
        "[a]null;[a]null;null[a]",
        "v",
        PlanFault::LabelTwice { filter: 1 },
    ),
    (
        "null[a];null[b];null[b];[a][a]hstack",
        "v",
        PlanFault::LabelTwice { filter: 2 },
    ),
    (
        "null[b];[b]null;[b]null[b]",
        "v",
        PlanFault::LabelTwice { filter: 2 },
    ),
    ("[9:v]null", "v", PlanFault::UnknownInput { filter: 0 }),
    ("[a]null", "v", PlanFault::UnknownInput { filter: 0 }),
    ("null;[1]null", "v", PlanFault::UnknownInput { filter: 1 }),
    ("[00000]null", "v", PlanFault::UnknownInput { filter: 0 }),
    ("[0:v:1]null", "v", PlanFault::UnknownInput { filter: 0 }),
    ("[0:]null", "v", PlanFault::UnknownInput { filter: 0 }),
    ("[:v]null", "v", PlanFault::UnknownInput { filter: 0 }),
    ("[0:a]anull", "v", PlanFault::MediaMismatch { filter: 0 }),
    ("[0]anull", "v", PlanFault::MediaMismatch { filter: 0 }),
    ("[0:a]null", "v", PlanFault::MediaMismatch { filter: 0 }),
    (
        "null[x];null;[x]anull",
        "vv",
        PlanFault::MediaMismatch { filter: 2 },
    ),
    ("null,anull", "v", PlanFault::MediaMismatch { filter: 1 }),
    (
        "anull;null;[c]null[a];[a]null[b];[b]null[c]",
        "",
        PlanFault::Cycle { filter: 2 },
    ),
    ("[a]null[a]", "", PlanFault::Cycle { filter: 0 }),
    ("anull", "v", PlanFault::OpenPad { filter: 0, pad: 0 }),
    (
        "null;hstack",
        "vv",
        PlanFault::OpenPad { filter: 1, pad: 1 },
    ),
    (
        "null;[0]null",
        "v",
        PlanFault::OpenPad { filter: 0, pad: 0 },
    ),
];

#[test]
fn each_fault_names_the_first_filter_that_has_it(rt: HostRuntime) -> Result<(), Fail> {
    for (text, files, fault) in FAULTS {
        match draft(&rt, rt.alloc(), text, files, 1)? {
            Ok(_) => assert!(rt; false),
            Err(error) => assert_eq!(rt; error, PlanError::Fault(fault)),
        }
    }
    Ok(())
}

#[test]
fn a_thousand_and_twenty_four_links_are_the_most(rt: HostRuntime) -> Result<(), Fail> {
    let mut text = String::from_str(rt.alloc(), "color,null[a];[a]sixteen")?;
    for _ in 1..63 {
        text.push_str(",sixteen")?;
    }
    // The input pad of `null`, and 63 times 16 of the others.
    let files = "vvvvvvvvvvvvvvv";
    match draft(&rt, rt.alloc(), text.as_str(), files, 15)? {
        Ok(draft) => assert_eq!(rt; draft.links.as_slice().len(), 1009),
        Err(_) => assert!(rt; false),
    }
    match draft(&rt, rt.alloc(), text.as_str(), files, 16)? {
        Ok(_) => assert!(rt; false),
        Err(error) => assert_eq!(rt; error, PlanError::Fault(PlanFault::TooManyLinks)),
    }
    Ok(())
}
