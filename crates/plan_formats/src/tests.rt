use crate::{choose_formats, law};
use av_base::{Format, FormatSet, List, NoMemory, PixelFormat};
use av_frame::OptionError;
use graph_formats::FormatError;
use graph_plan::{Edge, Source, Target};
use graph_text::parse;
use node_core::Kind;
use std::alloc::Global;
use std::process::Abort;

const GRAY: Format = Format::Video(PixelFormat::Gray);

const YUV420: Format = Format::Video(PixelFormat::Yuv420p);

/// The filters of a text.
fn kinds_of(rt: &impl Abort, alloc: Global, text: &str) -> Result<Vec<Kind>, OptionError> {
    assert!(rt; text.len() < 1_000);
    let Ok(text) = parse(alloc, text) else {
        return Err(OptionError::NoMemory);
    };
    let mut kinds = Vec::new(alloc);
    for call in text.calls.as_slice() {
        assert!(rt; call.args.as_slice().len() < 1_000);
        kinds.push(Kind::read(alloc, call)?)?;
    }
    Ok(kinds)
}

/// The links of a path through this number of filters.
fn path(alloc: Global, filters: u32) -> Result<Vec<Edge>, NoMemory> {
    let mut links = Vec::new(alloc);
    let mut from = Source::Input { input: 0 };
    for filter in 0..filters {
        let to = Target::Filter { filter, pad: 0 };
        links.push(Edge { from, to })?;
        from = Source::Filter { filter, pad: 0 };
    }
    let to = Target::Output { output: 0 };
    links.push(Edge { from, to })?;
    Ok(links)
}

/// The formats of a path through the filters of a text.
fn formats_on(
    rt: &impl Abort,
    alloc: Global,
    text: &str,
    input: Format,
    output: FormatSet,
) -> Result<List<Format>, FormatError> {
    let Ok(kinds) = kinds_of(rt, alloc, text) else {
        return Err(FormatError::NoMemory);
    };
    assert!(rt; kinds.len() < 1_000);
    let links = path(alloc, kinds.len() as u32)?;
    assert!(rt; links.len() < 1_000);
    choose_formats(alloc, &links, &kinds, &[input], &[output])
}

/// Checks that the links of a path have no formats.
fn check_none(rt: &impl Abort, alloc: Global, text: &str, input: Format, output: FormatSet) {
    match formats_on(rt, alloc, text, input, output) {
        Ok(_) => assert!(rt; false, "{text} has formats"),
        Err(error) => assert_eq!(rt; error, FormatError::NoCommonFormat { link: 0 }),
    }
}

#[test]
fn all_links_of_a_path_have_the_format_of_the_input(rt: HostRuntime) -> Result<(), FormatError> {
    let text = "null,format=yuv420p|gray";
    for format in [YUV420, GRAY] {
        let formats = formats_on(&rt, rt.alloc(), text, format, FormatSet::all())?;
        assert!(rt; formats.as_slice() == [format, format, format].as_slice());
    }
    law::plans_ask_of_formats();
    Ok(())
}

#[test]
fn a_format_that_a_filter_or_the_output_refuses_has_no_formats(rt: HostRuntime) {
    let alloc = rt.alloc();
    check_none(&rt, alloc, "format=gray", YUV420, FormatSet::all());
    check_none(&rt, alloc, "null,format=gray", YUV420, FormatSet::all());
    check_none(&rt, alloc, "null", YUV420, FormatSet::of(GRAY));
}
