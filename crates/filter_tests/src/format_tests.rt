//! What filters ask of the formats of their links.
use crate::calls::read;
use av_base::{Format, FormatSet, List, PixelFormat};
use av_frame::OptionError;
use graph_formats::{Relation, Wish};
use node_core::PadLinks;
use std::alloc::Global;
use std::process::Abort;

/// Checks that the filter of a text wishes these formats for its links, and one format for all.
fn check_wishes(
    rt: &impl Abort,
    alloc: Global,
    text: &str,
    set: FormatSet,
) -> Result<(), OptionError> {
    let kind = read(rt, alloc, text)?;
    let links = PadLinks {
        ins: List::new(vec![in alloc; 3]?),
        outs: List::new(vec![in alloc; 5, 8]?),
    };
    let asked = kind.formats(alloc, &links)?;
    let wishes = [
        Wish { link: 3, set },
        Wish { link: 5, set },
        Wish { link: 8, set },
    ];
    let relations = [Relation::Same { a: 3, b: 5 }, Relation::Same { a: 3, b: 8 }];
    assert!(rt; asked.wishes.as_slice() == wishes.as_slice(), "by {text}");
    assert!(rt;
        asked.relations.as_slice() == relations.as_slice(),
        "by {text}"
    );
    Ok(())
}

#[test]
fn filters_wish_the_formats_that_they_take(rt: HostRuntime) -> Result<(), OptionError> {
    let gray = FormatSet::of(Format::Video(PixelFormat::Gray));
    let both = gray.with(Format::Video(PixelFormat::Yuv420p));
    check_wishes(&rt, rt.alloc(), "format=gray|yuv420p", both)?;
    check_wishes(&rt, rt.alloc(), "null", FormatSet::all())
}
