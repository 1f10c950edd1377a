ghost use Rattle.std.specs.Prelude.{IsTrue, ◌<◌, ◌^◌, length};
ghost use Rattle.graph_formats.specs.Assignments.{AreBelow, AreWishesBelow, AreRelationsBelow};

use crate::slow_choice::first_assignment;
use crate::{FormatError, Relation, Wish, choose, formats_are_chosen_in_one_way};
use av_base::{FORMATS, Format, FormatSet, List, PixelFormat, SampleFormat};
use std::alloc::{AllocError, Global};
use std::test::Fail;

const GRAY: Format = Format::Video(PixelFormat::Gray);

const YUV420: Format = Format::Video(PixelFormat::Yuv420p);

const YUV422: Format = Format::Video(PixelFormat::Yuv422p);

const YUV444: Format = Format::Video(PixelFormat::Yuv444p);

const YUVA420: Format = Format::Video(PixelFormat::Yuva420p);

const YUVA422: Format = Format::Video(PixelFormat::Yuva422p);

const YUVA444: Format = Format::Video(PixelFormat::Yuva444p);

const U8: Format = Format::Audio(SampleFormat::U8);

const S16: Format = Format::Audio(SampleFormat::S16);

const S32: Format = Format::Audio(SampleFormat::S32);

/// One format for two links.
fn same(a: u32, b: u32) -> Relation {
    Relation::Same { a, b }
}

/// A format for a link, and the same with an alpha plane for another.
fn alpha(plain: u32, alpha: u32) -> Relation {
    Relation::WithAlpha { plain, alpha }
}

/// A wish for these formats.
fn wish(link: u32, formats: &[Format]) -> Wish {
    let mut set = FormatSet::empty();
    for format in formats {
        set = set.with(*format);
    }
    Wish { link, set }
}

/// Whether each link that the wishes name is below `links`.
fn are_wishes_below(links: u32, wishes: &[Wish]) -> bool
    ensures { IsTrue result → AreWishesBelow links wishes.now }
{
    wishes.iter().all(|wish| wish.link < links)
}

/// Whether each link that the relations name is below `links`.
fn are_relations_below(links: u32, relations: &[Relation]) -> bool
    ensures { IsTrue result → AreRelationsBelow links relations.now }
{
    relations.iter().all(|relation| {
        let (first, second) = relation.links();
        first < links && second < links
    })
}

/// Whether each link that the wishes and the relations name is below `links`.
fn are_below(links: u32, wishes: &List<Wish>, relations: &List<Relation>) -> bool
    ensures { IsTrue result → AreBelow links wishes.now relations.now }
{
    are_wishes_below(links, wishes.as_slice()) && are_relations_below(links, relations.as_slice())
}

/// The wishes and the relations as lists.
fn lists(
    alloc: Global,
    wishes: &[Wish],
    relations: &[Relation],
) -> Result<(List<Wish>, List<Relation>), AllocError> {
    let mut all = Vec::new(alloc);
    all.extend_from_slice(wishes)?;
    let mut ties = Vec::new(alloc);
    ties.extend_from_slice(relations)?;
    Ok((List::new(all), List::new(ties)))
}

/// What is chosen for this number of links, or none if a wish or relation names another link.
fn chosen(
    alloc: Global,
    links: u32,
    wishes: &[Wish],
    relations: &[Relation],
) -> Result<Option<Result<List<Format>, FormatError>>, AllocError> {
    let (all, ties) = lists(alloc, wishes, relations)?;
    if !are_below(links, &all, &ties) {
        return Ok(None);
    }
    Ok(Some(choose(alloc, links, &all, &ties)))
}

/// Whether the choice is that of the plain search through all listings.
fn agree(
    alloc: Global,
    links: u32,
    wishes: &[Wish],
    relations: &[Relation],
) -> Result<bool, AllocError> {
    let (all, ties) = lists(alloc, wishes, relations)?;
    if !are_below(links, &all, &ties) {
        return Ok(false);
    }
    let first = first_assignment(alloc, links as usize, all.as_slice(), ties.as_slice())?;
    match (choose(alloc, links, &all, &ties), first) {
        (Ok(found), Some(formats)) => Ok(found.as_slice() == formats.as_slice()),
        (Err(FormatError::NoCommonFormat { .. }), None) => Ok(true),
        _ => Ok(false),
    }
}

/// One of the 18 relations among three links.
fn relation(number: u32) -> Relation {
    let a = number % 3;
    let b = number / 3 % 3;
    if number < 9 { same(a, b) } else { alpha(a, b) }
}

/// Whether these formats are chosen for all links.
fn gives(
    alloc: Global,
    wishes: &[Wish],
    relations: &[Relation],
    formats: &[Format],
) -> Result<bool, AllocError>
    requires { length formats.now < 2 ^ 32 }
{
    match chosen(alloc, formats.len() as u32, wishes, relations)? {
        Some(Ok(found)) => Ok(found.as_slice() == formats),
        _ => Ok(false),
    }
}

/// Whether the part of a link has no formats, for four links.
fn refuses(
    alloc: Global,
    wishes: &[Wish],
    relations: &[Relation],
    link: u32,
) -> Result<bool, AllocError> {
    match chosen(alloc, 4, wishes, relations)? {
        Some(Err(error)) => Ok(error == FormatError::NoCommonFormat { link }),
        _ => Ok(false),
    }
}

#[test]
fn links_take_the_first_format_that_all_wishes_have(rt: HostRuntime) -> Result<(), Fail> {
    let alloc = rt.alloc();
    assert!(rt; gives(alloc, &[], &[], &[GRAY, GRAY])?);
    let wishes = [
        wish(0, &[YUV444, YUV420, S16]),
        wish(1, &[S32, YUVA444, U8]),
        wish(0, &[S16, YUV444]),
    ];
    assert!(rt; gives(alloc, &wishes, &[], &[YUV444, YUVA444])?);
    // The wishes of all links of a part count, in whatever order.
    let wishes = [wish(1, &[YUV422, YUV420]), wish(0, &[YUV444, YUV422])];
    assert!(rt; gives(alloc, &wishes, &[same(0, 1)], &[YUV422, YUV422])?);
    let wishes = [wish(2, &[U8, S16]), wish(0, &[S16, S32])];
    let relations = [same(1, 2), same(2, 0)];
    assert!(rt; gives(alloc, &wishes, &relations, &[S16, S16, S16])?);
    // Two parts, each with links between those of the other.
    let wishes = [wish(3, &[YUV444]), wish(2, &[S32])];
    let relations = [same(1, 3), same(0, 2)];
    assert!(rt; gives(alloc, &wishes, &relations, &[S32, YUV444, S32, YUV444])?);
    formats_are_chosen_in_one_way();
    Ok(())
}

#[test]
fn links_with_alpha_follow_from_the_lowest_link(rt: HostRuntime) -> Result<(), Fail> {
    let alloc = rt.alloc();
    assert!(rt; gives(alloc, &[], &[alpha(0, 1)], &[YUV420, YUVA420])?);
    assert!(rt; gives(alloc, &[], &[alpha(1, 0)], &[YUVA420, YUV420])?);
    let wishes = [wish(1, &[YUV420, YUV422]), wish(0, &[YUVA444, YUVA422])];
    assert!(rt; gives(alloc, &wishes, &[alpha(1, 0)], &[YUVA422, YUV422])?);
    // A later link is what keeps an earlier format out.
    let wishes = [wish(3, &[YUVA444, YUVA422]), wish(2, &FORMATS)];
    let relations = [same(0, 1), alpha(1, 3), same(2, 3)];
    assert!(rt;
        gives(
            alloc,
            &wishes,
            &relations,
            &[YUV422, YUV422, YUVA422, YUVA422]
        )?
    );
    // Relations that say a thing twice, in a circle, or of one link alone.
    let wishes = [wish(2, &[YUVA422])];
    let relations = [
        alpha(0, 1),
        same(1, 2),
        alpha(0, 2),
        same(2, 1),
        same(0, 0),
        alpha(0, 1),
    ];
    assert!(rt; gives(alloc, &wishes, &relations, &[YUV422, YUVA422, YUVA422])?);
    Ok(())
}

#[test]
fn the_lowest_link_of_the_first_part_without_formats_is_named(rt: HostRuntime) -> Result<(), Fail> {
    let alloc = rt.alloc();
    assert!(rt; refuses(alloc, &[wish(3, &[])], &[], 3)?);
    let wishes = [wish(2, &[YUV420]), wish(2, &[GRAY])];
    assert!(rt; refuses(alloc, &wishes, &[], 2)?);
    let wishes = [wish(3, &[YUV420]), wish(2, &[GRAY])];
    assert!(rt; refuses(alloc, &wishes, &[same(3, 1), same(1, 2)], 1)?);
    let wishes = [wish(3, &[YUV420]), wish(0, &[GRAY]), wish(2, &[])];
    assert!(rt; refuses(alloc, &wishes, &[same(0, 3)], 0)?);
    let wishes = [wish(1, &[YUV420]), wish(3, &[GRAY])];
    assert!(rt; refuses(alloc, &wishes, &[same(0, 2), same(3, 1)], 1)?);
    // Formats that have no other with an alpha plane, and one that has none without it.
    assert!(rt; refuses(alloc, &[wish(0, &[GRAY, U8])], &[alpha(0, 1)], 0)?);
    assert!(rt; refuses(alloc, &[wish(1, &[GRAY, YUV420])], &[alpha(0, 1)], 0)?);
    Ok(())
}

#[test]
fn relations_can_contradict_each_other(rt: HostRuntime) -> Result<(), Fail> {
    let alloc = rt.alloc();
    assert!(rt; refuses(alloc, &[], &[alpha(2, 2)], 2)?);
    assert!(rt; refuses(alloc, &[], &[same(1, 2), alpha(1, 2)], 1)?);
    assert!(rt; refuses(alloc, &[], &[alpha(1, 2), alpha(2, 1)], 1)?);
    assert!(rt; refuses(alloc, &[], &[alpha(1, 2), alpha(2, 3)], 1)?);
    let circle = [alpha(2, 3), same(3, 1), same(1, 2)];
    assert!(rt; refuses(alloc, &[], &circle, 1)?);
    Ok(())
}

#[test]
fn a_chain_of_all_links_has_one_format(rt: HostRuntime) -> Result<(), Fail> {
    let mut chain = Vec::new(rt.alloc());
    for link in 1..1024 {
        chain.push(same(link, link - 1))?;
    }
    let wishes = [wish(1023, &[S32, S16]), wish(512, &[U8, S32, S16])];
    match chosen(rt.alloc(), 1024, &wishes, chain.as_slice())? {
        Some(Ok(found)) => {
            assert_eq!(rt; found.as_slice().len(), 1024);
            assert!(rt; found.as_slice().iter().all(|format| *format == S16));
        }
        _ => assert!(rt; false),
    }
    Ok(())
}

#[test]
fn the_choice_is_the_first_listing_of_all(rt: HostRuntime) -> Result<(), Fail> {
    let alloc = rt.alloc();
    let few = [
        wish(0, &[YUVA420, YUV422, YUVA422, S16]),
        wish(2, &[YUV422, YUV420, YUVA422, S16]),
    ];
    let last = [wish(1, &[YUV444, YUVA444]), wish(2, &[YUVA444, YUV444])];
    for one in 0..18 {
        for other in one..18 {
            let relations = [relation(one), relation(other)];
            assert!(rt; agree(alloc, 3, &few, &relations)?);
            assert!(rt; agree(alloc, 3, &last, &relations)?);
        }
    }
    Ok(())
}
