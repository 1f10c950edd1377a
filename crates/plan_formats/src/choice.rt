//! The choice of formats for the links of a plan.
ghost use Rattle.std.specs.Prelude.{◌≡◌, ◌<◌, ◌^◌, IfOk, length, flat_map, option_to_list};
ghost use Rattle.std.specs.List.{enumerate_from};
ghost use Rattle.graph_formats.specs.Assignments.{IsChosen, IsFirstWithout, IfFault};
ghost use Rattle.plan_formats.specs.Wished.{source_wish, target_wish, end_wishes, plan_wishes, plan_relations};

use crate::pads::pad_links;
use av_base::{Format, FormatSet, List, NoMemory};
use graph_formats::{FormatError, Wish, choose};
use graph_plan::{Edge, Source, Target};
use node_core::{Kind, Wishes};
use std::alloc::Global;

/// What the file at the beginning of a link wishes: the format of its pictures.
fn source_wish(inputs: &[Format], link: u32, source: Source) -> Option<Wish>
    ensures { option_to_list result ≡ source_wish inputs.now link source }
{
    match source {
        Source::Input { input } => {
            let format = inputs.get(input as usize)?;
            let set = FormatSet::of(*format);
            Some(Wish { link, set })
        }
        Source::Filter { .. } => None,
    }
}

/// What the file at the end of a link wishes: one of the formats that it can hold.
fn target_wish(outputs: &[FormatSet], link: u32, target: Target) -> Option<Wish>
    ensures { option_to_list result ≡ target_wish outputs.now link target }
{
    match target {
        Target::Output { output } => {
            let set = *outputs.get(output as usize)?;
            Some(Wish { link, set })
        }
        Target::Filter { .. } => None,
    }
}

/// What the files at the ends of the links wish.
fn file_wishes(
    alloc: Global,
    links: &[Edge],
    inputs: &[Format],
    outputs: &[FormatSet],
) -> Result<Vec<Wish>, NoMemory>
    requires { length links.now < 2 ^ 32 }
    ensures { IfOk result (λ wishes. wishes.items ≡ flat_map (end_wishes inputs.now outputs.now) (enumerate_from 0 links.now)) }
{
    let mut wishes = Vec::new(alloc);
    'links: for (number, link) in links.iter().enumerate() {
        if let Some(wish) = source_wish(inputs, number as u32, link.from) {
            wishes.push(wish)?;
        }
        if let Some(wish) = target_wish(outputs, number as u32, link.to) {
            wishes.push(wish)?;
        }
    }
    Ok(wishes)
}

/// What the files and the filters ask of the links.
fn plan_wishes(
    alloc: Global,
    links: &[Edge],
    kinds: &[Kind],
    inputs: &[Format],
    outputs: &[FormatSet],
) -> Result<Wishes, NoMemory>
    requires links { length links.now < 2 ^ 32 }
    requires kinds { length kinds.now < 2 ^ 32 }
    ensures wishes { IfOk result (λ asked. asked.wishes ≡ plan_wishes links.now kinds.now inputs.now outputs.now) }
    ensures relations { IfOk result (λ asked. asked.relations ≡ plan_relations links.now kinds.now) }
{
    let mut wishes = file_wishes(alloc, links, inputs, outputs)?;
    let mut relations = Vec::new(alloc);
    'kinds: for (filter, kind) in kinds.iter().enumerate() {
        let pad_links = pad_links(alloc, links, filter as u32, kind)?;
        let asked = kind.formats(alloc, &pad_links)?;
        wishes.extend_from_slice(asked.wishes.as_slice())?;
        relations.extend_from_slice(asked.relations.as_slice())?;
    }
    Ok(Wishes {
        wishes: List::new(wishes),
        relations: List::new(relations),
    })
}

/// The formats of a plan's links, by their numbers: the chosen ones among those that its filters and its files allow. `kinds`
/// are the filters, `inputs` are the formats of the input files, and `outputs` the formats that each output file can
/// hold, all by their numbers.
///
/// # Errors
/// `NoCommonFormat` with the lowest link of the first part that has no such formats. Or out of memory.
pub fn choose_formats(
    alloc: Global,
    links: &[Edge],
    kinds: &[Kind],
    inputs: &[Format],
    outputs: &[FormatSet],
) -> Result<List<Format>, FormatError>
    requires links { length links.now < 2 ^ 32 }
    requires kinds { length kinds.now < 2 ^ 32 }
    ensures chosen { IfOk result (IsChosen (length links.now) (plan_wishes links.now kinds.now inputs.now outputs.now) (plan_relations links.now kinds.now)) }
    ensures fault { IfFault result (IsFirstWithout (length links.now) (plan_wishes links.now kinds.now inputs.now outputs.now) (plan_relations links.now kinds.now)) }
{
    let asked = plan_wishes(alloc, links, kinds, inputs, outputs)?;
    choose(alloc, links.len() as u32, &asked.wishes, &asked.relations)
}
