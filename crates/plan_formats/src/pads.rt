//! The links of a filter by its pads.
ghost use Rattle.std.specs.Prelude.{◌≡◌, ◌<◌, ◌^◌, IfOk, length, flat_map};
ghost use Rattle.std.specs.List.{range_with_len};
ghost use Rattle.plan_formats.specs.Wished.{is_target, is_source, links_where, pad_links};

use av_base::{List, NoMemory};
use graph_plan::{Edge, Source, Target};
use node_core::{Kind, PadLinks};
use std::alloc::Global;

/// The numbers of the links to the first `pads` input pads of a filter, by pad.
fn links_to(alloc: Global, links: &[Edge], filter: u32, pads: usize) -> Result<Vec<u32>, NoMemory>
    requires links { length links.now < 2 ^ 32 }
    requires pads { pads < 2 ^ 32 }
    ensures { IfOk result (λ numbers. numbers.items ≡ flat_map (λ pad. links_where (λ link. is_target filter pad link.to) links.now) (range_with_len 0 pads)) }
{
    let mut numbers = Vec::new(alloc);
    'pads: for pad in 0..pads as u32 {
        let target = Target::Filter { filter, pad };
        'links: for (number, link) in links.iter().enumerate() {
            if link.to == target {
                numbers.push(number as u32)?;
            }
        }
    }
    Ok(numbers)
}

/// The numbers of the links from the first `pads` output pads of a filter, by pad.
fn links_from(alloc: Global, links: &[Edge], filter: u32, pads: usize) -> Result<Vec<u32>, NoMemory>
    requires links { length links.now < 2 ^ 32 }
    requires pads { pads < 2 ^ 32 }
    ensures { IfOk result (λ numbers. numbers.items ≡ flat_map (λ pad. links_where (λ link. is_source filter pad link.from) links.now) (range_with_len 0 pads)) }
{
    let mut numbers = Vec::new(alloc);
    'pads: for pad in 0..pads as u32 {
        let source = Source::Filter { filter, pad };
        'links: for (number, link) in links.iter().enumerate() {
            if link.from == source {
                numbers.push(number as u32)?;
            }
        }
    }
    Ok(numbers)
}

/// The links to each of a filter's input pads, and those from each of its output pads.
pub(crate) fn pad_links(
    alloc: Global,
    links: &[Edge],
    filter: u32,
    kind: &Kind,
) -> Result<PadLinks, NoMemory>
    requires { length links.now < 2 ^ 32 }
    ensures { IfOk result (λ found. found ≡ pad_links links.now filter kind.now) }
{
    let pads = kind.pads(alloc)?;
    let ins = links_to(alloc, links, filter, pads.ins.as_slice().len())?;
    let outs = links_from(alloc, links, filter, pads.outs.as_slice().len())?;
    Ok(PadLinks {
        ins: List::new(ins),
        outs: List::new(outs),
    })
}
