ghost use Rattle.std.specs.Prelude.{◌<◌, ◌^◌, length, IsTrue};
ghost use Rattle.graph_plan.specs.Orders.{AreBelow, Feeds};
ghost use Rattle.graph_plan.specs.Arranging.{IsBelow};

use crate::order::{Arranged, arrange, ends};
use crate::plan::{Edge, Source, Target};
use std::alloc::Global;

/// A link from a filter to another.
fn link(giver: u32, taker: u32) -> Edge {
    Edge {
        from: Source::Filter {
            filter: giver,
            pad: 0,
        },
        to: Target::Filter {
            filter: taker,
            pad: 0,
        },
    }
}

/// A link from an input file to a filter.
fn source(taker: u32) -> Edge {
    Edge {
        from: Source::Input { input: 7 },
        to: Target::Filter {
            filter: taker,
            pad: 0,
        },
    }
}

/// A link from a filter to an output file.
fn sink(giver: u32) -> Edge {
    Edge {
        from: Source::Filter {
            filter: giver,
            pad: 0,
        },
        to: Target::Output { output: 7 },
    }
}

/// Whether a link leads only to and from the first `count` filters.
fn is_below(link: &Edge, count: u32) -> bool
    ensures { IsTrue result → IsBelow link.now count }
{
    match ends(link) {
        Some((giver, taker)) => giver < count && taker < count,
        None => true,
    }
}

/// Whether all links lead only to and from the first `count` filters.
fn are_below(links: &[Edge], count: u32) -> bool
    ensures { IsTrue result → AreBelow (Feeds links.now) count }
{
    'links: for link in links {
        if !is_below(link, count) {
            return false;
        }
    }
    true
}

/// Whether the filters come in this order.
fn has_order(alloc: Global, links: &[Edge], order: &[u32]) -> bool
    requires { length order.now < 2 ^ 32 }
{
    let count = order.len() as u32;
    if !are_below(links, count) {
        return false;
    }
    match arrange(alloc, links, count) {
        Ok(Arranged::Order(found)) => found.as_slice() == order,
        _ => false,
    }
}

/// Whether this is the lowest of `count` filters that reaches itself.
fn has_cycle(alloc: Global, links: &[Edge], count: u32, lowest: u32) -> bool {
    if !are_below(links, count) {
        return false;
    }
    match arrange(alloc, links, count) {
        Ok(Arranged::Cycle { filter }) => filter == lowest,
        _ => false,
    }
}

#[test]
fn filters_come_after_those_that_they_take_from(rt: HostRuntime) {
    assert!(rt; has_order(rt.alloc(), &[], &[]));
    assert!(rt; has_order(rt.alloc(), &[], &[0, 1, 2]));
    assert!(rt; has_order(rt.alloc(), &[link(2, 1), link(1, 0)], &[2, 1, 0]));
    let diamond = [link(3, 0), link(3, 2), link(0, 1), link(2, 1)];
    assert!(rt; has_order(rt.alloc(), &diamond, &[3, 0, 2, 1]));
    // The others come before a filter that waits for the last.
    assert!(rt; has_order(rt.alloc(), &[link(3, 0)], &[1, 2, 3, 0]));
}

#[test]
fn links_of_files_hold_nothing_back(rt: HostRuntime) {
    let apart = [source(0), source(1), sink(1), sink(0)];
    assert!(rt; has_order(rt.alloc(), &apart, &[0, 1]));
    assert!(rt; has_order(rt.alloc(), &[source(0), link(1, 0), sink(0)], &[1, 0]));
}

#[test]
fn the_lowest_filter_of_a_cycle_is_named(rt: HostRuntime) {
    assert!(rt; has_cycle(rt.alloc(), &[link(0, 0)], 1, 0));
    assert!(rt; has_cycle(rt.alloc(), &[link(2, 1), link(1, 2)], 3, 1));
    assert!(rt; has_cycle(rt.alloc(), &[link(0, 1), link(1, 2), link(2, 1)], 3, 1));
    let three = [link(3, 1), link(2, 3), link(1, 2), link(2, 0)];
    assert!(rt; has_cycle(rt.alloc(), &three, 4, 1));
    let two = [link(4, 4), link(2, 3), link(3, 2), link(3, 0)];
    assert!(rt; has_cycle(rt.alloc(), &two, 5, 2));
}
