//! The order of filters.
ghost use Rattle.std.specs.Prelude.{◌≡◌, ◌<◌, ◌^◌, ◌↔◌, ◌+◌, ◌⊎◌, ◌∷◌, ℕ, true, false, not, length, set, slice_index, slice_index_or, IsSome, IsTrue, IfOk, IfSome, MatchOption};
ghost use Rattle.std.specs.BTreeMap.Range.{IsLtBy};
ghost use Rattle.std.specs.List.{All, Contains, count_by};
ghost use Rattle.std.specs.Ordering.{nat_cmp};
ghost use Rattle.graph_plan.specs.Orders.{AreBelow, Feeds, Reaches};
ghost use Rattle.av_base.specs.First.{IsFirst};
ghost use Rattle.graph_plan.specs.declared.order.Arranged.TheVariants.{Cycle};
ghost use Rattle.graph_plan.specs.Arranging.{AreAdded, AreMarked, AreNeighbours, AreRows, Has, HasAll, IsAlong, IsArranged, IsBelow, IsMarked, Joins};

use crate::plan::{Edge, Source, Target};
use av_base::NoMemory;
use std::alloc::Global;
use std::collections::BTreeSet;

/// The order of filters, or the lowest one that reaches itself over links.
#[derive(Drop)]
pub(crate) enum Arranged {
    /// Each filter after those that it takes from.
    Order(Vec<u32>),
    /// A filter reaches itself.
    Cycle {
        /// The lowest such filter.
        filter: u32,
    },
}

/// The filters at the two ends of a link between filters.
pub(crate) fn ends(link: &Edge) -> Option<(u32, u32)>
    ensures { MatchOption result ((giver taker : ℕ) → Joins link.now giver taker → ⊥) (λ p. Joins link.now p.0 p.1) }
{
    match (link.from, link.to) {
        (Source::Filter { filter: giver, .. }, Target::Filter { filter: taker, .. }) => {
            Some((giver, taker))
        }
        _ => None,
    }
}

/// For each filter, the filters that its links come from and lead to.
#[derive(Drop)]
struct Neighbours {
    /// Those that it takes from.
    givers: Vec<Vec<u32>>,
    /// Those that it gives to.
    takers: Vec<Vec<u32>>,
}

/// `count` empty rows.
fn empty_rows(alloc: Global, count: u32) -> Result<Vec<Vec<u32>>, NoMemory>
    ensures each { IfOk result (λ rows. length rows.items ≡ count) }
    ensures none { IfOk result (λ rows. (number item : ℕ) → Has rows.items number item → ⊥) }
{
    let mut rows = Vec::new(alloc);
    'rows: for _ in 0..count {
        rows.push(Vec::new(alloc))?;
    }
    Ok(rows)
}

/// Puts an item into a row.
fn note(rows: &mut Vec<Vec<u32>>, number: u32, item: u32) -> Result<(), NoMemory>
    requires { number < length rows.old.items }
    ensures each { length rows.new.items ≡ length rows.old.items }
    ensures noted { IfOk result (λ _. (n i : ℕ) → Has rows.new.items n i ↔ (Has rows.old.items n i ⊎ (n ≡ number) × (i ≡ item))) }
{
    rows[number as usize].push(item)?;
    Ok(())
}

/// Notes a link at the filters that it joins, if it joins filters.
fn note_link(neighbours: &mut Neighbours, link: &Edge) -> Result<(), NoMemory>
    requires givers { IsBelow link.now (length neighbours.old.givers.items) }
    requires takers { IsBelow link.now (length neighbours.old.takers.items) }
    ensures givers_each { length neighbours.new.givers.items ≡ length neighbours.old.givers.items }
    ensures takers_each { length neighbours.new.takers.items ≡ length neighbours.old.takers.items }
    ensures givers { IfOk result (λ _. (giver taker : ℕ) → Has neighbours.new.givers.items taker giver ↔ (Has neighbours.old.givers.items taker giver ⊎ Joins link.now giver taker)) }
    ensures takers { IfOk result (λ _. (giver taker : ℕ) → Has neighbours.new.takers.items giver taker ↔ (Has neighbours.old.takers.items giver taker ⊎ Joins link.now giver taker)) }
{
    let Some((giver, taker)) = ends(link) else {
        return Ok(());
    };
    note(&mut neighbours.givers, taker, giver)?;
    note(&mut neighbours.takers, giver, taker)
}

/// The neighbours of `count` filters by the links between them.
fn list_neighbours(alloc: Global, links: &[Edge], count: u32) -> Result<Neighbours, NoMemory>
    requires { AreBelow (Feeds links.now) count }
    ensures { IfOk result (AreNeighbours (Feeds links.now) count) }
{
    let givers = empty_rows(alloc, count)?;
    let takers = empty_rows(alloc, count)?;
    let mut neighbours = Neighbours { givers, takers };
    'links: for link in links {
        note_link(&mut neighbours, link)?;
    }
    Ok(neighbours)
}

/// Marks filters, and puts those that weren't marked on a stack.
fn mark_all(marks: &mut [bool], stack: &mut Vec<u32>, filters: &[u32]) -> Result<(), NoMemory>
    requires { (filter : ℕ) → Contains filters.now filter → filter < length marks.old }
    ensures marked { IfOk result (λ _. AreMarked (Contains filters.now) marks.old marks.new stack.old.items stack.new.items) }
    ensures fewer { IfOk result (λ _. count_by not marks.new + length stack.new.items ≡ count_by not marks.old + length stack.old.items) }
{
    'filters: for filter in filters {
        if !marks[*filter as usize] {
            marks[*filter as usize] = true;
            stack.push(*filter)?;
        }
    }
    Ok(())
}

/// Whether a filter reaches itself, by the rows of those that each gives to. The marks and the stack are scratch space.
fn reaches_itself(
    takers: &[Vec<u32>],
    filter: u32,
    marks: &mut [bool],
    stack: &mut Vec<u32>,
) -> Result<bool, NoMemory>
    requires rows { AreRows (length marks.old) (length marks.old) takers.now }
    requires low { filter < length marks.old }
    ensures { IfOk result (λ is. IsTrue is ↔ Reaches (Has takers.now) filter filter) }
{
    marks.fill(false);
    stack.clear();
    stack.push(filter)?;
    'walk: while let Some(giver) = stack.pop() {
        mark_all(marks, stack, takers[giver as usize].as_slice())?;
        if marks[filter as usize] {
            return Ok(true);
        }
    }
    Ok(false)
}

/// The lowest filter that reaches itself. The marks are scratch space.
fn lowest_cycle(alloc: Global, takers: &[Vec<u32>], marks: &mut [bool]) -> Result<u32, NoMemory>
    requires rows { AreRows (length marks.old) (length marks.old) takers.now }
    requires count { length marks.old < 2 ^ 32 }
    requires some { ((filter : ℕ) → Reaches (Has takers.now) filter filter → ⊥) → ⊥ }
    ensures { IfOk result (IsFirst (λ f. Reaches (Has takers.now) f f)) }
{
    let mut filter = 0;
    let mut stack = Vec::new(alloc);
    'filters: while !reaches_itself(takers, filter, marks, &mut stack)? {
        filter += 1;
    }
    Ok(filter)
}

/// How far an order has come.
#[derive(Drop)]
struct Progress {
    /// Which filters are in the order.
    done: Vec<bool>,
    /// For each filter a place in the row of those that it takes from: all before it are done.
    next: Vec<usize>,
    /// The filters that can come.
    ready: BTreeSet<u32>,
}

/// The place of the first filter that isn't done, from a place on.
fn first_left(filters: &[u32], done: &[bool], from: usize) -> usize
    requires below { (filter : ℕ) → Contains filters.now filter → filter < length done.now }
    requires passed { (k : ℕ) → k < from → k < length filters.now → IsMarked done.now (slice_index filters.now k) }
    ensures passed { (k : ℕ) → k < result → k < length filters.now → IsMarked done.now (slice_index filters.now k) }
    ensures left { result < length filters.now → slice_index_or done.now (slice_index filters.now result) false ≡ false }
{
    'filters: for place in from..filters.len() {
        if !done[filters[place] as usize] {
            return place;
        }
    }
    filters.len()
}

/// Adds a filter to those that can come, if all that it takes from is done.
fn look_at(givers: &[Vec<u32>], progress: &mut Progress, filter: u32) -> Result<(), NoMemory>
    requires along { IsAlong givers.now progress.old }
    requires low { filter < length progress.old.done.items }
    ensures { IfOk result (λ _. AreAdded givers.now (λ f. f ≡ filter) progress.old progress.new) }
{
    let row = givers[filter as usize].as_slice();
    let place = first_left(row, &progress.done, progress.next[filter as usize]);
    progress.next[filter as usize] = place;
    if place >= row.len() {
        progress.ready.insert(filter)?;
    }
    Ok(())
}

/// Adds filters to those that can come, if all that they take from is done.
fn look_at_all(
    givers: &[Vec<u32>],
    progress: &mut Progress,
    filters: &[u32],
) -> Result<(), NoMemory>
    requires along { IsAlong givers.now progress.old }
    requires below { (filter : ℕ) → Contains filters.now filter → filter < length progress.old.done.items }
    ensures { IfOk result (λ _. AreAdded givers.now (Contains filters.now) progress.old progress.new) }
{
    'filters: for filter in filters {
        look_at(givers, progress, *filter)?;
    }
    Ok(())
}

/// An order of `count` filters that hasn't begun.
fn begin(alloc: Global, givers: &[Vec<u32>], count: u32) -> Result<Progress, NoMemory>
    requires { AreRows count count givers.now }
    ensures along { IfOk result (IsAlong givers.now) }
    ensures each { IfOk result (λ p. length p.done.items ≡ count) }
    ensures none { IfOk result (λ p. (filter : ℕ) → slice_index_or p.done.items filter false ≡ false) }
    ensures ready { IfOk result (λ p. (filter : ℕ) → Contains p.ready.keys filter ↔ ((filter < count) × HasAll givers.now p.done.items filter)) }
{
    let done = vec![in alloc; false; count as usize]?;
    let next = vec![in alloc; 0; count as usize]?;
    let ready = BTreeSet::new(alloc);
    let mut progress = Progress { done, next, ready };
    'filters: for filter in 0..count {
        look_at(givers, &mut progress, filter)?;
    }
    Ok(progress)
}

/// Puts a filter among those that are done.
fn complete(neighbours: &Neighbours, progress: &mut Progress, filter: u32) -> Result<(), NoMemory>
    requires along { IsAlong neighbours.now.givers.items progress.old }
    requires takers { AreRows (length progress.old.done.items) (length progress.old.done.items) neighbours.now.takers.items }
    requires low { filter < length progress.old.done.items }
    ensures along { IfOk result (λ _. IsAlong neighbours.now.givers.items progress.new) }
    ensures done { IfOk result (λ _. progress.new.done.items ≡ set progress.old.done.items filter true) }
    ensures ready { IfOk result (λ _. (f : ℕ) → Contains progress.new.ready.keys f
        ↔ (Contains progress.old.ready.keys f ⊎ Has neighbours.now.takers.items filter f × HasAll neighbours.now.givers.items progress.new.done.items f)) }
{
    progress.done[filter as usize] = true;
    let takers = neighbours.takers[filter as usize].as_slice();
    look_at_all(&neighbours.givers, progress, takers)
}

/// The lowest of `count` filters that reaches itself, by the rows of those that each gives to.
fn name_cycle(alloc: Global, takers: &[Vec<u32>], count: u32) -> Result<Arranged, NoMemory>
    requires rows { AreRows count count takers.now }
    requires some { ((filter : ℕ) → Reaches (Has takers.now) filter filter → ⊥) → ⊥ }
    ensures { IfOk result (λ a. (filter : ℕ) × (a ≡ Cycle filter) × IsFirst (λ f. Reaches (Has takers.now) f f) filter) }
{
    let mut marks = vec![in alloc; false; count as usize]?;
    let filter = lowest_cycle(alloc, takers, &mut marks)?;
    Ok(Arranged::Cycle { filter })
}

/// Takes the lowest of the filters that can come.
fn take_lowest(ready: &mut BTreeSet<u32>) -> Option<u32>
    ensures some { IsSome result ↔ (0 < length ready.old.keys) }
    ensures taken { IfSome result (λ f. ready.old.keys ≡ f ∷ ready.new.keys) }
    ensures lowest { IfSome result (λ f. All (IsLtBy nat_cmp f) ready.new.keys) }
{
    ready.pop_first()
}

/// Arranges `count` filters by the links between them.
///
/// # Errors
/// Out of memory.
pub(crate) fn arrange(alloc: Global, links: &[Edge], count: u32) -> Result<Arranged, NoMemory>
    requires { AreBelow (Feeds links.now) count }
    ensures { IfOk result (IsArranged links.now count) }
{
    let neighbours = list_neighbours(alloc, links, count)?;
    let mut progress = begin(alloc, &neighbours.givers, count)?;
    let mut order = Vec::new(alloc);
    'filters: for _ in 0..count {
        let Some(filter) = take_lowest(&mut progress.ready) else {
            return name_cycle(alloc, &neighbours.takers, count);
        };
        order.push(filter)?;
        complete(&neighbours, &mut progress, filter)?;
    }
    Ok(Arranged::Order(order))
}
