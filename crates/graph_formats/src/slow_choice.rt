//! The plain choice, for tests: one listing of formats after another, in order.
ghost use Rattle.std.specs.Prelude.{◌<◌, ◌≤◌, ◌↔◌, List, Some, length, IsTrue, IfOk, IfSome, IsNone};
ghost use Rattle.std.specs.List.{Contains};
ghost use Rattle.av_base.specs.declared.formats.Format.{Format};
ghost use Rattle.graph_formats.specs.declared.request.Relation.{Relation};
ghost use Rattle.graph_formats.specs.Assignments.{first_of, second_of, Meets, AreBelow, AreWishesBelow, AreRelationsBelow, IsAssignment, IsChosen};
ghost use Rattle.graph_formats.specs.Listings.{AreWished, Completes};

use crate::across::with_alpha;
use crate::request::{Relation, Wish};
use av_base::{FORMATS, Format};
use std::alloc::{AllocError, Global};

/// Whether the format of each link is in every wish for it.
fn are_wished(wishes: &[Wish], formats: &[Format]) -> bool
    requires { AreWishesBelow (length formats.now) wishes.now }
    ensures { IsTrue result ↔ AreWished wishes.now formats.now }
{
    'wishes: for wish in wishes {
        if !wish.set.has(formats[wish.link as usize]) {
            return false;
        }
    }
    true
}

/// Whether a relation is met.
fn is_met(relation: Relation, formats: &[Format]) -> bool
    requires first { first_of relation < length formats.now }
    requires second { second_of relation < length formats.now }
    ensures { IsTrue result ↔ Meets relation formats.now }
{
    let (first, second) = relation.links();
    let first = formats[first as usize];
    let second = formats[second as usize];
    match relation {
        Relation::Same { .. } => first == second,
        Relation::WithAlpha { .. } => with_alpha(first) == Some(second),
    }
}

/// Whether each relation is met.
fn are_met(relations: &[Relation], formats: &[Format]) -> bool
    requires { AreRelationsBelow (length formats.now) relations.now }
    ensures { IsTrue result ↔ ((relation : Relation) → Contains relations.now relation → Meets relation formats.now) }
{
    'relations: for relation in relations {
        if !is_met(*relation, formats) {
            return false;
        }
    }
    true
}

/// Whether the formats meet all wishes and relations.
fn is_assignment(wishes: &[Wish], relations: &[Relation], formats: &[Format]) -> bool
    requires { AreBelow (length formats.now) wishes.now relations.now }
    ensures { IsTrue result ↔ IsAssignment (length formats.now) wishes.now relations.now formats.now }
{
    are_wished(wishes, formats) && are_met(relations, formats)
}

/// Completes a listing by the first formats with which it meets all wishes and relations. Returns whether there are
/// some.
fn complete(
    formats: &mut Vec<Format>,
    links: usize,
    wishes: &[Wish],
    relations: &[Relation],
) -> Result<bool, AllocError>
    requires below { AreBelow links wishes.now relations.now }
    requires room { length formats.old.items ≤ links }
    ensures { IfOk result (Completes links wishes.now relations.now formats.old.items formats.new.items) }
{
    if formats.len() == links {
        return Ok(is_assignment(wishes, relations, formats.as_slice()));
    }
    'formats: for format in FORMATS {
        formats.push(format)?;
        if complete(formats, links, wishes, relations)? {
            return Ok(true);
        }
        formats.pop();
    }
    Ok(false)
}

/// The first listing, link by link in the format order, that meets all wishes and relations.
pub(crate) fn first_assignment(
    alloc: Global,
    links: usize,
    wishes: &[Wish],
    relations: &[Relation],
) -> Result<Option<Vec<Format>>, AllocError>
    requires { AreBelow links wishes.now relations.now }
    ensures first { IfOk result (λ found. IfSome found (λ formats. IsChosen links wishes.now relations.now formats.items)) }
    ensures none { IfOk result (λ found. IsNone found → (formats : List Format) → ¬ IsAssignment links wishes.now relations.now formats) }
{
    let mut formats = Vec::new(alloc);
    if complete(&mut formats, links, wishes, relations)? {
        Ok(Some(formats))
    } else {
        Ok(None)
    }
}
