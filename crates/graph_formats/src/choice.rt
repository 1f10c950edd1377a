//! The choice of formats.
ghost use Rattle.std.specs.Prelude.{IfOk, ℕ, List};
ghost use Rattle.av_base.specs.declared.formats.Format.{Format};
ghost use Rattle.graph_formats.specs.Assignments.{AreBelow, IsChosen, IsFirstWithout, IfFault, Gives, Refuses};

use crate::demands::Demands;
use crate::draft::Draft;
use crate::request::{FormatError, Relation, Wish};
use av_base::{Format, List};
use std::alloc::Global;

/// A format for each of `links` links: the chosen ones among those that meet all wishes and relations.
///
/// Links that a chain of relations joins form a part. In each part the formats are the first ones, compared link by
/// link from its lowest link on, by the format order. Each link that a wish or a relation names is below `links`.
///
/// # Errors
/// `NoCommonFormat` at the lowest link of the first part that has no such formats. Or out of memory.
pub fn choose(
    alloc: Global,
    links: u32,
    wishes: &List<Wish>,
    relations: &List<Relation>,
) -> Result<List<Format>, FormatError>
    requires { AreBelow links wishes.now relations.now }
    ensures chosen { IfOk result (IsChosen links wishes.now relations.now) }
    // What has a chosen assignment isn't refused, and has no other.
    ensures chooses { (formats : List Format) → IsChosen links wishes.now relations.now formats → Gives formats result }
    ensures fault { IfFault result (IsFirstWithout links wishes.now relations.now) }
    // What has a fault isn't given formats, and has no other.
    ensures faulty { (link : ℕ) → IsFirstWithout links wishes.now relations.now link → Refuses link result }
{
    let demands = Demands::new(alloc, links, wishes.as_slice(), relations.as_slice())?;
    let mut draft = Draft::new(alloc, links)?;
    'links: for link in 0..links {
        if !draft.given[link as usize] && !draft.settle(&demands, link)? {
            return Err(FormatError::NoCommonFormat { link });
        }
    }
    Ok(List::new(draft.formats))
}
