//! Wishes and relations by link.
ghost use Rattle.std.specs.Prelude.{IfOk};
ghost use Rattle.graph_formats.specs.Assignments.{AreBelow, AreWishesBelow};
ghost use Rattle.graph_formats.specs.Demands.{AreNarrowed, AreDemands};

use crate::request::{Relation, Wish};
use crate::ties::Ties;
use av_base::{FormatSet, NoMemory};
use std::alloc::Global;

/// What is asked, by link.
#[derive(Drop)]
pub(crate) struct Demands {
    /// The formats that are in every wish for a link.
    pub(crate) sets: Vec<FormatSet>,
    /// The relations of a link.
    pub(crate) ties: Ties,
}

/// For each link, the formats that are in every wish for it.
fn narrow(alloc: Global, links: u32, wishes: &[Wish]) -> Result<Vec<FormatSet>, NoMemory>
    requires { AreWishesBelow links wishes.now }
    ensures { IfOk result (λ sets. AreNarrowed links wishes.now sets.items) }
{
    let mut sets = vec![in alloc; FormatSet::all(); links as usize]?;
    'wishes: for wish in wishes {
        let place = wish.link as usize;
        let set = sets[place].both(wish.set);
        sets[place] = set;
    }
    Ok(sets)
}

impl Demands {
    /// What these wishes and relations ask of this number of links.
    pub(crate) fn new(
        alloc: Global,
        links: u32,
        wishes: &[Wish],
        relations: &[Relation],
    ) -> Result<Demands, NoMemory>
        requires { AreBelow links wishes.now relations.now }
        ensures { IfOk result (AreDemands (record { links = links; wishes = wishes.now; relations = relations.now })) }
    {
        let sets = narrow(alloc, links, wishes)?;
        let ties = Ties::new(alloc, links, relations)?;
        Ok(Demands { sets, ties })
    }
}
