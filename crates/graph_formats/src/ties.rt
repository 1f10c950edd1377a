//! The relations of each link.
ghost use Rattle.std.specs.Prelude.{◌<◌, length, IfOk};
ghost use Rattle.graph_formats.specs.Assignments.{first_of, second_of, AreRelationsBelow};
ghost use Rattle.graph_formats.specs.Demands.{AreTied, IsTied, AreBothTied};

use crate::request::Relation;
use av_base::NoMemory;
use std::alloc::Global;

/// A relation in the list of a link that it names.
#[derive(Clone, Copy)]
pub(crate) struct Tie {
    /// The relation.
    pub(crate) relation: Relation,
    /// The place of the next tie of the link, if there is one.
    pub(crate) next: Option<usize>,
}

/// The relations of each link: lists that go through one vector.
#[derive(Drop)]
pub(crate) struct Ties {
    /// The place where the list of each link begins, if it has a relation.
    pub(crate) heads: Vec<Option<usize>>,
    /// The ties of all links.
    pub(crate) ties: Vec<Tie>,
}

impl Ties {
    /// Puts a relation before those of a link.
    fn tie(&mut self, link: u32, relation: Relation) -> Result<(), NoMemory>
        requires { link < length self.old.heads.items }
        ensures { IfOk result (λ _. IsTied self.old self.new link relation) }
    {
        let place = self.ties.len();
        let next = self.heads[link as usize];
        self.ties.push(Tie { relation, next })?;
        self.heads[link as usize] = Some(place);
        Ok(())
    }

    /// Puts a relation into the lists of both of its links.
    fn add(&mut self, relation: Relation) -> Result<(), NoMemory>
        requires first { first_of relation < length self.old.heads.items }
        requires second { second_of relation < length self.old.heads.items }
        ensures { IfOk result (λ _. AreBothTied self.old self.new relation) }
    {
        let (first, second) = relation.links();
        self.tie(first, relation)?;
        self.tie(second, relation)
    }

    /// The ties of this number of links.
    pub(crate) fn new(alloc: Global, links: u32, relations: &[Relation]) -> Result<Ties, NoMemory>
        requires { AreRelationsBelow links relations.now }
        ensures { IfOk result (AreTied links relations.now) }
    {
        let heads = vec![in alloc; None; links as usize]?;
        let ties = Vec::new(alloc);
        let mut all = Ties { heads, ties };
        'relations: for relation in relations {
            all.add(*relation)?;
        }
        Ok(all)
    }
}
