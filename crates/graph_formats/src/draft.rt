//! Formats as far as they are given.
ghost use Rattle.std.specs.Prelude.{◌≡◌, ◌<◌, ℕ, true, false, Ok, length, replicate, IfOk};
ghost use Rattle.std.specs.List.{Contains};
ghost use Rattle.av_base.specs.FormatSets.{Precedes};
ghost use Rattle.av_base.specs.declared.formats.Format.{Format};
ghost use Rattle.graph_formats.specs.Demands.{AreDemands, asked_of};
ghost use Rattle.graph_formats.specs.Walks.{Tour, Begins, IsGiven, Gave, IsSettled, IsBarren, IsWalk, IsFollowed, Extends, IsWalked, AreUnmarked, IsRestored};

use crate::across::across;
use crate::demands::Demands;
use av_base::{FORMATS, Format, FormatSet, NoMemory, PixelFormat};
use std::alloc::Global;

/// Formats as far as they are given.
#[derive(Drop)]
pub(crate) struct Draft {
    /// A format for each link. It counts only if the link is given one.
    pub(crate) formats: Vec<Format>,
    /// Which links are given their format.
    pub(crate) given: Vec<bool>,
    /// The links that the walk through a part came to, in its order.
    pub(crate) reached: Vec<u32>,
}

/// Takes the marks from these links.
fn unmark(marks: &mut [bool], links: &[u32])
    requires { (link : ℕ) → Contains links.now link → link < length marks.old }
    ensures { AreUnmarked links.now marks.old marks.new }
{
    'links: for link in links {
        marks[*link as usize] = false;
    }
}

impl Draft {
    /// A draft for this number of links, none of which is given a format.
    pub(crate) fn new(alloc: Global, links: u32) -> Result<Draft, NoMemory>
        ensures each { IfOk result (λ d. length d.formats.items ≡ links) }
        ensures none { IfOk result (λ d. d.given.items ≡ replicate links false) }
    {
        let formats = vec![in alloc; Format::Video(PixelFormat::Gray); links as usize]?;
        let given = vec![in alloc; false; links as usize]?;
        let reached = Vec::new(alloc);
        Ok(Draft {
            formats,
            given,
            reached,
        })
    }

    /// Gives a link a format. Returns whether it can have it: it has it already, or it has none and the set has it.
    fn give(&mut self, set: FormatSet, link: u32, format: Format) -> Result<bool, NoMemory>
        requires formats { link < length self.old.formats.items }
        requires marks { link < length self.old.given.items }
        ensures { IfOk result (Gave self.old self.new set link format) }
    {
        let place = link as usize;
        if self.given[place] {
            return Ok(self.formats[place] == format);
        }
        if !set.has(format) {
            return Ok(false);
        }
        self.reached.push(link)?;
        self.formats[place] = format;
        self.given[place] = true;
        Ok(true)
    }

    /// Gives the links that the relations of a link name the formats that follow from its own. Returns whether they can
    /// have them.
    fn follow(&mut self, demands: &Demands, link: u32) -> Result<bool, NoMemory>
        ghost tour: { Tour }
        requires walk { IsWalk tour self.old }
        requires demands { AreDemands tour.asked demands.now }
        requires reached { Contains self.old.reached.items link }
        ensures walk { IfOk result (λ _. IsWalk tour self.new) }
        ensures extends { IfOk result (λ _. Extends self.old self.new) }
        ensures followed { result ≡ Ok true → IsFollowed tour.asked.relations self.new link }
        ensures fails { result ≡ Ok false → IsBarren tour.asked tour.root tour.format }
    {
        let format = self.formats[link as usize];
        let mut next = demands.ties.heads[link as usize];
        'ties: while let Some(place) = next {
            let tie = demands.ties.ties[place];
            let Some((other, wanted)) = across(tie.relation, link, format) else {
                return Ok(false);
            };
            let set = demands.sets[other as usize];
            if !self.give(set, other, wanted)? {
                return Ok(false);
            }
            next = tie.next;
        }
        Ok(true)
    }

    /// Gives the links of a part the formats that follow from one at its lowest link. Returns whether they can have them.
    fn walk(&mut self, demands: &Demands, root: u32, format: Format) -> Result<bool, NoMemory>
        ghost tour: { Tour }
        requires begins { Begins tour root format self.old }
        requires settled { IsSettled tour.asked tour.start }
        requires demands { AreDemands tour.asked demands.now }
        requires below { tour.root < tour.asked.links }
        requires bare { ¬ IsGiven tour.start tour.root }
        ensures walk { IfOk result (λ _. IsWalk tour self.new) }
        ensures walked { result ≡ Ok true → IsWalked tour self.new }
        ensures fails { result ≡ Ok false → IsBarren tour.asked tour.root tour.format }
    {
        self.reached.clear();
        let set = demands.sets[root as usize];
        if !self.give(set, root, format)? {
            return Ok(false);
        }
        let mut followed = 0;
        'links: while followed < self.reached.len() {
            let link = self.reached[followed];
            if !self.follow(demands, link)? {
                return Ok(false);
            }
            followed += 1;
        }
        Ok(true)
    }

    /// Takes the formats back from the links that the walk came to.
    fn forget(&mut self)
        ghost tour: { Tour }
        requires walk { IsWalk tour self.old }
        requires formats { length tour.start.formats.items ≡ tour.asked.links }
        requires marks { length tour.start.given.items ≡ tour.asked.links }
        ensures { IsRestored tour.start self.new }
    {
        unmark(&mut self.given, &self.reached);
    }

    /// Gives the links of a part their formats, if they have some with this one at its lowest link. Returns whether they
    /// have.
    fn attempt(&mut self, demands: &Demands, root: u32, format: Format) -> Result<bool, NoMemory>
        ghost tour: { Tour }
        requires begins { Begins tour root format self.old }
        requires settled { IsSettled tour.asked tour.start }
        requires demands { AreDemands tour.asked demands.now }
        requires below { tour.root < tour.asked.links }
        requires bare { ¬ IsGiven tour.start tour.root }
        requires lower { (link : ℕ) → link < tour.root → IsGiven tour.start link }
        requires earlier { (f : Format) → Precedes f tour.format → IsBarren tour.asked tour.root f }
        ensures settled { IfOk result (λ _. IsSettled tour.asked self.new) }
        ensures lower { IfOk result (λ _. (link : ℕ) → IsGiven tour.start link → IsGiven self.new link) }
        ensures fits { result ≡ Ok true → IsGiven self.new tour.root }
        ensures bare { result ≡ Ok false → ¬ IsGiven self.new tour.root }
        ensures fails { result ≡ Ok false → IsBarren tour.asked tour.root tour.format }
    {
        let fits = self.walk(demands, root, format)?;
        if !fits {
            self.forget();
        }
        Ok(fits)
    }

    /// Gives the links of a part their formats. Returns whether they have some.
    pub(crate) fn settle(&mut self, demands: &Demands, root: u32) -> Result<bool, NoMemory>
        requires settled { IsSettled (asked_of demands.now) self.old }
        requires demands { AreDemands (asked_of demands.now) demands.now }
        requires below { root < (asked_of demands.now).links }
        requires bare { ¬ IsGiven self.old root }
        requires lower { (link : ℕ) → link < root → IsGiven self.old link }
        ensures settled { IfOk result (λ _. IsSettled (asked_of demands.now) self.new) }
        ensures lower { IfOk result (λ _. (link : ℕ) → IsGiven self.old link → IsGiven self.new link) }
        ensures fits { result ≡ Ok true → IsGiven self.new root }
        ensures fails { result ≡ Ok false → (f : Format) → IsBarren (asked_of demands.now) root f }
    {
        'formats: for format in FORMATS {
            if self.attempt(demands, root, format)? {
                return Ok(true);
            }
        }
        Ok(false)
    }
}
