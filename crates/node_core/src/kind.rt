//! The filter that a call names, with its options.
ghost use Rattle.std.specs.Prelude.{◌≡◌, ◌↔◌, ◌<◌, ◌^◌, ◌⊎◌, [], ◌∷◌, ◌++◌, length, map, flat_map, IsTrue, IfOk, IfErr};
ghost use Rattle.av_base.specs.declared.shapes.Shape.{Shape};
ghost use Rattle.av_filter.specs.Meanings.{IsOnly};
ghost use Rattle.av_frame.specs.declared.refusals.OptionError.TheVariants as option;
ghost use Rattle.av_frame.specs.declared.refusals.ConfigError.TheVariants as config;
ghost use Rattle.graph_formats.specs.declared.request.Relation.TheVariants.{Same};
ghost use Rattle.node_core.specs.Kinds.{IsKind, IsKindFault};
ghost use Rattle.node_core.specs.Wishing.{formats_of, wishes_of};
ghost use Rattle.node_core.specs.Shaping.{video_pads, pads_of, Takes, IsReady, IsConfigFault};

use crate::filters::{FrameFilters, FrameOptions};
use crate::name::later_in;
use crate::ready::Ready;
use crate::wishes::{PadLinks, Wishes};
use av_base::{FORMATS, Format, FormatSet, List, Media, NoMemory, Shape};
use av_filter::{FrameRule, Framewise, RuleSet};
use av_frame::{ConfigError, OptionError};
use graph_formats::{Relation, Wish};
use graph_plan::Pads;
use graph_text::FilterCall;
use std::alloc::Global;

/// A filter, with its options.
#[derive(Drop)]
pub struct Kind {
    pub(crate) options: FrameOptions,
}

/// One pad for video.
fn one_video(alloc: Global) -> Result<List<Media>, NoMemory>
    ensures { IfOk result (λ pads. pads ≡ video_pads) }
{
    Ok(List::new(vec![in alloc; Media::Video]?))
}

/// For each link to a filter and each link from it, a wish for these formats.
fn wishes_for(
    alloc: Global,
    ins: &[u32],
    outs: &[u32],
    set: FormatSet,
) -> Result<Vec<Wish>, NoMemory>
    ensures { IfOk result (λ wishes. wishes.items ≡ map (λ link. record { link = link; set = set }) (ins.now ++ outs.now)) }
{
    let links = ins.iter().chain(outs.iter());
    let wishes = links.map(|link| Wish { link: *link, set });
    Ok(wishes.collect(alloc)?)
}

/// Relations by which each link to a filter has the format of each link from it.
fn same_formats(alloc: Global, ins: &[u32], outs: &[u32]) -> Result<Vec<Relation>, NoMemory>
    ensures { IfOk result (λ relations. relations.items ≡ flat_map (λ a. map (λ b. Same a b) outs.now) ins.now) }
{
    let mut relations = Vec::new(alloc);
    'ins: for a in ins {
        'outs: for b in outs {
            relations.push(Relation::Same { a: *a, b: *b })?;
        }
    }
    Ok(relations)
}

impl Kind {
    /// The filter that a call names, with the options that its arguments give it. There are fewer than 2^32 arguments.
    ///
    /// # Errors
    /// `UnknownFilter` if there is none of this name, and `NotYet` if it is still to be built; else why its arguments are
    /// rejected: `UnknownOption`, `TooManyValues` or `BadValue` of the first argument that has a fault, then `BadValue`
    /// with the number of arguments if options contradict each other, then `MissingOption`. Or out of memory.
    pub fn read(alloc: Global, call: &FilterCall) -> Result<Kind, OptionError>
        requires { length call.now.args < 2 ^ 32 }
        ensures kind { IfOk result (IsKind call.now) }
        ensures refused { IfErr result (λ e. (e ≡ option.NoMemory) ⊎ IsKindFault call.now e) }
    {
        let name = call.name.as_str();
        if FrameFilters::is_name(name) {
            let options = FrameFilters::read_named(alloc, name, &call.args)?;
            return Ok(Kind { options });
        }
        match later_in(name) {
            Some(_) => Err(OptionError::NotYet),
            None => Err(OptionError::UnknownFilter),
        }
    }

    /// What the filter's pads take and give: all filters that there are take one video and give one.
    ///
    /// # Errors
    /// Out of memory.
    pub fn pads(&self, alloc: Global) -> Result<Pads, NoMemory>
        ensures { IfOk result (λ pads. pads ≡ pads_of self.now) }
    {
        let ins = one_video(alloc)?;
        let outs = one_video(alloc)?;
        Ok(Pads { ins, outs })
    }

    /// What the filter asks of the formats of its links: each has a format that the filter takes, and each link to it has
    /// that of each link from it.
    ///
    /// # Errors
    /// Out of memory.
    pub fn formats(&self, alloc: Global, links: &PadLinks) -> Result<Wishes, NoMemory>
        ensures { IfOk result (λ wishes. wishes ≡ wishes_of self.now links.now) }
    {
        let ins = links.ins.as_slice();
        let outs = links.outs.as_slice();
        let set = self.formats_taken();
        let wishes = wishes_for(alloc, ins, outs, set)?;
        let relations = same_formats(alloc, ins, outs)?;
        Ok(Wishes {
            wishes: List::new(wishes),
            relations: List::new(relations),
        })
    }

    /// The formats that the filter takes.
    fn formats_taken(&self) -> FormatSet
        ensures { result ≡ formats_of self.now }
    {
        let mut set = FormatSet::empty();
        'formats: for format in FORMATS {
            if self.takes(format) {
                set = set.with(format);
            }
        }
        set
    }

    /// Whether the filter takes pictures of a format.
    pub fn takes(&self, format: Format) -> bool
        ensures { IsTrue result ↔ Takes self.now format }
    {
        FrameFilters::takes(&self.options, format)
    }

    /// Configures the filter for inputs of these shapes and outputs in these formats, one for each pad. All filters that
    /// there are take one picture in a format that they allow, and give one in the same format.
    ///
    /// # Errors
    /// `NoValue` of the first option whose expression has no value; then what the filter's own checks find, `BadGeometry`
    /// or `SizeMismatch`; then `TooLarge` of its output. Or out of memory.
    pub fn configure(
        &self,
        alloc: Global,
        ins: &List<Shape>,
        chosen: &List<Format>,
    ) -> Result<Ready, ConfigError>
        requires { (s : Shape) × IsOnly ins.now chosen.now s × Takes self.now s.format }
        ensures ready { (s : Shape) → ins.now ≡ s ∷ [] → IfOk result (IsReady self.now s) }
        ensures refused { (s : Shape) → ins.now ≡ s ∷ [] → IfErr result (λ e. (e ≡ config.NoMemory) ⊎ IsConfigFault self.now s e) }
    {
        let (settings, outs) = Framewise::configure(alloc, &self.options, ins, chosen)?;
        let ins = List::new(Vec::from_slice(alloc, ins.as_slice())?);
        Ok(Ready::new(settings, ins, outs))
    }
}
