//! Filters that are configured: with their settings and the shapes of what they take and give.
ghost use Rattle.std.specs.Prelude.{◌≡◌, [], ◌∷◌, IfOk};
ghost use Rattle.av_base.specs.declared.shapes.Shape.{Shape};
ghost use Rattle.av_frame.specs.FilterLaws.{IsNew, one_to};
ghost use Rattle.av_base.specs.Shapes.{IsPictured};
ghost use Rattle.av_frame.specs.Rules.{each_rule};
ghost use Rattle.node_core.specs.Shaping.{IsConfigured, made_by};

use crate::filters::FrameFilters;
use crate::instance::Instance;
use av_base::{List, NoMemory, Shape};
use av_filter::Framewise;
use av_frame::Filter;
use std::alloc::Global;
use std::marker::Model;

/// A filter that is configured for inputs of some shapes. Its settings are those that its options gave for them.
#[derive(Drop)]
pub struct Ready {
    settings: FrameFilters,
    ins: List<Shape>,
    outs: List<Shape>,
}

impl Model for Ready {
    ghost use Rattle.node_core.specs.Shaping.{ReadyValue, IsConfigured};

    ghost Value = { ReadyValue };

    ghost view = { λ r. record { settings = r.settings; ins = r.ins; outs = r.outs } };

    ghost invariant = { λ r. IsConfigured (record { settings = r.settings; ins = r.ins; outs = r.outs }) };
}

impl Ready {
    /// A filter with these settings, for inputs and outputs of these shapes.
    pub(crate) fn new(settings: FrameFilters, ins: List<Shape>, outs: List<Shape>) -> Ready
        requires { IsConfigured (record { settings = settings; ins = ins; outs = outs }) }
        ensures { result ≡ record { settings = settings; ins = ins; outs = outs } }
    {
        Ready {
            settings,
            ins,
            outs,
        }
    }

    /// The shapes of the inputs, by their pads. All filters that there are have one input and one output.
    pub fn ins(&self) -> &List<Shape>
        ensures ins { result.now ≡ self.now.ins }
        ensures one_each { (s out : Shape) × (self.now.ins ≡ s ∷ []) × (self.now.outs ≡ out ∷ []) }
    {
        &self.ins
    }

    /// The shapes of the outputs, by their pads. They are lawful and within the limits.
    pub fn outs(&self) -> &List<Shape>
        ensures outs { result.now ≡ self.now.outs }
        ensures pictured { (out : Shape) × (result.now ≡ out ∷ []) × IsPictured out }
    {
        &self.outs
    }

    /// Starts the filter, which then takes frames of its input's shape.
    ///
    /// # Errors
    /// Out of memory.
    pub fn start(&self, alloc: Global) -> Result<Instance, NoMemory>
        ensures { (s out : Shape) → self.now.ins ≡ s ∷ [] → self.now.outs ≡ out ∷ [] → IfOk result (λ f. IsNew (⟦<Instance as Filter>⟧.pads f) (⟦<Instance as Filter>⟧.rest f) (⟦<Instance as Filter>⟧.accepts f)
            (one_to 1) (each_rule (λ _. made_by self.now)) (λ _. s) (λ _. out)) }
    {
        let framewise = Framewise::new(alloc, self.settings, &self.ins)?;
        Ok(Instance { framewise })
    }
}
