//! Filters that make one frame of each, by a rule.
ghost use Rattle.std.specs.Prelude.{◌≡◌, ◌⊎◌, ◌<◌, ◌^◌, [], ◌∷◌, Ok, Err, length, IfOk, IfErr};
ghost use Rattle.av_base.specs.declared.shapes.Shape.{Shape};
ghost use Rattle.av_frame.specs.FilterLaws.{IsNew, one_to};
ghost use Rattle.av_frame.specs.Rules.{each_rule};
ghost use Rattle.av_base.specs.Shapes.{IsPictureShape};
ghost use Rattle.av_filter.specs.Meanings.{IsReading, IsSettled, IsOnly};
ghost use Rattle.av_frame.specs.declared.refusals.OptionError.TheVariants as option;
ghost use Rattle.av_frame.specs.declared.refusals.ConfigError.TheVariants as config;

use crate::rule::{FrameRule, NamedRule};
use av_base::{Format, List, NoMemory, Shape};
use av_frame::{ConfigError, Each, Filter, Frame, Given, OptionError, PerFrame, Pools, Returned};
use av_text::Arg;
use std::alloc::Global;
use std::marker::Model;
use std::thread::Threads;

/// A rule, settled for frames of a shape.
#[derive(Drop)]
pub struct Placed<T: FrameRule> {
    rule: T,
    shape: Shape,
    pools: Pools,
}

impl<T: FrameRule> Model for Placed<T> {
    ghost use Rattle.av_filter.specs.Meanings.{IsSettled, PlacedValue};

    ghost Value = { PlacedValue T };

    ghost view = { λ p. record { rule = p.rule; shape = p.shape } };

    ghost invariant = { λ p. IsSettled T.making p.shape p.rule };
}

impl<T: FrameRule> Placed<T> {
    /// A rule for frames of a shape, for which it was settled.
    fn new(alloc: Global, rule: T, shape: Shape) -> Result<Placed<T>, NoMemory>
        requires { IsSettled T.making shape rule }
        ensures { IfOk result (λ p. p ≡ record { rule = rule; shape = shape }) }
    {
        let pools = Pools::new(alloc)?;
        Ok(Placed { rule, shape, pools })
    }
}

impl<T: FrameRule> PerFrame for Placed<T> {
    ghost use Rattle.std.proofs.Common.{arith, ◌∙◌, ap};

    ghost outputs = { λ p. 1 };

    ghost shape = { λ p. p.shape };

    ghost out_shape = { λ p o. T.making.shape p.rule p.shape };

    ghost made = { λ p o. T.making.made p.rule };

    ghost some = { λ p. Prim.omega arith };

    ghost keeps = { λ p o x h. T.laws.keeps p.rule x };

    ghost shaped = { λ p o x h e. T.laws.shaped p.rule x ∙ ap (T.making.shape p.rule) e };

    fn make<R: Threads + Sync>(
        &mut self,
        _rt: &R,
        alloc: Global,
        _slices: u32,
        frame: Frame,
        _others: &mut Vec<Frame>,
    ) -> Result<Frame, Returned> {
        self.rule.make(alloc, &mut self.pools, frame)
    }
}

/// A filter of one input and one output that gives what a rule makes of each frame.
#[derive(Drop)]
pub struct Framewise<T: FrameRule> {
    each: Each<Placed<T>>,
}

/// The shape of the only input.
fn only(ins: &List<Shape>) -> Shape
    requires { length ins.now ≡ 1 }
    ensures { ins.now ≡ result ∷ [] }
{
    ins.as_slice()[0]
}

impl<T: NamedRule> Framewise<T> {
    /// Reads the filter's arguments.
    ///
    /// # Errors
    /// The fault of the first argument that has one, as `read_options` says; then `BadValue` with the number of arguments if
    /// options contradict each other; then `MissingOption`. Or out of memory.
    pub fn read(alloc: Global, args: &List<Arg>) -> Result<T::Options, OptionError>
        requires { length args.now < 2 ^ 32 }
        ensures read { IfOk result (λ o. IsReading T.options args.now (Ok o)) }
        ensures refused { IfErr result (λ e. (e ≡ option.NoMemory) ⊎ IsReading T.options args.now (Err e)) }
    {
        T::read(alloc, args)
    }
}

impl<T: FrameRule> Framewise<T> {
    /// The settings for the only input, and the output's shape.
    ///
    /// # Errors
    /// `NoValue` of the first option whose expression has no value; then what the filter's own checks find, `BadGeometry`
    /// or `SizeMismatch`; then `TooLarge` of its output. Or out of memory.
    pub fn configure(
        alloc: Global,
        options: &T::Options,
        ins: &List<Shape>,
        _chosen: &List<Format>,
    ) -> Result<(T, List<Shape>), ConfigError>
        requires { (s : Shape) × IsOnly ins.now _chosen.now s × T.making.takes options.now s.format }
        ensures ok { (s : Shape) → ins.now ≡ s ∷ [] → IfOk result (λ r. T.making.settles options.now s (Ok r.0) × (r.1 ≡ T.making.shape r.0 s ∷ [])) }
        ensures refused { (s : Shape) → ins.now ≡ s ∷ [] → IfErr result (λ e. (e ≡ config.NoMemory) ⊎ T.making.settles options.now s (Err e)) }
    {
        let shape = only(ins);
        let rule = T::settle(options, shape)?;
        let outs = vec![in alloc; rule.shape(shape)]?;
        Ok((rule, List::new(outs)))
    }

    /// A new filter for frames of the input's shape, with settings that `configure` gave with it.
    ///
    /// # Errors
    /// Out of memory.
    pub fn new(alloc: Global, settings: T, ins: &List<Shape>) -> Result<Framewise<T>, NoMemory>
        requires { (s : Shape) × (ins.now ≡ s ∷ []) × IsSettled T.making s settings }
        ensures { (s : Shape) → ins.now ≡ s ∷ [] → IfOk result (λ f. IsNew (⟦<Framewise<T> as Filter>⟧.pads f) (⟦<Framewise<T> as Filter>⟧.rest f) (⟦<Framewise<T> as Filter>⟧.accepts f)
            (one_to 1) (each_rule (λ _. T.making.made settings)) (λ _. s) (λ _. T.making.shape settings s)) }
    {
        let rule = Placed::new(alloc, settings, only(ins))?;
        let each = Each::new(alloc, rule, 1)?;
        Ok(Framewise { each })
    }
}

impl<T: FrameRule> Filter for Framewise<T> {
    ghost use Rattle.std.proofs.Common.{arith};
    ghost use Rattle.av_frame.specs.EachLaws.{each_laws};

    ghost pads = { λ f. ⟦<Each<Placed<T>> as Filter>⟧.pads f.each };

    ghost rest = { λ f. ⟦<Each<Placed<T>> as Filter>⟧.rest f.each };

    ghost accepts = { λ f. ⟦<Each<Placed<T>> as Filter>⟧.accepts f.each };

    ghost closes = { λ f. ⟦<Each<Placed<T>> as Filter>⟧.closes f.each };

    ghost wants = { λ f. ⟦<Each<Placed<T>> as Filter>⟧.wants f.each };

    ghost over = { λ f. ⟦<Each<Placed<T>> as Filter>⟧.over f.each };

    ghost laws = { λ f. each_laws 1 _ f.each (Prim.omega arith) };

    fn offer(&mut self, alloc: Global, input: u32, frame: Frame) -> Result<(), Returned> {
        self.each.offer(alloc, input, frame)
    }

    fn finish(&mut self, input: u32) {
        self.each.finish(input);
    }

    fn give<R: Threads + Sync>(
        &mut self,
        rt: &R,
        alloc: Global,
        slices: u32,
        output: u32,
    ) -> Result<Given, NoMemory> {
        self.each.give(rt, alloc, slices, output)
    }

    fn needs(&self, input: u32) -> bool {
        self.each.needs(input)
    }

    fn closed(&self, input: u32) -> bool {
        self.each.closed(input)
    }
}
