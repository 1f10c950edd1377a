//! The filter `lutyuv`: each sample is replaced by what an expression makes of it.
ghost use Rattle.std.specs.Prelude.{◌≡◌, ◌<◌, ◌≤◌, ◌^◌, ℕ, List, Err, length, slice_index, IfOk, IfErr};
ghost use Rattle.av_expr.specs.declared.vars.Var.{Var};
ghost use Rattle.av_expr.specs.Values.{value_of};
ghost use Rattle.av_frame.specs.declared.refusals.ConfigError.TheVariants as config;
ghost use Rattle.av_base.specs.Shapes.{IsPictureShape};
ghost use Rattle.filt_expr.specs.Worth.{IsWorthless};
ghost use Rattle.filt_expr.specs.Lutyuv.{expression_for, at_sample, IsEntry, IsTable, HasNoEntry, lutyuv_outcome};

use crate::geometry::whole;
use crate::worth::{Role, default_expr, set_expr, worth};
use av_base::{Format, List, NoMemory, Shape};
use av_expr::{Expr, Values, Var};
use av_filter::{FrameRule, Framewise, NamedRule, Options, check_shape, map_frame, read_options};
use av_frame::{ConfigError, Frame, OptionError, Pools, Returned, RowMap};
use av_text::Arg;
use std::alloc::Global;

/// The filter `lutyuv`.
pub type Lutyuv = Framewise<LutyuvSettings>;

/// The options of `lutyuv`: what is made of the samples of each plane.
#[derive(Drop)]
pub struct LutyuvOptions {
    /// Of Y.
    pub y: Expr,
    /// Of U.
    pub u: Expr,
    /// Of V.
    pub v: Expr,
    /// Of A.
    pub a: Expr,
}

/// A table for each plane: what replaces each sample from 0 to 255. Those past the format's planes hold zeros.
#[derive(Clone, Copy, Drop)]
pub struct LutyuvSettings {
    /// The tables of Y, U, V and A.
    pub tables: [[u8; 256]; 4],
}

impl Options for LutyuvOptions {
    ghost use Rattle.filt_expr.specs.Lutyuv.{lutyuv_rules};
    ghost use Rattle.filt_expr.specs.LutyuvLaws.{lutyuv_numbers};

    ghost rules = { lutyuv_rules };

    fn count() -> u32 {
        4
    }

    fn numbered(name: &str) -> Option<u32> {
        match name {
            "y" => Some(0),
            "u" => Some(1),
            "v" => Some(2),
            "a" => Some(3),
            _ => None,
        }
    }

    #[tactic(auto, using(crate::specs::Defaults::says_val))]
    fn defaults(alloc: Global) -> Result<LutyuvOptions, NoMemory> {
        Ok(LutyuvOptions {
            y: default_expr(alloc, "val", Role::Sample)?,
            u: default_expr(alloc, "val", Role::Sample)?,
            v: default_expr(alloc, "val", Role::Sample)?,
            a: default_expr(alloc, "val", Role::Sample)?,
        })
    }

    fn set(&mut self, alloc: Global, option: u32, value: &str) -> Result<bool, NoMemory> {
        Ok(match option {
            0 => set_expr(alloc, &mut self.y, value, Role::Sample)?,
            1 => set_expr(alloc, &mut self.u, value, Role::Sample)?,
            2 => set_expr(alloc, &mut self.v, value, Role::Sample)?,
            _ => set_expr(alloc, &mut self.a, value, Role::Sample)?,
        })
    }

    fn complete(self, _arguments: u32) -> Result<LutyuvOptions, OptionError> {
        Ok(self)
    }

    ghost numbers = { lutyuv_numbers };
}

/// The values of the variables at a sample of a plane.
fn sample_values(plane: u32, val: u8) -> Values
    requires { plane < 4 }
    ensures { (x : Var) → value_of result x ≡ at_sample plane val x }
{
    let (least, most) = match plane {
        0 => (16, 235),
        1 | 2 => (16, 240),
        _ => (0, 255),
    };
    let negated = most + least - u32::from(val).clamp(least, most);
    let mut values = Values::zero();
    values.set(Var::Val, whole(val.into()));
    values.set(Var::MinVal, whole(least.into()));
    values.set(Var::MaxVal, whole(most.into()));
    values.set(Var::NegVal, whole(negated.into()));
    values
}

/// What replaces a sample of a plane.
fn entry(expr: &Expr, plane: u32, val: u8) -> Result<u8, ConfigError>
    requires { plane < 4 }
    ensures ok { IfOk result (IsEntry expr.now plane val) }
    ensures err { IfErr result (λ e. (e ≡ config.NoValue plane) × IsWorthless expr.now (at_sample plane val)) }
{
    let value = worth(expr, &sample_values(plane, val), plane)?;
    Ok(value.cut().clamp(0, 255) as u8)
}

/// The table of a plane.
fn table(expr: &Expr, plane: u32) -> Result<[u8; 256], ConfigError>
    requires { plane < 4 }
    ensures ok { IfOk result (IsTable expr.now plane) }
    ensures err { IfErr result (λ e. (e ≡ config.NoValue plane) × ((val : ℕ) × (val < 256) × IsWorthless expr.now (at_sample plane val))) }
{
    let mut table = [0; 256];
    for val in 0..256 {
        table[val] = entry(expr, plane, val as u8)?;
    }
    Ok(table)
}

impl LutyuvOptions {
    /// The table of a plane.
    fn table_of(&self, plane: u32) -> Result<[u8; 256], ConfigError>
        requires { plane < 4 }
        ensures ok { IfOk result (IsTable (expression_for self.now plane) plane) }
        ensures err { IfErr result (λ e. (e ≡ config.NoValue plane) × HasNoEntry self.now plane) }
    {
        match plane {
            0 => table(&self.y, plane),
            1 => table(&self.u, plane),
            2 => table(&self.v, plane),
            _ => table(&self.a, plane),
        }
    }
}

/// Replaces each sample by what the table has for it.
fn look_up(row: &mut [u8], table: &[u8; 256])
    ensures { (c : ℕ) → c < length row.old → slice_index row.new c ≡ slice_index table.now (slice_index row.old c) }
{
    for sample in row.iter_mut() {
        *sample = table[usize::from(*sample)];
    }
}

impl RowMap for LutyuvSettings {
    ghost use Rattle.std.specs.Prelude.{[], slice_index, slice_index_or};

    ghost value = { λ t p row c. slice_index (slice_index_or t.tables p []) (slice_index row c) };

    fn map_row(&self, plane: u32, row: &mut [u8]) {
        look_up(row, &self.tables[plane as usize]);
    }
}

impl FrameRule for LutyuvSettings {
    ghost use Rattle.filt_expr.specs.Lutyuv.{lutyuv_making};
    ghost use Rattle.filt_expr.specs.LutyuvLaws.{lutyuv_making_laws};

    type Options = LutyuvOptions;

    ghost making = { lutyuv_making };

    fn takes(_options: &LutyuvOptions, _format: Format) -> bool {
        true
    }

    fn settle(options: &LutyuvOptions, shape: Shape) -> Result<LutyuvSettings, ConfigError> {
        let mut tables = [[0; 256]; 4];
        for plane in 0..shape.planes() {
            tables[plane as usize] = options.table_of(plane)?;
        }
        check_shape(shape)?;
        Ok(LutyuvSettings { tables })
    }

    fn shape(&self, shape: Shape) -> Shape {
        shape
    }

    fn make(&self, alloc: Global, pools: &mut Pools, frame: Frame) -> Result<Frame, Returned> {
        map_frame(alloc, pools, frame, self)
    }

    ghost laws = { lutyuv_making_laws };
}

impl NamedRule for LutyuvSettings {
    ghost use Rattle.std.specs.Prelude.{codes};
    ghost use Rattle.filt_expr.specs.Lutyuv.{lutyuv_rules};
    ghost use Rattle.filt_expr.specs.LutyuvLaws.{lutyuv_reading_laws};

    ghost name = { codes "lutyuv" };

    ghost options = { lutyuv_rules };

    fn is_named(word: &str) -> bool {
        word == "lutyuv"
    }

    fn read(alloc: Global, args: &List<Arg>) -> Result<LutyuvOptions, OptionError> {
        read_options(alloc, args)
    }

    ghost one = { lutyuv_reading_laws };
}
