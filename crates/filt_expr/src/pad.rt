//! The filter `pad`: an area around each picture.
ghost use Rattle.std.specs.Prelude.{◌≡◌, ◌<◌, ◌≤◌, ◌-◌, ◌^◌, ◌⊎◌, ℕ, ℤ, pos, ◌+ℤ◌, ◌≤ℤ◌, Err, false, length, slice_index, if◌then◌else◌, ◌↔◌, IsTrue, IfOk, IfErr, codes};
ghost use Rattle.av_base.specs.Shapes.{planes_of, rows_of, columns_of, IsPictureShape, IsPictured};
ghost use Rattle.av_expr.specs.declared.vars.Var.{Var};
ghost use Rattle.av_expr.specs.declared.fraction.Fraction.{Fraction};
ghost use Rattle.av_expr.specs.Values.{value_of};
ghost use Rattle.av_frame.specs.Grid.{column_in, row_in};
ghost use Rattle.av_frame.specs.Pictures.{painted, sample};
ghost use Rattle.av_frame.specs.Sources.{source_at};
ghost use Rattle.av_frame.specs.declared.refusals.ConfigError.TheVariants as config;
ghost use Rattle.filt_expr.specs.Worth.{IsWorthless};
ghost use Rattle.filt_expr.specs.Geometry.{shown};
ghost use Rattle.filt_expr.specs.Paste.{is_among};
ghost use Rattle.filt_expr.specs.Pad.{AsksSide, or_middle, placed, EndsIn, padded, pad_places, pad_checks, pad_rules, pad_making};
ghost use Rattle.filt_expr.specs.PadLaws.{pad_numbers, pad_making_laws, pad_reading_laws};

use crate::colour::{BLACK, Colour, read_colour};
use crate::geometry::{cut, floor_to, misfit, overhang, resize, size_values};
use crate::paste::{copy_row, fill, fill_around, is_among, start_in};
use crate::worth::{Role, default_expr, set_expr};
use av_base::{Format, List, NoMemory, Shape};
use av_expr::{Expr, Values};
use av_filter::{
    FrameRule, Framewise, NamedRule, Options, check_limits, paint_frame, picture_size,
    read_options, read_sample, size_of,
};
use av_frame::{ConfigError, Frame, Kernel, OptionError, Pools, Returned, chroma_step};
use av_text::Arg;
use std::alloc::Global;

/// The filter `pad`.
pub type Pad = Framewise<PadSettings>;

/// The options of `pad`.
#[derive(Drop)]
pub struct PadOptions {
    /// The width of the output; 0 means the input's.
    pub width: Expr,
    /// Its height; 0 means the input's.
    pub height: Expr,
    /// The column in which the input begins; below 0 it is in the middle.
    pub x: Expr,
    /// The row in which the input begins; below 0 it is in the middle.
    pub y: Expr,
    /// The colour of the area.
    pub color: Colour,
}

/// The area of `pad`, in samples of plane Y.
#[derive(Clone, Copy, Debug, PartialEq, Eq, Drop)]
pub struct PadSettings {
    /// Its width.
    pub width: u32,
    /// Its height.
    pub height: u32,
    /// The column in which the input begins.
    pub x: u32,
    /// The row in which the input begins.
    pub y: u32,
    /// Its colour.
    pub color: Colour,
}

/// A side of the output, for which 0 means the input's.
fn side(expr: &Expr, values: &Values, option: u32, input: u32) -> Result<i128, ConfigError>
    ensures ok { (f : Var → Fraction) → ((x : Var) → value_of values.now x ≡ f x) → IfOk result (AsksSide expr.now f input) }
    ensures err { (f : Var → Fraction) → ((x : Var) → value_of values.now x ≡ f x) → IfErr result (λ e. (e ≡ config.NoValue option) × IsWorthless expr.now f) }
{
    match cut(expr, values, option)? {
        0 => Ok(input.into()),
        side => Ok(side),
    }
}

/// A side of the output, if it isn't smaller than the input's.
fn check_side(side: i128, input: u32) -> Result<u128, ConfigError>
    ensures ok { IfOk result (λ n. (side ≡ pos n) × (pos input ≤ℤ side)) }
    ensures err { IfErr result (λ e. (¬ (pos input ≤ℤ side)) × (e ≡ config.BadGeometry (shown side) (shown (pos input)))) }
{
    let least = i128::from(input);
    if side < least {
        return Err(misfit(side, least));
    }
    Ok(side as u128)
}

/// Where the input is to begin: in the middle, where a place below 0 is asked for.
fn or_middle(asked: i128, side: i128, input: u32) -> i128
    requires { pos input ≤ℤ side }
    ensures middle { result ≡ or_middle input side asked }
    ensures low { pos 0 ≤ℤ result }
{
    if asked < 0 {
        (side - i128::from(input)) / 2
    } else {
        asked
    }
}

/// Whether the input ends within a side of the output.
fn ends_in(start: i128, side: i128, input: u32) -> bool
    requires { pos input ≤ℤ side }
    ensures { IsTrue result ↔ EndsIn input side start }
{
    start <= side - i128::from(input)
}

/// Where the input begins, if it then ends within the output.
fn place(asked: i128, side: i128, input: u32, step: u32) -> Result<u128, ConfigError>
    requires step { (step ≡ 1) ⊎ (step ≡ 2) }
    requires room { pos input ≤ℤ side }
    ensures ok { IfOk result (λ n. (pos n ≡ placed step input side asked) × EndsIn input side (placed step input side asked)) }
    ensures err { IfErr result (λ e. (¬ EndsIn input side (placed step input side asked))
        × (e ≡ config.BadGeometry (shown (placed step input side asked +ℤ pos input)) (shown side))) }
{
    let start = floor_to(or_middle(asked, side, input), step);
    if !ends_in(start, side, input) {
        return Err(overhang(start, side, input));
    }
    Ok(start as u128)
}

impl Options for PadOptions {
    ghost rules = { pad_rules };

    fn count() -> u32 {
        5
    }

    fn numbered(name: &str) -> Option<u32> {
        match name {
            "width" | "w" => Some(0),
            "height" | "h" => Some(1),
            "x" => Some(2),
            "y" => Some(3),
            "color" => Some(4),
            _ => None,
        }
    }

    #[tactic(auto, using(crate::specs::Defaults::defaults))]
    fn defaults(alloc: Global) -> Result<PadOptions, NoMemory> {
        Ok(PadOptions {
            width: default_expr(alloc, "iw", Role::Width)?,
            height: default_expr(alloc, "ih", Role::Height)?,
            x: default_expr(alloc, "0", Role::Place)?,
            y: default_expr(alloc, "0", Role::Place)?,
            color: BLACK,
        })
    }

    fn set(&mut self, alloc: Global, option: u32, value: &str) -> Result<bool, NoMemory> {
        Ok(match option {
            0 => set_expr(alloc, &mut self.width, value, Role::Width)?,
            1 => set_expr(alloc, &mut self.height, value, Role::Height)?,
            2 => set_expr(alloc, &mut self.x, value, Role::Place)?,
            3 => set_expr(alloc, &mut self.y, value, Role::Place)?,
            _ => {
                let Some(color) = read_colour(value) else {
                    return Ok(false);
                };
                self.color = color;
                true
            }
        })
    }

    fn complete(self, _arguments: u32) -> Result<PadOptions, OptionError> {
        Ok(self)
    }

    ghost numbers = { pad_numbers };
}

impl PadOptions {
    /// The settings for an area of this size.
    fn place(&self, shape: Shape, width: i128, height: i128) -> Result<PadSettings, ConfigError>
        requires { IsPictureShape shape }
        ensures { pad_places self.now shape width height result }
    {
        let values = size_values(shape, width, height);
        let x = cut(&self.x, &values, 2)?;
        let y = cut(&self.y, &values, 3)?;
        self.check(shape, (width, height), (x, y))
    }

    /// The settings for an area of this size with the input at this place, if it fits.
    fn check(
        &self,
        shape: Shape,
        size: (i128, i128),
        asked: (i128, i128),
    ) -> Result<PadSettings, ConfigError>
        requires { IsPictureShape shape }
        ensures { pad_checks self.now shape size.0 size.1 asked.0 asked.1 result }
    {
        let (in_width, in_height) = picture_size(shape);
        let (across, down) = chroma_step(shape);
        let width = check_side(size.0, in_width)?;
        let height = check_side(size.1, in_height)?;
        let x = place(asked.0, size.0, in_width, across)?;
        let y = place(asked.1, size.1, in_height, down)?;
        check_limits(shape, width, height)?;
        Ok(PadSettings {
            width: width as u32,
            height: height as u32,
            x: x as u32,
            y: y as u32,
            color: self.color,
        })
    }
}

impl Kernel for PadSettings {
    ghost fits = { λ k sources p r c. (0 < length sources) × (p < planes_of (source_at sources 0).shape) };

    ghost value = { λ k sources. padded k.x k.y k.color (source_at sources 0) };

    fn at(&self, sources: &mut [Frame], plane: u32, row: u32, column: u32) -> i32 {
        let (left, top) = start_in(sources, plane, self.x, self.y);
        let (columns, rows) = size_of(sources, plane);
        if is_among(top, rows, row) && is_among(left, columns, column) {
            read_sample(sources, plane, row - top, column - left)
        } else {
            i32::from(self.color.sample(plane))
        }
    }

    fn row(&self, sources: &mut [Frame], plane: u32, row: u32, out: &mut [u8]) {
        if out.is_empty() {
            return;
        }
        let (left, top) = start_in(sources, plane, self.x, self.y);
        let (columns, rows) = size_of(sources, plane);
        let value = self.color.sample(plane);
        if is_among(top, rows, row) {
            fill_around(out, left, columns, value);
            copy_row(sources, plane, row - top, left, out);
        } else {
            fill(out, value);
        }
    }
}

/// The picture with the area around it.
fn paint_area(
    alloc: Global,
    pools: &mut Pools,
    frame: Frame,
    settings: PadSettings,
    out_shape: Shape,
) -> Result<Frame, Returned>
    requires pictured { IsPictured out_shape }
    requires format { out_shape.format ≡ frame.shape.format }
    ensures made { IfOk result (λ y. y ≡ painted (padded settings.x settings.y settings.color) out_shape frame) }
    ensures returned { IfErr result (λ e. e.frame ≡ frame) }
{
    paint_frame(alloc, pools, frame, out_shape, &settings)
}

impl FrameRule for PadSettings {
    type Options = PadOptions;

    ghost making = { pad_making };

    fn takes(_options: &PadOptions, _format: Format) -> bool {
        true
    }

    fn settle(options: &PadOptions, shape: Shape) -> Result<PadSettings, ConfigError> {
        let (in_width, in_height) = picture_size(shape);
        let width = side(&options.width, &size_values(shape, 0, 0), 0, in_width)?;
        let height = side(&options.height, &size_values(shape, width, 0), 1, in_height)?;
        options.place(shape, width, height)
    }

    fn shape(&self, shape: Shape) -> Shape {
        resize(shape, self.width, self.height)
    }

    fn make(&self, alloc: Global, pools: &mut Pools, frame: Frame) -> Result<Frame, Returned> {
        let out_shape = self.shape(frame.shape());
        paint_area(alloc, pools, frame, *self, out_shape)
    }

    ghost laws = { pad_making_laws };
}

impl NamedRule for PadSettings {
    ghost name = { codes "pad" };

    ghost options = { pad_rules };

    fn is_named(word: &str) -> bool {
        word == "pad"
    }

    fn read(alloc: Global, args: &List<Arg>) -> Result<PadOptions, OptionError> {
        read_options(alloc, args)
    }

    ghost one = { pad_reading_laws };
}
