//! Sizes and places in pictures, as expressions of filters give them.
ghost use Rattle.std.specs.Prelude.{◌≡◌, ◌-◌, ◌^◌, ℤ, ◌⊎◌, pos, ◌≤ℤ◌, ◌+ℤ◌, IfOk, IfErr, ◌<◌, ◌≤◌};
ghost use Rattle.av_expr.specs.Fractions.{IsLowest};
ghost use Rattle.av_expr.specs.Values.{value_of};
ghost use Rattle.av_expr.specs.declared.vars.Var.{Var};
ghost use Rattle.av_base.specs.Shapes.{IsPictureShape};
ghost use Rattle.av_expr.specs.declared.fraction.Fraction.{Fraction};
ghost use Rattle.av_frame.specs.declared.refusals.ConfigError.TheVariants as config;
ghost use Rattle.av_frame.specs.declared.refusals.ConfigError.TheVariants.{BadGeometry};
ghost use Rattle.filt_expr.specs.Rounding.{IsRounded, IsCutValue, FitsIn};
ghost use Rattle.filt_expr.specs.Worth as worth;
ghost use Rattle.filt_expr.specs.Worth.{IsWorthless};
ghost use Rattle.filt_expr.specs.Geometry.{on_grid, shown, resized, sizes};

use crate::worth::worth;
use av_base::{Props, Shape, VideoProps};
use av_expr::{Expr, Fraction, Values, Var};
use av_filter::{picture_parts, picture_size};
use av_frame::{ConfigError, chroma_step};

/// The shape with another size.
pub(crate) fn resize(shape: Shape, width: u32, height: u32) -> Shape
    requires { IsPictureShape shape }
    ensures { result ≡ resized width height shape }
{
    let (_format, props) = picture_parts(shape);
    Shape {
        format: shape.format,
        props: Props::Video(VideoProps {
            width,
            height,
            ..props
        }),
    }
}

/// The greatest multiple of a chroma step that isn't past the number.
pub(crate) fn floor_to(z: i128, step: u32) -> i128
    requires { (step ≡ 1) ⊎ (step ≡ 2) }
    ensures { result ≡ on_grid step z }
{
    z - z.rem_euclid(i128::from(step))
}

/// A whole number as a fraction.
pub(crate) fn whole(z: i128) -> Fraction
    ensures whole { result ≡ worth.whole z }
    ensures lowest { IsLowest result }
{
    Fraction { num: z, den: 1 }
}

/// The values of the variables of sizes, if the output has this size so far.
pub(crate) fn size_values(shape: Shape, width: i128, height: i128) -> Values
    requires { IsPictureShape shape }
    ensures { (x : Var) → value_of result x ≡ sizes shape width height x }
{
    let (in_width, in_height) = picture_size(shape);
    let (across, down) = chroma_step(shape);
    let mut values = Values::zero();
    values.set(Var::InW, whole(in_width.into()));
    values.set(Var::InH, whole(in_height.into()));
    values.set(Var::OutW, whole(width));
    values.set(Var::OutH, whole(height));
    values.set(Var::Hsub, whole(across.into()));
    values.set(Var::Vsub, whole(down.into()));
    values
}

/// The value of an option, rounded to the nearest whole number, and then down to a grid.
pub(crate) fn rounded(
    expr: &Expr,
    values: &Values,
    option: u32,
    step: u32,
) -> Result<i128, ConfigError>
    requires { (step ≡ 1) ⊎ (step ≡ 2) }
    ensures ok { (f : Var → Fraction) → ((x : Var) → value_of values.now x ≡ f x) → IfOk result (IsRounded expr.now f step) }
    ensures err { (f : Var → Fraction) → ((x : Var) → value_of values.now x ≡ f x) → IfErr result (λ e. (e ≡ config.NoValue option) × IsWorthless expr.now f) }
{
    let value = worth(expr, values, option)?;
    Ok(floor_to(value.nearest(), step))
}

/// The value of an option, cut.
pub(crate) fn cut(expr: &Expr, values: &Values, option: u32) -> Result<i128, ConfigError>
    ensures ok { (f : Var → Fraction) → ((x : Var) → value_of values.now x ≡ f x) → IfOk result (IsCutValue expr.now f) }
    ensures err { (f : Var → Fraction) → ((x : Var) → value_of values.now x ≡ f x) → IfErr result (λ e. (e ≡ config.NoValue option) × IsWorthless expr.now f) }
{
    Ok(worth(expr, values, option)?.cut())
}

/// A side of the output, where it fits into that of the input.
pub(crate) fn fitting(found: i128, most: u32) -> Result<u32, ConfigError>
    ensures ok { IfOk result (λ n. (found ≡ pos n) × FitsIn most found) }
    ensures err { IfErr result (λ e. (¬ FitsIn most found) × (e ≡ config.BadGeometry (shown found) (shown (pos most)))) }
{
    let allowed = i128::from(most);
    if found < 1 || found > allowed {
        return Err(misfit(found, allowed));
    }
    Ok(found as u32)
}

/// That a size or a place doesn't fit.
pub(crate) fn misfit(found: i128, allowed: i128) -> ConfigError
    ensures { result ≡ BadGeometry (shown found) (shown allowed) }
{
    ConfigError::BadGeometry {
        found: nearest_shown(found),
        allowed: nearest_shown(allowed),
    }
}

/// That the input ends past a side of the output.
pub(crate) fn overhang(start: i128, side: i128, input: u32) -> ConfigError
    requires { pos 0 ≤ℤ start }
    ensures { result ≡ config.BadGeometry (shown (start +ℤ pos input)) (shown side) }
{
    misfit(start.saturating_add(i128::from(input)), side)
}

/// The nearest number of 64 bits.
fn nearest_shown(z: i128) -> i64
    ensures { result ≡ shown z }
{
    z.clamp(i64::MIN.into(), i64::MAX.into()) as i64
}
