//! The limits of pictures.
ghost use Rattle.std.specs.Prelude.{◌≡◌, ◌<◌, ◌≤◌, ◌-◌, ◌^◌, min, IfOk, IfErr};
ghost use Rattle.av_base.specs.declared.formats.Format.TheVariants as format;
ghost use Rattle.av_base.specs.declared.shapes.Props.TheVariants as props;
ghost use Rattle.av_base.specs.Shapes.{width_of, height_of, IsPictureShape, IsPictured};
ghost use Rattle.av_frame.specs.declared.refusals.ConfigError.TheVariants.{TooLarge};
ghost use Rattle.av_filter.specs.Limits.{IsSmall, PassesLimit};

use av_base::{
    Format, PICTURE_MAX, PixelFormat, Props, SIDE_MAX, Shape, VideoProps, picture_bytes,
};
use av_frame::ConfigError;

/// The format and the properties of pictures.
pub fn picture_parts(shape: Shape) -> (PixelFormat, VideoProps)
    requires { IsPictureShape shape }
    ensures format { shape.format ≡ format.Video result.0 }
    ensures props { shape.props ≡ props.Video result.1 }
{
    match (shape.format, shape.props) {
        (Format::Video(format), Props::Video(props)) => (format, props),
        _ => unreachable!(),
    }
}

/// The width and the height of pictures.
pub fn picture_size(shape: Shape) -> (u32, u32)
    requires { IsPictureShape shape }
    ensures width { result.0 ≡ width_of shape.props }
    ensures height { result.1 ≡ height_of shape.props }
{
    let (_format, props) = picture_parts(shape);
    (props.width, props.height)
}

/// Rejects a count past the most that is allowed.
fn check_most(found: u128, most: u64) -> Result<(), ConfigError>
    ensures small { IfOk result (λ _. found ≤ most) }
    ensures large { IfErr result (λ e. (most < found) × (e ≡ TooLarge (min found (2 ^ 64 - 1)) most)) }
{
    if found > u128::from(most) {
        return Err(ConfigError::TooLarge {
            found: found.min(u128::from(u64::MAX)) as u64,
            allowed: most,
        });
    }
    Ok(())
}

/// Rejects a size of pictures that passes a limit.
///
/// # Errors
/// `TooLarge` for the width, the height or the bytes, in this order.
pub fn check_limits(shape: Shape, width: u128, height: u128) -> Result<(), ConfigError>
    requires { IsPictureShape shape }
    ensures small { IfOk result (λ _. IsSmall shape width height) }
    ensures large { IfErr result (PassesLimit shape width height) }
{
    check_most(width, SIDE_MAX.into())?;
    check_most(height, SIDE_MAX.into())?;
    let (format, _props) = picture_parts(shape);
    let bytes = picture_bytes(format, width as u32, height as u32);
    check_most(bytes.into(), PICTURE_MAX)
}

/// Rejects a shape whose pictures pass a limit.
///
/// # Errors
/// `TooLarge` for the width, the height or the bytes, in this order.
pub fn check_shape(shape: Shape) -> Result<(), ConfigError>
    requires { IsPictureShape shape }
    ensures small { IfOk result (λ _. IsSmall shape (width_of shape.props) (height_of shape.props)) }
    ensures large { IfErr result (PassesLimit shape (width_of shape.props) (height_of shape.props)) }
{
    let (width, height) = picture_size(shape);
    check_limits(shape, width.into(), height.into())
}
