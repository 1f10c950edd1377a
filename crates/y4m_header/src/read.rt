//! The header line that is read.
ghost use Rattle.std.specs.Prelude.{◌≡◌, ◌<◌, ◌≤◌, ◌++◌, ℕ, List, IfOk, IfSome, IsNone, Some, None};
ghost use Rattle.av_base.specs.Bounds.{number_bound, greatest_side};
ghost use Rattle.av_base.specs.Reduced.{IsReduced};
ghost use Rattle.av_base.specs.Shapes.{IsPictured};
ghost use Rattle.y4m_header.specs.Said.{HeaderMeans, IsShapeOf, fits, is_sized, ordered_in};
ghost use Rattle.y4m_header.specs.Walk.{AreInRange, IsOrdered, said_of};

use crate::fault::HeaderFault;
use crate::params::{Latest, read_params};
use av_base::{
    Format, PICTURE_MAX, PixelFormat, Props, Ratio, Shape, TimeBase, VideoProps, picture_bytes,
    reduce,
};

/// The name of the format, with which each header line begins.
pub(crate) const MAGIC: &[u8] = b"YUV4MPEG2";

/// What follows the prefix in a text that begins with it.
pub(crate) fn after<'a>(text: &'a [u8], prefix: &[u8]) -> Option<&'a [u8]>
    ensures found { IfSome result (λ rest. text.now ≡ prefix.now ++ rest.now) }
    ensures none { IsNone result → (rest : List ℕ) → text.now ≡ prefix.now ++ rest → ⊥ }
{
    match text.strip_prefix(prefix) {
        Some(rest) => Some(rest),
        None => None,
    }
}

/// Whether a picture of the format isn't too large; there is no limit without a format.
fn fits(format: Option<PixelFormat>, width: u32, height: u32) -> bool
    requires wide { width ≤ greatest_side }
    requires high { height ≤ greatest_side }
    ensures { result ≡ fits format width height }
{
    match format {
        Some(format) => picture_bytes(format, width, height) <= PICTURE_MAX,
        None => true,
    }
}

/// Whether there are both sides, and the picture isn't too large.
fn is_sized(latest: &Latest) -> bool
    requires wide { latest.now.width ≤ greatest_side }
    requires high { latest.now.height ≤ greatest_side }
    ensures { result ≡ is_sized (said_of latest.now) }
{
    latest.width > 0 && latest.height > 0 && fits(latest.colour, latest.width, latest.height)
}

/// What the parameters after the name of the format say, or none if they aren't in order.
fn ordered(rest: &[u8]) -> Option<Latest>
    ensures none { IsNone result → ordered_in rest.now ≡ None }
    ensures some { IfSome result (IsOrdered rest.now) }
{
    let [b' ', params @ ..] = rest else {
        return None;
    };
    let latest = read_params(params)?;
    if !is_sized(&latest) {
        return None;
    }
    Some(latest)
}

/// The ratio of two numbers.
fn ratio(num: u32, den: u32) -> Ratio
    requires num { num < number_bound }
    requires some { 0 < den }
    requires den { den < number_bound }
    ensures { IsReduced num den result }
{
    match reduce(u128::from(num), u128::from(den)) {
        Some(ratio) => ratio,
        None => unreachable!(),
    }
}

/// The shape of a file whose header says this: a tick is a frame.
fn shape_of(latest: &Latest, format: PixelFormat) -> Shape
    requires named { latest.now.colour ≡ Some format }
    requires range { AreInRange latest.now }
    ensures { IsShapeOf (said_of latest.now) result }
{
    let rate = ratio(latest.rate.0, latest.rate.1);
    let aspect = ratio(latest.aspect.0, latest.aspect.1);
    Shape {
        format: Format::Video(format),
        props: Props::Video(VideoProps {
            width: latest.width,
            height: latest.height,
            aspect,
            rate,
            base: TimeBase {
                num: rate.den,
                den: rate.num,
            },
            scan: latest.scan,
        }),
    }
}

/// The shape of a file with this header line, which is given without its line feed.
///
/// # Errors
/// `NotMedia` if the line doesn't begin with `YUV4MPEG2`, `BadHeader` if it isn't in order, and `BadColour` if it is in
/// order but for the name of a colour.
pub fn read_header(text: &[u8]) -> Result<Shape, HeaderFault>
    ensures means { HeaderMeans text.now result }
    ensures pictured { IfOk result IsPictured }
{
    let Some(rest) = after(text, MAGIC) else {
        return Err(HeaderFault::NotMedia);
    };
    let Some(latest) = ordered(rest) else {
        return Err(HeaderFault::BadHeader);
    };
    match latest.colour {
        Some(format) if latest.named => Ok(shape_of(&latest, format)),
        _ => Err(HeaderFault::BadColour),
    }
}

#[cfg(test)]
mod tests {
    use super::read_header;
    use crate::fault::HeaderFault;
    use av_base::{Format, PixelFormat, Props, Ratio, Shape, TimeBase, VideoProps};

    fn shape(format: PixelFormat, size: (u32, u32), rate: Ratio, aspect: Ratio, scan: u8) -> Shape {
        Shape {
            format: Format::Video(format),
            props: Props::Video(VideoProps {
                width: size.0,
                height: size.1,
                aspect,
                rate,
                base: TimeBase {
                    num: rate.den,
                    den: rate.num,
                },
                scan,
            }),
        }
    }

    const PAL: Ratio = Ratio { num: 25, den: 1 };

    const NTSC: Ratio = Ratio {
        num: 30000,
        den: 1001,
    };

    const UNKNOWN: Ratio = Ratio { num: 0, den: 1 };

    const SQUARE: Ratio = Ratio { num: 1, den: 1 };

    const CIF: (u32, u32) = (352, 288);

    /// Lines with their format, size, rate, aspect and order of fields.
    const LINES: [(&str, PixelFormat, (u32, u32), Ratio, Ratio, u8); 11] = [
        (
            "YUV4MPEG2 W352 H288 F25:1 Ip A1:1 C420jpeg XYSCSS=420JPEG",
            PixelFormat::Yuv420p,
            CIF,
            PAL,
            SQUARE,
            b'p',
        ),
        (
            "YUV4MPEG2 W352 H288 F25:1 Ip A1:1 Cmono XYSCSS=MONO XCOLORRANGE=LIMITED",
            PixelFormat::Gray,
            CIF,
            PAL,
            SQUARE,
            b'p',
        ),
        (
            "YUV4MPEG2 W352 H288 F30000:1001 Ip A0:0 C422 XYSCSS=422",
            PixelFormat::Yuv422p,
            CIF,
            NTSC,
            UNKNOWN,
            b'p',
        ),
        (
            "YUV4MPEG2 W352 H288 F50:2 I? A10:10 C444 XYSCSS=444",
            PixelFormat::Yuv444p,
            CIF,
            PAL,
            SQUARE,
            b'?',
        ),
        (
            "YUV4MPEG2 W352 H288 F25:1 Im A1:1 C444alpha",
            PixelFormat::Yuva444p,
            CIF,
            PAL,
            SQUARE,
            b'm',
        ),
        (
            "YUV4MPEG2 W720 H576 F25:1 It A59:54 C420paldv",
            PixelFormat::Yuv420p,
            (720, 576),
            PAL,
            Ratio { num: 59, den: 54 },
            b't',
        ),
        (
            "YUV4MPEG2 W352 H288 F30000:1001 Ip A128:117",
            PixelFormat::Yuv420p,
            CIF,
            NTSC,
            Ratio { num: 128, den: 117 },
            b'p',
        ),
        (
            "YUV4MPEG2 H2 W4",
            PixelFormat::Yuv420p,
            (4, 2),
            PAL,
            UNKNOWN,
            b'p',
        ),
        (
            "YUV4MPEG2 W1 F1:1 W4 H2 F0:0 Ib C422 C420mpeg2 It A0:1",
            PixelFormat::Yuv420p,
            (4, 2),
            PAL,
            UNKNOWN,
            b't',
        ),
        (
            "YUV4MPEG2   W0004  H02 A5:0 F025:01 Z zz q=1",
            PixelFormat::Yuv420p,
            (4, 2),
            PAL,
            UNKNOWN,
            b'p',
        ),
        (
            "YUV4MPEG2 W8192 H8192 Cmono",
            PixelFormat::Gray,
            (8192, 8192),
            PAL,
            UNKNOWN,
            b'p',
        ),
    ];

    #[test]
    fn lines_in_order_have_a_shape(rt: HostRuntime) {
        for (line, format, size, rate, aspect, scan) in LINES {
            assert_eq!(rt;
                read_header(line.as_bytes()),
                Ok(shape(format, size, rate, aspect, scan)),
                "{line}"
            );
        }
    }

    #[test]
    fn other_lines_have_a_fault(rt: HostRuntime) {
        for (line, fault) in [
            ("", HeaderFault::NotMedia),
            ("YUV4MPEG", HeaderFault::NotMedia),
            ("yuv4mpeg2 W4 H2", HeaderFault::NotMedia),
            (" YUV4MPEG2 W4 H2", HeaderFault::NotMedia),
            ("YUV4MPEG2X", HeaderFault::BadHeader),
            ("YUV4MPEG2", HeaderFault::BadHeader),
            ("YUV4MPEG2 ", HeaderFault::BadHeader),
            ("YUV4MPEG2 W4", HeaderFault::BadHeader),
            ("YUV4MPEG2 H2", HeaderFault::BadHeader),
            ("YUV4MPEG2 W4 H2 ", HeaderFault::BadHeader),
            ("YUV4MPEG2 W0 H2", HeaderFault::BadHeader),
            ("YUV4MPEG2 W H2", HeaderFault::BadHeader),
            ("YUV4MPEG2 W8193 H2", HeaderFault::BadHeader),
            ("YUV4MPEG2 W4x H2", HeaderFault::BadHeader),
            ("YUV4MPEG2 W8193 W4 H2", HeaderFault::BadHeader),
            ("YUV4MPEG2 W8192 H8192 Cmono C444", HeaderFault::BadHeader),
            ("YUV4MPEG2 W4 H2 F0:1", HeaderFault::BadHeader),
            ("YUV4MPEG2 W4 H2 F25", HeaderFault::BadHeader),
            ("YUV4MPEG2 W4 H2 F2147483648:1", HeaderFault::BadHeader),
            (
                "YUV4MPEG2 W4 H2 F18446744073709551641:1",
                HeaderFault::BadHeader,
            ),
            ("YUV4MPEG2 W4 H2 A1:1:1", HeaderFault::BadHeader),
            ("YUV4MPEG2 W4 H2 Ix", HeaderFault::BadHeader),
            ("YUV4MPEG2 W4 H2 Ipp", HeaderFault::BadHeader),
            ("YUV4MPEG2 W4 H2 4C", HeaderFault::BadHeader),
            ("YUV4MPEG2 Cxyz W0 H2", HeaderFault::BadHeader),
            ("YUV4MPEG2 Cxyz W4 H2", HeaderFault::BadColour),
            ("YUV4MPEG2 Cxyz C420 W4 H2", HeaderFault::BadColour),
            ("YUV4MPEG2 C420p10 W4 H2 C420", HeaderFault::BadColour),
            ("YUV4MPEG2 C W4 H2", HeaderFault::BadColour),
        ] {
            assert_eq!(rt; read_header(line.as_bytes()), Err(fault), "{line}");
        }
    }
}
