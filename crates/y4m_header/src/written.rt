//! The header line that is written.
ghost use Rattle.std.specs.Prelude.{◌≡◌, ◌++◌, [], ◌∷◌, IfOk, codes, string_bytes, encode_utf8};
ghost use Rattle.std.specs.Fmt.{decimal};
ghost use Rattle.y4m_header.specs.HeaderTexts.{IsWritable, colour_of, ratio_text, header_text};

use av_base::{Format, NoMemory, PixelFormat, Props, Shape};
use std::alloc::{AllocError, Global};

/// The name of the format in a header line; there is none for those that a file cannot hold.
fn colour_name(format: PixelFormat) -> &'static str
    ensures { result.now ≡ colour_of format }
{
    match format {
        PixelFormat::Gray => "mono",
        PixelFormat::Yuv420p => "420jpeg",
        PixelFormat::Yuv422p => "422",
        PixelFormat::Yuv444p => "444",
        PixelFormat::Yuva444p => "444alpha",
        PixelFormat::Yuva420p | PixelFormat::Yuva422p => "",
    }
}

/// Two numbers with a colon between them.
fn ratio_text(alloc: Global, num: u32, den: u32) -> Result<String, AllocError>
    ensures { IfOk result (λ text. string_bytes text ≡ ratio_text num den) }
{
    format!(in alloc; "{num}:{den}")
}

/// The part of the header line with the size and the rate.
fn size_part(alloc: Global, width: u32, height: u32, rate: &str) -> Result<String, AllocError>
    ensures { IfOk result (λ text. string_bytes text ≡ codes "YUV4MPEG2 W" ++ (decimal width ++ (codes " H" ++ (decimal height ++ (codes " F" ++ rate.now))))) }
{
    format!(in alloc; "YUV4MPEG2 W{width} H{height} F{rate}")
}

/// The part of the header line with the order of the fields, the aspect and the colour.
fn form_part(alloc: Global, scan: char, aspect: &str, colour: &str) -> Result<String, AllocError>
    ensures { IfOk result (λ text. string_bytes text ≡ codes " I" ++ (encode_utf8 scan ++ (codes " A" ++ (aspect.now ++ (codes " C" ++ (colour.now ++ 10 ∷ [])))))) }
{
    format!(in alloc; " I{scan} A{aspect} C{colour}\n")
}

/// The header line of a file of the shape, with its line feed.
///
/// # Errors
/// Out of memory.
pub fn write_header(alloc: Global, shape: Shape) -> Result<String, NoMemory>
    requires { IsWritable shape }
    ensures { IfOk result (λ line. string_bytes line ≡ header_text shape) }
{
    let (Format::Video(format), Props::Video(props)) = (shape.format, shape.props) else {
        unreachable!()
    };
    let below = if props.aspect.num == 0 {
        0
    } else {
        props.aspect.den
    };
    let rate = ratio_text(alloc, props.rate.num, props.rate.den)?;
    let aspect = ratio_text(alloc, props.aspect.num, below)?;
    let mut line = size_part(alloc, props.width, props.height, rate.as_str())?;
    let form = form_part(
        alloc,
        char::from(props.scan),
        aspect.as_str(),
        colour_name(format),
    )?;
    line.push_str(form.as_str())?;
    Ok(line)
}

#[cfg(test)]
mod tests {
    use super::write_header;
    use crate::read::read_header;
    use av_base::{Format, PixelFormat, Props, Ratio, Shape, TimeBase, VideoProps};
    use std::test::Fail;

    #[test]
    fn a_written_line_is_read_back(rt: HostRuntime) -> Result<(), Fail> {
        let shape = Shape {
            format: Format::Video(PixelFormat::Gray),
            props: Props::Video(VideoProps {
                width: 720,
                height: 576,
                aspect: Ratio { num: 1, den: 1 },
                rate: Ratio { num: 25, den: 1 },
                base: TimeBase { num: 1, den: 25 },
                scan: b't',
            }),
        };
        let line = write_header(rt.alloc(), shape)?;
        assert_eq!(rt; line.as_str(), "YUV4MPEG2 W720 H576 F25:1 It A1:1 Cmono\n");
        let text = b"YUV4MPEG2 W720 H576 F25:1 It A1:1 Cmono".as_slice();
        assert_eq!(rt; read_header(text), Ok(shape));
        Ok(())
    }
}
