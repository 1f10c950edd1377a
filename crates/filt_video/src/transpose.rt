//! The filter `transpose`: rows and columns are exchanged.
ghost use Rattle.std.specs.Prelude.{◌≡◌, ◌<◌};
ghost use Rattle.av_base.specs.declared.numbers.Ratio.{Ratio};
ghost use Rattle.av_filter.specs.Words.{word_in};
ghost use Rattle.av_base.specs.Shapes.{IsPictureShape};
ghost use Rattle.filt_video.specs.Transpose.{turns, passthroughs, passes, turned_aspect, turned_shape, transposed_shape, source_row, source_column};

use av_base::{Format, List, NoMemory, PixelFormat, Props, Ratio, Shape, VideoProps};
use av_filter::{
    FrameRule, Framewise, NamedRule, Options, check_shape, paint_frame, picture_parts,
    picture_size, read_column, read_options, read_part, read_sample, size_of,
};
use av_frame::{ConfigError, Frame, Kernel, OptionError, Pools, Returned};
use av_text::Arg;
use std::alloc::Global;

/// The filter `transpose`. It takes no format of 4:2:2, since turned pictures would be of another format.
///
/// The output has the input's shape with width and height exchanged, and with the aspect turned over if it is known; or the
/// input's, if frames of its shape pass as they are. Its limits are checked.
pub type Transpose = Framewise<TransposeSettings>;

/// How rows and columns are exchanged.
#[derive(Clone, Copy, Debug, PartialEq, Eq, Drop)]
pub enum Turn {
    /// Turned by a quarter against the clock, and then upside down.
    CclockFlip,
    /// Turned by a quarter with the clock.
    Clock,
    /// Turned by a quarter against the clock.
    Cclock,
    /// Turned by a quarter with the clock, and then upside down.
    ClockFlip,
}

/// Which pictures pass as they are.
#[derive(Clone, Copy, Debug, PartialEq, Eq, Drop)]
pub enum Passthrough {
    /// None.
    Never,
    /// Those at least as high as wide.
    Portrait,
    /// Those at least as wide as high.
    Landscape,
}

/// The options `dir` and `passthrough`. `BadValue` means that a value isn't one of its option's words.
#[derive(Clone, Copy, Debug, PartialEq, Eq, Drop)]
pub struct TransposeOptions {
    /// By default `CclockFlip`.
    pub dir: Turn,
    /// By default `Never`.
    pub passthrough: Passthrough,
}

/// What the filter does with frames of its input's shape.
#[derive(Clone, Copy, Debug, PartialEq, Eq, Drop)]
pub struct TransposeSettings {
    /// How they are turned.
    pub dir: Turn,
    /// Whether they pass as they are.
    pub passes: bool,
}

impl Turn {
    /// The way of turning that a word means.
    fn named(word: &str) -> Option<Turn>
        ensures { result ≡ word_in turns word.now }
    {
        match word {
            "0" | "cclock_flip" => Some(Turn::CclockFlip),
            "1" | "clock" => Some(Turn::Clock),
            "2" | "cclock" => Some(Turn::Cclock),
            "3" | "clock_flip" => Some(Turn::ClockFlip),
            _ => None,
        }
    }

    /// The row of the input that a column of the output comes from.
    fn source_row(self, rows: u32, column: u32) -> u32
        requires { column < rows }
        ensures row { result ≡ source_row self rows column }
        ensures less { result < rows }
    {
        match self {
            Turn::CclockFlip | Turn::Cclock => column,
            Turn::Clock | Turn::ClockFlip => rows - 1 - column,
        }
    }

    /// The column of the input that a row of the output comes from.
    fn source_column(self, columns: u32, row: u32) -> u32
        requires { row < columns }
        ensures column { result ≡ source_column self columns row }
        ensures less { result < columns }
    {
        match self {
            Turn::CclockFlip | Turn::Clock => row,
            Turn::Cclock | Turn::ClockFlip => columns - 1 - row,
        }
    }
}

impl Passthrough {
    /// Which pictures pass, as a word says.
    fn named(word: &str) -> Option<Passthrough>
        ensures { result ≡ word_in passthroughs word.now }
    {
        match word {
            "none" => Some(Passthrough::Never),
            "portrait" => Some(Passthrough::Portrait),
            "landscape" => Some(Passthrough::Landscape),
            _ => None,
        }
    }

    /// Whether pictures of a shape pass.
    fn passes(self, shape: Shape) -> bool
        requires { IsPictureShape shape }
        ensures { result ≡ passes self shape }
    {
        let (width, height) = picture_size(shape);
        match self {
            Passthrough::Never => false,
            Passthrough::Portrait => width <= height,
            Passthrough::Landscape => height <= width,
        }
    }
}

impl Options for TransposeOptions {
    ghost use Rattle.filt_video.specs.Transpose.{transpose_rules};
    ghost use Rattle.filt_video.specs.TransposeLaws.{transpose_numbers};

    ghost rules = { transpose_rules };

    fn count() -> u32 {
        2
    }

    fn numbered(name: &str) -> Option<u32> {
        match name {
            "dir" => Some(0),
            "passthrough" => Some(1),
            _ => None,
        }
    }

    fn defaults(_alloc: Global) -> Result<TransposeOptions, NoMemory> {
        Ok(TransposeOptions {
            dir: Turn::CclockFlip,
            passthrough: Passthrough::Never,
        })
    }

    fn set(&mut self, _alloc: Global, option: u32, value: &str) -> Result<bool, NoMemory> {
        if option == 0 {
            let Some(dir) = Turn::named(value) else {
                return Ok(false);
            };
            self.dir = dir;
        } else {
            let Some(passthrough) = Passthrough::named(value) else {
                return Ok(false);
            };
            self.passthrough = passthrough;
        }
        Ok(true)
    }

    fn complete(self, _arguments: u32) -> Result<TransposeOptions, OptionError> {
        Ok(self)
    }

    ghost numbers = { transpose_numbers };
}

/// The aspect of turned pictures.
fn turned_aspect(aspect: Ratio) -> Ratio
    ensures { result ≡ turned_aspect aspect }
{
    if aspect.num == 0 {
        return aspect;
    }
    Ratio {
        num: aspect.den,
        den: aspect.num,
    }
}

/// The shape of turned pictures.
fn turned_shape(shape: Shape) -> Shape
    requires { IsPictureShape shape }
    ensures { result ≡ turned_shape shape }
{
    let (_format, props) = picture_parts(shape);
    let props = VideoProps {
        width: props.height,
        height: props.width,
        aspect: turned_aspect(props.aspect),
        ..props
    };
    Shape {
        props: Props::Video(props),
        ..shape
    }
}

impl TransposeSettings {
    /// The output's shape.
    fn out_shape(self, shape: Shape) -> Shape
        requires { IsPictureShape shape }
        ensures shape { result ≡ transposed_shape self shape }
        ensures picture { IsPictureShape result }
    {
        if self.passes {
            shape
        } else {
            turned_shape(shape)
        }
    }
}

/// The sample in row r and column c is that of a column and a row which r and c name.
impl Kernel for Turn {
    ghost use Rattle.av_frame.specs.Sources.{source_at};
    ghost use Rattle.av_filter.specs.Places.{HasPlace};
    ghost use Rattle.filt_video.specs.Transpose.{turned};

    ghost fits = { λ turn sources p r c. HasPlace sources p c r };

    ghost value = { λ turn sources. turned turn (source_at sources 0) };

    fn at(&self, sources: &mut [Frame], plane: u32, row: u32, column: u32) -> i32 {
        let (columns, rows) = size_of(sources, plane);
        let from_row = self.source_row(rows, column);
        let from_column = self.source_column(columns, row);
        read_sample(sources, plane, from_row, from_column)
    }

    fn row(&self, sources: &mut [Frame], plane: u32, row: u32, out: &mut [u8]) {
        if out.is_empty() {
            return;
        }
        let (columns, rows) = size_of(sources, plane);
        let from_column = self.source_column(columns, row);
        match self {
            Turn::CclockFlip | Turn::Cclock => read_column(sources, plane, 0, from_column, out),
            Turn::Clock | Turn::ClockFlip => {
                read_column(sources, plane, rows - out.len() as u32, from_column, out);
                out.reverse();
            }
        }
    }

    fn column(&self, sources: &mut [Frame], plane: u32, row: u32, column: u32, out: &mut [u8]) {
        if out.is_empty() {
            return;
        }
        let (columns, rows) = size_of(sources, plane);
        let from_row = self.source_row(rows, column);
        match self {
            Turn::CclockFlip | Turn::Clock => read_part(sources, plane, from_row, row, out),
            Turn::Cclock | Turn::ClockFlip => {
                let from_column = columns - row - out.len() as u32;
                read_part(sources, plane, from_row, from_column, out);
                out.reverse();
            }
        }
    }

    fn has_columns(&self) -> bool {
        true
    }
}

impl FrameRule for TransposeSettings {
    ghost use Rattle.filt_video.specs.Transpose.{transpose_making};
    ghost use Rattle.filt_video.specs.TransposeLaws.{transpose_making_laws};

    type Options = TransposeOptions;

    ghost making = { transpose_making };

    fn takes(_options: &TransposeOptions, format: Format) -> bool {
        match format {
            Format::Video(PixelFormat::Yuv422p | PixelFormat::Yuva422p) => false,
            _ => true,
        }
    }

    fn settle(options: &TransposeOptions, shape: Shape) -> Result<TransposeSettings, ConfigError> {
        let settings = TransposeSettings {
            dir: options.dir,
            passes: options.passthrough.passes(shape),
        };
        check_shape(settings.out_shape(shape))?;
        Ok(settings)
    }

    fn shape(&self, shape: Shape) -> Shape {
        self.out_shape(shape)
    }

    fn make(&self, alloc: Global, pools: &mut Pools, frame: Frame) -> Result<Frame, Returned> {
        if self.passes {
            return Ok(frame);
        }
        let out_shape = turned_shape(frame.shape());
        paint_frame(alloc, pools, frame, out_shape, &self.dir)
    }

    ghost laws = { transpose_making_laws };
}

impl NamedRule for TransposeSettings {
    ghost use Rattle.std.specs.Prelude.{codes};
    ghost use Rattle.filt_video.specs.Transpose.{transpose_rules};
    ghost use Rattle.filt_video.specs.TransposeLaws.{transpose_reading_laws};

    ghost name = { codes "transpose" };

    ghost options = { transpose_rules };

    fn is_named(word: &str) -> bool {
        word == "transpose"
    }

    fn read(alloc: Global, args: &List<Arg>) -> Result<TransposeOptions, OptionError> {
        read_options(alloc, args)
    }

    ghost one = { transpose_reading_laws };
}
