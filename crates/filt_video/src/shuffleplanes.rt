//! The filter `shuffleplanes`: planes change places.
ghost use Rattle.std.specs.Prelude.{◌<◌, IfOk, IfErr};
ghost use Rattle.av_base.specs.Shapes.{planes_of, IsPictureShape};
ghost use Rattle.filt_video.specs.Shuffleplanes.{HasOrderFault, IsOrderRefused, IsFilled, IsOrder};

use av_base::{Format, List, NoMemory, Shape};
use av_filter::{
    FrameRule, Framewise, NamedRule, Options, check_shape, paint_frame, read_options, read_part,
    read_sample, read_whole_within,
};
use av_frame::{ConfigError, Frame, Kernel, OptionError, Pools, Returned};
use av_text::Arg;
use std::alloc::Global;

/// The filter `shuffleplanes`.
///
/// A shape is rejected for its first plane that can't be filled: `BadGeometry` with the number of the plane that it takes and the
/// number of planes, if that is no plane; `SizeMismatch` with its number and the other, if the two planes differ in size.
/// Then `TooLarge`.
pub type Shuffleplanes = Framewise<PlaneOrder>;

/// The options `map0` to `map3`, which are the settings too: for each plane of the output the number of the input's
/// plane with the number that is there. By default each plane stays in its place.
#[derive(Clone, Copy, Debug, PartialEq, Eq, Drop)]
pub struct PlaneOrder {
    /// Numbers from 0 to 3. Those past the format's planes count for nothing.
    pub maps: [u32; 4],
}

impl Options for PlaneOrder {
    ghost use Rattle.filt_video.specs.Shuffleplanes.{order_rules};
    ghost use Rattle.filt_video.specs.OrderLaws.{order_numbers};

    ghost rules = { order_rules };

    fn count() -> u32 {
        4
    }

    fn numbered(name: &str) -> Option<u32> {
        match name {
            "map0" => Some(0),
            "map1" => Some(1),
            "map2" => Some(2),
            "map3" => Some(3),
            _ => None,
        }
    }

    fn defaults(_alloc: Global) -> Result<PlaneOrder, NoMemory> {
        Ok(PlaneOrder { maps: [0, 1, 2, 3] })
    }

    fn set(&mut self, _alloc: Global, option: u32, value: &str) -> Result<bool, NoMemory> {
        let Some(number) = read_whole_within(value, 0, 3) else {
            return Ok(false);
        };
        self.maps[option as usize] = number as u32;
        Ok(true)
    }

    fn complete(self, _arguments: u32) -> Result<PlaneOrder, OptionError> {
        Ok(self)
    }

    ghost numbers = { order_numbers };
}

/// Checks what one plane takes.
fn check_plane(shape: Shape, order: PlaneOrder, plane: u32) -> Result<(), ConfigError>
    requires picture { IsPictureShape shape }
    requires plane { plane < planes_of shape }
    ensures sound { IfOk result (λ _. IsFilled shape order.maps plane) }
    ensures refused { IfErr result (HasOrderFault shape order.maps plane) }
{
    let from = order.maps[plane as usize];
    let planes = shape.planes();
    if from >= planes {
        return Err(ConfigError::BadGeometry {
            found: i64::from(from),
            allowed: i64::from(planes),
        });
    }
    if shape.plane_size(plane) != shape.plane_size(from) {
        return Err(ConfigError::SizeMismatch {
            a: u64::from(plane),
            b: u64::from(from),
        });
    }
    Ok(())
}

/// Checks what each plane takes.
fn check_planes(shape: Shape, order: PlaneOrder) -> Result<(), ConfigError>
    requires { IsPictureShape shape }
    ensures sound { IfOk result (λ _. IsOrder shape order.maps) }
    ensures refused { IfErr result (IsOrderRefused shape order.maps) }
{
    for plane in 0..shape.planes() {
        check_plane(shape, order, plane)?;
    }
    Ok(())
}

/// Each sample is that in its place in the plane which its own takes.
impl Kernel for PlaneOrder {
    ghost use Rattle.std.specs.Prelude.{slice_index};
    ghost use Rattle.av_frame.specs.Sources.{source_at};
    ghost use Rattle.av_filter.specs.Places.{HasPlace};
    ghost use Rattle.filt_video.specs.Shuffleplanes.{shuffled};

    ghost fits = { λ k sources p r c. (p < 4) × HasPlace sources (slice_index k.maps p) r c };

    ghost value = { λ k sources. shuffled k.maps (source_at sources 0) };

    fn at(&self, sources: &mut [Frame], plane: u32, row: u32, column: u32) -> i32 {
        read_sample(sources, self.maps[plane as usize], row, column)
    }

    fn row(&self, sources: &mut [Frame], plane: u32, row: u32, out: &mut [u8]) {
        if out.is_empty() {
            return;
        }
        read_part(sources, self.maps[plane as usize], row, 0, out);
    }
}

impl FrameRule for PlaneOrder {
    ghost use Rattle.filt_video.specs.Shuffleplanes.{order_making};
    ghost use Rattle.filt_video.specs.OrderLaws.{order_making_laws};

    type Options = PlaneOrder;

    ghost making = { order_making };

    fn takes(_options: &PlaneOrder, _format: Format) -> bool {
        true
    }

    fn settle(options: &PlaneOrder, shape: Shape) -> Result<PlaneOrder, ConfigError> {
        check_planes(shape, *options)?;
        check_shape(shape)?;
        Ok(*options)
    }

    fn shape(&self, shape: Shape) -> Shape {
        shape
    }

    fn make(&self, alloc: Global, pools: &mut Pools, frame: Frame) -> Result<Frame, Returned> {
        let shape = frame.shape();
        paint_frame(alloc, pools, frame, shape, self)
    }

    ghost laws = { order_making_laws };
}

impl NamedRule for PlaneOrder {
    ghost use Rattle.std.specs.Prelude.{codes};
    ghost use Rattle.filt_video.specs.Shuffleplanes.{order_rules};
    ghost use Rattle.filt_video.specs.OrderLaws.{order_reading_laws};

    ghost name = { codes "shuffleplanes" };

    ghost options = { order_rules };

    fn is_named(word: &str) -> bool {
        word == "shuffleplanes"
    }

    fn read(alloc: Global, args: &List<Arg>) -> Result<PlaneOrder, OptionError> {
        read_options(alloc, args)
    }

    ghost one = { order_reading_laws };
}
