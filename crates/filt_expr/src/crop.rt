//! The filter `crop`: a part of each picture is kept.
ghost use Rattle.std.specs.Prelude.{◌≡◌, ◌<◌, ◌≤◌, ◌^◌, ◌⊎◌, ℕ, ℤ, pos, None, Ok, Err, length, IfOk, IfErr, codes};
ghost use Rattle.av_base.specs.Shapes.{planes_of, columns_of, rows_of, IsPictureShape};
ghost use Rattle.av_frame.specs.declared.refusals.OptionError.TheVariants as option;
ghost use Rattle.filt_expr.specs.Geometry.{on_grid, within};
ghost use Rattle.filt_expr.specs.Crop.{grid_across, grid_down, crop_checks, crop_rules, crop_making};
ghost use Rattle.filt_expr.specs.CropLaws.{crop_numbers, crop_making_laws, crop_reading_laws};

use crate::geometry::{fitting, floor_to, resize, rounded, size_values};
use crate::worth::{Role, default_expr, set_expr};
use av_base::{Format, List, NoMemory, Shape};
use av_expr::Expr;
use av_filter::{
    FrameRule, Framewise, NamedRule, Options, check_limits, picture_size, read_flag, read_options,
};
use av_frame::{ConfigError, Frame, OptionError, Pools, Returned, chroma_step};
use av_text::Arg;
use std::alloc::Global;

/// The filter `crop`.
pub type Crop = Framewise<CropSettings>;

/// The options of `crop`.
#[derive(Drop)]
pub struct CropOptions {
    /// The width of the part.
    pub out_w: Expr,
    /// Its height.
    pub out_h: Expr,
    /// Its first column.
    pub x: Expr,
    /// Its first row.
    pub y: Expr,
    /// Whether size and place aren't rounded to the chroma grid.
    pub exact: bool,
}

/// The part that `crop` keeps, in samples of plane Y.
#[derive(Clone, Copy, Debug, PartialEq, Eq, Drop)]
pub struct CropSettings {
    /// Its width.
    pub width: u32,
    /// Its height.
    pub height: u32,
    /// Its first column.
    pub x: u32,
    /// Its first row.
    pub y: u32,
}

/// A place, brought into 0 to `room` and then down to a grid.
fn settled(place: i128, room: u32, step: u32) -> u32
    requires { (step ≡ 1) ⊎ (step ≡ 2) }
    ensures { pos result ≡ on_grid step (within (pos 0) (pos room) place) }
{
    floor_to(place.clamp(0, i128::from(room)), step) as u32
}

impl Options for CropOptions {
    ghost rules = { crop_rules };

    fn count() -> u32 {
        6
    }

    fn numbered(name: &str) -> Option<u32> {
        match name {
            "out_w" | "w" => Some(0),
            "out_h" | "h" => Some(1),
            "x" => Some(2),
            "y" => Some(3),
            "keep_aspect" => Some(4),
            "exact" => Some(5),
            _ => None,
        }
    }

    #[tactic(auto, using(crate::specs::Defaults::defaults))]
    fn defaults(alloc: Global) -> Result<CropOptions, NoMemory> {
        Ok(CropOptions {
            out_w: default_expr(alloc, "iw", Role::Width)?,
            out_h: default_expr(alloc, "ih", Role::Height)?,
            x: default_expr(alloc, "(iw-ow)/2", Role::Place)?,
            y: default_expr(alloc, "(ih-oh)/2", Role::Place)?,
            exact: false,
        })
    }

    fn set(&mut self, alloc: Global, option: u32, value: &str) -> Result<bool, NoMemory> {
        Ok(match option {
            0 => set_expr(alloc, &mut self.out_w, value, Role::Width)?,
            1 => set_expr(alloc, &mut self.out_h, value, Role::Height)?,
            2 => set_expr(alloc, &mut self.x, value, Role::Place)?,
            3 => set_expr(alloc, &mut self.y, value, Role::Place)?,
            4 => value == "0",
            _ => {
                let exact = read_flag(value);
                self.exact = exact.unwrap_or(self.exact);
                exact.is_some()
            }
        })
    }

    fn complete(self, _arguments: u32) -> Result<CropOptions, OptionError> {
        Ok(self)
    }

    ghost numbers = { crop_numbers };
}

impl CropOptions {
    /// The steps of the grid.
    fn grid(&self, shape: Shape) -> (u32, u32)
        requires { IsPictureShape shape }
        ensures across { result.0 ≡ grid_across self.now shape }
        ensures down { result.1 ≡ grid_down self.now shape }
        ensures steps { ((result.0 ≡ 1) ⊎ (result.0 ≡ 2)) × ((result.1 ≡ 1) ⊎ (result.1 ≡ 2)) }
    {
        if self.exact {
            (1, 1)
        } else {
            chroma_step(shape)
        }
    }

    /// The settings for a part of this size and at this place, if it fits.
    fn check(
        &self,
        shape: Shape,
        size: (i128, i128),
        place: (i128, i128),
    ) -> Result<CropSettings, ConfigError>
        requires { IsPictureShape shape }
        ensures { crop_checks self.now shape size.0 size.1 place.0 place.1 result }
    {
        let (in_width, in_height) = picture_size(shape);
        let width = fitting(size.0, in_width)?;
        let height = fitting(size.1, in_height)?;
        check_limits(shape, width.into(), height.into())?;
        let (across, down) = self.grid(shape);
        Ok(CropSettings {
            width,
            height,
            x: settled(place.0, in_width - width, across),
            y: settled(place.1, in_height - height, down),
        })
    }
}

impl FrameRule for CropSettings {
    type Options = CropOptions;

    ghost making = { crop_making };

    fn takes(_options: &CropOptions, _format: Format) -> bool {
        true
    }

    fn settle(options: &CropOptions, shape: Shape) -> Result<CropSettings, ConfigError> {
        let (across, down) = options.grid(shape);
        let width = rounded(&options.out_w, &size_values(shape, 0, 0), 0, across)?;
        let height = rounded(&options.out_h, &size_values(shape, width, 0), 1, down)?;
        let values = size_values(shape, width, height);
        let x = rounded(&options.x, &values, 2, 1)?;
        let y = rounded(&options.y, &values, 3, 1)?;
        options.check(shape, (width, height), (x, y))
    }

    fn shape(&self, shape: Shape) -> Shape {
        resize(shape, self.width, self.height)
    }

    fn make(&self, _alloc: Global, _pools: &mut Pools, frame: Frame) -> Result<Frame, Returned> {
        let shape = self.shape(frame.shape());
        Ok(frame.window(self.x, self.y, shape))
    }

    ghost laws = { crop_making_laws };
}

impl NamedRule for CropSettings {
    ghost name = { codes "crop" };

    ghost options = { crop_rules };

    fn is_named(word: &str) -> bool {
        word == "crop"
    }

    fn read(alloc: Global, args: &List<Arg>) -> Result<CropOptions, OptionError> {
        read_options(alloc, args)
    }

    ghost one = { crop_reading_laws };
}
