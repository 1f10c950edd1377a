//! Tables of samples: what expressions make of the samples of each plane.
use crate::calls::{Row, check_rows, made};
use crate::pictures::picture_of_levels;
use av_base::NoMemory;
use av_base::PixelFormat::{Gray, Yuv420p, Yuv422p, Yuv444p, Yuva420p, Yuva422p};
use std::alloc::Global;

/// Expressions for some planes at once.
const PLANES: [Row; 6] = [
    (
        "lutyuv=255-val:val+1:val+2:val+3",
        (Yuva420p, 3, 1),
        "255 254 253 | 61 62 | 122 123 | 183 184 185",
    ),
    ("lutyuv=y=negval", (Gray, 3, 2), "235 235 235, 235 235 235"),
    (
        "lutyuv=y=maxval:u=negval:v=minval",
        (Yuv420p, 3, 3),
        "235 235 235, 235 235 235, 235 235 235 | 196 195, 186 185 | 16 16, 16 16",
    ),
    ("lutyuv=y=1:v=2:u=3", (Yuv422p, 3, 1), "1 1 1 | 3 3 | 2 2"),
    ("lutyuv=a=negval", (Yuva422p, 1, 1), "0 | 60 | 120 | 75"),
    (
        "lutyuv=a=1/0:y=val*2",
        (Yuv444p, 2, 1),
        "0 2 | 60 61 | 120 121",
    ),
];

#[test]
fn the_planes_of_a_format_are_looked_up(rt: HostRuntime) -> Result<(), NoMemory> {
    check_rows(&rt, rt.alloc(), &PLANES)
}

/// The levels, as a picture has them.
const KEPT: &str = "0 15 16 17 128 234 235 236 240 241 255";

/// An option, the number of its plane, its expression, and what is made of the levels there.
const EXPRESSIONS: [(&str, u32, &str, &str); 34] = [
    ("y", 0, "val", "0 15 16 17 128 234 235 236 240 241 255"),
    ("y", 0, "minval", "16 16 16 16 16 16 16 16 16 16 16"),
    (
        "y",
        0,
        "maxval",
        "235 235 235 235 235 235 235 235 235 235 235",
    ),
    ("y", 0, "negval", "235 235 235 234 123 17 16 16 16 16 16"),
    ("y", 0, "-val", "0 0 0 0 0 0 0 0 0 0 0"),
    ("y", 0, "val+20", "20 35 36 37 148 254 255 255 255 255 255"),
    ("y", 0, "val-100", "0 0 0 0 28 134 135 136 140 141 155"),
    ("y", 0, "val/2", "0 7 8 8 64 117 117 118 120 120 127"),
    (
        "y",
        0,
        "val*100-1/2",
        "0 255 255 255 255 255 255 255 255 255 255",
    ),
    ("u", 1, "val", "0 15 16 17 128 234 235 236 240 241 255"),
    ("u", 1, "val-100", "0 0 0 0 28 134 135 136 140 141 155"),
    ("u", 1, "minval", "16 16 16 16 16 16 16 16 16 16 16"),
    (
        "u",
        1,
        "maxval",
        "240 240 240 240 240 240 240 240 240 240 240",
    ),
    ("u", 1, "negval", "240 240 240 239 128 22 21 20 16 16 16"),
    ("u", 1, "255-val", "255 240 239 238 127 21 20 19 15 14 0"),
    ("u", 1, "-1/2", "0 0 0 0 0 0 0 0 0 0 0"),
    (
        "u",
        1,
        "val+240",
        "240 255 255 255 255 255 255 255 255 255 255",
    ),
    ("u", 1, "negval/2", "120 120 120 119 64 11 10 10 8 8 8"),
    ("v", 2, "val", "0 15 16 17 128 234 235 236 240 241 255"),
    ("v", 2, "minval", "16 16 16 16 16 16 16 16 16 16 16"),
    (
        "v",
        2,
        "maxval",
        "240 240 240 240 240 240 240 240 240 240 240",
    ),
    ("v", 2, "negval", "240 240 240 239 128 22 21 20 16 16 16"),
    ("v", 2, "255-val", "255 240 239 238 127 21 20 19 15 14 0"),
    ("v", 2, "(val-17)*99", "0 0 0 0 255 255 255 255 255 255 255"),
    (
        "v",
        2,
        "255+1/2",
        "255 255 255 255 255 255 255 255 255 255 255",
    ),
    (
        "v",
        2,
        "maxval-negval",
        "0 0 0 1 112 218 219 220 224 224 224",
    ),
    ("a", 3, "val", "0 15 16 17 128 234 235 236 240 241 255"),
    ("a", 3, "minval", "0 0 0 0 0 0 0 0 0 0 0"),
    (
        "a",
        3,
        "maxval",
        "255 255 255 255 255 255 255 255 255 255 255",
    ),
    ("a", 3, "negval", "255 240 239 238 127 21 20 19 15 14 0"),
    ("a", 3, "-1", "0 0 0 0 0 0 0 0 0 0 0"),
    ("a", 3, "256", "255 255 255 255 255 255 255 255 255 255 255"),
    ("a", 3, "val-16", "0 0 0 1 112 218 219 220 224 225 239"),
    ("a", 3, "val*2", "0 30 32 34 255 255 255 255 255 255 255"),
];

/// The samples of a picture of levels of which one plane was changed.
fn with_plane(alloc: Global, changed: u32, row: &str) -> Result<String, NoMemory> {
    let mut text = String::new(alloc);
    for plane in 0..4 {
        if plane > 0 {
            text.push_str(" | ")?;
        }
        text.push_str(if plane == changed { row } else { KEPT })?;
    }
    Ok(text)
}

#[test]
fn expressions_change_the_samples_of_one_plane(rt: HostRuntime) -> Result<(), NoMemory> {
    let alloc = rt.alloc();
    for (name, plane, expression, row) in EXPRESSIONS {
        let text = format!(in alloc; "lutyuv={name}={expression}")?;
        let found = made(&rt, alloc, text.as_str(), picture_of_levels(alloc)?)?;
        let wanted = with_plane(alloc, plane, row)?;
        assert_eq!(rt; found.as_str(), wanted.as_str(), "by {name}={expression}");
    }
    Ok(())
}
