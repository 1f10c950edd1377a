//! Pictures through the filters, and what is made of them.
use crate::calls::{Row, check_rows};
use av_base::NoMemory;
use av_base::PixelFormat::{Gray, Yuv420p, Yuv422p, Yuv444p, Yuva420p, Yuva422p, Yuva444p};

/// A picture through each filter.
const EACH: [Row; 10] = [
    ("crop=1:1:1:0", (Yuv444p, 2, 2), "1 | 61 | 121"),
    (
        "format=gray|yuv444p",
        (Yuv444p, 2, 2),
        "0 1, 10 11 | 60 61, 70 71 | 120 121, 130 131",
    ),
    (
        "hflip",
        (Yuv444p, 2, 2),
        "1 0, 11 10 | 61 60, 71 70 | 121 120, 131 130",
    ),
    (
        "lutyuv=u=val+2",
        (Yuv444p, 2, 2),
        "0 1, 10 11 | 62 63, 72 73 | 120 121, 130 131",
    ),
    (
        "negate",
        (Yuv444p, 2, 2),
        "255 254, 245 244 | 195 194, 185 184 | 135 134, 125 124",
    ),
    (
        "null",
        (Yuv444p, 2, 2),
        "0 1, 10 11 | 60 61, 70 71 | 120 121, 130 131",
    ),
    (
        "pad=2:3:0:1",
        (Yuv444p, 2, 2),
        "16 16, 0 1, 10 11 | 128 128, 60 61, 70 71 | 128 128, 120 121, 130 131",
    ),
    (
        "shuffleplanes=2:1:0",
        (Yuv444p, 2, 2),
        "120 121, 130 131 | 60 61, 70 71 | 0 1, 10 11",
    ),
    (
        "transpose",
        (Yuv444p, 2, 2),
        "0 10, 1 11 | 60 70, 61 71 | 120 130, 121 131",
    ),
    (
        "vflip",
        (Yuv444p, 2, 2),
        "10 11, 0 1 | 70 71, 60 61 | 130 131, 120 121",
    ),
];

#[test]
fn each_filter_makes_its_own_picture(rt: HostRuntime) -> Result<(), NoMemory> {
    check_rows(&rt, rt.alloc(), &EACH)
}

/// Pictures of odd sizes, mirrored and upside down.
const FLIPS: [Row; 14] = [
    ("hflip", (Gray, 3, 3), "2 1 0, 12 11 10, 22 21 20"),
    (
        "hflip",
        (Yuv420p, 3, 3),
        "2 1 0, 12 11 10, 22 21 20 | 61 60, 71 70 | 121 120, 131 130",
    ),
    (
        "hflip",
        (Yuv422p, 3, 3),
        "2 1 0, 12 11 10, 22 21 20 | 61 60, 71 70, 81 80 | 121 120, 131 130, 141 140",
    ),
    (
        "hflip",
        (Yuv444p, 3, 2),
        "2 1 0, 12 11 10 | 62 61 60, 72 71 70 | 122 121 120, 132 131 130",
    ),
    (
        "hflip",
        (Yuva420p, 3, 3),
        "2 1 0, 12 11 10, 22 21 20 | 61 60, 71 70 | 121 120, 131 130 | 182 181 180, 192 191 190, 202 201 200",
    ),
    (
        "hflip",
        (Yuva422p, 3, 2),
        "2 1 0, 12 11 10 | 61 60, 71 70 | 121 120, 131 130 | 182 181 180, 192 191 190",
    ),
    (
        "hflip",
        (Yuva444p, 3, 2),
        "2 1 0, 12 11 10 | 62 61 60, 72 71 70 | 122 121 120, 132 131 130 | 182 181 180, 192 191 190",
    ),
    ("vflip", (Gray, 3, 3), "20 21 22, 10 11 12, 0 1 2"),
    (
        "vflip",
        (Yuv420p, 3, 3),
        "20 21 22, 10 11 12, 0 1 2 | 70 71, 60 61 | 130 131, 120 121",
    ),
    (
        "vflip",
        (Yuv422p, 3, 3),
        "20 21 22, 10 11 12, 0 1 2 | 80 81, 70 71, 60 61 | 140 141, 130 131, 120 121",
    ),
    (
        "vflip",
        (Yuv444p, 3, 2),
        "10 11 12, 0 1 2 | 70 71 72, 60 61 62 | 130 131 132, 120 121 122",
    ),
    (
        "vflip",
        (Yuva420p, 3, 3),
        "20 21 22, 10 11 12, 0 1 2 | 70 71, 60 61 | 130 131, 120 121 | 200 201 202, 190 191 192, 180 181 182",
    ),
    (
        "vflip",
        (Yuva422p, 3, 2),
        "10 11 12, 0 1 2 | 70 71, 60 61 | 130 131, 120 121 | 190 191 192, 180 181 182",
    ),
    (
        "vflip",
        (Yuva444p, 3, 2),
        "10 11 12, 0 1 2 | 70 71 72, 60 61 62 | 130 131 132, 120 121 122 | 190 191 192, 180 181 182",
    ),
];

#[test]
fn pictures_of_each_format_are_flipped(rt: HostRuntime) -> Result<(), NoMemory> {
    check_rows(&rt, rt.alloc(), &FLIPS)
}

/// Pictures that pass, and pictures whose samples are negated.
const PASSED: [Row; 9] = [
    (
        "null",
        (Yuv420p, 5, 3),
        "0 1 2 3 4, 10 11 12 13 14, 20 21 22 23 24 | 60 61 62, 70 71 72 | 120 121 122, 130 131 132",
    ),
    (
        "null",
        (Yuva422p, 3, 1),
        "0 1 2 | 60 61 | 120 121 | 180 181 182",
    ),
    (
        "format=yuva420p",
        (Yuva420p, 3, 1),
        "0 1 2 | 60 61 | 120 121 | 180 181 182",
    ),
    ("format=yuv422p|gray", (Gray, 3, 2), "0 1 2, 10 11 12"),
    (
        "format=yuv422p|gray",
        (Yuv422p, 3, 2),
        "0 1 2, 10 11 12 | 60 61, 70 71 | 120 121, 130 131",
    ),
    ("negate", (Gray, 3, 1), "255 254 253"),
    (
        "negate",
        (Yuv422p, 3, 2),
        "255 254 253, 245 244 243 | 195 194, 185 184 | 135 134, 125 124",
    ),
    (
        "negate",
        (Yuva420p, 3, 1),
        "255 254 253 | 195 194 | 135 134 | 180 181 182",
    ),
    ("negate", (Yuva444p, 1, 1), "255 | 195 | 135 | 180"),
];

#[test]
fn pictures_pass_or_are_negated(rt: HostRuntime) -> Result<(), NoMemory> {
    check_rows(&rt, rt.alloc(), &PASSED)
}

/// Parts of pictures.
const CROPS: [Row; 18] = [
    ("crop=3:3:1:1", (Yuv420p, 6, 6), "0 1, 10 11 | 60 | 120"),
    (
        "crop=3:3:1:1:exact=1",
        (Yuv420p, 6, 6),
        "11 12 13, 21 22 23, 31 32 33 | 60 61, 70 71 | 120 121, 130 131",
    ),
    (
        "crop=w=iw/2:h=ow/2+3/2",
        (Yuv420p, 6, 6),
        "22 23, 32 33 | 71 | 131",
    ),
    ("crop", (Yuv420p, 3, 3), "0 1, 10 11 | 60 | 120"),
    (
        "crop=exact=true",
        (Yuv420p, 3, 3),
        "0 1 2, 10 11 12, 20 21 22 | 60 61, 70 71 | 120 121, 130 131",
    ),
    ("crop=2:2:99:-7", (Yuv420p, 5, 3), "2 3, 12 13 | 61 | 121"),
    ("crop=1:1:4:2:0:1", (Yuv420p, 5, 3), "24 | 72 | 132"),
    (
        "crop=3:2:1:1",
        (Yuv422p, 5, 3),
        "10 11, 20 21 | 70, 80 | 130, 140",
    ),
    (
        "crop=3:2:1:1:exact=1",
        (Yuv422p, 5, 3),
        "11 12 13, 21 22 23 | 70 71, 80 81 | 130 131, 140 141",
    ),
    (
        "crop=w=hsub:h=vsub:x=0:y=2",
        (Yuv422p, 3, 3),
        "20 21 | 80 | 140",
    ),
    (
        "crop=2:2:3:3",
        (Yuva420p, 5, 5),
        "22 23, 32 33 | 71 | 131 | 202 203, 212 213",
    ),
    (
        "crop=2:1:2:1",
        (Yuva422p, 5, 3),
        "12 13 | 71 | 131 | 192 193",
    ),
    (
        "crop=1:2:2:1",
        (Yuva444p, 3, 3),
        "12, 22 | 72, 82 | 132, 142 | 192, 202",
    ),
    ("crop=1:1:1:2", (Yuv444p, 3, 3), "21 | 81 | 141"),
    ("crop=1:2", (Gray, 3, 3), "1, 11"),
    (
        "crop=5/2:7/2:3/2:0",
        (Gray, 5, 5),
        "2 3, 12 13, 22 23, 32 33",
    ),
    (
        "crop=out_w=in_w-1:out_h=in_h-2:x=in_w-out_w:y=in_h-out_h",
        (Gray, 3, 3),
        "21 22",
    ),
    ("crop=1:1:x=iw-ow:y=oh", (Gray, 3, 3), "12"),
];

#[test]
fn parts_of_pictures_are_kept(rt: HostRuntime) -> Result<(), NoMemory> {
    check_rows(&rt, rt.alloc(), &CROPS)
}

/// Rows and columns exchanged in each direction.
const TURNS: [Row; 17] = [
    ("transpose=0", (Gray, 3, 2), "0 10, 1 11, 2 12"),
    ("transpose=1", (Gray, 3, 2), "10 0, 11 1, 12 2"),
    ("transpose=2", (Gray, 3, 2), "2 12, 1 11, 0 10"),
    ("transpose=3", (Gray, 3, 2), "12 2, 11 1, 10 0"),
    (
        "transpose",
        (Yuv420p, 3, 2),
        "0 10, 1 11, 2 12 | 60, 61 | 120, 121",
    ),
    (
        "transpose=cclock_flip",
        (Yuv420p, 3, 2),
        "0 10, 1 11, 2 12 | 60, 61 | 120, 121",
    ),
    (
        "transpose=clock",
        (Yuv420p, 3, 2),
        "10 0, 11 1, 12 2 | 60, 61 | 120, 121",
    ),
    (
        "transpose=cclock",
        (Yuv420p, 3, 2),
        "2 12, 1 11, 0 10 | 61, 60 | 121, 120",
    ),
    (
        "transpose=dir=clock_flip",
        (Yuv420p, 3, 2),
        "12 2, 11 1, 10 0 | 61, 60 | 121, 120",
    ),
    (
        "transpose=1",
        (Yuv420p, 5, 3),
        "20 10 0, 21 11 1, 22 12 2, 23 13 3, 24 14 4 | 70 60, 71 61, 72 62 | 130 120, 131 121, 132 122",
    ),
    (
        "transpose=2",
        (Yuv444p, 3, 1),
        "2, 1, 0 | 62, 61, 60 | 122, 121, 120",
    ),
    (
        "transpose=3",
        (Yuva444p, 2, 3),
        "21 11 1, 20 10 0 | 81 71 61, 80 70 60 | 141 131 121, 140 130 120 | 201 191 181, 200 190 180",
    ),
    (
        "transpose=1",
        (Yuva420p, 3, 3),
        "20 10 0, 21 11 1, 22 12 2 | 70 60, 71 61 | 130 120, 131 121 | 200 190 180, 201 191 181, 202 192 182",
    ),
    (
        "transpose=1:landscape",
        (Yuv420p, 3, 2),
        "0 1 2, 10 11 12 | 60 61 | 120 121",
    ),
    ("transpose=3:landscape", (Gray, 1, 2), "10 0"),
    (
        "transpose=2:portrait",
        (Yuv444p, 2, 2),
        "0 1, 10 11 | 60 61, 70 71 | 120 121, 130 131",
    ),
    ("transpose=1:portrait", (Gray, 3, 2), "10 0, 11 1, 12 2"),
];

#[test]
fn rows_and_columns_are_exchanged(rt: HostRuntime) -> Result<(), NoMemory> {
    check_rows(&rt, rt.alloc(), &TURNS)
}

/// Planes in other places.
const ORDERS: [Row; 10] = [
    (
        "shuffleplanes",
        (Yuv420p, 3, 3),
        "0 1 2, 10 11 12, 20 21 22 | 60 61, 70 71 | 120 121, 130 131",
    ),
    (
        "shuffleplanes=0:2:1",
        (Yuv420p, 3, 3),
        "0 1 2, 10 11 12, 20 21 22 | 120 121, 130 131 | 60 61, 70 71",
    ),
    (
        "shuffleplanes=map2=1",
        (Yuv422p, 3, 2),
        "0 1 2, 10 11 12 | 60 61, 70 71 | 60 61, 70 71",
    ),
    (
        "shuffleplanes=1:1:1",
        (Yuv444p, 2, 2),
        "60 61, 70 71 | 60 61, 70 71 | 60 61, 70 71",
    ),
    (
        "shuffleplanes=3:2:1:0",
        (Yuva420p, 3, 1),
        "180 181 182 | 120 121 | 60 61 | 0 1 2",
    ),
    (
        "shuffleplanes=0:2:2:0",
        (Yuva422p, 3, 1),
        "0 1 2 | 120 121 | 120 121 | 0 1 2",
    ),
    (
        "shuffleplanes=3:2:1:1",
        (Yuva444p, 2, 1),
        "180 181 | 120 121 | 60 61 | 60 61",
    ),
    ("shuffleplanes=0:3:3:3", (Gray, 2, 1), "0 1"),
    ("shuffleplanes=1:0:1", (Yuv420p, 1, 1), "60 | 0 | 60"),
    (
        "shuffleplanes=map1=1:map1=0",
        (Yuv444p, 2, 1),
        "0 1 | 0 1 | 120 121",
    ),
];

#[test]
fn planes_change_places(rt: HostRuntime) -> Result<(), NoMemory> {
    check_rows(&rt, rt.alloc(), &ORDERS)
}
