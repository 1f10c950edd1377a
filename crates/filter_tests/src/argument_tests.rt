//! Names of filters and their arguments.
use crate::calls::read;
use av_base::{Media, NoMemory};
use av_frame::OptionError;
use node_core::{law, made_frames_are_lawful};
use std::alloc::Global;
use std::process::Abort;

/// Checks what the first call of a text is rejected for.
fn check_rejected(rt: &impl Abort, alloc: Global, text: &str, wanted: OptionError) {
    match read(rt, alloc, text) {
        Ok(_) => assert!(rt; false, "{text} is read"),
        Err(found) => assert_eq!(rt; found, wanted, "by {text}"),
    }
}

#[test]
fn names_are_looked_up_before_arguments(rt: HostRuntime) {
    for (text, error) in [
        ("blur", OptionError::UnknownFilter),
        ("blur=1:2", OptionError::UnknownFilter),
        ("Hflip", OptionError::UnknownFilter),
        ("hflips=z=1", OptionError::UnknownFilter),
        ("fps", OptionError::NotYet),
        ("fps=0", OptionError::NotYet),
        ("overlay=z=1", OptionError::NotYet),
        ("format", OptionError::MissingOption),
        ("format=", OptionError::MissingOption),
        ("format=''", OptionError::MissingOption),
    ] {
        check_rejected(&rt, rt.alloc(), text, error);
    }
}

#[test]
fn options_have_names(rt: HostRuntime) {
    for (text, option) in [
        ("hflip=z=1", 0),
        ("negate=z=1", 0),
        ("null=z=1", 0),
        ("vflip=z=1", 0),
        ("crop=z=2", 0),
        ("crop=w=1:v=2:w=(", 1),
        ("format=pix_fmt=gray", 0),
        ("format=gray:Pix_fmts=gray", 1),
        ("lutyuv=val:z=val", 1),
        ("pad=2:2:colour=black", 2),
        ("shuffleplanes=0:map4=x:map0=x", 1),
        ("transpose=direction=1", 0),
    ] {
        check_rejected(&rt, rt.alloc(), text, OptionError::UnknownOption { option });
    }
}

#[test]
fn values_without_names_come_first_and_are_few(rt: HostRuntime) {
    for (text, option) in [
        ("hflip=1", 0),
        ("hflip=:", 0),
        ("negate=1", 0),
        ("null=1", 0),
        ("vflip=1", 0),
        ("crop=1:1:0:0:0:0:7", 6),
        ("crop=w=1:2", 1),
        ("format=gray:gray", 1),
        ("lutyuv=val:val:val:val:val", 4),
        ("pad=2:2:0:0:black:1", 5),
        ("shuffleplanes=0:1:2:3:0", 4),
        ("shuffleplanes=map0=1:1", 1),
        ("transpose=1:none:2", 2),
    ] {
        check_rejected(&rt, rt.alloc(), text, OptionError::TooManyValues { option });
    }
}

#[test]
fn expressions_are_of_their_variables(rt: HostRuntime) {
    for (text, option) in [
        ("crop=w=ow", 0),
        ("crop=w=oh", 0),
        ("crop=1:oh", 1),
        ("crop=x=val", 0),
        ("crop=1:1:x=(", 2),
        ("lutyuv=y=(1", 0),
        ("lutyuv=y=iw", 0),
        ("lutyuv=val:val:val:a=ih", 3),
        ("lutyuv=u=Val", 0),
        ("pad=ow", 0),
        ("pad=2:oh", 1),
        ("pad=y=minval", 0),
        (r"pad=2:2:\'\'", 2),
    ] {
        check_rejected(&rt, rt.alloc(), text, OptionError::BadValue { option });
    }
}

#[test]
fn words_and_numbers_are_those_of_their_options(rt: HostRuntime) {
    for (text, option) in [
        ("crop=keep_aspect=1", 0),
        ("crop=w=1:exact=2", 1),
        ("format=gray|", 0),
        (r"format=\'\'", 0),
        ("format=Gray", 0),
        ("format=gray:pix_fmts=rgb24", 1),
        ("pad=color=red", 0),
        ("pad=color=Black", 0),
        ("pad=2:2:0:0:yuv/0/256/16", 4),
        ("pad=color=yuv/-1/2/3", 0),
        ("pad=color=yuv/0/1", 0),
        ("pad=color=yuv/1/2/3/4", 0),
        ("shuffleplanes=0:1:4", 2),
        ("shuffleplanes=map3=-1", 0),
        ("shuffleplanes=map1=4:map1=0", 0),
        ("transpose=5", 0),
        ("transpose=3:upright", 1),
        ("transpose=dir=clock:passthrough=Portrait", 1),
    ] {
        check_rejected(&rt, rt.alloc(), text, OptionError::BadValue { option });
    }
}

#[test]
fn each_name_is_that_of_a_filter_with_one_pad_on_each_side(
    rt: HostRuntime,
) -> Result<(), NoMemory> {
    for text in [
        "crop=iw/2:ih/2:0:0:0:false",
        "format=gray|yuv420p|gray",
        "hflip",
        "hflip=",
        "lutyuv=y=255-val",
        "negate",
        "null",
        "pad=iw+2:color=yuv/0/255/16",
        "shuffleplanes=0:2:1",
        "transpose=clock:landscape",
        "vflip",
    ] {
        let kind = read(&rt, rt.alloc(), text).ok().expect(&rt, "a filter");
        let pads = kind.pads(rt.alloc())?;
        assert_eq!(rt; pads.ins.as_slice(), [Media::Video].as_slice());
        assert_eq!(rt; pads.outs.as_slice(), [Media::Video].as_slice());
    }
    Ok(())
}

#[test]
fn laws_are_called() {
    law::calls_have_one_meaning();
    law::filters_have_one_outcome();
    made_frames_are_lawful();
}
