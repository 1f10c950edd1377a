use av_base::{List, NoMemory, Text};
use av_filter::{
    NoOptions, arguments_have_one_reading, read_flag, read_options, read_whole_within,
};
use av_frame::OptionError;
use av_text::Arg;

#[test]
fn flags_and_numbers_are_read(rt: HostRuntime) {
    for (text, wanted) in [("0", Some(false)), ("true", Some(true)), ("on", None)] {
        assert!(rt; read_flag(text) == wanted);
    }
    for (text, wanted) in [("-7", Some(-7)), ("12", Some(12)), ("13", None), ("", None)] {
        assert!(rt; read_whole_within(text, -7, 12) == wanted);
    }
}

#[test]
fn a_filter_without_options_takes_no_argument(rt: HostRuntime) -> Result<(), NoMemory> {
    let alloc = rt.alloc();
    let none = List::new(Vec::new(alloc));
    assert!(rt; read_options(alloc, &none) == Ok(NoOptions));
    let value = Text::new(String::from_str(alloc, "1")?);
    let one = List::new(vec![in alloc; Arg { name: None, value }]?);
    let late = OptionError::TooManyValues { option: 0 };
    assert!(rt; read_options::<NoOptions>(alloc, &one) == Err(late));
    arguments_have_one_reading::<NoOptions>();
    Ok(())
}
