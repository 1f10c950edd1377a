use crate::{read_ratio, read_time, read_whole};
use av_base::Ratio;

#[test]
fn whole_numbers_have_1_to_18_digits_behind_one_sign(rt: HostRuntime) {
    for (text, want) in [
        ("0", Some(0)),
        ("-0", Some(0)),
        ("007", Some(7)),
        ("-12", Some(-12)),
        ("999999999999999999", Some(999_999_999_999_999_999)),
        ("-999999999999999999", Some(-999_999_999_999_999_999)),
        ("0000000000000000001", None),
        ("", None),
        ("-", None),
        ("+1", None),
        ("1 ", None),
        ("--1", None),
    ] {
        assert_eq!(rt; read_whole(text), want, "{text}");
    }
}

fn ratio(num: u32, den: u32) -> Option<Ratio> {
    Some(Ratio { num, den })
}

#[test]
fn ratios_are_read_in_each_form(rt: HostRuntime) {
    for (text, want) in [
        ("25", ratio(25, 1)),
        ("2/4", ratio(1, 2)),
        ("4:2", ratio(2, 1)),
        ("0/5", ratio(0, 1)),
        ("29.97", ratio(2997, 100)),
        (".5", ratio(1, 2)),
        ("0.000003814697265625", ratio(1, 262_144)),
        ("ntsc", ratio(30000, 1001)),
        ("pal", ratio(25, 1)),
        ("film", ratio(24, 1)),
        ("ntsc_film", ratio(24000, 1001)),
        ("2147483647", ratio(2_147_483_647, 1)),
        ("2147483648/2", ratio(1_073_741_824, 1)),
        ("000000000000000025", ratio(25, 1)),
        ("999999999999999999/999999999999999999", ratio(1, 1)),
    ] {
        assert_eq!(rt; read_ratio(text), want, "{text}");
    }
}

#[test]
fn other_texts_are_no_ratios(rt: HostRuntime) {
    for text in [
        "",
        "-1",
        "1/0",
        "1:0",
        "/5",
        "5/",
        "5.",
        ".",
        "1/2/3",
        "1.2.3",
        "1/-2",
        "ntscx",
        "PAL",
        "2147483648",
        "1/2147483648",
        "0000000000000000025",
        "0.0000000000000000000",
    ] {
        assert_eq!(rt; read_ratio(text), None, "{text}");
    }
}

#[test]
fn times_are_cut_to_microseconds(rt: HostRuntime) {
    for (text, want) in [
        ("0", 0),
        ("-0", 0),
        ("1.5", 1_500_000),
        ("-0.0000019", -1),
        ("0.000001999999999999", 1),
        ("60", 60_000_000),
        ("999999999", 999_999_999_000_000),
        ("00:59.9999999", 59_999_999),
        ("01:00", 60_000_000),
        ("-01:00.5", -60_500_000),
        ("1:01:00", 3_660_000_000),
        ("123456789:59:59", 444_444_443_999_000_000),
        ("2s", 2_000_000),
        ("1.5ms", 1500),
        ("5us", 5),
        ("1.5us", 1),
        ("1000000000us", 1_000_000_000),
        ("999999999999999999us", 999_999_999_999_999_999),
    ] {
        assert_eq!(rt; read_time(text), Some(want), "{text}");
    }
}

#[test]
fn other_texts_are_no_times(rt: HostRuntime) {
    for text in [
        "",
        "-",
        "--1",
        "1.",
        ".5",
        "1:00",
        "00:60",
        "60:00",
        "0:00",
        "00:0",
        "1234567890:00:00",
        "01:00s",
        "00:00:00:00",
        "2 s",
        "2m",
        "us",
        "1000000000",
        "1000000000ms",
        "0999999999999999999us",
        "0.0000000000000000000",
        "1.5.5",
    ] {
        assert_eq!(rt; read_time(text), None, "{text}");
    }
}
