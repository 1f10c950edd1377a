//! The line that is printed of what stops the command, and its status.
ghost use Rattle.std.specs.Prelude.{◌≡◌, ◌+◌, ◌<◌, ◌≤◌, ◌++◌, length, codes};
ghost use Rattle.std.specs.Fmt.{decimal, signed_decimal};
ghost use Rattle.arrayvec.specs.ArrayString.{array_string_len};
ghost use Rattle.av_faults.specs.declared.fault.Fault.{Fault};
ghost use Rattle.av_faults.specs.declared.fault.Stop.{Stop};
ghost use Rattle.av_faults.specs.Faults.{kind_word, limit_word, stop_text, stop_line, stop_status};

use crate::fault::{Fault, LimitKind, Stop};
use arrayvec::ArrayString;
use av_text::TextKind;
use itoa::Buffer;

/// The room for a line, in bytes, and for the two lines of a report. They do not fill it.
pub const LINE_ROOM: usize = 160;

/// The word for a fault of the graph text.
fn kind_word(kind: TextKind) -> &'static str
    ensures word { result.now ≡ kind_word kind }
    ensures short { length result.now ≤ 16 }
{
    match kind {
        TextKind::UnclosedQuote => "UnclosedQuote",
        TextKind::LoneEscape => "LoneEscape",
        TextKind::ExpectedName => "ExpectedName",
        TextKind::BadLabel => "BadLabel",
        TextKind::Stray => "Stray",
    }
}

/// The word for a quantity that has a limit.
fn limit_word(kind: LimitKind) -> &'static str
    ensures word { result.now ≡ limit_word kind }
    ensures short { length result.now ≤ 16 }
{
    match kind {
        LimitKind::Text => "text",
        LimitKind::Inputs => "inputs",
        LimitKind::Outputs => "outputs",
        LimitKind::Filters => "filters",
        LimitKind::Links => "links",
        LimitKind::Bytes => "bytes",
    }
}

/// Appends a field's name and its word.
fn put_word(line: &mut ArrayString<LINE_ROOM>, name: &str, word: &str)
    requires { array_string_len line.old + length name.now + length word.now ≤ LINE_ROOM }
    ensures text { line.new.bytes ≡ line.old.bytes ++ name.now ++ word.now }
    ensures len { array_string_len line.new ≡ array_string_len line.old + length name.now + length word.now }
{
    line.push_str(name);
    line.push_str(word);
}

/// Appends a field's name and its number.
pub(crate) fn put_number(line: &mut ArrayString<LINE_ROOM>, name: &str, number: u64)
    requires { array_string_len line.old + length name.now + 20 ≤ LINE_ROOM }
    ensures text { line.new.bytes ≡ line.old.bytes ++ name.now ++ decimal number }
    ensures len { array_string_len line.new ≤ array_string_len line.old + length name.now + 20 }
{
    let mut digits = Buffer::new();
    put_word(line, name, digits.format(number));
}

/// Appends a field's name and its number, which may be below 0.
fn put_signed(line: &mut ArrayString<LINE_ROOM>, name: &str, number: i64)
    requires { array_string_len line.old + length name.now + 20 ≤ LINE_ROOM }
    ensures text { line.new.bytes ≡ line.old.bytes ++ name.now ++ signed_decimal number }
    ensures len { array_string_len line.new ≤ array_string_len line.old + length name.now + 20 }
{
    let mut digits = Buffer::new();
    put_word(line, name, digits.format(number));
}

/// Appends the name of a fault and of its only field, and that field's number.
fn put_one(line: &mut ArrayString<LINE_ROOM>, name: &str, number: u32)
    requires { array_string_len line.old + length name.now ≤ 40 }
    ensures text { line.new.bytes ≡ line.old.bytes ++ name.now ++ decimal number }
    ensures room { array_string_len line.new < LINE_ROOM }
{
    put_number(line, name, u64::from(number));
}

/// Appends the name of a fault and of its two fields, and the numbers of these.
fn put_two(line: &mut ArrayString<LINE_ROOM>, name: &str, number: u32, field: &str, other: u32)
    requires name { array_string_len line.old + length name.now ≤ 40 }
    requires field { length field.now ≤ 16 }
    ensures text { line.new.bytes ≡ line.old.bytes ++ name.now ++ decimal number ++ field.now ++ decimal other }
    ensures room { array_string_len line.new < LINE_ROOM }
{
    put_number(line, name, u64::from(number));
    put_number(line, field, u64::from(other));
}

/// Appends two sizes that differ.
fn put_sizes(line: &mut ArrayString<LINE_ROOM>, filter: u32, a: u64, b: u64)
    requires { array_string_len line.old ≤ 16 }
    ensures text { line.new.bytes ≡ line.old.bytes ++ stop_text (Stop.Fault (Fault.SizeMismatch filter a b)) }
    ensures room { array_string_len line.new < LINE_ROOM }
{
    put_number(line, "SizeMismatch filter=", u64::from(filter));
    put_number(line, " a=", a);
    put_number(line, " b=", b);
}

/// Appends a size or a place that isn't allowed.
fn put_geometry(line: &mut ArrayString<LINE_ROOM>, filter: u32, found: i64, allowed: i64)
    requires { array_string_len line.old ≤ 16 }
    ensures text { line.new.bytes ≡ line.old.bytes ++ stop_text (Stop.Fault (Fault.BadGeometry filter found allowed)) }
    ensures room { array_string_len line.new < LINE_ROOM }
{
    put_number(line, "BadGeometry filter=", u64::from(filter));
    put_signed(line, " found=", found);
    put_signed(line, " allowed=", allowed);
}

/// Appends an output that is too large.
fn put_large(line: &mut ArrayString<LINE_ROOM>, filter: u32, found: u64, allowed: u64)
    requires { array_string_len line.old ≤ 16 }
    ensures text { line.new.bytes ≡ line.old.bytes ++ stop_text (Stop.Fault (Fault.TooLarge filter found allowed)) }
    ensures room { array_string_len line.new < LINE_ROOM }
{
    put_number(line, "TooLarge filter=", u64::from(filter));
    put_number(line, " found=", found);
    put_number(line, " allowed=", allowed);
}

/// Appends the name of a fault, its input and a place there.
fn put_place(line: &mut ArrayString<LINE_ROOM>, name: &str, input: u32, field: &str, place: u64)
    requires name { array_string_len line.old + length name.now ≤ 40 }
    requires field { length field.now ≤ 16 }
    ensures text { line.new.bytes ≡ line.old.bytes ++ name.now ++ decimal input ++ field.now ++ decimal place }
    ensures room { array_string_len line.new < LINE_ROOM }
{
    put_number(line, name, u64::from(input));
    put_number(line, field, place);
}

/// Appends the name of a fault in an input's frames and its fields.
fn put_damage(line: &mut ArrayString<LINE_ROOM>, fault: Fault)
    requires len { array_string_len line.old ≤ 16 }
    requires damage { stop_status (Stop.Fault fault) ≡ 9 }
    ensures text { line.new.bytes ≡ line.old.bytes ++ stop_text (Stop.Fault fault) }
    ensures room { array_string_len line.new < LINE_ROOM }
{
    match fault {
        Fault::BadFrame { input, frame } => put_place(
            line,
            "BadFrame input=",
            input,
            " frame=",
            frame,
        ),
        Fault::Truncated { input, place } => put_place(
            line,
            "Truncated input=",
            input,
            " place=",
            place,
        ),
        _ => unreachable!(),
    }
}

/// Appends a fault of the graph text.
fn put_text_fault(line: &mut ArrayString<LINE_ROOM>, at: u32, kind: TextKind)
    requires { array_string_len line.old ≤ 16 }
    ensures text { line.new.bytes ≡ line.old.bytes ++ stop_text (Stop.Fault (Fault.TextFault at kind)) }
    ensures room { array_string_len line.new < LINE_ROOM }
{
    put_number(line, "TextFault at=", u64::from(at));
    put_word(line, " kind=", kind_word(kind));
}

/// Appends a limit that is passed.
fn put_limit(line: &mut ArrayString<LINE_ROOM>, kind: LimitKind, which: u32, allowed: u64)
    requires { array_string_len line.old ≤ 16 }
    ensures text { line.new.bytes ≡ line.old.bytes ++ stop_text (Stop.Fault (Fault.Limit kind which allowed)) }
    ensures room { array_string_len line.new < LINE_ROOM }
{
    put_word(line, "Limit kind=", limit_word(kind));
    put_number(line, " which=", u64::from(which));
    put_number(line, " allowed=", allowed);
}

/// Appends the name of a fault of a filter's settings and its fields.
fn put_setting(line: &mut ArrayString<LINE_ROOM>, fault: Fault)
    requires len { array_string_len line.old ≤ 16 }
    requires setting { stop_status (Stop.Fault fault) ≡ 8 }
    ensures text { line.new.bytes ≡ line.old.bytes ++ stop_text (Stop.Fault fault) }
    ensures room { array_string_len line.new < LINE_ROOM }
{
    match fault {
        Fault::SizeMismatch { filter, a, b } => put_sizes(line, filter, a, b),
        Fault::BadGeometry {
            filter,
            found,
            allowed,
        } => put_geometry(line, filter, found, allowed),
        Fault::TooLarge {
            filter,
            found,
            allowed,
        } => put_large(line, filter, found, allowed),
        Fault::TimeBaseRange { filter } => put_one(line, "TimeBaseRange filter=", filter),
        Fault::NoValue { filter, option } => {
            put_two(line, "NoValue filter=", filter, " option=", option)
        }
        Fault::NoRate { output } => put_one(line, "NoRate output=", output),
        _ => unreachable!(),
    }
}

/// Appends the name of a fault of the words and its fields.
fn put_words(line: &mut ArrayString<LINE_ROOM>, fault: Fault)
    requires len { array_string_len line.old ≤ 16 }
    requires words { stop_status (Stop.Fault fault) ≡ 2 }
    ensures text { line.new.bytes ≡ line.old.bytes ++ stop_text (Stop.Fault fault) }
    ensures room { array_string_len line.new < LINE_ROOM }
{
    match fault {
        Fault::UnknownWord { word } => put_number(line, "UnknownWord word=", word),
        Fault::MissingValue { word } => put_number(line, "MissingValue word=", word),
        Fault::BadNumber { word } => put_number(line, "BadNumber word=", word),
        Fault::BadEnding { word } => put_number(line, "BadEnding word=", word),
        Fault::SameName { word } => put_number(line, "SameName word=", word),
        Fault::NoGraph => line.push_str("NoGraph"),
        Fault::NoOutput => line.push_str("NoOutput"),
        _ => unreachable!(),
    }
}

/// Appends the name of a fault of a filter's name or options and its fields.
fn put_options(line: &mut ArrayString<LINE_ROOM>, fault: Fault)
    requires len { array_string_len line.old ≤ 16 }
    requires options { stop_status (Stop.Fault fault) ≡ 4 }
    ensures text { line.new.bytes ≡ line.old.bytes ++ stop_text (Stop.Fault fault) }
    ensures room { array_string_len line.new < LINE_ROOM }
{
    match fault {
        Fault::UnknownFilter { filter } => put_one(line, "UnknownFilter filter=", filter),
        Fault::UnknownOption { filter, option } => {
            put_two(line, "UnknownOption filter=", filter, " option=", option)
        }
        Fault::TooManyValues { filter, option } => {
            put_two(line, "TooManyValues filter=", filter, " option=", option)
        }
        Fault::BadValue { filter, option } => {
            put_two(line, "BadValue filter=", filter, " option=", option)
        }
        Fault::MissingOption { filter } => put_one(line, "MissingOption filter=", filter),
        _ => unreachable!(),
    }
}

/// Appends the name of a fault of the graph's links and its fields.
fn put_links(line: &mut ArrayString<LINE_ROOM>, fault: Fault)
    requires len { array_string_len line.old ≤ 16 }
    requires links { stop_status (Stop.Fault fault) ≡ 5 }
    ensures text { line.new.bytes ≡ line.old.bytes ++ stop_text (Stop.Fault fault) }
    ensures room { array_string_len line.new < LINE_ROOM }
{
    match fault {
        Fault::PadCount { filter } => put_one(line, "PadCount filter=", filter),
        Fault::LabelTwice { filter } => put_one(line, "LabelTwice filter=", filter),
        Fault::UnknownInput { filter } => put_one(line, "UnknownInput filter=", filter),
        Fault::MediaMismatch { filter } => put_one(line, "MediaMismatch filter=", filter),
        Fault::Cycle { filter } => put_one(line, "Cycle filter=", filter),
        Fault::OpenPad { filter, pad } => put_two(line, "OpenPad filter=", filter, " pad=", pad),
        Fault::Unmapped { filter, pad } => put_two(line, "Unmapped filter=", filter, " pad=", pad),
        Fault::NoSuchOutput { output } => put_one(line, "NoSuchOutput output=", output),
        Fault::WrongKind { output } => put_one(line, "WrongKind output=", output),
        _ => unreachable!(),
    }
}

/// Appends the name of a fault and its fields.
fn put_fault(line: &mut ArrayString<LINE_ROOM>, fault: Fault)
    requires { array_string_len line.old ≤ 16 }
    ensures text { line.new.bytes ≡ line.old.bytes ++ stop_text (Stop.Fault fault) }
    ensures room { array_string_len line.new < LINE_ROOM }
{
    match fault_status(fault) {
        2 => return put_words(line, fault),
        4 => return put_options(line, fault),
        5 => return put_links(line, fault),
        8 => return put_setting(line, fault),
        9 => return put_damage(line, fault),
        _ => {}
    }
    match fault {
        Fault::NotYet => line.push_str("NotYet"),
        Fault::OpenFault => line.push_str("OpenFault count=1"),
        Fault::ReadFault => line.push_str("ReadFault count=1"),
        Fault::WriteFault => line.push_str("WriteFault count=1"),
        Fault::NotMedia { input } => put_one(line, "NotMedia input=", input),
        Fault::BadHeader { input } => put_one(line, "BadHeader input=", input),
        Fault::BadColour { input } => put_one(line, "BadColour input=", input),
        Fault::NoCommonFormat { link } => put_one(line, "NoCommonFormat link=", link),
        Fault::TextFault { at, kind } => put_text_fault(line, at, kind),
        Fault::Limit {
            kind,
            which,
            allowed,
        } => put_limit(line, kind, which, allowed),
        _ => unreachable!(),
    }
}

/// Appends the name of a stop and its fields.
fn put_stop(line: &mut ArrayString<LINE_ROOM>, stop: Stop)
    requires { array_string_len line.old ≤ 16 }
    ensures text { line.new.bytes ≡ line.old.bytes ++ stop_text stop }
    ensures room { array_string_len line.new < LINE_ROOM }
{
    match stop {
        Stop::Fault(fault) => put_fault(line, fault),
        Stop::NoMemory => line.push_str("NoMemory"),
    }
}

/// The line that is printed of a stop, with its line feed.
pub fn line(stop: Stop) -> ArrayString<LINE_ROOM>
    ensures { result.bytes ≡ stop_line stop }
{
    let mut line = ArrayString::new();
    line.push_str("avgraph: ");
    put_stop(&mut line, stop);
    line.push_str("\n");
    line
}

/// The program's status after a fault.
fn fault_status(fault: Fault) -> u8
    ensures { result ≡ stop_status (Stop.Fault fault) }
{
    match fault {
        Fault::UnknownWord { .. }
        | Fault::MissingValue { .. }
        | Fault::BadNumber { .. }
        | Fault::BadEnding { .. }
        | Fault::SameName { .. }
        | Fault::NoGraph
        | Fault::NoOutput => 2,
        Fault::TextFault { .. } => 3,
        Fault::UnknownFilter { .. }
        | Fault::UnknownOption { .. }
        | Fault::TooManyValues { .. }
        | Fault::BadValue { .. }
        | Fault::MissingOption { .. } => 4,
        Fault::PadCount { .. }
        | Fault::LabelTwice { .. }
        | Fault::UnknownInput { .. }
        | Fault::MediaMismatch { .. }
        | Fault::Cycle { .. }
        | Fault::OpenPad { .. }
        | Fault::Unmapped { .. }
        | Fault::NoSuchOutput { .. }
        | Fault::WrongKind { .. } => 5,
        Fault::NotMedia { .. } | Fault::BadHeader { .. } | Fault::BadColour { .. } => 6,
        Fault::NoCommonFormat { .. } => 7,
        Fault::SizeMismatch { .. }
        | Fault::BadGeometry { .. }
        | Fault::TooLarge { .. }
        | Fault::TimeBaseRange { .. }
        | Fault::NoValue { .. }
        | Fault::NoRate { .. } => 8,
        Fault::BadFrame { .. } | Fault::Truncated { .. } => 9,
        Fault::Limit { .. } => 10,
        Fault::OpenFault => 11,
        Fault::ReadFault => 12,
        Fault::WriteFault => 13,
        Fault::NotYet => 15,
    }
}

/// The program's status after a stop.
pub fn status(stop: Stop) -> u8
    ensures { result ≡ stop_status stop }
{
    match stop {
        Stop::Fault(fault) => fault_status(fault),
        Stop::NoMemory => 14,
    }
}
