//! Command lines and what they mean, by hand.

use crate::{Command, InputWord, OutputWord, WordError, read_words};
use av_base::Media;
use av_faults::{Fault, LimitKind};
use graph_plan::Ending;
use std::alloc::{AllocError, Global};
use std::test::Fail;

/// The words of a line: what stands between its spaces.
fn split(alloc: Global, line: &str) -> Result<Vec<String>, AllocError> {
    let mut words = Vec::new(alloc);
    for word in line.split(' ') {
        words.push(String::from_str(alloc, word)?)?;
    }
    Ok(words)
}

/// An input in short: `v` or `a` and its name, or `g` and its numbers.
fn show_input(alloc: Global, input: &InputWord) -> Result<String, AllocError> {
    match input {
        InputWord::File { name, media } => match media {
            Media::Video => format!(in alloc; "v {}", name.as_str()),
            Media::Audio => format!(in alloc; "a {}", name.as_str()),
        },
        InputWord::Made {
            seed,
            width,
            height,
            frames,
        } => format!(in alloc; "g {seed} {width} {height} {frames}"),
    }
}

/// An output in short: its name, its label, if it has one, and what it is written as.
fn show_output(alloc: Global, output: &OutputWord) -> Result<String, AllocError> {
    let ending = match output.file.ending {
        Ending::Y4m => "y4m",
        Ending::Wav => "wav",
        Ending::Frames => "frames",
    };
    match &output.file.label {
        Some(label) => format!(in alloc; "{} <{}> {ending}", output.name.as_str(), label.as_str()),
        None => format!(in alloc; "{} {ending}", output.name.as_str()),
    }
}

/// A command in short: inputs, text and outputs, workers, slices and order, and whether a report is asked for.
fn show(alloc: Global, command: &Command) -> Result<String, AllocError> {
    let mut text = String::new(alloc);
    for input in command.inputs.as_slice() {
        text.push_str(show_input(alloc, input)?.as_str())?;
        text.push_str(", ")?;
    }
    text.push_str(command.text.as_str())?;
    for output in command.outputs.as_slice() {
        text.push_str(", ")?;
        text.push_str(show_output(alloc, output)?.as_str())?;
    }
    let (workers, slices) = (command.workers, command.slices);
    text.push_str(format!(in alloc; "; {workers} {slices};")?.as_str())?;
    for number in command.order.as_slice() {
        text.push_str(format!(in alloc; " {number}")?.as_str())?;
    }
    if command.report {
        text.push_str("; report")?;
    }
    Ok(text)
}

/// A fault in short: its name and its word, or its quantity and its numbers.
fn show_fault(alloc: Global, fault: Fault) -> Result<String, AllocError> {
    match fault {
        Fault::UnknownWord { word } => format!(in alloc; "UnknownWord {word}"),
        Fault::MissingValue { word } => format!(in alloc; "MissingValue {word}"),
        Fault::BadNumber { word } => format!(in alloc; "BadNumber {word}"),
        Fault::BadEnding { word } => format!(in alloc; "BadEnding {word}"),
        Fault::SameName { word } => format!(in alloc; "SameName {word}"),
        Fault::NoGraph => String::from_str(alloc, "NoGraph"),
        Fault::NoOutput => String::from_str(alloc, "NoOutput"),
        _ => String::from_str(alloc, "another fault"),
    }
}

/// What a command line means, in short: its command or its fault.
fn said(alloc: Global, words: &[String]) -> Result<String, AllocError> {
    match read_words(alloc, words) {
        Ok(command) => show(alloc, &command),
        Err(WordError::Fault(fault)) => show_fault(alloc, fault),
        Err(WordError::NoMemory) => String::from_str(alloc, "out of memory"),
    }
}

#[test]
fn options_stand_anywhere(rt: HostRuntime) -> Result<(), Fail> {
    for (line, want) in [
        (
            "-i a.y4m -filter_complex hflip b.y4m",
            "v a.y4m, hflip, b.y4m y4m; 0 1;",
        ),
        (
            "o.wav -workers 4 -i i.WAV -lavfi anull",
            "a i.WAV, anull, o.wav wav; 4 1;",
        ),
        (
            "-y -order 2|0|0|0001 -report -lavfi  -y .Y4m",
            ", .Y4m y4m; 0 1; 2 0 0 1; report",
        ),
        (
            "-filter_complex -map -i -y.y4m b.y4m",
            "v -y.y4m, -map, b.y4m y4m; 0 1;",
        ),
        ("-y -lavfi -report o.y4m -y", "-report, o.y4m y4m; 0 1;"),
        (
            "-report -lavfi t o.y4m -report",
            "t, o.y4m y4m; 0 1;; report",
        ),
        ("-lavfi t o.y4m", "t, o.y4m y4m; 0 1;"),
        (
            "-i a.y4m -i a.y4m A.y4m -lavfi t",
            "v a.y4m, v a.y4m, t, A.y4m y4m; 0 1;",
        ),
        (
            "x.y4m -i b.wav y.wav -i X.y4m -lavfi t z.frames",
            "a b.wav, v X.y4m, t, x.y4m y4m, y.wav wav, z.frames frames; 0 1;",
        ),
        (
            "-i A.Y4M -i b.WaV c.FRAMES d.wAV e.y4M -lavfi t",
            "v A.Y4M, a b.WaV, t, c.FRAMES frames, d.wAV wav, e.y4M y4m; 0 1;",
        ),
        (
            "-i .y4m .wav .frames -lavfi t",
            "v .y4m, t, .wav wav, .frames frames; 0 1;",
        ),
        (
            "-map [y] x.frames p.y4m -lavfi t",
            "t, x.frames <y> frames, p.y4m y4m; 0 1;",
        ),
        (
            "p.y4m -map [0:v] -y -i a.wav z.wav -lavfi t",
            "a a.wav, t, p.y4m y4m, z.wav <0:v> wav; 0 1;",
        ),
        (
            "-map [a] x.y4m -map [b_1] y.y4m z.y4m -lavfi t",
            "t, x.y4m <a> y4m, y.y4m <b_1> y4m, z.y4m y4m; 0 1;",
        ),
    ] {
        let words = split(rt.alloc(), line)?;
        let text = said(rt.alloc(), &words)?;
        assert_eq!(rt; text.as_str(), want, "{line}");
    }
    Ok(())
}

#[test]
fn the_last_value_counts(rt: HostRuntime) -> Result<(), Fail> {
    for (line, want) in [
        (
            "-workers 9 -lavfi a o.y4m -workers 0064 -lavfi b",
            "b, o.y4m y4m; 64 1;",
        ),
        (
            "-filter_complex a -lavfi b o.y4m -filter_complex c",
            "c, o.y4m y4m; 0 1;",
        ),
        ("-slices 64 -slices 2 -lavfi t o.y4m", "t, o.y4m y4m; 0 2;"),
        (
            "-order 1 -order 0|3 -lavfi t o.y4m",
            "t, o.y4m y4m; 0 1; 0 3",
        ),
        (
            "-workers 64 -workers 0 -slices 1 -lavfi t o.y4m",
            "t, o.y4m y4m; 0 1;",
        ),
        (
            "-workers 64 -slices 64 -lavfi t o.y4m",
            "t, o.y4m y4m; 64 64;",
        ),
        (
            "-order 0001|2|9999 -lavfi t o.y4m",
            "t, o.y4m y4m; 0 1; 1 2 9999",
        ),
        ("-g 0:1:1:0 -lavfi t o.y4m", "g 0 1 1 0, t, o.y4m y4m; 0 1;"),
        (
            "-g 4294967295:8192:1:100000 -lavfi t o.y4m",
            "g 4294967295 8192 1 100000, t, o.y4m y4m; 0 1;",
        ),
        (
            "-g 0000000001:8192:5461:1 -lavfi t o.y4m",
            "g 1 8192 5461 1, t, o.y4m y4m; 0 1;",
        ),
        (
            "-i a.y4m -g 1:2:2:1 -i b.wav -lavfi t o.y4m",
            "v a.y4m, g 1 2 2 1, a b.wav, t, o.y4m y4m; 0 1;",
        ),
    ] {
        let words = split(rt.alloc(), line)?;
        let text = said(rt.alloc(), &words)?;
        assert_eq!(rt; text.as_str(), want, "{line}");
    }
    Ok(())
}

#[test]
fn the_first_fault_of_a_word_counts(rt: HostRuntime) -> Result<(), Fail> {
    for (line, want) in [
        ("-foo -i a.mkv", "UnknownWord 0"),
        ("-Y", "UnknownWord 0"),
        ("b.y4m -", "UnknownWord 1"),
        ("-map [a] -foo x.y4m", "UnknownWord 2"),
        ("-map [a] -map [b] x.y4m", "UnknownWord 2"),
        ("-map [a]x x.y4m", "UnknownWord 1"),
        ("-lavfi", "MissingValue 0"),
        ("-lavfi t o.y4m -i", "MissingValue 3"),
        ("-map [a] -foo", "MissingValue 0"),
        ("-map [a] -i a.mkv", "MissingValue 0"),
        ("-map [a] -map [b]", "MissingValue 0"),
        ("-map [a] -map", "MissingValue 0"),
        ("-map x.y4m", "MissingValue 0"),
        ("-map [a] x.y4m -map", "MissingValue 3"),
        ("x.y4m -map [a]", "MissingValue 1"),
        ("-workers 65 -workers 1", "BadNumber 1"),
        ("-g 1:2:2 -foo", "BadNumber 1"),
        ("-slices 0 -i", "BadNumber 1"),
    ] {
        let words = split(rt.alloc(), line)?;
        let text = said(rt.alloc(), &words)?;
        assert_eq!(rt; text.as_str(), want, "{line}");
    }
    Ok(())
}

#[test]
fn names_are_refused_by_their_endings_and_by_earlier_names(rt: HostRuntime) -> Result<(), Fail> {
    for (line, want) in [
        ("-i a.mkv -foo", "BadEnding 1"),
        ("-i a.mkv a.mkv", "BadEnding 1"),
        ("-i a.frames", "BadEnding 1"),
        ("-i -i", "BadEnding 1"),
        ("-i  b.y4m", "BadEnding 1"),
        ("b.y4m ", "BadEnding 1"),
        ("y4m", "BadEnding 0"),
        ("a.y4m.txt -workers 65", "BadEnding 0"),
        ("a.frames -i a.frames", "BadEnding 2"),
        ("-i a.y4m a.y4m", "SameName 2"),
        ("-i a.y4m -i a.y4m a.y4m -slices 0", "SameName 4"),
        ("a.y4m -y -i a.y4m", "SameName 3"),
        ("a.y4m b.y4m a.y4m", "SameName 2"),
        ("b.y4m", "NoGraph"),
        ("-i a.y4m", "NoGraph"),
        ("-report", "NoGraph"),
        ("-lavfi t", "NoOutput"),
        ("-i a.y4m -lavfi t", "NoOutput"),
    ] {
        let words = split(rt.alloc(), line)?;
        let text = said(rt.alloc(), &words)?;
        assert_eq!(rt; text.as_str(), want, "{line}");
    }
    let none = Vec::new(rt.alloc());
    assert_eq!(rt; said(rt.alloc(), &none)?.as_str(), "NoGraph");
    Ok(())
}

#[test]
fn values_of_another_form_are_refused(rt: HostRuntime) -> Result<(), Fail> {
    for (option, value) in [
        ("-workers", ""),
        ("-workers", "65"),
        ("-workers", "00064"),
        ("-workers", "+1"),
        ("-workers", "-1"),
        ("-workers", "1 "),
        ("-slices", ""),
        ("-slices", "0"),
        ("-slices", "65"),
        ("-slices", "00001"),
        ("-order", ""),
        ("-order", "1|"),
        ("-order", "|1"),
        ("-order", "1||2"),
        ("-order", "00001"),
        ("-order", "12345"),
        ("-order", "1,2"),
        ("-g", ""),
        ("-g", "1:1:1"),
        ("-g", "1:1:1:1:1"),
        ("-g", "1:2:2:"),
        ("-g", "4294967296:1:1:1"),
        ("-g", "00000000001:2:2:1"),
        ("-g", "1:0:1:1"),
        ("-g", "1:1:0:1"),
        ("-g", "1:8193:1:1"),
        ("-g", "1:1:8193:1"),
        ("-g", "1:8192:5462:1"),
        ("-g", "1:2:2:100001"),
    ] {
        let mut words = split(rt.alloc(), option)?;
        words.push(String::from_str(rt.alloc(), value)?)?;
        words.push(String::from_str(rt.alloc(), "b.y4m")?)?;
        let text = said(rt.alloc(), &words)?;
        assert_eq!(rt; text.as_str(), "BadNumber 1", "{option} {value}");
    }
    for value in [
        "", "a", "[]", "[a", "a]", "[a]]", "[[a]", " [a]", "[a] ", "[a b]", "[a-b]",
    ] {
        let mut words = split(rt.alloc(), "-map")?;
        words.push(String::from_str(rt.alloc(), value)?)?;
        words.push(String::from_str(rt.alloc(), "b.y4m")?)?;
        let text = said(rt.alloc(), &words)?;
        assert_eq!(rt; text.as_str(), "UnknownWord 1", "{value}");
    }
    Ok(())
}

/// The fault of a quantity that is past its limit.
fn limit(kind: LimitKind, allowed: u64) -> Option<Fault> {
    Some(Fault::Limit {
        kind,
        which: 0,
        allowed,
    })
}

/// The fault of a command line, or none if it means a command.
fn fault_of(alloc: Global, words: &[String]) -> Result<Option<Fault>, AllocError> {
    match read_words(alloc, words) {
        Ok(_) => Ok(None),
        Err(WordError::Fault(fault)) => Ok(Some(fault)),
        Err(WordError::NoMemory) => Err(AllocError),
    }
}

/// A line of so many inputs and output files, with a text of so many bytes.
fn long_line(
    alloc: Global,
    inputs: u32,
    outputs: u32,
    bytes: u32,
) -> Result<Vec<String>, AllocError> {
    let mut text = String::new(alloc);
    for _ in 0..bytes {
        text.push('t')?;
    }
    let mut words = split(alloc, "-lavfi")?;
    words.push(text)?;
    for number in 0..inputs {
        let made = number % 2 == 1;
        words.push(String::from_str(alloc, if made { "-g" } else { "-i" })?)?;
        words.push(String::from_str(alloc, if made { "1:2:2:1" } else { "a.y4m" })?)?;
    }
    for number in 0..outputs {
        words.push(format!(in alloc; "{number}.y4m")?)?;
    }
    Ok(words)
}

#[test]
fn limits_are_those_of_inputs_then_outputs_then_the_text(rt: HostRuntime) -> Result<(), Fail> {
    for (inputs, outputs, bytes, want) in [
        (33, 1, 1, limit(LimitKind::Inputs, 32)),
        (33, 33, 65_537, limit(LimitKind::Inputs, 32)),
        (0, 33, 1, limit(LimitKind::Outputs, 32)),
        (32, 33, 65_537, limit(LimitKind::Outputs, 32)),
        (32, 32, 65_537, limit(LimitKind::Text, 65_536)),
        (33, 0, 65_537, Some(Fault::NoOutput)),
        (32, 32, 65_536, None),
    ] {
        let words = long_line(rt.alloc(), inputs, outputs, bytes)?;
        let fault = fault_of(rt.alloc(), &words)?;
        assert_eq!(rt; fault, want, "{inputs} {outputs} {bytes}");
    }
    // The last text counts.
    let mut words = long_line(rt.alloc(), 0, 1, 65_537)?;
    words.push(String::from_str(rt.alloc(), "-lavfi")?)?;
    words.push(String::from_str(rt.alloc(), "t")?)?;
    assert_eq!(rt; said(rt.alloc(), &words)?.as_str(), "t, 0.y4m y4m; 0 1;");
    Ok(())
}
