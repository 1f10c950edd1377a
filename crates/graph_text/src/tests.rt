use crate::{FilterCall, parse};
use av_base::Text;
use av_text::{TextError, TextFault, TextKind};
use std::alloc::{AllocError, Global};
use std::test::Fail;

/// Adds each label in brackets.
fn push_labels(out: &mut String, labels: &[Text]) -> Result<(), AllocError> {
    for label in labels {
        out.push('[')?;
        out.push_str(label.as_str())?;
        out.push(']')?;
    }
    Ok(())
}

/// Adds a call: its labels, name, instance, arguments with a `|` after each, and labels.
fn push_call(out: &mut String, call: &FilterCall) -> Result<(), AllocError> {
    push_labels(out, call.ins.as_slice())?;
    out.push_str(call.name.as_str())?;
    if let Some(instance) = &call.instance {
        out.push('@')?;
        out.push_str(instance.as_str())?;
    }
    out.push('=')?;
    for arg in call.args.as_slice() {
        if let Some(name) = &arg.name {
            out.push_str(name.as_str())?;
            out.push('=')?;
        }
        out.push_str(arg.value.as_str())?;
        out.push('|')?;
    }
    push_labels(out, call.outs.as_slice())
}

/// The calls, with a line feed after each.
fn calls(alloc: Global, list: &[FilterCall]) -> Result<String, AllocError> {
    let mut all = String::new(alloc);
    for call in list {
        push_call(&mut all, call)?;
        all.push('\n')?;
    }
    Ok(all)
}

#[test]
fn calls_are_read_with_all_their_parts(rt: HostRuntime) -> Result<(), Fail> {
    for (text, expected) in [
        ("null", "null=\n"),
        (" hflip , null,hflip@b ", "hflip=\nnull=\nhflip@b=\n"),
        (
            "[0:v] [a]crop@x = w=1 : 2 [b];[ b ]null[c]",
            "[0:v][a]crop@x=w=1|2|[b]\n[b]null=[c]\n",
        ),
        ("sws_flags=a,b;null", "null=\n"),
        (" sws_flags=;\nnull\t", "null=\n"),
        ("sws_flags", "sws_flags=\n"),
        (r"a='b\:c'", "a=b:c|\n"),
        (r"a=b\\\:c", "a=b:c|\n"),
        (r"a=b\:c", "a=b|c|\n"),
        ("a=,b=:;c=' [x];' [x]", "a=\nb=|\nc=[x];|[x]\n"),
        ("a=b@c", "a=b@c|\n"),
    ] {
        match parse(rt.alloc(), text) {
            Ok(graph) => {
                let all = calls(rt.alloc(), graph.calls.as_slice())?;
                assert_eq!(rt; all.as_str(), expected);
            }
            Err(_) => assert!(rt; false),
        }
    }
    Ok(())
}

#[test]
fn calls_have_the_places_of_their_names_and_the_numbers_of_their_chains(rt: HostRuntime) {
    for (text, expected) in [
        (" hflip , null,hflip@b ", [(1, 0), (9, 0), (14, 0)]),
        ("[a]null;null;[b] [c] null", [(3, 0), (8, 1), (21, 2)]),
        ("sws_flags=;a,b;c", [(11, 0), (13, 0), (15, 1)]),
    ] {
        match parse(rt.alloc(), text) {
            Ok(graph) => {
                let list = graph.calls.as_slice();
                assert_eq!(rt; list.len(), 3);
                for (call, place) in list.iter().zip(expected) {
                    assert_eq!(rt; (call.at, call.chain), place);
                }
            }
            Err(_) => assert!(rt; false),
        }
    }
}

#[test]
fn the_first_fault_is_named_at_its_byte(rt: HostRuntime) {
    for (text, at, kind) in [
        ("a='b", 2, TextKind::UnclosedQuote),
        ("null,", 5, TextKind::ExpectedName),
        ("null]", 4, TextKind::Stray),
        ("[]null", 0, TextKind::BadLabel),
        (r"a=b\", 3, TextKind::LoneEscape),
        ("", 0, TextKind::ExpectedName),
        (" \t", 2, TextKind::ExpectedName),
        ("[a]", 3, TextKind::ExpectedName),
        (";null", 0, TextKind::ExpectedName),
        ("null@ ", 6, TextKind::ExpectedName),
        ("sws_flags=a", 11, TextKind::ExpectedName),
        ("é", 0, TextKind::ExpectedName),
        ("null é", 5, TextKind::Stray),
        ("null x", 5, TextKind::Stray),
        ("a=b]c", 3, TextKind::Stray),
        ("null[", 4, TextKind::BadLabel),
        ("null [a][a b]", 8, TextKind::BadLabel),
        // The quote is gone at the second level, and is alone at the first.
        (r"a= \'b", 3, TextKind::UnclosedQuote),
        (r"a=b:c\\,", 2, TextKind::LoneEscape),
    ] {
        match parse(rt.alloc(), text) {
            Err(error) => assert_eq!(rt; error, TextError::Fault(TextFault { at, kind })),
            Ok(_) => assert!(rt; false),
        }
    }
}
