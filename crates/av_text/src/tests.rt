use crate::{Arg, TextError, TextFault, TextKind, next_token, split_args};
use av_base::List;
use std::alloc::Global;
use std::test::Fail;

/// The specials at which a filter's arguments end.
const ENDS: &[u8] = b"[],;";

/// The most bytes of a text here.
const SHORT: usize = 100;

/// The arguments of a text of a filter's arguments, read at both levels.
fn arguments(alloc: Global, text: &str) -> Result<List<Arg>, TextError> {
    if text.len() > SHORT {
        return Err(TextError::NoMemory);
    }
    let (token, _) = next_token(alloc, text, 0, ENDS)?;
    let args = token.as_str();
    if args.len() > SHORT {
        return Err(TextError::NoMemory);
    }
    split_args(alloc, args)
}

/// The names and values, with a `=` after each name and a `|` after each value.
fn joined(alloc: Global, args: &[Arg]) -> Result<String, Fail> {
    let mut all = String::new(alloc);
    for arg in args {
        if let Some(name) = &arg.name {
            all.push_str(name.as_str())?;
            all.push('=')?;
        }
        all.push_str(arg.value.as_str())?;
        all.push('|')?;
    }
    Ok(all)
}

#[test]
fn tokens_end_at_plain_specials(rt: HostRuntime) -> Result<(), Fail> {
    for (text, start, value, place) in [
        ("  a b  ,c", 0, "a b", 7),
        (r"a\,b,c", 0, "a,b", 4),
        ("'a,b' ,c", 0, "a,b", 6),
        (r"a\  ,", 0, "a ", 4),
        ("a '' ,", 0, "a ", 5),
        (r"\\,", 0, r"\", 2),
        (r"'\',", 0, r"\", 3),
        (r"x,\é€'ü'ö ", 2, "é€üö", 15),
        ("a\t\r\n", 0, "a", 4),
        ("", 0, "", 0),
    ] {
        match next_token(rt.alloc(), text, start, b",;") {
            Ok((token, end)) => {
                assert_eq!(rt; token.as_str(), value);
                assert_eq!(rt; end, place);
            }
            Err(_) => assert!(rt; false),
        }
    }
    Ok(())
}

#[test]
fn the_first_fault_is_named_at_its_byte(rt: HostRuntime) -> Result<(), Fail> {
    for (text, at, kind) in [
        ("a='b", 2, TextKind::UnclosedQuote),
        (r"a=b\", 3, TextKind::LoneEscape),
        (r"a='b'\", 5, TextKind::LoneEscape),
        (r"a='b\", 2, TextKind::UnclosedQuote),
        ("a=''€'", 7, TextKind::UnclosedQuote),
    ] {
        match next_token(rt.alloc(), text, 2, ENDS) {
            Err(error) => assert_eq!(rt; error, TextError::Fault(TextFault { at, kind })),
            Ok(_) => assert!(rt; false),
        }
    }
    Ok(())
}

#[test]
fn arguments_are_unescaped_twice(rt: HostRuntime) -> Result<(), Fail> {
    for (text, args) in [
        (r"'b\:c'", "b:c|"),
        (r"b\\\:c", "b:c|"),
        (r"b\:c", "b|c|"),
        ("", ""),
        (":", "|"),
        ("b:", "b|"),
        ("::b", "||b|"),
        (r"b:\ ", "b||"),
        ("w=1: h = 2 :3", "w=1|h=2|3|"),
        (" n_1 =x=y", "n_1=x=y|"),
        ("é=x:=y", "é=x|=y|"),
        (r"\'x y \' ", "x y |"),
    ] {
        match arguments(rt.alloc(), text) {
            Ok(list) => {
                let all = joined(rt.alloc(), list.as_slice())?;
                assert_eq!(rt; all.as_str(), args);
            }
            Err(_) => assert!(rt; false),
        }
    }
    Ok(())
}

#[test]
fn a_fault_of_arguments_is_at_its_byte(rt: HostRuntime) -> Result<(), Fail> {
    for (text, at, kind) in [
        ("b:'c", 2, TextKind::UnclosedQuote),
        (r"b:k=c\", 5, TextKind::LoneEscape),
        ("k = 'c:'d'", 9, TextKind::UnclosedQuote),
    ] {
        match split_args(rt.alloc(), text) {
            Err(error) => assert_eq!(rt; error, TextError::Fault(TextFault { at, kind })),
            Ok(_) => assert!(rt; false),
        }
    }
    Ok(())
}
