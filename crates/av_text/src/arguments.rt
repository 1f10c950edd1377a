//! Arguments of a filter.
ghost use Rattle.std.specs.Prelude.{◌≡◌, ◌<◌, ◌≤◌, ◌+◌, ◌^◌, ℕ, List, length, drop, IfOk, IfSome, IsNone};
ghost use Rattle.std.specs.Str.{IsUtf8, IsCharBoundary};
ghost use Rattle.av_text.specs.Faults.{IsFaultAt};
ghost use Rattle.av_text.specs.Arguments.{BeginsNamed, IsUnnamed, IsArg, IsArgFault, AreArgs, IsArgsFault};
ghost use Rattle.av_text.specs.declared.fault.TextKind.{TextKind};
ghost use Rattle.av_text.specs.declared.arguments.Arg.{Arg};
ghost use Rattle.av_base.specs.Failures.{IfFault, Gives, Refuses};

use crate::{Class, TextError, next_token, split_run};
use av_base::{List, Text};
use std::alloc::Global;

/// An argument of a filter.
#[derive(Drop)]
pub struct Arg {
    /// The name before a `=`, if there is one.
    pub name: Option<Text>,
    /// The value, without its quotes and escapes.
    pub value: Text,
}

/// The name that a text begins with and the text after its `=`; none if it doesn't begin with a name and `=`.
fn split_name(text: &str) -> Option<(&str, &str)>
    ensures named { IfSome result (λ p. BeginsNamed text.now p.0.now p.1.now) }
    ensures none { IsNone result → IsUnnamed text.now }
    ensures utf8 { IfSome result (λ p. IsUtf8 p.1.now) }
{
    let (_, named) = split_run(text, Class::White);
    let (name, spaced) = split_run(named, Class::Name);
    if name.is_empty() {
        return None;
    }
    let (_, marked) = split_run(spaced, Class::White);
    match marked.strip_prefix('=') {
        Some(behind) => Some((name, behind)),
        None => None,
    }
}

/// The argument that begins at a byte of a text, and the byte at which it ends.
fn next_arg(alloc: Global, args: &str, place: usize) -> Result<(Arg, usize), TextError>
    requires place { IsCharBoundary args.now place }
    requires length { length args.now < 2 ^ 32 }
    ensures arg { IfOk result (λ t. IsArg (drop place args.now) t.0 (drop t.1 args.now)) }
    ensures end { IfOk result (λ t. (place ≤ t.1) × IsCharBoundary args.now t.1) }
    ensures fault { IfFault result (λ f. (bad : List ℕ) × IsArgFault (drop place args.now) f.kind bad × (f.at + length bad ≡ length args.now)) }
{
    match split_name(&args[place..]) {
        Some((name, behind)) => {
            let (value, end) = next_token(alloc, args, args.len() - behind.len(), b":")?;
            let name = Text::new(String::from_str(alloc, name)?);
            Ok((
                Arg {
                    name: Some(name),
                    value,
                },
                end,
            ))
        }
        None => {
            let (value, end) = next_token(alloc, args, place, b":")?;
            Ok((Arg { name: None, value }, end))
        }
    }
}

/// The arguments that a text says, with a `:` between each two.
///
/// An argument has a name if it begins, after white space, with letters, digits or `_` and then a `=`, with white space
/// between or not. Its value is a token that ends before a `:`. An empty text has no arguments, and a `:` at the end
/// adds none. The text has fewer than 2^32 bytes. (FFmpeg Filters Documentation, "Filtergraph syntax".)
///
/// # Errors
/// Those of [`next_token`] at the first value that has one. Or out of memory.
pub fn split_args(alloc: Global, args: &str) -> Result<List<Arg>, TextError>
    requires { length args.now < 2 ^ 32 }
    ensures args { IfOk result (AreArgs args.now) }
    // What has a reading isn't refused, and has no other.
    ensures reads { (list : List Arg) → AreArgs args.now list → Gives (λ l. l ≡ list) result }
    ensures fault { IfFault result (λ f. (bad : List ℕ) × IsArgsFault args.now f.kind bad × (f.at + length bad ≡ length args.now)) }
    // What has a fault isn't read, and has no other.
    ensures faulty { (kind : TextKind) (bad : List ℕ) → IsArgsFault args.now kind bad → Refuses (IsFaultAt args.now kind bad) result }
{
    let mut list = Vec::new(alloc);
    let mut place = 0;
    while place < args.len() {
        let (arg, end) = next_arg(alloc, args, place)?;
        list.push(arg)?;
        place = end + 1;
    }
    Ok(List::new(list))
}
