//! Texts of expressions.
ghost use Rattle.std.specs.Prelude.{◌≡◌, ◌≤◌, ◌<◌, ◌+◌, ◌*◌, ◌^◌, ◌++◌, ℕ, List, length, drop, IfOk, OnOk};
ghost use Rattle.std.specs.Str.{IsCharBoundary};
ghost use Rattle.av_text.specs.Classes.{Stops};
ghost use Rattle.av_expr.specs.Trees.{Tree, postfix};
ghost use Rattle.av_expr.specs.Parts.{IsMark};
ghost use Rattle.av_expr.specs.Grammar.{IsAtom, NoAtom, IsUnary, NoUnary, IsProduct, NoProduct, IsSum, NoSum, IsOpen, additive, multiplicative, opens};
ghost use Rattle.av_expr.specs.Exprs.{IsExpr, IsExprFault, IsFaultAt};
ghost use Rattle.av_text.specs.Parts.{IsPlace};
ghost use Rattle.av_expr.specs.Reading.{FailsAt, IsRead, IsOperatorAt, IsOpeningAt, IsAtomAt};
ghost use Rattle.av_expr.specs.declared.fault.ExprKind.{ExprKind};
ghost use Rattle.av_base.specs.Failures.{IfFault, Gives, Refuses};

use crate::atoms::{fault, read_number, read_variable};
use crate::expr::{Expr, Node};
use crate::fault::{ExprError, ExprKind};
use crate::fraction::Operator;
use crate::vars::VarSet;
use av_text::{Class, skip_white};
use std::alloc::Global;

/// How many signs and parentheses may be open at a place.
const LEVELS: u32 = 64;

/// The operator of sums that a byte is.
fn additive(byte: u8) -> Option<Operator>
    ensures { result ≡ additive byte }
{
    match byte {
        b'+' => Some(Operator::Plus),
        b'-' => Some(Operator::Minus),
        _ => None,
    }
}

/// The operator of products that a byte is.
fn multiplicative(byte: u8) -> Option<Operator>
    ensures { result ≡ multiplicative byte }
{
    match byte {
        b'*' => Some(Operator::Times),
        b'/' => Some(Operator::Over),
        _ => None,
    }
}

/// The operator of sums at a place, if there is one.
fn sum_operator(text: &str, place: usize) -> Option<Operator>
    requires { place ≤ length text.now }
    ensures { IsOperatorAt additive text.now place result }
{
    match text.as_bytes().get(place) {
        Some(byte) => additive(*byte),
        None => None,
    }
}

/// The operator of products at a place, if there is one.
fn product_operator(text: &str, place: usize) -> Option<Operator>
    requires { place ≤ length text.now }
    ensures { IsOperatorAt multiplicative text.now place result }
{
    match text.as_bytes().get(place) {
        Some(byte) => multiplicative(*byte),
        None => None,
    }
}

/// What begins a level.
#[derive(Clone, Copy, Debug, PartialEq, Eq)]
enum Opening {
    /// `+`
    Plus,
    /// `-`
    Minus,
    /// `(`
    Group,
}

/// The level that begins at a place, if one does.
fn opening_at(text: &str, place: usize) -> Option<Opening>
    requires { place ≤ length text.now }
    ensures { IsOpeningAt text.now place result }
{
    match text.as_bytes().get(place) {
        Some(b'+') => Some(Opening::Plus),
        Some(b'-') => Some(Opening::Minus),
        Some(b'(') => Some(Opening::Group),
        _ => None,
    }
}

/// What an operand without signs and parentheses is.
#[derive(Clone, Copy, Debug, PartialEq, Eq)]
enum Atom {
    /// A number.
    Number,
    /// A name.
    Name,
}

/// What begins at a place, if a number or a name does.
fn atom_at(text: &str, place: usize) -> Option<Atom>
    requires { place ≤ length text.now }
    ensures { IsAtomAt text.now place result }
{
    let c = char::from(*text.as_bytes().get(place)?);
    if Class::Digit.has(c) || c == '.' {
        Some(Atom::Number)
    } else if Class::Name.has(c) {
        Some(Atom::Name)
    } else {
        None
    }
}

/// Adds the number or name at a place, and returns the place after it.
fn read_atom(
    out: &mut Vec<Node>,
    text: &str,
    place: usize,
    allowed: VarSet,
) -> Result<usize, ExprError>
    requires place { IsCharBoundary text.now place }
    requires length { length text.now < 2 ^ 32 }
    requires no_level { Stops opens (drop place text.now) }
    ensures read { IfOk result (IsRead (IsAtom allowed) text.now place out.old.items out.new.items) }
    ensures fault { IfFault result (FailsAt (NoAtom allowed) text.now place) }
{
    match atom_at(text, place) {
        Some(Atom::Number) => {
            let (value, end) = read_number(text, place)?;
            out.push(Node::Number(value))?;
            Ok(end)
        }
        Some(Atom::Name) => {
            let (var, end) = read_variable(text, place, allowed)?;
            out.push(Node::Variable(var))?;
            Ok(end)
        }
        None => Err(fault(place, ExprKind::Syntax)),
    }
}

/// The place after the `)` at a place.
fn close(text: &str, place: usize) -> Result<usize, ExprError>
    requires place { IsCharBoundary text.now place }
    requires length { length text.now < 2 ^ 32 }
    ensures mark { IfOk result (λ end. IsMark 41 (drop place text.now) (drop end text.now)) }
    ensures later { IfOk result (IsPlace text.now place) }
    ensures fault { IfFault result (FailsAt IsOpen text.now place) }
{
    if !text[place..].starts_with(')') {
        return Err(fault(place, ExprKind::Syntax));
    }
    Ok(skip_white(text, place + 1))
}

/// Adds the operand at a place, with at most this many levels in it, and returns the place after it.
#[cycle(grammar)]
fn read_unary(
    out: &mut Vec<Node>,
    text: &str,
    place: usize,
    allowed: VarSet,
    levels: u32,
) -> Result<usize, ExprError>
    requires place { IsCharBoundary text.now place }
    requires length { length text.now < 2 ^ 32 }
    ensures read { IfOk result (IsRead (IsUnary allowed levels) text.now place out.old.items out.new.items) }
    ensures fault { IfFault result (FailsAt (NoUnary allowed levels) text.now place) }
{
    let Some(opening) = opening_at(text, place) else {
        return read_atom(out, text, place, allowed);
    };
    if levels == 0 {
        return Err(fault(place, ExprKind::TooDeep));
    }
    let inside = skip_white(text, place + 1);
    match opening {
        Opening::Plus => read_unary(out, text, inside, allowed, levels - 1),
        Opening::Minus => {
            let end = read_unary(out, text, inside, allowed, levels - 1)?;
            out.push(Node::Negation)?;
            Ok(end)
        }
        Opening::Group => {
            let end = read_sum(out, text, inside, allowed, levels - 1)?;
            close(text, end)
        }
    }
}

/// Adds the product at a place, and returns the place after it.
#[cycle(grammar)]
fn read_product(
    out: &mut Vec<Node>,
    text: &str,
    place: usize,
    allowed: VarSet,
    levels: u32,
) -> Result<usize, ExprError>
    requires place { IsCharBoundary text.now place }
    requires length { length text.now < 2 ^ 32 }
    ensures read { IfOk result (IsRead (IsProduct (IsUnary allowed levels)) text.now place out.old.items out.new.items) }
    ensures fault { IfFault result (FailsAt (NoProduct (IsUnary allowed levels) (NoUnary allowed levels)) text.now place) }
{
    let mut end = read_unary(out, text, place, allowed, levels)?;
    'operands: while let Some(operator) = product_operator(text, end) {
        let operand = skip_white(text, end + 1);
        end = read_unary(out, text, operand, allowed, levels)?;
        out.push(Node::Binary(operator))?;
    }
    Ok(end)
}

/// Adds the sum at a place, and returns the place after it.
#[cycle(grammar)]
fn read_sum(
    out: &mut Vec<Node>,
    text: &str,
    place: usize,
    allowed: VarSet,
    levels: u32,
) -> Result<usize, ExprError>
    requires place { IsCharBoundary text.now place }
    requires length { length text.now < 2 ^ 32 }
    ensures read { IfOk result (IsRead (IsSum (IsUnary allowed levels)) text.now place out.old.items out.new.items) }
    ensures fault { IfFault result (FailsAt (NoSum (IsUnary allowed levels) (NoUnary allowed levels)) text.now place) }
{
    let mut end = read_product(out, text, place, allowed, levels)?;
    'operands: while let Some(operator) = sum_operator(text, end) {
        let operand = skip_white(text, end + 1);
        end = read_product(out, text, operand, allowed, levels)?;
        out.push(Node::Binary(operator))?;
    }
    Ok(end)
}

/// The expression that a whole text says is added.
fn read_text(out: &mut Vec<Node>, text: &str, allowed: VarSet) -> Result<(), ExprError>
    requires { length text.now < 2 ^ 32 }
    ensures tree { OnOk result ((tree : Tree) × IsExpr allowed text.now tree × (out.new.items ≡ out.old.items ++ postfix tree)) }
    ensures fault { IfFault result (λ f. (bad : List ℕ) × IsExprFault allowed text.now f.kind bad × (f.at + length bad ≡ length text.now)) }
{
    let start = skip_white(text, 0);
    let end = read_sum(out, text, start, allowed, LEVELS)?;
    if end < text.len() {
        return Err(fault(end, ExprKind::Syntax));
    }
    Ok(())
}

/// The expression that a text says, with variables of a set.
///
/// A sum is products with `+` and `-` between them, a product is operands with `*` and `/` between them, and operators
/// of one level group from the left. An operand is a number, a name, a sum in parentheses, or an operand after a `-` or
/// `+`. A number is digits, with a `.` before some of them or not, and at most 18 on each side. A name is a letter or
/// `_`, then letters, digits and `_`. White space may be before, between and after these parts. The text has fewer
/// than 2^32 bytes.
///
/// # Errors
/// The first in reading order of these: `Syntax` at the first byte that no reading allows, or at the end; `UnknownName`
/// at the first byte of a name that isn't one of an allowed variable; `TooDeep` at the first byte of the 65th level of
/// parentheses and unary signs. Or out of memory.
pub fn parse(alloc: Global, text: &str, allowed: VarSet) -> Result<Expr, ExprError>
    requires { length text.now < 2 ^ 32 }
    ensures tree { IfOk result (IsExpr allowed text.now) }
    // What has a reading isn't refused, and has no other.
    ensures reads { (tree : Tree) → IsExpr allowed text.now tree → Gives (λ e. e ≡ tree) result }
    ensures fault { IfFault result (λ f. (bad : List ℕ) × IsExprFault allowed text.now f.kind bad × (f.at + length bad ≡ length text.now)) }
    // What has a fault isn't read, and has no other.
    ensures faulty { (kind : ExprKind) (bad : List ℕ) → IsExprFault allowed text.now kind bad → Refuses (IsFaultAt text.now kind bad) result }
{
    let mut nodes = Vec::new(alloc);
    read_text(&mut nodes, text, allowed)?;
    Ok(Expr::new(nodes))
}
