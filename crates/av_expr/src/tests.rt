ghost use Rattle.std.specs.Prelude.{IfSome};
ghost use Rattle.av_expr.specs.Fractions.{IsLowest};

use crate::{Expr, ExprError, ExprFault, ExprKind, Fraction, NoValue, Values, Var, VarSet, parse};
use std::alloc::Global;
use std::test::Fail;

/// Every variable is allowed.
pub(crate) const ALL: VarSet = VarSet { bits: 0x3_ffff };

/// The expression of a text, which isn't too long to have places.
pub(crate) fn read(alloc: Global, text: &str, allowed: VarSet) -> Result<Expr, ExprError> {
    if text.len() > 0xffff_ffff {
        return Err(ExprError::NoMemory);
    }
    parse(alloc, text, allowed)
}

/// What a text is worth if each of its variables is 0; none if it isn't read.
pub(crate) fn worth(alloc: Global, text: &str) -> Option<Result<Fraction, NoValue>> {
    match read(alloc, text, ALL) {
        Ok(expr) => Some(expr.eval(&Values::zero())),
        Err(_) => None,
    }
}

/// The value of a text, if it has one.
pub(crate) fn fraction(alloc: Global, text: &str) -> Option<Fraction>
    ensures { IfSome result IsLowest }
{
    let expr = read(alloc, text, ALL).ok()?;
    expr.eval(&Values::zero()).ok()
}

#[test]
fn texts_have_their_values(rt: HostRuntime) {
    for (text, num, den) in [
        ("0", 0, 1),
        ("1+2*3", 7, 1),
        ("2*3+1", 7, 1),
        ("(1+2)*3", 9, 1),
        ("7-2-3", 2, 1),
        ("7-(2-3)", 8, 1),
        ("12/3/2", 2, 1),
        ("12/(3/2)", 8, 1),
        ("2/6", 1, 3),
        ("1/2+1/3", 5, 6),
        ("1/2-1/3", 1, 6),
        ("1/3-1/2", -1, 6),
        ("2/-4", -1, 2),
        ("-2/-4", 1, 2),
        ("3/(1-3)", -3, 2),
        ("--1", 1, 1),
        ("-+-+1", 1, 1),
        ("- - -1", -1, 1),
        ("1--1", 2, 1),
        ("-1*-1", 1, 1),
        ("2*-3+4", -2, 1),
        (".5", 1, 2),
        ("0.25", 1, 4),
        ("1.500", 3, 2),
        (" \t1 \n+\r 2 ", 3, 1),
        ("( 1 + 2 ) * - ( 3 )", -9, 1),
        (
            "999999999999999999.999999999999999999",
            999999999999999999999999999999999999,
            1000000000000000000,
        ),
        ("000000000000000001", 1, 1),
        ("iw+2*N", 0, 1),
    ] {
        assert!(rt; worth(rt.alloc(), text) == Some(Ok(Fraction { num, den })));
    }
}

#[test]
fn the_first_fault_is_named_at_its_byte(rt: HostRuntime) {
    for (text, at, kind) in [
        ("", 0, ExprKind::Syntax),
        ("  ", 2, ExprKind::Syntax),
        ("1.", 2, ExprKind::Syntax),
        ("1. 5", 2, ExprKind::Syntax),
        (".", 1, ExprKind::Syntax),
        ("1 .5", 2, ExprKind::Syntax),
        ("1.5.5", 3, ExprKind::Syntax),
        ("1 2", 2, ExprKind::Syntax),
        ("w h", 2, ExprKind::Syntax),
        ("a b", 0, ExprKind::UnknownName),
        ("1a", 1, ExprKind::Syntax),
        ("1+a$", 2, ExprKind::UnknownName),
        ("w$", 1, ExprKind::Syntax),
        ("1+", 2, ExprKind::Syntax),
        ("1+ ", 3, ExprKind::Syntax),
        ("1+*2", 2, ExprKind::Syntax),
        ("*1", 0, ExprKind::Syntax),
        ("(1", 2, ExprKind::Syntax),
        ("(1 2", 3, ExprKind::Syntax),
        ("1)", 1, ExprKind::Syntax),
        ("()", 1, ExprKind::Syntax),
        ("2(3)", 1, ExprKind::Syntax),
        ("é", 0, ExprKind::Syntax),
        ("1+é", 2, ExprKind::Syntax),
        ("1234567890123456789", 18, ExprKind::Syntax),
        ("0.1234567890123456789", 20, ExprKind::Syntax),
        ("1+unknown*$", 2, ExprKind::UnknownName),
        ("Iw", 0, ExprKind::UnknownName),
    ] {
        match read(rt.alloc(), text, ALL) {
            Err(error) => assert_eq!(rt; error, ExprError::Fault(ExprFault { at, kind })),
            Ok(_) => assert!(rt; false),
        }
    }
}

/// A text of opening marks, a number, and as many closing marks, if there are any.
fn nested(alloc: Global, open: char, levels: u32, close: &str) -> Result<String, Fail> {
    let mut text = String::new(alloc);
    for _ in 0..levels {
        text.push(open)?;
    }
    text.push('1')?;
    for _ in 0..levels {
        text.push_str(close)?;
    }
    Ok(text)
}

#[test]
fn sixty_four_levels_are_read_and_one_more_is_too_deep(rt: HostRuntime) -> Result<(), Fail> {
    for (open, close) in [('(', ")"), ('-', ""), ('+', "")] {
        let text = nested(rt.alloc(), open, 64, close)?;
        assert!(rt; worth(rt.alloc(), text.as_str()) == Some(Ok(Fraction { num: 1, den: 1 })));
        let text = nested(rt.alloc(), open, 65, close)?;
        match read(rt.alloc(), text.as_str(), ALL) {
            Err(error) => {
                let kind = ExprKind::TooDeep;
                assert_eq!(rt; error, ExprError::Fault(ExprFault { at: 64, kind }));
            }
            Ok(_) => assert!(rt; false),
        }
    }
    Ok(())
}

#[test]
fn long_sums_are_read_and_evaluated(rt: HostRuntime) -> Result<(), Fail> {
    let mut text = String::from_str(rt.alloc(), "1")?;
    for _ in 0..32767 {
        text.push_str("+1")?;
    }
    assert!(rt; worth(rt.alloc(), text.as_str()) == Some(Ok(Fraction { num: 32768, den: 1 })));
    Ok(())
}

/// Whether a name spells this variable, and is unknown if the variable isn't allowed.
fn is_spelled(alloc: Global, text: &str, var: Var) -> bool {
    let only = VarSet::of(&[var]);
    let bits = ALL.bits & !only.bits;
    let Some(value) = fraction(alloc, "-7/3") else {
        return false;
    };
    let mut values = Values::zero();
    values.set(var, value);
    let Ok(expr) = read(alloc, text, only) else {
        return false;
    };
    let Err(ExprError::Fault(fault)) = read(alloc, text, VarSet { bits }) else {
        return false;
    };
    let unknown = ExprFault {
        at: 0,
        kind: ExprKind::UnknownName,
    };
    expr.eval(&values) == Ok(Fraction { num: -7, den: 3 }) && fault == unknown
}

#[test]
fn each_variable_has_its_spellings(rt: HostRuntime) {
    for (text, var) in [
        ("iw", Var::InW),
        ("in_w", Var::InW),
        ("ih", Var::InH),
        ("in_h", Var::InH),
        ("ow", Var::OutW),
        ("out_w", Var::OutW),
        ("oh", Var::OutH),
        ("out_h", Var::OutH),
        ("hsub", Var::Hsub),
        ("vsub", Var::Vsub),
        ("W", Var::MainW),
        ("main_w", Var::MainW),
        ("H", Var::MainH),
        ("main_h", Var::MainH),
        ("w", Var::OverW),
        ("overlay_w", Var::OverW),
        ("h", Var::OverH),
        ("overlay_h", Var::OverH),
        ("val", Var::Val),
        ("minval", Var::MinVal),
        ("maxval", Var::MaxVal),
        ("negval", Var::NegVal),
        ("PTS", Var::Pts),
        ("STARTPTS", Var::StartPts),
        ("N", Var::N),
        ("TB", Var::Tb),
    ] {
        assert!(rt; is_spelled(rt.alloc(), text, var));
    }
}
