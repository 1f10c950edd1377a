use crate::tests::{ALL, fraction, read};
use crate::{Fraction, NoValue, Values, Var, VarSet};
use std::alloc::Global;

/// The greatest and the lowest number of 128 bits.
const MAX: i128 = 170141183460469231731687303715884105727;

const MIN: i128 = -170141183460469231731687303715884105728;

/// A text of the greatest number.
const MAX_TEXT: &str =
    "170141183460469231*100000000000000000*10000 + 731687303715884*1000000 + 105727";

const MIN_TEXT: &str =
    "-(170141183460469231*100000000000000000*10000 + 731687303715884*1000000 + 105727) - 1";

/// The variables of the rows: `N` is the greatest number, `PTS` the lowest, `w` a third and `h` 0.
fn edges(alloc: Global) -> Option<Values> {
    let mut values = Values::zero();
    values.set(Var::N, fraction(alloc, MAX_TEXT)?);
    values.set(Var::Pts, fraction(alloc, MIN_TEXT)?);
    values.set(Var::OverW, fraction(alloc, "1/3")?);
    Some(values)
}

/// What a text is worth at the edges; none if it isn't read.
fn worth(alloc: Global, text: &str) -> Option<Result<Fraction, NoValue>> {
    match read(alloc, text, ALL) {
        Ok(expr) => Some(expr.eval(&edges(alloc)?)),
        Err(_) => None,
    }
}

#[test]
fn steps_are_exact_to_the_edges_of_128_bits(rt: HostRuntime) {
    for (text, num, den) in [
        ("N", MAX, 1),
        ("PTS", MIN, 1),
        ("-N", MIN + 1, 1),
        ("-N-1", MIN, 1),
        ("N+0", MAX, 1),
        ("N*(1/N)", 1, 1),
        ("1/N", 1, MAX),
        ("2/PTS", -1, 85070591730234615865843651857942052864),
        ("PTS/PTS", 1, 1),
        ("PTS/1", MIN, 1),
    ] {
        assert!(rt; worth(rt.alloc(), text) == Some(Ok(Fraction { num, den })));
    }
}

#[test]
fn the_first_reason_is_named_from_left_to_right(rt: HostRuntime) {
    for (text, reason) in [
        ("-PTS", NoValue::Overflow),
        ("N+1", NoValue::Overflow),
        ("PTS-1", NoValue::Overflow),
        ("N+w", NoValue::Overflow),
        // The product overflows before it is reduced.
        ("N*2/2", NoValue::Overflow),
        ("1/PTS", NoValue::Overflow),
        ("PTS/-1", NoValue::Overflow),
        ("1/0", NoValue::DivisionByZero),
        ("1/h", NoValue::DivisionByZero),
        ("h/h", NoValue::DivisionByZero),
        ("N/0", NoValue::DivisionByZero),
        ("1/(w-1/3)", NoValue::DivisionByZero),
        ("0*(1/0)", NoValue::DivisionByZero),
        ("1/0+(N+1)", NoValue::DivisionByZero),
        ("(N+1)+1/0", NoValue::Overflow),
        ("(N+1)/0", NoValue::Overflow),
    ] {
        assert!(rt; worth(rt.alloc(), text) == Some(Err(reason)));
    }
}

#[test]
fn fractions_are_cut_towards_zero(rt: HostRuntime) {
    for (text, expected) in [
        ("0", 0),
        ("7/2", 3),
        ("-7/2", -3),
        ("1/2", 0),
        ("-1/2", 0),
        ("9", 9),
        ("-9", -9),
        ("-99/100", 0),
        (MAX_TEXT, MAX),
        (MIN_TEXT, MIN),
    ] {
        match fraction(rt.alloc(), text) {
            Some(value) => assert_eq!(rt; value.cut(), expected),
            None => assert!(rt; false),
        }
    }
}

#[test]
fn sets_have_the_variables_that_they_were_given(rt: HostRuntime) {
    let set = VarSet::of(&[Var::InW, Var::Tb, Var::InW]);
    assert_eq!(rt; set.bits, 1 | 1 << 17);
    assert!(rt; set.has(Var::Tb) && !set.has(Var::InH));
    assert_eq!(rt; set.with(Var::InH).bits, 3 | 1 << 17);
    assert_eq!(rt; VarSet::of(&[]), VarSet::NONE);
}
