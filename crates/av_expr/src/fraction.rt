//! Exact fractions, and what operators make of them.
ghost use Rattle.std.specs.Prelude.{◌≡◌, ◌≢◌, ◌<◌, ◌≤◌, ◌^◌, ℤ, pos, neg_ℤ, ◌*ℤ◌, ◌↔◌, IsTrue, IfOk, IfErr, IfSome, IsNone};
ghost use Rattle.std.specs.List.{AllByRecursion};
ghost use Rattle.std.specs.Int.{IsGcd};
ghost use Rattle.av_base.specs.Numbers.{signed_of};
ghost use Rattle.av_expr.specs.Fractions.{Fits, AreFitting, IsLowest, IsReduced, IsCut, IsNearest, IsNearestQuotient, above, below, made, DividesByZero, IsStep, NoStep, IsNegated, NoNegation};
ghost use Rattle.av_expr.specs.declared.fraction.Fraction.{Fraction};

use crate::fault::NoValue;
use av_base::greatest_divisor;

/// A fraction. It is in lowest terms if its parts have no common divisor and its denominator is positive.
#[derive(Clone, Copy, Debug, PartialEq, Eq)]
pub struct Fraction {
    /// The part above.
    pub num: i128,
    /// The part below.
    pub den: i128,
}

/// What joins two parts of an expression.
#[derive(Clone, Copy, Debug, PartialEq, Eq)]
pub enum Operator {
    /// `+`
    Plus,
    /// `-`
    Minus,
    /// `*`
    Times,
    /// `/`
    Over,
}

/// The number of this sign and size; none if it leaves the 128 bits.
fn signed(negative: bool, size: u128) -> Option<i128>
    ensures number { IfSome result (λ z. z ≡ signed_of negative size) }
    ensures none { IsNone result → ¬ Fits (signed_of negative size) }
{
    if negative {
        0i128.checked_sub_unsigned(size)
    } else {
        0i128.checked_add_unsigned(size)
    }
}

/// The fraction of two numbers in lowest terms, with a positive denominator; none if a part leaves the 128 bits.
pub(crate) fn reduce(num: i128, den: i128) -> Option<Fraction>
    requires { den ≢ pos 0 }
    ensures fraction { IfSome result (IsReduced num den) }
    ensures none { IsNone result → (f : Fraction) × IsReduced num den f × ¬ AreFitting f }
{
    let divisor = greatest_divisor(num.unsigned_abs(), den.unsigned_abs());
    let negative = (num < 0) != (den < 0);
    Some(Fraction {
        num: signed(negative, num.unsigned_abs() / divisor)?,
        den: signed(false, den.unsigned_abs() / divisor)?,
    })
}

/// The fraction of two sizes in lowest terms.
pub(crate) fn reduce_small(num: u128, den: u128) -> Fraction
    requires num { num < 2 ^ 127 }
    requires den { den < 2 ^ 127 }
    requires some { 0 < den }
    ensures { IsReduced (pos num) (pos den) result }
{
    match reduce(num as i128, den as i128) {
        Some(value) => value,
        None => unreachable!(),
    }
}

/// The two products `a*d` and `c*b`, and the product `b*d` of the denominators.
fn common_parts(a: Fraction, b: Fraction) -> Option<(i128, i128, i128)>
    ensures parts { IfSome result (λ p. (p.0 ≡ a.num *ℤ b.den) × (p.1 ≡ b.num *ℤ a.den) × (p.2 ≡ a.den *ℤ b.den)) }
    ensures none { IsNone result → Fits (a.num *ℤ b.den) → Fits (b.num *ℤ a.den) → ¬ Fits (a.den *ℤ b.den) }
{
    Some((
        a.num.checked_mul(b.den)?,
        b.num.checked_mul(a.den)?,
        a.den.checked_mul(b.den)?,
    ))
}

/// The quotient, rounded to the nearest whole number; of two that are as near, to the even one.
fn nearest_quotient(a: u128, b: u128) -> u128
    requires a { a ≤ 2 ^ 127 }
    requires b { b < 2 ^ 127 }
    requires some { 0 < b }
    ensures nearest { IsNearestQuotient a b result }
    ensures small { result ≤ a }
{
    let low = a / b;
    let rest = a % b;
    if rest > b - rest || (rest == b - rest && low % 2 == 1) {
        low + 1
    } else {
        low
    }
}

impl Operator {
    /// The parts of the result before it is reduced; none if a product or a sum leaves the 128 bits.
    fn parts(self, a: Fraction, b: Fraction) -> Option<(i128, i128)>
        ensures parts { IfSome result (λ p. AllByRecursion Fits (made self a b) × (p.0 ≡ above self a b) × (p.1 ≡ below self a b)) }
        ensures none { IsNone result → ¬ AllByRecursion Fits (made self a b) }
    {
        match self {
            Operator::Plus => {
                let (left, right, den) = common_parts(a, b)?;
                Some((left.checked_add(right)?, den))
            }
            Operator::Minus => {
                let (left, right, den) = common_parts(a, b)?;
                Some((left.checked_sub(right)?, den))
            }
            Operator::Times => Some((a.num.checked_mul(b.num)?, a.den.checked_mul(b.den)?)),
            Operator::Over => Some((a.num.checked_mul(b.den)?, a.den.checked_mul(b.num)?)),
        }
    }

    /// Whether the operator divides, by 0.
    fn divides_by_zero(self, b: Fraction) -> bool
        ensures { IsTrue result ↔ DividesByZero self b }
    {
        self == Operator::Over && b.num == 0
    }

    /// What the operator makes of two fractions.
    pub(crate) fn apply(self, a: Fraction, b: Fraction) -> Result<Fraction, NoValue>
        requires left { IsLowest a }
        requires right { IsLowest b }
        ensures value { IfOk result (IsStep self a b) }
        ensures none { IfErr result (NoStep self a b) }
    {
        if self.divides_by_zero(b) {
            return Err(NoValue::DivisionByZero);
        }
        let Some((num, den)) = self.parts(a, b) else {
            return Err(NoValue::Overflow);
        };
        match reduce(num, den) {
            Some(value) => Ok(value),
            None => Err(NoValue::Overflow),
        }
    }
}

impl Fraction {
    /// The fraction with the other sign.
    pub(crate) fn negated(self) -> Result<Fraction, NoValue>
        ensures value { IfOk result (IsNegated self) }
        ensures none { IfErr result (NoNegation self) }
    {
        match self.num.checked_neg() {
            Some(num) => Ok(Fraction { num, den: self.den }),
            None => Err(NoValue::Overflow),
        }
    }

    /// The whole number that is left when the part after the point is cut off: it is rounded towards zero.
    ///
    /// The fraction is in lowest terms, with a positive denominator.
    pub fn cut(self) -> i128
        requires { IsLowest self }
        ensures { IsCut self result }
    {
        self.num / self.den
    }

    /// The nearest whole number; of two that are as near, the even one.
    ///
    /// The fraction is in lowest terms, with a positive denominator.
    pub fn nearest(self) -> i128
        requires { IsLowest self }
        ensures { IsNearest self result }
    {
        let size = nearest_quotient(self.num.unsigned_abs(), self.den.unsigned_abs());
        match signed(self.num < 0, size) {
            Some(z) => z,
            None => unreachable!(),
        }
    }
}

impl Default for Fraction {
    ghost use Rattle.std.specs.Prelude.{◌≡◌};
    ghost use Rattle.av_expr.specs.Fractions.{zero_fraction};

    ghost is_default = { λ f. f ≡ zero_fraction };

    /// 0/1.
    fn default() -> Fraction {
        Fraction { num: 0, den: 1 }
    }
}
