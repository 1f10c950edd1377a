//! The values of an expression's variables.
use crate::fraction::Fraction;
use crate::vars::Var;
use std::marker::Model;

/// How many variables there are.
const COUNT: usize = 18;

/// A fraction for each variable. Contracts see the list of them, in the order of the variables.
#[derive(Drop)]
pub struct Values {
    table: [Fraction; COUNT],
}

impl Model for Values {
    ghost use Rattle.std.specs.Prelude.{List};
    ghost use Rattle.av_expr.specs.declared.fraction.Fraction.{Fraction};
    ghost use Rattle.av_expr.specs.Values.{AreLowest};

    ghost Value = { List Fraction };

    ghost view = { λ v. v.table };

    ghost invariant = { λ v. AreLowest v.table };
}

impl Values {
    ghost use Rattle.std.specs.Prelude.{◌≡◌, ◌≢◌, length};
    ghost use Rattle.av_expr.specs.declared.vars.Var.{Var};
    ghost use Rattle.av_expr.specs.Fractions.{IsLowest, zero_fraction};
    ghost use Rattle.av_expr.specs.Values.{value_of, AreLowest};

    /// 0/1 for each variable.
    pub fn zero() -> Values
        ensures { (var : Var) → value_of result var ≡ zero_fraction }
    {
        Values {
            table: [Fraction { num: 0, den: 1 }; COUNT],
        }
    }

    /// Sets the value of a variable: a fraction in lowest terms, with a positive denominator.
    pub fn set(&mut self, var: Var, value: Fraction)
        requires { IsLowest value }
        ensures here { value_of self.new var ≡ value }
        ensures others { (other : Var) → other ≢ var → value_of self.new other ≡ value_of self.old other }
    {
        self.table[var.order() as usize] = value;
    }

    /// The value of each variable, in the order of the variables.
    pub(crate) fn table(&self) -> &[Fraction]
        ensures same { result.now ≡ self.now }
        ensures length { length result.now ≡ 18 }
        ensures lowest { AreLowest result.now }
    {
        &self.table
    }
}
