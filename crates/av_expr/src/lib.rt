//! Expressions of filter options, as exact fractions.
#![tactic(auto)]

mod atoms;
mod expr;
mod fault;
mod fraction;
mod law;
mod reader;
mod row;
mod values;
mod vars;

pub use expr::Expr;
pub use fault::{ExprError, ExprFault, ExprKind, NoValue};
pub use fraction::{Fraction, Operator};
pub use law::{expressions_have_one_reading, values_are_exact};
pub use reader::parse;
pub use values::Values;
pub use vars::{Var, VarSet};

#[cfg(test)]
mod tests;
#[cfg(test)]
mod value_tests;
