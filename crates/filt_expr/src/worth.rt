//! Expressions as options, and what they are worth.
ghost use Rattle.std.specs.Prelude.{◌≡◌, ◌<◌, ◌^◌, ◌↔◌, ℕ, List, Some, IsTrue, length, IfOk, IfErr};
ghost use Rattle.av_expr.specs.Trees.{Tree};
ghost use Rattle.av_expr.specs.Exprs.{IsExpr};
ghost use Rattle.av_expr.specs.Fractions.{IsLowest};
ghost use Rattle.av_expr.specs.Values.{value_of};
ghost use Rattle.av_expr.specs.declared.vars.Var.{Var};
ghost use Rattle.av_expr.specs.declared.fraction.Fraction.{Fraction};
ghost use Rattle.av_frame.specs.declared.refusals.ConfigError.TheVariants as config;
ghost use Rattle.filt_expr.specs.Worth.{set_of, vars_of, MeansExpr, IsWorth, IsWorthless};

use av_base::NoMemory;
use av_expr::{Expr, ExprError, Fraction, Values, Var, VarSet, parse};
use av_frame::ConfigError;
use std::alloc::Global;

/// What an expression is for. It decides which variables the expression may have.
#[derive(Clone, Copy)]
pub enum Role {
    /// The width of the output.
    Width,
    /// The height of the output.
    Height,
    /// A place in a picture.
    Place,
    /// A sample.
    Sample,
}

impl Role {
    /// The variables.
    fn variables(self) -> VarSet
        ensures { result ≡ set_of (vars_of self) }
    {
        match self {
            Role::Width => VarSet::of(&[Var::InW, Var::InH, Var::Hsub, Var::Vsub]),
            Role::Height => VarSet::of(&[Var::InW, Var::InH, Var::Hsub, Var::Vsub, Var::OutW]),
            Role::Place => VarSet::of(&[
                Var::InW,
                Var::InH,
                Var::Hsub,
                Var::Vsub,
                Var::OutW,
                Var::OutH,
            ]),
            Role::Sample => VarSet::of(&[Var::Val, Var::MinVal, Var::MaxVal, Var::NegVal]),
        }
    }
}

/// Replaces an option's expression by that of a text. False if the text is none, or has 2^32 bytes or more.
pub(crate) fn set_expr(
    alloc: Global,
    expr: &mut Expr,
    text: &str,
    role: Role,
) -> Result<bool, NoMemory>
    ensures taken { IfOk result (λ taken. IsTrue taken ↔ ((tree : Tree) × MeansExpr role text.now tree)) }
    ensures set { IfOk result (λ taken. IsTrue taken → MeansExpr role text.now expr.new) }
{
    if text.len() >= 1 << 32 {
        return Ok(false);
    }
    match parse(alloc, text, role.variables()) {
        Ok(read) => {
            *expr = read;
            Ok(true)
        }
        Err(ExprError::Fault(_)) => Ok(false),
        Err(ExprError::NoMemory) => Err(NoMemory),
    }
}

/// The expression of a text that is one.
pub(crate) fn default_expr(alloc: Global, text: &str, role: Role) -> Result<Expr, NoMemory>
    requires short { length text.now < 2 ^ 32 }
    requires means { (tree : Tree) × IsExpr (set_of (vars_of role)) text.now tree }
    ensures { IfOk result (MeansExpr role text.now) }
{
    match parse(alloc, text, role.variables()) {
        Ok(read) => Ok(read),
        Err(ExprError::Fault(_)) => unreachable!(),
        Err(ExprError::NoMemory) => Err(NoMemory),
    }
}

/// The value of an option's expression.
///
/// # Errors
/// `NoValue` with the option's number.
pub(crate) fn worth(expr: &Expr, values: &Values, option: u32) -> Result<Fraction, ConfigError>
    ensures ok { (f : Var → Fraction) → ((x : Var) → value_of values.now x ≡ f x) → IfOk result (IsWorth expr.now f) }
    ensures lowest { IfOk result IsLowest }
    ensures err { (f : Var → Fraction) → ((x : Var) → value_of values.now x ≡ f x) → IfErr result (λ e. (e ≡ config.NoValue option) × IsWorthless expr.now f) }
{
    match expr.eval(values) {
        Ok(value) => Ok(value),
        Err(_) => Err(ConfigError::NoValue { option }),
    }
}
