//! Expressions and their values.
use crate::fault::NoValue;
use crate::fraction::{Fraction, Operator};
use crate::row::evaluate;
use crate::values::Values;
use crate::vars::Var;
use std::marker::Model;

/// A node of a syntax tree.
#[derive(Clone, Copy, Debug, PartialEq, Eq)]
pub(crate) enum Node {
    /// A number.
    Number(Fraction),
    /// A variable.
    Variable(Var),
    /// A `-` before the part right before this node.
    Negation,
    /// An operator between the two parts right before this node.
    Binary(Operator),
}

/// An expression. Contracts see its syntax tree.
///
/// It is kept as the list of the tree's nodes, each after its parts: so neither reading nor evaluating nor dropping a
/// long sum goes as deep as the sum is long.
#[derive(Drop)]
pub struct Expr {
    nodes: Vec<Node>,
}

impl Model for Expr {
    ghost use Rattle.av_expr.specs.Trees.{Tree};
    ghost use Rattle.av_expr.specs.Kept.{tree_of, tree_code, IsKept};

    ghost Value = { Tree };

    ghost coded = { tree_code };

    ghost view = { λ e. tree_of e.nodes.items };

    ghost invariant = { λ e. IsKept e.nodes.items };
}

impl Expr {
    ghost use Rattle.std.specs.Prelude.{◌≡◌, IfOk, IfErr};
    ghost use Rattle.av_expr.specs.Fractions.{IsLowest};
    ghost use Rattle.av_expr.specs.Values.{IsValue, HasNone};
    ghost use Rattle.av_expr.specs.Kept.{tree_of, IsKept};
    ghost use Rattle.av_expr.specs.declared.fraction.Fraction.{Fraction};
    ghost use Rattle.av_expr.specs.declared.fault.NoValue.{NoValue};

    /// The expression with these nodes.
    pub(crate) fn new(nodes: Vec<Node>) -> Expr
        requires { IsKept nodes.items }
        ensures { result ≡ tree_of nodes.items }
    {
        Expr { nodes }
    }

    /// The value of the expression, in lowest terms, if its variables have these values.
    ///
    /// `a/b + c/d` is `(a*d + c*b) / (b*d)`, and so on, then reduced. It takes no memory.
    ///
    /// # Errors
    /// The first from left to right of these: `DivisionByZero` if a divisor is 0; `Overflow` if a product or sum before
    /// reduction, a negation, or the change of both signs that makes a denominator positive, leaves the 128 bits.
    pub fn eval(&self, values: &Values) -> Result<Fraction, NoValue>
        ensures value { IfOk result (IsValue values.now self.now) }
        // What has a value isn't refused, and has no other.
        ensures valued { (v : Fraction) → IsValue values.now self.now v → result ≡ Ok v }
        ensures none { IfErr result (HasNone values.now self.now) }
        // What has none isn't given one, and has no other reason.
        ensures valueless { (reason : NoValue) → HasNone values.now self.now reason → result ≡ Err reason }
        ensures lowest { IfOk result IsLowest }
    {
        evaluate(&self.nodes, values.table())
    }
}
