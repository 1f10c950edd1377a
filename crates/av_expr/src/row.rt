//! Evaluation of a list of nodes, over a row of values.
ghost use Rattle.std.specs.Prelude.{◌≡◌, ◌≤◌, reverse, length, ◌∷◌, IfOk, IfErr};
ghost use Rattle.std.specs.List.{AllByRecursion};
ghost use Rattle.av_expr.specs.Fractions.{IsLowest};
ghost use Rattle.av_expr.specs.Values.{AreLowest, IsValue, HasNone};
ghost use Rattle.av_expr.specs.Kept.{tree_of, IsKept};
ghost use Rattle.av_expr.specs.Nodes.{HasRoom, IsNodeStep, IsNodeFault};

use crate::expr::Node;
use crate::fault::NoValue;
use crate::fraction::Fraction;
use arrayvec::ArrayVec;

/// How many values are kept at a time: two for each of the 64 levels and for the text outside them, and the last one.
const ROW: usize = 131;

/// Takes the latest value.
fn take(row: &mut ArrayVec<Fraction, ROW>) -> Fraction
    requires { 1 ≤ length row.old.items }
    ensures { reverse row.old.items ≡ result ∷ reverse row.new.items }
{
    match row.pop() {
        Some(value) => value,
        None => unreachable!(),
    }
}

/// Evaluates one node.
fn step(node: Node, values: &[Fraction], row: &mut ArrayVec<Fraction, ROW>) -> Result<(), NoValue>
    requires length { length values.now ≡ 18 }
    requires room { HasRoom node (length row.old.items) }
    requires lowest { AllByRecursion IsLowest (reverse row.old.items) }
    ensures step { IfOk result (λ _. IsNodeStep values.now node (reverse row.old.items) (reverse row.new.items)) }
    ensures none { IfErr result (IsNodeFault values.now node (reverse row.old.items)) }
{
    let value = match node {
        Node::Number(value) => value,
        Node::Variable(var) => values[var.order() as usize],
        Node::Negation => take(row).negated()?,
        Node::Binary(operator) => {
            let right = take(row);
            let left = take(row);
            operator.apply(left, right)?
        }
    };
    row.push(value);
    Ok(())
}

/// The value of the tree whose nodes these are.
pub(crate) fn evaluate(nodes: &[Node], values: &[Fraction]) -> Result<Fraction, NoValue>
    requires kept { IsKept nodes.now }
    requires length { length values.now ≡ 18 }
    requires lowest { AreLowest values.now }
    ensures value { IfOk result (IsValue values.now (tree_of nodes.now)) }
    ensures none { IfErr result (HasNone values.now (tree_of nodes.now)) }
{
    let mut row = ArrayVec::<Fraction, ROW>::new();
    'nodes: for node in nodes {
        step(*node, values, &mut row)?;
    }
    Ok(take(&mut row))
}
