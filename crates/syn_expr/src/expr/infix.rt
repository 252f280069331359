//! Expressions with an operand on either side.

ghost use Rattle.std.specs.Prelude.{MatchOption, ◌≡◌};
ghost use Rattle.syn_expr.specs.ExprInfix.{IsAssign, IsBinary, expr_assign, expr_binary};

use crate::expr::forms;
use crate::expr::ops::{BinOp, bin_op};
use reader_table::kind::Kind;
use reader_tree::tree::Tree;
use syn_part::leaf::Mark;
use syn_part::take;

/// An assignment: `a = b`.
#[derive(Clone, Copy)]
pub struct ExprAssign<'t, 'a> {
    /// What is assigned to.
    pub left: &'t Tree<'a>,
    /// `=`
    pub eq_token: Mark,
    /// The value.
    pub right: &'t Tree<'a>,
}

impl<'t, 'a> ExprAssign<'t, 'a> {
    /// A tree of the kind `ExprAssign` whose operator is `=`, as its parts. `None` only of trees that have
    /// another shape.
    #[tactic(auto, unfolding(syn_grammar::specs::Table::table), using(crate::proofs::ExprInfix::assign_infix))]
    pub fn of(tree: &'t Tree<'a>) -> Option<ExprAssign<'t, 'a>>
        ensures { MatchOption result (IsAssign tree.now → ⊥) (λ x. tree.now ≡ expr_assign x) }
    {
        let Some((left, Kind::ExprAssign, own, right)) = forms::infix(tree) else {
            return None;
        };
        let Some(eq_token) = take::kept(own) else {
            return None;
        };
        let Some(eq_token) = take::mark(eq_token) else {
            return None;
        };
        Some(ExprAssign {
            left,
            eq_token,
            right,
        })
    }
}

/// A binary operator: `a + b`, `a += b`.
#[derive(Clone, Copy)]
pub struct ExprBinary<'t, 'a> {
    /// Its left operand.
    pub left: &'t Tree<'a>,
    /// The operator.
    pub op: BinOp,
    /// Its right operand.
    pub right: &'t Tree<'a>,
}

impl<'t, 'a> ExprBinary<'t, 'a> {
    /// A form of a kind of binary operators, as its parts; an assignment by `=` is none. `None` only of trees
    /// that have another shape.
    #[tactic(auto, using(crate::proofs::ExprInfix::binary_infix))]
    pub fn of(tree: &'t Tree<'a>) -> Option<ExprBinary<'t, 'a>>
        ensures { MatchOption result (IsBinary tree.now → ⊥) (λ x. tree.now ≡ expr_binary x) }
    {
        let Some((left, kind, own, right)) = forms::infix(tree) else {
            return None;
        };
        let Some(op) = bin_op(kind, own) else {
            return None;
        };
        Some(ExprBinary { left, op, right })
    }
}
