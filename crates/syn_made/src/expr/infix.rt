//! Expressions with an operand on either side.

ghost use Rattle.std.specs.Prelude.{◌≡◌};
ghost use Rattle.syn_expr.specs.ExprInfix.{expr_assign, expr_binary};
ghost use Rattle.syn_made.specs.MadeExpr.{IsBinary};

use crate::expr::forms::Infix;
use crate::expr::ops::{bin_op_kind, is_binary};
use crate::forms::First;
use crate::to_tree::ToTree;
use crate::try_to_tree::TryToTree;
use reader_table::kind::Kind;
use reader_tree::arena::Arena;
use reader_tree::tree::Tree;
use std::alloc::AllocError;
use syn_expr::expr::infix::{ExprAssign, ExprBinary};

impl<'t, 'a> ToTree<'a> for ExprAssign<'t, 'a> {
    ghost tree = { expr_assign };

    fn to_tree(&self, arena: &'a Arena) -> Result<Tree<'a>, AllocError> {
        let own = First(self.eq_token);
        Infix(self.left, Kind::ExprAssign, own, self.right).to_tree(arena)
    }
}

impl<'t, 'a> TryToTree<'a> for ExprBinary<'t, 'a> {
    ghost says = { λ x tree. IsBinary x.op × (tree ≡ expr_binary x) };

    fn try_to_tree(&self, arena: &'a Arena) -> Result<Option<Tree<'a>>, AllocError> {
        if !is_binary(self.op) {
            return Ok(None);
        }
        let kind = bin_op_kind(self.op);
        let form = Infix(self.left, kind, self.op, self.right);
        Ok(Some(form.to_tree(arena)?))
    }
}
