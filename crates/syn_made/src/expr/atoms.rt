//! Expressions that stand by themselves; blocks and what is made of them stand elsewhere.

ghost use Rattle.syn_expr.specs.ExprAtoms.{expr_const, expr_continue, expr_group, expr_infer, expr_lit};
ghost use Rattle.syn_expr.specs.ExprAtoms.{expr_try_block};

use crate::forms::Grouped;
use crate::put::alone;
use crate::to_tree::ToTree;
use reader_table::kind::Kind;
use reader_tree::arena::Arena;
use reader_tree::tree::Tree;
use std::alloc::AllocError;
use syn_expr::expr::atoms::{ExprConst, ExprContinue, ExprGroup, ExprInfer, ExprLit, ExprTryBlock};

impl<'a> ToTree<'a> for ExprLit<'a> {
    ghost tree = { expr_lit };

    fn to_tree(&self, arena: &'a Arena) -> Result<Tree<'a>, AllocError> {
        alone(arena, Kind::ExprLit, &self.lit)
    }
}

impl<'t, 'a> ToTree<'a> for ExprGroup<'t, 'a> {
    ghost tree = { expr_group };

    fn to_tree(&self, arena: &'a Arena) -> Result<Tree<'a>, AllocError> {
        alone(
            arena,
            Kind::ExprGroup,
            &Grouped(self.group_token, self.expr),
        )
    }
}

impl<'a> ToTree<'a> for ExprInfer<'a> {
    ghost tree = { expr_infer };

    fn to_tree(&self, arena: &'a Arena) -> Result<Tree<'a>, AllocError> {
        alone(arena, Kind::ExprInfer, &self.underscore_token)
    }
}

impl<'t, 'a> ToTree<'a> for ExprConst<'t, 'a> {
    ghost tree = { expr_const };

    fn to_tree(&self, arena: &'a Arena) -> Result<Tree<'a>, AllocError> {
        alone(arena, Kind::ExprConst, &(self.const_token, self.block))
    }
}

impl<'t, 'a> ToTree<'a> for ExprTryBlock<'t, 'a> {
    ghost tree = { expr_try_block };

    fn to_tree(&self, arena: &'a Arena) -> Result<Tree<'a>, AllocError> {
        alone(arena, Kind::ExprTryBlock, &(self.try_token, self.block))
    }
}

impl<'a> ToTree<'a> for ExprContinue<'a> {
    ghost tree = { expr_continue };

    fn to_tree(&self, arena: &'a Arena) -> Result<Tree<'a>, AllocError> {
        alone(
            arena,
            Kind::ExprContinue,
            &(self.continue_token, self.label),
        )
    }
}
