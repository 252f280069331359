//! Expressions with an operand behind them.

ghost use Rattle.std.specs.Prelude.{◌≡◌};
ghost use Rattle.syn_expr.specs.ExprPrefix.{closure_head, closure_tree, expr_attributed, expr_closure, expr_let};
ghost use Rattle.syn_expr.specs.ExprPrefix.{expr_raw_addr, expr_reference, expr_unary};
ghost use Rattle.syn_made.specs.MadeExpr.{IsUnary};

use crate::expr::ops::is_unary;
use crate::put::{alone, front};
use crate::to_tree::ToTree;
use crate::try_to_tree::TryToTree;
use reader_table::kind::Kind;
use reader_tree::arena::Arena;
use reader_tree::tree::Tree;
use std::alloc::AllocError;
use syn_expr::expr::prefix::{
    ClosureHead, ExprAttributed, ExprClosure, ExprLet, ExprRawAddr, ExprReference, ExprUnary,
};

impl<'t, 'a> ToTree<'a> for ExprAttributed<'t, 'a> {
    ghost tree = { expr_attributed };

    fn to_tree(&self, arena: &'a Arena) -> Result<Tree<'a>, AllocError> {
        front(
            arena,
            Kind::ExprAttributed,
            &(self.attr, self.attrs),
            self.expr,
        )
    }
}

impl<'t, 'a> TryToTree<'a> for ExprUnary<'t, 'a> {
    ghost says = { λ x tree. IsUnary x.op × (tree ≡ expr_unary x) };

    fn try_to_tree(&self, arena: &'a Arena) -> Result<Option<Tree<'a>>, AllocError> {
        if !is_unary(self.op) {
            return Ok(None);
        }
        Ok(Some(front(arena, Kind::ExprUnary, &self.op, self.expr)?))
    }
}

impl<'t, 'a> ToTree<'a> for ExprRawAddr<'t, 'a> {
    ghost tree = { expr_raw_addr };

    fn to_tree(&self, arena: &'a Arena) -> Result<Tree<'a>, AllocError> {
        let own = (self.and_token, self.raw, self.mutability);
        front(arena, Kind::ExprRawAddr, &own, self.expr)
    }
}

impl<'t, 'a> ToTree<'a> for ExprReference<'t, 'a> {
    ghost tree = { expr_reference };

    fn to_tree(&self, arena: &'a Arena) -> Result<Tree<'a>, AllocError> {
        let own = (self.and_token, self.mutability);
        front(arena, Kind::ExprReference, &own, self.expr)
    }
}

impl<'t, 'a> ToTree<'a> for ExprLet<'t, 'a> {
    ghost tree = { expr_let };

    fn to_tree(&self, arena: &'a Arena) -> Result<Tree<'a>, AllocError> {
        let own = (self.let_token, self.pat, self.eq_token);
        front(arena, Kind::ExprLet, &own, self.expr)
    }
}

impl<'t, 'a> ToTree<'a> for ClosureHead<'t, 'a> {
    ghost tree = { closure_head };

    fn to_tree(&self, arena: &'a Arena) -> Result<Tree<'a>, AllocError> {
        let inputs = (self.or1_token, self.inputs, self.or2_token);
        let words = (self.movability, self.asyncness, self.capture, inputs);
        (self.lifetimes, self.constness, words).to_tree(arena)
    }
}

// What stands before a closure's body.
fn head<'t, 'a>(closure: &ExprClosure<'t, 'a>) -> ClosureHead<'t, 'a>
    ensures { expr_closure closure.now ≡ closure_tree (closure_head result) closure.now.output closure.now.body.now }
{
    ClosureHead {
        lifetimes: closure.lifetimes,
        constness: closure.constness,
        movability: closure.movability,
        asyncness: closure.asyncness,
        capture: closure.capture,
        or1_token: closure.or1_token,
        inputs: closure.inputs,
        or2_token: closure.or2_token,
    }
}

impl<'t, 'a> ToTree<'a> for ExprClosure<'t, 'a> {
    ghost tree = { expr_closure };

    fn to_tree(&self, arena: &'a Arena) -> Result<Tree<'a>, AllocError> {
        let head = head(self);
        match self.output {
            None => front(arena, Kind::ExprClosure, &head, self.body),
            Some(output) => { alone(arena, Kind::ExprTypedClosure, &(head, output, self.body)) }
        }
    }
}
