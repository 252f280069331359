//! Expressions whose operands may be missing.

ghost use Rattle.std.specs.Prelude.{◌≡◌, ◌↔◌, IsTrue};
ghost use Rattle.syn_expr.specs.ExprJumps.{expr_break, expr_range, expr_return, expr_yield};
ghost use Rattle.syn_made.specs.MadeAst.{IsLimit, IsRangeEnd};

use crate::ast::patterns::is_limit;
use crate::expr::forms::{AnyForm, Jump};
use crate::expr::ops::{limits_kind, limits_mark};
use crate::forms::{Called, First, Second};
use crate::to_tree::ToTree;
use crate::try_to_tree::TryToTree;
use reader_table::kind::Kind;
use reader_table::part::Part;
use reader_tree::arena::Arena;
use reader_tree::tree::Tree;
use std::alloc::AllocError;
use syn_expr::expr::jumps::{ExprBreak, ExprRange, ExprReturn, ExprYield};
use syn_pat::patterns::RangeLimits;

impl<'t, 'a> ToTree<'a> for ExprBreak<'t, 'a> {
    ghost tree = { expr_break };

    fn to_tree(&self, arena: &'a Arena) -> Result<Tree<'a>, AllocError> {
        let word = self.break_token;
        match self.label {
            None => Jump(Kind::ExprBreak, (word, Second(())), self.expr).to_tree(arena),
            Some(label) => {
                let label = (Called(Part::Label, label), Second(()));
                Jump(Kind::ExprBreak, (word, First(label)), self.expr).to_tree(arena)
            }
        }
    }
}

impl<'t, 'a> ToTree<'a> for ExprReturn<'t, 'a> {
    ghost tree = { expr_return };

    fn to_tree(&self, arena: &'a Arena) -> Result<Tree<'a>, AllocError> {
        Jump(Kind::ExprReturn, self.return_token, self.expr).to_tree(arena)
    }
}

impl<'t, 'a> ToTree<'a> for ExprYield<'t, 'a> {
    ghost tree = { expr_yield };

    fn to_tree(&self, arena: &'a Arena) -> Result<Tree<'a>, AllocError> {
        Jump(Kind::ExprYield, self.yield_token, self.expr).to_tree(arena)
    }
}

// Whether a range may end there: behind `..=` an end stands.
fn is_range_end(limits: RangeLimits, end: Option<&Tree<'_>>) -> bool
    ensures { IsTrue result ↔ IsRangeEnd limits end.entry }
{
    match (limits, end) {
        (RangeLimits::HalfOpen(_), _) => true,
        (RangeLimits::Closed(_), Some(_)) => true,
        (RangeLimits::Closed(_), None) => false,
    }
}

impl<'t, 'a> TryToTree<'a> for ExprRange<'t, 'a> {
    ghost says = { λ x tree. IsLimit x.limits × IsRangeEnd x.limits x.end × (tree ≡ expr_range x) };

    fn try_to_tree(&self, arena: &'a Arena) -> Result<Option<Tree<'a>>, AllocError> {
        if !is_limit(self.limits) {
            return Ok(None);
        }
        if is_range_end(self.limits, self.end) {
            let kind = limits_kind(self.limits);
            let form = AnyForm(self.start, kind, limits_mark(self.limits), self.end);
            return Ok(Some(form.to_tree(arena)?));
        }
        Ok(None)
    }
}
