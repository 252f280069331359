//! Expressions that have, or may have, an operand before or behind them, each read as a single form.

ghost use Rattle.std.specs.Prelude.{◌≡◌, MatchOption, None, Some};
ghost use Rattle.syn_expr.specs.ExprInfix.{expr_assign, expr_binary};
ghost use Rattle.syn_expr.specs.ExprJumps.{expr_break, expr_range, expr_return, expr_yield};
ghost use Rattle.syn_expr.specs.ExprPostfix.{expr_await, expr_call, expr_cast, expr_field, expr_index};
ghost use Rattle.syn_expr.specs.ExprPostfix.{expr_method_call, expr_struct, expr_try};
ghost use Rattle.syn_expr.specs.ExprPrefix.{expr_attributed, expr_closure, expr_let, expr_raw_addr, expr_reference};
ghost use Rattle.syn_expr.specs.ExprPrefix.{expr_unary};
ghost use Rattle.syn_expr.specs.ExprWhole.{which};
ghost use Rattle.syn_expr.specs.declared.expr.whole.ExprForm.TheVariants as exprs;

use crate::single_expr::SingleExpr;
use reader_tree::tree::Tree;
use syn_expr::expr::infix::{ExprAssign, ExprBinary};
use syn_expr::expr::jumps::{ExprBreak, ExprRange, ExprReturn, ExprYield};
use syn_expr::expr::postfix::{
    ExprAwait, ExprCall, ExprCast, ExprField, ExprIndex, ExprMethodCall, ExprStruct, ExprTry,
};
use syn_expr::expr::prefix::{
    ExprAttributed, ExprClosure, ExprLet, ExprRawAddr, ExprReference, ExprUnary,
};
use syn_pat::patterns::RangeLimits;

impl<'a> SingleExpr<'a> for ExprAssign<'a, 'a> {
    ghost form = { exprs.Assign };

    ghost tree_of = { expr_assign };

    fn expected() -> &'a str {
        "expected assignment"
    }

    fn of_form(tree: &'a Tree<'a>) -> Option<ExprAssign<'a, 'a>> {
        match ExprAssign::of(tree) {
            Some(found) => Some(found),
            None => None,
        }
    }
}

impl<'a> SingleExpr<'a> for ExprAttributed<'a, 'a> {
    ghost form = { exprs.Attributed };

    ghost tree_of = { expr_attributed };

    fn expected() -> &'a str {
        "expected expression with attributes"
    }

    fn of_form(tree: &'a Tree<'a>) -> Option<ExprAttributed<'a, 'a>> {
        match ExprAttributed::of(tree) {
            Some(found) => Some(found),
            None => None,
        }
    }
}

impl<'a> SingleExpr<'a> for ExprAwait<'a, 'a> {
    ghost form = { exprs.Await };

    ghost tree_of = { expr_await };

    fn expected() -> &'a str {
        "expected `.await`"
    }

    fn of_form(tree: &'a Tree<'a>) -> Option<ExprAwait<'a, 'a>> {
        match ExprAwait::of(tree) {
            Some(found) => Some(found),
            None => None,
        }
    }
}

impl<'a> SingleExpr<'a> for ExprBinary<'a, 'a> {
    ghost form = { exprs.Binary };

    ghost tree_of = { expr_binary };

    fn expected() -> &'a str {
        "expected binary operation"
    }

    #[tactic(auto, using(crate::proofs::Which::of_operator))]
    fn of_form(tree: &'a Tree<'a>) -> Option<ExprBinary<'a, 'a>> {
        match ExprBinary::of(tree) {
            Some(found) => Some(found),
            None => None,
        }
    }
}

impl<'a> SingleExpr<'a> for ExprBreak<'a, 'a> {
    ghost form = { exprs.Break };

    ghost tree_of = { expr_break };

    fn expected() -> &'a str {
        "expected `break`"
    }

    #[tactic(auto, using(crate::proofs::Which::of_break))]
    fn of_form(tree: &'a Tree<'a>) -> Option<ExprBreak<'a, 'a>> {
        match ExprBreak::of(tree) {
            Some(found) => Some(found),
            None => None,
        }
    }
}

impl<'a> SingleExpr<'a> for ExprCall<'a, 'a> {
    ghost form = { exprs.Call };

    ghost tree_of = { expr_call };

    fn expected() -> &'a str {
        "expected function call"
    }

    fn of_form(tree: &'a Tree<'a>) -> Option<ExprCall<'a, 'a>> {
        match ExprCall::of(tree) {
            Some(found) => Some(found),
            None => None,
        }
    }
}

impl<'a> SingleExpr<'a> for ExprCast<'a, 'a> {
    ghost form = { exprs.Cast };

    ghost tree_of = { expr_cast };

    fn expected() -> &'a str {
        "expected cast"
    }

    fn of_form(tree: &'a Tree<'a>) -> Option<ExprCast<'a, 'a>> {
        match ExprCast::of(tree) {
            Some(found) => Some(found),
            None => None,
        }
    }
}

impl<'a> SingleExpr<'a> for ExprClosure<'a, 'a> {
    ghost form = { exprs.Closure };

    ghost tree_of = { expr_closure };

    fn expected() -> &'a str {
        "expected closure"
    }

    #[tactic(auto, using(crate::proofs::Which::of_closure))]
    fn of_form(tree: &'a Tree<'a>) -> Option<ExprClosure<'a, 'a>> {
        match ExprClosure::of(tree) {
            Some(found) => Some(found),
            None => None,
        }
    }
}

impl<'a> SingleExpr<'a> for ExprField<'a, 'a> {
    ghost form = { exprs.Field };

    ghost tree_of = { expr_field };

    fn expected() -> &'a str {
        "expected field access"
    }

    fn of_form(tree: &'a Tree<'a>) -> Option<ExprField<'a, 'a>> {
        match ExprField::of(tree) {
            Some(found) => Some(found),
            None => None,
        }
    }
}

impl<'a> SingleExpr<'a> for ExprIndex<'a, 'a> {
    ghost form = { exprs.Index };

    ghost tree_of = { expr_index };

    fn expected() -> &'a str {
        "expected index in brackets"
    }

    fn of_form(tree: &'a Tree<'a>) -> Option<ExprIndex<'a, 'a>> {
        match ExprIndex::of(tree) {
            Some(found) => Some(found),
            None => None,
        }
    }
}

impl<'a> SingleExpr<'a> for ExprLet<'a, 'a> {
    ghost form = { exprs.Let };

    ghost tree_of = { expr_let };

    fn expected() -> &'a str {
        "expected `let`"
    }

    fn of_form(tree: &'a Tree<'a>) -> Option<ExprLet<'a, 'a>> {
        match ExprLet::of(tree) {
            Some(found) => Some(found),
            None => None,
        }
    }
}

impl<'a> SingleExpr<'a> for ExprMethodCall<'a, 'a> {
    ghost form = { exprs.MethodCall };

    ghost tree_of = { expr_method_call };

    fn expected() -> &'a str {
        "expected method call"
    }

    fn of_form(tree: &'a Tree<'a>) -> Option<ExprMethodCall<'a, 'a>> {
        match ExprMethodCall::of(tree) {
            Some(found) => Some(found),
            None => None,
        }
    }
}

// A range, unless it is `..=` alone, whose tree is of no form. (`a..=` is no expression either, but its tree would be a
// range's.)
#[tactic(auto, using(crate::proofs::Which::ranges))]
fn with_operand<'a>(range: ExprRange<'a, 'a>) -> Option<ExprRange<'a, 'a>>
    ensures { MatchOption result (which (expr_range range.entry) ≡ None)
        (λ x. (which (expr_range x) ≡ Some exprs.Range) × (x ≡ range.entry)) }
{
    match range.limits {
        RangeLimits::HalfOpen(_) => Some(range),
        RangeLimits::Closed(_) => match range.start {
            Some(_) => Some(range),
            None => match range.end {
                Some(_) => Some(range),
                None => None,
            },
        },
    }
}

impl<'a> SingleExpr<'a> for ExprRange<'a, 'a> {
    ghost form = { exprs.Range };

    ghost tree_of = { expr_range };

    fn expected() -> &'a str {
        "expected range"
    }

    fn of_form(tree: &'a Tree<'a>) -> Option<ExprRange<'a, 'a>> {
        match ExprRange::of(tree) {
            Some(found) => with_operand(found),
            None => None,
        }
    }
}

impl<'a> SingleExpr<'a> for ExprRawAddr<'a, 'a> {
    ghost form = { exprs.RawAddr };

    ghost tree_of = { expr_raw_addr };

    fn expected() -> &'a str {
        "expected raw address"
    }

    fn of_form(tree: &'a Tree<'a>) -> Option<ExprRawAddr<'a, 'a>> {
        match ExprRawAddr::of(tree) {
            Some(found) => Some(found),
            None => None,
        }
    }
}

impl<'a> SingleExpr<'a> for ExprReference<'a, 'a> {
    ghost form = { exprs.Reference };

    ghost tree_of = { expr_reference };

    fn expected() -> &'a str {
        "expected reference"
    }

    fn of_form(tree: &'a Tree<'a>) -> Option<ExprReference<'a, 'a>> {
        match ExprReference::of(tree) {
            Some(found) => Some(found),
            None => None,
        }
    }
}

impl<'a> SingleExpr<'a> for ExprReturn<'a, 'a> {
    ghost form = { exprs.Return };

    ghost tree_of = { expr_return };

    fn expected() -> &'a str {
        "expected `return`"
    }

    #[tactic(auto, using(crate::proofs::Which::of_return))]
    fn of_form(tree: &'a Tree<'a>) -> Option<ExprReturn<'a, 'a>> {
        match ExprReturn::of(tree) {
            Some(found) => Some(found),
            None => None,
        }
    }
}

impl<'a> SingleExpr<'a> for ExprStruct<'a, 'a> {
    ghost form = { exprs.Struct };

    ghost tree_of = { expr_struct };

    fn expected() -> &'a str {
        "expected struct"
    }

    fn of_form(tree: &'a Tree<'a>) -> Option<ExprStruct<'a, 'a>> {
        match ExprStruct::of(tree) {
            Some(found) => Some(found),
            None => None,
        }
    }
}

impl<'a> SingleExpr<'a> for ExprTry<'a, 'a> {
    ghost form = { exprs.Try };

    ghost tree_of = { expr_try };

    fn expected() -> &'a str {
        "expected `?`"
    }

    fn of_form(tree: &'a Tree<'a>) -> Option<ExprTry<'a, 'a>> {
        match ExprTry::of(tree) {
            Some(found) => Some(found),
            None => None,
        }
    }
}

impl<'a> SingleExpr<'a> for ExprUnary<'a, 'a> {
    ghost form = { exprs.Unary };

    ghost tree_of = { expr_unary };

    fn expected() -> &'a str {
        "expected unary operation"
    }

    fn of_form(tree: &'a Tree<'a>) -> Option<ExprUnary<'a, 'a>> {
        match ExprUnary::of(tree) {
            Some(found) => Some(found),
            None => None,
        }
    }
}

impl<'a> SingleExpr<'a> for ExprYield<'a, 'a> {
    ghost form = { exprs.Yield };

    ghost tree_of = { expr_yield };

    fn expected() -> &'a str {
        "expected `yield`"
    }

    #[tactic(auto, using(crate::proofs::Which::of_yield))]
    fn of_form(tree: &'a Tree<'a>) -> Option<ExprYield<'a, 'a>> {
        match ExprYield::of(tree) {
            Some(found) => Some(found),
            None => None,
        }
    }
}
