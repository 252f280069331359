//! Expressions that stand by themselves, without an operand before or behind them, each read as a single form.

ghost use Rattle.syn_expr.specs.Blocks.{expr_array, expr_async, expr_block, expr_for_loop, expr_if, expr_loop};
ghost use Rattle.syn_expr.specs.Blocks.{expr_macro, expr_match, expr_path, expr_repeat, expr_unsafe, expr_while};
ghost use Rattle.syn_expr.specs.ExprAtoms.{expr_const, expr_continue, expr_infer, expr_lit, expr_try_block};
ghost use Rattle.syn_expr.specs.ExprWhole.{expr_paren, expr_tuple};
ghost use Rattle.syn_expr.specs.declared.expr.whole.ExprForm.TheVariants as exprs;

use crate::single_expr::SingleExpr;
use reader_tree::tree::Tree;
use syn_expr::blocks::{
    ExprArray, ExprAsync, ExprBlock, ExprForLoop, ExprIf, ExprLoop, ExprMacro, ExprMatch, ExprPath,
    ExprRepeat, ExprUnsafe, ExprWhile,
};
use syn_expr::expr::atoms::{ExprConst, ExprContinue, ExprInfer, ExprLit, ExprTryBlock};
use syn_expr::expr::whole::{ExprParen, ExprTuple};

impl<'a> SingleExpr<'a> for ExprArray<'a, 'a> {
    ghost form = { exprs.Array };

    ghost tree_of = { expr_array };

    fn expected() -> &'a str {
        "expected array"
    }

    fn of_form(tree: &'a Tree<'a>) -> Option<ExprArray<'a, 'a>> {
        match ExprArray::of(tree) {
            Some(found) => Some(found),
            None => None,
        }
    }
}

impl<'a> SingleExpr<'a> for ExprAsync<'a, 'a> {
    ghost form = { exprs.Async };

    ghost tree_of = { expr_async };

    fn expected() -> &'a str {
        "expected async block"
    }

    fn of_form(tree: &'a Tree<'a>) -> Option<ExprAsync<'a, 'a>> {
        match ExprAsync::of(tree) {
            Some(found) => Some(found),
            None => None,
        }
    }
}

impl<'a> SingleExpr<'a> for ExprBlock<'a, 'a> {
    ghost form = { exprs.Block };

    ghost tree_of = { expr_block };

    fn expected() -> &'a str {
        "expected block"
    }

    fn of_form(tree: &'a Tree<'a>) -> Option<ExprBlock<'a, 'a>> {
        match ExprBlock::of(tree) {
            Some(found) => Some(found),
            None => None,
        }
    }
}

impl<'a> SingleExpr<'a> for ExprConst<'a, 'a> {
    ghost form = { exprs.Const };

    ghost tree_of = { expr_const };

    fn expected() -> &'a str {
        "expected const block"
    }

    fn of_form(tree: &'a Tree<'a>) -> Option<ExprConst<'a, 'a>> {
        match ExprConst::of(tree) {
            Some(found) => Some(found),
            None => None,
        }
    }
}

impl<'a> SingleExpr<'a> for ExprContinue<'a> {
    ghost form = { exprs.Continue };

    ghost tree_of = { expr_continue };

    fn expected() -> &'a str {
        "expected `continue`"
    }

    fn of_form(tree: &'a Tree<'a>) -> Option<ExprContinue<'a>> {
        match ExprContinue::of(tree) {
            Some(found) => Some(found),
            None => None,
        }
    }
}

impl<'a> SingleExpr<'a> for ExprForLoop<'a, 'a> {
    ghost form = { exprs.ForLoop };

    ghost tree_of = { expr_for_loop };

    fn expected() -> &'a str {
        "expected `for` loop"
    }

    fn of_form(tree: &'a Tree<'a>) -> Option<ExprForLoop<'a, 'a>> {
        match ExprForLoop::of(tree) {
            Some(found) => Some(found),
            None => None,
        }
    }
}

impl<'a> SingleExpr<'a> for ExprIf<'a, 'a> {
    ghost form = { exprs.If };

    ghost tree_of = { expr_if };

    fn expected() -> &'a str {
        "expected `if`"
    }

    fn of_form(tree: &'a Tree<'a>) -> Option<ExprIf<'a, 'a>> {
        match ExprIf::of(tree) {
            Some(found) => Some(found),
            None => None,
        }
    }
}

impl<'a> SingleExpr<'a> for ExprInfer<'a> {
    ghost form = { exprs.Infer };

    ghost tree_of = { expr_infer };

    fn expected() -> &'a str {
        "expected `_`"
    }

    fn of_form(tree: &'a Tree<'a>) -> Option<ExprInfer<'a>> {
        match ExprInfer::of(tree) {
            Some(found) => Some(found),
            None => None,
        }
    }
}

impl<'a> SingleExpr<'a> for ExprLit<'a> {
    ghost form = { exprs.Lit };

    ghost tree_of = { expr_lit };

    fn expected() -> &'a str {
        "expected literal"
    }

    fn of_form(tree: &'a Tree<'a>) -> Option<ExprLit<'a>> {
        match ExprLit::of(tree) {
            Some(found) => Some(found),
            None => None,
        }
    }
}

impl<'a> SingleExpr<'a> for ExprLoop<'a, 'a> {
    ghost form = { exprs.Loop };

    ghost tree_of = { expr_loop };

    fn expected() -> &'a str {
        "expected `loop`"
    }

    fn of_form(tree: &'a Tree<'a>) -> Option<ExprLoop<'a, 'a>> {
        match ExprLoop::of(tree) {
            Some(found) => Some(found),
            None => None,
        }
    }
}

impl<'a> SingleExpr<'a> for ExprMacro<'a, 'a> {
    ghost form = { exprs.Macro };

    ghost tree_of = { expr_macro };

    fn expected() -> &'a str {
        "expected macro call"
    }

    fn of_form(tree: &'a Tree<'a>) -> Option<ExprMacro<'a, 'a>> {
        match ExprMacro::of(tree) {
            Some(found) => Some(found),
            None => None,
        }
    }
}

impl<'a> SingleExpr<'a> for ExprMatch<'a, 'a> {
    ghost form = { exprs.Match };

    ghost tree_of = { expr_match };

    fn expected() -> &'a str {
        "expected `match`"
    }

    fn of_form(tree: &'a Tree<'a>) -> Option<ExprMatch<'a, 'a>> {
        match ExprMatch::of(tree) {
            Some(found) => Some(found),
            None => None,
        }
    }
}

impl<'a> SingleExpr<'a> for ExprParen<'a, 'a> {
    ghost form = { exprs.Paren };

    ghost tree_of = { expr_paren };

    fn expected() -> &'a str {
        "expected expression in parentheses"
    }

    fn of_form(tree: &'a Tree<'a>) -> Option<ExprParen<'a, 'a>> {
        match ExprParen::of(tree) {
            Some(found) => Some(found),
            None => None,
        }
    }
}

impl<'a> SingleExpr<'a> for ExprPath<'a, 'a> {
    ghost form = { exprs.Path };

    ghost tree_of = { expr_path };

    fn expected() -> &'a str {
        "expected path"
    }

    fn of_form(tree: &'a Tree<'a>) -> Option<ExprPath<'a, 'a>> {
        match ExprPath::of(tree) {
            Some(found) => Some(found),
            None => None,
        }
    }
}

impl<'a> SingleExpr<'a> for ExprRepeat<'a, 'a> {
    ghost form = { exprs.Repeat };

    ghost tree_of = { expr_repeat };

    fn expected() -> &'a str {
        "expected array of one value"
    }

    fn of_form(tree: &'a Tree<'a>) -> Option<ExprRepeat<'a, 'a>> {
        match ExprRepeat::of(tree) {
            Some(found) => Some(found),
            None => None,
        }
    }
}

impl<'a> SingleExpr<'a> for ExprTryBlock<'a, 'a> {
    ghost form = { exprs.TryBlock };

    ghost tree_of = { expr_try_block };

    fn expected() -> &'a str {
        "expected try block"
    }

    fn of_form(tree: &'a Tree<'a>) -> Option<ExprTryBlock<'a, 'a>> {
        match ExprTryBlock::of(tree) {
            Some(found) => Some(found),
            None => None,
        }
    }
}

impl<'a> SingleExpr<'a> for ExprTuple<'a, 'a> {
    ghost form = { exprs.Tuple };

    ghost tree_of = { expr_tuple };

    fn expected() -> &'a str {
        "expected tuple"
    }

    #[tactic(auto, using(crate::proofs::Which::of_several))]
    fn of_form(tree: &'a Tree<'a>) -> Option<ExprTuple<'a, 'a>> {
        match ExprTuple::of(tree) {
            Some(found) => Some(found),
            None => None,
        }
    }
}

impl<'a> SingleExpr<'a> for ExprUnsafe<'a, 'a> {
    ghost form = { exprs.Unsafe };

    ghost tree_of = { expr_unsafe };

    fn expected() -> &'a str {
        "expected unsafe block"
    }

    fn of_form(tree: &'a Tree<'a>) -> Option<ExprUnsafe<'a, 'a>> {
        match ExprUnsafe::of(tree) {
            Some(found) => Some(found),
            None => None,
        }
    }
}

impl<'a> SingleExpr<'a> for ExprWhile<'a, 'a> {
    ghost form = { exprs.While };

    ghost tree_of = { expr_while };

    fn expected() -> &'a str {
        "expected `while` loop"
    }

    fn of_form(tree: &'a Tree<'a>) -> Option<ExprWhile<'a, 'a>> {
        match ExprWhile::of(tree) {
            Some(found) => Some(found),
            None => None,
        }
    }
}
