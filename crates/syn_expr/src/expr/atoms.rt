//! Expressions that stand by themselves; blocks and what is made of them stand elsewhere.

ghost use Rattle.std.specs.Prelude.{MatchOption, ◌≡◌};
ghost use Rattle.syn_expr.specs.ExprAtoms.{expr_const, expr_continue, expr_group, expr_infer, expr_lit};
ghost use Rattle.syn_expr.specs.ExprAtoms.{expr_try_block};
ghost use Rattle.syn_expr.specs.ExprForms.{IsAlone};
ghost use Rattle.syn_grammar.specs.Kind as k;

use crate::expr::forms;
use reader_table::kind::Kind;
use reader_tree::tree::Tree;
use rust_leaf::ident::Ident;
use syn_part::leaf::{Delimiters, Lifetime};
use syn_part::sub::{Lit, as_lit};
use syn_part::take;

/// A literal: `1`, `"a"`, `true`.
#[derive(Clone, Copy)]
pub struct ExprLit<'a> {
    /// The literal.
    pub lit: Lit<'a>,
}

impl<'a> ExprLit<'a> {
    /// A tree of the kind `ExprLit`, as its parts. `None` only of trees that have another shape.
    #[tactic(auto, unfolding(syn_grammar::specs::Table::table))]
    pub fn of(tree: &Tree<'a>) -> Option<ExprLit<'a>>
        ensures { MatchOption result (IsAlone tree.now k.ExprLit → ⊥) (λ x. tree.now ≡ expr_lit x) }
    {
        let Some((Kind::ExprLit, own)) = forms::alone(tree) else {
            return None;
        };
        let Some(lit) = as_lit(own) else {
            return None;
        };
        Some(ExprLit { lit })
    }
}

/// An expression in a group without delimiters.
#[derive(Clone, Copy)]
pub struct ExprGroup<'t, 'a> {
    /// The group.
    pub group_token: Delimiters,
    /// The expression.
    pub expr: &'t Tree<'a>,
}

impl<'t, 'a> ExprGroup<'t, 'a> {
    /// A tree of the kind `ExprGroup`, as its parts. `None` only of trees that have another shape.
    #[tactic(auto, unfolding(syn_grammar::specs::Table::table))]
    pub fn of(tree: &'t Tree<'a>) -> Option<ExprGroup<'t, 'a>>
        ensures { MatchOption result (IsAlone tree.now k.ExprGroup → ⊥) (λ x. tree.now ≡ expr_group x) }
    {
        let Some((Kind::ExprGroup, own)) = forms::alone(tree) else {
            return None;
        };
        let Some((group_token, expr)) = take::group(own) else {
            return None;
        };
        Some(ExprGroup { group_token, expr })
    }
}

/// A value that is to be inferred: `_`.
#[derive(Clone, Copy)]
pub struct ExprInfer<'a> {
    /// `_`
    pub underscore_token: &'a Ident,
}

impl<'a> ExprInfer<'a> {
    /// A tree of the kind `ExprInfer`, as its parts. `None` only of trees that have another shape.
    #[tactic(auto, unfolding(syn_grammar::specs::Table::table))]
    pub fn of(tree: &Tree<'a>) -> Option<ExprInfer<'a>>
        ensures { MatchOption result (IsAlone tree.now k.ExprInfer → ⊥) (λ x. tree.now ≡ expr_infer x) }
    {
        let Some((Kind::ExprInfer, own)) = forms::alone(tree) else {
            return None;
        };
        let Some(underscore_token) = take::word(own) else {
            return None;
        };
        Some(ExprInfer { underscore_token })
    }
}

/// A const block: `const { .. }`.
#[derive(Clone, Copy)]
pub struct ExprConst<'t, 'a> {
    /// `const`
    pub const_token: &'a Ident,
    /// The block.
    pub block: &'t Tree<'a>,
}

impl<'t, 'a> ExprConst<'t, 'a> {
    /// A tree of the kind `ExprConst`, as its parts. `None` only of trees that have another shape.
    #[tactic(auto, unfolding(syn_grammar::specs::Table::table))]
    pub fn of(tree: &'t Tree<'a>) -> Option<ExprConst<'t, 'a>>
        ensures { MatchOption result (IsAlone tree.now k.ExprConst → ⊥) (λ x. tree.now ≡ expr_const x) }
    {
        let Some((Kind::ExprConst, own)) = forms::alone(tree) else {
            return None;
        };
        let Some((const_token, block)) = take::pair(own) else {
            return None;
        };
        let Some(const_token) = take::word(const_token) else {
            return None;
        };
        Some(ExprConst { const_token, block })
    }
}

/// A try block: `try { .. }`.
#[derive(Clone, Copy)]
pub struct ExprTryBlock<'t, 'a> {
    /// `try`
    pub try_token: &'a Ident,
    /// The block.
    pub block: &'t Tree<'a>,
}

impl<'t, 'a> ExprTryBlock<'t, 'a> {
    /// A tree of the kind `ExprTryBlock`, as its parts. `None` only of trees that have another shape.
    #[tactic(auto, unfolding(syn_grammar::specs::Table::table))]
    pub fn of(tree: &'t Tree<'a>) -> Option<ExprTryBlock<'t, 'a>>
        ensures { MatchOption result (IsAlone tree.now k.ExprTryBlock → ⊥) (λ x. tree.now ≡ expr_try_block x) }
    {
        let Some((Kind::ExprTryBlock, own)) = forms::alone(tree) else {
            return None;
        };
        let Some((try_token, block)) = take::pair(own) else {
            return None;
        };
        let Some(try_token) = take::word(try_token) else {
            return None;
        };
        Some(ExprTryBlock { try_token, block })
    }
}

/// A loop's next turn: `continue 'a`.
#[derive(Clone, Copy)]
pub struct ExprContinue<'a> {
    /// `continue`
    pub continue_token: &'a Ident,
    /// The label.
    pub label: Option<Lifetime<'a>>,
}

impl<'a> ExprContinue<'a> {
    /// A tree of the kind `ExprContinue`, as its parts. `None` only of trees that have another shape.
    #[tactic(auto, unfolding(syn_grammar::specs::Table::table))]
    pub fn of(tree: &Tree<'a>) -> Option<ExprContinue<'a>>
        ensures { MatchOption result (IsAlone tree.now k.ExprContinue → ⊥) (λ x. tree.now ≡ expr_continue x) }
    {
        let Some((Kind::ExprContinue, own)) = forms::alone(tree) else {
            return None;
        };
        let Some((continue_token, label)) = take::pair(own) else {
            return None;
        };
        let Some(continue_token) = take::word(continue_token) else {
            return None;
        };
        let Some(label) = take::optional_lifetime(label) else {
            return None;
        };
        Some(ExprContinue {
            continue_token,
            label,
        })
    }
}
