//! Expressions whose operands may be missing.

ghost use Rattle.proc_macro2.specs.Token.{Token};
ghost use Rattle.std.specs.Prelude.{Bool, List, MatchOption, ◌≡◌, ◌⊎◌};
ghost use Rattle.syn_expr.specs.ExprForms.{IsForm, IsJump};
ghost use Rattle.syn_expr.specs.ExprJumps.{break_label_tree, expr_break, expr_range, expr_return, expr_yield};
ghost use Rattle.syn_grammar.specs.Gram as g;
ghost use Rattle.syn_grammar.specs.Kind as k;
ghost use Rattle.syn_grammar.specs.Name as n;
ghost use Rattle.syn_part.specs.Leaves.{optional_tree};
ghost use Rattle.syn_part.specs.Shape.{IsShaped};

use crate::expr::forms;
use crate::expr::ops::range_limits;
use reader_table::kind::Kind;
use reader_table::part::Part;
use reader_tree::tree::Tree;
use rust_leaf::ident::Ident;
use syn_part::leaf::Lifetime;
use syn_part::missing::nothing;
use syn_part::{inside, take};
use syn_pat::patterns::RangeLimits;

/// A loop or a block that is left: `break 'a b`.
#[derive(Clone, Copy)]
pub struct ExprBreak<'t, 'a> {
    /// `break`
    pub break_token: &'a Ident,
    /// The label.
    pub label: Option<Lifetime<'a>>,
    /// The value.
    pub expr: Option<&'t Tree<'a>>,
}

// The label behind `break`, where one stands.
fn as_break_label<'a>(tree: &Tree<'a>) -> Option<Option<Lifetime<'a>>>
    ensures { MatchOption result ((t1 t2 : List Token → Bool) → IsShaped tree.now (g.alt t1
        (g.seq (g.called n.the_label g.lifetime) (g.alt t2 g.never g.nothing)) g.nothing) → ⊥)
        (λ o. tree.now ≡ optional_tree break_label_tree o) }
{
    match take::optional(tree) {
        None => None,
        Some(None) => Some(None),
        Some(Some(inner)) => match whole_break_label(inner) {
            Some(label) => Some(Some(label)),
            None => None,
        },
    }
}

// One, behind which nothing stands.
#[tactic(auto, using(syn_part::proofs::Absent::never_or))]
fn whole_break_label<'a>(tree: &Tree<'a>) -> Option<Lifetime<'a>>
    ensures { MatchOption result ((t2 : List Token → Bool) → IsShaped tree.now
        (g.seq (g.called n.the_label g.lifetime) (g.alt t2 g.never g.nothing)) → ⊥)
        (λ l. tree.now ≡ break_label_tree l) }
{
    let Some((label, behind)) = take::pair(tree) else {
        return None;
    };
    let Some(label) = inside::part(Part::Label, label) else {
        return None;
    };
    if !nothing(behind) {
        return None;
    }
    take::lifetime(label)
}

impl<'t, 'a> ExprBreak<'t, 'a> {
    /// A tree of the kind `ExprBreak`, as its parts. `None` only of trees that have another shape.
    #[tactic(auto, unfolding(syn_grammar::specs::Table::table), using(crate::proofs::ExprJumps::jumps))]
    pub fn of(tree: &'t Tree<'a>) -> Option<ExprBreak<'t, 'a>>
        ensures { MatchOption result (IsJump tree.now k.ExprBreak → ⊥) (λ x. tree.now ≡ expr_break x) }
    {
        let Some((Kind::ExprBreak, own, expr)) = forms::jump(tree) else {
            return None;
        };
        let Some((break_token, label)) = take::pair(own) else {
            return None;
        };
        let Some(break_token) = take::word(break_token) else {
            return None;
        };
        let Some(label) = as_break_label(label) else {
            return None;
        };
        Some(ExprBreak {
            break_token,
            label,
            expr,
        })
    }
}

/// A function that is left: `return a`.
#[derive(Clone, Copy)]
pub struct ExprReturn<'t, 'a> {
    /// `return`
    pub return_token: &'a Ident,
    /// The value.
    pub expr: Option<&'t Tree<'a>>,
}

impl<'t, 'a> ExprReturn<'t, 'a> {
    /// A tree of the kind `ExprReturn`, as its parts. `None` only of trees that have another shape.
    #[tactic(auto, unfolding(syn_grammar::specs::Table::table), using(crate::proofs::ExprJumps::jumps))]
    pub fn of(tree: &'t Tree<'a>) -> Option<ExprReturn<'t, 'a>>
        ensures { MatchOption result (IsJump tree.now k.ExprReturn → ⊥) (λ x. tree.now ≡ expr_return x) }
    {
        let Some((Kind::ExprReturn, own, expr)) = forms::jump(tree) else {
            return None;
        };
        let Some(return_token) = take::word(own) else {
            return None;
        };
        Some(ExprReturn { return_token, expr })
    }
}

/// A value that is handed out: `yield a`.
#[derive(Clone, Copy)]
pub struct ExprYield<'t, 'a> {
    /// `yield`
    pub yield_token: &'a Ident,
    /// The value.
    pub expr: Option<&'t Tree<'a>>,
}

impl<'t, 'a> ExprYield<'t, 'a> {
    /// A tree of the kind `ExprYield`, as its parts. `None` only of trees that have another shape.
    #[tactic(auto, unfolding(syn_grammar::specs::Table::table), using(crate::proofs::ExprJumps::jumps))]
    pub fn of(tree: &'t Tree<'a>) -> Option<ExprYield<'t, 'a>>
        ensures { MatchOption result (IsJump tree.now k.ExprYield → ⊥) (λ x. tree.now ≡ expr_yield x) }
    {
        let Some((Kind::ExprYield, own, expr)) = forms::jump(tree) else {
            return None;
        };
        let Some(yield_token) = take::word(own) else {
            return None;
        };
        Some(ExprYield { yield_token, expr })
    }
}

/// A range: `..`, `a..`, `..b`, `a..=b`.
#[derive(Clone, Copy)]
pub struct ExprRange<'t, 'a> {
    /// Where it begins.
    pub start: Option<&'t Tree<'a>>,
    /// `..` or `..=`
    pub limits: RangeLimits,
    /// Where it ends.
    pub end: Option<&'t Tree<'a>>,
}

impl<'t, 'a> ExprRange<'t, 'a> {
    /// A form of the kind `ExprRange` or `ExprRangeClosed`, as its parts. `None` only of trees that have
    /// another shape.
    #[tactic(auto, using(crate::proofs::ExprJumps::range_limited))]
    pub fn of(tree: &'t Tree<'a>) -> Option<ExprRange<'t, 'a>>
        ensures { MatchOption result (IsForm tree.now k.ExprRange ⊎ IsForm tree.now k.ExprRangeClosed → ⊥)
            (λ x. tree.now ≡ expr_range x) }
    {
        let Some(form) = forms::any_form(tree) else {
            return None;
        };
        let Some(limits) = range_limits(form.kind, form.own) else {
            return None;
        };
        Some(ExprRange {
            start: form.left,
            limits,
            end: form.right,
        })
    }
}
