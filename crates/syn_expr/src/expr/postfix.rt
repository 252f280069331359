//! Expressions with an operand before them.

ghost use Rattle.proc_macro2.specs.Token.{Token};
ghost use Rattle.std.specs.Prelude.{Bool, List, MatchOption, ℕ, ◌≡◌};
ghost use Rattle.syn_expr.specs.ExprForms.{IsBack};
ghost use Rattle.syn_expr.specs.ExprPostfix.{dot_tree, expr_await, expr_call, expr_cast, expr_field, expr_index};
ghost use Rattle.syn_expr.specs.ExprPostfix.{expr_method_call, expr_struct, expr_try};
ghost use Rattle.syn_grammar.specs.Gram as g;
ghost use Rattle.syn_grammar.specs.Kind as k;
ghost use Rattle.syn_grammar.specs.Name as n;
ghost use Rattle.syn_part.specs.Shape.{IsShaped};

use crate::expr::forms;
use crate::expr::parts::as_field_member;
use crate::part;
use reader_table::kind::Kind;
use reader_table::part::Part;
use reader_tree::tree::Tree;
use rust_leaf::ident::Ident;
use syn_ast::paths::Member;
use syn_part::leaf::{Delimiters, Mark};
use syn_part::list::{Elements, Turns};
use syn_part::missing::nothing;
use syn_part::{inside, joined, take};

/// A dot, and the numbers behind it that end in one.
pub fn as_dot<'t, 'a>(tree: &'t Tree<'a>) -> Option<(Mark, Turns<'t, 'a>)>
    ensures { MatchOption result ((c1 : ℕ) (cs2 : List ℕ) (t3 : List Token → Bool) (a4 : g.Gram) → IsShaped tree.now
        (g.seq (g.mark c1 cs2) (g.called n.the_indices (g.star t3 a4))) → ⊥) (λ d. tree.now ≡ dot_tree d.0 d.1) }
{
    let Some((dot_token, indices)) = take::pair(tree) else {
        return None;
    };
    let Some((dot_token, indices)) = joined::two(take::mark(dot_token), part::indices(indices))
    else {
        return None;
    };
    Some((dot_token, indices))
}

/// A call: `a(b, c)`.
#[derive(Clone, Copy)]
pub struct ExprCall<'t, 'a> {
    /// What is called.
    pub func: &'t Tree<'a>,
    /// The parentheses.
    pub paren_token: Delimiters,
    /// The arguments.
    pub args: Elements<'t, 'a>,
}

impl<'t, 'a> ExprCall<'t, 'a> {
    /// A tree of the kind `ExprCall`, as its parts. `None` only of trees that have another shape.
    #[tactic(auto, unfolding(syn_grammar::specs::Table::table))]
    pub fn of(tree: &'t Tree<'a>) -> Option<ExprCall<'t, 'a>>
        ensures { MatchOption result (IsBack tree.now k.ExprCall → ⊥) (λ x. tree.now ≡ expr_call x) }
    {
        let Some((func, Kind::ExprCall, own)) = forms::back(tree) else {
            return None;
        };
        let Some((paren_token, args)) = part::list_in(own) else {
            return None;
        };
        Some(ExprCall {
            func,
            paren_token,
            args,
        })
    }
}

/// A method's call: `a.b::<T>(c)`.
#[derive(Clone, Copy)]
pub struct ExprMethodCall<'t, 'a> {
    /// Of what it is called.
    pub receiver: &'t Tree<'a>,
    /// `.`
    pub dot_token: Mark,
    /// The numbers that stand between it and the name, each with the `.` behind it: `0.` in `a.0. b`.
    pub indices: Turns<'t, 'a>,
    /// The method's name.
    pub method: &'a Ident,
    /// `::<T>`, as a form of the kind `Arguments`.
    pub turbofish: Option<&'t Tree<'a>>,
    /// The parentheses.
    pub paren_token: Delimiters,
    /// The arguments.
    pub args: Elements<'t, 'a>,
}

impl<'t, 'a> ExprMethodCall<'t, 'a> {
    /// A tree of the kind `ExprMethodCall`, as its parts. `None` only of trees that have another shape.
    #[tactic(auto, unfolding(syn_grammar::specs::Table::table))]
    pub fn of(tree: &'t Tree<'a>) -> Option<ExprMethodCall<'t, 'a>>
        ensures { MatchOption result (IsBack tree.now k.ExprMethodCall → ⊥) (λ x. tree.now ≡ expr_method_call x) }
    {
        let Some((receiver, Kind::ExprMethodCall, own)) = forms::back(tree) else {
            return None;
        };
        let Some((dot, method, turbofish, args)) = take::four(own) else {
            return None;
        };
        let Some((dot, method, turbofish, args)) = joined::four(
            as_dot(dot),
            inside::word(Part::Name, method),
            take::optional(turbofish),
            part::list_in(args),
        ) else {
            return None;
        };
        let (dot_token, indices) = dot;
        let (paren_token, args) = args;
        Some(ExprMethodCall {
            receiver,
            dot_token,
            indices,
            method,
            turbofish,
            paren_token,
            args,
        })
    }
}

/// A field: `a.b`.
#[derive(Clone, Copy)]
pub struct ExprField<'t, 'a> {
    /// Of what it is one.
    pub base: &'t Tree<'a>,
    /// `.`
    pub dot_token: Mark,
    /// The numbers that stand between it and the name, each with the `.` behind it: `0.` in `a.0. b`.
    pub indices: Turns<'t, 'a>,
    /// Its name, or its index; of `a.0.1` the number `0.1`, which is two indices.
    pub member: Member<'a>,
}

impl<'t, 'a> ExprField<'t, 'a> {
    /// A tree of the kind `ExprField`, as its parts. `None` only of trees that have another shape.
    #[tactic(auto, unfolding(syn_grammar::specs::Table::table))]
    pub fn of(tree: &'t Tree<'a>) -> Option<ExprField<'t, 'a>>
        ensures { MatchOption result (IsBack tree.now k.ExprField → ⊥) (λ x. tree.now ≡ expr_field x) }
    {
        let Some((base, Kind::ExprField, own)) = forms::back(tree) else {
            return None;
        };
        let Some((dot, member)) = take::pair(own) else {
            return None;
        };
        let Some((dot, member)) = joined::two(as_dot(dot), as_field_member(member)) else {
            return None;
        };
        let (dot_token, indices) = dot;
        Some(ExprField {
            base,
            dot_token,
            indices,
            member,
        })
    }
}

/// What is waited for: `a.await`.
#[derive(Clone, Copy)]
pub struct ExprAwait<'t, 'a> {
    /// What is waited for.
    pub base: &'t Tree<'a>,
    /// `.`
    pub dot_token: Mark,
    /// The numbers that stand between it and the name, each with the `.` behind it: `0.` in `a.0. b`.
    pub indices: Turns<'t, 'a>,
    /// `await`
    pub await_token: &'a Ident,
}

impl<'t, 'a> ExprAwait<'t, 'a> {
    /// A tree of the kind `ExprAwait`, as its parts. `None` only of trees that have another shape.
    #[tactic(auto, unfolding(syn_grammar::specs::Table::table))]
    pub fn of(tree: &'t Tree<'a>) -> Option<ExprAwait<'t, 'a>>
        ensures { MatchOption result (IsBack tree.now k.ExprAwait → ⊥) (λ x. tree.now ≡ expr_await x) }
    {
        let Some((base, Kind::ExprAwait, own)) = forms::back(tree) else {
            return None;
        };
        let Some((dot_token, await_token)) = take::pair(own) else {
            return None;
        };
        let Some((dot_token, indices)) = as_dot(dot_token) else {
            return None;
        };
        let Some(await_token) = take::word(await_token) else {
            return None;
        };
        Some(ExprAwait {
            base,
            dot_token,
            indices,
            await_token,
        })
    }
}

/// An element: `a[b]`.
#[derive(Clone, Copy)]
pub struct ExprIndex<'t, 'a> {
    /// Of what it is one.
    pub expr: &'t Tree<'a>,
    /// The brackets.
    pub bracket_token: Delimiters,
    /// Which one.
    pub index: &'t Tree<'a>,
}

impl<'t, 'a> ExprIndex<'t, 'a> {
    /// A tree of the kind `ExprIndex`, as its parts. `None` only of trees that have another shape.
    #[tactic(auto, unfolding(syn_grammar::specs::Table::table))]
    pub fn of(tree: &'t Tree<'a>) -> Option<ExprIndex<'t, 'a>>
        ensures { MatchOption result (IsBack tree.now k.ExprIndex → ⊥) (λ x. tree.now ≡ expr_index x) }
    {
        let Some((expr, Kind::ExprIndex, own)) = forms::back(tree) else {
            return None;
        };
        let Some((bracket_token, index)) = take::group(own) else {
            return None;
        };
        Some(ExprIndex {
            expr,
            bracket_token,
            index,
        })
    }
}

/// A value, or its fault passed on: `a?`.
#[derive(Clone, Copy)]
pub struct ExprTry<'t, 'a> {
    /// The value.
    pub expr: &'t Tree<'a>,
    /// `?`
    pub question_token: Mark,
}

impl<'t, 'a> ExprTry<'t, 'a> {
    /// A tree of the kind `ExprTry`, as its parts. `None` only of trees that have another shape.
    #[tactic(auto, unfolding(syn_grammar::specs::Table::table))]
    pub fn of(tree: &'t Tree<'a>) -> Option<ExprTry<'t, 'a>>
        ensures { MatchOption result (IsBack tree.now k.ExprTry → ⊥) (λ x. tree.now ≡ expr_try x) }
    {
        let Some((expr, Kind::ExprTry, own)) = forms::back(tree) else {
            return None;
        };
        let Some(question_token) = take::mark(own) else {
            return None;
        };
        Some(ExprTry {
            expr,
            question_token,
        })
    }
}

/// A struct: `A { b: c, ..d }`.
#[derive(Clone, Copy)]
pub struct ExprStruct<'t, 'a> {
    /// Its path, as an expression.
    pub path: &'t Tree<'a>,
    /// Its fields in their braces, as a form of the kind `FieldValues`.
    pub fields: &'t Tree<'a>,
}

impl<'t, 'a> ExprStruct<'t, 'a> {
    /// A tree of the kind `ExprStruct`, as its parts. `None` only of trees that have another shape.
    #[tactic(auto, unfolding(syn_grammar::specs::Table::table))]
    pub fn of(tree: &'t Tree<'a>) -> Option<ExprStruct<'t, 'a>>
        ensures { MatchOption result (IsBack tree.now k.ExprStruct → ⊥) (λ x. tree.now ≡ expr_struct x) }
    {
        let Some((path, Kind::ExprStruct, fields)) = forms::back(tree) else {
            return None;
        };
        Some(ExprStruct { path, fields })
    }
}

/// A cast: `a as T`.
#[derive(Clone, Copy)]
pub struct ExprCast<'t, 'a> {
    /// What is cast.
    pub expr: &'t Tree<'a>,
    /// `as`
    pub as_token: &'a Ident,
    /// The type.
    pub ty: &'t Tree<'a>,
}

impl<'t, 'a> ExprCast<'t, 'a> {
    /// A tree of the kind `ExprCast`, as its parts. `None` only of trees that have another shape.
    #[tactic(auto, unfolding(syn_grammar::specs::Table::table), using(syn_part::proofs::Absent::never_or))]
    pub fn of(tree: &'t Tree<'a>) -> Option<ExprCast<'t, 'a>>
        ensures { MatchOption result (IsBack tree.now k.ExprCast → ⊥) (λ x. tree.now ≡ expr_cast x) }
    {
        let Some((expr, Kind::ExprCast, own)) = forms::back(tree) else {
            return None;
        };
        let Some((as_token, ty, behind)) = take::three(own) else {
            return None;
        };
        let Some(as_token) = take::word(as_token) else {
            return None;
        };
        let Some(ty) = inside::part(Part::Type, ty) else {
            return None;
        };
        if !nothing(behind) {
            return None;
        }
        Some(ExprCast { expr, as_token, ty })
    }
}
