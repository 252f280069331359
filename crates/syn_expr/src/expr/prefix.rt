//! Expressions with an operand behind them.

ghost use Rattle.proc_macro2.specs.Token.{Token};
ghost use Rattle.std.specs.Prelude.{Bool, List, MatchOption, ℕ, ◌≡◌, ◌⊎◌};
ghost use Rattle.syn_expr.specs.ExprForms.{IsAlone, IsFront};
ghost use Rattle.syn_expr.specs.ExprPrefix.{closure_head, closure_tree, expr_attributed, expr_closure, expr_let};
ghost use Rattle.syn_expr.specs.ExprPrefix.{expr_raw_addr, expr_reference, expr_unary};
ghost use Rattle.syn_grammar.specs.Expressions as entries;
ghost use Rattle.syn_grammar.specs.Gram as g;
ghost use Rattle.syn_grammar.specs.Kind as k;
ghost use Rattle.syn_part.specs.Leaves.{optional_tree, word_tree};
ghost use Rattle.syn_part.specs.Shape.{IsShaped};

use crate::expr::forms;
use crate::expr::ops::{UnOp, as_un_op};
use crate::modifiers::ClosureModifiers;
use reader_table::kind::Kind;
use reader_tree::tree::Tree;
use rust_leaf::ident::Ident;
use syn_part::leaf::Mark;
use syn_part::list::Elements;
use syn_part::{joined, take};

/// An expression with attributes: `#[a] b`.
#[derive(Clone, Copy)]
pub struct ExprAttributed<'t, 'a> {
    /// The first attribute.
    pub attr: &'t Tree<'a>,
    /// The others.
    pub attrs: &'t Tree<'a>,
    /// The expression.
    pub expr: &'t Tree<'a>,
}

impl<'t, 'a> ExprAttributed<'t, 'a> {
    /// A tree of the kind `ExprAttributed`, as its parts. `None` only of trees that have another shape.
    #[tactic(auto, unfolding(syn_grammar::specs::Table::table))]
    pub fn of(tree: &'t Tree<'a>) -> Option<ExprAttributed<'t, 'a>>
        ensures { MatchOption result (IsFront tree.now k.ExprAttributed → ⊥) (λ x. tree.now ≡ expr_attributed x) }
    {
        let Some((Kind::ExprAttributed, own, expr)) = forms::front(tree) else {
            return None;
        };
        let Some((attr, attrs)) = take::pair(own) else {
            return None;
        };
        Some(ExprAttributed { attr, attrs, expr })
    }
}

/// A unary operator before an operand: `!a`.
#[derive(Clone, Copy)]
pub struct ExprUnary<'t, 'a> {
    /// The operator.
    pub op: UnOp,
    /// Its operand.
    pub expr: &'t Tree<'a>,
}

impl<'t, 'a> ExprUnary<'t, 'a> {
    /// A tree of the kind `ExprUnary`, as its parts. `None` only of trees that have another shape.
    #[tactic(auto, unfolding(syn_grammar::specs::Table::table))]
    pub fn of(tree: &'t Tree<'a>) -> Option<ExprUnary<'t, 'a>>
        ensures { MatchOption result (IsFront tree.now k.ExprUnary → ⊥) (λ x. tree.now ≡ expr_unary x) }
    {
        let Some((Kind::ExprUnary, own, expr)) = forms::front(tree) else {
            return None;
        };
        let Some(op) = as_un_op(own) else {
            return None;
        };
        Some(ExprUnary { op, expr })
    }
}

/// A raw address: `&raw const a`.
#[derive(Clone, Copy)]
pub struct ExprRawAddr<'t, 'a> {
    /// `&`
    pub and_token: Mark,
    /// `raw`
    pub raw: &'a Ident,
    /// `const` or `mut`
    pub mutability: &'a Ident,
    /// Of what it is one.
    pub expr: &'t Tree<'a>,
}

impl<'t, 'a> ExprRawAddr<'t, 'a> {
    /// A tree of the kind `ExprRawAddr`, as its parts. `None` only of trees that have another shape.
    #[tactic(auto, unfolding(syn_grammar::specs::Table::table))]
    pub fn of(tree: &'t Tree<'a>) -> Option<ExprRawAddr<'t, 'a>>
        ensures { MatchOption result (IsFront tree.now k.ExprRawAddr → ⊥) (λ x. tree.now ≡ expr_raw_addr x) }
    {
        let Some((Kind::ExprRawAddr, own, expr)) = forms::front(tree) else {
            return None;
        };
        let Some((and_token, raw, mutability)) = take::three(own) else {
            return None;
        };
        let Some((and_token, raw, mutability)) = joined::three(
            take::mark(and_token),
            take::word(raw),
            take::word(mutability),
        ) else {
            return None;
        };
        Some(ExprRawAddr {
            and_token,
            raw,
            mutability,
            expr,
        })
    }
}

/// A reference: `&mut a`.
#[derive(Clone, Copy)]
pub struct ExprReference<'t, 'a> {
    /// `&`
    pub and_token: Mark,
    /// `mut`
    pub mutability: Option<&'a Ident>,
    /// What it refers to.
    pub expr: &'t Tree<'a>,
}

impl<'t, 'a> ExprReference<'t, 'a> {
    /// A tree of the kind `ExprReference`, as its parts. `None` only of trees that have another shape.
    #[tactic(auto, unfolding(syn_grammar::specs::Table::table))]
    pub fn of(tree: &'t Tree<'a>) -> Option<ExprReference<'t, 'a>>
        ensures { MatchOption result (IsFront tree.now k.ExprReference → ⊥) (λ x. tree.now ≡ expr_reference x) }
    {
        let Some((Kind::ExprReference, own, expr)) = forms::front(tree) else {
            return None;
        };
        let Some((and_token, mutability)) = take::pair(own) else {
            return None;
        };
        let Some(and_token) = take::mark(and_token) else {
            return None;
        };
        let Some(mutability) = take::optional_word(mutability) else {
            return None;
        };
        Some(ExprReference {
            and_token,
            mutability,
            expr,
        })
    }
}

/// A condition by a pattern: `let a = b`.
#[derive(Clone, Copy)]
pub struct ExprLet<'t, 'a> {
    /// `let`
    pub let_token: &'a Ident,
    /// The pattern.
    pub pat: &'t Tree<'a>,
    /// `=`
    pub eq_token: Mark,
    /// The value.
    pub expr: &'t Tree<'a>,
}

impl<'t, 'a> ExprLet<'t, 'a> {
    /// A tree of the kind `ExprLet`, as its parts. `None` only of trees that have another shape.
    #[tactic(auto, unfolding(syn_grammar::specs::Table::table))]
    pub fn of(tree: &'t Tree<'a>) -> Option<ExprLet<'t, 'a>>
        ensures { MatchOption result (IsFront tree.now k.ExprLet → ⊥) (λ x. tree.now ≡ expr_let x) }
    {
        let Some((Kind::ExprLet, own, expr)) = forms::front(tree) else {
            return None;
        };
        let Some((let_token, pat, eq_token)) = take::three(own) else {
            return None;
        };
        let Some(let_token) = take::word(let_token) else {
            return None;
        };
        let Some(eq_token) = take::mark(eq_token) else {
            return None;
        };
        Some(ExprLet {
            let_token,
            pat,
            eq_token,
            expr,
        })
    }
}

/// What stands before a closure's body.
#[derive(Clone, Copy)]
pub struct ClosureHead<'t, 'a> {
    /// The lifetimes that it binds.
    pub lifetimes: Option<&'t Tree<'a>>,
    /// `const`
    pub constness: Option<&'a Ident>,
    /// `static`
    pub movability: Option<&'a Ident>,
    /// `async`
    pub asyncness: Option<&'a Ident>,
    /// `move`
    pub capture: Option<&'a Ident>,
    /// `|`
    pub or1_token: Mark,
    /// Its parameters.
    pub inputs: Elements<'t, 'a>,
    /// `|`
    pub or2_token: Mark,
}

// What stands before the body of a closure, as its parts.
fn as_closure_head<'t, 'a>(tree: &'t Tree<'a>) -> Option<ClosureHead<'t, 'a>>
    ensures { MatchOption result (IsShaped tree.now entries.expr_closure → ⊥) (λ h. tree.now ≡ closure_head h) }
{
    let Some((lifetimes, constness, movability, asyncness, capture, or1_token, inputs, or2_token)) =
        take::eight(tree) else {
        return None;
    };
    let Some((lifetimes, words, others, or1_token, inputs, or2_token)) = joined::six(
        take::optional(lifetimes),
        two_words(constness, movability),
        two_words(asyncness, capture),
        take::mark(or1_token),
        take::list(inputs),
        take::mark(or2_token),
    ) else {
        return None;
    };
    let (constness, movability) = words;
    let (asyncness, capture) = others;
    Some(ClosureHead {
        lifetimes,
        constness,
        movability,
        asyncness,
        capture,
        or1_token,
        inputs,
        or2_token,
    })
}

/// A closure: `move |a, b| c`, `|a| -> T { .. }`.
#[derive(Clone, Copy)]
pub struct ExprClosure<'t, 'a> {
    /// The lifetimes that it binds: `for<'a>`.
    pub lifetimes: Option<&'t Tree<'a>>,
    /// `const`
    pub constness: Option<&'a Ident>,
    /// `static`
    pub movability: Option<&'a Ident>,
    /// `async`
    pub asyncness: Option<&'a Ident>,
    /// `move`
    pub capture: Option<&'a Ident>,
    /// What stands beside its parts: nothing.
    pub modifiers: ClosureModifiers,
    /// `|`
    pub or1_token: Mark,
    /// Its parameters, each as a form of the kind `ClosureParam`.
    pub inputs: Elements<'t, 'a>,
    /// `|`
    pub or2_token: Mark,
    /// What it returns, as a form of the kind `ReturnType`, where its body is a block behind that.
    pub output: Option<&'t Tree<'a>>,
    /// Its body: an expression, or behind a type a form of the kind `Block`.
    pub body: &'t Tree<'a>,
}

// A closure, from its parts.
fn closure<'t, 'a>(
    head: ClosureHead<'t, 'a>,
    output: Option<&'t Tree<'a>>,
    body: &'t Tree<'a>,
) -> ExprClosure<'t, 'a>
    ensures { expr_closure result ≡ closure_tree (closure_head head.entry) output.entry body.now }
{
    ExprClosure {
        lifetimes: head.lifetimes,
        constness: head.constness,
        movability: head.movability,
        asyncness: head.asyncness,
        capture: head.capture,
        modifiers: ClosureModifiers {},
        or1_token: head.or1_token,
        inputs: head.inputs,
        or2_token: head.or2_token,
        output,
        body,
    }
}

impl<'t, 'a> ExprClosure<'t, 'a> {
    // One that says no type.
    #[tactic(auto, unfolding(syn_grammar::specs::Table::table))]
    fn untyped(tree: &'t Tree<'a>) -> Option<ExprClosure<'t, 'a>>
        ensures { MatchOption result (IsFront tree.now k.ExprClosure → ⊥) (λ x. tree.now ≡ expr_closure x) }
    {
        let Some((Kind::ExprClosure, own, body)) = forms::front(tree) else {
            return None;
        };
        let Some(head) = as_closure_head(own) else {
            return None;
        };
        Some(closure(head, None, body))
    }

    // One that says a type.
    #[tactic(auto, unfolding(syn_grammar::specs::Table::table))]
    fn typed(tree: &'t Tree<'a>) -> Option<ExprClosure<'t, 'a>>
        ensures { MatchOption result (IsAlone tree.now k.ExprTypedClosure → ⊥) (λ x. tree.now ≡ expr_closure x) }
    {
        let Some((Kind::ExprTypedClosure, own)) = forms::alone(tree) else {
            return None;
        };
        let Some((head, output, body)) = take::three(own) else {
            return None;
        };
        let Some(head) = as_closure_head(head) else {
            return None;
        };
        Some(closure(head, Some(output), body))
    }

    /// A form of the kind `ExprClosure` or `ExprTypedClosure`, as its parts. `None` only of trees that have
    /// another shape.
    pub fn of(tree: &'t Tree<'a>) -> Option<ExprClosure<'t, 'a>>
        ensures { MatchOption result (IsFront tree.now k.ExprClosure ⊎ IsAlone tree.now k.ExprTypedClosure → ⊥)
            (λ x. tree.now ≡ expr_closure x) }
    {
        match ExprClosure::untyped(tree) {
            Some(found) => Some(found),
            None => ExprClosure::typed(tree),
        }
    }
}

// The words that stand at both places.
fn two_words<'a>(one: &Tree<'a>, other: &Tree<'a>) -> Option<(Option<&'a Ident>, Option<&'a Ident>)>
    ensures { MatchOption result ((t1 : List Token → Bool) (p2 : List ℕ → Bool) (t3 : List Token → Bool)
        (p4 : List ℕ → Bool) → IsShaped one.now (g.alt t1 (g.word p2) g.nothing)
        → IsShaped other.now (g.alt t3 (g.word p4) g.nothing) → ⊥)
        (λ w. (one.now ≡ optional_tree word_tree w.0) × (other.now ≡ optional_tree word_tree w.1)) }
{
    let Some(one) = take::optional_word(one) else {
        return None;
    };
    let Some(other) = take::optional_word(other) else {
        return None;
    };
    Some((one, other))
}
