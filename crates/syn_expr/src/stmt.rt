//! Statements.

ghost use Rattle.reader_tree.specs.Forms.{seconds};
ghost use Rattle.proc_macro2.specs.Token.{Token};
ghost use Rattle.std.specs.Prelude.{Bool, List, MatchOption, false, option_map, ℕ, ◌≡◌};
ghost use Rattle.syn_expr.specs.Statements.{IsAlternative, IsStmt, bare_macro, block_stmt, called_macro, diverge_tree};
ghost use Rattle.syn_expr.specs.Statements.{local, local_init_tree, one_statement, statements, stmt_expr, stmt_local};
ghost use Rattle.syn_expr.specs.Statements.{stmt_macro};
ghost use Rattle.syn_grammar.specs.Gram as g;
ghost use Rattle.syn_grammar.specs.Kind as k;
ghost use Rattle.syn_grammar.specs.Name as n;
ghost use Rattle.syn_grammar.specs.Statements.{statement};
ghost use Rattle.syn_grammar.specs.Tree.{Tree as GivenTree};
ghost use Rattle.syn_part.specs.Kept.{IsKept};
ghost use Rattle.syn_part.specs.Leaves.{optional_tree};
ghost use Rattle.syn_part.specs.Shape.{IsShaped, may_choose};

use crate::expr::whole::form_of;
use crate::modifiers::LocalModifiers;
use reader_table::kind::Kind;
use reader_table::part::Part;
use reader_tree::tree::Tree;
use rust_leaf::ident::Ident;
use syn_part::leaf::Mark;
use syn_part::list::Turns;
use syn_part::sub::{MarkedType, Worded, as_worded, optional_as_marked_type};
use syn_part::take::{self, Choice, Choice5};
use syn_part::{inside, joined};

/// A statement of a block, or a lone `;`.
#[derive(Clone, Copy)]
pub enum BlockStmt<'t, 'a> {
    /// A lone `;`.
    Semi(Mark),
    /// A statement, as a form of the kind `AStatement`.
    Stmt(&'t Tree<'a>),
}

impl<'t, 'a> BlockStmt<'t, 'a> {
    /// What one of the turns of `Statements` is.
    pub fn of(tree: &'t Tree<'a>) -> Option<BlockStmt<'t, 'a>>
        ensures { MatchOption result ((test : List Token → Bool) (c : ℕ) (cs : List ℕ) (a : g.Gram)
            → may_choose a ≡ false → IsShaped tree.now (g.alt test (g.mark c cs) a) → ⊥)
            (λ x. tree.now ≡ block_stmt x) }
    {
        let Some(which) = take::chosen(tree) else {
            return None;
        };
        match which {
            Choice::First(inner) => match take::mark(inner) {
                Some(mark) => Some(BlockStmt::Semi(mark)),
                None => None,
            },
            Choice::Second(stmt) => Some(BlockStmt::Stmt(stmt)),
        }
    }
}

/// The value of a `let`: `= a else { .. }`.
#[derive(Clone, Copy)]
pub struct LocalInit<'t, 'a> {
    /// `=`
    pub eq_token: Mark,
    /// The value.
    pub expr: &'t Tree<'a>,
    /// `else` and a block, where the pattern may not fit.
    pub diverge: Option<Worded<'t, 'a>>,
}

// What stands behind `else`, if it does.
fn optional_as_diverge<'t, 'a>(tree: &'t Tree<'a>) -> Option<Option<Worded<'t, 'a>>>
    ensures { MatchOption result ((test : List Token → Bool) (p1 : List ℕ → Bool) (a2 : g.Gram) → IsShaped tree.now
        (g.alt test (g.called n.the_else (g.seq (g.word p1) a2)) g.nothing) → ⊥)
        (λ o. tree.now ≡ optional_tree diverge_tree o) }
{
    match take::optional(tree) {
        None => None,
        Some(None) => Some(None),
        Some(Some(inner)) => match inside::part(Part::Else, inner) {
            Some(inner) => match as_worded(inner) {
                Some(found) => Some(Some(found)),
                None => None,
            },
            None => None,
        },
    }
}

// The value of a `let`, as its parts.
fn as_local_init<'t, 'a>(tree: &'t Tree<'a>) -> Option<LocalInit<'t, 'a>>
    ensures { MatchOption result ((c1 : ℕ) (cs2 : List ℕ) (a3 : g.Gram) (t4 : List Token → Bool) (p5 : List ℕ → Bool)
        (a6 : g.Gram) → IsShaped tree.now (g.seq (g.mark c1 cs2) (g.seq (g.called n.the_value a3) (g.alt t4
        (g.called n.the_else (g.seq (g.word p5) a6)) g.nothing))) → ⊥)
        (λ x. tree.now ≡ local_init_tree x) }
{
    let Some((eq_token, expr, diverge)) = take::three(tree) else {
        return None;
    };
    let Some((eq_token, expr, diverge)) = joined::three(
        take::mark(eq_token),
        inside::part(Part::Value, expr),
        optional_as_diverge(diverge),
    ) else {
        return None;
    };
    Some(LocalInit {
        eq_token,
        expr,
        diverge,
    })
}

// The value of a `let`, where one stands.
fn optional_as_local_init<'t, 'a>(tree: &'t Tree<'a>) -> Option<Option<LocalInit<'t, 'a>>>
    ensures { MatchOption result ((test : List Token → Bool) (c1 : ℕ) (cs2 : List ℕ) (a3 : g.Gram)
        (t4 : List Token → Bool) (p5 : List ℕ → Bool) (a6 : g.Gram) → IsShaped tree.now (g.alt test
        (g.seq (g.mark c1 cs2) (g.seq (g.called n.the_value a3) (g.alt t4
        (g.called n.the_else (g.seq (g.word p5) a6)) g.nothing))) g.nothing) → ⊥)
        (λ x. tree.now ≡ optional_tree local_init_tree x) }
{
    match take::optional(tree) {
        None => None,
        Some(None) => Some(None),
        Some(Some(inner)) => match as_local_init(inner) {
            Some(found) => Some(Some(found)),
            None => None,
        },
    }
}

/// The statements of a block.
#[derive(Clone, Copy)]
pub struct Statements<'t, 'a> {
    /// Each, or a lone `;`, of which `BlockStmt` says which it is.
    pub stmts: Turns<'t, 'a>,
}

impl<'t, 'a> Statements<'t, 'a> {
    /// A tree of the kind `Statements`, as its parts. `None` only of trees that have another shape, or are
    /// kept as tokens alone. Statements that were read are never that.
    #[tactic(auto, unfolding(syn_grammar::specs::Table::table))]
    pub fn of(tree: &'t Tree<'a>) -> Option<Statements<'t, 'a>>
        ensures { MatchOption result (IsKept tree.now → IsShaped tree.now (g.ref k.Statements) → ⊥)
            (λ x. tree.now ≡ statements x) }
    {
        let Some(kept) = inside::kept(Kind::Statements, tree) else {
            return None;
        };
        let Some(stmts) = take::each_turn(kept) else {
            return None;
        };
        Some(Statements { stmts })
    }
}

/// A statement by itself.
#[derive(Clone, Copy)]
pub struct OneStatement<'t, 'a> {
    /// The statement, as a form of the kind `AStatement`.
    pub stmt: &'t Tree<'a>,
}

impl<'t, 'a> OneStatement<'t, 'a> {
    /// A tree of the kind `OneStatement`, as its parts. `None` only of trees that have another shape, or are
    /// kept as tokens alone. One that was read is never that.
    #[tactic(auto, unfolding(syn_grammar::specs::Table::table))]
    pub fn of(tree: &'t Tree<'a>) -> Option<OneStatement<'t, 'a>>
        ensures { MatchOption result (IsKept tree.now → IsShaped tree.now (g.ref k.OneStatement) → ⊥)
            (λ x. tree.now ≡ one_statement x) }
    {
        let Some(stmt) = inside::kept(Kind::OneStatement, tree) else {
            return None;
        };
        Some(OneStatement { stmt })
    }
}

/// A `let`, behind its attributes: `let a: T = b else { .. };`.
#[derive(Clone, Copy)]
pub struct Local<'t, 'a> {
    /// `let`
    pub let_token: &'a Ident,
    /// What stands beside its parts: nothing.
    pub modifiers: LocalModifiers,
    /// Its pattern.
    pub pat: &'t Tree<'a>,
    /// `:` and its type.
    pub ty: Option<MarkedType<'t, 'a>>,
    /// `=` and its value.
    pub init: Option<LocalInit<'t, 'a>>,
    /// `;`
    pub semi_token: Mark,
}

impl<'t, 'a> Local<'t, 'a> {
    /// A tree of the kind `ALet`, as its parts. `None` only of trees that have another shape, or are kept as
    /// tokens alone. One that was read is never that.
    #[tactic(auto, unfolding(syn_grammar::specs::Table::table))]
    pub fn of(tree: &'t Tree<'a>) -> Option<Local<'t, 'a>>
        ensures { MatchOption result (IsKept tree.now → IsShaped tree.now (g.ref k.ALet) → ⊥)
            (λ x. tree.now ≡ local x) }
    {
        let Some(kept) = inside::kept(Kind::ALet, tree) else {
            return None;
        };
        let Some((let_token, pat, ty, init, semi_token)) = take::five(kept) else {
            return None;
        };
        let Some((let_token, ty, init, semi_token)) = joined::four(
            take::word(let_token),
            optional_as_marked_type(ty),
            optional_as_local_init(init),
            take::mark(semi_token),
        ) else {
            return None;
        };
        Some(Local {
            let_token,
            modifiers: LocalModifiers {},
            pat,
            ty,
            init,
            semi_token,
        })
    }
}

/// A macro that is a statement by itself: `a! { b }`, `a! { b };`, `a!(b);`. In parentheses or brackets, and without a
/// `;`, it is an expression, the last of a block.
#[derive(Clone, Copy)]
pub struct StmtMacro<'t, 'a> {
    /// Its attributes.
    pub attrs: &'t Tree<'a>,
    /// The macro, as a form of the kind `AMacro`.
    pub mac: &'t Tree<'a>,
    /// `;`
    pub semi_token: Option<Mark>,
}

/// A `let` that is a statement.
#[derive(Clone, Copy)]
pub struct StmtLocal<'t, 'a> {
    /// Its attributes.
    pub attrs: &'t Tree<'a>,
    /// The `let`, as a form of the kind `ALet`.
    pub local: &'t Tree<'a>,
}

/// An expression that is a statement: `a;`. It is no macro by itself with a `;`, which is a `StmtMacro`.
#[derive(Clone, Copy)]
pub struct StmtExpr<'t, 'a> {
    /// Its attributes.
    pub attrs: &'t Tree<'a>,
    /// The expression.
    pub expr: &'t Tree<'a>,
    /// `;`
    pub semi_token: Option<Mark>,
}

/// A statement, by its form.
#[derive(Clone, Copy)]
pub enum Stmt<'t, 'a> {
    /// `let a = b;`
    Local(StmtLocal<'t, 'a>),
    /// An item, as a form of the kind `AnItem`.
    Item(&'t Tree<'a>),
    /// `a;`
    Expr(StmtExpr<'t, 'a>),
    /// `a! { b }`, `a!(b);`
    Macro(StmtMacro<'t, 'a>),
}

// A macro.
fn as_macro<'t, 'a>(tree: &'t Tree<'a>) -> Option<StmtMacro<'t, 'a>>
    ensures { MatchOption result ((a1 a2 : g.Gram) (test : List Token → Bool) (c3 : ℕ) (cs4 : List ℕ)
        → IsShaped tree.now (g.seq a1 (g.seq a2 (g.alt test (g.called n.the_semicolon (g.mark c3 cs4)) g.nothing)))
        → ⊥) (λ s. tree.now ≡ stmt_macro s) }
{
    let Some((attrs, mac, semi_token)) = take::three(tree) else {
        return None;
    };
    let Some(semi_token) = inside::optional_mark(Part::Semicolon, semi_token) else {
        return None;
    };
    Some(StmtMacro {
        attrs,
        mac,
        semi_token,
    })
}

// An expression.
fn as_expression<'t, 'a>(tree: &'t Tree<'a>) -> Option<StmtExpr<'t, 'a>>
    ensures { MatchOption result ((a1 a2 : g.Gram) (test : List Token → Bool) (c3 : ℕ) (cs4 : List ℕ)
        → IsShaped tree.now (g.seq (g.called n.the_attributes a1) (g.seq (g.called n.the_expression a2)
        (g.alt test (g.called n.the_semicolon (g.mark c3 cs4)) g.nothing))) → ⊥)
        (λ s. tree.now ≡ stmt_expr s) }
{
    let Some((attrs, expr, semi_token)) = take::three(tree) else {
        return None;
    };
    let Some((attrs, expr, semi_token)) = joined::three(
        inside::part(Part::Attributes, attrs),
        inside::part(Part::Expression, expr),
        inside::optional_mark(Part::Semicolon, semi_token),
    ) else {
        return None;
    };
    Some(StmtExpr {
        attrs,
        expr,
        semi_token,
    })
}

// The macro that an expression is, where it is nothing else.
#[tactic(auto, using(crate::proofs::Macros::macro_forms))]
fn bare_macro<'t, 'a>(tree: &'t Tree<'a>) -> Option<&'t Tree<'a>>
    ensures { option_map (λ x. x.now) result ≡ bare_macro tree.now }
{
    let Some((Kind::ExprMacro, mac)) = form_of(tree).alone() else {
        return None;
    };
    Some(mac)
}

// The macro that a statement's expression is, where it is nothing else and a `;` stands behind it.
fn called_macro<'t, 'a>(found: StmtExpr<'t, 'a>) -> Option<&'t Tree<'a>>
    ensures { option_map (λ x. x.now) result ≡ called_macro found.entry.expr.now found.entry.semi_token }
{
    match found.semi_token {
        Some(_) => bare_macro(found.expr),
        None => None,
    }
}

// A macro that is called, or else the expression.
#[tactic(auto, using(crate::proofs::Macros::calls))]
fn as_called<'t, 'a>(found: StmtExpr<'t, 'a>) -> Stmt<'t, 'a>
    ensures { (x : GivenTree) → x ≡ seconds 4 (stmt_expr found.entry) → IsAlternative x result }
{
    match called_macro(found) {
        Some(mac) => Stmt::Macro(StmtMacro {
            attrs: found.attrs,
            mac,
            semi_token: found.semi_token,
        }),
        None => Stmt::Expr(found),
    }
}

// A `let`.
fn as_local<'t, 'a>(tree: &'t Tree<'a>) -> Option<StmtLocal<'t, 'a>>
    ensures { MatchOption result ((a b : g.Gram) → IsShaped tree.now (g.seq a b) → ⊥)
        (λ s. tree.now ≡ stmt_local s) }
{
    let Some((attrs, local)) = take::pair(tree) else {
        return None;
    };
    Some(StmtLocal { attrs, local })
}

// What an alternative of a statement is.
fn as_stmt<'t, 'a>(tree: &'t Tree<'a>) -> Option<Stmt<'t, 'a>>
    ensures { MatchOption result (IsShaped tree.now statement → ⊥) (λ s. IsAlternative tree.now s) }
{
    let Some(which) = take::chosen5(tree) else {
        return None;
    };
    match which {
        Choice5::First(item) => Some(Stmt::Item(item)),
        Choice5::Second(inner) => match as_macro(inner) {
            Some(found) => Some(Stmt::Macro(found)),
            None => None,
        },
        Choice5::Third(inner) => match as_local(inner) {
            Some(found) => Some(Stmt::Local(found)),
            None => None,
        },
        Choice5::Fourth(item) => Some(Stmt::Item(item)),
        Choice5::Fifth(inner) => match as_expression(inner) {
            Some(found) => Some(as_called(found)),
            None => None,
        },
    }
}

impl<'t, 'a> Stmt<'t, 'a> {
    /// A tree of the kind `AStatement`, as its parts. `None` only of trees that have another shape.
    #[tactic(auto, unfolding(syn_grammar::specs::Table::table))]
    pub fn of(tree: &'t Tree<'a>) -> Option<Stmt<'t, 'a>>
        ensures { MatchOption result (IsShaped tree.now (g.ref k.AStatement) → ⊥) (λ s. IsStmt tree.now s) }
    {
        let Some(inner) = inside::node(Kind::AStatement, tree) else {
            return None;
        };
        as_stmt(inner)
    }
}
