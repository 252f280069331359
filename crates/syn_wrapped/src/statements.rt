//! Statements, and blocks of them.

ghost use Rattle.reader_tree.specs.Forms.{turns};
ghost use Rattle.std.specs.Prelude.{◌≡◌, IfOk, map};
ghost use Rattle.syn_expr.specs.Statements.{IsStmt, block_stmt};
ghost use Rattle.syn_expr.specs.declared.stmt.Stmt.{Stmt as GivenStmt};
ghost use Rattle.syn_grammar.specs.Kind as k;
ghost use Rattle.syn_grammar.specs.Tree as t;
ghost use Rattle.syn_wrapped.specs.Statements.{IsToldAs, as_expression, chosen_macro, chosen_stmt, is_call};
ghost use Rattle.syn_wrapped.specs.Statements.{is_macro_form, is_macro_item};

use reader_table::kind::{Kind, Position};
use reader_table::part::Part;
use reader_tree::arena::Arena;
use reader_tree::made;
use reader_tree::tree::Tree;
use reader_verdicts::closing::ends_in_braces;
use std::alloc::AllocError;
use syn_expr::blocks::ExprMacro;
use syn_expr::stmt::{BlockStmt, Stmt, StmtExpr, StmtMacro};
use syn_made::expr::whole::expression;
use syn_made::forms::{First, Grouped, Node};
use syn_made::put::{behind, node, nth};
use syn_made::to_tree::ToTree;
use syn_part::leaf::Delimiters;

// Whether the form of an item is a macro that has a name behind its `!`.
#[tactic(auto, using(crate::proofs::StatementForms::macro_form_at))]
fn is_macro_form(form: &Tree<'_>) -> bool
    ensures { result ≡ is_macro_form form.now }
{
    match form.node() {
        Some((kind, inside)) => match kind {
            Kind::ItemMacro(_) => inside.has(Part::Name),
            _ => false,
        },
        None => false,
    }
}

// Whether an item is a macro with a name. Of a statement's alternatives that is the first, and the other items are the
// fourth.
#[tactic(auto, using(crate::proofs::StatementForms::macro_items))]
fn is_macro(item: &Tree<'_>) -> bool
    ensures { result ≡ is_macro_item item.now }
{
    let Some((_, inside)) = item.node() else {
        return false;
    };
    match inside.the(Part::Item) {
        Some(form) => is_macro_form(form.choice()),
        None => false,
    }
}

// Whether a macro is read as an expression.
fn is_call(found: &StmtMacro<'_, '_>) -> bool
    ensures { result ≡ is_call found.now.mac.now found.now.semi_token }
{
    match found.semi_token {
        Some(_) => !ends_in_braces(found.mac),
        None => false,
    }
}

// A macro as an expression of a statement.
fn as_expression<'a>(arena: &'a Arena, mac: &Tree<'a>) -> Result<Tree<'a>, AllocError>
    ensures { IfOk result (λ x. x ≡ as_expression mac.now) }
{
    let form = ExprMacro { mac }.to_tree(arena)?;
    expression(arena, Position::InStatement, form)
}

// Of a macro the alternative that it is.
fn macro_alternative<'a>(
    arena: &'a Arena,
    found: &StmtMacro<'_, 'a>,
) -> Result<Tree<'a>, AllocError>
    ensures { IfOk result (λ x. x ≡ chosen_macro found.now) }
{
    if !is_call(found) {
        return nth(arena, 1, found);
    }
    let expr = as_expression(arena, found.mac)?;
    let called = StmtExpr {
        attrs: found.attrs,
        expr: &expr,
        semi_token: found.semi_token,
    };
    behind(arena, 4, &called)
}

// Of a statement the alternative that it is.
fn alternative<'a>(arena: &'a Arena, stmt: &Stmt<'_, 'a>) -> Result<Tree<'a>, AllocError>
    ensures { IfOk result (λ x. x ≡ chosen_stmt stmt.now) }
{
    match stmt {
        Stmt::Item(item) if is_macro(item) => nth(arena, 0, item),
        Stmt::Item(item) => nth(arena, 3, item),
        Stmt::Macro(found) => macro_alternative(arena, found),
        Stmt::Local(found) => nth(arena, 2, found),
        Stmt::Expr(found) => behind(arena, 4, found),
    }
}

/// A statement as a form of the kind `AStatement`. `Stmt::of` answers the same statement of it; of a `Stmt::Expr` that
/// is a macro and nothing else, with a `;` behind it, it answers the `Stmt::Macro`, as it does where that is read.
///
/// # Errors
///
/// Where there is no memory for it.
pub fn statement<'a>(arena: &'a Arena, stmt: &Stmt<'_, 'a>) -> Result<Tree<'a>, AllocError>
    ensures same { IfOk result (λ x. x ≡ t.Node k.AStatement (chosen_stmt stmt.now)) }
    ensures says { IfOk result (λ x. (s : GivenStmt) → IsToldAs stmt.now s → IsStmt x s) }
{
    let inside = alternative(arena, stmt)?;
    made::node(arena, Kind::AStatement, inside)
}

// Trees of statements, in their order.
fn each<'a>(arena: &'a Arena, stmts: &[BlockStmt<'_, 'a>]) -> Result<Vec<Tree<'a>>, AllocError>
    ensures { IfOk result (λ xs. xs.items ≡ map block_stmt stmts.now) }
{
    let mut trees = Vec::new(arena.alloc());
    for stmt in stmts {
        trees.push(stmt.to_tree(arena)?)?;
    }
    Ok(trees)
}

/// A block of these statements, as a form of the kind `Block`.
///
/// # Errors
///
/// Where there is no memory for it.
pub fn block<'a>(
    arena: &'a Arena,
    brace_token: Delimiters,
    stmts: &[BlockStmt<'_, 'a>],
) -> Result<Tree<'a>, AllocError>
    ensures { IfOk result (λ x. x ≡ t.Node k.Block (t.Group brace_token.delimiter
        (t.Node k.Statements (t.First (turns (map block_stmt stmts.now)))))) }
{
    let stmts = made::turns(arena, each(arena, stmts)?)?;
    let stmts = Node(Kind::Statements, First(&stmts));
    node(arena, Kind::Block, &Grouped(brace_token, stmts))
}
