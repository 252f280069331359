//! What statements are made of; a statement among others stands in `syn_wrapped`.

ghost use Rattle.std.specs.Prelude.{◌≡◌, IfOk};
ghost use Rattle.syn_expr.specs.Statements.{block_stmt, one_statement, statements, stmt_expr, stmt_local, stmt_macro};
ghost use Rattle.syn_made.specs.MadeExpr.{closed_value, made_init, made_local, value_before};

use crate::expr::whole::expression;
use crate::forms::{Called, First, Second};
use crate::put::{behind, node, nth};
use crate::to_tree::ToTree;
use proc_macro2::delimiter::Delimiter;
use reader_table::kind::{Kind, Position};
use reader_table::part::Part;
use reader_tree::arena::Arena;
use reader_tree::tree::Tree;
use reader_verdicts::closing::ends_in_braces;
use rust_map::span::Span;
use std::alloc::AllocError;
use syn_expr::expr::whole::ExprParen;
use syn_expr::stmt::{
    BlockStmt, Local, LocalInit, OneStatement, Statements, StmtExpr, StmtLocal, StmtMacro,
};
use syn_part::leaf::Delimiters;
use syn_part::sub::Worded;

impl<'t, 'a> ToTree<'a> for BlockStmt<'t, 'a> {
    ghost tree = { block_stmt };

    fn to_tree(&self, arena: &'a Arena) -> Result<Tree<'a>, AllocError> {
        match self {
            BlockStmt::Semi(mark) => nth(arena, 0, mark),
            BlockStmt::Stmt(stmt) => behind(arena, 1, stmt),
        }
    }
}

// A value in parentheses where it ends in braces.
fn closed_value<'a>(arena: &'a Arena, value: &Tree<'a>) -> Result<Tree<'a>, AllocError>
    ensures { IfOk result (λ x. x ≡ closed_value value.now) }
{
    if !ends_in_braces(value) {
        return Ok(value.copy());
    }
    let paren_token = Delimiters {
        delimiter: Delimiter::Parenthesis,
        span: Span::call_site(),
    };
    let form = ExprParen {
        paren_token,
        expr: value,
    }
    .to_tree(arena)?;
    expression(arena, Position::Plain, form)
}

// The value of a `let`, as it stands before `else`, if one stands behind it.
fn value_before<'a>(
    arena: &'a Arena,
    diverge: Option<Worded<'_, 'a>>,
    value: &Tree<'a>,
) -> Result<Tree<'a>, AllocError>
    ensures { IfOk result (λ x. x ≡ value_before diverge.entry value.now) }
{
    match diverge {
        None => Ok(value.copy()),
        Some(_) => closed_value(arena, value),
    }
}

// The grammar has no `else` behind a value that ends in braces, as `S { }`: in parentheses it ends otherwise.
impl<'t, 'a> ToTree<'a> for LocalInit<'t, 'a> {
    ghost tree = { made_init };

    fn to_tree(&self, arena: &'a Arena) -> Result<Tree<'a>, AllocError> {
        let value = value_before(arena, self.diverge, self.expr)?;
        let value = Called(Part::Value, &value);
        match self.diverge {
            None => (self.eq_token, value, Second(())).to_tree(arena),
            Some(diverge) => {
                (self.eq_token, value, First(Called(Part::Else, diverge))).to_tree(arena)
            }
        }
    }
}

impl<'t, 'a> ToTree<'a> for Statements<'t, 'a> {
    ghost tree = { statements };

    fn to_tree(&self, arena: &'a Arena) -> Result<Tree<'a>, AllocError> {
        node(arena, Kind::Statements, &First(self.stmts))
    }
}

impl<'t, 'a> ToTree<'a> for OneStatement<'t, 'a> {
    ghost tree = { one_statement };

    fn to_tree(&self, arena: &'a Arena) -> Result<Tree<'a>, AllocError> {
        node(arena, Kind::OneStatement, &First(self.stmt))
    }
}

impl<'t, 'a> ToTree<'a> for Local<'t, 'a> {
    ghost tree = { made_local };

    fn to_tree(&self, arena: &'a Arena) -> Result<Tree<'a>, AllocError> {
        let end = (self.init, self.semi_token);
        let parts = (self.let_token, self.pat, self.ty, end);
        node(arena, Kind::ALet, &First(parts))
    }
}

impl<'t, 'a> ToTree<'a> for StmtMacro<'t, 'a> {
    ghost tree = { stmt_macro };

    fn to_tree(&self, arena: &'a Arena) -> Result<Tree<'a>, AllocError> {
        match self.semi_token {
            None => (self.attrs, self.mac, Second(())).to_tree(arena),
            Some(mark) => {
                (self.attrs, self.mac, First(Called(Part::Semicolon, mark))).to_tree(arena)
            }
        }
    }
}

impl<'t, 'a> ToTree<'a> for StmtLocal<'t, 'a> {
    ghost tree = { stmt_local };

    fn to_tree(&self, arena: &'a Arena) -> Result<Tree<'a>, AllocError> {
        (self.attrs, self.local).to_tree(arena)
    }
}

impl<'t, 'a> ToTree<'a> for StmtExpr<'t, 'a> {
    ghost tree = { stmt_expr };

    fn to_tree(&self, arena: &'a Arena) -> Result<Tree<'a>, AllocError> {
        let attrs = Called(Part::Attributes, self.attrs);
        let expr = Called(Part::Expression, self.expr);
        match self.semi_token {
            None => (attrs, expr, Second(())).to_tree(arena),
            Some(mark) => (attrs, expr, First(Called(Part::Semicolon, mark))).to_tree(arena),
        }
    }
}
