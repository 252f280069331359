//! Changes of statements, blocks and files.

use crate::asked;
use crate::change::{By, Change, Unmade, held};
use std::alloc::AllocError;
use syn::{
    Arena, Block, BlockModifiers, BlockStmt, ExprBlock, ExprMacro, File, Frontmatter, Local,
    LocalInit, OneStatement, Position, Statements, Stmt, StmtExpr, StmtLocal, StmtMacro, Tree,
    Worded, equal,
};
use syn_made::expr::whole::expression;
use syn_made::to_tree::ToTree;
use syn_wrapped::statements::{block, statement};

// The statement that stands by itself in a tree, if one does.
fn stmt<'t, 'a>(tree: &'t Tree<'a>) -> Option<Stmt<'t, 'a>> {
    Stmt::of(OneStatement::of(tree)?.stmt)
}

// The same without its semicolon, if it is an expression or a macro.
fn without_semicolon<'t, 'a>(tree: &'t Tree<'a>) -> Option<Stmt<'t, 'a>> {
    match stmt(tree)? {
        Stmt::Expr(found) => Some(Stmt::Expr(StmtExpr {
            semi_token: None,
            ..found
        })),
        Stmt::Macro(found) => Some(Stmt::Macro(StmtMacro {
            semi_token: None,
            ..found
        })),
        _ => None,
    }
}

// A statement as a tree.
fn put<'a>(arena: &'a Arena, stmt: Option<Stmt<'_, 'a>>) -> Result<Option<Tree<'a>>, Unmade> {
    match stmt {
        Some(stmt) => held(statement(arena, &stmt)),
        None => Err(Unmade::NoRow),
    }
}

// A statement's tree, if it is the same as the one that was read.
fn same<'a>(made: Tree<'a>, read: Option<OneStatement<'_, 'a>>) -> Option<Tree<'a>> {
    match read {
        Some(read) if equal(&made, read.stmt) => Some(made),
        _ => None,
    }
}

// What was made of the statement in a tree, if that is the same tree again.
fn again<'a>(
    tree: &Tree<'a>,
    made: Result<Option<Tree<'a>>, Unmade>,
) -> Result<Option<Tree<'a>>, Unmade> {
    match made {
        Ok(Some(made)) => Ok(same(made, OneStatement::of(tree))),
        unmade => unmade,
    }
}

// A macro as an expression.
fn macro_value<'a>(arena: &'a Arena, found: StmtMacro<'_, 'a>) -> Result<Tree<'a>, AllocError> {
    let form = ExprMacro { mac: found.mac }.to_tree(arena)?;
    expression(arena, Position::InStatement, form)
}

// A macro that is a statement, as an expression that is one.
fn as_expression<'a>(arena: &'a Arena, tree: &Tree<'a>) -> Result<Option<Tree<'a>>, Unmade> {
    let Some(Stmt::Macro(called)) = stmt(tree) else {
        return Err(Unmade::NoRow);
    };
    let expr = macro_value(arena, called)?;
    let stmt = Stmt::Expr(StmtExpr {
        attrs: called.attrs,
        expr: &expr,
        semi_token: called.semi_token,
    });
    held(statement(arena, &stmt))
}

// The `let` that stands by itself in a tree, if one does.
fn local<'t, 'a>(tree: &'t Tree<'a>) -> Option<(StmtLocal<'t, 'a>, Local<'t, 'a>)> {
    match stmt(tree)? {
        Stmt::Local(found) => Some((found, Local::of(found.local)?)),
        _ => None,
    }
}

// A `let`, as a statement, with another tree for what stands in it.
fn put_local<'a>(
    arena: &'a Arena,
    found: StmtLocal<'_, 'a>,
    local: &Tree<'a>,
) -> Result<Option<Tree<'a>>, Unmade> {
    let stmt = Stmt::Local(StmtLocal { local, ..found });
    held(statement(arena, &stmt))
}

// A `let` without its type, as a statement.
fn inferred<'a>(arena: &'a Arena, tree: &Tree<'a>) -> Result<Option<Tree<'a>>, Unmade> {
    let Some((found, local)) = local(tree) else {
        return Err(Unmade::NoRow);
    };
    let made = Local { ty: None, ..local }.to_tree(arena)?;
    put_local(arena, found, &made)
}

// A `let` as it was read.
fn as_read<'a>(arena: &'a Arena, tree: &Tree<'a>) -> Result<Option<Tree<'a>>, Unmade> {
    match local(tree) {
        Some((_, local)) => held(local.to_tree(arena)),
        None => Err(Unmade::NoRow),
    }
}

// A `let` with its value and what stands behind `else`, if a tree is one.
fn diverging<'t, 'a>(
    tree: &'t Tree<'a>,
) -> Option<(Local<'t, 'a>, LocalInit<'t, 'a>, Worded<'t, 'a>)> {
    let (_, local) = local(tree)?;
    let init = local.init?;
    Some((local, init, init.diverge?))
}

// A block as an expression.
fn block_value<'a>(arena: &'a Arena, block: &Tree<'a>) -> Result<Tree<'a>, AllocError> {
    let value = ExprBlock {
        label: None,
        modifiers: BlockModifiers {},
        block,
    };
    let form = value.to_tree(arena)?;
    expression(arena, Position::Plain, form)
}

// A `let` whose value is the block behind its `else`, which stands there too, or does not.
fn braced<'a>(
    arena: &'a Arena,
    tree: &Tree<'a>,
    has_else: bool,
) -> Result<Option<Tree<'a>>, Unmade> {
    let Some((local, init, diverge)) = diverging(tree) else {
        return Err(Unmade::NoRow);
    };
    let value = block_value(arena, diverge.node)?;
    let init = Some(LocalInit {
        expr: &value,
        diverge: if has_else { Some(diverge) } else { None },
        ..init
    });
    held(Local { init, ..local }.to_tree(arena))
}

// A block and what stands first in it, if a tree is a block in which something does.
fn first<'t, 'a>(tree: &'t Tree<'a>) -> Option<(Block<'t, 'a>, BlockStmt<'t, 'a>)> {
    let found = Block::of(tree)?;
    let stmts = Statements::of(found.stmts)?.stmts;
    Some((found, BlockStmt::of(stmts.each.first()?)?))
}

// A block of what stands first in one.
fn cut<'a>(arena: &'a Arena, tree: &Tree<'a>) -> Result<Option<Tree<'a>>, Unmade> {
    match first(tree) {
        Some((found, stmt)) => held(block(arena, found.brace_token, &[stmt])),
        None => Err(Unmade::NoRow),
    }
}

// A file as it is, with a section at its head, or behind a line that says what runs it.
impl<'a> Change<'a> for File<'a, 'a> {
    fn changed(by: By<'_, 'a>, tree: &'a Tree<'a>) -> Option<File<'a, 'a>> {
        let found = File::of(tree)?;
        Some(match by.change {
            "headed" => File {
                frontmatter: Some(Frontmatter {}),
                ..found
            },
            "executable" => File {
                shebang: Some("#!/bin/x"),
                ..found
            },
            _ => found,
        })
    }
}

/// A statement or a block, changed so.
pub(crate) fn changed<'a>(
    form: asked::Stmt,
    arena: &'a Arena,
    tree: &'a Tree<'a>,
) -> Result<Option<Tree<'a>>, Unmade> {
    match form {
        asked::Stmt::Open => put(arena, without_semicolon(tree)),
        asked::Stmt::Inferred => inferred(arena, tree),
        asked::Stmt::Again => again(tree, put(arena, stmt(tree))),
        asked::Stmt::AsExpression => again(tree, as_expression(arena, tree)),
        asked::Stmt::AsRead => as_read(arena, tree),
        asked::Stmt::Braced => braced(arena, tree, true),
        asked::Stmt::BracedAlone => braced(arena, tree, false),
        asked::Stmt::Cut => cut(arena, tree),
    }
}
