//! Buffers that are read as a type of the syntax tree.

use syn::{
    Arena, Block, BlockStmt, FnArg, Mark, OneTrait, OneTraitItem, Parameter, ParseFault,
    Statements, Stmt, TokenBuffer, Tree, parse2, print, write,
};
use test_support::{Page, Stop, looked_at};

// Puts that a text is none of a type, if memory was not refused.
fn put_refusal(fault: ParseFault, page: &mut Page) -> Result<(), Stop> {
    match fault {
        ParseFault::Memory => Err(Stop::Refused),
        ParseFault::Syntax(_) => {
            page.put("refused");
            Ok(())
        }
    }
}

// Puts what is written of a tree.
fn put_tree(tree: &Tree<'_>, page: &mut Page) -> Result<(), Stop> {
    let mut pieces = Vec::new(page.alloc());
    looked_at(write(tree, &mut pieces))?;
    page.put_made(print(page.alloc(), pieces.as_slice()));
    Ok(())
}

// Puts whether a statement is ended by a semicolon.
fn put_end(semi_token: Option<Mark>, page: &mut Page) {
    page.put(if semi_token.is_some() {
        "ended: "
    } else {
        "open: "
    });
}

// Puts the expression that a statement is, or the macro and its attributes, and whether it is ended by a semicolon.
fn put_form(stmt: Stmt<'_, '_>, page: &mut Page) -> Result<(), Stop> {
    match stmt {
        Stmt::Expr(found) => {
            put_end(found.semi_token, page);
            put_tree(found.expr, page)
        }
        Stmt::Macro(found) => {
            page.put("a macro behind «");
            put_tree(found.attrs, page)?;
            page.put("», ");
            put_end(found.semi_token, page);
            put_tree(found.mac, page)
        }
        _ => Err(Stop::Changed),
    }
}

/// Puts what a statement is.
pub(crate) fn put_stmt<'a>(
    arena: &'a Arena,
    buffer: &'a TokenBuffer<'a>,
    page: &mut Page,
) -> Result<(), Stop> {
    match parse2::<Stmt>(arena, buffer) {
        Ok(found) => put_form(found, page),
        Err(fault) => put_refusal(fault, page),
    }
}

// The last statement of a block, if there is one.
fn last_stmt<'t, 'a>(block: &Block<'t, 'a>) -> Option<Stmt<'t, 'a>> {
    match BlockStmt::of(Statements::of(block.stmts)?.stmts.each.last()?)? {
        BlockStmt::Stmt(tree) => Stmt::of(tree),
        BlockStmt::Semi(_) => None,
    }
}

/// Puts what the last statement of a block is.
pub(crate) fn put_last_stmt<'a>(
    arena: &'a Arena,
    buffer: &'a TokenBuffer<'a>,
    page: &mut Page,
) -> Result<(), Stop> {
    match parse2::<Block>(arena, buffer) {
        Ok(block) => match last_stmt(&block) {
            Some(found) => put_form(found, page),
            None => Err(Stop::Changed),
        },
        Err(fault) => put_refusal(fault, page),
    }
}

/// Puts the pattern and the type of a parameter.
pub(crate) fn put_parameter<'a>(
    arena: &'a Arena,
    buffer: &'a TokenBuffer<'a>,
    page: &mut Page,
) -> Result<(), Stop> {
    match parse2::<Parameter>(arena, buffer) {
        Ok(
            Parameter {
                arg: FnArg::Typed(found),
                ..
            },
        ) => {
            put_tree(found.pat, page)?;
            page.put(" of ");
            put_tree(found.ty, page)
        }
        Ok(_) => Err(Stop::Changed),
        Err(fault) => put_refusal(fault, page),
    }
}

/// Puts a trait, without its attributes and its visibility.
pub(crate) fn put_trait<'a>(
    arena: &'a Arena,
    buffer: &'a TokenBuffer<'a>,
    page: &mut Page,
) -> Result<(), Stop> {
    match parse2::<OneTrait>(arena, buffer) {
        Ok(found) => put_tree(found.item, page),
        Err(fault) => put_refusal(fault, page),
    }
}

/// Puts an item of a trait: its form, and all of it.
pub(crate) fn put_trait_item<'a>(
    arena: &'a Arena,
    buffer: &'a TokenBuffer<'a>,
    page: &mut Page,
) -> Result<(), Stop> {
    match parse2::<OneTraitItem>(arena, buffer) {
        Ok(found) => {
            put_tree(found.item.tree, page)?;
            page.put(" in ");
            put_tree(found.tree, page)
        }
        Err(fault) => put_refusal(fault, page),
    }
}
