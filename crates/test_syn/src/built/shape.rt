//! What a tree is, up to parentheses and to how its marks are spaced.

use crate::built::change::{Change, changed};
use crate::written::{Writing, put_print};
use syn::{Arena, Form, Tree, put_nodes};
use test_support::Page;

// Where the operands of a form stand. None of what is no form of an expression.
fn operands(tree: &Tree<'_>) -> Option<&'static str> {
    match &tree.form {
        Form::Alone(_, _) => Some("none"),
        Form::Front(_, _) => Some("behind"),
        Form::Back(_, _) => Some("before"),
        Form::Infix(_, _) => Some("around"),
        _ => None,
    }
}

// Puts the line of a node, if it is the form of an expression.
fn put_form(node: &Tree<'_>, page: &mut Page) {
    if let Some(operands) = operands(node) {
        write!(page, "{operands}: ");
        put_print(Writing::Read, node, page);
        page.put("\n");
    }
}

// Puts the forms of a tree without parentheses.
fn put_forms(tree: &Tree<'_>, page: &mut Page) {
    let mut nodes = Vec::new(page.alloc());
    if put_nodes(tree, &mut nodes).is_err() {
        page.cut();
    }
    for node in &nodes {
        put_form(node, page);
    }
}

/// Puts the forms in a tree, own parts included, each before those that stand in it: a line for each, with where its
/// operands stand and with its tokens, without parentheses round any.
pub(crate) fn put_shape<'a>(arena: &'a Arena, tree: &Tree<'a>, page: &mut Page) {
    match changed(arena, tree, Change::Strip) {
        Ok(bare) => put_forms(&bare, page),
        Err(_) => page.cut(),
    }
}
