//! Expressions that are built by hand, and what is put round their operands: each is printed, read again, and is up to
//! parentheses the one that was built.
//!
//! - `text`: texts, and the tokens that they lend.
//! - `filled`: trees, made of what is read of texts.
//! - `change`: trees made anew: with operands in the place of holes, or without parentheses.
//! - `shape`: what a tree is, up to parentheses.
//! - `again`: texts that are read again, and what is asked of what is read.
//! - `judged`: what is wrong with what is printed of a tree.
//! - `forms`: the table of forms.
//! - `tables`: each form in each.

mod again;
mod change;
mod filled;
mod forms;
mod judged;
mod shape;
pub(crate) mod tables;
mod text;

use judged::{Case, put_judged};
use syn::Position;
use test_support::{Page, Unanswered};

/// The position that a row names.
pub(crate) fn position_of(name: &str) -> Option<Position> {
    Some(match name {
        "plain" => Position::Plain,
        "condition" => Position::InCondition,
        "arm" => Position::InArm,
        "statement" => Position::InStatement,
        _ => return None,
    })
}

/// Puts what is found of the expression that is built of a text, in that position.
pub(crate) fn put_row(position: Position, text: &str, page: &mut Page) -> Result<(), Unanswered> {
    let positions = [position];
    let positions = positions.as_slice();
    put_judged(Case { text, positions }, page)?;
    Ok(())
}
