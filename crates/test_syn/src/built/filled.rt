//! Trees, made of what is read of texts.

use crate::built::again::{form_of, whole};
use crate::built::change::{Change, changed};
use syn::{Arena, Position, TokenBuffer, Tree};
use test_support::Unanswered;

// The form of the expression that a buffer is, with its holes filled.
fn filled<'a>(
    arena: &'a Arena,
    buffer: &'a TokenBuffer<'_>,
    filling: Change<'_, 'a>,
) -> Result<Tree<'a>, Unanswered> {
    match whole(arena, Position::Plain, buffer)? {
        Some(tree) => changed(arena, form_of(&tree)?, filling),
        None => Err(Unanswered::NoRow),
    }
}

// Keeps the form of a text behind those of the texts that stand in it.
fn keep_form<'a>(
    arena: &'a Arena,
    buffer: &'a TokenBuffer<'_>,
    operands: &mut Vec<Tree<'a>>,
) -> Result<(), Unanswered> {
    let form = filled(arena, buffer, Change::Fill(operands))?;
    Ok(operands.push(form)?)
}

/// The form that is built of texts, of which the first is the outermost.
pub(crate) fn built<'a>(
    arena: &'a Arena,
    buffers: &'a [TokenBuffer<'_>],
) -> Result<Tree<'a>, Unanswered> {
    let mut operands = Vec::new(arena.alloc());
    for buffer in buffers.iter().rev() {
        keep_form(arena, buffer, &mut operands)?;
    }
    operands.pop().ok_or(Unanswered::NoRow)
}
