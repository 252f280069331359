//! Texts that are read again, and what is asked of what is read.

use crate::built::shape::put_shape;
use crate::built::text::{may_shelter, opened, stream};
use crate::reading::front;
use crate::written::{Writing, is_print, is_text, put_print};
use std::alloc::Global;
use syn::{Arena, Kind, Position, TokenBuffer, TokenStream, Tree};
use test_support::{Page, Unanswered};

/// What is asked of what is read of a text.
#[derive(Clone, Copy)]
pub(crate) enum Question<'t> {
    /// Whether it has that shape.
    IsShaped(&'t str),
    /// Whether it has that shape, and is written as the text.
    IsItself(&'t str),
    /// Whether it gains no parentheses, unless a range stands behind attributes.
    IsKept,
}

/// A text that is read again in a position, and what is asked of it.
#[derive(Clone, Copy)]
pub(crate) struct Asked<'t> {
    /// The position.
    pub(crate) position: Position,
    /// The text.
    pub(crate) text: &'t str,
    /// What is asked.
    pub(crate) question: Question<'t>,
}

/// What is found of a text that is read again.
#[derive(Clone, Copy)]
pub(crate) enum Again {
    /// No expression is read.
    Unread,
    /// It is read as another expression.
    Another,
    /// It is written otherwise.
    Otherwise,
    /// It is as it should be.
    Right,
}

// What stands behind a whole expression: of a condition a block.
fn behind(position: Position) -> &'static str {
    match position {
        Position::InCondition => "{ }",
        _ => "",
    }
}

// The tokens of a text in a position, with what stands behind it.
fn placed(alloc: Global, position: Position, text: &str) -> Result<TokenStream, Unanswered> {
    let mut whole = Page::new(alloc);
    whole.put(text);
    whole.put(" ");
    whole.put(behind(position));
    stream(alloc, whole.whole()?)
}

/// What is read of a buffer in a position, if all but what stands behind a whole expression is.
pub(crate) fn whole<'a>(
    arena: &'a Arena,
    position: Position,
    buffer: &'a TokenBuffer<'a>,
) -> Result<Option<Tree<'a>>, Unanswered> {
    let left = if behind(position).is_empty() { 0 } else { 2 };
    match front(arena, Kind::Expression(position), buffer)? {
        Some((tree, rest)) if rest.len() == left => Ok(Some(tree)),
        _ => Ok(None),
    }
}

/// The form of an expression.
pub(crate) fn form_of<'t, 'a>(tree: &'t Tree<'a>) -> Result<&'t Tree<'a>, Unanswered> {
    match tree.node() {
        Some((_, inner)) => inner.whole().ok_or(Unanswered::NoRow),
        None => Err(Unanswered::NoRow),
    }
}

// Whether a form has that shape.
fn is_shaped<'a>(arena: &'a Arena, form: &Tree<'a>, wanted: &str) -> Result<bool, Unanswered> {
    let mut shape = Page::new(arena.alloc());
    put_shape(arena, form, &mut shape);
    is_text(&shape, wanted)
}

// Whether what was read is written as the text that was read: as one writes what was read, and as what was built.
fn is_written_so(
    alloc: Global,
    asked: Asked<'_>,
    tree: &Tree<'_>,
    form: &Tree<'_>,
) -> Result<bool, Unanswered> {
    if is_print(alloc, Writing::Read, tree, asked.text)? {
        is_print(alloc, Writing::Built(asked.position), form, asked.text)
    } else {
        Ok(false)
    }
}

// Whether what was read and is printed so has as many parentheses as its text, and is written so as what was built.
fn is_kept_as(
    alloc: Global,
    asked: Asked<'_>,
    form: &Tree<'_>,
    printed: &str,
) -> Result<bool, Unanswered> {
    if may_shelter(asked.text) || opened(printed) == opened(asked.text) {
        is_print(alloc, Writing::Built(asked.position), form, printed)
    } else {
        Ok(false)
    }
}

// Whether what was read gains no parentheses.
fn is_kept(
    alloc: Global,
    asked: Asked<'_>,
    tree: &Tree<'_>,
    form: &Tree<'_>,
) -> Result<bool, Unanswered> {
    let mut printed = Page::new(alloc);
    put_print(Writing::Read, tree, &mut printed);
    is_kept_as(alloc, asked, form, printed.whole()?)
}

// What is found of a text that is as it should be, or else that.
fn right_or(wrong: Again, is_right: Result<bool, Unanswered>) -> Result<Again, Unanswered> {
    Ok(if is_right? { Again::Right } else { wrong })
}

// What is found of a text that should be read with that shape, and be written as it is.
fn found_itself<'a>(
    arena: &'a Arena,
    asked: Asked<'_>,
    shape: &str,
    tree: &Tree<'a>,
    form: &Tree<'a>,
) -> Result<Again, Unanswered> {
    if is_shaped(arena, form, shape)? {
        let is_right = is_written_so(arena.alloc(), asked, tree, form);
        right_or(Again::Otherwise, is_right)
    } else {
        Ok(Again::Another)
    }
}

// What is found of a text that is read as a tree of that form.
fn found_of<'a>(
    arena: &'a Arena,
    asked: Asked<'_>,
    tree: &Tree<'a>,
    form: &Tree<'a>,
) -> Result<Again, Unanswered> {
    match asked.question {
        Question::IsShaped(shape) => right_or(Again::Another, is_shaped(arena, form, shape)),
        Question::IsItself(shape) => found_itself(arena, asked, shape, tree, form),
        Question::IsKept => {
            let is_right = is_kept(arena.alloc(), asked, tree, form);
            right_or(Again::Otherwise, is_right)
        }
    }
}

// What is found of the tokens of a text, with trees in an arena.
fn found_in<'a>(
    arena: &'a Arena,
    asked: Asked<'_>,
    buffer: &'a TokenBuffer<'a>,
) -> Result<Again, Unanswered> {
    match whole(arena, asked.position, buffer)? {
        Some(tree) => found_of(arena, asked, &tree, form_of(&tree)?),
        None => Ok(Again::Unread),
    }
}

// The same with trees in an arena of its own.
fn found_again(
    alloc: Global,
    asked: Asked<'_>,
    buffer: &TokenBuffer<'_>,
) -> Result<Again, Unanswered> {
    let arena = Arena::new(alloc);
    found_in(&arena, asked, buffer)
}

/// What is found of a text that is read again.
pub(crate) fn read_again(alloc: Global, asked: Asked<'_>) -> Result<Again, Unanswered> {
    let stream = placed(alloc, asked.position, asked.text)?;
    let buffer = TokenBuffer::new2(alloc, &stream, 1)?;
    found_again(alloc, asked, &buffer)
}
