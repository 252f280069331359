//! Texts that are read as forms, and what is printed of these.

use crate::written::{Writing, is_print, put_print};
use std::alloc::Global;
use syn::parse::parse_front;
use syn::{Arena, Kind, ParseFault, SourceMap, TokenBuffer, TokenStream, Tree, equal, put_normal};
use syn_buffer::entry::Entry;
use test_support::{Page, Unanswered};
use writer_print::piece::Piece;
use writer_print::print::print;

/// How much of a text is a form.
#[derive(Clone, Copy)]
pub(crate) enum Found {
    /// It begins with none, or is refused by the lexer.
    Nothing,
    /// Its front, with tokens behind that.
    Front,
    /// All of it.
    All,
}

/// What is printed of a text that begins with a form.
#[derive(Clone, Copy)]
pub(crate) enum Part {
    /// Its normal form. A copy of the form equals it and is written so too, and its normal form can be made as a tree.
    Written,
    /// Its normal form, which is made as a tree.
    Made,
    /// What is left behind it.
    Left,
}

/// The tokens of a text, if it is one of tokens.
pub(crate) fn lexed(alloc: Global, text: &str) -> Option<TokenStream> {
    lexed_in(alloc, text, &mut SourceMap::new(alloc))
}

/// The tokens of a text that is put into a map, if it is one of tokens.
pub(crate) fn lexed_in(alloc: Global, text: &str, map: &mut SourceMap) -> Option<TokenStream> {
    match TokenStream::from_str(alloc, text, map) {
        Ok(stream) => Some(stream),
        Err(_) => None,
    }
}

/// The buffers of streams.
pub(crate) fn buffers<'a>(
    alloc: Global,
    streams: &'a [TokenStream],
) -> Result<Vec<TokenBuffer<'a>>, Unanswered> {
    let mut all = Vec::new(alloc);
    for stream in streams {
        all.push(TokenBuffer::new2(alloc, stream, 1)?)?;
    }
    Ok(all)
}

/// The form of a kind that a buffer begins with, and what is left behind it; none if it begins with no such form.
pub(crate) fn front<'a>(
    arena: &'a Arena,
    kind: Kind,
    buffer: &'a TokenBuffer<'a>,
) -> Result<Option<(Tree<'a>, &'a [Entry<'a>])>, Unanswered> {
    match parse_front(arena, kind, buffer) {
        Ok(found) => Ok(Some(found)),
        Err(ParseFault::Syntax(_)) => Ok(None),
        Err(ParseFault::Memory) => Err(Unanswered::Cut),
    }
}

// Puts the print of the normal form of a tree, which is made as a tree.
fn put_made<'a>(arena: &'a Arena, tree: &Tree<'a>, page: &mut Page) -> Result<(), Unanswered> {
    let mut pieces = Vec::new(arena.alloc());
    match put_normal(arena, tree, &mut pieces) {
        Ok(()) => page.put_made(print(page.alloc(), pieces.as_slice())),
        Err(_) => return Err(Unanswered::NoRow),
    }
    Ok(())
}

// An error where the normal form of a tree can't be made as a tree, and printed.
fn try_made<'a>(arena: &'a Arena, tree: &Tree<'a>) -> Result<(), Unanswered> {
    let mut made = Page::new(arena.alloc());
    put_made(arena, tree, &mut made)?;
    made.whole()?;
    Ok(())
}

// Puts the print of tokens that are left.
fn put_left(entries: &[Entry<'_>], page: &mut Page) {
    let mut pieces = Vec::new(page.alloc());
    for entry in entries {
        if pieces.push(Piece::of(entry)).is_err() {
            page.cut();
        }
    }
    page.put_made(print(page.alloc(), pieces.as_slice()));
}

// Whether a copy of a tree equals it, and is written so too.
fn is_copied(alloc: Global, tree: &Tree<'_>, written: &str) -> Result<bool, Unanswered> {
    let copy = tree.copy();
    Ok(equal(tree, &copy) && is_print(alloc, Writing::Read, &copy, written)?)
}

// Puts the print of the normal form of a tree that is as its copy.
fn put_copied(tree: &Tree<'_>, page: &mut Page) -> Result<(), Unanswered> {
    put_print(Writing::Read, tree, page);
    if is_copied(page.alloc(), tree, page.whole()?)? {
        Ok(())
    } else {
        Err(Unanswered::NoRow)
    }
}

// Puts what is asked of a form.
fn put_part<'a>(
    arena: &'a Arena,
    part: Part,
    tree: &Tree<'a>,
    left: &[Entry<'_>],
    page: &mut Page,
) -> Result<(), Unanswered> {
    match part {
        Part::Written => {
            try_made(arena, tree)?;
            put_copied(tree, page)
        }
        Part::Made => put_made(arena, tree, page),
        Part::Left => {
            put_left(left, page);
            Ok(())
        }
    }
}

// Puts what is asked of a form. Whether it is all of the text.
fn put_found<'a>(
    arena: &'a Arena,
    part: Part,
    tree: &Tree<'a>,
    left: &[Entry<'_>],
    page: &mut Page,
) -> Result<Found, Unanswered> {
    put_part(arena, part, tree, left, page)?;
    Ok(if left.is_empty() {
        Found::All
    } else {
        Found::Front
    })
}

// Puts what is asked of the form that a buffer begins with, with trees in an arena.
fn read_in<'a>(
    arena: &'a Arena,
    kind: Kind,
    buffer: &'a TokenBuffer<'a>,
    part: Part,
    page: &mut Page,
) -> Result<Found, Unanswered> {
    match front(arena, kind, buffer)? {
        Some((tree, left)) => put_found(arena, part, &tree, left, page),
        None => Ok(Found::Nothing),
    }
}

// The same with trees in an arena of its own.
fn read_buffer(
    kind: Kind,
    buffer: &TokenBuffer<'_>,
    part: Part,
    page: &mut Page,
) -> Result<Found, Unanswered> {
    let arena = Arena::new(page.alloc());
    read_in(&arena, kind, buffer, part, page)
}

// The same of a stream.
fn read_stream(
    kind: Kind,
    stream: &TokenStream,
    part: Part,
    page: &mut Page,
) -> Result<Found, Unanswered> {
    let buffer = TokenBuffer::new2(page.alloc(), stream, 1)?;
    read_buffer(kind, &buffer, part, page)
}

/// Puts what is asked of the form of a kind that a text begins with, if it does.
pub(crate) fn read(
    kind: Kind,
    text: &str,
    part: Part,
    page: &mut Page,
) -> Result<Found, Unanswered> {
    match lexed(page.alloc(), text) {
        Some(stream) => read_stream(kind, &stream, part, page),
        None => Ok(Found::Nothing),
    }
}
