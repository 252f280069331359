//! What is answered where a form is wanted, in each way in which one is read: of a whole buffer, before a reader, and
//! from a stream.

use crate::reading::lexed_in;
use crate::streams::put_place;
use crate::written::{Writing, put_print};
use std::alloc::Global;
use syn::{
    Arena, Kind, ParseFault, ParseForms, Reader, SourceMap, TokenBuffer, TokenStream, Tree,
    parse_as,
};
use syn_input::ParseBuffer;
use test_support::{Page, Unanswered};

/// A way in which tokens are read.
#[derive(Clone, Copy)]
pub(crate) enum Way {
    /// All that a buffer holds.
    Whole,
    /// What stands first before a reader.
    Reader,
    /// What stands first in a stream.
    Stream,
}

// Puts an answer behind another one, if it differs.
fn put_other(one: &Page, other: &Page, way: &str, page: &mut Page) -> Result<(), Unanswered> {
    let text = other.whole()?;
    if one.whole()? != text {
        page.put("; ");
        page.put(way);
        page.put(": ");
        page.put(text);
    }
    Ok(())
}

/// Puts what is answered of a whole buffer, and behind it what a reader and a stream answer otherwise.
pub(crate) fn put_answers(
    whole: &Page,
    reader: &Page,
    stream: &Page,
    page: &mut Page,
) -> Result<(), Unanswered> {
    page.put(whole.whole()?);
    put_other(whole, reader, "before a reader", page)?;
    put_other(whole, stream, "from a stream", page)
}

/// Puts what a fault says, and where it stands in a text.
pub(crate) fn put_fault(fault: &ParseFault, map: &SourceMap, page: &mut Page) {
    match fault {
        ParseFault::Syntax(error) => {
            page.show(error);
            put_place(map, error.span(), page);
        }
        ParseFault::Memory => page.cut(),
    }
}

// Puts the print of a tree.
fn put_tree(tree: &Tree<'_>, page: &mut Page) -> Result<(), Unanswered> {
    let mut print = Page::new(page.alloc());
    put_print(Writing::Read, tree, &mut print);
    page.quote(print.whole()?);
    Ok(())
}

// What is read of a kind in a way.
fn read<'a>(
    arena: &'a Arena,
    kind: Kind,
    way: Way,
    buffer: &'a TokenBuffer<'a>,
) -> Result<Tree<'a>, ParseFault> {
    match way {
        Way::Whole => parse_as(arena, kind, buffer),
        Way::Reader => Reader::new(arena, buffer).parse(kind),
        Way::Stream => ParseBuffer::new(arena.alloc(), buffer.begin()).parse_as(arena, kind),
    }
}

// Puts what is answered for a kind in a way: the print of the form that is read, or why none is.
fn put_way(
    kind: Kind,
    way: Way,
    buffer: &TokenBuffer<'_>,
    map: &SourceMap,
    page: &mut Page,
) -> Result<(), Unanswered> {
    let arena = Arena::new(page.alloc());
    match read(&arena, kind, way, buffer) {
        Ok(tree) => put_tree(&tree, page),
        Err(fault) => {
            put_fault(&fault, map, page);
            Ok(())
        }
    }
}

/// Puts what is answered for a kind in each way.
pub(crate) fn put_ways(
    kind: Kind,
    stream: &TokenStream,
    map: &SourceMap,
    page: &mut Page,
) -> Result<(), Unanswered> {
    let alloc = page.alloc();
    let buffer = TokenBuffer::new2(alloc, stream, 1)?;
    let mut answers = [Page::new(alloc), Page::new(alloc), Page::new(alloc)];
    put_way(kind, Way::Whole, &buffer, map, &mut answers[0])?;
    put_way(kind, Way::Reader, &buffer, map, &mut answers[1])?;
    put_way(kind, Way::Stream, &buffer, map, &mut answers[2])?;
    put_answers(&answers[0], &answers[1], &answers[2], page)
}

/// Puts what is answered for a kind in each way, of a text.
pub(crate) fn put_row(kind: Kind, text: &str, page: &mut Page) -> Result<(), Unanswered> {
    let mut map = SourceMap::new(page.alloc());
    match lexed_in(page.alloc(), text, &mut map) {
        Some(stream) => put_ways(kind, &stream, &map, page),
        None => Err(Unanswered::NoRow),
    }
}
