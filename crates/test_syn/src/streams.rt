//! Where tokens stand: of the stream that a file is written as, as it was read or in its normal form, and of an error.

use crate::reading::{front, lexed_in};
use syn::{Arena, Error, Kind, SourceMap, Span, TokenBuffer, TokenStream, Tree, normal, to_stream};
use syn_buffer::entry::Entry;
use test_support::{Page, Unanswered};
use writer_print::piece::Piece;
use writer_print::print::print;

// Where a token stands: one that closes a group has the span of all of it, and is its last character.
fn place_of(entry: &Entry<'_>) -> Span {
    match entry {
        Entry::Close(_, span) => span.last_character(),
        _ => entry.span(),
    }
}

// The column in which that begins, if it stands in the text.
fn column_of(map: &SourceMap, span: Span) -> Option<usize> {
    if map.holds(span) && !span.eq(&Span::call_site()) {
        Some(span.start(map).column)
    } else {
        None
    }
}

/// Puts the column in which that begins, behind `@`, if it stands in the text.
pub(crate) fn put_place(map: &SourceMap, span: Span, page: &mut Page) {
    if let Some(column) = column_of(map, span) {
        write!(page, "@{column}");
    }
}

// Puts a token and, behind `@`, the column in which it begins, if it stands in the text.
fn put_token(map: &SourceMap, entry: &Entry<'_>, page: &mut Page) {
    page.put_made(print(page.alloc(), &[Piece::of(entry)]));
    put_place(map, place_of(entry), page);
}

// Puts the tokens of a stream, with a space between two.
fn put_tokens(map: &SourceMap, stream: &TokenStream, page: &mut Page) -> Result<(), Unanswered> {
    let buffer = TokenBuffer::new2(page.alloc(), stream, 1)?;
    for (index, entry) in buffer.entries().iter().enumerate() {
        if index > 0 {
            page.put(" ");
        }
        put_token(map, entry, page);
    }
    Ok(())
}

// Puts those of the stream that a tree is written as.
fn put_written(map: &SourceMap, tree: &Tree<'_>, page: &mut Page) -> Result<(), Unanswered> {
    match to_stream(page.alloc(), tree)? {
        Some(stream) => put_tokens(map, &stream, page),
        None => Err(Unanswered::NoRow),
    }
}

// The same of the normal form of a tree.
fn put_normal_form<'a>(
    arena: &'a Arena,
    map: &SourceMap,
    tree: &Tree<'a>,
    page: &mut Page,
) -> Result<(), Unanswered> {
    match normal(arena, tree) {
        Ok(made) => put_written(map, &made, page),
        Err(_) => Err(Unanswered::NoRow),
    }
}

/// What is written of a file.
#[derive(Clone, Copy)]
pub(crate) enum Written {
    /// The tree that is read.
    Read,
    /// The tree that is its normal form.
    Normal,
}

// Puts the tokens of what is written of the file that a buffer holds, with trees in an arena.
fn put_file<'a>(
    arena: &'a Arena,
    map: &SourceMap,
    written: Written,
    buffer: &'a TokenBuffer<'a>,
    page: &mut Page,
) -> Result<(), Unanswered> {
    match (front(arena, Kind::AFile, buffer)?, written) {
        (Some((tree, _)), Written::Read) => put_written(map, &tree, page),
        (Some((tree, _)), Written::Normal) => put_normal_form(arena, map, &tree, page),
        (None, _) => {
            page.put("refused");
            Ok(())
        }
    }
}

// The same with trees in an arena of its own.
fn put_buffer(
    map: &SourceMap,
    written: Written,
    buffer: &TokenBuffer<'_>,
    page: &mut Page,
) -> Result<(), Unanswered> {
    let arena = Arena::new(page.alloc());
    put_file(&arena, map, written, buffer, page)
}

// The same of a stream.
fn put_stream(
    map: &SourceMap,
    written: Written,
    stream: &TokenStream,
    page: &mut Page,
) -> Result<(), Unanswered> {
    let buffer = TokenBuffer::new2(page.alloc(), stream, 1)?;
    put_buffer(map, written, &buffer, page)
}

/// Puts the tokens of the stream that a file is written as, each with its place, or that the text is refused.
pub(crate) fn put_row(written: Written, text: &str, page: &mut Page) -> Result<(), Unanswered> {
    let mut map = SourceMap::new(page.alloc());
    match lexed_in(page.alloc(), text, &mut map) {
        Some(stream) => put_stream(&map, written, &stream, page),
        None => {
            page.put("refused");
            Ok(())
        }
    }
}

/// Puts the tokens by which the compiler says the word `said` of the tokens of a text, each with its place.
pub(crate) fn put_error(text: &str, page: &mut Page) -> Result<(), Unanswered> {
    let alloc = page.alloc();
    let mut map = SourceMap::new(alloc);
    let Some(stream) = lexed_in(alloc, text, &mut map) else {
        return Err(Unanswered::NoRow);
    };
    let error = Error::new_spanned(alloc, &stream, "said")?;
    put_tokens(&map, &error.to_compile_error(alloc)?, page)
}
