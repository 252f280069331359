//! A buffer, a lookahead, a stream that is shown, a text that is read.

use crate::grow::given::{lexed, lexed_in};
use crate::grow::shown::{display_of, is_text};
use proc_macro2::{LineColumn, Literal, SourceMap, Span, TokenStream};
use std::alloc::Global;
use syn_error::{ParseFault, TextFault};
use syn_kinds::token;
use syn_parse::parser::parse_str;
use syn_parse::{Cursor, Lookahead1, ParseBuffer, TokenBuffer};
use test_support::{Page, Stop, looked_at, refused};

/// Whether a group stands behind the name at the front of a buffer. Where the buffer can't be made, the stream is as
/// before.
pub(crate) fn buffer(page: &mut Page) -> Result<(), Stop> {
    let stream = lexed(page.alloc(), "f(a, [b]) ;")?;
    match TokenBuffer::new2(page.alloc(), &stream, 1) {
        Ok(buffer) => {
            put_is_open(buffer.begin(), page);
            Ok(())
        }
        Err(_) => refused(is_text(&display_of(page.alloc(), &stream), "f (a , [b]) ;")),
    }
}

fn put_is_open(begin: Cursor<'_>, page: &mut Page) {
    let is_open = match begin.ident() {
        Some((_, behind)) => behind.any_group().is_some(),
        None => false,
    };
    write!(page, "{is_open}\n");
}

/// Puts what a lookahead says that was expected. Where a failed peek can't be noted, only those before it are.
pub(crate) fn put_lookahead(begin: Cursor<'_>, page: &mut Page) -> Result<(), Stop> {
    let mut lookahead = ParseBuffer::new(page.alloc(), begin).lookahead1();
    match lookahead.peek::<token::Struct>() {
        Ok(_) => put_more(lookahead, page),
        Err(_) => refused(is_unexpected(page.alloc(), lookahead)),
    }
}

// The same behind more peeks.
fn put_more(mut lookahead: Lookahead1<'_>, page: &mut Page) -> Result<(), Stop> {
    for _ in 0..8 {
        let _ = looked_at(lookahead.peek::<token::Enum>())?;
    }
    put_expected(lookahead, page)
}

// Puts what a lookahead says that was expected.
fn put_expected(lookahead: Lookahead1<'_>, page: &mut Page) -> Result<(), Stop> {
    match lookahead.error() {
        ParseFault::Syntax(error) => {
            write!(page, "{error}\n");
            Ok(())
        }
        ParseFault::Memory => Err(Stop::Refused),
    }
}

// Whether a lookahead says that nothing was expected.
fn is_unexpected(alloc: Global, lookahead: Lookahead1<'_>) -> bool {
    let mut page = Page::new(alloc);
    let is_said = put_expected(lookahead, &mut page).is_ok();
    is_said && is_text(&page, "unexpected token\n")
}

/// Puts what is left of a stream behind its first name. Where it can't be shown, the stream stands where it stood.
pub(crate) fn put_rest(begin: Cursor<'_>, page: &mut Page) -> Result<(), Stop> {
    match begin.ident() {
        Some((_, behind)) => put_left(&ParseBuffer::new(page.alloc(), behind), page),
        None => Err(Stop::Changed),
    }
}

fn put_left(input: &ParseBuffer<'_>, page: &mut Page) -> Result<(), Stop> {
    match input.to_string(page.alloc()) {
        Ok(words) => {
            write!(page, "{words}\n");
            Ok(())
        }
        Err(_) => refused(input.peek::<token::Paren>()),
    }
}

/// A number that is read from a text behind an older one. Where it can't be, the map says of the older one what it
/// said.
pub(crate) fn text(page: &mut Page) -> Result<(), Stop> {
    let mut map = SourceMap::new(page.alloc());
    let span = last_span(&lexed_in(page.alloc(), "a\n b", &mut map)?)?;
    put_text(span, &mut map, page)
}

fn last_span(stream: &TokenStream) -> Result<Span, Stop> {
    match stream.trees().last() {
        Some(last) => Ok(last.span()),
        None => Err(Stop::Changed),
    }
}

// What a map says of a span, if it holds it.
fn place(map: &SourceMap, span: Span) -> Option<LineColumn> {
    if map.holds(span) {
        Some(span.start(map))
    } else {
        None
    }
}

// Puts the number of a text behind that span's.
fn put_text(span: Span, map: &mut SourceMap, page: &mut Page) -> Result<(), Stop> {
    let before = place(map, span);
    let read = parse_str::<Option<Literal>>(page.alloc(), "'7'", map);
    let stays = before.is_some() && place(map, span) == before;
    put_literal(read, stays, page)
}

fn put_literal(
    read: Result<Option<Literal>, TextFault>,
    stays: bool,
    page: &mut Page,
) -> Result<(), Stop> {
    match read {
        Ok(Some(literal)) if stays => {
            write!(page, "{literal}\n");
            Ok(())
        }
        Err(TextFault::Memory) => refused(stays),
        Ok(_) | Err(_) => Err(Stop::Changed),
    }
}
