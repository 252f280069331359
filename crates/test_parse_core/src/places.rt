//! Places compared, what stands before them, and where the end of a stream is said to be.

use crate::texts::{lexed, put, stream_of};
use proc_macro2::{Delimiter, Ident, SourceMap, Span, TokenStream};
use std::alloc::{AllocError, Global};
use std::cmp::Ordering;
use syn_parse::{Cursor, ParseFault, ParseStream, Parser, TokenBuffer};
use test_support::{Page, Unanswered};

/// Places of one buffer are compared, and of two are not.
pub fn compared(page: &mut Page) {
    match stream_of(page.alloc(), "a b") {
        Ok(stream) => put_compared(are_compared(page.alloc(), &stream), page),
        Err(_) => page.cut(),
    }
}

fn put_compared(are_compared: Result<bool, AllocError>, page: &mut Page) {
    match are_compared {
        Ok(are_compared) => write!(page, "places are compared: {are_compared}\n"),
        Err(_) => page.cut(),
    }
}

fn are_compared(alloc: Global, stream: &TokenStream) -> Result<bool, AllocError> {
    let buffer = TokenBuffer::new2(alloc, stream, 1)?;
    let other = TokenBuffer::new2(alloc, stream, 2)?;
    Ok(compare(buffer.begin(), other.begin()))
}

fn compare(begin: Cursor<'_>, other: Cursor<'_>) -> bool {
    match begin.ident() {
        Some((_, behind)) => {
            begin == begin
                && begin != behind
                && begin.partial_cmp(&behind) == Some(Ordering::Less)
                && behind.partial_cmp(&begin) == Some(Ordering::Greater)
                && begin.partial_cmp(&other).is_none()
                && Cursor::empty() == Cursor::empty()
        }
        None => false,
    }
}

/// Places know what stands before them.
pub fn before(page: &mut Page) {
    let mut map = SourceMap::new(page.alloc());
    match lexed(page.alloc(), "x (yy 'z) w", &mut map) {
        Ok(stream) => put_before(&stream, &map, page),
        Err(_) => page.cut(),
    }
}

fn put_before(stream: &TokenStream, map: &SourceMap, page: &mut Page) {
    match TokenBuffer::new2(page.alloc(), stream, 1) {
        Ok(buffer) => put_behind_name(buffer.begin(), map, page),
        Err(_) => page.cut(),
    }
}

fn put_behind_name(begin: Cursor<'_>, map: &SourceMap, page: &mut Page) {
    match begin.ident() {
        Some((_, at_group)) => {
            put_places(at_group, map, page);
            put_behind_tree(at_group, map, page);
        }
        None => page.cut(),
    }
}

// Puts what stands before a group, before what is in it, before its end and behind it.
fn put_places(at: Cursor<'_>, map: &SourceMap, page: &mut Page) {
    put_column("a group", at, map, page);
    match at.group(Delimiter::Parenthesis) {
        Some((inside, _, behind)) => {
            put_column("its inside", inside, map, page);
            put_column("its end", inside.at_end(), map, page);
            put_column("what is behind it", behind, map, page);
            put_order(at, inside, behind, page);
        }
        None => page.cut(),
    }
}

// Puts in which order the places are, and whether a lifetime stands behind the first name inside.
fn put_order(at: Cursor<'_>, inside: Cursor<'_>, behind: Cursor<'_>, page: &mut Page) {
    match inside.ident() {
        Some((_, mark)) => {
            let is_mark = mark.punct().is_none() && mark.mark().is_some();
            let is_ordered = at < inside && inside < mark && mark < behind;
            write!(
                page,
                "a lifetime's mark alone: {is_mark}; in order: {is_ordered}\n"
            );
        }
        None => page.cut(),
    }
}

fn put_behind_tree(at: Cursor<'_>, map: &SourceMap, page: &mut Page) {
    match at.token_tree(page.alloc()) {
        Ok(Some((_, behind))) => put_column("what is behind the tree", behind, map, page),
        _ => page.cut(),
    }
}

// Puts in which column the token before a place has its last character.
fn put_column(name: &str, at: Cursor<'_>, map: &SourceMap, page: &mut Page) {
    write!(page, "before {name}: ");
    put_start(at.prev_span(), map, page);
}

// Puts in which column a span begins, if the map holds it.
fn put_start(span: Span, map: &SourceMap, page: &mut Page) {
    if map.holds(span) {
        let column = span.start(map).column;
        write!(page, "column {column}\n");
    } else {
        page.put("nowhere\n");
    }
}

// Reads two names.
fn two_names(input: ParseStream<'_, '_>) -> Result<Ident, ParseFault> {
    let _ = input.parse::<Ident>()?;
    input.parse::<Ident>()
}

/// A fault at the end of a stream is said where the stream stands, and else at the call site, which is the first
/// column.
pub fn at_the_end(page: &mut Page) {
    let mut map = SourceMap::new(page.alloc());
    put_scoped(&mut map, page);
    put_ended(None, &map, page);
    match scope(page.alloc(), &mut map) {
        Ok(scope) => put_ended(Some(scope), &map, page),
        Err(_) => page.cut(),
    }
}

fn put_scoped(map: &mut SourceMap, page: &mut Page) {
    let alloc = page.alloc();
    match lexed(alloc, "a b", map) {
        Ok(stream) => {
            let read = two_names.parse_scoped(alloc, Span::call_site(), stream);
            put("scoped", "a b", read, page);
        }
        Err(_) => page.cut(),
    }
}

// The span of a mark in the sixth column of a text of the map.
fn scope(alloc: Global, map: &mut SourceMap) -> Result<Span, Unanswered> {
    let stream = lexed(alloc, "     ;", map)?;
    let buffer = TokenBuffer::new2(alloc, &stream, 1)?;
    Ok(buffer.begin().span())
}

// Puts where the fault of a text stands that has one name, by a scope or by none.
fn put_ended(scope: Option<Span>, map: &SourceMap, page: &mut Page) {
    let alloc = page.alloc();
    match (stream_of(alloc, "  a"), scope) {
        (Ok(stream), Some(scope)) => {
            put_fault(two_names.parse_scoped(alloc, scope, stream), map, page);
        }
        (Ok(stream), None) => put_fault(two_names.parse2(alloc, stream), map, page),
        (Err(_), _) => page.cut(),
    }
}

// Puts where the fault of an answer stands.
fn put_fault(answer: Result<Ident, ParseFault>, map: &SourceMap, page: &mut Page) {
    page.put("fault: ");
    match answer {
        Ok(ident) => write!(page, "none, but {ident}\n"),
        Err(ParseFault::Syntax(error)) => put_start(error.span(), map, page),
        Err(ParseFault::Memory) => page.cut(),
    }
}
