//! How many trees a text has, what they are, where they stand, and how they are printed.

use proc_macro2::delimiter::Delimiter;
use proc_macro2::into_iter::IntoIter;
use proc_macro2::tree::{Group, TokenStream, TokenTree};
use rust_leaf::punct::Spacing;
use rust_map::place::LineColumn;
use rust_map::source_map::SourceMap;
use rust_map::span::Span;
use std::alloc::{AllocError, Global};
use test_support::Page;
use try_clone::TryClone;

// The stream of a text in a map of its own. Where the text is at fault, what is said of that is put.
fn lexed(text: &str, page: &mut Page) -> Option<TokenStream> {
    let alloc = page.alloc();
    match TokenStream::from_str(alloc, text, &mut SourceMap::new(alloc)) {
        Ok(stream) => Some(stream),
        Err(fault) => {
            page.show(&fault);
            None
        }
    }
}

/// How many trees stand at the top of a text, or its fault.
pub fn count(text: &str, page: &mut Page) {
    if let Some(stream) = lexed(text, page) {
        put_count(stream, page);
    }
}

fn put_count(stream: TokenStream, page: &mut Page) {
    match stream.into_iter() {
        Ok(trees) => page.show(&trees.count()),
        Err(_) => page.cut(),
    }
}

/// The printed text of a text's stream, or its fault. The stream is well spaced, its copy is printed alike, and what
/// is printed is printed as itself.
pub fn print(text: &str, page: &mut Page) {
    if let Some(stream) = lexed(text, page) {
        put_print(&stream, page);
    }
}

fn put_print(stream: &TokenStream, page: &mut Page) {
    match stream.to_string(page.alloc()) {
        Ok(once) => put_once(stream, once.as_str(), page),
        Err(_) => page.cut(),
    }
}

fn put_once(stream: &TokenStream, once: &str, page: &mut Page) {
    let alloc = page.alloc();
    if stream.is_well_spaced() && is_copied(alloc, stream, once) && is_printed_again(alloc, once) {
        page.quote(once);
    } else {
        write!(page, "not itself: {once}");
    }
}

fn is_copied(alloc: Global, stream: &TokenStream, wanted: &str) -> bool {
    match stream.try_clone() {
        Ok(copy) => is_printed(alloc, &copy, wanted),
        Err(_) => false,
    }
}

fn is_printed(alloc: Global, stream: &TokenStream, wanted: &str) -> bool {
    match stream.to_string(alloc) {
        Ok(printed) => printed.as_str() == wanted,
        Err(_) => false,
    }
}

fn is_printed_again(alloc: Global, once: &str) -> bool {
    match TokenStream::from_str(alloc, once, &mut SourceMap::new(alloc)) {
        Ok(stream) => is_printed(alloc, &stream, once),
        Err(_) => false,
    }
}

/// A stream by `Debug`, or the text's fault.
pub fn show(text: &str, page: &mut Page) {
    if let Some(stream) = lexed(text, page) {
        page.debug(&stream);
    }
}

/// The trees at the top of a text, each with its kind, or the text's fault.
pub fn tell(text: &str, page: &mut Page) {
    if let Some(stream) = lexed(text, page) {
        tell_trees(stream, page);
    }
}

fn tell_trees(stream: TokenStream, page: &mut Page) {
    match stream.into_iter() {
        Ok(trees) => tell_each(trees, page),
        Err(_) => page.cut(),
    }
}

fn tell_each(trees: IntoIter, page: &mut Page) {
    let mut is_first = true;
    for tree in trees {
        page.put(if is_first { "" } else { ", " });
        tell_tree(&tree, page);
        is_first = false;
    }
}

fn tell_tree(tree: &TokenTree, page: &mut Page) {
    match tree {
        TokenTree::Group(group) => tell_group(group, page),
        TokenTree::Ident(ident) => write!(page, "name {ident}"),
        TokenTree::Punct(punct) if punct.spacing() == Spacing::Joint => {
            write!(page, "joint {punct}");
        }
        TokenTree::Punct(punct) => write!(page, "alone {punct}"),
        TokenTree::Literal(literal) => write!(page, "literal {literal}"),
    }
}

fn tell_group(group: &Group, page: &mut Page) {
    page.put(match group.delimiter() {
        Delimiter::Parenthesis => "parentheses",
        Delimiter::Brace => "braces",
        Delimiter::Bracket => "brackets",
        Delimiter::None => "nothing",
    });
    match inner_count(group) {
        Ok(count) => write!(page, " of {count}"),
        Err(_) => page.cut(),
    }
}

// How many trees stand at the top of a group's inside.
fn inner_count(group: &Group) -> Result<usize, AllocError> {
    Ok(group.stream()?.into_iter()?.count())
}

/// The place of the first character of each tree at the top of a text and that behind its last one, behind an older
/// text in one map; or the text's fault.
pub fn place(text: &str, page: &mut Page) {
    let alloc = page.alloc();
    let mut map = SourceMap::new(alloc);
    if TokenStream::from_str(alloc, "older\n", &mut map).is_err() {
        page.cut();
    }
    match TokenStream::from_str(alloc, text, &mut map) {
        Ok(stream) => place_trees(stream, &map, page),
        Err(fault) => page.show(&fault),
    }
}

/// Where the trees at the top of a stream stand.
pub fn place_trees(stream: TokenStream, map: &SourceMap, page: &mut Page) {
    match stream.into_iter() {
        Ok(trees) => place_each(trees, map, page),
        Err(_) => page.cut(),
    }
}

fn place_each(trees: IntoIter, map: &SourceMap, page: &mut Page) {
    for tree in trees {
        place_span(tree.span(), map, page);
    }
}

fn place_span(span: Span, map: &SourceMap, page: &mut Page) {
    if map.holds(span) {
        put_place(span.start(map), page);
        put_place(span.end(map), page);
        page.put(" ");
        put_source(span.source_text(page.alloc(), map), page);
    } else {
        page.put("not held");
    }
}

fn put_place(place: LineColumn, page: &mut Page) {
    write!(page, " {}:{}", place.line, place.column);
}

fn put_source(source: Result<Option<String>, AllocError>, page: &mut Page) {
    match source {
        Ok(Some(source)) => page.quote(source.as_str()),
        Ok(None) => page.quote(""),
        Err(_) => page.cut(),
    }
}
