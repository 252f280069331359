//! What the calls answer of a large text.

use super::shown::{is_shown, is_text};
use crate::outputs::{answer, is_line};
use canon::{Watched, run};
use proc_macro2::tree::{Group, TokenStream, TokenTree};
use rust_map::SourceMap;
use rust_map::span::Span;
use std::alloc::Global;
use test_support::{Page, Unanswered};
use try_clone::TryClone;

// The tokens of a text that is put into a map.
fn lexed_in(alloc: Global, text: &str, map: &mut SourceMap) -> Result<TokenStream, Unanswered> {
    match TokenStream::from_str(alloc, text, map) {
        Ok(stream) => Ok(stream),
        Err(_) => Err(Unanswered::NoRow),
    }
}

// The tokens of a text of its own.
fn lexed(alloc: Global, text: &str) -> Result<TokenStream, Unanswered> {
    lexed_in(alloc, text, &mut SourceMap::new(alloc))
}

/// Whether `from_str` takes the source, `Display` writes the wanted text, and that is well spaced.
pub fn is_lexed(alloc: Global, source: &str, wanted: &str) -> Result<bool, Unanswered> {
    let stream = lexed(alloc, source)?;
    Ok(stream.is_well_spaced() && is_shown(alloc, &stream, "", wanted))
}

/// Whether a copy of the stream, and one that is built of a copy of its iterator, are printed as the wanted text.
pub fn is_copied(alloc: Global, source: &str, wanted: &str) -> Result<bool, Unanswered> {
    let copy = lexed(alloc, source)?.try_clone()?;
    Ok(is_shown(alloc, &copy, "", wanted) && is_built(alloc, copy, wanted)?)
}

fn is_built(alloc: Global, stream: TokenStream, wanted: &str) -> Result<bool, Unanswered> {
    let last = joined(alloc, pushed(alloc, extended(alloc, stream)?)?)?;
    Ok(is_shown(alloc, &last, "", wanted))
}

// The trees of a copy of a stream's iterator.
fn trees(alloc: Global, stream: TokenStream) -> Result<Vec<TokenTree>, Unanswered> {
    let copy = stream.into_iter()?.try_clone()?;
    let mut all = Vec::new(alloc);
    for tree in copy {
        all.push(tree)?;
    }
    Ok(all)
}

// A stream that is extended by those trees.
fn extended(alloc: Global, stream: TokenStream) -> Result<TokenStream, Unanswered> {
    let mut all = TokenStream::new(alloc);
    all.extend_trees(trees(alloc, stream)?)?;
    Ok(all)
}

// A stream onto which the trees of another one are pushed.
fn pushed(alloc: Global, stream: TokenStream) -> Result<TokenStream, Unanswered> {
    let mut all = TokenStream::new(alloc);
    for tree in stream.into_iter()? {
        all.push_tree(tree)?;
    }
    Ok(all)
}

// A stream that is extended by another one.
fn joined(alloc: Global, stream: TokenStream) -> Result<TokenStream, Unanswered> {
    let mut all = TokenStream::new(alloc);
    all.extend_streams(vec![in alloc; stream]?)?;
    Ok(all)
}

/// Whether the trees that a stream is taken apart into are printed as the wanted text, one space apart, and the copies
/// of the insides of groups as the groups.
pub fn is_printed(alloc: Global, source: &str, wanted: &str) -> Result<bool, Unanswered> {
    let mut page = Page::new(alloc);
    put_trees(lexed(alloc, source)?, &mut page)?;
    Ok(is_text(&page, wanted))
}

fn put_trees(stream: TokenStream, page: &mut Page) -> Result<(), Unanswered> {
    let mut is_first = true;
    for tree in stream.into_iter()? {
        page.put(if is_first { "" } else { " " });
        put_tree(&tree, page);
        is_first = false;
    }
    Ok(())
}

fn put_tree(tree: &TokenTree, page: &mut Page) {
    match tree {
        TokenTree::Group(group) => put_group(group, page),
        _ => page.show(tree),
    }
}

fn put_group(group: &Group, page: &mut Page) {
    match group.stream() {
        Ok(inside) => write!(page, "{{ {inside} }}"),
        Err(_) => page.cut(),
    }
}

/// Whether the source text of each tree at the top stands where the span says, in order.
pub fn is_placed(alloc: Global, source: &str) -> Result<bool, Unanswered> {
    let mut map = SourceMap::new(alloc);
    let stream = lexed_in(alloc, source, &mut map)?;
    Ok(are_placed(alloc, stream.trees(), source, &map))
}

fn are_placed(alloc: Global, trees: &[TokenTree], source: &str, map: &SourceMap) -> bool {
    let mut all = true;
    let mut end = 0;
    for tree in trees {
        match place(alloc, tree.span(), source, map) {
            Some((start, behind)) => {
                all &= end <= start;
                end = behind;
            }
            None => all = false,
        }
    }
    all
}

// Where a span begins and ends, if its source text stands there.
fn place(alloc: Global, span: Span, source: &str, map: &SourceMap) -> Option<(usize, usize)> {
    if !map.holds(span) {
        return None;
    }
    let range = span.byte_range(map);
    match span.source_text(alloc, map) {
        Ok(told) if told.as_deref() == source.get(range.start..range.end) => {
            Some((range.start, range.end))
        }
        _ => None,
    }
}

/// Whether `canonical` answers the wanted text.
pub fn canonical_is(alloc: Global, source: &str, wanted: &str) -> bool {
    match answer(alloc, source) {
        Ok(output) => output.as_str() == wanted,
        Err(_) => false,
    }
}

/// Whether `run` writes the wanted text and a line feed.
pub fn runs_to(alloc: Global, source: &str, wanted: &str) -> bool {
    let mut reader = Watched::new(source.as_bytes());
    let mut writer = Watched::new(Vec::new(alloc));
    let is_run = run(alloc, &mut reader, &mut writer).is_ok();
    is_run && is_line(writer.get_ref().as_slice(), wanted)
}
