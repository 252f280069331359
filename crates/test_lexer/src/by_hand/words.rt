//! How streams and source maps are shown, and what is said of lexical faults.

use super::lines::{say, show, show_made};
use proc_macro2::delimiter::Delimiter;
use proc_macro2::into_iter::IntoIter;
use proc_macro2::tree::{Group, TokenStream, TokenTree};
use rust_map::fault::{LexError, LexFault};
use rust_map::place::LineColumn;
use rust_map::source_map::{MapFull, SourceMap};
use rust_map::span::Span;
use std::alloc::Global;
use test_support::{Page, Unanswered};

/// How a group is shown, and how as a tree.
pub fn groups(page: &mut Page) {
    let group = Group::new(Delimiter::None, TokenStream::new(page.alloc()));
    show(&group, page);
    show(&TokenTree::Group(group), page);
}

/// Iterators show what is left.
pub fn left(page: &mut Page) {
    show_made(behind_first(page.alloc()), page);
}

fn behind_first(alloc: Global) -> Result<IntoIter, Unanswered> {
    match TokenStream::from_str(alloc, "a b c", &mut SourceMap::new(alloc)) {
        Ok(stream) => {
            let mut trees = stream.into_iter()?;
            let _ = trees.next();
            Ok(trees)
        }
        Err(_) => Err(Unanswered::Cut),
    }
}

/// Maps are shown by their texts.
pub fn maps(page: &mut Page) {
    let mut map = SourceMap::new(page.alloc());
    show(&map, page);
    put_text("a", &mut map, page);
    put_text("b", &mut map, page);
    show(&map, page);
}

// Puts a text into a map.
fn put_text(text: &str, map: &mut SourceMap, page: &mut Page) {
    if TokenStream::from_str(page.alloc(), text, map).is_err() {
        page.cut();
    }
}

/// What is said of lexical faults.
pub fn faults(page: &mut Page) {
    let error = LexError::new(Span::call_site(), LineColumn { line: 3, column: 7 });
    say(&error, page);
    say(&LexFault::Lex(error), page);
    say(&LexFault::MapFull, page);
    say(&LexFault::Memory, page);
    say(&MapFull, page);
}
