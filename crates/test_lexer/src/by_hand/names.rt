//! Equality, order and hashing of names.

use super::lines::tell;
use proc_macro2::tree::{TokenStream, TokenTree};
use rust_leaf::ident::Ident;
use rust_map::source_map::SourceMap;
use rust_map::span::Span;
use std::alloc::Global;
use std::hash::{DefaultHasher, Hash, Hasher};
use test_support::{Page, Unanswered};

// The first tree of a text.
fn read(alloc: Global, text: &str) -> Result<Option<TokenTree>, Unanswered> {
    match TokenStream::from_str(alloc, text, &mut SourceMap::new(alloc)) {
        Ok(stream) => Ok(stream.into_iter()?.next()),
        Err(_) => Err(Unanswered::Cut),
    }
}

fn hashed(ident: &Ident) -> u64 {
    let mut hasher = DefaultHasher::new();
    ident.hash(&mut hasher);
    hasher.finish()
}

/// A name that is read and one that is made, of one text.
pub fn compared(page: &mut Page) {
    match read(page.alloc(), "fn") {
        Ok(tree) => put_read(&tree, page),
        Err(_) => page.cut(),
    }
}

fn put_read(tree: &Option<TokenTree>, page: &mut Page) {
    match tree {
        Some(TokenTree::Ident(read)) => put_with_made(read, page),
        _ => page.cut(),
    }
}

fn put_with_made(read: &Ident, page: &mut Page) {
    match Ident::new(page.alloc(), "fn", Span::call_site()) {
        Ok(made) => put_compared(read, &made, page),
        Err(_) => page.cut(),
    }
}

fn put_compared(read: &Ident, made: &Ident, page: &mut Page) {
    let has_its_place = read.span().eq(&made.span());
    tell(
        "a name has the place of one that was read",
        has_its_place,
        page,
    );
    tell("it is equal", read == made, page);
    tell("it is hashed alike", hashed(read) == hashed(made), page);
}

/// A name and the raw one of its text.
pub fn raw(page: &mut Page) {
    match Ident::new(page.alloc(), "fn", Span::call_site()) {
        Ok(plain) => put_with_raw(&plain, page),
        Err(_) => page.cut(),
    }
}

fn put_with_raw(plain: &Ident, page: &mut Page) {
    match Ident::new_raw(page.alloc(), "fn", Span::call_site()) {
        Ok(raw) => put_another(plain, &raw, page),
        Err(_) => page.cut(),
    }
}

fn put_another(plain: &Ident, raw: &Ident, page: &mut Page) {
    tell("a name is equal to the raw one", plain == raw, page);
    tell("it is before it", plain < raw, page);
    tell("its text is fn", plain.is_text("fn"), page);
    tell("the text of the raw one is r#fn", raw.is_text("r#fn"), page);
    tell("the text of the raw one is fn", raw.is_text("fn"), page);
}
