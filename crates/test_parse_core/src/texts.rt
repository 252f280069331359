//! Streams and identifiers of texts, and what was read or is printed, as it is put onto a page.

use proc_macro2::{Ident, IdentFault, SourceMap, Span, TokenStream};
use std::alloc::{AllocError, Global};
use std::fmt::Display;
use syn_error::ToTokens;
use test_support::{Page, Unanswered};

/// The tokens of a text, in a map of its own.
pub fn stream_of(alloc: Global, text: &str) -> Result<TokenStream, Unanswered> {
    lexed(alloc, text, &mut SourceMap::new(alloc))
}

/// The tokens of a text, behind the others of the map.
pub fn lexed(alloc: Global, text: &str, map: &mut SourceMap) -> Result<TokenStream, Unanswered> {
    match TokenStream::from_str(alloc, text, map) {
        Ok(stream) => Ok(stream),
        Err(_) => Err(Unanswered::NoRow),
    }
}

/// An identifier of that text.
pub fn name(alloc: Global, text: &str) -> Result<Ident, Unanswered> {
    match Ident::new(alloc, text, Span::call_site()) {
        Ok(ident) => Ok(ident),
        Err(IdentFault::Memory) => Err(Unanswered::Cut),
        Err(_) => Err(Unanswered::NoRow),
    }
}

/// Sets an identifier to one of that text.
pub fn set(ident: &mut Ident, text: &str, page: &mut Page) {
    match name(page.alloc(), text) {
        Ok(other) => *ident = other,
        Err(_) => page.cut(),
    }
}

/// Puts a line: what was asked of a text, and the value that was read, or the fault.
pub fn put<T: Display + Drop, E: Display + Drop>(
    asked: &str,
    text: &str,
    read: Result<T, E>,
    page: &mut Page,
) {
    write!(page, "{asked} [{text}]: ");
    match read {
        Ok(value) => write!(page, "{value}\n"),
        Err(fault) => write!(page, "{fault}\n"),
    }
}

/// Puts what is printed for a value.
pub fn put_tokens<T: ToTokens>(value: &T, page: &mut Page) {
    put_stream(value.to_token_stream(page.alloc()), page);
}

/// Puts a stream that was made for the page.
pub fn put_stream(made: Result<TokenStream, AllocError>, page: &mut Page) {
    match made {
        Ok(stream) => page.show(&stream),
        Err(_) => page.cut(),
    }
}
