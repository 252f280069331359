//! What the calls are given.

use proc_macro2::{Ident, IdentFault, SourceMap, Span, TokenStream};
use std::alloc::Global;
use syn_error::{Error, ToTokens};
use syn_kinds::token;
use syn_lists::Punctuated;
use test_support::{Stop, looked_at};

/// Names with commas between them.
pub(crate) type Names = Punctuated<Ident, token::Comma>;

/// The tokens of a text of its own.
pub(crate) fn lexed(alloc: Global, text: &str) -> Result<TokenStream, Stop> {
    lexed_in(alloc, text, &mut SourceMap::new(alloc))
}

/// The tokens of a text that is put into a map.
pub(crate) fn lexed_in(
    alloc: Global,
    text: &str,
    map: &mut SourceMap,
) -> Result<TokenStream, Stop> {
    match TokenStream::from_str(alloc, text, map) {
        Ok(stream) => Ok(stream),
        Err(_) => Err(Stop::Elsewhere),
    }
}

/// An identifier of that text.
pub(crate) fn name(alloc: Global, text: &str) -> Result<Ident, Stop> {
    match Ident::new(alloc, text, Span::call_site()) {
        Ok(ident) => Ok(ident),
        Err(IdentFault::Memory) => Err(Stop::Refused),
        Err(_) => Err(Stop::Changed),
    }
}

/// The tokens that stand before others.
pub(crate) fn front(alloc: Global) -> Result<TokenStream, Stop> {
    looked_at(name(alloc, "front")?.to_token_stream(alloc))
}

/// An error that says those words.
pub(crate) fn message(alloc: Global, words: &str) -> Result<Error, Stop> {
    looked_at(Error::new(alloc, Span::call_site(), words))
}
