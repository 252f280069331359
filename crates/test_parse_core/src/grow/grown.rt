//! What came of a growth. Where it was refused, what was there is as before.

use crate::grow::given::Names;
use crate::grow::shown::{begins_with, display_of, is_text, print_of};
use proc_macro2::{Ident, TokenStream};
use std::alloc::{AllocFailed, Global};
use syn_error::ToTokens;
use test_support::{Stop, refused};

/// A name that was put into a list. Where it was refused, it comes back, and the list is printed as before.
pub(crate) fn put_in(
    answer: Result<(), AllocFailed<Ident>>,
    names: &Names,
    text: &str,
    before: &str,
) -> Result<(), Stop> {
    match answer {
        Ok(()) => Ok(()),
        Err(back) => refused(back.value.is_text(text) && is_list(names, before)),
    }
}

/// Whether a list's print is that text.
pub(crate) fn is_list(names: &Names, text: &str) -> bool {
    is_text(&print_of(names.allocator(), names), text)
}

/// Puts the print of a value behind the tokens of `front`. Where that is refused, those stand in front.
pub(crate) fn print_behind<T: ToTokens>(
    alloc: Global,
    value: &T,
    tokens: &mut TokenStream,
) -> Result<(), Stop> {
    match value.to_tokens(tokens) {
        Ok(()) => Ok(()),
        Err(_) => refused(begins_with(&display_of(alloc, tokens), "front")),
    }
}
