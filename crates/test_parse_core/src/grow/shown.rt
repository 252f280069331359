//! How values are shown on pages of their own, and whether as before.

use crate::errors::put_messages;
use crate::texts::put_tokens;
use std::alloc::Global;
use std::fmt::Display;
use syn_error::{Error, ToTokens};
use test_support::Page;

/// The print of a value, on a page of its own.
pub(crate) fn print_of<T: ToTokens>(alloc: Global, value: &T) -> Page {
    let mut page = Page::new(alloc);
    put_tokens(value, &mut page);
    page
}

/// The words of all messages in lines, likewise.
pub(crate) fn messages_of(alloc: Global, error: &Error) -> Page {
    let mut page = Page::new(alloc);
    put_messages(error, &mut page);
    page
}

/// A value as users are shown it, likewise.
pub(crate) fn display_of<T: Display>(alloc: Global, value: &T) -> Page {
    let mut page = Page::new(alloc);
    page.show(value);
    page
}

/// Whether a page has all that was put onto it, and that is the text.
pub(crate) fn is_text(page: &Page, text: &str) -> bool {
    match page.whole() {
        Ok(whole) => whole == text,
        Err(_) => false,
    }
}

/// Whether it is a first part of the text.
pub(crate) fn is_front_of(page: &Page, text: &str) -> bool {
    match page.whole() {
        Ok(whole) => text.starts_with(whole),
        Err(_) => false,
    }
}

/// Whether it begins with the text.
pub(crate) fn begins_with(page: &Page, text: &str) -> bool {
    match page.whole() {
        Ok(whole) => whole.starts_with(text),
        Err(_) => false,
    }
}
