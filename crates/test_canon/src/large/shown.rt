//! Whether a value is shown as a text.

use std::alloc::Global;
use std::fmt::Display;
use test_support::Page;

/// Whether a page has all that was put onto it, and that is the text.
pub(crate) fn is_text(page: &Page, text: &str) -> bool {
    match page.whole() {
        Ok(whole) => whole == text,
        Err(_) => false,
    }
}

/// Whether a value is shown as the text behind a front.
pub(crate) fn is_shown<T: Display>(alloc: Global, value: &T, front: &str, text: &str) -> bool {
    let mut page = Page::new(alloc);
    page.show(value);
    match page.whole() {
        Ok(whole) => whole.strip_prefix(front) == Some(text),
        Err(_) => false,
    }
}
