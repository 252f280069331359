//! How values are shown on pages of their own, and whether they are as before.

use std::alloc::Global;
use std::fmt::Display;
use test_support::{Page, Stop};

/// A value as users are shown it, on a page of its own.
pub fn shown<T: Display>(alloc: Global, value: &T) -> Page {
    let mut page = Page::new(alloc);
    page.show(value);
    page
}

/// Nothing where two pages have the same text. `Elsewhere` where one of them is cut.
pub fn as_before(before: &Page, after: &Page) -> Result<(), Stop> {
    match (before.whole(), after.whole()) {
        (Ok(old), Ok(new)) if old == new => Ok(()),
        (Ok(_), Ok(_)) => Err(Stop::Changed),
        _ => Err(Stop::Elsewhere),
    }
}
