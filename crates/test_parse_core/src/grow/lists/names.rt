//! Identifiers that are read where keywords stand too, and made without `r#`.

use proc_macro2::Ident;
use syn_parse::{Cursor, IdentExt, ParseBuffer};
use test_support::{Page, Stop, refused};

/// Puts identifiers that are read one by one, and made without their `r#`.
pub(crate) fn put_names(begin: Cursor<'_>, page: &mut Page) -> Result<(), Stop> {
    let mut input = ParseBuffer::new(page.alloc(), begin);
    for text in ["fn", "r#fn", "a_name_longer_than_that"] {
        put_next(&mut input, text, page)?;
    }
    Ok(())
}

// Puts the next one. Where it can't be read, the stream stands before it.
fn put_next(input: &mut ParseBuffer<'_>, text: &str, page: &mut Page) -> Result<(), Stop> {
    let before = input.cursor().entries_left();
    match Ident::parse_any(input) {
        Ok(ident) => put_bare(&ident, text, page),
        Err(_) => refused(input.cursor().entries_left() == before),
    }
}

// Puts it with its `r#` and without it. Where the other can't be made, it is as before.
fn put_bare(ident: &Ident, text: &str, page: &mut Page) -> Result<(), Stop> {
    match ident.unraw(page.alloc()) {
        Ok(bare) => {
            write!(page, "{ident} {bare}\n");
            Ok(())
        }
        Err(_) => refused(ident.is_text(text)),
    }
}
