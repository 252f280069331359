//! Forms that may be missing.

use syn::{Arena, ParseFault, ParseOptional, Reader, TokenBuffer, print};
use test_support::{Page, Stop, refused};
use writer_print::piece::Piece;

// Puts the tokens that are left.
fn put_left(input: &Reader<'_>, page: &mut Page) -> Result<(), Stop> {
    let mut pieces = Vec::new(page.alloc());
    for entry in input.entries() {
        pieces.push(Piece::of(entry))?;
    }
    page.put_made(print(page.alloc(), pieces.as_slice()));
    Ok(())
}

// What is said of a form that may be missing, if memory was not refused.
fn said<T: Copy>(found: Result<Option<T>, ParseFault>) -> Option<&'static str> {
    match found {
        Ok(Some(_)) => Some("read, before: "),
        Ok(None) => Some("missing, before: "),
        Err(ParseFault::Syntax(_)) => Some("refused, before: "),
        Err(ParseFault::Memory) => None,
    }
}

/// Puts whether a form stands there and is read, is missing or is broken, and what is left then. Where memory is
/// refused, that is all that was left before.
pub(crate) fn put_found<'a, T: ParseOptional<'a> + Copy>(
    arena: &'a Arena,
    buffer: &'a TokenBuffer<'a>,
    page: &mut Page,
) -> Result<(), Stop> {
    let mut input = Reader::new(arena, buffer);
    let left = input.entries().len();
    match said(input.parse_optional::<T>()) {
        Some(words) => {
            page.put(words);
            put_left(&input, page)
        }
        None => refused(input.entries().len() == left),
    }
}
