//! What is written behind older tokens.

use rust_map::span::Span;
use std::alloc::Global;
use test_support::{Page, Stop, looked_at, refused};
use writer_print::piece::Piece;
use writer_print::print::print;

/// Older tokens.
pub(crate) fn older<'a>(alloc: Global) -> Result<Vec<Piece<'a>>, Stop> {
    Ok(vec![in alloc; Piece::Underscore, Piece::Index(7, Span::call_site())]?)
}

/// Puts the text of what was written behind the older tokens. Where that was refused, those stand in front.
pub(crate) fn put_behind(
    is_written: bool,
    pieces: &[Piece<'_>],
    page: &mut Page,
) -> Result<(), Stop> {
    let text = looked_at(print(page.alloc(), pieces))?;
    if is_written {
        page.put(text.as_str());
        Ok(())
    } else {
        refused(text.as_str().starts_with("_ 7"))
    }
}
