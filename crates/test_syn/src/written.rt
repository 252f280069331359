//! How a tree is written.

use std::alloc::{AllocError, Global};
use syn::{Position, Tree, put_as_read};
use test_support::{Page, Unanswered};
use writer_built::build::write_in;
use writer_print::piece::Piece;
use writer_print::print::print;
use writer_read::write::write;

/// How a tree is written.
#[derive(Clone, Copy)]
pub(crate) enum Writing {
    /// As a tree that was read.
    Read,
    /// Just as it is.
    Plain,
    /// As the form of an expression that was built, in a position.
    Built(Position),
}

// Puts the tokens of a tree.
fn put_pieces<'a>(
    writing: Writing,
    tree: &Tree<'a>,
    pieces: &mut Vec<Piece<'a>>,
) -> Result<(), AllocError> {
    match writing {
        Writing::Read => write(tree, pieces),
        Writing::Plain => put_as_read(tree, pieces),
        Writing::Built(position) => write_in(position, tree, pieces),
    }
}

/// Puts the print of a tree.
pub(crate) fn put_print(writing: Writing, tree: &Tree<'_>, page: &mut Page) {
    let mut pieces = Vec::new(page.alloc());
    match put_pieces(writing, tree, &mut pieces) {
        Ok(()) => page.put_made(print(page.alloc(), pieces.as_slice())),
        Err(_) => page.cut(),
    }
}

/// Whether a page has that text.
pub(crate) fn is_text(page: &Page, wanted: &str) -> Result<bool, Unanswered> {
    Ok(page.whole()? == wanted)
}

/// Whether that is the print of a tree.
pub(crate) fn is_print(
    alloc: Global,
    writing: Writing,
    tree: &Tree<'_>,
    wanted: &str,
) -> Result<bool, Unanswered> {
    let mut page = Page::new(alloc);
    put_print(writing, tree, &mut page);
    is_text(&page, wanted)
}
