//! The printed text of tokens that are to be written.

ghost use Rattle.writer_print.specs.Pieces.{piece_token};
ghost use Rattle.proc_macro2.specs.Printed as printed;
ghost use Rattle.rust_leaf.specs.Leaf.{text_of};
ghost use Rattle.std.specs.Prelude.{◌≡◌, IfOk, map};

use crate::piece::Piece;
use crate::sheet::Sheet;
use std::alloc::{AllocError, Global};

/// The text of tokens, in one pass, as streams are printed.
///
/// # Errors
///
/// Where the text can't grow.
pub fn print(alloc: Global, pieces: &[Piece]) -> Result<String, AllocError>
    ensures { IfOk result (λ s. text_of s ≡ printed.text (map piece_token pieces.now)) }
{
    let mut sheet = Sheet::new(alloc);
    sheet.put(pieces)?;
    Ok(sheet.into_text())
}
