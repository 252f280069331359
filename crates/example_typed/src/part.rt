//! How a part is put.

use anyhow::Result;
use std::alloc::AllocError;
use syn::{Tree, print, write};

/// Puts the printed normal form of a part, behind these words.
pub(crate) fn put_part(words: &str, part: &Tree, out: &mut String) -> Result<(), AllocError> {
    let alloc = *out.allocator();
    let mut pieces = Vec::new(alloc);
    write(part, &mut pieces)?;
    let text = print(alloc, pieces.as_slice())?;
    write!(out, "{words}{text}")
}

/// The same to the end of a line.
pub(crate) fn put_last(words: &str, part: &Tree, out: &mut String) -> Result<(), AllocError> {
    put_part(words, part, out)?;
    writeln!(out, "")
}
