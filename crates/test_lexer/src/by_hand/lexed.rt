//! The tokens of a text behind an older one.

use super::behind::Older;
use proc_macro2::tree::TokenStream;
use rust_map::fault::LexFault;
use test_support::{Page, Stop};

/// Puts the printed tokens of a text that is put behind the older one, or the place of its fault.
pub fn lexed(text: &str, page: &mut Page) -> Result<(), Stop> {
    let mut older = Older::new(page.alloc())?;
    let before = older.answers(page.alloc());
    let outcome = put(
        TokenStream::from_str(page.alloc(), text, &mut older.map),
        page,
    );
    older.left(&before, outcome)
}

fn put(read: Result<TokenStream, LexFault>, page: &mut Page) -> Result<(), Stop> {
    match read {
        Ok(stream) => write!(page, "{stream}\n"),
        Err(LexFault::Lex(error)) => write!(page, "{error}\n"),
        Err(LexFault::Memory) => return Err(Stop::Refused),
        Err(LexFault::MapFull) => return Err(Stop::Changed),
    }
    Ok(())
}
