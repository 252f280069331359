//! What is said where kinds that are looked for do not stand, and lists that are read with separators.

use crate::lists::word;
use proc_macro2::Ident;
use std::alloc::{AllocError, Global};
use syn_error::{ParseFault, ToTokens};
use syn_kinds::token;
use syn_lists::Punctuated;
use syn_parse::{Cursor, IdentExt, Lookahead1, Parse, ParseBuffer, ParseBufferExt, read_many};
use test_support::Page;

/// Looks for so many kinds, none of which stands there.
pub fn kinds(count: usize, begin: Cursor<'_>, page: &mut Page) {
    let mut look = ParseBuffer::new(page.alloc(), begin).lookahead1();
    match is_found(count, &mut look) {
        Ok(true) => page.put("found\n"),
        Ok(false) => {
            let fault = look.error();
            write!(page, "{fault}\n");
        }
        Err(_) => page.cut(),
    }
}

// Whether one of so many kinds stands there.
fn is_found(count: usize, look: &mut Lookahead1<'_>) -> Result<bool, AllocError> {
    Ok(
        0 < count && look.peek::<token::Struct>()?
            || 1 < count && look.peek::<token::Enum>()?
            || 2 < count && look.peek::<token::Union>()?,
    )
}

/// What is read.
pub type Read<P> = Result<Punctuated<Ident, P>, ParseFault>;

// Puts what was read, or why nothing was.
fn put<P: ToTokens + Drop>(read: Read<P>, page: &mut Page) {
    match read {
        Ok(names) => put_list(&names, page),
        Err(fault) => write!(page, "{fault}\n"),
    }
}

/// Puts how many values a list has, whether a separator stands behind the last, and its tokens.
pub fn put_list<P: ToTokens>(names: &Punctuated<Ident, P>, page: &mut Page) {
    let count = names.len();
    let trailing = names.trailing_punct();
    match names.to_token_stream(page.alloc()) {
        Ok(printed) => write!(page, "{count} {trailing}: {printed}\n"),
        Err(_) => page.cut(),
    }
}

/// Names with commas between them, to the end, by each of the three calls.
pub fn listed(begin: Cursor<'_>, page: &mut Page) {
    put(terminated(page.alloc(), begin), page);
    put(terminated_with(page.alloc(), begin), page);
    put(terminated_by(page.alloc(), begin), page);
}

/// Names with commas between them, to the end.
pub fn terminated(alloc: Global, begin: Cursor<'_>) -> Read<token::Comma> {
    Punctuated::parse_terminated(&mut ParseBuffer::new(alloc, begin))
}

/// The same by a function.
pub fn terminated_with(alloc: Global, begin: Cursor<'_>) -> Read<token::Comma> {
    let mut input = ParseBuffer::new(alloc, begin);
    Punctuated::parse_terminated_with(&mut input, |input| input.parse::<Ident>())
}

/// The same by the call that is handed a separator.
pub fn terminated_by(alloc: Global, begin: Cursor<'_>) -> Read<token::Comma> {
    let mut input = ParseBuffer::new(alloc, begin);
    input.parse_terminated(Ident::parse, token::Comma::default())
}

/// Names with commas between them, of which two are taken out again.
pub fn emptied(begin: Cursor<'_>, page: &mut Page) {
    match terminated(page.alloc(), begin) {
        Ok(mut names) => {
            let _ = names.pop();
            let _ = names.pop();
            let is_empty = names.is_empty();
            word(if is_empty { "empty" } else { "not empty" }, page);
        }
        Err(fault) => write!(page, "{fault}\n"),
    }
}

/// Names with pluses between them, keywords among them, at least one.
pub fn summed(begin: Cursor<'_>, page: &mut Page) {
    let mut input = ParseBuffer::new(page.alloc(), begin);
    let read = Punctuated::<Ident, token::Plus>::parse_separated_nonempty_with(
        &mut input,
        Ident::parse_any,
    );
    put(read, page);
    word(if input.is_empty() { "all" } else { "some left" }, page);
}

/// Names with commas between them, until a `>`.
pub fn until(begin: Cursor<'_>, page: &mut Page) {
    let mut input = ParseBuffer::new(page.alloc(), begin);
    let read = read_many::<Ident, token::Comma, token::Gt, _>(&mut input, Ident::parse);
    put(read, page);
}
