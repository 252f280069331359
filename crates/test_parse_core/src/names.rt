//! Identifiers that are read where keywords stand too, and without `r#`; lists of names that are printed and read back.

use crate::lookahead::put_list;
use laws_lists::read_back::reread;
use proc_macro2::Ident;
use std::alloc::AllocError;
use syn_kinds::keyword::Keyword;
use syn_kinds::token;
use syn_parse::{Cursor, IdentAny, IdentExt, ParseBuffer, Punctuated};
use test_support::Page;

/// Whether a name stands there, and the identifier that does, with its `r#` and without it, or the fault.
pub fn read(begin: Cursor<'_>, page: &mut Page) {
    let mut input = ParseBuffer::new(page.alloc(), begin);
    let name = input.peek::<Ident>();
    let any = input.peek::<IdentAny>();
    write!(page, "{name} {any}: ");
    match Ident::parse_any(&mut input) {
        Ok(ident) => put_bare(&ident, input.is_empty(), page),
        Err(fault) => {
            let stays = input.cursor().entries_left() == begin.entries_left();
            write!(page, "{fault} {stays}\n");
        }
    }
}

fn put_bare(ident: &Ident, all: bool, page: &mut Page) {
    match ident.unraw(page.alloc()) {
        Ok(bare) => {
            let same_place = bare.span().eq(&ident.span());
            write!(page, "{ident} {bare} {same_place} {all}\n");
        }
        Err(_) => page.cut(),
    }
}

/// A list of names that is read, printed and read back: how long it is, whether a separator ends it, and its print.
pub fn read_back(begin: Cursor<'_>, page: &mut Page) {
    let mut input = ParseBuffer::new(page.alloc(), begin);
    match Punctuated::<Ident, token::PathSep>::parse_terminated(&mut input) {
        Ok(list) => put_back(&list, page),
        Err(fault) => write!(page, "{fault}\n"),
    }
}

fn put_back(list: &Punctuated<Ident, token::PathSep>, page: &mut Page) {
    match reread(page.alloc(), list) {
        Ok(back) => put_list(&back, page),
        Err(_) => page.cut(),
    }
}

/// The identifiers that tokens are, of which `Ident` is not read.
pub fn of_tokens(page: &mut Page) {
    put_made(token::Underscore::default().to_ident(page.alloc()), page);
    of_keyword(token::SelfValue::default(), page);
    of_keyword(token::SelfType::default(), page);
    of_keyword(token::Super::default(), page);
    of_keyword(token::Crate::default(), page);
    of_keyword(token::Extern::default(), page);
}

fn of_keyword<const K: usize>(keyword: Keyword<K>, page: &mut Page) {
    put_made(keyword.to_ident(page.alloc()), page);
}

fn put_made(made: Result<Ident, AllocError>, page: &mut Page) {
    match made {
        Ok(ident) => write!(page, "{ident}\n"),
        Err(_) => page.cut(),
    }
}

/// The lifetime that stands there, and how many tokens are left behind it.
pub fn lifetime(begin: Cursor<'_>, page: &mut Page) {
    match begin.lifetime() {
        Ok(Some((lifetime, behind))) => {
            let left = behind.entries_left();
            write!(page, "{lifetime}, {left} left\n");
        }
        Ok(None) => page.put("no lifetime\n"),
        Err(_) => page.cut(),
    }
}
