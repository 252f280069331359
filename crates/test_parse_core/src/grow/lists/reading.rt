//! Lists that are read.

use crate::grow::given::Names;
use crate::lists::show_tokens;
use crate::lookahead::{terminated, terminated_by, terminated_with};
use proc_macro2::Ident;
use std::alloc::Global;
use syn_error::ParseFault;
use syn_kinds::token;
use syn_parse::{Cursor, ParseBuffer, read_many};
use test_support::{Page, Stop, refused};

/// Puts a list that is read by each of the calls.
pub(crate) fn put_lists(begin: Cursor<'_>, page: &mut Page) -> Result<(), Stop> {
    let alloc = page.alloc();
    put_read(terminated(alloc, begin), begin, page)?;
    put_read(terminated_with(alloc, begin), begin, page)?;
    put_read(terminated_by(alloc, begin), begin, page)?;
    put_read(separated(alloc, begin), begin, page)?;
    put_read(separated_with(alloc, begin), begin, page)?;
    put_read(until(alloc, begin), begin, page)
}

type List = Result<Names, ParseFault>;

// Puts the print of what was read. Where memory was refused, the first name is still there.
fn put_read(read: List, begin: Cursor<'_>, page: &mut Page) -> Result<(), Stop> {
    match read {
        Ok(names) => {
            show_tokens(&names, page);
            Ok(())
        }
        Err(ParseFault::Memory) => refused(begins(begin)),
        Err(_) => Err(Stop::Changed),
    }
}

// Whether the first name stands there.
fn begins(begin: Cursor<'_>) -> bool {
    match begin.ident() {
        Some((ident, _)) => ident.is_text("a"),
        None => false,
    }
}

fn separated(alloc: Global, begin: Cursor<'_>) -> List {
    Names::parse_separated_nonempty(&mut ParseBuffer::new(alloc, begin))
}

fn separated_with(alloc: Global, begin: Cursor<'_>) -> List {
    let mut input = ParseBuffer::new(alloc, begin);
    Names::parse_separated_nonempty_with(&mut input, |input| input.parse::<Ident>())
}

fn until(alloc: Global, begin: Cursor<'_>) -> List {
    let mut input = ParseBuffer::new(alloc, begin);
    read_many::<Ident, token::Comma, token::Semi, _>(&mut input, |input| input.parse::<Ident>())
}
