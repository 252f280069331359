//! Which literal a text is, its value and its suffix, and what is printed for it.

use crate::texts::{put_stream, put_tokens};
use proc_macro2::{Literal, SourceMap, Span, TokenStream, TryClone};
use std::alloc::{AllocError, Global};
use syn_error::ToTokens;
use syn_leaf::{Index, Lit, LitBool, Member};
use test_support::{Page, Unanswered};

// The literal of a text, true and false among them.
fn literal(alloc: Global, text: &str) -> Result<Lit, Unanswered> {
    match text {
        "true" => Ok(Lit::from(LitBool::new(true, Span::call_site()))),
        "false" => Ok(Lit::from(LitBool::new(false, Span::call_site()))),
        _ => token(alloc, text),
    }
}

fn token(alloc: Global, text: &str) -> Result<Lit, Unanswered> {
    match Literal::from_str(alloc, text, &mut SourceMap::new(alloc)) {
        Ok(token) => Ok(Lit::new(token)),
        Err(_) => Err(Unanswered::NoRow),
    }
}

/// What a call, by its name, answers of the literal of a text.
pub fn answer(call: &str, text: &str, page: &mut Page) -> Result<(), Unanswered> {
    match literal(page.alloc(), text) {
        Ok(lit) => put(call, &lit, page),
        Err(_) => Err(Unanswered::NoRow),
    }
}

// Puts which literal it is, its value, its suffix, what is printed for it, or for the index that it writes.
fn put(call: &str, lit: &Lit, page: &mut Page) -> Result<(), Unanswered> {
    match call {
        "new" => page.put(name(lit)),
        "value" => return put_value(lit, page),
        "suffix" => page.quote(lit.suffix()),
        "tokens" => put_tokens(lit, page),
        "index" => return put_index(number(lit), page),
        _ => return Err(Unanswered::NoRow),
    }
    Ok(())
}

fn name(lit: &Lit) -> &'static str {
    match lit {
        Lit::Str(_) => "Str",
        Lit::ByteStr(_) => "ByteStr",
        Lit::CStr(_) => "CStr",
        Lit::Byte(_) => "Byte",
        Lit::Char(_) => "Char",
        Lit::Int(_) => "Int",
        Lit::Float(_) => "Float",
        Lit::Bool(_) => "Bool",
        Lit::Verbatim(_) => "Verbatim",
    }
}

// The value of a literal: the number that an integer writes, and what the units of one in quotes spell.
fn put_value(lit: &Lit, page: &mut Page) -> Result<(), Unanswered> {
    let alloc = page.alloc();
    match lit {
        Lit::Int(literal) => put_number(literal.value(), page),
        Lit::Str(literal) => page.quote_made(literal.value(alloc)),
        Lit::ByteStr(literal) => put_bytes(literal.value(alloc), page),
        Lit::CStr(literal) => put_bytes(literal.value(alloc), page),
        Lit::Byte(literal) => page.put_bytes(&[literal.value()]),
        Lit::Char(literal) => page.quote(literal.value().encode_utf8(&mut [0u8; 4])),
        _ => return Err(Unanswered::NoRow),
    }
    Ok(())
}

fn put_number(number: Option<u128>, page: &mut Page) {
    match number {
        Some(value) => write!(page, "{value}"),
        None => page.put("none"),
    }
}

fn put_bytes(value: Result<Vec<u8>, AllocError>, page: &mut Page) {
    match value {
        Ok(bytes) => page.put_bytes(bytes.as_slice()),
        Err(_) => page.cut(),
    }
}

/// Whether two literals, one space apart, are equal, and a copy is equal to the first.
pub fn equal(text: &str, page: &mut Page) -> Result<(), Unanswered> {
    let (first, second) = text.split_once(' ').ok_or(Unanswered::NoRow)?;
    let is_same = are_equal(page.alloc(), first, second)?;
    let is_copied = is_copied(page.alloc(), first)?;
    write!(page, "{is_same}, copy {is_copied}");
    Ok(())
}

fn are_equal(alloc: Global, first: &str, second: &str) -> Result<bool, Unanswered> {
    let lit = literal(alloc, first)?;
    Ok(lit == literal(alloc, second)?)
}

fn is_copied(alloc: Global, text: &str) -> Result<bool, Unanswered> {
    let lit = literal(alloc, text)?;
    Ok(lit == lit.try_clone()?)
}

// What is printed for the index of a number, and for the member of it.
fn put_index(number: Option<u32>, page: &mut Page) -> Result<(), Unanswered> {
    match number {
        Some(number) => put_stream(both(page.alloc(), number), page),
        None => return Err(Unanswered::NoRow),
    }
    Ok(())
}

fn both(alloc: Global, number: u32) -> Result<TokenStream, AllocError> {
    let mut stream = Index::from(number).to_token_stream(alloc)?;
    Member::from(number).to_tokens(&mut stream)?;
    Ok(stream)
}

// The number that an integer writes, if an index can be of it.
fn number(lit: &Lit) -> Option<u32> {
    match lit {
        Lit::Int(literal) => u32::try_from(literal.value()?).ok(),
        _ => None,
    }
}
