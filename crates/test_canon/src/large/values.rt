//! Leaves of large texts, and their values.

use super::shown::is_shown;
use rust_leaf::ident::Ident;
use rust_leaf::literal::Literal;
use rust_leaf::value::ConversionErrorKind;
use rust_map::SourceMap;
use rust_map::span::Span;
use std::alloc::Global;
use test_support::{Page, Unanswered};
use try_clone::TryClone;

// A text over and over.
fn repeated(alloc: Global, part: &str) -> Page {
    let mut page = Page::new(alloc);
    for _ in 0..2_000 {
        page.put(part);
    }
    page
}

/// Whether a literal of 2,000 times three characters has the value that was put in: as text, as bytes, and as a C
/// string with its zero; and a copy the same text.
pub fn are_read_back(alloc: Global) -> Result<bool, Unanswered> {
    let page = repeated(alloc, "s\u{e9}\n");
    let text = page.whole()?;
    let bytes = text.as_bytes();
    Ok(is_string(alloc, text) && is_byte_string(alloc, bytes) && is_c_string(alloc, bytes))
}

fn is_string(alloc: Global, text: &str) -> bool {
    match Literal::string(alloc, text) {
        Ok(literal) => has_text(literal.str_value(alloc), text) && is_copied(&literal),
        Err(_) => false,
    }
}

fn has_text(value: Result<String, ConversionErrorKind>, text: &str) -> bool {
    match value {
        Ok(value) => value.as_str() == text,
        Err(_) => false,
    }
}

fn is_copied(literal: &Literal) -> bool {
    match literal.try_clone() {
        Ok(copy) => copy.as_str() == literal.as_str(),
        Err(_) => false,
    }
}

fn is_byte_string(alloc: Global, bytes: &[u8]) -> bool {
    match Literal::byte_string(alloc, bytes) {
        Ok(literal) => has_bytes(literal.byte_str_value(alloc), bytes, &[]),
        Err(_) => false,
    }
}

fn is_c_string(alloc: Global, bytes: &[u8]) -> bool {
    if bytes.contains(&0) {
        return false;
    }
    match Literal::c_string(alloc, bytes) {
        Ok(literal) => has_bytes(literal.cstr_value(alloc), bytes, &[0]),
        Err(_) => false,
    }
}

// Whether a value is those bytes, and those at the end.
fn has_bytes(value: Result<Vec<u8>, ConversionErrorKind>, bytes: &[u8], end: &[u8]) -> bool {
    match value {
        Ok(value) => value.as_slice().strip_suffix(end) == Some(bytes),
        Err(_) => false,
    }
}

/// Whether an identifier of 2,000 characters, its raw form and a number of as many digits are taken, as they are.
pub fn are_taken(alloc: Global) -> Result<bool, Unanswered> {
    Ok(are_names(alloc)? && is_number(alloc)?)
}

fn are_names(alloc: Global) -> Result<bool, Unanswered> {
    let page = repeated(alloc, "x");
    let name = page.whole()?;
    Ok(is_name(alloc, name) && is_raw_name(alloc, name))
}

fn is_name(alloc: Global, name: &str) -> bool {
    match Ident::new(alloc, name, Span::call_site()) {
        Ok(ident) => is_shown(alloc, &ident, "", name) && has_copy(&ident),
        Err(_) => false,
    }
}

fn has_copy(ident: &Ident) -> bool {
    match ident.try_clone() {
        Ok(copy) => copy == *ident,
        Err(_) => false,
    }
}

fn is_raw_name(alloc: Global, name: &str) -> bool {
    match Ident::new_raw(alloc, name, Span::call_site()) {
        Ok(raw) => is_shown(alloc, &raw, "r#", name),
        Err(_) => false,
    }
}

fn is_number(alloc: Global) -> Result<bool, Unanswered> {
    let page = repeated(alloc, "7");
    let digits = page.whole()?;
    match Literal::from_str(alloc, digits, &mut SourceMap::new(alloc)) {
        Ok(number) => Ok(number.as_str() == digits),
        Err(_) => Ok(false),
    }
}
