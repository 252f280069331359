//! What the constructors of texts, of characters and of names write. What is written for a value is read back as that
//! value.

use rust_escape::{unescape_byte, unescape_char};
use rust_leaf::ident::{Ident, IdentFault};
use rust_leaf::literal::Literal;
use rust_leaf::value::ConversionErrorKind;
use rust_map::span::Span;
use std::alloc::AllocError;
use test_support::{Page, Unanswered, read_bytes};

/// `Literal::string` of a text.
pub fn string(text: &str, page: &mut Page) {
    match Literal::string(page.alloc(), text) {
        Ok(literal) => put_text(&literal, literal.str_value(page.alloc()), text, page),
        Err(_) => page.cut(),
    }
}

// A literal that is made of a text, if it has it as its value.
fn put_text(
    literal: &Literal,
    value: Result<String, ConversionErrorKind>,
    text: &str,
    page: &mut Page,
) {
    match value {
        Ok(value) => page.quote(if value.as_str() == text {
            literal.as_str()
        } else {
            value.as_str()
        }),
        Err(error) => page.debug(&error),
    }
}

// A literal that is made of bytes, if it has them as its value.
fn put_back(
    literal: &Literal,
    value: Result<Vec<u8>, ConversionErrorKind>,
    bytes: &[u8],
    page: &mut Page,
) {
    match value {
        Ok(value) if value.as_slice() == bytes => page.quote(literal.as_str()),
        Ok(value) => page.put_bytes(value.as_slice()),
        Err(error) => page.debug(&error),
    }
}

/// `Literal::byte_string` of the bytes that a text has by their numbers.
pub fn byte_string(text: &str, page: &mut Page) -> Result<(), Unanswered> {
    let bytes = read_bytes(page.alloc(), text)?;
    put_byte_string(bytes.as_slice(), page);
    Ok(())
}

fn put_byte_string(bytes: &[u8], page: &mut Page) {
    match Literal::byte_string(page.alloc(), bytes) {
        Ok(literal) => put_back(&literal, literal.byte_str_value(page.alloc()), bytes, page),
        Err(_) => page.cut(),
    }
}

/// `Literal::c_string` of such bytes, whose value has a zero more.
pub fn c_string(text: &str, page: &mut Page) -> Result<(), Unanswered> {
    let bytes = read_bytes(page.alloc(), text)?;
    put_c_string(bytes, page)
}

fn put_c_string(mut bytes: Vec<u8>, page: &mut Page) -> Result<(), Unanswered> {
    if bytes.as_slice().contains(&0) {
        return Err(Unanswered::NoRow);
    }
    let literal = Literal::c_string(page.alloc(), bytes.as_slice())?;
    bytes.push(0)?;
    let value = literal.cstr_value(page.alloc());
    put_back(&literal, value, bytes.as_slice(), page);
    Ok(())
}

// The text between a literal's quotes, which take some bytes at its front and one at its end.
fn between(text: &str, front: usize) -> Option<&str> {
    text.get(front..)?.strip_suffix('\'')
}

/// `Literal::character` of a text's one character.
pub fn character(text: &str, page: &mut Page) -> Result<(), Unanswered> {
    match text.chars().next() {
        Some(ch) => put_character(Literal::character(page.alloc(), ch), ch, page),
        None => return Err(Unanswered::NoRow),
    }
    Ok(())
}

fn put_character(made: Result<Literal, AllocError>, ch: char, page: &mut Page) {
    match made {
        Ok(literal) => match between(literal.as_str(), 1).map(unescape_char) {
            Some(Ok(value)) if value == ch => page.quote(literal.as_str()),
            other => page.debug(&other),
        },
        Err(_) => page.cut(),
    }
}

/// `Literal::byte_character` of the byte that a text has by its number.
pub fn byte_character(text: &str, page: &mut Page) -> Result<(), Unanswered> {
    match u8::from_str_radix(text, 16) {
        Ok(byte) => put_byte(Literal::byte_character(page.alloc(), byte), byte, page),
        Err(_) => return Err(Unanswered::NoRow),
    }
    Ok(())
}

fn put_byte(made: Result<Literal, AllocError>, byte: u8, page: &mut Page) {
    match made {
        Ok(literal) => match between(literal.as_str(), 2).map(unescape_byte) {
            Some(Ok(value)) if value == byte => page.quote(literal.as_str()),
            other => page.debug(&other),
        },
        Err(_) => page.cut(),
    }
}

// A name as it is printed, or why a text is none.
fn tell(answer: Result<Ident, IdentFault>, page: &mut Page) {
    match answer {
        Ok(ident) => page.quote_made(ident.to_string(page.alloc())),
        Err(fault) => page.debug(&fault),
    }
}

/// `Ident::new` of a text.
pub fn ident(text: &str, page: &mut Page) {
    tell(Ident::new(page.alloc(), text, Span::call_site()), page);
}

/// `Ident::new_raw` of a text.
pub fn raw_ident(text: &str, page: &mut Page) {
    tell(Ident::new_raw(page.alloc(), text, Span::call_site()), page);
}
