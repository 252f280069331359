//! Literals of texts, and their values.

use super::behind::Older;
use rust_leaf::literal::Literal;
use rust_leaf::value::ConversionErrorKind;
use rust_map::fault::LexFault;
use std::alloc::AllocError;
use test_support::{Page, Stop};

// What a literal is of.
#[derive(Clone, Copy)]
enum Kind {
    Text,
    Bytes,
    CString,
}

/// Puts the print and the value of a string, a byte string and a C string.
pub fn literals(page: &mut Page) -> Result<(), Stop> {
    let mut older = Older::new(page.alloc())?;
    put_text_of("\"\\u{e9}\\\n  t\"", Kind::Text, &mut older, page)?;
    put_text_of("br#\"a\"\"#", Kind::Bytes, &mut older, page)?;
    put_made(Literal::c_string(page.alloc(), &[1, 200, 65]), page)
}

// Puts the literal of a text that is put behind the older one, whose spans are as before.
fn put_text_of(text: &str, kind: Kind, older: &mut Older, page: &mut Page) -> Result<(), Stop> {
    let before = older.answers(page.alloc());
    let read = Literal::from_str(page.alloc(), text, &mut older.map);
    let outcome = put_read(read, kind, page);
    older.left(&before, outcome)
}

fn put_read(read: Result<Literal, LexFault>, kind: Kind, page: &mut Page) -> Result<(), Stop> {
    match read {
        Ok(literal) => put(&literal, kind, page),
        Err(LexFault::Memory) => Err(Stop::Refused),
        Err(LexFault::Lex(_) | LexFault::MapFull) => Err(Stop::Changed),
    }
}

fn put_made(made: Result<Literal, AllocError>, page: &mut Page) -> Result<(), Stop> {
    match made {
        Ok(literal) => put(&literal, Kind::CString, page),
        Err(_) => Err(Stop::Refused),
    }
}

// Puts a line: the print of a literal, and its value.
fn put(literal: &Literal, kind: Kind, page: &mut Page) -> Result<(), Stop> {
    write!(page, "{literal} ");
    let alloc = page.alloc();
    match kind {
        Kind::Text => put_text(literal.str_value(alloc), page),
        Kind::Bytes => put_bytes(literal.byte_str_value(alloc), page),
        Kind::CString => put_bytes(literal.cstr_value(alloc), page),
    }
}

fn put_text(value: Result<String, ConversionErrorKind>, page: &mut Page) -> Result<(), Stop> {
    match value {
        Ok(text) => write!(page, "{text}\n"),
        Err(kind) => return Err(why(kind)),
    }
    Ok(())
}

fn put_bytes(value: Result<Vec<u8>, ConversionErrorKind>, page: &mut Page) -> Result<(), Stop> {
    match value {
        Ok(bytes) => write!(page, "{bytes:?}\n"),
        Err(kind) => return Err(why(kind)),
    }
    Ok(())
}

// Why a literal that has a value gave none.
fn why(kind: ConversionErrorKind) -> Stop {
    match kind {
        ConversionErrorKind::Memory => Stop::Refused,
        _ => Stop::Changed,
    }
}
