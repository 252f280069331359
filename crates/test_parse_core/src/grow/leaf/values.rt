//! The values of literals, and their copies.

use proc_macro2::{Literal, SourceMap};
use std::alloc::{AllocError, Global};
use syn_leaf::Lit;
use test_support::{Page, Stop, refused};
use try_clone::TryClone;

// The literal of a text.
fn literal(alloc: Global, text: &str) -> Result<Lit, Stop> {
    match Literal::from_str(alloc, text, &mut SourceMap::new(alloc)) {
        Ok(token) => Ok(Lit::new(token)),
        Err(_) => Err(Stop::Elsewhere),
    }
}

// The answer of a call on a literal of that text. Where it is refused, the literal is as before.
fn answered<T: Drop>(answer: Result<T, AllocError>, literal: &Lit, text: &str) -> Result<T, Stop> {
    match answer {
        Ok(value) => Ok(value),
        Err(_) => refused(literal.as_str() == text),
    }
}

const TEXT: &str = "\"a longer text\\u{21}\"s";

/// The values of a string, a byte string and a C string.
pub(crate) fn values(page: &mut Page) -> Result<(), Stop> {
    put_value(TEXT, page)?;
    page.put(" ");
    put_value("b\"bytes\\xFF\"", page)?;
    page.put(" ");
    put_value("c\"\\xC3\\xA9\"", page)?;
    page.put("\n");
    Ok(())
}

// Puts the value of the literal of a text.
fn put_value(text: &str, page: &mut Page) -> Result<(), Stop> {
    put_value_of(&literal(page.alloc(), text)?, text, page)
}

fn put_value_of(whole: &Lit, text: &str, page: &mut Page) -> Result<(), Stop> {
    let alloc = page.alloc();
    match whole {
        Lit::Str(string) => page.show(&answered(string.value(alloc), whole, text)?),
        Lit::ByteStr(bytes) => page.debug(&answered(bytes.value(alloc), whole, text)?),
        Lit::CStr(bytes) => page.debug(&answered(bytes.value(alloc), whole, text)?),
        _ => return Err(Stop::Changed),
    }
    Ok(())
}

/// Whether a copy of a long literal is equal to it.
pub(crate) fn copy(page: &mut Page) -> Result<(), Stop> {
    let text = literal(page.alloc(), TEXT)?;
    let copy = answered(text.try_clone(), &text, TEXT)?;
    let same = copy == text;
    write!(page, "{same}\n");
    Ok(())
}
