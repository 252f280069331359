//! Which texts are literals, and their values.

use rust_leaf::literal::Literal;
use rust_leaf::value::ConversionErrorKind;
use rust_map::source_map::SourceMap;
use rust_map::span::Span;
use std::alloc::{AllocError, Global};
use test_support::Page;

/// `yes` where a text is a literal, which is printed as the text and whose span covers all of it; where it is none,
/// what is said of it.
pub fn judge(text: &str, page: &mut Page) {
    let alloc = page.alloc();
    let mut map = SourceMap::new(alloc);
    if Literal::from_str(alloc, "0", &mut map).is_err() {
        page.cut();
    }
    let is_text = Literal::is_text(text);
    match Literal::from_str(alloc, text, &mut map) {
        Ok(literal) if is_text => page.put(judged(alloc, &literal, text, &map)),
        Ok(_) => page.put("no text of one"),
        Err(_) if is_text => page.put("a text of one"),
        Err(fault) => page.show(&fault),
    }
}

fn judged(alloc: Global, literal: &Literal, text: &str, map: &SourceMap) -> &'static str {
    let is_same = is_printed(alloc, literal, text)
        && is_source(alloc, literal.span(), text, map)
        && is_made_of(alloc, literal, text);
    if is_same { "yes" } else { "another text" }
}

fn is_printed(alloc: Global, literal: &Literal, text: &str) -> bool {
    let mut page = Page::new(alloc);
    page.show(literal);
    match page.whole() {
        Ok(printed) => printed == text && literal.as_str() == text,
        Err(_) => false,
    }
}

// Whether the map holds a literal's span, which covers that text.
fn is_source(alloc: Global, span: Span, text: &str, map: &SourceMap) -> bool {
    map.holds(span) && has_text(span.source_text(alloc, map), text)
}

fn has_text(source: Result<Option<String>, AllocError>, text: &str) -> bool {
    match source {
        Ok(Some(source)) => source.as_str() == text,
        _ => false,
    }
}

// Whether a literal is also made of the text where nothing is checked.
fn is_made_of(alloc: Global, literal: &Literal, text: &str) -> bool {
    Literal::is_text(text) && has_literal(Literal::from_str_unchecked(alloc, text), literal)
}

fn has_literal(made: Result<Literal, AllocError>, literal: &Literal) -> bool {
    match made {
        Ok(made) => made.as_str() == literal.as_str(),
        Err(_) => false,
    }
}

/// The value of a literal by each of the three calls that has one, or why none has.
pub fn values(text: &str, page: &mut Page) {
    let alloc = page.alloc();
    match Literal::from_str(alloc, text, &mut SourceMap::new(alloc)) {
        Ok(literal) => put_values(&literal, page),
        Err(_) => page.put("no literal"),
    }
}

fn put_values(literal: &Literal, page: &mut Page) {
    let alloc = page.alloc();
    let is_text = put_text(literal.str_value(alloc), page);
    let is_bytes = put_bytes("bytes", literal.byte_str_value(alloc), page);
    let is_c_string = put_bytes("C string", literal.cstr_value(alloc), page);
    if !is_text && !is_bytes && !is_c_string {
        page.put("another kind");
    }
}

// Puts the value of a string, or why it has none. Whether the literal is a string.
fn put_text(value: Result<String, ConversionErrorKind>, page: &mut Page) -> bool {
    match value {
        Ok(text) => {
            page.put("text ");
            page.quote(text.as_str());
            true
        }
        Err(kind) => put_fault("text", kind, page),
    }
}

// The same of one that has bytes.
fn put_bytes(name: &str, value: Result<Vec<u8>, ConversionErrorKind>, page: &mut Page) -> bool {
    match value {
        Ok(bytes) => {
            write!(page, "{name} ");
            page.put_bytes(bytes.as_slice());
            true
        }
        Err(kind) => put_fault(name, kind, page),
    }
}

fn put_fault(name: &str, kind: ConversionErrorKind, page: &mut Page) -> bool {
    match kind {
        ConversionErrorKind::InvalidLiteralKind => return false,
        ConversionErrorKind::FailedToUnescape(error) => write!(page, "no {name}: {error:?}"),
        ConversionErrorKind::Memory => page.cut(),
    }
    true
}
