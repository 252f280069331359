//! The spans of parts of literals.

use rust_leaf::literal::Literal;
use rust_map::source_map::SourceMap;
use rust_map::span::Span;
use std::ops::Bound;
use test_support::Page;

/// The parts of a literal by each form of a range: ends may be open, or their own.
pub fn parts(page: &mut Page) {
    let mut map = SourceMap::new(page.alloc());
    match Literal::from_str(page.alloc(), "\"abcd\"", &mut map) {
        Ok(literal) => put_parts(&literal, &map, page),
        Err(_) => page.cut(),
    }
}

fn put_parts(literal: &Literal, map: &SourceMap, page: &mut Page) {
    put("..", literal.subspan(..), map, page);
    put("2..", literal.subspan(2..), map, page);
    put("..2", literal.subspan(..2), map, page);
    put("1..=3", literal.subspan(1..=3), map, page);
    put("..=5", literal.subspan(..=5), map, page);
    let behind = (Bound::Excluded(1), Bound::Included(3));
    put("behind 1 up to 3", literal.subspan(behind), map, page);
}

// Puts the bytes of the text that a span covers.
fn put(range: &str, span: Option<Span>, map: &SourceMap, page: &mut Page) {
    match span {
        Some(span) if map.holds(span) => {
            let bytes = span.byte_range(map);
            write!(page, "part {range}: {} to {}\n", bytes.start, bytes.end);
        }
        _ => write!(page, "part {range}: none\n"),
    }
}
