//! Texts behind an older one, whose spans the map must leave.

use super::shown::as_before;
use proc_macro2::tree::TokenStream;
use rust_map::source_map::SourceMap;
use rust_map::span::Span;
use std::alloc::{AllocError, Global};
use test_support::{Page, Stop};

/// The text that is in the map already.
const OLDER: &str = "/// \u{e9}\nfn old(text: &'static str) { \"a\nb\" }";

/// A map with the older text.
#[derive(Drop)]
pub struct Older {
    /// The map.
    pub map: SourceMap,
    spans: Vec<Span>,
}

impl Older {
    /// The map with that text alone, and the spans of its trees.
    pub fn new(alloc: Global) -> Result<Older, Stop> {
        let mut map = SourceMap::new(alloc);
        let spans = spans(alloc, &mut map)?;
        Ok(Older { map, spans })
    }

    /// What the map says of the older text's spans, on a page of its own.
    pub fn answers(&self, alloc: Global) -> Page {
        let mut page = Page::new(alloc);
        for span in self.spans.as_slice() {
            put_answers(*span, &self.map, &mut page);
        }
        page
    }

    // Whether the map holds the older spans.
    fn is_held(&self) -> bool {
        let mut is_held = true;
        for span in self.spans.as_slice() {
            is_held = is_held && self.map.holds(*span);
        }
        is_held
    }

    /// What came of a text that was put behind, if the map holds the older spans and says of them what it said before.
    pub fn left(&self, before: &Page, outcome: Result<(), Stop>) -> Result<(), Stop> {
        if !self.is_held() {
            return Err(Stop::Changed);
        }
        as_before(before, &self.answers(before.alloc()))?;
        outcome
    }
}

// The spans of the older text's trees, which is put into the map.
fn spans(alloc: Global, map: &mut SourceMap) -> Result<Vec<Span>, Stop> {
    match TokenStream::from_str(alloc, OLDER, map) {
        Ok(stream) => spans_of(alloc, stream),
        Err(_) => Err(Stop::Elsewhere),
    }
}

fn spans_of(alloc: Global, stream: TokenStream) -> Result<Vec<Span>, Stop> {
    let mut spans = Vec::new(alloc);
    for tree in stream.into_iter()? {
        spans.push(tree.span())?;
    }
    Ok(spans)
}

// Puts what a map says of a span.
fn put_answers(span: Span, map: &SourceMap, page: &mut Page) {
    if map.holds(span) {
        let alloc = page.alloc();
        put_source(span.source_text(alloc, map), page);
        page.quote_made(span.file(alloc, map));
        let bytes = span.byte_range(map);
        let (start, end) = (span.start(map), span.end(map));
        write!(page, " {start:?} {end:?} {} {}\n", bytes.start, bytes.end);
    } else {
        page.put("not held\n");
    }
}

fn put_source(source: Result<Option<String>, AllocError>, page: &mut Page) {
    match source {
        Ok(text) => page.debug(&text),
        Err(_) => page.cut(),
    }
}
