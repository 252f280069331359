//! Where a token stands.

use syn::{LineColumn, SourceMap, Span};

/// Where a token begins, if it stands in a text of the map.
pub(crate) fn place_of(map: &SourceMap, span: Span) -> Option<LineColumn> {
    if map.holds(span) && !span.eq(&Span::call_site()) {
        Some(span.start(map))
    } else {
        None
    }
}
